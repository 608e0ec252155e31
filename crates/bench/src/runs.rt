//! What a run of several nodes costs, and what reading its script costs.

use crate::cost::Cost;
use crate::events::{NODES, endpoint_at, events, id_at, updated};
use crate::fault::BenchFault;
use crate::names::Order;
use crate::script::script_of;
use lw_node::Answer;
use lw_script::read_script;
use lw_stamp::{Moment, Stamp};
use lw_world::{Event, Node, Outcome, World, run};
use std::alloc::Global;
use std::time::CpuClock;

/// A call with the events of a run, where each counts as a call.
#[derive(Clone, Copy)]
pub(crate) enum RunCall {
    /// Of endpoints in this order.
    Run(Order),
    ReadScript,
}

/// The class of the codes of success (RFC 7252, section 5.9.1).
const SUCCESS: u8 = 2;

impl RunCall {
    /// The cost of a round with so many endpoints.
    pub(crate) fn round<C: CpuClock>(
        self,
        clock: &C,
        alloc: Global,
        count: u32,
    ) -> Result<Cost, BenchFault> {
        match self {
            RunCall::Run(order) => run_all(clock, alloc, order, count),
            RunCall::ReadScript => read_all(clock, alloc, &events(alloc, Order::Scattered, count)?),
        }
    }
}

fn run_all<C: CpuClock>(
    clock: &C,
    alloc: Global,
    order: Order,
    count: u32,
) -> Result<Cost, BenchFault> {
    let events = events(alloc, order, count)?;
    run_these(clock, alloc, &events, order, count)
}

/// The cost of the events of a run of so many endpoints in this order.
fn run_these<C: CpuClock>(
    clock: &C,
    alloc: Global,
    events: &[Event],
    order: Order,
    count: u32,
) -> Result<Cost, BenchFault> {
    let calls = calls_of(events)?;
    let start = clock.thread_cpu_time()?;
    let (world, outcomes) = run(alloc, NODES, events)?;
    let cost = Cost::since(clock, start, calls, 0)?;
    see_outcomes(&outcomes, events.len())?;
    see_all(alloc, &world, order, count)?;
    Ok(cost)
}

fn read_all<C: CpuClock>(clock: &C, alloc: Global, events: &[Event]) -> Result<Cost, BenchFault> {
    let calls = calls_of(events)?;
    let text = script_of(alloc, events)?;
    read_text(clock, alloc, text.as_bytes(), calls)
}

fn read_text<C: CpuClock>(
    clock: &C,
    alloc: Global,
    text: &[u8],
    calls: u32,
) -> Result<Cost, BenchFault> {
    let start = clock.thread_cpu_time()?;
    let script = read_script(alloc, text)?;
    let cost = Cost::since(clock, start, calls, text.len() as u64)?;
    if script.nodes == NODES && script.events.len() == calls as usize {
        Ok(cost)
    } else {
        Err(BenchFault::Unexpected)
    }
}

fn calls_of(events: &[Event]) -> Result<u32, BenchFault> {
    match u32::try_from(events.len()) {
        Ok(calls) => Ok(calls),
        Err(_) => Err(BenchFault::Unexpected),
    }
}

/// Each of so many events has to have done what it should.
fn see_outcomes(outcomes: &[Outcome], events: usize) -> Result<(), BenchFault> {
    for outcome in outcomes {
        if !is_good(outcome) {
            return Err(BenchFault::Unexpected);
        }
    }
    if outcomes.len() == events {
        Ok(())
    } else {
        Err(BenchFault::Unexpected)
    }
}

/// Whether the event did what it should.
fn is_good(outcome: &Outcome) -> bool {
    match outcome {
        Outcome::Taken(Ok(taken)) => is_success(taken.reply.as_deref()),
        Outcome::Answered(Ok(Answer::Registration(seen))) => seen.is_some(),
        Outcome::Sent(sent) => sent.is_ok(),
        Outcome::Delivered(joined) => joined.is_ok(),
        _ => false,
    }
}

/// Whether there is a message and its code, the second byte, is one of success.
fn is_success(message: Option<&[u8]>) -> bool {
    match message {
        Some([_, code, ..]) => code / 32 == SUCCESS,
        _ => false,
    }
}

/// Each endpoint has to be shown at every node, as it was updated.
fn see_all(alloc: Global, world: &World, order: Order, count: u32) -> Result<(), BenchFault> {
    let now = updated()?;
    for place in 0..count {
        let name = endpoint_at(alloc, order, place)?;
        see_one(world, now, name.as_str(), id_at(place))?;
    }
    Ok(())
}

fn see_one(world: &World, now: Moment, name: &str, id: Stamp) -> Result<(), BenchFault> {
    for place in 0..NODES {
        if !is_shown_at(world, place + 1, now, name, id) {
            return Err(BenchFault::Unexpected);
        }
    }
    Ok(())
}

fn is_shown_at(world: &World, number: u16, now: Moment, name: &str, id: Stamp) -> bool {
    match world.node(number) {
        Some(node) => is_shown(node, now, name, id),
        None => false,
    }
}

fn is_shown(node: &Node, now: Moment, name: &str, id: Stamp) -> bool {
    match node.by_endpoint(now, name) {
        Some(view) => view.id == id && view.seen == now,
        None => false,
    }
}
