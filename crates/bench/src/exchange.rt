//! What the exchange of a few changes costs, between nodes of N endpoints.

use crate::cost::Cost;
use crate::fault::BenchFault;
use crate::names::{Order, names};
use crate::nodes::{NodeCall, make_all};
use lw_node::Node;
use std::alloc::Global;
use std::time::CpuClock;

/// A call on what has changed; a slot of it counts as a call.
#[derive(Clone, Copy)]
pub(crate) enum ExchangeCall {
    DeltaSince,
    Merge,
}

/// How many endpoints have changed.
const CHANGED: u32 = 32;

impl ExchangeCall {
    /// The cost of a round at nodes with so many endpoints.
    pub(crate) fn round<C: CpuClock>(
        self,
        clock: &C,
        alloc: Global,
        count: u32,
    ) -> Result<Cost, BenchFault> {
        let all = names(alloc, Order::Scattered, count)?;
        let mut node = Node::new(alloc, 1);
        self.cost(clock, alloc, &mut node, &all)
    }

    /// The cost at an empty node, to which these endpoints register first.
    fn cost<C: CpuClock>(
        self,
        clock: &C,
        alloc: Global,
        node: &mut Node,
        all: &[String],
    ) -> Result<Cost, BenchFault> {
        make_all(alloc, node, NodeCall::Take, all)?;
        let since = node.change();
        change(alloc, node)?;
        match self {
            ExchangeCall::DeltaSince => send(clock, node, since),
            ExchangeCall::Merge => merge(clock, alloc, all, &node.delta_since(since)?),
        }
    }
}

fn change(alloc: Global, node: &mut Node) -> Result<(), BenchFault> {
    let changed = names(alloc, Order::Scattered, CHANGED)?;
    make_all(alloc, node, NodeCall::Take, &changed)
}

fn send<C: CpuClock>(clock: &C, node: &Node, since: u64) -> Result<Cost, BenchFault> {
    let start = clock.thread_cpu_time()?;
    let bytes = node.delta_since(since)?;
    Cost::since(clock, start, CHANGED, bytes.len() as u64)
}

/// The delta is merged into another node that knows all endpoints.
fn merge<C: CpuClock>(
    clock: &C,
    alloc: Global,
    all: &[String],
    delta: &[u8],
) -> Result<Cost, BenchFault> {
    let mut node = Node::new(alloc, 2);
    fill_and_merge(clock, alloc, &mut node, all, delta)
}

fn fill_and_merge<C: CpuClock>(
    clock: &C,
    alloc: Global,
    node: &mut Node,
    all: &[String],
    delta: &[u8],
) -> Result<Cost, BenchFault> {
    make_all(alloc, node, NodeCall::Take, all)?;
    let start = clock.thread_cpu_time()?;
    let merged = node.merge(delta)?;
    let cost = Cost::since(clock, start, CHANGED, delta.len() as u64)?;
    if merged == CHANGED as usize {
        Ok(cost)
    } else {
        Err(BenchFault::Unexpected)
    }
}
