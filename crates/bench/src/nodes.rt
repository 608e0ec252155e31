//! What a node's calls cost, with N endpoints.

use crate::cost::Cost;
use crate::fault::BenchFault;
use crate::messages::{put_register, put_update};
use crate::names::{Order, names};
use lw_node::{Addr, Node, Path};
use lw_stamp::{Moment, Stamp};
use std::alloc::Global;
use std::time::CpuClock;

/// Calls of a node, one a name.
#[derive(Clone, Copy)]
pub(crate) struct NodeCalls {
    /// Which endpoints the node knows before.
    pub known: Option<Order>,
    /// Which names the calls are made with.
    pub names: Order,
    pub call: NodeCall,
}

/// A call with a name, or with the stamp of the operation that had the same place among the first.
#[derive(Clone, Copy)]
pub(crate) enum NodeCall {
    /// Of a Register.
    Take,
    /// Of an Update.
    Update,
    Observe,
    ById,
    ByEndpoint,
    ByAddress,
    /// At a node that observes a path of each.
    ByToken,
    FirstAfter,
    /// Of a sweep when the endpoints register, so that none is ended.
    SweepNone,
    /// Of a sweep at the last moment, so that one is ended.
    SweepDue,
}

impl NodeCalls {
    /// The cost of a round at a node with so many endpoints.
    pub(crate) fn round<C: CpuClock>(
        self,
        clock: &C,
        alloc: Global,
        count: u32,
    ) -> Result<Cost, BenchFault> {
        let mut node = Node::new(alloc, 1);
        self.cost(clock, alloc, &mut node, count)
    }

    fn cost<C: CpuClock>(
        self,
        clock: &C,
        alloc: Global,
        node: &mut Node,
        count: u32,
    ) -> Result<Cost, BenchFault> {
        if let Some(order) = self.known {
            self.fill(alloc, node, &names(alloc, order, count)?)?;
        }
        let names = names(alloc, self.names, count)?;
        self.call.cost(clock, alloc, node, &names, count)
    }

    /// The endpoints register, and where tokens are looked for, a path of each is observed.
    fn fill(self, alloc: Global, node: &mut Node, names: &[String]) -> Result<(), BenchFault> {
        make_all(alloc, node, NodeCall::Take, names)?;
        match self.call {
            NodeCall::ByToken => make_all(alloc, node, NodeCall::Observe, names),
            _ => Ok(()),
        }
    }
}

/// Makes the call with each name; all but one must find something. Behind the last endpoint there is none.
pub(crate) fn make_all(
    alloc: Global,
    node: &mut Node,
    call: NodeCall,
    names: &[String],
) -> Result<(), BenchFault> {
    let mut datagram = Vec::new(alloc);
    make_each(node, &mut datagram, call, names)
}

fn make_each(
    node: &mut Node,
    datagram: &mut Vec<u8>,
    call: NodeCall,
    names: &[String],
) -> Result<(), BenchFault> {
    let mut place = 0_u32;
    let mut has_last = false;
    for name in names {
        let is_found = call.make(node, datagram, name.as_str(), place)?;
        if !is_found && has_last {
            return Err(BenchFault::Unexpected);
        }
        has_last |= !is_found;
        place = place.wrapping_add(1);
    }
    Ok(())
}

/// The counters of stamps are below it.
const COUNTERS: u64 = 1 << 48;

/// The stamp of the operation with this place, from 0, behind so many others, at node 1.
fn stamp_at(before: u64, place: u32) -> Result<Stamp, BenchFault> {
    let counter = before.saturating_add(u64::from(place)).saturating_add(1);
    if counter >= COUNTERS {
        return Err(BenchFault::Unexpected);
    }
    Ok(Stamp { counter, node: 1 })
}

/// Where the device of this place sends from.
pub(crate) fn source_at(place: u32) -> Addr {
    Addr::V4 {
        address: place.to_be_bytes(),
        port: 5683,
    }
}

impl NodeCall {
    /// The cost of the calls with so many names.
    fn cost<C: CpuClock>(
        self,
        clock: &C,
        alloc: Global,
        node: &mut Node,
        names: &[String],
        count: u32,
    ) -> Result<Cost, BenchFault> {
        let start = clock.thread_cpu_time()?;
        make_all(alloc, node, self, names)?;
        Cost::since(clock, start, count, 0)
    }

    /// Whether there was an answer.
    fn make(
        self,
        node: &mut Node,
        datagram: &mut Vec<u8>,
        name: &str,
        place: u32,
    ) -> Result<bool, BenchFault> {
        match self {
            NodeCall::Take => {
                put_register(datagram, name, &[], 0)?;
                take(node, datagram, place)
            }
            NodeCall::Update => {
                put_update(datagram, stamp_at(0, place)?)?;
                take(node, datagram, place)
            }
            NodeCall::Observe => observe(node, stamp_at(0, place)?),
            NodeCall::SweepNone => Ok(node.sweep(Moment::START) == Ok(None)),
            NodeCall::SweepDue => sweep_last(node),
            look_up => look_up.finds(node, name, place),
        }
    }

    /// Whether a look-up finds something.
    fn finds(self, node: &Node, name: &str, place: u32) -> Result<bool, BenchFault> {
        let now = Moment::START;
        match self {
            NodeCall::ById => Ok(node.by_id(now, stamp_at(0, place)?).is_some()),
            NodeCall::ByEndpoint => Ok(node.by_endpoint(now, name).is_some()),
            NodeCall::ByAddress => Ok(node.by_address(now, source_at(place)).is_some()),
            NodeCall::ByToken => {
                let token = stamp_at(node.clock() / 2, place)?;
                Ok(node.by_token(now, token).is_some())
            }
            NodeCall::FirstAfter => Ok(node.first_after(now, Some(name)).is_some()),
            _ => Err(BenchFault::Unexpected),
        }
    }
}

/// Takes the datagram from the device of this place. Whether there was a reply.
fn take(node: &mut Node, datagram: &[u8], place: u32) -> Result<bool, BenchFault> {
    let taken = node.take(Moment::START, source_at(place), datagram)?;
    Ok(taken.reply.is_some())
}

/// Observes the device's path of the registration.
fn observe(node: &mut Node, id: Stamp) -> Result<bool, BenchFault> {
    let path = Path::new(&[3, 0]).ok_or(BenchFault::Unexpected)?;
    Ok(node.observe(Moment::START, id, path, None, 1).is_ok())
}

/// Sweeps at the last moment. Whether a registration was ended.
fn sweep_last(node: &mut Node) -> Result<bool, BenchFault> {
    let last = Moment::new(Moment::LAST_MS).ok_or(BenchFault::Unexpected)?;
    Ok(matches!(node.sweep(last), Ok(Some(_))))
}
