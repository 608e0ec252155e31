//! What it costs to copy a node, and to compare it with a copy, for each of its endpoints.

use crate::cost::Cost;
use crate::fault::BenchFault;
use crate::names::{Order, names};
use crate::nodes::{NodeCall, make_all};
use lw_node::Node;
use std::alloc::Global;
use std::time::CpuClock;

#[derive(Clone, Copy)]
pub(crate) enum CopyCall {
    Copy,
    Same,
}

impl CopyCall {
    /// The cost of a round at a node with so many endpoints.
    pub(crate) fn round<C: CpuClock>(
        self,
        clock: &C,
        alloc: Global,
        count: u32,
    ) -> Result<Cost, BenchFault> {
        let mut node = Node::new(alloc, 1);
        let names = names(alloc, Order::Scattered, count)?;
        make_all(alloc, &mut node, NodeCall::Take, &names)?;
        match self {
            CopyCall::Copy => copy(clock, &node, count),
            CopyCall::Same => same(clock, &node, count),
        }
    }
}

fn copy<C: CpuClock>(clock: &C, node: &Node, count: u32) -> Result<Cost, BenchFault> {
    let start = clock.thread_cpu_time()?;
    let copy = node.copy()?;
    let cost = Cost::since(clock, start, count, 0)?;
    if !node.same(&copy) {
        return Err(BenchFault::Unexpected);
    }
    Ok(cost)
}

fn same<C: CpuClock>(clock: &C, node: &Node, count: u32) -> Result<Cost, BenchFault> {
    let copy = node.copy()?;
    let start = clock.thread_cpu_time()?;
    if !node.same(&copy) {
        return Err(BenchFault::Unexpected);
    }
    Cost::since(clock, start, count, 0)
}
