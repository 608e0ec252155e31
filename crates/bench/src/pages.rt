//! What a page of registrations costs, in front of N that have expired.

use crate::cost::Cost;
use crate::fault::BenchFault;
use crate::names::{Order, names};
use crate::nodes::{NodeCall, make_all};
use lw_api::registrations;
use lw_node::Node;
use lw_stamp::Moment;
use std::alloc::Global;
use std::time::CpuClock;

/// How many registrations a page has at most.
const LIMIT: usize = 64;

/// How often a page is asked for.
const PAGES: u32 = 100;

#[derive(Clone, Copy)]
pub(crate) enum PageCall {
    /// From the first name, once all have expired.
    OfEnded,
}

impl PageCall {
    /// The cost of a round at a node with so many endpoints.
    pub(crate) fn round<C: CpuClock>(
        self,
        clock: &C,
        alloc: Global,
        count: u32,
    ) -> Result<Cost, BenchFault> {
        let mut node = Node::new(alloc, 1);
        let names = names(alloc, Order::Rising, count)?;
        make_all(alloc, &mut node, NodeCall::Take, &names)?;
        match self {
            PageCall::OfEnded => of_ended(clock, alloc, &node),
        }
    }
}

fn of_ended<C: CpuClock>(clock: &C, alloc: Global, node: &Node) -> Result<Cost, BenchFault> {
    let last = Moment::new(Moment::LAST_MS).ok_or(BenchFault::Unexpected)?;
    let start = clock.thread_cpu_time()?;
    for _page in 0..PAGES {
        let page = registrations(alloc, node, last, None, LIMIT)?;
        if !page.as_str().ends_with(r#""registrations":[]}"#) {
            return Err(BenchFault::Unexpected);
        }
    }
    Cost::since(clock, start, PAGES, 0)
}
