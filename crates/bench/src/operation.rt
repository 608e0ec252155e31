use crate::copies::CopyCall;
use crate::cost::{Cost, Costs};
use crate::deltas::DeltaCall;
use crate::exchange::ExchangeCall;
use crate::fault::BenchFault;
use crate::indexes::IndexCall;
use crate::names::Order;
use crate::nodes::{NodeCall, NodeCalls};
use crate::pages::PageCall;
use crate::requests::RequestCall;
use crate::runs::RunCall;
use crate::slots::SlotCall;
use crate::table::Plan;
use std::alloc::Global;
use std::time::CpuClock;

/// A call that is measured: a row of the table.
#[derive(Clone, Copy)]
pub(crate) enum Operation {
    Node(NodeCalls),
    Copy(CopyCall),
    Exchange(ExchangeCall),
    Slot(SlotCall),
    Delta(DeltaCall),
    Index(IndexCall),
    Request(RequestCall),
    Run(RunCall),
    Page(PageCall),
}

/// The most calls in a round that reads thousands of bytes each time.
const LONG_CALLS: u32 = 1000;

/// What is measured and its name, in the order of the table.
pub(crate) static ROWS: [(&str, Operation); 33] = [
    (
        "take of a new Register, names rising",
        Operation::Node(NodeCalls {
            known: None,
            names: Order::Rising,
            call: NodeCall::Take,
        }),
    ),
    (
        "take of a new Register, names scattered",
        Operation::Node(NodeCalls {
            known: None,
            names: Order::Scattered,
            call: NodeCall::Take,
        }),
    ),
    (
        "take of a known Register",
        Operation::Node(NodeCalls {
            known: Some(Order::Scattered),
            names: Order::Scattered,
            call: NodeCall::Take,
        }),
    ),
    (
        "take of an Update",
        Operation::Node(NodeCalls {
            known: Some(Order::Scattered),
            names: Order::Scattered,
            call: NodeCall::Update,
        }),
    ),
    (
        "observe",
        Operation::Node(NodeCalls {
            known: Some(Order::Scattered),
            names: Order::Scattered,
            call: NodeCall::Observe,
        }),
    ),
    (
        "by_id",
        Operation::Node(NodeCalls {
            known: Some(Order::Scattered),
            names: Order::Scattered,
            call: NodeCall::ById,
        }),
    ),
    (
        "by_address",
        Operation::Node(NodeCalls {
            known: Some(Order::Scattered),
            names: Order::Scattered,
            call: NodeCall::ByAddress,
        }),
    ),
    (
        "by_token",
        Operation::Node(NodeCalls {
            known: Some(Order::Scattered),
            names: Order::Scattered,
            call: NodeCall::ByToken,
        }),
    ),
    (
        "by_endpoint",
        Operation::Node(NodeCalls {
            known: Some(Order::Scattered),
            names: Order::Scattered,
            call: NodeCall::ByEndpoint,
        }),
    ),
    (
        "first_after an unknown name",
        Operation::Node(NodeCalls {
            known: Some(Order::Scattered),
            names: Order::Beside,
            call: NodeCall::FirstAfter,
        }),
    ),
    (
        "first_after, a walk over all",
        Operation::Node(NodeCalls {
            known: Some(Order::Rising),
            names: Order::Rising,
            call: NodeCall::FirstAfter,
        }),
    ),
    (
        "sweep, none due",
        Operation::Node(NodeCalls {
            known: Some(Order::Scattered),
            names: Order::Scattered,
            call: NodeCall::SweepNone,
        }),
    ),
    (
        "sweep, each of N due",
        Operation::Node(NodeCalls {
            known: Some(Order::Scattered),
            names: Order::Scattered,
            call: NodeCall::SweepDue,
        }),
    ),
    (
        "a page in front of N that have expired",
        Operation::Page(PageCall::OfEnded),
    ),
    ("Node::copy, each endpoint", Operation::Copy(CopyCall::Copy)),
    ("Node::same, each endpoint", Operation::Copy(CopyCall::Same)),
    (
        "delta_since, each of 32 slots that changed",
        Operation::Exchange(ExchangeCall::DeltaSince),
    ),
    (
        "merge, each of 32 slots that changed",
        Operation::Exchange(ExchangeCall::Merge),
    ),
    (
        "an Update made and joined",
        Operation::Slot(SlotCall::Update),
    ),
    (
        "an Observe on the last path made and joined",
        Operation::Slot(SlotCall::Observe),
    ),
    (
        "delta written, each slot",
        Operation::Delta(DeltaCall::Write),
    ),
    (
        "delta checked, each slot",
        Operation::Delta(DeltaCall::Check),
    ),
    ("delta read, each slot", Operation::Delta(DeltaCall::Read)),
    ("Places::add", Operation::Index(IndexCall::Add)),
    ("Places::of", Operation::Index(IndexCall::Of)),
    ("Places::drop_one", Operation::Index(IndexCall::DropOne)),
    (
        "decode and understand, a Register",
        Operation::Request(RequestCall::Understand),
    ),
    (
        "understand, 8 KB of empty queries",
        Operation::Request(RequestCall::UnderstandQueries),
    ),
    (
        "understand, 8 KB of attributes",
        Operation::Request(RequestCall::UnderstandAttributes),
    ),
    (
        "LinkText::read, a printing of 256 links",
        Operation::Request(RequestCall::ReadLinks),
    ),
    (
        "a run of 4 nodes, names rising, each event",
        Operation::Run(RunCall::Run(Order::Rising)),
    ),
    (
        "a run of 4 nodes, names scattered, each event",
        Operation::Run(RunCall::Run(Order::Scattered)),
    ),
    (
        "read_script of such a run, each event",
        Operation::Run(RunCall::ReadScript),
    ),
];

impl Operation {
    /// The cost of a round at this size. An answer that is not the expected one is a fault.
    pub(crate) fn round<C: CpuClock>(
        self,
        clock: &C,
        alloc: Global,
        count: u32,
    ) -> Result<Cost, BenchFault> {
        match self {
            Operation::Node(call) => call.round(clock, alloc, count),
            Operation::Copy(call) => call.round(clock, alloc, count),
            Operation::Exchange(call) => call.round(clock, alloc, count),
            Operation::Slot(call) => call.round(clock, alloc, count),
            Operation::Delta(call) => call.round(clock, alloc, count),
            Operation::Index(call) => call.round(clock, alloc, count),
            Operation::Request(call) => call.round(clock, alloc, count.min(LONG_CALLS)),
            Operation::Run(call) => call.round(clock, alloc, count),
            Operation::Page(call) => call.round(clock, alloc, count),
        }
    }

    /// A round at each size.
    fn turn<C: CpuClock>(self, clock: &C, alloc: Global, plan: Plan) -> Result<Costs, BenchFault> {
        Ok(Costs {
            small: self.round(clock, alloc, plan.small)?,
            medium: self.round(clock, alloc, plan.medium)?,
            large: self.round(clock, alloc, plan.large)?,
        })
    }

    /// The least costs of several rounds. The sizes take turns, so that a slow spell of the machine is met by all.
    pub(crate) fn least<C: CpuClock>(
        self,
        clock: &C,
        alloc: Global,
        plan: Plan,
    ) -> Result<Costs, BenchFault> {
        let mut least = self.turn(clock, alloc, plan)?;
        for _ in 1..plan.rounds {
            least = least.least(self.turn(clock, alloc, plan)?);
        }
        Ok(least)
    }
}
