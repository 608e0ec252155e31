//! What a join into one slot costs.

use crate::cost::Cost;
use crate::fault::BenchFault;
use crate::messages::ENDPOINT;
use lw_join::Join;
use lw_reg::{Addr, Attributes, Endpoint, GivenSettings, Op, Path, Slot, Text, What, atom};
use lw_stamp::{Moment, Stamp};
use std::alloc::Global;
use std::time::CpuClock;

/// An operation that is made, and whose atom is joined into a slot.
#[derive(Clone, Copy)]
pub(crate) enum SlotCall {
    Update,
    /// Each on a path above all that the slot has.
    Observe,
}

/// The stamp of the registration.
pub(crate) const FIRST: Stamp = Stamp {
    counter: 1,
    node: 1,
};

/// The number of the resource that is observed: a sensor's value.
const VALUE: u16 = 5700;

/// Where each Update comes from.
const SOURCE: Addr = Addr::V4 {
    address: [192, 0, 2, 1],
    port: 5683,
};

/// In seconds.
const LIFETIME: u32 = 300;

impl SlotCall {
    /// The cost of so many operations on one registration.
    pub(crate) fn round<C: CpuClock>(
        self,
        clock: &C,
        alloc: Global,
        count: u32,
    ) -> Result<Cost, BenchFault> {
        let mut slot = atom(alloc, operation(endpoint(alloc)?, FIRST, update(alloc)))?;
        self.cost(clock, alloc, &mut slot, count)
    }

    fn cost<C: CpuClock>(
        self,
        clock: &C,
        alloc: Global,
        slot: &mut Slot,
        count: u32,
    ) -> Result<Cost, BenchFault> {
        let start = clock.thread_cpu_time()?;
        for place in 0..count {
            slot.join_with(self.atom(alloc, place)?)?;
        }
        Cost::since(clock, start, count, 0)
    }

    fn atom(self, alloc: Global, place: u32) -> Result<Slot, BenchFault> {
        let endpoint = endpoint(alloc)?;
        Ok(atom(
            alloc,
            operation(endpoint, stamp(place), self.what(alloc, place)?),
        )?)
    }

    fn what(self, alloc: Global, place: u32) -> Result<What, BenchFault> {
        match self {
            SlotCall::Update => Ok(update(alloc)),
            SlotCall::Observe => Ok(What::Observe {
                path: path(place)?,
                accept: None,
            }),
        }
    }
}

/// Stamps rise with their places.
fn stamp(place: u32) -> Stamp {
    Stamp {
        counter: u64::from(place) + 2,
        node: 1,
    }
}

fn endpoint(alloc: Global) -> Result<Endpoint, BenchFault> {
    Endpoint::new(Text::copy_of(alloc, ENDPOINT)?).ok_or(BenchFault::Unexpected)
}

fn operation(endpoint: Endpoint, stamp: Stamp, what: What) -> Op {
    Op {
        stamp,
        endpoint,
        reg: FIRST,
        what,
    }
}

fn update(alloc: Global) -> What {
    What::Update {
        address: SOURCE,
        seen: Moment::START,
        settings: GivenSettings {
            lifetime: Some(LIFETIME),
            binding: None,
            sms: None,
            objects: None,
            attributes: Attributes::new(alloc),
        },
    }
}

/// The path of a place: paths rise with their places.
fn path(place: u32) -> Result<Path, BenchFault> {
    let number = place.saturating_mul(2);
    let object = (number / 65_536) as u16;
    let instance = (number % 65_536) as u16;
    Path::new(&[object, instance, VALUE]).ok_or(BenchFault::Unexpected)
}
