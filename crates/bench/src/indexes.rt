//! What the calls of an index of N addresses cost, each with one place.

use crate::cost::Cost;
use crate::fault::BenchFault;
use lw_index::Places;
use lw_reg::Addr;
use std::alloc::Global;
use std::time::CpuClock;

/// A call of an index.
#[derive(Clone, Copy)]
pub(crate) enum IndexCall {
    Add,
    Of,
    DropOne,
}

/// From address to address; odd, so that none comes twice.
const STEP: u32 = 2_654_435_769;

impl IndexCall {
    /// The cost of a round over so many keys, addresses scattered.
    pub(crate) fn round<C: CpuClock>(
        self,
        clock: &C,
        alloc: Global,
        count: u32,
    ) -> Result<Cost, BenchFault> {
        let mut index = Places::new(alloc);
        self.cost(clock, &mut index, count)
    }

    /// The cost of the calls of an empty index, which is filled first where they look something up.
    fn cost<C: CpuClock>(
        self,
        clock: &C,
        index: &mut Places<Addr>,
        count: u32,
    ) -> Result<Cost, BenchFault> {
        match self {
            IndexCall::Add => (),
            IndexCall::Of | IndexCall::DropOne => add_all(index, count)?,
        }
        let start = clock.thread_cpu_time()?;
        make_all(index, self, count)?;
        Cost::since(clock, start, count, 0)
    }

    /// Whether there was an answer, where one is given.
    fn make(self, index: &mut Places<Addr>, key: Addr, place: u32) -> Result<bool, BenchFault> {
        match self {
            IndexCall::Add => index.add(key, place)?,
            IndexCall::Of => return Ok(index.of(key).next().is_some()),
            IndexCall::DropOne => index.drop_one(key, place),
        }
        Ok(true)
    }
}

/// Adds so many places, each at an address of its own.
pub(crate) fn add_all(index: &mut Places<Addr>, count: u32) -> Result<(), BenchFault> {
    make_all(index, IndexCall::Add, count)
}

fn make_all(index: &mut Places<Addr>, call: IndexCall, count: u32) -> Result<(), BenchFault> {
    let mut number = 0_u32;
    for place in 0..count {
        let key = Addr::V4 {
            address: number.to_be_bytes(),
            port: 5683,
        };
        if !call.make(index, key, place)? {
            return Err(BenchFault::Unexpected);
        }
        number = number.wrapping_add(STEP);
    }
    Ok(())
}
