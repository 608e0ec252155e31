//! What reading and writing a delta of N slots costs.

ghost use Rattle.std.specs.Prelude.{◌<◌, ◌^◌, None};
ghost use Rattle.lw_delta.specs.Writable.{AllFollow};

use crate::cost::Cost;
use crate::fault::BenchFault;
use crate::messages::{OBJECTS, put_parts};
use crate::names::name_of;
use lw_delta::{Writer, check, read};
use lw_reg::{Endpoint, Slot};
use lw_stamp::NoMemory;
use std::alloc::{AllocError, Global};
use std::time::CpuClock;

/// A call on a delta.
#[derive(Clone, Copy)]
pub(crate) enum DeltaCall {
    Write,
    Check,
    Read,
}

/// The magic bytes and a clock of 1.
const HEADER: &[u8] = &[b'L', b'W', b'D', b'2', 0, 0, 0, 0, 0, 1];

/// What stands before an endpoint of 24 bytes.
const SLOT_BEGIN: &[u8] = &[1, 24];

/// What stands behind the endpoint, up to the 72 bytes of the object list: a registration with all fields,
/// written by the operation with counter 1 at node 1.
const FIELDS: &[u8] = &[
    0, 0, 0, 0, 0, 1, 0, 1, 0x7f, // the registration's stamp, and which fields there are
    1, // version 1.1, no queue mode
    0, 0, 0, 0, 0, 1, 0, 1, 4, 192, 0, 2, 1, 0x16, 0x33, // 192.0.2.1:5683
    0, 0, 0, 0, 0, 1, 0, 1, 0, 0, 0, 0, 0, 0, // the moment 0
    0, 0, 0, 0, 0, 1, 0, 1, 0, 0, 1, 0x2c, // 300 seconds
    0, 0, 0, 0, 0, 1, 0, 1, 1, b'U', // the binding
    0, 0, 0, 0, 0, 1, 0, 1, 0, // no SMS number
    0, 0, 0, 0, 0, 1, 0, 1, 0, 72, // an object list
];

/// What ends the attributes, the watches and the slots.
const END: &[u8] = &[0];

impl DeltaCall {
    /// The cost of a delta of so many slots: each call is one on a slot.
    pub(crate) fn round<C: CpuClock>(
        self,
        clock: &C,
        alloc: Global,
        count: u32,
    ) -> Result<Cost, BenchFault> {
        let bytes = bytes_of(alloc, count)?;
        match self {
            DeltaCall::Write => cost_of_write(clock, alloc, &bytes, count),
            DeltaCall::Check => cost_of_check(clock, &bytes, count),
            DeltaCall::Read => cost_of_read(clock, alloc, &bytes, count),
        }
    }
}

fn cost_of_write<C: CpuClock>(
    clock: &C,
    alloc: Global,
    bytes: &[u8],
    count: u32,
) -> Result<Cost, BenchFault> {
    let delta = read(alloc, bytes)?;
    let start = clock.thread_cpu_time()?;
    write(alloc, delta.clock, &delta.slots)?;
    Cost::since(clock, start, count, bytes.len() as u64)
}

fn cost_of_check<C: CpuClock>(clock: &C, bytes: &[u8], count: u32) -> Result<Cost, BenchFault> {
    let start = clock.thread_cpu_time()?;
    check(bytes)?;
    Cost::since(clock, start, count, bytes.len() as u64)
}

/// What was read is given back behind the reading of the clock.
fn cost_of_read<C: CpuClock>(
    clock: &C,
    alloc: Global,
    bytes: &[u8],
    count: u32,
) -> Result<Cost, BenchFault> {
    let start = clock.thread_cpu_time()?;
    let _kept = read(alloc, bytes)?;
    Cost::since(clock, start, count, bytes.len() as u64)
}

/// The bytes of a delta with a registration of each of the first names, rising.
fn bytes_of(alloc: Global, count: u32) -> Result<Vec<u8>, AllocError> {
    let mut bytes = Vec::from_slice(alloc, HEADER)?;
    put_slots(alloc, count, &mut bytes)?;
    Ok(bytes)
}

fn put_slots(alloc: Global, count: u32, bytes: &mut Vec<u8>) -> Result<(), AllocError> {
    for place in 0..count {
        let name = name_of(alloc, u64::from(place))?;
        put_parts(
            bytes,
            &[SLOT_BEGIN, name.as_bytes(), FIELDS, OBJECTS, END, END],
        )?;
    }
    bytes.extend_from_slice(END)
}

fn write(alloc: Global, clock: u64, slots: &[(Endpoint, Slot)]) -> Result<Vec<u8>, NoMemory>
    requires in_range { clock < 2 ^ 48 }
    requires follow { AllFollow clock None slots.now }
{
    let mut writer = Writer::new(alloc, clock)?;
    for entry in slots {
        let (endpoint, slot) = entry;
        writer.slot(endpoint.as_str(), slot)?;
    }
    writer.end()
}
