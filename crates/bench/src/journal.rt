//! Calls of a node behind a lock, which stay in its journal and in the transcript of a pass.

use lw_held::{NoGate, Pass, Shelf};
use lw_node::{Addr, Bytes, Call};
use lw_stamp::{Moment, NoMemory};
use std::alloc::Global;
use std::sync::Wait;

/// The Register of `a` with the object list `</>`, and an Update of it.
const REGISTER: &[u8] = b"\x40\x02\x00\x04\xb2rd\x44ep=a\xff</>";

const UPDATE: &[u8] = b"\x40\x02\x00\x10\xb2rd\x0d\x030000000000010001";

/// Where both come from.
const SOURCE: Addr = Addr::V4 {
    address: [127, 0, 0, 1],
    port: 5683,
};

/// The first node takes a Register and so many Updates of it in the first pass, each datagram with bytes of its own.
pub(crate) fn take_all<R: Wait>(
    rt: &R,
    alloc: Global,
    shelves: &[Shelf],
    passes: &mut [Pass],
    count: u64,
) -> Result<(), NoMemory> {
    if let (Some(shelf), Some(pass)) = (shelves.first(), passes.first_mut()) {
        take(rt, alloc, shelf, pass, REGISTER)?;
        for _ in 0..count {
            take(rt, alloc, shelf, pass, UPDATE)?;
        }
    }
    Ok(())
}

fn take<R: Wait>(
    rt: &R,
    alloc: Global,
    shelf: &Shelf,
    pass: &mut Pass,
    datagram: &[u8],
) -> Result<u64, NoMemory> {
    let call = Call::Take {
        now: Moment::START,
        from: SOURCE,
        bytes: Bytes::copy_from_slice(alloc, datagram)?,
    };
    shelf.call(rt, &NoGate, pass, &call)
}
