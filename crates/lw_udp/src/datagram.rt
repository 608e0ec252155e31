ghost use Rattle.std.specs.Prelude.{◌≡◌, IfOk};

use bytes::Bytes;
use lw_reg::Addr;
use lw_stamp::NoMemory;
use std::alloc::Global;

/// How many bytes of a datagram are looked at: one more than the longest that is taken, so that a longer one is seen to
/// be too long.
pub const BUFFER: usize = 8_193;

/// A datagram that came.
#[derive(Drop)]
pub struct Datagram {
    /// Where it came from.
    pub from: Addr,
    /// What it holds.
    pub bytes: Bytes,
}

impl Datagram {
    /// The datagram of a copy of the bytes.
    pub fn new(alloc: Global, from: Addr, bytes: &[u8]) -> Result<Datagram, NoMemory>
        ensures { IfOk result (λ datagram. (datagram.from ≡ from) × (datagram.bytes ≡ bytes.now)) }
    {
        Ok(Datagram {
            from,
            bytes: Bytes::copy_from_slice(alloc, bytes)?,
        })
    }
}
