//! Batches of datagrams.

ghost use Rattle.std.specs.Prelude.{◌≤◌, length, vec_len, IfOk};
ghost use Rattle.lw_server.specs.inner.Batches.{most_at_once};

use crate::Transport;
use lw_reg::Addr;
use lw_stamp::NoMemory;
use lw_udp::Datagram;
use std::alloc::Global;

/// How many datagrams make a batch at most.
const MOST_AT_ONCE: u32 = 256;

/// The datagram that came, and those that are there behind it. A fault behind the first ends the batch.
pub(crate) fn receive<T: Transport>(
    alloc: Global,
    transport: &mut T,
    buffer: &mut [u8],
    count: usize,
    from: Addr,
) -> Result<Vec<Datagram>, NoMemory>
    requires { count ≤ length buffer.old }
    ensures { IfOk result (λ batch. (1 ≤ vec_len batch) × (vec_len batch ≤ most_at_once)) }
{
    let mut batch = Vec::new(alloc);
    batch.push(Datagram::new(alloc, from, &buffer[..count])?)?;
    for _taken in 1..MOST_AT_ONCE {
        let Ok(Some((count, from))) = transport.more(buffer) else {
            break;
        };
        batch.push(Datagram::new(alloc, from, &buffer[..count])?)?;
    }
    Ok(batch)
}

/// How many datagrams are passed over at most that came while the server stood still.
const MOST_OLD: u32 = 65_536;

/// Passes over the datagrams that are there: how many.
pub(crate) fn pass_over_old<T: Transport>(transport: &mut T, buffer: &mut [u8]) -> u64 {
    let mut passed = 0u64;
    for _old in 0..MOST_OLD {
        let Ok(Some(_)) = transport.more(buffer) else {
            break;
        };
        passed = passed.saturating_add(1);
    }
    passed
}

/// Passes over the datagrams that are there, which with the one that came make a batch at most: how many with that one.
pub(crate) fn pass_over<T: Transport>(transport: &mut T, buffer: &mut [u8]) -> u64 {
    let mut passed = 1u64;
    for _more in 1..MOST_AT_ONCE {
        let Ok(Some(_)) = transport.more(buffer) else {
            break;
        };
        passed = passed.saturating_add(1);
    }
    passed
}
