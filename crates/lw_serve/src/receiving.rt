//! Batches of datagrams.

ghost use Rattle.std.specs.Prelude.{◌≡◌, ◌≤◌, length, min, vec_len, IfErr, IfOk, IsOkUnless};
ghost use Rattle.lw_serve.specs.Plan.{most_at_once};
ghost use Rattle.lw_serve.specs.inner.Runs.{EndsReceiving};

use crate::fault::ServeFault;
use crate::wire::Wire;
use log::{Log, warn};
use lw_reg::Addr;
use lw_udp::{Datagram, WireFault};
use std::alloc::Global;

/// How many datagrams make a batch at most.
const MOST_AT_ONCE: u32 = 32;

/// How many faults in a row end a run.
const FAULTS_IN_A_ROW: u32 = 1_000;

/// Waits for a datagram and takes those that are already there, at most as many as are left. A fault behind the first
/// ends the batch.
pub(crate) fn receive<W: Wire, L: Log>(
    alloc: Global,
    wire: &mut W,
    log: &L,
    buffer: &mut [u8],
    left: u32,
) -> Result<Vec<Datagram>, ServeFault>
    requires { 1 ≤ left }
    ensures size { IfOk result (λ batch. (1 ≤ vec_len batch) × (vec_len batch ≤ min left most_at_once)) }
    ensures fault { IfErr result EndsReceiving }
{
    let (length, from) = wait(wire, log, buffer)?;
    let mut batch = Vec::new(alloc);
    batch.push(Datagram::new(alloc, from, &buffer[..length])?)?;
    for _taken in 1..left.min(MOST_AT_ONCE) {
        let Ok(Some((length, from))) = wire.more(buffer) else {
            break;
        };
        batch.push(Datagram::new(alloc, from, &buffer[..length])?)?;
    }
    Ok(batch)
}

/// Waits for a datagram. Faults are passed over, up to the one that ends a run.
fn wait<W: Wire, L: Log>(
    wire: &mut W,
    log: &L,
    buffer: &mut [u8],
) -> Result<(usize, Addr), ServeFault>
    ensures bound { IfOk result (λ taken. taken.0 ≤ length buffer.new) }
    ensures fault { IsOkUnless result ServeFault.ReceiveFailed }
{
    for _fault in 1..FAULTS_IN_A_ROW {
        match wire.wait(buffer) {
            Ok(taken) => return Ok(taken),
            Err(WireFault) => warn!(log; "receive passed over"),
        }
    }
    wire.wait(buffer).map_err(|_| ServeFault::ReceiveFailed)
}
