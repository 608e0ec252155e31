//! The round of a turn.

ghost use Rattle.std.specs.Prelude.{◌≡◌, ◌+◌, ◌≤◌, IfOk, OnErr, OnOk, vec_len, vec_capacity};
ghost use Rattle.lw_replica.specs.Own.{WritesOwn};
ghost use Rattle.lw_server.specs.inner.Rounds.{ExecutesRound};

use crate::TurnFault;
use crate::blocks::{Handled, Sorted, put_handled};
use crate::calling::put_sweeps_where;
use lw_log::DeltaLog;
use lw_metrics::Tally;
use lw_reg::Addr;
use lw_replica::Replica;
use lw_stamp::Moment;
use std::alloc::Global;

/// A round of the replica with what it takes of the datagrams, which is counted, and the Sweeps at the moment before:
/// the datagrams that are answered. There is room for as many to be sent.
pub(crate) fn execute_round<G: DeltaLog>(
    alloc: Global,
    replica: &mut Replica<G>,
    tally: &mut Tally,
    before: Moment,
    sorted: Sorted,
    sends: &mut Vec<(Addr, Vec<u8>)>,
) -> Result<Vec<Handled>, TurnFault>
    ensures executed { IfOk result (λ handled.
        ExecutesRound before replica.old tally.old sorted handled.items replica.new tally.new) }
    ensures room { IfOk result (λ handled. vec_len sends.new + vec_len handled ≤ vec_capacity sends.new) }
    ensures sends { OnOk result (sends.new.items ≡ sends.old.items) }
    ensures own { WritesOwn replica.old replica.new }
    ensures uncounted { OnErr result (tally.new ≡ tally.old) }
{
    let Sorted {
        mut calls,
        origins,
        mut handled,
    } = sorted;
    put_sweeps_where(&mut calls, before, replica.is_claimed())?;
    handled.reserve(origins.len())?;
    sends.reserve(handled.capacity())?;
    let replies = replica.round(&calls)?;
    tally.count(&calls, &replies);
    put_handled(alloc, origins, replies, &mut handled);
    Ok(handled)
}
