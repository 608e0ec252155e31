//! A round of one call.

ghost use Rattle.std.specs.Prelude.{◌≡◌, ◌∷◌, [], IfOk, OnErr, OnOk};
ghost use Rattle.lw_replica.specs.Own.{WritesOwn};
ghost use Rattle.lw_replica.specs.Rounds.{IsRound};
ghost use Rattle.lw_metrics.specs.Counting.{counted};

use crate::TurnFault;
use lw_call::{Call, Reply};
use lw_log::DeltaLog;
use lw_metrics::Tally;
use lw_replica::Replica;
use std::alloc::Global;

/// What the call gives, in a round that is counted.
pub(crate) fn call_once<G: DeltaLog>(
    alloc: Global,
    replica: &mut Replica<G>,
    tally: &mut Tally,
    call: Call,
) -> Result<Reply, TurnFault>
    ensures round { IfOk result (λ reply. IsRound replica.old (call ∷ []) (reply ∷ []) replica.new) }
    ensures counts { IfOk result (λ reply. tally.new ≡ counted tally.old (call ∷ []) (reply ∷ [])) }
    ensures own { WritesOwn replica.old replica.new }
    ensures uncounted { OnErr result (tally.new ≡ tally.old) }
{
    let mut calls = Vec::with_capacity(alloc, 1)?;
    calls.push_reserved(call);
    let mut replies = replica.round(&calls)?;
    tally.count(&calls, &replies);
    let Some(reply) = replies.pop() else {
        unreachable!()
    };
    Ok(reply)
}
