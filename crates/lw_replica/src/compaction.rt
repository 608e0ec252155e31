//! A compaction: all that the node knows is written anew, and what was read goes.

ghost use Rattle.std.specs.Prelude.{◌≡◌, ◌↔◌, IfErr, IfOk, IsTrue, OnErr, OnOk};
ghost use Rattle.lw_log.specs.Calls.{place};
ghost use Rattle.lw_replica.specs.Compaction.{IsCompacted, Compacts, StandsBefore};
ghost use Rattle.lw_replica.specs.Own.{NumbersOwn};
ghost use Rattle.lw_replica.specs.Parts.{content_of, IsReplica};
ghost use Rattle.lw_replica.specs.Refusals.{Refuses};
ghost use Rattle.lw_replica.specs.inner.ReplicaState.{HasSameStart};
ghost use Rattle.lw_replica.specs.inner.Snapshots.{IsWrittenSnapshot, TriesSnapshot};

use crate::ReplicaFault;
use crate::rounds::{append, catch_up};
use crate::state::ReplicaState;
use lw_log::{Body, DeltaLog, FleetId, Position};

/// Whether the one position stands before the other.
fn stands_before(one: Position, other: Position) -> bool
    ensures { IsTrue result ↔ StandsBefore (place one) (place other) }
{
    one < other
}

/// Appends all that the node knows, with the numbers that starts have had: where it stands.
fn write_snapshot<G: DeltaLog>(
    log: &mut G,
    state: &mut ReplicaState,
    fleet: FleetId,
) -> Result<Position, ReplicaFault>
    requires { IsReplica (G.calls log.old) state.old }
    ensures written { IfOk result (λ position. IsWrittenSnapshot (G.calls log.old) state.old fleet.bytes
        (place position) (G.calls log.new) state.new) }
    ensures sequence { NumbersOwn (content_of (G.calls log.old) state.old)
        (content_of (G.calls log.new) state.new) }
    ensures refused { IfErr result (Refuses (content_of (G.calls log.old) state.old)
        (content_of (G.calls log.new) state.new)) }
    ensures own { OnErr result (TriesSnapshot (G.calls log.old) state.old fleet.bytes
        (G.calls log.new) state.new) }
    ensures same { HasSameStart state.old state.new }
    ensures node { state.new.node ≡ state.old.node }
    ensures fleet { state.new.fleet ≡ state.old.fleet }
    ensures settled { state.new.settled ≡ state.old.settled }
    ensures used_numbers { state.new.used_numbers ≡ state.old.used_numbers }
    ensures replica { IsReplica (G.calls log.new) state.new }
{
    let delta = state.node.delta_since(0)?;
    let body = Body::Snapshot {
        used_numbers: state.used_numbers.as_bytes(),
        delta: &delta,
    };
    let entry = state.entry(fleet, body)?;
    let position = append(log, state, &entry)?;
    state.appended_snapshot(position, entry.len());
    state.written = state.node.change();
    state.durable = true;
    Ok(position)
}

/// Reads the log to its end, appends all that the node knows, and then has go what was read, which stands before it.
pub(crate) fn compact<G: DeltaLog>(
    log: &mut G,
    state: &mut ReplicaState,
) -> Result<(), ReplicaFault>
    requires { IsReplica (G.calls log.old) state.old }
    ensures compacted { OnOk result (IsCompacted (content_of (G.calls log.old) state.old)
        (content_of (G.calls log.new) state.new)) }
    ensures sequence { NumbersOwn (content_of (G.calls log.old) state.old)
        (content_of (G.calls log.new) state.new) }
    ensures refused { IfErr result (Refuses (content_of (G.calls log.old) state.old)
        (content_of (G.calls log.new) state.new)) }
    ensures own { Compacts (content_of (G.calls log.old) state.old)
        (content_of (G.calls log.new) state.new) }
    ensures replica { IsReplica (G.calls log.new) state.new }
{
    catch_up(log, state)?;
    let Some(upto) = state.read_to else {
        return Ok(());
    };
    let Some(fleet) = state.fleet else {
        return Ok(());
    };
    let position = write_snapshot(log, state, fleet)?;
    // Where the log gives a position that it gave before, the entry would go with the others.
    if stands_before(upto, position) {
        log.trim(upto)?;
    }
    Ok(())
}
