//! The parts of a round, over a log and what its replica knows.

ghost use Rattle.std.specs.Prelude.{◌≡◌, ◌≢◌, ◌↔◌, ◌<◌, ◌*◌, ◌⊎◌, [], List, Option, Some, None, true, false, option_map, IfErr, IfOk, IsTrue, OnOk, OnErr};
ghost use Rattle.lw_log.specs.Calls.{LogCall, Calls, append_calls, place_of};
ghost use Rattle.lw_replica.specs.Clocks.{year_2100};
ghost use Rattle.lw_replica.specs.Own.{NumbersOwn, WritesOwn};
ghost use Rattle.lw_replica.specs.Refusals.{Refuses};
ghost use Rattle.lw_replica.specs.Reading.{AreReadToTheEnd, AreReads, entries_in, last_read};
ghost use Rattle.lw_replica.specs.Rounds.{IsRound};
ghost use Rattle.lw_replica.specs.Parts.{content_of, IsCovering, IsReplica};
ghost use Rattle.lw_replica.specs.Faults.{fault_of};
ghost use Rattle.lw_replica.specs.inner.ReplicaState.{BeginsAnewBy, HasSameStart};
ghost use Rattle.lw_replica.specs.inner.Taking.{Takes, IsJudged, IsReadBy};
ghost use Rattle.lw_replica.specs.inner.Writing.{Claims, Finished, IsStarted, IsWritingNow, IsClaimed, WritesOwnCalls};

use crate::ReplicaFault;
use crate::state::ReplicaState;
use lw_call::{Call, Reply};
use lw_log::{Body, DeltaLog, FleetId, LogFault, PAGE, Position};

/// Reads the log to its end, and takes what is there. Whether its own start was read, or has been before.
pub(crate) fn catch_up<G: DeltaLog>(
    log: &mut G,
    state: &mut ReplicaState,
) -> Result<bool, ReplicaFault>
    ensures read { IfOk result (λ own. (pages : List LogCall) × Calls (G.calls log.old) (G.calls log.new) pages
        × AreReadToTheEnd (place_of state.old.read_to) pages
        × Takes state.old (entries_in pages) state.new
        × IsJudged state.old.claimed state.old.start.number state.old.start.tag (entries_in pages) own
        × (place_of state.new.read_to ≡ last_read (place_of state.old.read_to) pages)) }
    ensures asked { (pages : List LogCall) × Calls (G.calls log.old) (G.calls log.new) pages × AreReads pages
        × IsReadBy state.old pages state.new }
    ensures lost { IfErr result (λ fault. BeginsAnewBy fault state.new) }
    ensures refused { IfErr result (Refuses (content_of (G.calls log.old) state.old)
        (content_of (G.calls log.new) state.new)) }
    ensures sequence { state.new.sequence ≡ state.old.sequence }
    ensures same { HasSameStart state.old state.new }
    ensures replica { IsReplica (G.calls log.old) state.old → IsReplica (G.calls log.new) state.new }
{
    let mut own = state.claimed;
    for _page in 0..u64::MAX {
        let page = match log.read(state.read_to) {
            Ok(page) => page,
            Err(fault) => {
                state.failed(fault);
                return Err(ReplicaFault::from(fault));
            }
        };
        own = state.judge_on(own, &page)?;
        state.take_page(&page)?;
        if page.len() < PAGE {
            return Ok(own);
        }
    }
    Err(ReplicaFault::Log(LogFault::Refused))
}

/// Appends an entry. What the log has lost by its fault is to be read and written again.
pub(crate) fn append<G: DeltaLog>(
    log: &mut G,
    state: &mut ReplicaState,
    entry: &[u8],
) -> Result<Position, LogFault>
    ensures asked { Calls (G.calls log.old) (G.calls log.new) (append_calls entry.now result) }
    ensures done { OnOk result (state.new ≡ state.old) }
    ensures only { state.new ≡ record state.old {
      read_to = state.new.read_to;
      written = state.new.written;
      durable = state.new.durable;
    } }
    ensures read_to { (state.new.read_to ≡ None) ⊎ (state.new.read_to ≡ state.old.read_to) }
    ensures lost { IfErr result (λ fault. BeginsAnewBy (fault_of fault) state.new) }
    ensures covering { (asked : Option (List LogCall)) → IsCovering asked state.old
        → IsCovering asked state.new }
{
    match log.append(entry) {
        Ok(position) => Ok(position),
        Err(fault) => {
            state.failed(fault);
            Err(fault)
        }
    }
}

/// Whether it is this fleet.
fn is_in(fleet: Option<FleetId>, own: FleetId) -> bool
    ensures { IsTrue result ↔ (option_map (λ f. f.bytes) fleet ≡ Some own.bytes) }
{
    match fleet {
        Some(fleet) => fleet.bytes == own.bytes,
        None => false,
    }
}

/// Whether its own start was not read, which was appended, though it is read again.
fn is_gone(own: bool, alone: bool) -> bool
    ensures shown { result ≡ false → alone ≡ false → own ≡ true }
    ensures gone { result ≡ true → (own ≡ false) × (alone ≡ false) }
{
    !own && !alone
}

/// Appends a start entry, and tells the fleet that it is in.
fn write_start<G: DeltaLog>(log: &mut G, state: &mut ReplicaState) -> Result<FleetId, ReplicaFault>
    ensures started { IfOk result (λ fleet. IsStarted (G.calls log.old) state.old fleet.bytes
        (G.calls log.new) state.new) }
    ensures lost { IfErr result (λ fault. BeginsAnewBy fault state.new) }
    ensures refused { IfErr result (Refuses (content_of (G.calls log.old) state.old)
        (content_of (G.calls log.new) state.new)) }
    ensures sequence { NumbersOwn (content_of (G.calls log.old) state.old)
        (content_of (G.calls log.new) state.new) }
    ensures own { OnErr result (Claims (G.calls log.old) state.old (G.calls log.new) state.new) }
    ensures same { HasSameStart state.old state.new }
    ensures replica { IsReplica (G.calls log.old) state.old → IsReplica (G.calls log.new) state.new }
{
    let fleet = state.own_fleet();
    let entry = state.entry(fleet, Body::Start)?;
    let position = append(log, state, &entry)?;
    state.started(position, fleet, entry.len());
    Ok(fleet)
}

/// Appends what has changed, if the log does not cover all.
fn write<G: DeltaLog>(log: &mut G, state: &mut ReplicaState) -> Result<(), ReplicaFault>
    ensures written { IsReplica (G.calls log.old) state.old
        → OnOk result (IsWritingNow (G.calls log.old) state.old (G.calls log.new) state.new) }
    ensures lost { IfErr result (λ fault. BeginsAnewBy fault state.new) }
    ensures refused { IfErr result (Refuses (content_of (G.calls log.old) state.old)
        (content_of (G.calls log.new) state.new)) }
    ensures sequence { NumbersOwn (content_of (G.calls log.old) state.old)
        (content_of (G.calls log.new) state.new) }
    ensures own { IsReplica (G.calls log.old) state.old
        → WritesOwnCalls (G.calls log.old) state.old (G.calls log.new) state.new }
    ensures same { HasSameStart state.old state.new }
    ensures node { state.new.node ≡ state.old.node }
    ensures fleet { state.new.fleet ≡ state.old.fleet }
    ensures settled { state.new.settled ≡ state.old.settled }
    ensures used_numbers { state.new.used_numbers ≡ state.old.used_numbers }
    ensures replica { IsReplica (G.calls log.old) state.old → IsReplica (G.calls log.new) state.new }
{
    if state.durable {
        return Ok(());
    }
    let Some(fleet) = state.fleet else {
        return Err(ReplicaFault::Log(LogFault::Refused));
    };
    let delta = state.node.delta_since(state.written)?;
    let entry = state.entry(fleet, Body::Delta(&delta))?;
    let position = append(log, state, &entry)?;
    state.appended(position, entry.len());
    state.written = state.node.change();
    state.durable = true;
    Ok(())
}

/// Claims the number: a start entry is appended, the log's own order decides, and the clock is raised to the floor.
fn claim<G: DeltaLog>(log: &mut G, state: &mut ReplicaState) -> Result<(), ReplicaFault>
    requires unclaimed { state.old.claimed ≡ false }
    requires floor { state.old.floor < 64 * year_2100 }
    ensures claimed { IsReplica (G.calls log.old) state.old
        → OnOk result (IsClaimed (G.calls log.old) state.old (G.calls log.new) state.new) }
    ensures lost { IfErr result (λ fault. BeginsAnewBy fault state.new) }
    ensures refused { IfErr result (Refuses (content_of (G.calls log.old) state.old)
        (content_of (G.calls log.new) state.new)) }
    ensures sequence { NumbersOwn (content_of (G.calls log.old) state.old)
        (content_of (G.calls log.new) state.new) }
    ensures own { Claims (G.calls log.old) state.old (G.calls log.new) state.new }
    ensures same { OnErr result (HasSameStart state.old state.new) }
    ensures start { OnOk result (HasSameStart state.old (record state.new { claimed = false })
        × (state.new.claimed ≡ true)) }
    ensures replica { IsReplica (G.calls log.old) state.old → IsReplica (G.calls log.new) state.new }
{
    let fleet = write_start(log, state)?;
    let own = catch_up(log, state)?;
    if is_gone(own, state.alone) {
        state.failed(LogFault::Lost);
        return Err(ReplicaFault::Log(LogFault::Lost));
    }
    if is_in(state.fleet, fleet) {
        state.raise()?;
        state.claimed = true;
        return Ok(());
    }
    Err(ReplicaFault::NumberTaken)
}

/// Makes the calls, and writes what has changed: the replies.
fn finish<G: DeltaLog>(
    log: &mut G,
    state: &mut ReplicaState,
    calls: &[Call],
) -> Result<Vec<Reply>, ReplicaFault>
    requires { IsReplica (G.calls log.old) state.old }
    ensures finished { IfOk result (λ replies. Finished (G.calls log.old) state.old calls.now
        replies.items (G.calls log.new) state.new) }
    ensures lost { IfErr result (λ fault. BeginsAnewBy fault state.new) }
    ensures refused { IfErr result (Refuses (content_of (G.calls log.old) state.old)
        (content_of (G.calls log.new) state.new)) }
    ensures sequence { NumbersOwn (content_of (G.calls log.old) state.old)
        (content_of (G.calls log.new) state.new) }
    ensures own { WritesOwnCalls (G.calls log.old) state.old (G.calls log.new) state.new }
    ensures same { HasSameStart state.old state.new }
    ensures replica { IsReplica (G.calls log.new) state.new }
{
    let mut replies = Vec::with_capacity(state.alloc, calls.len())?;
    state.make(calls, &mut replies);
    write(log, state)?;
    Ok(replies)
}

/// One round.
pub(crate) fn round<G: DeltaLog>(
    log: &mut G,
    state: &mut ReplicaState,
    calls: &[Call],
) -> Result<Vec<Reply>, ReplicaFault>
    requires { IsReplica (G.calls log.old) state.old }
    ensures round { IfOk result (λ replies. IsRound (content_of (G.calls log.old) state.old) calls.now
        replies.items (content_of (G.calls log.new) state.new)) }
    ensures lost { IfErr result (λ fault. BeginsAnewBy fault state.new) }
    ensures refused { IfErr result (Refuses (content_of (G.calls log.old) state.old)
        (content_of (G.calls log.new) state.new)) }
    ensures sequence { NumbersOwn (content_of (G.calls log.old) state.old)
        (content_of (G.calls log.new) state.new) }
    ensures own { WritesOwn (content_of (G.calls log.old) state.old)
        (content_of (G.calls log.new) state.new) }
    ensures replica { IsReplica (G.calls log.new) state.new }
{
    if is_claiming(state, calls) {
        claim(log, state)?;
        return finish(log, state, calls);
    }
    catch_up(log, state)?;
    finish(log, state, calls)
}

/// Whether the number is to be claimed: it is not yet, and there is something to write, or may be.
fn is_claiming(state: &ReplicaState, calls: &[Call]) -> bool
    ensures { IsTrue result ↔ ((state.now.claimed ≡ false)
        × ((calls.now ≢ []) ⊎ (state.now.durable ≡ false))) }
{
    !state.claimed && (!calls.is_empty() || !state.durable)
}
