//! What a replica knows, and how far it has read and written.

ghost use Rattle.std.specs.Prelude.{◌≡◌, ◌≢◌, ◌↔◌, ◌≤◌, ◌<◌, ◌*◌, ◌+◌, ◌++◌, ◌⊎◌, ℕ, List, [], ◌∷◌, length, Option, Some, None, true, false, cond, IfErr, IfOk, OnOk, IsTrue, vec_len, vec_capacity};
ghost use Rattle.lw_call.specs.declared.reply.Reply.{Reply as Replies};
ghost use Rattle.lw_delta.specs.Delta.{DeltaContent, IsSpelling};
ghost use Rattle.lw_node.specs.Exchange.{Merged};
ghost use Rattle.lw_table.specs.Changes.{LAST};
ghost use Rattle.lw_log.specs.Calls.{LogCall, placed, place, place_of};
ghost use Rattle.lw_log.specs.Entries.{BringsDelta, FitsBody, body_content};
ghost use Rattle.lw_log.specs.Entries.BodyContent.{Start as StartContent};
ghost use Rattle.lw_log.specs.declared.log_fault.LogFault.TheVariants.{Lost as IsLost};
ghost use Rattle.lw_replica.specs.declared.fault.ReplicaFault.TheVariants.{Log as IsLog, LogNewer as IsNewerLog, NoMemory as OutOfMemory, NumberTaken as IsTaken};
ghost use Rattle.lw_replica.specs.Faults.{fault_of};
ghost use Rattle.lw_replica.specs.Clocks.{year_2100};
ghost use Rattle.lw_replica.specs.Reading.{TellsOf, bytes_of, place_read};
ghost use Rattle.lw_replica.specs.Rounds.{Makes};
ghost use Rattle.lw_replica.specs.inner.Seeing.{IsSeenBy, AreSeenBy};
ghost use Rattle.lw_replica.specs.inner.Going.{Goes};
ghost use Rattle.lw_replica.specs.Counting.{counted_with};
ghost use Rattle.lw_replica.specs.Fleets.{told_first};
ghost use Rattle.lw_replica.specs.Own.{next_sequence};
ghost use Rattle.lw_replica.specs.Parts.{fleet_of, IsCovering, IsReplica};
ghost use Rattle.lw_replica.specs.inner.ReplicaState.{BeginsAnewBy, IsNew, HasSameStart, IsStill, counted_in};
ghost use Rattle.lw_replica.specs.inner.ReplicaState.{counted_of};
ghost use Rattle.lw_replica.specs.inner.Taking.{Takes, AreNotTaken, IsBehind, IsJudged, IsJudgedEntry, IsJudgedPage, IsNotMerged, IsNotTaken, IsSpelt, IsEntryOf};

use crate::ReplicaFault;
use crate::size::LogSize;
use crate::used_numbers::{UsedNumbers, has_bit};
use lw_call::{Call, Reply};
use lw_delta::Writer;
use lw_log::{
    Body, Bytes, Entry, EntryFault, FleetId, LogFault, Position, Start, put_entry, read_entry,
};
use lw_node::Node;
use lw_stamp::NoMemory;
use std::alloc::Global;

/// A node, the start that it is of, and how far its log has been read and written.
#[derive(Drop)]
pub(crate) struct ReplicaState {
    pub alloc: Global,
    pub node: Node,
    pub start: Start,
    /// The fleet that is proposed where the log has none.
    pub proposed_fleet: FleetId,
    pub fleet: Option<FleetId>,
    /// Whether a delta has told the fleet, and not a start alone.
    pub settled: bool,
    /// Whether nobody else appends to the log.
    pub alone: bool,
    pub claimed: bool,
    pub floor: u64,
    /// Of the last entry whose append returned. Before the first it is 0 where the log was found empty, and else 1. So
    /// a start that found entries writes none with the sequence 1; two that found none at once both do.
    pub sequence: u64,
    /// Whether the log covers all that the node knows.
    pub durable: bool,
    /// The change number up to which the log covers what the node knows.
    pub written: u64,
    pub read_to: Option<Position>,
    pub used_numbers: UsedNumbers,
    pub size: LogSize,
}

impl ReplicaState {
    /// That of a new node, which has read and written nothing. Its first entry has the next sequence.
    pub(crate) fn new(
        alloc: Global,
        start: Start,
        proposed_fleet: FleetId,
        alone: bool,
        floor: u64,
        sequence: u64,
    ) -> Result<ReplicaState, NoMemory>
        requires { floor < 64 * year_2100 }
        ensures new { IfOk result (λ state. IsNew state start alone floor sequence) }
        ensures replica { IfOk result (λ state. (asked : Option (List LogCall)) → IsReplica asked state) }
    {
        let used_numbers = UsedNumbers::new(alloc)?;
        Ok(ReplicaState {
            alloc,
            node: Node::new(alloc, start.number),
            start,
            proposed_fleet,
            fleet: None,
            settled: false,
            alone,
            claimed: false,
            floor,
            sequence,
            durable: true,
            written: 0,
            read_to: None,
            used_numbers,
            size: LogSize::new(),
        })
    }

    /// Takes what the entries bring, one after another.
    pub(crate) fn take_page(&mut self, page: &[(Position, Bytes)]) -> Result<(), ReplicaFault>
        ensures taken { OnOk result (Takes self.old (bytes_of (placed page.now)) self.new) }
        ensures read_to { OnOk result (place_of self.new.read_to
            ≡ place_read (place_of self.old.read_to) (placed page.now)) }
        ensures fault { IfErr result (λ fault. fault ≢ IsLog IsLost) }
        ensures refused { IfErr result (AreNotTaken self.new (bytes_of (placed page.now))) }
        // Also where it fails.
        ensures behind { IsBehind self.old (placed page.now) self.new }
        ensures sequence { self.new.sequence ≡ self.old.sequence }
        ensures same { HasSameStart self.old self.new }
        ensures covering { (asked : Option (List LogCall)) → AreSeenBy asked (bytes_of (placed page.now))
            → IsCovering asked self.old → IsCovering asked self.new }
    {
        for (position, bytes) in page {
            self.take(bytes)?;
            self.read_to = Some(*position);
        }
        Ok(())
    }

    /// Takes what an entry brings. Bytes that are none are passed over.
    fn take(&mut self, bytes: &[u8]) -> Result<(), ReplicaFault>
        ensures taken { OnOk result (Takes self.old (bytes.now ∷ []) self.new) }
        ensures fault { IfErr result (λ fault. fault ≢ IsLog IsLost) }
        ensures refused { IfErr result (IsNotTaken self.new bytes.now) }
        ensures read_to { self.new.read_to ≡ self.old.read_to }
        ensures sequence { self.new.sequence ≡ self.old.sequence }
        ensures same { HasSameStart self.old self.new }
        ensures covering { (asked : Option (List LogCall)) → IsSeenBy asked bytes.now
            → IsCovering asked self.old → IsCovering asked self.new }
    {
        let entry = match read_entry(bytes) {
            Ok(entry) => entry,
            Err(fault) => return pass_over(fault),
        };
        self.used_numbers.note(&entry);
        self.size = self.size.with_entry(&entry, bytes.len());
        match entry.body {
            Body::Start => {
                self.hear_start(entry.fleet);
                Ok(())
            }
            Body::Delta(delta) => self.merge(entry.fleet, delta),
            Body::Snapshot { delta, .. } => self.merge(entry.fleet, delta),
        }
    }

    /// The first start of a log tells the fleet, until a delta does.
    fn hear_start(&mut self, fleet: FleetId)
        ensures only { self.new ≡ record self.old { fleet = self.new.fleet } }
        ensures fleet { self.old.settled ≡ true → self.new.fleet ≡ self.old.fleet }
        ensures first { self.old.settled ≡ false → self.old.fleet ≡ None → self.new.fleet ≡ Some fleet }
        ensures later { (f : FleetId) → self.old.fleet ≡ Some f → self.new.fleet ≡ Some f }
    {
        if !self.settled && self.fleet.is_none() {
            self.fleet = Some(fleet);
        }
    }

    /// Merges a delta of a fleet.
    fn merge(&mut self, fleet: FleetId, delta: &[u8]) -> Result<(), ReplicaFault>
        requires { (d : DeltaContent) × IsSpelling delta.now d }
        ensures merged { OnOk result ((d : DeltaContent) → IsSpelling delta.now d
            → Merged self.old.node d.clock d.slots self.new.node) }
        ensures fleet { OnOk result ((self.new.settled ≡ true) × (fleet_of self.new ≡ Some fleet.bytes)) }
        ensures fault { IfErr result (λ fault. fault ≢ IsLog IsLost) }
        ensures refused { IfErr result (IsNotMerged self.new fleet) }
        ensures settled { OnOk result (self.old.settled ≡ true → self.new.fleet ≡ self.old.fleet) }
        ensures durable { OnOk result (self.new.durable ≡ self.old.durable) }
        ensures written { self.old.durable ≡ false → self.new.written ≡ self.old.written }
        ensures read_to { self.new.read_to ≡ self.old.read_to }
        ensures sequence { self.new.sequence ≡ self.old.sequence }
        ensures used_numbers { self.new.used_numbers ≡ self.old.used_numbers }
        ensures size { self.new.size ≡ self.old.size }
        ensures same { HasSameStart self.old self.new }
        ensures covering { (asked : Option (List LogCall)) (bytes : List ℕ)
            → ((d : DeltaContent) → IsSpelling delta.now d → BringsDelta bytes d) → IsSeenBy asked bytes
            → IsCovering asked self.old → IsCovering asked self.new }
    {
        if self.settled && self.fleet != Some(fleet) {
            return Err(ReplicaFault::AnotherFleet);
        }
        let merged = self.node.merge(delta);
        let change = self.node.change();
        if merged.is_err() {
            // A part of it may be merged.
            self.durable = false;
            return Err(ReplicaFault::NoMemory);
        }
        self.fleet = Some(fleet);
        self.settled = true;
        if self.durable {
            self.written = change;
        }
        Ok(())
    }

    /// Raises the clock to the floor.
    pub(crate) fn raise(&mut self) -> Result<(), ReplicaFault>
        requires { self.old.floor < 64 * year_2100 }
        ensures raised { OnOk result (Merged self.old.node self.old.floor [] self.new.node) }
        ensures fault { IfErr result (λ fault. fault ≢ IsLog IsLost) }
        ensures memory { IfErr result (λ fault. fault ≡ OutOfMemory) }
        ensures durable { OnOk result (IsTrue self.new.durable ↔ IsStill self.old self.new.node) }
        ensures only { self.new ≡ record self.old { node = self.new.node; durable = self.new.durable } }
        ensures goes { Goes self.old.node self.new.node }
        ensures covering { (asked : Option (List LogCall)) → IsCovering asked self.old → IsCovering asked self.new }
    {
        let delta = Writer::new(self.alloc, self.floor)?.end()?;
        let before = (self.node.change(), self.node.clock());
        let merged = self.node.merge(&delta);
        self.settle_durable(before);
        match merged {
            Ok(_) => Ok(()),
            Err(_) => Err(ReplicaFault::NoMemory),
        }
    }

    /// Makes the calls, one after another. There is room for their replies.
    pub(crate) fn make(&mut self, calls: &[Call], replies: &mut Vec<Reply>)
        requires { vec_len replies.old + length calls.now ≤ vec_capacity replies.old }
        ensures made { (more : List Replies) × (replies.new.items ≡ replies.old.items ++ more)
            × Makes self.old.node calls.now more self.new.node }
        ensures durable { IsTrue self.new.durable ↔ IsStill self.old self.new.node }
        ensures only { self.new ≡ record self.old { node = self.new.node; durable = self.new.durable } }
        ensures goes { Goes self.old.node self.new.node }
        ensures covering { (asked : Option (List LogCall)) → IsCovering asked self.old → IsCovering asked self.new }
    {
        let before = (self.node.change(), self.node.clock());
        for call in calls {
            replies.push_reserved(self.node.act(call));
        }
        self.settle_durable(before);
    }

    /// The log covers all no more where the node has moved since these were its change number and its clock.
    fn settle_durable(&mut self, before: (u64, u64))
        ensures durable { IsTrue self.new.durable ↔ ((self.old.durable ≡ true)
            × (self.new.node.table.count.change ≡ before.0)
            × (self.new.node.table.count.change < LAST) × (self.new.node.clock ≡ before.1)) }
        ensures only { self.new ≡ record self.old { durable = self.new.durable } }
        ensures last { self.new.node.table.count.change ≤ LAST }
    {
        let (change, clock) = before;
        if self.node.change() != change
            || self.node.clock() != clock
            || self.node.change() == u64::MAX
        {
            self.durable = false;
        }
    }

    /// The fleet, or where the log has none the one that is proposed.
    pub(crate) fn own_fleet(&self) -> FleetId
        ensures { (f : List ℕ) → fleet_of self.now ≡ Some f → result.bytes ≡ f }
    {
        match self.fleet {
            Some(fleet) => fleet,
            None => self.proposed_fleet,
        }
    }

    /// The bytes of an entry with this body, the next of this start.
    pub(crate) fn entry(&self, fleet: FleetId, body: Body<'_>) -> Result<Vec<u8>, NoMemory>
        requires fits { FitsBody (body_content body) }
        requires spelt { IsSpelt (body_content body) }
        ensures { IfOk result (λ bytes.
            IsEntryOf self.now fleet.bytes (body_content body.entry) bytes.items) }
    {
        let mut bytes = Vec::new(self.alloc);
        let entry = Entry {
            fleet,
            start: self.start,
            sequence: self.sequence.saturating_add(1),
            body,
        };
        put_entry(&mut bytes, &entry)?;
        Ok(bytes)
    }

    /// An entry was appended that is no snapshot, of so many bytes.
    pub(crate) fn appended(&mut self, position: Position, length: usize)
        ensures only { self.new ≡ record self.old {
          sequence = self.new.sequence;
          read_to = self.new.read_to;
          size = self.new.size;
        } }
        ensures sequence { self.new.sequence ≡ next_sequence self.old.sequence }
        ensures risen { self.old.sequence ≤ self.new.sequence }
        ensures read_to { place_of self.new.read_to
            ≡ cond self.old.alone (Some (place position)) (place_of self.old.read_to) }
        ensures counted { counted_in self.new
            ≡ cond self.old.alone (counted_with StartContent length (counted_in self.old)) (counted_in self.old) }
    {
        self.follow(position, self.size.with_length(length));
    }

    /// A snapshot was appended, of so many bytes.
    pub(crate) fn appended_snapshot(&mut self, position: Position, length: usize)
        ensures only { self.new ≡ record self.old {
          sequence = self.new.sequence;
          read_to = self.new.read_to;
          size = self.new.size;
        } }
        ensures sequence { self.new.sequence ≡ next_sequence self.old.sequence }
        ensures risen { self.old.sequence ≤ self.new.sequence }
        ensures read_to { place_of self.new.read_to
            ≡ cond self.old.alone (Some (place position)) (place_of self.old.read_to) }
        ensures counted { counted_in self.new ≡ cond self.old.alone (length, 0) (counted_in self.old) }
    {
        self.follow(position, LogSize::of_snapshot(length));
    }

    /// An entry of its own was appended. Where nobody else appends, it is not read again.
    fn follow(&mut self, position: Position, size: LogSize)
        ensures only { self.new ≡ record self.old {
          sequence = self.new.sequence;
          read_to = self.new.read_to;
          size = self.new.size;
        } }
        ensures sequence { self.new.sequence ≡ next_sequence self.old.sequence }
        ensures risen { self.old.sequence ≤ self.new.sequence }
        ensures read_to { place_of self.new.read_to
            ≡ cond self.old.alone (Some (place position)) (place_of self.old.read_to) }
        ensures counted { counted_in self.new
            ≡ cond self.old.alone (counted_of size) (counted_in self.old) }
    {
        self.sequence = self.sequence.saturating_add(1);
        if self.alone {
            self.read_to = Some(position);
            self.size = size;
        }
    }

    /// The start entry was appended, in this fleet, of so many bytes.
    pub(crate) fn started(&mut self, position: Position, fleet: FleetId, length: usize)
        ensures only { self.new ≡ record self.old {
          sequence = self.new.sequence;
          read_to = self.new.read_to;
          size = self.new.size;
          fleet = self.new.fleet;
        } }
        ensures sequence { self.new.sequence ≡ next_sequence self.old.sequence }
        ensures risen { self.old.sequence ≤ self.new.sequence }
        ensures read_to { place_of self.new.read_to
            ≡ cond self.old.alone (Some (place position)) (place_of self.old.read_to) }
        ensures counted { counted_in self.new
            ≡ cond self.old.alone (counted_with StartContent length (counted_in self.old)) (counted_in self.old) }
        ensures fleet { (self.new.fleet ≡ self.old.fleet) ⊎ (self.new.fleet ≡ Some fleet) }
        ensures shared { self.old.alone ≡ false → self.new.fleet ≡ self.old.fleet }
    {
        self.appended(position, length);
        if self.alone {
            self.fleet = Some(fleet);
        }
    }

    /// The log did not do what it was asked. Where it has lost something, all is read again, and written again.
    pub(crate) fn failed(&mut self, fault: LogFault)
        ensures only { self.new ≡ record self.old {
          read_to = self.new.read_to;
          written = self.new.written;
          durable = self.new.durable;
        } }
        ensures read_to { (self.new.read_to ≡ None) ⊎ (self.new.read_to ≡ self.old.read_to) }
        ensures lost { BeginsAnewBy (fault_of fault) self.new }
        ensures covering { (asked : Option (List LogCall)) → IsCovering asked self.old → IsCovering asked self.new }
    {
        if fault == LogFault::Lost {
            self.read_to = None;
            self.written = 0;
            self.durable = false;
        }
    }

    /// Whether its own start was read, before the page or in it. Where another start was first with the number, it is taken.
    pub(crate) fn judge_on(
        &self,
        own: bool,
        page: &[(Position, Bytes)],
    ) -> Result<bool, ReplicaFault>
        ensures judged { IfOk result (IsJudged own self.now.start.number self.now.start.tag (bytes_of (placed page.now))) }
        ensures fault { IfErr result (λ fault. fault ≢ IsLog IsLost) }
        ensures taken { IfErr result (λ fault. fault ≡ IsTaken) }
    {
        if own {
            return Ok(true);
        }
        match self.judge(page) {
            Some(true) => Ok(true),
            Some(false) => Err(ReplicaFault::NumberTaken),
            None => Ok(false),
        }
    }

    /// Whether the first entry of the page that tells of the number is of this start; none where none tells of it.
    fn judge(&self, page: &[(Position, Bytes)]) -> Option<bool>
        ensures { IsJudgedPage self.now.start.number self.now.start.tag (bytes_of (placed page.now)) result }
    {
        for (_, bytes) in page {
            match self.judge_entry(bytes) {
                Some(own) => return Some(own),
                None => {}
            }
        }
        None
    }

    fn judge_entry(&self, bytes: &[u8]) -> Option<bool>
        ensures { IsJudgedEntry self.now.start.number self.now.start.tag bytes.now result }
    {
        let Ok(entry) = read_entry(bytes) else {
            return None;
        };
        if entry.start.number == self.start.number && entry.start.tag == self.start.tag {
            return Some(true);
        }
        if tells_of(&entry, self.start.number) {
            return Some(false);
        }
        None
    }
}

/// Passes over bytes that are no entry. One of a newer format is not passed over.
fn pass_over(fault: EntryFault) -> Result<(), ReplicaFault>
    ensures known { OnOk result (fault ≢ EntryFault.Newer) }
    ensures newer { IfErr result (λ refusal. (refusal ≡ IsNewerLog) × (fault ≡ EntryFault.Newer)) }
    ensures fault { IfErr result (λ fault. fault ≢ IsLog IsLost) }
{
    match fault {
        EntryFault::Newer => Err(ReplicaFault::LogNewer),
        _ => Ok(()),
    }
}

/// Whether the entry tells that a start has had the number.
fn tells_of(entry: &Entry<'_>, number: u16) -> bool
    ensures { IsTrue result ↔ ((entry.now.start.number ≡ number)
        ⊎ TellsOf number (body_content entry.now.body)) }
{
    if entry.start.number == number {
        return true;
    }
    match entry.body {
        Body::Snapshot { used_numbers, .. } => has_bit(used_numbers, number),
        _ => false,
    }
}
