//! Which fleet a stream is of, and its entries.

ghost use Rattle.std.specs.Prelude.{◌≡◌, ◌↔◌, IfOk, IsOkAnd, Err, option_map};
ghost use Rattle.lw_log.specs.declared.entry_fault.EntryFault.{EntryFault as Faults};
ghost use Rattle.lw_log.specs.Entries.{EntryContent, IsEntry, content_of};
ghost use Rattle.lw_log.specs.EntryFaults.{IsFault};
ghost use Rattle.lw_redis_log.specs.Fleets.{delta_fleet};

use lw_log::{Body, Entry, EntryFault, FleetId, read_entry};

/// The fleet of an entry that has a delta.
fn fleet_in(entry: &Entry<'_>) -> Option<FleetId>
    ensures { option_map (λ f. f.bytes) result ≡ delta_fleet (content_of entry.now) }
{
    match entry.body {
        Body::Start => None,
        Body::Delta(_) | Body::Snapshot { .. } => Some(entry.fleet),
    }
}

/// The fleet of an entry that has a delta; none where it has none, which is a start.
pub fn fleet_of_delta(bytes: &[u8]) -> Result<Option<FleetId>, EntryFault>
    ensures found { IfOk result (λ fleet. (e : EntryContent) × IsEntry bytes.now e
        × (option_map (λ f. f.bytes) fleet ≡ delta_fleet e)) }
    ensures only { (e : EntryContent) → IsEntry bytes.now e
        → IsOkAnd result (λ fleet. option_map (λ f. f.bytes) fleet ≡ delta_fleet e) }
    ensures faults { (fault : Faults) → (result ≡ Err fault) ↔ IsFault bytes.now fault }
{
    match read_entry(bytes) {
        Ok(entry) => Ok(fleet_in(&entry)),
        Err(fault) => Err(fault),
    }
}

/// Whose a delta is.
#[derive(Clone, Copy, Debug, PartialEq, Eq)]
pub(crate) enum Owner {
    /// It is of the fleet that is known, which it may have told.
    Own,
    /// It is of another one, and stands in a stream of the one that is known.
    Another,
    /// It is of another one, and no delta stands before it: so the stream is.
    AnotherStream,
}

/// The fleet of a log, which its first delta tells.
#[derive(Drop)]
pub(crate) struct Fleet {
    own: Option<FleetId>,
    /// Whether the stream is read from its beginning, and no delta has come yet.
    is_first: bool,
}

impl Fleet {
    /// None is known.
    pub(crate) fn new() -> Fleet {
        Fleet {
            own: None,
            is_first: false,
        }
    }

    /// The stream is read from its beginning, or goes on to be.
    pub(crate) fn begin(&mut self) {
        self.is_first = true;
    }

    /// Whose a delta is that was read next.
    pub(crate) fn owner(&mut self, fleet: FleetId) -> Owner {
        let is_first = self.is_first;
        self.is_first = false;
        let own = *self.own.get_or_insert(fleet);
        if own == fleet {
            return Owner::Own;
        }
        if is_first {
            return Owner::AnotherStream;
        }
        Owner::Another
    }

    /// An entry was appended.
    pub(crate) fn note_append(&mut self, entry: &[u8]) {
        if self.own.is_none()
            && let Ok(fleet) = fleet_of_delta(entry)
        {
            self.own = fleet;
        }
    }
}
