//! Whether an answer was given.

ghost use Rattle.std.specs.Prelude.{◌≡◌, ◌↔◌, IsTrue, Some, slice_get};
ghost use Rattle.lw_held.specs.Agree.{IsEntryAt};

use lw_held::{Entry, Part, Volume};

// cut: stands_in
/// Whether the answer that a pass has is the one which the volume has at its place.
pub fn stands_in(volume: &Volume, part: &Part) -> bool
    ensures { IsTrue result
        ↔ IsEntryAt volume.now.first volume.now.entries part.now.place part.now.entry }
{
    match part.place.checked_sub(volume.first()) {
        Some(index) => is_entry(volume.entries(), index, &part.entry),
        None => false,
    }
}

fn is_entry(entries: &[Entry], index: u64, wanted: &Entry) -> bool
    ensures { IsTrue result ↔ (slice_get entries.now index ≡ Some wanted.now) }
{
    match entries.get(index as usize) {
        Some(entry) => entry.same(wanted),
        None => false,
    }
}
// end: stands_in
