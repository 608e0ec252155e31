//! A first look at a log, to find a number.

ghost use Rattle.std.specs.Prelude.{◌≡◌, ◌↔◌, ◌⊎◌, ◌∷◌, ◌++◌, [], ℕ, List, None, IsTrue, false, IfErr, IfOk};
ghost use Rattle.lw_log.specs.Calls.{LogCall, Calls, placed, place_of};
ghost use Rattle.lw_log.specs.Entries.{content_of};
ghost use Rattle.lw_replica.specs.Beginning.{BeginsLog, IsSnapshot, IsUncut, sequence_over};
ghost use Rattle.lw_replica.specs.Reading.{AreReadToTheEnd, bytes_of, entries_in, place_read};
ghost use Rattle.lw_replica.specs.inner.Looking.{HasSeen, IsFirst, IsAll, IsLookFault};

use crate::ReplicaFault;
use crate::used_numbers::UsedNumbers;
use lw_log::{Body, Bytes, DeltaLog, Entry, LogFault, PAGE, Position, read_entry};
use std::alloc::Global;

/// What a first look has found.
#[derive(Drop)]
pub(crate) struct FirstLook {
    pub used_numbers: UsedNumbers,
    /// Whether an entry was there.
    pub any: bool,
    /// Whether the first was the first that a log ever has, or one was a snapshot.
    pub whole: bool,
}

impl FirstLook {
    /// Whether there were entries, and the beginning was not among them.
    fn is_cut(&self) -> bool
        ensures { (es : List (List ℕ)) → HasSeen es self.now → ¬ IsTrue result → IsUncut es }
    {
        if self.whole {
            return false;
        }
        self.any
    }

    /// The sequence before that of the first entry of a start: only where none is there does it begin with 1.
    pub(crate) fn sequence(&self) -> u64
        ensures { (es : List (List ℕ)) → HasSeen es self.now → result ≡ sequence_over es }
    {
        if self.any { 1 } else { 0 }
    }

    fn note_page(&mut self, page: &[(Position, Bytes)])
        ensures { (es : List (List ℕ)) → HasSeen es self.old → HasSeen (es ++ bytes_of (placed page.now)) self.new }
    {
        for (_, bytes) in page {
            self.note(bytes);
        }
    }

    fn note(&mut self, bytes: &[u8])
        ensures { (es : List (List ℕ)) → HasSeen es self.old → HasSeen (es ++ bytes.now ∷ []) self.new }
    {
        self.used_numbers.note_bytes(bytes);
        if self.is_beginning(bytes) {
            self.whole = true;
        }
        self.any = true;
    }

    /// Whether the entry is a snapshot, or is the first and begins a log.
    fn is_beginning(&self, bytes: &[u8]) -> bool
        ensures { IsTrue result → (IsSnapshot bytes.now ⊎ ((self.now.any ≡ false) × BeginsLog bytes.now)) }
    {
        let Ok(entry) = read_entry(bytes) else {
            return false;
        };
        if is_snapshot(&entry) {
            return true;
        }
        if self.any {
            return false;
        }
        begins_log(&entry)
    }
}

/// The position of the last entry of the page, or where there is none the one before.
fn last_place(before: Option<Position>, page: &[(Position, Bytes)]) -> Option<Position>
    ensures { place_of result ≡ place_read (place_of before) (placed page.now) }
{
    let mut after = before;
    for (position, _) in page {
        after = Some(*position);
    }
    after
}

/// Whether this is the first entry that a log ever has: a start, and the first of its own.
fn begins_log(entry: &Entry<'_>) -> bool
    ensures { IsTrue result ↔ IsFirst (content_of entry.now) }
{
    match entry.body {
        Body::Start => entry.sequence == 1,
        _ => false,
    }
}

fn is_snapshot(entry: &Entry<'_>) -> bool
    ensures { IsTrue result ↔ IsAll (content_of entry.now) }
{
    match entry.body {
        Body::Snapshot { .. } => true,
        _ => false,
    }
}

/// Reads the log to its end.
pub(crate) fn look<G: DeltaLog>(alloc: Global, log: &mut G) -> Result<FirstLook, ReplicaFault>
    ensures found { IfOk result (λ found. (pages : List LogCall) × Calls (G.calls log.old) (G.calls log.new) pages
        × AreReadToTheEnd None pages × IsUncut (entries_in pages)
        × HasSeen (entries_in pages) found) }
    // It is cut, or the log has a fault.
    ensures fault { IfErr result IsLookFault }
{
    let used_numbers = UsedNumbers::new(alloc)?;
    let mut found = FirstLook {
        used_numbers,
        any: false,
        whole: false,
    };
    let mut after = None;
    for _page in 0..u64::MAX {
        let page = log.read(after)?;
        found.note_page(&page);
        after = last_place(after, &page);
        if page.len() < PAGE {
            if found.is_cut() {
                return Err(ReplicaFault::LogCut);
            }
            return Ok(found);
        }
    }
    Err(ReplicaFault::Log(LogFault::Refused))
}
