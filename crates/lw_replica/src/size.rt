//! How much stands in a log.

ghost use Rattle.std.specs.Prelude.{◌≡◌, ◌↔◌, IsTrue, min, ◌+◌, ◌-◌, ◌^◌};
ghost use Rattle.lw_log.specs.Entries.{body_content};
ghost use Rattle.lw_replica.specs.Compaction.{IsLarge};
ghost use Rattle.lw_replica.specs.Counting.{counted_with};
ghost use Rattle.lw_replica.specs.inner.ReplicaState.{counted_of};

use lw_log::{Body, Entry};

/// How many bytes the entries behind the last snapshot have to come to, before all is written anew.
const LEAST_BEHIND: u64 = 16 << 20;

/// How many times as much as the snapshot they have to come to.
const SNAPSHOTS: u64 = 4;

/// How many bytes the entries of a log have.
#[derive(Clone, Copy, Debug)]
pub struct LogSize {
    /// Of the last snapshot: 0 where there is none.
    pub snapshot: u64,
    /// Of the entries behind it.
    pub behind: u64,
}

impl LogSize {
    /// Of an empty log.
    pub(crate) fn new() -> LogSize
        ensures { counted_of result ≡ (0, 0) }
    {
        LogSize {
            snapshot: 0,
            behind: 0,
        }
    }

    /// With one more entry, of so many bytes.
    pub(crate) fn with_entry(self, entry: &Entry<'_>, length: usize) -> LogSize
        ensures { counted_of result
            ≡ counted_with (body_content entry.now.body) length (counted_of self) }
    {
        match entry.body {
            Body::Snapshot { .. } => LogSize::of_snapshot(length),
            _ => self.with_length(length),
        }
    }

    /// With a snapshot of so many bytes.
    pub(crate) fn of_snapshot(length: usize) -> LogSize
        ensures { counted_of result ≡ (length, 0) }
    {
        LogSize {
            snapshot: length as u64,
            behind: 0,
        }
    }

    /// With one more entry that is no snapshot.
    pub(crate) fn with_length(self, length: usize) -> LogSize
        ensures { counted_of result ≡ (self.snapshot, min (self.behind + length) (2 ^ 64 - 1)) }
    {
        LogSize {
            behind: self.behind.saturating_add(length as u64),
            ..self
        }
    }

    /// Whether so much stands behind the snapshot that all is to be written anew.
    pub(crate) fn is_large(self) -> bool
        ensures { IsTrue result ↔ IsLarge self.snapshot self.behind }
    {
        self.behind > LEAST_BEHIND && self.behind > self.snapshot.saturating_mul(SNAPSHOTS)
    }
}
