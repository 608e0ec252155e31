//! When a run has its log go on from all that its node knows.

use crate::Compaction;
use lw_stamp::Moment;

/// How many turns after a compaction that was put off it is tried again.
const TURNS_BETWEEN_COMPACTIONS: u32 = 1_000;

/// The same, where the log has lost entries: after the first one that was put off. After each further one they are
/// twice as many.
const TURNS_BEFORE_MENDING: u32 = 10;

/// How many slots there are. Servers that share a log take one each, by their numbers.
const SLOTS: u16 = 16;

/// How many milliseconds a slot has at least.
const SLOT: u64 = 2_000;

/// How many bytes of a snapshot make a slot a millisecond longer.
const BYTES_A_MILLISECOND: u64 = 10_000;

/// When the log is compacted next.
#[derive(Clone, Copy)]
pub(crate) struct Upkeep {
    compaction: Compaction,
    /// How many turns are left before it is tried again.
    turns_until_compaction: u32,
    /// How many turns are waited after the next one that is put off, where the log has lost entries.
    pause: u32,
    /// Whether the log has lost entries since it was compacted. Whoever reads it from its beginning may miss what stood
    /// in them, until all is written anew.
    pub(crate) has_lost: bool,
    /// Since when much has stood in the log, by the clock that never goes back.
    large_since: Option<Moment>,
}

impl Upkeep {
    pub(crate) fn new(compaction: Compaction) -> Upkeep {
        Upkeep {
            compaction,
            turns_until_compaction: 0,
            pause: TURNS_BEFORE_MENDING,
            has_lost: false,
            large_since: None,
        }
    }

    /// A turn was made, after which much stands in the log, or not.
    pub(crate) fn note_turn(&mut self, is_large: bool, now: Moment) {
        self.turns_until_compaction = self.turns_until_compaction.saturating_sub(1);
        self.large_since = match self.large_since {
            Some(since) if is_large => Some(since),
            _ => is_large.then_some(now),
        };
    }

    /// Whether a compaction is tried in this turn, if there is reason for one.
    pub(crate) fn is_ready(&self) -> bool {
        self.compaction == Compaction::WhereDue && self.turns_until_compaction == 0
    }

    /// Whether much has stood in the log for so many milliseconds.
    pub(crate) fn is_large_for(&self, now: Moment, wait: u64) -> bool {
        match self.large_since {
            Some(since) => now.ms().saturating_sub(since.ms()) >= wait,
            None => false,
        }
    }

    /// The log has lost entries.
    pub(crate) fn lose(&mut self) {
        self.has_lost = true;
        self.turns_until_compaction = 0;
        self.pause = TURNS_BEFORE_MENDING;
    }

    /// It is tried again some turns later: soon, where the log has lost entries.
    pub(crate) fn put_off(&mut self) {
        if !self.has_lost {
            self.turns_until_compaction = TURNS_BETWEEN_COMPACTIONS;
            return;
        }
        self.turns_until_compaction = self.pause;
        self.pause = self.pause.saturating_mul(2).min(TURNS_BETWEEN_COMPACTIONS);
    }

    /// The log was compacted.
    pub(crate) fn compacted(&mut self) {
        self.has_lost = false;
        self.large_since = None;
    }
}

/// How many milliseconds a server waits before it compacts a log that it shares, by its number and the bytes of the last
/// snapshot. All see at once that much stands in the log, and the snapshot of one serves for all: who waits longer
/// reads it, and writes none.
pub(crate) fn wait_of(number: u16, snapshot: u64) -> u64 {
    let slot = SLOT.saturating_add(snapshot / BYTES_A_MILLISECOND);
    u64::from(number % SLOTS).saturating_mul(slot)
}
