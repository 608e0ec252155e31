//! Entries that go later.

use lw_resp::StreamId;

/// How long entries stay that are to go, in milliseconds.
///
/// Another server knows by the last entry that it has read whether the stream has lost something. Where that entry
/// went at once, a server that has not read on, since it was cut off for a moment, would take it for a loss.
pub const TRIM_DELAY: u64 = 30_000;

/// The entries at or below an identifier are to go.
#[derive(Clone, Copy)]
struct Trim {
    upto: StreamId,
    /// When that was asked for, if the clock told.
    since: Option<u64>,
}

/// What is to go, in order. Of what comes while two wait, the last is kept, so each waits its whole time, and the
/// first is not put off by those behind it.
#[derive(Drop)]
pub(crate) struct Trims {
    first: Option<Trim>,
    then: Option<Trim>,
}

impl Trims {
    /// Nothing is to go.
    pub(crate) fn new() -> Trims {
        Trims {
            first: None,
            then: None,
        }
    }

    /// Has entries go later.
    pub(crate) fn note(&mut self, upto: StreamId, now: Option<u64>) {
        let trim = Some(Trim { upto, since: now });
        if self.first.is_none() {
            self.first = trim;
        } else {
            self.then = trim;
        }
    }

    /// What is to go now. Where the clock does not tell, nothing waits.
    pub(crate) fn due(&self, now: Option<u64>) -> Option<StreamId> {
        let first = self.first?;
        match (first.since, now) {
            (Some(since), Some(now)) if now.saturating_sub(since) < TRIM_DELAY => None,
            _ => Some(first.upto),
        }
    }

    /// What was due has gone.
    pub(crate) fn end_first(&mut self) {
        self.first = self.then;
        self.then = None;
    }

    /// What was due has not gone: it waits once more.
    pub(crate) fn put_off(&mut self, now: Option<u64>) {
        if let Some(first) = self.first {
            self.first = Some(Trim {
                upto: first.upto,
                since: now,
            });
        }
    }
}
