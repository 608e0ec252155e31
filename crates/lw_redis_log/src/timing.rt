//! When a Redis is asked what time it is.

/// How long after one question for the time the next one comes, in milliseconds.
pub const TIME_BETWEEN: u64 = 10_000;

/// What was asked for the time, and how that was met.
#[derive(Clone, Copy)]
pub(crate) struct Timing {
    /// When it was asked last over the connection.
    since: Option<u64>,
    /// Whether the server has refused it over the connection.
    is_refused: bool,
    /// Whether it was told that a server has refused it.
    is_told: bool,
}

impl Timing {
    pub(crate) fn new() -> Timing {
        Timing {
            since: None,
            is_refused: false,
            is_told: false,
        }
    }

    /// There is a new connection.
    pub(crate) fn begin(&mut self) {
        self.since = None;
        self.is_refused = false;
    }

    /// It is asked at a moment in milliseconds.
    pub(crate) fn note(&mut self, now: u64) {
        self.since = Some(now);
    }

    /// The server has refused it: whether that is to be told.
    pub(crate) fn note_refusal(&mut self) -> bool {
        let tells = !self.is_told;
        self.is_refused = true;
        self.is_told = true;
        tells
    }

    /// Whether it is to be asked at the moment in milliseconds. With no clock it is not.
    pub(crate) fn is_due(&self, now: Option<u64>) -> bool {
        match (self.since, now) {
            (Some(since), Some(now)) => {
                !self.is_refused && now.saturating_sub(since) >= TIME_BETWEEN
            }
            (None, Some(_)) => true,
            (_, None) => false,
        }
    }
}
