//! How many notices are told.

use crate::errors::error_prefix;

/// How many notices of entries that are passed over are told in a second.
const NOTICES_A_SECOND: u32 = 100;

/// How many milliseconds a second has.
const MILLISECONDS: u64 = 1_000;

/// How long a refusal is not told again, in milliseconds.
const REFUSAL_DELAY: u64 = 60_000;

/// How many bytes of the first word of a refusal are remembered. No kind of error of Redis has as many.
const WORD: usize = 32;

/// How many notices were told in the present second.
#[derive(Clone, Copy)]
pub(crate) struct NoticeRate {
    second: u64,
    told: u32,
}

impl NoticeRate {
    pub(crate) fn new() -> NoticeRate {
        NoticeRate { second: 0, told: 0 }
    }

    /// Whether one more is told at the moment in milliseconds, which is then counted. With no clock, all are told.
    pub(crate) fn tells(&mut self, now: Option<u64>) -> bool {
        let Some(now) = now else {
            return true;
        };
        let second = now / MILLISECONDS;
        if self.second != second {
            *self = NoticeRate { second, told: 0 };
        }
        self.told = self.told.saturating_add(1);
        self.told <= NOTICES_A_SECOND
    }
}

/// The refusal that was told last, so that one that comes again with each try is told once a minute.
#[derive(Drop)]
pub(crate) struct Refusals {
    /// The first bytes of its first word, and zeros behind them.
    word: [u8; WORD],
    /// When it was told, where one was.
    since: Option<u64>,
}

impl Refusals {
    /// None was told.
    pub(crate) fn new() -> Refusals {
        Refusals {
            word: [0; WORD],
            since: None,
        }
    }

    /// Whether a refusal with this text is told at the moment in milliseconds, which is then remembered. With no clock,
    /// all are told.
    pub(crate) fn tells(&mut self, text: &[u8], now: Option<u64>) -> bool {
        let word = first_bytes(error_prefix(text));
        let is_same = word == self.word;
        if let (Some(since), Some(now)) = (self.since, now)
            && is_same
            && now.saturating_sub(since) < REFUSAL_DELAY
        {
            return false;
        }
        self.word = word;
        self.since = now;
        true
    }

    /// The server does again what it is asked: the next refusal is told.
    pub(crate) fn end(&mut self) {
        self.since = None;
    }
}

/// The first bytes of a word, and zeros behind them.
fn first_bytes(word: &[u8]) -> [u8; WORD] {
    let mut first = [0; WORD];
    for (place, byte) in first.iter_mut().zip(word) {
        *place = *byte;
    }
    first
}
