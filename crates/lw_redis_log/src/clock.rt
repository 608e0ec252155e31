//! What time it is by the clock of a Redis.

ghost use Rattle.std.specs.Prelude.{◌≡◌, ◌↔◌, ◌⊎◌, ◌+◌, ◌-◌, ◌/◌, ◌^◌, ◌<◌, ◌≤◌, IsTrue, IfSome, IfNone, false, min};

use std::sync::atomic::{AtomicU64, Ordering};
use std::time::{Clock, Instant};

/// How long question and answer may take at most, where a time was told before, in milliseconds. The longer they take,
/// the less is known of when between them the clock was read.
pub const LONGEST_EXCHANGE: u64 = 1_000;

/// The offset where no time was told yet.
const NOT_TOLD: u64 = 0;

/// What the clock of a Redis told last, and how long ago. It goes on by a stopwatch.
#[derive(Drop)]
pub struct RedisClock<'a, R: Clock> {
    runtime: &'a R,
    /// Where the stopwatch begins.
    began: Option<Instant>,
    /// What time it was there by the clock of the Redis, in milliseconds since 1970.
    offset: AtomicU64,
}

impl<'a, R: Clock> RedisClock<'a, R> {
    /// One that was told nothing yet.
    pub fn new(runtime: &'a R) -> RedisClock<'a, R> {
        RedisClock {
            runtime,
            began: Instant::now(runtime).ok(),
            offset: AtomicU64::new(NOT_TOLD),
        }
    }

    /// How many milliseconds have passed on the stopwatch, if it tells.
    fn passed(&self) -> Option<u64> {
        let passed = self.began?.elapsed(self.runtime).ok()?;
        u64::try_from(passed.as_millis()).ok()
    }

    /// The Redis has just told a time, in milliseconds since 1970. Question and answer took so many milliseconds.
    pub fn note(&self, told: u64, took: u64) {
        let is_known = self.offset.load(Ordering::SeqCst) != NOT_TOLD;
        if is_noted(is_known, took)
            && let Some(now) = self.passed()
        {
            self.offset
                .store(offset_of(told, took, now), Ordering::SeqCst);
        }
    }

    /// What time it is, in milliseconds since 1970; none where none was told, or the stopwatch does not tell.
    pub fn milliseconds(&self) -> Option<u64> {
        moment_by(self.offset.load(Ordering::SeqCst), self.passed()?)
    }
}

/// Whether a time is noted for which question and answer took so long.
pub fn is_noted(is_known: bool, took: u64) -> bool
    ensures { IsTrue result ↔ ((is_known ≡ false) ⊎ (took ≤ 1000)) }
{
    !is_known || took <= LONGEST_EXCHANGE
}

/// What time it was where the stopwatch began, if it is at `now`, and the clock was read in the middle of an exchange
/// that took so long and has just ended.
pub fn offset_of(told: u64, took: u64, now: u64) -> u64
    ensures { result ≡ min (told + took / 2) (2 ^ 64 - 1) - now }
{
    told.saturating_add(took / 2).saturating_sub(now)
}

/// What time it is where the stopwatch is at `now`; none where no time was told, or it is past all times.
pub fn moment_by(offset: u64, now: u64) -> Option<u64>
    ensures found { IfSome result (λ moment. (0 < offset) × (moment ≡ offset + now)) }
    ensures none { IfNone result ((offset ≡ 0) ⊎ (2 ^ 64 ≤ offset + now)) }
{
    if offset == NOT_TOLD {
        return None;
    }
    offset.checked_add(now)
}
