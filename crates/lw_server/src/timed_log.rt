//! A log that tells what it was asked, and how long its appends took.

ghost use Rattle.std.specs.Prelude.{◌≡◌};
ghost use Rattle.lw_metrics.specs.IoCounters.{new_log_counters};

use lw_log::{Bytes, DeltaLog, LogFault, Position};
use lw_metrics::LogCounters;

/// A clock that only goes on.
pub trait Stopwatch: Drop {
    /// How many microseconds have passed since some moment, if it tells.
    fn microseconds(&self) -> Option<u64>;
}

/// What tells what its log was asked.
pub trait Measured {
    /// What was asked since it was made.
    fn log_counters(&self) -> LogCounters;
}

/// A log whose appends are timed.
#[derive(Drop)]
pub struct TimedLog<G: DeltaLog, S: Stopwatch> {
    log: G,
    stopwatch: S,
    log_counters: LogCounters,
}

impl<G: DeltaLog, S: Stopwatch> TimedLog<G, S> {
    /// A log that was asked nothing yet.
    pub fn new(log: G, stopwatch: S) -> TimedLog<G, S>
        ensures log { result.log ≡ log }
        ensures log_counters { result.log_counters ≡ new_log_counters }
    {
        TimedLog {
            log,
            stopwatch,
            log_counters: LogCounters::new(),
        }
    }
}

impl<G: DeltaLog, S: Stopwatch> Measured for TimedLog<G, S> {
    fn log_counters(&self) -> LogCounters {
        self.log_counters
    }
}

/// Counts an append.
fn count_append(
    log_counters: &mut LogCounters,
    is_written: bool,
    began: Option<u64>,
    ended: Option<u64>,
) {
    log_counters.entries_written = log_counters
        .entries_written
        .saturating_add(u64::from(is_written));
    if let (Some(began), Some(ended)) = (began, ended) {
        log_counters.appends.count(ended.saturating_sub(began));
    }
}

impl<G: DeltaLog, S: Stopwatch> DeltaLog for TimedLog<G, S> {
    ghost calls = { λ timed. G.calls timed.log };

    ghost alone = { G.alone };

    fn read(&mut self, after: Option<Position>) -> Result<Vec<(Position, Bytes)>, LogFault> {
        let page = self.log.read(after)?;
        self.log_counters.entries_read = self
            .log_counters
            .entries_read
            .saturating_add(page.len() as u64);
        Ok(page)
    }

    fn append(&mut self, entry: &[u8]) -> Result<Position, LogFault> {
        let began = self.stopwatch.microseconds();
        let appended = self.log.append(entry);
        let ended = self.stopwatch.microseconds();
        count_append(&mut self.log_counters, appended.is_ok(), began, ended);
        appended
    }

    fn trim(&mut self, upto: Position) -> Result<(), LogFault> {
        self.log.trim(upto)
    }

    fn is_alone(&self) -> bool {
        self.log.is_alone()
    }
}
