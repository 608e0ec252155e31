//! What a log was asked, and how long its appends took.

use super::*;
use std::cell::Cell;
use std::process::Abort;

/// A stopwatch in memory. It tells these in turn, and from then on the last of them.
#[derive(Drop)]
pub(super) struct Readings {
    readings: &'static [Option<u64>],
    read: Cell<usize>,
}

impl Readings {
    pub(super) fn new(readings: &'static [Option<u64>]) -> Readings {
        Readings {
            readings,
            read: Cell::new(0),
        }
    }
}

impl Stopwatch for Readings {
    fn microseconds(&self) -> Option<u64> {
        let read = self.read.get();
        self.read.set(read.saturating_add(1));
        *self.readings.get(read).or(self.readings.last())?
    }
}

/// What is asked of a log.
enum Call {
    /// An append, which is made.
    Append(&'static [u8]),
    /// An append, which fails.
    Fails(&'static [u8]),
    /// A reading above the position, and how many entries it gives.
    Read(Option<Position>, usize),
    Trim(Position),
    /// How long appends took: how many by the bounds, and all together. And how many entries were written and read.
    Use([u64; 14], u64, [u64; 2]),
}

/// A log over one whose first append may fail, and what is asked of it.
struct Timing {
    name: &'static str,
    readings: &'static [Option<u64>],
    fails: bool,
    calls: &'static [Call],
}

const NONE: [u64; 14] = [0; 14];

/// An append of 500 microseconds at most.
const ONE: [u64; 14] = [1, 0, 0, 0, 0, 0, 0, 0, 0, 0, 0, 0, 0, 0];

/// An append of 400 microseconds, one of 3 milliseconds, and one of 6 seconds.
const COUNTS: [u64; 14] = [1, 0, 0, 1, 0, 0, 0, 0, 0, 0, 0, 0, 0, 1];

/// Where the first entry stands.
const FIRST: Position = Position { major: 1, minor: 0 };

/// Logs whose appends are made, fail, and are not told the time.
static TIMINGS: [Timing; 3] = [
    Timing {
        name: "appends are timed, and what is read is counted, also behind a trim",
        readings: &[
            Some(100),
            Some(500),
            Some(1_000),
            Some(4_000),
            Some(10_000),
            Some(6_010_000),
        ],
        fails: false,
        calls: &[
            Call::Use(NONE, 0, [0, 0]),
            Call::Append(b"one"),
            Call::Append(b"two"),
            Call::Append(b"three"),
            Call::Use(COUNTS, 6_003_400, [3, 0]),
            Call::Read(None, 3),
            Call::Read(Some(FIRST), 2),
            Call::Use(COUNTS, 6_003_400, [3, 5]),
            Call::Trim(FIRST),
            Call::Read(None, 2),
            Call::Use(COUNTS, 6_003_400, [3, 7]),
        ],
    },
    Timing {
        name: "an append that fails is timed and not counted as written",
        readings: &[Some(0), Some(7)],
        fails: true,
        calls: &[Call::Fails(b"one"), Call::Use(ONE, 7, [0, 0])],
    },
    Timing {
        name: "a stopwatch that tells nothing, and then one that goes back",
        readings: &[None, Some(5), Some(5), None, Some(9), Some(8)],
        fails: false,
        calls: &[
            Call::Append(b"one"),
            Call::Append(b"two"),
            Call::Use(NONE, 0, [2, 0]),
            Call::Append(b"three"),
            Call::Use(ONE, 0, [3, 0]),
        ],
    },
];

/// Tries: lw_server::TimedLog::new, lw_log::DeltaLog::append, lw_log::DeltaLog::read, lw_server::Measured::log_counters
#[test]
fn appends_are_timed_and_entries_counted(rt: HostRuntime) {
    for timing in &TIMINGS {
        timing.holds(&rt, rt.alloc());
    }
}

impl Timing {
    fn holds(&self, rt: &impl Abort, alloc: Global) {
        let mut inner = MemoryLog::new(alloc);
        if self.fails {
            inner.fail_after(0, false);
        }
        let mut log = TimedLog::new(inner, Readings::new(self.readings));
        for call in self.calls {
            call.holds(rt, &mut log, self.name);
        }
    }
}

impl Call {
    /// Makes the call, and fails where something else comes of it.
    fn holds(&self, rt: &impl Abort, log: &mut TimedLog<MemoryLog, Readings>, name: &str) {
        match *self {
            Call::Append(entry) => assert!(rt; log.append(entry).is_ok(), "{name}"),
            Call::Fails(entry) => assert!(rt; log.append(entry).is_err(), "{name}"),
            Call::Read(after, count) => {
                let page = log.read(after).expect(rt, name);
                assert_eq!(rt; page.len(), count, "{name}");
            }
            Call::Trim(upto) => log.trim(upto).expect(rt, name),
            Call::Use(counts, microseconds, entries) => {
                let found = log.log_counters();
                assert_eq!(rt; found.appends.counts, counts, "{name}");
                assert_eq!(rt; found.appends.microseconds, microseconds, "{name}");
                assert_eq!(rt;
                    [found.entries_written, found.entries_read],
                    entries,
                    "{name}"
                );
            }
        }
    }
}

/// Whether nobody else appends is what the log under it tells.
/// Tries: lw_log::DeltaLog::is_alone
#[test]
fn whoever_else_appends_is_told_as_before(rt: HostRuntime) {
    let shared = MemoryLog::new(rt.alloc());
    let alone = shared.is_alone();
    let log = TimedLog::new(shared, Readings::new(&[]));
    assert_eq!(rt; log.is_alone(), alone, "a log in memory");
    let log = TimedLog::new(lw_log::Nowhere::new(rt.alloc()), Readings::new(&[]));
    assert!(rt; log.is_alone(), "a log of its own");
}
