//! Which moment it is by the clock of a host.

use super::*;
use std::io::{self, ErrorKind};
use std::time::{Clock, Duration};

/// A clock that stands still, or cannot be read.
#[derive(Drop)]
struct Stopped(Option<Duration>);

impl Clock for Stopped {
    fn monotonic(&self) -> io::Result<Duration> {
        Ok(Duration::ZERO)
    }

    fn since_1970(&self) -> io::Result<Duration> {
        self.0.ok_or(io::Error::from(ErrorKind::Other))
    }
}

/// The milliseconds of the moment that such a clock of the host gives.
fn moment_by(since_1970: Option<Duration>) -> Option<u64> {
    let clock = Stopped(since_1970);
    let moment = SystemClock { clock: &clock }.now()?;
    Some(moment.ms())
}

/// Milliseconds and nanoseconds since 1970, and the milliseconds of the moment.
static MOMENTS: [(u64, u64, Option<u64>); 5] = [
    (0, 0, Some(0)),
    (0, 999_999, Some(0)),
    (0, 1_234_567_890, Some(1_234)),
    (281_474_976_710_655, 0, Some(281_474_976_710_655)),
    (281_474_976_710_656, 0, None),
];

/// Tries: lw_udp::moment_after
#[test]
fn the_host_counts_milliseconds_since_1970(rt: HostRuntime) {
    for (ms, nanos, want) in &MOMENTS {
        let since_1970 = Duration::from_millis(*ms).checked_add(Duration::from_nanos(*nanos));
        assert!(rt; since_1970.is_some());
        assert_eq!(rt; moment_by(since_1970), *want);
    }
    assert_eq!(rt; moment_by(None), None);
}
