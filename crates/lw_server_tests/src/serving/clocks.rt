//! The clocks of a host: one that is set, and one that goes on.

use super::*;
use std::cell::Cell;

/// A host's clock that shows these moments in turn, in milliseconds.
#[derive(Drop)]
struct Shown {
    moments: &'static [u64],
    readings: usize,
}

impl HostClock for Shown {
    fn now(&mut self) -> Option<Moment> {
        let ms = self.moments.get(self.readings)?;
        self.readings = self.readings.wrapping_add(1);
        Moment::new(*ms)
    }
}

/// What the host's clock shows, and how many microseconds have passed since the start.
const MOMENTS: [u64; 4] = [10_000, 3_000, 281_474_976_710_656, 12_000];

const PASSED: [Option<u64>; 3] = [Some(0), Some(1_999), None];

/// What is told then, started at 10 s: the moment, and the one that goes on. A clock that shows no moment tells nothing,
/// and a stopwatch that tells nothing does so too.
const TOLD: [Option<(u64, u64)>; 4] = [Some((10_000, 10_000)), Some((3_000, 10_001)), None, None];

/// Tries: lw_server::HostClocks::new, lw_server::Clocks::read
#[test]
fn a_clock_that_is_set_back_holds_nothing_up(rt: HostRuntime) {
    let shown = Shown {
        moments: &MOMENTS,
        readings: 0,
    };
    let start = Moment::new(10_000).expect(&rt, "a moment");
    let mut clocks = HostClocks::new(shown, Readings::new(&PASSED), start);
    for want in &TOLD {
        let times = clocks.read();
        let told = times.map(|times| (times.moment.ms(), times.steady.ms()));
        assert!(rt; told == *want, "{told:?}");
    }
}

/// A clock of a fleet that tells these moments in turn, in milliseconds.
#[derive(Drop)]
struct Fleet {
    moments: &'static [Option<u64>],
    readings: Cell<usize>,
}

impl FleetClock for Fleet {
    fn moment(&self) -> Option<Moment> {
        let at = self.readings.get();
        self.readings.set(at.wrapping_add(1));
        Moment::new((*self.moments.get(at)?)?)
    }
}

/// What the host's clock shows, and what that of its fleet tells.
const HOST: [u64; 6] = [10_000, 18_000, 10_000, 0, 5_000, 5_000];

const FLEET: [Option<u64>; 6] = [
    None,
    Some(10_000),
    Some(10_001),
    Some(281_474_976_710_655),
    Some(5_000),
    Some(2_000),
];

/// The moment that is told then, the one that goes on, which is the host's, how the host's clock stands to the first,
/// and how many milliseconds lie between the two.
const SHARED: [(u64, u64, Offset, u64); 6] = [
    (10_000, 10_000, Offset::Ahead(0), 0),
    (10_000, 18_000, Offset::Ahead(8_000), 8_000),
    (10_001, 10_000, Offset::Behind(1), 1),
    (
        281_474_976_710_655,
        0,
        Offset::Behind(281_474_976_710_655),
        281_474_976_710_655,
    ),
    (5_000, 5_000, Offset::Ahead(0), 0),
    (2_000, 5_000, Offset::Ahead(3_000), 3_000),
];

/// Tries: lw_server::SharedClocks::new, lw_server::Clocks::read, lw_server::Clocks::offset
/// Tries: lw_server::FleetClock::moment
/// Tries: lw_server::Offset::of, lw_server::Offset::milliseconds
#[test]
fn lifetimes_go_by_the_clock_of_the_fleet(rt: HostRuntime) {
    let fleet = Fleet {
        moments: &FLEET,
        readings: Cell::new(0),
    };
    let mut clocks = SharedClocks::new(Ticks::new(&HOST, Offset::NONE), fleet);
    assert!(rt; clocks.offset() == Offset::NONE, "nothing was told yet");
    for want in &SHARED {
        let times = clocks.read().expect(&rt, "the clocks tell");
        let offset = clocks.offset();
        let told = (
            times.moment.ms(),
            times.steady.ms(),
            offset,
            offset.milliseconds(),
        );
        assert!(rt; told == *want, "{told:?}");
    }
}

/// The end of the moments of a host's clock: it shows none.
const BEYOND: [u64; 1] = [281_474_976_710_656];

/// Tries: lw_server::Clocks::read
#[test]
fn a_host_without_a_clock_tells_nothing(rt: HostRuntime) {
    let fleet = Fleet {
        moments: &FLEET,
        readings: Cell::new(1),
    };
    let mut clocks = SharedClocks::new(Ticks::new(&BEYOND, Offset::NONE), fleet);
    assert!(rt; clocks.read() == None, "a moment is told");
}
