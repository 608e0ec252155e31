//! The clocks of a host.

ghost use Rattle.std.specs.Prelude.{◌≡◌};
ghost use Rattle.lw_server.specs.Clocks.{milliseconds_of, no_offset, offset_of};

use crate::Stopwatch;
use lw_stamp::Moment;
use lw_udp::HostClock;

/// How many microseconds a millisecond has.
const MICROSECONDS: u64 = 1_000;

/// What the clocks of a host tell at once.
#[derive(Clone, Copy, Debug, PartialEq, Eq)]
pub struct Times {
    /// The moment that it is by the host's clock, which may be set back.
    pub moment: Moment,
    /// The moment of the start, and behind it the time that has passed since, whatever the host's clock was set to.
    pub steady: Moment,
}

/// How the clock of a host stands to the one that lifetimes go by.
#[derive(Clone, Copy, Debug, PartialEq, Eq)]
pub enum Offset {
    /// It is ahead by so many milliseconds.
    Ahead(u64),
    /// It is behind by so many milliseconds.
    Behind(u64),
}

impl Offset {
    /// Of a clock that is right.
    pub const NONE: Offset = Offset::Ahead(0);

    /// Of a host's clock that shows the first moment, where lifetimes go by a clock that shows the second one.
    pub fn of(host: Moment, fleet: Moment) -> Offset
        ensures { result ≡ offset_of host fleet }
    {
        if host.ms() >= fleet.ms() {
            return Offset::Ahead(host.ms().saturating_sub(fleet.ms()));
        }
        Offset::Behind(fleet.ms().saturating_sub(host.ms()))
    }

    /// How many milliseconds lie between the two.
    pub fn milliseconds(self) -> u64
        ensures { result ≡ milliseconds_of self }
    {
        match self {
            Offset::Ahead(milliseconds) | Offset::Behind(milliseconds) => milliseconds,
        }
    }
}

/// What tells the time.
pub trait Clocks: Drop {
    ghost use Rattle.std.specs.Prelude.{Option, None, List};
    ghost use Rattle.lw_server.specs.Clocks.{Tells};
    ghost use Rattle.lw_server.specs.declared.clocks.Times.{Times as Told};

    /// What it has told, in order, where that is known.
    ghost told: { Self → Option (List Told) } = { λ _. None };

    /// What the clocks tell now. It is nothing where one of them cannot be read, or shows no `Moment`.
    fn read(&mut self) -> Option<Times>
        ensures { Tells (told self.old) (told self.new) result };

    /// How the host's own clock stood to the moment that was told last.
    fn offset(&self) -> Offset;
}

/// The clock of a host, and a stopwatch that was started with it.
#[derive(Drop)]
pub struct HostClocks<C: HostClock + Drop, S: Stopwatch> {
    clock: C,
    stopwatch: S,
    start: Moment,
}

impl<C: HostClock + Drop, S: Stopwatch> HostClocks<C, S> {
    /// Clocks that start at the moment at which the stopwatch was started.
    pub fn new(clock: C, stopwatch: S, start: Moment) -> HostClocks<C, S>
        ensures clock { result.clock ≡ clock }
        ensures stopwatch { result.stopwatch ≡ stopwatch }
        ensures start { result.start ≡ start }
    {
        HostClocks {
            clock,
            stopwatch,
            start,
        }
    }
}

impl<C: HostClock + Drop, S: Stopwatch> Clocks for HostClocks<C, S> {
    fn read(&mut self) -> Option<Times> {
        let moment = self.clock.now()?;
        let passed = self.stopwatch.microseconds()? / MICROSECONDS;
        let steady = Moment::new(self.start.ms().saturating_add(passed))?;
        Some(Times { moment, steady })
    }

    fn offset(&self) -> Offset {
        Offset::NONE
    }
}

/// A clock that all servers of a fleet go by.
pub trait FleetClock: Drop {
    /// The moment that it is. It is nothing where the clock has not told any yet.
    fn moment(&self) -> Option<Moment>;
}

/// The clocks of a host whose lifetimes go by the clock of its fleet, once that tells a moment.
#[derive(Drop)]
pub struct SharedClocks<C: Clocks, F: FleetClock> {
    host: C,
    fleet: F,
    offset: Offset,
}

impl<C: Clocks, F: FleetClock> SharedClocks<C, F> {
    pub fn new(host: C, fleet: F) -> SharedClocks<C, F>
        ensures host { result.host ≡ host }
        ensures fleet { result.fleet ≡ fleet }
        ensures offset { result.offset ≡ no_offset }
    {
        SharedClocks {
            host,
            fleet,
            offset: Offset::NONE,
        }
    }
}

impl<C: Clocks, F: FleetClock> Clocks for SharedClocks<C, F> {
    /// The time that goes on is the host's.
    fn read(&mut self) -> Option<Times> {
        let times = self.host.read()?;
        let moment = self.fleet.moment().unwrap_or(times.moment);
        self.offset = Offset::of(times.moment, moment);
        Some(Times { moment, ..times })
    }

    fn offset(&self) -> Offset {
        self.offset
    }
}
