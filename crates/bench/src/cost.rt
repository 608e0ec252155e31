use crate::fault::BenchFault;
use std::time::{CpuClock, Duration};

/// What a number of calls cost.
#[derive(Clone, Copy)]
pub(crate) struct Cost {
    /// The processor time, in nanoseconds.
    pub nanos: u64,
    pub calls: u32,
    /// The bytes that the calls read or wrote; 0 where they are not counted.
    pub bytes: u64,
}

impl Cost {
    /// The cost of calls that began at this reading of the clock and end now.
    pub(crate) fn since<C: CpuClock>(
        clock: &C,
        start: Duration,
        calls: u32,
        bytes: u64,
    ) -> Result<Cost, BenchFault> {
        let time = clock.thread_cpu_time()?.saturating_sub(start);
        Ok(Cost {
            nanos: u64::try_from(time.as_nanos()).unwrap_or(u64::MAX),
            calls,
            bytes,
        })
    }

    /// The one that took less time.
    pub(crate) fn least(self, other: Cost) -> Cost {
        if other.nanos < self.nanos {
            other
        } else {
            self
        }
    }

    /// Nanoseconds for each call, rounded down; 0 where there is none.
    pub(crate) fn nanos_each(&self) -> u64 {
        self.nanos.checked_div(u64::from(self.calls)).unwrap_or(0)
    }

    /// Millions of bytes in a second, rounded down; none where no time has passed or no bytes were counted.
    pub(crate) fn megabytes_each_second(&self) -> Option<u128> {
        if self.bytes == 0 {
            return None;
        }
        let scaled = u128::from(self.bytes) * 1000;
        scaled.checked_div(u128::from(self.nanos))
    }

    /// The time of a call, in hundredths of that of the other's, rounded down; none where the other took no time
    /// or there is no call.
    pub(crate) fn hundredths_of(&self, other: &Cost) -> Option<u128> {
        let mine = u128::from(self.nanos) * u128::from(other.calls) * 100;
        mine.checked_div(u128::from(other.nanos) * u128::from(self.calls))
    }
}

/// What a call costs at three sizes.
#[derive(Clone, Copy)]
pub(crate) struct Costs {
    pub small: Cost,
    pub medium: Cost,
    pub large: Cost,
}

impl Costs {
    /// At each size the one that took less time.
    pub(crate) fn least(self, other: Costs) -> Costs {
        Costs {
            small: self.small.least(other.small),
            medium: self.medium.least(other.medium),
            large: self.large.least(other.large),
        }
    }
}
