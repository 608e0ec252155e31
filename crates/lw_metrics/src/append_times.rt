//! How long appends took.

ghost use Rattle.std.specs.Prelude.{◌≡◌, nat_le, position};
ghost use Rattle.lw_metrics.specs.IoCounters.{bounds, bucket_of as bucket_in, new_times, together as together_of};
ghost use Rattle.lw_metrics.specs.IoCounters.{with_time};

use crate::tally::one_more;

/// The bounds of the buckets, in microseconds. They rise.
const BOUNDS: [u64; 13] = [
    500, 1_000, 2_000, 5_000, 10_000, 20_000, 50_000, 100_000, 200_000, 500_000, 1_000_000,
    2_000_000, 5_000_000,
];

/// How often appends took how long.
#[derive(Clone, Copy, Debug)]
pub struct AppendTimes {
    /// How many took no longer than each bound, and longer than the bound before it. The last are those that took
    /// longer than each bound.
    pub counts: [u64; 14],
    /// What they took together, in microseconds.
    pub microseconds: u64,
}

impl AppendTimes {
    /// Of no append.
    pub fn new() -> AppendTimes
        ensures { result ≡ new_times }
    {
        AppendTimes {
            counts: [0; BOUNDS.len() + 1],
            microseconds: 0,
        }
    }

    /// Counts an append that took so long.
    pub fn count(&mut self, microseconds: u64)
        ensures { self.new ≡ with_time self.old microseconds }
    {
        let place = bucket_of(microseconds);
        self.counts[place] = one_more(self.counts[place]);
        self.microseconds = together(self.microseconds, microseconds);
    }
}

/// The place of the bucket of a time.
fn bucket_of(microseconds: u64) -> usize
    ensures { result ≡ bucket_in microseconds }
{
    match bound_of(microseconds) {
        Some(place) => place,
        None => BOUNDS.len(),
    }
}

/// The first bound that is not below a time.
fn bound_of(microseconds: u64) -> Option<usize>
    ensures { result ≡ position (λ bound. nat_le microseconds bound) bounds }
{
    BOUNDS.iter().position(|bound| microseconds <= *bound)
}

/// Two numbers together, up to 2^64 - 1.
pub(crate) fn together(one: u64, other: u64) -> u64
    ensures { result ≡ together_of one other }
{
    one.saturating_add(other)
}
