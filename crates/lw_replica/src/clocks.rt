//! What a moment says of a start: the clock that it raises a node to, and whether the start is refused.

ghost use Rattle.std.specs.Prelude.{◌≡◌, ◌<◌, ◌*◌, ◌↔◌, IsTrue};
ghost use Rattle.lw_replica.specs.Clocks.{IsPast2100, IsYearsAhead, floor_at as floor_of, year_2100};

use lw_stamp::Moment;

/// 2020-01-01 at midnight UTC, in milliseconds since 1970.
const YEAR_2020: u64 = 1_577_836_800_000;

/// 2100-01-01 at midnight UTC, in milliseconds since 1970.
const YEAR_2100: u64 = 4_102_444_800_000;

/// Five years of 365.25 days, in milliseconds.
const FIVE_YEARS: u64 = 157_788_000_000;

/// By how much a clock is raised for each millisecond since 1970.
const COUNTS_A_MILLISECOND: u64 = 64;

/// The greatest clock that a start raises a node to.
const LAST_FLOOR: u64 = COUNTS_A_MILLISECOND * YEAR_2100 - 1;

/// The clock that a replica is raised to that begins at the moment.
pub(crate) fn floor_at(moment: Moment) -> u64
    ensures value { result ≡ floor_of moment }
    ensures within { result < 64 * year_2100 }
{
    moment
        .ms()
        .saturating_mul(COUNTS_A_MILLISECOND)
        .min(LAST_FLOOR)
}

/// Whether no replica begins at the moment, whatever its log has.
pub(crate) fn is_past_2100(moment: Moment) -> bool
    ensures { IsTrue result ↔ IsPast2100 moment }
{
    moment.ms() >= YEAR_2100
}

/// Whether the moment is more than five years after the one that the clock stands for, where that is in 2020 or later.
pub(crate) fn is_years_ahead(moment: Moment, clock: u64) -> bool
    ensures { IsTrue result ↔ IsYearsAhead moment clock }
{
    let told = clock / COUNTS_A_MILLISECOND;
    told >= YEAR_2020 && moment.ms() > told + FIVE_YEARS
}
