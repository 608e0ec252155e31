//! The moments of the tests.

use lw_stamp::Moment;

/// The moment that is so many milliseconds after the start.
pub(crate) fn at(ms: u64) -> Moment {
    Moment::new(ms).unwrap_or(Moment::START)
}
