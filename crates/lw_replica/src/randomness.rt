//! What a start draws at random.

use lw_log::FleetId;

/// What a start draws at random, so that no two starts are alike.
#[derive(Clone, Copy, Debug, PartialEq, Eq)]
pub struct Randomness {
    /// The fleet, where the log has none yet.
    pub fleet: FleetId,
    /// The tag by which the start knows its own entries.
    pub tag: u64,
    /// Where it begins to look for a number that no start has had.
    pub number: u16,
}
