//! An entry of a log, where it stands in its bytes.

use crate::Start;

/// The fleet whose log it is: random bytes, made with the first entry of the log.
#[derive(Clone, Copy, Debug, PartialEq, Eq)]
pub struct FleetId {
    pub bytes: [u8; 16],
}

/// An entry: whose log it is in, which start wrote it and as its how manieth, and what it says.
#[derive(Clone, Copy)]
pub struct Entry<'a> {
    pub fleet: FleetId,
    pub start: Start,
    /// 1, 2, .. of this start.
    pub sequence: u64,
    pub body: Body<'a>,
}

/// What an entry says.
#[derive(Clone, Copy)]
pub enum Body<'a> {
    /// A server has begun with this number.
    Start,
    /// What a node has learned, as a delta.
    Delta(&'a [u8]),
    /// All that a node knows, as a delta, with a bit for each number that a start of the log has had.
    Snapshot {
        used_numbers: &'a [u8; 8192],
        delta: &'a [u8],
    },
}
