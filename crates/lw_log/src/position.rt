//! Where an entry stands in its log.

/// The position of an entry. Positions rise by `major` and then by `minor`.
#[derive(Clone, Copy, Debug, PartialEq, Eq, PartialOrd, Ord)]
pub struct Position {
    pub major: u64,
    pub minor: u64,
}
