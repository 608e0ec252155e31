//! Why bytes are no entry.

use lw_delta::DeltaFault;
use thiserror::Error;

/// Why bytes were not read as an entry.
#[derive(Clone, Copy, Debug, PartialEq, Eq, Error)]
pub enum EntryFault {
    /// The first three bytes are not `LWE`.
    #[error("the entry does not begin with LWE")]
    Magic,
    /// The entry or its delta is of a format that is not read here: behind `LWE` stands no `1`, or the delta begins
    /// with `LWD` and is none of `LWD1`, `LWD2` and `LWD3`.
    #[error("the entry or its delta is of a newer format")]
    Newer,
    /// The bytes end before a part does.
    #[error("the entry ends before one of its parts does")]
    Truncated,
    /// The number is 0, or the kind is above 2.
    #[error("the number of the entry is 0, or its kind is above 2")]
    Range,
    /// A byte behind a start.
    #[error("bytes follow the end of the entry")]
    Trailing,
    /// The delta is none.
    #[error("{0}")]
    Delta(DeltaFault),
}
