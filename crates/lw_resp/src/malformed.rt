//! Why bytes were not read.

use lw_stamp::NoMemory;
use thiserror::Error;

/// The bytes are no reply, and no beginning of one.
#[derive(Clone, Copy, Debug, PartialEq, Eq, Error)]
#[error("the bytes are no reply")]
pub struct Malformed;

/// Why bytes were not read as a reply.
#[derive(Clone, Copy, Debug, PartialEq, Eq, Error)]
pub enum ReplyFault {
    /// The bytes are no reply that a log gets, and no beginning of one.
    #[error("the bytes are no reply")]
    Malformed,
    /// A growth was refused.
    #[error("out of memory")]
    NoMemory,
}

impl From<Malformed> for ReplyFault {
    fn from(_fault: Malformed) -> ReplyFault {
        ReplyFault::Malformed
    }
}

impl From<NoMemory> for ReplyFault {
    fn from(_fault: NoMemory) -> ReplyFault {
        ReplyFault::NoMemory
    }
}
