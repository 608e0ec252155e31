use lw_delta::DeltaFault;
use thiserror::Error;

/// Why a delta was not merged, or not whole.
#[derive(Clone, Copy, Debug, PartialEq, Eq, Error)]
pub enum MergeFault {
    /// The bytes are no delta. Nothing is changed.
    #[error("the bytes are no delta: {0}")]
    Malformed(DeltaFault),
    /// A growth was refused. The clock was raised, and the slots were joined from the first on, fewer than all.
    #[error("out of memory after {joined} slots were joined")]
    NoMemory {
        /// How many were joined.
        joined: usize,
    },
}
