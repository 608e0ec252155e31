//! Why a log did not do what it was asked.

ghost use Rattle.std.specs.Prelude.{◌≡◌};
ghost use Rattle.lw_log.specs.declared.log_fault.LogFault.TheVariants.{NoMemory};

use std::alloc::{AllocError, AllocFailed};
use thiserror::Error;

/// Why a log did not do it.
#[derive(Clone, Copy, Debug, PartialEq, Eq, Error)]
pub enum LogFault {
    /// It cannot be asked now. An append may have been made.
    #[error("the log is away")]
    Unavailable,
    /// It will not do this. An append may have been made.
    #[error("the log refused")]
    Refused,
    /// It is not there any more, or has lost what was appended last.
    #[error("the log is lost")]
    Lost,
    /// A growth was refused before the log was asked. Nothing was appended or let go.
    #[error("out of memory")]
    NoMemory,
}

impl From<AllocError> for LogFault {
    ghost from_gives = { λ _ fault. fault ≡ NoMemory };

    fn from(_error: AllocError) -> LogFault {
        LogFault::NoMemory
    }
}

impl<T: Drop> From<AllocFailed<T>> for LogFault {
    ghost from_gives = { λ _ fault. fault ≡ NoMemory };

    fn from(_error: AllocFailed<T>) -> LogFault {
        LogFault::NoMemory
    }
}
