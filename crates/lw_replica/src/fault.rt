//! Why a replica did not do what it was asked.

ghost use Rattle.std.specs.Prelude.{◌≡◌};
ghost use Rattle.lw_log.specs.declared.log_fault.LogFault.{LogFault as LogFaults};
ghost use Rattle.lw_replica.specs.declared.fault.ReplicaFault.TheVariants.{NoMemory as OutOfMemory};
ghost use Rattle.lw_replica.specs.Faults.{fault_of};

use lw_log::LogFault;
use lw_stamp::NoMemory;
use std::alloc::{AllocError, AllocFailed};
use thiserror::Error;

/// Why a replica did not do what it was asked. No reply is given then.
#[derive(Clone, Copy, Debug, PartialEq, Eq, Error)]
pub enum ReplicaFault {
    /// The log did not do it.
    #[error("{0}")]
    Log(LogFault),
    /// The log has a delta of another fleet.
    #[error("the log has a delta of another fleet")]
    AnotherFleet,
    /// The log does not begin with its first entry, and has no snapshot.
    #[error("the log does not begin with its first entry, and has no whole one")]
    LogCut,
    /// The log has an entry of a format that is not read here.
    #[error("the log has an entry of a newer format")]
    LogNewer,
    /// Another start has the number, or has made the fleet.
    #[error("another start has the number")]
    NumberTaken,
    /// Each number has had a start.
    #[error("each number has had a start")]
    NumbersEnded,
    /// The moment is past 2100, or years after what the clock of the log tells.
    #[error("the clock is past 2100, or years ahead of the log")]
    ClockAhead,
    /// A growth was refused.
    #[error("out of memory")]
    NoMemory,
}

impl From<LogFault> for ReplicaFault {
    ghost from_gives = { λ error fault. fault ≡ fault_of error };

    fn from(error: LogFault) -> ReplicaFault {
        match error {
            LogFault::NoMemory => ReplicaFault::NoMemory,
            fault => ReplicaFault::Log(fault),
        }
    }
}

impl From<NoMemory> for ReplicaFault {
    ghost from_gives = { λ _ fault. fault ≡ OutOfMemory };

    fn from(_error: NoMemory) -> ReplicaFault {
        ReplicaFault::NoMemory
    }
}

impl From<AllocError> for ReplicaFault {
    ghost from_gives = { λ _ fault. fault ≡ OutOfMemory };

    fn from(_error: AllocError) -> ReplicaFault {
        ReplicaFault::NoMemory
    }
}

impl<T: Drop> From<AllocFailed<T>> for ReplicaFault {
    ghost from_gives = { λ _ fault. fault ≡ OutOfMemory };

    fn from(_error: AllocFailed<T>) -> ReplicaFault {
        ReplicaFault::NoMemory
    }
}
