//! What a turn may fail by, and what ends a run.

ghost use Rattle.std.specs.Prelude.{◌≡◌};
ghost use Rattle.lw_server.specs.Faults.{end_of, turn_fault_of};
ghost use Rattle.lw_server.specs.declared.fault.RunFault.TheVariants.{NoMemory as EndsForMemory};
ghost use Rattle.lw_server.specs.declared.fault.TurnFault.TheVariants.{NoMemory as WantOfMemory};

use lw_log::LogFault;
use lw_replica::ReplicaFault;
use lw_stamp::NoMemory;
use std::alloc::{AllocError, AllocFailed};
use thiserror::Error;

/// Why a turn gave no replies.
#[derive(Clone, Copy, Debug, PartialEq, Eq, Error)]
pub enum TurnFault {
    /// The log cannot be asked now.
    #[error("the log is away")]
    Unavailable,
    /// The log has lost what was appended last, which the next turn writes again.
    #[error("the log has lost what was appended last")]
    Lost,
    /// The host's clock gave no moment.
    #[error("the host's clock gave no moment in range")]
    ClockRefused,
    /// A growth was refused.
    #[error("out of memory")]
    NoMemory,
    /// The replica will not go on.
    #[error("{0}")]
    Replica(ReplicaFault),
}

impl From<ReplicaFault> for TurnFault {
    ghost from_gives = { λ error fault. fault ≡ turn_fault_of error };

    fn from(error: ReplicaFault) -> TurnFault {
        match error {
            ReplicaFault::Log(LogFault::Unavailable) => TurnFault::Unavailable,
            ReplicaFault::Log(LogFault::Lost) => TurnFault::Lost,
            ReplicaFault::Log(LogFault::NoMemory) | ReplicaFault::NoMemory => TurnFault::NoMemory,
            fault => TurnFault::Replica(fault),
        }
    }
}

impl From<NoMemory> for TurnFault {
    ghost from_gives = { λ _ fault. fault ≡ WantOfMemory };

    fn from(_error: NoMemory) -> TurnFault {
        TurnFault::NoMemory
    }
}

impl From<AllocError> for TurnFault {
    ghost from_gives = { λ _ fault. fault ≡ WantOfMemory };

    fn from(_error: AllocError) -> TurnFault {
        TurnFault::NoMemory
    }
}

impl<T: Drop> From<AllocFailed<T>> for TurnFault {
    ghost from_gives = { λ _ fault. fault ≡ WantOfMemory };

    fn from(_error: AllocFailed<T>) -> TurnFault {
        TurnFault::NoMemory
    }
}

/// Why a run ended, or did not begin.
#[derive(Clone, Copy, Debug, PartialEq, Eq, Error)]
pub enum RunFault {
    /// The transport failed 1,000 times in a row.
    #[error("receive failed: the front failed 1000 times in a row")]
    ReceiveFailed,
    /// The host's clock gave no moment, or one that is past 2100 or years ahead of the log.
    #[error("clock refused: the host's clock gave no moment in range, or is past 2100, or years ahead of the log")]
    ClockRefused,
    /// A growth was refused at the start, or in 1,000 turns in a row.
    #[error("no memory: a growth was refused at the start, or in 1000 turns in a row")]
    NoMemory,
    /// The log will not go on.
    #[error("log refused: the log will not go on")]
    LogRefused,
    /// The log has an entry of a format that is not read here.
    #[error("log newer: the log has an entry of a newer format")]
    LogNewer,
    /// The log does not begin with its first entry, and has no snapshot.
    #[error("log cut: the log does not begin with its first entry, and has no whole one")]
    LogCut,
    /// The log has a delta of another fleet.
    #[error("another fleet: the log has a delta of another fleet")]
    AnotherFleet,
    /// Another start has the number.
    #[error("number taken: another start has the number")]
    NumberTaken,
    /// Each number has had a start.
    #[error("numbers ended: each number has had a start")]
    NumbersEnded,
}

impl From<ReplicaFault> for RunFault {
    ghost from_gives = { λ error fault. fault ≡ end_of error };

    fn from(error: ReplicaFault) -> RunFault {
        match error {
            ReplicaFault::Log(LogFault::NoMemory) | ReplicaFault::NoMemory => RunFault::NoMemory,
            ReplicaFault::Log(_) => RunFault::LogRefused,
            ReplicaFault::AnotherFleet => RunFault::AnotherFleet,
            ReplicaFault::LogCut => RunFault::LogCut,
            ReplicaFault::LogNewer => RunFault::LogNewer,
            ReplicaFault::NumberTaken => RunFault::NumberTaken,
            ReplicaFault::NumbersEnded => RunFault::NumbersEnded,
            ReplicaFault::ClockAhead => RunFault::ClockRefused,
        }
    }
}

impl From<AllocError> for RunFault {
    ghost from_gives = { λ _ fault. fault ≡ EndsForMemory };

    fn from(_error: AllocError) -> RunFault {
        RunFault::NoMemory
    }
}

impl<T: Drop> From<AllocFailed<T>> for RunFault {
    ghost from_gives = { λ _ fault. fault ≡ EndsForMemory };

    fn from(_error: AllocFailed<T>) -> RunFault {
        RunFault::NoMemory
    }
}
