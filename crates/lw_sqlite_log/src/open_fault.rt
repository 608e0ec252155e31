//! Why a log was not opened.

ghost use Rattle.std.specs.Prelude.{◌≡◌};
ghost use Rattle.lw_sqlite_log.specs.declared.open_fault.OpenFault.TheVariants.{NoMemory};
ghost use Rattle.lw_sqlite_log.specs.Faults.{fault_of, fault_of_kind};
ghost use Rattle.std.specs.IoError.{error_kind};

use sqlite::ErrorCode;
use std::alloc::AllocError;
use std::io;
use std::io::ErrorKind;
use thiserror::Error;

/// Why the file of a log was not opened.
#[derive(Clone, Copy, Debug, PartialEq, Eq, Error)]
pub enum OpenFault {
    /// Another process has the file.
    #[error("the file of the log is in use")]
    InUse,
    /// The file is no database, fails its sums, or defines something else than the table of entries.
    #[error("the file of the log is damaged, or is something else")]
    Damaged,
    /// The folder or the file cannot be made, opened, read or written.
    #[error("the file of the log cannot be made, opened, read or written")]
    Failed,
    /// A growth was refused.
    #[error("out of memory")]
    NoMemory,
}

impl From<AllocError> for OpenFault {
    ghost from_gives = { λ _ fault. fault ≡ NoMemory };

    fn from(_error: AllocError) -> OpenFault {
        OpenFault::NoMemory
    }
}

impl From<io::Error> for OpenFault {
    ghost from_gives = { λ error fault. fault ≡ fault_of_kind (error_kind error) };

    fn from(error: io::Error) -> OpenFault {
        match error.kind() {
            ErrorKind::OutOfMemory => OpenFault::NoMemory,
            _ => OpenFault::Failed,
        }
    }
}

impl From<sqlite::Error> for OpenFault {
    ghost from_gives = { λ error fault. fault ≡ fault_of error };

    fn from(error: sqlite::Error) -> OpenFault {
        let sqlite::Error::SqliteFailure(code) = error else {
            return OpenFault::Damaged;
        };
        match code {
            ErrorCode::DatabaseBusy => OpenFault::InUse,
            ErrorCode::OutOfMemory => OpenFault::NoMemory,
            ErrorCode::CannotOpen
            | ErrorCode::SystemIoFailure
            | ErrorCode::DiskFull
            | ErrorCode::Closed => OpenFault::Failed,
            _ => OpenFault::Damaged,
        }
    }
}
