ghost use Rattle.std.specs.Prelude.{◌≡◌};
ghost use Rattle.lw_delta.specs.declared.fault.DeltaFault.TheVariants.{NoMemory as WantOfMemory};

use lw_stamp::NoMemory;
use std::alloc::{AllocError, AllocFailed};
use thiserror::Error;

/// Why bytes were not read as a delta.
#[derive(Clone, Copy, Debug, PartialEq, Eq, Error)]
pub enum DeltaFault {
    /// The first four bytes are none of `LWD1`, `LWD2` and `LWD3`.
    #[error("the delta begins with none of LWD1, LWD2 and LWD3")]
    Magic,
    /// The bytes end before a part does.
    #[error("the delta ends before one of its parts does")]
    Truncated,
    /// An endpoint or path is not above the one before.
    #[error("an endpoint or a path is not above the one before")]
    Order,
    /// A length, tag, flag or number out of its range, or a stamp with counter 0.
    #[error("a length, tag, flag, number or stamp is out of its range")]
    Range,
    /// Not UTF-8, not letters A to Z, or no printing of links.
    #[error("a text is not UTF-8, a binding is not letters A to Z, or objects are no printed links")]
    Text,
    /// A stamp above the sender's clock.
    #[error("a stamp is above the sender's clock")]
    ClockBelow,
    /// A byte behind the end.
    #[error("bytes follow the end of the delta")]
    Trailing,
    /// A growth was refused. The bytes are a delta.
    #[error("out of memory")]
    NoMemory,
}

impl From<NoMemory> for DeltaFault {
    ghost from_gives = { λ _ fault. fault ≡ WantOfMemory };

    fn from(_error: NoMemory) -> DeltaFault {
        DeltaFault::NoMemory
    }
}

impl From<AllocError> for DeltaFault {
    ghost from_gives = { λ _ fault. fault ≡ WantOfMemory };

    fn from(_error: AllocError) -> DeltaFault {
        DeltaFault::NoMemory
    }
}

impl<T: Drop> From<AllocFailed<T>> for DeltaFault {
    ghost from_gives = { λ _ fault. fault ≡ WantOfMemory };

    fn from(_error: AllocFailed<T>) -> DeltaFault {
        DeltaFault::NoMemory
    }
}
