ghost use Rattle.std.specs.Prelude.{◌≡◌};
ghost use Rattle.lw_coap.specs.declared.fault.Fault.TheVariants.{NoMemory};

use std::alloc::{AllocError, AllocFailed};
use thiserror::Error;

/// Why bytes were not read as a message.
#[derive(Clone, Copy, Debug, PartialEq, Eq, Error)]
pub enum Fault {
    /// Fewer than 4 bytes.
    #[error("the datagram has fewer than 4 bytes")]
    Short,
    /// The version is not 1.
    #[error("the version of the message is not 1")]
    Version,
    /// The token length is 9 to 15.
    #[error("the token length is over 8")]
    TokenLength,
    /// An option's nibble is 15, or its number is above 65535.
    #[error("an option has a nibble of 15, or a number above 65535")]
    OptionHead,
    /// The token or an option passes the end.
    #[error("the datagram ends before its token or an option does")]
    Truncated,
    /// Nothing stands behind the payload marker.
    #[error("no payload follows the payload marker")]
    EmptyPayload,
    /// The code is 0.00, and something stands behind the header or the token length is not 0.
    #[error("the code is 0.00, but there is more than a header")]
    EmptyMessage,
    /// More than 8,192 bytes.
    #[error("the datagram has more than 8192 bytes")]
    TooLong,
    /// A growth was refused. The bytes spell a message.
    #[error("out of memory")]
    NoMemory,
}

impl From<AllocError> for Fault {
    ghost from_gives = { λ _ fault. fault ≡ NoMemory };

    fn from(_error: AllocError) -> Fault {
        Fault::NoMemory
    }
}

impl<T: Drop> From<AllocFailed<T>> for Fault {
    ghost from_gives = { λ _ fault. fault ≡ NoMemory };

    fn from(_error: AllocFailed<T>) -> Fault {
        Fault::NoMemory
    }
}
