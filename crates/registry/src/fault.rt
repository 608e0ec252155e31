use lw_call::ObserveFault;
use lw_stamp::NoMemory;
use std::alloc::AllocError;
use thiserror::Error;

/// What ends the program early.
#[derive(Clone, Copy, Debug, PartialEq, Eq, Error)]
pub enum Fault {
    /// Lines are counted from 1.
    #[error("line {line}: {cause}")]
    Line { line: usize, cause: LineFault },
    #[error("the input could not be read to its end")]
    ReadFailed,
    #[error("the output did not take all")]
    WriteFailed,
    #[error("out of memory")]
    NoMemory,
}

/// Why nothing came of a line, or not all.
#[derive(Clone, Copy, Debug, PartialEq, Eq, Error)]
pub enum LineFault {
    #[error("it is not three fields with a space between each two: MS ADDRESS HEX")]
    Fields,
    #[error("its moment is no number of milliseconds from 0 to 281474976710655, without leading zeros")]
    Moment,
    #[error("its address is not written as 127.0.0.1:5683 or [0000:0000:0000:0000:0000:0000:0000:0001]:5683")]
    Address,
    #[error("its datagram is not written in pairs of hex digits")]
    Hex,
    #[error("the device is not observed: {0}")]
    NotObserved(ObserveFault),
    #[error("the clock of the node is at its end")]
    ClockEnd,
    #[error("out of memory")]
    NoMemory,
}

impl From<NoMemory> for Fault {
    ghost use Rattle.std.specs.Prelude.{◌≡◌};
    ghost use Rattle.registry.specs.declared.fault.Fault.TheVariants.{NoMemory as OutOfMemory};

    ghost from_gives = { λ _ fault. fault ≡ OutOfMemory };

    fn from(_error: NoMemory) -> Fault {
        Fault::NoMemory
    }
}

impl From<NoMemory> for LineFault {
    ghost use Rattle.std.specs.Prelude.{◌≡◌};
    ghost use Rattle.registry.specs.declared.fault.LineFault.TheVariants.{NoMemory as OutOfMemory};

    ghost from_gives = { λ _ fault. fault ≡ OutOfMemory };

    fn from(_error: NoMemory) -> LineFault {
        LineFault::NoMemory
    }
}

impl From<AllocError> for LineFault {
    ghost use Rattle.std.specs.Prelude.{◌≡◌};
    ghost use Rattle.registry.specs.declared.fault.LineFault.TheVariants.{NoMemory as OutOfMemory};

    ghost from_gives = { λ _ fault. fault ≡ OutOfMemory };

    fn from(_error: AllocError) -> LineFault {
        LineFault::NoMemory
    }
}
