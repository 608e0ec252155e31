ghost use Rattle.std.specs.Prelude.{◌≡◌, OnOk, OnErr};
ghost use Rattle.std.specs.Io.KnownBytes.{Appends};
ghost use Rattle.lw_fleet.specs.Fault.{fault_line, IsTold};
ghost use Rattle.lw_serve.specs.Ending.{AppendsFront};
ghost use Rattle.lw_fleet.specs.declared.fault.Fault.TheVariants.{NoMemory as OutOfMemory};

use crate::output::{write_number, write_text};
use lw_stamp::NoMemory;
use std::io::Write;
use thiserror::Error;

/// What ends a command early. Each is told as a line of its own on standard error.
#[derive(Clone, Copy, Debug, PartialEq, Eq, Error)]
pub enum Fault {
    /// The text of the option `--from` is no address.
    #[error("address refused: the text of --from is no address")]
    AddressRefused,
    /// Standard input could not be read.
    #[error("read failed: standard input could not be read to its end")]
    ReadFailed,
    /// The line or the script has more bytes than are taken.
    #[error("script too long: the input has more than 1048576 bytes")]
    TooLong,
    /// The line is not written in pairs of hex digits.
    #[error("hex refused: the line is not pairs of hex digits")]
    HexRefused,
    /// A line of the script, the first that is none. It is counted from 1.
    #[error("line {line} refused: it is no line of a script")]
    LineRefused { line: usize },
    /// Standard output did not take all.
    #[error("write failed: standard output did not take all")]
    WriteFailed,
    /// Memory ran out.
    #[error("no memory: a growth was refused")]
    NoMemory,
}

impl Fault {
    /// Writes the line of the fault, and tells whether all of it was taken.
    pub fn tell<E: Write>(self, errors: &mut E) -> bool
        ensures { IsTold self result (E.contents errors.old) (E.contents errors.new) }
    {
        self.write(errors).is_ok()
    }

    fn write<E: Write>(self, errors: &mut E) -> Result<(), Fault>
        ensures whole { OnOk result (Appends (E.contents errors.old) (E.contents errors.new) (fault_line self)) }
        ensures front { OnErr result (AppendsFront (E.contents errors.old) (E.contents errors.new) (fault_line self)) }
    {
        match self {
            Fault::AddressRefused => write_text(errors, b"address refused\n"),
            Fault::ReadFailed => write_text(errors, b"read failed\n"),
            Fault::TooLong => write_text(errors, b"script too long\n"),
            Fault::HexRefused => write_text(errors, b"hex refused\n"),
            Fault::LineRefused { line } => {
                write_number(errors, b"line ", line as u64, b" refused\n")
            }
            Fault::WriteFailed => write_text(errors, b"write failed\n"),
            Fault::NoMemory => write_text(errors, b"no memory\n"),
        }
    }
}

impl From<NoMemory> for Fault {
    ghost from_gives = { λ _ fault. fault ≡ OutOfMemory };

    fn from(_error: NoMemory) -> Fault {
        Fault::NoMemory
    }
}
