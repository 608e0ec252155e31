ghost use Rattle.std.specs.Prelude.{◌≡◌, ◌++◌, OnOk, OnErr, IsOkUnless};
ghost use Rattle.std.specs.Io.KnownBytes.{Appends};
ghost use Rattle.lw_serve.specs.Ending.{settled_line, AppendsFront};

use crate::fault::ServeFault;
use std::io::{ErrorKind, Write};

/// Writes the line of a run whose journals are what its passes say. A write that takes no byte is a failure.
pub(crate) fn write_settled<O: Write>(writer: &mut O) -> Result<(), ServeFault>
    ensures fault { IsOkUnless result ServeFault.WriteFailed }
    ensures whole { OnOk result (Appends (O.contents writer.old) (O.contents writer.new) settled_line) }
    ensures front { OnErr result (AppendsFront (O.contents writer.old) (O.contents writer.new) settled_line) }
{
    let mut rest: &[u8] = b"settled\n";
    for _ in 0..u64::MAX {
        if rest.is_empty() {
            return writer.flush().map_err(|_| ServeFault::WriteFailed);
        }
        match writer.write(rest) {
            Ok(0) => return Err(ServeFault::WriteFailed),
            Ok(count) => rest = &rest[count..],
            Err(error) => {
                if error.kind() != ErrorKind::Interrupted {
                    return Err(ServeFault::WriteFailed);
                }
            }
        }
    }
    Err(ServeFault::WriteFailed)
}
