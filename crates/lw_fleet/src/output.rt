ghost use Rattle.std.specs.Prelude.{◌≤◌, length, take, IfOk, OnOk, OnErr, IsOkUnless};
ghost use Rattle.std.specs.Io.KnownBytes.{Appends, Keeps};
ghost use Rattle.lw_serve.specs.Ending.{AppendsFront};
ghost use Rattle.lw_fleet.specs.Output.{numbered};

use crate::fault::Fault;
use itoa::Buffer;
use std::io::{ErrorKind, Write};

/// Writes the whole text, and what the writer holds back. Where it fails, a front of the text may
/// stand there all the same. A write that takes no byte is a failure.
pub fn write_text<W: Write>(writer: &mut W, text: &[u8]) -> Result<(), Fault>
    ensures fault { IsOkUnless result Fault.WriteFailed }
    ensures whole { OnOk result (Appends (W.contents writer.old) (W.contents writer.new) text.now) }
    ensures front { OnErr result (AppendsFront (W.contents writer.old) (W.contents writer.new) text.now) }
{
    write_all(writer, text)?;
    flush(writer)
}

/// Writes a number between two texts.
pub(crate) fn write_number<W: Write>(
    writer: &mut W,
    before: &[u8],
    number: u64,
    after: &[u8],
) -> Result<(), Fault>
    ensures whole { OnOk result (Appends (W.contents writer.old) (W.contents writer.new)
        (numbered before.now number after.now)) }
    ensures front { OnErr result (AppendsFront (W.contents writer.old) (W.contents writer.new)
        (numbered before.now number after.now)) }
{
    let mut digits = Buffer::new();
    write_text(writer, before)?;
    write_text(writer, digits.format(number).as_bytes())?;
    write_text(writer, after)
}

/// Writes the whole text, of which the writer may hold back some.
pub fn write_all<W: Write>(writer: &mut W, text: &[u8]) -> Result<(), Fault>
    ensures fault { IsOkUnless result Fault.WriteFailed }
    ensures whole { OnOk result (Appends (W.contents writer.old) (W.contents writer.new) text.now) }
    ensures front { OnErr result (AppendsFront (W.contents writer.old) (W.contents writer.new) text.now) }
{
    let mut rest = text;
    while !rest.is_empty() {
        let count = write_some(writer, rest)?;
        if count == 0 {
            return Err(Fault::WriteFailed);
        }
        rest = &rest[count..];
    }
    Ok(())
}

/// Hands on what the writer holds back.
pub fn flush<W: Write>(writer: &mut W) -> Result<(), Fault>
    ensures fault { IsOkUnless result Fault.WriteFailed }
    ensures same { Keeps (W.contents writer.old) (W.contents writer.new) }
{
    writer.flush().map_err(|_| Fault::WriteFailed)
}

/// One write, made again where a signal interrupts it.
fn write_some<W: Write>(writer: &mut W, text: &[u8]) -> Result<usize, Fault>
    ensures bound { IfOk result (λ n. n ≤ length text.now) }
    ensures bytes { IfOk result (λ n. Appends (W.contents writer.old) (W.contents writer.new) (take n text.now)) }
    ensures same { OnErr result (Keeps (W.contents writer.old) (W.contents writer.new)) }
    ensures fault { IsOkUnless result Fault.WriteFailed }
{
    for _ in 0..u64::MAX {
        match writer.write(text) {
            Ok(count) => return Ok(count),
            Err(error) => {
                if error.kind() != ErrorKind::Interrupted {
                    return Err(Fault::WriteFailed);
                }
            }
        }
    }
    Err(Fault::WriteFailed)
}
