//! The program over any reader and writer.

ghost use Rattle.std.specs.Prelude.{◌≡◌, map, IfOk, IfSome, OnOk};
ghost use Rattle.std.specs.Io.KnownBytes.{Appends};
ghost use Rattle.registry.specs.Run.{lines_of, TellsLine, TellsAll, Prints};

use crate::fault::Fault;
use crate::fleet::fleets_text;
use crate::registry::Registry;
use lw_stamp::NoMemory;
use std::alloc::Global;
use std::io::{Read, Write};

/// Reads lines to the end of the input. What each comes to is written before the next is looked at, and after the last
/// the fleet.
pub fn run<R: Read, W: Write>(alloc: Global, reader: &mut R, writer: &mut W) -> Result<(), Fault>
    ensures { OnOk result (Prints (R.remaining reader.old) (W.contents writer.old) (W.contents writer.new)) }
{
    let input = read_all(alloc, reader)?;
    let all = lines(alloc, &input)?;
    let mut registry = Registry::new(alloc);
    take_lines(alloc, &mut registry, &all, writer)?;
    let fleets = fleets_text(alloc, &registry)?;
    write(writer, fleets.as_bytes())
}

fn read_all<R: Read>(alloc: Global, reader: &mut R) -> Result<Vec<u8>, Fault>
    ensures { IfOk result (λ bytes. IfSome (R.remaining reader.old) (λ all. bytes.items ≡ all)) }
{
    let mut bytes = Vec::new(alloc);
    match reader.read_to_end(&mut bytes) {
        Ok(_) => Ok(bytes),
        Err(_) => Err(Fault::ReadFailed),
    }
}

/// The lines between line feeds.
fn lines(alloc: Global, input: &[u8]) -> Result<Vec<&[u8]>, NoMemory>
    ensures { IfOk result (λ lines. map (λ line. line.now) lines.items ≡ lines_of input.now) }
{
    let mut lines = Vec::new(alloc);
    for line in input.split(|byte| *byte == b'\n') {
        lines.push(line)?;
    }
    Ok(lines)
}

/// Takes the lines in turn.
fn take_lines<W: Write>(
    alloc: Global,
    registry: &mut Registry,
    lines: &[&[u8]],
    writer: &mut W,
) -> Result<(), Fault>
    ensures { OnOk result (TellsAll registry.old (map (λ line. line.now) lines.now) registry.new
        (W.contents writer.old) (W.contents writer.new)) }
{
    for place in 0..lines.len() {
        take_line(alloc, registry, place + 1, lines[place], writer)?;
    }
    Ok(())
}

/// Takes a line. Its number is for the fault.
fn take_line<W: Write>(
    alloc: Global,
    registry: &mut Registry,
    number: usize,
    line: &[u8],
    writer: &mut W,
) -> Result<(), Fault>
    ensures { OnOk result (TellsLine registry.old line.now registry.new (W.contents writer.old)
        (W.contents writer.new)) }
{
    match registry.take_line(alloc, line) {
        Ok(text) => write(writer, text.as_bytes()),
        Err(cause) => Err(Fault::Line {
            line: number,
            cause,
        }),
    }
}

/// Writes the text, and what the writer holds back.
fn write<W: Write>(writer: &mut W, text: &[u8]) -> Result<(), Fault>
    ensures { OnOk result (Appends (W.contents writer.old) (W.contents writer.new) text.now) }
{
    writer.write_all(text).map_err(|_| Fault::WriteFailed)?;
    writer.flush().map_err(|_| Fault::WriteFailed)
}
