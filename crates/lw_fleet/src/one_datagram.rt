ghost use Rattle.std.specs.Prelude.{◌≡◌, ◌≢◌, ◌↔◌, Ok, OnOk, OnErr, IfOk, IfErr, IfSome, Err, IsErr, length, ◌<◌, ℕ};
ghost use Rattle.std.specs.Io.KnownBytes.{Keeps};
ghost use Rattle.hex.specs.Hex.{decode_of};
ghost use Rattle.lw_stamp.specs.Moment.{ms_of};
ghost use Rattle.lw_fleet.specs.Line.{line_of, longest_line};
ghost use Rattle.lw_fleet.specs.One.{IsAddressText, IsAnswered, Prints, PrintsFront};

use crate::command::OneOptions;
use crate::fault::Fault;
use crate::hex_line::bytes_of_hex;
use crate::input::read_line;
use crate::output::write_text;
use lw_json::answer_text;
use lw_node::Node;
use lw_reg::Addr;
use lw_stamp::{Moment, NoMemory};
use std::alloc::Global;
use std::io::{Read, Write};

/// Takes the datagram that a line of hex spells at a new node, and prints what the node answers.
pub fn one<R: Read, W: Write>(
    alloc: Global,
    options: &OneOptions<'_>,
    reader: &mut R,
    writer: &mut W,
) -> Result<(), Fault>
    // What is printed is the answer of a new node to the datagram that the first line spells.
    ensures printed { OnOk result (Prints options.entry.now (R.remaining reader.old) (W.contents writer.old)
        (W.contents writer.new)) }
    // A writer that fails may have taken a front of it.
    ensures front { result ≡ Err Fault.WriteFailed
        → PrintsFront options.entry.now (R.remaining reader.old) (W.contents writer.old) (W.contents writer.new) }
    // Any other fault comes before the first byte is written.
    ensures nothing { IfErr result (λ e. e ≢ Fault.WriteFailed
        → Keeps (W.contents writer.old) (W.contents writer.new)) }

    ensures address_refused { (result ≡ Err Fault.AddressRefused) ↔ (¬ IsAddressText options.entry.now.from.now) }
    ensures unread { result ≡ Err Fault.AddressRefused → reader.new ≡ reader.old }
    ensures hex_refused { result ≡ Err Fault.HexRefused
        → IfSome (R.remaining reader.old) (λ bytes. IsErr (decode_of (line_of bytes))) }
    // No line of a script is refused.
    ensures no_script { IfErr result (λ e. (line : ℕ) → e ≢ Fault.LineRefused line) }
    ensures too_long { result ≡ Err Fault.TooLong
        → IfSome (R.remaining reader.old) (λ bytes. longest_line < length (line_of bytes)) }
{
    let Some(source) = Addr::read(options.from) else {
        return Err(Fault::AddressRefused);
    };
    let line = read_line(alloc, reader)?;
    let datagram = bytes_of_hex(alloc, &line)?;
    let text = answered(alloc, options.node, options.now, source, &datagram)?;
    write_text(writer, &text)
}

/// What a new node answers to a datagram, and what it then shows.
fn answered(
    alloc: Global,
    number: u16,
    now: Moment,
    source: Addr,
    datagram: &[u8],
) -> Result<Vec<u8>, NoMemory>
    ensures { IfOk result (λ text. IsAnswered number (ms_of now) source datagram.now text.items) }
{
    let mut node = Node::new(alloc, number);
    let taken = node.take(now, source, datagram)?;
    let shown = node.first_after(now, None);
    answer_text(alloc, taken.reply.as_deref(), shown.as_ref())
}
