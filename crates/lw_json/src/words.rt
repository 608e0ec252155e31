//! Words of a line, written one after another.

ghost use Rattle.hex.specs.Hex.{encode_lower};
ghost use Rattle.lw_stamp.specs.Stamp.{id_of};
ghost use Rattle.lw_json.specs.inner.Words.{Puts};

use itoa::{Buffer, Integer};
use lw_stamp::{NoMemory, Stamp};
use std::alloc::Global;

/// Adds a text.
pub(crate) fn put_word(line: &mut Vec<u8>, text: &str) -> Result<(), NoMemory>
    ensures { Puts result line.old.items line.new.items text.now }
{
    Ok(line.extend_from_slice(text.as_bytes())?)
}

/// Adds a number in decimal.
pub(crate) fn put_decimal<I: Integer>(line: &mut Vec<u8>, number: I) -> Result<(), NoMemory>
    ensures { Puts result line.old.items line.new.items (I.text number) }
{
    let mut buffer = Buffer::new();
    put_word(line, buffer.format(number))
}

/// Adds bytes in lower-case hex.
pub(crate) fn put_hex(line: &mut Vec<u8>, alloc: Global, bytes: &[u8]) -> Result<(), NoMemory>
    ensures { Puts result line.old.items line.new.items (encode_lower bytes.now) }
{
    let digits = hex::encode(alloc, bytes)?;
    put_word(line, digits.as_str())
}

/// Adds the 16 hex digits of an identifier or a token.
pub(crate) fn put_id(line: &mut Vec<u8>, id: Stamp) -> Result<(), NoMemory>
    ensures { Puts result line.old.items line.new.items (id_of id) }
{
    let mut digits = [0; 16];
    hex::encode_to_slice(id.to_bytes(), &mut digits).unwrap();
    Ok(line.extend_from_slice(&digits)?)
}
