//! Percent-encoded text (RFC 3986, section 2.1).

ghost use Rattle.std.specs.Prelude.{◌≡◌, ◌↔◌, IsTrue, IfOk, slice_index};
ghost use Rattle.std.specs.Char.{IsAsciiHexdigit};
ghost use Rattle.lw_route.specs.Answers.{Reads};
ghost use Rattle.lw_route.specs.Decoding.{IsPercentEncoded, IsDecoded, IsPathEncoded, IsShort};
ghost use Rattle.lw_route.specs.declared.error.RouteError.TheVariants as error;
ghost use Rattle.lw_route.specs.inner.Faults.{IsAnswered};

use crate::RouteError;
use crate::fault::Fault;
use lw_path::read_path;
use lw_reg::{Endpoint, Path};
use lw_stamp::Text;
use percent_encoding::{DecodeError, percent_decode_str};
use std::alloc::Global;
use std::borrow::CowStr;

/// What the text stands for.
pub(crate) fn decoded(alloc: Global, text: &str, error: RouteError) -> Result<Text, Fault>
    ensures { IsAnswered (Reads IsDecoded error text.now) result }
{
    if !is_percent_encoded(text.as_bytes()) {
        return Err(Fault::Route(error));
    }
    match percent_decode_str(text).decode_utf8(alloc) {
        Ok(CowStr::Borrowed(name)) => Ok(Text::copy_of(alloc, name)?),
        Ok(CowStr::Owned(name)) => Ok(Text::from(name)),
        Err(DecodeError::Utf8(_)) => Err(Fault::Route(error)),
        Err(DecodeError::OutOfMemory) => Err(Fault::NoMemory),
    }
}

/// What the text stands for, which has 252 bytes at most.
pub(crate) fn short(alloc: Global, text: &str, error: RouteError) -> Result<Text, Fault>
    ensures { IsAnswered (Reads IsShort error text.now) result }
{
    let name = decoded(alloc, text, error)?;
    if name.as_str().len() > Endpoint::MAX_LENGTH {
        return Err(Fault::Route(error));
    }
    Ok(name)
}

/// The path whose text the text stands for.
pub(crate) fn path(alloc: Global, text: &str) -> Result<Path, Fault>
    ensures { IsAnswered (Reads IsPathEncoded error.Path text.now) result }
{
    let name = decoded(alloc, text, RouteError::Path)?;
    match read_path(name.as_str()) {
        Some(path) => Ok(path),
        None => Err(Fault::Route(RouteError::Path)),
    }
}

/// Whether two hex digits follow each `%`.
fn is_percent_encoded(text: &[u8]) -> bool
    ensures { IsTrue result ↔ IsPercentEncoded text.now }
{
    for (place, byte) in text.iter().enumerate() {
        if *byte == b'%' && !begins_with_hex(&text[place + 1..]) {
            return false;
        }
    }
    true
}

/// Whether the first two bytes are hex digits.
fn begins_with_hex(text: &[u8]) -> bool
    ensures { IsTrue result ↔ (IsAsciiHexdigit (slice_index text.now 0) × IsAsciiHexdigit (slice_index text.now 1)) }
{
    match text {
        [high, low, ..] => high.is_ascii_hexdigit() && low.is_ascii_hexdigit(),
        _ => false,
    }
}
