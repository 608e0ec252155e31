//! The line at the front of bytes.

ghost use Rattle.std.specs.Prelude.{◌≡◌, position, Some};
ghost use Rattle.lw_resp.specs.inner.Parts.{IsLine, is_end as is_end_of_line};

use crate::literals::behind_literal;

/// The end of a line.
pub(crate) const CRLF: &[u8] = b"\r\n";

/// A line, as far as it has come.
#[derive(Clone, Copy)]
pub(crate) enum Line<'a> {
    /// A line without its end, and what stands behind its end.
    Whole(&'a [u8], &'a [u8]),
    /// A line without its end, of which the first byte has come.
    Returned(&'a [u8]),
    /// The beginning of a line.
    Begun(&'a [u8]),
    /// A carriage return or a line feed that ends no line.
    Broken,
}

fn is_end(byte: u8) -> bool
    ensures { result ≡ is_end_of_line byte }
{
    byte == b'\r' || byte == b'\n'
}

fn first_end(bytes: &[u8]) -> Option<usize>
    ensures { result ≡ position is_end_of_line bytes.now }
{
    bytes.iter().position(|byte| is_end(*byte))
}

/// The line at the front.
pub(crate) fn first_line(bytes: &[u8]) -> Line<'_>
    ensures { IsLine bytes.now result }
{
    match first_end(bytes) {
        Some(place) => line_to(place, bytes),
        None => Line::Begun(bytes),
    }
}

/// The line that ends, or would end, at the place.
fn line_to(place: usize, bytes: &[u8]) -> Line<'_>
    requires { position is_end_of_line bytes.now ≡ Some place }
    ensures { IsLine bytes.now result }
{
    let (text, end) = bytes.split_at(place);
    match behind_literal(CRLF, end) {
        Ok(Some(rest)) => Line::Whole(text, rest),
        Ok(None) => Line::Returned(text),
        Err(_) => Line::Broken,
    }
}
