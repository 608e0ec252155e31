//! Bulk strings.

ghost use Rattle.std.specs.Prelude.{ℕ, List, MatchResult, MatchOption};
ghost use Rattle.std.specs.List.{flat_map};
ghost use Rattle.lw_resp.specs.Reading.{Begins, IsCut, IsMalformed};
ghost use Rattle.lw_resp.specs.Bytes.{bulk_bytes};
ghost use Rattle.lw_resp.specs.Words.{IsBulk};
ghost use Rattle.lw_resp.specs.inner.Reads.{Reads};
ghost use Rattle.lw_resp.specs.inner.Parts.{AreMany, HasLength, bulk_ended, ended};

use crate::Malformed;
use crate::counts::number_line;
use crate::lines::CRLF;
use crate::literals::behind_literal;
use crate::words::MAX_BULK;

/// So many bytes, which the end of a line follows, and what stands behind that.
fn content(length: usize, bytes: &[u8]) -> Result<Option<(&[u8], &[u8])>, Malformed>
    ensures { Reads (HasLength length) ended bytes.now result (λ x. x.0.now) (λ x. x.1.now) }
{
    if bytes.len() < length {
        return Ok(None);
    }
    let (content, end) = bytes.split_at(length);
    match behind_literal(CRLF, end) {
        Ok(Some(rest)) => Ok(Some((content, rest))),
        Ok(None) => Ok(None),
        Err(_) => Err(Malformed),
    }
}

/// The content of the bulk string whose `$` the bytes stand behind, and what stands behind it.
pub(crate) fn bulk_behind(bytes: &[u8]) -> Result<Option<(&[u8], &[u8])>, Malformed>
    ensures { Reads IsBulk bulk_ended bytes.now result (λ x. x.0.now) (λ x. x.1.now) }
{
    match number_line(MAX_BULK as u64, bytes) {
        Ok(Some((length, behind))) => content(length as usize, behind),
        Ok(None) => Ok(None),
        Err(_) => Err(Malformed),
    }
}

/// The content of the bulk string at the front, and what stands behind it.
pub(crate) fn first_bulk(bytes: &[u8]) -> Result<Option<(&[u8], &[u8])>, Malformed>
    ensures { Reads IsBulk bulk_bytes bytes.now result (λ x. x.0.now) (λ x. x.1.now) }
{
    match bytes.split_first() {
        None => Ok(None),
        Some((kind, behind)) => {
            if *kind != b'$' {
                return Err(Malformed);
            }
            bulk_behind(behind)
        }
    }
}

/// So many bulk strings at the front are passed over: what stands behind them.
pub(crate) fn behind_bulks(number: u64, bytes: &[u8]) -> Result<Option<&[u8]>, Malformed>
    ensures { MatchResult result (λ r. MatchOption r (IsCut (AreMany IsBulk number) (flat_map bulk_bytes) bytes.now)
        (λ rest. (contents : List (List ℕ))
        × Begins (AreMany IsBulk number) (flat_map bulk_bytes) bytes.now contents rest.now))
        (λ _. IsMalformed (AreMany IsBulk number) (flat_map bulk_bytes) bytes.now) }
{
    let mut rest = bytes;
    for _ in 0..number {
        match first_bulk(rest) {
            Ok(Some((_, behind))) => rest = behind,
            Ok(None) => return Ok(None),
            Err(_) => return Err(Malformed),
        }
    }
    Ok(Some(rest))
}
