//! Lines of a kind with a number, and lines of a kind with a text.

ghost use Rattle.lw_resp.specs.Bytes.{count_line};
ghost use Rattle.lw_resp.specs.Words.{IsLineText, IsText};
ghost use Rattle.lw_resp.specs.inner.Reads.{Reads};
ghost use Rattle.lw_resp.specs.inner.Parts.{IsAtMost, ended, number_ended};

use crate::Malformed;
use crate::lines::{Line, first_line};
use crate::numbers::number;
use crate::words::MAX_TEXT;

/// A line of which the end has not begun to come.
fn begun_number(most: u64, digits: &[u8]) -> Result<Option<(u64, &[u8])>, Malformed>
    requires { IsLineText digits.now }
    ensures { Reads (IsAtMost most) number_ended digits.now result (λ x. x.0) (λ x. x.1.now) }
{
    if digits.is_empty() {
        return Ok(None);
    }
    match number(most, digits) {
        Some(_) => Ok(None),
        None => Err(Malformed),
    }
}

/// The number that is at most so great of the line at the front, and what stands behind the line.
pub(crate) fn number_line(most: u64, bytes: &[u8]) -> Result<Option<(u64, &[u8])>, Malformed>
    ensures { Reads (IsAtMost most) number_ended bytes.now result (λ x. x.0) (λ x. x.1.now) }
{
    match first_line(bytes) {
        Line::Whole(digits, rest) => match number(most, digits) {
            Some(number) => Ok(Some((number, rest))),
            None => Err(Malformed),
        },
        Line::Returned(digits) => match number(most, digits) {
            Some(_) => Ok(None),
            None => Err(Malformed),
        },
        Line::Begun(digits) => begun_number(most, digits),
        Line::Broken => Err(Malformed),
    }
}

/// The text of the line at the front, and what stands behind the line.
pub(crate) fn text_line(bytes: &[u8]) -> Result<Option<(&[u8], &[u8])>, Malformed>
    ensures { Reads IsText ended bytes.now result (λ x. x.0.now) (λ x. x.1.now) }
{
    match first_line(bytes) {
        Line::Whole(text, rest) => {
            if text.len() > MAX_TEXT {
                return Err(Malformed);
            }
            Ok(Some((text, rest)))
        }
        Line::Returned(text) => {
            if text.len() > MAX_TEXT {
                return Err(Malformed);
            }
            Ok(None)
        }
        Line::Begun(text) => {
            if text.len() > MAX_TEXT {
                return Err(Malformed);
            }
            Ok(None)
        }
        Line::Broken => Err(Malformed),
    }
}

/// The number of the line of a kind at the front, and what stands behind the line.
pub(crate) fn count(kind: u8, most: u64, bytes: &[u8]) -> Result<Option<(u64, &[u8])>, Malformed>
    ensures { Reads (IsAtMost most) (count_line kind) bytes.now result (λ x. x.0) (λ x. x.1.now) }
{
    match bytes.split_first() {
        None => Ok(None),
        Some((first, behind)) => {
            if *first != kind {
                return Err(Malformed);
            }
            number_line(most, behind)
        }
    }
}
