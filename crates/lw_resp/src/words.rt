//! Words, of which replies are made.

ghost use Rattle.std.specs.Prelude.{◌≡◌, ◌↔◌, ℕ, List, ◌∷◌, Ok, None, IfOk, IfSome, IsErr, IsOkAnd, IsSomeAnd};
ghost use Rattle.lw_resp.specs.Reading.{Begins, IsCut, IsMalformed};
ghost use Rattle.lw_resp.specs.Words.{IsWord, WordContent, word_bytes, word_content};
ghost use Rattle.lw_resp.specs.inner.Reads.{Reads};
ghost use Rattle.lw_resp.specs.inner.Parts.{BeginsOther};

use crate::Malformed;
use crate::bulks::bulk_behind;
use crate::counts::{number_line, text_line};
use crate::literals::behind_literal;

/// How long the text of a line may be.
pub const MAX_TEXT: usize = 65_536;

/// How long a bulk string may be: 512 megabytes.
pub const MAX_BULK: usize = 536_870_912;

/// How great a number may be.
pub const MAX_NUMBER: u64 = 9_223_372_036_854_775_807;

/// A word of a reply. A reply that is no array is one word.
#[derive(Clone, Copy, Debug, PartialEq, Eq)]
pub enum Word<'a> {
    /// `+` and a text.
    Status(&'a [u8]),
    /// `-` and a text.
    Error(&'a [u8]),
    /// `:` and a number.
    Number(u64),
    /// A bulk string.
    Bulk(&'a [u8]),
    /// So many replies follow.
    Array(u64),
    /// `$-1`: no bulk string.
    Null,
    /// `*-1`: no array.
    NullArray,
}

fn status(behind: &[u8]) -> Result<Option<(Word<'_>, &[u8])>, Malformed>
    ensures { Reads IsWord word_bytes (43 ∷ behind.now) result (λ x. word_content x.0) (λ x. x.1.now) }
{
    match text_line(behind) {
        Ok(Some((text, rest))) => Ok(Some((Word::Status(text), rest))),
        Ok(None) => Ok(None),
        Err(_) => Err(Malformed),
    }
}

fn error(behind: &[u8]) -> Result<Option<(Word<'_>, &[u8])>, Malformed>
    ensures { Reads IsWord word_bytes (45 ∷ behind.now) result (λ x. word_content x.0) (λ x. x.1.now) }
{
    match text_line(behind) {
        Ok(Some((text, rest))) => Ok(Some((Word::Error(text), rest))),
        Ok(None) => Ok(None),
        Err(_) => Err(Malformed),
    }
}

fn integer(behind: &[u8]) -> Result<Option<(Word<'_>, &[u8])>, Malformed>
    ensures { Reads IsWord word_bytes (58 ∷ behind.now) result (λ x. word_content x.0) (λ x. x.1.now) }
{
    match number_line(MAX_NUMBER, behind) {
        Ok(Some((number, rest))) => Ok(Some((Word::Number(number), rest))),
        Ok(None) => Ok(None),
        Err(_) => Err(Malformed),
    }
}

fn null(behind: &[u8]) -> Result<Option<(Word<'_>, &[u8])>, Malformed>
    ensures { Reads IsWord word_bytes (36 ∷ 45 ∷ behind.now) result (λ x. word_content x.0) (λ x. x.1.now) }
{
    match behind_literal(b"1\r\n", behind) {
        Ok(Some(rest)) => Ok(Some((Word::Null, rest))),
        Ok(None) => Ok(None),
        Err(_) => Err(Malformed),
    }
}

fn null_array(behind: &[u8]) -> Result<Option<(Word<'_>, &[u8])>, Malformed>
    ensures { Reads IsWord word_bytes (42 ∷ 45 ∷ behind.now) result (λ x. word_content x.0) (λ x. x.1.now) }
{
    match behind_literal(b"1\r\n", behind) {
        Ok(Some(rest)) => Ok(Some((Word::NullArray, rest))),
        Ok(None) => Ok(None),
        Err(_) => Err(Malformed),
    }
}

fn bulk_word(behind: &[u8]) -> Result<Option<(Word<'_>, &[u8])>, Malformed>
    requires { BeginsOther 45 behind.now }
    ensures { Reads IsWord word_bytes (36 ∷ behind.now) result (λ x. word_content x.0) (λ x. x.1.now) }
{
    match bulk_behind(behind) {
        Ok(Some((content, rest))) => Ok(Some((Word::Bulk(content), rest))),
        Ok(None) => Ok(None),
        Err(_) => Err(Malformed),
    }
}

fn array_word(behind: &[u8]) -> Result<Option<(Word<'_>, &[u8])>, Malformed>
    requires { BeginsOther 45 behind.now }
    ensures { Reads IsWord word_bytes (42 ∷ behind.now) result (λ x. word_content x.0) (λ x. x.1.now) }
{
    match number_line(MAX_NUMBER, behind) {
        Ok(Some((number, rest))) => Ok(Some((Word::Array(number), rest))),
        Ok(None) => Ok(None),
        Err(_) => Err(Malformed),
    }
}

fn bulk(behind: &[u8]) -> Result<Option<(Word<'_>, &[u8])>, Malformed>
    ensures { Reads IsWord word_bytes (36 ∷ behind.now) result (λ x. word_content x.0) (λ x. x.1.now) }
{
    match behind.split_first() {
        None => Ok(None),
        Some((first, rest)) => {
            if *first == b'-' {
                return null(rest);
            }
            bulk_word(behind)
        }
    }
}

fn array(behind: &[u8]) -> Result<Option<(Word<'_>, &[u8])>, Malformed>
    ensures { Reads IsWord word_bytes (42 ∷ behind.now) result (λ x. word_content x.0) (λ x. x.1.now) }
{
    match behind.split_first() {
        None => Ok(None),
        Some((first, rest)) => {
            if *first == b'-' {
                return null_array(rest);
            }
            array_word(behind)
        }
    }
}

/// The word of a kind.
fn word_of(kind: u8, behind: &[u8]) -> Result<Option<(Word<'_>, &[u8])>, Malformed>
    ensures { Reads IsWord word_bytes (kind ∷ behind.now) result (λ x. word_content x.0) (λ x. x.1.now) }
{
    match kind {
        b'+' => status(behind),
        b'-' => error(behind),
        b':' => integer(behind),
        b'$' => bulk(behind),
        b'*' => array(behind),
        _ => Err(Malformed),
    }
}

pub(crate) fn read_word(bytes: &[u8]) -> Result<Option<(Word<'_>, &[u8])>, Malformed>
    ensures { Reads IsWord word_bytes bytes.now result (λ x. word_content x.0) (λ x. x.1.now) }
{
    match bytes.split_first() {
        None => Ok(None),
        Some((kind, behind)) => word_of(*kind, behind),
    }
}

/// The word at the front, and what stands behind it; none where it has not come whole. It takes no memory.
pub fn first_word(bytes: &[u8]) -> Result<Option<(Word<'_>, &[u8])>, Malformed>
    // What is read stands there.
    ensures found { IfOk result (λ r. IfSome r (λ x. Begins IsWord word_bytes bytes.now (word_content x.0) x.1.now)) }
    // What stands there is read, whatever stands behind it.
    ensures only { (word : WordContent) (rest : List ℕ) → Begins IsWord word_bytes bytes.now word rest
        → IsOkAnd result (λ r. IsSomeAnd r (λ x. (word_content x.0 ≡ word) × (x.1.now ≡ rest))) }
    ensures cut { (result ≡ Ok None) ↔ IsCut IsWord word_bytes bytes.now }
    ensures malformed { IsErr result ↔ IsMalformed IsWord word_bytes bytes.now }
{
    read_word(bytes)
}
