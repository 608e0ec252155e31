//! What a reply to `TIME` tells.

ghost use Rattle.std.specs.Prelude.{◌≡◌, ◌≢◌, ◌<◌, ◌≤◌, ◌+◌, ◌*◌, ◌/◌, ◌^◌, ◌↔◌, ℕ, List};
ghost use Rattle.std.specs.Prelude.{IsTrue, IfSome, IfNone, IsSomeAnd};
ghost use Rattle.std.specs.Fmt.{decimal};
ghost use Rattle.lw_resp.specs.Bytes.{bulk_bytes};
ghost use Rattle.lw_resp.specs.Reading.{Begins};
ghost use Rattle.lw_resp.specs.Words.{IsBulk, IsWord, WordContent, word_bytes, word_content};
ghost use Rattle.lw_resp.specs.Words.WordContent.{Array, Bulk, Error};
ghost use Rattle.lw_redis_log.specs.Times.{IsError, IsTimeTold};
ghost use Rattle.lw_redis_log.specs.inner.Times.{ArePair, AreTexts, IsLastBulk, IsMoment};

use crate::outcomes::{RedisFault, fault_of};
use itoa::Buffer;
use lw_resp::{Word, first_word};
use std::str;

/// How many milliseconds a second has.
const MILLISECONDS: u64 = 1_000;

/// How many microseconds a millisecond has.
const MICROSECONDS: u64 = 1_000;

/// How many microseconds a second has.
const MICROSECONDS_A_SECOND: u64 = 1_000_000;

/// What time the reply tells, in milliseconds since 1970.
pub fn time_told(bytes: &[u8]) -> Result<u64, RedisFault<'_>>
    ensures { IsTimeTold bytes.now result }
{
    match texts(bytes) {
        Some((seconds, microseconds)) => match moment_of(seconds, microseconds) {
            Some(told) => Ok(told),
            None => Err(RedisFault::Unavailable),
        },
        None => match error_text(bytes) {
            Some(text) => Err(fault_of(text)),
            None => Err(RedisFault::Unavailable),
        },
    }
}

/// The text of the error that the bytes are.
fn error_text(bytes: &[u8]) -> Option<&[u8]>
    ensures found { IfSome result (λ text. IsError bytes.now text.now) }
    ensures only { (text : List ℕ) → IsError bytes.now text → IsSomeAnd result (λ x. x.now ≡ text) }
{
    match word_at(bytes) {
        Some((word, behind)) => {
            if behind.is_empty() {
                error_of(word)
            } else {
                None
            }
        }
        None => None,
    }
}

/// The two bulk strings of the array that the bytes are.
fn texts(bytes: &[u8]) -> Option<(&[u8], &[u8])>
    ensures found { IfSome result (λ x. AreTexts bytes.now x.0.now x.1.now) }
    ensures only { (first last : List ℕ) → AreTexts bytes.now first last
        → IsSomeAnd result (λ x. (x.0.now ≡ first) × (x.1.now ≡ last)) }
{
    match word_at(bytes) {
        Some((word, behind)) => { if is_pair(word) { pair(behind) } else { None } }
        None => None,
    }
}

/// The two bulk strings that the bytes are.
fn pair(bytes: &[u8]) -> Option<(&[u8], &[u8])>
    ensures found { IfSome result (λ x. ArePair bytes.now x.0.now x.1.now) }
    ensures only { (first last : List ℕ) → ArePair bytes.now first last
        → IsSomeAnd result (λ x. (x.0.now ≡ first) × (x.1.now ≡ last)) }
{
    match first_bulk(bytes) {
        Some((first, behind)) => match last_bulk(behind) {
            Some(last) => Some((first, last)),
            None => None,
        },
        None => None,
    }
}

/// The bulk string that the bytes are.
fn last_bulk(bytes: &[u8]) -> Option<&[u8]>
    ensures found { IfSome result (λ x. IsLastBulk bytes.now x.now) }
    ensures only { (content : List ℕ) → IsLastBulk bytes.now content
        → IsSomeAnd result (λ x. x.now ≡ content) }
{
    match first_bulk(bytes) {
        Some((content, behind)) => {
            if behind.is_empty() {
                Some(content)
            } else {
                None
            }
        }
        None => None,
    }
}

/// The bulk string at the front, and what stands behind it.
fn first_bulk(bytes: &[u8]) -> Option<(&[u8], &[u8])>
    ensures found { IfSome result (λ x. Begins IsBulk bulk_bytes bytes.now x.0.now x.1.now) }
    ensures only { (content rest : List ℕ) → Begins IsBulk bulk_bytes bytes.now content rest
        → IsSomeAnd result (λ x. (x.0.now ≡ content) × (x.1.now ≡ rest)) }
{
    match word_at(bytes) {
        Some((word, behind)) => match bulk_of(word) {
            Some(content) => Some((content, behind)),
            None => None,
        },
        None => None,
    }
}

/// The word at the front, and what stands behind it.
fn word_at(bytes: &[u8]) -> Option<(Word<'_>, &[u8])>
    ensures found { IfSome result (λ x. Begins IsWord word_bytes bytes.now (word_content x.0) x.1.now) }
    ensures only { (word : WordContent) (rest : List ℕ) → Begins IsWord word_bytes bytes.now word rest
        → IsSomeAnd result (λ x. (word_content x.0 ≡ word) × (x.1.now ≡ rest)) }
{
    match first_word(bytes) {
        Ok(found) => found,
        Err(_) => None,
    }
}

fn is_pair(word: Word<'_>) -> bool
    ensures { IsTrue result ↔ (word_content word.entry ≡ Array 2) }
{
    match word {
        Word::Array(number) => number == 2,
        _ => false,
    }
}

fn bulk_of(word: Word<'_>) -> Option<&[u8]>
    ensures found { IfSome result (λ content. word_content word.entry ≡ Bulk content.now) }
    ensures none { IfNone result ((content : List ℕ) → word_content word.entry ≢ Bulk content) }
{
    match word {
        Word::Bulk(content) => Some(content),
        _ => None,
    }
}

fn error_of(word: Word<'_>) -> Option<&[u8]>
    ensures found { IfSome result (λ text. word_content word.entry ≡ Error text.now) }
    ensures none { IfNone result ((text : List ℕ) → word_content word.entry ≢ Error text) }
{
    match word {
        Word::Error(text) => Some(text),
        _ => None,
    }
}

/// The moment in milliseconds of whole seconds and microseconds.
fn moment_of(seconds: &[u8], microseconds: &[u8]) -> Option<u64>
    ensures found { IfSome result (λ told. IsMoment seconds.now microseconds.now told) }
    ensures none { IfNone result ((told : ℕ) → ¬ IsMoment seconds.now microseconds.now told) }
{
    match number(seconds) {
        Some(whole) => match number(microseconds) {
            Some(part) => milliseconds(whole, part),
            None => None,
        },
        None => None,
    }
}

/// The same, of numbers.
fn milliseconds(whole: u64, part: u64) -> Option<u64>
    ensures found { IfSome result (λ told. (part < 1000000) × (told ≡ whole * 1000 + part / 1000)
        × (told < 2 ^ 64)) }
    ensures none { IfNone result (part < 1000000 → 2 ^ 64 ≤ whole * 1000 + part / 1000) }
{
    if part >= MICROSECONDS_A_SECOND {
        return None;
    }
    match whole.checked_mul(MILLISECONDS) {
        Some(whole) => whole.checked_add(part / MICROSECONDS),
        None => None,
    }
}

/// The number that the digits print.
fn number(digits: &[u8]) -> Option<u64>
    ensures found { IfSome result (λ n. digits.now ≡ decimal n) }
    ensures none { IfNone result ((n : ℕ) → n < 2 ^ 64 → digits.now ≢ decimal n) }
{
    let Ok(text) = str::from_utf8(digits) else {
        return None;
    };
    let Ok(number) = text.parse::<u64>() else {
        return None;
    };
    if !prints(number, digits) {
        return None;
    }
    Some(number)
}

fn prints(number: u64, digits: &[u8]) -> bool
    ensures { IsTrue result ↔ (digits.now ≡ decimal number) }
{
    let mut buffer = Buffer::new();
    buffer.format(number).as_bytes() == digits
}
