//! Errors of a Redis.

ghost use Rattle.std.specs.Prelude.{◌≡◌, ◌==◌, ◌↔◌, IsTrue, IsUtf8, position, take};
ghost use Rattle.std.specs.List.{before_first};
ghost use Rattle.lw_redis_log.specs.Errors.{IsAmong, IsCrowded, Passes, prefix_of, unready_prefixes, unwriting_prefixes, is_hidden as is_unprinted};

use std::str;

/// How many bytes of an error are shown at most.
pub const MAX_SHOWN: usize = 200;

/// How the error begins of a server that takes no further connection.
const CROWDED: &[u8] = b"ERR max number of clients";

fn space_place(text: &[u8]) -> Option<usize>
    ensures { result ≡ position (λ byte. byte == 32) text.now }
{
    text.iter().position(|byte| *byte == b' ')
}

/// The prefix of an error: what stands before its first space.
pub fn error_prefix(text: &[u8]) -> &[u8]
    ensures { result.now ≡ prefix_of text.now }
{
    match space_place(text) {
        Some(place) => &text[..place],
        None => text,
    }
}

/// Whether the error is one that passes: the server does not answer now, does not write now, or has no room for a
/// further connection now.
pub fn passes(text: &[u8]) -> bool
    ensures { IsTrue result ↔ Passes text.now }
{
    let prefix = error_prefix(text);
    is_unready(prefix) || is_unwriting(prefix) || is_crowded(text)
}

fn is_crowded(text: &[u8]) -> bool
    ensures { IsTrue result ↔ IsCrowded text.now }
{
    text.starts_with(CROWDED)
}

fn is_word(prefix: &[u8], word: &[u8]) -> bool
    ensures { IsTrue result ↔ (prefix.now ≡ word.now) }
{
    prefix == word
}

fn is_unready(prefix: &[u8]) -> bool
    ensures { IsTrue result ↔ IsAmong prefix.now unready_prefixes }
{
    is_word(prefix, b"LOADING")
        || is_word(prefix, b"BUSY")
        || is_word(prefix, b"TRYAGAIN")
        || is_word(prefix, b"MASTERDOWN")
}

fn is_unwriting(prefix: &[u8]) -> bool
    ensures { IsTrue result ↔ IsAmong prefix.now unwriting_prefixes }
{
    is_word(prefix, b"READONLY")
        || is_word(prefix, b"CLUSTERDOWN")
        || is_word(prefix, b"OOM")
        || is_word(prefix, b"MISCONF")
        || is_word(prefix, b"NOREPLICAS")
}

fn is_hidden(byte: u8) -> bool
    ensures { result ≡ is_unprinted byte }
{
    byte < b' ' || byte > b'~'
}

fn hidden_place(text: &[u8]) -> Option<usize>
    ensures { result ≡ position is_unprinted text.now }
{
    text.iter().position(|byte| is_hidden(*byte))
}

/// What stands before the first byte that is not printed.
fn printed(text: &[u8]) -> &[u8]
    ensures value { result.now ≡ before_first is_unprinted text.now }
    ensures text { IsUtf8 result.now }
{
    match hidden_place(text) {
        Some(place) => &text[..place],
        None => text,
    }
}

/// The first bytes, 200 at most.
fn beginning(text: &[u8]) -> &[u8]
    ensures { result.now ≡ take 200 text.now }
{
    if text.len() > MAX_SHOWN {
        &text[..MAX_SHOWN]
    } else {
        text
    }
}

/// What of a text is shown: its first bytes that are printable, 200 at most.
pub fn shown(text: &[u8]) -> &str
    ensures { result.now ≡ before_first is_unprinted (take 200 text.now) }
{
    match str::from_utf8(printed(beginning(text))) {
        Ok(shown) => shown,
        Err(_) => "",
    }
}
