//! What a reading gives, as text.

use lw_resp::{Entry, Malformed, Reply, ReplyFault, Word, first_reply, first_word};
use std::alloc::Global;
use std::fmt::Display;
use std::process::Abort;
use std::str;

/// The text that the bytes are.
fn text(bytes: &[u8]) -> &str {
    str::from_utf8(bytes).unwrap_or("no text")
}

/// What is shown, as a text.
fn told<D: Display + Drop>(rt: &impl Abort, alloc: Global, shown: D) -> String {
    String::format(alloc, shown).expect(rt, "memory")
}

/// A word by its kind and content.
fn word_text(rt: &impl Abort, alloc: Global, word: &Word<'_>) -> String {
    match *word {
        Word::Status(said) => told(rt, alloc, format_args!("status {}", text(said))),
        Word::Error(said) => told(rt, alloc, format_args!("error {}", text(said))),
        Word::Number(number) => told(rt, alloc, format_args!("number {number}")),
        Word::Bulk(content) => told(rt, alloc, format_args!("bulk {}", text(content))),
        Word::Array(number) => told(rt, alloc, format_args!("array {number}")),
        Word::Null => told(rt, alloc, "null"),
        Word::NullArray => told(rt, alloc, "null array"),
    }
}

/// The word at the front and what stands behind it, or `not whole` or `malformed`.
pub(crate) fn word_told(rt: &impl Abort, alloc: Global, bytes: &[u8]) -> String {
    match first_word(bytes) {
        Ok(Some((word, rest))) => {
            let shown = word_text(rt, alloc, &word);
            told(rt, alloc, format_args!("{shown}|{}", text(rest)))
        }
        Ok(None) => told(rt, alloc, "not whole"),
        Err(Malformed) => told(rt, alloc, "malformed"),
    }
}

/// Each entry by its identifier, and by its value if it has the one field of a log.
fn entries_text(rt: &impl Abort, alloc: Global, entries: &[Entry<'_>]) -> String {
    let mut shown = told(rt, alloc, "entries");
    for entry in entries {
        let id = text(entry.id);
        let one = match entry.value {
            Some(value) => told(rt, alloc, format_args!(" {id}={}", text(value))),
            None => told(rt, alloc, format_args!(" {id} is foreign")),
        };
        shown.push_str(one.as_str()).expect(rt, "memory");
    }
    shown
}

/// A reply, which is a word or entries.
fn reply_text(rt: &impl Abort, alloc: Global, reply: &Reply<'_>) -> String {
    match reply {
        Reply::Word(word) => word_text(rt, alloc, word),
        Reply::Entries(entries) => entries_text(rt, alloc, entries),
    }
}

/// The reply at the front and what stands behind it, or `not whole` or `malformed`.
pub(crate) fn reply_told(rt: &impl Abort, alloc: Global, bytes: &[u8]) -> String {
    match first_reply(alloc, bytes) {
        Ok(Some((reply, rest))) => {
            let shown = reply_text(rt, alloc, &reply);
            told(rt, alloc, format_args!("{shown}|{}", text(rest)))
        }
        Ok(None) => told(rt, alloc, "not whole"),
        Err(ReplyFault::Malformed) => told(rt, alloc, "malformed"),
        Err(ReplyFault::NoMemory) => told(rt, alloc, "no memory"),
    }
}
