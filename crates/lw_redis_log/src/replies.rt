//! What the bytes of a reply are to what was asked. Where they are none, or more than one, the server is as
//! unavailable.

use crate::outcomes::{
    RedisFault, append_outcome, entries_outcome, info_outcome, status_outcome, trim_outcome,
};
use crate::pages::page_of;
use crate::settings::Settings;
use lw_log::{Bytes, Position};
use lw_resp::{Reply, StreamId, Word, first_reply, first_word};
use std::alloc::Global;

/// Whether a reply has come whole, whatever it is of; none where what has come begins none.
pub(crate) fn has_come(bytes: &[u8]) -> Option<bool> {
    let mut rest = bytes;
    let mut missing: u64 = 1;
    for _ in 0..u64::MAX {
        let Some((word, behind)) = first_word(rest).ok()? else {
            return Some(false);
        };
        missing = missing.saturating_sub(1);
        if let Word::Array(number) = word {
            missing = missing.checked_add(number)?;
        }
        if missing == 0 {
            return Some(true);
        }
        rest = behind;
    }
    None
}

/// The reply that the bytes are, and nothing behind it.
fn whole_reply(alloc: Global, bytes: &[u8]) -> Result<Reply<'_>, RedisFault<'_>> {
    match first_reply(alloc, bytes) {
        Ok(Some((reply, rest))) => {
            if rest.is_empty() {
                Ok(reply)
            } else {
                Err(RedisFault::Unavailable)
            }
        }
        _ => Err(RedisFault::Unavailable),
    }
}

/// The identifier of the entry that was appended.
pub(crate) fn appended(alloc: Global, bytes: &[u8]) -> Result<StreamId, RedisFault<'_>> {
    append_outcome(&whole_reply(alloc, bytes)?)
}

/// The entries that were read.
pub(crate) fn page_read(
    alloc: Global,
    bytes: &[u8],
) -> Result<Vec<(Position, Bytes)>, RedisFault<'_>> {
    let reply = whole_reply(alloc, bytes)?;
    match page_of(alloc, entries_outcome(&reply)?) {
        Ok(page) => Ok(page),
        Err(_) => Err(RedisFault::Unavailable),
    }
}

/// Entries were let go.
pub(crate) fn trimmed(alloc: Global, bytes: &[u8]) -> Result<u64, RedisFault<'_>> {
    trim_outcome(&whole_reply(alloc, bytes)?)
}

/// The server said what was waited for.
pub(crate) fn said<'a>(want: &[u8], alloc: Global, bytes: &'a [u8]) -> Result<(), RedisFault<'a>> {
    status_outcome(want, &whole_reply(alloc, bytes)?)
}

/// What the server told of itself.
pub(crate) fn settings(alloc: Global, bytes: &[u8]) -> Result<Settings, RedisFault<'_>> {
    Ok(Settings::read(info_outcome(&whole_reply(alloc, bytes)?)?))
}
