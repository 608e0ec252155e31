//! Bytes and entries as texts.

use lw_log::{Bytes, Position};
use std::alloc::{AllocError, Global};

/// Bytes as a text, with `~` for each end of a line, and `?` for each other byte that is not printed.
pub(crate) fn shown(alloc: Global, bytes: &[u8]) -> Result<String, AllocError> {
    let mut text = String::new(alloc);
    for byte in bytes {
        match *byte {
            b'\r' => {}
            b'\n' => text.push('~')?,
            b' '..=b'}' => text.push(char::from(*byte))?,
            _ => text.push('?')?,
        }
    }
    Ok(text)
}

/// How many bytes of an entry are shown at most.
const MOST_SHOWN: usize = 100;

/// Entries as a text: `=`, and then the position and the bytes of each, or of many how many they are.
pub(crate) fn page_text(alloc: Global, page: &[(Position, Bytes)]) -> Result<String, AllocError> {
    let mut text = String::from_str(alloc, "=")?;
    for (position, bytes) in page {
        let bytes = if bytes.len() > MOST_SHOWN {
            format!(in alloc; "({})", bytes.len())?
        } else {
            shown(alloc, bytes)?
        };
        let entry = format!(in alloc; " {}-{} {bytes}", position.major, position.minor)?;
        text.push_str(entry.as_str())?;
    }
    Ok(text)
}
