//! How a test tells what does not hold, and long texts.

use std::alloc::{AllocError, Global};
use std::fmt::Debug;
use std::test::Fail;

/// Fails with the text where it is not so.
pub(crate) fn holds(what: &str, is_so: bool) -> Result<(), Fail> {
    if is_so {
        return Ok(());
    }
    Err(Fail::new(what))
}

/// Fails with the row of a table for which it is not so.
pub(crate) fn holds_for<D: Debug>(row: &D, is_so: bool) -> Result<(), Fail> {
    if is_so {
        return Ok(());
    }
    Err(Fail::new(format_args!("{row:?}")))
}

/// Each part, as often as it says.
pub(crate) fn text_of(alloc: Global, parts: &[(&str, usize)]) -> Result<String, AllocError> {
    let mut text = String::new(alloc);
    for (part, count) in parts {
        for _ in 0..*count {
            text.push_str(part)?;
        }
    }
    Ok(text)
}
