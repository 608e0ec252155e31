//! Comparisons. Each kind is made in one function, so that the functions that call it are proved in little time.

use std::fmt::Debug;
use std::process::Abort;

/// What is compared: a test or a story, and of it a part and a step or a row, from 0.
pub(crate) type At = (&'static str, usize, usize);

/// Fails where it is not so.
pub(crate) fn holds(rt: &impl Abort, at: At, is_so: bool) {
    assert!(rt; is_so, "at {at:?}");
}

/// Compares two counts.
pub(crate) fn counts(rt: &impl Abort, at: At, count: usize, want: usize) {
    assert_eq!(rt; count, want, "at {at:?}");
}

/// Compares two texts.
pub(crate) fn reads(rt: &impl Abort, at: At, text: &str, want: &str) {
    assert_eq!(rt; text, want, "at {at:?}");
}

/// What is given where nothing fails.
pub(crate) fn given<T: Drop, E: Debug + Drop>(rt: &impl Abort, at: At, outcome: Result<T, E>) -> T {
    match outcome {
        Ok(value) => value,
        Err(fault) => panic!(rt; "{fault:?} at {at:?}"),
    }
}

/// Whether each byte is 0.
pub(crate) fn are_zero(bytes: &[u8]) -> bool {
    for byte in bytes {
        if *byte != 0 {
            return false;
        }
    }
    true
}
