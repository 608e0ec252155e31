//! How a fault is told: its line, the front of it, and the text that is derived for the fault.

use super::{AMPLE, FewWrites};
use lw_fleet::{Fault, RunningFault, ServingFault};
use std::alloc::{AllocError, Global};
use std::fmt::Display;
use std::process::Abort;

/// A fault of a command.
#[derive(Clone, Copy)]
pub(super) enum AnyFault {
    /// Of `one` and of `replay`.
    Common(Fault),
    /// Of `serve`.
    Serving(ServingFault),
    /// Of `run`.
    Running(RunningFault),
}

impl AnyFault {
    fn tell(self, errors: &mut FewWrites) -> bool {
        match self {
            AnyFault::Common(fault) => fault.tell(errors),
            AnyFault::Serving(fault) => fault.tell(errors),
            AnyFault::Running(fault) => fault.tell(errors),
        }
    }

    /// The text that is derived for it.
    fn text(self, alloc: Global) -> Result<String, AllocError> {
        match self {
            AnyFault::Common(fault) => shown(alloc, fault),
            AnyFault::Serving(fault) => shown(alloc, fault),
            AnyFault::Running(fault) => shown(alloc, fault),
        }
    }
}

fn shown<D: Display + Drop>(alloc: Global, fault: D) -> Result<String, AllocError> {
    format!(in alloc; "{fault}")
}

/// Fails where the fault is told by another line.
pub(super) fn tells(rt: &impl Abort, alloc: Global, fault: AnyFault, line: &str) {
    let mut errors = FewWrites::new(alloc, AMPLE);
    assert!(rt; fault.tell(&mut errors), "{line}");
    assert!(rt; errors.has(line.as_bytes()), "{line}");
}

/// Fails where, with less room than the line has, something else is told than the front for which there is room, or
/// the line is said to be told.
pub(super) fn tells_in_part(rt: &impl Abort, alloc: Global, fault: AnyFault, line: &str) {
    for room in 0..line.len() {
        let mut errors = FewWrites::new(alloc, (3, room, false, false));
        assert!(rt; !fault.tell(&mut errors), "{line}: {room}");
        assert!(rt; errors.has_front(line.as_bytes(), room), "{line}: {room}");
    }
}

/// The text up to its first `: `, and all of it where there is none.
fn before_the_cause(text: &str) -> &str {
    match text.split_once(": ") {
        Some((front, _)) => front,
        None => text,
    }
}

/// Fails where the line of the fault is another one, or another than the text that is derived for it, up to where that
/// explains itself.
pub(super) fn is_derived(rt: &impl Abort, alloc: Global, fault: AnyFault, line: &str) {
    tells(rt, alloc, fault, line);
    let text = fault.text(alloc).expect(rt, "memory");
    let front = before_the_cause(text.as_str());
    assert!(rt; line.strip_suffix('\n') == Some(front), "{line}");
}
