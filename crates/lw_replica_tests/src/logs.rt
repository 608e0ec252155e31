//! Logs in memory, and the one that keeps nothing.

use crate::compare::*;
use Step::*;
use lw_log::*;
use std::alloc::Global;
use std::process::Abort;

/// What is done with a log. Positions are told by their major numbers, and those of readings by both numbers. Each
/// entry has one byte.
enum Step {
    /// Entries are appended: the first byte and the first position, which rise by 1, and how many they are.
    Appends(u64, u64, u64),
    /// An append of the entry fails.
    AppendsNot(u8),
    /// What is read above a position, or from the first on: positions and entries.
    Reads(Option<(u64, u64)>, &'static [(u64, u8)]),
    /// A whole page is read above a position, or from the first on, and its last has the position.
    ReadsPage(Option<(u64, u64)>, u64),
    /// What is at or below the position goes.
    Trims(u64),
    IsAlone(bool),
}

fn place(major: u64) -> Position {
    Position { major, minor: 0 }
}

/// Appends entries of one byte, and compares their positions.
fn append<L: DeltaLog>(
    rt: &impl Abort,
    at: At,
    log: &mut L,
    (first, major, count): (u64, u64, u64),
) {
    for number in 0..count {
        let byte = (first.wrapping_add(number) % 256) as u8;
        let position = log.append(&[byte]).expect(rt, "an append");
        holds(rt, at, position == place(major.wrapping_add(number)));
    }
}

/// What is read above the position with these numbers, or from the first on.
fn read<L: DeltaLog>(
    rt: &impl Abort,
    log: &mut L,
    after: Option<(u64, u64)>,
) -> Vec<(Position, Bytes)> {
    let after = match after {
        Some((major, minor)) => Some(Position { major, minor }),
        None => None,
    };
    log.read(after).expect(rt, "a reading")
}

/// Compares the major numbers and the bytes of entries.
fn are(rt: &impl Abort, at: At, entries: &[(Position, Bytes)], want: &[(u64, u8)]) {
    counts(rt, at, entries.len(), want.len());
    for (entry, (major, byte)) in entries.iter().zip(want) {
        holds(rt, at, entry.0 == place(*major));
        holds(rt, at, is_byte(&entry.1, *byte));
    }
}

/// Whether the bytes are this one.
fn is_byte(bytes: &[u8], want: u8) -> bool {
    match bytes {
        [byte] => *byte == want,
        _ => false,
    }
}

/// Compares the last position of a whole page.
fn is_page(rt: &impl Abort, at: At, page: &[(Position, Bytes)], last: u64) {
    counts(rt, at, page.len(), PAGE);
    holds(rt, at, page.last().expect(rt, "a last").0 == place(last));
}

/// Takes the step, and compares what it tells.
fn take<L: DeltaLog>(rt: &impl Abort, at: At, log: &mut L, step: &Step) {
    match step {
        Appends(first, major, count) => append(rt, at, log, (*first, *major, *count)),
        AppendsNot(byte) => holds(rt, at, log.append(&[*byte]) == Err(LogFault::Unavailable)),
        Reads(after, want) => are(rt, at, &read(rt, log, *after), want),
        ReadsPage(after, last) => is_page(rt, at, &read(rt, log, *after), *last),
        Trims(major) => log.trim(place(*major)).expect(rt, "a trim"),
        IsAlone(is_so) => holds(rt, at, log.is_alone() == *is_so),
    }
}

fn take_all<L: DeltaLog>(rt: &impl Abort, name: &'static str, log: &mut L, steps: &[Step]) {
    for (number, step) in steps.iter().enumerate() {
        take(rt, (name, number, 0), log, step);
    }
}

const IN_ORDER: &[Step] = &[
    IsAlone(false),
    Reads(None, &[]),
    Appends(0, 1, 3),
    Reads(None, &[(1, 0), (2, 1), (3, 2)]),
    Reads(Some((1, 0)), &[(2, 1), (3, 2)]),
    Reads(Some((3, 0)), &[]),
    Reads(Some((1, 9)), &[(2, 1), (3, 2)]),
];

/// A whole page is at the end, and then none.
const PAGES: &[Step] = &[
    Appends(0, 1, 257),
    ReadsPage(None, 256),
    Reads(Some((256, 0)), &[(257, 0)]),
    ReadsPage(Some((1, 0)), 257),
    Reads(Some((257, 0)), &[]),
    Trims(256),
];

/// Positions rise also where none is left.
const TRIMMED: &[Step] = &[
    Appends(0, 1, 4),
    Trims(2),
    Reads(None, &[(3, 2), (4, 3)]),
    Trims(9),
    Reads(None, &[]),
    Appends(7, 5, 1),
    Reads(None, &[(5, 7)]),
];

const SECOND_FAILS: &[Step] = &[Appends(1, 1, 1), AppendsNot(2), Appends(3, 3, 1)];

/// What is tried; whether the second append fails, with its entry kept or not; the steps; what is there behind them.
type Story = (
    &'static str,
    Option<bool>,
    &'static [Step],
    &'static [(u64, u8)],
);

static STORIES: [Story; 5] = [
    ("in order", None, IN_ORDER, &[(1, 0), (2, 1), (3, 2)]),
    ("pages", None, PAGES, &[(257, 0)]),
    ("trimmed", None, TRIMMED, &[(5, 7)]),
    ("not kept", Some(false), SECOND_FAILS, &[(1, 1), (3, 3)]),
    ("kept", Some(true), SECOND_FAILS, &[(1, 1), (2, 2), (3, 3)]),
];

fn play(rt: &impl Abort, alloc: Global, (name, fails, steps, want): &Story) {
    let mut log = MemoryLog::new(alloc);
    if let Some(kept) = fails {
        log.fail_after(1, *kept);
    }
    take_all(rt, name, &mut log, steps);
    are(rt, (name, steps.len(), 0), log.entries(), want);
}

/// Entries are read in the order of their positions, a page has 256, a trim lets go up to its position, and the
/// entry of an append that fails is there or not.
/// Tries: lw_log::MemoryLog::new, lw_log::MemoryLog::entries, lw_log::MemoryLog::fail_after
/// Tries: lw_log::DeltaLog::read, lw_log::DeltaLog::append, lw_log::DeltaLog::trim
#[test]
fn a_log_in_memory_keeps_its_entries(rt: HostRuntime) {
    for story in &STORIES {
        play(&rt, rt.alloc(), story);
    }
}

static ASKED: [Step; 4] = [
    Appends(1, 1, 1),
    AppendsNot(2),
    Reads(Some((1, 0)), &[(2, 2)]),
    Trims(2),
];

/// Compares what was asked with the append of 1 at position 1, the failed one of 2, the reading and the trim.
fn are_asked(rt: &impl Abort, at: At, calls: &[MemoryCall]) {
    let [
        MemoryCall::Wrote(first, wrote),
        MemoryCall::Tried(tried),
        MemoryCall::Read(after, page),
        MemoryCall::Trimmed(upto),
    ] = calls
    else {
        panic!(rt; "four calls");
    };
    holds(rt, at, *first == place(1) && is_byte(wrote, 1));
    holds(rt, at, is_byte(tried, 2));
    holds(rt, at, *after == Some(place(1)));
    are(rt, at, page, &[(2, 2)]);
    holds(rt, at, *upto == place(2));
}

/// Tries: lw_log::MemoryLog::asked, lw_log::DeltaLog::read, lw_log::DeltaLog::append, lw_log::DeltaLog::trim
#[test]
fn what_was_asked_is_known_in_order(rt: HostRuntime) {
    let mut log = MemoryLog::new(rt.alloc());
    log.fail_after(1, true);
    take_all(&rt, "what was asked", &mut log, &ASKED);
    are_asked(&rt, ("what was asked", ASKED.len(), 0), log.asked());
}

static NOWHERE: [Step; 5] = [
    IsAlone(true),
    Appends(0, 1, 3),
    Reads(None, &[]),
    Trims(2),
    Appends(7, 4, 1),
];

/// Tries: lw_log::Nowhere::new, lw_log::DeltaLog::read, lw_log::DeltaLog::append, lw_log::DeltaLog::trim
#[test]
fn nowhere_keeps_nothing(rt: HostRuntime) {
    take_all(&rt, "nowhere", &mut Nowhere::new(rt.alloc()), &NOWHERE);
}
