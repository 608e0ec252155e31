//! Entries as bytes, which are written out by hand.

use crate::compare::*;
use hex::FromHexError;
use lw_delta::DeltaFault;
use lw_log::*;
use std::alloc::{AllocError, Global};
use std::process::Abort;
use std::test::Fail;

/// A start: magic, fleet, number 258, tag, sequence 1, kind 0.
const START: &str =
    "4c574531000102030405060708090a0b0c0d0e0f0102a1a2a3a4a5a6a7a8000000000000000100";

/// An entry of the same start, sequence 2, with the empty delta of clock 1 in format 3.
const DELTA: &str = "4c574531000102030405060708090a0b0c0d0e0f0102a1a2a3a4a5a6a7a8000000000000000201\
4c57443300000000000100";

/// The same with the delta in format 2.
const DELTA_AT_SECOND: &str =
    "4c574531000102030405060708090a0b0c0d0e0f0102a1a2a3a4a5a6a7a8000000000000000201\
4c57443200000000000100";

/// The same with the delta in format 1.
const DELTA_AT_FIRST: &str =
    "4c574531000102030405060708090a0b0c0d0e0f0102a1a2a3a4a5a6a7a8000000000000000201\
4c57443100000000000100";

/// What stands before the numbers of a snapshot, sequence 3.
const SNAPSHOT_HEAD: &str =
    "4c574531000102030405060708090a0b0c0d0e0f0102a1a2a3a4a5a6a7a8000000000000000302";

const EMPTY_DELTA: &str = "4c57443300000000000100";

const FLEET: [u8; 16] = [0, 1, 2, 3, 4, 5, 6, 7, 8, 9, 10, 11, 12, 13, 14, 15];

const TAG: u64 = 0xa1a2_a3a4_a5a6_a7a8;

/// The bytes of a head, so many numbers that each have bits 0, and what stands behind them.
fn snapshot(alloc: Global, count: usize, behind: &str) -> Result<Vec<u8>, FromHexError> {
    let mut bytes = hex::decode(alloc, SNAPSHOT_HEAD)?;
    let zeros = vec![in alloc; 0u8; count]?;
    bytes.extend_from_slice(&zeros)?;
    bytes.extend_from_slice(&hex::decode(alloc, behind)?)?;
    Ok(bytes)
}

/// What the entry is written as, behind a 7.
fn written(rt: &impl Abort, alloc: Global, entry: &Entry<'_>) -> Vec<u8> {
    let mut out = Vec::new(alloc);
    out.push(7).expect(rt, "memory");
    put_entry(&mut out, entry).expect(rt, "memory");
    out
}

/// Compares what the entry that the bytes are is written as with them. What is there before it stays.
fn is_written_again(rt: &impl Abort, alloc: Global, at: At, bytes: &[u8]) {
    let entry = read_entry(bytes).expect(rt, "an entry");
    let out = written(rt, alloc, &entry);
    let (first, rest) = out.split_first().expect(rt, "something is written");
    holds(rt, at, *first == 7 && rest == bytes);
}

/// The kind of a body, 3 for a snapshot with numbers, and its delta.
fn parts_of<'a>(body: &Body<'a>) -> (usize, &'a [u8]) {
    match *body {
        Body::Start => (0, &[]),
        Body::Delta(delta) => (1, delta),
        Body::Snapshot {
            used_numbers,
            delta,
        } => (if are_zero(used_numbers) { 2 } else { 3 }, delta),
    }
}

/// Compares the parts of the entry that the bytes are: its fleet, start and sequence, its kind, and its delta.
fn has_parts(rt: &impl Abort, at: At, bytes: &[u8], (sequence, kind): (u64, usize), delta: &[u8]) {
    let entry = read_entry(bytes).expect(rt, "an entry");
    holds(rt, at, entry.fleet.bytes == FLEET);
    holds(rt, at, entry.start.number == 258 && entry.start.tag == TAG);
    holds(rt, at, entry.sequence == sequence);
    let (own_kind, own_delta) = parts_of(&entry.body);
    counts(rt, at, own_kind, kind);
    holds(rt, at, own_delta == delta);
}

const PARTS: At = ("the parts of an entry", 0, 0);

/// Tries: lw_log::read_entry
#[test]
fn the_parts_of_an_entry_are_read(rt: HostRuntime) {
    let start = read_hex(&rt, rt.alloc(), START);
    has_parts(&rt, PARTS, &start, (1, 0), &[]);
    let empty = read_hex(&rt, rt.alloc(), EMPTY_DELTA);
    let delta = read_hex(&rt, rt.alloc(), DELTA);
    has_parts(&rt, PARTS, &delta, (2, 1), &empty);
    let all = snapshot(rt.alloc(), 8192, EMPTY_DELTA).expect(&rt, "an entry");
    has_parts(&rt, PARTS, &all, (3, 2), &empty);
}

/// The bytes that the text spells in hex.
fn read_hex(rt: &impl Abort, alloc: Global, text: &str) -> Vec<u8> {
    hex::decode(alloc, text).expect(rt, "hex")
}

/// A start, each format of a delta, and each end of the numbers.
static READ: [&str; 9] = [
    START,
    DELTA,
    DELTA_AT_SECOND,
    DELTA_AT_FIRST,
    // number 1
    "4c574531000102030405060708090a0b0c0d0e0f0001a1a2a3a4a5a6a7a8000000000000000100",
    // number 65535
    "4c574531000102030405060708090a0b0c0d0e0fffffa1a2a3a4a5a6a7a8000000000000000100",
    // sequence 0
    "4c574531000102030405060708090a0b0c0d0e0f0102a1a2a3a4a5a6a7a8000000000000000000",
    // sequence 2^64 - 1
    "4c574531000102030405060708090a0b0c0d0e0f0102a1a2a3a4a5a6a7a8ffffffffffffffff00",
    // tag 2^64 - 1, and a fleet of bytes ff
    "4c574531ffffffffffffffffffffffffffffffff0102ffffffffffffffff000000000000000100",
];

/// Tries: lw_log::read_entry, lw_log::put_entry
#[test]
fn what_is_read_is_written_again(rt: HostRuntime) {
    for (number, text) in READ.iter().enumerate() {
        let bytes = read_hex(&rt, rt.alloc(), text);
        is_written_again(&rt, rt.alloc(), ("what is read", number, 0), &bytes);
    }
    let all = snapshot(rt.alloc(), 8192, EMPTY_DELTA).expect(&rt, "an entry");
    is_written_again(&rt, rt.alloc(), ("a snapshot", 0, 0), &all);
}

/// Each fault, where it is the first: a later one may stand behind it.
static REFUSED: [(&str, EntryFault); 24] = [
    // nothing
    ("", EntryFault::Truncated),
    // magic in part, and another one in part
    ("4c5745", EntryFault::Truncated),
    ("000000", EntryFault::Truncated),
    // each byte of the magic, and nothing behind it
    ("4d574531", EntryFault::Magic),
    ("4c584531", EntryFault::Magic),
    ("4c574431", EntryFault::Magic),
    ("4c574530", EntryFault::Newer),
    // LWE2, and LWE2 before a number 0
    ("4c574532", EntryFault::Newer),
    (
        "4c574532000102030405060708090a0b0c0d0e0f0000a1a2a3a4a5a6a7a8000000000000000103",
        EntryFault::Newer,
    ),
    // a fleet in part, and a number in part
    (
        "4c574531000102030405060708090a0b0c0d0e",
        EntryFault::Truncated,
    ),
    (
        "4c574531000102030405060708090a0b0c0d0e0f00",
        EntryFault::Truncated,
    ),
    // number 0 before the end, and before the kind
    (
        "4c574531000102030405060708090a0b0c0d0e0f0000",
        EntryFault::Range,
    ),
    (
        "4c574531000102030405060708090a0b0c0d0e0f0000a1a2a3a4a5a6a7a8000000000000000100",
        EntryFault::Range,
    ),
    // no kind
    (
        "4c574531000102030405060708090a0b0c0d0e0f0102a1a2a3a4a5a6a7a80000000000000001",
        EntryFault::Truncated,
    ),
    // kinds 3 and 255
    (
        "4c574531000102030405060708090a0b0c0d0e0f0102a1a2a3a4a5a6a7a8000000000000000103",
        EntryFault::Range,
    ),
    (
        "4c574531000102030405060708090a0b0c0d0e0f0102a1a2a3a4a5a6a7a80000000000000001ff00",
        EntryFault::Range,
    ),
    // a byte behind a start
    (
        "4c574531000102030405060708090a0b0c0d0e0f0102a1a2a3a4a5a6a7a800000000000000010000",
        EntryFault::Trailing,
    ),
    // no delta
    (
        "4c574531000102030405060708090a0b0c0d0e0f0102a1a2a3a4a5a6a7a8000000000000000201",
        EntryFault::Delta(DeltaFault::Truncated),
    ),
    // another magic of the delta, LWD0 and LWD4
    (
        "4c574531000102030405060708090a0b0c0d0e0f0102a1a2a3a4a5a6a7a8000000000000000201\
4c584433000000000001000000",
        EntryFault::Delta(DeltaFault::Magic),
    ),
    (
        "4c574531000102030405060708090a0b0c0d0e0f0102a1a2a3a4a5a6a7a8000000000000000201\
4c574430",
        EntryFault::Newer,
    ),
    (
        "4c574531000102030405060708090a0b0c0d0e0f0102a1a2a3a4a5a6a7a8000000000000000201\
4c57443400000000000100",
        EntryFault::Newer,
    ),
    // the magic of a delta in part
    (
        "4c574531000102030405060708090a0b0c0d0e0f0102a1a2a3a4a5a6a7a8000000000000000201\
4c5744",
        EntryFault::Delta(DeltaFault::Truncated),
    ),
    // a delta with a byte behind it, and a tag of 2
    (
        "4c574531000102030405060708090a0b0c0d0e0f0102a1a2a3a4a5a6a7a8000000000000000201\
4c5744330000000000010000",
        EntryFault::Delta(DeltaFault::Trailing),
    ),
    (
        "4c574531000102030405060708090a0b0c0d0e0f0102a1a2a3a4a5a6a7a8000000000000000201\
4c57443300000000000102",
        EntryFault::Delta(DeltaFault::Range),
    ),
];

/// A snapshot has 8192 bytes of numbers. How many there are, what stands behind them, and the fault.
static LENGTHS: [(usize, &str, EntryFault); 4] = [
    (8191, "", EntryFault::Truncated),
    (8191, EMPTY_DELTA, EntryFault::Delta(DeltaFault::Magic)),
    (8193, EMPTY_DELTA, EntryFault::Delta(DeltaFault::Magic)),
    // LWD4
    (8192, "4c57443400", EntryFault::Newer),
];

/// Compares the fault of bytes that are no entry.
fn is_refused(rt: &impl Abort, at: At, bytes: &[u8], want: EntryFault) {
    assert_eq!(rt; read_entry(bytes).err(), Some(want), "at {at:?}");
}

/// Tries: lw_log::read_entry
#[test]
fn each_fault_is_told_where_it_is_the_first(rt: HostRuntime) {
    for (number, (text, fault)) in REFUSED.iter().enumerate() {
        let bytes = read_hex(&rt, rt.alloc(), text);
        is_refused(&rt, ("a fault", number, 0), &bytes, *fault);
    }
    for (number, (count, behind, fault)) in LENGTHS.iter().enumerate() {
        let bytes = snapshot(rt.alloc(), *count, behind).expect(&rt, "bytes");
        is_refused(&rt, ("a length", number, 0), &bytes, *fault);
    }
}

/// The fault of a beginning of so many bytes. From the length on, it is one of the delta.
fn fault_of(count: usize, delta_at: usize) -> EntryFault {
    if count < delta_at {
        EntryFault::Truncated
    } else {
        EntryFault::Delta(DeltaFault::Truncated)
    }
}

/// Compares the fault of each beginning of the bytes.
fn is_truncated(rt: &impl Abort, bytes: &[u8], delta_at: usize) {
    for (count, _) in bytes.iter().enumerate() {
        let at = ("a beginning", count, 0);
        is_refused(rt, at, &bytes[..count], fault_of(count, delta_at));
    }
}

/// Tries: lw_log::read_entry
#[test]
fn no_beginning_of_an_entry_is_one(rt: HostRuntime) {
    is_truncated(&rt, &read_hex(&rt, rt.alloc(), START), 39);
    is_truncated(&rt, &read_hex(&rt, rt.alloc(), DELTA), 39);
    let all = snapshot(rt.alloc(), 8192, EMPTY_DELTA).expect(&rt, "an entry");
    is_truncated(&rt, &all, 8231);
}

/// A second try where the first is refused memory.
fn put_in_two_tries(alloc: Global, entry: &Entry<'_>) -> Result<Vec<u8>, AllocError> {
    let mut out = Vec::new(alloc);
    if put_entry(&mut out, entry).is_ok() {
        return Ok(out);
    }
    let mut again = Vec::new(alloc);
    match put_entry(&mut again, entry) {
        Ok(()) => Ok(again),
        Err(_) => Err(AllocError),
    }
}

/// Tries: lw_log::put_entry
#[test]
fn a_refused_put_entry_writes_it_when_it_is_made_again(rt: HostRuntime) -> Result<(), Fail> {
    let bytes = snapshot(rt.alloc(), 8192, EMPTY_DELTA)?;
    let entry = read_entry(&bytes).expect(&rt, "a snapshot");
    let written = put_in_two_tries(rt.alloc(), &entry)?;
    assert!(rt; written.as_slice() == bytes.as_slice(), "its bytes");
    Ok(())
}
