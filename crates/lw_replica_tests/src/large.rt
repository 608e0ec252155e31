//! Entries of any length, so many as a compaction waits for.

use crate::shared::{Entries, add};
use std::alloc::Global;
use std::process::Abort;

/// How long the entries are, so that 256 of them have 16 MiB.
const LENGTH: usize = 65_536;

/// What stands between the entry's head and its slots: the magic of format 3, and a counter.
const BEFORE_SLOTS: &[u8; 10] = b"LWD3\x00\x00\x00\x01\x00\x00";

/// How many bytes a slot has besides its object list, and how long the list is at least and at most.
const SLOT: usize = 28;

const SHORTEST_LIST: usize = 3;

const LONGEST_LIST: usize = 8_192;

/// Adds bytes behind the others.
pub(crate) fn put(rt: &impl Abort, bytes: &mut Vec<u8>, more: &[u8]) {
    bytes.extend_from_slice(more).expect(rt, "memory");
}

/// An entry of exactly so many bytes: this head, and a delta of registrations with long object lists.
pub(crate) fn large(rt: &impl Abort, alloc: Global, head: &[u8], length: usize) -> Vec<u8> {
    let mut bytes = head.to_vec(alloc).expect(rt, "memory");
    put(rt, &mut bytes, BEFORE_SLOTS);
    put_slots(rt, &mut bytes, length);
    put(rt, &mut bytes, b"\x00");
    bytes
}

/// Adds registrations up to one byte less than this length.
fn put_slots(rt: &impl Abort, bytes: &mut Vec<u8>, length: usize) {
    for number in 0..u16::MAX {
        let left = length.saturating_sub(bytes.len()).saturating_sub(1);
        if left == 0 {
            return;
        }
        put_slot(rt, bytes, number, list_in(left));
    }
}

/// How long a list is, where so many bytes are left for slots: those behind it have room for a list too.
fn list_in(left: usize) -> usize {
    let list = left.saturating_sub(SLOT);
    if list <= LONGEST_LIST {
        return list;
    }
    let behind = list.saturating_sub(LONGEST_LIST);
    LONGEST_LIST.saturating_sub((SLOT + SHORTEST_LIST).saturating_sub(behind))
}

/// Adds a registration whose name has a letter for each half byte of the number, with an object list of so many bytes
/// and nothing else. Its two stamps have the counter number + 1 of node 1.
fn put_slot(rt: &impl Abort, bytes: &mut Vec<u8>, number: u16, list: usize) {
    let [high, low] = number.to_be_bytes();
    let [first, second] = number.wrapping_add(1).to_be_bytes();
    let [list_high, list_low] = u16::try_from(list).expect(rt, "a length").to_be_bytes();
    put(rt, bytes, &[1, 4, letter(high / 16), letter(high % 16)]);
    put(rt, bytes, &[letter(low / 16), letter(low % 16)]);
    let stamps = [
        0, 0, 0, 0, first, second, 0, 1, 0x40, 0, 0, 0, 0, first, second, 0, 1, list_high, list_low,
    ];
    put(rt, bytes, &stamps);
    put(rt, bytes, b"</");
    for _ in SHORTEST_LIST..list {
        bytes.push(b'a').expect(rt, "memory");
    }
    // Behind the list stand no attributes, not ended, and no watches.
    put(rt, bytes, b">\x00\x00\x00");
}

/// The letter of half a byte.
fn letter(half: u8) -> u8 {
    b'a'.wrapping_add(half)
}

/// Appends entries with this head that have exactly so many bytes together, at least `LENGTH`.
pub(crate) fn fill(rt: &impl Abort, alloc: Global, entries: &Entries, head: &[u8], total: usize) {
    let count = (total / LENGTH).saturating_sub(1);
    let entry = large(rt, alloc, head, LENGTH);
    for _ in 0..count {
        add(entries, &entry).expect(rt, "an append");
    }
    let left = total.saturating_sub(count.saturating_mul(LENGTH));
    add(entries, &large(rt, alloc, head, left)).expect(rt, "an append");
}
