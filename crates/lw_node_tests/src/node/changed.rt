//! A delta with one byte changed, at a new node.

use super::deltas::{DELTA, REMOVED};
use super::ended::ENDED;
use super::*;
use lw_delta::check;
use lw_stamp::NoMemory;

/// What a new node sends that knows nothing.
const NOTHING: &[u8] = b"LWD3\0\0\0\0\0\0\0";

/// Where the delta of one slot, under an endpoint of one byte, has the flags of the slot.
const FLAGS: usize = 21;

/// The flags of a slot with all fields whose registration was removed.
const ALL_FIELDS_REMOVED: u8 = 0xff;

/// Whether the node then sends these bytes.
fn sends(node: &Node, bytes: &[u8]) -> Result<bool, NoMemory> {
    let sent = node.delta_since(0)?;
    Ok(sent.as_slice() == bytes)
}

/// The bytes, or the removal where the slot's flags tell one.
fn shortest<'a>(bytes: &'a [u8], removal: &'a [u8]) -> &'a [u8] {
    match bytes.get(FLAGS) {
        Some(&ALL_FIELDS_REMOVED) => removal,
        _ => bytes,
    }
}

/// Whether a new node refuses the bytes with the fault that they have, and stays as it was, or else merges them and
/// sends the same again; or the removal, where they are its fuller spelling.
fn is_merged(alloc: Global, bytes: &[u8], removal: &[u8]) -> Result<bool, NoMemory> {
    let mut node = Node::new(alloc, 1);
    let merged = node.merge(bytes);
    has_merged(&node, merged, bytes, removal)
}

fn has_merged(
    node: &Node,
    merged: Result<usize, MergeFault>,
    bytes: &[u8],
    removal: &[u8],
) -> Result<bool, NoMemory> {
    match check(bytes) {
        Err(fault) => Ok(merged == Err(MergeFault::Malformed(fault)) && sends(node, NOTHING)?),
        Ok(_) => Ok(merged == Ok(1) && sends(node, shortest(bytes, removal))?),
    }
}

/// That is so of each value of the byte at the place.
fn are_merged(rt: &impl Abort, alloc: Global, bytes: &mut [u8], place: usize, removal: &[u8]) {
    assert!(rt; place < bytes.len());
    let kept = bytes[place];
    for byte in 0..=255u8 {
        bytes[place] = byte;
        let is_so = is_merged(alloc, bytes, removal).expect(rt, "memory");
        assert!(rt; is_so, "{byte} at {place}");
    }
    bytes[place] = kept;
}

/// Tries: lw_delta::read, lw_delta::laws::written_deltas_are_shortest, lw_delta::laws::written_deltas_read_back
/// Tries: lw_delta::laws::deltas_can_be_written, Node::merge
#[test]
fn each_byte_of_a_delta_is_changed(rt: HostRuntime) {
    let removal = hex::decode(rt.alloc(), REMOVED).expect(&rt, "hex");
    for delta in [DELTA, ENDED] {
        let mut bytes = hex::decode(rt.alloc(), delta).expect(&rt, "hex");
        for place in 0..bytes.len() {
            are_merged(&rt, rt.alloc(), &mut bytes, place, &removal);
        }
    }
}
