use crate::due::many::name_of;
use crate::hold::{holds, holds_for};
use lw_index::*;
use lw_stamp::NoMemory;
use std::alloc::Global;
use std::process::Abort;
use std::test::Fail;

mod places;

/// Whether the key has these endpoints and no other.
fn has_only(index: &Index<u32>, key: u32, wanted: &[&str]) -> bool {
    let mut endpoints = index.of(&key);
    for endpoint in wanted {
        if endpoints.next() != Some(*endpoint) {
            return false;
        }
    }
    endpoints.next().is_none()
}

/// What is done, or asked and answered.
enum Step<'a> {
    /// Files the endpoint under the key.
    Files(u32, &'a str),
    /// Takes the endpoint from the key.
    Drops(u32, &'a str),
    /// The key has these endpoints and no other.
    Has(u32, &'a [&'a str]),
}

use Step::*;

/// Takes each step in turn.
fn take_all(rt: &impl Abort, index: &mut Index<u32>, steps: &[Step<'_>]) {
    for (row, step) in steps.iter().enumerate() {
        match step {
            Files(key, endpoint) => index.add(*key, endpoint).expect(rt, "memory"),
            Drops(key, endpoint) => index.drop_one(key, endpoint),
            Has(key, endpoints) => assert!(rt; has_only(index, *key, endpoints), "at {row}"),
        }
    }
}

/// An endpoint of 252 bytes.
const LONGEST: &str = concat!(
    "xxxxxxxxxxxxxxxxxxxxxxxxxxxxxxxxxxxxxxxxxxxxxxxxxxxxxxxxxxxxxxx",
    "xxxxxxxxxxxxxxxxxxxxxxxxxxxxxxxxxxxxxxxxxxxxxxxxxxxxxxxxxxxxxxx",
    "xxxxxxxxxxxxxxxxxxxxxxxxxxxxxxxxxxxxxxxxxxxxxxxxxxxxxxxxxxxxxxx",
    "xxxxxxxxxxxxxxxxxxxxxxxxxxxxxxxxxxxxxxxxxxxxxxxxxxxxxxxxxxxxxxx",
);

/// Both endpoints of key 7 are there, and go and come; then one of two is dropped, and one that the key does not have.
static COME_AND_GO: [Step<'static>; 24] = [
    Files(7, LONGEST),
    Files(7, "b"),
    Files(8, "c"),
    Files(7, "b"),
    Drops(7, "z"),
    Drops(9, "b"),
    Has(7, &["b", LONGEST]),
    Drops(7, LONGEST),
    Has(7, &["b"]),
    Files(7, LONGEST),
    Drops(7, "b"),
    Has(7, &[LONGEST]),
    Drops(7, LONGEST),
    Has(7, &[]),
    Has(8, &["c"]),
    // the greater of two is dropped
    Files(7, "b"),
    Files(7, "a"),
    Has(7, &["a", "b"]),
    Drops(7, "b"),
    Has(7, &["a"]),
    Drops(7, "z"),
    Has(7, &["a"]),
    Drops(7, "a"),
    Has(7, &[]),
];

/// Tries: Index::new, Index::add, Index::drop_one, Index::of
#[test]
fn the_endpoints_of_a_key(rt: HostRuntime) {
    assert_eq!(rt; LONGEST.len(), 252);
    let mut index = Index::new(rt.alloc());
    take_all(&rt, &mut index, &COME_AND_GO);
}

/// Adds the number as an endpoint of the key 7.
fn adds_number(rt: &impl Abort, alloc: Global, index: &mut Index<u32>, number: usize) {
    let endpoint = name_of(alloc, number).expect(rt, "memory");
    index.add(7, endpoint.as_str()).expect(rt, "memory");
}

/// Adds the numbers from 100 to 199, each once, in no order.
///
/// Tries: Index::add
#[test]
fn a_hundred_endpoints_of_a_key(rt: HostRuntime) {
    let mut index = Index::new(rt.alloc());
    for place in 0..100usize {
        adds_number(&rt, rt.alloc(), &mut index, 100 + (place * 37) % 100);
    }
    let mut endpoints = index.of(&7);
    for number in 100..200usize {
        let wanted = name_of(rt.alloc(), number).expect(&rt, "memory");
        assert!(rt; endpoints.next() == Some(wanted.as_str()), "at {number}");
    }
    assert!(rt; endpoints.next().is_none());
}

/// A node of a tree holds 15 entries: one more divides it.
static ENDPOINTS: [&str; 17] = [
    "a", "b", "c", "d", "e", "f", "g", "h", "i", "j", "k", "l", "m", "n", "o", "p", "q",
];

/// Adds an endpoint to those before it. Where that is refused, these are left, and it is added again.
fn adds_endpoint(index: &mut Index<u32>, count: usize, endpoint: &str) -> Result<bool, NoMemory> {
    let before = ENDPOINTS.get(..count).unwrap_or_default();
    if let Err(NoMemory) = index.add(7, endpoint) {
        if !has_only(index, 7, before) {
            return Ok(false);
        }
        index.add(7, endpoint)?;
    }
    let after = ENDPOINTS.get(..=count).unwrap_or_default();
    Ok(has_only(index, 7, after))
}

/// Tries: Index::add
#[test]
fn a_refused_add_leaves_the_endpoints_of_a_key(rt: HostRuntime) -> Result<(), Fail> {
    let mut index = Index::new(rt.alloc());
    for (count, endpoint) in ENDPOINTS.iter().enumerate() {
        holds(endpoint, adds_endpoint(&mut index, count, endpoint)?)?;
    }
    Ok(())
}

const KEYS: u32 = 17;

/// Whether each key below `end` has the endpoint `a` alone, and each other key none.
fn is_filled_below(index: &Index<u32>, end: u32) -> bool {
    for key in 0..KEYS {
        let count = if key < end { 1 } else { 0 };
        if !has_only(index, key, &ENDPOINTS[..count]) {
            return false;
        }
    }
    true
}

/// Adds a key to those below it, as above.
fn adds_key(index: &mut Index<u32>, key: u32) -> Result<bool, NoMemory> {
    if let Err(NoMemory) = index.add(key, "a") {
        if !is_filled_below(index, key) {
            return Ok(false);
        }
        index.add(key, "a")?;
    }
    Ok(is_filled_below(index, key.saturating_add(1)))
}

/// Tries: Index::add
#[test]
fn a_refused_add_leaves_the_keys(rt: HostRuntime) -> Result<(), Fail> {
    let mut index = Index::new(rt.alloc());
    for key in 0..KEYS {
        holds_for(&key, adds_key(&mut index, key)?)?;
    }
    Ok(())
}
