use crate::hold::holds;
use lw_join::*;
use lw_stamp::NoMemory;
use std::alloc::Global;
use std::process::Abort;
use std::test::Fail;

const END: u32 = 2000;

/// Numbers from a first one on and below an end: all of them, or each second one.
type Keys = (u32, u32, bool);

fn has((first, end, is_each_second): Keys, key: u32) -> bool {
    first <= key && key < end && (!is_each_second || key % 2 == first % 2)
}

/// The entries of the keys. On the left each has itself as its value, and on the right what is left of it to the end.
fn fill(entries: &mut Vec<(u32, Once<u32>)>, keys: Keys, on_left: bool) -> Result<(), NoMemory> {
    for key in 0..END {
        if has(keys, key) {
            let number = if on_left {
                key
            } else {
                END.saturating_sub(key)
            };
            let value = Some(number);
            entries.push((key, Once { value }))?;
        }
    }
    Ok(())
}

fn map_of(
    alloc: Global,
    keys: Keys,
    on_left: bool,
) -> Result<Option<Parts<u32, Once<u32>>>, NoMemory> {
    let mut entries = Vec::new(alloc);
    fill(&mut entries, keys, on_left)?;
    Ok(Parts::from_entries(entries))
}

/// The left counts alone up to the middle key, the right alone above it.
fn wanted(left: Keys, right: Keys, key: u32) -> Option<u32> {
    match (has(left, key), has(right, key)) {
        (false, false) => None,
        (true, false) => Some(key),
        (false, true) => Some(END.saturating_sub(key)),
        (true, true) if key < 1000 => Some(END.saturating_sub(key)),
        (true, true) => Some(key),
    }
}

fn is_as_wanted(map: &Parts<u32, Once<u32>>, left: Keys, right: Keys) -> bool {
    let mut len = 0usize;
    for key in 0..END {
        let wanted = wanted(left, right, key);
        let value = match map.get(&key) {
            None => None,
            Some(once) => once.value,
        };
        if value != wanted {
            return false;
        }
        if wanted.is_some() {
            len = len.saturating_add(1);
        }
    }
    map.len() == len
}

fn join_as_wanted(rt: &impl Abort, alloc: Global, left: Keys, right: Keys) {
    let mut map = map_of(alloc, left, true)
        .expect(rt, "memory")
        .expect(rt, "rising keys");
    let other = map_of(alloc, right, false)
        .expect(rt, "memory")
        .expect(rt, "rising keys");
    map.join_with(other).expect(rt, "memory");
    assert!(rt; is_as_wanted(&map, left, right), "{left:?}, {right:?}");
}

const NONE: Keys = (0, 0, false);

const FIRST_HALF: Keys = (0, 1000, false);

const LAST_HALF: Keys = (1000, END, false);

const EVEN: Keys = (0, END, true);

const ODD: Keys = (1, END, true);

const ALL: Keys = (0, END, false);

const FEW: Keys = (0, 10, true);

static CASES: [(Keys, Keys); 9] = [
    (EVEN, ODD),
    (ODD, EVEN),
    (FIRST_HALF, LAST_HALF),
    (LAST_HALF, FIRST_HALF),
    (FIRST_HALF, FIRST_HALF),
    (FIRST_HALF, EVEN),
    (NONE, FIRST_HALF),
    (FIRST_HALF, NONE),
    (ALL, EVEN),
];

/// Tries: Join::join_with
#[test]
fn maps_of_many_keys_join(rt: HostRuntime) {
    for (left, right) in &CASES {
        join_as_wanted(&rt, rt.alloc(), *left, *right);
    }
    // Up to eight missing keys are inserted one by one, and from nine on the maps are merged.
    for missing in 0..12u32 {
        for keys in [EVEN, FEW] {
            join_as_wanted(&rt, rt.alloc(), keys, (0, missing.saturating_mul(2), false));
        }
    }
}

/// Whether the map of each key takes that of the even ones in place, where there is memory for both.
fn joins_in_place(alloc: Global) -> Option<bool> {
    let mut map = map_of(alloc, ALL, true).ok()??;
    let other = map_of(alloc, EVEN, false).ok()??;
    let is_joined = map.join_with(other).is_ok();
    Some(is_joined && is_as_wanted(&map, ALL, EVEN))
}

/// Tries: Join::join_with
#[test]
fn a_refused_growth_leaves_a_join_in_place(rt: HostRuntime) -> Result<(), Fail> {
    holds("in place", joins_in_place(rt.alloc()) != Some(false))
}
