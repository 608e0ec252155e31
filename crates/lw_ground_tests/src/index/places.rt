use crate::hold::holds_for;
use lw_index::*;
use lw_stamp::NoMemory;
use std::process::Abort;
use std::test::Fail;

/// The greatest place.
const LAST_PLACE: u32 = u32::MAX;

/// Whether the key has these places and no other.
fn has_only(places: &Places<u64>, key: u64, wanted: &[u32]) -> bool {
    let mut found = places.of(key);
    for place in wanted {
        if found.next() != Some(*place) {
            return false;
        }
    }
    found.next().is_none()
}

/// What is done, or asked and answered.
enum Step {
    /// Files each of the places under the key.
    Files(u64, &'static [u32]),
    /// Takes the place from the key.
    Drops(u64, u32),
    /// The key has these places and no other.
    Has(u64, &'static [u32]),
}

use Step::*;

/// Takes each step in turn.
fn take_all(rt: &impl Abort, places: &mut Places<u64>, steps: &[Step]) {
    for (row, step) in steps.iter().enumerate() {
        match step {
            Files(key, added) => {
                for place in *added {
                    places.add(*key, *place).expect(rt, "memory");
                }
            }
            Drops(key, place) => places.drop_one(*key, *place),
            Has(key, wanted) => assert!(rt; has_only(places, *key, wanted), "at {row}"),
        }
    }
}

/// A place is filed, taken out and filed again. A pair that is there is filed once, and one that is not there leaves
/// the others.
static ONE_KEY: [Step; 15] = [
    Has(7, &[]),
    Files(7, &[3]),
    Has(7, &[3]),
    Drops(7, 3),
    Has(7, &[]),
    Files(7, &[3]),
    Has(7, &[3]),
    Drops(7, 3),
    Files(7, &[2, 1, 2]),
    Has(7, &[1, 2]),
    Drops(7, 3),
    Drops(8, 1),
    Has(7, &[1, 2]),
    Drops(7, 2),
    Has(7, &[1]),
];

/// Tries: Places::new, Places::add, Places::drop_one, Places::of
#[test]
fn a_place_of_a_key(rt: HostRuntime) {
    let mut places = Places::new(rt.alloc());
    take_all(&rt, &mut places, &ONE_KEY);
}

/// Keys beside one another keep the least and the greatest place apart.
static SEVERAL_KEYS: [Step; 14] = [
    Files(8, &[LAST_PLACE, 0, 5]),
    Files(0, &[LAST_PLACE, 0, 5]),
    Files(7, &[LAST_PLACE, 0, 5]),
    Files(u64::MAX, &[LAST_PLACE, 0, 5]),
    Files(6, &[LAST_PLACE, 0, 5]),
    Drops(7, 5),
    Drops(6, LAST_PLACE),
    Drops(8, 0),
    Has(0, &[0, 5, LAST_PLACE]),
    Has(5, &[]),
    Has(6, &[0, 5]),
    Has(7, &[0, LAST_PLACE]),
    Has(8, &[5, LAST_PLACE]),
    Has(u64::MAX, &[0, 5, LAST_PLACE]),
];

/// Tries: Places::add, Places::drop_one, Places::of
#[test]
fn places_of_several_keys(rt: HostRuntime) {
    let mut places = Places::new(rt.alloc());
    take_all(&rt, &mut places, &SEVERAL_KEYS);
}

/// Tries: Places::of
#[test]
fn a_loop_over_the_places_of_a_key(rt: HostRuntime) {
    let mut places = Places::new(rt.alloc());
    for key in 0..3u64 {
        for place in 0..20u32 {
            places.add(key, place).expect(&rt, "memory");
        }
    }
    let mut seen = 0u32;
    for place in places.of(1) {
        assert!(rt; place == seen, "at {seen}");
        seen = seen.saturating_add(1);
    }
    assert_eq!(rt; seen, 20);
}

/// A node of a tree holds 15 entries: one more divides it.
static PLACES: [u32; 17] = [0, 1, 2, 3, 4, 5, 6, 7, 8, 9, 10, 11, 12, 13, 14, 15, 16];

/// Adds a place to those before it. Where that is refused, these are left, and it is added again.
fn adds_place(places: &mut Places<u64>, count: usize, place: u32) -> Result<bool, NoMemory> {
    let before = PLACES.get(..count).unwrap_or_default();
    if let Err(NoMemory) = places.add(7, place) {
        if !has_only(places, 7, before) {
            return Ok(false);
        }
        places.add(7, place)?;
    }
    let after = PLACES.get(..=count).unwrap_or_default();
    Ok(has_only(places, 7, after))
}

/// Tries: Places::add
#[test]
fn a_refused_add_leaves_the_places_of_a_key(rt: HostRuntime) -> Result<(), Fail> {
    let mut places = Places::new(rt.alloc());
    for (count, place) in PLACES.iter().enumerate() {
        holds_for(place, adds_place(&mut places, count, *place)?)?;
    }
    Ok(())
}
