use crate::hold::holds_for;
use lw_recent::*;
use lw_stamp::NoMemory;
use std::process::Abort;
use std::test::Fail;

/// The greatest place.
const LAST_PLACE: u32 = u32::MAX;

/// What is done, or asked and answered.
#[derive(Drop)]
enum Step {
    /// Files the place under the number.
    Files(u64, u32),
    /// Files the place under the first number, and moves it to the other.
    Moves(u64, u64, u32),
    /// Takes the place from under the number.
    Drops(u64, u32),
    /// Above the number, or at all, these places and no other are filed.
    Has(Option<u64>, &'static [u32]),
    /// What is next above the number.
    Next(u64, Option<(u64, u32)>),
}

use Step::*;

/// Whether these places and no other are filed above the number, or at all.
fn has_only(recent: &Recent, number: Option<u64>, wanted: &[u32]) -> bool {
    let mut places = recent.since(number);
    for place in wanted {
        if places.next() != Some(*place) {
            return false;
        }
    }
    places.next().is_none()
}

/// Files a place, which then moves.
fn moves(recent: &mut Recent, last: u64, number: u64, place: u32) -> Result<(), NoMemory> {
    recent.add(last, place)?;
    recent.move_to(last, number, place);
    Ok(())
}

/// Takes each step in turn.
fn take_all(rt: &impl Abort, recent: &mut Recent, steps: &[Step]) {
    for (row, step) in steps.iter().enumerate() {
        match step {
            Files(number, place) => recent.add(*number, *place).expect(rt, "memory"),
            Moves(last, number, place) => moves(recent, *last, *number, *place).expect(
                rt, "memory",
            ),
            Drops(number, place) => recent.drop_one(*number, *place),
            Has(number, places) => assert!(rt;
                has_only(recent, *number, places),
                "since, at {row}"
            ),
            Next(number, next) => assert!(rt;
                recent.next_above(*number) == *next,
                "next, at {row}"
            ),
        }
    }
}

/// Two places are filed, of which one comes again under another number, and the other is dropped.
static COMES: [Step; 14] = [
    Has(None, &[]),
    Files(8, 1),
    Files(7, LAST_PLACE),
    Has(None, &[LAST_PLACE, 1]),
    Has(Some(7), &[1]),
    Drops(7, LAST_PLACE),
    Moves(7, 9, LAST_PLACE),
    Has(Some(8), &[LAST_PLACE]),
    Has(None, &[1, LAST_PLACE]),
    // another number
    Drops(9, 1),
    Has(None, &[1, LAST_PLACE]),
    Drops(8, 1),
    Has(None, &[LAST_PLACE]),
    Has(Some(9), &[]),
];

/// Tries: Recent::new, Recent::add, Recent::drop_one, Recent::move_to, Recent::since
#[test]
fn places_under_numbers(rt: HostRuntime) {
    let mut recent = Recent::new(rt.alloc());
    take_all(&rt, &mut recent, &COMES);
}

/// Places that share a number are told apart.
static SHARED: [Step; 7] = [
    Files(u64::MAX, 0),
    Files(u64::MAX, 1),
    Files(u64::MAX, 2),
    Drops(u64::MAX, 1),
    Drops(u64::MAX, 26),
    Has(None, &[0, 2]),
    Has(Some(u64::MAX), &[]),
];

/// Tries: Recent::drop_one
#[test]
fn places_of_one_number(rt: HostRuntime) {
    let mut recent = Recent::new(rt.alloc());
    take_all(&rt, &mut recent, &SHARED);
}

/// Tries: Recent::add, Recent::move_to, Recent::since
#[test]
fn what_comes_and_goes_leaves_the_others(rt: HostRuntime) {
    let mut recent = Recent::new(rt.alloc());
    take_all(&rt, &mut recent, &[Files(0, 0)]);
    for number in 1..100u64 {
        let steps = [
            Moves(number, 1000, 1),
            Has(Some(0), &[1]),
            Drops(1000, 1),
            Has(None, &[0]),
        ];
        take_all(&rt, &mut recent, &steps);
    }
}

/// What moves and what is dropped leaves holes.
static HOLES: [Step; 11] = [
    Next(0, None),
    Files(1, 0),
    Files(3, 2),
    Files(u64::MAX, 3),
    Moves(2, 5, 1),
    Drops(3, 2),
    Next(0, Some((1, 0))),
    Next(1, Some((5, 1))),
    Next(4, Some((5, 1))),
    Next(5, Some((u64::MAX, 3))),
    Next(u64::MAX, None),
];

/// Tries: Recent::next_above
#[test]
fn the_next_number_is_found_behind_holes(rt: HostRuntime) {
    let mut recent = Recent::new(rt.alloc());
    take_all(&rt, &mut recent, &HOLES);
}

static PLACES: [u32; 17] = [0, 1, 2, 3, 4, 5, 6, 7, 8, 9, 10, 11, 12, 13, 14, 15, 16];

/// Adds a place to those before it. Where that is refused, these are left, and it is added again.
fn adds_place(recent: &mut Recent, count: usize, place: u32) -> Result<bool, NoMemory> {
    let before = PLACES.get(..count).unwrap_or_default();
    if let Err(NoMemory) = recent.add(count as u64, place) {
        if !has_only(recent, None, before) {
            return Ok(false);
        }
        recent.add(count as u64, place)?;
    }
    let after = PLACES.get(..=count).unwrap_or_default();
    Ok(has_only(recent, None, after))
}

/// Tries: Recent::add
#[test]
fn a_refused_add_leaves_the_places(rt: HostRuntime) -> Result<(), Fail> {
    let mut recent = Recent::new(rt.alloc());
    for (count, place) in PLACES.iter().enumerate() {
        holds_for(place, adds_place(&mut recent, count, *place)?)?;
    }
    Ok(())
}
