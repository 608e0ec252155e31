use super::{DOWN, Entries, UP, map_of};
use lw_join::*;
use lw_stamp::{Moment, Stamp, Text};
use std::alloc::Global;
use std::process::Abort;

/// What is left and right, whether the left is below the right, and what both joins give.
type Case<T> = (T, T, bool, T);

/// The left is below the right or not, and becomes their join.
fn join_in<J: Join>(rt: &impl Abort, left: &mut J, right: J, below: bool) {
    assert!(rt; left.le(&right) == below);
    left.join_with(right).expect(rt, "memory");
}

/// Joins the left and the right of each case, in both ways.
fn join_all<J: Calm + Copied + PartialEq>(rt: &impl Abort, alloc: Global, cases: &[Case<J>]) {
    for (row, (left, right, below, wanted)) in cases.iter().enumerate() {
        let mut joined = left.copy(alloc).expect(rt, "memory");
        join_in(
            rt,
            &mut joined,
            right.copy(alloc).expect(rt, "memory"),
            *below,
        );
        assert!(rt; joined == *wanted, "at {row}");
        let mut joined = left.copy(alloc).expect(rt, "memory");
        joined.join_calm(right.copy(alloc).expect(rt, "memory"));
        assert!(rt; joined == *wanted, "calm, at {row}");
    }
}

static FLAGS: [Case<Flag>; 4] = [
    (DOWN, DOWN, true, DOWN),
    (DOWN, UP, true, UP),
    (UP, DOWN, false, UP),
    (UP, UP, true, UP),
];

/// Tries: Join::le, Join::join_with, Calm::join_calm
#[test]
fn a_raised_flag_stays_raised(rt: HostRuntime) {
    laws::joins_are_semilattices::<Flag>();
    laws::joins_are_of_members::<Flag>();
    laws::maps_join_key_by_key::<u16, Flag>();
    join_all(&rt, rt.alloc(), &FLAGS);
}

const NO_VALUE: Once<u32> = Once { value: None };

const THREE: Once<u32> = Once { value: Some(3) };

const FIVE: Once<u32> = Once { value: Some(5) };

static VALUES: [Case<Once<u32>>; 6] = [
    (NO_VALUE, NO_VALUE, true, NO_VALUE),
    (NO_VALUE, THREE, true, THREE),
    (THREE, NO_VALUE, false, THREE),
    (THREE, FIVE, true, FIVE),
    (FIVE, THREE, false, FIVE),
    (FIVE, FIVE, true, FIVE),
];

/// Tries: Join::le, Join::join_with, Calm::join_calm
#[test]
fn the_greater_value_counts(rt: HostRuntime) {
    join_all(&rt, rt.alloc(), &VALUES);
}

/// Of a greater node than the fourth.
const THIRD: Stamp = Stamp {
    counter: 3,
    node: 2,
};

const FOURTH: Stamp = Stamp {
    counter: 4,
    node: 1,
};

const NO_WRITE: Lww<u16> = Lww { write: None };

const THIRD_7: Lww<u16> = Lww {
    write: Some((THIRD, 7)),
};

const FOURTH_3: Lww<u16> = Lww {
    write: Some((FOURTH, 3)),
};

const FOURTH_4: Lww<u16> = Lww {
    write: Some((FOURTH, 4)),
};

const WRITES: [Case<Lww<u16>>; 6] = [
    (NO_WRITE, NO_WRITE, true, NO_WRITE),
    (NO_WRITE, THIRD_7, true, THIRD_7),
    (THIRD_7, NO_WRITE, false, THIRD_7),
    (THIRD_7, FOURTH_3, true, FOURTH_3),
    (FOURTH_3, THIRD_7, false, FOURTH_3),
    (FOURTH_3, FOURTH_4, true, FOURTH_4),
];

/// Tries: Join::le, Join::join_with, Calm::join_calm
#[test]
fn the_last_write_wins(rt: HostRuntime) {
    join_all(&rt, rt.alloc(), &WRITES);
}

const LAST_THIRD_7: Last<u16> = Last { write: (THIRD, 7) };

const LAST_FOURTH_3: Last<u16> = Last { write: (FOURTH, 3) };

const LAST_FOURTH_4: Last<u16> = Last { write: (FOURTH, 4) };

const LAST_WRITES: [Case<Last<u16>>; 5] = [
    (LAST_THIRD_7, LAST_THIRD_7, true, LAST_THIRD_7),
    (LAST_THIRD_7, LAST_FOURTH_3, true, LAST_FOURTH_3),
    (LAST_FOURTH_3, LAST_THIRD_7, false, LAST_FOURTH_3),
    (LAST_FOURTH_3, LAST_FOURTH_4, true, LAST_FOURTH_4),
    (LAST_FOURTH_4, LAST_FOURTH_3, false, LAST_FOURTH_4),
];

/// Tries: Join::le, Join::join_with, Calm::join_calm
#[test]
fn the_last_write_that_is_always_there_wins(rt: HostRuntime) {
    join_all(&rt, rt.alloc(), &LAST_WRITES);
}

/// A stamped flag that may be gone.
type Stamped = Lex<OrGone<Flag>>;

const THIRD_UP: Stamped = Lex {
    stamp: THIRD,
    value: OrGone::Here(UP),
};

const THIRD_GONE: Stamped = Lex {
    stamp: THIRD,
    value: OrGone::Gone,
};

const FOURTH_UP: Stamped = Lex {
    stamp: FOURTH,
    value: OrGone::Here(UP),
};

const FOURTH_DOWN: Stamped = Lex {
    stamp: FOURTH,
    value: OrGone::Here(DOWN),
};

/// The greater stamp wins, and equal stamps join; what is gone stays gone; pairs join part by part.
const PARTED: [Case<(Stamped, Once<u32>)>; 9] = [
    (
        (THIRD_UP, THREE),
        (FOURTH_DOWN, THREE),
        true,
        (FOURTH_DOWN, THREE),
    ),
    (
        (FOURTH_DOWN, THREE),
        (THIRD_UP, THREE),
        false,
        (FOURTH_DOWN, THREE),
    ),
    (
        (FOURTH_DOWN, THREE),
        (FOURTH_UP, THREE),
        true,
        (FOURTH_UP, THREE),
    ),
    (
        (FOURTH_UP, THREE),
        (FOURTH_DOWN, THREE),
        false,
        (FOURTH_UP, THREE),
    ),
    (
        (THIRD_GONE, THREE),
        (THIRD_UP, THREE),
        false,
        (THIRD_GONE, THREE),
    ),
    (
        (THIRD_UP, THREE),
        (THIRD_GONE, THREE),
        true,
        (THIRD_GONE, THREE),
    ),
    (
        (FOURTH_UP, THREE),
        (FOURTH_DOWN, FIVE),
        false,
        (FOURTH_UP, FIVE),
    ),
    (
        (FOURTH_DOWN, FIVE),
        (FOURTH_UP, THREE),
        false,
        (FOURTH_UP, FIVE),
    ),
    (
        (FOURTH_DOWN, THREE),
        (FOURTH_UP, FIVE),
        true,
        (FOURTH_UP, FIVE),
    ),
];

/// Tries: Join::le, Join::join_with, Calm::join_calm
#[test]
fn stamped_values_that_may_be_gone_join_in_pairs(rt: HostRuntime) {
    join_all(&rt, rt.alloc(), &PARTED);
}

/// The map that joins of one entry each make.
fn joined(rt: &impl Abort, alloc: Global, entries: Entries) -> Parts<u16, Flag> {
    let mut map = Parts::new(alloc);
    for (key, flag) in entries {
        let one = Parts::one(alloc, *key, *flag).expect(rt, "memory");
        map.join_with(one).expect(rt, "memory");
    }
    map
}

/// Maps beside a flag.
static MAPS: [Case<Entries>; 7] = [
    (&[], &[], true, &[]),
    (&[], &[(4, DOWN)], true, &[(4, DOWN)]),
    (&[(4, DOWN)], &[], false, &[(4, DOWN)]),
    (&[(4, UP)], &[(4, DOWN)], false, &[(4, UP)]),
    (&[(4, DOWN)], &[(4, UP)], true, &[(4, UP)]),
    (
        &[(1, UP), (6, UP)],
        &[(4, DOWN), (9, DOWN)],
        false,
        &[(1, UP), (4, DOWN), (6, UP), (9, DOWN)],
    ),
    (
        &[(3, DOWN), (5, DOWN), (7, UP)],
        &[(1, UP), (5, UP), (6, DOWN)],
        false,
        &[(1, UP), (3, DOWN), (5, UP), (6, DOWN), (7, UP)],
    ),
];

/// Tries: laws::maps_join_key_by_key, Join::le, Join::join_with
#[test]
fn maps_join_key_by_key(rt: HostRuntime) {
    for case in &MAPS {
        let (left, right, below, wanted) = *case;
        let mut map = (joined(&rt, rt.alloc(), left), DOWN);
        let other = (joined(&rt, rt.alloc(), right), UP);
        join_in(&rt, &mut map, other, below);
        assert!(rt; map.0.entries() == wanted && map.1.raised, "{case:?}");
    }
}

fn both(
    rt: &impl Abort,
    alloc: Global,
    left: Entries,
    right: Entries,
) -> Both<u16, Flag, u16, Flag> {
    Both {
        left: joined(rt, alloc, left),
        right: joined(rt, alloc, right),
    }
}

fn join_both(rt: &impl Abort, alloc: Global, left: &Case<Entries>, right: &Case<Entries>) {
    let mut maps = both(rt, alloc, left.0, right.0);
    let other = both(rt, alloc, left.1, right.1);
    join_in(rt, &mut maps, other, left.2 && right.2);
    assert!(rt; maps.left.entries() == left.3, "{left:?}, {right:?}");
    assert!(rt; maps.right.entries() == right.3, "{left:?}, {right:?}");
    let is_empty = left.3.is_empty() && right.3.is_empty();
    assert!(rt; maps.is_empty() == is_empty, "{left:?}, {right:?}");
}

/// Tries: Both::is_empty, Join::le, Join::join_with
#[test]
fn two_maps_join_at_once(rt: HostRuntime) {
    for left in &MAPS {
        for right in &MAPS {
            join_both(&rt, rt.alloc(), left, right);
        }
    }
}

/// Keys that are equal, and that fall.
static NO_MAPS: [Entries; 2] = [&[(2, UP), (2, UP)], &[(2, UP), (1, UP)]];

/// Tries: Parts::new, Parts::one, Parts::entries, Parts::into_entries, Parts::from_entries, Parts::len
/// Tries: Parts::is_empty, Parts::get
#[test]
fn maps_are_their_entries(rt: HostRuntime) {
    for rows in &NO_MAPS {
        let map = map_of(rt.alloc(), *rows).expect(&rt, "memory");
        assert!(rt; map.is_none(), "{rows:?}");
    }
    let map = joined(&rt, rt.alloc(), &[(7, UP), (2, DOWN), (4, UP)]);
    assert!(rt; map.len() == 3 && !map.is_empty());
    assert!(rt; map.get(&2) == Some(&DOWN));
    assert!(rt; map.get(&3).is_none());
    let entries = map.into_entries();
    assert!(rt; entries.as_slice() == [(2, DOWN), (4, UP), (7, UP)].as_slice());
}

fn is_at_most<V: Exact>(left: &V, right: &V) -> bool {
    left.cmp(right).is_le()
}

#[test]
fn keys_compare_exactly(rt: HostRuntime) {
    assert!(rt; is_at_most(&false, &true));
    assert!(rt; is_at_most(&1u8, &2));
    assert!(rt; !is_at_most(&3u16, &2));
    assert!(rt; is_at_most(&2u32, &2));
    assert!(rt; is_at_most(&2u64, &3));
    assert!(rt; is_at_most(&THIRD, &FOURTH));
    assert!(rt; is_at_most(&Moment::START, &Moment::START));
    assert!(rt; is_at_most(&None, &Some(1u8)));
    assert!(rt; !is_at_most(&(1u8, true), &(1, false)));
    let short = Text::copy_of(rt.alloc(), "a").expect(&rt, "memory");
    let long = Text::copy_of(rt.alloc(), "ab").expect(&rt, "memory");
    assert!(rt; is_at_most(&short, &long) && !is_at_most(&long, &short));
}
