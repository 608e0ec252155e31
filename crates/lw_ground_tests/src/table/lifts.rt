//! Registrations that have expired, and end one after another.

use super::since::{have_moved, join_many};
use super::*;
use lw_stamp::Moment;

/// `a` for a minute and `b` for ever. It keeps its keys where it ends, is not shown, and has not expired either.
const ONE: [Step; 16] = [
    Lifts(Moment::LAST_MS, None),
    Joins(("a", (First, First, Register(HOST_A, 0, 60)))),
    Joins(("b", (Second, Second, Register(HOST_A, 0, 0)))),
    Lifts(59_999, None),
    Lifts(60_000, Some(First)),
    Lifts(60_000, None),
    Lifts(Moment::LAST_MS, None),
    Tells(0, "a+1 b+2 "),
    Tells(1, "a+1 b+2 "),
    Tells(2, "a+1 "),
    Tells(3, ""),
    Counts(3),
    Filed(Id(First), &["a"]),
    Filed(Address(HOST_A), &["a", "b"]),
    Shows(0, Behind(None), Some(("b", Second))),
    Expired(60_000, None),
];

/// The one that is due last is the least.
const SEVERAL: [Step; 13] = [
    Joins(("c", (First, First, Register(HOST_A, 0, 10)))),
    Joins(("a", (Second, Second, Register(HOST_A, 0, 60)))),
    Joins(("b", (Third, Third, Register(HOST_B, 0, 30)))),
    Joins(("ab", (Fourth, Fourth, Register(HOST_B, 0, 61)))),
    Lifts(9_999, None),
    Lifts(10_000, Some(First)),
    Lifts(60_000, Some(Second)),
    Lifts(60_000, Some(Third)),
    Lifts(60_000, None),
    Lifts(61_000, Some(Fourth)),
    Tells(4, "a+2 ab+4 b+3 c+1 "),
    Tells(6, "ab+4 b+3 "),
    Tells(7, "ab+4 "),
];

/// An Update that the node which lifted it had not seen comes later than the end.
const REVIVED: [Step; 10] = [
    Joins(("a", (First, First, Register(HOST_A, 0, 60)))),
    Joins(("a", (Second, First, Observe(&[3], None)))),
    Lifts(60_000, Some(First)),
    Watched(0, false),
    Joins(("a", (Third, First, Update(HOST_B, 70_000, None, None)))),
    Watched(129_999, true),
    Lifts(129_999, None),
    Lifts(130_000, Some(First)),
    Lifts(130_000, None),
    Watched(129_999, false),
];

/// `a` is seen again and `b` has its lifetime shortened, twice; `c` is removed, `d` registers anew, and of `e` too
/// little is known.
const CHANGED: [Step; 17] = [
    Joins(("a", (First, First, Register(HOST_A, 0, 60)))),
    Joins(("a", (Fifth, First, Update(HOST_A, 50_000, None, None)))),
    Joins(("b", (Second, Second, Register(HOST_A, 0, 86_400)))),
    Joins(("c", (Third, Third, Register(HOST_A, 0, 60)))),
    Joins(("c", (Fifth, Third, Remove))),
    Joins(("d", (Fourth, Fourth, Register(HOST_A, 0, 60)))),
    Joins(("d", (Above(10), Above(10), Register(HOST_A, 0, 120)))),
    Joins(("e", (Fifth, Fifth, Update(HOST_A, 0, Some(1), None)))),
    Lifts(109_999, None),
    Joins(("b", (Above(11), Second, Update(HOST_A, 0, Some(90), None)))),
    Lifts(89_999, None),
    Joins(("b", (Above(12), Second, Update(HOST_A, 0, Some(70), None)))),
    Lifts(70_000, Some(Second)),
    Lifts(110_000, Some(First)),
    Lifts(119_999, None),
    Lifts(120_000, Some(Above(10))),
    Lifts(Moment::LAST_MS, None),
];

/// At 100,000 `a` is not due for ten seconds, and `b` has ended.
const BACK: [Step; 9] = [
    Joins(("a", (First, First, Register(HOST_A, 0, 60)))),
    Joins(("a", (Third, First, Update(HOST_A, 50_000, None, None)))),
    Joins(("b", (Second, Second, Register(HOST_A, 0, 60)))),
    Lifts(100_000, Some(Second)),
    Lifts(0, None),
    Lifts(60_000, None),
    Lifts(110_000, Some(First)),
    Lifts(109_999, None),
    Lifts(110_000, None),
];

/// The last eight bytes of all are the same.
const ALIKE: [Step; 9] = [
    Joins(("urn:c:12345678", (First, First, Register(HOST_A, 0, 60)))),
    Joins(("urn:b:12345678", (Second, Second, Register(HOST_A, 0, 60)))),
    Joins(("urn:a:12345678", (Third, Third, Register(HOST_A, 0, 90)))),
    Lifts(60_000, Some(Second)),
    Lifts(60_000, Some(First)),
    Lifts(60_000, None),
    Lifts(90_000, Some(Third)),
    Tells(3, "urn:a:12345678+3 urn:b:12345678+2 urn:c:12345678+1 "),
    Tells(4, "urn:a:12345678+3 urn:c:12345678+1 "),
];

static SCENES: [Scene; 4] = [
    ("what is lifted has moved once", &ONE, &[]),
    ("the least of several is lifted first", &SEVERAL, &[]),
    ("an Update revives what was lifted", &REVIVED, &[]),
    ("endpoints that end alike are lifted", &ALIKE, &[]),
];

/// Tries: Table::lift_first
#[test]
fn what_has_expired_is_lifted(rt: HostRuntime) {
    play_all(&rt, rt.alloc(), &SCENES);
}

/// Whether the first is lifted that is found by a walk over all of them.
fn lifts_as_found(table: &mut Table) -> bool {
    let found = match table.expired_after(at(60_000), None) {
        None => None,
        Some((_, id)) => Some(id),
    };
    let lifted = table.lift_first(at(60_000));
    lifted.is_some() && lifted == found
}

/// What is found once a thousand are lifted.
static LIFTED: [Step; 3] = [
    Lifts(60_000, None),
    Counts(2000),
    Tells(1997, "997+998 998+999 999+1000 "),
];

/// No join comes between, so each moves to a number for which no memory is taken.
/// Tries: Table::lift_first
#[test]
fn a_thousand_are_lifted(rt: HostRuntime) {
    let mut table = Table::new(rt.alloc());
    join_many(&rt, rt.alloc(), &mut table, 1000, false);
    for place in 0..1000u16 {
        assert!(rt; lifts_as_found(&mut table), "at {place}");
    }
    play(&rt, rt.alloc(), &mut table, "lifted", &LIFTED).expect(&rt, "memory");
    assert!(rt; have_moved(&rt, &table, &[(1000, 1000), (1999, 1)]));
}

static PROLONGED: [Scene; 1] = [("what is prolonged is not lifted", &CHANGED, &[])];

/// Tries: Table::lift_first
#[test]
fn what_is_prolonged_is_not_lifted(rt: HostRuntime) {
    play_all(&rt, rt.alloc(), &PROLONGED);
}

static GOING_BACK: [Scene; 1] = [("a moment may go back", &BACK, &[])];

/// Tries: Table::lift_first
#[test]
fn a_moment_may_go_back(rt: HostRuntime) {
    play_all(&rt, rt.alloc(), &GOING_BACK);
}
