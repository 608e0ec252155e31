//! Tables that are copied, and tables that are compared.

use super::alike::{ALIKE, ALL};
use super::since::{AGAIN, FIVE, has_hundred, join_many};
use super::*;

/// Whether the one says that it is the same as the other, and the other says so too.
fn are_same(one: &Table, other: &Table) -> bool {
    one.same(other) && other.same(one)
}

/// Whether neither says so.
fn are_different(one: &Table, other: &Table) -> bool {
    !one.same(other) && !other.same(one)
}

/// What a scene is about, what is joined to a table before it is copied, what both have, and what the one has to which
/// `CHANGE` is joined then.
type Copying = (
    &'static str,
    &'static [Step],
    &'static [Step],
    &'static [Step],
);

const CHANGE: [Step; 1] = [Joins(("c", (Above(20), Above(20), Register(HOST_B, 0, 60))))];

/// Observations are copied too.
static COPIED: [Copying; 4] = [
    (
        "nothing",
        &[],
        &[
            Counts(0),
            Filed(Id(First), &[]),
            Filed(Address(HOST_A), &[]),
            Shows(0, Behind(None), None),
            Tells(0, ""),
        ],
        &[Counts(1), Tells(0, "c+21 ")],
    ),
    (
        "five endpoints",
        &FIVE,
        &[
            Counts(6),
            Filed(Id(First), &["a"]),
            Filed(Id(Third), &["c"]),
            Filed(Id(Fourth), &[]),
            Filed(Address(HOST_A), &["a", "b"]),
            Filed(Address(HOST_B), &["c", "e"]),
            Shows(0, Behind(None), Some(("a", First))),
            Tells(0, "a+1 b+2 c+3 d-4 e+5 "),
            Tells(1, "b+2 c+3 d-4 e+5 "),
            Tells(3, "d-4 e+5 "),
            Tells(4, "d-4 e+5 "),
            Tells(5, "e+5 "),
            Tells(6, ""),
            Tells(7, ""),
            Tells(u64::MAX, ""),
        ],
        &[Counts(7), Tells(6, "c+21 ")],
    ),
    (
        "what has moved again",
        &AGAIN,
        &[
            Counts(3),
            Filed(Id(Second), &["b"]),
            Filed(Token(Fourth), &["c"]),
            Filed(Address(HOST_A), &["b", "c"]),
            Shows(0, Behind(None), Some(("b", Second))),
            Tells(0, "b+2 c+3 "),
            Tells(1, "b+2 c+3 "),
            Tells(2, "c+3 "),
            Tells(3, ""),
        ],
        &[Counts(4), Tells(3, "c+21 ")],
    ),
    (
        "a watch alone",
        &[Joins(("a", (Second, First, Observe(&[3], None))))],
        &[
            Counts(1),
            Filed(Token(Second), &["a"]),
            Filed(Token(Third), &[]),
            Shows(0, Behind(None), None),
        ],
        &[Counts(2), Tells(1, "c+21 ")],
    ),
];

static NUMBERED: [Copying; 1] = [(
    "endpoints that end alike",
    &ALIKE,
    &[
        Counts(9),
        Tells(0, ALL),
        Tells(8, "urn:dev:eui:0123456789ab+3 "),
    ],
    &[Counts(10), Tells(9, "c+21 ")],
)];

/// The copy has what the table has, and takes the same change alike.
fn are_alike(
    rt: &impl Abort,
    alloc: Global,
    table: &mut Table,
    copy: &mut Table,
    (name, _, both, then): &Copying,
) {
    assert!(rt; are_same(table, copy), "{name}: the same");
    play(rt, alloc, copy, name, both).expect(rt, "memory");
    play(rt, alloc, copy, name, &CHANGE).expect(rt, "memory");
    play(rt, alloc, table, name, both).expect(rt, "memory");
    assert!(rt; are_different(table, copy), "{name}: another");
    play(rt, alloc, copy, name, then).expect(rt, "memory");
    play(rt, alloc, table, name, &CHANGE).expect(rt, "memory");
    assert!(rt; are_same(table, copy), "{name}: the same once more");
}

fn copy_all(rt: &impl Abort, alloc: Global, copyings: &[Copying]) {
    for copying in copyings {
        let mut table = played(rt, alloc, copying.0, copying.1);
        let mut copy = table.copy().expect(rt, "memory");
        are_alike(rt, alloc, &mut table, &mut copy, copying);
    }
}

/// Tries: lw_reg::Slot::copy, Table::copy, Table::same
#[test]
fn a_table_and_its_copy_are_the_same(rt: HostRuntime) {
    copy_all(&rt, rt.alloc(), &COPIED);
}

/// Tries: Table::copy
#[test]
fn a_copy_keeps_the_change_numbers(rt: HostRuntime) {
    copy_all(&rt, rt.alloc(), &NUMBERED);
}

/// A hundred endpoints that came in falling order.
/// Tries: Table::copy, Table::same
#[test]
fn a_hundred_endpoints_are_copied(rt: HostRuntime) {
    let mut table = Table::new(rt.alloc());
    join_many(&rt, rt.alloc(), &mut table, 100, true);
    let copy = table.copy().expect(&rt, "memory");
    assert!(rt; are_same(&table, &copy));
    assert!(rt; has_hundred(&rt, rt.alloc(), &copy));
}

const A: Step = Joins(("a", (First, First, Register(HOST_A, 0, 60))));

const A_AT_B: Step = Joins(("a", (First, First, Register(HOST_B, 0, 60))));

const A_REMOVED: Step = Joins(("a", (First, First, Remove)));

const B: Step = Joins(("b", (Second, Second, Register(HOST_A, 0, 60))));

const C: Step = Joins(("c", (Third, Third, Register(HOST_B, 0, 0))));

const C_UPDATED: Step = Joins(("c", (Fourth, Third, Update(HOST_B, 9, None, None))));

/// What is joined to two tables, and whether they are then the same.
static COMPARED: [(&[Step], &[Step], bool); 11] = [
    (&[A, B, C], &[A, B, C], true),
    // what changes nothing
    (&[A, B, C], &[A, A, B, C, B], true),
    // one row more
    (&[A], &[], false),
    (&[A, B, C], &[A, B], false),
    (&[B, C], &[A, B, C], false),
    // of another endpoint
    (&[A], &[B], false),
    // another slot
    (&[A], &[A_AT_B], false),
    (&[A], &[A_REMOVED], false),
    // the same slots in another order
    (&[A, B, C], &[B, A, C], false),
    // and in another order of which only the last counts
    (&[A, C, C_UPDATED], &[A, C_UPDATED, C], true),
    (&[A, C, C_UPDATED, B], &[A, C, B, C_UPDATED], false),
];

/// Whether each table says that it is the same as the other, or each that it is not.
fn are_compared(
    rt: &impl Abort,
    alloc: Global,
    one: &[Step],
    other: &[Step],
    is_same: bool,
) -> bool {
    let one = played(rt, alloc, "one", one);
    let other = played(rt, alloc, "other", other);
    one.same(&other) == is_same && other.same(&one) == is_same
}

/// Tries: Table::same
#[test]
fn a_table_with_one_row_more_is_not_the_same(rt: HostRuntime) {
    for (place, (one, other, is_same)) in COMPARED.iter().enumerate() {
        assert!(rt;
            are_compared(&rt, rt.alloc(), one, other, *is_same),
            "at {place}"
        );
    }
}
