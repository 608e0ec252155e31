//! What is left by a join that is refused memory.

use super::*;
use std::test::Fail;

/// Joins the change. Where that is refused, the table is as before, and it is joined again.
fn joins(
    rt: &impl Abort,
    alloc: Global,
    table: &mut Table,
    change: Of<'_>,
    (before, after): (&[Step], &[Step]),
) -> Result<(), NoMemory> {
    if try_join(rt, alloc, table, change)?.is_err() {
        play(rt, alloc, table, "as before", before)?;
        try_join(rt, alloc, table, change)??;
    }
    play(rt, alloc, table, "joined", after)
}

/// Joins one change and then the other, of which these are left before, between and after them.
fn joins_both(
    rt: &impl Abort,
    alloc: Global,
    table: &mut Table,
    (first, second): (Of<'_>, Of<'_>),
    [before, between, after]: [&[Step]; 3],
) -> Result<(), NoMemory> {
    joins(rt, alloc, table, first, (before, between))?;
    joins(rt, alloc, table, second, (between, after))
}

static EMPTY: [Step; 4] = [
    Counts(0),
    Filed(Id(First), &[]),
    Filed(Address(HOST_A), &[]),
    Shows(0, Behind(None), None),
];

static AT_HOST_A: [Step; 5] = [
    Counts(1),
    Filed(Id(First), &["a"]),
    Filed(Address(HOST_A), &["a"]),
    Filed(Address(HOST_B), &[]),
    Shows(0, Behind(None), Some(("a", First))),
];

static AT_HOST_B: [Step; 5] = [
    Counts(2),
    Filed(Id(First), &["a"]),
    Filed(Address(HOST_A), &[]),
    Filed(Address(HOST_B), &["a"]),
    Shows(0, Behind(None), Some(("a", First))),
];

const REGISTERS: Of<'static> = ("a", (First, First, Register(HOST_A, 0, 0)));

const MOVES: Of<'static> = ("a", (Second, First, Update(HOST_B, 0, None, None)));

/// Tries: Table::join
#[test]
fn a_refused_join_leaves_the_slot(rt: HostRuntime) -> Result<(), Fail> {
    let mut table = Table::new(rt.alloc());
    joins_both(
        &rt,
        rt.alloc(),
        &mut table,
        (REGISTERS, MOVES),
        [&EMPTY, &AT_HOST_A, &AT_HOST_B],
    )?;
    Ok(())
}

static WITHOUT: [Step; 4] = [
    Counts(0),
    Filed(Token(Second), &[]),
    Filed(Token(Third), &[]),
    Shows(0, Behind(None), None),
];

static WITH_SECOND: [Step; 4] = [
    Counts(1),
    Filed(Token(Second), &["a"]),
    Filed(Token(Third), &[]),
    Shows(0, Behind(None), None),
];

static WITH_THIRD: [Step; 4] = [
    Counts(2),
    Filed(Token(Third), &["a"]),
    Filed(Token(Second), &[]),
    Shows(0, Behind(None), None),
];

const OBSERVES: Of<'static> = ("a", (Second, First, Observe(&[3], None)));

const OBSERVES_AGAIN: Of<'static> = ("a", (Third, First, Observe(&[3], None)));

/// Tries: Table::join
#[test]
fn a_refused_join_leaves_the_tokens(rt: HostRuntime) -> Result<(), Fail> {
    let mut table = Table::new(rt.alloc());
    joins_both(
        &rt,
        rt.alloc(),
        &mut table,
        (OBSERVES, OBSERVES_AGAIN),
        [&WITHOUT, &WITH_SECOND, &WITH_THIRD],
    )?;
    Ok(())
}
