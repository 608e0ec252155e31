use super::{DOWN, Entries, UP, map_of};
use crate::hold::{holds, holds_for};
use lw_join::*;
use lw_stamp::Stamp;
use std::alloc::Global;
use std::test::Fail;

const EARLY: Stamp = Stamp {
    counter: 1,
    node: 9,
};

const BEFORE: Entries = &[(3, DOWN), (5, DOWN), (7, UP)];

const OTHER: Entries = &[(1, UP), (5, UP), (8, DOWN)];

const AFTER: Entries = &[(1, UP), (3, DOWN), (5, UP), (7, UP), (8, DOWN)];

/// More keys than are inserted one by one.
const MANY: Entries = &[
    (10, UP),
    (11, DOWN),
    (12, UP),
    (13, DOWN),
    (14, UP),
    (15, DOWN),
    (16, UP),
    (17, DOWN),
    (18, UP),
];

/// The maps before a join, and what it gives.
static CASES: [(Entries, Entries, Entries); 4] = [
    (BEFORE, OTHER, AFTER),
    (OTHER, BEFORE, AFTER),
    (&[], OTHER, OTHER),
    (&[], MANY, MANY),
];

fn map(alloc: Global, rows: Entries) -> Result<Parts<u16, Flag>, Fail> {
    Ok(map_of(alloc, rows)?.ok_or("rising keys")?)
}

/// Whether a map is joined or left, where there is memory for both.
fn is_joined_or_left(alloc: Global, case: (Entries, Entries, Entries)) -> Result<bool, Fail> {
    let (before, other, after) = case;
    let mut left = map(alloc, before)?;
    let right = map(alloc, other)?;
    let is_joined = left.join_with(right).is_ok();
    let wanted = if is_joined { after } else { before };
    Ok(left.entries() == wanted)
}

/// Tries: Join::join_with
#[test]
fn a_refused_join_leaves_a_map_as_it_was(rt: HostRuntime) -> Result<(), Fail> {
    for case in &CASES {
        holds_for(case, is_joined_or_left(rt.alloc(), *case)?)?;
    }
    Ok(())
}

fn both(alloc: Global, left: Entries, right: Entries) -> Result<Both<u16, Flag, u16, Flag>, Fail> {
    Ok(Both {
        left: map(alloc, left)?,
        right: map(alloc, right)?,
    })
}

/// Whether both maps are joined or both left, where there is memory for all four.
fn are_joined_or_left(
    alloc: Global,
    left: (Entries, Entries, Entries),
    right: (Entries, Entries, Entries),
) -> Result<bool, Fail> {
    let mut maps = both(alloc, left.0, right.0)?;
    let other = both(alloc, left.1, right.1)?;
    let is_joined = maps.join_with(other).is_ok();
    let (left, right) = if is_joined {
        (left.2, right.2)
    } else {
        (left.0, right.0)
    };
    Ok(maps.left.entries() == left && maps.right.entries() == right)
}

/// Tries: Join::join_with
#[test]
fn a_refused_join_leaves_both_maps_as_they_were(rt: HostRuntime) -> Result<(), Fail> {
    for left in &CASES {
        for right in &CASES {
            let is_whole = are_joined_or_left(rt.alloc(), *left, *right)?;
            holds_for(&(*left, *right), is_whole)?;
        }
    }
    Ok(())
}

/// A stamped map beside a flag.
type Beside = (Lex<OrGone<Parts<u16, Flag>>>, Flag);

fn beside(alloc: Global, rows: Entries, raised: bool) -> Result<Beside, Fail> {
    let value = OrGone::Here(map(alloc, rows)?);
    let stamp = EARLY;
    Ok((Lex { stamp, value }, Flag { raised }))
}

fn has(left: &Beside, entries: Entries, raised: bool) -> bool {
    match &left.0.value {
        OrGone::Gone => false,
        OrGone::Here(map) => {
            left.0.stamp == EARLY && left.1.raised == raised && map.entries() == entries
        }
    }
}

fn is_beside_joined_or_left(alloc: Global) -> Result<bool, Fail> {
    let mut left = beside(alloc, BEFORE, false)?;
    let right = beside(alloc, OTHER, true)?;
    let is_joined = left.join_with(right).is_ok();
    let wanted = if is_joined { AFTER } else { BEFORE };
    Ok(has(&left, wanted, is_joined))
}

/// Tries: Join::join_with
#[test]
fn a_refused_join_leaves_a_map_beside_and_behind_others(rt: HostRuntime) -> Result<(), Fail> {
    holds("stamped, in a pair", is_beside_joined_or_left(rt.alloc())?)
}
