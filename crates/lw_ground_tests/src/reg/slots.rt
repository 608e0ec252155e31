//! Operations, the slots that they make, and what these show.

use crate::change::Act::*;
use crate::change::Mark::*;
use crate::change::*;
use lw_join::{Join, OrGone};
use lw_reg::*;
use lw_stamp::{Moment, Stamp};
use std::alloc::Global;
use std::process::Abort;

fn join(rt: &impl Abort, alloc: Global, slot: &mut Slot, change: Change<'_>) {
    let other = slot_of(alloc, change).expect(rt, "memory");
    slot.join_with(other).expect(rt, "memory for a join");
}

fn join_all(rt: &impl Abort, alloc: Global, slot: &mut Slot, changes: &[Change<'_>]) {
    for change in changes {
        join(rt, alloc, slot, *change);
    }
}

/// The slots of operations, joined one behind another.
fn joined(rt: &impl Abort, alloc: Global, first: Change<'_>, others: &[Change<'_>]) -> Slot {
    let mut slot = slot_of(alloc, first).expect(rt, "memory");
    join_all(rt, alloc, &mut slot, others);
    slot
}

/// What is shown: the identifier, the address, the moment of the last contact, the lifetime and the binding.
type Shown = (Mark, Addr, u64, u32, &'static str);

fn is_shown(view: &View<'_>, (id, address, seen, lifetime, binding): Shown) -> bool {
    view.id == id.stamp()
        && view.address == address
        && view.seen.ms() == seen
        && view.lifetime == lifetime
        && view.binding.as_str() == binding
        && view.queue == (binding == "UQ")
        && view.version == Version::V10
        && view.sms.is_none()
        && view.objects.as_str() == "</>"
}

fn shows(slot: &Slot, now: Moment, wanted: Option<Shown>) -> bool {
    let Some(view) = slot.view("a", now) else {
        return wanted.is_none();
    };
    match wanted {
        None => false,
        Some(shown) => is_shown(&view, shown),
    }
}

/// A registration for a day.
const EARLY: Change<'static> = (First, First, Register(HOST_A, 0, 86_400));

/// Another, and its Update.
const LATE: Change<'static> = (Elsewhere, Elsewhere, Register(HOST_A, 0, 86_400));

const OF_LATE: Change<'static> = (Third, Elsewhere, Update(HOST_B, 7, Some(120), None));

/// What is shown of both with the Update.
const LATER: Option<Shown> = Some((Elsewhere, HOST_B, 7, 120, "U"));

/// Two Updates of the early one.
const ONE: Change<'static> = (Second, First, Update(HOST_A, 1000, Some(120), None));

const TWO: Change<'static> = (Third, First, Update(HOST_B, 2000, None, Some("UQ")));

/// What is shown of it with both.
const UPDATED: Option<Shown> = Some((First, HOST_B, 2000, 120, "UQ"));

/// Its removal, and an Update behind that.
const GONE: Change<'static> = (Second, First, Remove);

const BEHIND: Change<'static> = (Third, First, Update(HOST_B, 0, Some(120), None));

/// Operations about one endpoint, a moment, and what is shown then.
static ORDERS: [(Change<'static>, &[Change<'static>], u64, Option<Shown>); 19] = [
    (EARLY, &[OF_LATE, LATE], 7, LATER),
    (EARLY, &[LATE, OF_LATE], 7, LATER),
    (OF_LATE, &[EARLY, LATE], 7, LATER),
    (OF_LATE, &[LATE, EARLY], 7, LATER),
    (LATE, &[EARLY, OF_LATE], 7, LATER),
    (LATE, &[OF_LATE, EARLY], 7, LATER),
    (EARLY, &[ONE, TWO], 2000, UPDATED),
    (EARLY, &[TWO, ONE], 2000, UPDATED),
    (ONE, &[EARLY, TWO], 2000, UPDATED),
    (ONE, &[TWO, EARLY], 2000, UPDATED),
    (TWO, &[EARLY, ONE], 2000, UPDATED),
    (TWO, &[ONE, EARLY], 2000, UPDATED),
    (REGISTERED, &[GONE, BEHIND], 0, None),
    (REGISTERED, &[BEHIND, GONE], 0, None),
    (GONE, &[REGISTERED, BEHIND], 0, None),
    (GONE, &[BEHIND, REGISTERED], 0, None),
    (BEHIND, &[REGISTERED, GONE], 0, None),
    (BEHIND, &[GONE, REGISTERED], 0, None),
    // an Update alone
    (EARLY, &[OF_LATE], 7, None),
];

/// Tries: atom, atom_with_endpoint, laws::atoms_are_states, Slot::join_with, Slot::view, Attributes::new
/// Tries: Attributes::into_pairs
#[test]
fn operations_join_in_each_order(rt: HostRuntime) {
    for (place, (first, others, ms, wanted)) in ORDERS.iter().enumerate() {
        let slot = joined(&rt, rt.alloc(), *first, others);
        assert!(rt; shows(&slot, at(*ms), *wanted), "at {place}");
    }
    let id = Stamp::read_id(b"0000000000020002");
    assert!(rt; id == Some(Elsewhere.stamp()), "the identifier");
    let slot = joined(&rt, rt.alloc(), EARLY, &[OF_LATE]);
    assert!(rt; !slot.expired(at(86_400_000)), "an Update alone");
}

/// A registration.
const REGISTERED: Change<'static> = (First, First, Register(HOST_A, 0, 60));

/// It is removed before it is updated.
const REMOVED: &[Change<'static>] = &[GONE, BEHIND];

const ONCE_MORE: Change<'static> = (Fourth, Fourth, Register(HOST_A, 1000, 60));

fn is_gone(slot: &Slot) -> bool {
    slot.is_removed()
        && !slot.expired(at(120_000))
        && slot.address().is_none()
        && slot.stamp() == First.stamp()
}

/// Whether it is shown until it expires.
fn is_shown_until(slot: &Slot, end: u64) -> bool {
    slot.view("a", at(end.saturating_sub(1))).is_some()
        && slot.view("a", at(end)).is_none()
        && slot.expired(at(end))
}

/// Tries: Slot::view, Slot::expired, Slot::is_removed
#[test]
fn what_is_removed_registers_once_more_and_expires(rt: HostRuntime) {
    let mut slot = joined(&rt, rt.alloc(), REGISTERED, REMOVED);
    assert!(rt; is_gone(&slot), "removed");
    join(&rt, rt.alloc(), &mut slot, ONCE_MORE);
    assert!(rt; is_shown_until(&slot, 61_000), "once more");
}

/// The watch `Fourth` of `/3/0`, an older one of that path, and `Third` of `/3/0/9`.
static WATCHED: [Change<'static>; 3] = [
    (Fourth, First, Observe(&[3, 0], Some(110))),
    (Second, First, Observe(&[3, 0], None)),
    (Third, First, Observe(&[3, 0, 9], Some(112))),
];

/// Whether the watch `Fourth` was cancelled, and the other lives.
fn has_the_later_watch_alone(slot: &Slot) -> bool {
    let Some(path) = Path::new(&[3, 0]) else {
        return false;
    };
    let Some(watching) = slot.watching(&path) else {
        return false;
    };
    watching.stamp == Fourth.stamp()
        && watching.value == OrGone::Gone
        && slot.watch(at(0), Fourth.stamp()).is_none()
        && slot.token_at(0) == Some(Third.stamp())
        && slot.watches().len() == 2
}

/// Whether the watch `Fourth` has the Content-Format 110.
fn has_its_format(slot: &Slot) -> bool {
    match slot.watch(at(0), Fourth.stamp()) {
        None => false,
        Some(watch) => watch.accept == Some(110),
    }
}

/// Tries: Slot::join_with, Slot::watch, Slot::watching, Slot::token_at, Slot::watches
#[test]
fn a_watch_is_cancelled_or_ends(rt: HostRuntime) {
    let mut slot = joined(&rt, rt.alloc(), REGISTERED, &WATCHED);
    assert!(rt; has_its_format(&slot), "its format");
    let cancel = (Fourth, First, Cancel(&[3, 0], Fourth));
    join(&rt, rt.alloc(), &mut slot, cancel);
    assert!(rt; has_the_later_watch_alone(&slot), "cancelled");
    let register = (Fifth, Fifth, Register(HOST_A, 0, 60));
    join(&rt, rt.alloc(), &mut slot, register);
    assert!(rt; slot.watches().is_empty(), "all end");
}

/// What is told of a slot: its end, whether it is shown and whether it has expired at the moments 0 and 60,000, and how
/// many watches it has.
type Told = (Option<Mark>, bool, bool, usize);

fn tells(slot: &Slot, (end, shown, expired, watches): Told) -> bool {
    slot.ended() == end.map(Mark::stamp)
        && slot.view("a", at(0)).is_some() == shown
        && slot.watch_after(at(0), None).is_some() == (shown && watches != 0)
        && slot.expired(at(60_000)) == expired
        && slot.watches().len() == watches
        && !slot.expired(at(0))
}

/// Operations behind a Register with a watch, and what is told at the end.
static ENDS: [(&[Change<'static>], Told); 11] = [
    (&[], (None, true, true, 1)),
    (
        &[(Third, First, Expire(First))],
        (Some(First), false, false, 1),
    ),
    // an Update above it
    (
        &[
            (Fifth, First, Expire(First)),
            (Third, First, Update(HOST_A, 0, None, None)),
        ],
        (Some(First), true, true, 1),
    ),
    // one at it, and one below
    (
        &[
            (Fifth, First, Expire(Third)),
            (Third, First, Update(HOST_A, 0, None, None)),
        ],
        (Some(Third), false, false, 1),
    ),
    (
        &[
            (Fifth, First, Expire(Fourth)),
            (Third, First, Update(HOST_A, 0, None, None)),
        ],
        (Some(Fourth), false, false, 1),
    ),
    // of the same counter at another node
    (
        &[
            (Fifth, First, Expire(Second)),
            (Elsewhere, First, Update(HOST_A, 0, None, None)),
        ],
        (Some(Second), true, true, 1),
    ),
    (
        &[
            (Fifth, First, Expire(Elsewhere)),
            (Second, First, Update(HOST_A, 0, None, None)),
        ],
        (Some(Elsewhere), false, false, 1),
    ),
    // the later of two
    (
        &[
            (Third, First, Expire(First)),
            (Fifth, First, Expire(Second)),
        ],
        (Some(Second), false, false, 1),
    ),
    // a removal wins
    (
        &[(Third, First, Expire(First)), (Fourth, First, Remove)],
        (None, false, false, 0),
    ),
    // a later Register, which is seen at its own stamp
    (
        &[
            (Fifth, First, Expire(Fifth)),
            (Fourth, Fourth, Register(HOST_A, 0, 60)),
        ],
        (None, true, true, 0),
    ),
    // the end of an earlier one
    (
        &[
            (Fourth, Fourth, Register(HOST_A, 0, 60)),
            (Fifth, First, Expire(Fifth)),
        ],
        (None, true, true, 0),
    ),
];

const WATCH: Change<'static> = (Second, First, Observe(&[3, 0], None));

/// The slot of a Register with a watch and these operations.
fn watched(rt: &impl Abort, alloc: Global, changes: &[Change<'_>]) -> Slot {
    let mut slot = joined(rt, alloc, REGISTERED, &[WATCH]);
    join_all(rt, alloc, &mut slot, changes);
    slot
}

/// The same in the other order, the watch last.
fn watched_last(rt: &impl Abort, alloc: Global, changes: &[Change<'_>]) -> Slot {
    let mut slot = joined(rt, alloc, REGISTERED, &[]);
    for change in changes.iter().rev() {
        join(rt, alloc, &mut slot, *change);
    }
    join(rt, alloc, &mut slot, WATCH);
    slot
}

/// Tries: atom, Slot::lift
#[test]
fn what_was_seen_is_over(rt: HostRuntime) {
    for (place, (changes, told)) in ENDS.iter().enumerate() {
        let slot = watched(&rt, rt.alloc(), changes);
        assert!(rt; tells(&slot, *told), "at {place}");
        let slot = watched_last(&rt, rt.alloc(), changes);
        assert!(rt; tells(&slot, *told), "at {place}, in the other order");
    }
}

/// An end before all that it is about.
/// Tries: atom, Slot::join_with
#[test]
fn an_end_comes_before_its_registration(rt: HostRuntime) {
    let mut slot = joined(&rt, rt.alloc(), (Fifth, First, Expire(First)), &[]);
    assert!(rt; tells(&slot, (Some(First), false, false, 0)), "alone");
    join(&rt, rt.alloc(), &mut slot, REGISTERED);
    assert!(rt; tells(&slot, (Some(First), false, false, 0)), "over");
}

/// Operations behind a Register with a watch, and the stamp of what was seen last.
static LIFTED: [(&[Change<'static>], Mark); 4] = [
    (&[], First),
    (&[(Third, First, Update(HOST_B, 0, Some(60), None))], Third),
    // what is shown once more is over once more
    (
        &[
            (Fifth, First, Expire(First)),
            (Third, First, Update(HOST_B, 0, Some(60), None)),
        ],
        Third,
    ),
    // and what is over is so already
    (&[(Fifth, First, Expire(Second))], First),
];

/// Whether both are below the other, so that they are one.
fn are_one(one: &Slot, other: &Slot) -> bool {
    one.le(other) && other.le(one)
}

/// Tries: Slot::ended, Slot::lift
#[test]
fn a_slot_is_lifted(rt: HostRuntime) {
    for (place, (changes, upto)) in LIFTED.iter().enumerate() {
        let mut lifted = watched(&rt, rt.alloc(), changes);
        lifted.lift();
        let mut other = watched(&rt, rt.alloc(), changes);
        join(&rt, rt.alloc(), &mut other, (Fifth, First, Expire(*upto)));
        let is_over = lifted.view("a", at(0)).is_none() && !lifted.expired(at(60_000));
        assert!(rt; is_over && lifted.watches().len() == 1, "at {place}");
        assert!(rt; lifted.address() == other.address(), "at {place}");
        assert!(rt; are_one(&lifted, &other), "at {place}");
    }
}

/// Nothing was seen of the one, and the other was removed.
/// Tries: Slot::lift
#[test]
fn nothing_is_lifted_that_was_not_seen(rt: HostRuntime) {
    let mut slot = joined(&rt, rt.alloc(), WATCH, &[]);
    slot.lift();
    assert!(rt; slot.ended().is_none() && slot.watches().len() == 1);
    let mut removed = joined(&rt, rt.alloc(), REGISTERED, REMOVED);
    removed.lift();
    assert!(rt; is_gone(&removed) && removed.ended().is_none());
}

/// A Register, what follows it, and the moment from which on the registration has expired.
static DEADLINES: [(Change<'static>, &[Change<'static>], Option<u64>); 7] = [
    ((First, First, Register(HOST_A, 7, 60)), &[], Some(60_007)),
    ((First, First, Register(HOST_A, 7, 0)), &[], None),
    (
        REGISTERED,
        &[(Second, First, Update(HOST_A, 50_000, None, None))],
        Some(110_000),
    ),
    (
        REGISTERED,
        &[(Second, First, Update(HOST_A, 8, Some(1), None))],
        Some(1_008),
    ),
    (REGISTERED, REMOVED, None),
    (REGISTERED, &[(Second, First, Expire(First))], None),
    // too little is known
    ((First, First, Update(HOST_A, 7, Some(60), None)), &[], None),
];

/// Tries: Slot::deadline
#[test]
fn a_slot_has_a_deadline(rt: HostRuntime) {
    for (place, (first, others, wanted)) in DEADLINES.iter().enumerate() {
        let slot = joined(&rt, rt.alloc(), *first, others);
        assert!(rt; slot.deadline() == *wanted, "at {place}");
    }
}

static PATHS: [&[u16]; 3] = [&[65_534], &[65_534; 4], &[3, 0, 9, 1]];

static NO_PATHS: [&[u16]; 5] = [
    &[],
    &[1, 2, 3, 4, 5],
    &[65_535],
    &[3, 65_535],
    &[65_534, 65_534, 65_534, 65_535],
];

/// A path, and one that comes behind it.
static RISING: [(&[u16], &[u16]); 4] = [
    (&[3], &[3, 0]),
    (&[3, 0], &[3, 1]),
    (&[3, 9], &[4]),
    (&[0], &[0, 0]),
];

/// Tries: Path::new, Path::numbers, laws::paths_are_ordered
#[test]
fn paths_have_one_to_four_numbers(rt: HostRuntime) {
    for numbers in &PATHS {
        let path = Path::new(numbers).expect(&rt, "a path");
        assert!(rt; path.numbers() == *numbers, "{numbers:?}");
    }
    for numbers in &NO_PATHS {
        assert!(rt; Path::new(numbers).is_none(), "{numbers:?}");
    }
    for (before, behind) in &RISING {
        assert!(rt; Path::new(before) < Path::new(behind), "{before:?}");
    }
}
