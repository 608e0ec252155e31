use crate::hold::holds;
use lw_due::*;
use lw_stamp::NoMemory;
use std::process::Abort;
use std::test::Fail;

mod kept;
pub(crate) mod many;

/// What is done, or asked and answered.
#[derive(Drop)]
enum Step<'a> {
    /// Adds the endpoint, kept or not, with the due moment.
    Adds(&'a str, bool, u64),
    Lowers(&'a str, u64),
    Keeps(&'a str, bool),
    /// Gives the first that is due at a moment another due moment.
    Raises(u64, u64),
    /// The first that is due at the moment.
    First(u64, Option<&'a str>),
    /// The first that is due at the moment, above an endpoint.
    FirstAfter(u64, Option<&'a str>, Option<&'a str>),
    /// The first above an endpoint that is kept.
    FirstKept(Option<&'a str>, Option<&'a str>),
    /// So many are kept.
    Count(usize),
}

use Step::*;

/// Takes the step, or looks at the answer.
fn take(rt: &impl Abort, moments: &mut DueMoments, row: usize, step: &Step<'_>) {
    match step {
        Adds(endpoint, kept, due) => moments.add(endpoint, *kept, *due).expect(rt, "memory"),
        Lowers(endpoint, due) => moments.lower(endpoint, *due),
        Keeps(endpoint, kept) => moments.keep(endpoint, *kept),
        Raises(now, due) => moments.raise_first(*now, *due),
        First(now, wanted) => assert!(rt; moments.first(*now) == *wanted, "first, at {row}"),
        FirstAfter(now, after, wanted) => {
            assert!(rt;
                moments.first_due_after(*now, *after) == *wanted,
                "due, at {row}"
            );
        }
        FirstKept(after, wanted) => assert!(rt;
            moments.first_kept(*after) == *wanted,
            "kept, at {row}"
        ),
        Count(count) => assert!(rt; moments.kept_count() == *count, "count, at {row}"),
    }
}

/// Takes each step in turn.
fn take_all(rt: &impl Abort, moments: &mut DueMoments, steps: &[Step<'_>]) {
    for (row, step) in steps.iter().enumerate() {
        take(rt, moments, row, step);
    }
}

/// Endpoints as they are put in, each with the due moment that it is given.
static GIVEN: [Step<'static>; 5] = [
    Adds("d", false, 40),
    Adds("b", false, 20),
    Adds("e", false, 20),
    Adds("a", false, 50),
    Adds("c", false, 30),
];

/// The least endpoint that is due at each moment.
static FIRST: [Step<'static>; 6] = [
    First(0, None),
    First(19, None),
    First(20, Some("b")),
    First(49, Some("b")),
    First(50, Some("a")),
    First(u64::MAX, Some("a")),
];

/// Tries: DueMoments::first
#[test]
fn the_least_endpoint_that_is_due(rt: HostRuntime) {
    let mut moments = DueMoments::new(rt.alloc());
    take_all(&rt, &mut moments, &GIVEN);
    take_all(&rt, &mut moments, &FIRST);
}

/// Each endpoint that is due at 40 is raised to 41, the least first, and then none.
static RAISED: [Step<'static>; 12] = [
    First(40, Some("b")),
    Raises(40, 41),
    First(40, Some("c")),
    Raises(40, 41),
    First(40, Some("d")),
    Raises(40, 41),
    First(40, Some("e")),
    Raises(40, 41),
    First(40, None),
    Raises(40, 0),
    First(40, None),
    First(41, Some("b")),
];

/// Tries: DueMoments::raise_first
#[test]
fn each_is_raised_in_turn(rt: HostRuntime) {
    let mut moments = DueMoments::new(rt.alloc());
    take_all(&rt, &mut moments, &GIVEN);
    take_all(&rt, &mut moments, &RAISED);
}

/// One is lowered to a greater due moment, one is absent, one is added again later and earlier, another is lowered.
static LOWERED: [Step<'static>; 11] = [
    Lowers("b", 21),
    First(20, Some("b")),
    Lowers("z", 1),
    Adds("b", false, u64::MAX),
    First(19, None),
    First(20, Some("b")),
    Lowers("e", 10),
    First(19, Some("e")),
    Adds("c", false, 10),
    First(19, Some("c")),
    First(9, None),
];

/// Tries: DueMoments::add, DueMoments::lower
#[test]
fn a_due_moment_is_only_lowered(rt: HostRuntime) {
    let mut moments = DueMoments::new(rt.alloc());
    take_all(&rt, &mut moments, &GIVEN);
    take_all(&rt, &mut moments, &LOWERED);
}

/// Tries: DueMoments::new, DueMoments::add
#[test]
fn a_new_endpoint_is_due_at_the_last_moment(rt: HostRuntime) {
    let longest = "x".repeat(rt.alloc(), 252).expect(&rt, "memory");
    for endpoint in ["", "a", longest.as_str()] {
        let mut moments = DueMoments::new(rt.alloc());
        let steps = [
            First(u64::MAX, None),
            Adds(endpoint, false, u64::MAX),
            First(u64::MAX - 1, None),
            First(u64::MAX, Some(endpoint)),
            Lowers(endpoint, 0),
            First(0, Some(endpoint)),
        ];
        take_all(&rt, &mut moments, &steps);
    }
}

/// Whether these endpoints and no other are due at 0, rising so. They are due at 0 again afterwards.
fn has_only(moments: &mut DueMoments, wanted: &[&str]) -> bool {
    for endpoint in wanted {
        if moments.first(0) != Some(*endpoint) {
            return false;
        }
        moments.raise_first(0, 1);
    }
    let are_all = moments.first(0).is_none();
    for endpoint in wanted {
        moments.lower(endpoint, 0);
    }
    are_all
}

/// Endpoints that rise by their bytes: capitals before small letters, a text before one that it begins, and what is
/// not ASCII last (in UTF-8, where `ö` is C3 B6 and `ぎ` is E3 81 8E).
static RISING: [&str; 8] = ["", "0", "10", "9", "Z", "a", "ö", "ぎ"];

/// Adds all of them, the last first.
///
/// Tries: DueMoments::add, DueMoments::first, DueMoments::lower, DueMoments::raise_first
#[test]
fn endpoints_rise_by_their_bytes(rt: HostRuntime) {
    let mut moments = DueMoments::new(rt.alloc());
    for endpoint in RISING.iter().rev() {
        moments.add(endpoint, false, 0).expect(&rt, "memory");
    }
    assert!(rt; has_only(&mut moments, &RISING));
}

static ENDPOINTS: [&str; 17] = [
    "a", "b", "c", "d", "e", "f", "g", "h", "i", "j", "k", "l", "m", "n", "o", "p", "q",
];

/// Adds an endpoint to those before it. Where that is refused, these are left, and it is added again. Once it is there,
/// no memory can be refused.
fn adds_endpoint(moments: &mut DueMoments, count: usize, endpoint: &str) -> Result<bool, NoMemory> {
    let before = ENDPOINTS.get(..count).unwrap_or_default();
    if let Err(NoMemory) = moments.add(endpoint, false, 0) {
        moments.lower(endpoint, 0);
        if !has_only(moments, before) {
            return Ok(false);
        }
        moments.add(endpoint, false, 0)?;
    }
    let after = ENDPOINTS.get(..=count).unwrap_or_default();
    Ok(moments.add(endpoint, false, 1).is_ok() && has_only(moments, after))
}

/// Tries: DueMoments::add
#[test]
fn a_refused_add_leaves_the_endpoints(rt: HostRuntime) -> Result<(), Fail> {
    let mut moments = DueMoments::new(rt.alloc());
    for (count, endpoint) in ENDPOINTS.iter().enumerate() {
        holds(endpoint, adds_endpoint(&mut moments, count, endpoint)?)?;
    }
    Ok(())
}
