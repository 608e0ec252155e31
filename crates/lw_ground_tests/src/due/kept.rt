//! Endpoints that are kept, and those above one that are kept or due.

use super::*;
use std::alloc::Global;

/// None is kept at first; then endpoints are put in, each kept or not, with its due moment.
static KEPT: [Step<'static>; 8] = [
    FirstKept(None, None),
    Count(0),
    Adds("d", true, 40),
    Adds("b", false, 20),
    Adds("f", true, 20),
    Adds("a", false, 50),
    Adds("c", true, 30),
    Adds("e", false, 10),
];

/// The least above an endpoint or none that is kept, of `c`, `d` and `f`; and the least above one that is due.
static NEXT: [Step<'static>; 18] = [
    FirstKept(None, Some("c")),
    FirstKept(Some(""), Some("c")),
    FirstKept(Some("b"), Some("c")),
    FirstKept(Some("c"), Some("d")),
    FirstKept(Some("cc"), Some("d")),
    FirstKept(Some("d"), Some("f")),
    FirstKept(Some("f"), None),
    FirstKept(Some("z"), None),
    FirstAfter(9, None, None),
    FirstAfter(10, None, Some("e")),
    FirstAfter(10, Some("e"), None),
    FirstAfter(20, None, Some("b")),
    FirstAfter(20, Some("b"), Some("e")),
    FirstAfter(20, Some("e"), Some("f")),
    FirstAfter(20, Some("f"), None),
    FirstAfter(49, Some("b"), Some("c")),
    FirstAfter(50, None, Some("a")),
    Count(3),
];

/// Tries: DueMoments::add, DueMoments::first_kept, DueMoments::first_due_after, DueMoments::kept_count
#[test]
fn the_next_that_is_kept_or_due(rt: HostRuntime) {
    let mut moments = DueMoments::new(rt.alloc());
    take_all(&rt, &mut moments, &KEPT);
    take_all(&rt, &mut moments, &NEXT);
}

/// One is kept that was not, one that was, one that is absent; and one is kept no more, which is there still.
static KEPT_NO_MORE: [Step<'static>; 14] = [
    Keeps("a", true),
    Keeps("c", true),
    Keeps("z", true),
    FirstKept(None, Some("a")),
    Count(4),
    Keeps("c", false),
    Keeps("b", false),
    FirstKept(Some("a"), Some("d")),
    Count(3),
    FirstAfter(30, Some("b"), Some("c")),
    // kept again, and due as it was
    Adds("c", true, u64::MAX),
    FirstKept(Some("a"), Some("c")),
    FirstAfter(30, Some("b"), Some("c")),
    Count(4),
];

/// Tries: DueMoments::keep, DueMoments::add, laws::an_entry_is_kept
#[test]
fn one_is_kept_and_kept_no_more(rt: HostRuntime) {
    let mut moments = DueMoments::new(rt.alloc());
    take_all(&rt, &mut moments, &KEPT);
    take_all(&rt, &mut moments, &KEPT_NO_MORE);
}

/// Whether the number is kept: two in five are at first, and one in three afterwards.
fn is_kept(number: usize, later: bool) -> bool {
    if later {
        number % 3 == 1
    } else {
        number % 5 < 2
    }
}

/// Goes from one that is kept to the next, beside the numbers.
fn walk_all(rt: &impl Abort, alloc: Global, moments: &DueMoments, later: bool) {
    let mut upto = None;
    let mut count = 0usize;
    for number in 0..many::COUNT {
        if is_kept(number, later) {
            let name = many::name_of(alloc, number).expect(rt, "memory");
            let found = moments.first_kept(upto);
            assert!(rt; found == Some(name.as_str()), "at {number}");
            upto = found;
            count = count.saturating_add(1);
        }
    }
    assert!(rt; moments.first_kept(upto).is_none());
    assert_eq!(rt; moments.kept_count(), count);
}

/// Tries: DueMoments::first_kept, DueMoments::keep, DueMoments::kept_count, laws::the_first_is_the_next
#[test]
fn a_thousand_of_which_some_are_kept(rt: HostRuntime) {
    let mut moments = DueMoments::new(rt.alloc());
    for place in 0..many::COUNT {
        let number = place.wrapping_mul(377) % many::COUNT;
        let name = many::name_of(rt.alloc(), number).expect(&rt, "memory");
        let step = Adds(name.as_str(), is_kept(number, false), 7);
        take(&rt, &mut moments, place, &step);
    }
    walk_all(&rt, rt.alloc(), &moments, false);
    for number in 0..many::COUNT {
        let name = many::name_of(rt.alloc(), number).expect(&rt, "memory");
        take(
            &rt,
            &mut moments,
            number,
            &Keeps(name.as_str(), is_kept(number, true)),
        );
    }
    walk_all(&rt, rt.alloc(), &moments, true);
}
