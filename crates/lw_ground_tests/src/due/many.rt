//! Many endpoints, beside a plain list of their due moments.

use super::*;
use std::alloc::{AllocError, Global};

/// The endpoints are the numbers below it, of three digits each: so they rise as the numbers do.
pub(super) const COUNT: usize = 1_000;

pub(crate) fn name_of(alloc: Global, number: usize) -> Result<String, AllocError> {
    format!(in alloc; "{number:03}")
}

/// A due moment below 100 for each number.
fn due_of(number: usize) -> u64 {
    (number % COUNT * 37 % 100) as u64
}

/// Puts the endpoints in, beginning at 0 and going on by a step. Each is put in twice, later first.
fn put_all(rt: &impl Abort, alloc: Global, moments: &mut DueMoments, step: usize) {
    for place in 0..COUNT {
        let number = place.wrapping_mul(step) % COUNT;
        let name = name_of(alloc, number).expect(rt, "memory");
        for due in [100, due_of(number)] {
            moments.add(name.as_str(), false, due).expect(rt, "memory");
        }
    }
}

/// Lowers each to 60.
fn lower_all(rt: &impl Abort, alloc: Global, moments: &mut DueMoments, dues: &mut [u64]) {
    for (number, due) in dues.iter_mut().enumerate() {
        let name = name_of(alloc, number).expect(rt, "memory");
        moments.lower(name.as_str(), 60);
        *due = (*due).min(60);
    }
}

/// Whether each number of the list that is due is the first. It is then raised.
fn are_first(rt: &impl Abort, alloc: Global, moments: &mut DueMoments, dues: &mut [u64], now: u64) {
    for (number, due) in dues.iter_mut().enumerate() {
        if *due <= now {
            let name = name_of(alloc, number).expect(rt, "memory");
            assert!(rt;
                moments.first(now) == Some(name.as_str()),
                "{number} at {now}"
            );
            *due = now.saturating_add(1).saturating_add(due_of(number));
            moments.raise_first(now, *due);
        }
    }
    assert!(rt; moments.first(now).is_none(), "none at {now}");
}

/// Puts the endpoints in by a step, lowers them, and looks at those that are due from moment to moment.
fn are_as_listed(rt: &impl Abort, alloc: Global, moments: &mut DueMoments, step: usize) {
    put_all(rt, alloc, moments, step);
    let mut dues = [0u64; COUNT];
    for (number, due) in dues.iter_mut().enumerate() {
        *due = due_of(number);
    }
    are_first(rt, alloc, moments, &mut dues, 5);
    lower_all(rt, alloc, moments, &mut dues);
    for now in [5, 59, 60, 61, 150, 151, 1000] {
        are_first(rt, alloc, moments, &mut dues, now);
    }
}

/// They come scattered, and rising.
///
/// Tries: DueMoments::add, DueMoments::lower, DueMoments::raise_first, laws::an_entry_is_put_in
/// Tries: laws::an_entry_is_lowered, laws::the_first_is_raised, laws::the_first_is_the_least
#[test]
fn a_thousand_that_come_scattered(rt: HostRuntime) {
    for step in [377, 1] {
        let mut moments = DueMoments::new(rt.alloc());
        are_as_listed(&rt, rt.alloc(), &mut moments, step);
    }
}
