//! Each way to look up a registration and its watches, of which there are a hundred.

use super::*;
use lw_reg::{Path, Watch};
use lw_stamp::{Moment, Stamp};

/// Whether it is the watch with this number of a path and token, of the endpoint `a`.
fn is_watch(found: Option<(View<'_>, Watch)>, number: u16, token: Stamp) -> bool {
    match found {
        None => false,
        Some((view, watch)) => {
            view.endpoint == "a"
                && watch.path.numbers() == [number].as_slice()
                && watch.token == token
        }
    }
}

/// Whether the watch of the path is found by its token, and behind the one before.
fn is_found(table: &Table, number: u16) -> bool {
    let now = Moment::START;
    let token = Above(number.saturating_add(200)).stamp();
    let before = Path::new(&[number.saturating_sub(1)]);
    is_watch(table.by_token(now, token), number, token)
        && is_watch(
            table.watch_after(now, First.stamp(), before.as_ref()),
            number,
            token,
        )
}

/// A registration at host A for a minute.
static REGISTERED: [Step; 1] = [Joins(("a", (First, First, Register(HOST_A, 0, 60))))];

/// What is found of it and of a hundred watches.
static FOUND: [Step; 7] = [
    Counts(101),
    Shows(59_999, Named("a"), Some(("a", First))),
    Shows(59_999, Known(First), Some(("a", First))),
    Shows(59_999, Host(HOST_A), Some(("a", First))),
    Shows(59_999, Behind(Some("")), Some(("a", First))),
    Shows(60_000, Named("a"), None),
    Expired(60_000, Some(("a", First))),
];

/// Tries: Table::by_endpoint, Table::by_id, Table::by_address, Table::by_token, Table::watch_after
/// Tries: Table::first_after, Table::expired_after, Table::change
#[test]
fn a_registration_and_a_hundred_watches_are_looked_up(rt: HostRuntime) {
    let mut table = played(&rt, rt.alloc(), "a registration", &REGISTERED);
    // the paths 1 to 100, in no order
    for place in 0..100u16 {
        let number = 1 + (place * 37) % 100;
        let change = (Above(200 + number), First, Observe(&[number], None));
        join(&rt, rt.alloc(), &mut table, ("a", change));
    }
    play(&rt, rt.alloc(), &mut table, "found", &FOUND).expect(&rt, "memory");
    for number in 1..101u16 {
        assert!(rt; is_found(&table, number), "watch {number}");
    }
}
