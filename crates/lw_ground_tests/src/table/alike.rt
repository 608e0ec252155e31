//! Endpoints whose last bytes are the same.

use super::*;

const MAC: &str = "urn:dev:mac:0123456789ab";

const EUI: &str = "urn:dev:eui:0123456789ab";

/// Four whose last eight bytes are the same, and one of seven bytes beside one with a zero before them. One is removed,
/// one registers again, and one moves.
pub(super) const ALIKE: [Step; 9] = [
    Joins((MAC, (First, First, Register(HOST_A, 0, 60)))),
    Joins(("456789ab", (Second, Second, Register(HOST_A, 0, 60)))),
    Joins((EUI, (Third, Third, Register(HOST_A, 0, 60)))),
    Joins(("9456789ab", (Fourth, Fourth, Register(HOST_A, 0, 60)))),
    Joins(("56789ab", (Fifth, Fifth, Register(HOST_A, 0, 60)))),
    Joins(("\056789ab", (Above(10), Above(10), Register(HOST_A, 0, 60)))),
    Joins((MAC, (Above(11), First, Remove))),
    Joins(("456789ab", (Above(12), Above(12), Register(HOST_B, 0, 60)))),
    Joins((EUI, (Above(13), Third, Update(HOST_B, 0, None, None)))),
];

/// The same, the last one first.
const ALIKE_BACK: [Step; 9] = [
    Joins((EUI, (Above(13), Third, Update(HOST_B, 0, None, None)))),
    Joins(("456789ab", (Above(12), Above(12), Register(HOST_B, 0, 60)))),
    Joins((MAC, (Above(11), First, Remove))),
    Joins(("\056789ab", (Above(10), Above(10), Register(HOST_A, 0, 60)))),
    Joins(("56789ab", (Fifth, Fifth, Register(HOST_A, 0, 60)))),
    Joins(("9456789ab", (Fourth, Fourth, Register(HOST_A, 0, 60)))),
    Joins((EUI, (Third, Third, Register(HOST_A, 0, 60)))),
    Joins(("456789ab", (Second, Second, Register(HOST_A, 0, 60)))),
    Joins((MAC, (First, First, Register(HOST_A, 0, 60)))),
];

/// Rising by their bytes, in whatever order they came.
pub(super) const ALL: &str =
    "\056789ab+11 456789ab+13 56789ab+5 9456789ab+4 urn:dev:eui:0123456789ab+3 urn:dev:mac:0123456789ab-1 ";

/// The registration that each shows, and all that has moved. The last is not known.
const SHOWN: [Step; 8] = [
    Shows(0, Named(MAC), None),
    Shows(0, Named("456789ab"), Some(("456789ab", Above(12)))),
    Shows(0, Named(EUI), Some((EUI, Third))),
    Shows(0, Named("9456789ab"), Some(("9456789ab", Fourth))),
    Shows(0, Named("56789ab"), Some(("56789ab", Fifth))),
    Shows(0, Named("\056789ab"), Some(("\056789ab", Above(10)))),
    Shows(0, Named("3456789ab"), None),
    Tells(0, ALL),
];

/// What has moved of those that came in the first order.
const MOVED: [Step; 2] = [
    Tells(
        6,
        "456789ab+13 urn:dev:eui:0123456789ab+3 urn:dev:mac:0123456789ab-1 ",
    ),
    Tells(8, "urn:dev:eui:0123456789ab+3 "),
];

static SCENES: [Scene; 3] = [
    ("in one order", &ALIKE, &SHOWN),
    ("what has moved", &ALIKE, &MOVED),
    ("in the other order", &ALIKE_BACK, &SHOWN),
];

/// Tries: Table::join, Table::by_endpoint
#[test]
fn endpoints_that_end_alike_are_told_apart_in_any_order(rt: HostRuntime) {
    play_all(&rt, rt.alloc(), &SCENES);
}
