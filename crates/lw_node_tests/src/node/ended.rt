//! Registrations that other nodes have told to be over.

use super::deltas::{DELTA, REMOVED};
use super::*;

/// The first Register of `a`, and that what was seen of it up to its stamp is over.
pub(super) const ENDED: &str =
    "4c57443300000000000101016100000000000100017f000000000000010001047f0000011633000000000001000100000000000000000000000100010001518000000000000100010155000000000001000100000000000001000100033c2f3e000100000000000100010000";

/// An Update of it at node 2, of which the end is not known; and both.
const UPDATED: &str =
    "4c57443300000000000201016100000000000100017f000000000000020002047f0000011633000000000002000200000000000000000000000100010001518000000000000100010155000000000001000100000000000001000100033c2f3e00000000";

const REVIVED: &str =
    "4c57443300000000000201016100000000000100017f000000000000020002047f0000011633000000000002000200000000000000000000000100010001518000000000000100010155000000000001000100000000000001000100033c2f3e000100000000000100010000";

/// What is over is neither shown nor expired, until it is seen once more.
const IS_OVER: [Row<'static>; 18] = [
    (Merges(ENDED), "joined 1"),
    (Line("endpoint 1 0 a"), "none"),
    (Line("id 1 0 0000000000010001"), "none"),
    (Line("address 1 0 127.0.0.1:5683"), "none"),
    (Line("next 1 0"), "none"),
    (Line("expired 1 86400000"), "none"),
    (
        Line("take 1 0 127.0.0.1:5683 40020010b272640d0330303030303030303030303130303031"),
        "taken 60840010 -",
    ),
    (Line("observe 1 0 0000000000010001 /3/0 - 32"), "refused 1"),
    (Line("send 1 0"), ENDED),
    // what was known before
    (Merges(DELTA), "joined 1"),
    (Merges(ENDED), "joined 1"),
    (Numbers, "1 1"),
    (Merges(UPDATED), "joined 1"),
    (Line("endpoint 1 0 a"), SHOWN),
    (
        Line("expired 1 86400000"),
        r#"{"endpoint":"a","id":"0000000000010001"}"#,
    ),
    (Line("send 1 0"), REVIVED),
    // once more the end that is known
    (Merges(ENDED), "joined 1"),
    (Numbers, "2 2"),
];

/// It is the end of that registration, and of no later one.
const OTHERS: [Row<'static>; 9] = [
    (Line(REGISTER), CREATED),
    (Merges(ENDED), "joined 1"),
    (Numbers, "1 2"),
    (Line("endpoint 1 0 a"), "none"),
    (
        Line(REGISTER),
        "taken 604100048272640d0330303030303030303030303230303031 -",
    ),
    (
        Line("endpoint 1 0 a"),
        r#"{"address":"127.0.0.1:5683","attributes":{},"binding":"U","endpoint":"a","id":"0000000000020001","lifetime":86400,"lwm2m":"1.0","objects":"</>","queue":false,"seen":0,"sms":null}"#,
    ),
    (Merges(ENDED), "joined 1"),
    (Merges(REMOVED), "joined 1"),
    (Numbers, "2 3"),
];

/// An observation of `/3/0` of the registration, its end, and an Update that is later.
const WATCHED: &str =
    "4c57443300000000000201016100000000000100017f000000000000010001047f0000011633000000000001000100000000000000000000000100010001518000000000000100010155000000000001000100000000000001000100033c2f3e00010000000000010001010200030000000000000002000101000000";

const SEEN_AGAIN: &str =
    "4c57443300000000000301016100000000000100017f000000000000030002047f0000011633000000000003000200000000000000000000000100010001518000000000000100010155000000000001000100000000000001000100033c2f3e00000000";

const WATCH: &str =
    r#"{"accept":null,"endpoint":"a","id":"0000000000010001","path":"/3/0","token":"0000000000020001"}"#;

/// The observations of what is over are kept, and come back with it; a removal wins.
const OBSERVED: [Row<'static>; 15] = [
    (Line(REGISTER), CREATED),
    (
        Line("observe 1 0 0000000000010001 /3/0 - 32"),
        "sent 0000000000020001 127.0.0.1:5683 4801002000000000000200016051330130",
    ),
    (Merges(ENDED), "joined 1"),
    (Line("token 1 0 0000000000020001"), "none"),
    (Line("watch 1 0 0000000000010001"), "none"),
    (Line("cancel 1 0 0000000000020001 32"), "refused 1"),
    (Line("send 1 2"), WATCHED),
    (Numbers, "2 3"),
    (Merges(SEEN_AGAIN), "joined 1"),
    (Line("token 1 0 0000000000020001"), WATCH),
    (Line("watch 1 0 0000000000010001"), WATCH),
    (Merges(REMOVED), "joined 1"),
    (Merges(ENDED), "joined 1"),
    (Line("endpoint 1 0 a"), "none"),
    (Numbers, "3 5"),
];

static RUNS: [Run<'static>; 3] = [
    ("an end that is merged", &IS_OVER),
    ("a later Register", &OTHERS),
    ("observations that come back", &OBSERVED),
];

/// Tries: Node::merge, Node::delta_since, Node::take
#[test]
fn ends_are_merged_and_sent(rt: HostRuntime) {
    play_each(&rt, rt.alloc(), &RUNS);
}
