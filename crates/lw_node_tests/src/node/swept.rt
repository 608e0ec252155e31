//! Sweeps of a node.

use super::*;

/// A Register of `a` for 60 seconds, and the delta of what it leaves.
const REGISTER_FOR_A_MINUTE: &str =
    "take 1 0 127.0.0.1:5683 40020004b272644465703d61056c743d3630ff3c2f3e";

const FOR_A_MINUTE: &str =
    "4c57443300000000000101016100000000000100017f000000000000010001047f0000011633000000000001000100000000000000000000000100010000003c00000000000100010155000000000001000100000000000001000100033c2f3e00000000";

/// The same once it has ended.
const SWEPT: &str =
    "4c57443300000000000201016100000000000100017f000000000000010001047f0000011633000000000001000100000000000000000000000100010000003c00000000000100010155000000000001000100000000000001000100033c2f3e000100000000000100010000";

/// An Update of it, message ID 17.
const UPDATE: &str = "take 1 0 127.0.0.1:5683 40020011b272640d0330303030303030303030303130303031";

/// A registration whose lifetime has passed is ended once, at a stamp of its own; it has then ended at every moment.
const ONE: [Row<'static>; 16] = [
    (Line("sweep 1 0"), "none"),
    (Line(REGISTER_FOR_A_MINUTE), CREATED),
    (Line("send 1 0"), FOR_A_MINUTE),
    (Line("sweep 1 59999"), "none"),
    (Numbers, "1 1"),
    (Line("sweep 1 60000"), "swept 0000000000010001"),
    (Numbers, "2 2"),
    (Line("endpoint 1 0 a"), "none"),
    (Line("expired 1 60000"), "none"),
    (Line("sweep 1 60000"), "none"),
    (Line("sweep 1 281474976710655"), "none"),
    (Line(UPDATE), "taken 60840011 -"),
    (Line("send 1 1"), SWEPT),
    (Numbers, "2 2"),
    (
        Line(REGISTER),
        "taken 604100048272640d0330303030303030303030303330303031 -",
    ),
    (Line("sweep 1 60000"), "none"),
];

/// A Register of `b` for 30 seconds, one of `ab` for 60, and one of `c` without an end.
const B: &str = "take 1 0 127.0.0.1:5683 40020004b272644465703d62056c743d3330ff3c2f3e";

const AB: &str = "take 1 0 127.0.0.1:5683 40020004b272644565703d6162056c743d3630ff3c2f3e";

const C: &str = "take 1 0 127.0.0.1:5683 40020004b272644465703d63046c743d30ff3c2f3e";

/// Each sweep ends the least endpoint that has expired, whenever it did.
const SEVERAL: [Row<'static>; 13] = [
    (
        Line(B),
        "taken 604100048272640d0330303030303030303030303130303031 -",
    ),
    (
        Line(C),
        "taken 604100048272640d0330303030303030303030303230303031 -",
    ),
    (
        Line(AB),
        "taken 604100048272640d0330303030303030303030303330303031 -",
    ),
    (
        Line(REGISTER_FOR_A_MINUTE),
        "taken 604100048272640d0330303030303030303030303430303031 -",
    ),
    (Line("sweep 1 29999"), "none"),
    (Line("sweep 1 60000"), "swept 0000000000040001"),
    (Line("sweep 1 60000"), "swept 0000000000030001"),
    // at an earlier moment
    (Line("sweep 1 29999"), "none"),
    (Line("sweep 1 30000"), "swept 0000000000010001"),
    (Line("sweep 1 281474976710655"), "none"),
    (Line("next 1 0 b"), IS_C),
    (Line("next 1 0"), IS_C),
    (Numbers, "7 7"),
];

const IS_C: &str =
    r#"{"address":"127.0.0.1:5683","attributes":{},"binding":"U","endpoint":"c","id":"0000000000020001","lifetime":0,"lwm2m":"1.0","objects":"</>","queue":false,"seen":0,"sms":null}"#;

/// With the clock at its end nothing is ended, and what has not expired is told before that.
const AT_THE_END: [Row<'static>; 10] = [
    (Line(REGISTER_FOR_A_MINUTE), CREATED),
    (Merges("4c574431ffffffffffff00"), "joined 0"),
    (Line("sweep 1 59999"), "none"),
    (Numbers, "281474976710655 1"),
    (Line("sweep 1 60000"), "refused 1"),
    (Line("sweep 1 60000"), "refused 1"),
    (Numbers, "281474976710655 1"),
    (
        Line("expired 1 60000"),
        r#"{"endpoint":"a","id":"0000000000010001"}"#,
    ),
    (Line("id 1 0 0000000000010001"), SHOWN_FOR_A_MINUTE),
    (Line("sweep 1 59999"), "none"),
];

const SHOWN_FOR_A_MINUTE: &str =
    r#"{"address":"127.0.0.1:5683","attributes":{},"binding":"U","endpoint":"a","id":"0000000000010001","lifetime":60,"lwm2m":"1.0","objects":"</>","queue":false,"seen":0,"sms":null}"#;

/// An end that another node tells of, and what that node then does not end once more.
const TOLD: [Row<'static>; 6] = [
    (Merges(FOR_A_MINUTE), "joined 1"),
    (Merges(SWEPT), "joined 1"),
    (Line("sweep 1 60000"), "none"),
    (Numbers, "2 2"),
    (Line("send 1 0"), SWEPT),
    (Line("expired 1 60000"), "none"),
];

static RUNS: [Run<'static>; 4] = [
    ("a sweep", &ONE),
    ("sweeps", &SEVERAL),
    ("sweeps at the end of the clock", &AT_THE_END),
    ("what another node swept", &TOLD),
];

/// Tries: Node::sweep, Node::merge, lw_reg::Slot::deadline
#[test]
fn sweeps_end_what_has_expired(rt: HostRuntime) {
    play_each(&rt, rt.alloc(), &RUNS);
}
