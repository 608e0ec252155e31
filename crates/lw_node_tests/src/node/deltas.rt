//! Deltas of a node, and deltas from outside.

use super::*;

/// The delta of a node that has taken a Register of `a`: 100 bytes.
pub(super) const DELTA: &str =
    "4c57443300000000000101016100000000000100017f000000000000010001047f0000011633000000000001000100000000000000000000000100010001518000000000000100010155000000000001000100000000000001000100033c2f3e00000000";

/// What has changed since, once it has also taken a Register of `b`: 100 bytes.
const DELTA_OF_B: &str =
    "4c57443300000000000201016200000000000200017f000000000000020001047f0000011633000000000002000100000000000000000000000200010001518000000000000200010155000000000002000100000000000002000100033c2f3e00000000";

/// The reply to that Register.
const CREATED_B: &str = "taken 604100058272640d0330303030303030303030303230303031 -";

/// Deltas that a node sends and merges.
const SENT_AND_MERGED: [Row<'static>; 18] = [
    (Line("send 1 0"), "4c57443300000000000000"),
    (Merges("4c57443300000000000000"), "joined 0"),
    (Numbers, "0 0"),
    (Merges(DELTA), "joined 1"),
    (Line("endpoint 1 0 a"), SHOWN),
    (Line("send 1 0"), DELTA),
    (Numbers, "1 1"),
    // the same again changes nothing
    (Merges(DELTA), "joined 1"),
    (Numbers, "1 1"),
    // what moved since a number
    (Line(REGISTER_B), CREATED_B),
    (Line("send 1 1"), DELTA_OF_B),
    (Line("send 1 2"), "4c57443300000000000200"),
    (
        Line("send 1 18446744073709551615"),
        "4c57443300000000000200",
    ),
    // bytes that are no delta
    (Merges("4c5744"), "malformed 2"),
    (Merges("4c57443000000000000000"), "malformed 1"),
    (Merges("4c5744330000000000000000"), "malformed 7"),
    (Merges("4c57443300000000000002"), "malformed 4"),
    (Numbers, "2 2"),
];

/// Each of two Registers takes the next change number.
const TAKEN_AND_SENT: [Row<'static>; 5] = [
    (Line(REGISTER), CREATED),
    (Line(REGISTER_B), CREATED_B),
    (Numbers, "2 2"),
    (Line("send 1 1"), DELTA_OF_B),
    (Line("send 1 2"), "4c57443300000000000200"),
];

/// The same in formats 1 and 2.
const IN_FORMAT_1: &str =
    "4c57443100000000000101016100000000000100017f000000000000010001047f0000011633000000000001000100000000000000000000000100010001518000000000000100010155000000000001000100000000000001000100033c2f3e0000";

const IN_FORMAT_2: &str =
    "4c57443200000000000101016100000000000100017f000000000000010001047f0000011633000000000001000100000000000000000000000100010001518000000000000100010155000000000001000100000000000001000100033c2f3e000000";

/// The same in format 2 with the attribute `x`, and as that is sent.
const AN_ATTRIBUTE_IN_FORMAT_2: &str =
    "4c57443200000000000101016100000000000100017f000000000000010001047f0000011633000000000001000100000000000000000000000100010001518000000000000100010155000000000001000100000000000001000100033c2f3e01017800000000000100010131000000";

const WITH_AN_ATTRIBUTE: &str =
    "4c57443300000000000101016100000000000100017f000000000000010001047f0000011633000000000001000100000000000000000000000100010001518000000000000100010155000000000001000100000000000001000100033c2f3e0101780000000000010001013100000000";

/// What is merged in formats 1 and 2 is sent in format 3.
const FORMATS: [Row<'static>; 11] = [
    (Merges(IN_FORMAT_1), "joined 1"),
    (Line("endpoint 1 0 a"), SHOWN),
    (Line("send 1 0"), DELTA),
    (Numbers, "1 1"),
    (Merges(IN_FORMAT_2), "joined 1"),
    (Merges(DELTA), "joined 1"),
    (Numbers, "1 1"),
    (Merges(AN_ATTRIBUTE_IN_FORMAT_2), "joined 1"),
    (Line("send 1 1"), WITH_AN_ATTRIBUTE),
    (Merges(WITH_AN_ATTRIBUTE), "joined 1"),
    (Numbers, "1 2"),
];

/// A Register with the attribute `x`, an Update of it by `x` and `y`, and one without attributes.
const ATTRIBUTES: [Row<'static>; 10] = [
    (
        Line("take 1 0 127.0.0.1:5683 40020004b272644465703d6103783d31ff3c2f3e"),
        CREATED,
    ),
    (Line("send 1 0"), WITH_AN_ATTRIBUTE),
    (
        Line("endpoint 1 0 a"),
        r#"{"address":"127.0.0.1:5683","attributes":{"x":"1"},"binding":"U","endpoint":"a","id":"0000000000010001","lifetime":86400,"lwm2m":"1.0","objects":"</>","queue":false,"seen":0,"sms":null}"#,
    ),
    (
        Line(
            "take 1 0 127.0.0.1:5683 40020023b272640d0330303030303030303030303130303031417903783d33",
        ),
        "taken 60440023 -",
    ),
    (
        Line("take 1 0 127.0.0.1:5683 40020024b272640d0330303030303030303030303130303031"),
        "taken 60440024 -",
    ),
    (
        Line("endpoint 1 0 a"),
        r#"{"address":"127.0.0.1:5683","attributes":{"x":"3","y":""},"binding":"U","endpoint":"a","id":"0000000000010001","lifetime":86400,"lwm2m":"1.0","objects":"</>","queue":false,"seen":0,"sms":null}"#,
    ),
    // older writes are not shown
    (Merges(WITH_AN_ATTRIBUTE), "joined 1"),
    (
        Line("next 1 0"),
        r#"{"address":"127.0.0.1:5683","attributes":{"x":"3","y":""},"binding":"U","endpoint":"a","id":"0000000000010001","lifetime":86400,"lwm2m":"1.0","objects":"</>","queue":false,"seen":0,"sms":null}"#,
    ),
    (
        Line(REGISTER),
        "taken 604100048272640d0330303030303030303030303430303031 -",
    ),
    (
        Line("endpoint 1 0 a"),
        r#"{"address":"127.0.0.1:5683","attributes":{},"binding":"U","endpoint":"a","id":"0000000000040001","lifetime":86400,"lwm2m":"1.0","objects":"</>","queue":false,"seen":0,"sms":null}"#,
    ),
];

/// The delta of a node that knows only that this registration was removed.
pub(super) const REMOVED: &str = "4c57443300000000000101016100000000000100018000000000";

/// A fuller spelling of a removal, and writes to what was removed.
const FULLER: [Row<'static>; 5] = [
    (
        Merges(
            "4c5744330000000000010101610000000000010001ff000000000000010001047f0000011633000000000001000100000000000000000000000100010001518000000000000100010155000000000001000100000000000001000100033c2f3e00000000",
        ),
        "joined 1",
    ),
    (Line("send 1 0"), REMOVED),
    (Merges(DELTA), "joined 1"),
    (Numbers, "1 1"),
    (Line("endpoint 1 0 a"), "none"),
];

/// A clock one before its end.
const AT_THE_END: [Row<'static>; 10] = [
    (Merges("4c574431fffffffffffe00"), "joined 0"),
    (
        Line(REGISTER),
        "taken 604100048272640d0366666666666666666666666630303031 -",
    ),
    (
        Line("endpoint 1 0 a"),
        r#"{"address":"127.0.0.1:5683","attributes":{},"binding":"U","endpoint":"a","id":"ffffffffffff0001","lifetime":86400,"lwm2m":"1.0","objects":"</>","queue":false,"seen":0,"sms":null}"#,
    ),
    (Line(REGISTER_B), "taken 60a30005 -"),
    (
        Line("take 1 0 127.0.0.1:5683 50020005b272644465703d62ff3c2f3e"),
        "taken 50a30005 -",
    ),
    (Line("observe 1 0 ffffffffffff0001 /3/0 - 32"), "refused 2"),
    (Line("sweep 1 86399999"), "none"),
    (Line("sweep 1 86400000"), "refused 1"),
    (
        Line("endpoint 1 0 a"),
        r#"{"address":"127.0.0.1:5683","attributes":{},"binding":"U","endpoint":"a","id":"ffffffffffff0001","lifetime":86400,"lwm2m":"1.0","objects":"</>","queue":false,"seen":0,"sms":null}"#,
    ),
    (Numbers, "281474976710655 1"),
];

/// A clock two before its end: a Register, an observation, and the end of both is not to be had.
const REPORT_AT_THE_END: [Row<'static>; 7] = [
    (Merges("4c574431fffffffffffd00"), "joined 0"),
    (
        Line(REGISTER),
        "taken 604100048272640d0366666666666666666666666530303031 -",
    ),
    (
        Line("observe 1 0 fffffffffffe0001 /3/0 - 32"),
        "sent ffffffffffff0001 127.0.0.1:5683 48010020ffffffffffff00016051330130",
    ),
    (
        Line("take 1 0 127.0.0.1:5683 48840032ffffffffffff0001"),
        "taken 70000032 -",
    ),
    (
        Line("watch 1 0 fffffffffffe0001"),
        r#"{"accept":null,"endpoint":"a","id":"fffffffffffe0001","path":"/3/0","token":"ffffffffffff0001"}"#,
    ),
    (Numbers, "281474976710655 2"),
    // an identifier that nobody has is refused before the clock is asked
    (
        Line("take 1 0 127.0.0.1:5683 40020010b272640d0330303030303030303030303130303031"),
        "taken 60840010 -",
    ),
];

/// Two registrations, each with two observations, of which one is cancelled.
pub(super) const TWO: &str =
    "4c57443300000000000601016100000000000100017f000000000000010001047f000001163300000000000100010000\
0000000000000000000100010001518000000000000100010155000000000001000100000000000001000100033c2f3e\
00000102000300000000000000030001010001020003000100000000000400010101006e000101620000000000020001\
7f000000000000020001047f000001163400000000000200010000000000000000000000020001000151800000000000\
0200010155000000000002000100000000000002000100033c2f3e000001020003000000000000000500010201020004\
000000000000000600010101003c0000";

/// The first of them alone, and the second.
pub(super) const FIRST: &str =
    "4c57443300000000000601016100000000000100017f000000000000010001047f000001163300000000000100010000\
0000000000000000000100010001518000000000000100010155000000000001000100000000000001000100033c2f3e\
00000102000300000000000000030001010001020003000100000000000400010101006e0000";

pub(super) const SECOND: &str =
    "4c57443300000000000601016200000000000200017f000000000000020001047f000001163400000000000200010000\
0000000000000000000200010001518000000000000200010155000000000002000100000000000002000100033c2f3e\
000001020003000000000000000500010201020004000000000000000600010101003c0000";

const MERGED: [Row<'static>; 13] = [
    (Merges(TWO), "joined 2"),
    (Numbers, "6 2"),
    (Line("endpoint 1 0 a"), SHOWN),
    (
        Line("endpoint 1 0 b"),
        r#"{"address":"127.0.0.1:5684","attributes":{},"binding":"U","endpoint":"b","id":"0000000000020001","lifetime":86400,"lwm2m":"1.0","objects":"</>","queue":false,"seen":0,"sms":null}"#,
    ),
    (
        Line("token 1 0 0000000000030001"),
        r#"{"accept":null,"endpoint":"a","id":"0000000000010001","path":"/3/0","token":"0000000000030001"}"#,
    ),
    (
        Line("watch 1 0 0000000000010001 /3/0"),
        r#"{"accept":110,"endpoint":"a","id":"0000000000010001","path":"/3/1","token":"0000000000040001"}"#,
    ),
    (Line("token 1 0 0000000000050001"), "none"),
    (
        Line("token 1 0 0000000000060001"),
        r#"{"accept":60,"endpoint":"b","id":"0000000000020001","path":"/4/0","token":"0000000000060001"}"#,
    ),
    // the same again changes nothing
    (Merges(TWO), "joined 2"),
    (Numbers, "6 2"),
    (Line("send 1 0"), TWO),
    (Line("send 1 1"), SECOND),
    (Line("send 1 2"), "4c57443300000000000600"),
];

/// A registration whose endpoint has 252 bytes.
pub(super) const LONGEST_NAME: &str =
    "4c57443300000000000101fc6e6e6e6e6e6e6e6e6e6e6e6e6e6e6e6e6e6e6e6e6e6e6e6e6e6e6e6e6e6e6e6e6e6e6e6e\
6e6e6e6e6e6e6e6e6e6e6e6e6e6e6e6e6e6e6e6e6e6e6e6e6e6e6e6e6e6e6e6e6e6e6e6e6e6e6e6e6e6e6e6e6e6e6e6e\
6e6e6e6e6e6e6e6e6e6e6e6e6e6e6e6e6e6e6e6e6e6e6e6e6e6e6e6e6e6e6e6e6e6e6e6e6e6e6e6e6e6e6e6e6e6e6e6e\
6e6e6e6e6e6e6e6e6e6e6e6e6e6e6e6e6e6e6e6e6e6e6e6e6e6e6e6e6e6e6e6e6e6e6e6e6e6e6e6e6e6e6e6e6e6e6e6e\
6e6e6e6e6e6e6e6e6e6e6e6e6e6e6e6e6e6e6e6e6e6e6e6e6e6e6e6e6e6e6e6e6e6e6e6e6e6e6e6e6e6e6e6e6e6e6e6e\
6e6e6e6e6e6e6e6e6e6e6e6e6e6e6e6e6e6e6e6e6e6e6e6e00000000000100017f000000000000010001047f00000116\
330000000000010001000000000000000000000001000100015180000000000001000101550000000000010001000000\
00000001000100033c2f3e00000000";

const LONGEST: [Row<'static>; 4] = [
    (Merges(LONGEST_NAME), "joined 1"),
    (Numbers, "1 1"),
    (Line("send 1 0"), LONGEST_NAME),
    (Line("send 1 1"), "4c57443300000000000100"),
];

static SENT: [Run<'static>; 3] = [
    ("a delta that is sent and merged", &SENT_AND_MERGED),
    ("what was taken since a number", &TAKEN_AND_SENT),
    ("deltas of formats 1 and 2", &FORMATS),
];

/// Tries: Node::new, Node::take, Node::change, Node::delta_since, Node::merge
#[test]
fn deltas_are_sent_and_merged(rt: HostRuntime) {
    play_each(&rt, rt.alloc(), &SENT);
}

static SLOTS: [Run<'static>; 4] = [
    ("attributes", &ATTRIBUTES),
    ("a fuller spelling of a removal", &FULLER),
    ("slots with observations", &MERGED),
    ("the longest name", &LONGEST),
];

/// Tries: Node::take, Node::delta_since, Node::merge, Node::by_endpoint
#[test]
fn slots_are_merged_and_sent(rt: HostRuntime) {
    play_each(&rt, rt.alloc(), &SLOTS);
}

static ENDS: [Run<'static>; 2] = [
    ("the end of the clock", &AT_THE_END),
    ("a report at the end of the clock", &REPORT_AT_THE_END),
];

/// Tries: Node::take, Node::observe, Node::sweep, Node::clock
#[test]
fn the_clock_has_an_end(rt: HostRuntime) {
    play_each(&rt, rt.alloc(), &ENDS);
}
