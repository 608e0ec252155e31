//! Nodes that are copied, and nodes that are compared.

use super::deltas::{DELTA, FIRST, LONGEST_NAME, SECOND, TWO};
use super::*;
use crate::steps::call_of_line;

/// Whether each says that it is the same as the other, or that it is not.
pub(super) fn agree(one: &Node, other: &Node, are_same: bool) -> bool {
    one.same(other) == are_same && other.same(one) == are_same
}

/// Two registrations with observations, of which one is cancelled; one that is removed; and an end of the first.
const BEFORE: [Row<'static>; 5] = [
    (Merges(TWO), "joined 2"),
    (
        Line("take 1 0 127.0.0.1:5683 40020004b272644465703d63046c743d30ff3c2f3e"),
        "taken 604100048272640d0330303030303030303030303730303031 -",
    ),
    (
        Line("take 1 0 127.0.0.1:5683 40040012b272640d0330303030303030303030303730303031"),
        "taken 60420012 -",
    ),
    (Line("sweep 1 86400000"), "swept 0000000000010001"),
    (Numbers, "9 5"),
];

/// What is sent of all that: since 0, since 2 and since 4.
const ALL: &str =
    "4c57443300000000000901016100000000000100017f000000000000010001047f000001163300000000000100010000\
0000000000000000000100010001518000000000000100010155000000000001000100000000000001000100033c2f3e\
000100000000000100010102000300000000000000030001010001020003000100000000000400010101006e00010162\
00000000000200017f000000000000020001047f00000116340000000000020001000000000000000000000002000100\
01518000000000000200010155000000000002000100000000000002000100033c2f3e00000102000300000000000000\
0500010201020004000000000000000600010101003c0001016300000000000700018000000000";

const SINCE_2: &str =
    "4c57443300000000000901016100000000000100017f000000000000010001047f000001163300000000000100010000\
0000000000000000000100010001518000000000000100010155000000000001000100000000000001000100033c2f3e\
000100000000000100010102000300000000000000030001010001020003000100000000000400010101006e00010163\
00000000000700018000000000";

const SINCE_4: &str =
    "4c57443300000000000901016100000000000100017f000000000000010001047f000001163300000000000100010000\
0000000000000000000100010001518000000000000100010155000000000001000100000000000001000100033c2f3e\
000100000000000100010102000300000000000000030001010001020003000100000000000400010101006e0000";

const IS_B: &str =
    r#"{"address":"127.0.0.1:5684","attributes":{},"binding":"U","endpoint":"b","id":"0000000000020001","lifetime":86400,"lwm2m":"1.0","objects":"</>","queue":false,"seen":0,"sms":null}"#;

const WATCH_OF_B: &str =
    r#"{"accept":60,"endpoint":"b","id":"0000000000020001","path":"/4/0","token":"0000000000060001"}"#;

static ANSWERS: [Row<'static>; 18] = [
    (Line("endpoint 1 0 a"), "none"),
    (Line("endpoint 1 0 b"), IS_B),
    (Line("endpoint 1 0 c"), "none"),
    (Line("id 1 0 0000000000010001"), "none"),
    (Line("id 1 0 0000000000020001"), IS_B),
    (Line("address 1 0 127.0.0.1:5683"), "none"),
    (Line("address 1 0 127.0.0.1:5684"), IS_B),
    (Line("token 1 0 0000000000030001"), "none"),
    (Line("token 1 0 0000000000060001"), WATCH_OF_B),
    (Line("watch 1 0 0000000000020001 /3/0"), WATCH_OF_B),
    (Line("next 1 0"), IS_B),
    (Line("next 1 0 b"), "none"),
    (
        Line("expired 1 86400000"),
        r#"{"endpoint":"b","id":"0000000000020001"}"#,
    ),
    (Line("send 1 0"), ALL),
    (Line("send 1 2"), SINCE_2),
    (Line("send 1 4"), SINCE_4),
    (Line("send 1 5"), "4c57443300000000000900"),
    (Numbers, "9 5"),
];

/// What is sent once `a` has registered again.
const AGAIN: &str =
    "4c57443300000000000a01016100000000000a00017f0000000000000a0001047f000001163300000000000a00010000\
0000000000000000000a00010001518000000000000a0001015500000000000a00010000000000000a000100033c2f3e\
00000000";

static NEXT: [Row<'static>; 6] = [
    (
        Line(REGISTER),
        "taken 604100048272640d0330303030303030303030306130303031 -",
    ),
    (Numbers, "10 6"),
    (Line("send 1 5"), AGAIN),
    (
        Line("endpoint 1 0 a"),
        r#"{"address":"127.0.0.1:5683","attributes":{},"binding":"U","endpoint":"a","id":"00000000000a0001","lifetime":86400,"lwm2m":"1.0","objects":"</>","queue":false,"seen":0,"sms":null}"#,
    ),
    (
        Line("observe 1 0 00000000000a0001 /3/0 - 32"),
        "sent 00000000000b0001 127.0.0.1:5683 4801002000000000000b00016051330130",
    ),
    (Line("sweep 1 86400000"), "swept 00000000000a0001"),
];

fn look_ups(name: &'static str) -> Run<'static> {
    (name, &ANSWERS)
}

fn what_comes_next(name: &'static str) -> Run<'static> {
    (name, &NEXT)
}

/// Both answer alike, and take what comes next alike.
fn answer_alike(rt: &impl Abort, alloc: Global, node: &mut Node, copy: &mut Node) {
    assert!(rt; agree(node, copy, true), "before the look-ups");
    play(rt, alloc, copy, look_ups("look-ups of the copy"));
    play(rt, alloc, node, look_ups("look-ups"));
    assert!(rt; agree(node, copy, true), "after the look-ups");
    play(
        rt,
        alloc,
        copy,
        what_comes_next("what comes next to the copy"),
    );
    play(rt, alloc, node, look_ups("look-ups again"));
    play(rt, alloc, node, what_comes_next("what comes next"));
    assert!(rt; agree(node, copy, true), "after what comes next");
}

/// Tries: Node::copy
#[test]
fn a_copy_is_the_same_and_answers_alike(rt: HostRuntime) {
    let mut node = Node::new(rt.alloc(), 1);
    play(&rt, rt.alloc(), &mut node, ("before", &BEFORE));
    let mut copy = node.copy().expect(&rt, "memory");
    answer_alike(&rt, rt.alloc(), &mut node, &mut copy);
}

/// What is sent since the number is the same of both.
fn send_alike(rt: &impl Abort, one: &Node, other: &Node, since: u64) {
    let sent = one.delta_since(since).expect(rt, "memory");
    let others = other.delta_since(since).expect(rt, "memory");
    assert!(rt; sent.as_slice() == others.as_slice(), "sent since {since}");
}

/// The other is the same, and sends the same since each of some numbers.
fn is_copy(rt: &impl Abort, node: &Node, other: &Node) {
    assert!(rt; agree(node, other, true), "whether they are the same");
    for since in [0, 1, 2, 150, 250, u64::MAX] {
        send_alike(rt, node, other, since);
    }
}

/// A copy of the node is the same, and so is a copy of that.
fn is_copied(rt: &impl Abort, node: &Node) {
    let copy = node.copy().expect(rt, "memory");
    is_copy(rt, node, &copy);
    let again = copy.copy().expect(rt, "memory");
    is_copy(rt, node, &again);
}

/// What a node takes before it is copied: nothing, the longest name, and a clock at its end.
static BOUNDS: [Run<'static>; 3] = [
    ("nothing", &[]),
    ("the longest name", &[(Merges(LONGEST_NAME), "joined 1")]),
    (
        "a clock at its end",
        &[(Merges("4c574433ffffffffffff00"), "joined 0")],
    ),
];

/// A Register of an endpoint of three digits.
fn register(rt: &impl Abort, alloc: Global, node: &mut Node, number: u16) {
    let name = format!(in alloc; "{number:03}").expect(rt, "memory");
    let name = hex::encode(alloc, name.as_bytes()).expect(rt, "memory");
    let line = format!(in alloc; "take 1 0 127.0.0.1:5683 40020004b272644665703d{name}ff3c2f3e");
    let call = call_of_line(rt, alloc, line.expect(rt, "memory").as_str());
    let text = text_of(rt, alloc, node.act(&call));
    assert!(rt; text.as_str().starts_with("taken 6041"), "{text}");
}

/// Two hundred endpoints register in falling order, and each third of them once more.
fn register_many(rt: &impl Abort, alloc: Global, node: &mut Node) {
    for number in 0..200u16 {
        register(rt, alloc, node, 999u16.saturating_sub(number));
    }
    for number in 0..66u16 {
        let third = 3u16.saturating_mul(number);
        register(rt, alloc, node, third.saturating_add(800));
    }
    assert_eq!(rt; node.change(), 266);
}

/// Tries: Node::copy, Node::same
#[test]
fn nodes_with_nothing_and_with_much_are_copied(rt: HostRuntime) {
    for run in &BOUNDS {
        let mut node = Node::new(rt.alloc(), 65_535);
        play(&rt, rt.alloc(), &mut node, *run);
        is_copied(&rt, &node);
    }
    let mut node = Node::new(rt.alloc(), 1);
    register_many(&rt, rt.alloc(), &mut node);
    is_copied(&rt, &node);
}

/// A registration with an observation.
const REGISTERED: [Row<'static>; 2] = [
    (Line(REGISTER), CREATED),
    (
        Line("observe 1 0 0000000000010001 /3/0 - 32"),
        "sent 0000000000020001 127.0.0.1:5683 4801002000000000000200016051330130",
    ),
];

/// A request, and whether a node is then another.
type Request = (&'static [Row<'static>], bool);

static REQUESTS: [Request; 14] = [
    (
        &[(
            Line("take 1 0 127.0.0.1:5683 40020010b272640d0330303030303030303030303130303031"),
            "taken 60440010 -",
        )],
        true,
    ),
    (
        &[(
            Line(REGISTER),
            "taken 604100048272640d0330303030303030303030303330303031 -",
        )],
        true,
    ),
    (
        &[(
            Line(REGISTER_B),
            "taken 604100058272640d0330303030303030303030303330303031 -",
        )],
        true,
    ),
    (
        &[(
            Line("take 1 0 127.0.0.1:5683 40040012b272640d0330303030303030303030303130303031"),
            "taken 60420012 -",
        )],
        true,
    ),
    (
        &[(
            Line("observe 1 0 0000000000010001 /3/0 - 32"),
            "sent 0000000000030001 127.0.0.1:5683 4801002000000000000300016051330130",
        )],
        true,
    ),
    (
        &[(
            Line("cancel 1 0 0000000000020001 32"),
            "sent 0000000000020001 127.0.0.1:5683 480100200000000000020001610151330130",
        )],
        true,
    ),
    (
        &[(Line("sweep 1 86400000"), "swept 0000000000010001")],
        true,
    ),
    (&[(Merges(SECOND), "joined 1")], true),
    // the clock alone
    (&[(Merges("4c57443300000000000300"), "joined 0")], true),
    (&[(Merges("4c57443300000000000200"), "joined 0")], false),
    (&[(Merges(DELTA), "joined 1")], false),
    (&[(Line("endpoint 1 0 a"), SHOWN)], false),
    (&[(Line("sweep 1 86399999"), "none")], false),
    (
        &[(Line("cancel 1 0 0000000000050001 32"), "refused 1")],
        false,
    ),
];

/// A copy that has had the request is another node or not, and is the same once both have had it.
fn differs(
    rt: &impl Abort,
    alloc: Global,
    node: &mut Node,
    copy: &mut Node,
    (request, changes): Request,
) {
    play(rt, alloc, copy, ("a request of the copy", request));
    assert!(rt; agree(node, copy, !changes), "whether it is another");
    play(rt, alloc, node, ("a request", request));
    assert!(rt; agree(node, copy, true), "the same once more");
}

fn copy_differs(rt: &impl Abort, alloc: Global, request: Request) {
    let mut node = Node::new(alloc, 1);
    play(rt, alloc, &mut node, ("before a request", &REGISTERED));
    let mut copy = node.copy().expect(rt, "memory");
    differs(rt, alloc, &mut node, &mut copy, request);
}

/// Tries: Node::same
#[test]
fn a_copy_is_no_longer_the_same_after_a_request(rt: HostRuntime) {
    for request in &REQUESTS {
        copy_differs(&rt, rt.alloc(), *request);
    }
}

/// The slots of both at once, one after another, the other way round, and that of `a` in two steps.
const AT_ONCE: [Row<'static>; 1] = [(Merges(TWO), "joined 2")];

const IN_TURN: [Row<'static>; 2] = [(Merges(FIRST), "joined 1"), (Merges(SECOND), "joined 1")];

const THE_OTHER_WAY: [Row<'static>; 2] = [
    (Merges(SECOND), "joined 1"),
    (Merges(FIRST), "joined 1"),
];

const IN_STEPS: [Row<'static>; 2] = [(Merges(DELTA), "joined 1"), (Merges(TWO), "joined 2")];

/// A node of a number, and what it has had.
type Had = (u16, &'static [Row<'static>]);

/// Two nodes, and whether they are the same. They send the same in any case.
static COMPARED: [(Had, Had, bool); 9] = [
    ((1, &[]), (1, &[]), true),
    ((1, &[]), (2, &[]), false),
    ((0, &[]), (65_535, &[]), false),
    ((1, &AT_ONCE), (1, &AT_ONCE), true),
    ((1, &AT_ONCE), (2, &AT_ONCE), false),
    ((0, &AT_ONCE), (65_535, &AT_ONCE), false),
    // change numbers
    ((1, &AT_ONCE), (1, &IN_TURN), true),
    ((1, &AT_ONCE), (1, &THE_OTHER_WAY), false),
    ((1, &AT_ONCE), (1, &IN_STEPS), false),
];

fn node_that_had(rt: &impl Abort, alloc: Global, (number, rows): Had) -> Node {
    let mut node = Node::new(alloc, number);
    play(rt, alloc, &mut node, ("before a comparison", rows));
    node
}

/// Tries: Node::same
#[test]
fn nodes_of_other_numbers_and_change_numbers_are_not_the_same(rt: HostRuntime) {
    for (one, other, are_same) in &COMPARED {
        let (one, other) = (
            node_that_had(&rt, rt.alloc(), *one),
            node_that_had(&rt, rt.alloc(), *other),
        );
        assert!(rt; agree(&one, &other, *are_same), "whether they are the same");
        send_alike(&rt, &one, &other, 0);
    }
}
