//! Calls of a node and what they give, as values: their copies, and which are the same.

use crate::steps::Step::{self, *};
use crate::steps::{Row, call_of, text_of};
use lw_call::*;
use lw_delta::DeltaFault;
use lw_node::{Node, Text};
use lw_stamp::{NoMemory, Stamp};
use std::alloc::Global;
use std::process::Abort;

/// Calls of each kind, no two of equal content. Those of a kind differ from the first in one part alone.
static CALLS: [Step<'static>; 41] = [
    Line("take 1 0 127.0.0.1:5683 01"),
    Line("take 1 1 127.0.0.1:5683 01"),
    Line("take 1 0 127.0.0.1:5684 01"),
    Line("take 1 0 127.0.0.1:5683 02"),
    Line("take 1 0 127.0.0.1:5683 0101"),
    Line("take 1 0 127.0.0.1:5683 "),
    Merges("01"),
    Merges("02"),
    Merges("0101"),
    Merges(""),
    Line("send 1 0"),
    Line("send 1 1"),
    Line("observe 1 0 0000000000020001 /3/0 - 7"),
    Line("observe 1 1 0000000000020001 /3/0 - 7"),
    Line("observe 1 0 0000000000010001 /3/0 - 7"),
    Line("observe 1 0 0000000000020001 /3/0/9 - 7"),
    Line("observe 1 0 0000000000020001 /3/0 0 7"),
    Line("observe 1 0 0000000000020001 /3/0 - 8"),
    Line("cancel 1 0 0000000000020001 7"),
    Line("cancel 1 1 0000000000020001 7"),
    Line("cancel 1 0 0000000000010001 7"),
    Line("cancel 1 0 0000000000020001 8"),
    Line("sweep 1 0"),
    Line("sweep 1 1"),
    Line("id 1 0 0000000000020001"),
    Line("id 1 1 0000000000020001"),
    Line("id 1 0 0000000000010001"),
    Line("endpoint 1 0 a"),
    Line("endpoint 1 0 b"),
    Line("address 1 0 127.0.0.1:5683"),
    Line("address 1 0 127.0.0.1:5684"),
    Line("token 1 0 0000000000020001"),
    Line("token 1 0 0000000000010001"),
    Line("watch 1 0 0000000000020001"),
    Line("watch 1 0 0000000000020001 /3/0"),
    Line("watch 1 0 0000000000010001"),
    Line("next 1 0"),
    Line("next 1 0 a"),
    Line("expired 1 0"),
    Line("expired 1 0 a"),
    Line("change 1"),
];

fn calls(rt: &impl Abort, alloc: Global) -> Vec<Call> {
    let mut calls = Vec::new(alloc);
    for step in &CALLS {
        let call = call_of(rt, alloc, step).expect(rt, "a call");
        calls.push(call).expect(rt, "memory");
    }
    calls
}

/// A copy of the call is the same as that at its place among the others alone.
fn is_copied(rt: &impl Abort, alloc: Global, call: &Call, place: usize, others: &[Call]) {
    let copy = call.copy(alloc).expect(rt, "memory");
    for (at, other) in others.iter().enumerate() {
        assert!(rt; copy.same(other) == (place == at), "{place} beside {at}");
    }
}

/// Tries: Call::copy, Question::copy, Call::same, Question::same
#[test]
fn a_copy_is_the_same_as_its_call_alone(rt: HostRuntime) {
    let (calls, others) = (calls(&rt, rt.alloc()), calls(&rt, rt.alloc()));
    for (place, call) in calls.iter().enumerate() {
        is_copied(&rt, rt.alloc(), call, place, &others);
    }
}

/// What a node does, and what is given for it: replies of which copies can be made, no two of equal content.
static GIVEN: [Row<'static>; 32] = [
    (Line("send 1 0"), "4c57443300000000000000"),
    (Line("change 1"), "0"),
    (Line("take 1 0 127.0.0.1:5683 "), "taken - -"),
    (
        Line(
            "take 1 0 127.0.0.1:5683 40020004b272644465703d61056c743d3630096c776d326d3d312e3103623d55ff3c2f332f303e",
        ),
        "taken 604100048272640d0330303030303030303030303130303031 -",
    ),
    (Line("change 1"), "1"),
    (
        Line("send 1 0"),
        "4c57443300000000000101016100000000000100017f010000000000010001047f0000011633000000000001000100000000000000000000000100010000003c00000000000100010155000000000001000100000000000001000100063c2f332f303e00000000",
    ),
    (
        Line("endpoint 1 0 a"),
        r#"{"address":"127.0.0.1:5683","attributes":{},"binding":"U","endpoint":"a","id":"0000000000010001","lifetime":60,"lwm2m":"1.1","objects":"</3/0>","queue":false,"seen":0,"sms":null}"#,
    ),
    (Line("endpoint 1 0 b"), "none"),
    (
        Line("observe 1 0 0000000000010001 /3/0 - 32"),
        "sent 0000000000020001 127.0.0.1:5683 4801002000000000000200016051330130",
    ),
    (
        Line("watch 1 0 0000000000010001"),
        r#"{"accept":null,"endpoint":"a","id":"0000000000010001","path":"/3/0","token":"0000000000020001"}"#,
    ),
    (Line("watch 1 0 0000000000010001 /3/0"), "none"),
    (
        Line("observe 1 0 0000000000010001 /3/0 0 32"),
        "sent 0000000000030001 127.0.0.1:5683 480100200000000000030001605133013060",
    ),
    (
        Line("watch 1 0 0000000000010001"),
        r#"{"accept":0,"endpoint":"a","id":"0000000000010001","path":"/3/0","token":"0000000000030001"}"#,
    ),
    (
        Line("take 1 0 127.0.0.1:5683 5845003000000000000300016101ff31"),
        r#"taken - {"code":69,"content_format":null,"ended":false,"endpoint":"a","id":"0000000000010001","observe":1,"path":"/3/0","payload":"31","token":"0000000000030001"}"#,
    ),
    (
        Line("take 1 0 127.0.0.1:5683 4845003100000000000300016101ff31"),
        r#"taken 60000031 {"code":69,"content_format":null,"ended":false,"endpoint":"a","id":"0000000000010001","observe":1,"path":"/3/0","payload":"31","token":"0000000000030001"}"#,
    ),
    (
        Line("take 1 0 127.0.0.1:5683 488400320000000000030001"),
        r#"taken 60000032 {"code":132,"content_format":null,"ended":true,"endpoint":"a","id":"0000000000010001","observe":null,"path":"/3/0","payload":"","token":"0000000000030001"}"#,
    ),
    (
        Line("observe 1 0 0000000000010001 /3/0 - 32"),
        "sent 0000000000050001 127.0.0.1:5683 4801002000000000000500016051330130",
    ),
    (
        Line("cancel 1 0 0000000000050001 33"),
        "sent 0000000000050001 127.0.0.1:5683 480100210000000000050001610151330130",
    ),
    (
        Line("take 1 0 127.0.0.1:5683 40020010b272640d03303030303030303030303031303030314178"),
        "taken 60440010 -",
    ),
    (
        Line("endpoint 1 0 a"),
        r#"{"address":"127.0.0.1:5683","attributes":{"x":""},"binding":"U","endpoint":"a","id":"0000000000010001","lifetime":60,"lwm2m":"1.1","objects":"</3/0>","queue":false,"seen":0,"sms":null}"#,
    ),
    (
        Line("take 1 0 127.0.0.1:5683 40020011b272640d033030303030303030303030313030303143783d31"),
        "taken 60440011 -",
    ),
    (
        Line("endpoint 1 0 a"),
        r#"{"address":"127.0.0.1:5683","attributes":{"x":"1"},"binding":"U","endpoint":"a","id":"0000000000010001","lifetime":60,"lwm2m":"1.1","objects":"</3/0>","queue":false,"seen":0,"sms":null}"#,
    ),
    (Line("expired 1 59999"), "none"),
    (
        Line("expired 1 60000"),
        r#"{"endpoint":"a","id":"0000000000010001"}"#,
    ),
    (
        Line(
            "take 1 0 [fe80:0000:0000:0000:0000:0000:0000:0001]:5683 40020005b272644c65703d6465766963652d3137056c743d3630096c776d326d3d312e3003623d5506736d733d34390151ff3c2f332f303e",
        ),
        "taken 604100058272640d0330303030303030303030303930303031 -",
    ),
    (
        Line("endpoint 1 0 device-17"),
        r#"{"address":"[fe80:0000:0000:0000:0000:0000:0000:0001]:5683","attributes":{},"binding":"U","endpoint":"device-17","id":"0000000000090001","lifetime":60,"lwm2m":"1.0","objects":"</3/0>","queue":true,"seen":0,"sms":"49"}"#,
    ),
    (
        Line("observe 1 0 0000000000090001 /3/0 - 32"),
        "sent 00000000000a0001 [fe80:0000:0000:0000:0000:0000:0000:0001]:5683 4801002000000000000a00016051330130",
    ),
    (
        Line("watch 1 0 0000000000090001"),
        r#"{"accept":null,"endpoint":"device-17","id":"0000000000090001","path":"/3/0","token":"00000000000a0001"}"#,
    ),
    (
        Line("expired 1 60000 a"),
        r#"{"endpoint":"device-17","id":"0000000000090001"}"#,
    ),
    (
        Line(
            "take 1 0 127.0.0.1:5683 40020006b272644465703d61056c743d3631096c776d326d3d312e3103623d55ff3c2f332f303e",
        ),
        "taken 604100068272640d0330303030303030303030306230303031 -",
    ),
    (
        Line("endpoint 1 0 a"),
        r#"{"address":"127.0.0.1:5683","attributes":{},"binding":"U","endpoint":"a","id":"00000000000b0001","lifetime":61,"lwm2m":"1.1","objects":"</3/0>","queue":false,"seen":0,"sms":null}"#,
    ),
    (
        Line("expired 1 61000"),
        r#"{"endpoint":"a","id":"00000000000b0001"}"#,
    ),
];

fn given() -> &'static [Row<'static>] {
    &GIVEN
}

fn reply_to(rt: &impl Abort, alloc: Global, node: &mut Node, step: &Step<'_>) -> Reply {
    let call = call_of(rt, alloc, step).expect(rt, "a call");
    node.act(&call)
}

fn replies(rt: &impl Abort, alloc: Global) -> Vec<Reply> {
    let mut node = Node::new(alloc, 1);
    let mut replies = Vec::new(alloc);
    for (step, _) in given() {
        let reply = reply_to(rt, alloc, &mut node, step);
        replies.push(reply).expect(rt, "memory");
    }
    replies
}

/// The same reply with a copy of what it gives.
fn copy_of(rt: &impl Abort, alloc: Global, reply: &Reply) -> Option<Reply> {
    match reply {
        Reply::Take(Ok(taken)) => Some(Reply::Take(Ok(taken.copy(alloc).expect(rt, "memory")))),
        Reply::Observe(Ok(sent)) => Some(Reply::Observe(Ok(sent.copy(alloc).expect(rt, "memory")))),
        Reply::Cancel(Ok(sent)) => Some(Reply::Cancel(Ok(sent.copy(alloc).expect(rt, "memory")))),
        Reply::Send(Ok(sent)) => Some(Reply::Send(Ok(sent.copy().expect(rt, "memory")))),
        Reply::Ask(Ok(answer)) => Some(Reply::Ask(Ok(answer.copy(alloc).expect(rt, "memory")))),
        _ => None,
    }
}

/// Refusals, and what a merge and a sweep give.
const PLAIN: [Reply; 16] = [
    Reply::Take(Err(NoMemory)),
    Reply::Observe(Err(ObserveFault::NotFound)),
    Reply::Observe(Err(ObserveFault::ClockEnd)),
    Reply::Cancel(Err(ObserveFault::NotFound)),
    Reply::Send(Err(NoMemory)),
    Reply::Merge(Ok(0)),
    Reply::Merge(Ok(1)),
    Reply::Merge(Err(MergeFault::Malformed(DeltaFault::Magic))),
    Reply::Merge(Err(MergeFault::Malformed(DeltaFault::Order))),
    Reply::Merge(Err(MergeFault::NoMemory { joined: 0 })),
    Reply::Merge(Err(MergeFault::NoMemory { joined: 1 })),
    Reply::Ask(Err(NoMemory)),
    Reply::Sweep(Ok(Some(Stamp {
        counter: 1,
        node: 1,
    }))),
    Reply::Sweep(Ok(Some(Stamp {
        counter: 2,
        node: 1,
    }))),
    Reply::Sweep(Ok(None)),
    Reply::Sweep(Err(ClockEnd)),
];

/// The reply is the same as that at its place among the others alone.
fn is_at_alone(rt: &impl Abort, reply: &Reply, place: usize, others: &[Reply]) {
    for (at, other) in others.iter().enumerate() {
        assert!(rt; reply.same(other) == (place == at), "{place} beside {at}");
    }
}

/// Tries: Reply::same, lw_reg::Attributes::same
#[test]
fn replies_differ_where_their_content_does(rt: HostRuntime) {
    let (replies, plain) = (replies(&rt, rt.alloc()), &PLAIN);
    for (place, reply) in replies.iter().enumerate() {
        is_at_alone(&rt, reply, place, &replies);
        is_at_alone(&rt, reply, usize::MAX, plain);
    }
    for (place, reply) in plain.iter().enumerate() {
        is_at_alone(&rt, reply, place, plain);
        is_at_alone(&rt, reply, usize::MAX, &replies);
    }
}

/// A copy of the reply is the same as that at its place among the others alone, and prints the text.
fn is_given(
    rt: &impl Abort,
    alloc: Global,
    reply: &Reply,
    place: usize,
    others: &[Reply],
    want: &str,
) {
    let copy = copy_of(rt, alloc, reply).expect(rt, "a reply that gives something");
    is_at_alone(rt, &copy, place, others);
    let text = text_of(rt, alloc, copy);
    assert_eq!(rt; text.as_str(), want);
}

/// Tries: Taken::copy, Outgoing::copy, Sent::copy, Answer::copy, Reply::same
#[test]
fn copies_of_what_is_given_are_the_same(rt: HostRuntime) {
    let (replies, others) = (replies(&rt, rt.alloc()), replies(&rt, rt.alloc()));
    for ((place, reply), (_, want)) in replies.iter().enumerate().zip(given()) {
        is_given(&rt, rt.alloc(), reply, place, &others, want);
    }
}

/// The greatest stamp.
const LAST: Stamp = Stamp {
    counter: 281_474_976_710_655,
    node: 65_535,
};

/// Whether one part is now another: whether a notice ends, a token, a change number, a lifetime, an accepted format or
/// an endpoint.
fn is_changed(rt: &impl Abort, alloc: Global, reply: &mut Reply) -> bool {
    match reply {
        Reply::Take(
            Ok(
                Taken {
                    notice: Some(notice),
                    ..
                },
            ),
        ) => notice.ended = !notice.ended,
        Reply::Observe(Ok(sent)) => sent.token = LAST,
        Reply::Cancel(Ok(sent)) => sent.token = LAST,
        Reply::Send(Ok(sent)) => sent.change = 7,
        Reply::Ask(Ok(Answer::Registration(Some(seen)))) => seen.lifetime = 7,
        Reply::Ask(Ok(Answer::Watched(Some((_, watch))))) => watch.accept = Some(7),
        Reply::Ask(Ok(Answer::Expired(Some((endpoint, _))))) => {
            *endpoint = Text::copy_of(alloc, "b").expect(rt, "memory");
        }
        _ => return false,
    }
    true
}

/// What the other of the two requests would have given with the same content, or else what no call gave.
fn turned(rt: &impl Abort, alloc: Global, reply: &Reply) -> Reply {
    match reply {
        Reply::Observe(Ok(sent)) => Reply::Cancel(Ok(sent.copy(alloc).expect(rt, "memory"))),
        Reply::Cancel(Ok(sent)) => Reply::Observe(Ok(sent.copy(alloc).expect(rt, "memory"))),
        _ => Reply::Sweep(Ok(Some(LAST))),
    }
}

fn is_none_turned(rt: &impl Abort, alloc: Global, reply: &Reply, others: &[Reply]) {
    let turned = turned(rt, alloc, reply);
    is_at_alone(rt, &turned, usize::MAX, others);
}

/// Tries: Reply::same
#[test]
fn replies_that_differ_in_one_part_are_not_the_same(rt: HostRuntime) {
    let (mut changed, others) = (replies(&rt, rt.alloc()), replies(&rt, rt.alloc()));
    for reply in changed.iter_mut() {
        if is_changed(&rt, rt.alloc(), reply) {
            is_at_alone(&rt, reply, usize::MAX, &others);
        }
    }
    for reply in &others {
        is_none_turned(&rt, rt.alloc(), reply, &others);
    }
}
