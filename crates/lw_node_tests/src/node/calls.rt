//! Calls as values, made once and twice.

use super::*;

/// Calls of each kind, some of which are refused. That of `bb` is a Register in queue mode, for 30 seconds, from an
/// address of IPv6, and an Update of it; neither is confirmable.
static CALLS: [Step<'static>; 36] = [
    Line("take 1 0 127.0.0.1:5683 40020004b272644465703d61ff3c2f3e"),
    Line("take 1 0 127.0.0.1:5684 40020004b272644465703d61ff3c2f3e"),
    Line("take 1 0 127.0.0.1:5684 40020005b272644465703d62ff3c2f3e"),
    Line("observe 1 0 0000000000020001 /3/0 - 7"),
    Line("observe 1 0 0000000000020001 /3/0/9 - 7"),
    Line("observe 1 0 0000000000020001 /3/0 0 8"),
    Line("observe 1 0 0000000000010001 /3/0 - 7"),
    Line("cancel 1 0 0000000000020001 7"),
    Line("cancel 1 0 0000000000050001 7"),
    Line("cancel 1 1 0000000000050001 7"),
    Line("send 1 0"),
    Line("send 1 1"),
    Merges("4c57443300000000000000"),
    Merges(""),
    Line(
        "take 1 0 [fe80:0000:0000:0000:0000:0000:0000:0001]:5683 50020006b272644565703d6262056c743d33300151ff3c2f3e",
    ),
    Line("observe 1 0 0000000000080001 /3/0 - 7"),
    Line(
        "take 1 0 [fe80:0000:0000:0000:0000:0000:0000:0001]:5683 50020007b272640d0330303030303030303030303830303031",
    ),
    Line("id 1 0 0000000000020001"),
    Line("id 1 0 0000000000030001"),
    Line("endpoint 1 0 a"),
    Line("endpoint 1 0 b"),
    Line("address 1 0 127.0.0.1:5683"),
    Line("address 1 0 127.0.0.1:5684"),
    Line("token 1 0 0000000000020001"),
    Line("token 1 0 0000000000030001"),
    Line("watch 1 0 0000000000020001"),
    Line("watch 1 0 0000000000020001 /3/0"),
    Line("next 1 0"),
    Line("next 1 0 a"),
    Line("expired 1 0"),
    Line("expired 1 0 a"),
    Line("address 1 0 [fe80:0000:0000:0000:0000:0000:0000:0001]:5683"),
    Line("token 1 0 0000000000090001"),
    Line("change 1"),
    // at the end of the registration of `bb`
    Line("expired 1 30000 b"),
    Line("expired 1 30000"),
];

/// Sweeps before and at the end of the registration of `bb`.
static SWEEPS: [Step<'static>; 3] = [
    Line("sweep 1 29999"),
    Line("sweep 1 30000"),
    Line("sweep 1 30000"),
];

/// Two Registers of `a`, one of `b` and one of `bb`, four observations, one of which replaces another, and the end of
/// one.
static AFTER_CALLS: [Row<'static>; 6] = [
    (
        Line("endpoint 1 0 a"),
        r#"{"address":"127.0.0.1:5684","attributes":{},"binding":"U","endpoint":"a","id":"0000000000020001","lifetime":86400,"lwm2m":"1.0","objects":"</>","queue":false,"seen":0,"sms":null}"#,
    ),
    (
        Line("watch 1 0 0000000000020001"),
        r#"{"accept":0,"endpoint":"a","id":"0000000000020001","path":"/3/0","token":"0000000000060001"}"#,
    ),
    (
        Line("endpoint 1 0 bb"),
        r#"{"address":"[fe80:0000:0000:0000:0000:0000:0000:0001]:5683","attributes":{},"binding":"U","endpoint":"bb","id":"0000000000080001","lifetime":30,"lwm2m":"1.0","objects":"</>","queue":true,"seen":0,"sms":null}"#,
    ),
    (
        Line("token 1 0 0000000000090001"),
        r#"{"accept":null,"endpoint":"bb","id":"0000000000080001","path":"/3/0","token":"0000000000090001"}"#,
    ),
    (
        Line("expired 1 30000 b"),
        r#"{"endpoint":"bb","id":"0000000000080001"}"#,
    ),
    (Numbers, "10 10"),
];

/// After sweeps before and at the end of the registration of `bb`.
static AFTER_SWEEPS: [Row<'static>; 4] = [
    (Line("endpoint 1 0 bb"), "none"),
    (Line("token 1 0 0000000000090001"), "none"),
    (Line("expired 1 30000"), "none"),
    (Numbers, "11 11"),
];

fn are_the_same(reply: &Reply, replies: &(Reply, Reply)) -> bool {
    reply.same(&replies.0) && reply.same(&replies.1)
}

/// The call gives the reply twice, which is not for want of memory.
fn gives_twice(rt: &impl Abort, alloc: Global, node: &mut Node, call: &Call, reply: Reply) {
    let are_same = are_the_same(&reply, &node.act_twice(call));
    let text = text_of(rt, alloc, reply);
    assert!(rt; are_same, "a call that gives {text}");
    assert_ne!(rt; text.as_str(), "no memory");
}

/// Each call gives at one node twice what it gives at the other.
fn act_alike(
    rt: &impl Abort,
    alloc: Global,
    once: &mut Node,
    twice: &mut Node,
    steps: &[Step<'_>],
) {
    for step in steps {
        let call = call_of(rt, alloc, step).expect(rt, "a call");
        let reply = once.act(&call);
        gives_twice(rt, alloc, twice, &call, reply);
    }
}

fn what_is_known(name: &'static str) -> Run<'static> {
    (name, &AFTER_CALLS)
}

fn what_is_left(name: &'static str) -> Run<'static> {
    (name, &AFTER_SWEEPS)
}

/// Tries: Node::ask, Node::act, Node::act_twice
#[test]
fn a_call_made_twice_gives_what_it_gives_once(rt: HostRuntime) {
    let mut once = Node::new(rt.alloc(), 1);
    let mut twice = Node::new(rt.alloc(), 1);
    act_alike(&rt, rt.alloc(), &mut once, &mut twice, &CALLS);
    play(&rt, rt.alloc(), &mut once, what_is_known("calls made once"));
    play(
        &rt,
        rt.alloc(),
        &mut twice,
        what_is_known("calls made twice"),
    );
    act_alike(&rt, rt.alloc(), &mut once, &mut twice, &SWEEPS);
    play(&rt, rt.alloc(), &mut once, what_is_left("sweeps made once"));
    play(
        &rt,
        rt.alloc(),
        &mut twice,
        what_is_left("sweeps made twice"),
    );
}
