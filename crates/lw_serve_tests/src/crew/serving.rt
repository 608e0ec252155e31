//! Jobs at several nodes by several workers, workers that stop early, and crews that are given a list after another.

ghost use Rattle.lw_held.specs.Agree.{AreDistinct};
ghost use Rattle.lw_held.specs.Shelves.{AreInOrder};

use super::gates::Watch;
use super::*;
use lw_crew::Shelf;

/// A job that no list has.
const NONE: u64 = u64::MAX;

/// How many nodes and workers there are; at which nodes the jobs of each list are; the job that no worker is to do
/// while fewer than so many have started; how many start, and how many of them not as the next one of the first worker;
/// and what comes of the lists.
type Run = (
    u16,
    u32,
    &'static [&'static [u16]],
    (u64, u64),
    (u64, u64),
    &'static str,
);

static RUNS: [Run; 7] = [
    // Nodes without a shelf.
    (
        2,
        1,
        &[&[3, 0, 65535, 1]],
        (NONE, 0),
        (4, 0),
        "0: NoSuchNode
1: NoSuchNode
2: NoSuchNode
3: 1 0 604100048272640d0330303030303030303030303130303031
1 passes, 1 parts, Ok(Settled)",
    ),
    // One worker does the jobs in order.
    (
        3,
        1,
        &[&[3, 1, 3]],
        (NONE, 0),
        (3, 0),
        "0: 3 0 604100048272640d0330303030303030303030303130303033
1: 1 0 604100048272640d0330303030303030303030303130303031
2: 3 1 604100048272640d0330303030303030303030303230303033
1 passes, 3 parts, Ok(Settled)",
    ),
    // No jobs.
    (
        1,
        3,
        &[&[]],
        (NONE, 0),
        (0, 0),
        "3 passes, 0 parts, Ok(Settled)",
    ),
    // A stopped worker leaves its job to none, and what comes behind to others.
    (
        1,
        2,
        &[&[1, 1]],
        (0, NONE),
        (2, 1),
        "Missing { job: 0 }\n2 passes, 1 parts, Ok(Settled)",
    ),
    (
        1,
        1,
        &[&[1, 1]],
        (0, NONE),
        (1, 0),
        "Missing { job: 0 }\n1 passes, 0 parts, Ok(Settled)",
    ),
    (
        1,
        1,
        &[&[1, 1, 1]],
        (2, NONE),
        (3, 0),
        "Missing { job: 2 }\n1 passes, 2 parts, Ok(Settled)",
    ),
    // A crew goes on after a stopped worker.
    (
        1,
        1,
        &[&[1, 1, 1], &[1, 1, 1]],
        (1, 2),
        (5, 3),
        "Missing { job: 1 }
0: 1 1 604100048272640d0330303030303030303030303230303031
1: 1 2 604100048272640d0330303030303030303030303330303031
2: 1 3 604100048272640d0330303030303030303030303430303031
1 passes, 4 parts, Ok(Settled)",
    ),
];

/// Tries: Crew::serve_jobs, Crew::new
#[test]
fn jobs_are_done_in_order_or_told(rt: HostRuntime) {
    for (nodes, workers, lists, refused, (starts, astray), want) in &RUNS {
        let gate = Watch::new(&rt, *refused, 0, 0);
        let mut jobs = Vec::new(rt.alloc());
        for at in *lists {
            jobs.push((*at, Takes(REGISTER))).expect(&rt, "memory");
        }
        let sizes = (*nodes, *workers, Sharing::ByNode);
        let (text, _dones) = played(&rt, rt.alloc(), sizes, &jobs, &gate);
        assert_eq!(rt; text.as_str(), *want);
        let (started, gone_astray, _others) = gate.counts();
        assert_eq!(rt; (started, gone_astray), (*starts, *astray), "{want}");
    }
}

/// Two workers register at a node each. The pass of the first job then reads back what it wrote, and neither pass
/// settles alone.
/// Tries: Crew::serve_jobs
#[test]
fn passes_go_on_after_a_crew(rt: HostRuntime) {
    let gate = Watch::new(&rt, (NONE, 0), 2, 0);
    let (shelves, passes) = set_up(rt.alloc(), 2, 2).expect(&rt, "memory");
    let jobs = jobs_of(&rt, rt.alloc(), (&[1, 2], Takes(REGISTER)));
    let mut crew = Crew::new(Sharing::ByNode);
    let (mut passes, result) = crew.serve_jobs(&rt, rt.alloc(), &shelves, passes, &jobs, &gate);
    let dones = result.expect(&rt, "results");
    let first = pass_of_the_first(&rt, &dones);
    go_on(&rt, rt.alloc(), &shelves, &mut passes, first);
}

/// The place of the pass that did the first job.
fn pass_of_the_first<R: Abort>(rt: &R, dones: &[Done]) -> usize {
    let done = dones.first().expect(rt, "a result");
    match done.result {
        JobOutcome::At { pass, .. } => pass as usize,
        _ => panic!(rt; "no pass"),
    }
}

/// The first node is asked with the pass at the place. By this pass alone the second node does not settle, and by the
/// other alone the first does not.
fn go_on<R: Wait + Abort>(
    rt: &R,
    alloc: Global,
    shelves: &[Shelf],
    passes: &mut [Pass],
    first: usize,
)
    requires shelves { AreInOrder shelves.now }
    requires passes { AreDistinct passes.old }
{
    let shown = "1 1 a 0000000000010001 127.0.0.1:5683 0 86400 U false </>";
    calls(rt, alloc, shelves, passes, 0, first, ByEndpoint("a"), shown);
    let second = 1_usize.wrapping_sub(first);
    for (pass, end, want) in [
        (0, 2, Ok(Settled)),
        (
            first,
            first.wrapping_add(1),
            Err(Unsettled { node: 2, place: 0 }),
        ),
        (
            second,
            second.wrapping_add(1),
            Err(Unsettled { node: 1, place: 0 }),
        ),
    ] {
        settles_so(rt, shelves, &[], passes, &(pass, end, 0, 0, want));
    }
}

/// How many nodes and workers there are and how these share jobs, at which nodes the jobs are, whether they are long,
/// and whether another worker than the first does some; and how many passes and parts there are then. Each job takes a
/// while.
type Shared = (Sizes, &'static [u16], bool, bool, &'static str);

static SHARED: [Shared; 4] = [
    (
        (2, 3, Sharing::ByNode),
        &[2, 2, 2],
        false,
        false,
        "\n3 passes, 3 parts, Ok(Settled)",
    ),
    (
        (2, 2, Sharing::ByWork),
        &[1, 2, 1, 2],
        false,
        false,
        "\n2 passes, 4 parts, Ok(Settled)",
    ),
    (
        (2, 2, Sharing::ByNode),
        &[1, 2, 1, 2],
        false,
        true,
        "\n2 passes, 4 parts, Ok(Settled)",
    ),
    (
        (2, 2, Sharing::ByWork),
        &[1, 2],
        true,
        true,
        "\n2 passes, 2 parts, Ok(Settled)",
    ),
];

/// A long job is a Take of 8,192 bytes that are no message.
/// Tries: Crew::new, Crew::serve_jobs
#[test]
fn jobs_are_shared_by_node_or_by_work(rt: HostRuntime) {
    let long = "41".repeat(rt.alloc(), 8192).expect(&rt, "memory");
    for (sizes, nodes, are_long, are_shared, want) in &SHARED {
        let gate = Watch::new(&rt, (NONE, 0), 0, 100);
        let datagram = if *are_long { long.as_str() } else { REGISTER };
        let list: List<'_> = (nodes, Takes(datagram));
        let (text, _dones) = played(&rt, rt.alloc(), *sizes, &[list], &gate);
        assert!(rt; text.ends_with(*want), "{text}");
        let (_started, _astray, others) = gate.counts();
        assert_eq!(rt; others > 0, *are_shared, "{text}");
    }
}

/// The line is of a 2.01 of the node: an identifier ends in the number of its node.
fn is_of_node<R: Abort>(rt: &R, alloc: Global, line: &str, node: u16) {
    let at = format!(in alloc; ": {node} ").expect(rt, "memory");
    assert!(rt; line.contains(at.as_str()), "{line}");
    let number = format!(in alloc; "{node:04x}").expect(rt, "memory");
    let end = hex::encode(alloc, number.as_bytes()).expect(rt, "memory");
    assert!(rt; line.ends_with(end.as_str()), "{line}");
}

/// There is a line for each of the nodes and one for the passes.
fn are_of_nodes<R: Abort>(rt: &R, alloc: Global, text: &str, nodes: &[u16], last: &str) {
    for (line, node) in text.lines().zip(nodes) {
        is_of_node(rt, alloc, line, *node);
    }
    assert_eq!(rt; text.lines().count(), nodes.len().wrapping_add(1));
    assert!(rt; text.ends_with(last), "{text}");
}

/// Each node from 1 to 16, twenty times over, by eight workers at once.
/// Tries: Crew::serve_jobs
#[test]
fn many_jobs_are_done_by_all_workers(rt: HostRuntime) {
    let mut nodes = Vec::new(rt.alloc());
    for turn in 0_u16..320 {
        nodes
            .push((turn % 16).wrapping_add(1))
            .expect(&rt, "memory");
    }
    let gate = Watch::new(&rt, (NONE, 0), 8, 0);
    let list: List<'_> = (&nodes, Takes(REGISTER));
    let (text, _dones) = played(&rt, rt.alloc(), (16, 8, Sharing::ByNode), &[list], &gate);
    let last = "\n8 passes, 320 parts, Ok(Settled)";
    are_of_nodes(&rt, rt.alloc(), &text, &nodes, last);
}

/// Three jobs, and 200 behind them.
/// Tries: Crew::serve_jobs
#[test]
fn a_crew_does_a_longer_list_after_a_short_one(rt: HostRuntime) {
    let gate = Watch::new(&rt, (NONE, 0), 0, 0);
    let (few, many): (List<'_>, List<'_>) = (
        (&[1, 2, 1], Takes(REGISTER)),
        (&[2; 200], Takes(REGISTER)),
    );
    let (text, dones) = played(
        &rt,
        rt.alloc(),
        (2, 2, Sharing::ByNode),
        &[few, many],
        &gate,
    );
    assert_eq!(rt; (text.lines().count(), dones.len()), (204, 200));
    assert!(rt;
        text.ends_with("\n2 passes, 203 parts, Ok(Settled)"),
        "{text}"
    );
}
