//! The nodes and the messages of a run. Runs themselves are tested as scripts.

use lw_script::read_script;
use lw_world::{World, run};
use std::alloc::Global;
use std::process::Abort;

/// A device registers at one node, and the other gets its delta.
const DELIVERED: &[u8] = b"nodes 2
take 1 0 127.0.0.1:5683 40020004b272644465703d61ff3c2f3e
send 1 0
deliver 2 0
";

/// That delta.
const DELTA: &str =
    "4c57443300000000000101016100000000000100017f000000000000010001047f0000011633000000000001000100000000000000000000000100010001518000000000000100010155000000000001000100000000000001000100033c2f3e00000000";

fn clock(world: &World, number: u16) -> Option<u64> {
    Some(world.node(number)?.clock())
}

fn ran(rt: &impl Abort, alloc: Global) -> World {
    let script = read_script(alloc, DELIVERED).expect(rt, "a script");
    let (world, _) = run(alloc, 2, &script.events).expect(rt, "memory");
    world
}

/// Tries: World::node, World::message
#[test]
fn nodes_and_messages_are_found_by_number(rt: HostRuntime) {
    let world = ran(&rt, rt.alloc());
    for (number, want) in [(0, None), (1, Some(1)), (2, Some(1)), (3, None)] {
        assert_eq!(rt; clock(&world, number), want, "at node {number}");
    }
    let sent = hex::decode(rt.alloc(), DELTA).expect(&rt, "hex");
    assert!(rt; world.message(0) == Some(sent.as_slice()), "message 0");
    assert!(rt; world.message(1).is_none(), "message 1");
}
