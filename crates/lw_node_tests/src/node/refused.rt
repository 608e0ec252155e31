//! What a node knows and sends where a merge, a delta or a copy is refused memory, and that a sweep takes none.

use super::copied::agree;
use super::deltas::{FIRST, SECOND, TWO};
use super::*;
use lw_stamp::{NoMemory, Stamp};
use std::test::Fail;

/// The delta of two slots without a slot.
const NONE: &str = "4c57443300000000000600";

/// A Register of `a` for 60 seconds, and its identifier.
const REGISTER_FOR_A_MINUTE: &str = "40020004b272644465703d61056c743d3630ff3c2f3e";

const ID: Stamp = Stamp {
    counter: 1,
    node: 1,
};

const HOST: Addr = Addr::V4 {
    address: [127, 0, 0, 1],
    port: 5683,
};

/// Fails with the text where it is not so.
fn holds(what: &str, is_so: bool) -> Result<(), Fail> {
    if is_so {
        return Ok(());
    }
    Err(Fail::new(what))
}

/// The front of a delta with no slot, and with its first, and all of it with both and with the second alone.
#[derive(Drop)]
struct Deltas {
    fronts: [Vec<u8>; 2],
    both: Vec<u8>,
    second: Vec<u8>,
}

/// Whether these bytes are sent since the number. Where that is refused, they are asked for again.
fn sends(node: &Node, since: u64, wanted: &[u8]) -> Result<bool, NoMemory> {
    let sent = match node.delta_since(since) {
        Err(NoMemory) => node.delta_since(since)?,
        Ok(sent) => sent,
    };
    Ok(sent.as_slice() == wanted)
}

/// Whether the node has the clock of the delta and as many of its slots as were joined, which are not all.
fn has_joined(node: &Node, fault: MergeFault, fronts: &[Vec<u8>; 2]) -> Result<bool, NoMemory> {
    let MergeFault::NoMemory { joined } = fault else {
        return Ok(false);
    };
    let Some(front) = fronts.get(joined) else {
        return Ok(false);
    };
    Ok(node.change() == joined as u64 && sends(node, 0, front)?)
}

/// Merges the delta of two slots. Where that is refused, the first slots are there, and it is merged again.
fn merges_in_two_tries(node: &mut Node, deltas: &Deltas) -> Result<(), Fail> {
    if let Err(fault) = node.merge(&deltas.both) {
        holds("the first", has_joined(node, fault, &deltas.fronts)?)?;
        holds("both", node.merge(&deltas.both) == Ok(2))?;
    }
    holds("the change number", node.change() == 2)?;
    holds("both are sent", sends(node, 0, &deltas.both)?)?;
    holds("the second is sent", sends(node, 1, &deltas.second)?)
}

/// Tries: Node::merge
#[test]
fn a_refused_merge_leaves_the_first_slots(rt: HostRuntime) -> Result<(), Fail> {
    let alloc = rt.alloc();
    let deltas = Deltas {
        fronts: [hex::decode(alloc, NONE)?, hex::decode(alloc, FIRST)?],
        both: hex::decode(alloc, TWO)?,
        second: hex::decode(alloc, SECOND)?,
    };
    let mut node = Node::new(alloc, 2);
    merges_in_two_tries(&mut node, &deltas)
}

/// Merges the delta, or else gives up.
fn merges(node: &mut Node, delta: &[u8]) -> Result<(), NoMemory> {
    match node.merge(delta) {
        Ok(_) => Ok(()),
        Err(_) => Err(NoMemory),
    }
}

/// A copy of the node. Where that is refused, it is made again.
fn copy_in_two_tries(node: &Node) -> Result<Node, NoMemory> {
    match node.copy() {
        Err(NoMemory) => node.copy(),
        copied => copied,
    }
}

/// The copy is the same, and both send the bytes.
fn is_copy(node: &Node, copy: &Node, both: &[u8]) -> Result<(), Fail> {
    holds("the same", agree(node, copy, true))?;
    holds("what the node sends", sends(node, 0, both)?)?;
    holds("what the copy sends", sends(copy, 0, both)?)
}

/// Merges the delta, and copies the node.
fn is_copied(node: &mut Node, both: &[u8]) -> Result<(), Fail> {
    merges(node, both)?;
    let copy = copy_in_two_tries(node)?;
    is_copy(node, &copy, both)
}

/// Tries: Node::copy
#[test]
fn a_refused_copy_is_made_again(rt: HostRuntime) -> Result<(), Fail> {
    let both = hex::decode(rt.alloc(), TWO)?;
    let mut node = Node::new(rt.alloc(), 2);
    is_copied(&mut node, &both)
}

/// Whether a sweep ends this registration, and another then nothing.
fn is_swept_once(node: &mut Node, id: Stamp, now: Moment) -> bool {
    node.sweep(now) == Ok(Some(id)) && node.sweep(now) == Ok(None)
}

fn takes(node: &mut Node, datagram: &[u8]) -> Result<(), Fail> {
    let taken = node.take(Moment::START, HOST, datagram)?;
    holds("a reply", taken.reply.is_some())
}

/// Takes the Register, and ends it.
fn takes_and_sweeps(node: &mut Node, register: &[u8]) -> Result<(), Fail> {
    takes(node, register)?;
    let now = Moment::new(60_000).ok_or("a moment")?;
    holds("a sweep", is_swept_once(node, ID, now))
}

/// Tries: Node::sweep
#[test]
fn a_refused_growth_is_none_of_a_sweep(rt: HostRuntime) -> Result<(), Fail> {
    let register = hex::decode(rt.alloc(), REGISTER_FOR_A_MINUTE)?;
    let mut node = Node::new(rt.alloc(), 1);
    takes_and_sweeps(&mut node, &register)
}
