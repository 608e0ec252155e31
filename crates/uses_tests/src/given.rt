//! What the tests start from.

use lw_node::Node;
use lw_reg::Addr;
use lw_stamp::{Moment, Stamp};
use std::process::Abort;

/// A Register of `a` with the object list `</>`, message ID 4.
pub(crate) const REGISTER: &[u8] = b"\x40\x02\x00\x04\xb2rd\x44ep=a\xff</>";

/// A Register of `b`, message ID 5.
pub(crate) const REGISTER_B: &[u8] = b"\x40\x02\x00\x05\xb2rd\x44ep=b\xff</>";

/// Where the devices are.
pub(crate) const HOME: Addr = Addr::V4 {
    address: [127, 0, 0, 1],
    port: 5683,
};

/// The identifier of the first registration at node 1.
pub(crate) const FIRST: Stamp = Stamp {
    counter: 1,
    node: 1,
};

/// The node takes a Register at the start.
pub(crate) fn register(rt: &impl Abort, node: &mut Node, datagram: &[u8]) {
    let taken = node.take(Moment::START, HOME, datagram);
    drop(taken.expect(rt, "memory"));
}
