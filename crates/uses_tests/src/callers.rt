//! Callers of one node, or of two.

use crate::given::{FIRST, HOME, REGISTER, REGISTER_B, register};
use lw_node::Node;
use lw_reg::Path;
use lw_stamp::{Moment, Stamp};
use std::alloc::Global;
use std::process::Abort;
use uses::{Datagram, follow, meet, names, register_and_find};

/// The reply to the first Register with message ID 4 at node 1.
const CREATED: &[u8] = b"\x60\x41\x00\x04\x82rd\x0d\x030000000000010001";

/// Tries: register_and_find
#[test]
fn a_device_registers_and_is_found(rt: HostRuntime) {
    let mut node = Node::new(rt.alloc(), 1);
    let found = register_and_find(rt.alloc(), &mut node, Moment::START, HOME, REGISTER, "a");
    let (taken, seen) = found.expect(&rt, "memory");
    let seen = seen.expect(&rt, "the registration");
    assert!(rt; seen.id == FIRST && seen.address == HOME);
    assert!(rt;
        taken.reply.as_deref() == Some(CREATED),
        "2.01 with the identifier"
    );
}

/// The node shows these names at the start.
pub(crate) fn has_names(rt: &impl Abort, alloc: Global, node: &Node, wanted: &[&str]) {
    let names = names(alloc, node, Moment::START).expect(rt, "memory");
    assert_eq!(rt; names.len(), wanted.len());
    for (name, text) in names.iter().zip(wanted) {
        assert_eq!(rt; name.as_str(), *text);
    }
}

/// Tries: names
#[test]
fn names_rise(rt: HostRuntime) {
    let mut node = Node::new(rt.alloc(), 1);
    has_names(&rt, rt.alloc(), &node, &[]);
    register(&rt, &mut node, REGISTER_B);
    register(&rt, &mut node, REGISTER);
    has_names(&rt, rt.alloc(), &node, &["a", "b"]);
}

fn both_meet(rt: &impl Abort, one: &mut Node, other: &mut Node) {
    meet(one, other).expect(rt, "memory");
}

/// Tries: meet
#[test]
fn two_servers_meet(rt: HostRuntime) {
    let mut one = Node::new(rt.alloc(), 1);
    let mut other = Node::new(rt.alloc(), 2);
    register(&rt, &mut one, REGISTER);
    register(&rt, &mut other, REGISTER_B);
    both_meet(&rt, &mut one, &mut other);
    has_names(&rt, rt.alloc(), &one, &["a", "b"]);
    has_names(&rt, rt.alloc(), &other, &["a", "b"]);
    assert_eq!(rt; (one.clock(), other.clock()), (1, 1));
}

/// Notifications whose payload is `x`: two with the token of operation 2 of node 1, and between them one with that of
/// operation 9.
const TOLD: [&[u8]; 3] = [
    b"\x48\x45\x00\x07\0\0\0\0\0\x02\0\x01\x61\x01\x60\xffx",
    b"\x48\x45\x00\x07\0\0\0\0\0\x09\0\x01\x61\x01\x60\xffx",
    b"\x48\x45\x00\x07\0\0\0\0\0\x02\0\x01\x61\x01\x60\xffx",
];

fn told(rt: &impl Abort, alloc: Global) -> Vec<Datagram> {
    let mut came = Vec::new(alloc);
    for text in TOLD {
        let datagram = Datagram {
            now: Moment::START,
            from: HOME,
            bytes: text.to_vec(alloc).expect(rt, "memory"),
        };
        came.push(datagram).expect(rt, "memory");
    }
    came
}

/// The token of operation 2 of node 1.
const TOKEN: Stamp = Stamp {
    counter: 2,
    node: 1,
};

/// Tries: follow
#[test]
fn a_path_is_followed(rt: HostRuntime) {
    let mut node = Node::new(rt.alloc(), 1);
    register(&rt, &mut node, REGISTER);
    let came = told(&rt, rt.alloc());
    let path = Path::new(&[3, 0]).expect(&rt, "a path");
    let followed = follow(rt.alloc(), &mut node, Moment::START, FIRST, path, &came);
    let (request, notices) = followed.expect(&rt, "memory");
    assert!(rt; request.token == TOKEN);
    assert_eq!(rt; notices.len(), 2);
    let last = notices.last().expect(&rt, "a notice");
    assert_eq!(rt; last.payload.as_slice(), b"x".as_slice());
}
