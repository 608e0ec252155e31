//! A server around a node.

use crate::callers::has_names;
use crate::given::{FIRST, HOME, REGISTER};
use lw_call::{Notice, ObserveFault};
use lw_node::Node;
use lw_reg::{Addr, Path, View};
use lw_stamp::{Moment, Stamp};
use std::alloc::Global;
use std::process::Abort;
use uses::{Fault, Server, Wish, ten_lines};

/// Counts what it is asked to do, and keeps where the last datagram went.
#[derive(Drop)]
struct Counting {
    sent: usize,
    told: usize,
    shown: usize,
    last: Option<Addr>,
}

impl Server for Counting {
    fn send(&mut self, to: Addr, datagram: Option<&[u8]>) {
        self.sent = self.sent.saturating_add(usize::from(datagram.is_some()));
        self.last = Some(to);
    }

    fn tell(&mut self, notice: Option<&Notice>) {
        self.told = self.told.saturating_add(usize::from(notice.is_some()));
    }

    fn show(&mut self, shown: Option<&View<'_>>) {
        self.shown = self.shown.saturating_add(usize::from(shown.is_some()));
    }
}

/// A Register of `a`, then a wish to observe at this identifier. Gives what comes of it, and what was done.
fn in_ten_lines(
    rt: &impl Abort,
    alloc: Global,
    peer: &mut Node,
    id: Stamp,
) -> (Result<u64, Fault>, Counting) {
    let mut server = Counting {
        sent: 0,
        told: 0,
        shown: 0,
        last: None,
    };
    let wish = Wish {
        now: Moment::START,
        from: HOME,
        datagram: REGISTER,
        id,
        path: Path::new(&[3, 0]).expect(rt, "a path"),
        mid: 1,
    };
    let next = ten_lines(alloc, &mut server, peer, 0, &wish);
    (next, server)
}

/// It has sent a reply and a request to the device, and shown it once.
/// Tries: ten_lines
#[test]
fn ten_lines_do_it(rt: HostRuntime) {
    let mut peer = Node::new(rt.alloc(), 8);
    let id = Stamp {
        counter: 1,
        node: 7,
    };
    let (next, server) = in_ten_lines(&rt, rt.alloc(), &mut peer, id);
    assert!(rt; next == Ok(2));
    assert_eq!(rt; (server.sent, server.told, server.shown), (2, 0, 1));
    assert!(rt; server.last == Some(HOME));
    has_names(&rt, rt.alloc(), &peer, &["a"]);
}

/// Tries: ten_lines
#[test]
fn ten_lines_find_no_stranger(rt: HostRuntime) {
    let mut peer = Node::new(rt.alloc(), 8);
    let (refused, server) = in_ten_lines(&rt, rt.alloc(), &mut peer, FIRST);
    assert!(rt; refused == Err(Fault::NotObserved(ObserveFault::NotFound)));
    assert_eq!(rt; server.sent, 1);
}
