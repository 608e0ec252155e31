//! A server of one's own, in a few lines.

ghost use Rattle.std.specs.Prelude.{IfOk};
ghost use Rattle.lw_stamp.specs.Moment.{ms_of};
ghost use Rattle.uses.specs.Embedded.{AreTenLines};

use lw_call::{ClockEnd, MergeFault, Notice, ObserveFault};
use lw_node::Node;
use lw_reg::{Addr, Path, View};
use lw_stamp::{Moment, NoMemory, Stamp};
use std::alloc::Global;
use thiserror::Error;

/// What the server around the store does.
pub trait Server {
    /// Sends a datagram, if there is one.
    fn send(&mut self, to: Addr, datagram: Option<&[u8]>);

    /// Hands on what a device tells of an observation, if it does.
    fn tell(&mut self, notice: Option<&Notice>);

    /// Shows a registration, if there is one.
    fn show(&mut self, shown: Option<&View<'_>>);
}

/// What the calls may refuse.
#[derive(Clone, Copy, Debug, PartialEq, Eq, Error)]
pub enum Fault {
    #[error("{0}")]
    NoMemory(#[from] NoMemory),
    #[error("{0}")]
    NotObserved(#[from] ObserveFault),
    #[error("{0}")]
    ClockEnd(#[from] ClockEnd),
    #[error("{0}")]
    NotMerged(#[from] MergeFault),
}

/// A datagram that came, the identifier and the path of what is to be observed, and the message ID of the request.
#[derive(Clone, Copy)]
pub struct Wish<'a> {
    pub now: Moment,
    pub from: Addr,
    pub datagram: &'a [u8],
    pub id: Stamp,
    pub path: Path,
    pub mid: u16,
}

/// The calls of a node, one after another, and the change number that the next delta begins at.
pub fn ten_lines<S: Server>(
    alloc: Global,
    server: &mut S,
    peer: &mut Node,
    kept: u64,
    wish: &Wish<'_>,
) -> Result<u64, Fault>
    ensures { IfOk result (λ next.
        AreTenLines (ms_of wish.entry.now.now) wish.entry.now.from wish.entry.now.datagram.now wish.entry.now.id
        wish.entry.now.path wish.entry.now.mid
        kept peer.old next peer.new) }
{
    let Wish {
        now,
        from,
        datagram,
        id,
        path,
        mid,
    } = *wish;
    // cut: ten_lines
    let mut node = Node::new(alloc, 7); // the number of this server
    let taken = node.take(now, from, datagram)?; // out of memory: nothing has changed
    server.send(from, taken.reply.as_deref());
    server.tell(taken.notice.as_ref()); // what a device tells of an observation
    server.show(node.by_endpoint(now, "a").as_ref()); // address, lifetime, objects, ..
    let asked = node.observe(now, id, path, None, mid)?; // a request to the device
    server.send(asked.to, Some(&asked.bytes));
    let _ended = node.sweep(now)?; // ends the first that has expired: its identifier, or none

    let delta = node.delta_since(kept)?; // what has changed since `kept`, at first 0
    let next = node.change(); // keep it once the peer has merged the delta
    peer.merge(&delta)?; // at the other server
    // end: ten_lines
    Ok(next)
}
