ghost use Rattle.std.specs.Prelude.{IfOk, string_bytes};
ghost use Rattle.registry.specs.Steps.{Receives, IsNew, TakesLine};

use crate::deltas::pass_on;
use crate::expiry::expire;
use crate::fault::LineFault;
use crate::line::{Received, read};
use crate::observing::observe;
use crate::taking::{take, taken_text};
use lw_node::Node;
use lw_stamp::Moment;
use std::alloc::Global;

/// The node of this server, and that of another server to which its changes are passed on.
#[derive(Drop)]
pub struct Registry {
    pub node: Node,
    pub other: Node,
    /// The change number up to which the other has what this node knows.
    pub passed: u64,
    /// The message ID of the next request to a device.
    pub mid: u16,
    /// The moment of the last line.
    pub moment: Moment,
}

impl Registry {
    /// Two new nodes. Each server of a cluster has a number of its own.
    pub fn new(alloc: Global) -> Registry
        ensures { IsNew result }
    {
        Registry {
            node: Node::new(alloc, 1),
            other: Node::new(alloc, 2),
            passed: 0,
            mid: 1,
            moment: Moment::START,
        }
    }

    /// What is printed of a line. An empty line is passed over.
    pub fn take_line(&mut self, alloc: Global, line: &[u8]) -> Result<String, LineFault>
        ensures { IfOk result (λ text. TakesLine self.old line.now (string_bytes text) self.new) }
    {
        if line.is_empty() {
            return Ok(String::new(alloc));
        }
        let received = read(alloc, line)?;
        self.receive(alloc, &received)
    }

    /// First a registration that has expired ends, if there is one. Then the datagram is taken, a device that has
    /// registered is observed, and what has changed is passed on.
    fn receive(&mut self, alloc: Global, received: &Received) -> Result<String, LineFault>
        ensures { IfOk result (λ text.
            Receives self.old received.now.moment received.now.from received.now.datagram.items
            (string_bytes text) self.new) }
    {
        let expired = expire(alloc, &mut self.node, received.moment)?;
        let (taken, event) = take(alloc, &mut self.node, received)?;
        let told = taken_text(alloc, &taken, &event)?;
        let sent = observe(alloc, &mut self.node, received.moment, &event, self.mid)?;
        let passed = pass_on(&self.node, &mut self.other, self.passed)?;
        self.passed = passed;
        self.mid = self.mid.wrapping_add(1);
        self.moment = received.moment;
        Ok(format!(in alloc; "{expired}{told}{sent}")?)
    }
}
