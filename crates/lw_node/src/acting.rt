//! Calls as values: one step of a node.

ghost use Rattle.std.specs.Prelude.{◌≡◌, IfOk};
ghost use Rattle.lw_node.specs.Exchange.{IsDeltaSince};
ghost use Rattle.lw_node.specs.Node.{Known, IsKnown, marks_in};
ghost use Rattle.lw_node.specs.Steps.{Steps};

use crate::node::Node;
use crate::twice::both;
use bytes::Bytes;
use lw_call::{Call, Reply, Sent};
use lw_stamp::NoMemory;

impl Node {
    /// Makes the call, and gives what it gives.
    pub fn act(&mut self, call: &Call) -> Reply
        ensures { (known : Known) → IsKnown self.old.table.state known
            → Steps self.old (marks_in self.old.table.state known) call.now result self.new }
    {
        match call {
            Call::Take { now, from, bytes } => Reply::Take(self.take(
                *now,
                *from,
                bytes.as_slice(),
            )),
            Call::Observe {
                now,
                id,
                path,
                accept,
                mid,
            } => Reply::Observe(self.observe(*now, *id, *path, *accept, *mid)),
            Call::Cancel { now, token, mid } => Reply::Cancel(self.cancel(*now, *token, *mid)),
            Call::Send { since } => Reply::Send(self.send(*since)),
            Call::Merge { bytes } => Reply::Merge(self.merge(bytes.as_slice())),
            Call::Ask { now, question } => Reply::Ask(self.ask(*now, question)),
            Call::Sweep { now } => Reply::Sweep(self.sweep(*now)),
        }
    }

    /// Makes the call, and gives what it gives twice. Both are made before anything changes: where there is no memory
    /// for the second, the call is refused for want of memory. What a merge or a sweep gives is plain data.
    pub fn act_twice(&mut self, call: &Call) -> (Reply, Reply)
        ensures same { result.0 ≡ result.1 }
        ensures step { (known : Known) → IsKnown self.old.table.state known
            → Steps self.old (marks_in self.old.table.state known) call.now result.0 self.new }
    {
        match call {
            Call::Take { now, from, bytes } => {
                let (first, second) = both(self.take_twice(*now, *from, bytes.as_slice()));
                (Reply::Take(first), Reply::Take(second))
            }
            Call::Observe {
                now,
                id,
                path,
                accept,
                mid,
            } => {
                let (first, second) = self.observe_twice(*now, *id, *path, *accept, *mid);
                (Reply::Observe(first), Reply::Observe(second))
            }
            Call::Cancel { now, token, mid } => {
                let (first, second) = self.cancel_twice(*now, *token, *mid);
                (Reply::Cancel(first), Reply::Cancel(second))
            }
            Call::Send { since } => {
                let (first, second) = both(self.send_twice(*since));
                (Reply::Send(first), Reply::Send(second))
            }
            Call::Merge { bytes } => {
                let outcome = self.merge(bytes.as_slice());
                (Reply::Merge(outcome), Reply::Merge(outcome))
            }
            Call::Ask { now, question } => {
                let (first, second) = both(self.ask_twice(*now, question));
                (Reply::Ask(first), Reply::Ask(second))
            }
            Call::Sweep { now } => {
                let outcome = self.sweep(*now);
                (Reply::Sweep(outcome), Reply::Sweep(outcome))
            }
        }
    }

    // The delta since a change number, and the number at which it is made.
    pub(crate) fn send(&self, since: u64) -> Result<Sent, NoMemory>
        ensures { IfOk result (λ sent. IsDeltaSince self.now since sent.delta
            × (sent.change ≡ self.now.table.count.change)) }
    {
        Ok(Sent {
            delta: Bytes::from_vec(self.delta_since(since)?)?,
            change: self.change(),
        })
    }
}
