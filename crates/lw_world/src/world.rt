ghost use Rattle.std.specs.Prelude.{◌≡◌, suc, ◌<◌, length, slice_get, option_map, IfOk, IfSome, IfNone, None};
ghost use Rattle.lw_world.specs.declared.event.Action.TheVariants.{Send, Deliver};
ghost use Rattle.lw_world.specs.Run.{History, Steps, begun, at_number};
ghost use Rattle.lw_world.specs.inner.Sound.{Keeps, Makes};
ghost use Rattle.lw_world.specs.World.{world_of};

use crate::event::{Action, Event};
use crate::outcome::{Outcome, Sending};
use lw_node::Node;
use lw_stamp::NoMemory;
use std::alloc::Global;
use std::marker::Model;

/// The nodes of a run, and the messages that they sent.
#[derive(Drop)]
pub struct World {
    nodes: Vec<Node>,
    messages: Vec<Vec<u8>>,
}

impl Model for World {
    ghost use Rattle.std.specs.Prelude.{map};
    ghost use Rattle.lw_world.specs.World.{WorldContent, world_code};

    ghost Value = { WorldContent };

    ghost coded = { world_code };

    ghost view = { λ w. record { nodes = w.nodes.items; messages = map (λ m. m.items) w.messages.items } };
}

impl World {
    /// Nodes that have taken nothing, numbered from 1.
    pub(crate) fn new(alloc: Global, count: u16) -> Result<World, NoMemory>
        ensures { IfOk result (λ world. world ≡ world_of (begun count)) }
    {
        let mut nodes = Vec::new(alloc);
        for place in 0..count {
            nodes.push(Node::new(alloc, place + 1))?;
        }
        Ok(World {
            nodes,
            messages: Vec::new(alloc),
        })
    }

    /// The node of the number, from 1.
    pub fn node(&self, number: u16) -> Option<&Node>
        ensures { option_map (λ node. node.now) result ≡ at_number self.now.nodes number }
    {
        self.nodes.get(place_of(number)?)
    }

    /// The bytes of the message of the number, from 0: a delta.
    pub fn message(&self, number: usize) -> Option<&[u8]>
        ensures { option_map (λ bytes. bytes.now) result ≡ slice_get self.now.messages number }
    {
        self.messages.get(number).map(Vec::as_slice)
    }

    /// Does what the event says. The world is given up where there is no memory for it.
    pub(crate) fn step(&mut self, event: &Event) -> Result<Outcome, NoMemory>
        ensures { IfOk result (λ outcome. (h : History) → Keeps h self.old → (next : History)
            × Steps h event.now outcome next × Keeps next self.new) }
    {
        match self.place(event.node) {
            Some(place) => self.act(place, &event.action),
            None => Ok(Outcome::NoSuchNode),
        }
    }

    fn place(&self, number: u16) -> Option<usize>
        ensures some { IfSome result (λ place. (number ≡ suc place) × (place < length self.now.nodes)) }
        ensures none { IfNone result (at_number self.now.nodes number ≡ None) }
    {
        let place = place_of(number)?;
        (place < self.nodes.len()).then_some(place)
    }

    fn act(&mut self, place: usize, action: &Action) -> Result<Outcome, NoMemory>
        requires { place < length self.old.nodes }
        ensures { IfOk result (λ outcome. Makes self.old place action.now outcome self.new) }
    {
        match action {
            Action::Take { now, from, bytes } => Ok(Outcome::Taken(self.nodes[place].take(
                *now,
                *from,
                bytes.as_slice(),
            ))),
            Action::Observe {
                now,
                id,
                path,
                accept,
                mid,
            } => {
                let outcome = self.nodes[place].observe(*now, *id, *path, *accept, *mid);
                Ok(Outcome::Observed(outcome))
            }
            Action::Cancel { now, token, mid } => {
                Ok(Outcome::Cancelled(self.nodes[place].cancel(*now, *token, *mid)))
            }
            Action::Sweep { now } => Ok(Outcome::Swept(self.nodes[place].sweep(*now))),
            Action::Ask { now, question } => {
                Ok(Outcome::Answered(self.nodes[place].ask(*now, question)))
            }
            Action::Send { since } => self.send(place, *since),
            Action::Deliver { message } => Ok(self.deliver(place, *message)),
        }
    }

    fn send(&mut self, place: usize, since: u64) -> Result<Outcome, NoMemory>
        requires { place < length self.old.nodes }
        ensures { IfOk result (λ outcome. Makes self.old place (Send since) outcome self.new) }
    {
        let node = &self.nodes[place];
        let Ok(delta) = node.delta_since(since) else {
            return Ok(Outcome::Sent(Err(NoMemory)));
        };
        let sending = Sending {
            message: self.messages.len(),
            change: node.change(),
        };
        self.messages.push(delta)?;
        Ok(Outcome::Sent(Ok(sending)))
    }

    fn deliver(&mut self, place: usize, message: usize) -> Outcome
        requires { place < length self.old.nodes }
        ensures { Makes self.old place (Deliver message) result self.new }
    {
        match self.messages.get(message) {
            Some(bytes) => Outcome::Delivered(self.nodes[place].merge(bytes)),
            None => Outcome::NoSuchMessage,
        }
    }
}

/// Where the node of the number stands among all.
fn place_of(number: u16) -> Option<usize>
    ensures some { IfSome result (λ place. number ≡ suc place) }
    ensures none { IfNone result (number ≡ 0) }
{
    usize::from(number).checked_sub(1)
}
