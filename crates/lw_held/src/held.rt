ghost use Rattle.std.specs.Prelude.{◌≡◌, ◌≢◌, ◌+◌, ◌<◌, ◌^◌, [], length, Ok, None, IfOk, IfErr, IsSomeAnd, OnOk, OnErr};
ghost use Rattle.lw_node.specs.Node.{fresh};

use crate::agreeing;
use crate::entry::Entry;
use crate::pass::Pass;
use crate::volume::Volume;
use lw_node::{Call, Node};
use lw_stamp::NoMemory;
use std::alloc::Global;
use std::marker::Model;
use std::mem;

/// The greatest place at which a journal can begin.
const MOST_PLACES: u64 = u64::MAX / 2;

/// A node, and the journal of its calls since an opening, a node as it stood before the first of them: the journal is a
/// legal history from the opening, and the node is where it leads. Before the first call of all that is a new node.
#[derive(Drop)]
pub struct Held {
    alloc: Global,
    number: u16,
    node: Node,
    opening: Node,
    /// The place of the first entry of the journal.
    first: u64,
    journal: Vec<Entry>,
}

impl Model for Held {
    ghost use Rattle.std.specs.Coded.{codes};
    ghost use Rattle.lw_node.specs.Node.{node_code};
    ghost use Rattle.lw_held.specs.History.{HeldContent};

    ghost Value = { HeldContent };

    ghost coded = { Prim.hlevel (codes, node_code) };

    ghost use Rattle.std.specs.Prelude.{◌≡◌, ◌<◌, ◌^◌};
    ghost use Rattle.lw_held.specs.History.{IsBegun, Leads};

    ghost view = { λ h. record { node = h.node; opening = h.opening; first = h.first; journal = h.journal.items } };

    ghost invariant = { λ h. (h.number ≡ h.node.number) × Leads h.opening h.journal.items h.node × (h.first < 2 ^ 63)
        × IsBegun h.first h.opening };
}

impl Held {
    ghost use Rattle.lw_held.specs.Agree.{AreDistinct, Agrees, Fails, IsFineIn, IsFirstBreak};
    ghost use Rattle.lw_held.specs.History.{Cuts, IsLegal, Enters};

    /// A new node with an empty journal.
    pub fn new(alloc: Global, number: u16) -> Held
        ensures { result ≡ record { node = fresh number; opening = fresh number; first = 0; journal = [] } }
    {
        Held {
            alloc,
            number,
            node: Node::new(alloc, number),
            opening: Node::new(alloc, number),
            first: 0,
            journal: Vec::new(alloc),
        }
    }

    /// Does nothing: its contract says that the journal is a legal history from the opening to the node, and the first
    /// opening a new node.
    pub fn legal(&self)
        ensures { IsLegal self.now }
    {
        let _length = self.journal.len();
    }

    /// Makes the call, with the number of a pass and of the call among those of the pass. Gives a second copy of the
    /// entry that is kept, and its place: that of the first entry, and how many are before it. A reply of `NoMemory` is
    /// an entry too.
    pub fn step(&mut self, pass: u32, number: u64, call: &Call) -> Result<(Entry, u64), NoMemory>
        ensures entered { IfOk result (λ r. Enters self.old pass number call.now r.0 r.1 self.new) }
        ensures unchanged { OnErr result (self.new ≡ self.old) }
    {
        self.journal.reserve(1)?;
        let (first, second) = two_copies(self.alloc, call)?;
        let place = self.first + self.journal.len() as u64;
        let (reply, again) = self.node.act_twice(call);
        self.journal.push_reserved(Entry {
            pass,
            number,
            call: first,
            reply,
        });
        let entry = Entry {
            pass,
            number,
            call: second,
            reply: again,
        };
        Ok((entry, place))
    }

    /// Cuts off the journal, and keeps the node as it stands as the opening of what comes. There is no volume of an
    /// empty journal. It copies the node twice.
    pub fn cut(&mut self) -> Result<Option<Volume>, NoMemory>
        ensures none { self.old.journal ≡ [] → (result ≡ Ok None) × (self.new ≡ self.old) }
        ensures cut { self.old.journal ≢ [] → IfOk result (λ volume. IsSomeAnd volume (λ v. Cuts self.old v self.new)) }
        ensures unchanged { OnErr result (self.new ≡ self.old) }
    {
        if self.journal.is_empty() {
            return Ok(None);
        }
        Ok(Some(self.cut_off()?))
    }

    /// Cuts off the journal, which has an entry.
    fn cut_off(&mut self) -> Result<Volume, NoMemory>
        requires { self.old.journal ≢ [] }
        ensures cut { IfOk result (λ volume. Cuts self.old volume self.new) }
        ensures unchanged { OnErr result (self.new ≡ self.old) }
    {
        let next = self.next_first()?;
        let closing = self.node.copy()?;
        let opening = self.node.copy()?;
        let first = mem::replace(&mut self.first, next);
        let before = mem::replace(&mut self.opening, opening);
        let entries = mem::replace(&mut self.journal, Vec::new(self.alloc));
        Ok(Volume::new(self.number, first, before, entries, closing))
    }

    /// The place after the last entry. Where it is not below 2^63 there is no memory: so many calls are never made.
    fn next_first(&self) -> Result<u64, NoMemory>
        ensures { IfOk result (λ place. (place ≡ self.now.first + length self.now.journal) × (place < 2 ^ 63)) }
    {
        let next = self.first + self.journal.len() as u64;
        if next > MOST_PLACES {
            return Err(NoMemory);
        }
        Ok(next)
    }

    /// The place of the first entry of the journal.
    pub(crate) fn first(&self) -> u64
        ensures value { result ≡ self.now.first }
        ensures within { result < 2 ^ 63 }
    {
        self.first
    }

    /// The entries since the opening.
    pub(crate) fn journal(&self) -> &[Entry]
        ensures value { result.now ≡ self.now.journal }
        ensures within { length result.now < 2 ^ 63 }
    {
        self.journal.as_slice()
    }

    /// The node as it stood before the first entry of the journal.
    pub(crate) fn opening(&self) -> &Node
        ensures { result.now ≡ self.now.opening }
    {
        &self.opening
    }

    /// Whether the transcripts of the passes are the volumes of the node and the journal, and the node is of the
    /// number: each entry is a part that its pass holds, no transcript has a further part for the node, and the volumes
    /// and the journal follow one another from place 0, each from the node that the one before left. Volumes of other
    /// nodes are passed over. `Err` is the least place that fails, or 0 where the node is of another number.
    pub fn agrees(&self, node: u16, volumes: &[Volume], passes: &[Pass]) -> Result<(), u64>
        requires { AreDistinct passes.now }
        ensures ok { OnOk result (Agrees node volumes.now self.now passes.now) }
        ensures err { IfErr result (λ place. Fails node volumes.now self.now passes.now place) }
    {
        if self.number != node {
            return Err(0);
        }
        match self.first_failing(node, volumes, passes) {
            None => Ok(()),
            Some(place) => Err(place),
        }
    }

    /// The least place that is not fine.
    fn first_failing(&self, node: u16, volumes: &[Volume], passes: &[Pass]) -> Option<u64>
        requires { AreDistinct passes.now }
        ensures { IsFirstBreak (IsFineIn node volumes.now self.now passes.now) result }
    {
        let new = Node::new(self.alloc, node);
        agreeing::first_failing(node, volumes, self, passes, &new)
    }
}

fn two_copies(alloc: Global, call: &Call) -> Result<(Call, Call), NoMemory>
    ensures { IfOk result (λ r. (r.0 ≡ call.now) × (r.1 ≡ call.now)) }
{
    let first = call.copy(alloc)?;
    let second = call.copy(alloc)?;
    Ok((first, second))
}
