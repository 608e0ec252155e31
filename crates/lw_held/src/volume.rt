ghost use Rattle.std.specs.Prelude.{◌≡◌, ◌≢◌, ◌<◌, ◌^◌, [], length};

use crate::entry::Entry;
use lw_node::Node;
use std::marker::Model;

/// Entries that were cut off a journal, with the node as it stood before the first of them and after the last: they are
/// a legal history from the one to the other. Before the first entry of all the node is a new one. It cannot be copied.
#[derive(Drop)]
pub struct Volume {
    number: u16,
    first: u64,
    opening: Node,
    entries: Vec<Entry>,
    closing: Node,
}

impl Model for Volume {
    ghost use Rattle.std.specs.Coded.{codes};
    ghost use Rattle.lw_node.specs.Node.{node_code};
    ghost use Rattle.lw_held.specs.History.{VolumeContent};

    ghost Value = { VolumeContent };

    ghost coded = { Prim.hlevel (codes, node_code) };

    ghost use Rattle.std.specs.Prelude.{◌≡◌, ◌≢◌, ◌<◌, ◌^◌, []};
    ghost use Rattle.lw_held.specs.History.{IsBegun, Leads};

    ghost view = { λ v.
        record { first = v.first; opening = v.opening; entries = v.entries.items; closing = v.closing } };

    ghost invariant = { λ v. (v.number ≡ v.opening.number) × (v.entries.items ≢ [])
        × Leads v.opening v.entries.items v.closing × (v.first < 2 ^ 63) × IsBegun v.first v.opening };
}

impl Volume {
    ghost use Rattle.lw_held.specs.Agree.{end_of};
    ghost use Rattle.lw_held.specs.History.{Leads, IsBegun, IsVolume};

    /// The volume of these entries, which lead from the opening, a node of the number, to the closing.
    pub(crate) fn new(
        number: u16,
        first: u64,
        opening: Node,
        entries: Vec<Entry>,
        closing: Node,
    ) -> Volume
        requires number { number ≡ opening.number }
        requires some { entries.items ≢ [] }
        requires legal { Leads opening entries.items closing }
        requires within { first < 2 ^ 63 }
        requires begun { IsBegun first opening }
        ensures { result ≡ record { first = first; opening = opening; entries = entries.items; closing = closing } }
    {
        Volume {
            number,
            first,
            opening,
            entries,
            closing,
        }
    }

    /// Does nothing: its contract says that there are entries, that they are a legal history from the opening to the
    /// closing, and that the first opening is a new node.
    pub fn legal(&self)
        ensures { IsVolume self.now }
    {
        let _length = self.entries.len();
    }

    /// The number of the node.
    pub fn node(&self) -> u16
        ensures { result ≡ self.now.opening.number }
    {
        self.number
    }

    /// The place of the first entry.
    pub fn first(&self) -> u64
        ensures value { result ≡ self.now.first }
        ensures within { result < 2 ^ 63 }
    {
        self.first
    }

    /// The place after the last entry.
    pub(crate) fn end(&self) -> u64
        ensures { result ≡ end_of self.now }
    {
        let count = self.entries.len() as u64;
        count + self.first
    }

    /// The calls with their replies, of which there is one at least.
    pub fn entries(&self) -> &[Entry]
        ensures value { result.now ≡ self.now.entries }
        ensures within { length result.now < 2 ^ 63 }
    {
        self.entries.as_slice()
    }

    /// The node as it stood before the first entry.
    pub fn opening(&self) -> &Node
        ensures { result.now ≡ self.now.opening }
    {
        &self.opening
    }

    /// The node as it stood after the last entry.
    pub fn closing(&self) -> &Node
        ensures { result.now ≡ self.now.closing }
    {
        &self.closing
    }
}
