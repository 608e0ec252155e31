ghost use Rattle.std.specs.Prelude.{◌≡◌, ◌↔◌, IsTrue};

use lw_node::{Call, Reply};

/// A call that was made of a node, and its reply.
#[derive(Drop)]
pub struct Entry {
    /// The number of the pass that the call was made with.
    pub pass: u32,
    /// How many calls were made with the pass before.
    pub number: u64,
    pub call: Call,
    pub reply: Reply,
}

impl Entry {
    /// Whether the content is equal.
    pub fn same(&self, other: &Entry) -> bool
        ensures { IsTrue result ↔ (self.now ≡ other.now) }
    {
        self.pass == other.pass
            && self.number == other.number
            && self.call.same(&other.call)
            && self.reply.same(&other.reply)
    }
}

/// A part of a transcript: an entry, and where it stands in the journal of its node.
#[derive(Drop)]
pub struct Part {
    pub node: u16,
    /// The place in the node's journal, from 0.
    pub place: u64,
    pub entry: Entry,
}
