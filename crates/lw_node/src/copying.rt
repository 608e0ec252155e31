//! A node that is copied, and nodes that are compared.

ghost use Rattle.std.specs.Prelude.{◌≡◌, ◌↔◌, IfOk, IsTrue};

use crate::node::Node;
use lw_stamp::NoMemory;

impl Node {
    /// A node with the same number, clock, slots and change numbers. What is filed beside the slots is made anew.
    pub fn copy(&self) -> Result<Node, NoMemory>
        ensures { IfOk result (λ copy. copy ≡ self.now) }
    {
        Ok(Node {
            alloc: self.alloc,
            number: self.number,
            clock: self.clock,
            table: self.table.copy()?,
        })
    }

    /// Whether both have the same number, clock, slots and change numbers. It takes no memory.
    pub fn same(&self, other: &Node) -> bool
        ensures { IsTrue result ↔ (self.now ≡ other.now) }
    {
        self.number == other.number
            && self.clock.counter() == other.clock.counter()
            && self.table.same(&other.table)
    }
}
