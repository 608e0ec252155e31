//! What a node sends of its state.

ghost use Rattle.std.specs.Prelude.{IfOk};
ghost use Rattle.lw_node.specs.Exchange.{IsDeltaSince};

use crate::node::Node;
use lw_delta::Writer;
use lw_stamp::NoMemory;

impl Node {
    /// The bytes of a delta: the clock, and the slots that moved after this change number, or all once the
    /// numbers have come to their end. It costs what it gives, which is in no contract.
    pub fn delta_since(&self, since: u64) -> Result<Vec<u8>, NoMemory>
        ensures { IfOk result (λ bytes. IsDeltaSince self.now since bytes.items) }
    {
        let mut writer = Writer::new(self.alloc, self.clock.counter())?;
        for (endpoint, slot) in self.table.changed_since(since)? {
            writer.slot(endpoint, slot)?;
        }
        writer.end()
    }
}
