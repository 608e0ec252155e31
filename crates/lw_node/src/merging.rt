//! Deltas of other nodes.

ghost use Rattle.std.specs.Prelude.{◌≡◌, ◌↔◌, ℕ, ◌<◌, ◌^◌, [], List, length, IsOk, OnOk, OnErr, Err};
ghost use Rattle.std.specs.List.Sorted.{IsStrictlySortedBy};
ghost use Rattle.lw_stamp.specs.TextOrder.{text_cmp};
ghost use Rattle.lw_join.specs.Maps.{one_key};
ghost use Rattle.lw_reg.specs.declared.slot.Slot.{Slot as Slots};
ghost use Rattle.lw_reg.specs.State.{state_join};
ghost use Rattle.lw_table.specs.Changes.{Recounts};
ghost use Rattle.lw_delta.specs.declared.fault.DeltaFault.{DeltaFault as Faults};
ghost use Rattle.lw_delta.specs.Delta.{DeltaContent, IsSpelling, IsFault};
ghost use Rattle.lw_delta.specs.Unread.{IsLeft};
ghost use Rattle.lw_node.specs.Exchange.{Merges, IsLeastOfBoth, known_by, known_from};
ghost use Rattle.lw_node.specs.inner.Exchange.{JoinsSlots};

use crate::node::Node;
use lw_call::MergeFault;
use lw_delta::Reader;
use lw_reg::{Endpoint, Slot};
use lw_stamp::NoMemory;
use lw_table::Table;

impl Node {
    /// Merges a delta: the clock becomes the greater of both, and the slots are joined. The answer is how many
    /// slots the delta has.
    pub fn merge(&mut self, bytes: &[u8]) -> Result<usize, MergeFault>
        ensures merges { Merges self.old bytes.now result self.new }
        ensures malformed { (fault : Faults) → (result ≡ Err (MergeFault.Malformed fault)) ↔ IsFault bytes.now fault }
        // What is known afterwards is the least that is above both.
        ensures least { (d : DeltaContent) → IsSpelling bytes.now d → IsOk result
            → IsLeastOfBoth (known_by self.old) (known_from d) (known_by self.new) }
        // A delta without slots takes no memory.
        ensures none { (clock : ℕ) → IsSpelling bytes.now (record { clock = clock; slots = [] }) → IsOk result }
    {
        let slots = match Reader::new(self.alloc, bytes) {
            Ok(slots) => slots,
            Err(fault) => return Err(MergeFault::Malformed(fault)),
        };
        self.clock.raise(slots.clock());
        join_slots(&mut self.table, slots)
    }
}

/// Joins the slots of a delta to those of their endpoints, which rise.
fn join_slots(table: &mut Table, mut slots: Reader<'_>) -> Result<usize, MergeFault>
    requires fits { length slots.bytes < 2 ^ 64 }
    requires rise { (ss : List (List ℕ × Slots)) × IsLeft slots ss × IsStrictlySortedBy (λ x y. text_cmp x.0 y.0) ss }
    ensures { (ss : List (List ℕ × Slots)) × IsLeft slots.entry ss × JoinsSlots table.old ss result table.new }
{
    let mut joined = 0;
    loop {
        let next = match slots.next() {
            Ok(next) => next,
            Err(NoMemory) => return Err(MergeFault::NoMemory { joined }),
        };
        let Some(entry) = next else {
            return Ok(joined);
        };
        if join_slot(table, entry).is_err() {
            return Err(MergeFault::NoMemory { joined });
        }
        joined += 1;
    }
}

/// Joins a slot to that of its endpoint.
fn join_slot(table: &mut Table, entry: (Endpoint, Slot)) -> Result<(), NoMemory>
    ensures state { OnOk result (table.new.state ≡ state_join table.old.state (one_key entry.0 entry.1)) }
    ensures count { OnOk result (Recounts table.old.state table.new.state table.old.count table.new.count) }
    ensures unchanged { OnErr result (table.new ≡ table.old) }
{
    let (endpoint, slot) = entry;
    table.join(endpoint, slot)
}
