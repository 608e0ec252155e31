use lw_reg::{Endpoint, Slot};
use std::marker::Model;

/// What a node sends of its state: its clock, and slots by their endpoints, which rise.
#[derive(Drop)]
pub struct Delta {
    /// The counter of the sender's clock.
    pub clock: u64,
    pub slots: Vec<(Endpoint, Slot)>,
}

impl Model for Delta {
    ghost use Rattle.std.specs.Coded.{codes};
    ghost use Rattle.lw_reg.specs.contracts.slot.Slot as slot;
    ghost use Rattle.lw_delta.specs.Delta.{DeltaContent};

    ghost Value = { DeltaContent };

    ghost coded = { Prim.hlevel (codes, slot.the_row.coded) };

    ghost view = { λ d. record { clock = d.clock; slots = d.slots.items } };
}
