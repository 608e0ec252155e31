ghost use Rattle.std.specs.Prelude.{◌≡◌, OnOk, OnErr, IsOk, IsSomeAnd};
ghost use Rattle.std.specs.FinMap.{get};
ghost use Rattle.lw_join.specs.Maps.{one_key};
ghost use Rattle.lw_reg.specs.Slot.{slot_below};
ghost use Rattle.lw_reg.specs.State.{state_join};
ghost use Rattle.lw_table.specs.Changes.{Recounts};
ghost use Rattle.lw_table.specs.Table.{empty_table};

use crate::filed::Filed;
use crate::moves::join_first;
use crate::rows::Rows;
use lw_reg::{Endpoint, Slot};
use lw_stamp::NoMemory;
use std::alloc::Global;
use std::marker::Model;

/// The slots of the endpoints that a node knows of.
#[derive(Drop)]
pub struct Table {
    pub(crate) alloc: Global,
    pub(crate) rows: Rows,
    pub(crate) filed: Filed,
    pub(crate) change: u64,
}

impl Model for Table {
    ghost use Rattle.lw_table.specs.Rows.{IsRows, held_in, table_in};
    ghost use Rattle.lw_table.specs.Table.{TableContent, table_code, IsTable};

    ghost Value = { TableContent };

    ghost coded = { table_code };

    ghost view = { λ t. table_in t.rows t.change };

    ghost invariant = { λ t. IsRows t.rows
        × IsTable t.filed.keys t.filed.numbers t.filed.due (held_in t.rows) (table_in t.rows t.change) };
}

impl Table {
    /// A table that knows of no endpoint.
    pub fn new(alloc: Global) -> Table
        ensures { result ≡ empty_table }
    {
        Table {
            alloc,
            rows: Rows::new(alloc),
            filed: Filed::new(alloc),
            change: 0,
        }
    }

    /// Joins a slot to that of the endpoint. A slot that tells nothing new takes no memory. Refused, nothing is
    /// changed.
    pub fn join(&mut self, endpoint: Endpoint, slot: Slot) -> Result<(), NoMemory>
        ensures state { OnOk result (self.new.state ≡ state_join self.old.state (one_key endpoint slot)) }
        ensures count { OnOk result (Recounts self.old.state self.new.state self.old.count self.new.count) }
        ensures known { IsSomeAnd (get self.old.state endpoint) (slot_below slot) → IsOk result
            × (self.new ≡ self.old) }
        ensures unchanged { OnErr result (self.new ≡ self.old) }
    {
        let change = self.change.saturating_add(1);
        let moved = join_first(
            self.alloc,
            &mut self.filed,
            &mut self.rows,
            endpoint.into_text().into_string(),
            slot,
            change,
        )?;
        if moved {
            self.change = change;
        }
        Ok(())
    }

    /// How often a slot has moved. It stays at the greatest number.
    pub fn change(&self) -> u64
        ensures { result ≡ self.now.count.change }
    {
        self.change
    }
}
