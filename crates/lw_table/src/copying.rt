//! A table that is copied, and tables that are compared.

ghost use Rattle.std.specs.Prelude.{◌≡◌, ◌↔◌, ℕ, Some, IfOk, OnOk, IsTrue, slice_get};
ghost use Rattle.lw_table.specs.declared.rows.NamedRow.{NamedRow as Named};
ghost use Rattle.lw_table.specs.inner.Copying.{Copies, CopiesRow, KeysAll, MayBeCopied, NumbersAll};
ghost use Rattle.lw_table.specs.inner.Due.{OtherDue};
ghost use Rattle.lw_table.specs.inner.Filed.{IsDueAs};
ghost use Rattle.lw_table.specs.Rows.{IsRows, name_of};
ghost use Rattle.lw_table.specs.inner.Rows.{row_at};

use crate::filed::Filed;
use crate::moves::add_row;
use crate::row::Row;
use crate::rows::Rows;
use crate::table::Table;
use lw_join::Copied;
use lw_stamp::NoMemory;
use std::alloc::Global;

impl Table {
    /// A table with the same slots and change numbers. What is filed beside them is made anew.
    pub fn copy(&self) -> Result<Table, NoMemory>
        ensures { IfOk result (λ copy. copy ≡ self.now) }
    {
        let (filed, rows) = copies(self.alloc, &self.rows)?;
        Ok(Table {
            alloc: self.alloc,
            rows,
            filed,
            change: self.change,
        })
    }

    /// Whether both have the same slots and the same change numbers. It takes no memory, and costs a descent of each
    /// tree of rows for each endpoint of either; that is in no contract.
    pub fn same(&self, other: &Table) -> bool
        ensures { IsTrue result ↔ (self.now ≡ other.now) }
    {
        self.change == other.change
            && are_same(&self.rows, &other.rows)
            && are_same(&other.rows, &self.rows)
    }
}

/// A copy of each row, and what is filed of them. The rows keep their places.
fn copies(alloc: Global, original: &Rows) -> Result<(Filed, Rows), NoMemory>
    requires { IsRows original.now }
    ensures { IfOk result (λ r. Copies original.now r.0 r.1) }
{
    let mut filed = Filed::new(alloc);
    let mut rows = Rows::new(alloc);
    for named in &original.rows {
        copy_row(
            alloc,
            original,
            named.endpoint.as_str(),
            &mut filed,
            &mut rows,
        )?;
    }
    Ok((filed, rows))
}

/// Puts a copy of the endpoint's row, where it has one and it is not put yet.
fn copy_row(
    alloc: Global,
    original: &Rows,
    endpoint: &str,
    filed: &mut Filed,
    rows: &mut Rows,
) -> Result<(), NoMemory>
    requires original { IsRows original.now }
    requires rows { IsRows rows.old }
    requires due { IsDueAs filed.old endpoint.now (row_at rows.old endpoint.now) }
    requires keys { KeysAll filed.old.keys rows.old }
    requires numbers { NumbersAll filed.old.numbers rows.old }
    requires begun { MayBeCopied endpoint.now original.now rows.old }
    ensures others { OtherDue endpoint.now filed.old.due filed.new.due }
    ensures copied { OnOk result (CopiesRow endpoint.now original.now rows.old rows.new
        × IsDueAs filed.new endpoint.now (row_at original.now endpoint.now) × KeysAll filed.new.keys rows.new
        × NumbersAll filed.new.numbers rows.new) }
{
    if rows.get(endpoint).is_some() {
        return Ok(());
    }
    match original.get(endpoint) {
        None => Ok(()),
        Some((_, row)) => {
            let slot = row.slot.copy(alloc)?;
            let number = row.number;
            let name = String::from_str(alloc, endpoint)?;
            add_row(alloc, filed, rows, name, Row { slot, number })
        }
    }
}

/// Whether the endpoint of each row has the same row among the others.
fn are_same(rows: &Rows, others: &Rows) -> bool
    requires rows { IsRows rows.now }
    requires others { IsRows others.now }
    ensures { IsTrue result ↔ ((place : ℕ) (named : Named) → slice_get rows.now.rows.items place ≡ Some named
        → row_at rows.now (name_of named) ≡ row_at others.now (name_of named)) }
{
    for named in &rows.rows {
        if !has_same(rows, others, named.endpoint.as_str()) {
            return false;
        }
    }
    true
}

fn has_same(rows: &Rows, others: &Rows, endpoint: &str) -> bool
    requires rows { IsRows rows.now }
    requires others { IsRows others.now }
    ensures { IsTrue result ↔ (row_at rows.now endpoint.now ≡ row_at others.now endpoint.now) }
{
    match (rows.get(endpoint), others.get(endpoint)) {
        (None, None) => true,
        (Some((_, row)), Some((_, other))) => row.same(other),
        _ => false,
    }
}
