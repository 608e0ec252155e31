//! A row that comes or moves, and what is filed of its endpoint.

ghost use Rattle.std.specs.Prelude.{◌≡◌, ◌≢◌, ◌↔◌, ℕ, List, Some, None, IfOk, OnOk, OnErr, IsOk, length, string_bytes};
ghost use Rattle.lw_reg.specs.Slot.{slot_below};
ghost use Rattle.lw_table.specs.inner.Filed.{HasNumber, IsFiled, IsOver, NumbersRow, OthersSame};
ghost use Rattle.lw_table.specs.Table.{number_of};
ghost use Rattle.lw_table.specs.inner.Moves.{moved_row, FilesRow, IsFirstFiled, IsKnown, JoinsRow, JoinsRowAt, PutsRow, SameRows};
ghost use Rattle.lw_table.specs.Rows.{IsRows};
ghost use Rattle.lw_table.specs.inner.Rows.{row_at, spot_of};
ghost use Rattle.lw_table.specs.inner.KeyChanges.{HasKeyChanges};

use crate::filed::{
    Filed, add_due, add_keys, add_number, drop_number, keep_revived, lower_due, move_number,
};
use crate::key::Key;
use crate::key_changes::key_changes;
use crate::row::Row;
use crate::rows::Rows;
use lw_join::Join;
use lw_reg::Slot;
use lw_stamp::NoMemory;
use std::alloc::Global;

/// Joins the slot to that of the endpoint, whose row takes the number. Whether it did: a slot that tells nothing new
/// changes nothing, and takes no memory.
pub(crate) fn join_first(
    alloc: Global,
    filed: &mut Filed,
    rows: &mut Rows,
    endpoint: String,
    slot: Slot,
    number: u64,
) -> Result<bool, NoMemory>
    requires filed { IsFiled filed.old (string_bytes endpoint) (spot_of rows.old (string_bytes endpoint))
        (row_at rows.old (string_bytes endpoint)) }
    requires numbers { HasNumber filed.old.numbers (spot_of rows.old (string_bytes endpoint))
        (number_of (row_at rows.old (string_bytes endpoint))) }
    requires rows { IsRows rows.old }
    ensures others { OthersSame filed.old filed.new (string_bytes endpoint)
        (spot_of rows.old (string_bytes endpoint)) }
    ensures joined { IfOk result (λ moved.
        JoinsRowAt moved (string_bytes endpoint) slot number rows.old rows.new filed.old filed.new) }
    ensures known { IsKnown (row_at rows.old (string_bytes endpoint)) slot → IsOk result }
    ensures unchanged { OnErr result (SameRows rows.old rows.new
        × FilesRow (string_bytes endpoint) (spot_of rows.old (string_bytes endpoint))
        (row_at rows.old (string_bytes endpoint)) filed.old filed.new) }
{
    let name = endpoint.as_str();
    match rows.place(name) {
        None => {
            add_row(alloc, filed, rows, endpoint, Row { slot, number })?;
            Ok(true)
        }
        Some(place) => {
            let named = &mut rows.rows[place as usize];
            join_row(alloc, filed, &mut named.row, name, place, slot, number)
        }
    }
}

// Joins the slot to that of the row, which takes the number. Whether it did.
fn join_row(
    alloc: Global,
    filed: &mut Filed,
    row: &mut Row,
    endpoint: &str,
    place: u32,
    slot: Slot,
    number: u64,
) -> Result<bool, NoMemory>
    requires filed { IsFiled filed.old endpoint.now place (Some row.old) }
    requires numbers { HasNumber filed.old.numbers place (Some row.old.number) }
    ensures others { OthersSame filed.old filed.new endpoint.now place }
    ensures filed { FilesRow endpoint.now place (Some row.new) filed.old filed.new }
    ensures joined { IfOk result (λ moved. JoinsRow moved slot number row.old row.new) }
    ensures known { slot_below slot row.old.slot → IsOk result }
    ensures unchanged { OnErr result (row.new ≡ row.old) }
{
    if slot.le(&row.slot) {
        return Ok(false);
    }
    move_row(alloc, filed, row, endpoint, place, slot, number)?;
    Ok(true)
}

// Joins a slot to that of the row, which takes the number.
fn move_row(
    alloc: Global,
    filed: &mut Filed,
    row: &mut Row,
    endpoint: &str,
    place: u32,
    slot: Slot,
    number: u64,
) -> Result<(), NoMemory>
    requires filed { IsFiled filed.old endpoint.now place (Some row.old) }
    requires numbers { HasNumber filed.old.numbers place (Some row.old.number) }
    ensures others { OthersSame filed.old filed.new endpoint.now place }
    ensures filed { FilesRow endpoint.now place (Some row.new) filed.old filed.new }
    ensures moved { OnOk result (row.new ≡ moved_row row.old slot number) }
    ensures unchanged { OnErr result (row.new ≡ row.old) }
{
    let keys = key_changes(alloc, Some(&row.slot), &slot)?;
    let moved = try_move(filed, row, endpoint, place, slot, number, &keys);
    filed.remove_stale(endpoint, place, Some(row), &keys);
    moved
}

// The place may be left filed under more keys than its row has.
fn try_move(
    filed: &mut Filed,
    row: &mut Row,
    endpoint: &str,
    place: u32,
    slot: Slot,
    number: u64,
    keys: &[Key],
) -> Result<(), NoMemory>
    requires filed { IsFiled filed.old endpoint.now place (Some row.old) }
    requires numbers { HasNumber filed.old.numbers place (Some row.old.number) }
    requires keys { HasKeyChanges (Some row.old.slot) slot keys.now }
    ensures others { OthersSame filed.old filed.new endpoint.now place }
    ensures numbers { NumbersRow place (Some row.new) filed.old.numbers filed.new.numbers }
    ensures moved { OnOk result ((row.new ≡ moved_row row.old slot number)
        × IsOver filed.new endpoint.now place (Some row.new) keys.now) }
    ensures unchanged { OnErr result ((row.new ≡ row.old) × IsOver filed.new endpoint.now place (Some row.new) keys.now) }
{
    add_keys(&mut filed.keys, place, keys)?;
    let before = row.slot.deadline();
    let was_removed = row.slot.is_removed();
    row.slot.join_with(slot)?;
    move_number(&mut filed.numbers, place, row.number, number);
    row.number = number;
    lower_due(&mut filed.due, endpoint, before, &row.slot);
    keep_revived(&mut filed.due, endpoint, was_removed, &row.slot);
    Ok(())
}

/// Puts the first row of an endpoint.
pub(crate) fn add_row(
    alloc: Global,
    filed: &mut Filed,
    rows: &mut Rows,
    endpoint: String,
    row: Row,
) -> Result<(), NoMemory>
    requires filed { IsFiled filed.old (string_bytes endpoint) (length rows.old.rows.items) None }
    requires numbers { HasNumber filed.old.numbers (length rows.old.rows.items) None }
    requires rows { IsRows rows.old }
    requires absent { row_at rows.old (string_bytes endpoint) ≡ None }
    ensures others { OthersSame filed.old filed.new (string_bytes endpoint) (length rows.old.rows.items) }
    ensures added { OnOk result (PutsRow (string_bytes endpoint) row rows.old rows.new
        × FilesRow (string_bytes endpoint) (length rows.old.rows.items) (Some row) filed.old filed.new) }
    ensures unchanged { OnErr result (SameRows rows.old rows.new
        × FilesRow (string_bytes endpoint) (length rows.old.rows.items) None filed.old filed.new) }
{
    let Ok(place) = u32::try_from(rows.rows.len()) else {
        return Err(NoMemory);
    };
    let keys = key_changes(alloc, None, &row.slot)?;
    let number = row.number;
    file_first(filed, endpoint.as_str(), place, &row, &keys)?;
    match rows.insert(alloc, endpoint, place, row) {
        Ok(()) => Ok(()),
        Err(endpoint) => {
            unfile_first(filed, endpoint.as_str(), place, number, &keys);
            Err(NoMemory)
        }
    }
}

/// Files the endpoint, which has no row yet, under what its first row has. Refused, it is filed under nothing.
fn file_first(
    filed: &mut Filed,
    endpoint: &str,
    place: u32,
    row: &Row,
    keys: &[Key],
) -> Result<(), NoMemory>
    requires filed { IsFiled filed.old endpoint.now place None }
    requires numbers { HasNumber filed.old.numbers place None }
    requires keys { HasKeyChanges None row.now.slot keys.now }
    ensures others { OthersSame filed.old filed.new endpoint.now place }
    ensures filed { OnOk result (FilesRow endpoint.now place (Some row.now) filed.old filed.new) }
    ensures unchanged { OnErr result (FilesRow endpoint.now place None filed.old filed.new) }
{
    match try_file(filed, endpoint, place, row, keys) {
        Ok(()) => Ok(()),
        Err(refused) => {
            filed.remove_stale(endpoint, place, None, keys);
            Err(refused)
        }
    }
}

// The place may be left filed under some of the keys, and the endpoint kept.
fn try_file(
    filed: &mut Filed,
    endpoint: &str,
    place: u32,
    row: &Row,
    keys: &[Key],
) -> Result<(), NoMemory>
    requires filed { IsFiled filed.old endpoint.now place None }
    requires numbers { HasNumber filed.old.numbers place None }
    requires keys { HasKeyChanges None row.now.slot keys.now }
    ensures others { OthersSame filed.old filed.new endpoint.now place }
    ensures filed { OnOk result (FilesRow endpoint.now place (Some row.now) filed.old filed.new) }
    ensures unchanged { OnErr result (IsOver filed.new endpoint.now place None keys.now
        × (filed.new.numbers ≡ filed.old.numbers)) }
{
    add_keys(&mut filed.keys, place, keys)?;
    add_due(&mut filed.due, endpoint, &row.slot)?;
    add_number(&mut filed.numbers, place, row.number)
}

/// Takes away what is filed of an endpoint whose row was refused.
fn unfile_first(filed: &mut Filed, endpoint: &str, place: u32, number: u64, keys: &[Key])
    requires filed { IsFirstFiled filed.old endpoint.now place keys.now }
    requires numbers { HasNumber filed.old.numbers place (Some number) }
    ensures others { OthersSame filed.old filed.new endpoint.now place }
    ensures none { IsFiled filed.new endpoint.now place None }
    ensures numbers { NumbersRow place None filed.old.numbers filed.new.numbers }
{
    drop_number(&mut filed.numbers, place, number);
    filed.remove_stale(endpoint, place, None, keys);
}
