//! What is filed beside the rows: the due moment of each endpoint, and the keys and the change number of each place.

ghost use Rattle.std.specs.Prelude.{◌≡◌, ◌↔◌, ◌⊎◌, ◌≤◌, ℕ, true, false, [], None, Some, Contains, IsSome, OnOk, OnErr, IsTrue};
ghost use Rattle.std.specs.Option.{option_copied};
ghost use Rattle.lw_due.specs.Due.{note_of, kept_of, due_of};
ghost use Rattle.lw_index.specs.Places.{IsPlaceOf};
ghost use Rattle.lw_table.specs.declared.key.Key.{Key as Keys};
ghost use Rattle.lw_reg.specs.Reading.{IsRemoved};
ghost use Rattle.lw_table.specs.Due.{HasDue};
ghost use Rattle.lw_table.specs.inner.Due.{IsDueBy, OtherDue};
ghost use Rattle.lw_table.specs.inner.Filed.{HasKeys, HasNumber, IsFiled, IsOver, OthersSame, OtherKeys, OtherNumbers, IsBetween, HasAll};
ghost use Rattle.lw_table.specs.Keys.{OptionHasKey};
ghost use Rattle.lw_table.specs.Table.{IsKept, slot_of};

use crate::key::{Key, has};
use crate::row::Row;
use lw_due::DueMoments;
use lw_index::Places;
use lw_recent::Recent;
use lw_reg::Slot;
use lw_stamp::NoMemory;
use std::alloc::Global;

/// What is filed of the endpoints.
#[derive(Drop)]
pub(crate) struct Filed {
    /// The keys of the places whose registration was not removed.
    pub(crate) keys: Places<Key>,
    /// The change number of each place.
    pub(crate) numbers: Recent,
    /// A moment of each endpoint before which it has not expired: it is at most the deadline of the slot. Those whose
    /// registration was not removed are kept.
    pub(crate) due: DueMoments,
}

impl Filed {
    pub(crate) fn new(alloc: Global) -> Filed
        ensures keys { result.keys ≡ [] }
        ensures numbers { result.numbers ≡ [] }
        ensures due { result.due ≡ [] }
    {
        Filed {
            keys: Places::new(alloc),
            numbers: Recent::new(alloc),
            due: DueMoments::new(alloc),
        }
    }

    /// Files the endpoint as its row is, and the place under no more keys than it has, where these may be more.
    pub(crate) fn remove_stale(
        &mut self,
        endpoint: &str,
        place: u32,
        row: Option<&Row>,
        keys: &[Key],
    )
        requires { IsOver self.old endpoint.now place (option_copied row) keys.now }
        ensures others { OthersSame self.old self.new endpoint.now place }
        ensures settled { IsFiled self.new endpoint.now place (option_copied row.entry) }
        ensures numbers { self.new.numbers ≡ self.old.numbers }
    {
        keep_no_more(&mut self.due, endpoint, row);
        remove_lacking(&mut self.keys, place, row, keys);
    }
}

fn is_kept(row: Option<&Row>) -> bool
    ensures { IsTrue result ↔ IsKept (slot_of (option_copied row.entry)) }
{
    match row {
        None => false,
        Some(row) => !row.slot.is_removed(),
    }
}

fn has_key(row: Option<&Row>, key: &Key) -> bool
    ensures { IsTrue result ↔ OptionHasKey (slot_of (option_copied row.entry)) key.now }
{
    match row {
        None => false,
        Some(row) => has(&row.slot, key),
    }
}

/// Files the place under the keys. What was filed before a refusal stays.
pub(crate) fn add_keys(filed: &mut Places<Key>, place: u32, keys: &[Key]) -> Result<(), NoMemory>
    ensures others { OtherKeys place filed.old filed.new }
    ensures between { IsBetween filed.old filed.new place keys.now }
    ensures all { OnOk result (HasAll filed.new place keys.now) }
{
    for key in keys {
        filed.add(*key, place)?;
    }
    Ok(())
}

// Drops those of the keys that the row lacks.
fn remove_lacking(filed: &mut Places<Key>, place: u32, row: Option<&Row>, keys: &[Key])
    requires has { (k : Keys) → OptionHasKey (slot_of (option_copied row)) k → IsPlaceOf filed.old k place }
    requires from { (k : Keys) → IsPlaceOf filed.old k place → OptionHasKey (slot_of (option_copied row)) k
        ⊎ Contains keys.now k }
    ensures others { OtherKeys place filed.old filed.new }
    ensures keys { HasKeys filed.new place (slot_of (option_copied row.entry)) }
{
    for key in keys {
        if !has_key(row, key) {
            filed.drop_one(*key, place);
        }
    }
}

// Keeps the endpoint no more where its row does not say that it is.
fn keep_no_more(due: &mut DueMoments, endpoint: &str, row: Option<&Row>)
    requires { IsKept (slot_of (option_copied row)) → kept_of endpoint.now due.old ≡ Some true }
    ensures others { OtherDue endpoint.now due.old due.new }
    ensures due { due_of endpoint.now due.new ≡ due_of endpoint.now due.old }
    ensures kept { (kept_of endpoint.now due.new ≡ Some true) ↔ IsKept (slot_of (option_copied row.entry)) }
{
    if is_kept(row) {
        return;
    }
    due.keep(endpoint, false);
}

/// Files the place, which has no number, under its first.
pub(crate) fn add_number(numbers: &mut Recent, place: u32, number: u64) -> Result<(), NoMemory>
    requires { HasNumber numbers.old place None }
    ensures others { OtherNumbers place numbers.old numbers.new }
    ensures number { OnOk result (HasNumber numbers.new place (Some number)) }
    ensures unchanged { OnErr result (numbers.new ≡ numbers.old) }
{
    numbers.add(number, place)
}

/// Files the place under another number than its last. It takes no memory.
pub(crate) fn move_number(numbers: &mut Recent, place: u32, last: u64, number: u64)
    requires { HasNumber numbers.old place (Some last) }
    ensures others { OtherNumbers place numbers.old numbers.new }
    ensures number { HasNumber numbers.new place (Some number) }
{
    numbers.move_to(last, number, place);
}

/// Takes its number from the place.
pub(crate) fn drop_number(numbers: &mut Recent, place: u32, number: u64)
    requires { HasNumber numbers.old place (Some number) }
    ensures others { OtherNumbers place numbers.old numbers.new }
    ensures none { HasNumber numbers.new place None }
{
    numbers.drop_one(number, place);
}

/// Gives the endpoint a due moment for the slot. One that it has may only be lowered.
pub(crate) fn add_due(due: &mut DueMoments, endpoint: &str, slot: &Slot) -> Result<(), NoMemory>
    ensures others { OtherDue endpoint.now due.old due.new }
    ensures due { OnOk result (HasDue due.new endpoint.now slot.now) }
    ensures kept { OnOk result ((kept_of endpoint.now due.new ≡ Some true) ↔ ¬ IsRemoved slot.now) }
{
    let moment = slot.deadline().unwrap_or(u64::MAX);
    due.add(endpoint, !slot.is_removed(), moment)
}

/// Lowers the due moment of the endpoint to the deadline of the slot, where that falls. It takes no memory.
pub(crate) fn lower_due(due: &mut DueMoments, endpoint: &str, before: Option<u64>, slot: &Slot)
    requires { IsDueBy due.old endpoint.now before }
    ensures others { OtherDue endpoint.now due.old due.new }
    ensures due { HasDue due.new endpoint.now slot.now }
    ensures kept { kept_of endpoint.now due.new ≡ kept_of endpoint.now due.old }
{
    if let Some(deadline) = slot.deadline() {
        if falls(before, deadline) {
            due.lower(endpoint, deadline);
        }
    }
}

/// Keeps the endpoint, where its registration had been removed and the slot's was not. It takes no memory.
pub(crate) fn keep_revived(due: &mut DueMoments, endpoint: &str, was_removed: bool, slot: &Slot)
    requires there { IsSome (note_of endpoint.now due.old) }
    requires kept { was_removed ≡ false → kept_of endpoint.now due.old ≡ Some true }
    ensures others { OtherDue endpoint.now due.old due.new }
    ensures due { due_of endpoint.now due.new ≡ due_of endpoint.now due.old }
    ensures kept { ¬ IsRemoved slot.now → kept_of endpoint.now due.new ≡ Some true }
{
    if was_removed && !slot.is_removed() {
        due.keep(endpoint, true);
    }
}

// Whether what is not after the deadline before may be after the deadline now.
fn falls(before: Option<u64>, now: u64) -> bool
    ensures { (at : ℕ) → result ≡ false → ((d : ℕ) → before ≡ Some d → at ≤ d) → at ≤ now }
{
    match before {
        None => true,
        Some(before) => now < before,
    }
}
