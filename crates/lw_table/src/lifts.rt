//! A registration that ends where it has expired.

ghost use Rattle.std.specs.Prelude.{◌≡◌, ◌↔◌, ◌≤◌, ℕ, List, Some, None, IfSome, IsNone, IsSome};
ghost use Rattle.lw_due.specs.Due.{first_due};
ghost use Rattle.lw_reg.specs.Marks.{Mark, NamesAll, among};
ghost use Rattle.lw_reg.specs.Reading.{seen_of, shown_in};
ghost use Rattle.lw_reg.specs.State.{IsStateOf};
ghost use Rattle.lw_stamp.specs.Moment.{ms_of};
ghost use Rattle.lw_table.specs.inner.Due.{KeepsDue, KeepsKept, deadline_at};
ghost use Rattle.lw_table.specs.inner.Filed.{HasNumber, OtherNumbers};
ghost use Rattle.lw_table.specs.Table.{slot_of, number_of};
ghost use Rattle.lw_table.specs.Lifts.{LiftsFirst};
ghost use Rattle.lw_table.specs.LookUps.{ExpiredAfter};
ghost use Rattle.lw_table.specs.inner.Moves.{LiftsRow, LiftsRowAt, WasSeen};
ghost use Rattle.lw_table.specs.Rows.{IsRows};
ghost use Rattle.lw_table.specs.inner.Rows.{row_at, spot_of};

use crate::filed::move_number;
use crate::row::Row;
use crate::rows::Rows;
use crate::table::Table;
use lw_due::DueMoments;
use lw_recent::Recent;
use lw_stamp::{Moment, Stamp};

impl Table {
    /// Ends the registration of the least endpoint that has expired, as it was last seen: its identifier. Where none
    /// has, nothing is changed. It takes no memory. It costs a few descents, and as many again for each endpoint whose
    /// due moment has come before its deadline; that is in no contract.
    pub fn lift_first(&mut self, now: Moment) -> Option<Stamp>
        ensures read { LiftsFirst (shown_in self.old.state) (ms_of now) self.old result self.new }
        ensures marks { (ms : List Mark) → NamesAll (among ms) → IsStateOf ms self.old.state
            → LiftsFirst (among ms) (ms_of now) self.old result self.new }
        ensures none { IsNone result ↔ ExpiredAfter (shown_in self.old.state) (ms_of now) None None }
    {
        raise_due(&mut self.filed.due, &self.rows, now.ms());
        let endpoint = self.filed.due.first(now.ms())?;
        let number = self.change.saturating_add(1);
        let id = lift(&mut self.filed.numbers, &mut self.rows, endpoint, number);
        self.filed.due.raise_first(now.ms(), u64::MAX);
        self.change = number;
        Some(id)
    }
}

/// Raises due moments that have come to the deadlines of their slots, until the first that has come is past its
/// deadline, or none has come.
fn raise_due(due: &mut DueMoments, rows: &Rows, now: u64)
    requires { IsRows rows.now }
    ensures below { KeepsDue (λ e. slot_of (row_at rows.now e)) due.old due.new }
    ensures kept { KeepsKept due.old due.new }
    ensures first { IfSome (first_due now due.new) (λ e. deadline_at (slot_of (row_at rows.now e)) ≤ now) }
{
    while let Some(endpoint) = due.first(now) {
        let deadline = deadline_at(rows, endpoint);
        if deadline <= now {
            return;
        }
        due.raise_first(now, deadline);
    }
}

/// The deadline of the endpoint's slot, or the last moment of all.
fn deadline_at(rows: &Rows, endpoint: &str) -> u64
    requires { IsRows rows.now }
    ensures { result ≡ deadline_at (slot_of (row_at rows.now endpoint.now)) }
{
    match rows.get(endpoint) {
        None => u64::MAX,
        Some((_, row)) => row.slot.deadline().unwrap_or(u64::MAX),
    }
}

/// Ends the registration of the endpoint as it was last seen, and gives its row the number: its identifier.
fn lift(numbers: &mut Recent, rows: &mut Rows, endpoint: &str, number: u64) -> Stamp
    requires numbers { HasNumber numbers.old (spot_of rows.old endpoint.now) (number_of (row_at rows.old endpoint.now)) }
    requires rows { IsRows rows.old }
    requires seen { WasSeen (row_at rows.old endpoint.now) }
    ensures others { OtherNumbers (spot_of rows.old endpoint.now) numbers.old numbers.new }
    ensures number { HasNumber numbers.new (spot_of rows.old endpoint.now) (Some number) }
    ensures lifted { LiftsRowAt endpoint.now number result rows.old rows.new }
{
    let Some(place) = rows.place(endpoint) else {
        unreachable!()
    };
    let named = &mut rows.rows[place as usize];
    lift_row(numbers, &mut named.row, place, number)
}

// Ends the registration of the row.
fn lift_row(numbers: &mut Recent, row: &mut Row, place: u32, number: u64) -> Stamp
    requires numbers { HasNumber numbers.old place (Some row.old.number) }
    requires seen { IsSome (seen_of row.old.slot) }
    ensures others { OtherNumbers place numbers.old numbers.new }
    ensures number { HasNumber numbers.new place (Some number) }
    ensures lifted { LiftsRow number result row.old row.new }
{
    let id = row.slot.stamp();
    let last = row.number;
    row.slot.lift();
    move_number(numbers, place, last, number);
    row.number = number;
    id
}
