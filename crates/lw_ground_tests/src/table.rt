use crate::change::Act::*;
use crate::change::Mark::*;
use crate::change::*;
use By::*;
use Step::*;
use Way::*;
use lw_reg::{Addr, Endpoint, Slot, View};
use lw_stamp::NoMemory;
use lw_table::*;
use std::alloc::Global;
use std::fmt::Write;
use std::process::Abort;

mod alike;
mod copied;
mod joins;
mod lifts;
mod look_ups;
mod pages;
mod refused;
mod since;

/// The endpoint that a change is about, and the change.
type Of<'a> = (&'a str, Change<'a>);

fn join_slot(table: &mut Table, endpoint: Endpoint, slot: Slot) -> Result<(), NoMemory> {
    table.join(endpoint, slot)
}

/// What the join of a change gives.
fn try_join(
    rt: &impl Abort,
    alloc: Global,
    table: &mut Table,
    (name, change): Of<'_>,
) -> Result<Result<(), NoMemory>, NoMemory> {
    let endpoint = endpoint(alloc, name)?.expect(rt, "an endpoint");
    let slot = slot_of(alloc, change)?;
    Ok(join_slot(table, endpoint, slot))
}

fn join(rt: &impl Abort, alloc: Global, table: &mut Table, change: Of<'_>) {
    let joined = try_join(rt, alloc, table, change);
    joined.expect(rt, "memory").expect(rt, "memory for a join");
}

/// One of the keys of an endpoint.
#[derive(Clone, Copy)]
enum By {
    Id(Mark),
    Address(Addr),
    Token(Mark),
}

/// A way to a registration that is shown.
enum Way {
    Named(&'static str),
    Known(Mark),
    Host(Addr),
    /// The first behind an endpoint, or of all.
    Behind(Option<&'static str>),
}

/// What a test does to a table, and what it finds there.
enum Step {
    Joins(Of<'static>),
    /// The moment, and the identifier of the registration that ends then, or none.
    Lifts(u64, Option<Mark>),
    /// The change number.
    Counts(u64),
    /// The endpoints with a key.
    Filed(By, &'static [&'static str]),
    /// The moment, the way, and the endpoint and the identifier of what is shown there.
    Shows(u64, Way, Option<(&'static str, Mark)>),
    /// The moment, and the endpoint and the identifier of the first that has expired then.
    Expired(u64, Option<(&'static str, Mark)>),
    /// The moment, and whether the watch `Second` is shown then.
    Watched(u64, bool),
    /// A change number, and the slots that have moved since.
    Tells(u64, &'static str),
    /// Behind which number, how many at most, and which changes.
    Changes(u64, usize, &'static str),
    /// The moment, behind which endpoint, how many registrations and names at most, and the page.
    Pages(u64, Option<&'static str>, (usize, usize), &'static str),
    /// How many registrations were not removed.
    Registrations(usize),
}

/// Lifts the first, and tells whether it is the one that is wanted. It counts one, or nothing.
fn lifts_first(table: &mut Table, now: u64, wanted: Option<Mark>) -> bool {
    let before = table.change();
    let lifted = table.lift_first(at(now));
    match wanted {
        None => lifted.is_none() && table.change() == before,
        Some(id) => lifted == Some(id.stamp()) && table.change() == before.saturating_add(1),
    }
}

/// Whether these are the endpoints with the key.
fn has_only(table: &Table, by: By, wanted: &[&str]) -> Result<bool, NoMemory> {
    let key = match by {
        Id(mark) => Key::Id(mark.stamp()),
        Address(address) => Key::Address(address),
        Token(mark) => Key::Token(mark.stamp()),
    };
    let endpoints = table.endpoints_with(key)?;
    Ok(endpoints.as_slice() == wanted)
}

fn view<'a>(table: &'a Table, now: u64, way: &Way) -> Option<View<'a>> {
    match way {
        Named(endpoint) => table.by_endpoint(at(now), endpoint),
        Known(id) => table.by_id(at(now), id.stamp()),
        Host(address) => table.by_address(at(now), *address),
        Behind(after) => table.first_after(at(now), *after),
    }
}

/// Whether it is shown with this endpoint and identifier, or none is.
fn is_named(view: Option<View<'_>>, wanted: Option<(&str, Mark)>) -> bool {
    match (view, wanted) {
        (None, None) => true,
        (Some(view), Some((endpoint, id))) => view.endpoint == endpoint && view.id == id.stamp(),
        _ => false,
    }
}

fn is_expired(table: &Table, now: u64, wanted: Option<(&str, Mark)>) -> bool {
    match (table.expired_after(at(now), None), wanted) {
        (None, None) => true,
        (Some((endpoint, id)), Some((name, mark))) => endpoint == name && id == mark.stamp(),
        _ => false,
    }
}

/// Whether such a look is right, or the change could be made.
fn is_taken(
    rt: &impl Abort,
    alloc: Global,
    table: &mut Table,
    step: &Step,
) -> Result<bool, NoMemory> {
    let is_right = match step {
        Joins(change) => {
            join(rt, alloc, table, *change);
            true
        }
        Lifts(now, wanted) => lifts_first(table, *now, *wanted),
        Counts(number) => table.change() == *number,
        Filed(by, wanted) => return has_only(table, *by, wanted),
        Shows(now, way, wanted) => is_named(view(table, *now, way), *wanted),
        Expired(now, wanted) => is_expired(table, *now, *wanted),
        Watched(now, is_one) => table.by_token(at(*now), Second.stamp()).is_some() == *is_one,
        Tells(since, wanted) => since::tells(rt, alloc, table, *since, wanted),
        Changes(since, limit, wanted) => since::changes(rt, alloc, table, *since, *limit, wanted),
        Pages(now, after, most, wanted) => pages::is_page(
            rt, alloc, table, *now, *after, *most, wanted,
        ),
        Registrations(count) => table.registrations() == *count,
    };
    Ok(is_right)
}

/// Takes the steps one after another, each of which has to be right.
fn play(
    rt: &impl Abort,
    alloc: Global,
    table: &mut Table,
    name: &str,
    steps: &[Step],
) -> Result<(), NoMemory> {
    for (place, step) in steps.iter().enumerate() {
        let is_right = is_taken(rt, alloc, table, step)?;
        assert!(rt; is_right, "{name}: step {place}");
    }
    Ok(())
}

/// A table behind these steps.
fn played(rt: &impl Abort, alloc: Global, name: &str, steps: &[Step]) -> Table {
    let mut table = Table::new(alloc);
    play(rt, alloc, &mut table, name, steps).expect(rt, "memory");
    table
}

/// What a scene is about, what is done to a new table, and what is found then.
type Scene = (&'static str, &'static [Step], &'static [Step]);

fn play_all(rt: &impl Abort, alloc: Global, scenes: &[Scene]) {
    for (name, steps, looks) in scenes {
        let mut table = played(rt, alloc, name, steps);
        play(rt, alloc, &mut table, name, looks).expect(rt, "memory");
    }
}
