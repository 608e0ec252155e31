//! The fleet, as a node shows it.

ghost use Rattle.std.specs.Prelude.{◌≡◌, ◌++◌, IfOk, OnOk, option_map, string_bytes};
ghost use Rattle.lw_stamp.specs.Moment.{ms_of};
ghost use Rattle.lw_reg.specs.Reading.{shown_in};
ghost use Rattle.lw_table.specs.Answers.{FirstAfter};
ghost use Rattle.registry.specs.Fleet.{IsFleet, IsFleetText, AreFleets, fleet_line};
ghost use Rattle.registry.specs.Walk.{last_of};

use crate::registry::Registry;
use lw_json::registration_text;
use lw_node::{Node, Seen};
use lw_stamp::{Moment, NoMemory};
use std::alloc::Global;

/// The fleet at the moment of the last line, as this node shows it and as the other does.
pub fn fleets_text(alloc: Global, registry: &Registry) -> Result<String, NoMemory>
    ensures { IfOk result (λ text. AreFleets registry.now (string_bytes text)) }
{
    let one = fleet_text(alloc, &registry.node, registry.moment, "node 1\n")?;
    let two = fleet_text(alloc, &registry.other, registry.moment, "node 2\n")?;
    Ok(format!(in alloc; "{one}{two}")?)
}

/// A head, and a line for each registration that the node shows.
fn fleet_text(alloc: Global, node: &Node, now: Moment, head: &str) -> Result<String, NoMemory>
    ensures { IfOk result (λ text. IsFleetText node.now (ms_of now) head.now (string_bytes text)) }
{
    let all = fleet(alloc, node, now)?;
    let mut text = String::from_str(alloc, head)?;
    for seen in &all {
        put_line(alloc, &mut text, seen)?;
    }
    Ok(text)
}

fn put_line(alloc: Global, text: &mut String, seen: &Seen) -> Result<(), NoMemory>
    ensures { OnOk result (string_bytes text.new ≡ string_bytes text.old ++ fleet_line seen.now) }
{
    text.push_str(&registration_text(alloc, &seen.as_view())?)?;
    text.push_str("\n")?;
    Ok(())
}

/// All registrations that are shown at the moment, their endpoints rising.
pub fn fleet(alloc: Global, node: &Node, now: Moment) -> Result<Vec<Seen>, NoMemory>
    ensures { IfOk result (λ all. IsFleet (shown_in node.now.table.state) (ms_of now) all.items) }
{
    let mut all = Vec::new(alloc);
    for _ in 0..u64::MAX {
        let next = next_seen(alloc, node, now, &all)?;
        match next {
            Some(seen) => all.push(seen)?,
            None => return Ok(all),
        }
    }
    // No memory has so many.
    Err(NoMemory)
}

/// A copy of the first registration that is shown above the last of these, or of the first of all.
fn next_seen(
    alloc: Global,
    node: &Node,
    now: Moment,
    met: &[Seen],
) -> Result<Option<Seen>, NoMemory>
    ensures { IfOk result (FirstAfter (shown_in node.now.table.state) (ms_of now) (last_of met.now)) }
{
    match node.first_after(now, last_endpoint(met)) {
        Some(shown) => Ok(Some(shown.to_seen(alloc)?)),
        None => Ok(None),
    }
}

fn last_endpoint(all: &[Seen]) -> Option<&str>
    ensures { option_map (λ endpoint. endpoint.now) result ≡ last_of all.now }
{
    match all.last() {
        Some(seen) => Some(seen.endpoint.as_str()),
        None => None,
    }
}
