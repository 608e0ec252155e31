//! Registrations that have expired.

ghost use Rattle.std.specs.Prelude.{◌≡◌, ℕ, List, Option, IfOk, None, string_bytes};
ghost use Rattle.lw_stamp.specs.Moment.{ms_of};
ghost use Rattle.lw_stamp.specs.declared.stamp.Stamp.{Stamp as Stamps};
ghost use Rattle.lw_reg.specs.Reading.{shown_in};
ghost use Rattle.lw_table.specs.LookUps.{ExpiredAfter};
ghost use Rattle.registry.specs.Steps.{Expires};
ghost use Rattle.registry.specs.Texts.{expired_line};

use crate::fault::LineFault;
use crate::text::event_line;
use lw_call::ClockEnd;
use lw_json::stale_text;
use lw_node::Node;
use lw_stamp::{Moment, NoMemory};
use std::alloc::Global;

/// Ends the registration of the least endpoint that has expired, if there is one, and tells which. The others have
/// their turn with the next datagrams, so that none of these waits long; what has expired is not shown in any case.
pub fn expire(alloc: Global, node: &mut Node, now: Moment) -> Result<String, LineFault>
    ensures { IfOk result (λ text. Expires node.old (ms_of now) (string_bytes text) node.new) }
{
    let text = next_to_expire(alloc, node, now)?;
    match node.sweep(now) {
        Ok(_) => Ok(text),
        Err(ClockEnd) => Err(LineFault::ClockEnd),
    }
}

/// The line of the registration that a sweep ends.
fn next_to_expire(alloc: Global, node: &Node, now: Moment) -> Result<String, NoMemory>
    ensures { IfOk result (λ text. (found : Option (List ℕ × Stamps))
        × ExpiredAfter (shown_in node.now.table.state) (ms_of now) None found
        × (string_bytes text ≡ expired_line found)) }
{
    match node.expired_after(now, None) {
        Some((endpoint, id)) => event_line(alloc, "expired", &stale_text(alloc, endpoint, id)?),
        None => Ok(String::new(alloc)),
    }
}
