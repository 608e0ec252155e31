//! What a request has changed.

ghost use Rattle.std.specs.Prelude.{◌≡◌, IfOk, option_map};
ghost use Rattle.lw_stamp.specs.Moment.{ms_of};
ghost use Rattle.lw_reg.specs.Reading.{shown_in};
ghost use Rattle.lw_reg.specs.Showing.{ShownOf};
ghost use Rattle.registry.specs.Events.{IsEvent, IsMoved, IsTold, reply_code};

use lw_coap::codes::{CHANGED, CREATED, DELETED, EMPTY};
use lw_node::{Node, Seen, Text};
use lw_stamp::{Moment, NoMemory, Stamp};
use std::alloc::Global;

/// What a request has changed, with all that is then shown.
#[derive(Drop)]
pub enum Event {
    Registered(Seen),
    Updated(Seen),
    /// The endpoint, and the identifier that it had.
    Removed(Text, Stamp),
    /// Nothing that the application is to be told of.
    Nothing,
}

/// The code of a reply, which is its second byte (RFC 7252, section 3), or 0.00 where there is none.
pub fn reply_code(reply: Option<&[u8]>) -> u8
    ensures { result ≡ reply_code (option_map (λ bytes. bytes.now) reply.entry) }
{
    match reply {
        Some(bytes) => bytes.get(1).copied().unwrap_or(EMPTY),
        None => EMPTY,
    }
}

/// What has come of a request with a reply of this code: of the endpoint that has moved since the change number from
/// before it. A request moves one endpoint at most.
pub fn event_of(
    alloc: Global,
    node: &Node,
    now: Moment,
    since: u64,
    code: u8,
) -> Result<Event, NoMemory>
    ensures { IfOk result (IsEvent node.now (ms_of now) since code) }
{
    let moved = moved_since(alloc, node, since)?;
    match moved {
        Some((endpoint, id)) => event_at(alloc, node, now, endpoint, id, code),
        None => Ok(Event::Nothing),
    }
}

/// What has come of a request, of the endpoint that it has moved.
fn event_at(
    alloc: Global,
    node: &Node,
    now: Moment,
    endpoint: Text,
    id: Stamp,
    code: u8,
) -> Result<Event, NoMemory>
    ensures { IfOk result (IsTold node.now (ms_of now) (endpoint, id) code) }
{
    match code {
        DELETED => Ok(Event::Removed(endpoint, id)),
        CREATED => match shown_of(alloc, node, now, &endpoint)? {
            Some(seen) => Ok(Event::Registered(seen)),
            None => Ok(Event::Nothing),
        },
        CHANGED => match shown_of(alloc, node, now, &endpoint)? {
            Some(seen) => Ok(Event::Updated(seen)),
            None => Ok(Event::Nothing),
        },
        _ => Ok(Event::Nothing),
    }
}

/// The first endpoint that has moved since the change number, and the identifier of its registration, shown or not.
fn moved_since(alloc: Global, node: &Node, since: u64) -> Result<Option<(Text, Stamp)>, NoMemory>
    ensures { IfOk result (IsMoved node.now since) }
{
    let moved = node.table().changed_since(since)?;
    match moved.first() {
        Some((endpoint, slot)) => Ok(Some((Text::copy_of(alloc, endpoint)?, slot.stamp()))),
        None => Ok(None),
    }
}

/// A copy of what is shown of the endpoint.
fn shown_of(
    alloc: Global,
    node: &Node,
    now: Moment,
    endpoint: &Text,
) -> Result<Option<Seen>, NoMemory>
    ensures { IfOk result (ShownOf (shown_in node.now.table.state) (ms_of now) endpoint.now) }
{
    match node.by_endpoint(now, endpoint.as_str()) {
        Some(shown) => Ok(Some(shown.to_seen(alloc)?)),
        None => Ok(None),
    }
}
