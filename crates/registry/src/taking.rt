//! Datagrams of devices.

ghost use Rattle.std.specs.Prelude.{◌≡◌, IfOk, option_map, string_bytes};
ghost use Rattle.lw_stamp.specs.Moment.{ms_of};
ghost use Rattle.registry.specs.Steps.{IsTaken};
ghost use Rattle.registry.specs.Texts.{reply_line, notice_line, happened_line, taken_text};

use crate::event::{Event, event_of, reply_code};
use crate::line::Received;
use crate::text::event_line;
use lw_json::{notice_text, registration_text, stale_text};
use lw_node::{Node, Notice, Taken};
use lw_stamp::NoMemory;
use std::alloc::Global;

/// Takes the datagram: what the node gives for it, and what it has changed.
pub fn take(alloc: Global, node: &mut Node, received: &Received) -> Result<(Taken, Event), NoMemory>
    ensures { IfOk result (λ x.
        IsTaken node.old (ms_of received.now.moment) received.now.from received.now.datagram.items x.0 x.1 node.new) }
{
    let before = node.change();
    let taken = node.take(received.moment, received.from, received.datagram.as_slice())?;
    let code = reply_code(taken.reply.as_deref());
    let event = event_of(alloc, node, received.moment, before, code)?;
    Ok((taken, event))
}

/// What is to be sent and told: the reply, the notice and what has happened, a line each, where there is such.
pub fn taken_text(alloc: Global, taken: &Taken, event: &Event) -> Result<String, NoMemory>
    ensures { IfOk result (λ text. string_bytes text ≡ taken_text taken.now event.now) }
{
    let reply = reply_line(alloc, taken.reply.as_deref())?;
    let notice = notice_line(alloc, taken.notice.as_ref())?;
    let happened = happened_line(alloc, event)?;
    Ok(format!(in alloc; "{reply}{notice}{happened}")?)
}

fn reply_line(alloc: Global, reply: Option<&[u8]>) -> Result<String, NoMemory>
    ensures { IfOk result (λ text. string_bytes text ≡ reply_line (option_map (λ bytes. bytes.now) reply.entry)) }
{
    let Some(bytes) = reply else {
        return Ok(String::new(alloc));
    };
    let bytes = hex::encode(alloc, bytes)?;
    Ok(format!(in alloc; "reply {bytes}\n")?)
}

fn notice_line(alloc: Global, notice: Option<&Notice>) -> Result<String, NoMemory>
    ensures { IfOk result (λ text. string_bytes text ≡ notice_line (option_map (λ n. n.now) notice.entry)) }
{
    let Some(notice) = notice else {
        return Ok(String::new(alloc));
    };
    event_line(alloc, "notice", &notice_text(alloc, notice)?)
}

fn happened_line(alloc: Global, event: &Event) -> Result<String, NoMemory>
    ensures { IfOk result (λ text. string_bytes text ≡ happened_line event.now) }
{
    match event {
        Event::Registered(seen) => {
            event_line(
                alloc,
                "registered",
                &registration_text(alloc, &seen.as_view())?,
            )
        }
        Event::Updated(seen) => {
            event_line(
                alloc,
                "updated",
                &registration_text(alloc, &seen.as_view())?,
            )
        }
        Event::Removed(endpoint, id) => {
            event_line(
                alloc,
                "removed",
                &stale_text(alloc, endpoint.as_str(), *id)?,
            )
        }
        Event::Nothing => Ok(String::new(alloc)),
    }
}
