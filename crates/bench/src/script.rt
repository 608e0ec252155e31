//! The script of a run.

use crate::events::NODES;
use crate::fault::BenchFault;
use lw_stamp::{Moment, Stamp};
use lw_world::{Action, Addr, Event, Question};
use std::alloc::{AllocError, Global};

/// The text of a script with these events, of the kinds that a run has here.
pub(crate) fn script_of(alloc: Global, events: &[Event]) -> Result<String, BenchFault> {
    let mut text = format!(in alloc; "nodes {NODES}\n")?;
    put_lines(alloc, events, &mut text)?;
    Ok(text)
}

fn put_lines(alloc: Global, events: &[Event], text: &mut String) -> Result<(), BenchFault> {
    for event in events {
        text.push_str(line_of(alloc, event)?.as_str())?;
    }
    Ok(())
}

fn line_of(alloc: Global, event: &Event) -> Result<String, BenchFault> {
    let node = event.node;
    match &event.action {
        Action::Take { now, from, bytes } => take_line(alloc, node, *now, *from, bytes.as_slice()),
        Action::Ask {
            now,
            question: Question::ById(id),
        } => Ok(id_line(alloc, node, *now, *id)?),
        Action::Send { since } => Ok(format!(in alloc; "send {node} {since}\n")?),
        Action::Deliver { message } => Ok(format!(in alloc; "deliver {node} {message}\n")?),
        _ => Err(BenchFault::Unexpected),
    }
}

fn take_line(
    alloc: Global,
    node: u16,
    now: Moment,
    from: Addr,
    datagram: &[u8],
) -> Result<String, BenchFault> {
    let from = from.print(alloc)?;
    Ok(line_from(alloc, node, now, from.as_str(), datagram)?)
}

fn line_from(
    alloc: Global,
    node: u16,
    now: Moment,
    from: &str,
    datagram: &[u8],
) -> Result<String, AllocError> {
    let hex = hex::encode(alloc, datagram)?;
    format!(in alloc; "take {node} {} {from} {hex}\n", now.ms())
}

fn id_line(alloc: Global, node: u16, now: Moment, id: Stamp) -> Result<String, AllocError> {
    let id = hex::encode(alloc, id.to_bytes())?;
    format!(in alloc; "id {node} {} {id}\n", now.ms())
}
