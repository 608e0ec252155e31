//! The fields that follow each word.

ghost use Rattle.std.specs.Prelude.{◌≡◌, IfSome, IfNone};
ghost use Rattle.lw_world.specs.declared.event.Event.{Event as Events};
ghost use Rattle.lw_script.specs.Lines.{IsFields, ReadsAs, asked as asked_of};
ghost use Rattle.lw_script.specs.declared.word.Word.{Word as Words};

use crate::LineFault;
use crate::field::Field;
use crate::last::{datagram, named, sender};
use lw_stamp::{Moment, Stamp};
use lw_world::{Action, Addr, Event, Path, Question};
use std::alloc::Global;

fn asked(node: u16, now: Moment, question: Question) -> Event
    ensures { result ≡ asked_of node now question }
{
    Event {
        node,
        action: Action::Ask { now, question },
    }
}

/// The fields of `observe`.
pub(crate) fn observe(fields: &str) -> Option<Event>
    ensures found { IfSome result (λ event. IsFields Words.Observe event fields.now) }
    ensures none { IfNone result ((event : Events) → ¬ IsFields Words.Observe event fields.now) }
{
    let (node, (now, (id, (path, (accept, mid))))) = <(
        u16,
        (Moment, (Stamp, (Path, (Option<u16>, u16)))),
    ) as Field>::read(fields)?;
    Some(Event {
        node,
        action: Action::Observe {
            now,
            id,
            path,
            accept,
            mid,
        },
    })
}

/// The fields of `cancel`.
pub(crate) fn cancel(fields: &str) -> Option<Event>
    ensures found { IfSome result (λ event. IsFields Words.Cancel event fields.now) }
    ensures none { IfNone result ((event : Events) → ¬ IsFields Words.Cancel event fields.now) }
{
    let (node, (now, (token, mid))) = <(u16, (Moment, (Stamp, u16))) as Field>::read(fields)?;
    Some(Event {
        node,
        action: Action::Cancel { now, token, mid },
    })
}

/// The fields of `sweep`.
pub(crate) fn sweep(fields: &str) -> Option<Event>
    ensures found { IfSome result (λ event. IsFields Words.Sweep event fields.now) }
    ensures none { IfNone result ((event : Events) → ¬ IsFields Words.Sweep event fields.now) }
{
    let (node, now) = <(u16, Moment) as Field>::read(fields)?;
    Some(Event {
        node,
        action: Action::Sweep { now },
    })
}

/// The fields of `send`.
pub(crate) fn send(fields: &str) -> Option<Event>
    ensures found { IfSome result (λ event. IsFields Words.Send event fields.now) }
    ensures none { IfNone result ((event : Events) → ¬ IsFields Words.Send event fields.now) }
{
    let (node, since) = <(u16, u64) as Field>::read(fields)?;
    Some(Event {
        node,
        action: Action::Send { since },
    })
}

/// The fields of `deliver`.
pub(crate) fn deliver(fields: &str) -> Option<Event>
    ensures found { IfSome result (λ event. IsFields Words.Deliver event fields.now) }
    ensures none { IfNone result ((event : Events) → ¬ IsFields Words.Deliver event fields.now) }
{
    let (node, message) = <(u16, u32) as Field>::read(fields)?;
    Some(Event {
        node,
        action: Action::Deliver {
            message: message as usize,
        },
    })
}

/// The fields of `id`.
pub(crate) fn id(fields: &str) -> Option<Event>
    ensures found { IfSome result (λ event. IsFields Words.Id event fields.now) }
    ensures none { IfNone result ((event : Events) → ¬ IsFields Words.Id event fields.now) }
{
    let (node, (now, id)) = <(u16, (Moment, Stamp)) as Field>::read(fields)?;
    Some(asked(node, now, Question::ById(id)))
}

/// The fields of `address`.
pub(crate) fn address(fields: &str) -> Option<Event>
    ensures found { IfSome result (λ event. IsFields Words.Address event fields.now) }
    ensures none { IfNone result ((event : Events) → ¬ IsFields Words.Address event fields.now) }
{
    let (node, (now, address)) = <(u16, (Moment, Addr)) as Field>::read(fields)?;
    Some(asked(node, now, Question::ByAddress(address)))
}

/// The fields of `token`.
pub(crate) fn token(fields: &str) -> Option<Event>
    ensures found { IfSome result (λ event. IsFields Words.Token event fields.now) }
    ensures none { IfNone result ((event : Events) → ¬ IsFields Words.Token event fields.now) }
{
    let (node, (now, token)) = <(u16, (Moment, Stamp)) as Field>::read(fields)?;
    Some(asked(node, now, Question::ByToken(token)))
}

/// The fields of `change`.
pub(crate) fn change(fields: &str) -> Option<Event>
    ensures found { IfSome result (λ event. IsFields Words.Change event fields.now) }
    ensures none { IfNone result ((event : Events) → ¬ IsFields Words.Change event fields.now) }
{
    let node = <u16 as Field>::read(fields)?;
    Some(asked(node, Moment::START, Question::Change))
}

/// The fields of `watch`, where a path may stand last.
pub(crate) fn watch(fields: &str) -> Option<Event>
    ensures found { IfSome result (λ event. IsFields Words.Watch event fields.now) }
    ensures none { IfNone result ((event : Events) → ¬ IsFields Words.Watch event fields.now) }
{
    if let Some((node, (now, id))) = <(u16, (Moment, Stamp)) as Field>::read(fields) {
        return Some(asked(node, now, Question::WatchAfter { id, after: None }));
    }
    let (node, (now, (id, path))) = <(u16, (Moment, (Stamp, Path))) as Field>::read(fields)?;
    let after = Some(path);
    Some(asked(node, now, Question::WatchAfter { id, after }))
}

/// The fields of `take`.
pub(crate) fn take(alloc: Global, fields: &str) -> Result<Event, LineFault>
    ensures { ReadsAs (λ event. IsFields Words.Take event fields.now) result }
{
    let Some((node, now, from, hex)) = sender(fields) else {
        return Err(LineFault::Refused);
    };
    match datagram(alloc, hex) {
        Ok(bytes) => Ok(Event {
            node,
            action: Action::Take { now, from, bytes },
        }),
        Err(fault) => Err(fault),
    }
}

/// The fields of `endpoint`.
pub(crate) fn endpoint(alloc: Global, fields: &str) -> Result<Event, LineFault>
    ensures { ReadsAs (λ event. IsFields Words.Endpoint event fields.now) result }
{
    match named(alloc, fields) {
        Ok((node, now, name)) => Ok(asked(node, now, Question::ByEndpoint(name))),
        Err(fault) => Err(fault),
    }
}

/// The fields of `next`, where an endpoint may stand last.
pub(crate) fn next(alloc: Global, fields: &str) -> Result<Event, LineFault>
    ensures { ReadsAs (λ event. IsFields Words.Next event fields.now) result }
{
    if let Some((node, now)) = <(u16, Moment) as Field>::read(fields) {
        return Ok(asked(node, now, Question::FirstAfter(None)));
    }
    match named(alloc, fields) {
        Ok((node, now, name)) => Ok(asked(node, now, Question::FirstAfter(Some(name)))),
        Err(fault) => Err(fault),
    }
}

/// The fields of `expired`, where an endpoint may stand last.
pub(crate) fn expired(alloc: Global, fields: &str) -> Result<Event, LineFault>
    ensures { ReadsAs (λ event. IsFields Words.Expired event fields.now) result }
{
    if let Some((node, now)) = <(u16, Moment) as Field>::read(fields) {
        return Ok(asked(node, now, Question::ExpiredAfter(None)));
    }
    match named(alloc, fields) {
        Ok((node, now, name)) => Ok(asked(node, now, Question::ExpiredAfter(Some(name)))),
        Err(fault) => Err(fault),
    }
}
