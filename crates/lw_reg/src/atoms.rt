//! The slot that one operation makes.

ghost use Rattle.std.specs.Prelude.{◌≡◌, IfOk, IsOk, Ok, Some, None};
ghost use Rattle.std.specs.List.{AllByRecursion};
ghost use Rattle.lw_join.specs.Parts.{entries_of};
ghost use Rattle.lw_reg.specs.Attribute.{IsAttribute};
ghost use Rattle.lw_reg.specs.Body.{no_watches, no_attributes};
ghost use Rattle.lw_reg.specs.Endpoint.{IsEndpoint};
ghost use Rattle.lw_reg.specs.Slot.{slot_of, told_of, write_of, writes_of, observed, cancelled};
ghost use Rattle.lw_reg.specs.Fields.{told_fields};
ghost use Rattle.lw_reg.specs.inner.Fields.{no_writes, watched_fields, ended_fields};
ghost use Rattle.lw_reg.specs.BodyOrGone.{KeepsAttributes};

use crate::{
    Addr, Attributes, Base, Endpoint, FieldWrites, Fields, GivenSettings, Op, Path, Settings, Slot,
    SmsNumber, Watching, What,
};
use lw_join::{Last, Lex, Once, OrGone, Parts};
use lw_link::LinkText;
use lw_stamp::{Moment, NoMemory, Stamp, Text};
use std::alloc::Global;

/// The slot that the one operation makes. A removal takes no memory.
pub fn atom(alloc: Global, op: Op) -> Result<Slot, NoMemory>
    ensures slot { IfOk result (λ slot. slot ≡ slot_of op) }
    ensures calm { op.what ≡ What.Remove → IsOk result }
{
    let (_, slot) = atom_with_endpoint(alloc, op)?;
    Ok(slot)
}

/// The slot that the one operation makes, with the endpoint that it is about. A removal takes no memory.
pub fn atom_with_endpoint(alloc: Global, op: Op) -> Result<(Endpoint, Slot), NoMemory>
    ensures endpoint { IfOk result (λ x. x.0 ≡ op.endpoint) }
    ensures within { IfOk result (λ x. IsEndpoint x.0) }
    ensures slot { IfOk result (λ x. x.1 ≡ slot_of op) }
    ensures calm { op.what ≡ What.Remove → IsOk result }
{
    let Op {
        stamp,
        endpoint,
        reg,
        what,
    } = op;
    // The name is read for what is known of it alone.
    let _name = endpoint.as_str();
    let slot = Slot::from_parts(alloc, reg, told(alloc, stamp, what)?)?;
    Ok((endpoint, slot))
}

/// What the operation with the stamp tells of its registration; nothing once it removes it.
fn told(alloc: Global, stamp: Stamp, what: What) -> Result<Option<Fields>, NoMemory>
    ensures told { IfOk result (λ fields. told_fields fields ≡ told_of stamp what) }
    ensures keeps { IfOk result (λ fields. KeepsAttributes (told_fields fields)) }
    ensures removed { what ≡ What.Remove → result ≡ Ok None }
{
    let fields = match what {
        What::Register {
            version,
            queue,
            address,
            seen,
            settings,
        } => registered(
            alloc,
            stamp,
            Base { version, queue },
            address,
            seen,
            settings,
        )?,
        What::Update {
            address,
            seen,
            settings,
        } => updated(alloc, stamp, address, seen, settings)?,
        What::Remove => return Ok(None),
        What::Observe { path, accept } => observed(alloc, path, stamp, accept)?,
        What::Cancel { path, token } => cancelled(alloc, path, token)?,
        What::Expire { upto } => ended(alloc, upto),
    };
    Ok(Some(fields))
}

/// What a Register tells.
fn registered(
    alloc: Global,
    stamp: Stamp,
    base: Base,
    address: Addr,
    seen: Moment,
    settings: Settings,
) -> Result<Fields, NoMemory>
    ensures told { IfOk result (λ fields.
        told_fields (Some fields) ≡ told_of stamp (What.Register base.version base.queue address seen settings)) }
    ensures keeps { IfOk result (λ fields. KeepsAttributes (told_fields (Some fields))) }
{
    Ok(Fields {
        writes: FieldWrites {
            base: Some(base),
            address: Some((stamp, address)),
            seen: Some((stamp, seen)),
            lifetime: Some((stamp, settings.lifetime)),
            binding: Some((stamp, settings.binding)),
            sms: Some((stamp, settings.sms)),
            objects: Some((stamp, settings.objects)),
        },
        attributes: written(alloc, stamp, settings.attributes)?,
        ended: None,
        watches: unwatched(alloc),
    })
}

/// What an Update tells.
fn updated(
    alloc: Global,
    stamp: Stamp,
    address: Addr,
    seen: Moment,
    given: GivenSettings,
) -> Result<Fields, NoMemory>
    ensures told { IfOk result (λ fields. told_fields (Some fields) ≡ told_of stamp (What.Update address seen given)) }
    ensures keeps { IfOk result (λ fields. KeepsAttributes (told_fields (Some fields))) }
{
    Ok(Fields {
        writes: FieldWrites {
            base: None,
            address: Some((stamp, address)),
            seen: Some((stamp, seen)),
            lifetime: stamped(stamp, given.lifetime),
            binding: stamped(stamp, given.binding),
            sms: stamped(stamp, given.sms.map(Some)),
            objects: stamped(stamp, given.objects),
        },
        attributes: written(alloc, stamp, given.attributes)?,
        ended: None,
        watches: unwatched(alloc),
    })
}

fn stamped<V>(stamp: Stamp, value: Option<V>) -> Option<(Stamp, V)>
    ensures { result ≡ write_of stamp value }
{
    match value {
        None => None,
        Some(value) => Some((stamp, value)),
    }
}

/// The writes of an operation. Where it has none they take no memory.
fn written(
    alloc: Global,
    stamp: Stamp,
    attributes: Attributes,
) -> Result<Parts<Text, Last<Text>>, NoMemory>
    ensures writes { IfOk result (λ writes. writes ≡ writes_of stamp attributes) }
    ensures keeps { IfOk result (λ writes. AllByRecursion (λ w. IsAttribute w.0 w.1.write.1) (entries_of writes)) }
{
    let pairs = attributes.into_pairs();
    let mut writes = Vec::with_capacity(alloc, pairs.len())?;
    for (name, value) in pairs {
        let write = (stamp, value);
        writes.push((name, Last { write }))?;
    }
    match Parts::from_entries(writes) {
        Some(writes) => Ok(writes),
        None => unreachable!(),
    }
}

/// No field is written.
fn no_writes() -> FieldWrites<SmsNumber, LinkText>
    ensures { result ≡ no_writes }
{
    FieldWrites {
        base: None,
        address: None,
        seen: None,
        lifetime: None,
        binding: None,
        sms: None,
        objects: None,
    }
}

fn unwritten(alloc: Global) -> Parts<Text, Last<Text>>
    ensures { result ≡ no_attributes }
{
    Parts::new(alloc)
}

fn unwatched(alloc: Global) -> Parts<Path, Watching>
    ensures { result ≡ no_watches }
{
    Parts::new(alloc)
}

fn observed(
    alloc: Global,
    path: Path,
    stamp: Stamp,
    accept: Option<u16>,
) -> Result<Fields, NoMemory>
    ensures { IfOk result (λ fields. fields ≡ watched_fields path (observed stamp accept)) }
{
    let value = OrGone::Here(Once { value: accept });
    watched(alloc, path, Lex { stamp, value })
}

fn cancelled(alloc: Global, path: Path, stamp: Stamp) -> Result<Fields, NoMemory>
    ensures { IfOk result (λ fields. fields ≡ watched_fields path (cancelled stamp)) }
{
    let value = OrGone::Gone;
    watched(alloc, path, Lex { stamp, value })
}

/// The watch of a path alone.
fn watched(alloc: Global, path: Path, watching: Watching) -> Result<Fields, NoMemory>
    ensures { IfOk result (λ fields. fields ≡ watched_fields path watching) }
{
    Ok(Fields {
        writes: no_writes(),
        attributes: unwritten(alloc),
        ended: None,
        watches: Parts::one(alloc, path, watching)?,
    })
}

/// The end alone.
fn ended(alloc: Global, upto: Stamp) -> Fields
    ensures { result ≡ ended_fields upto }
{
    Fields {
        writes: no_writes(),
        attributes: unwritten(alloc),
        ended: Some(upto),
        watches: unwatched(alloc),
    }
}
