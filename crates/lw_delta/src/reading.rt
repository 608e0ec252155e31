ghost use Rattle.std.specs.Prelude.{◌≡◌, ◌≢◌, ℕ, ◌⊎◌, ◌↔◌, [], List, Option, IsOk, IfOk, IfErr, Ok, Err};
ghost use Rattle.lw_join.specs.Parts.{made};
ghost use Rattle.lw_join.specs.declared.last.Last.{Last as Lasts};
ghost use Rattle.lw_reg.specs.declared.path.Path.{Path as Paths};
ghost use Rattle.lw_reg.specs.declared.slot.Slot.{Slot as Slots};
ghost use Rattle.lw_reg.specs.Body.{Watching as Watchings, maps_of};
ghost use Rattle.lw_reg.specs.Endpoint.{IsEndpoint};
ghost use Rattle.lw_delta.specs.declared.fault.DeltaFault.{DeltaFault as Faults};
ghost use Rattle.lw_delta.specs.Part.{Found, Fails, when};
ghost use Rattle.lw_delta.specs.Format.{attributes as attributes_part, watches as watches_part};
ghost use Rattle.lw_delta.specs.Values.{Behind as Behinds, list_or_none, all_fields, fields_from};
ghost use Rattle.lw_delta.specs.Delta.{DeltaContent, IsSpelling, IsFault};
ghost use Rattle.lw_delta.specs.inner.Delta.{Reads};
ghost use Rattle.lw_delta.specs.inner.Lent.{Told, Holds, lent_slot};
ghost use Rattle.lw_delta.specs.Unread.{IsLeft};

use crate::attributes::next_attribute;
use crate::behind::LentBehind;
use crate::checking::walk;
use crate::fields::LentFields;
use crate::form::{Form, has_attributes};
use crate::lent::{LentAttribute, LentNumber, LentObjects};
use crate::reader::Reader;
use crate::slots::LentSlot;
use crate::watches::next_watch;
use crate::{Delta, DeltaFault};
use lw_join::{Both, Last, Parts};
use lw_link::LinkText;
use lw_reg::{Endpoint, FieldWrites, Fields, Path, Slot, SmsNumber, Watching};
use lw_stamp::{NoMemory, Stamp, Text};
use std::alloc::Global;

fn sms_number(alloc: Global, lent: LentNumber) -> Result<SmsNumber, NoMemory>
    ensures { IfOk result (λ number. number ≡ lent.entry) }
{
    SmsNumber::copy_of(alloc, lent.text)
}

fn sms(
    alloc: Global,
    lent: Option<(Stamp, Option<LentNumber>)>,
) -> Result<Option<(Stamp, Option<SmsNumber>)>, NoMemory>
    ensures { IfOk result (λ sms. sms ≡ lent.entry) }
{
    match lent {
        None => Ok(None),
        Some((stamp, None)) => Ok(Some((stamp, None))),
        Some((stamp, Some(number))) => Ok(Some((stamp, Some(sms_number(alloc, number)?)))),
    }
}

fn link_text(alloc: Global, lent: LentObjects) -> Result<LinkText, NoMemory>
    ensures { IfOk result (λ text. text ≡ lent.entry) }
{
    LinkText::of_printing(alloc, lent.bytes)
}

fn objects(
    alloc: Global,
    lent: Option<(Stamp, LentObjects)>,
) -> Result<Option<(Stamp, LinkText)>, NoMemory>
    ensures { IfOk result (λ objects. objects ≡ lent.entry) }
{
    let Some((stamp, objects)) = lent else {
        return Ok(None);
    };
    Ok(Some((stamp, link_text(alloc, objects)?)))
}

fn attribute(alloc: Global, lent: LentAttribute) -> Result<(Text, Last<Text>), NoMemory>
    ensures { IfOk result (λ attribute. attribute ≡ lent.entry) }
{
    let name = Text::copy_of(alloc, lent.name)?;
    let value = Text::copy_of(alloc, lent.value)?;
    let last = Last {
        write: (lent.stamp, value),
    };
    Ok((name, last))
}

/// So many attributes, which were walked before.
fn attribute_entries(
    alloc: Global,
    clock: u64,
    count: usize,
    bytes: &[u8],
) -> Result<Vec<(Text, Last<Text>)>, DeltaFault>
    ensures found { IfOk result (λ es. (rest : List ℕ) × Found (attributes_part clock) bytes.now es.items rest) }
    ensures fault { IfErr result (λ fault. (fault ≡ DeltaFault.NoMemory)
        ⊎ Fails (attributes_part clock) bytes.now fault) }
{
    let mut entries = Vec::with_capacity(alloc, count)?;
    let mut after = None;
    let mut rest = bytes;
    loop {
        let (next, behind) = next_attribute(clock, after, rest)?;
        rest = behind;
        let Some(lent) = next else {
            return Ok(entries);
        };
        after = Some(lent.name());
        let entry = attribute(alloc, lent)?;
        entries.push(entry)?;
    }
}

/// The attributes, which were walked before. A format may have none.
fn attributes(
    alloc: Global,
    present: bool,
    clock: u64,
    count: usize,
    bytes: &[u8],
) -> Result<Parts<Text, Last<Text>>, DeltaFault>
    requires { (es : Option (List (List ℕ × Lasts (List ℕ)))) × (rest : List ℕ)
        × Found (when present (attributes_part clock)) bytes.now es rest }
    ensures value { (es : Option (List (List ℕ × Lasts (List ℕ)))) (rest : List ℕ)
        → Found (when present (attributes_part clock)) bytes.now es rest
        → IfOk result (λ parts. parts ≡ made (list_or_none es)) }
    ensures fault { IfErr result (λ fault. fault ≡ DeltaFault.NoMemory) }
{
    if !present {
        return Ok(Parts::new(alloc));
    }
    let entries = attribute_entries(alloc, clock, count, bytes)?;
    let Some(parts) = Parts::from_entries(entries) else {
        unreachable!()
    };
    Ok(parts)
}

/// So many watches, which were walked before.
fn watches(
    alloc: Global,
    clock: u64,
    count: usize,
    bytes: &[u8],
) -> Result<Vec<(Path, Watching)>, DeltaFault>
    ensures found { IfOk result (λ ws. (rest : List ℕ) × Found (watches_part clock) bytes.now ws.items rest) }
    ensures fault { IfErr result (λ fault. (fault ≡ DeltaFault.NoMemory) ⊎ Fails (watches_part clock) bytes.now fault) }
{
    let mut entries = Vec::with_capacity(alloc, count)?;
    let mut after = None;
    let mut rest = bytes;
    loop {
        let (next, behind) = next_watch(clock, after, rest)?;
        rest = behind;
        let Some(entry) = next else {
            return Ok(entries);
        };
        after = Some(entry.0);
        entries.push(entry)?;
    }
}

/// The watches, which were walked before.
fn parts(
    alloc: Global,
    clock: u64,
    count: usize,
    bytes: &[u8],
) -> Result<Parts<Path, Watching>, DeltaFault>
    requires { (ws : List (Paths × Watchings)) × (rest : List ℕ) × Found (watches_part clock) bytes.now ws rest }
    ensures value { (ws : List (Paths × Watchings)) (rest : List ℕ) → Found (watches_part clock) bytes.now ws rest
        → IfOk result (λ parts. parts ≡ made ws) }
    ensures fault { IfErr result (λ fault. fault ≡ DeltaFault.NoMemory) }
{
    let entries = watches(alloc, clock, count, bytes)?;
    let Some(parts) = Parts::from_entries(entries) else {
        unreachable!()
    };
    Ok(parts)
}

/// The attributes and watches that stand behind the fields, which were walked before.
fn maps(
    alloc: Global,
    form: Form,
    clock: u64,
    lent: LentBehind,
) -> Result<Both<Text, Last<Text>, Path, Watching>, DeltaFault>
    requires { (more : Behinds) × Told form clock lent more }
    ensures value { (more : Behinds) → Told form clock lent.entry more
        → IfOk result (λ maps. maps ≡ maps_of (made more.attributes) (made more.watches)) }
    ensures fault { IfErr result (λ fault. fault ≡ DeltaFault.NoMemory) }
{
    let present = has_attributes(form);
    let attributes = attributes(alloc, present, clock, lent.attribute_count, lent.bytes)?;
    let watches = parts(alloc, clock, lent.watch_count, lent.watches)?;
    Ok(Both {
        left: attributes,
        right: watches,
    })
}

fn fields(
    alloc: Global,
    lent: LentFields,
    ended: Option<Stamp>,
    maps: Both<Text, Last<Text>, Path, Watching>,
) -> Result<Fields, NoMemory>
    ensures { (more : Behinds) → ended ≡ more.ended → maps ≡ maps_of (made more.attributes) (made more.watches)
        → IfOk result (λ fields. fields ≡ all_fields lent.entry more) }
{
    let writes = FieldWrites {
        base: lent.base,
        address: lent.address,
        seen: lent.seen,
        lifetime: lent.lifetime,
        binding: lent.binding,
        sms: sms(alloc, lent.sms)?,
        objects: objects(alloc, lent.objects)?,
    };
    Ok(Fields {
        writes,
        attributes: maps.left,
        ended,
        watches: maps.right,
    })
}

/// What is kept of a slot, and nothing of a removed registration.
fn kept_fields(
    alloc: Global,
    form: Form,
    clock: u64,
    lent: LentSlot,
) -> Result<Option<Fields>, DeltaFault>
    requires { (more : Behinds) × Holds form clock lent more }
    ensures value { (more : Behinds) → Holds form clock lent.entry more
        → IfOk result (λ fields. fields ≡ fields_from lent.entry.removed lent.entry.fields more) }
    ensures fault { IfErr result (λ fault. fault ≡ DeltaFault.NoMemory) }
{
    if lent.removed {
        return Ok(None);
    }
    let ended = lent.behind.ended;
    let maps = maps(alloc, form, clock, lent.behind)?;
    let fields = fields(alloc, lent.fields, ended, maps)?;
    Ok(Some(fields))
}

/// An owned slot and its endpoint.
pub(crate) fn slot(
    alloc: Global,
    form: Form,
    clock: u64,
    lent: LentSlot,
) -> Result<(Endpoint, Slot), DeltaFault>
    requires { (more : Behinds) × Holds form clock lent more }
    ensures value { (more : Behinds) → Holds form clock lent.entry more
        → IfOk result (λ x. x ≡ lent_slot lent.entry more) }
    ensures fault { IfErr result (λ fault. fault ≡ DeltaFault.NoMemory) }
{
    let endpoint = Endpoint::copy_of(alloc, lent.endpoint)?;
    let registration = lent.registration;
    let fields = kept_fields(alloc, form, clock, lent)?;
    let slot = Slot::from_parts(alloc, registration, fields)?;
    Ok((endpoint, slot))
}

/// The slots that are left, so many.
fn slots(
    alloc: Global,
    mut reader: Reader<'_>,
    count: usize,
) -> Result<Vec<(Endpoint, Slot)>, NoMemory>
    requires { (ss : List (List ℕ × Slots)) × IsLeft reader ss }
    ensures { IfOk result (λ ss. IsLeft reader.entry ss.items) }
{
    let mut slots = Vec::with_capacity(alloc, count)?;
    while let Some(entry) = reader.next()? {
        slots.push(entry)?;
    }
    Ok(slots)
}

/// The delta, once the walk has found no fault.
fn read_walked(alloc: Global, bytes: &[u8]) -> Result<Delta, DeltaFault>
    ensures read { Reads bytes.now result }
    ensures empty { (d : DeltaContent) → IsSpelling bytes.now d → d.slots ≡ [] → IsOk result }
{
    let walked = walk(bytes)?;
    let clock = walked.clock;
    if walked.slot_count == 0 {
        let slots = Vec::new(alloc);
        return Ok(Delta { clock, slots });
    }
    let slots = slots(alloc, Reader::of(alloc, walked), walked.slot_count)?;
    Ok(Delta { clock, slots })
}

/// The delta that the bytes spell, all of them. Each fault but `NoMemory` is found before any memory is
/// taken.
pub fn read(alloc: Global, bytes: &[u8]) -> Result<Delta, DeltaFault>
    // What is read is spelled so.
    ensures found { IfOk result (λ delta. IsSpelling bytes.now delta) }
    // What is spelled so is read, unless a growth is refused.
    ensures only { (d : DeltaContent) → IsSpelling bytes.now d → (result ≡ Ok d) ⊎ (result ≡ Err DeltaFault.NoMemory) }
    // Each other fault is answered exactly where it is the first.
    ensures faults { (fault : Faults) → fault ≢ DeltaFault.NoMemory → ((result ≡ Err fault) ↔ IsFault bytes.now fault) }
    // A delta without slots takes no memory.
    ensures empty { (d : DeltaContent) → IsSpelling bytes.now d → d.slots ≡ [] → IsOk result }
    // Want of memory comes only in place of a delta.
    ensures memory { result ≡ Err DeltaFault.NoMemory → (d : DeltaContent) × IsSpelling bytes.now d }
{
    read_walked(alloc, bytes)
}
