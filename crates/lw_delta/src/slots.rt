//! Slots, one after another.

ghost use Rattle.std.specs.Prelude.{◌≡◌, ℕ, List, length, IsTrue, IfOk, IfErr};
ghost use Rattle.std.specs.Option.{option_copied};
ghost use Rattle.lw_reg.specs.declared.slot.Slot.{Slot as Slots};
ghost use Rattle.lw_delta.specs.Part.{Found, Fails, optional};
ghost use Rattle.lw_delta.specs.inner.Part.{IsFound};
ghost use Rattle.lw_delta.specs.Format.{endpoint as endpoint_part, slot as slot_part, slots as slots_part};
ghost use Rattle.lw_delta.specs.inner.Lent.{LentAt, NextAt};

use crate::DeltaFault;
use crate::behind::{LentBehind, check_behind};
use crate::fields::{LentFields, fields};
use crate::form::Form;
use crate::numbers::{byte, is_set, is_within, stamp, tag};
use crate::values::{is_above, text};
use lw_reg::Endpoint;
use lw_stamp::Stamp;

pub(crate) const REMOVED: u8 = 0x80;

/// A slot where it stands in the bytes of a delta.
#[derive(Drop)]
pub(crate) struct LentSlot<'a> {
    pub endpoint: &'a str,
    pub registration: Stamp,
    pub removed: bool,
    pub fields: LentFields<'a>,
    pub behind: LentBehind<'a>,
}

fn endpoint<'a>(after: Option<&str>, bytes: &'a [u8]) -> Result<(&'a str, &'a [u8]), DeltaFault>
    ensures found { IfOk result (λ x. Found (endpoint_part (option_copied after.entry)) bytes.now x.0.now x.1.now) }
    ensures fault { IfErr result (Fails (endpoint_part (option_copied after.entry)) bytes.now) }
{
    let (count, rest) = byte(bytes)?;
    if !is_within(count as usize, Endpoint::MAX_LENGTH) {
        return Err(DeltaFault::Range);
    }
    let (name, rest) = text(rest, count)?;
    if !is_above(after, name) {
        return Err(DeltaFault::Order);
    }
    Ok((name, rest))
}

fn slot<'a>(
    form: Form,
    clock: u64,
    after: Option<&str>,
    again: bool,
    bytes: &'a [u8],
) -> Result<(LentSlot<'a>, &'a [u8]), DeltaFault>
    requires { IsTrue again → IsFound (slot_part form clock (option_copied after)) bytes.now }
    ensures found { IfOk result (λ x. LentAt form clock (option_copied after.entry) bytes.now x.0 x.1.now) }
    ensures fault { IfErr result (Fails (slot_part form clock (option_copied after.entry)) bytes.now) }
{
    let (endpoint, rest) = endpoint(after, bytes)?;
    let (registration, rest) = stamp(clock, rest)?;
    let (flags, rest) = byte(rest)?;
    let (fields, rest) = fields(clock, flags, again, rest)?;
    let (behind, rest) = check_behind(form, clock, rest)?;
    let slot = LentSlot {
        endpoint,
        registration,
        removed: is_set(flags, REMOVED),
        fields,
        behind,
    };
    Ok((slot, rest))
}

/// The next slot, or none at the end of the slots. Of bytes that were walked before, object lists are not
/// checked again.
pub(crate) fn next_slot<'a>(
    form: Form,
    clock: u64,
    after: Option<&str>,
    again: bool,
    bytes: &'a [u8],
) -> Result<(Option<LentSlot<'a>>, &'a [u8]), DeltaFault>
    requires { IsTrue again → IsFound (optional (slot_part form clock (option_copied after))) bytes.now }
    ensures found { IfOk result (λ x. NextAt form clock (option_copied after.entry) bytes.now x.0 x.1.now) }
    ensures fault { IfErr result (Fails (optional (slot_part form clock (option_copied after.entry))) bytes.now) }
{
    let (present, rest) = tag(bytes)?;
    if !present {
        return Ok((None, rest));
    }
    let (slot, rest) = slot(form, clock, after, again, rest)?;
    Ok((Some(slot), rest))
}

/// Walks all slots, takes no memory, and tells how many they are. What stands behind them is left.
pub(crate) fn check_slots(
    form: Form,
    clock: u64,
    bytes: &[u8],
) -> Result<(usize, &[u8]), DeltaFault>
    ensures found { IfOk result (λ x. (ss : List (List ℕ × Slots))
        × Found (slots_part form clock) bytes.now ss x.1.now × (x.0 ≡ length ss)) }
    ensures fault { IfErr result (Fails (slots_part form clock) bytes.now) }
{
    let mut count = 0;
    let mut after = None;
    let mut rest = bytes;
    loop {
        let (next, behind) = next_slot(form, clock, after, false, rest)?;
        rest = behind;
        let Some(slot) = next else {
            return Ok((count, rest));
        };
        count += 1;
        after = Some(slot.endpoint);
    }
}
