ghost use Rattle.std.specs.Prelude.{◌≡◌, ◌↔◌, ℕ, List, IfOk, IfErr, Ok, Err};
ghost use Rattle.lw_reg.specs.declared.slot.Slot.{Slot as Slots};
ghost use Rattle.lw_delta.specs.declared.fault.DeltaFault.{DeltaFault as Faults};
ghost use Rattle.lw_delta.specs.Part.{Found, Fails};
ghost use Rattle.lw_delta.specs.Format.{magic as magic_part, header as header_part};
ghost use Rattle.lw_delta.specs.Delta.{DeltaContent, IsSpelling, IsFault};
ghost use Rattle.lw_delta.specs.inner.Delta.{Checks};
ghost use Rattle.lw_delta.specs.inner.Lent.{WalkedAs};

use crate::DeltaFault;
use crate::form::{Form, form_of};
use crate::numbers::{front, number48};
use crate::slots::check_slots;

fn magic(bytes: &[u8]) -> Result<(Form, &[u8]), DeltaFault>
    ensures found { IfOk result (λ x. Found magic_part bytes.now x.0 x.1.now) }
    ensures fault { IfErr result (Fails magic_part bytes.now) }
{
    let (magic, rest) = front(bytes, 4)?;
    let Some(form) = form_of(magic) else {
        return Err(DeltaFault::Magic);
    };
    Ok((form, rest))
}

/// The format and the clock.
fn header(bytes: &[u8]) -> Result<((Form, u64), &[u8]), DeltaFault>
    ensures found { IfOk result (λ x. Found header_part bytes.now x.0 x.1.now) }
    ensures fault { IfErr result (Fails header_part bytes.now) }
{
    let (form, rest) = magic(bytes)?;
    let (clock, rest) = number48(rest)?;
    Ok(((form, clock), rest))
}

/// A delta that was walked: its format and clock, how many slots it has, and its bytes from the first slot on.
#[derive(Clone, Copy)]
pub(crate) struct Walked<'a> {
    pub form: Form,
    pub clock: u64,
    pub slot_count: usize,
    pub slots: &'a [u8],
}

/// Walks the whole delta, and takes no memory.
pub(crate) fn walk(bytes: &[u8]) -> Result<Walked<'_>, DeltaFault>
    ensures found { IfOk result (λ walked. WalkedAs bytes.now walked) }
    ensures fault { IfErr result (IsFault bytes.now) }
{
    let ((form, clock), slots) = header(bytes)?;
    let (slot_count, rest) = check_slots(form, clock, slots)?;
    if !rest.is_empty() {
        return Err(DeltaFault::Trailing);
    }
    Ok(Walked {
        form,
        clock,
        slot_count,
        slots,
    })
}

fn walked_clock(bytes: &[u8]) -> Result<u64, DeltaFault>
    ensures { Checks bytes.now result }
{
    let walked = walk(bytes)?;
    Ok(walked.clock)
}

/// The sender's clock, where the bytes are a delta. It takes no memory, so `NoMemory` is never answered.
pub fn check(bytes: &[u8]) -> Result<u64, DeltaFault>
    // What is accepted is a delta with this clock.
    ensures found { IfOk result (λ clock. (slots : List (List ℕ × Slots))
        × IsSpelling bytes.now (record { clock = clock; slots = slots })) }
    // A delta is accepted.
    ensures only { (d : DeltaContent) → IsSpelling bytes.now d → result ≡ Ok d.clock }
    // Each fault is answered exactly where it is the first, and want of memory is none.
    ensures faults { (fault : Faults) → (result ≡ Err fault) ↔ IsFault bytes.now fault }
    ensures memory { IsFault bytes.now DeltaFault.NoMemory → ⊥ }
{
    walked_clock(bytes)
}
