ghost use Rattle.std.specs.Prelude.{◌≡◌, ℕ, ◌<◌, ◌^◌, ◌++◌, ◌∷◌, [], List, IfOk, OnOk, OnErr};
ghost use Rattle.lw_reg.specs.declared.slot.Slot.{Slot as Slots};
ghost use Rattle.lw_reg.specs.Endpoint.{IsEndpoint};
ghost use Rattle.lw_stamp.specs.TextOrder.{text_cmp};
ghost use Rattle.lw_delta.specs.Order.{IsAbove};
ghost use Rattle.lw_delta.specs.Delta.{DeltaContent, IsSpelling};
ghost use Rattle.lw_delta.specs.Form.{latest as latest_form};
ghost use Rattle.lw_delta.specs.Writable.{IsBegun, IsOwnText, IsTyped, StampsWithin, last_endpoint};
ghost use Rattle.lw_delta.specs.Writing.{Begins, delta_bytes, slot_bytes};

use crate::form::{latest, magic};
use crate::put::put_bytes;
use crate::writing::{put_number48, put_slot};
use lw_reg::Slot;
use lw_stamp::NoMemory;
use std::alloc::Global;
use std::marker::Model;

/// The bytes of a delta without slots: the four of its format, the clock and the end.
const LEAST: usize = 11;

/// Most slots take no more bytes than these: then a slot is written without a second growth.
const SLOT_ROOM: usize = 200;

/// Puts a delta together: a clock, and slots by endpoints that rise. Contracts see the clock and the bytes so
/// far.
#[derive(Drop)]
pub struct Writer {
    clock: u64,
    bytes: Vec<u8>,
}

impl Model for Writer {
    ghost use Rattle.std.specs.Prelude.{ℕ, List};
    ghost use Rattle.lw_reg.specs.declared.slot.Slot.{Slot};
    ghost use Rattle.lw_delta.specs.Writable.{Begun, IsBegun};

    ghost Value = { Begun };

    ghost view = { λ w. record { clock = w.clock; bytes = w.bytes.items } };

    // slots were written, one after another
    ghost invariant = { λ w. (slots : List (List ℕ × Slot))
        × IsBegun (record { clock = w.clock; bytes = w.bytes.items }) slots };
}

/// Makes room for a slot of common length, and writes the slot. Refused, a prefix of it may be there.
fn put_with_room(out: &mut Vec<u8>, endpoint: &str, slot: &Slot) -> Result<(), NoMemory>
    requires { IsEndpoint endpoint.now }
    ensures written { OnOk result (out.new.items ≡ out.old.items
        ++ 1 ∷ slot_bytes latest_form (endpoint.now, slot.now)) }
    ensures typed { OnOk result (IsTyped slot.now) }
    ensures named { OnOk result (IsOwnText endpoint.now) }
    ensures kept { Begins out.old.items out.new.items }
{
    out.reserve(SLOT_ROOM)?;
    put_slot(out, endpoint, slot)
}

impl Writer {
    /// A delta of this clock, with no slots yet. The clock is at most 2^48 - 1.
    pub fn new(alloc: Global, clock: u64) -> Result<Writer, NoMemory>
        requires { clock < 2 ^ 48 }
        ensures clock { IfOk result (λ writer. writer.clock ≡ clock) }
        ensures begun { IfOk result (λ writer. IsBegun writer []) }
    {
        let mut bytes = Vec::with_capacity(alloc, LEAST)?;
        put_bytes(&mut bytes, &magic(latest()))?;
        put_number48(&mut bytes, clock)?;
        Ok(Writer { clock, bytes })
    }

    /// Writes a slot behind the ones before. The endpoint has 1 to 252 bytes and is above the last one, and no
    /// stamp of the slot is above the clock.
    pub fn slot(&mut self, endpoint: &str, slot: &Slot) -> Result<(), NoMemory>
        requires named { IsEndpoint endpoint.now }
        requires above { (slots : List (List ℕ × Slots)) → IsBegun self.old slots
            → IsAbove text_cmp (last_endpoint slots) endpoint.now }
        requires within { StampsWithin self.old.clock slot.now }
        ensures clock { self.new.clock ≡ self.old.clock }
        ensures begun { (slots : List (List ℕ × Slots)) → IsBegun self.old slots
            → OnOk result (IsBegun self.new (slots ++ (endpoint.now, slot.now) ∷ [])) }
        // Refused, it is unchanged.
        ensures refused { OnErr result (self.new ≡ self.old) }
    {
        let begun = self.bytes.len();
        match put_with_room(&mut self.bytes, endpoint, slot) {
            Ok(()) => Ok(()),
            Err(refused) => {
                self.bytes.truncate(begun);
                Err(refused)
            }
        }
    }

    /// The bytes of the delta. Refused, the writer is given up.
    pub fn end(self) -> Result<Vec<u8>, NoMemory>
        ensures written { (slots : List (List ℕ × Slots)) → IsBegun self slots
            → IfOk result (λ bytes. bytes.items ≡ delta_bytes self.clock slots) }
        // They are a delta of the clock and of the slots that were written.
        ensures spelled { (slots : List (List ℕ × Slots)) → IsBegun self slots
            → IfOk result (λ bytes. IsSpelling bytes.items (record { clock = self.clock; slots = slots })) }
        // Whatever was written before, they are a delta of the clock.
        ensures whole { IfOk result (λ bytes. (slots : List (List ℕ × Slots))
            × IsSpelling bytes.items (record { clock = self.clock; slots = slots })) }
    {
        let mut bytes = self.bytes;
        bytes.push(0)?;
        Ok(bytes)
    }
}
