ghost use Rattle.std.specs.Prelude.{◌≡◌, ◌≢◌, ◌↔◌, ◌<◌, ◌^◌, ℕ, [], List, length, IsOk, IsOkAnd, IfOk, OnErr, OnSome, Err};
ghost use Rattle.lw_reg.specs.declared.slot.Slot.{Slot as Slots};
ghost use Rattle.lw_delta.specs.declared.fault.DeltaFault.{DeltaFault as Faults};
ghost use Rattle.lw_delta.specs.Delta.{DeltaContent, IsSpelling, IsFault};
ghost use Rattle.lw_delta.specs.Part.{Found};
ghost use Rattle.lw_delta.specs.Format.{slots as slots_part};
ghost use Rattle.lw_delta.specs.Unread.{IsLeft, Leaves};
ghost use Rattle.lw_delta.specs.inner.Unread.{unread_of};

use crate::DeltaFault;
use crate::checking::{Walked, walk};
use crate::form::Form;
use crate::reading::slot;
use crate::slots::next_slot;
use lw_reg::{Endpoint, Slot};
use lw_stamp::NoMemory;
use std::alloc::Global;
use std::marker::Model;

/// Takes a delta apart slot by slot. Contracts see the clock and the bytes that are left.
#[derive(Drop)]
pub struct Reader<'a> {
    alloc: Global,
    form: Form,
    clock: u64,
    after: Option<&'a str>,
    rest: &'a [u8],
}

impl<'a> Model for Reader<'a> {
    ghost use Rattle.std.specs.Prelude.{ℕ, List};
    ghost use Rattle.std.specs.Option.{option_copied};
    ghost use Rattle.lw_reg.specs.declared.slot.Slot.{Slot};
    ghost use Rattle.lw_delta.specs.Unread.{Unread, IsLeft};

    ghost Value = { Unread };

    ghost view = { λ r. record { form = r.form; clock = r.clock; after = option_copied r.after; bytes = r.rest.now } };

    // slots are left, and nothing stands behind them
    ghost invariant = { λ r. (slots : List (List ℕ × Slot))
        × IsLeft (record { form = r.form; clock = r.clock; after = option_copied r.after; bytes = r.rest.now }) slots };
}

impl<'a> Reader<'a> {
    /// Walks the whole delta first, which takes no memory, so `NoMemory` is never answered. Then all its slots are
    /// left.
    pub fn new(alloc: Global, bytes: &'a [u8]) -> Result<Reader<'a>, DeltaFault>
        // What is accepted is a delta of this clock and these slots.
        ensures found { IfOk result (λ reader. (slots : List (List ℕ × Slots)) × IsLeft reader slots
            × IsSpelling bytes.now (record { clock = reader.clock; slots = slots })) }
        // A delta is accepted.
        ensures only { (d : DeltaContent) → IsSpelling bytes.now d
            → IsOkAnd result (λ reader. (reader.clock ≡ d.clock) × IsLeft reader d.slots) }
        // Each fault is answered exactly where it is the first.
        ensures faults { (fault : Faults) → (result ≡ Err fault) ↔ IsFault bytes.now fault }
        ensures memory { result ≢ Err Faults.NoMemory }
        // So the slots can be counted.
        ensures fits { IfOk result (λ reader. length reader.bytes < 2 ^ 64) }
    {
        let walked = walk(bytes)?;
        Ok(Reader::of(alloc, walked))
    }

    /// All slots of a delta that was walked.
    pub(crate) fn of(alloc: Global, walked: Walked<'a>) -> Reader<'a>
        requires { (slots : List (List ℕ × Slots))
            × Found (slots_part walked.form walked.clock) walked.slots.now slots [] }
        ensures { result ≡ unread_of walked.entry }
    {
        Reader {
            alloc,
            form: walked.form,
            clock: walked.clock,
            after: None,
            rest: walked.slots,
        }
    }

    /// The counter of the sender's clock.
    pub fn clock(&self) -> u64
        ensures { result ≡ self.now.clock }
    {
        self.clock
    }

    /// The next slot and its endpoint, or none at the end. Refused, the slot is still left.
    pub fn next(&mut self) -> Result<Option<(Endpoint, Slot)>, NoMemory>
        ensures clock { self.new.clock ≡ self.old.clock }
        ensures next { (slots : List (List ℕ × Slots)) → IsLeft self.old slots
            → IfOk result (λ entry. Leaves slots entry self.new) }
        ensures shorter { IfOk result (λ entry. OnSome entry (length self.new.bytes < length self.old.bytes)) }
        ensures refused { OnErr result (self.new ≡ self.old) }
        // The end takes no memory.
        ensures end { IsLeft self.old [] → IsOk result }
    {
        let Ok((next, behind)) = next_slot(self.form, self.clock, self.after, true, self.rest)
        else {
            unreachable!()
        };
        let Some(lent) = next else {
            return Ok(None);
        };
        let endpoint = lent.endpoint;
        let Ok(entry) = slot(self.alloc, self.form, self.clock, lent) else {
            return Err(NoMemory);
        };
        self.after = Some(endpoint);
        self.rest = behind;
        Ok(Some(entry))
    }
}
