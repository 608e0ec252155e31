//! Laws of the delta format, each the contract of a function that does nothing.

ghost use Rattle.std.specs.Prelude.{◌≡◌, ℕ, ◌<◌, ◌^◌, ◌⊎◌, List, length, None};
ghost use Rattle.lw_reg.specs.declared.slot.Slot.{Slot as Slots};
ghost use Rattle.lw_delta.specs.declared.fault.DeltaFault.{DeltaFault as Faults};
ghost use Rattle.lw_delta.specs.declared.form.Form.{Form as Forms};
ghost use Rattle.lw_delta.specs.Delta.{DeltaContent, IsSpelling, IsSpellingIn, IsFault};
ghost use Rattle.lw_delta.specs.Removals.{HaveRemoval};
ghost use Rattle.lw_delta.specs.Writable.{AllFollow, AreGood};
ghost use Rattle.lw_delta.specs.Writing.{delta_bytes, delta_bytes_in};

/// What is written reads as its clock and slots, so no two deltas are written alike.
pub fn written_deltas_read_back()
    ensures { (clock : ℕ) (slots : List (List ℕ × Slots)) → clock < 2 ^ 48 → AreGood clock None slots
        → IsSpelling (delta_bytes clock slots) (record { clock = clock; slots = slots }) }
{}

/// Bytes spell no two deltas, have no two first faults, and never both. That they have one of these is what `check`
/// answers.
pub fn bytes_are_a_delta_or_a_fault()
    ensures delta { (bytes : List ℕ) (a b : DeltaContent) → IsSpelling bytes a → IsSpelling bytes b → a ≡ b }
    ensures apart { (bytes : List ℕ) (d : DeltaContent) (fault : Faults) → IsSpelling bytes d → IsFault bytes fault
        → ⊥ }
    ensures fault { (bytes : List ℕ) (a b : Faults) → IsFault bytes a → IsFault bytes b → a ≡ b }
{}

/// The slots of a delta can be written again, one after another.
pub fn deltas_can_be_written()
    ensures { (bytes : List ℕ) (d : DeltaContent) → IsSpelling bytes d → (d.clock < 2 ^ 48)
        × AllFollow d.clock None d.slots }
{}

/// A delta that was read can be written, and in each format it has one shortest spelling: any other of that format is
/// a fuller spelling of what is removed or cancelled, and longer.
pub fn written_deltas_are_shortest()
    ensures spelling { (bytes : List ℕ) (d : DeltaContent) → IsSpelling bytes d
        → IsSpelling (delta_bytes d.clock d.slots) d }
    ensures shortest { (form : Forms) (bytes : List ℕ) (d : DeltaContent) → IsSpellingIn form bytes d
        → (bytes ≡ delta_bytes_in form d.clock d.slots)
        ⊎ (length (delta_bytes_in form d.clock d.slots) < length bytes) }
    ensures alone { (form : Forms) (bytes : List ℕ) (d : DeltaContent) → IsSpellingIn form bytes d
        → (HaveRemoval d.slots → ⊥) → bytes ≡ delta_bytes_in form d.clock d.slots }
{}
