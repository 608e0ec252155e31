//! What is written in a delta, and the shapes that parts share.

ghost use Rattle.std.specs.Prelude.{◌≡◌, ℕ, ◌++◌, ◌∷◌, [], List, OnOk, IfSome};
ghost use Rattle.std.specs.List.{AllByRecursion};
ghost use Rattle.lw_stamp.specs.Stamp.{stamp_bytes};
ghost use Rattle.lw_delta.specs.Writing.{Begins, present_bytes, optional_bytes, repeated_bytes};

use lw_stamp::{NoMemory, Stamp};

/// A value that is written in a delta.
pub(crate) trait Put {
    ghost bytes: { Self → List ℕ };

    ghost typed: { Self → Type 0 };

    /// Writes the value behind what is there. Refused, a front of it may stand there.
    fn put(&self, out: &mut Vec<u8>) -> Result<(), NoMemory>
        ensures written { OnOk result (out.new.items ≡ out.old.items ++ bytes self.now) }
        ensures typed { OnOk result (typed self.now) }
        ensures kept { Begins out.old.items out.new.items };
}

pub(crate) fn put_bytes(out: &mut Vec<u8>, bytes: &[u8]) -> Result<(), NoMemory>
    ensures written { OnOk result (out.new.items ≡ out.old.items ++ bytes.now) }
    ensures kept { Begins out.old.items out.new.items }
{
    out.extend_from_slice(bytes)?;
    Ok(())
}

pub(crate) fn put_byte(out: &mut Vec<u8>, byte: u8) -> Result<(), NoMemory>
    ensures written { OnOk result (out.new.items ≡ out.old.items ++ byte ∷ []) }
    ensures kept { Begins out.old.items out.new.items }
{
    out.push(byte)?;
    Ok(())
}

/// A part where it is there, and nothing where it is not.
pub(crate) fn put_present<T: Put + Drop>(out: &mut Vec<u8>, part: Option<T>) -> Result<(), NoMemory>
    ensures written { OnOk result (out.new.items ≡ out.old.items ++ present_bytes T.bytes part) }
    ensures typed { OnOk result (IfSome part T.typed) }
    ensures kept { Begins out.old.items out.new.items }
{
    match part {
        None => Ok(()),
        Some(value) => value.put(out),
    }
}

/// One of many values that stand one after another.
pub(crate) trait PutEntry {
    ghost bytes: { Self → List ℕ };

    /// What is known of the value before.
    ghost fits: { Self → Type 0 };

    ghost typed: { Self → Type 0 };

    /// Writes the value behind what is there. Refused, a front of it may stand there.
    fn put_entry(&self, out: &mut Vec<u8>) -> Result<(), NoMemory>
        requires { fits self.now }
        ensures written { OnOk result (out.new.items ≡ out.old.items ++ bytes self.now) }
        ensures typed { OnOk result (typed self.now) }
        ensures kept { Begins out.old.items out.new.items };
}

/// Values one after another, each behind 01, up to a 00.
pub(crate) fn put_all<T: PutEntry>(out: &mut Vec<u8>, values: &[T]) -> Result<(), NoMemory>
    requires { AllByRecursion T.fits values.now }
    ensures written { OnOk result (out.new.items ≡ out.old.items ++ repeated_bytes T.bytes values.now) }
    ensures typed { OnOk result (AllByRecursion T.typed values.now) }
    ensures kept { Begins out.old.items out.new.items }
{
    for value in values {
        put_byte(out, 1)?;
        value.put_entry(out)?;
    }
    put_byte(out, 0)
}

impl Put for Stamp {
    ghost bytes = { stamp_bytes };

    ghost typed = { λ _. Unit {0} };

    fn put(&self, out: &mut Vec<u8>) -> Result<(), NoMemory> {
        put_bytes(out, &self.to_bytes())
    }
}

/// A stamp, and a value that the operation of the stamp wrote.
impl<T: Put> Put for (Stamp, T) {
    ghost bytes = { λ w. stamp_bytes w.0 ++ T.bytes w.1 };

    ghost typed = { λ w. T.typed w.1 };

    fn put(&self, out: &mut Vec<u8>) -> Result<(), NoMemory> {
        let (stamp, value) = self;
        stamp.put(out)?;
        value.put(out)
    }
}

/// The byte 00, or the byte 01 and the value.
impl<T: Put> Put for Option<T> {
    ghost bytes = { optional_bytes T.bytes };

    ghost typed = { λ o. IfSome o T.typed };

    fn put(&self, out: &mut Vec<u8>) -> Result<(), NoMemory> {
        match self {
            None => put_byte(out, 0),
            Some(value) => {
                put_byte(out, 1)?;
                value.put(out)
            }
        }
    }
}
