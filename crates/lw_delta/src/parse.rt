//! What a part of a delta is read as, and the shapes that parts share.

ghost use Rattle.std.specs.Prelude.{ℕ, IsTrue, IfOk, IfErr};
ghost use Rattle.lw_delta.specs.Part.{Part, Found, Fails, when, optional};
ghost use Rattle.lw_delta.specs.inner.Part.{IsFound};
ghost use Rattle.lw_delta.specs.Format.{stamp as stamp_part, written};

use crate::DeltaFault;
use crate::numbers::{stamp, tag};
use lw_stamp::Stamp;

/// A value that stands in the bytes of a delta.
pub(crate) trait Parse<'a>: Sized {
    ghost part: { ℕ → Part Self };

    /// The value at the front of the bytes, and what stands behind it. Its stamps are at most the clock. Of
    /// bytes that were walked before and found good, object lists are not checked again.
    fn parse(clock: u64, again: bool, bytes: &'a [u8]) -> Result<(Self, &'a [u8]), DeltaFault>
        requires { IsTrue again → IsFound (part clock) bytes.now }
        ensures found { IfOk result (λ x. Found (part clock) bytes.now x.0 x.1.now) }
        ensures fault { IfErr result (Fails (part clock) bytes.now) };
}

/// A part that is there where a flag is set.
pub(crate) fn parse_if<'a, T: Parse<'a>>(
    present: bool,
    clock: u64,
    again: bool,
    bytes: &'a [u8],
) -> Result<(Option<T>, &'a [u8]), DeltaFault>
    requires { IsTrue again → IsFound (when present (T.part clock)) bytes.now }
    ensures found { IfOk result (λ x. Found (when present (T.part clock)) bytes.now x.0 x.1.now) }
    ensures fault { IfErr result (Fails (when present (T.part clock)) bytes.now) }
{
    if !present {
        return Ok((None, bytes));
    }
    let (value, rest) = T::parse(clock, again, bytes)?;
    Ok((Some(value), rest))
}

/// The byte 00, or the byte 01 and the part.
impl<'a, T: Parse<'a>> Parse<'a> for Option<T> {
    ghost part = { λ clock. optional (T.part clock) };

    fn parse(
        clock: u64,
        again: bool,
        bytes: &'a [u8],
    ) -> Result<(Option<T>, &'a [u8]), DeltaFault> {
        let (present, rest) = tag(bytes)?;
        parse_if(present, clock, again, rest)
    }
}

impl<'a> Parse<'a> for Stamp {
    ghost part = { stamp_part };

    fn parse(clock: u64, _again: bool, bytes: &'a [u8]) -> Result<(Stamp, &'a [u8]), DeltaFault> {
        stamp(clock, bytes)
    }
}

/// A stamp, and a value that the operation of the stamp wrote.
impl<'a, T: Parse<'a>> Parse<'a> for (Stamp, T) {
    ghost part = { λ clock. written clock (T.part clock) };

    fn parse(
        clock: u64,
        again: bool,
        bytes: &'a [u8],
    ) -> Result<((Stamp, T), &'a [u8]), DeltaFault> {
        let (stamp, rest) = stamp(clock, bytes)?;
        let (value, rest) = T::parse(clock, again, rest)?;
        Ok(((stamp, value), rest))
    }
}
