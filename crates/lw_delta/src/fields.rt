//! The fields of a slot, each where its flag is set.

ghost use Rattle.std.specs.Prelude.{IsTrue, IfOk, IfErr};
ghost use Rattle.lw_delta.specs.Part.{Found, Fails};
ghost use Rattle.lw_delta.specs.inner.Part.{IsFound};
ghost use Rattle.lw_delta.specs.Format.{fields as fields_part};

use crate::DeltaFault;
use crate::lent::{LentNumber, LentObjects};
use crate::numbers::is_set;
use crate::parse::parse_if;
use lw_reg::FieldWrites;

pub(crate) const BASE: u8 = 0x01;

pub(crate) const ADDRESS: u8 = 0x02;

pub(crate) const SEEN: u8 = 0x04;

pub(crate) const LIFETIME: u8 = 0x08;

pub(crate) const BINDING: u8 = 0x10;

pub(crate) const SMS: u8 = 0x20;

pub(crate) const OBJECTS: u8 = 0x40;

/// The fields of a slot, whose texts lie in the bytes of the delta.
pub(crate) type LentFields<'a> = FieldWrites<LentNumber<'a>, LentObjects<'a>>;

/// Of bytes that were walked before, object lists are not checked again.
pub(crate) fn fields(
    clock: u64,
    flags: u8,
    again: bool,
    bytes: &[u8],
) -> Result<(LentFields<'_>, &[u8]), DeltaFault>
    requires { IsTrue again → IsFound (fields_part clock flags) bytes.now }
    ensures found { IfOk result (λ x. Found (fields_part clock flags) bytes.now x.0 x.1.now) }
    ensures fault { IfErr result (Fails (fields_part clock flags) bytes.now) }
{
    let (base, rest) = parse_if(is_set(flags, BASE), clock, again, bytes)?;
    let (address, rest) = parse_if(is_set(flags, ADDRESS), clock, again, rest)?;
    let (seen, rest) = parse_if(is_set(flags, SEEN), clock, again, rest)?;
    let (lifetime, rest) = parse_if(is_set(flags, LIFETIME), clock, again, rest)?;
    let (binding, rest) = parse_if(is_set(flags, BINDING), clock, again, rest)?;
    let (sms, rest) = parse_if(is_set(flags, SMS), clock, again, rest)?;
    let (objects, rest) = parse_if(is_set(flags, OBJECTS), clock, again, rest)?;
    let fields = FieldWrites {
        base,
        address,
        seen,
        lifetime,
        binding,
        sms,
        objects,
    };
    Ok((fields, rest))
}
