//! The last field of a line, which takes memory.

ghost use Rattle.std.specs.Prelude.{◌≡◌, ◌↔◌, ℕ, List, IfSome, IfNone, IsOk, IsTrue};
ghost use Rattle.std.specs.List.{AllPass};
ghost use Rattle.hex.specs.Hex.{decode_of, is_hex_digit};
ghost use Rattle.lw_reg.specs.declared.addr.Addr.{Addr as Addrs};
ghost use Rattle.lw_stamp.specs.declared.moment.Moment.{Moment as Moments};
ghost use Rattle.lw_script.specs.Fields.{◌␣◌, IsShort, IsMoment, IsAddress, IsHex, IsName};
ghost use Rattle.lw_script.specs.inner.Fields.{IsRest};
ghost use Rattle.lw_script.specs.Lines.{ReadsAs};

use crate::LineFault;
use crate::field::{first, opening};
use lw_stamp::Moment;
use lw_world::{Addr, Bytes, Text};
use std::alloc::Global;

/// NODE, MS and ADDR, and the text behind them.
pub(crate) fn sender(text: &str) -> Option<(u16, Moment, Addr, &str)>
    ensures found { IfSome result (λ x.
        (IsShort ␣ IsMoment ␣ IsAddress ␣ IsRest) (x.0, (x.1, (x.2, x.3.now))) text.now) }
    ensures none { IfNone result ((values : ℕ × (Moments × (Addrs × List ℕ)))
        → ¬ (IsShort ␣ IsMoment ␣ IsAddress ␣ IsRest) values text.now) }
{
    let (node, now, rest) = opening(text)?;
    let (from, rest) = first(rest)?;
    Some((node, now, from, rest))
}

/// HEX.
pub(crate) fn datagram(alloc: Global, text: &str) -> Result<Bytes, LineFault>
    ensures { ReadsAs (λ bytes. IsHex bytes text.now) result }
{
    if !is_hex(text.as_bytes()) {
        return Err(LineFault::Refused);
    }
    match hex::decode(alloc, text.as_bytes()) {
        Ok(bytes) => Bytes::from_vec(bytes).map_err(|_| LineFault::NoMemory),
        Err(_) => Err(LineFault::NoMemory),
    }
}

/// Whether these are the digits of whole bytes, in either case.
pub fn is_hex(digits: &[u8]) -> bool
    ensures { IsTrue result ↔ IsOk (decode_of digits.now) }
{
    digits.len().is_multiple_of(2) && has_only_digits(digits)
}

fn has_only_digits(digits: &[u8]) -> bool
    ensures { IsTrue result ↔ AllPass is_hex_digit digits.now }
{
    digits.iter().all(|digit| digit.is_ascii_hexdigit())
}

/// ENDPOINT.
pub(crate) fn name(alloc: Global, text: &str) -> Result<Text, LineFault>
    ensures { ReadsAs (λ name. IsName name text.now) result }
{
    if text.is_empty() {
        return Err(LineFault::Refused);
    }
    Text::copy_of(alloc, text).map_err(|_| LineFault::NoMemory)
}

/// NODE, MS and ENDPOINT.
pub(crate) fn named(alloc: Global, text: &str) -> Result<(u16, Moment, Text), LineFault>
    ensures { ReadsAs (λ x. (IsShort ␣ IsMoment ␣ IsName) (x.0, (x.1, x.2)) text.now) result }
{
    let Some((node, now, rest)) = opening(text) else {
        return Err(LineFault::Refused);
    };
    match name(alloc, rest) {
        Ok(name) => Ok((node, now, name)),
        Err(fault) => Err(fault),
    }
}
