//! The values of fields.

ghost use Rattle.std.specs.Prelude.{◌≡◌, ◌↔◌, IsTrue, IsSome, IfSome, IfOk, IfErr};
ghost use Rattle.std.specs.Option.{option_copied};
ghost use Rattle.lw_stamp.specs.TextOrder.{text_cmp};
ghost use Rattle.lw_link.specs.WellFormed.{IsPrinting};
ghost use Rattle.lw_reg.specs.Binding.{binding_text};
ghost use Rattle.lw_reg.specs.BindingText.{IsBindingText};
ghost use Rattle.lw_delta.specs.Order.{IsAbove};
ghost use Rattle.lw_delta.specs.Part.{Found, Fails};
ghost use Rattle.lw_delta.specs.Format.{base as base_part, v4 as v4_part, v6 as v6_part, address as address_part, moment as moment_part, binding as binding_part, text as text_part, sms_number as sms_part, objects as objects_part, number16 as number16_part, number32 as number32_part};
ghost use Rattle.lw_delta.specs.Values.{base_in};

use crate::DeltaFault;
use crate::lent::{LentNumber, LentObjects};
use crate::numbers::{byte, front, is_within, number16, number32, number48};
use crate::parse::Parse;
use lw_link::is_printing;
use lw_reg::{Addr, Base, Binding, Version};
use lw_stamp::Moment;

/// Bit 0 for version 1.1, bit 1 for queue mode.
fn base_of(bits: u8) -> Base
    ensures { result ≡ base_in bits }
{
    let version = if bits % 2 == 1 {
        Version::V11
    } else {
        Version::V10
    };
    Base {
        version,
        queue: bits / 2 == 1,
    }
}

impl<'a> Parse<'a> for Base {
    ghost part = { λ _. base_part };

    fn parse(_clock: u64, _again: bool, bytes: &'a [u8]) -> Result<(Base, &'a [u8]), DeltaFault> {
        let (bits, rest) = byte(bytes)?;
        if bits > 3 {
            return Err(DeltaFault::Range);
        }
        Ok((base_of(bits), rest))
    }
}

fn v4(bytes: &[u8]) -> Result<(Addr, &[u8]), DeltaFault>
    ensures found { IfOk result (λ x. Found v4_part bytes.now x.0 x.1.now) }
    ensures fault { IfErr result (Fails v4_part bytes.now) }
{
    let Some((address, rest)) = bytes.split_first_chunk::<4>() else {
        return Err(DeltaFault::Truncated);
    };
    let (port, rest) = number16(rest)?;
    let address = *address;
    Ok((Addr::V4 { address, port }, rest))
}

fn v6(bytes: &[u8]) -> Result<(Addr, &[u8]), DeltaFault>
    ensures found { IfOk result (λ x. Found v6_part bytes.now x.0 x.1.now) }
    ensures fault { IfErr result (Fails v6_part bytes.now) }
{
    let Some((address, rest)) = bytes.split_first_chunk::<16>() else {
        return Err(DeltaFault::Truncated);
    };
    let (port, rest) = number16(rest)?;
    let address = *address;
    Ok((Addr::V6 { address, port }, rest))
}

impl<'a> Parse<'a> for Addr {
    ghost part = { λ _. address_part };

    fn parse(_clock: u64, _again: bool, bytes: &'a [u8]) -> Result<(Addr, &'a [u8]), DeltaFault> {
        let (family, rest) = byte(bytes)?;
        if family == 4 {
            return v4(rest);
        }
        if family == 6 {
            return v6(rest);
        }
        Err(DeltaFault::Range)
    }
}

impl<'a> Parse<'a> for Moment {
    ghost part = { λ _. moment_part };

    fn parse(_clock: u64, _again: bool, bytes: &'a [u8]) -> Result<(Moment, &'a [u8]), DeltaFault> {
        let (ms, rest) = number48(bytes)?;
        let Some(moment) = Moment::new(ms) else {
            unreachable!()
        };
        Ok((moment, rest))
    }
}

fn binding_of(letters: &[u8]) -> Option<Binding>
    ensures accepted { IsSome result ↔ IsBindingText letters.now }
    ensures value { IfSome result (λ b. binding_text b ≡ letters.now) }
{
    let Ok(text) = std::str::from_utf8(letters) else {
        return None;
    };
    Binding::read(text)
}

impl<'a> Parse<'a> for Binding {
    ghost part = { λ _. binding_part };

    fn parse(
        _clock: u64,
        _again: bool,
        bytes: &'a [u8],
    ) -> Result<(Binding, &'a [u8]), DeltaFault> {
        let (count, rest) = byte(bytes)?;
        if !is_within(count as usize, 8) {
            return Err(DeltaFault::Range);
        }
        let (letters, rest) = front(rest, count as usize)?;
        let Some(binding) = binding_of(letters) else {
            return Err(DeltaFault::Text);
        };
        Ok((binding, rest))
    }
}

/// So many bytes of UTF-8.
pub(crate) fn text(bytes: &[u8], count: u8) -> Result<(&str, &[u8]), DeltaFault>
    ensures found { IfOk result (λ x. Found (text_part count) bytes.now x.0.now x.1.now) }
    ensures fault { IfErr result (Fails (text_part count) bytes.now) }
{
    let (front, rest) = front(bytes, count as usize)?;
    let Ok(text) = std::str::from_utf8(front) else {
        return Err(DeltaFault::Text);
    };
    Ok((text, rest))
}

/// Whether a text is above the one before, where there is one.
pub(crate) fn is_above(after: Option<&str>, text: &str) -> bool
    ensures { IsTrue result ↔ IsAbove text_cmp (option_copied after.entry) text.now }
{
    match after {
        None => true,
        Some(before) => before < text,
    }
}

impl<'a> Parse<'a> for LentNumber<'a> {
    ghost part = { λ _. sms_part };

    fn parse(
        _clock: u64,
        _again: bool,
        bytes: &'a [u8],
    ) -> Result<(LentNumber<'a>, &'a [u8]), DeltaFault> {
        let (count, rest) = byte(bytes)?;
        if count > 251 {
            return Err(DeltaFault::Range);
        }
        let (text, rest) = text(rest, count)?;
        Ok((LentNumber { text }, rest))
    }
}

/// Whether the bytes are a printing of links: so they are where they were walked before.
fn is_list(again: bool, bytes: &[u8]) -> bool
    requires { IsTrue again → IsPrinting bytes.now }
    ensures { IsTrue result ↔ IsPrinting bytes.now }
{
    again || is_printing(bytes)
}

impl<'a> Parse<'a> for LentObjects<'a> {
    ghost part = { λ _. objects_part };

    fn parse(
        _clock: u64,
        again: bool,
        bytes: &'a [u8],
    ) -> Result<(LentObjects<'a>, &'a [u8]), DeltaFault> {
        let (count, rest) = number16(bytes)?;
        if !is_within(count as usize, 8192) {
            return Err(DeltaFault::Range);
        }
        let (bytes, rest) = front(rest, count as usize)?;
        if !is_list(again, bytes) {
            return Err(DeltaFault::Text);
        }
        Ok((LentObjects { bytes }, rest))
    }
}

/// A Content-Format.
impl<'a> Parse<'a> for u16 {
    ghost part = { λ _. number16_part };

    fn parse(_clock: u64, _again: bool, bytes: &'a [u8]) -> Result<(u16, &'a [u8]), DeltaFault> {
        number16(bytes)
    }
}

/// A lifetime in seconds.
impl<'a> Parse<'a> for u32 {
    ghost part = { λ _. number32_part };

    fn parse(_clock: u64, _again: bool, bytes: &'a [u8]) -> Result<(u32, &'a [u8]), DeltaFault> {
        number32(bytes)
    }
}
