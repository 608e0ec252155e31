//! Bytes, numbers and stamps at the front of a delta.

ghost use Rattle.std.specs.Prelude.{◌≡◌, ◌<◌, ◌≤◌, ◌^◌, ◌↔◌, IsTrue, IfOk, IfErr};
ghost use Rattle.lw_delta.specs.Values.{is_set as is_set_in};
ghost use Rattle.lw_delta.specs.Part.{Found, Fails, byte as byte_part, tag as tag_part, bytes_of};
ghost use Rattle.lw_delta.specs.Format.{number16 as number16_part, number32 as number32_part, number48 as number48_part, stamp as stamp_part};

use crate::DeltaFault;
use lw_stamp::Stamp;

/// Whether a length or a flag byte is from 1 to the most.
pub(crate) fn is_within(count: usize, most: usize) -> bool
    ensures { IsTrue result ↔ ((1 ≤ count) × (count ≤ most)) }
{
    1 <= count && count <= most
}

pub(crate) fn is_set(flags: u8, flag: u8) -> bool
    ensures { result ≡ is_set_in flags flag }
{
    flags & flag > 0
}

pub(crate) fn byte(bytes: &[u8]) -> Result<(u8, &[u8]), DeltaFault>
    ensures found { IfOk result (λ x. Found byte_part bytes.now x.0 x.1.now) }
    ensures fault { IfErr result (Fails byte_part bytes.now) }
{
    let [first, rest @ ..] = bytes else {
        return Err(DeltaFault::Truncated);
    };
    Ok((*first, rest))
}

/// Whether a byte 00 or 01 is 01.
pub(crate) fn tag(bytes: &[u8]) -> Result<(bool, &[u8]), DeltaFault>
    ensures found { IfOk result (λ x. Found tag_part bytes.now x.0 x.1.now) }
    ensures fault { IfErr result (Fails tag_part bytes.now) }
{
    let (value, rest) = byte(bytes)?;
    if value > 1 {
        return Err(DeltaFault::Range);
    }
    Ok((value == 1, rest))
}

pub(crate) fn front(bytes: &[u8], count: usize) -> Result<(&[u8], &[u8]), DeltaFault>
    ensures found { IfOk result (λ x. Found (bytes_of count) bytes.now x.0.now x.1.now) }
    ensures fault { IfErr result (Fails (bytes_of count) bytes.now) }
{
    if bytes.len() < count {
        return Err(DeltaFault::Truncated);
    }
    Ok(bytes.split_at(count))
}

pub(crate) fn number16(bytes: &[u8]) -> Result<(u16, &[u8]), DeltaFault>
    ensures found { IfOk result (λ x. Found number16_part bytes.now x.0 x.1.now) }
    ensures fault { IfErr result (Fails number16_part bytes.now) }
{
    let Some((block, rest)) = bytes.split_first_chunk::<2>() else {
        return Err(DeltaFault::Truncated);
    };
    Ok((u16::from_be_bytes(*block), rest))
}

pub(crate) fn number32(bytes: &[u8]) -> Result<(u32, &[u8]), DeltaFault>
    ensures found { IfOk result (λ x. Found number32_part bytes.now x.0 x.1.now) }
    ensures fault { IfErr result (Fails number32_part bytes.now) }
{
    let Some((block, rest)) = bytes.split_first_chunk::<4>() else {
        return Err(DeltaFault::Truncated);
    };
    Ok((u32::from_be_bytes(*block), rest))
}

pub(crate) fn number48(bytes: &[u8]) -> Result<(u64, &[u8]), DeltaFault>
    ensures found { IfOk result (λ x. Found number48_part bytes.now x.0 x.1.now) }
    ensures in_range { IfOk result (λ x. x.0 < 2 ^ 48) }
    ensures fault { IfErr result (Fails number48_part bytes.now) }
{
    let Some((block, rest)) = bytes.split_first_chunk::<6>() else {
        return Err(DeltaFault::Truncated);
    };
    let [a, b, c, d, e, f] = *block;
    Ok((u64::from_be_bytes([0, 0, a, b, c, d, e, f]), rest))
}

/// A stamp of an operation, whose counter is at most the clock.
pub(crate) fn stamp(clock: u64, bytes: &[u8]) -> Result<(Stamp, &[u8]), DeltaFault>
    ensures found { IfOk result (λ x. Found (stamp_part clock) bytes.now x.0 x.1.now) }
    ensures fault { IfErr result (Fails (stamp_part clock) bytes.now) }
{
    let Some((block, rest)) = bytes.split_first_chunk::<8>() else {
        return Err(DeltaFault::Truncated);
    };
    let Some(stamp) = Stamp::from_bytes(*block) else {
        return Err(DeltaFault::Range);
    };
    if stamp.counter > clock {
        return Err(DeltaFault::ClockBelow);
    }
    Ok((stamp, rest))
}
