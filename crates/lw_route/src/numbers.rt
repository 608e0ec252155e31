//! Numbers of a query.

ghost use Rattle.std.specs.Prelude.{◌≡◌, ◌^◌, ℕ, IfSome, IfNone, ◌↔◌, IsTrue};
ghost use Rattle.std.specs.Int.{w64, to_be_bytes};
ghost use Rattle.hex.specs.Hex.{encode_lower};
ghost use Rattle.lw_reg.specs.inner.Addr.Reading.{IsPlain};
ghost use Rattle.lw_route.specs.Answers.{Reads};
ghost use Rattle.lw_route.specs.Numbers.{IsNumber, IsSince, IsFrom, IsAccept, IsLimit, IsTag};
ghost use Rattle.lw_route.specs.declared.error.RouteError.TheVariants as error;

use crate::RouteError;
use hex::FromHex;

/// The number in decimal, without leading zeros.
pub(crate) fn since(text: &str) -> Result<u64, RouteError>
    ensures { Reads IsSince error.Since text.now result }
{
    decimal(text).ok_or(RouteError::Since)
}

/// The number of the first notification, in decimal, without leading zeros.
pub(crate) fn from(text: &str) -> Result<u64, RouteError>
    ensures { Reads IsFrom error.From text.now result }
{
    decimal(text).ok_or(RouteError::From)
}

/// The number of a content format, in decimal, without leading zeros.
pub(crate) fn accept(text: &str) -> Result<u16, RouteError>
    ensures { Reads IsAccept error.Accept text.now result }
{
    let Some(number) = decimal(text) else {
        return Err(RouteError::Accept);
    };
    match u16::try_from(number) {
        Ok(accept) => Ok(accept),
        Err(_) => Err(RouteError::Accept),
    }
}

/// The number of entries, from 1 to 256.
pub(crate) fn limit(text: &str) -> Result<usize, RouteError>
    ensures { Reads IsLimit error.Limit text.now result }
{
    let Some(limit) = decimal(text) else {
        return Err(RouteError::Limit);
    };
    if !(1..=256).contains(&limit) {
        return Err(RouteError::Limit);
    }
    Ok(limit as usize)
}

/// The number of 16 lower-case hex digits.
pub(crate) fn tag(text: &str) -> Result<u64, RouteError>
    ensures { Reads IsTag error.Start text.now result }
{
    tag_of(text.as_bytes()).ok_or(RouteError::Start)
}

fn decimal(text: &str) -> Option<u64>
    ensures found { IfSome result (λ n. IsNumber (2 ^ 64) n text.now) }
    ensures none { IfNone result ((n : ℕ) → ¬ IsNumber (2 ^ 64) n text.now) }
{
    if !is_plain(text) {
        return None;
    }
    text.parse().ok()
}

/// Whether a number has no sign and no leading zero.
fn is_plain(text: &str) -> bool
    ensures { IsTrue result ↔ IsPlain text.now }
{
    !matches!(text.as_bytes(), [b'+', ..] | [b'0', _, ..])
}

fn tag_of(text: &[u8]) -> Option<u64>
    ensures found { IfSome result (λ tag. IsTag tag text.now) }
    ensures none { IfNone result ((tag : ℕ) → ¬ IsTag tag text.now) }
{
    let bytes = <[u8; 8]>::from_hex(text).ok()?;
    let tag = u64::from_be_bytes(bytes);
    if tag_text(tag).as_slice() == text {
        Some(tag)
    } else {
        None
    }
}

fn tag_text(tag: u64) -> [u8; 16]
    ensures { result ≡ encode_lower (to_be_bytes w64 tag) }
{
    let mut text = [0; 16];
    let _written = hex::encode_to_slice(tag.to_be_bytes(), &mut text);
    text
}
