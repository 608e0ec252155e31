//! Reading an address from left to right.

ghost use Rattle.std.specs.Prelude.{◌≡◌, ◌<◌, ◌^◌, ◌++◌, ◌↔◌, IsTrue};
ghost use Rattle.lw_reg.specs.inner.Addr.Reading.{Gives, strip_at, cut_at, number_in, IsPlain, octet_then, v4_in, hex_value, byte_in, group_in, group_then, four_then, v6_in, addr_in};

use crate::Addr;

/// The address that the whole text prints.
#[tactic(auto, unfolding(crate::specs::inner::Addr::Reading::addr_in))]
pub(super) fn read(text: &str) -> Option<Addr>
    ensures { result ≡ addr_in text.now }
{
    match strip(text, '[') {
        Some(rest) => v6(rest),
        None => v4(text),
    }
}

#[tactic(auto, unfolding(crate::specs::inner::Addr::Reading::v4_in))]
fn v4(text: &str) -> Option<Addr>
    ensures { result ≡ v4_in text.now }
{
    let (a, rest) = octet_before(text, '.')?;
    let (b, rest) = octet_before(rest, '.')?;
    let (c, rest) = octet_before(rest, '.')?;
    let (d, rest) = octet_before(rest, ':')?;
    let port = port(rest)?;
    Some(Addr::V4 {
        address: [a, b, c, d],
        port,
    })
}

/// Reads what follows the opening bracket.
#[tactic(auto, unfolding(crate::specs::inner::Addr::Reading::v6_in))]
fn v6(text: &str) -> Option<Addr>
    ensures { result ≡ v6_in text.now }
{
    let (front, rest) = four_groups_before(text, ':')?;
    let (back, rest) = four_groups_before(rest, ']')?;
    let port = port(strip(rest, ':')?)?;
    Some(Addr::V6 {
        address: joined(front, back),
        port,
    })
}

fn joined(front: [u8; 8], back: [u8; 8]) -> [u8; 16]
    ensures { result ≡ front ++ back }
{
    let mut address = [0; 16];
    address[..8].copy_from_slice(&front);
    address[8..].copy_from_slice(&back);
    address
}

fn strip(text: &str, first: char) -> Option<&str>
    requires { first < 128 }
    ensures { Gives (λ rest. rest.now) result (strip_at first text.now) }
{
    text.strip_prefix(first)
}

fn cut(text: &str, separator: char) -> Option<(&str, &str)>
    requires { separator < 128 }
    ensures { Gives (λ x. (x.0.now, x.1.now)) result (cut_at separator text.now) }
{
    text.split_once(separator)
}

/// Whether a number has no sign and no leading zero.
fn is_plain(text: &str) -> bool
    ensures { IsTrue result ↔ IsPlain text.now }
{
    !matches!(text.as_bytes(), [b'+', ..] | [b'0', _, ..])
}

fn octet(text: &str) -> Option<u8>
    ensures { result ≡ number_in (2 ^ 8) text.now }
{
    if !is_plain(text) {
        return None;
    }
    text.parse().ok()
}

fn port(text: &str) -> Option<u16>
    ensures { result ≡ number_in (2 ^ 16) text.now }
{
    if !is_plain(text) {
        return None;
    }
    text.parse().ok()
}

#[tactic(auto, unfolding(crate::specs::inner::Addr::Reading::octet_then))]
fn octet_before(text: &str, separator: char) -> Option<(u8, &str)>
    requires { separator < 128 }
    ensures { Gives (λ x. (x.0, x.1.now)) result (octet_then separator text.now) }
{
    let (number, rest) = cut(text, separator)?;
    Some((octet(number)?, rest))
}

fn hex_digit(c: u8) -> Option<u8>
    ensures { result ≡ hex_value c }
{
    match c {
        b'0'..=b'9' => Some(c - b'0'),
        b'a'..=b'f' => Some(c - b'a' + 10),
        _ => None,
    }
}

#[tactic(auto, unfolding(crate::specs::inner::Addr::Reading::byte_in))]
fn hex_byte(high: u8, low: u8) -> Option<u8>
    ensures { result ≡ byte_in high low }
{
    Some(16 * hex_digit(high)? + hex_digit(low)?)
}

#[tactic(auto, unfolding(crate::specs::inner::Addr::Reading::group_in))]
fn group(digits: &[u8]) -> Option<(u8, u8)>
    ensures { result ≡ group_in digits.now }
{
    match *digits {
        [a, b, c, d] => Some((hex_byte(a, b)?, hex_byte(c, d)?)),
        _ => None,
    }
}

#[tactic(auto, unfolding(crate::specs::inner::Addr::Reading::group_then))]
fn group_before(text: &str, separator: char) -> Option<((u8, u8), &str)>
    requires { separator < 128 }
    ensures { Gives (λ x. (x.0, x.1.now)) result (group_then separator text.now) }
{
    let (digits, rest) = cut(text, separator)?;
    Some((group(digits.as_bytes())?, rest))
}

#[tactic(auto, unfolding(crate::specs::inner::Addr::Reading::four_then))]
fn four_groups_before(text: &str, separator: char) -> Option<([u8; 8], &str)>
    requires { separator < 128 }
    ensures { Gives (λ x. (x.0, x.1.now)) result (four_then separator text.now) }
{
    let ((a, b), rest) = group_before(text, ':')?;
    let ((c, d), rest) = group_before(rest, ':')?;
    let ((e, f), rest) = group_before(rest, ':')?;
    let ((g, h), rest) = group_before(rest, separator)?;
    Some(([a, b, c, d, e, f, g, h], rest))
}
