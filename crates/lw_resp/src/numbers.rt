//! Numbers in decimal.

ghost use Rattle.std.specs.Prelude.{◌≡◌, ◌≢◌, ◌≤◌, ℕ, ◌↔◌, IsTrue, IfSome, IfNone};
ghost use Rattle.std.specs.Fmt.{decimal};

use itoa::Buffer;
use std::str;

/// The number that the digits print, if it is at most so great.
pub(crate) fn number(most: u64, digits: &[u8]) -> Option<u64>
    ensures found { IfSome result (λ n. (n ≤ most) × (digits.now ≡ decimal n)) }
    ensures none { IfNone result ((n : ℕ) → n ≤ most → digits.now ≢ decimal n) }
{
    let Ok(text) = str::from_utf8(digits) else {
        return None;
    };
    let Ok(number) = text.parse::<u64>() else {
        return None;
    };
    if number > most {
        return None;
    }
    if !prints(number, digits) {
        return None;
    }
    Some(number)
}

fn prints(number: u64, digits: &[u8]) -> bool
    ensures { IsTrue result ↔ (digits.now ≡ decimal number) }
{
    let mut buffer = Buffer::new();
    buffer.format(number).as_bytes() == digits
}
