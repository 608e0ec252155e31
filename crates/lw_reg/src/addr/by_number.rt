//! Comparing the bytes of addresses as one number.

ghost use Rattle.std.specs.Prelude.{◌≡◌};
ghost use Rattle.lw_stamp.specs.TextOrder.{text_cmp};

use std::cmp::Ordering;

pub(super) fn v4(left: &[u8; 4], right: &[u8; 4]) -> Ordering
    ensures { result ≡ text_cmp left.now right.now }
{
    u32::from_be_bytes(*left).cmp(&u32::from_be_bytes(*right))
}

pub(super) fn v6(left: &[u8; 16], right: &[u8; 16]) -> Ordering
    ensures { result ≡ text_cmp left.now right.now }
{
    u128::from_be_bytes(*left).cmp(&u128::from_be_bytes(*right))
}
