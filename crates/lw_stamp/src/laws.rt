//! Laws of stamps, moments and texts, each the contract of a function that does nothing.

ghost use Rattle.std.specs.Prelude.{◌≡◌, ◌-◌, ◌^◌, ℕ, List};
ghost use Rattle.lw_stamp.specs.declared.stamp.Stamp.{Stamp};
ghost use Rattle.lw_stamp.specs.Order.{IsExactOrder};
ghost use Rattle.lw_stamp.specs.StampOrder.{stamp_cmp, derived_cmp};
ghost use Rattle.lw_stamp.specs.TextOrder.{text_cmp, given_cmp};

use crate::Moment;

/// Stamps are ordered by counter, then node. The order is total, and stamps that compare equal are one.
pub fn stamps_are_ordered()
    ensures by_parts { (a b : Stamp) → derived_cmp a b ≡ stamp_cmp a b }
    ensures total { IsExactOrder stamp_cmp }
{}

/// Texts are ordered by their bytes. The order is total, and texts that compare equal are one.
pub fn texts_are_ordered()
    ensures by_bytes { (a b : List ℕ) → given_cmp a b ≡ text_cmp a b }
    ensures total { IsExactOrder text_cmp }
{}

/// The last moment is 2^48 - 1.
pub fn moments_have_a_last()
    ensures { Moment.LAST_MS ≡ 2 ^ 48 - 1 }
{}
