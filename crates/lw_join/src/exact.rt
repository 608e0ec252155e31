ghost use Rattle.lw_stamp.specs.Order.{IsExact};
ghost use Rattle.lw_join.specs.ExactOrders.{exact_moment};
ghost use Rattle.lw_stamp.proofs.StampLemmas.{stamp_order};
ghost use Rattle.lw_stamp.proofs.TextLemmas.{text_order};
ghost use Rattle.std.proofs.lemmas.Map.Lookups.{exact_unsigned};
ghost use Rattle.lw_join.specs.ExactOrders.{exact_bool, exact_option, exact_pair};

use lw_stamp::{Moment, Stamp, Text};

/// Values that compare equal are one value, as contracts see them.
pub trait Exact: Ord + Drop {
    ghost exact: { IsExact Self.cmp };
}

impl Exact for bool {
    ghost exact = { exact_bool };
}

impl Exact for u8 {
    ghost exact = { exact_unsigned };
}

impl Exact for u16 {
    ghost exact = { exact_unsigned };
}

impl Exact for u32 {
    ghost exact = { exact_unsigned };
}

impl Exact for u64 {
    ghost exact = { exact_unsigned };
}

impl Exact for Stamp {
    ghost exact = { stamp_order.exact };
}

impl Exact for Moment {
    ghost exact = { exact_moment };
}

impl Exact for Text {
    ghost exact = { text_order.exact };
}

impl<V: Exact> Exact for Option<V> {
    ghost exact = { exact_option V.exact };
}

impl<A: Exact, B: Exact> Exact for (A, B) {
    ghost exact = { exact_pair A.exact B.exact };
}
