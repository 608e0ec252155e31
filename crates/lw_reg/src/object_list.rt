ghost use Rattle.lw_reg.specs.OrderLaws.{text_order};

use lw_join::Exact;
use lw_link::LinkText;
use std::marker::Model;

/// The object list of a slot, which lists that compare equal are one of. Contracts see its bytes.
#[derive(PartialEq, Eq, PartialOrd, Ord, Drop)]
pub(crate) struct ObjectList {
    pub(crate) text: LinkText,
}

impl Model for ObjectList {
    ghost use Rattle.std.specs.Prelude.{ℕ, List};

    ghost Value = { List ℕ };

    ghost view = { λ o. o.text };

    ghost inverse = { λ text. record { text = text } };
}

impl Exact for ObjectList {
    ghost exact = { text_order.exact };
}
