//! Values that compare equal are one value.

ghost use Rattle.lw_reg.specs.BindingLaws.{binding_order};
ghost use Rattle.lw_reg.specs.OrderLaws.{addr_order, base_order, path_order, text_order};

use crate::{Addr, Base, Binding, Endpoint, Path, SmsNumber};
use lw_join::Exact;

impl Exact for Addr {
    ghost exact = { addr_order.exact };
}

impl Exact for Base {
    ghost exact = { base_order.exact };
}

impl Exact for Binding {
    ghost exact = { binding_order.exact };
}

impl Exact for Endpoint {
    ghost exact = { text_order.exact };
}

impl Exact for Path {
    ghost exact = { path_order.exact };
}

impl Exact for SmsNumber {
    ghost exact = { text_order.exact };
}
