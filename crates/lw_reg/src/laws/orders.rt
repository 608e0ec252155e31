//! How the values of a slot are ordered.

ghost use Rattle.std.specs.Prelude.{◌≡◌, ℕ, List};
ghost use Rattle.lw_stamp.specs.TextOrder.{text_cmp};
ghost use Rattle.lw_stamp.specs.Order.{IsExactOrder};
ghost use Rattle.lw_reg.specs.declared.addr.Addr.{Addr};
ghost use Rattle.lw_reg.specs.declared.base.Base.{Base};
ghost use Rattle.lw_reg.specs.declared.binding.Binding.{Binding};
ghost use Rattle.lw_reg.specs.declared.path.Path.{Path};
ghost use Rattle.lw_reg.specs.declared.version.Version.{Version};
ghost use Rattle.lw_reg.specs.Binding.{binding_text};
ghost use Rattle.lw_reg.specs.Path.{path_numbers};
ghost use Rattle.lw_reg.specs.AddrOrder.{addr_by_parts};
ghost use Rattle.lw_reg.specs.Orders.{addr_cmp, base_cmp, base_by_parts, binding_cmp, binding_by_text, endpoint_cmp, path_cmp, path_given_cmp, sms_number_cmp, version_cmp, version_by_number};

/// IPv4 is below IPv6; then come the bytes, then the port.
pub fn addresses_are_ordered()
    ensures by_parts { (a b : Addr) → addr_cmp a b ≡ addr_by_parts a b }
    ensures total { IsExactOrder addr_cmp }
{}

/// Bases are ordered by version, and then by queue mode, off before on.
pub fn bases_are_ordered()
    ensures by_parts { (a b : Base) → base_cmp a b ≡ base_by_parts a b }
    ensures total { IsExactOrder base_cmp }
{}

/// Bindings are ordered by their texts.
pub fn bindings_are_ordered()
    ensures by_text { (a b : Binding) → binding_cmp a b ≡ binding_by_text a b }
    ensures total { IsExactOrder binding_cmp }
{}

/// Bindings with one text are one.
pub fn bindings_have_texts_of_their_own()
    ensures { (a b : Binding) → binding_text a ≡ binding_text b → a ≡ b }
{}

/// Paths are ordered number by number, a path before those that it begins, and no two have one list of numbers.
pub fn paths_are_ordered()
    ensures by_numbers { (a b : Path) → path_given_cmp a b ≡ path_cmp a b }
    ensures total { IsExactOrder path_cmp }
    ensures own_numbers { (a b : Path) → path_numbers a ≡ path_numbers b → a ≡ b }
{}

/// Endpoints and SMS numbers are ordered by their bytes.
pub fn texts_are_ordered()
    ensures endpoints { (a b : List ℕ) → endpoint_cmp a b ≡ text_cmp a b }
    ensures sms_numbers { (a b : List ℕ) → sms_number_cmp a b ≡ text_cmp a b }
    ensures total { IsExactOrder text_cmp }
{}

/// Version 1.0 is below 1.1.
pub fn versions_are_ordered()
    ensures by_number { (a b : Version) → version_cmp a b ≡ version_by_number a b }
    ensures total { IsExactOrder version_cmp }
{}
