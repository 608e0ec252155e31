ghost use Rattle.std.specs.Prelude.{◌↔◌, ◌^◌, ℕ, IfSome, IfNone, IsTrue};
ghost use Rattle.lw_reg.specs.inner.Addr.Reading.{IsPlain};
ghost use Rattle.lw_path.specs.PathText.{IsNumber};

/// The number of 16 bits, in decimal.
pub(crate) fn read_number(text: &str) -> Option<u16>
    ensures found { IfSome result (λ n. IsNumber (2 ^ 16) n text.now) }
    ensures none { IfNone result ((n : ℕ) → ¬ IsNumber (2 ^ 16) n text.now) }
{
    if !is_plain(text) {
        return None;
    }
    text.parse().ok()
}

/// Whether a number has no sign and no leading zero.
fn is_plain(text: &str) -> bool
    ensures { IsTrue result ↔ IsPlain text.now }
{
    !matches!(text.as_bytes(), [b'+', ..] | [b'0', _, ..])
}
