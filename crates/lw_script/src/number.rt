ghost use Rattle.std.specs.Prelude.{◌↔◌, IsTrue};
ghost use Rattle.lw_reg.specs.inner.Addr.Reading.{IsPlain};

/// Whether a number has no sign and no leading zero.
pub(crate) fn is_plain(text: &str) -> bool
    ensures { IsTrue result ↔ IsPlain text.now }
{
    !matches!(text.as_bytes(), [b'+', ..] | [b'0', _, ..])
}
