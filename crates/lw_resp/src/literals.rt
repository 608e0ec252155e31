//! Bytes that are known before.

ghost use Rattle.std.specs.Prelude.{◌<◌, length};
ghost use Rattle.lw_resp.specs.inner.Reads.{Reads};
ghost use Rattle.lw_resp.specs.inner.Parts.{AreThese, as_they_are};

use crate::Malformed;

/// What stands behind the literal at the front.
pub(crate) fn behind_literal<'a>(
    literal: &[u8],
    bytes: &'a [u8],
) -> Result<Option<&'a [u8]>, Malformed>
    requires { 0 < length literal.now }
    ensures { Reads (AreThese literal.now) as_they_are bytes.now result (λ x. literal.now) (λ x. x.now) }
{
    match bytes.strip_prefix(literal) {
        Some(behind) => Ok(Some(behind)),
        None => {
            if literal.starts_with(bytes) {
                return Ok(None);
            }
            Err(Malformed)
        }
    }
}
