//! The Uri-Path of a request (LwM2M 1.1 Transport, section 6.4.3).

ghost use Rattle.std.specs.Prelude.{◌≡◌, ◌↔◌, ℕ, List, [], ◌∷◌, codes, IsTrue, Some, option_copied};
ghost use Rattle.lw_request.specs.Options.{values_of};

use crate::options::value_at;
use lw_coap::Options;
use lw_coap::option_numbers::URI_PATH;

/// The first segment of each path that a registration is made or changed at.
const DIRECTORY: &[u8] = b"rd";

/// Whether the path is `rd` alone.
pub(crate) fn is_directory(options: &Options<'_>) -> bool
    ensures { IsTrue result ↔ (values_of 11 options.now ≡ codes "rd" ∷ []) }
{
    let Some(first) = value_at(options, URI_PATH, 0) else {
        return false;
    };
    first == DIRECTORY && value_at(options, URI_PATH, 1).is_none()
}

/// The segment behind `rd`, where there is one and no more.
pub(crate) fn entry_of<'a>(options: &Options<'a>) -> Option<&'a [u8]>
    ensures { (segment : List ℕ) → (option_copied result ≡ Some segment)
        ↔ (values_of 11 options.now ≡ codes "rd" ∷ segment ∷ []) }
{
    let first = value_at(options, URI_PATH, 0)?;
    let segment = value_at(options, URI_PATH, 1)?;
    if first != DIRECTORY || value_at(options, URI_PATH, 2).is_some() {
        return None;
    }
    Some(segment)
}
