//! Texts of hex digits.

ghost use Rattle.std.specs.Prelude.{◌≡◌, IfOk, string_bytes};
ghost use Rattle.lw_stamp.specs.Stamp.{id_of};
ghost use Rattle.lw_json.specs.Json.{tag_text as digits_of};

use lw_stamp::{NoMemory, Stamp};
use std::alloc::Global;

/// The 16 hex digits of an identifier or a token.
pub(crate) fn id_text(alloc: Global, id: Stamp) -> Result<String, NoMemory>
    ensures { IfOk result (λ text. string_bytes text ≡ id_of id) }
{
    Ok(hex::encode(alloc, id.to_bytes())?)
}

/// The 16 hex digits of a start's tag.
pub(crate) fn tag_text(alloc: Global, tag: u64) -> Result<String, NoMemory>
    ensures { IfOk result (λ text. string_bytes text ≡ digits_of tag) }
{
    Ok(hex::encode(alloc, tag.to_be_bytes())?)
}
