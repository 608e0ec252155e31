//! Members of JSON objects, written one after another.

ghost use Rattle.std.specs.Prelude.{◌∷◌, option_map, string_bytes};
ghost use Rattle.json.specs.Token.{key};
ghost use Rattle.serde_json.specs.Data.{boolean, number, string, unsigned};
ghost use Rattle.lw_stamp.specs.Stamp.{id_of};
ghost use Rattle.lw_json.specs.Json.{number_or_null, tag_text as digits_of, text_or_null};
ghost use Rattle.lw_json.specs.PathText.{path_text};
ghost use Rattle.lw_json.specs.inner.Tokens.{Adds, data_tokens};

use crate::hexadecimal::{id_text, tag_text};
use crate::path::path_text;
use json::Writer;
use lw_reg::Path;
use lw_stamp::{NoMemory, Stamp};
use std::alloc::Global;

/// Adds a member with a text.
pub(crate) fn put_text(out: &mut Writer, name: &str, text: &str) -> Result<(), NoMemory>
    ensures { Adds result out.old out.new (key name.now ∷ data_tokens (string text.now)) }
{
    out.key(name)?;
    Ok(out.string(text)?)
}

/// Adds a member with the text, or with null where there is none.
pub(crate) fn put_text_or_null(
    out: &mut Writer,
    name: &str,
    text: Option<&str>,
) -> Result<(), NoMemory>
    ensures { Adds result out.old out.new
        (key name.now ∷ data_tokens (text_or_null (option_map (λ t. t.now) text.entry))) }
{
    out.key(name)?;
    match text {
        Some(text) => Ok(out.string(text)?),
        None => Ok(out.null()?),
    }
}

/// Adds a member with a number.
pub(crate) fn put_number(out: &mut Writer, name: &str, value: u64) -> Result<(), NoMemory>
    ensures { Adds result out.old out.new (key name.now ∷ data_tokens (number (unsigned value))) }
{
    out.key(name)?;
    Ok(out.u64(value)?)
}

/// Adds a member with the number, or with null where there is none.
pub(crate) fn put_number_or_null(
    out: &mut Writer,
    name: &str,
    value: Option<u32>,
) -> Result<(), NoMemory>
    ensures { Adds result out.old out.new (key name.now ∷ data_tokens (number_or_null value)) }
{
    out.key(name)?;
    match value {
        Some(value) => Ok(out.u64(u64::from(value))?),
        None => Ok(out.null()?),
    }
}

/// Adds a member with the number of two bytes, or with null where there is none.
pub(crate) fn put_short_or_null(
    out: &mut Writer,
    name: &str,
    value: Option<u16>,
) -> Result<(), NoMemory>
    ensures { Adds result out.old out.new (key name.now ∷ data_tokens (number_or_null value)) }
{
    out.key(name)?;
    match value {
        Some(value) => Ok(out.u64(u64::from(value))?),
        None => Ok(out.null()?),
    }
}

/// Adds a member that is true or false.
pub(crate) fn put_truth(out: &mut Writer, name: &str, value: bool) -> Result<(), NoMemory>
    ensures { Adds result out.old out.new (key name.now ∷ data_tokens (boolean value)) }
{
    out.key(name)?;
    Ok(out.boolean(value)?)
}

/// Adds a member with the 16 hex digits of an identifier or a token.
pub(crate) fn put_id(out: &mut Writer, alloc: Global, name: &str, id: Stamp) -> Result<(), NoMemory>
    ensures { Adds result out.old out.new (key name.now ∷ data_tokens (string (id_of id))) }
{
    let digits = id_text(alloc, id)?;
    put_text(out, name, digits.as_str())
}

/// Adds a member with the 16 hex digits of a start's tag.
pub(crate) fn put_tag(out: &mut Writer, alloc: Global, name: &str, tag: u64) -> Result<(), NoMemory>
    ensures { Adds result out.old out.new (key name.now ∷ data_tokens (string (digits_of tag))) }
{
    let digits = tag_text(alloc, tag)?;
    put_text(out, name, digits.as_str())
}

/// Adds a member with a path.
pub(crate) fn put_path(
    out: &mut Writer,
    alloc: Global,
    name: &str,
    path: &Path,
) -> Result<(), NoMemory>
    ensures { Adds result out.old out.new (key name.now ∷ data_tokens (string (path_text path.now))) }
{
    let text = path_text(alloc, path)?;
    put_text(out, name, text.as_str())
}
