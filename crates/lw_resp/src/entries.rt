//! Entries of a stream, as they stand in a reply.

ghost use Rattle.std.specs.Prelude.{◌≡◌, ℕ, List, [], ◌∷◌};
ghost use Rattle.std.specs.List.{flat_map};
ghost use Rattle.lw_resp.specs.Bytes.{bulk_bytes, command_bytes};
ghost use Rattle.lw_resp.specs.Streams.{IsArrayOf, IsEntry, IsEntryOf, IsValueOf, entry_bytes, pair_bytes};
ghost use Rattle.lw_resp.specs.Words.{IsBulk};
ghost use Rattle.lw_resp.specs.inner.Parts.{AreMany};
ghost use Rattle.lw_resp.specs.inner.Reads.{ReadsAs};

use crate::Malformed;
use crate::bulks::{behind_bulks, first_bulk};
use crate::counts::count;
use crate::literals::behind_literal;
use crate::words::MAX_NUMBER;

/// The one field of an entry of a log.
pub const FIELD: &[u8] = b"e";

/// An entry of a stream: an array of its identifier, and of the array of its fields and their values.
#[derive(Clone, Copy, Debug, PartialEq, Eq)]
pub struct Entry<'a> {
    /// The text of its identifier, which `StreamId::read` reads.
    pub id: &'a [u8],
    /// The value of its one field, `e`; none where it has other fields, and so is no entry of a log.
    pub value: Option<&'a [u8]>,
}

fn own_value<'a>(name: &[u8], value: &'a [u8]) -> Option<&'a [u8]>
    ensures { IsValueOf (name.now ∷ value.now ∷ []) result }
{
    if name == FIELD { Some(value) } else { None }
}

/// The value behind the name.
fn value_behind<'a>(
    name: &[u8],
    bytes: &'a [u8],
) -> Result<Option<(Option<&'a [u8]>, &'a [u8])>, Malformed>
    ensures { ReadsAs IsBulk bulk_bytes bytes.now result
        (λ x value. IsValueOf (name.now ∷ value ∷ []) x.0) (λ x. x.1.now) }
{
    match first_bulk(bytes) {
        Ok(Some((value, rest))) => Ok(Some((own_value(name, value), rest))),
        Ok(None) => Ok(None),
        Err(_) => Err(Malformed),
    }
}

/// A name and a value.
fn named_value(bytes: &[u8]) -> Result<Option<(Option<&[u8]>, &[u8])>, Malformed>
    ensures { ReadsAs (AreMany IsBulk 2) (flat_map bulk_bytes) bytes.now result
        (λ x fields. IsValueOf fields x.0) (λ x. x.1.now) }
{
    match first_bulk(bytes) {
        Ok(Some((name, behind))) => value_behind(name, behind),
        Ok(None) => Ok(None),
        Err(_) => Err(Malformed),
    }
}

/// So many bulk strings.
fn fields(number: u64, bytes: &[u8]) -> Result<Option<(Option<&[u8]>, &[u8])>, Malformed>
    ensures { ReadsAs (AreMany IsBulk number) (flat_map bulk_bytes) bytes.now result
        (λ x fields. IsValueOf fields x.0) (λ x. x.1.now) }
{
    if number == 2 {
        return named_value(bytes);
    }
    match behind_bulks(number, bytes) {
        Ok(Some(rest)) => Ok(Some((None, rest))),
        Ok(None) => Ok(None),
        Err(_) => Err(Malformed),
    }
}

/// An array of bulk strings.
fn field_array(bytes: &[u8]) -> Result<Option<(Option<&[u8]>, &[u8])>, Malformed>
    ensures { ReadsAs (IsArrayOf IsBulk) command_bytes bytes.now result
        (λ x fields. IsValueOf fields x.0) (λ x. x.1.now) }
{
    match count(b'*', MAX_NUMBER, bytes) {
        Ok(Some((number, behind))) => fields(number, behind),
        Ok(None) => Ok(None),
        Err(_) => Err(Malformed),
    }
}

/// The entry of the identifier, whose fields stand at the front.
fn entry_with<'a>(id: &'a [u8], bytes: &'a [u8]) -> Result<Option<(Entry<'a>, &'a [u8])>, Malformed>
    ensures { ReadsAs (IsArrayOf IsBulk) command_bytes bytes.now result
        (λ x fields. (x.0.id.now ≡ id.now) × IsValueOf fields x.0.value) (λ x. x.1.now) }
{
    match field_array(bytes) {
        Ok(Some((value, rest))) => Ok(Some((Entry { id, value }, rest))),
        Ok(None) => Ok(None),
        Err(_) => Err(Malformed),
    }
}

/// An identifier and the array of fields.
fn pair(bytes: &[u8]) -> Result<Option<(Entry<'_>, &[u8])>, Malformed>
    ensures { ReadsAs IsEntry pair_bytes bytes.now result (λ x e. IsEntryOf e x.0) (λ x. x.1.now) }
{
    match first_bulk(bytes) {
        Ok(Some((id, behind))) => entry_with(id, behind),
        Ok(None) => Ok(None),
        Err(_) => Err(Malformed),
    }
}

/// The entry at the front, and what stands behind it.
pub(crate) fn first_entry(bytes: &[u8]) -> Result<Option<(Entry<'_>, &[u8])>, Malformed>
    ensures { ReadsAs IsEntry entry_bytes bytes.now result (λ x e. IsEntryOf e x.0) (λ x. x.1.now) }
{
    match behind_literal(b"*2\r\n", bytes) {
        Ok(Some(behind)) => pair(behind),
        Ok(None) => Ok(None),
        Err(_) => Err(Malformed),
    }
}
