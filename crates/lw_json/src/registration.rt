ghost use Rattle.std.specs.Prelude.{◌≡◌, ◌∷◌, IfOk, codes, string_bytes};
ghost use Rattle.json.specs.Token.{key};
ghost use Rattle.json.specs.Tree.{members_tokens};
ghost use Rattle.serde_json.specs.Data.{object};
ghost use Rattle.serde_json.specs.Written.{compact_text, members_outline};
ghost use Rattle.lw_json.specs.Json.{attributes_json, registration_json};
ghost use Rattle.lw_json.specs.inner.Tokens.{Adds, data_tokens};

use crate::members::{put_id, put_number, put_text, put_text_or_null, put_truth};
use crate::values::{Print, json_text};
use json::Writer;
use lw_reg::{AttributesView, View};
use lw_stamp::NoMemory;
use std::alloc::Global;

/// The JSON object of a registration, with no space between its members.
pub fn registration_text(alloc: Global, shown: &View<'_>) -> Result<String, NoMemory>
    ensures { IfOk result (λ text. string_bytes text ≡ compact_text (registration_json shown.now)) }
{
    json_text(alloc, shown)
}

impl Print for View<'_> {
    ghost use Rattle.lw_json.specs.Json.{registration_json};

    ghost json = { registration_json };

    fn put(&self, out: &mut Writer, alloc: Global) -> Result<(), NoMemory> {
        put_registration(out, alloc, self)
    }
}

/// Adds the JSON object of a registration.
pub(crate) fn put_registration(
    out: &mut Writer,
    alloc: Global,
    shown: &View<'_>,
) -> Result<(), NoMemory>
    ensures { Adds result out.old out.new (data_tokens (registration_json shown.now)) }
{
    let address = shown.address.print(alloc)?;
    out.begin_object()?;
    put_text(out, "address", address.as_str())?;
    put_attributes(out, &shown.attributes)?;
    put_text(out, "binding", shown.binding.as_str())?;
    put_text(out, "endpoint", shown.endpoint)?;
    put_id(out, alloc, "id", shown.id)?;
    put_number(out, "lifetime", u64::from(shown.lifetime))?;
    put_text(out, "lwm2m", shown.version.as_str())?;
    put_text(out, "objects", shown.objects.as_str())?;
    put_truth(out, "queue", shown.queue)?;
    put_number(out, "seen", shown.seen.ms())?;
    put_text_or_null(out, "sms", shown.sms)?;
    Ok(out.end_object()?)
}

/// Adds the member with the attributes.
fn put_attributes(out: &mut Writer, attributes: &AttributesView<'_>) -> Result<(), NoMemory>
    ensures { Adds result out.old out.new
        (key (codes "attributes") ∷ data_tokens (object (attributes_json attributes.now))) }
{
    out.key("attributes")?;
    out.begin_object()?;
    put_pairs(out, attributes)
}

/// Adds a member for each attribute, and the closing brace.
fn put_pairs(out: &mut Writer, attributes: &AttributesView<'_>) -> Result<(), NoMemory>
    ensures { Adds result out.old out.new (members_tokens (members_outline (attributes_json attributes.now))) }
{
    for place in 0..attributes.len() {
        if let Some((name, value)) = attributes.get(place) {
            put_text(out, name, value)?;
        }
    }
    Ok(out.end_object()?)
}
