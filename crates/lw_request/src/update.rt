//! An Update (LwM2M 1.1 Core, section 6.2.2).

ghost use Rattle.std.specs.Prelude.{◌≡◌, ◌≢◌, ◌⊎◌, ℕ, List, [], IsTrue, IsSome, IfOk, OnOk, IfErr, OnErr, option_copied};
ghost use Rattle.lw_request.specs.Options.{values_of, has_unrecognised};
ghost use Rattle.lw_request.specs.Queries.{AreTexts, AreSettings, GiveAttributes, IsOfUpdate, HasBadQuery};
ghost use Rattle.lw_request.specs.inner.Queries.{GivesAttribute, IsWithin};
ghost use Rattle.lw_request.specs.inner.Objects.{IsUnread};
ghost use Rattle.lw_request.specs.Steps.{IsUpdate, post_steps};
ghost use Rattle.lw_request.specs.Meaning.{AreObjects, MeansBy};
ghost use Rattle.lw_request.specs.inner.Meaning.{Understands};

use crate::attributes::attributes_of;
use crate::objects::{Unread, read_objects};
use crate::options::has_other_format;
use crate::queries::{BadQuery, LentSettings, parameters_of, settings_of, sms_number};
use crate::{Asked, Refusal};
use lw_coap::{LentMessage, Options};
use lw_link::LinkText;
use lw_reg::GivenSettings;
use lw_stamp::{NoMemory, Stamp};
use std::alloc::Global;

/// The object list of a payload, where there is one.
fn read_replacement(alloc: Global, payload: &[u8]) -> Result<Option<LinkText>, Unread>
    ensures objects { IfOk result (AreObjects payload.now) }
    ensures unread { IfErr result (λ unread. (payload.now ≢ []) × IsUnread payload.now unread) }
{
    if payload.is_empty() {
        return Ok(None);
    }
    Ok(Some(read_objects(alloc, payload)?))
}

fn settings_in<'a>(options: &Options<'a>) -> Result<LentSettings<'a>, BadQuery>
    ensures texts { OnOk result (AreTexts (values_of 15 options.now)) }
    ensures ok { IfOk result (λ s. AreSettings (values_of 15 options.now) s.lifetime s.binding (option_copied s.sms)) }
    ensures err { OnErr result (HasBadQuery IsOfUpdate (values_of 15 options.now)) }
{
    settings_of(&parameters_of(options)?)
}

/// What a POST on a registration asks for, whose options are recognised.
pub(crate) fn update(
    alloc: Global,
    request: &LentMessage<'_>,
    segment: &[u8],
) -> Result<Asked, NoMemory>
    requires form { IsUpdate request.now segment.now }
    requires recognised { IsTrue (has_unrecognised request.now.options) → ⊥ }
    ensures { Understands (MeansBy post_steps request.now) result }
{
    let options = &request.options;
    if has_other_format(options) {
        return Ok(Asked::Refuse(Refusal::UnsupportedContentFormat));
    }
    let Ok(settings) = settings_in(options) else {
        return Ok(Asked::Refuse(Refusal::BadRequest));
    };
    let id = Stamp::read_id(segment);
    match read_replacement(alloc, request.payload) {
        Ok(objects) => make(alloc, id, &settings, objects, options),
        Err(unread) => unread.asked(),
    }
}

fn make(
    alloc: Global,
    id: Option<Stamp>,
    settings: &LentSettings<'_>,
    objects: Option<LinkText>,
    options: &Options<'_>,
) -> Result<Asked, NoMemory>
    requires sms { IsWithin 251 (option_copied settings.now.sms) }
    requires texts { AreTexts (values_of 15 options.now) }
    requires recognised { IsTrue (has_unrecognised options.now) → ⊥ }
    ensures ok { IfOk result (λ asked. (attributes : List (List ℕ × List ℕ))
        × GiveAttributes (values_of 15 options.now) attributes
        × (asked ≡ Asked.Update id (record {
          lifetime = settings.now.lifetime;
          binding = settings.now.binding;
          sms = option_copied settings.now.sms;
          objects = objects;
          attributes = attributes;
        }))) }
    ensures err { OnErr result (IsSome settings.now.sms ⊎ GivesAttribute (values_of 15 options.now)) }
{
    Ok(Asked::Update {
        id,
        settings: GivenSettings {
            lifetime: settings.lifetime,
            binding: settings.binding,
            sms: sms_number(alloc, settings.sms)?,
            objects,
            attributes: attributes_of(alloc, options)?,
        },
    })
}
