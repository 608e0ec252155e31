//! A Register (LwM2M 1.1 Core, section 6.2.1).

ghost use Rattle.std.specs.Prelude.{◌≡◌, ◌≢◌, ◌≤◌, ◌⊎◌, ℕ, List, length, IsTrue, is_some, IfOk, OnOk, OnErr, IfSome, IfNone, Some, None, option_copied, codes, unwrap_or};
ghost use Rattle.lw_reg.specs.Binding.{binding_text};
ghost use Rattle.lw_reg.specs.Endpoint.{IsEndpoint};
ghost use Rattle.lw_reg.specs.Version.{version_text};
ghost use Rattle.lw_reg.specs.declared.version.Version.{Version as Versions};
ghost use Rattle.lw_request.specs.Options.{values_of, has_unrecognised};
ghost use Rattle.lw_request.specs.Queries.{given, AreTexts, GiveAttributes, IsLifetime, HasBadQuery};
ghost use Rattle.lw_request.specs.inner.Queries.{IsNotAccepted, EachIsLookedAt, IsWithin};
ghost use Rattle.lw_request.specs.Queries.Parameter.{Ep, Lt, Lwm2m, B, Q, Sms};
ghost use Rattle.lw_request.specs.Steps.{IsRegister, post_steps};
ghost use Rattle.lw_request.specs.Meaning.{MeansBy};
ghost use Rattle.lw_request.specs.inner.Meaning.{Understands};

use crate::attributes::attributes_of;
use crate::objects::read_objects;
use crate::options::has_other_format;
use crate::queries::{BadQuery, parameters_of, settings_of, sms_number};
use crate::{Asked, Refusal};
use lw_coap::{LentMessage, Options};
use lw_link::LinkText;
use lw_reg::{Binding, Endpoint, Settings, Version};
use lw_stamp::NoMemory;
use std::alloc::Global;

/// In seconds.
const DEFAULT_LIFETIME: u32 = 86_400;

/// What the queries of a Register say, lent by the message.
#[derive(Clone, Copy)]
struct Queries<'a> {
    endpoint: &'a str,
    /// As it is given.
    version: Option<&'a str>,
    queue: bool,
    /// In seconds; 0 never expires.
    lifetime: u32,
    binding: Binding,
    sms: Option<&'a str>,
}

fn queries_of<'a>(options: &Options<'a>) -> Result<Queries<'a>, BadQuery>
    ensures texts { OnOk result (AreTexts (values_of 15 options.now)) }
    ensures endpoint { IfOk result (λ q. (given Ep (values_of 15 options.now) ≡ Some q.endpoint.now)
        × (1 ≤ length q.endpoint.now)) }
    ensures version { IfOk result (λ q. option_copied q.version ≡ given Lwm2m (values_of 15 options.now)) }
    ensures queue { IfOk result (λ q. q.queue ≡ is_some (given Q (values_of 15 options.now))) }
    ensures lifetime { IfOk result (λ q.
        IsLifetime (unwrap_or (given Lt (values_of 15 options.now)) (codes "86400")) q.lifetime) }
    ensures binding { IfOk result (λ q.
        binding_text q.binding ≡ unwrap_or (given B (values_of 15 options.now)) (codes "U")) }
    ensures sms { IfOk result (λ q. option_copied q.sms ≡ given Sms (values_of 15 options.now)) }
    ensures err { OnErr result (HasBadQuery EachIsLookedAt (values_of 15 options.now)) }
{
    let parameters = parameters_of(options)?;
    let endpoint = endpoint_in(parameters.endpoint)?;
    let settings = settings_of(&parameters)?;
    Ok(Queries {
        endpoint,
        version: parameters.version,
        queue: parameters.queue.is_some(),
        lifetime: settings.lifetime.unwrap_or(DEFAULT_LIFETIME),
        binding: settings.binding.unwrap_or(Binding::U),
        sms: settings.sms,
    })
}

fn endpoint_in(given: Option<&str>) -> Result<&str, BadQuery>
    ensures ok { IfOk result (λ e. (option_copied given.entry ≡ Some e.now) × (1 ≤ length e.now)) }
    ensures err { OnErr result ((option_copied given.entry ≡ None) ⊎ IsNotAccepted Ep (option_copied given.entry)) }
{
    match given {
        Some(endpoint) if !endpoint.is_empty() => Ok(endpoint),
        _ => Err(BadQuery),
    }
}

/// There is none where the client speaks another version.
fn version_in(given: Option<&str>) -> Option<Version>
    ensures some { IfSome result (λ version.
        version_text version ≡ unwrap_or (option_copied given.entry) (codes "1.0")) }
    ensures none { IfNone result ((text : List ℕ) × (option_copied given.entry ≡ Some text)
        × ((version : Versions) → text ≢ version_text version)) }
{
    match given {
        None => Some(Version::V10),
        Some(text) => Version::read(text),
    }
}

/// What a POST on `rd` asks for, whose options are recognised.
pub(crate) fn register(alloc: Global, request: &LentMessage<'_>) -> Result<Asked, NoMemory>
    requires form { IsRegister request.now }
    requires recognised { IsTrue (has_unrecognised request.now.options) → ⊥ }
    ensures { Understands (MeansBy post_steps request.now) result }
{
    let options = &request.options;
    if has_other_format(options) {
        return Ok(Asked::Refuse(Refusal::UnsupportedContentFormat));
    }
    let Ok(queries) = queries_of(options) else {
        return Ok(Asked::Refuse(Refusal::BadRequest));
    };
    let Some(version) = version_in(queries.version) else {
        return Ok(Asked::Refuse(Refusal::PreconditionFailed));
    };
    match read_objects(alloc, request.payload) {
        Ok(objects) => make(alloc, &queries, version, objects, options),
        Err(unread) => unread.asked(),
    }
}

fn make(
    alloc: Global,
    queries: &Queries<'_>,
    version: Version,
    objects: LinkText,
    options: &Options<'_>,
) -> Result<Asked, NoMemory>
    requires endpoint { IsEndpoint queries.now.endpoint.now }
    requires sms { IsWithin 251 (option_copied queries.now.sms) }
    requires texts { AreTexts (values_of 15 options.now) }
    requires recognised { IsTrue (has_unrecognised options.now) → ⊥ }
    ensures { IfOk result (λ asked. (attributes : List (List ℕ × List ℕ))
        × GiveAttributes (values_of 15 options.now) attributes
        × (asked ≡ Asked.Register queries.now.endpoint.now version queries.now.queue (record {
          lifetime = queries.now.lifetime;
          binding = queries.now.binding;
          sms = option_copied queries.now.sms;
          objects = objects;
          attributes = attributes;
        }))) }
{
    Ok(Asked::Register {
        endpoint: Endpoint::copy_of(alloc, queries.endpoint)?,
        version,
        queue: queries.queue,
        settings: Settings {
            lifetime: queries.lifetime,
            binding: queries.binding,
            sms: sms_number(alloc, queries.sms)?,
            objects,
            attributes: attributes_of(alloc, options)?,
        },
    })
}
