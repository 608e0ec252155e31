ghost use Rattle.std.specs.Prelude.{◌≡◌, IsTrue, IfOk, OnErr};
ghost use Rattle.lw_request.specs.Options.{has_unrecognised};
ghost use Rattle.lw_request.specs.Steps.{steps, path_steps};
ghost use Rattle.lw_request.specs.Steps.Step.{UnrecognisedOption};
ghost use Rattle.lw_request.specs.Meaning.{Means, MeansBy, MeansOwned, ResponseMeans, refused};
ghost use Rattle.lw_request.specs.inner.Meaning.{Understands};

use crate::options::{has_critical, has_proxy, has_unrecognised};
use crate::path::{entry_of, is_directory};
use crate::register::register;
use crate::role::Role;
use crate::update::update;
use crate::{Asked, Refusal, Report};
use lw_coap::codes::{DELETE, POST};
use lw_coap::{Kind, LentMessage, Message};
use lw_stamp::{NoMemory, Stamp};
use std::alloc::Global;

/// What the message means by itself (LwM2M 1.1 Core, section 6.2; RFC 7252, sections 4.2, 5.2 and 5.4): a request
/// is refused by the first step whose cause holds, in the order of the definitions.
pub fn understand_lent(alloc: Global, message: &LentMessage<'_>) -> Result<Asked, NoMemory>
    ensures meaning { IfOk result (Means message.now) }
    // Want of memory comes only in place of what owns a text or bytes.
    ensures memory { OnErr result (MeansOwned message.now) }
{
    match Role::of(message.kind, message.code) {
        Role::Ignored => Ok(Asked::Ignore),
        Role::Ping => Ok(Asked::Ping),
        Role::Request => understand_request(alloc, message),
        Role::Response => understand_response(alloc, message),
        Role::Reserved => Ok(Asked::Reject),
    }
}

/// What the message means by itself, as `understand_lent` says it.
pub fn understand(alloc: Global, message: &Message) -> Result<Asked, NoMemory>
    ensures meaning { IfOk result (Means message.now) }
    // Want of memory comes only in place of what owns a text or bytes.
    ensures memory { OnErr result (MeansOwned message.now) }
{
    understand_lent(alloc, &message.lend())
}

fn understand_response(alloc: Global, message: &LentMessage<'_>) -> Result<Asked, NoMemory>
    ensures { Understands (ResponseMeans message.now) result }
{
    if has_critical(&message.options) {
        return Ok(Asked::Reject);
    }
    Ok(Asked::Report(Report::of(alloc, message)?))
}

fn understand_request(alloc: Global, request: &LentMessage<'_>) -> Result<Asked, NoMemory>
    ensures { Understands (MeansBy steps request.now) result }
{
    if has_proxy(&request.options) {
        return Ok(Asked::Refuse(Refusal::ProxyingNotSupported));
    }
    if has_unrecognised(&request.options) {
        return Ok(unrecognised(request.kind));
    }
    understand_recognised(alloc, request)
}

/// A non-confirmable request with an option that is not recognised gets no reply.
fn unrecognised(kind: Kind) -> Asked
    ensures { result ≡ refused UnrecognisedOption kind }
{
    match kind {
        Kind::Non => Asked::Reject,
        _ => Asked::Refuse(Refusal::BadOption),
    }
}

/// A request whose options are recognised, by its path and its method.
fn understand_recognised(alloc: Global, request: &LentMessage<'_>) -> Result<Asked, NoMemory>
    requires { IsTrue (has_unrecognised request.now.options) → ⊥ }
    ensures { Understands (MeansBy path_steps request.now) result }
{
    let options = &request.options;
    if is_directory(options) {
        return match request.code {
            POST => register(alloc, request),
            _ => Ok(Asked::Refuse(Refusal::MethodNotAllowed)),
        };
    }
    let Some(segment) = entry_of(options) else {
        return Ok(Asked::Refuse(Refusal::NotFound));
    };
    match request.code {
        POST => update(alloc, request, segment),
        DELETE => Ok(Asked::Deregister {
            id: Stamp::read_id(segment),
        }),
        _ => Ok(Asked::Refuse(Refusal::MethodNotAllowed)),
    }
}
