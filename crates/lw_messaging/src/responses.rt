//! Which messages are responses (RFC 7252, section 5.2).

ghost use Rattle.std.specs.Prelude.{◌≡◌};
ghost use Rattle.lw_messaging.specs.FetchMessages.{carries as carries_one, is_response_code as is_code};
ghost use Rattle.lw_messaging.specs.FetchMessages.{is_response as is_one, is_content as is_one_with_content};
ghost use Rattle.lw_messaging.specs.FetchMessages.{has_token_of};
ghost use Rattle.lw_messaging.specs.inner.Responses.{may_respond as may_be_one};

use lw_coap::codes::CONTENT;
use lw_coap::{Kind, Message};
use lw_reg::Watch;

/// The class of a response that tells of success.
const SUCCESS: u8 = 2;

/// The class of an error of the client.
const CLIENT_ERROR: u8 = 4;

/// The class of an error of the server.
const SERVER_ERROR: u8 = 5;

/// Whether messages of the type carry responses.
fn carries(kind: Kind) -> bool
    ensures { result ≡ carries_one kind }
{
    match kind {
        Kind::Con | Kind::Non | Kind::Ack => true,
        Kind::Rst => false,
    }
}

/// Whether the code is that of a response.
pub(crate) fn is_response_code(code: u8) -> bool
    ensures { result ≡ is_code code }
{
    let class = code / 32;
    class == SUCCESS || class == CLIENT_ERROR || class == SERVER_ERROR
}

pub(crate) fn is_response(message: &Message) -> bool
    ensures { result ≡ is_one message.now }
{
    carries(message.kind) && is_response_code(message.code)
}

/// Whether it tells the state of a resource.
pub(crate) fn is_content(message: &Message) -> bool
    ensures { result ≡ is_one_with_content message.now }
{
    carries(message.kind) && message.code == CONTENT
}

/// Whether a datagram may be a response: its second byte is the code of one.
pub(crate) fn may_respond(bytes: &[u8]) -> bool
    ensures { result ≡ may_be_one bytes.now }
{
    match bytes {
        [_, code, ..] => is_response_code(*code),
        _ => false,
    }
}

/// Whether its token is that of the observation.
pub(crate) fn has_token_of(watch: &Watch, message: &Message) -> bool
    ensures { result ≡ has_token_of watch.now message.now }
{
    message.token.as_slice() == watch.token.to_bytes().as_slice()
}
