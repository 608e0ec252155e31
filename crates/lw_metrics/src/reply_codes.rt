//! The codes of replies.

ghost use Rattle.std.specs.Prelude.{◌≡◌, ◌==◌, position};
ghost use Rattle.lw_metrics.specs.ReplyCodes.{reply_codes};

use lw_coap::codes;

/// The codes of the replies that a server gives, but for 0.00, that of an empty message.
pub const REPLY_CODES: [u8; 12] = [
    codes::CREATED,
    codes::DELETED,
    codes::CHANGED,
    codes::BAD_REQUEST,
    codes::BAD_OPTION,
    codes::NOT_FOUND,
    codes::METHOD_NOT_ALLOWED,
    codes::PRECONDITION_FAILED,
    codes::REQUEST_ENTITY_TOO_LARGE,
    codes::UNSUPPORTED_CONTENT_FORMAT,
    codes::SERVICE_UNAVAILABLE,
    codes::PROXYING_NOT_SUPPORTED,
];

/// The place of a code among them, if it is one.
pub(crate) fn place_of(code: u8) -> Option<usize>
    ensures { result ≡ position (λ known. known == code) reply_codes }
{
    REPLY_CODES.iter().position(|known| *known == code)
}
