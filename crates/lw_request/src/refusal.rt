ghost use Rattle.std.specs.Prelude.{◌≡◌};

use lw_coap::codes;

/// Why a request is refused, by its message alone (RFC 7252, section 5.9).
#[derive(Clone, Copy, Debug, PartialEq, Eq)]
pub enum Refusal {
    /// 4.00.
    BadRequest,
    /// 4.02.
    BadOption,
    /// 4.04.
    NotFound,
    /// 4.05.
    MethodNotAllowed,
    /// 4.12.
    PreconditionFailed,
    /// 4.13.
    RequestEntityTooLarge,
    /// 4.15.
    UnsupportedContentFormat,
    /// 5.05.
    ProxyingNotSupported,
}

impl Refusal {
    ghost use Rattle.lw_request.specs.Reply.{code_of};

    /// The code of the reply.
    pub fn code(self) -> u8
        ensures { result ≡ code_of self }
    {
        match self {
            Refusal::BadRequest => codes::BAD_REQUEST,
            Refusal::BadOption => codes::BAD_OPTION,
            Refusal::NotFound => codes::NOT_FOUND,
            Refusal::MethodNotAllowed => codes::METHOD_NOT_ALLOWED,
            Refusal::PreconditionFailed => codes::PRECONDITION_FAILED,
            Refusal::RequestEntityTooLarge => codes::REQUEST_ENTITY_TOO_LARGE,
            Refusal::UnsupportedContentFormat => codes::UNSUPPORTED_CONTENT_FORMAT,
            Refusal::ProxyingNotSupported => codes::PROXYING_NOT_SUPPORTED,
        }
    }
}
