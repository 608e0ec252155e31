ghost use Rattle.std.specs.Prelude.{◌≡◌};

use lw_coap::Kind;

/// What a message is, by its type and its code (RFC 7252, sections 4.2, 4.3 and 12.1).
#[derive(Clone, Copy)]
pub enum Role {
    /// It asks for nothing.
    Ignored,
    /// An empty confirmable message, which asks for a Reset.
    Ping,
    /// A request, with a code of class 0.
    Request,
    /// A response, with a code of class 2, 4 or 5.
    Response,
    /// A code of a reserved class.
    Reserved,
}

/// Codes below 1.00 are those of requests, and 0.00 is that of an empty message.
const FIRST_RESPONSE: u8 = 32;

impl Role {
    ghost use Rattle.lw_request.specs.Meaning.{role_of, class_role};

    /// The role of a message of the type and the code (RFC 7252, section 4.3).
    pub fn of(kind: Kind, code: u8) -> Role
        ensures { result ≡ role_of kind code }
    {
        match kind {
            Kind::Rst => Role::Ignored,
            Kind::Ack if code < FIRST_RESPONSE => Role::Ignored,
            Kind::Con if code == 0 => Role::Ping,
            Kind::Non if code == 0 => Role::Ignored,
            Kind::Con | Kind::Non if code < FIRST_RESPONSE => Role::Request,
            _ => Role::of_class(code / 32),
        }
    }

    fn of_class(class: u8) -> Role
        ensures { result ≡ class_role class }
    {
        match class {
            2 | 4 | 5 => Role::Response,
            _ => Role::Reserved,
        }
    }
}
