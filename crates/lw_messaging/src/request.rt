//! The first four bytes of a datagram (RFC 7252, section 3).

ghost use Rattle.std.specs.Prelude.{◌≡◌};
ghost use Rattle.lw_messaging.specs.Header.{is_request as is_request_in, message_id as message_id_in};

/// The version of CoAP.
const VERSION: u8 = 1;

/// The type of a non-confirmable message. A confirmable one is below.
const NON_CONFIRMABLE: u8 = 1;

/// The last code of a request. The first is 1: 0 is that of an empty message.
const LAST_REQUEST: u8 = 31;

/// Whether the datagram begins as a request does that is answered once: version 1, confirmable or non-confirmable, and a
/// code from 0.01 to 0.31.
pub fn is_request(bytes: &[u8]) -> bool
    ensures { result ≡ is_request_in bytes.now }
{
    let [first, code, _, _, ..] = bytes else {
        return false;
    };
    let kind = first / 16 % 4;
    first / 64 == VERSION && kind <= NON_CONFIRMABLE && 1 <= *code && *code <= LAST_REQUEST
}

/// The message ID of a datagram, and 0 of one that is shorter than a header.
pub(crate) fn message_id(bytes: &[u8]) -> u16
    ensures { result ≡ message_id_in bytes.now }
{
    match bytes {
        [_, _, high, low, ..] => u16::from_be_bytes([*high, *low]),
        _ => 0,
    }
}
