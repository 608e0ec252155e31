ghost use Rattle.std.specs.Prelude.{◌≡◌, ◌/◌, ◌%◌, ◌≤◌, ◌↔◌, [], length, IsNone, IfSome, IfOk, IfErr};
ghost use Rattle.lw_coap.specs.Grammar.{IsHeader, kind_number};
ghost use Rattle.lw_coap.specs.Faults.{IsFault};
ghost use Rattle.lw_coap.specs.Header.{HasHeader, HasNoHeader};

use crate::fault::Fault;
use crate::limits::{MAX_LENGTH, MAX_TOKEN, VERSION};
use crate::message::Kind;

/// A header, and the bytes behind it.
#[derive(Clone, Copy)]
pub(crate) struct Header<'a> {
    pub kind: Kind,
    pub code: u8,
    pub mid: u16,
    pub token_length: usize,
    pub rest: &'a [u8],
}

/// The kind in the first byte of a header.
fn kind_in(first: u8) -> Kind
    ensures { kind_number result ≡ first / 16 % 4 }
{
    match first / 16 % 4 {
        0 => Kind::Con,
        1 => Kind::Non,
        2 => Kind::Ack,
        _ => Kind::Rst,
    }
}

/// The header of a datagram, which begins as a message of at most 8,192 bytes does.
pub(crate) fn read_header(bytes: &[u8]) -> Result<Header<'_>, Fault>
    ensures header { IfOk result (λ h. IsHeader bytes.now 1 (kind_number h.kind) h.token_length h.code h.mid h.rest.now) }
    ensures token { IfOk result (λ h. h.token_length ≤ 8) }
    ensures empty { IfOk result (λ h. h.code ≡ 0 → (h.token_length ≡ 0) × (h.rest.now ≡ [])) }
    ensures within { IfOk result (λ h. length bytes.now ≤ 8192) }
    ensures fault { IfErr result (IsFault bytes.now) }
{
    if bytes.len() > MAX_LENGTH {
        return Err(Fault::TooLong);
    }
    let [first, code, high, low, rest @ ..] = bytes else {
        return Err(Fault::Short);
    };
    let version = *first / 64;
    if version != VERSION {
        return Err(Fault::Version);
    }
    let token_length = (*first % 16) as usize;
    if token_length > MAX_TOKEN {
        return Err(Fault::TokenLength);
    }
    if *code == 0 && (token_length > 0 || !rest.is_empty()) {
        return Err(Fault::EmptyMessage);
    }
    Ok(Header {
        kind: kind_in(*first),
        code: *code,
        mid: u16::from_be_bytes([*high, *low]),
        token_length,
        rest,
    })
}

/// The kind, the code and the message ID of a datagram, whatever stands behind its first 4 bytes. There
/// are none in fewer than 4 bytes or in another version than 1.
pub fn peek_header(bytes: &[u8]) -> Option<(Kind, u8, u16)>
    ensures header { IfSome result (λ h. HasHeader bytes.now h.0 h.1 h.2) }
    ensures none { IsNone result ↔ HasNoHeader bytes.now }
{
    let [first, code, high, low, ..] = bytes else {
        return None;
    };
    if *first / 64 != VERSION {
        return None;
    }
    let mid = u16::from_be_bytes([*high, *low]);
    Some((kind_in(*first), *code, mid))
}
