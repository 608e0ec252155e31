//! The messages that a request is answered with, and their bytes.

ghost use Rattle.std.specs.Prelude.{◌≡◌, ◌≤◌, ◌<◌, ◌⊎◌, IfOk, length};
ghost use Rattle.lw_coap.specs.Fits.{Fits};
ghost use Rattle.lw_coap.specs.Grammar.{IsSpelling};
ghost use Rattle.lw_request.specs.Reply.{answer_kind, answer_of, reset_of, ack_of};
ghost use Rattle.lw_request.specs.inner.Reply.{answer_with};

use lw_coap::option_numbers::LOCATION_PATH;
use lw_coap::{Kind, LentMessage, LentOption, Options, encode_lent};
use lw_stamp::{NoMemory, Stamp};
use std::alloc::Global;

fn kind_of_answer(kind: Kind) -> Kind
    ensures { result ≡ answer_kind kind }
{
    match kind {
        Kind::Con => Kind::Ack,
        _ => Kind::Non,
    }
}

/// The message with these parts and no payload.
fn written<'a>(
    alloc: Global,
    kind: Kind,
    mid: u16,
    token: &'a [u8],
    code: u8,
    options: &'a [LentOption<'a>],
) -> Result<Vec<u8>, NoMemory>
    requires { Fits (answer_with kind mid token.now code options.now) }
    ensures { IfOk result (λ bytes. IsSpelling bytes.items (answer_with kind mid token.now code options.now)) }
{
    let message = LentMessage {
        kind,
        code,
        mid,
        token,
        options: Options::lent(options),
        payload: &[],
    };
    encode_lent(alloc, &message)
}

/// The answer to a confirmable or non-confirmable request with this message ID and token: an acknowledgement, or
/// a non-confirmable message. With a location it names the registration that was made.
pub fn answer(
    alloc: Global,
    kind: Kind,
    mid: u16,
    token: &[u8],
    code: u8,
    location: Option<Stamp>,
) -> Result<Vec<u8>, NoMemory>
    requires kind { (kind ≡ Kind.Con) ⊎ (kind ≡ Kind.Non) }
    requires token { length token.now ≤ 8 }
    requires code { 0 < code }
    ensures { IfOk result (λ bytes. IsSpelling bytes.items (answer_of kind mid token.now code location)) }
{
    let kind = kind_of_answer(kind);
    let Some(id) = location else {
        return written(alloc, kind, mid, token, code, &[]);
    };
    let id = id.id_text();
    let path = [
        LentOption {
            number: LOCATION_PATH,
            value: b"rd",
        },
        LentOption {
            number: LOCATION_PATH,
            value: &id,
        },
    ];
    written(alloc, kind, mid, token, code, &path)
}

/// The Reset of the message with this message ID.
pub fn reset(mid: u16) -> [u8; 4]
    ensures { IsSpelling result (reset_of mid) }
{
    let [high, low] = mid.to_be_bytes();
    [0x70, 0x00, high, low]
}

/// The empty acknowledgement of the message with this message ID.
pub fn ack(mid: u16) -> [u8; 4]
    ensures { IsSpelling result (ack_of mid) }
{
    let [high, low] = mid.to_be_bytes();
    [0x60, 0x00, high, low]
}
