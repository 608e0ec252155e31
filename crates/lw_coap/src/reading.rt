ghost use Rattle.std.specs.Prelude.{◌≡◌, ◌≢◌, ℕ, ◌⊎◌, ◌↔◌, List, length, IfOk, IfErr, IsTrue, Ok, Err};
ghost use Rattle.lw_coap.specs.declared.fault.Fault.{Fault};
ghost use Rattle.lw_coap.specs.Message.{MessageContent, OptionContent};
ghost use Rattle.lw_coap.specs.Grammar.{IsSpelling, IsPayload};
ghost use Rattle.lw_coap.specs.Faults.{IsFault, IsOptionsFault, IsPartFault};
ghost use Rattle.lw_coap.specs.inner.Body.{IsBodyEnd, IsBody, IsFrame, Reads};

use crate::fault::Fault;
use crate::header::read_header;
use crate::limits::PAYLOAD_MARKER;
use crate::message::{DecodedMessage, Kind, LentOption, Message};
use crate::option::next_option;
use std::alloc::Global;

/// Header and token of a datagram, and the bytes behind them.
#[derive(Clone, Copy)]
struct Frame<'a> {
    kind: Kind,
    code: u8,
    mid: u16,
    token: &'a [u8],
    body: &'a [u8],
}

/// Options and payload.
#[derive(Drop)]
struct Body<'a> {
    options: Vec<LentOption<'a>>,
    payload: &'a [u8],
}

fn is_body_end(bytes: &[u8]) -> bool
    ensures { IsTrue result ↔ IsBodyEnd bytes.now }
{
    match bytes {
        [] => true,
        [first, ..] => *first == PAYLOAD_MARKER,
    }
}

/// The payload of the bytes behind the last option.
fn payload_in(bytes: &[u8]) -> Result<&[u8], Fault>
    requires { IsBodyEnd bytes.now }
    ensures payload { IfOk result (λ payload. IsPayload bytes.now payload.now) }
    ensures fault { IfErr result (λ fault. (before : ℕ) → IsPartFault before bytes.now fault) }
{
    match bytes {
        [] => Ok(bytes),
        [_] => Err(Fault::EmptyPayload),
        [_, payload @ ..] => Ok(payload),
    }
}

/// Walks options and payload, and takes no memory. Gives how many options there are.
fn check_body(body: &[u8]) -> Result<usize, Fault>
    ensures whole { IfOk result (λ count. (options : List OptionContent) × (payload : List ℕ) × IsBody body.now options payload × (length options ≡ count)) }
    ensures fault { IfErr result (IsOptionsFault body.now) }
{
    let mut count = 0;
    let mut number = 0;
    let mut rest = body;
    while !is_body_end(rest) {
        let option = next_option(number, rest)?;
        count += 1;
        number = option.number;
        rest = option.rest;
    }
    payload_in(rest)?;
    Ok(count)
}

/// Options and payload, with room for this many options from the start.
fn read_body(alloc: Global, body: &[u8], count: usize) -> Result<Body<'_>, Fault>
    ensures found { IfOk result (λ x. IsBody body.now x.options.items x.payload.now) }
    ensures fault { IfErr result (λ fault. (fault ≡ Fault.NoMemory) ⊎ IsOptionsFault body.now fault) }
{
    let mut options = Vec::with_capacity(alloc, count)?;
    let mut number = 0;
    let mut rest = body;
    while !is_body_end(rest) {
        let option = next_option(number, rest)?;
        options.push(LentOption {
            number: option.number,
            value: option.value,
        })?;
        number = option.number;
        rest = option.rest;
    }
    let payload = payload_in(rest)?;
    Ok(Body { options, payload })
}

/// Header and token.
fn read_frame(bytes: &[u8]) -> Result<Frame<'_>, Fault>
    ensures found { IfOk result (λ f. IsFrame bytes.now f.kind f.code f.mid f.token.now f.body.now) }
    ensures fault { IfErr result (IsFault bytes.now) }
{
    let header = read_header(bytes)?;
    if header.rest.len() < header.token_length {
        return Err(Fault::Truncated);
    }
    let (token, body) = header.rest.split_at(header.token_length);
    Ok(Frame {
        kind: header.kind,
        code: header.code,
        mid: header.mid,
        token,
        body,
    })
}

/// The message where it lies, once the walk has found no fault.
fn read_lent(alloc: Global, bytes: &[u8]) -> Result<DecodedMessage<'_>, Fault>
    ensures { Reads bytes.now result }
{
    let frame = read_frame(bytes)?;
    let count = check_body(frame.body)?;
    match read_body(alloc, frame.body, count) {
        Ok(body) => Ok(DecodedMessage {
            kind: frame.kind,
            code: frame.code,
            mid: frame.mid,
            token: frame.token,
            options: body.options,
            payload: body.payload,
        }),
        Err(fault) => Err(fault),
    }
}

/// The message that the bytes spell, all of them: token, values and payload are left where they lie. Each fault but
/// `NoMemory` is found before any memory is taken.
pub fn decode_lent(alloc: Global, bytes: &[u8]) -> Result<DecodedMessage<'_>, Fault>
    // What is read is spelled so.
    ensures found { IfOk result (λ message. IsSpelling bytes.now message) }
    // What is spelled so is read, unless a growth is refused.
    ensures only { (message : MessageContent) → IsSpelling bytes.now message → (result ≡ Ok message) ⊎ (result ≡ Err Fault.NoMemory) }
    // Each other fault is answered exactly where it is the first.
    ensures faults { (fault : Fault) → fault ≢ Fault.NoMemory → ((result ≡ Err fault) ↔ IsFault bytes.now fault) }
    // Want of memory comes only in place of a message.
    ensures memory { result ≡ Err Fault.NoMemory → (message : MessageContent) × IsSpelling bytes.now message }
{
    read_lent(alloc, bytes)
}

fn read(alloc: Global, bytes: &[u8]) -> Result<Message, Fault>
    ensures { Reads bytes.now result }
{
    match read_lent(alloc, bytes) {
        Ok(message) => match message.own(alloc) {
            Ok(own) => Ok(own),
            Err(_) => Err(Fault::NoMemory),
        },
        Err(fault) => Err(fault),
    }
}

/// The message that the bytes spell, all of them. Each fault but `NoMemory` is found before any memory is
/// taken.
pub fn decode(alloc: Global, bytes: &[u8]) -> Result<Message, Fault>
    // What is read is spelled so.
    ensures found { IfOk result (λ message. IsSpelling bytes.now message) }
    // What is spelled so is read, unless a growth is refused.
    ensures only { (message : MessageContent) → IsSpelling bytes.now message → (result ≡ Ok message) ⊎ (result ≡ Err Fault.NoMemory) }
    // Each other fault is answered exactly where it is the first.
    ensures faults { (fault : Fault) → fault ≢ Fault.NoMemory → ((result ≡ Err fault) ↔ IsFault bytes.now fault) }
    // Want of memory comes only in place of a message.
    ensures memory { result ≡ Err Fault.NoMemory → (message : MessageContent) × IsSpelling bytes.now message }
{
    read(alloc, bytes)
}
