//! The messages that answer a block (RFC 7959, sections 2.5 and 2.9).

ghost use Rattle.std.specs.Prelude.{◌≡◌, ◌<◌, ◌≤◌, IfOk, OnOk, option_map, length};
ghost use Rattle.std.specs.List.{prefix_len};
ghost use Rattle.lw_messaging.specs.inner.BlockAnswers.{is_not_above_block1};
ghost use Rattle.lw_messaging.specs.inner.Ready.{IsReady};
ghost use Rattle.lw_coap.specs.Fits.{Fits, AreRising, options_length};
ghost use Rattle.lw_coap.specs.Message.{MessageContent};
ghost use Rattle.lw_coap.specs.Grammar.{IsSpelling};
ghost use Rattle.lw_messaging.specs.Blocks.{value_of, shortest_bytes};
ghost use Rattle.lw_messaging.specs.BlockAnswers.{answer_kind, answer_of, bad_request as bad_request_to};
ghost use Rattle.lw_messaging.specs.BlockAnswers.{incomplete as incomplete_to, too_large as too_large_to};
ghost use Rattle.lw_messaging.specs.BlockAnswers.{continue_with as continue_to, asks as asks_for, block_of};
ghost use Rattle.lw_messaging.specs.BlockAnswers.{without_block as message_without, put_option, block1_of};
ghost use Rattle.lw_messaging.specs.BlockAnswers.{with_block1 as message_with, IsWithBlock};

use crate::block::Block;
use crate::block_options::{BLOCK1, SIZE1, block_in, body_options};
use crate::reading::read;
use lw_coap::codes::{BAD_REQUEST, POST, REQUEST_ENTITY_TOO_LARGE};
use lw_coap::{CoapOption, Kind, LentMessage, LentOption, Message, Options, encode, encode_lent};
use lw_stamp::NoMemory;
use std::alloc::Global;

/// 2.31 (RFC 7959, section 2.9.1).
const CONTINUE: u8 = 0x5f;

/// 4.08 (RFC 7959, section 2.9.2).
const REQUEST_ENTITY_INCOMPLETE: u8 = 0x88;

/// The most bytes of a message, 8,192, as a value of Size1.
const SIZE_LIMIT: [u8; 2] = [0x20, 0x00];

fn asks(kind: Kind) -> bool
    ensures { result ≡ asks_for kind }
{
    match kind {
        Kind::Con | Kind::Non => true,
        Kind::Ack | Kind::Rst => false,
    }
}

/// The block of a Register or an Update that has one.
pub(crate) fn block_of(message: &LentMessage<'_>) -> Option<Block>
    ensures { option_map value_of result ≡ block_of message.now }
{
    if asks(message.kind) && message.code == POST {
        return block_in(&message.options);
    }
    None
}

/// The message without Block1 and Size1.
pub(crate) fn without_block(message: Message) -> Message
    ensures { result ≡ message_without message }
{
    Message {
        options: body_options(message.options),
        kind: message.kind,
        code: message.code,
        mid: message.mid,
        token: message.token,
        payload: message.payload,
    }
}

fn kind_of_answer(kind: Kind) -> Kind
    ensures { result ≡ answer_kind kind }
{
    match kind {
        Kind::Con => Kind::Ack,
        Kind::Non | Kind::Ack | Kind::Rst => Kind::Non,
    }
}

fn answer<'a>(
    alloc: Global,
    request: &'a Message,
    code: u8,
    options: &'a [LentOption<'a>],
) -> Result<Vec<u8>, NoMemory>
    requires request { IsReady request.now }
    requires code { 0 < code }
    requires rising { AreRising 0 options.now }
    requires short { options_length 0 options.now ≤ 64 }
    ensures { IfOk result (λ bytes. IsSpelling bytes.items (answer_of request.now code options.now)) }
{
    let message = LentMessage {
        kind: kind_of_answer(request.kind),
        code,
        mid: request.mid,
        token: &request.token,
        options: Options::lent(options),
        payload: &[],
    };
    encode_lent(alloc, &message)
}

/// 4.00: the block is none, or its payload is not as long as it says.
pub(crate) fn bad_request(alloc: Global, request: &Message) -> Result<Vec<u8>, NoMemory>
    requires { IsReady request.now }
    ensures { IfOk result (λ bytes. IsSpelling bytes.items (bad_request_to request.now)) }
{
    answer(alloc, request, BAD_REQUEST, &[])
}

/// 4.08: what stands before the block has not come.
pub(crate) fn incomplete(alloc: Global, request: &Message) -> Result<Vec<u8>, NoMemory>
    requires { IsReady request.now }
    ensures { IfOk result (λ bytes. IsSpelling bytes.items (incomplete_to request.now)) }
{
    answer(alloc, request, REQUEST_ENTITY_INCOMPLETE, &[])
}

/// 4.13, with the most bytes of a message.
pub(crate) fn too_large(alloc: Global, request: &Message) -> Result<Vec<u8>, NoMemory>
    requires { IsReady request.now }
    ensures { IfOk result (λ bytes. IsSpelling bytes.items (too_large_to request.now)) }
{
    let size = LentOption {
        number: SIZE1,
        value: &SIZE_LIMIT,
    };
    answer(alloc, request, REQUEST_ENTITY_TOO_LARGE, &[size])
}

/// 2.31, with the Block1 of the request.
pub(crate) fn continue_with(
    alloc: Global,
    request: &Message,
    block: &Block,
) -> Result<Vec<u8>, NoMemory>
    requires { IsReady request.now }
    ensures { IfOk result (λ bytes. IsSpelling bytes.items (continue_to request.now (value_of block.now))) }
{
    let bytes = block.bytes(alloc)?;
    let option = LentOption {
        number: BLOCK1,
        value: &bytes,
    };
    answer(alloc, request, CONTINUE, &[option])
}

/// How many options have a number that is not above that of Block1.
fn place_of_block(options: &[CoapOption]) -> usize
    ensures value { result ≡ prefix_len is_not_above_block1 options.now }
    ensures within { result ≤ length options.now }
{
    options
        .iter()
        .take_while(|option| option.number <= BLOCK1)
        .count()
}

/// Puts a Block1 of the value among options.
fn put_block1(options: &mut Vec<CoapOption>, value: Vec<u8>) -> Result<(), NoMemory>
    ensures { OnOk result (options.new.items ≡ put_option (block1_of value.items) options.old.items) }
{
    let place = place_of_block(options);
    let number = BLOCK1;
    options.insert(place, CoapOption { number, value })?;
    Ok(())
}

fn with_block1(alloc: Global, message: Message, block: &Block) -> Result<Message, NoMemory>
    ensures { IfOk result (λ m. m ≡ message_with message (value_of block.now)) }
{
    let value = block.bytes(alloc)?;
    let mut options = message.options;
    put_block1(&mut options, value)?;
    Ok(Message {
        kind: message.kind,
        code: message.code,
        mid: message.mid,
        token: message.token,
        options,
        payload: message.payload,
    })
}

/// The reply with the Block1 of the block that it answers. What spells no message, or has no room for it, stays.
pub fn with_block(alloc: Global, reply: &[u8], block: Block) -> Result<Vec<u8>, NoMemory>
    ensures { IfOk result (λ bytes. IsWithBlock reply.now (value_of block) bytes.items) }
{
    match read(alloc, reply)? {
        None => unchanged(alloc, reply, &block),
        Some(message) => with_block_in(alloc, reply, message, &block),
    }
}

fn with_block_in(
    alloc: Global,
    reply: &[u8],
    message: Message,
    block: &Block,
) -> Result<Vec<u8>, NoMemory>
    requires { IsSpelling reply.now message }
    ensures { IfOk result (λ bytes. IsWithBlock reply.now (value_of block.now) bytes.items) }
{
    let with = with_block1(alloc, message, block)?;
    if !with.fits() {
        return unchanged(alloc, reply, block);
    }
    encode(alloc, &with)
}

fn unchanged(alloc: Global, reply: &[u8], block: &Block) -> Result<Vec<u8>, NoMemory>
    requires { (m : MessageContent) → IsSpelling reply.now m → Fits (message_with m (value_of block.now)) → ⊥ }
    ensures { IfOk result (λ bytes. IsWithBlock reply.now (value_of block.now) bytes.items) }
{
    Ok(Vec::from_slice(alloc, reply)?)
}
