//! What becomes of a block.

ghost use Rattle.std.specs.Prelude.{◌≡◌, ◌<◌, ◌≤◌, IfOk, OnErr, vec_len, vec_capacity};
ghost use Rattle.lw_stamp.specs.Moment.{ms_of};
ghost use Rattle.lw_coap.specs.Fits.{Fits};
ghost use Rattle.lw_messaging.specs.Blocks.{value_of};
ghost use Rattle.lw_messaging.specs.BlockAnswers.{continue_with as continue_to};
ghost use Rattle.lw_messaging.specs.inner.Ready.{IsReady};
ghost use Rattle.lw_messaging.specs.Kept.{AreBounded};
ghost use Rattle.lw_messaging.specs.Bodies.{IsDone, outcome, of_block, behind, with_whole, whole_of, body_of};
ghost use Rattle.lw_messaging.specs.inner.Bodies.{continued, made};

use crate::block::Block;
use crate::block_answers::{
    bad_request, block_of, continue_with, incomplete, too_large, without_block,
};
use crate::body::{Arrival, Body};
use crate::kept::{begun, forget, keep};
use crate::piece::Piece;
use lw_coap::{DecodedMessage, Message, encode};
use lw_stamp::NoMemory;
use std::alloc::Global;

/// Takes a message. One without a block is not copied.
pub(crate) fn take_message(
    alloc: Global,
    bodies: &mut Vec<Body>,
    arrival: Arrival,
    message: &DecodedMessage<'_>,
) -> Result<Piece, NoMemory>
    requires fits { Fits message.now }
    requires bounded { AreBounded bodies.old.items }
    ensures done { IfOk result (λ piece. IsDone bodies.old.items (ms_of arrival.now) arrival.from
        (outcome bodies.old.items (ms_of arrival.now) arrival.from message.now) piece bodies.new.items) }
    ensures memory { OnErr result (bodies.new.items ≡ bodies.old.items) }
{
    let Some(block) = block_of(&message.lend()) else {
        return Ok(Piece::Through);
    };
    let message = without_block(message.own(alloc)?);
    take_block(alloc, bodies, arrival, message, block)
}

/// Takes a block, of a message without Block1 and Size1.
fn take_block(
    alloc: Global,
    bodies: &mut Vec<Body>,
    arrival: Arrival,
    message: Message,
    block: Block,
) -> Result<Piece, NoMemory>
    requires ready { IsReady message }
    requires bounded { AreBounded bodies.old.items }
    ensures done { IfOk result (λ piece. IsDone bodies.old.items (ms_of arrival.now) arrival.from
        (of_block bodies.old.items (ms_of arrival.now) arrival.from (value_of block) message) piece bodies.new.items) }
    ensures memory { OnErr result (bodies.new.items ≡ bodies.old.items) }
{
    if !block.is_of(&message.payload) {
        return Ok(Piece::Answered(bad_request(alloc, &message)?));
    }
    let Some(before) = begun(bodies, arrival, &message.options, &block) else {
        return Ok(Piece::Answered(incomplete(alloc, &message)?));
    };
    let whole = behind(alloc, message, before)?;
    take_whole(alloc, bodies, arrival, whole, block)
}

/// The message with all that has come, in place of its block.
fn behind(alloc: Global, message: Message, before: &[u8]) -> Result<Message, NoMemory>
    ensures { IfOk result (λ whole. whole ≡ whole_of message before.now) }
{
    let room = before.len().saturating_add(message.payload.len());
    let mut payload = Vec::with_capacity(alloc, room)?;
    payload.extend_from_slice(before)?;
    payload.extend_from_slice(&message.payload)?;
    Ok(Message {
        kind: message.kind,
        code: message.code,
        mid: message.mid,
        token: message.token,
        options: message.options,
        payload,
    })
}

fn take_whole(
    alloc: Global,
    bodies: &mut Vec<Body>,
    arrival: Arrival,
    whole: Message,
    block: Block,
) -> Result<Piece, NoMemory>
    requires ready { IsReady whole }
    requires bounded { AreBounded bodies.old.items }
    ensures done { IfOk result (λ piece. IsDone bodies.old.items (ms_of arrival.now) arrival.from
        (with_whole (ms_of arrival.now) arrival.from (value_of block) whole) piece bodies.new.items) }
    ensures memory { OnErr result (bodies.new.items ≡ bodies.old.items) }
{
    if !whole.fits() {
        return Ok(Piece::Answered(too_large(alloc, &whole)?));
    }
    if block.has_more() {
        take_part(alloc, bodies, arrival, whole, block)
    } else {
        take_last(alloc, bodies, arrival, whole, block)
    }
}

fn take_part(
    alloc: Global,
    bodies: &mut Vec<Body>,
    arrival: Arrival,
    whole: Message,
    block: Block,
) -> Result<Piece, NoMemory>
    requires ready { IsReady whole }
    requires fits { Fits whole }
    requires bounded { AreBounded bodies.old.items }
    ensures done { IfOk result (λ piece. IsDone bodies.old.items (ms_of arrival.now) arrival.from
        (continued (ms_of arrival.now) arrival.from (value_of block) whole) piece bodies.new.items) }
    ensures memory { OnErr result (bodies.new.items ≡ bodies.old.items) }
{
    let answer = continue_with(alloc, &whole, &block)?;
    bodies.reserve(1)?;
    forget(bodies, arrival, &whole.options);
    keep(bodies, Body::new(arrival, whole.options, whole.payload));
    Ok(Piece::Answered(answer))
}

fn take_last(
    alloc: Global,
    bodies: &mut Vec<Body>,
    arrival: Arrival,
    whole: Message,
    block: Block,
) -> Result<Piece, NoMemory>
    requires fits { Fits whole }
    ensures done { IfOk result (λ piece. IsDone bodies.old.items (ms_of arrival.now) arrival.from
        (made (value_of block) whole) piece bodies.new.items) }
    ensures memory { OnErr result (bodies.new.items ≡ bodies.old.items) }
{
    let message = encode(alloc, &whole)?;
    forget(bodies, arrival, &whole.options);
    Ok(Piece::Whole { message, block })
}
