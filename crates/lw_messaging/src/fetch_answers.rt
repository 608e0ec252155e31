//! What becomes of a response that answers a fetch.

ghost use Rattle.std.specs.Prelude.{◌≡◌, ◌++◌, find, option_copied, IfOk, IfSome};
ghost use Rattle.lw_stamp.specs.Moment.{ms_of};
ghost use Rattle.lw_messaging.specs.Blocks.{value_of};
ghost use Rattle.lw_messaging.specs.FetchMessages.{acknowledgement_of};
ghost use Rattle.lw_messaging.specs.Fetches.{Continues, Ends, IsKept, is_answered, answered as is_answered_so};
ghost use Rattle.lw_messaging.specs.Fetches.{answer_came as came_as_answer, content_came as came_as_content};
ghost use Rattle.lw_messaging.specs.Fetches.{block_came as came_as_block, put as is_put, whole as is_whole};
ghost use Rattle.lw_messaging.specs.Fetches.{part as is_part};
ghost use Rattle.lw_messaging.specs.inner.Fetches.{IsDecided, AreKept, IsOfPayload};

use crate::block::Block;
use crate::fetch::Fetch;
use crate::fetch_changes::Change;
use crate::fetch_messages::acknowledgement;
use crate::fetch_options::{block2_in, etag_of, has_no_block2, same_etag};
use crate::parcel::Parcel;
use crate::responses::is_response;
use lw_coap::codes::CONTENT;
use lw_coap::{Message, encode};
use lw_reg::Addr;
use lw_stamp::{Moment, NoMemory};
use std::alloc::Global;

/// What a caller is given, and what changes.
#[derive(Drop)]
pub(crate) struct Decision {
    pub parcel: Parcel,
    pub change: Change,
}

pub(crate) fn passes() -> Decision
    ensures parcel { result.parcel ≡ Parcel.Through }
    ensures change { result.change ≡ Change.Nothing }
{
    Decision {
        parcel: Parcel::Through,
        change: Change::Nothing,
    }
}

/// The fetch that a response with the token answers.
fn fetch_of<'a>(fetches: &'a [Fetch], now: Moment, from: Addr, token: &[u8]) -> Option<&'a Fetch>
    requires { AreKept fetches.now }
    ensures found { option_copied result ≡ find (is_answered (ms_of now) from token.now) fetches.now }
    ensures kept { IfSome result (λ fetch. IsKept fetch.now) }
{
    fetches
        .iter()
        .find(|fetch| fetch.is_answered(now, from, token))
}

/// What becomes of a message that brings no notification in blocks.
pub(crate) fn answered(
    alloc: Global,
    fetches: &[Fetch],
    now: Moment,
    from: Addr,
    message: &Message,
) -> Result<Decision, NoMemory>
    requires { AreKept fetches.now }
    ensures { IfOk result (λ d. IsDecided (acknowledgement_of message.now)
        (is_answered_so fetches.now (ms_of now) from message.now) d.parcel d.change) }
{
    if !is_response(message) {
        return Ok(passes());
    }
    match fetch_of(fetches, now, from, &message.token) {
        None => Ok(passes()),
        Some(fetch) => answer_came(alloc, now, fetch, message),
    }
}

fn answer_came(
    alloc: Global,
    now: Moment,
    fetch: &Fetch,
    message: &Message,
) -> Result<Decision, NoMemory>
    requires { IsKept fetch.now }
    ensures { IfOk result (λ d. IsDecided (acknowledgement_of message.now)
        (came_as_answer (ms_of now) fetch.now message.now) d.parcel d.change) }
{
    if message.code != CONTENT {
        return ends(alloc, message, fetch, false);
    }
    content_came(alloc, now, fetch, message)
}

fn content_came(
    alloc: Global,
    now: Moment,
    fetch: &Fetch,
    message: &Message,
) -> Result<Decision, NoMemory>
    requires { IsKept fetch.now }
    ensures { IfOk result (λ d. IsDecided (acknowledgement_of message.now)
        (came_as_content (ms_of now) fetch.now message.now) d.parcel d.change) }
{
    if has_no_block2(&message.options) {
        let payload = Vec::from_slice(alloc, &message.payload)?;
        let all = fetch.with_payload(alloc, now, payload)?;
        return whole(alloc, message, fetch, &all);
    }
    match block2_in(&message.options) {
        None => ends(alloc, message, fetch, false),
        Some(block) => block_came(alloc, now, fetch, message, &block),
    }
}

fn block_came(
    alloc: Global,
    now: Moment,
    fetch: &Fetch,
    message: &Message,
    block: &Block,
) -> Result<Decision, NoMemory>
    requires { IsKept fetch.now }
    ensures { IfOk result (λ d. IsDecided (acknowledgement_of message.now)
        (came_as_block (ms_of now) fetch.now message.now (value_of block.now)) d.parcel d.change) }
{
    if !block.is_of(&message.payload) {
        return ends(alloc, message, fetch, false);
    }
    let etag = etag_of(&message.options);
    if !same_etag(fetch.etag(), etag) {
        let anew = fetch.anew(alloc, now, etag)?;
        return continues(alloc, message, anew, block);
    }
    if block.offset() != fetch.payload().len() {
        return ends(alloc, message, fetch, false);
    }
    put(alloc, now, fetch, message, block)
}

/// Puts the payload behind what has come.
fn put(
    alloc: Global,
    now: Moment,
    fetch: &Fetch,
    message: &Message,
    block: &Block,
) -> Result<Decision, NoMemory>
    requires { IsKept fetch.now }
    ensures { IfOk result (λ d. IsDecided (acknowledgement_of message.now)
        (is_put (ms_of now) fetch.now message.now (value_of block.now)) d.parcel d.change) }
{
    let payload = joined(alloc, fetch.payload(), &message.payload)?;
    let longer = fetch.with_payload(alloc, now, payload)?;
    if block.has_more() {
        part(alloc, message, fetch, longer, block)
    } else {
        whole(alloc, message, fetch, &longer)
    }
}

fn joined(alloc: Global, before: &[u8], block: &[u8]) -> Result<Vec<u8>, NoMemory>
    ensures { IfOk result (λ payload. payload.items ≡ before.now ++ block.now) }
{
    let room = before.len().saturating_add(block.len());
    let mut payload = Vec::with_capacity(alloc, room)?;
    payload.extend_from_slice(before)?;
    payload.extend_from_slice(block)?;
    Ok(payload)
}

/// The fetch with more of its payload, or what had come before, where that is too much.
fn part(
    alloc: Global,
    message: &Message,
    before: &Fetch,
    longer: Fetch,
    block: &Block,
) -> Result<Decision, NoMemory>
    requires kept { IsKept before.now }
    requires same { IsOfPayload before.now longer }
    ensures { IfOk result (λ d. IsDecided (acknowledgement_of message.now)
        (is_part before.now longer (value_of block.now)) d.parcel d.change) }
{
    if !longer.message.fits() {
        return ends(alloc, message, before, false);
    }
    continues(alloc, message, longer, block)
}

/// The whole notification, or what had come before, where that is too much.
fn whole(
    alloc: Global,
    message: &Message,
    before: &Fetch,
    all: &Fetch,
) -> Result<Decision, NoMemory>
    requires kept { IsKept before.now }
    requires same { IsOfPayload before.now all.now }
    ensures { IfOk result (λ d. IsDecided (acknowledgement_of message.now)
        (is_whole before.now all.now) d.parcel d.change) }
{
    if !all.message.fits() {
        return ends(alloc, message, before, false);
    }
    ends(alloc, message, all, true)
}

/// The fetch goes on: the next block is asked for.
fn continues(
    alloc: Global,
    message: &Message,
    fetch: Fetch,
    block: &Block,
) -> Result<Decision, NoMemory>
    requires { IsKept fetch }
    ensures { IfOk result (λ d. IsDecided (acknowledgement_of message.now)
        (Continues fetch (value_of block.now)) d.parcel d.change) }
{
    let parcel = Parcel::Taken {
        acknowledgement: acknowledgement(alloc, message.kind, message.mid)?,
        request: fetch.request(alloc, block)?,
        fetch: fetch.number,
    };
    let change = Change::Continues(fetch);
    Ok(Decision { parcel, change })
}

/// The fetch is over.
fn ends(
    alloc: Global,
    message: &Message,
    fetch: &Fetch,
    is_complete: bool,
) -> Result<Decision, NoMemory>
    requires { IsKept fetch.now }
    ensures { IfOk result (λ d. IsDecided (acknowledgement_of message.now)
        (Ends fetch.now is_complete) d.parcel d.change) }
{
    let parcel = Parcel::Whole {
        acknowledgement: acknowledgement(alloc, message.kind, message.mid)?,
        message: encode(alloc, &fetch.message)?,
        is_complete,
    };
    let change = Change::Ends(fetch.number);
    Ok(Decision { parcel, change })
}
