//! Notifications in blocks (RFC 7959, section 2.6).

ghost use Rattle.std.specs.Prelude.{◌≡◌, ◌↔◌, true, IfOk, Some, option_map};
ghost use Rattle.lw_stamp.specs.Moment.{ms_of};
ghost use Rattle.lw_stamp.specs.declared.stamp.Stamp.{Stamp as Stamps};
ghost use Rattle.lw_stamp.specs.Stamp.{stamp_bytes};
ghost use Rattle.lw_coap.specs.Fits.{Fits};
ghost use Rattle.lw_messaging.specs.Blocks.{value_of};
ghost use Rattle.lw_messaging.specs.FetchMessages.{acknowledgement_of, is_content as is_one_with_content};
ghost use Rattle.lw_messaging.specs.FetchMessages.{IsTokenInBlocks};
ghost use Rattle.lw_messaging.specs.FetchMessages.{is_in_blocks, without_block2 as one_without};
ghost use Rattle.lw_messaging.specs.Fetches.{Begins, Makes, begun, notified as is_notified_so};
ghost use Rattle.lw_messaging.specs.Fetches.{block_of as block_of_one};
ghost use Rattle.lw_messaging.specs.PendingRequest.{token_in as token_bytes};
ghost use Rattle.lw_messaging.specs.inner.Fetches.{IsDecided};

use crate::block::Block;
use crate::fetch::{Fetch, copied};
use crate::fetch_answers::{Decision, passes};
use crate::fetch_changes::Change;
use crate::fetch_messages::acknowledgement;
use crate::fetch_options::{block2_in, etag_of, told_by, without_block2};
use crate::parcel::Parcel;
use crate::pending_request::token_in;
use crate::reading::read;
use crate::responses::{has_token_of, is_content, may_respond};
use lw_coap::{Message, encode};
use lw_reg::{Addr, Watch};
use lw_stamp::{Moment, NoMemory, Stamp};
use std::alloc::Global;

/// The stamp that the token is, if it is one.
fn stamp_in(token: &[u8]) -> Option<Stamp>
    ensures { (s : Stamps) → (result ≡ Some s) ↔ (stamp_bytes s ≡ token.now) }
{
    let &[a, b, c, d, e, f, g, h] = token else {
        return None;
    };
    Stamp::from_bytes([a, b, c, d, e, f, g, h])
}

fn token_of(message: &Message) -> Option<Stamp>
    ensures { (s : Stamps) → (result ≡ Some s)
        ↔ ((is_in_blocks message.now ≡ true) × (stamp_bytes s ≡ message.now.token)) }
{
    if !is_content(message) || block2_in(&message.options).is_none() {
        return None;
    }
    stamp_in(&message.token)
}

/// The token of a message, where it is a stamp.
pub fn stamp_of_token(bytes: &[u8]) -> Option<Stamp>
    ensures { (s : Stamps) → (result ≡ Some s) ↔ (stamp_bytes s ≡ token_bytes bytes.now) }
{
    stamp_in(token_in(bytes))
}

/// The token of a response that tells the state of a resource in blocks, where it is a stamp.
pub fn token_in_blocks(alloc: Global, bytes: &[u8]) -> Result<Option<Stamp>, NoMemory>
    ensures { IfOk result (λ token. IsTokenInBlocks bytes.now token) }
{
    if !may_respond(bytes) {
        return Ok(None);
    }
    match read(alloc, bytes)? {
        None => Ok(None),
        Some(message) => Ok(token_of(&message)),
    }
}

/// The Block2 of a notification of the observation.
pub(crate) fn block_of(watch: &Watch, message: &Message) -> Option<Block>
    ensures { option_map value_of result ≡ block_of_one watch.now message.now }
{
    if is_content(message) && has_token_of(watch, message) {
        return block2_in(&message.options);
    }
    None
}

/// What becomes of a notification in blocks. The number is that of the fetch that may begin.
pub(crate) fn notified(
    alloc: Global,
    number: u32,
    now: Moment,
    from: Addr,
    watch: Watch,
    message: Message,
    block: &Block,
) -> Result<Decision, NoMemory>
    requires { Fits message }
    ensures { IfOk result (λ d. IsDecided (acknowledgement_of message)
        (is_notified_so number (ms_of now) from watch message (value_of block.now)) d.parcel d.change) }
{
    if !block.is_of(&message.payload) || block.number() != 0 {
        return Ok(passes());
    }
    if block.has_more() {
        begins(alloc, number, now, from, watch, message, block)
    } else {
        makes(alloc, message)
    }
}

/// The fetch of its other blocks, with the payload of this one.
fn begun_by(
    alloc: Global,
    number: u32,
    now: Moment,
    from: Addr,
    watch: Watch,
    message: Message,
) -> Result<Fetch, NoMemory>
    ensures { IfOk result (λ fetch. fetch ≡ begun number (ms_of now) from watch message) }
{
    let etag = copied(alloc, etag_of(&message.options))?;
    Ok(Fetch {
        number,
        from,
        watch,
        last: now,
        etag,
        message: told_by(message),
    })
}

/// The fetch of its other blocks begins.
fn begins(
    alloc: Global,
    number: u32,
    now: Moment,
    from: Addr,
    watch: Watch,
    message: Message,
    block: &Block,
) -> Result<Decision, NoMemory>
    requires { Fits message }
    ensures { IfOk result (λ d. IsDecided (acknowledgement_of message)
        (Begins (begun number (ms_of now) from watch message) (value_of block.now)) d.parcel d.change) }
{
    let acknowledgement = acknowledgement(alloc, message.kind, message.mid)?;
    let fetch = begun_by(alloc, number, now, from, watch, message)?;
    let parcel = Parcel::Taken {
        acknowledgement,
        request: fetch.request(alloc, block)?,
        fetch: number,
    };
    let change = Change::Begins(fetch);
    Ok(Decision { parcel, change })
}

/// It is whole in its only block.
fn makes(alloc: Global, message: Message) -> Result<Decision, NoMemory>
    requires { Fits message }
    ensures { IfOk result (λ d. IsDecided (acknowledgement_of message)
        (Makes (one_without message)) d.parcel d.change) }
{
    let parcel = Parcel::Whole {
        acknowledgement: None,
        message: encode(alloc, &without_block2(message))?,
        is_complete: true,
    };
    Ok(Decision {
        parcel,
        change: Change::Nothing,
    })
}
