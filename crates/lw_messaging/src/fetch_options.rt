//! The options of a notification in blocks, and of the responses that bring the rest (RFC 7959, sections 2.1 and 4).

ghost use Rattle.std.specs.Prelude.{◌≡◌, option_copied, option_map, filter};
ghost use Rattle.lw_messaging.specs.Blocks.{value_of};
ghost use Rattle.lw_messaging.specs.FetchMessages.{block2_in as value_in, has_no_block2 as has_none};
ghost use Rattle.lw_messaging.specs.FetchMessages.{etag_of as etag_in};
ghost use Rattle.lw_messaging.specs.FetchMessages.{same_etag as are_same, is_no_block2 as is_another};
ghost use Rattle.lw_messaging.specs.FetchMessages.{without_block2 as one_without};
ghost use Rattle.lw_messaging.specs.FetchMessages.{is_of_notification as is_kept, told_by as is_told};

use crate::block::Block;
use crate::block_options::value_at;
use lw_coap::codes::CONTENT;
use lw_coap::{CoapOption, Kind, Message, Options};

/// The number of the option ETag.
const ETAG: u16 = 4;

/// The number of the option Block2.
pub(crate) const BLOCK2: u16 = 23;

/// The number of the option Size2.
const SIZE2: u16 = 28;

/// The Block2 of a message. There is none where no option is a Block2, or two are, or it has more than three bytes.
pub(crate) fn block2_in(options: &[CoapOption]) -> Option<Block>
    ensures { option_map value_of result ≡ value_in options.now }
{
    let options = Options::owned(options);
    let value = value_at(&options, BLOCK2, 0)?;
    if value_at(&options, BLOCK2, 1).is_some() {
        return None;
    }
    Block::read(value)
}

pub(crate) fn has_no_block2(options: &[CoapOption]) -> bool
    ensures { result ≡ has_none options.now }
{
    value_at(&Options::owned(options), BLOCK2, 0).is_none()
}

pub(crate) fn etag_of(options: &[CoapOption]) -> Option<&[u8]>
    ensures { option_copied result ≡ etag_in options.now }
{
    value_at(&Options::owned(options), ETAG, 0)
}

pub(crate) fn same_etag(left: Option<&[u8]>, right: Option<&[u8]>) -> bool
    ensures { result ≡ are_same (option_copied left.entry) (option_copied right.entry) }
{
    match (left, right) {
        (None, None) => true,
        (Some(left), Some(right)) => left == right,
        _ => false,
    }
}

fn is_no_block2(option: &CoapOption) -> bool
    ensures { result ≡ is_another option.now }
{
    option.number != BLOCK2
}

fn is_of_notification(option: &CoapOption) -> bool
    ensures { result ≡ is_kept option.now }
{
    option.number != ETAG && option.number != BLOCK2 && option.number != SIZE2
}

fn other_options(mut options: Vec<CoapOption>) -> Vec<CoapOption>
    ensures { result.items ≡ filter is_another options.items }
{
    options.retain(|option| is_no_block2(option));
    options
}

fn options_of_notification(mut options: Vec<CoapOption>) -> Vec<CoapOption>
    ensures { result.items ≡ filter is_kept options.items }
{
    options.retain(|option| is_of_notification(option));
    options
}

/// The message without Block2.
pub(crate) fn without_block2(message: Message) -> Message
    ensures { result ≡ one_without message }
{
    Message {
        options: other_options(message.options),
        kind: message.kind,
        code: message.code,
        mid: message.mid,
        token: message.token,
        payload: message.payload,
    }
}

/// The notification as far as its first block goes, for a store that has nothing to acknowledge.
pub(crate) fn told_by(message: Message) -> Message
    ensures { result ≡ is_told message }
{
    Message {
        options: options_of_notification(message.options),
        kind: Kind::Non,
        code: CONTENT,
        mid: 0,
        token: message.token,
        payload: message.payload,
    }
}
