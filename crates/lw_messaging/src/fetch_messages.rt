//! The messages by which the rest of a notification is fetched (RFC 7959, section 2.4).

ghost use Rattle.std.specs.Prelude.{◌≡◌, ◌∷◌, ◌++◌, [], map, IfOk, OnOk, Some};
ghost use Rattle.lw_coap.specs.Grammar.{IsSpelling};
ghost use Rattle.lw_reg.specs.Path.{path_numbers};
ghost use Rattle.lw_messaging.specs.Blocks.{value_of};
ghost use Rattle.lw_messaging.specs.FetchMessages.{acknowledgement_to, segment as segment_of, accepts, block2};
ghost use Rattle.lw_messaging.specs.FetchMessages.{get_block};
ghost use Rattle.lw_messaging.specs.Fetches.{IsSent};

use crate::block::Block;
use crate::fetch_options::BLOCK2;
use crate::shortest::shortest_bytes;
use lw_coap::codes::{EMPTY, GET};
use lw_coap::option_numbers::{ACCEPT, URI_PATH};
use lw_coap::{CoapOption, Kind, LentMessage, Message, Options, encode, encode_lent};
use lw_reg::Path;
use lw_stamp::NoMemory;
use std::alloc::Global;

/// An empty acknowledgement with the message ID.
fn empty_acknowledgement(alloc: Global, mid: u16) -> Result<Vec<u8>, NoMemory>
    ensures { IfOk result (λ bytes. IsSent (acknowledgement_to Kind.Con mid) (Some bytes)) }
{
    let message = LentMessage {
        kind: Kind::Ack,
        code: EMPTY,
        mid,
        token: &[],
        options: Options::lent(&[]),
        payload: &[],
    };
    encode_lent(alloc, &message)
}

/// What acknowledges a message, if it is confirmable.
pub(crate) fn acknowledgement(
    alloc: Global,
    kind: Kind,
    mid: u16,
) -> Result<Option<Vec<u8>>, NoMemory>
    ensures { IfOk result (λ bytes. IsSent (acknowledgement_to kind mid) bytes) }
{
    match kind {
        Kind::Con => Ok(Some(empty_acknowledgement(alloc, mid)?)),
        Kind::Non | Kind::Ack | Kind::Rst => Ok(None),
    }
}

fn segment(alloc: Global, number: u16) -> Result<CoapOption, NoMemory>
    ensures { IfOk result (λ option. option ≡ segment_of number) }
{
    let text = format!(in alloc; "{number}")?;
    Ok(CoapOption {
        number: URI_PATH,
        value: text.into_bytes(),
    })
}

/// A segment for each number.
fn segments(alloc: Global, numbers: &[u16]) -> Result<Vec<CoapOption>, NoMemory>
    ensures { IfOk result (λ options. options.items ≡ map segment_of numbers.now) }
{
    let mut options = Vec::new(alloc);
    for number in numbers {
        options.push(segment(alloc, *number)?)?;
    }
    Ok(options)
}

fn push_accept(
    alloc: Global,
    options: &mut Vec<CoapOption>,
    accept: Option<u16>,
) -> Result<(), NoMemory>
    ensures { OnOk result (options.new.items ≡ options.old.items ++ accepts accept) }
{
    if let Some(format) = accept {
        options.push(CoapOption {
            number: ACCEPT,
            value: shortest_bytes(alloc, u32::from(format))?,
        })?;
    }
    Ok(())
}

fn push_block2(alloc: Global, options: &mut Vec<CoapOption>, block: &Block) -> Result<(), NoMemory>
    ensures { OnOk result (options.new.items ≡ options.old.items ++ block2 (value_of block.now) ∷ []) }
{
    let value = block.bytes(alloc)?;
    options.push(CoapOption {
        number: BLOCK2,
        value,
    })?;
    Ok(())
}

fn options_of(
    alloc: Global,
    path: &Path,
    accept: Option<u16>,
    block: &Block,
) -> Result<Vec<CoapOption>, NoMemory>
    ensures { IfOk result (λ options. options.items
        ≡ map segment_of (path_numbers path.now) ++ (accepts accept ++ block2 (value_of block.now) ∷ [])) }
{
    let mut options = segments(alloc, path.numbers())?;
    push_accept(alloc, &mut options, accept)?;
    push_block2(alloc, &mut options, block)?;
    Ok(options)
}

/// A confirmable GET of the block, with the number of the fetch as its token.
pub(crate) fn get_block_of(
    alloc: Global,
    number: u32,
    path: &Path,
    accept: Option<u16>,
    block: &Block,
) -> Result<Vec<u8>, NoMemory>
    ensures { IfOk result (λ bytes.
        IsSpelling bytes.items (get_block number path.now accept (value_of block.now))) }
{
    let message = Message {
        kind: Kind::Con,
        code: GET,
        mid: 0,
        token: Vec::from_slice(alloc, &number.to_be_bytes())?,
        options: options_of(alloc, path, accept, block)?,
        payload: Vec::new(alloc),
    };
    encode(alloc, &message)
}
