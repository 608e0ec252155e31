ghost use Rattle.std.specs.Prelude.{◌≡◌, ◌≤◌, length, option_copied, option_map, IfOk};
ghost use Rattle.lw_stamp.specs.Moment.{ms_of};
ghost use Rattle.lw_coap.specs.Grammar.{IsSpelling};
ghost use Rattle.lw_messaging.specs.Blocks.{value_of};
ghost use Rattle.lw_messaging.specs.Fetches.{FetchContent, IsKept, is_live as lives, has_number as has_one};
ghost use Rattle.lw_messaging.specs.Fetches.{is_of as is_one_of};
ghost use Rattle.lw_messaging.specs.Fetches.{is_answered as has_answer, is_beside as stays_beside};
ghost use Rattle.lw_messaging.specs.Fetches.{is_other as is_another};
ghost use Rattle.lw_messaging.specs.Fetches.{message_with as message_of, with_payload as one_with, anew as one_anew};
ghost use Rattle.lw_messaging.specs.Fetches.{request_of};

use crate::block::Block;
use crate::fetch_messages::get_block_of;
use lw_coap::{CoapOption, Message};
use lw_reg::{Addr, Watch};
use lw_stamp::{Moment, NoMemory};
use std::alloc::Global;
use std::marker::Model;

/// For how long a fetch waits behind its last block, in milliseconds: EXCHANGE_LIFETIME (RFC 7252, section 4.8.2).
const LIFETIME_MS: u64 = 247_000;

/// A notification as far as its blocks have come.
#[derive(Drop)]
pub(crate) struct Fetch {
    /// The number that is the token of its requests.
    pub number: u32,
    /// Where its notification came from, and its requests go.
    pub from: Addr,
    /// The observation that it is of.
    pub watch: Watch,
    /// The moment of its last block.
    pub last: Moment,
    /// The ETag of its blocks, if they have one.
    pub etag: Option<Vec<u8>>,
    /// The message for the store, with the payload that has come.
    pub message: Message,
}

impl Model for Fetch {
    ghost use Rattle.std.specs.Prelude.{option_map};
    ghost use Rattle.lw_stamp.specs.Moment.{ms_of};
    ghost use Rattle.lw_messaging.specs.Fetches.{FetchContent};

    ghost Value = { FetchContent };

    ghost view = { λ f. record {
      number = f.number;
      from = f.from;
      watch = f.watch;
      last = ms_of f.last;
      etag = option_map (λ etag. etag.items) f.etag;
      message = f.message;
    } };
}

impl Fetch {
    fn is_live(&self, now: Moment) -> bool
        ensures { result ≡ lives (ms_of now) self.now }
    {
        now.ms() <= self.last.ms() + LIFETIME_MS
    }

    fn is_of(&self, from: Addr, watch: &Watch) -> bool
        ensures { result ≡ is_one_of from watch.now self.now }
    {
        self.from == from && self.watch.token == watch.token
    }

    pub(crate) fn has_number(&self, number: u32) -> bool
        ensures { result ≡ has_one number self.now }
    {
        self.number == number
    }

    /// Whether it stays where a fetch of another number goes on or ends.
    pub(crate) fn is_other(&self, number: u32) -> bool
        ensures { result ≡ is_another number self.now }
    {
        !self.has_number(number)
    }

    /// Whether it stays where another begins.
    pub(crate) fn is_beside(&self, new: &Fetch) -> bool
        ensures { result ≡ stays_beside new.now self.now }
    {
        self.is_live(new.last) && !self.is_of(new.from, &new.watch)
    }

    /// Whether a response with the token, from the address, answers its last request.
    pub(crate) fn is_answered(&self, now: Moment, from: Addr, token: &[u8]) -> bool
        ensures { result ≡ has_answer (ms_of now) from token.now self.now }
    {
        self.is_live(now) && self.from == from && token == self.number.to_be_bytes().as_slice()
    }

    pub(crate) fn etag(&self) -> Option<&[u8]>
        ensures { option_copied result ≡ self.now.etag }
    {
        match &self.etag {
            Some(etag) => Some(etag.as_slice()),
            None => None,
        }
    }

    /// The payload that has come.
    pub(crate) fn payload(&self) -> &[u8]
        ensures { result.now ≡ self.now.message.payload }
    {
        &self.message.payload
    }

    /// The same fetch with another payload, of which the last block came now.
    pub(crate) fn with_payload(
        &self,
        alloc: Global,
        now: Moment,
        payload: Vec<u8>,
    ) -> Result<Fetch, NoMemory>
        ensures { IfOk result (λ fetch. fetch ≡ one_with (ms_of now) self.now payload.items) }
    {
        let message = message_with(alloc, &self.message, payload)?;
        let etag = copied(alloc, self.etag())?;
        Ok(Fetch {
            number: self.number,
            from: self.from,
            watch: self.watch,
            last: now,
            etag,
            message,
        })
    }

    /// The same fetch from its begin on, of the state with the ETag.
    pub(crate) fn anew(
        &self,
        alloc: Global,
        now: Moment,
        etag: Option<&[u8]>,
    ) -> Result<Fetch, NoMemory>
        ensures { IfOk result (λ fetch. fetch ≡ one_anew (ms_of now) self.now (option_copied etag.entry)) }
    {
        let message = message_with(alloc, &self.message, Vec::new(alloc))?;
        let etag = copied(alloc, etag)?;
        Ok(Fetch {
            number: self.number,
            from: self.from,
            watch: self.watch,
            last: now,
            etag,
            message,
        })
    }

    /// The request for the block behind what has come, of the size of this block.
    pub(crate) fn request(&self, alloc: Global, block: &Block) -> Result<Vec<u8>, NoMemory>
        requires { length self.now.message.payload ≤ 8192 }
        ensures { IfOk result (λ bytes. IsSpelling bytes.items (request_of self.now (value_of block.now))) }
    {
        let next = block.behind(self.message.payload.len());
        get_block_of(
            alloc,
            self.number,
            &self.watch.path,
            self.watch.accept,
            &next,
        )
    }
}

/// Bytes of one's own, if there are some.
pub(crate) fn copied(alloc: Global, bytes: Option<&[u8]>) -> Result<Option<Vec<u8>>, NoMemory>
    ensures { IfOk result (λ own. option_map (λ v. v.items) own ≡ option_copied bytes.entry) }
{
    match bytes {
        None => Ok(None),
        Some(bytes) => Ok(Some(Vec::from_slice(alloc, bytes)?)),
    }
}

fn copied_options(alloc: Global, options: &[CoapOption]) -> Result<Vec<CoapOption>, NoMemory>
    ensures { IfOk result (λ own. own.items ≡ options.now) }
{
    let mut own = Vec::with_capacity(alloc, options.len())?;
    for option in options {
        own.push(CoapOption {
            number: option.number,
            value: Vec::from_slice(alloc, &option.value)?,
        })?;
    }
    Ok(own)
}

/// The message with another payload.
fn message_with(alloc: Global, message: &Message, payload: Vec<u8>) -> Result<Message, NoMemory>
    ensures { IfOk result (λ m. m ≡ message_of message.now payload.items) }
{
    let token = Vec::from_slice(alloc, &message.token)?;
    let options = copied_options(alloc, &message.options)?;
    Ok(Message {
        kind: message.kind,
        code: message.code,
        mid: message.mid,
        token,
        options,
        payload,
    })
}
