ghost use Rattle.std.specs.Prelude.{◌≡◌, ◌<◌, ◌↔◌, IsTrue, IfOk};

use crate::limits::{HEADER_LENGTH, MAX_TOKEN};
use crate::options::Options;
use crate::size::bytes_of_message;
use lw_stamp::NoMemory;
use std::alloc::Global;
use std::marker::Model;

/// The type of a message (RFC 7252, section 3).
#[derive(Clone, Copy, Debug, PartialEq, Eq)]
pub enum Kind {
    /// Confirmable.
    Con,
    /// Non-confirmable.
    Non,
    /// Acknowledgement.
    Ack,
    /// Reset.
    Rst,
}

impl Kind {
    ghost use Rattle.lw_coap.specs.Grammar.{kind_number};

    /// The number of the type field.
    pub(crate) fn number(self) -> u8
        ensures value { result ≡ kind_number self }
        ensures below { result < 4 }
    {
        match self {
            Kind::Con => 0,
            Kind::Non => 1,
            Kind::Ack => 2,
            Kind::Rst => 3,
        }
    }
}

/// An option of a message (RFC 7252, section 3.1).
#[derive(Drop)]
pub struct CoapOption {
    pub number: u16,
    pub value: Vec<u8>,
}

impl Model for CoapOption {
    ghost use Rattle.lw_coap.specs.Message.{OptionContent};

    ghost Value = { OptionContent };

    ghost view = { λ a. record { number = a.number; value = a.value.items } };
}

/// A message (RFC 7252, section 3). An empty payload is none.
#[derive(Drop)]
pub struct Message {
    pub kind: Kind,
    /// Class in the upper three bits, detail in the lower five.
    pub code: u8,
    /// The message ID.
    pub mid: u16,
    pub token: Vec<u8>,
    /// In the order of their numbers.
    pub options: Vec<CoapOption>,
    pub payload: Vec<u8>,
}

impl Model for Message {
    ghost use Rattle.lw_coap.specs.Message.{MessageContent};

    ghost Value = { MessageContent };

    ghost view = { λ a. record {
      kind = a.kind;
      code = a.code;
      mid = a.mid;
      token = a.token.items;
      options = a.options.items;
      payload = a.payload.items;
    } };
}

impl Message {
    ghost use Rattle.lw_coap.specs.Fits.{Fits};

    /// Whether the message has a spelling: a token of at most 8 bytes, option numbers that do not fall,
    /// nothing but the header with code 0.00, and at most 8,192 bytes in all.
    pub fn fits(&self) -> bool
        ensures { IsTrue result ↔ Fits self.now }
    {
        let Some(len) = bytes_of_message(self) else {
            return false;
        };
        if self.token.len() > MAX_TOKEN {
            return false;
        }
        // The message ID is read for its range alone.
        let _mid = self.mid;
        self.code != 0 || len == HEADER_LENGTH
    }

    /// The message, lent. It takes no memory.
    pub fn lend(&self) -> LentMessage<'_>
        ensures { result ≡ self.now }
    {
        LentMessage {
            kind: self.kind,
            code: self.code,
            mid: self.mid,
            token: self.token.as_slice(),
            options: Options::owned(self.options.as_slice()),
            payload: self.payload.as_slice(),
        }
    }
}

/// An option that is lent.
#[derive(Drop)]
pub struct LentOption<'a> {
    pub number: u16,
    pub value: &'a [u8],
}

impl<'a> Model for LentOption<'a> {
    ghost use Rattle.lw_coap.specs.Message.{OptionContent};

    ghost Value = { OptionContent };

    ghost view = { λ a. record { number = a.number; value = a.value.now } };
}

/// A message whose parts are lent.
#[derive(Drop)]
pub struct LentMessage<'a> {
    pub kind: Kind,
    pub code: u8,
    pub mid: u16,
    pub token: &'a [u8],
    /// In the order of their numbers.
    pub options: Options<'a>,
    pub payload: &'a [u8],
}

impl<'a> Model for LentMessage<'a> {
    ghost use Rattle.lw_coap.specs.Message.{MessageContent};

    ghost Value = { MessageContent };

    ghost view = { λ a. record {
      kind = a.kind;
      code = a.code;
      mid = a.mid;
      token = a.token.now;
      options = a.options;
      payload = a.payload.now;
    } };
}

/// A message that lies in a datagram: of its parts the list of options alone takes memory.
#[derive(Drop)]
pub struct DecodedMessage<'a> {
    pub kind: Kind,
    pub code: u8,
    pub mid: u16,
    pub token: &'a [u8],
    /// In the order of their numbers.
    pub options: Vec<LentOption<'a>>,
    pub payload: &'a [u8],
}

impl<'a> Model for DecodedMessage<'a> {
    ghost use Rattle.lw_coap.specs.Message.{MessageContent};

    ghost Value = { MessageContent };

    ghost view = { λ a. record {
      kind = a.kind;
      code = a.code;
      mid = a.mid;
      token = a.token.now;
      options = a.options.items;
      payload = a.payload.now;
    } };
}

impl<'a> DecodedMessage<'a> {
    /// The message, lent. It takes no memory.
    pub fn lend(&self) -> LentMessage<'_>
        ensures { result ≡ self.now }
    {
        LentMessage {
            kind: self.kind,
            code: self.code,
            mid: self.mid,
            token: self.token,
            options: Options::lent(self.options.as_slice()),
            payload: self.payload,
        }
    }

    /// The message with parts of its own.
    pub fn own(&self, alloc: Global) -> Result<Message, NoMemory>
        ensures { IfOk result (λ own. own ≡ self.now) }
    {
        Ok(Message {
            kind: self.kind,
            code: self.code,
            mid: self.mid,
            token: Vec::from_slice(alloc, self.token)?,
            options: own_options(alloc, &self.options)?,
            payload: Vec::from_slice(alloc, self.payload)?,
        })
    }
}

/// The options with values of their own.
fn own_options(alloc: Global, options: &[LentOption<'_>]) -> Result<Vec<CoapOption>, NoMemory>
    ensures { IfOk result (λ own. own.items ≡ options.now) }
{
    let mut own = Vec::with_capacity(alloc, options.len())?;
    for option in options {
        own.push(CoapOption {
            number: option.number,
            value: Vec::from_slice(alloc, option.value)?,
        })?;
    }
    Ok(own)
}
