//! The payload of a Register or an Update.

ghost use Rattle.std.specs.Prelude.{IfOk, IfErr};
ghost use Rattle.lw_request.specs.Objects.{IsObjectList};
ghost use Rattle.lw_request.specs.inner.Objects.{IsUnread};

use crate::{Asked, Refusal};
use lw_coap::MAX_LENGTH;
use lw_link::{LinkFault, LinkText};
use lw_stamp::NoMemory;
use std::alloc::Global;

/// Why a payload was not read as an object list.
#[derive(Clone, Copy)]
pub(crate) enum Unread {
    /// More links than a list has, or more bytes than a datagram.
    TooLarge,
    /// No list of links.
    NoLinks,
    /// A growth was refused. The payload is an object list.
    NoMemory,
}

impl Unread {
    ghost use Rattle.lw_request.specs.inner.Meaning.{UnreadAsks};

    /// What a POST asks for whose payload was not read.
    pub(crate) fn asked(self) -> Result<Asked, NoMemory>
        ensures { UnreadAsks self result }
    {
        match self {
            Unread::TooLarge => Ok(Asked::Refuse(Refusal::RequestEntityTooLarge)),
            Unread::NoLinks => Ok(Asked::Refuse(Refusal::BadRequest)),
            Unread::NoMemory => Err(NoMemory),
        }
    }
}

/// The object list of a payload. Each fault but `NoMemory` is found before any memory is taken.
pub(crate) fn read_objects(alloc: Global, payload: &[u8]) -> Result<LinkText, Unread>
    ensures found { IfOk result (IsObjectList payload.now) }
    ensures unread { IfErr result (IsUnread payload.now) }
{
    if payload.len() > MAX_LENGTH {
        return Err(Unread::TooLarge);
    }
    match LinkText::read(alloc, payload) {
        Ok(objects) => Ok(objects),
        Err(LinkFault::NotText) => Err(Unread::NoLinks),
        Err(LinkFault::Grammar { .. }) => Err(Unread::NoLinks),
        Err(LinkFault::TooMany) => Err(Unread::TooLarge),
        Err(LinkFault::NoMemory) => Err(Unread::NoMemory),
    }
}
