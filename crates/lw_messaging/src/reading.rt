ghost use Rattle.std.specs.Prelude.{IfOk};
ghost use Rattle.lw_messaging.specs.inner.Reading.{Spells};

use lw_coap::{DecodedMessage, Fault, Message, decode, decode_lent};
use lw_stamp::NoMemory;
use std::alloc::Global;

/// The message that the bytes spell, if they spell one.
pub(crate) fn read(alloc: Global, bytes: &[u8]) -> Result<Option<Message>, NoMemory>
    ensures { IfOk result (λ message. Spells bytes.now message) }
{
    match decode(alloc, bytes) {
        Ok(message) => Ok(Some(message)),
        Err(fault) => match fault {
            Fault::NoMemory => Err(NoMemory),
            _ => Ok(None),
        },
    }
}

/// The message that the bytes spell, where it lies, if they spell one.
pub(crate) fn read_lent(alloc: Global, bytes: &[u8]) -> Result<Option<DecodedMessage<'_>>, NoMemory>
    ensures { IfOk result (λ message. Spells bytes.now message) }
{
    match decode_lent(alloc, bytes) {
        Ok(message) => Ok(Some(message)),
        Err(fault) => match fault {
            Fault::NoMemory => Err(NoMemory),
            _ => Ok(None),
        },
    }
}
