//! What a datagram is read as where the first try is refused memory.

use super::*;
use crate::hold::holds;
use std::test::Fail;

/// What the bytes are read as. Where that is refused, they are read again.
fn read_in_two_tries(alloc: Global, bytes: &[u8]) -> Result<Message, Fault> {
    match decode(alloc, bytes) {
        Err(Fault::NoMemory) => decode(alloc, bytes),
        read => read,
    }
}

/// Tries: decode
#[test]
fn a_refused_decode_gives_the_message_when_it_is_made_again(rt: HostRuntime) -> Result<(), Fail> {
    let message = read_in_two_tries(rt.alloc(), &REGISTER)?;
    holds("its parts", is_register(&message.lend()))
}

fn is_read_where_it_lies(alloc: Global, bytes: &[u8]) -> Result<bool, Fault> {
    let message = decode_lent(alloc, bytes)?;
    Ok(is_register(&message.lend()))
}

/// Tries: decode_lent
#[test]
fn a_refused_decode_lent_gives_the_message_when_it_is_made_again(
    rt: HostRuntime,
) -> Result<(), Fail> {
    let is_read = match is_read_where_it_lies(rt.alloc(), &REGISTER) {
        Err(Fault::NoMemory) => is_read_where_it_lies(rt.alloc(), &REGISTER)?,
        read => read?,
    };
    holds("its parts", is_read)
}
