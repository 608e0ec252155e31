//! Notifications in blocks, of which the rest is fetched (RFC 7959, sections 2.4, 2.6, 2.7 and 3.4).

/// A confirmable notification: its message ID, the value of its Block2, and how many bytes of payload it has.
macro_rules! told_of {
    ($mid:expr, $block:expr, $len:expr) => {
        Came {
            mid: $mid,
            block: Some($block),
            len: $len,
            ..TOLD_OF
        }
    };
}

/// An answer in the acknowledgement of a request, in the same way.
macro_rules! answer {
    ($mid:expr, $block:expr, $len:expr) => {
        Came {
            mid: $mid,
            block: Some($block),
            len: $len,
            ..ANSWER
        }
    };
}

mod courses;
mod example;
mod limits;
mod refused;
mod tokens;

use crate::moments::at;
use lw_messaging::{Fetches, Parcel};
use lw_reg::{Addr, Path, Watch};
use lw_stamp::Stamp;
use std::alloc::{AllocError, Global};
use std::process::Abort;

const HOST_A: Addr = Addr::V4 {
    address: [192, 0, 2, 1],
    port: 5683,
};

const HOST_B: Addr = Addr::V4 {
    address: [192, 0, 2, 2],
    port: 5683,
};

/// The type of a message in the upper half of its first byte.
const CON: u8 = 0x40;

const NON: u8 = 0x50;

const ACK: u8 = 0x60;

const RST: u8 = 0x70;

const CONTENT: u8 = 0x45;

const NOT_FOUND: u8 = 0x84;

/// The token of an observation: counter 7, node 1.
const TOKEN: [u8; 8] = [0, 0, 0, 0, 0, 7, 0, 1];

/// The token of another.
const OTHER_TOKEN: [u8; 8] = [0, 0, 0, 0, 0, 8, 0, 1];

/// The tokens of the first fetches, whose numbers count on from 5.
const FIFTH: [u8; 4] = [0, 0, 0, 5];

const SIXTH: [u8; 4] = [0, 0, 0, 6];

/// The fetches begin with number 5.
fn fetches(alloc: Global) -> Fetches {
    Fetches::new(alloc, at(5))
}

/// What is observed under a token of eight bytes: `/3/0`, with Accept 110.
fn watch_of(token: [u8; 8]) -> Option<Watch> {
    let token = Stamp::from_bytes(token)?;
    let path = Path::new(&[3, 0])?;
    Some(Watch {
        token,
        path,
        accept: Some(110),
    })
}

/// The watch that a message with the token comes with.
fn watch_for(token: &[u8]) -> Option<Watch> {
    if token == TOKEN.as_slice() {
        watch_of(TOKEN)
    } else if token == OTHER_TOKEN.as_slice() {
        watch_of(OTHER_TOKEN)
    } else {
        None
    }
}

/// A response as it comes: its type, code, message ID and token, an ETag if it has bytes, an Observe of one byte in a
/// notification, a Block2 if there is one, and so many bytes of payload, which begin with the message ID's.
#[derive(Clone, Copy)]
struct Came {
    kind: u8,
    code: u8,
    mid: u8,
    token: &'static [u8],
    etag: &'static [u8],
    block: Option<u16>,
    len: usize,
}

/// A confirmable notification without a block.
const TOLD_OF: Came = Came {
    kind: CON,
    code: CONTENT,
    mid: 0,
    token: &TOKEN,
    etag: b"e",
    block: None,
    len: 0,
};

/// An answer in the acknowledgement of a request, without a block.
const ANSWER: Came = Came {
    kind: ACK,
    token: &FIFTH,
    ..TOLD_OF
};

/// The number of the last option in bytes.
type Last = u8;

/// An option whose number is less than 269 above the last one, of at most 12 bytes.
fn put_option(
    bytes: &mut Vec<u8>,
    last: Last,
    number: u8,
    value: &[u8],
) -> Result<Last, AllocError> {
    let delta = number.saturating_sub(last);
    let len = (value.len() % 13) as u8;
    if delta < 13 {
        bytes.push(delta * 16 + len)?;
    } else {
        bytes.push(13 * 16 + len)?;
        bytes.push(delta - 13)?;
    }
    bytes.extend_from_slice(value)?;
    Ok(number)
}

/// A Block2, in the fewest bytes.
fn put_block(bytes: &mut Vec<u8>, last: Last, value: u16) -> Result<(), AllocError> {
    let [high, low] = value.to_be_bytes();
    if value == 0 {
        put_option(bytes, last, 23, &[])?;
    } else if high == 0 {
        put_option(bytes, last, 23, &[low])?;
    } else {
        put_option(bytes, last, 23, &[high, low])?;
    }
    Ok(())
}

/// Bytes that tell payloads apart.
fn put_payload(bytes: &mut Vec<u8>, mid: u8, len: usize) -> Result<(), AllocError> {
    for place in 0..len {
        bytes.push(mid ^ (place % 251) as u8)?;
    }
    Ok(())
}

/// The first four bytes, and the token.
fn head(alloc: Global, kind: u8, code: u8, mid: u8, token: &[u8]) -> Result<Vec<u8>, AllocError> {
    let first = kind | (token.len() % 16) as u8;
    let mut bytes = Vec::from_slice(alloc, &[first, code, 0, mid])?;
    bytes.extend_from_slice(token)?;
    Ok(bytes)
}

/// An ETag (4), and an Observe (6) of 9 in a notification.
fn put_options(bytes: &mut Vec<u8>, token: &[u8], etag: &[u8]) -> Result<Last, AllocError> {
    let mut last = 0;
    if !etag.is_empty() {
        last = put_option(bytes, last, 4, etag)?;
    }
    if token.len() == TOKEN.len() {
        last = put_option(bytes, last, 6, &[9])?;
    }
    Ok(last)
}

fn datagram(alloc: Global, came: &Came) -> Result<Vec<u8>, AllocError> {
    let mut bytes = head(alloc, came.kind, came.code, came.mid, came.token)?;
    let last = put_options(&mut bytes, came.token, came.etag)?;
    if let Some(value) = came.block {
        put_block(&mut bytes, last, value)?;
    }
    if came.len > 0 {
        bytes.push(0xff)?;
        put_payload(&mut bytes, came.mid, came.len)?;
    }
    Ok(bytes)
}

/// So many bytes of payload, of the response with the message ID.
type Part = (u8, usize);

/// What comes of a datagram.
#[derive(Clone, Copy)]
enum Given<'a> {
    /// It passes.
    Through,
    /// The Block2 of the request, in the fetch with the number.
    Asks(u16, u8),
    /// A message of these parts, and whether it is complete.
    Whole(&'a [Part], bool),
    /// The notification without its Block2, which nothing acknowledges.
    Made,
}

/// A GET of `/3/0` with Accept 110, as a fetch asks.
fn request(alloc: Global, number: u8, block: u16) -> Result<Vec<u8>, AllocError> {
    let mut bytes = head(alloc, CON, 0x01, 0, &[0, 0, 0, number])?;
    bytes.extend_from_slice(b"\xb13\x010\x61\x6e")?;
    put_block(&mut bytes, 17, block)?;
    Ok(bytes)
}

/// What the store is told: a non-confirmable 2.05 with message ID 0, the token, and the Observe.
fn told(alloc: Global, token: &[u8], parts: &[Part]) -> Result<Vec<u8>, AllocError> {
    let mut bytes = head(alloc, NON, CONTENT, 0, token)?;
    put_options(&mut bytes, token, &[])?;
    if parts.iter().any(|(_, len)| *len > 0) {
        bytes.push(0xff)?;
    }
    for (mid, len) in parts {
        put_payload(&mut bytes, *mid, *len)?;
    }
    Ok(bytes)
}

/// The acknowledgement of a confirmable message is an empty one with its message ID.
fn is_acknowledged(came: &Came, acknowledgement: Option<&Vec<u8>>) -> bool {
    match acknowledgement {
        Some(bytes) => came.kind == CON && bytes.as_slice() == [0x60, 0, 0, came.mid].as_slice(),
        None => came.kind != CON,
    }
}

fn is_given(
    alloc: Global,
    came: &Came,
    parcel: &Parcel,
    given: Given<'_>,
) -> Result<bool, AllocError> {
    match (parcel, given) {
        (Parcel::Through, Given::Through) => Ok(true),
        (
            Parcel::Taken {
                acknowledgement,
                request: asked,
                fetch,
            },
            Given::Asks(block, number),
        ) => Ok(
            is_acknowledged(came, acknowledgement.as_ref())
                && *asked == request(alloc, number, block)?
                && *fetch == u32::from(number),
        ),
        (
            Parcel::Whole {
                acknowledgement,
                message,
                is_complete,
            },
            Given::Whole(parts, complete),
        ) => Ok(
            is_acknowledged(came, acknowledgement.as_ref())
                && *message == told(alloc, &TOKEN, parts)?
                && *is_complete == complete,
        ),
        (
            Parcel::Whole {
                acknowledgement: None,
                message,
                is_complete: true,
            },
            Given::Made,
        ) => is_without_block(alloc, came, message),
        _ => Ok(false),
    }
}

/// Whether a message is the datagram that came, without its block.
fn is_without_block(alloc: Global, came: &Came, message: &[u8]) -> Result<bool, AllocError> {
    let whole = Came {
        block: None,
        ..*came
    };
    let wanted = datagram(alloc, &whole)?;
    Ok(message == wanted.as_slice())
}

/// What comes, when in milliseconds and from where, and what it is given. A message with the token of an observation
/// comes with its watch.
type Row<'a> = (u64, Addr, Came, Given<'a>);

/// What becomes of a datagram that comes at a moment from an address.
fn take(
    rt: &impl Abort,
    fetches: &mut Fetches,
    when: (u64, Addr),
    watch: Option<Watch>,
    bytes: &[u8],
) -> Parcel {
    let (ms, from) = when;
    let taken = fetches.take(at(ms), from, watch, bytes);
    taken.expect(rt, "memory")
}

/// Takes a message of a course with this name, which has to be given what its row says.
fn gives(rt: &impl Abort, alloc: Global, fetches: &mut Fetches, name: &str, row: &Row<'_>) {
    let (ms, from, came, given) = row;
    let watch = watch_for(came.token);
    let bytes = datagram(alloc, came).expect(rt, "memory");
    let parcel = take(rt, fetches, (*ms, *from), watch, &bytes);
    let is_so = is_given(alloc, came, &parcel, *given).expect(rt, "memory");
    assert!(rt; is_so, "{name}: {}", came.mid);
}
