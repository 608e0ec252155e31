//! Bodies in blocks, as RFC 7959 has them (sections 2.2, 2.3, 2.5, 2.9 and 3.2).

/// A confirmable block of the Register: its message ID, the value of its Block1, and how many bytes of payload it has.
macro_rules! con {
    ($mid:expr, $block:expr, $len:expr) => {
        Post {
            first: CON,
            mid: $mid,
            options: REGISTER,
            block: $block,
            len: $len,
        }
    };
}

mod refused;
mod walks;

use crate::moments::at;
use lw_messaging::{Block, Bodies, Piece, with_block};
use lw_reg::Addr;
use std::alloc::{AllocError, Global};
use std::process::Abort;

const HOST_A: Addr = Addr::V4 {
    address: [192, 0, 2, 1],
    port: 5683,
};

/// The host A as an IPv6 address.
const HOST_A6: Addr = Addr::V6 {
    address: [0, 0, 0, 0, 0, 0, 0, 0, 0, 0, 255, 255, 192, 0, 2, 1],
    port: 5683,
};

/// The first byte of a confirmable message with a token of two bytes, of a non-confirmable one, and of an
/// acknowledgement.
const CON: u8 = 0x42;

const NON: u8 = 0x52;

const ACK: u8 = 0x62;

/// The options of a Register: Uri-Path `rd`, Content-Format 40, Uri-Query `ep=a`.
const REGISTER: &[u8] = b"\xb2rd\x11\x28\x34ep=a";

/// With another Uri-Query, `ep=b`.
const OTHER_REGISTER: &[u8] = b"\xb2rd\x11\x28\x34ep=b";

/// A POST as it comes: the first byte, the message ID, the options, then a Block1 of one byte, and so many bytes.
#[derive(Clone, Copy)]
struct Post {
    first: u8,
    mid: u8,
    options: &'static [u8],
    block: u8,
    len: usize,
}

/// The payload of a block: bytes that tell blocks apart.
fn put_payload(bytes: &mut Vec<u8>, mid: u8, len: usize) -> Result<(), AllocError> {
    for place in 0..len {
        bytes.push(mid ^ (place % 251) as u8)?;
    }
    Ok(())
}

/// The bytes up to the options that come last.
fn head(alloc: Global, post: &Post) -> Result<Vec<u8>, AllocError> {
    let mut bytes = Vec::from_slice(alloc, &[post.first, 0x02, 0x10, post.mid, 0xa1, 0xb2])?;
    bytes.extend_from_slice(post.options)?;
    Ok(bytes)
}

/// The datagram: Block1 is 12 above Uri-Query, and has one byte.
fn datagram(alloc: Global, post: &Post) -> Result<Vec<u8>, AllocError> {
    let mut bytes = head(alloc, post)?;
    bytes.extend_from_slice(&[0xc1, post.block])?;
    if post.len > 0 {
        bytes.push(0xff)?;
        put_payload(&mut bytes, post.mid, post.len)?;
    }
    Ok(bytes)
}

/// What comes of a datagram.
#[derive(Clone, Copy)]
enum Given {
    /// It passes.
    Through,
    /// 2.31 with the Block1 of the request.
    Continue,
    /// 4.00.
    BadRequest,
    /// 4.08.
    Incomplete,
    /// 4.13 with a Size1 of 8,192.
    TooLarge,
    /// The whole message, with so many bytes of payload.
    Whole(usize),
}

/// The code of the answer.
fn code_of(given: Given) -> u8 {
    match given {
        Given::Continue => 0x5f,
        Given::BadRequest => 0x80,
        Given::Incomplete => 0x88,
        _ => 0x8d,
    }
}

/// The answer in bytes: with a Block1 27 above 0 (13 and 14), or a Size1 60 above 0 (13 and 47).
fn answer(alloc: Global, post: &Post, given: Given) -> Result<Vec<u8>, AllocError> {
    let first = if post.first == CON { ACK } else { NON };
    let code = code_of(given);
    let mut bytes = Vec::from_slice(alloc, &[first, code, 0x10, post.mid, 0xa1, 0xb2])?;
    match given {
        Given::Continue => bytes.extend_from_slice(&[0xd1, 0x0e, post.block])?,
        Given::BadRequest | Given::Incomplete => {}
        _ => bytes.extend_from_slice(&[0xd2, 0x2f, 0x20, 0x00])?,
    }
    Ok(bytes)
}

/// Whether the message is that of the block without its Block1, with so many bytes of payload.
fn is_whole(alloc: Global, post: &Post, message: &[u8], len: usize) -> Result<bool, AllocError> {
    let mut front = head(alloc, post)?;
    if len > 0 {
        front.push(0xff)?;
    }
    let mut last = Vec::new(alloc);
    put_payload(&mut last, post.mid, post.len)?;
    let is_long = message.len() == front.len().saturating_add(len);
    Ok(is_long && message.starts_with(&front) && message.ends_with(&last))
}

fn is_given(alloc: Global, post: &Post, piece: &Piece, given: Given) -> Result<bool, AllocError> {
    match (piece, given) {
        (Piece::Through, Given::Through) => Ok(true),
        (Piece::Whole { message, block }, Given::Whole(len)) => {
            let is_block = block.number() == u32::from(post.block) / 16;
            Ok(is_block && is_whole(alloc, post, message, len)?)
        }
        (Piece::Answered(bytes), Given::Whole(_) | Given::Through) => Ok(bytes.is_empty()),
        (Piece::Answered(bytes), given) => Ok(*bytes == answer(alloc, post, given)?),
        _ => Ok(false),
    }
}

/// A block that comes, when in milliseconds and from where, and what it is given.
type Row = (u64, Addr, Post, Given);

/// What becomes of a datagram.
fn take(rt: &impl Abort, bodies: &mut Bodies, ms: u64, from: Addr, bytes: &[u8]) -> Piece {
    bodies.take(at(ms), from, bytes).expect(rt, "memory")
}

/// Takes a block of a course with this name, which has to be given what its row says.
fn gives(rt: &impl Abort, alloc: Global, bodies: &mut Bodies, name: &str, row: &Row) {
    let (ms, from, post, given) = row;
    let bytes = datagram(alloc, post).expect(rt, "memory");
    let piece = take(rt, bodies, *ms, *from, &bytes);
    let is_so = is_given(alloc, post, &piece, *given).expect(rt, "memory");
    assert!(rt; is_so, "{name}: {}", post.mid);
}

/// Blocks, and how many bodies are kept behind each: one of each of two sources, of which the first is then whole.
static COUNTED: [(Row, usize); 3] = [
    ((0, HOST_A, con!(1, 0x08, 16), Given::Continue), 1),
    ((0, HOST_A6, con!(1, 0x08, 16), Given::Continue), 2),
    ((0, HOST_A, con!(2, 0x10, 3), Given::Whole(19)), 1),
];

/// Tries: Bodies::new, Bodies::count
#[test]
fn bodies_are_counted(rt: HostRuntime) {
    let mut bodies = Bodies::new(rt.alloc());
    assert!(rt; bodies.count() == 0);
    for (row, count) in &COUNTED {
        gives(&rt, rt.alloc(), &mut bodies, "counted", row);
        assert!(rt; bodies.count() == *count, "{count}");
    }
}

/// A host by its number.
fn host(number: u16) -> Addr {
    Addr::V4 {
        address: [192, 0, 2, (number % 256) as u8],
        port: number.saturating_add(1000),
    }
}

/// What comes behind 1,024 bodies: the number of a host, a block, and what it is given.
static BEHIND_1024: [(u16, Post, Given); 6] = [
    (0, con!(2, 0x18, 16), Given::Continue),
    (1024, con!(3, 0x08, 16), Given::Continue),
    (1, con!(4, 0x10, 3), Given::Incomplete),
    (0, con!(5, 0x20, 3), Given::Whole(35)),
    (2, con!(6, 0x10, 3), Given::Whole(19)),
    (1024, con!(7, 0x10, 3), Given::Whole(19)),
];

/// 1,024 bodies begin, the first goes on, and one more begins: then the second has gone.
/// Tries: Bodies::take
#[test]
fn the_oldest_of_1025_bodies_goes(rt: HostRuntime) {
    let mut bodies = Bodies::new(rt.alloc());
    for number in 0..1024u16 {
        let begins = (0, host(number), con!(1, 0x08, 16), Given::Continue);
        gives(&rt, rt.alloc(), &mut bodies, "of 1,024", &begins);
    }
    for (number, post, given) in &BEHIND_1024 {
        let row = (0, host(*number), *post, *given);
        gives(&rt, rt.alloc(), &mut bodies, "behind 1,024", &row);
    }
}

/// A block of 16 bytes, or a last one of three, of a message with a Uri-Path `rd`, then this option, then so many empty
/// ones.
fn heavy(rt: &impl Abort, alloc: Global, option: &[u8], count: usize, block: u8) -> Vec<u8> {
    let mut bytes = Vec::from_slice(alloc, b"\x42\x02\x10\x01\xa1\xb2\xb2rd").expect(rt, "memory");
    bytes.extend_from_slice(option).expect(rt, "memory");
    for _ in 0..count {
        bytes.push(0x00).expect(rt, "memory");
    }
    let last = [0xd1, 0x03, block, 0xff];
    bytes.extend_from_slice(&last).expect(rt, "memory");
    let len = if block == 0x08 { 16 } else { 3 };
    put_payload(&mut bytes, 1, len).expect(rt, "memory");
    bytes
}

/// How many empty options the last body has behind a Uri-Path of 14 bytes, and whether the first of 16 bodies of 8,000
/// options is still there behind it.
///
/// An option counts for 32 bytes more than its value: a body of 8,000 empty options, `rd` and 16 bytes for 256,050, and
/// 16 of them for 4,096,800. The 97,504 that are left are 34 and 46 for `rd` and a Uri-Path of 14 bytes, 16 for the
/// payload, and 32 for each of 3,044 empty options.
static HEAVY: [(usize, bool); 2] = [(3044, true), (3045, false)];

/// Tries: Bodies::take
#[test]
fn the_oldest_goes_past_4194304_bytes(rt: HostRuntime) {
    let alloc = rt.alloc();
    let first = heavy(&rt, alloc, &[], 8000, 0x08);
    let first_ends = heavy(&rt, alloc, &[], 8000, 0x10);
    for row in &HEAVY {
        let (count, stays) = *row;
        let mut bodies = Bodies::new(alloc);
        for number in 0..16u16 {
            take(&rt, &mut bodies, 0, host(number), &first);
        }
        let last = heavy(&rt, alloc, b"\x0d\x010123456789abcd", count, 0x08);
        let begun = take(&rt, &mut bodies, 0, host(16), &last);
        assert!(rt; matches!(begun, Piece::Answered(_)), "{count}");
        let piece = take(&rt, &mut bodies, 0, host(0), &first_ends);
        assert!(rt; matches!(piece, Piece::Whole { .. }) == stays, "{count}");
    }
}

/// Two blocks and their message. A Size1 of 19, 33 above Block1, is in the first block: the whole message has none.
const BEGINS: &[u8] = b"\x42\x02\x10\x01\xa1\xb2\xb2rd\xd1\x03\x08\xd1\x14\x13\xff0123456789abcdef";

const ENDS: &[u8] = b"\x42\x02\x10\x02\xa1\xb2\xb2rd\xd1\x03\x10\xffxyz";

const WHOLE: &[u8] = b"\x42\x02\x10\x02\xa1\xb2\xb2rd\xff0123456789abcdefxyz";

/// Tries: Bodies::take
#[test]
fn size1_is_none_of_the_body(rt: HostRuntime) {
    let mut bodies = Bodies::new(rt.alloc());
    let first = take(&rt, &mut bodies, 0, HOST_A, BEGINS);
    assert!(rt; matches!(first, Piece::Answered(_)));
    let is_whole = match take(&rt, &mut bodies, 0, HOST_A, ENDS) {
        Piece::Whole { message, .. } => message.as_slice() == WHOLE,
        _ => false,
    };
    assert!(rt; is_whole);
}

/// What has no block of a Register or an Update: no Block1; two; one of four bytes; a GET, a PUT and a DELETE; an
/// acknowledgement and a Reset; a Block2; bytes that are no message.
static PASSING: [&[u8]; 12] = [
    b"\x42\x02\x10\x01\xa1\xb2\xb2rd\xffabc",
    b"\x42\x02\x10\x01\xa1\xb2\xb2rd\xd1\x03\x00\x01\x00",
    b"\x42\x02\x10\x01\xa1\xb2\xb2rd\xd4\x03\x00\x00\x00\x00",
    b"\x42\x01\x10\x01\xa1\xb2\xb2rd\xd1\x03\x00",
    b"\x42\x03\x10\x01\xa1\xb2\xb2rd\xd1\x03\x00",
    b"\x42\x04\x10\x01\xa1\xb2\xb2rd\xd1\x03\x00",
    b"\x62\x02\x10\x01\xa1\xb2\xb2rd\xd1\x03\x00",
    b"\x72\x02\x10\x01\xa1\xb2\xb2rd\xd1\x03\x00",
    b"\x42\x02\x10\x01\xa1\xb2\xb2rd\xc1\x00",
    b"\x82\x02\x10\x01\xa1\xb2\xb2rd\xd1\x03\x00",
    b"\x40\x02\x10",
    b"",
];

/// Tries: Bodies::take
#[test]
fn what_has_no_block_passes(rt: HostRuntime) {
    let mut bodies = Bodies::new(rt.alloc());
    for bytes in &PASSING {
        let piece = take(&rt, &mut bodies, 0, HOST_A, bytes);
        assert!(rt; matches!(piece, Piece::Through), "{bytes:?}");
    }
}

/// A reply, the bytes of a Block1's value, and the reply with it: 2.04 without options; 2.01 with two Location-Path (8)
/// and with a Size1 (60) behind the Block1; values of no byte, of two and of three; an empty acknowledgement and a
/// Reset, and what is no message, stay.
static REPLIES: [(&[u8], &[u8], &[u8]); 8] = [
    (
        b"\x62\x44\x10\x01\xa1\xb2",
        b"\x23",
        b"\x62\x44\x10\x01\xa1\xb2\xd1\x0e\x23",
    ),
    (
        b"\x62\x44\x10\x01\xa1\xb2",
        b"\x00",
        b"\x62\x44\x10\x01\xa1\xb2\xd0\x0e",
    ),
    (
        b"\x62\x44\x10\x01\xa1\xb2",
        b"\x00\x01\x00",
        b"\x62\x44\x10\x01\xa1\xb2\xd2\x0e\x01\x00",
    ),
    (
        b"\x62\x44\x10\x01\xa1\xb2",
        b"\x01\x00\x00",
        b"\x62\x44\x10\x01\xa1\xb2\xd3\x0e\x01\x00\x00",
    ),
    (
        b"\x62\x41\x10\x01\xa1\xb2\x82rd\x01a\xd1\x27\x05",
        b"\x23",
        b"\x62\x41\x10\x01\xa1\xb2\x82rd\x01a\xd1\x06\x23\xd1\x14\x05",
    ),
    (b"\x60\x00\x10\x01", b"\x23", b"\x60\x00\x10\x01"),
    (b"\x70\x00\x10\x01", b"\x23", b"\x70\x00\x10\x01"),
    (b"\x60\x00", b"\x23", b"\x60\x00"),
];

/// Tries: with_block, Block::read
#[test]
fn a_reply_gets_the_block(rt: HostRuntime) {
    for row in &REPLIES {
        let (reply, value, wanted) = *row;
        let block = Block::read(value).expect(&rt, "a block");
        let bytes = with_block(rt.alloc(), reply, block).expect(&rt, "memory");
        assert!(rt; bytes.as_slice() == wanted, "{wanted:?}");
    }
}

/// A reply of 8,188 bytes has room for a Block1 of four, and one of 8,189 has not.
/// Tries: with_block
#[test]
fn a_long_reply_has_no_room(rt: HostRuntime) {
    let block = Block::read(&[0x01, 0x00]).expect(&rt, "a block");
    for (len, more) in [(8188, 4), (8189, 0)] {
        let mut reply = Vec::from_slice(rt.alloc(), b"\x60\x45\x10\x01\xff").expect(&rt, "memory");
        reply.resize(len, 0).expect(&rt, "memory");
        let bytes = with_block(rt.alloc(), &reply, block).expect(&rt, "memory");
        assert!(rt; bytes.len() == len + more, "{len}");
    }
}

/// The values of Block1, and what they say: number, whether more follow, exponent (section 2.2).
static VALUES: [(&[u8], u32, bool, u32); 6] = [
    (b"", 0, false, 0),
    (b"\x0b", 0, true, 3),
    (b"\x26", 2, false, 6),
    (b"\x01\x0f", 16, true, 7),
    (b"\xff\xff\xff", 1_048_575, true, 7),
    (b"\x00\x00\x1a", 1, true, 2),
];

/// Tries: Block::read, Block::number, Block::has_more, Block::exponent
#[test]
fn a_value_says_number_more_and_size(rt: HostRuntime) {
    for row in &VALUES {
        let (value, number, more, exponent) = *row;
        let block = Block::read(value).expect(&rt, "a block");
        assert!(rt; block.number() == number, "{value:?}");
        assert!(rt; block.has_more() == more, "{value:?}");
        assert!(rt; block.exponent() == exponent, "{value:?}");
    }
    assert!(rt; Block::read(&[0, 0, 0, 1]).is_none());
}
