mod refused;

use lw_coap::*;
use std::alloc::Global;
use std::process::Abort;

/// A confirmable POST to /rd with a token, queries and a payload.
const REGISTER: [u8; 41] = [
    0x44, 0x02, 0x00, 0x01, 0x01, 0x02, 0x03, 0x04, 0xb2, 0x72, 0x64, 0x11, 0x28, 0x34, 0x65, 0x70,
    0x3d, 0x61, 0x05, 0x6c, 0x74, 0x3d, 0x36, 0x30, 0x09, 0x6c, 0x77, 0x6d, 0x32, 0x6d, 0x3d, 0x31,
    0x2e, 0x31, 0xff, 0x3c, 0x2f, 0x33, 0x2f, 0x30, 0x3e,
];

/// Writes the message as these bytes.
fn writes(rt: &impl Abort, alloc: Global, message: &Message, bytes: &[u8]) {
    assert!(rt; message.fits(), "{bytes:?}");
    let written = encode(alloc, message).expect(rt, "memory");
    assert!(rt; written.as_slice() == bytes, "{bytes:?}");
}

/// The message that the bytes are read as.
fn read(rt: &impl Abort, alloc: Global, bytes: &[u8]) -> Message {
    decode(alloc, bytes).expect(rt, "a message")
}

/// The length of the token, the number of options, the number of the last option and the length of its value, and the
/// length of the payload.
type Shape = [usize; 5];

fn shape(message: &Message) -> Shape {
    let (number, len) = match message.options.last() {
        None => (0, 0),
        Some(option) => (usize::from(option.number), option.value.len()),
    };
    let options = message.options.len();
    [
        message.token.len(),
        options,
        number,
        len,
        message.payload.len(),
    ]
}

/// Whether the bytes end with what the message has last.
fn is_last(message: &Message, bytes: &[u8]) -> bool {
    if !message.payload.is_empty() {
        return bytes.ends_with(&message.payload);
    }
    match message.options.last() {
        None => bytes.ends_with(&message.token),
        Some(option) => bytes.ends_with(&option.value),
    }
}

/// The bytes are read as a message of the shape, and written again.
fn spells(rt: &impl Abort, alloc: Global, bytes: &[u8], wanted: Shape) {
    let message = read(rt, alloc, bytes);
    assert!(rt; shape(&message) == wanted, "{wanted:?}");
    assert!(rt; is_last(&message, bytes), "{wanted:?}");
    writes(rt, alloc, &message, bytes);
}

/// A confirmable GET with no token.
const GET: &[u8] = &[0x40, 0x01, 0x12, 0x34];

/// The header, these bytes behind it, and then so many that count up.
fn datagram(rt: &impl Abort, alloc: Global, header: &[u8], front: &[u8], count: usize) -> Vec<u8> {
    let mut bytes = Vec::from_slice(alloc, header).expect(rt, "memory");
    bytes.extend_from_slice(front).expect(rt, "memory");
    for i in 0..count {
        bytes.push((i % 251) as u8).expect(rt, "memory");
    }
    bytes
}

/// The numbers and the values of the options of `REGISTER`.
static REGISTER_OPTIONS: [(u16, &[u8]); 5] = [
    (11, b"rd"),
    (12, b"("),
    (15, b"ep=a"),
    (15, b"lt=60"),
    (15, b"lwm2m=1.1"),
];

/// Deltas of 0, 0, 12, 13, 268, 269 and 64973.
const HEADS: &[u8] = b"\x40\x01\x12\x34\x00\x00\xc0\xd0\x00\xd0\xff\xe0\x00\x00\xe0\xfc\xc0";

/// The numbers of the options of `HEADS`, which have no values.
static NUMBERED: [(u16, &[u8]); 7] = [
    (0, b""),
    (0, b""),
    (12, b""),
    (25, b""),
    (293, b""),
    (562, b""),
    (65535, b""),
];

fn have_values(options: &Options<'_>, wanted: &[(u16, &[u8])]) -> bool {
    let mut rest = options.walk();
    for (number, value) in wanted {
        let Some(option) = rest.next() else {
            return false;
        };
        if option.number != *number || option.value != *value {
            return false;
        }
    }
    rest.next().is_none()
}

fn is_register(message: &LentMessage<'_>) -> bool {
    message.kind == Kind::Con
        && message.code == 2
        && message.mid == 1
        && message.token == b"\x01\x02\x03\x04".as_slice()
        && message.payload == b"</3/0>".as_slice()
        && have_values(&message.options, &REGISTER_OPTIONS)
}

/// Tries: decode, Message::fits, Message::lend, Options::owned, Options::walk
#[test]
fn a_register_is_read_and_written(rt: HostRuntime) {
    let mut message = read(&rt, rt.alloc(), &REGISTER);
    assert!(rt; is_register(&message.lend()));
    writes(&rt, rt.alloc(), &message, &REGISTER);
    message.code = 0;
    assert!(rt; !message.fits(), "code 0.00 with more does not fit");
}

/// Tries: decode_lent, DecodedMessage::lend, DecodedMessage::own, Options::lent, Options::next
#[test]
fn a_register_is_read_where_it_lies(rt: HostRuntime) {
    let message = decode_lent(rt.alloc(), &REGISTER).expect(&rt, "a message");
    assert!(rt; is_register(&message.lend()));
    let own = message.own(rt.alloc()).expect(&rt, "memory");
    assert!(rt; is_register(&own.lend()), "its own");
}

/// Tries: decode, decode_lent
#[test]
fn numbers_add_up(rt: HostRuntime) {
    let message = read(&rt, rt.alloc(), HEADS);
    assert!(rt; have_values(&message.lend().options, &NUMBERED));
    let lent = decode_lent(rt.alloc(), HEADS).expect(&rt, "a message");
    assert!(rt; have_values(&lent.lend().options, &NUMBERED), "lent");
}

/// The fault of so many bytes of `REGISTER`, or none.
fn fault_of_front(len: usize) -> Option<Fault> {
    match len {
        0..=3 => Some(Fault::Short),
        // between two parts, or inside the payload
        8 | 11 | 13 | 18 | 24 | 34 | 36..=41 => None,
        35 => Some(Fault::EmptyPayload),
        _ => Some(Fault::Truncated),
    }
}

/// Datagrams of no message, and why they are none.
static FAULTS: [(&[u8], Fault); 24] = [
    (&[], Fault::Short),
    (&[0x40, 0x01, 0x00], Fault::Short),
    // Version 2 too.
    (&[0x80, 0x01, 0x00], Fault::Short),
    (&[0x80, 0x00, 0x00, 0x07], Fault::Version),
    (&[0x00, 0x01, 0x00, 0x01], Fault::Version),
    (&[0xc0, 0x01, 0x00, 0x01], Fault::Version),
    // A token length of 15 too.
    (&[0x8f, 0x00, 0x00, 0x00], Fault::Version),
    (&[0x49, 0x01, 0x00, 0x01], Fault::TokenLength),
    // Code 0.00 with more bytes too.
    (&[0x4f, 0x00, 0x00, 0x00, 0xff], Fault::TokenLength),
    (&[0x40, 0x00, 0x00, 0x07, 0x00], Fault::EmptyMessage),
    // The token is cut too.
    (&[0x41, 0x00, 0x00, 0x07], Fault::EmptyMessage),
    // An empty payload too.
    (&[0x41, 0x00, 0x00, 0x07, 0xff], Fault::EmptyMessage),
    (&[0x42, 0x01, 0x00, 0x01, 0xaa], Fault::Truncated),
    (&[0x40, 0x01, 0x00, 0x01, 0xb2, 0x72], Fault::Truncated),
    (&[0x40, 0x01, 0x00, 0x01, 0xd0], Fault::Truncated),
    (&[0x40, 0x01, 0x00, 0x01, 0xe0, 0x00], Fault::Truncated),
    (&[0x40, 0x01, 0x00, 0x01, 0x0e, 0x00], Fault::Truncated),
    (&[0x40, 0x01, 0x00, 0x01, 0xf3], Fault::OptionHead),
    (
        &[0x40, 0x01, 0x00, 0x01, 0x3f, 0x00, 0x00],
        Fault::OptionHead,
    ),
    // Its length is reserved, and its delta is cut.
    (&[0x40, 0x01, 0x00, 0x01, 0xdf], Fault::OptionHead),
    // Number 65536.
    (
        &[0x40, 0x01, 0x00, 0x01, 0xe0, 0xfe, 0xf3],
        Fault::OptionHead,
    ),
    // Number 65536, and its value is cut.
    (
        &[0x40, 0x01, 0x00, 0x01, 0xe1, 0xfe, 0xf3],
        Fault::OptionHead,
    ),
    // Number 65536, and its extended length is cut.
    (
        &[0x40, 0x01, 0x00, 0x01, 0xed, 0xfe, 0xf3],
        Fault::Truncated,
    ),
    (&[0x40, 0x01, 0x00, 0x01, 0xff], Fault::EmptyPayload),
];

/// Whether the bytes are no message, for this reason or, if it is none, are a message.
fn is_fault(alloc: Global, bytes: &[u8], fault: Option<Fault>) -> bool {
    decode(alloc, bytes).err() == fault && decode_lent(alloc, bytes).err() == fault
}

/// Tries: decode, decode_lent
#[test]
fn faults(rt: HostRuntime) {
    for row in &FAULTS {
        assert!(rt; is_fault(rt.alloc(), row.0, Some(row.1)), "{row:?}");
    }
    for len in 0..42usize {
        assert!(rt;
            is_fault(rt.alloc(), &REGISTER[..len], fault_of_front(len)),
            "at {len}"
        );
    }
}

/// Writes the bytes again as they are, if they are a message.
fn writes_again(rt: &impl Abort, alloc: Global, bytes: &[u8]) {
    match decode(alloc, bytes) {
        Ok(message) => writes(rt, alloc, &message, bytes),
        Err(fault) => assert!(rt; fault != Fault::NoMemory, "{bytes:?}"),
    }
}

/// Tries: decode
#[test]
fn each_byte_of_a_register_is_changed(rt: HostRuntime) {
    for place in 0..41usize {
        let mut bytes = REGISTER;
        for byte in 0..=255u8 {
            bytes[place] = byte;
            writes_again(&rt, rt.alloc(), &bytes);
        }
    }
}

/// What stands behind the header of a datagram that is too long.
static TOO_LONG: [&[u8]; 3] = [&[0xff, 0], &[0xbe, 0x1e, 0xec, 0], &[0x01, 0x02, 0xff]];

/// Headers of versions 1 and 2.
static VERSIONS: [&[u8]; 2] = [GET, &[0x80, 0x01, 0x12, 0x34]];

/// Looks at datagrams of 8,193 bytes.
///
/// Tries: decode
#[test]
fn too_long(rt: HostRuntime) {
    for head in &TOO_LONG {
        for header in &VERSIONS {
            let mut bytes = datagram(&rt, rt.alloc(), header, head, 8193);
            bytes.truncate(8193);
            assert_eq!(rt; bytes.len(), 8193);
            assert!(rt;
                is_fault(rt.alloc(), &bytes, Some(Fault::TooLong)),
                "{header:?}, {head:?}"
            );
        }
    }
}

/// Datagrams, and the shapes of their messages.
static MESSAGES: [(&[u8], Shape); 14] = [
    (&REGISTER, [4, 5, 15, 9, 6]),
    (&[0x40, 0x01, 0x00, 0x01], [0, 0, 0, 0, 0]),
    (&[0x70, 0x00, 0xff, 0xfe], [0, 0, 0, 0, 0]),
    // Number 65535 and an empty value.
    (
        &[0x40, 0x01, 0x00, 0x01, 0xe0, 0xfe, 0xf2],
        [0, 1, 65535, 0, 0],
    ),
    // Number 13 and a value of 13 bytes, behind a token of 8.
    (
        &[
            0x58, 0x45, 0x12, 0x34, 1, 2, 3, 4, 5, 6, 7, 8, 0xdd, 0, 0, 1, 2, 3, 4, 5, 6, 7, 8, 9,
            10, 11, 12, 13, 0xff, 0xff,
        ],
        [8, 1, 13, 13, 1],
    ),
    // each length of a token
    (&[0x40, 0x45, 0x00, 0x01], [0, 0, 0, 0, 0]),
    (&[0x41, 0x45, 0x00, 0x01, 9], [1, 0, 0, 0, 0]),
    (&[0x42, 0x45, 0x00, 0x01, 9, 8], [2, 0, 0, 0, 0]),
    (&[0x43, 0x45, 0x00, 0x01, 9, 8, 7], [3, 0, 0, 0, 0]),
    (&[0x44, 0x45, 0x00, 0x01, 9, 8, 7, 6], [4, 0, 0, 0, 0]),
    (&[0x45, 0x45, 0x00, 0x01, 9, 8, 7, 6, 5], [5, 0, 0, 0, 0]),
    (&[0x46, 0x45, 0x00, 0x01, 9, 8, 7, 6, 5, 4], [6, 0, 0, 0, 0]),
    (
        &[0x47, 0x45, 0x00, 0x01, 9, 8, 7, 6, 5, 4, 3],
        [7, 0, 0, 0, 0],
    ),
    (
        &[0x48, 0x45, 0x00, 0x01, 9, 8, 7, 6, 5, 4, 3, 2],
        [8, 0, 0, 0, 0],
    ),
];

/// What stands behind the header, how many bytes count up behind it, and the shape of the message.
static BOUNDS: [(&[u8], usize, Shape); 25] = [
    (&[0xb0], 0, [0, 1, 11, 0, 0]),
    (&[0xbc], 12, [0, 1, 11, 12, 0]),
    (&[0xbd, 0x00], 13, [0, 1, 11, 13, 0]),
    (&[0xbd, 0x01], 14, [0, 1, 11, 14, 0]),
    (&[0xbd, 0xff], 268, [0, 1, 11, 268, 0]),
    (&[0xbe, 0x00, 0x00], 269, [0, 1, 11, 269, 0]),
    (&[0xbe, 0x00, 0x01], 270, [0, 1, 11, 270, 0]),
    (&[0xbe, 0x1e, 0x33], 8000, [0, 1, 11, 8000, 0]),
    // The message has 8,192 bytes.
    (&[0xbe, 0x1e, 0xec], 8185, [0, 1, 11, 8185, 0]),
    (&[0x01], 1, [0, 1, 0, 1, 0]),
    (&[0xc0], 0, [0, 1, 12, 0, 0]),
    (&[0xd0, 0x00], 0, [0, 1, 13, 0, 0]),
    (&[0xd1, 0x01], 1, [0, 1, 14, 1, 0]),
    (&[0xd0, 0xff], 0, [0, 1, 268, 0, 0]),
    (&[0xe0, 0x00, 0x00], 0, [0, 1, 269, 0, 0]),
    (&[0xe1, 0x00, 0x01], 1, [0, 1, 270, 1, 0]),
    (&[0xe0, 0xfe, 0xf2], 0, [0, 1, 65535, 0, 0]),
    (&[0xed, 0xfe, 0xf2, 0xff], 268, [0, 1, 65535, 268, 0]),
    // The message has 8,192 bytes.
    (
        &[0xee, 0xfe, 0xf2, 0x1e, 0xea],
        8183,
        [0, 1, 65535, 8183, 0],
    ),
    (&[0xff], 1, [0, 0, 0, 0, 1]),
    (&[0xff], 12, [0, 0, 0, 0, 12]),
    (&[0xff], 255, [0, 0, 0, 0, 255]),
    (&[0xff], 256, [0, 0, 0, 0, 256]),
    (&[0xff], 1024, [0, 0, 0, 0, 1024]),
    (&[0xff], 8187, [0, 0, 0, 0, 8187]),
];

/// The last message has as many options as one can have.
///
/// Tries: decode, encode
#[test]
fn messages(rt: HostRuntime) {
    for (bytes, shape) in &MESSAGES {
        spells(&rt, rt.alloc(), bytes, *shape);
    }
    for (front, count, shape) in &BOUNDS {
        let bytes = datagram(&rt, rt.alloc(), GET, front, *count);
        spells(&rt, rt.alloc(), &bytes, *shape);
    }
    let bytes = datagram(&rt, rt.alloc(), GET, &[0; 8188], 0);
    spells(&rt, rt.alloc(), &bytes, [0, 8188, 0, 0, 0]);
}

/// Whether the options have values of one byte that count up, and numbers so much apart.
fn are_options(options: &[CoapOption], delta: u64, count: usize) -> bool {
    let mut number = 0u64;
    for (i, option) in options.iter().enumerate() {
        number = number.saturating_add(delta);
        let value = [(i % 251) as u8];
        if option.number as u64 != number || option.value.as_slice() != value.as_slice() {
            return false;
        }
    }
    options.len() == count
}

/// Options of one byte each, every one with this head, are read and written again.
fn spells_options(rt: &impl Abort, alloc: Global, head: u8, delta: u64, count: usize) {
    let mut bytes = Vec::from_slice(alloc, GET).expect(rt, "memory");
    for i in 0..count {
        bytes
            .extend_from_slice(&[head, (i % 251) as u8])
            .expect(rt, "memory");
    }
    let message = read(rt, alloc, &bytes);
    assert!(rt;
        are_options(&message.options, delta, count),
        "{head}, {count}"
    );
    writes(rt, alloc, &message, &bytes);
}

/// The head of each option, how far apart they are, and how many. The last three messages have 8,192 bytes.
static RUNS: [(u8, u64, usize); 6] = [
    (0x11, 1, 2),
    (0xb1, 11, 5),
    (0xc1, 12, 300),
    (0x01, 0, 4094),
    (0x11, 1, 4094),
    (0xc1, 12, 4094),
];

/// Tries: decode, encode
#[test]
fn many_options(rt: HostRuntime) {
    for (head, delta, count) in &RUNS {
        spells_options(&rt, rt.alloc(), *head, *delta, *count);
    }
}

/// Bytes, and the numbers that they spell.
static NUMBERS: [(&[u8], Option<u32>); 7] = [
    (&[], Some(0)),
    (&[40], Some(40)),
    (&[0, 40], Some(40)),
    (&[1, 0, 2], Some(65538)),
    (&[1, 2, 3, 4], Some(16909060)),
    (&[255, 255, 255, 255], Some(4294967295)),
    (&[0, 0, 0, 0, 1], None),
];

/// Datagrams, and their headers.
static HEADERS: [(&[u8], Option<(Kind, u8, u16)>); 7] = [
    (&REGISTER, Some((Kind::Con, 2, 1))),
    (&[0x5f, 0x45, 0x12, 0x34], Some((Kind::Non, 0x45, 0x1234))),
    (&[0x60, 0x00, 0x00, 0x07, 9], Some((Kind::Ack, 0, 7))),
    (&[0x70, 0x00, 0x01, 0x00], Some((Kind::Rst, 0, 256))),
    (&[0x40, 0x01, 0x00], None),
    (&[0x80, 0x01, 0x00, 0x01], None),
    (&[0x00, 0x01, 0x00, 0x01], None),
];

/// Tries: uint, peek_header
#[test]
fn numbers_and_headers(rt: HostRuntime) {
    for (bytes, number) in &NUMBERS {
        assert!(rt; uint(bytes) == *number, "{number:?}");
    }
    for (bytes, header) in &HEADERS {
        assert!(rt; peek_header(bytes) == *header, "{header:?}");
    }
}
