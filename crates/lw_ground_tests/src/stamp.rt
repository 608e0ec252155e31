use crate::hold::text_of;
use lw_stamp::*;
use std::alloc::{AllocError, Global};
use std::process::Abort;

const LAST: u64 = (1 << 48) - 1;

/// Bytes and texts of stamps, their counters and nodes.
static STAMPS: [([u8; 8], &[u8], u64, u16); 5] = [
    ([0, 0, 0, 0, 0, 1, 0, 1], b"0000000000010001", 1, 1),
    ([0, 0, 0, 0, 0, 2, 0, 1], b"0000000000020001", 2, 1),
    (
        [0xff, 0xff, 0xff, 0xff, 0xff, 0xff, 0, 1],
        b"ffffffffffff0001",
        LAST,
        1,
    ),
    ([0, 0, 0, 0, 0, 1, 0, 0], b"0000000000010000", 1, 0),
    (
        [0xff, 0xff, 0xff, 0xff, 0xff, 0xff, 0xff, 0xff],
        b"ffffffffffffffff",
        LAST,
        65535,
    ),
];

/// Texts of no stamp.
static NO_IDENTIFIERS: [&[u8]; 7] = [
    b"",
    b"000000000001000",
    b"00000000000100010",
    b"FFFFFFFFFFFF0001",
    b"000000000001000g",
    b"0000000000000001",
    b"0000000000 10001",
];

fn is_spelled(stamp: Stamp, bytes: [u8; 8], id: &[u8]) -> bool {
    stamp.to_bytes() == bytes
        && Stamp::from_bytes(bytes) == Some(stamp)
        && stamp.id_text().as_slice() == id
        && Stamp::read_id(id) == Some(stamp)
}

/// Tries: Stamp::to_bytes, Stamp::from_bytes, Stamp::id_text, Stamp::read_id
#[test]
fn stamps_have_bytes_and_identifiers(rt: HostRuntime) {
    for row in &STAMPS {
        let (bytes, id, counter, node) = *row;
        assert!(rt; is_spelled(Stamp { counter, node }, bytes, id), "{row:?}");
    }
    for text in &NO_IDENTIFIERS {
        assert!(rt; Stamp::read_id(text).is_none(), "{text:?}");
    }
    assert!(rt;
        Stamp::from_bytes([0, 0, 0, 0, 0, 0, 0, 1]).is_none(),
        "counter 0"
    );
}

const EARLY: Stamp = Stamp {
    counter: 1,
    node: 9,
};

const LATE: Stamp = Stamp {
    counter: 2,
    node: 1,
};

const LATER: Stamp = Stamp {
    counter: 2,
    node: 2,
};

/// Tries: laws::stamps_are_ordered
#[test]
fn the_counter_comes_before_the_node(rt: HostRuntime) {
    laws::stamps_are_ordered();
    assert!(rt; EARLY < LATE, "the counter");
    assert!(rt; LATE < LATER, "the node");
}

/// Tries: Clock::new, Clock::default, Clock::counter, Clock::next, Clock::raise, Moment::new, Moment::ms
/// Tries: laws::moments_have_a_last
#[test]
fn clocks_and_moments_end_below_2_to_the_48(rt: HostRuntime) {
    let mut clock = Clock::new();
    assert!(rt;
        clock == Clock::default() && clock.counter() == 0,
        "it begins"
    );
    let (counter, node) = (1, 7);
    assert!(rt; clock.next(7) == Some(Stamp { counter, node }), "the first");
    clock.raise(5);
    clock.raise(4);
    assert_eq!(rt; clock.counter(), 5, "it is raised");
    clock.raise(LAST);
    assert!(rt;
        clock.next(1).is_none() && clock.counter() == LAST,
        "it ends"
    );
    let last = Moment::new(LAST).expect(&rt, "the last moment");
    assert!(rt; last.ms() == LAST && Moment::START.ms() == 0, "the last");
    assert!(rt; Moment::new(281474976710656).is_none(), "2^48");
}

/// Whether a text is copied and taken over, and has these many bytes.
fn is_kept(rt: &impl Abort, alloc: Global, given: String, len: usize) -> bool {
    let copy = Text::copy_of(alloc, given.as_str()).expect(rt, "memory");
    let is_copy = copy.as_str() == given.as_str() && copy.as_str().len() == len;
    let taken = Text::from(given);
    let is_taken = taken == copy;
    is_copy && is_taken && copy.into_string().as_str() == taken.as_str()
}

/// A character, how many of it, and how many bytes these are.
static TEXTS: [(&str, usize, usize); 12] = [
    ("a", 0, 0),
    ("\0", 1, 1),
    ("a", 63, 63),
    ("\u{e9}", 32, 64),
    ("z", 65, 65),
    ("\u{20ac}", 84, 252),
    ("\u{7f}", 253, 253),
    ("\u{ffff}", 85, 255),
    ("\u{10ffff}", 64, 256),
    ("\u{7ff}", 150, 300),
    ("\"", 8192, 8192),
    ("\u{10000}", 2048, 8192),
];

/// Tries: Text::copy_of, Text::from, Text::as_str, Text::into_string
#[test]
fn texts_keep_their_bytes(rt: HostRuntime) {
    for row in &TEXTS {
        let (part, count, len) = *row;
        let given = text_of(rt.alloc(), &[(part, count)]).expect(&rt, "memory");
        assert!(rt; is_kept(&rt, rt.alloc(), given, len), "{row:?}");
    }
    assert!(rt; NoMemory::from(AllocError) == NoMemory);
}

/// Tries: laws::texts_are_ordered
#[test]
fn texts_compare_by_bytes(rt: HostRuntime) {
    laws::texts_are_ordered();
    for (left, right) in [("a", "ab"), ("ab", "b"), ("a", "b")] {
        let less = Text::copy_of(rt.alloc(), left).expect(&rt, "memory");
        let more = Text::copy_of(rt.alloc(), right).expect(&rt, "memory");
        assert!(rt; less < more && less != more, "{left}, {right}");
    }
}
