use lw_log::{Bytes, Position};
use lw_redis_log::{Arrival, Mark, arrival_in, behind, is_looked_for};
use lw_resp::StreamId;
use std::alloc::{AllocError, Global};

/// The SHA-256 of `abc`, as FIPS 180-4 has it in its example.
const OF_ABC: [u8; 32] = [
    0xba, 0x78, 0x16, 0xbf, 0x8f, 0x01, 0xcf, 0xea, 0x41, 0x41, 0x40, 0xde, 0x5d, 0xae, 0x22, 0x23,
    0xb0, 0x03, 0x61, 0xa3, 0x96, 0x17, 0x7a, 0x9c, 0xb4, 0x10, 0xff, 0x61, 0xf2, 0x00, 0x15, 0xad,
];

fn id(major: u64, minor: u64) -> StreamId {
    StreamId { major, minor }
}

/// Entries `abc` at so many positions from 7-0 on, each a millisecond after the one before.
fn page_of_many(alloc: Global, number: u64) -> Result<Vec<(Position, Bytes)>, AllocError> {
    let mut page = Vec::new(alloc);
    for place in 0..number {
        let position = Position {
            major: place.saturating_add(7),
            minor: 0,
        };
        page.push((position, Bytes::copy_from_slice(alloc, b"abc")?))?;
    }
    Ok(page)
}

/// Tries: lw_redis_log::Mark::of
#[test]
fn a_mark_has_the_digest(rt: HostRuntime) {
    let want = Mark {
        id: id(7, 1),
        length: 3,
        digest: OF_ABC,
    };
    assert!(rt; Mark::of(id(7, 1), b"abc") == want);
}

/// Marks, and how many of three entries stand behind the one that has the mark, where that is the first.
static FIRSTS: [(u64, u64, &[u8], Option<usize>); 6] = [
    (7, 0, b"abc", Some(2)),
    (7, 1, b"abc", None),
    (6, 0, b"abc", None),
    (8, 0, b"abc", None),
    (7, 0, b"abd", None),
    (7, 0, b"abcd", None),
];

/// Tries: lw_redis_log::behind
#[test]
fn a_page_begins_with_the_mark(rt: HostRuntime) {
    for (major, minor, bytes, want) in &FIRSTS {
        let mark = Mark::of(id(*major, *minor), bytes);
        let page = page_of_many(rt.alloc(), 3).expect(&rt, "memory");
        let rest = behind(&mark, page);
        if let Some(rest) = &rest {
            assert!(rt; rest.first().is_none_or(|(position, _)| position.major == 8));
        }
        assert!(rt;
            rest.map(|rest| rest.len()) == *want,
            "{major}-{minor} {bytes:?}"
        );
        assert!(rt; behind(&mark, Vec::new(rt.alloc())).is_none());
    }
}

/// A mark, the position that a page is above, how many entries it has, and what it tells.
static ARRIVALS: [(u64, u64, &[u8], Option<(u64, u64)>, u64, Arrival); 14] = [
    (7, 0, b"abc", None, 1, Arrival::Came),
    (262, 0, b"abc", None, 256, Arrival::Came),
    (9, 0, b"abc", Some((9, 0)), 256, Arrival::Came),
    // The end of the stream.
    (7, 0, b"abc", None, 0, Arrival::Gone),
    (262, 0, b"abc", None, 255, Arrival::Gone),
    (500, 0, b"abc", Some((6, 0)), 255, Arrival::Gone),
    // More may come.
    (262, 1, b"abc", None, 256, Arrival::Due),
    (500, 0, b"abc", Some((6, 9)), 256, Arrival::Due),
    (500, 0, b"abc", Some((499, u64::MAX)), 256, Arrival::Due),
    // Other bytes, or what stands above it without it.
    (262, 0, b"abd", None, 256, Arrival::Gone),
    (261, 1, b"abc", None, 256, Arrival::Gone),
    (6, 0, b"abc", None, 256, Arrival::Gone),
    // It is asked for what stands above it.
    (500, 0, b"abc", Some((500, 0)), 256, Arrival::Gone),
    (500, 0, b"abc", Some((500, 1)), 256, Arrival::Gone),
];

/// Tries: lw_redis_log::arrival_in
#[test]
fn what_was_appended_comes_or_is_gone(rt: HostRuntime) {
    for (major, minor, bytes, after, number, want) in &ARRIVALS {
        let mark = Mark::of(id(*major, *minor), bytes);
        let after = after.map(|(major, minor)| id(major, minor));
        let page = page_of_many(rt.alloc(), *number).expect(&rt, "memory");
        let found = arrival_in(&mark, after, &page);
        assert!(rt; found == *want, "{major}-{minor} {bytes:?} of {number}");
    }
}

/// How many bytes an entry has, after how many readings without it, and whether it is read again.
static LOOKS: [(usize, u64, bool); 8] = [
    (0, 0, true),
    (16_384, 0, true),
    (16_385, 0, false),
    (16_385, 1, true),
    (32_769, 1, false),
    (16_777_216, 1_022, false),
    (16_777_216, 1_023, true),
    (usize::MAX, u64::MAX, true),
];

/// Tries: lw_redis_log::is_looked_for
#[test]
fn large_entries_are_looked_for_seldom(rt: HostRuntime) {
    for (length, readings, want) in &LOOKS {
        assert_eq!(rt;
            is_looked_for(*length, *readings),
            *want,
            "{length} after {readings}"
        );
    }
}
