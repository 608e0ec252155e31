use lw_resp::StreamId;
use std::alloc::Global;
use std::process::Abort;

const MAX: u64 = 18_446_744_073_709_551_615;

/// Identifiers and their texts.
static TEXTS: [(&str, StreamId); 6] = [
    ("0-0", StreamId { major: 0, minor: 0 }),
    ("0-1", StreamId { major: 0, minor: 1 }),
    (
        "1526985054069-0",
        StreamId {
            major: 1_526_985_054_069,
            minor: 0,
        },
    ),
    (
        "1526919030474-55",
        StreamId {
            major: 1_526_919_030_474,
            minor: 55,
        },
    ),
    (
        "18446744073709551615-0",
        StreamId {
            major: MAX,
            minor: 0,
        },
    ),
    (
        "18446744073709551615-18446744073709551615",
        StreamId {
            major: MAX,
            minor: MAX,
        },
    ),
];

/// Whether the identifier is put behind a `(` as this text.
fn is_put(rt: &impl Abort, alloc: Global, id: StreamId, text: &str) -> bool {
    let mut bytes = Vec::from_slice(alloc, b"(").expect(rt, "memory");
    id.put(&mut bytes).expect(rt, "memory");
    bytes.as_slice().strip_prefix(b"(") == Some(text.as_bytes())
}

/// Tries: lw_resp::StreamId::read, lw_resp::StreamId::put
#[test]
fn texts_are_read_and_put_behind_what_is_there(rt: HostRuntime) {
    for row in &TEXTS {
        let (text, id) = *row;
        assert!(rt; StreamId::read(text.as_bytes()) == Some(id), "{text}");
        assert!(rt; is_put(&rt, rt.alloc(), id, text), "{text}");
    }
}

static NO_TEXTS: [&str; 17] = [
    "",
    "-",
    "1",
    "1-",
    "-1",
    "--1",
    "1-1-1",
    "+1-1",
    "1-+1",
    "01-1",
    "1-01",
    "1 -1",
    "1-1 ",
    "1.1",
    "*",
    "18446744073709551616-0",
    "0-18446744073709551616",
];

/// Tries: lw_resp::StreamId::read
#[test]
fn other_texts_are_none(rt: HostRuntime) {
    for text in &NO_TEXTS {
        assert!(rt; StreamId::read(text.as_bytes()).is_none(), "{text}");
    }
}

/// An identifier, and the next one.
type Next = ((u64, u64), Option<(u64, u64)>);

static NEXT: [Next; 5] = [
    ((0, 0), Some((0, 1))),
    ((7, 41), Some((7, 42))),
    ((7, MAX), Some((8, 0))),
    ((MAX, 0), Some((MAX, 1))),
    ((MAX, MAX), None),
];

/// Tries: lw_resp::StreamId::next
#[test]
fn the_next_one_is_the_least_above(rt: HostRuntime) {
    for row in &NEXT {
        let ((major, minor), want) = *row;
        let next = StreamId { major, minor }.next();
        let got = next.map(|id| (id.major, id.minor));
        assert!(rt; got == want, "{major}-{minor}");
    }
}
