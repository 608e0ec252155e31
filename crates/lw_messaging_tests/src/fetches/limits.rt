//! How much is fetched, for how long, and how many are.

use super::*;
use lw_messaging::MAX_FETCHES;

/// 511 blocks of 16 bytes, of which the first is a notification.
fn put_small_blocks(rt: &impl Abort, alloc: Global, fetches: &mut Fetches) -> Vec<Part> {
    let mut parts = Vec::new(alloc);
    let begins = (0, HOST_A, told_of!(0, 0x08, 16), Given::Asks(0x10, 5));
    gives(rt, alloc, fetches, "small", &begins);
    parts.push((0, 16)).expect(rt, "memory");
    for number in 1..511u16 {
        let mid = (number % 256) as u8;
        let value = 16 * (number % 512);
        let came = answer!(mid, value + 8, 16);
        let row = (0, HOST_A, came, Given::Asks(value + 16, 5));
        gives(rt, alloc, fetches, "small", &row);
        parts.push((mid, 16)).expect(rt, "memory");
    }
    parts
}

/// 511 blocks of 16 bytes are 8,176; one more byte is the last that has room.
/// Tries: Fetches::take
#[test]
fn small_blocks_end_at_8192_bytes(rt: HostRuntime) {
    let alloc = rt.alloc();
    for (len, complete) in [(1, true), (2, false)] {
        let mut small = fetches(alloc);
        let mut parts = put_small_blocks(&rt, alloc, &mut small);
        if complete {
            parts.push((255, len)).expect(&rt, "memory");
        }
        let last = answer!(255, 16 * 511, len);
        let ends = (0, HOST_A, last, Given::Whole(&parts, complete));
        gives(&rt, alloc, &mut small, "small ends", &ends);
    }
}

const HOST_C: Addr = Addr::V4 {
    address: [192, 0, 2, 3],
    port: 5683,
};

/// A first block of another observation.
const OTHER: Came = Came {
    token: &OTHER_TOKEN,
    ..told_of!(1, 0x08, 16)
};

/// Messages, and how many fetches there are behind each.
type Counted = &'static [(Row<'static>, usize)];

/// Fetches that end, and such as take the place of others.
static COUNTED: [(&str, Counted); 2] = [
    (
        "one that has ended stays until another begins",
        &[
            ((0, HOST_A, told_of!(1, 0x08, 16), Given::Asks(0x10, 5)), 1),
            (
                (247_000, HOST_B, told_of!(1, 0x08, 16), Given::Asks(0x10, 6)),
                2,
            ),
            (
                (247_001, HOST_C, told_of!(1, 0x08, 16), Given::Asks(0x10, 7)),
                2,
            ),
        ],
    ),
    // That of another address, or of another observation, does not.
    (
        "a later notification of the observation from its address takes the place of the earlier",
        &[
            ((0, HOST_A, told_of!(1, 0x08, 16), Given::Asks(0x10, 5)), 1),
            ((0, HOST_A, told_of!(1, 0x08, 16), Given::Asks(0x10, 6)), 1),
            ((0, HOST_A, OTHER, Given::Asks(0x10, 7)), 2),
            ((0, HOST_B, told_of!(1, 0x08, 16), Given::Asks(0x10, 8)), 3),
            ((0, HOST_A, told_of!(1, 0x08, 16), Given::Asks(0x10, 9)), 3),
        ],
    ),
];

/// Tries: Fetches::take, Fetches::count
#[test]
fn fetches_are_counted(rt: HostRuntime) {
    for (name, rows) in &COUNTED {
        let mut fetches = fetches(rt.alloc());
        for (row, count) in *rows {
            gives(&rt, rt.alloc(), &mut fetches, name, row);
            assert!(rt; fetches.count() == *count, "{name}: {count}");
        }
    }
}

/// The datagram of a first block of 16 bytes.
fn begins(rt: &impl Abort, alloc: Global) -> Vec<u8> {
    datagram(alloc, &told_of!(1, 0x08, 16)).expect(rt, "memory")
}

/// The watch of another observation is none of the message's.
/// Tries: Fetches::take
#[test]
fn the_watch_has_the_token(rt: HostRuntime) {
    let mut fetches = fetches(rt.alloc());
    let bytes = begins(&rt, rt.alloc());
    let other = watch_of(OTHER_TOKEN);
    assert!(rt; other.is_some());
    for watch in [other, None] {
        let parcel = take(&rt, &mut fetches, (0, HOST_A), watch, &bytes);
        assert!(rt; matches!(parcel, Parcel::Through));
    }
    assert!(rt; fetches.count() == 0);
}

/// A port by its number.
fn host(number: u16) -> Addr {
    Addr::V4 {
        address: [192, 0, 2, 1],
        port: number,
    }
}

/// A last block with a token of four bytes.
macro_rules! ends {
    ($token:expr) => {
        Came {
            token: $token,
            ..answer!(3, 0x10, 5)
        }
    };
}

/// What comes behind 512 fetches of which the first went on, and one more: the port, the block, and what it is given.
static BEHIND_513: [(u16, Came, Given<'static>); 4] = [
    (1, ends!(&SIXTH), Given::Through),
    (
        2,
        ends!(&[0, 0, 0, 7]),
        Given::Whole(&[(1, 16), (3, 5)], true),
    ),
    (
        512,
        ends!(&[0, 0, 2, 5]),
        Given::Whole(&[(1, 16), (3, 5)], true),
    ),
    (
        0,
        answer!(3, 0x20, 5),
        Given::Whole(&[(1, 16), (2, 16), (3, 5)], true),
    ),
];

/// 512 fetches begin, the first goes on, and one more begins: then the second has gone.
/// Tries: Fetches::take, Fetches::count
#[test]
fn the_oldest_of_513_fetches_goes(rt: HostRuntime) {
    let alloc = rt.alloc();
    let mut fetches = fetches(alloc);
    let watch = watch_of(TOKEN);
    let begins = begins(&rt, alloc);
    for number in 0..512u16 {
        take(&rt, &mut fetches, (0, host(number)), watch, &begins);
    }
    assert!(rt; fetches.count() == 512 && MAX_FETCHES == 512);
    let goes_on = (0, host(0), answer!(2, 0x18, 16), Given::Asks(0x20, 5));
    gives(&rt, alloc, &mut fetches, "goes on", &goes_on);
    take(&rt, &mut fetches, (0, host(512)), watch, &begins);
    assert!(rt; fetches.count() == 512);
    for (port, came, given) in &BEHIND_513 {
        let row = (0, host(*port), *came, *given);
        gives(&rt, alloc, &mut fetches, "behind 513", &row);
    }
    assert!(rt; fetches.count() == 509);
}

/// Where three fetches begin, and their numbers: from 2^32 - 1 on, behind which the next number is 0.
static NUMBERS: [(Addr, u32); 3] = [(HOST_A, u32::MAX), (HOST_B, 0), (HOST_C, 1)];

/// Tries: Fetches::new, Fetches::take
#[test]
fn numbers_have_32_bits(rt: HostRuntime) {
    let mut fetches = Fetches::new(rt.alloc(), at(0x0007_ffff_ffff));
    let begins = begins(&rt, rt.alloc());
    for row in &NUMBERS {
        let (from, number) = *row;
        let is_number = match take(&rt, &mut fetches, (0, from), watch_of(TOKEN), &begins) {
            Parcel::Taken { fetch, .. } => fetch == number,
            _ => false,
        };
        assert!(rt; is_number, "{number}");
    }
}

/// What comes before fetches are cut.
static BEFORE_A_CUT: [Row<'static>; 3] = [
    (0, HOST_A, told_of!(1, 0x08, 16), Given::Asks(0x10, 5)),
    (0, HOST_B, told_of!(2, 0x08, 16), Given::Asks(0x10, 6)),
    (0, HOST_A, answer!(3, 0x18, 16), Given::Asks(0x20, 5)),
];

/// Whether a cut of the fetch gives the message of these parts.
fn is_cut(
    rt: &impl Abort,
    alloc: Global,
    fetches: &mut Fetches,
    number: u32,
    parts: &[Part],
) -> bool {
    let cut = fetches.cut(number).expect(rt, "memory");
    let want = told(alloc, &TOKEN, parts).expect(rt, "memory");
    cut == Some(want)
}

/// Whether there is nothing to cut of the fetch.
fn is_none(rt: &impl Abort, fetches: &mut Fetches, number: u32) -> bool {
    fetches.cut(number).expect(rt, "memory").is_none()
}

/// What came of a fetch is told once; there is nothing of one that is none.
/// Tries: Fetches::cut, Fetches::count
#[test]
fn a_fetch_is_cut(rt: HostRuntime) {
    let alloc = rt.alloc();
    let mut fetches = fetches(alloc);
    for row in &BEFORE_A_CUT {
        gives(&rt, alloc, &mut fetches, "before a cut", row);
    }
    assert!(rt; is_none(&rt, &mut fetches, 4));
    assert!(rt; fetches.count() == 2);
    assert!(rt; is_cut(&rt, alloc, &mut fetches, 5, &[(1, 16), (3, 16)]));
    assert!(rt; fetches.count() == 1);
    assert!(rt; is_none(&rt, &mut fetches, 5));
    let late = (0, HOST_A, answer!(4, 0x20, 3), Given::Through);
    gives(&rt, alloc, &mut fetches, "late", &late);
    assert!(rt; is_cut(&rt, alloc, &mut fetches, 6, &[(2, 16)]));
}
