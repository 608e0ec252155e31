//! The largest that a node with its journal takes, sends and merges, and a long journal.

ghost use Rattle.lw_held.specs.Agree.{AreDistinct};
ghost use Rattle.lw_held.specs.Shelves.{AreInOrder};

use super::entries::enters_all;
use super::settling::calls;
use super::volumes::{alone, cut};
use super::*;

/// What stands before, in and behind an endpoint of 252 bytes and a target of 7,924 in an object list.
type Parts = [&'static str; 5];

/// A Register of 8,192 bytes with message ID 4.
const LONGEST: Parts = ["40020004b272644df265703d", "65", "ff3c2f", "6f", "3e"];

/// What stands between the endpoint and the target in a delta of node 1.
const FIELDS: &str = "00000000000100017f000000000000010001047f0000011633\
    0000000000010001000000000000\
    000000000001000100015180\
    00000000000100010155\
    000000000001000100\
    00000000000100011ef73c2f";

/// The endpoint, the answer to the question for it at place 1 of node 1, what node 1 sends since 0, and the same at its
/// place 2.
const NAME: Parts = ["", "e", "", "", ""];

const SHOWS: Parts = [
    "1 1 ",
    "e",
    " 0000000000010001 127.0.0.1:5683 0 86400 U false </",
    "o",
    ">",
];

const DELTA: Parts = ["4c57443300000000000101fc", "65", FIELDS, "6f", "3e00000000"];

const SENT: Parts = [
    "1 2 4c57443300000000000101fc",
    "65",
    FIELDS,
    "6f",
    "3e00000000 1",
];

/// The text of the parts.
fn whole<R: Abort>(rt: &R, alloc: Global, parts: &Parts) -> String {
    let [before, name, between, target, behind] = *parts;
    let name = name.repeat(alloc, 252).expect(rt, "memory");
    let target = target.repeat(alloc, 7924).expect(rt, "memory");
    let text = format!(in alloc; "{before}{name}{between}{target}{behind}");
    text.expect(rt, "memory")
}

/// Tries: Held::step
#[test]
fn the_longest_register_is_entered(rt: HostRuntime) {
    let register = whole(&rt, rt.alloc(), &LONGEST);
    assert_eq!(rt; register.len(), 16384, "8,192 bytes");
    enters_all(&rt, rt.alloc(), Takes(&register), &[CREATED]);
}

/// Node 1 takes the Register with the last of 64 passes, shows it and sends it; node 2 merges it with the first. Both
/// sweep it.
fn is_merged<R: Wait + Abort>(
    rt: &R,
    alloc: Global,
    shelves: &[Shelf],
    passes: &mut [Pass],
    texts: [&str; 5],
)
    requires shelves { AreInOrder shelves.now }
    requires passes { AreDistinct passes.old }
{
    let [register, name, shows, delta, sent] = texts;
    let created = "1 0 604100048272640d0330303030303030303030303130303031";
    calls(rt, alloc, shelves, passes, 0, 63, Takes(register), created);
    calls(rt, alloc, shelves, passes, 0, 63, ByEndpoint(name), shows);
    calls(rt, alloc, shelves, passes, 0, 63, Sends(0), sent);
    let joined = "2 0 joined 1";
    calls(rt, alloc, shelves, passes, 1, 0, Merges(delta), joined);
    let (end, swept) = (Sweeps(86_400_000), "1 3 swept 0000000000010001");
    calls(rt, alloc, shelves, passes, 0, 63, end, swept);
    let swept = "2 1 swept 0000000000010001";
    calls(rt, alloc, shelves, passes, 1, 0, end, swept);
    assert_eq!(rt; settle_with(rt, shelves, &[], passes), Ok(Settled));
}

/// The same, of the longest Register.
fn the_longest_is_merged<R: Wait + Abort>(
    rt: &R,
    alloc: Global,
    shelves: &[Shelf],
    passes: &mut [Pass],
)
    requires shelves { AreInOrder shelves.now }
    requires passes { AreDistinct passes.old }
{
    let (register, name) = (whole(rt, alloc, &LONGEST), whole(rt, alloc, &NAME));
    let (shows, delta) = (whole(rt, alloc, &SHOWS), whole(rt, alloc, &DELTA));
    let sent = whole(rt, alloc, &SENT);
    let texts: [&str; 5] = [&register, &name, &shows, &delta, &sent];
    is_merged(rt, alloc, shelves, passes, texts);
}

/// Tries: Held::step
#[test]
fn the_longest_register_is_sent_and_merged(rt: HostRuntime) {
    let (shelves, mut passes) = set_up(rt.alloc(), 2, 64).expect(&rt, "memory");
    the_longest_is_merged(&rt, rt.alloc(), &shelves, &mut passes);
}

/// Asks the node so many times, the first of them at the place.
fn asks<R: Abort>(rt: &R, alloc: Global, held: &mut Held, first: u64, count: u64) {
    for number in 0..count {
        let place = alone(rt, alloc, held, (1, number), ByEndpoint("a"));
        assert!(rt; place == Ok(first.saturating_add(number)), "{place:?}");
    }
}

/// What is cut off begins at the place and has so many entries.
fn cuts_many<R: Abort>(rt: &R, held: &mut Held, first: u64, count: usize) {
    let volume = cut(rt, held).expect(rt, "memory");
    let (at, entries) = (volume.first(), volume.entries().len());
    drop(volume);
    assert_eq!(rt; (at, entries), (first, count));
}

/// Tries: Held::step, Held::cut
#[test]
fn a_journal_of_2000_entries_is_cut(rt: HostRuntime) {
    let mut held = Held::new(rt.alloc(), 1);
    for (first, count) in [(0, 2_000), (2_000, 3)] {
        asks(&rt, rt.alloc(), &mut held, first, count);
        cuts_many(&rt, &mut held, first, count as usize);
    }
    drop(held);
}
