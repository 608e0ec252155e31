//! Calls through shelves and cuts of their journals, and whether the transcripts are the journals.

ghost use Rattle.lw_held.specs.Agree.{AreDistinct};
ghost use Rattle.lw_held.specs.Shelves.{AreInOrder};

use super::steps::{call, part_is};
use super::volumes::{FIRST_CALL, TWO_CALLS, Wanted, alone, enters, is_volume, keeps};
use super::*;

/// What is done with a shelf, which stands at the first place.
#[derive(Clone, Copy)]
enum Does<'a> {
    /// The node is called, with the pass at the second place. The part that it leaves is this: node, place and reply.
    Calls(usize, usize, What<'a>, &'a str),
    /// The journal is cut, which gives such a volume. It is kept.
    Cuts(usize, Wanted<'a>),
    /// There is nothing to cut off.
    CutsNothing(usize),
    /// The volumes that are kept are put in reverse.
    Reverses,
}

use Does::*;

/// The delta of a node that has taken the Register first: 98 bytes.
const DELTA: &str =
    "4c57443300000000000101016100000000000100017f000000000000010001047f0000011633000000000001000100000000000000000000000100010001518000000000000100010155000000000001000100000000000001000100033c2f3e00000000";

/// Two nodes take a Register each, with a pass each. The delta of the first comes to the second, where the later of
/// both counts, and the first is asked with the pass of the other.
const TAKEN: [Does<'static>; 6] = [
    Calls(
        0,
        0,
        Takes(REGISTER),
        "1 0 604100048272640d0330303030303030303030303130303031",
    ),
    Calls(
        1,
        1,
        Takes(REGISTER),
        "2 0 604100048272640d0330303030303030303030303130303032",
    ),
    Calls(
        0,
        0,
        ByEndpoint("a"),
        "1 1 a 0000000000010001 127.0.0.1:5683 0 86400 U false </>",
    ),
    Calls(
        0,
        1,
        Sends(0),
        "1 2 4c57443300000000000101016100000000000100017f000000000000010001047f0000011633000000000001000100000000000000000000000100010001518000000000000100010155000000000001000100000000000001000100033c2f3e00000000 1",
    ),
    Calls(1, 0, Merges(DELTA), "2 1 joined 1"),
    Calls(
        1,
        0,
        ByEndpoint("a"),
        "2 2 a 0000000000010002 127.0.0.1:5683 0 86400 U false </>",
    ),
];

/// An observation and its end, and bytes that are no delta.
const OBSERVED: [Does<'static>; 4] = [
    Calls(
        0,
        1,
        Observes(ID, &[3, 0], 32),
        "1 3 4801002000000000000200016051330130",
    ),
    Calls(
        0,
        0,
        Cancels("0000000000020001", 34),
        "1 4 480100220000000000020001610151330130",
    ),
    Calls(
        0,
        0,
        Cancels("0000000000020001", 34),
        "1 5 Cancel(Err(NotFound))",
    ),
    Calls(1, 1, Merges("4c"), "2 3 Merge(Err(Malformed(Truncated)))"),
];

/// Sweeps of both, at the end of the registration that each then shows.
const SWEPT: [Does<'static>; 4] = [
    Calls(0, 0, Sweeps(86_399_999), "1 6 -"),
    Calls(0, 1, Sweeps(86_400_000), "1 7 swept 0000000000010001"),
    Calls(1, 0, Sweeps(86_400_000), "2 4 swept 0000000000010002"),
    Calls(1, 1, Sweeps(86_400_000), "2 5 -"),
];

/// Two passes call one node, one after the other.
const BY_TWO: [Does<'static>; 2] = [
    Calls(
        0,
        0,
        Takes(REGISTER),
        "1 0 604100048272640d0330303030303030303030303130303031",
    ),
    Calls(
        0,
        1,
        ByEndpoint("a"),
        "1 1 a 0000000000010001 127.0.0.1:5683 0 86400 U false </>",
    ),
];

/// Of 16 nodes, the third and the last issue identifiers of their own.
const NUMBERED: [Does<'static>; 2] = [
    Calls(
        2,
        0,
        Takes(REGISTER),
        "3 0 604100048272640d0330303030303030303030303130303033",
    ),
    Calls(
        15,
        0,
        Takes(REGISTER),
        "16 0 604100048272640d0330303030303030303030303130303130",
    ),
];

/// A pass has the node take a Register, and another has it show that. It is cut after each.
const CUT: [Does<'static>; 5] = [
    Calls(
        0,
        0,
        Takes(REGISTER),
        "1 0 604100048272640d0330303030303030303030303130303031",
    ),
    Cuts(0, (0, &[], &FIRST_CALL, &[CREATED])),
    CutsNothing(0),
    Calls(
        0,
        1,
        ByEndpoint("a"),
        "1 1 a 0000000000010001 127.0.0.1:5683 0 86400 U false </>",
    ),
    Cuts(0, (1, &FIRST_CALL, &TWO_CALLS, &[SHOWN])),
];

/// From which pass up to which and from which volume up to which the nodes are to settle, and what comes of it.
pub(crate) type Case = (usize, usize, usize, usize, Result<Settled, Unsettled>);

const BY_BOTH: [Case; 1] = [(0, 2, 0, 0, Ok(Settled))];

/// By all passes, by the first, by the second, and by none.
const BY_SOME: [Case; 4] = [
    (0, 2, 0, 0, Ok(Settled)),
    (0, 1, 0, 0, Err(Unsettled { node: 1, place: 2 })),
    (1, 2, 0, 0, Err(Unsettled { node: 1, place: 0 })),
    (1, 1, 0, 0, Err(Unsettled { node: 1, place: 0 })),
];

/// By the second of the two passes alone, by the first alone, and by both.
const BY_ONE_OR_BOTH: [Case; 3] = [
    (1, 2, 0, 0, Err(Unsettled { node: 1, place: 0 })),
    (0, 1, 0, 0, Err(Unsettled { node: 1, place: 1 })),
    (0, 2, 0, 0, Ok(Settled)),
];

const BY_THE_ONLY_ONE: [Case; 1] = [(0, 1, 0, 0, Ok(Settled))];

/// By both volumes, by the first alone, by the second alone, and by none.
const BY_VOLUMES: [Case; 4] = [
    (0, 2, 0, 2, Ok(Settled)),
    (0, 2, 0, 1, Err(Unsettled { node: 1, place: 1 })),
    (0, 2, 1, 2, Err(Unsettled { node: 1, place: 0 })),
    (0, 2, 1, 1, Err(Unsettled { node: 1, place: 0 })),
];

const BY_BOTH_VOLUMES: [Case; 1] = [(0, 2, 0, 2, Ok(Settled))];

/// What is done, and how the nodes settle then.
type Turn<'a> = (&'a [Does<'a>], &'a [Case]);

/// How many nodes and passes there are, and their turns.
type Set = (u16, u32, &'static [Turn<'static>]);

static SETS: [Set; 4] = [
    (
        2,
        2,
        &[
            (&TAKEN, &BY_BOTH),
            (&OBSERVED, &BY_SOME),
            (&SWEPT, &BY_SOME),
        ],
    ),
    (1, 2, &[(&BY_TWO, &BY_ONE_OR_BOTH)]),
    (16, 1, &[(&NUMBERED, &BY_THE_ONLY_ONE)]),
    (
        1,
        2,
        &[(&CUT, &BY_VOLUMES), (&[Reverses], &BY_BOTH_VOLUMES)],
    ),
];

/// What is cut off the journal of the shelf is such a volume. It is kept.
fn cuts<R: Wait + Abort>(
    rt: &R,
    alloc: Global,
    shelf: &Shelf,
    volumes: &mut Vec<Volume>,
    wanted: Wanted<'_>,
) {
    let volume = shelf.cut(rt).expect(rt, "memory").expect(rt, "a volume");
    is_volume(rt, alloc, &volume, wanted).expect(rt, "memory");
    volumes.push(volume).expect(rt, "memory");
}

/// There is nothing to cut off the journal of the shelf.
fn cuts_nothing<R: Wait + Abort>(rt: &R, shelf: &Shelf) {
    let made = shelf.cut(rt);
    let is_nothing = matches!(&made, Ok(None));
    drop(made);
    assert!(rt; is_nothing);
}

/// The node of the shelf at the place is called, with the pass at the place, and the part that it leaves is this.
pub(crate) fn calls<R: Wait + Abort>(
    rt: &R,
    alloc: Global,
    shelves: &[Shelf],
    passes: &mut [Pass],
    shelf: usize,
    pass: usize,
    what: What<'_>,
    want: &str,
)
    requires { AreDistinct passes.old }
    ensures { AreDistinct passes.new }
{
    let shelf = shelves.get(shelf).expect(rt, "a shelf");
    let _place = call(rt, alloc, shelf, passes, pass, what).expect(rt, "memory");
    part_is(rt, alloc, passes.get(pass).expect(rt, "a pass"), want);
}

/// Does it with the shelf.
fn do_with<R: Wait + Abort>(
    rt: &R,
    alloc: Global,
    shelves: &[Shelf],
    passes: &mut [Pass],
    volumes: &mut Vec<Volume>,
    does: Does<'_>,
)
    requires { AreDistinct passes.old }
    ensures { AreDistinct passes.new }
{
    match does {
        Calls(shelf, pass, what, want) => {
            calls(rt, alloc, shelves, passes, shelf, pass, what, want);
        }
        Cuts(shelf, wanted) => {
            let shelf = shelves.get(shelf).expect(rt, "a shelf");
            cuts(rt, alloc, shelf, volumes, wanted);
        }
        CutsNothing(shelf) => {
            cuts_nothing(rt, shelves.get(shelf).expect(rt, "a shelf"));
        }
        Reverses => volumes.reverse(),
    }
}

/// Does it all with the shelves.
fn do_all<R: Wait + Abort>(
    rt: &R,
    alloc: Global,
    shelves: &[Shelf],
    passes: &mut [Pass],
    volumes: &mut Vec<Volume>,
    rows: &[Does<'_>],
)
    requires { AreDistinct passes.old }
    ensures { AreDistinct passes.new }
{
    for does in rows {
        do_with(rt, alloc, shelves, passes, volumes, *does);
    }
}

/// The nodes settle so by some of the passes and of the volumes.
#[tactic(auto, using(crate::proofs::Keeping::distinct_within))]
pub(crate) fn settles_so<R: Wait + Abort>(
    rt: &R,
    shelves: &[Shelf],
    volumes: &[Volume],
    passes: &[Pass],
    case: &Case,
)
    requires shelves { AreInOrder shelves.now }
    requires passes { AreDistinct passes.now }
{
    let (first, end, first_volume, end_volume, want) = *case;
    assert!(rt; first <= end && end <= passes.len());
    assert!(rt; first_volume <= end_volume && end_volume <= volumes.len());
    let volumes = &volumes[first_volume..end_volume];
    let settled = settle_with(rt, shelves, volumes, &passes[first..end]);
    assert_eq!(rt; settled, want, "{case:?}");
}

fn settle_each<R: Wait + Abort>(
    rt: &R,
    shelves: &[Shelf],
    volumes: &[Volume],
    passes: &[Pass],
    cases: &[Case],
)
    requires shelves { AreInOrder shelves.now }
    requires passes { AreDistinct passes.now }
{
    for case in cases {
        settles_so(rt, shelves, volumes, passes, case);
    }
}

/// New nodes take turns with new passes.
fn take_turns<R: Wait + Abort>(
    rt: &R,
    alloc: Global,
    (nodes, count): (u16, u32),
    turns: &[Turn<'_>],
) {
    assert!(rt; 1 <= nodes && nodes <= 16 && 1 <= count && count <= 64);
    let (shelves, mut passes) = set_up(alloc, nodes, count).expect(rt, "memory");
    take_each(rt, alloc, &shelves, &mut passes, turns);
}

fn take_each<R: Wait + Abort>(
    rt: &R,
    alloc: Global,
    shelves: &[Shelf],
    passes: &mut [Pass],
    turns: &[Turn<'_>],
)
    requires shelves { AreInOrder shelves.now }
    requires passes { AreDistinct passes.old }
{
    let mut volumes = Vec::new(alloc);
    for turn in turns {
        let (rows, cases) = *turn;
        do_all(rt, alloc, shelves, passes, &mut volumes, rows);
        settle_each(rt, shelves, &volumes, passes, cases);
    }
}

/// Tries: Pass::number, Pass::len, Pass::part, Shelf::call, Shelf::cut, Held::agrees, settle, set_up, NoGate::start
#[test]
fn nodes_take_calls_and_settle(rt: HostRuntime) {
    for (nodes, count, turns) in &SETS {
        take_turns(&rt, rt.alloc(), (*nodes, *count), turns);
    }
}

/// The last two of the passes are the journal of the node, which is that of the shelf too, the last before the other.
#[tactic(auto, using(crate::proofs::Keeping::distinct_two))]
fn agree_in_reverse<R: Wait + Abort>(rt: &R, held: &Held, shelves: &[Shelf], mut passes: Vec<Pass>)
    requires { AreInOrder shelves.now }
{
    let second = passes.pop().expect(rt, "a pass");
    let first = passes.pop().expect(rt, "a pass");
    assert!(rt; second.number() != first.number());
    let both = [second, first];
    assert_eq!(rt; held.agrees(1, &[], &both), Ok(()));
    assert_eq!(rt; settle_with(rt, shelves, &[], &both), Ok(Settled));
}

/// Makes the calls of the node, as the first of a pass each.
fn makes_two<R: Abort>(rt: &R, alloc: Global, held: &mut Held) {
    for (pass, what) in TWO_CALLS.iter().enumerate() {
        let place = alone(rt, alloc, held, (pass as u32, 0), *what);
        assert_eq!(rt; place, Ok(pass as u64));
    }
}

/// Two passes call the node of a shelf, one after the other. Another node has the same journal.
/// Tries: Held::agrees, settle
#[test]
fn passes_agree_and_settle_in_any_order(rt: HostRuntime) {
    let (shelves, mut passes) = set_up(rt.alloc(), 1, 2).expect(&rt, "memory");
    let (mut held, mut volumes) = (Held::new(rt.alloc(), 1), Vec::new(rt.alloc()));
    do_all(
        &rt,
        rt.alloc(),
        &shelves,
        &mut passes,
        &mut volumes,
        &BY_TWO,
    );
    makes_two(&rt, rt.alloc(), &mut held);
    agree_in_reverse(&rt, &held, &shelves, passes);
    drop(held);
}

/// What is cut off another node of the number is told.
fn is_told_of<R: Wait + Abort>(
    rt: &R,
    alloc: Global,
    shelves: &[Shelf],
    passes: &[Pass],
    number: u16,
)
    requires shelves { AreInOrder shelves.now }
    requires passes { AreDistinct passes.now }
{
    let (mut held, mut volumes) = (Held::new(alloc, number), Vec::new(alloc));
    enters(rt, alloc, &mut held, 0, &FIRST_CALL).expect(rt, "memory");
    keeps(rt, &mut held, &mut volumes);
    drop(held);
    let told = settle_with(rt, shelves, &volumes, passes);
    drop(volumes);
    let (node, place) = (number, 0);
    assert_eq!(rt; told, Err(Unsettled { node, place }));
}

/// Two new shelves do not settle with a volume of another node.
/// Tries: settle
#[test]
fn a_volume_of_another_node_is_told_by_settle(rt: HostRuntime) {
    let (shelves, passes) = set_up(rt.alloc(), 2, 1).expect(&rt, "memory");
    is_told_of(&rt, rt.alloc(), &shelves, &passes, 1);
    is_told_of(&rt, rt.alloc(), &shelves, &passes, 2);
}

/// There are so many shelves and passes. Nodes are numbered from 1 and passes, which have no calls, from 0.
fn are_set_up<R: Abort>(rt: &R, shelves: &[Shelf], passes: &[Pass], counts: (u16, u32)) {
    let (nodes, count) = counts;
    assert_eq!(rt;
        (shelves.len(), passes.len()),
        (usize::from(nodes), count as usize)
    );
    for (place, shelf) in shelves.iter().enumerate() {
        assert_eq!(rt; usize::from(shelf.number()), place.wrapping_add(1));
    }
    for (place, pass) in passes.iter().enumerate() {
        assert_eq!(rt; (pass.number() as usize, pass.len()), (place, 0));
        assert!(rt; pass.part(0).is_none());
    }
}

/// Tries: Pass::number, Pass::len, Pass::part, Shelf::number, set_up
#[test]
fn shelves_and_passes_are_set_up(rt: HostRuntime) {
    let (shelves, passes) = set_up(rt.alloc(), 1, 1).expect(&rt, "memory");
    are_set_up(&rt, &shelves, &passes, (1, 1));
    let (shelves, passes) = set_up(rt.alloc(), 16, 64).expect(&rt, "memory");
    are_set_up(&rt, &shelves, &passes, (16, 64));
}
