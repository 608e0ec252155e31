//! Whether transcripts are a journal, with the volumes that were cut off it.

ghost use Rattle.lw_held.specs.Agree.{AreDistinct};

use super::steps::{part_is, step};
use super::volumes::{alone, cut, keeps};
use super::*;

/// Which of two nodes something is done with: the one that is asked later, whose number is 1, or another.
#[derive(Clone, Copy)]
enum Whose {
    Its,
    Anothers,
}

/// What is done with a node. Each call has its place in the journal.
#[derive(Clone, Copy)]
enum Does<'a> {
    /// The call is made, with the pass at the place.
    Calls(usize, What<'a>, u64),
    /// The call is made as this number of a pass and of a call. No pass keeps it.
    Alone(u32, u64, What<'a>, u64),
    /// The last part of the pass at the place is this.
    Reads(usize, &'a str),
    /// The journal is cut, and the volume is kept.
    Keeps,
    /// The journal is cut, and the volume is let go.
    Loses,
}

use Does::*;
use Whose::*;

type Row<'a> = (Whose, Does<'a>);

/// The number of the other node; what is done in turn; from which of two passes up to which and by which number the one
/// node is asked then; and what it says of them and of the volumes that are kept.
type Case = (
    u16,
    &'static [Row<'static>],
    usize,
    usize,
    u16,
    Result<(), u64>,
);

/// Does it with the node.
fn do_with<R: Abort>(
    rt: &R,
    alloc: Global,
    held: &mut Held,
    passes: &mut [Pass],
    volumes: &mut Vec<Volume>,
    does: Does<'_>,
)
    requires { AreDistinct passes.old }
    ensures { AreDistinct passes.new }
{
    let (placed, want) = match does {
        Calls(pass, what, want) => (step(rt, alloc, held, passes, pass, what), want),
        Alone(pass, number, what, want) => {
            let placed = alone(rt, alloc, held, (pass, number), what);
            (placed, want)
        }
        Reads(pass, want) => {
            return part_is(rt, alloc, passes.get(pass).expect(rt, "a pass"), want);
        }
        Keeps => return keeps(rt, held, volumes),
        Loses => return drop(cut(rt, held)),
    };
    assert_eq!(rt; placed, Ok(want));
}

/// Does it all with the node or with the other.
fn do_all<R: Abort>(
    rt: &R,
    alloc: Global,
    held: &mut Held,
    other: &mut Held,
    passes: &mut [Pass],
    volumes: &mut Vec<Volume>,
    rows: &[Row<'_>],
)
    requires { AreDistinct passes.old }
    ensures { AreDistinct passes.new }
{
    for row in rows {
        let (whose, does) = *row;
        match whose {
            Its => do_with(rt, alloc, held, passes, volumes, does),
            Anothers => do_with(rt, alloc, other, passes, volumes, does),
        }
    }
}

/// Whether the transcripts of some passes in a row are the journal, with the volumes.
#[tactic(auto, using(crate::proofs::Keeping::distinct_within))]
fn agrees_some<R: Abort>(
    rt: &R,
    held: &Held,
    volumes: &[Volume],
    passes: &[Pass],
    first: usize,
    end: usize,
    node: u16,
) -> Result<(), u64>
    requires { AreDistinct passes.now }
{
    assert!(rt; first <= end && end <= passes.len());
    held.agrees(node, volumes, &passes[first..end])
}

/// The node says so.
fn is_said<R: Abort>(rt: &R, alloc: Global, case: &Case, name: &str) {
    let (mut held, mut other) = (Held::new(alloc, 1), Held::new(alloc, case.0));
    is_said_by(rt, alloc, &mut held, &mut other, case, name);
    drop(held);
    drop(other);
}

fn is_said_by<R: Abort>(
    rt: &R,
    alloc: Global,
    held: &mut Held,
    other: &mut Held,
    case: &Case,
    name: &str,
) {
    let (_number, rows, first, end, node, want) = *case;
    let (_shelves, mut passes) = set_up(alloc, 1, 2).expect(rt, "memory");
    let mut volumes = Vec::new(alloc);
    do_all(rt, alloc, held, other, &mut passes, &mut volumes, rows);
    let said = agrees_some(rt, held, &volumes, &passes, first, end, node);
    drop(volumes);
    assert_eq!(rt; said, want, "{name}");
}

const NO_CALLS: [Row<'static>; 0] = [];

/// The passes have called another node, and the one has made the same calls.
const REGISTERED: [Row<'static>; 5] = [
    (Anothers, Calls(0, Takes(REGISTER), 0)),
    (Anothers, Calls(1, ByEndpoint("a"), 1)),
    (
        Anothers,
        Reads(
            1,
            "1 1 a 0000000000010001 127.0.0.1:5683 0 86400 U false </>",
        ),
    ),
    (Its, Alone(0, 0, Takes(REGISTER), 0)),
    (Its, Alone(1, 0, ByEndpoint("a"), 1)),
];

const SENT_ONCE: [Row<'static>; 2] = [
    (Anothers, Calls(0, Sends(0), 0)),
    (Its, Alone(0, 0, Sends(0), 0)),
];

const SENT_AND_TAKEN: [Row<'static>; 4] = [
    (Anothers, Calls(0, Sends(0), 0)),
    (Anothers, Calls(0, Takes(REGISTER), 1)),
    (Its, Alone(0, 0, Sends(0), 0)),
    (Its, Alone(0, 1, Takes(REGISTER), 1)),
];

/// Transcripts that are the journal, and those of another node.
const WHOLE: [Case; 6] = [
    (1, &NO_CALLS, 0, 2, 1, Ok(())),
    (1, &NO_CALLS, 0, 2, 2, Err(0)),
    (1, &REGISTERED, 0, 2, 1, Ok(())),
    (1, &REGISTERED, 0, 2, 2, Err(0)),
    (1, &SENT_ONCE, 0, 2, 1, Ok(())),
    (1, &SENT_AND_TAKEN, 0, 2, 1, Ok(())),
];

const SENT_BY_TWO: [Row<'static>; 4] = [
    (Anothers, Calls(0, Sends(0), 0)),
    (Anothers, Calls(1, Sends(0), 1)),
    (Its, Alone(0, 0, Sends(0), 0)),
    (Its, Alone(1, 0, Sends(0), 1)),
];

/// A pass has the place of another's call, with an entry of another node.
const ONE_PLACE: [Row<'static>; 2] = [
    (Anothers, Calls(0, Sends(0), 0)),
    (Its, Calls(1, Sends(0), 0)),
];

const BEHIND: [Row<'static>; 2] = [
    (Anothers, Calls(1, Sends(0), 0)),
    (Anothers, Calls(0, Sends(0), 1)),
];

/// What is at place 0 of one node comes behind what is at place 1 of another.
const FALLING: [Row<'static>; 3] = [
    (Anothers, Calls(1, Sends(0), 0)),
    (Anothers, Calls(0, Sends(0), 1)),
    (Its, Calls(0, Sends(0), 0)),
];

/// The entry at a place is another, though number, pass and place are the same.
const SENT_TWICE: [Row<'static>; 4] = [
    (Anothers, Calls(0, Sends(0), 0)),
    (Anothers, Calls(0, Sends(0), 1)),
    (Its, Alone(0, 0, Sends(0), 0)),
    (Its, Alone(0, 1, Takes(REGISTER), 1)),
];

/// Transcripts from which a part is missing, or that have one of another node.
const ASTRAY: [Case; 7] = [
    (1, &SENT_BY_TWO, 1, 2, 1, Err(0)),
    (1, &SENT_BY_TWO, 0, 1, 1, Err(1)),
    (1, &ONE_PLACE, 0, 2, 1, Err(0)),
    (1, &ONE_PLACE, 1, 2, 1, Ok(())),
    (1, &BEHIND, 0, 1, 1, Err(1)),
    (1, &FALLING, 0, 1, 1, Err(0)),
    (1, &SENT_TWICE, 0, 2, 1, Err(1)),
];

/// Two passes call the node, one after the other.
const BY_TWO: [Row<'static>; 2] = [
    (Its, Calls(0, Takes(REGISTER), 0)),
    (Its, Calls(1, ByEndpoint("a"), 1)),
];

const BY_ONE_OR_BOTH: [Case; 4] = [
    (1, &BY_TWO, 1, 2, 1, Err(0)),
    (1, &BY_TWO, 0, 1, 1, Err(1)),
    (1, &BY_TWO, 0, 2, 1, Ok(())),
    (1, &BY_TWO, 0, 2, 2, Err(0)),
];

/// The node is cut once, at a place that the other has too.
const BESIDE_ANOTHER: [Row<'static>; 5] = [
    (Its, Calls(0, Takes(REGISTER), 0)),
    (Its, Keeps),
    (Anothers, Alone(0, 0, Takes(REGISTER), 0)),
    (Anothers, Keeps),
    (Its, Calls(1, ByEndpoint("a"), 1)),
];

/// The other's volumes begin after the node's journal does, and the first of them is lost.
const BESIDE_MANY: [Row<'static>; 7] = [
    (Anothers, Alone(0, 0, Sends(0), 0)),
    (Anothers, Loses),
    (Anothers, Alone(0, 1, Takes(REGISTER), 1)),
    (Anothers, Keeps),
    (Anothers, Alone(0, 0, Sends(0), 2)),
    (Anothers, Keeps),
    (Its, Calls(0, Takes(REGISTER), 0)),
];

const BESIDE: [Case; 4] = [
    (2, &BESIDE_ANOTHER, 0, 2, 1, Ok(())),
    (1, &BESIDE_ANOTHER, 0, 2, 1, Err(0)),
    (2, &BESIDE_MANY, 0, 2, 1, Ok(())),
    (1, &BESIDE_MANY, 0, 2, 1, Err(1)),
];

/// Both nodes have the same two entries, and the other's are cut off one by one.
const IN_HALVES: [Row<'static>; 7] = [
    (Its, Calls(0, Takes(REGISTER), 0)),
    (Its, Calls(1, ByEndpoint("a"), 1)),
    (Its, Loses),
    (Anothers, Alone(0, 0, Takes(REGISTER), 0)),
    (Anothers, Keeps),
    (Anothers, Alone(1, 0, ByEndpoint("a"), 1)),
    (Anothers, Keeps),
];

/// The node's two entries are in one volume, and one of them in another too.
const FIRST_TWICE: [Row<'static>; 5] = [
    (Its, Calls(0, Takes(REGISTER), 0)),
    (Its, Calls(1, ByEndpoint("a"), 1)),
    (Its, Keeps),
    (Anothers, Alone(0, 0, Takes(REGISTER), 0)),
    (Anothers, Keeps),
];

const SECOND_TWICE: [Row<'static>; 7] = [
    (Its, Calls(0, Takes(REGISTER), 0)),
    (Its, Calls(1, ByEndpoint("a"), 1)),
    (Its, Keeps),
    (Anothers, Alone(0, 0, Takes(REGISTER), 0)),
    (Anothers, Loses),
    (Anothers, Alone(1, 0, ByEndpoint("a"), 1)),
    (Anothers, Keeps),
];

const OVERLAPS: [Case; 3] = [
    (1, &IN_HALVES, 0, 2, 1, Ok(())),
    (1, &FIRST_TWICE, 0, 2, 1, Err(0)),
    (1, &SECOND_TWICE, 0, 2, 1, Err(1)),
];

/// What comes after the other's volume begins with a node that has taken no Register: a volume, or the journal.
const OTHER_VOLUME: [Row<'static>; 6] = [
    (Anothers, Calls(0, Takes(REGISTER), 0)),
    (Anothers, Keeps),
    (Its, Alone(9, 0, Sends(0), 0)),
    (Its, Loses),
    (Its, Calls(1, ByEndpoint("a"), 1)),
    (Its, Keeps),
];

const OTHER_JOURNAL: [Row<'static>; 5] = [
    (Anothers, Calls(0, Takes(REGISTER), 0)),
    (Anothers, Keeps),
    (Its, Alone(9, 0, Sends(0), 0)),
    (Its, Loses),
    (Its, Calls(1, ByEndpoint("a"), 1)),
];

/// After two volumes of the other, with an empty journal.
const EMPTY_JOURNAL: [Row<'static>; 7] = [
    (Anothers, Calls(0, Takes(REGISTER), 0)),
    (Anothers, Keeps),
    (Anothers, Calls(1, ByEndpoint("a"), 1)),
    (Anothers, Keeps),
    (Its, Alone(9, 0, Sends(0), 0)),
    (Its, Alone(9, 1, Sends(0), 1)),
    (Its, Loses),
];

/// The nodes differ by their clocks alone.
const OTHER_CLOCK: [Row<'static>; 5] = [
    (Anothers, Calls(0, Sends(0), 0)),
    (Anothers, Keeps),
    (Its, Alone(9, 0, Merges("4c57443300000000000500"), 0)),
    (Its, Loses),
    (Its, Calls(1, ByEndpoint("a"), 1)),
];

/// The other has answered nothing that changed it.
const SAME_NODE: [Row<'static>; 5] = [
    (Anothers, Calls(0, Sends(0), 0)),
    (Anothers, Keeps),
    (Its, Alone(9, 0, ByEndpoint("a"), 0)),
    (Its, Loses),
    (Its, Calls(1, ByEndpoint("a"), 1)),
];

const LINKS: [Case; 5] = [
    (1, &OTHER_VOLUME, 0, 2, 1, Err(1)),
    (1, &OTHER_JOURNAL, 0, 2, 1, Err(1)),
    (1, &EMPTY_JOURNAL, 0, 2, 1, Err(2)),
    (1, &OTHER_CLOCK, 0, 2, 1, Err(1)),
    (1, &SAME_NODE, 0, 2, 1, Ok(())),
];

/// A volume between two others is lost, of one place or of two, whose calls no pass has kept.
const ONE_LOST: [Row<'static>; 6] = [
    (Its, Calls(0, Takes(REGISTER), 0)),
    (Its, Keeps),
    (Its, Alone(9, 0, Sends(0), 1)),
    (Its, Loses),
    (Its, Calls(1, ByEndpoint("a"), 2)),
    (Its, Keeps),
];

const TWO_LOST: [Row<'static>; 7] = [
    (Its, Calls(0, Takes(REGISTER), 0)),
    (Its, Keeps),
    (Its, Alone(9, 0, Sends(0), 1)),
    (Its, Alone(9, 1, Sends(0), 2)),
    (Its, Loses),
    (Its, Calls(1, ByEndpoint("a"), 3)),
    (Its, Keeps),
];

/// The last volume, the first, and the only one.
const LAST_LOST: [Row<'static>; 4] = [
    (Its, Calls(0, Takes(REGISTER), 0)),
    (Its, Keeps),
    (Its, Alone(9, 0, Sends(0), 1)),
    (Its, Loses),
];

const FIRST_LOST: [Row<'static>; 4] = [
    (Its, Alone(9, 0, Sends(0), 0)),
    (Its, Loses),
    (Its, Calls(0, Takes(REGISTER), 1)),
    (Its, Keeps),
];

const ALL_LOST: [Row<'static>; 2] = [(Its, Alone(9, 0, Sends(0), 0)), (Its, Loses)];

const NONE_LOST: [Row<'static>; 6] = [
    (Its, Calls(0, Takes(REGISTER), 0)),
    (Its, Keeps),
    (Its, Calls(1, Sends(0), 1)),
    (Its, Keeps),
    (Its, Calls(1, ByEndpoint("a"), 2)),
    (Its, Keeps),
];

const GAPS: [Case; 6] = [
    (1, &NONE_LOST, 0, 2, 1, Ok(())),
    (1, &ONE_LOST, 0, 2, 1, Err(1)),
    (1, &TWO_LOST, 0, 2, 1, Err(1)),
    (1, &LAST_LOST, 0, 2, 1, Err(1)),
    (1, &FIRST_LOST, 0, 2, 1, Err(0)),
    (1, &ALL_LOST, 0, 2, 1, Err(0)),
];

/// The node's journal begins at 0, and the other's volume at 1.
const AFTER_THE_LAST: [Row<'static>; 5] = [
    (Its, Calls(0, Takes(REGISTER), 0)),
    (Anothers, Alone(0, 0, Takes(REGISTER), 0)),
    (Anothers, Loses),
    (Anothers, Calls(1, ByEndpoint("a"), 1)),
    (Anothers, Keeps),
];

/// Both have the same two entries. The journal begins at 1, and the other's volume at 1 too, or at 0.
const AT_THE_FIRST: [Row<'static>; 7] = [
    (Its, Calls(0, Takes(REGISTER), 0)),
    (Its, Keeps),
    (Its, Calls(1, ByEndpoint("a"), 1)),
    (Anothers, Alone(0, 0, Takes(REGISTER), 0)),
    (Anothers, Loses),
    (Anothers, Alone(1, 0, ByEndpoint("a"), 1)),
    (Anothers, Keeps),
];

const OVER_THE_FIRST: [Row<'static>; 6] = [
    (Its, Calls(0, Takes(REGISTER), 0)),
    (Its, Loses),
    (Its, Calls(1, ByEndpoint("a"), 1)),
    (Anothers, Alone(0, 0, Takes(REGISTER), 0)),
    (Anothers, Alone(1, 0, ByEndpoint("a"), 1)),
    (Anothers, Keeps),
];

const AFTER: [Case; 3] = [
    (1, &AFTER_THE_LAST, 0, 2, 1, Err(1)),
    (1, &AT_THE_FIRST, 0, 2, 1, Err(1)),
    (1, &OVER_THE_FIRST, 0, 2, 1, Err(1)),
];

/// What the cases are of.
static CASES: [(&str, &[Case]); 8] = [
    ("two passes make one journal", &WHOLE),
    ("other transcripts fail", &ASTRAY),
    ("passes agree together, but not alone", &BY_ONE_OR_BOTH),
    ("volumes of another node are passed over", &BESIDE),
    ("an overlap is told at its first place", &OVERLAPS),
    ("a broken link is told where it begins", &LINKS),
    ("a gap is told at its first place", &GAPS),
    (
        "a volume after the beginning of the journal is told",
        &AFTER,
    ),
];

/// Tries: Pass::step, Held::agrees
#[test]
fn a_journal_is_what_transcripts_and_volumes_say(rt: HostRuntime) {
    for (name, cases) in &CASES {
        for case in *cases {
            is_said(&rt, rt.alloc(), case, name);
        }
    }
}
