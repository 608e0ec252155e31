//! What a node knows after a call that is refused memory, and what the same call then gives. The same of a cut.

ghost use Rattle.lw_held.specs.Agree.{AreDistinct};
ghost use Rattle.lw_held.specs.Shelves.{AreInOrder};

use super::steps::call;
use super::volumes::{cuts, cuts_nothing, enters};
use super::*;
use std::test::Fail;

/// A Register of `b` with the object list `</>`, message ID 5, and the reply to the first at node 1.
const REGISTER_B: &str = "40020005b272644465703d62ff3c2f3e";

const CREATED_B: &str = "604100058272640d0330303030303030303030303130303031";

/// What the node then sends of all, with its change number.
const OF_B: &str =
    "4c57443300000000000101016200000000000100017f000000000000010001047f0000011633000000000001000100000000000000000000000100010001518000000000000100010155000000000001000100000000000001000100033c2f3e00000000 1";

/// A call of a node that has taken the Register, what it gives, and what is sent of all after it.
struct Row {
    what: What<'static>,
    gives: &'static str,
    after: &'static str,
}

static ROWS: [Row; 6] = [
    Row {
        what: Takes(REGISTER),
        gives: "604100048272640d0330303030303030303030303230303031",
        after: "4c57443300000000000201016100000000000200017f000000000000020001047f0000011633000000000002000100000000000000000000000200010001518000000000000200010155000000000002000100000000000002000100033c2f3e00000001016200000000000100017f000000000000010001047f0000011633000000000001000100000000000000000000000100010001518000000000000100010155000000000001000100000000000001000100033c2f3e00000000 2",
    },
    Row {
        what: Observes(ID, &[3, 0], 32),
        gives: "4801002000000000000200016051330130",
        after: "4c57443300000000000201016200000000000100017f000000000000010001047f0000011633000000000001000100000000000000000000000100010001518000000000000100010155000000000001000100000000000001000100033c2f3e0000010200030000000000000002000101000000 2",
    },
    Row {
        what: Sweeps(86_400_000),
        gives: "swept 0000000000010001",
        after: "4c57443300000000000201016200000000000100017f000000000000010001047f0000011633000000000001000100000000000000000000000100010001518000000000000100010155000000000001000100000000000001000100033c2f3e000100000000000100010000 2",
    },
    Row {
        what: Sends(0),
        gives: OF_B,
        after: OF_B,
    },
    // of `a`, which registered at node 2
    Row {
        what: Merges(
            "4c57443300000000000101016100000000000100027f000000000000010002047f0000011633000000000001000200000000000000000000000100020001518000000000000100020155000000000001000200000000000001000200033c2f3e00000000",
        ),
        gives: "joined 1",
        after: "4c57443300000000000101016100000000000100027f000000000000010002047f0000011633000000000001000200000000000000000000000100020001518000000000000100020155000000000001000200000000000001000200033c2f3e00000001016200000000000100017f000000000000010001047f0000011633000000000001000100000000000000000000000100010001518000000000000100010155000000000001000100000000000001000100033c2f3e00000000 2",
    },
    Row {
        what: ByEndpoint("b"),
        gives: "b 0000000000010001 127.0.0.1:5683 0 86400 U false </>",
        after: OF_B,
    },
];

/// An entry with its place, or none.
type Made = Result<(Entry, u64), NoMemory>;

/// Whether a call is refused, and how many entries there are of it then.
fn entries_of_a_refusal(made: &Made) -> Option<u64> {
    match made {
        Err(NoMemory) => Some(0),
        Ok((entry, _)) if wants_memory(&entry.reply) => Some(1),
        Ok(_) => None,
    }
}

/// Makes the call, which is an entry at the place, with the reply. Where it is refused, gives how many entries there
/// are of it.
fn tries<R: Abort>(
    rt: &R,
    alloc: Global,
    held: &mut Held,
    what: What<'_>,
    row: (u64, &str),
) -> Result<Option<u64>, NoMemory> {
    let call = what.made(rt, alloc)?;
    let made = held.step(1, 0, &call);
    let tried = is_entered(rt, alloc, &made, row);
    drop(made);
    drop(call);
    tried
}

fn is_entered<R: Abort>(
    rt: &R,
    alloc: Global,
    made: &Made,
    (place, want): (u64, &str),
) -> Result<Option<u64>, NoMemory> {
    let refused = entries_of_a_refusal(made);
    if let (Ok((entry, at)), None) = (made, refused) {
        assert_eq!(rt; *at, place);
        assert_eq!(rt; reply_text(alloc, &entry.reply)?.as_str(), want);
    }
    Ok(refused)
}

/// The call is an entry at the place, with the reply.
fn gives<R: Abort>(
    rt: &R,
    alloc: Global,
    held: &mut Held,
    what: What<'_>,
    row: (u64, &str),
) -> Result<(), NoMemory> {
    match tries(rt, alloc, held, what, row)? {
        None => Ok(()),
        Some(_) => Err(NoMemory),
    }
}

/// Where the call is refused, the node knows what it knew, and the same call is made again.
fn gives_in_two_tries<R: Abort>(
    rt: &R,
    alloc: Global,
    held: &mut Held,
    row: &Row,
) -> Result<(), NoMemory> {
    gives(rt, alloc, held, Takes(REGISTER_B), (0, CREATED_B))?;
    let Some(entries) = tries(rt, alloc, held, row.what, (1, row.gives))? else {
        return gives(rt, alloc, held, Sends(0), (2, row.after));
    };
    let calls = [
        (Sends(0), OF_B),
        (ByEndpoint("a"), "-"),
        (row.what, row.gives),
        (Sends(0), row.after),
    ];
    for (number, (what, want)) in calls.iter().enumerate() {
        let place = entries.saturating_add(1).saturating_add(number as u64);
        gives(rt, alloc, held, *what, (place, want))?;
    }
    Ok(())
}

/// Tries: Held::step
#[test]
fn a_refused_step_leaves_what_the_node_knows(rt: HostRuntime) -> Result<(), Fail> {
    for row in &ROWS {
        let mut held = Held::new(rt.alloc(), 1);
        let given = gives_in_two_tries(&rt, rt.alloc(), &mut held, row);
        drop(held);
        given?;
    }
    Ok(())
}

/// Two Registers and an observation, which are cut off; and a sweep and an end.
const TO_BE_CUT: [What<'static>; 5] = [
    Takes(REGISTER),
    Takes(REGISTER_B),
    Observes(ID, &[3, 0], 32),
    Sweeps(86_400_000),
    Cancels("0000000000030001", 34),
];

const THEIR_REPLIES: [&str; 5] = [
    CREATED,
    "604100058272640d0330303030303030303030303230303031",
    "4801002000000000000300016051330130",
    "swept 0000000000010001",
    "Cancel(Err(NotFound))",
];

/// A refused cut leaves the journal, its first place and the opening: the next one gives them.
fn cuts_in_two_tries<R: Abort>(rt: &R, alloc: Global, held: &mut Held) -> Result<(), NoMemory> {
    let (calls, replies) = (&TO_BE_CUT, &THEIR_REPLIES);
    enters(rt, alloc, held, 0, &calls[..3])?;
    cuts(rt, alloc, held, (0, &[], &calls[..3], &replies[..3]))?;
    enters(rt, alloc, held, 3, &calls[3..])?;
    cuts(rt, alloc, held, (3, &calls[..3], calls, &replies[3..]))?;
    cuts_nothing(rt, held);
    Ok(())
}

/// Tries: Held::cut
#[test]
fn a_refused_growth_of_a_cut_leaves_the_journal(rt: HostRuntime) -> Result<(), Fail> {
    let mut held = Held::new(rt.alloc(), 1);
    let cut = cuts_in_two_tries(&rt, rt.alloc(), &mut held);
    drop(held);
    Ok(cut?)
}

/// Keeps what is cut off the journal of the shelf in one try or two, which begins at the place and has so many entries.
fn keeps_cut<R: Wait + Abort>(
    rt: &R,
    shelf: &Shelf,
    volumes: &mut Vec<Volume>,
    (first, count): (u64, usize),
) -> Result<(), NoMemory> {
    let made = match shelf.cut(rt) {
        Ok(made) => made,
        Err(NoMemory) => shelf.cut(rt)?,
    };
    let volume = made.expect(rt, "a volume");
    assert_eq!(rt; (volume.first(), volume.entries().len()), (first, count));
    volumes.push(volume)?;
    Ok(())
}

/// The node of the shelf makes two calls, which are cut off, and a third, which is cut off too; and it is settled.
fn settles_after_cuts<R: Wait + Abort>(
    rt: &R,
    alloc: Global,
    shelves: &[Shelf],
    passes: &mut [Pass],
    volumes: &mut Vec<Volume>,
) -> Result<(), NoMemory>
    requires shelves { AreInOrder shelves.now }
    requires passes { AreDistinct passes.old }
{
    let shelf = shelves.first().expect(rt, "a shelf");
    call(rt, alloc, shelf, passes, 0, Takes(REGISTER))?;
    call(rt, alloc, shelf, passes, 0, Takes(REGISTER_B))?;
    keeps_cut(rt, shelf, volumes, (0, 2))?;
    call(rt, alloc, shelf, passes, 0, Sweeps(86_400_000))?;
    keeps_cut(rt, shelf, volumes, (2, 1))?;
    assert_eq!(rt; settle_with(rt, shelves, volumes, passes), Ok(Settled));
    Ok(())
}

/// Tries: Shelf::cut, settle
#[test]
fn a_refused_cut_of_a_shelf_settles(rt: HostRuntime) -> Result<(), Fail> {
    let (shelves, mut passes) = set_up(rt.alloc(), 1, 1)?;
    let mut volumes = Vec::new(rt.alloc());
    let settles = settles_after_cuts(&rt, rt.alloc(), &shelves, &mut passes, &mut volumes);
    drop(volumes);
    Ok(settles?)
}
