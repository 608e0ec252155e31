//! What is cut off the journal of a node.

use super::*;

/// The volume that is cut off, where there is an entry.
pub(super) fn cut<R: Abort>(rt: &R, held: &mut Held) -> Result<Volume, NoMemory> {
    let cut = held.cut()?;
    Ok(cut.expect(rt, "a volume"))
}

/// Keeps the volume that is cut off.
pub(super) fn keeps<R: Abort>(rt: &R, held: &mut Held, volumes: &mut Vec<Volume>) {
    let volume = cut(rt, held).expect(rt, "memory");
    volumes.push(volume).expect(rt, "memory");
}

/// There is nothing to cut off.
pub(super) fn cuts_nothing<R: Abort>(rt: &R, held: &mut Held) {
    let made = held.cut();
    let is_nothing = matches!(&made, Ok(None));
    drop(made);
    assert!(rt; is_nothing);
}

/// Makes the call of the node, as this number of a pass and of a call, and gives its place.
pub(super) fn alone<R: Abort>(
    rt: &R,
    alloc: Global,
    held: &mut Held,
    (pass, number): (u32, u64),
    what: What<'_>,
) -> Result<u64, NoMemory> {
    let call = what.made(rt, alloc)?;
    let made = held.step(pass, number, &call);
    let place = place_of(&made);
    drop(made);
    drop(call);
    place
}

/// The place of the entry. Want of memory is none, though it is kept as one.
fn place_of(made: &Result<(Entry, u64), NoMemory>) -> Result<u64, NoMemory> {
    match made {
        Ok((entry, place)) if !wants_memory(&entry.reply) => Ok(*place),
        _ => Err(NoMemory),
    }
}

/// Makes the calls of the node, of which the first is to be an entry at the place.
pub(super) fn enters<R: Abort>(
    rt: &R,
    alloc: Global,
    held: &mut Held,
    first: u64,
    calls: &[What<'_>],
) -> Result<(), NoMemory> {
    for (index, what) in calls.iter().enumerate() {
        let place = alone(rt, alloc, held, (9, index as u64), *what)?;
        assert_eq!(rt; place, first.saturating_add(index as u64));
    }
    Ok(())
}

/// A node of number 1 that the calls were made of.
fn node_after<R: Abort>(rt: &R, alloc: Global, calls: &[What<'_>]) -> Result<Node, NoMemory> {
    let mut node = Node::new(alloc, 1);
    acts(rt, alloc, &mut node, calls)?;
    Ok(node)
}

fn acts<R: Abort>(
    rt: &R,
    alloc: Global,
    node: &mut Node,
    calls: &[What<'_>],
) -> Result<(), NoMemory> {
    for what in calls {
        let call = what.made(rt, alloc)?;
        let reply = node.act(&call);
        let is_refused = wants_memory(&reply);
        drop(reply);
        drop(call);
        if is_refused {
            return Err(NoMemory);
        }
    }
    Ok(())
}

/// The node is one of number 1 that the calls were made of.
fn is_after<R: Abort>(
    rt: &R,
    alloc: Global,
    node: &Node,
    calls: &[What<'_>],
) -> Result<(), NoMemory> {
    let wanted = node_after(rt, alloc, calls)?;
    let is_same = node.same(&wanted);
    drop(wanted);
    assert!(rt; is_same);
    Ok(())
}

/// The entries have the replies.
fn have_replies<R: Abort>(
    rt: &R,
    alloc: Global,
    entries: &[Entry],
    replies: &[&str],
) -> Result<(), NoMemory> {
    assert_eq!(rt; entries.len(), replies.len());
    for (entry, reply) in entries.iter().zip(replies) {
        assert_eq!(rt; reply_text(alloc, &entry.reply)?.as_str(), *reply);
    }
    Ok(())
}

/// What a volume is to be: its first place, the calls that its opening was made of, those that its closing was, and the
/// replies of its entries.
pub(super) type Wanted<'a> = (u64, &'a [What<'a>], &'a [What<'a>], &'a [&'a str]);

/// The volume is such a one, of node 1.
pub(super) fn is_volume<R: Abort>(
    rt: &R,
    alloc: Global,
    volume: &Volume,
    wanted: Wanted<'_>,
) -> Result<(), NoMemory> {
    let (first, before, after, replies) = wanted;
    assert_eq!(rt; (volume.node(), volume.first()), (1, first));
    is_after(rt, alloc, volume.opening(), before)?;
    is_after(rt, alloc, volume.closing(), after)?;
    have_replies(rt, alloc, volume.entries(), replies)
}

/// Calls of node 1, and their replies. The last two say nothing new.
pub(super) const FIRST_CALL: [What<'static>; 1] = [Takes(REGISTER)];

pub(super) const TWO_CALLS: [What<'static>; 2] = [Takes(REGISTER), ByEndpoint("a")];

const THREE_CALLS: [What<'static>; 3] = [Takes(REGISTER), ByEndpoint("a"), Sweeps(86_400_000)];

const ALL_CALLS: [What<'static>; 5] = [
    Takes(REGISTER),
    ByEndpoint("a"),
    Sweeps(86_400_000),
    ByEndpoint("a"),
    Sweeps(86_400_000),
];

/// Calls of a node, and the volume that is cut off then. Without calls there is nothing to cut off.
type Row<'a> = (&'a [What<'a>], Wanted<'a>);

const NOTHING: Row<'static> = (&[], (0, &[], &[], &[]));

/// The first of the calls, two further ones, and the last.
const FIRST: Row<'static> = (&FIRST_CALL, (0, &[], &FIRST_CALL, &[CREATED]));

const SECOND: Row<'static> = (
    &[ByEndpoint("a"), Sweeps(86_400_000)],
    (
        1,
        &FIRST_CALL,
        &THREE_CALLS,
        &[SHOWN, "swept 0000000000010001"],
    ),
);

const THIRD: Row<'static> = (
    &[ByEndpoint("a"), Sweeps(86_400_000)],
    (3, &THREE_CALLS, &ALL_CALLS, &["-", "-"]),
);

/// A cut of nothing leaves the place and the opening.
static CUTS: [&[Row<'static>]; 2] = [
    &[FIRST, SECOND, THIRD],
    &[NOTHING, NOTHING, FIRST, NOTHING, NOTHING, SECOND, NOTHING],
];

/// The calls are made of the node, and what is cut off then is such a volume.
fn enters_and_cuts<R: Abort>(rt: &R, alloc: Global, held: &mut Held, row: &Row<'_>) {
    let (calls, wanted) = *row;
    if calls.is_empty() {
        return cuts_nothing(rt, held);
    }
    enters(rt, alloc, held, wanted.0, calls).expect(rt, "memory");
    cuts(rt, alloc, held, wanted).expect(rt, "memory");
}

/// What is cut off in one try or two is such a volume.
pub(super) fn cuts<R: Abort>(
    rt: &R,
    alloc: Global,
    held: &mut Held,
    wanted: Wanted<'_>,
) -> Result<(), NoMemory> {
    let volume = match cut(rt, held) {
        Ok(volume) => volume,
        Err(NoMemory) => cut(rt, held)?,
    };
    let is_so = is_volume(rt, alloc, &volume, wanted);
    drop(volume);
    is_so
}

/// Tries: Held::step, Held::cut, Volume::node, Volume::first, Volume::entries, Volume::opening, Volume::closing
#[test]
fn a_cut_gives_a_volume_and_an_empty_journal(rt: HostRuntime) {
    for rows in CUTS {
        let mut held = Held::new(rt.alloc(), 1);
        for row in rows {
            enters_and_cuts(&rt, rt.alloc(), &mut held, row);
        }
        drop(held);
    }
}
