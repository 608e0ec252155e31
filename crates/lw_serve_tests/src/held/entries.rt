//! Entries, and what a node with its journal gives.

use super::*;

/// The replies to two Registers in a row at node 1, of which the second has another identifier.
const REPLIES: [&str; 2] = [
    "604100048272640d0330303030303030303030303130303031",
    "604100048272640d0330303030303030303030303230303031",
];

/// Tries: Held::new, Held::step
#[test]
fn a_step_gives_the_entry_and_its_place(rt: HostRuntime) {
    enters_all(&rt, rt.alloc(), Takes(REGISTER), &REPLIES);
}

/// Makes the call of node 1, as pass 7 and number 3, once for each of the replies.
pub(super) fn enters_all<R: Abort>(rt: &R, alloc: Global, what: What<'_>, replies: &[&str]) {
    let mut held = Held::new(alloc, 1);
    let call = what.made(rt, alloc).expect(rt, "memory");
    enters_each(rt, alloc, &mut held, &call, replies);
    drop(held);
    drop(call);
}

fn enters_each<R: Abort>(rt: &R, alloc: Global, held: &mut Held, call: &Call, replies: &[&str]) {
    for (place, reply) in replies.iter().enumerate() {
        let made = held.step(7, 3, call);
        is_made(rt, alloc, &made, call, (place as u64, reply));
        drop(made);
    }
}

/// What is made is the entry of the call, with its place and the reply.
fn is_made<R: Abort>(
    rt: &R,
    alloc: Global,
    made: &Result<(Entry, u64), NoMemory>,
    call: &Call,
    (place, reply): (u64, &str),
) {
    let Ok((entry, at)) = made else {
        panic!(rt; "memory");
    };
    assert_eq!(rt; (*at, entry.pass, entry.number), (place, 7, 3));
    assert!(rt; entry.call.same(call));
    let text = reply_text(alloc, &entry.reply).expect(rt, "memory");
    assert_eq!(rt; text.as_str(), reply);
}

/// Calls that are made before, a call as number 2 of pass 1, a pass, a number and a call behind it, and whether the
/// entries of both are the same.
type Pair = (
    &'static [What<'static>],
    What<'static>,
    u32,
    u64,
    What<'static>,
    bool,
);

static PAIRS: [Pair; 8] = [
    (&[], Sends(0), 1, 2, Sends(0), true),
    (&[], Sends(0), 2, 2, Sends(0), false),
    (&[], Sends(0), 1, 3, Sends(0), false),
    (&[], Sends(0), 1, 2, Sends(1), false),
    // Two Registers have identifiers of their own.
    (&[], Takes(REGISTER), 1, 2, Takes(REGISTER), false),
    // Sweeps of a node that knows of nothing, and one that ends what the next then cannot.
    (&[], Sweeps(0), 1, 2, Sweeps(0), true),
    (&[], Sweeps(0), 1, 2, Sweeps(1), false),
    (
        &[Takes(REGISTER)],
        Sweeps(86_400_000),
        1,
        2,
        Sweeps(86_400_000),
        false,
    ),
];

/// The entry of the call.
fn entry_of<R: Abort>(
    rt: &R,
    alloc: Global,
    held: &mut Held,
    (pass, number): (u32, u64),
    what: What<'_>,
) -> Entry {
    let call = what.made(rt, alloc).expect(rt, "memory");
    let (entry, _place) = held.step(pass, number, &call).expect(rt, "memory");
    entry
}

/// The entries are the same, or not.
fn are_the_same<R: Abort>(rt: &R, alloc: Global, held: &mut Held, pair: &Pair) {
    let (before, what, pass, number, other, want) = *pair;
    for what in before {
        drop(entry_of(rt, alloc, held, (1, 1), *what));
    }
    let first = entry_of(rt, alloc, held, (1, 2), what);
    let second = entry_of(rt, alloc, held, (pass, number), other);
    let are_same = first.same(&second);
    drop(first);
    drop(second);
    assert_eq!(rt; are_same, want);
}

/// Tries: Entry::same, Held::step
#[test]
fn entries_are_the_same_where_all_parts_are(rt: HostRuntime) {
    for pair in &PAIRS {
        let mut held = Held::new(rt.alloc(), 1);
        are_the_same(&rt, rt.alloc(), &mut held, pair);
        drop(held);
    }
}
