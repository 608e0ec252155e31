//! Calls of nodes, one after another, and what transcripts keep of them.

ghost use Rattle.lw_held.specs.Agree.{AreDistinct};

use super::*;

/// Makes the call through the shelf, with the pass at the place.
pub(super) fn call<R: Wait + Abort>(
    rt: &R,
    alloc: Global,
    shelf: &Shelf,
    passes: &mut [Pass],
    pass: usize,
    what: What<'_>,
) -> Result<u64, NoMemory>
    requires { AreDistinct passes.old }
    ensures { AreDistinct passes.new }
{
    if pass >= passes.len() {
        panic!(rt; "a pass");
    }
    let made = what.made(rt, alloc)?;
    let lent = &mut passes[pass];
    let placed = shelf.call(rt, &NoGate, lent, &made);
    drop(made);
    match placed {
        Ok(place) => Ok(place),
        Err(NoMemory) => Err(NoMemory),
    }
}

/// Makes the call of the node with its journal, as number 1, with the pass at the place.
pub(super) fn step<R: Abort>(
    rt: &R,
    alloc: Global,
    held: &mut Held,
    passes: &mut [Pass],
    pass: usize,
    what: What<'_>,
) -> Result<u64, NoMemory>
    requires { AreDistinct passes.old }
    ensures { AreDistinct passes.new }
{
    if pass >= passes.len() {
        panic!(rt; "a pass");
    }
    let made = what.made(rt, alloc)?;
    let lent = &mut passes[pass];
    let placed = lent.step(1, held, &made);
    drop(made);
    match placed {
        Ok(place) => Ok(place),
        Err(NoMemory) => Err(NoMemory),
    }
}

/// The last part of the pass has the node, the place and the reply.
pub(super) fn part_is<R: Abort>(rt: &R, alloc: Global, pass: &Pass, want: &str) {
    let number = pass.len().checked_sub(1).expect(rt, "a call");
    let part = pass.part(number).expect(rt, "a part");
    assert_eq!(rt;
        (part.entry.pass, part.entry.number),
        (pass.number(), number)
    );
    let reply = reply_text(alloc, &part.entry.reply).expect(rt, "memory");
    let (node, place) = (part.node, part.place);
    let text = format!(in alloc; "{node} {place} {reply}").expect(rt, "memory");
    assert_eq!(rt; text.as_str(), want);
}
