//! Calls from threads of one's own.

ghost use Rattle.std.specs.Prelude.{◌≡◌, IfOk};
ghost use Rattle.lw_held.specs.Shelves.{AreInOrder};
ghost use Rattle.uses.specs.Threads.{AllStand, AreAsked, IsAsked};

use lw_held::{NoGate, Pass, Shelf, Unsettled, settle};
use lw_node::Call;
use std::sync::Wait;
use std::thread::{Threads, join};

// cut: ask_from_threads
/// Two threads make a call each of the node behind the lock, and both answers are then looked for in its journal.
pub fn ask_from_threads<R: Threads + Wait + Sync>(
    rt: &R,
    shelves: &[Shelf],
    shelf: &Shelf,
    one: (Pass, &Call),
    other: (Pass, &Call),
) -> Result<[Pass; 2], Unsettled>
    requires in_order { AreInOrder shelves.now }
    requires apart { ¬ (one.0.number ≡ other.0.number) }
    // Each pass has one part more, the call with its answer; or it is as it was, where there was no memory for that.
    ensures asked { IfOk result (λ passes.
        AreAsked shelf.now.number (one.entry.0, one.entry.1.now) (other.entry.0, other.entry.1.now) passes) }
    // For each shelf there is a legal history of its node in which all answers stand that the passes have from there.
    ensures stand { IfOk result (λ passes. AllStand shelves.now passes) }
{
    let (first, call) = one;
    let (second, another) = other;
    let (first, second) = join(
        rt,
        move || asked(rt, shelf, first, call),
        move || asked(rt, shelf, second, another),
    );
    let passes = [first, second];
    settle(rt, shelves, &[], &passes)?;
    Ok(passes)
}

/// The pass after the call.
fn asked<R: Wait>(rt: &R, shelf: &Shelf, pass: Pass, call: &Call) -> Pass
    ensures { IsAsked shelf.now.number call.now pass result }
{
    let mut pass = pass;
    // The place is also in the last part of the pass.
    let _place = shelf.call(rt, &NoGate, &mut pass, call);
    pass
}
// end: ask_from_threads
