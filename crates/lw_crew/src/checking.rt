//! Whether what is told of jobs is so.

ghost use Rattle.std.specs.Prelude.{◌≡◌, ◌↔◌, ℕ, ◌<◌, length, slice_get, IfNone, IfOk, IfSome, IsSome, IsTrue, option_copied};
ghost use Rattle.lw_held.specs.Agree.{AreDistinct};
ghost use Rattle.lw_held.specs.Shelves.{AreInOrder};
ghost use Rattle.lw_crew.specs.Jobs.{AreTrue, HasMade, HasShelf, lengths};
ghost use Rattle.lw_crew.specs.inner.Claims.{Claims, IsAt, IsTold, MayBeTold, MayClaim};
ghost use Rattle.lw_crew.specs.inner.Refusals.{AreTrueTo, IsFirstUntrue};

use crate::job::{Done, Job, JobOutcome};
use lw_held::{Pass, Shelf};
use lw_stamp::NoMemory;
use std::alloc::Global;

/// How many parts each transcript has.
pub(crate) fn lengths_of(alloc: Global, passes: &[Pass]) -> Result<Vec<u64>, NoMemory>
    ensures { IfOk result (λ counts. counts.items ≡ lengths passes.now) }
{
    let mut counts = Vec::new(alloc);
    for pass in passes {
        counts.push(pass.len())?;
    }
    Ok(counts)
}

/// The shelf of the node, among shelves in order.
pub(crate) fn shelf_of(shelves: &[Shelf], node: u16) -> Option<&Shelf>
    ensures { AreInOrder shelves.now → (IsSome result ↔ HasShelf shelves.now node) }
{
    if node == 0 {
        return None;
    }
    shelves.get(node as usize - 1)
}

/// Whether a shelf has the node, among shelves in order.
fn has_shelf(shelves: &[Shelf], node: u16) -> bool
    requires { AreInOrder shelves.now }
    ensures { IsTrue result ↔ HasShelf shelves.now node }
{
    shelf_of(shelves, node).is_some()
}

/// Whether the pass has the part, of the job's node and with its call.
fn has_made(pass: &Pass, number: u64, job: &Job) -> bool
    ensures { IsTrue result ↔ HasMade pass.now number job.now }
{
    match pass.part(number) {
        Some(part) => part.node == job.node && part.entry.call.same(&job.call),
        None => false,
    }
}

/// The place of the pass with the number.
fn place_of(passes: &[Pass], number: u32) -> Option<usize>
    ensures found { IfSome result (λ place. IsAt passes.now number place) }
    ensures none { IfNone result ((place : ℕ) → ¬ IsAt passes.now number place) }
{
    for place in 0..passes.len() {
        if passes[place].number() == number {
            return Some(place);
        }
    }
    None
}

/// Whether the pass has the part, and none of its parts from there on was claimed. Then it is claimed.
fn claim(next: &mut [u64], after: &[Pass], job: &Job, pass: u32, number: u64) -> bool
    requires next { length next.old ≡ length after.now }
    requires passes { AreDistinct after.now }
    ensures claimed { IsTrue result → Claims next.old next.new after.now job.now pass number }
    ensures refused { (¬ IsTrue result) → ¬ MayClaim next.old after.now job.now pass number }
{
    let Some(place) = place_of(after, pass) else {
        return false;
    };
    let made = &after[place];
    if number < next[place] {
        return false;
    }
    if number >= made.len() {
        return false;
    }
    if !has_made(made, number, job) {
        return false;
    }
    next[place] = number + 1;
    true
}

/// Whether what is told became of its job.
fn is_told(shelves: &[Shelf], next: &mut [u64], after: &[Pass], jobs: &[Job], done: Done) -> bool
    requires shelves { AreInOrder shelves.now }
    requires next { length next.old ≡ length after.now }
    requires passes { AreDistinct after.now }
    ensures told { IsTrue result → IsTold shelves.now next.old next.new after.now jobs.now done }
    ensures refused { (¬ IsTrue result) → ¬ MayBeTold shelves.now next.old after.now jobs.now done }
{
    let Some(job) = jobs.get(done.job as usize) else {
        return false;
    };
    let found = has_shelf(shelves, job.node);
    match done.result {
        JobOutcome::At { pass, number } => found && claim(next, after, job, pass, number),
        JobOutcome::NoMemory => found,
        JobOutcome::NoSuchNode => !found,
    }
}

/// The place of the first result that is not what became of its job, or tells of a part that does not come after those
/// of its pass that were told of before. The numbers are how many parts the transcripts had before the jobs.
pub(crate) fn first_untrue(
    shelves: &[Shelf],
    next: &mut [u64],
    after: &[Pass],
    jobs: &[Job],
    dones: &[Done],
) -> Option<usize>
    requires shelves { AreInOrder shelves.now }
    requires next { length next.old ≡ length after.now }
    requires passes { AreDistinct after.now }
    ensures all { IfNone result (AreTrue shelves.now next.old after.now jobs.now dones.now) }
    ensures each { IfNone result (AreTrueTo shelves.now next.old after.now jobs.now dones.now (length dones.now)) }
    ensures untrue { IfSome result (λ place. IsFirstUntrue shelves.now next.old after.now jobs.now dones.now place) }
    ensures within { IfSome result (λ place. place < length dones.now) }
{
    for place in 0..dones.len() {
        if !is_told(shelves, next, after, jobs, dones[place]) {
            return Some(place);
        }
    }
    None
}
