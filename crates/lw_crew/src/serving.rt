//! Jobs done by workers.

ghost use Rattle.std.specs.Prelude.{◌≡◌, ◌↔◌, ◌≤◌, List, length, vec_len, IfErr, IfOk, IsTrue, None};
ghost use Rattle.lw_held.specs.Agree.{AreDistinct};
ghost use Rattle.lw_held.specs.Shelves.{AreInOrder};
ghost use Rattle.lw_crew.specs.Continues.{AllContinue};
ghost use Rattle.lw_crew.specs.Jobs.{AreDone, lengths};
ghost use Rattle.lw_crew.specs.Refusals.{IsRefused};
ghost use Rattle.lw_crew.specs.inner.Refusals.{IsMissing};
ghost use Rattle.lw_crew.specs.declared.job.Done.{Done as Told};

use crate::board::Board;
use crate::checking::{first_untrue, lengths_of};
use crate::gathering::gather;
use crate::job::{CrewFault, Done, Job};
use crate::need::{Sharing, threads_for};
use crate::work::work_all;
use lw_held::{Gate, Pass, Shelf};
use lw_stamp::NoMemory;
use std::alloc::Global;
use std::sync::Wait;
use std::thread::Threads;

/// Workers, who keep the channels between them from one list of jobs to the next.
#[derive(Drop)]
pub struct Crew {
    sharing: Sharing,
    board: Option<Board>,
}

impl Crew {
    /// Workers who share jobs so, without channels. These are made for the first list of jobs.
    pub fn new(sharing: Sharing) -> Crew
        ensures { result.board ≡ None }
    {
        Crew {
            sharing,
            board: None,
        }
    }

    /// Has the jobs done by one worker for each pass: the first on the thread that calls, and others on threads of
    /// their own where several nodes have jobs that are worth one. The jobs are handed out in order. A worker that the
    /// gate stops does not do the job that it holds, and one that cannot be started does none. The passes come back
    /// with each call that was made, whatever the result is.
    ///
    /// Whatever was told of the jobs, the first result that is not true of the passes is a stranger, and the first that
    /// is the second of its job a double. The one that comes first is the fault, and else the least job without a
    /// result.
    pub fn serve_jobs<R: Threads + Wait + Sync, G: Gate>(
        &mut self,
        rt: &R,
        alloc: Global,
        shelves: &[Shelf],
        passes: Vec<Pass>,
        jobs: &[Job],
        gate: &G,
    ) -> (Vec<Pass>, Result<Vec<Done>, CrewFault>)
        requires workers { (1 ≤ vec_len passes) × (vec_len passes ≤ 8) }
        requires shelves { AreInOrder shelves.now }
        requires distinct { AreDistinct passes.items }
        ensures passes { AllContinue passes.items result.0.items }
        ensures distinct { AreDistinct result.0.items }
        ensures done { IfOk result.1 (λ dones.
            AreDone shelves.now (lengths passes.items) result.0.items jobs.now dones.items) }
        // The list is what the channel brought, of which nothing is known.
        ensures refused { IfErr result.1 (λ fault. (told : List Told)
            × IsRefused shelves.now (lengths passes.items) result.0.items jobs.now told fault) }
    {
        let Ok(before) = lengths_of(alloc, &passes) else {
            return (passes, Err(CrewFault::NoMemory));
        };
        let threads = threads_for(self.sharing, jobs);
        let (passes, told) = run(
            rt,
            alloc,
            &mut self.board,
            threads,
            shelves,
            passes,
            jobs,
            gate,
        );
        let result = match told {
            Ok(dones) => checked(alloc, shelves, before, &passes, jobs, dones),
            Err(NoMemory) => Err(CrewFault::NoMemory),
        };
        (passes, result)
    }
}

/// Has the workers work on so many threads, and gives what they tell.
#[tactic(auto, using(crate::proofs::Continue::distinct_after))]
fn run<R: Threads + Wait + Sync, G: Gate>(
    rt: &R,
    alloc: Global,
    kept: &mut Option<Board>,
    threads: u32,
    shelves: &[Shelf],
    passes: Vec<Pass>,
    jobs: &[Job],
    gate: &G,
) -> (Vec<Pass>, Result<Vec<Done>, NoMemory>)
    requires workers { vec_len passes ≤ 8 }
    requires distinct { AreDistinct passes.items }
    ensures passes { AllContinue passes.items result.0.items }
    ensures distinct { AreDistinct result.0.items }
{
    let Ok(dones) = Vec::with_capacity(alloc, jobs.len()) else {
        return (passes, Err(NoMemory));
    };
    let board = match Board::ready(rt, alloc, kept, jobs.len()) {
        Ok(board) => board,
        Err(refused) => return (passes, Err(refused)),
    };
    let passes = work_all(rt, gate, shelves, jobs, &board, threads, passes);
    (passes, board.results(rt, kept, jobs.len(), dones))
}

/// The results in the order of the jobs, if each is what became of its job. A result that is not is of a stranger, and
/// what comes before it counts first.
fn checked(
    alloc: Global,
    shelves: &[Shelf],
    mut before: Vec<u64>,
    after: &[Pass],
    jobs: &[Job],
    mut dones: Vec<Done>,
) -> Result<Vec<Done>, CrewFault>
    requires shelves { AreInOrder shelves.now }
    requires before { vec_len before ≡ length after.now }
    requires distinct { AreDistinct after.now }
    ensures ok { IfOk result (λ all. AreDone shelves.now before.items after.now jobs.now all.items) }
    ensures err { IfErr result (λ fault. IsRefused shelves.now before.items after.now jobs.now dones.items fault) }
{
    let count = jobs.len() as u64;
    let Some(place) = first_untrue(shelves, &mut before, after, jobs, &dones) else {
        return gather(alloc, count, dones);
    };
    let stranger = CrewFault::Stranger {
        job: dones[place].job,
    };
    dones.truncate(place);
    match gather(alloc, count, dones) {
        Ok(_) => Err(stranger),
        Err(earlier) => Err(if is_missing(earlier) {
            stranger
        } else {
            earlier
        }),
    }
}

/// Whether the fault is that a job has no result.
fn is_missing(fault: CrewFault) -> bool
    ensures { IsTrue result ↔ IsMissing fault }
{
    match fault {
        CrewFault::Missing { .. } => true,
        CrewFault::Double { .. } | CrewFault::Stranger { .. } | CrewFault::NoMemory => false,
    }
}
