//! Workers.

ghost use Rattle.std.specs.Prelude.{◌≡◌, ◌≤◌, vec_capacity, vec_len, IfErr, IfOk};
ghost use Rattle.lw_crew.specs.Continues.{AllContinue, Continues};

use crate::board::Board;
use crate::checking::shelf_of;
use crate::job::{Done, Job, JobOutcome};
use lw_held::{Gate, Pass, Shelf};
use lw_stamp::NoMemory;
use std::snapshot::Snapshot;
use std::sync::Wait;
use std::sync::atomic::Ordering;
use std::thread::{self, Promise, PromisedHandle, Scope, Threads};

/// That a pass comes back as it was, or with more parts.
#[derive(Drop)]
struct Continuing(Snapshot<Pass>);

impl Promise<Pass> for Continuing {
    ghost kept_by = { λ promise result. Continues promise.0.value result };
}

/// Makes the call of the job with the pass.
fn do_job<R: Wait, G: Gate>(
    rt: &R,
    gate: &G,
    shelves: &[Shelf],
    job: &Job,
    pass: &mut Pass,
) -> JobOutcome
    ensures { Continues pass.old pass.new }
{
    let Some(shelf) = shelf_of(shelves, job.node) else {
        return JobOutcome::NoSuchNode;
    };
    let number = pass.len();
    match shelf.call(rt, gate, pass, &job.call) {
        Ok(_place) => JobOutcome::At {
            pass: pass.number(),
            number,
        },
        Err(NoMemory) => JobOutcome::NoMemory,
    }
}

/// Does jobs until there are no more, or the gate stops the worker.
fn do_jobs<R: Wait, G: Gate>(
    rt: &R,
    gate: &G,
    shelves: &[Shelf],
    jobs: &[Job],
    board: &Board,
    worker: u32,
    pass: &mut Pass,
)
    ensures { Continues pass.old pass.new }
{
    for _turn in 0..jobs.len() {
        let Ok(number) = board.numbers.try_recv(rt) else {
            return;
        };
        if !gate.start(worker, number) {
            return;
        }
        let Some(job) = jobs.get(number as usize) else {
            return;
        };
        let result = do_job(rt, gate, shelves, job, pass);
        let told = Done {
            job: number,
            result,
        };
        if board.tell.send(rt, told).is_err() {
            return;
        }
    }
}

/// Has a worker work with each pass, one after another on this thread. The passes come back in order.
fn work_in_turn<R: Wait, G: Gate>(
    rt: &R,
    gate: &G,
    shelves: &[Shelf],
    jobs: &[Job],
    board: &Board,
    mut passes: Vec<Pass>,
) -> Vec<Pass>
    requires { vec_len passes ≤ 8 }
    ensures all { AllContinue passes.items result.items }
    ensures room { vec_capacity passes ≤ vec_capacity result }
{
    let Some(mut pass) = passes.pop() else {
        return passes;
    };
    let worker = passes.len() as u32;
    let mut all = work_in_turn(rt, gate, shelves, jobs, board, passes);
    do_jobs(rt, gate, shelves, jobs, board, worker, &mut pass);
    all.push_reserved(pass);
    all
}

/// What a worker does on a thread of its own; nothing where it is the one that could not be started.
fn work<R: Wait, G: Gate>(
    rt: &R,
    gate: &G,
    shelves: &[Shelf],
    jobs: &[Job],
    board: &Board,
    worker: u32,
    mut pass: Pass,
) -> Pass
    ensures { Continues pass result }
{
    if board.unstarted.load(Ordering::SeqCst) != worker {
        do_jobs(rt, gate, shelves, jobs, board, worker, &mut pass);
    }
    pass
}

/// Starts the worker, or gives the pass back.
fn start<'s, E, R: Threads + Wait + Sync, G: Gate>(
    scope: &Scope<'s, E>,
    rt: &'s R,
    gate: &'s G,
    shelves: &'s [Shelf],
    jobs: &'s [Job],
    board: &'s Board,
    worker: u32,
    pass: Pass,
) -> Result<PromisedHandle<Pass, Continuing>, Pass>
    ensures ok { IfOk result (λ handle. handle.promise.0.value ≡ pass) }
    ensures err { IfErr result (λ back. Continues pass back) }
{
    let promise = Continuing(Snapshot::of(&pass));
    match scope.spawn_with(
        promise,
        move || work(rt, gate, shelves, jobs, board, worker, pass),
    ) {
        Ok(handle) => Ok(handle),
        Err(unspawned) => {
            // the pass is inside the closure, which does nothing now but give it back
            board.unstarted.store(worker, Ordering::SeqCst);
            Err((unspawned.value)())
        }
    }
}

/// Whether the worker has a thread of its own, among so many with the one that calls.
fn has_own_thread(worker: u32, threads: u32) -> bool {
    worker != 0 && worker < threads
}

/// Has a worker work with each pass: as many as there are threads at once, the first on this thread and the others each
/// on its own, and then the rest one after another on this one. The passes come back in order.
fn work_with<'s, E, R: Threads + Wait + Sync, G: Gate>(
    scope: &Scope<'s, E>,
    rt: &'s R,
    gate: &'s G,
    shelves: &'s [Shelf],
    jobs: &'s [Job],
    board: &'s Board,
    threads: u32,
    mut passes: Vec<Pass>,
) -> Vec<Pass>
    requires { vec_len passes ≤ 8 }
    ensures all { AllContinue passes.items result.items }
    ensures room { vec_capacity passes ≤ vec_capacity result }
{
    let Some(mut pass) = passes.pop() else {
        return passes;
    };
    let worker = passes.len() as u32;
    if !has_own_thread(worker, threads) {
        let mut back = work_with(scope, rt, gate, shelves, jobs, board, threads, passes);
        do_jobs(rt, gate, shelves, jobs, board, worker, &mut pass);
        back.push_reserved(pass);
        return back;
    }
    let started = start(scope, rt, gate, shelves, jobs, board, worker, pass);
    let mut back = work_with(scope, rt, gate, shelves, jobs, board, threads, passes);
    let last = match started {
        Ok(handle) => handle.join(rt),
        Err(pass) => pass,
    };
    back.push_reserved(last);
    back
}

/// Has a worker work with each pass, on so many threads. A worker that cannot be started does nothing. The passes come
/// back in order.
pub(crate) fn work_all<R: Threads + Wait + Sync, G: Gate>(
    rt: &R,
    gate: &G,
    shelves: &[Shelf],
    jobs: &[Job],
    board: &Board,
    threads: u32,
    passes: Vec<Pass>,
) -> Vec<Pass>
    requires { vec_len passes ≤ 8 }
    ensures { AllContinue passes.items result.items }
{
    if threads == 1 || passes.len() == 1 {
        return work_in_turn(rt, gate, shelves, jobs, board, passes);
    }
    thread::scope(
        thread::scope_env(),
        rt,
        |scope| -> Vec<Pass>
            requires { vec_len passes ≤ 8 }
            ensures { AllContinue passes.items result.items }
        { work_with(scope, rt, gate, shelves, jobs, board, threads, passes) },
    )
}
