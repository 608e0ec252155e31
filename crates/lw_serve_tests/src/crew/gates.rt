//! What a gate is told, and when.

use super::*;
use std::sync::atomic::{AtomicU64, Ordering};
use std::thread;
use std::time::{Clock, Duration};

/// Counts one, and gives how many there were before.
fn add_one(count: &AtomicU64) -> u64 {
    count.fetch_add(1, Ordering::SeqCst)
}

/// Waits for up to ten seconds until there are so many.
fn wait_for<R: Clock + Abort>(rt: &R, count: &AtomicU64, want: u64) {
    for _turn in 0..10_000 {
        if count.load(Ordering::SeqCst) >= want {
            return;
        }
        thread::sleep(rt, Duration::from_millis(1));
    }
    panic!(rt; "a wait for {want} in vain");
}

/// Watches which jobs start, lets no worker do one of them, holds each worker until so many have started a job, and
/// stays inside for a while.
#[derive(Drop)]
pub(super) struct Watch<'a, R: Clock + Abort + Sync> {
    pub(super) rt: &'a R,
    /// The job that is not done while fewer than so many have started.
    pub(super) refused: (u64, u64),
    pub(super) awaited: u64,
    /// In milliseconds.
    pub(super) stays: u64,
    pub(super) started: AtomicU64,
    /// How many jobs were not the next one, or of another worker than the first.
    pub(super) astray: AtomicU64,
    /// How many were of another worker than the first.
    pub(super) others: AtomicU64,
}

impl<'a, R: Clock + Abort + Sync> Watch<'a, R> {
    pub(super) fn new(rt: &'a R, refused: (u64, u64), awaited: u64, stays: u64) -> Watch<'a, R> {
        Watch {
            rt,
            refused,
            awaited,
            stays,
            started: AtomicU64::new(0),
            astray: AtomicU64::new(0),
            others: AtomicU64::new(0),
        }
    }

    /// How many jobs were started, how many of them astray, and how many by others.
    pub(super) fn counts(&self) -> (u64, u64, u64) {
        (
            self.started.load(Ordering::SeqCst),
            self.astray.load(Ordering::SeqCst),
            self.others.load(Ordering::SeqCst),
        )
    }
}

impl<R: Clock + Abort + Sync> Gate for Watch<'_, R> {
    fn start(&self, worker: u32, job: u64) -> bool {
        let before = add_one(&self.started);
        if worker != 0 {
            add_one(&self.others);
        }
        if worker != 0 || job != before {
            add_one(&self.astray);
        }
        wait_for(self.rt, &self.started, self.awaited);
        let (refused, until) = self.refused;
        job != refused || before >= until
    }

    fn inside(&self, _node: u16, _pass: u32) {
        thread::sleep(self.rt, Duration::from_millis(self.stays));
    }

    fn answered(&self, _node: u16, _pass: u32) {}
}

/// For each job, the sum of what was told of it.
type Notes = Vec<AtomicU64>;

fn add(notes: &Notes, job: u64, number: u32) {
    if let Some(note) = notes.get(job as usize) {
        note.fetch_add(u64::from(number).wrapping_add(1), Ordering::SeqCst);
    }
}

/// Holds workers with nine jobs or fewer, of which each few in a row are at nodes 1, 2 and so on. Each worker is held
/// until as many have started a job, and each call until as many are inside. So the jobs are done in rounds. Of each
/// job are noted the worker that started it and the pass that was told inside and when it was answered, counted from 1.
#[derive(Drop)]
struct Rounds<'a, R: Clock + Abort + Sync> {
    rt: &'a R,
    /// How many jobs a round has.
    width: u64,
    started: AtomicU64,
    inside: AtomicU64,
    answered: AtomicU64,
    workers: Notes,
    passes_inside: Notes,
    passes_answered: Notes,
}

/// Nine notes.
fn notes<R: Abort>(rt: &R, alloc: Global) -> Notes {
    let mut notes = Vec::new(alloc);
    for _job in 0..9 {
        notes.push(AtomicU64::new(0)).expect(rt, "memory");
    }
    notes
}

/// The first job of the round of that width in which so many came before.
fn first_of_round(width: u64, before: u64) -> u64 {
    match before.checked_rem(width) {
        Some(place) => before.wrapping_sub(place),
        None => before,
    }
}

/// Counts one, and waits until all of its round are counted. Gives how many there were before the round.
fn meet<R: Clock + Abort>(rt: &R, width: u64, count: &AtomicU64) -> u64 {
    let first = first_of_round(width, add_one(count));
    wait_for(rt, count, first.wrapping_add(width));
    first
}

/// For how many jobs the note is of the pass that made the call, which was done in its round.
fn of_pass(notes: &Notes, width: u64, dones: &[Done]) -> u64 {
    let mut count = 0_u64;
    for done in dones {
        if let (Some(note), JobOutcome::At { pass, number }) = (
            notes.get(done.job as usize),
            done.result,
        )
            && done.job.checked_div(width) == Some(number)
            && note.load(Ordering::SeqCst) == u64::from(pass).wrapping_add(1)
        {
            count = count.wrapping_add(1);
        }
    }
    count
}

/// The job at the node in the round of the first job.
fn job_at(first: u64, node: u16) -> u64 {
    first.wrapping_add(u64::from(node)).wrapping_sub(1)
}

impl<R: Clock + Abort + Sync> Gate for Rounds<'_, R> {
    fn start(&self, worker: u32, job: u64) -> bool {
        let first = meet(self.rt, self.width, &self.started);
        // A job of another round is not noted.
        if first_of_round(self.width, job) == first {
            add(&self.workers, job, worker);
        }
        true
    }

    fn inside(&self, node: u16, pass: u32) {
        let first = meet(self.rt, self.width, &self.inside);
        add(&self.passes_inside, job_at(first, node), pass);
    }

    fn answered(&self, node: u16, pass: u32) {
        let first = first_of_round(self.width, add_one(&self.answered));
        add(&self.passes_answered, job_at(first, node), pass);
    }
}

/// How many nodes and workers there are, at which nodes the jobs are, and what comes of them.
static AT_ONCE: [(u16, u32, &[u16], &str); 2] = [
    (
        2,
        2,
        &[1, 2],
        "0: 1 0 604100048272640d0330303030303030303030303130303031
1: 2 0 604100048272640d0330303030303030303030303130303032
2 passes, 2 parts, Ok(Settled)",
    ),
    (
        3,
        3,
        &[1, 2, 3, 1, 2, 3, 1, 2, 3],
        "0: 1 0 604100048272640d0330303030303030303030303130303031
1: 2 0 604100048272640d0330303030303030303030303130303032
2: 3 0 604100048272640d0330303030303030303030303130303033
3: 1 1 604100048272640d0330303030303030303030303230303031
4: 2 1 604100048272640d0330303030303030303030303230303032
5: 3 1 604100048272640d0330303030303030303030303230303033
6: 1 2 604100048272640d0330303030303030303030303330303031
7: 2 2 604100048272640d0330303030303030303030303330303032
8: 3 2 604100048272640d0330303030303030303030303330303033
3 passes, 9 parts, Ok(Settled)",
    ),
];

/// Tries: Crew::serve_jobs, Crew::new, lw_held::Shelf::call
#[test]
fn workers_do_jobs_at_once_and_in_order(rt: HostRuntime) {
    let alloc = rt.alloc();
    for (nodes, workers, at, want) in &AT_ONCE {
        let gate = Rounds {
            rt: &rt,
            width: u64::from(*nodes),
            started: AtomicU64::new(0),
            inside: AtomicU64::new(0),
            answered: AtomicU64::new(0),
            workers: notes(&rt, alloc),
            passes_inside: notes(&rt, alloc),
            passes_answered: notes(&rt, alloc),
        };
        let sizes = (*nodes, *workers, Sharing::ByNode);
        let (text, dones) = played(&rt, alloc, sizes, &[(at, Takes(REGISTER))], &gate);
        assert_eq!(rt; text.as_str(), *want);
        let count = at.len() as u64;
        assert_eq!(rt; gate.answered.load(Ordering::SeqCst), count);
        assert_eq!(rt; of_pass(&gate.workers, gate.width, &dones), count);
        assert_eq!(rt; of_pass(&gate.passes_inside, gate.width, &dones), count);
        assert_eq!(rt; of_pass(&gate.passes_answered, gate.width, &dones), count);
    }
}

/// Watches two workers that call the first node. The first call stays inside for a while when the other worker has its
/// job, and is alone there. Then, when it was answered, it waits until the other is inside.
#[derive(Drop)]
struct Turns<'a, R: Clock + Abort + Sync> {
    rt: &'a R,
    started: AtomicU64,
    inside: AtomicU64,
}

impl<R: Clock + Abort + Sync> Gate for Turns<'_, R> {
    fn start(&self, _worker: u32, _job: u64) -> bool {
        add_one(&self.started);
        true
    }

    fn inside(&self, node: u16, _pass: u32) {
        if node == 1 && add_one(&self.inside) == 0 {
            wait_for(self.rt, &self.started, 2);
            thread::sleep(self.rt, Duration::from_millis(200));
            assert_eq!(self.rt; self.inside.load(Ordering::SeqCst), 1, "one alone inside");
        }
    }

    fn answered(&self, node: u16, _pass: u32) {
        if node == 1 {
            wait_for(self.rt, &self.inside, 2);
        }
    }
}

/// Tries: Crew::serve_jobs, lw_held::Shelf::call
#[test]
fn a_call_is_alone_inside_and_answered_after_the_lock(rt: HostRuntime) {
    let gate = Turns {
        rt: &rt,
        started: AtomicU64::new(0),
        inside: AtomicU64::new(0),
    };
    // A third job, at another node, is what the second worker has its thread for.
    let list: List<'_> = (&[1, 1, 2], Takes(REGISTER));
    let (text, _dones) = played(&rt, rt.alloc(), (2, 2, Sharing::ByNode), &[list], &gate);
    assert!(rt;
        text.ends_with("\n2 passes, 3 parts, Ok(Settled)"),
        "{text}"
    );
}
