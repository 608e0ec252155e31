mod gates;
mod gathering;
mod serving;

use crate::calls::What::{ByEndpoint, Takes};
use crate::calls::{REGISTER, What, reply_text};
use crate::held::{calls, settle_with, settles_so};
use lw_crew::{Crew, CrewFault, Done, Gate, Job, JobOutcome, Pass, Sharing, gather};
use lw_held::{Settled, Unsettled, set_up};
use std::alloc::Global;
use std::process::Abort;
use std::sync::Wait;
use std::thread::Threads;

/// How many nodes and workers there are, and how these share jobs.
type Sizes = (u16, u32, Sharing);

/// The nodes of jobs, and the call that each of them is.
type List<'a> = (&'a [u16], What<'a>);

fn jobs_of<R: Abort>(rt: &R, alloc: Global, (nodes, what): List<'_>) -> Vec<Job> {
    let mut jobs = Vec::new(alloc);
    for node in nodes {
        let call = what.made(rt, alloc).expect(rt, "memory");
        jobs.push(Job { node: *node, call }).expect(rt, "memory");
    }
    jobs
}

/// Has a crew do the lists of jobs at new nodes, one after the other. Gives a line for each job, or for the fault, and
/// a last line of the passes; and the results of the last list.
fn played<R: Threads + Wait + Sync + Abort, G: Gate>(
    rt: &R,
    alloc: Global,
    (nodes, workers, sharing): Sizes,
    lists: &[List<'_>],
    gate: &G,
) -> (String, Vec<Done>) {
    assert!(rt; 1 <= nodes && nodes <= 16 && 1 <= workers && workers <= 8);
    let (shelves, mut passes) = set_up(alloc, nodes, workers).expect(rt, "memory");
    let mut crew = Crew::new(sharing);
    let (mut text, mut last) = (String::new(alloc), Vec::new(alloc));
    for list in lists {
        let jobs = jobs_of(rt, alloc, *list);
        let (after, result) = crew.serve_jobs(rt, alloc, &shelves, passes, &jobs, gate);
        passes = after;
        match result {
            Ok(dones) => {
                add_dones(rt, alloc, &mut text, &passes, &dones);
                last = dones;
            }
            Err(fault) => writeln!(text, "{fault:?}").expect(rt, "memory"),
        }
    }
    let settled = settle_with(rt, &shelves, &[], &passes);
    let (count, parts) = (passes.len(), parts_of(&passes));
    write!(text, "{count} passes, {parts} parts, {settled:?}").expect(rt, "memory");
    (text, last)
}

/// Adds what became of each job: the node, the place and the reply of its part, or why there is none.
fn add_dones<R: Abort>(rt: &R, alloc: Global, text: &mut String, passes: &[Pass], dones: &[Done]) {
    for Done { job, result } in dones {
        let JobOutcome::At { pass, number } = result else {
            writeln!(text, "{job}: {result:?}").expect(rt, "memory");
            continue;
        };
        let pass = passes.get(*pass as usize).expect(rt, "a pass");
        let part = pass.part(*number).expect(rt, "a part");
        let reply = reply_text(alloc, &part.entry.reply).expect(rt, "memory");
        let (node, place) = (part.node, part.place);
        writeln!(text, "{job}: {node} {place} {reply}").expect(rt, "memory");
    }
}

/// How many parts the passes have together.
fn parts_of(passes: &[Pass]) -> u64 {
    let mut sum = 0_u64;
    for pass in passes {
        sum = sum.wrapping_add(pass.len());
    }
    sum
}
