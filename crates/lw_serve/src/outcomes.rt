//! What became of jobs, read from the transcripts.

ghost use Rattle.std.specs.Prelude.{◌≡◌, ◌++◌, length, vec_len, IfOk, OnOk, option_map, option_copied, map};
ghost use Rattle.lw_call.specs.declared.reply.Reply.{Reply as Replies};
ghost use Rattle.lw_serve.specs.Plan.{AreNodes};
ghost use Rattle.lw_serve.specs.Outcomes.{change_after as next_change, is_merge as is_merge_call, is_out_of_memory as tells_no_memory, merges_after, merges_after_all, part_at, refused_merge as merge_refused, refused_merges as merges_refused, sent_at, sent_of as sent_in, wants_memory as lacks_memory};
ghost use Rattle.lw_serve.specs.inner.Outcomes.{reply_in as reply_told};

use crate::jobs::put_merges;
use lw_crew::{Done, Job, JobOutcome};
use lw_held::{Part, Pass};
use lw_node::{Call, MergeFault, Reply, Sent};
use lw_reg::Addr;
use lw_stamp::NoMemory;
use std::alloc::Global;

/// The part of the call that was made, if one was. A pass's number is its place.
pub(crate) fn part_of(passes: &[Pass], outcome: JobOutcome) -> Option<&Part>
    ensures { option_copied result ≡ part_at passes.now outcome }
{
    match outcome {
        JobOutcome::At { pass, number } => passes.get(pass as usize)?.part(number),
        JobOutcome::NoMemory => None,
        JobOutcome::NoSuchNode => None,
    }
}

/// Where the reply to a datagram goes, and its bytes, if the part is of a datagram that has one.
pub(crate) fn reply_in(part: &Part) -> Option<(Addr, &[u8])>
    ensures { option_map (λ reply. (reply.0, reply.1.now)) result ≡ reply_told part.now }
{
    match (&part.entry.call, &part.entry.reply) {
        (Call::Take { from, .. }, Reply::Take(Ok(taken))) => Some((*from, taken.reply.as_deref()?)),
        _ => None,
    }
}

fn sent_of(reply: &Reply) -> Option<&Sent>
    ensures { option_copied result ≡ sent_in reply.now }
{
    match reply {
        Reply::Send(Ok(sent)) => Some(sent),
        _ => None,
    }
}

/// For each node the change number since which it sends next, where it sent since these.
pub(crate) fn changes_after(
    alloc: Global,
    since: &[u64],
    passes: &[Pass],
    dones: &[Done],
) -> Result<Vec<u64>, NoMemory>
    ensures changes { IfOk result (λ changes. changes.items ≡ map (next_change since.now passes.now) dones.now) }
    ensures count { IfOk result (λ changes. vec_len changes ≡ length dones.now) }
{
    let changes = dones
        .iter()
        .map(|done| change_after(since, passes, done))
        .collect(alloc)?;
    Ok(changes)
}

fn change_after(since: &[u64], passes: &[Pass], done: &Done) -> u64
    ensures { result ≡ next_change since.now passes.now done.now }
{
    match change_of(passes, done.result) {
        Some(change) => change,
        None => since.get(done.job as usize).copied().unwrap_or(0),
    }
}

fn change_of(passes: &[Pass], outcome: JobOutcome) -> Option<u64>
    ensures { result ≡ option_map (λ sent. sent.change) (sent_at passes.now outcome) }
{
    Some(sent_of(&part_of(passes, outcome)?.entry.reply)?.change)
}

/// Puts the merges of what was sent behind the jobs.
pub(crate) fn put_all_merges(
    nodes: u16,
    passes: &[Pass],
    dones: &[Done],
    jobs: &mut Vec<Job>,
) -> Result<(), NoMemory>
    requires { AreNodes nodes }
    ensures { OnOk result (jobs.new.items ≡ jobs.old.items ++ merges_after_all nodes passes.now dones.now) }
{
    for done in dones {
        put_merges_after(nodes, passes, done, jobs)?;
    }
    Ok(())
}

fn put_merges_after(
    nodes: u16,
    passes: &[Pass],
    done: &Done,
    jobs: &mut Vec<Job>,
) -> Result<(), NoMemory>
    requires { AreNodes nodes }
    ensures { OnOk result (jobs.new.items ≡ jobs.old.items ++ merges_after nodes passes.now done.now) }
{
    let Some(part) = part_of(passes, done.result) else {
        return Ok(());
    };
    let Some(sent) = sent_of(&part.entry.reply) else {
        return Ok(());
    };
    put_merges(jobs, nodes, part.node, &sent.delta)
}

/// The merges among the jobs that found no memory, in job order.
pub(crate) fn refused_merges(
    alloc: Global,
    passes: &[Pass],
    jobs: &[Job],
    dones: &[Done],
) -> Result<Vec<Job>, NoMemory>
    ensures { IfOk result (λ refused. refused.items ≡ merges_refused jobs.now passes.now dones.now) }
{
    let mut refused = Vec::new(alloc);
    for done in dones {
        if let Some(job) = refused_merge(passes, jobs, done) {
            refused.push(copy_of(alloc, job)?)?;
        }
    }
    Ok(refused)
}

fn refused_merge<'a>(passes: &[Pass], jobs: &'a [Job], done: &Done) -> Option<&'a Job>
    ensures { option_copied result ≡ merge_refused jobs.entry.now passes.now done.now }
{
    let job = jobs.get(done.job as usize)?;
    (is_merge(&job.call) && wants_memory(passes, done.result)).then_some(job)
}

fn is_merge(call: &Call) -> bool
    ensures { result ≡ is_merge_call call.now }
{
    matches!(call, Call::Merge { .. })
}

fn wants_memory(passes: &[Pass], outcome: JobOutcome) -> bool
    ensures { result ≡ lacks_memory passes.now outcome }
{
    match outcome {
        JobOutcome::NoMemory => true,
        _ => match part_of(passes, outcome) {
            Some(part) => is_out_of_memory(&part.entry.reply),
            None => false,
        },
    }
}

fn is_out_of_memory(reply: &Reply) -> bool
    ensures { result ≡ tells_no_memory reply.now }
{
    matches!(reply, Reply::Merge(Err(MergeFault::NoMemory { .. })))
}

/// The same job. The bytes of its call are not copied.
fn copy_of(alloc: Global, job: &Job) -> Result<Job, NoMemory>
    ensures { IfOk result (λ copy. copy ≡ job.now) }
{
    Ok(Job {
        node: job.node,
        call: job.call.copy(alloc)?,
    })
}
