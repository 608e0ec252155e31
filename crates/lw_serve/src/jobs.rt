//! The jobs of a round.

ghost use Rattle.std.specs.Prelude.{◌≡◌, ◌≤◌, ◌++◌, length, vec_len, IfOk, OnOk};
ghost use Rattle.lw_serve.specs.Plan.{AreNodes};
ghost use Rattle.lw_reg.specs.AddrOrder.{port_of as port_in};
ghost use Rattle.lw_serve.specs.Jobs.{jobs_of_round, merges_of, node_of_source, sends_from, sweeps_of, take_of as take_job};

use bytes::Bytes;
use lw_crew::Job;
use lw_node::Call;
use lw_reg::Addr;
use lw_stamp::{Moment, NoMemory};
use lw_udp::Datagram;
use std::alloc::Global;

/// The jobs that were kept, behind them a Take for each datagram, at the node of its source, and last a Sweep of each
/// node.
pub(crate) fn round_jobs(
    mut kept: Vec<Job>,
    nodes: u16,
    now: Moment,
    batch: Vec<Datagram>,
) -> Result<Vec<Job>, NoMemory>
    requires { AreNodes nodes }
    ensures { IfOk result (λ jobs. jobs.items ≡ jobs_of_round kept.items nodes now batch.items) }
{
    let mut takes = batch
        .into_iter()
        .map(|datagram| take_of(nodes, now, datagram))
        .collect(*kept.allocator())?;
    kept.append(&mut takes)?;
    put_sweeps(&mut kept, nodes, now)?;
    Ok(kept)
}

fn take_of(nodes: u16, now: Moment, datagram: Datagram) -> Job
    requires { AreNodes nodes }
    ensures { result ≡ take_job nodes now datagram }
{
    let Datagram { from, bytes } = datagram;
    Job {
        node: node_of(&from, nodes),
        call: Call::Take { now, from, bytes },
    }
}

/// The node that a datagram from the address goes to.
fn node_of(from: &Addr, nodes: u16) -> u16
    requires { AreNodes nodes }
    ensures { result ≡ node_of_source nodes from.now }
{
    1 + port_of(from) % nodes
}

fn port_of(address: &Addr) -> u16
    ensures { result ≡ port_in address.now }
{
    match *address {
        Addr::V4 { port, .. } => port,
        Addr::V6 { port, .. } => port,
    }
}

/// Puts a Sweep of each node behind the jobs.
#[tactic(auto, using(crate::proofs::JobLemmas::sweeps_more))]
fn put_sweeps(jobs: &mut Vec<Job>, nodes: u16, now: Moment) -> Result<(), NoMemory>
    requires { AreNodes nodes }
    ensures { OnOk result (jobs.new.items ≡ jobs.old.items ++ sweeps_of now nodes) }
{
    for swept in 0..nodes {
        jobs.push(Job {
            node: swept + 1,
            call: Call::Sweep { now },
        })?;
    }
    Ok(())
}

/// A Send of each node since the change number that stands for it.
pub(crate) fn send_jobs(alloc: Global, since: &[u64]) -> Result<Vec<Job>, NoMemory>
    requires { length since.now ≤ 16 }
    ensures jobs { IfOk result (λ jobs. jobs.items ≡ sends_from 1 since.now) }
    ensures count { IfOk result (λ jobs. vec_len jobs ≡ length since.now) }
{
    let mut jobs = Vec::new(alloc);
    let mut node = 0;
    for change in since {
        node += 1;
        jobs.push(Job {
            node,
            call: Call::Send { since: *change },
        })?;
    }
    Ok(jobs)
}

/// Puts a Merge of a delta at each node but its sender behind the jobs. All share the delta's bytes.
#[tactic(auto, using(crate::proofs::JobLemmas::merges_more))]
pub(crate) fn put_merges(
    jobs: &mut Vec<Job>,
    nodes: u16,
    sender: u16,
    delta: &Bytes,
) -> Result<(), NoMemory>
    requires { AreNodes nodes }
    ensures { OnOk result (jobs.new.items ≡ jobs.old.items ++ merges_of sender delta.now nodes) }
{
    for place in 0..nodes {
        let node = place + 1;
        if node != sender {
            jobs.push(Job {
                node,
                call: Call::Merge {
                    bytes: delta.clone()?,
                },
            })?;
        }
    }
    Ok(())
}
