ghost use Rattle.std.specs.Prelude.{◌≡◌, length, vec_len, IfErr, IfOk, OnOk};
ghost use Rattle.std.specs.Io.KnownBytes.{Appends};
ghost use Rattle.lw_serve.specs.Ending.{settled_line, IsStopped};
ghost use Rattle.lw_serve.specs.Rounds.{IsRound};
ghost use Rattle.lw_serve.specs.Runs.{IsBegun, IsFinished};
ghost use Rattle.lw_serve.specs.inner.Runs.{EndsFinish, EndsRound};
ghost use Rattle.lw_serve.specs.inner.Volumes.{AreOfNodes};

use crate::ending::write_settled;
use crate::fault::ServeFault;
use crate::jobs::{round_jobs, send_jobs};
use crate::nodes::Nodes;
use crate::outcomes::{changes_after, put_all_merges, refused_merges};
use crate::plan::Plan;
use crate::replying::send_replies;
use crate::sink::VolumeSink;
use crate::wire::Wire;
use log::Log;
use lw_crew::Job;
use lw_stamp::{Moment, NoMemory};
use lw_udp::Datagram;
use std::alloc::Global;
use std::io::Write;
use std::sync::Wait;
use std::thread::Threads;

/// The nodes of a run, and what stays from one round to the next.
#[derive(Drop)]
pub(crate) struct Server {
    nodes: Nodes,
    /// The merges for the next round.
    kept: Vec<Job>,
    /// For each node the change number that its last Send replied.
    since: Vec<u64>,
    ghost each_sends: { vec_len since ≡ vec_len nodes.shelves },
}

impl Server {
    /// New nodes that have sent nothing.
    pub(crate) fn new(alloc: Global, plan: &Plan) -> Result<Server, NoMemory>
        ensures shelves { IfOk result (λ server. vec_len server.nodes.shelves ≡ plan.now.nodes) }
        ensures begun { IfOk result (λ server. IsBegun plan.now (record {
          left = plan.now.count;
          passes = server.nodes.passes.items;
          kept = server.kept.items;
          since = server.since.items;
        })) }
    {
        Ok(Server {
            nodes: Nodes::new(alloc, plan)?,
            kept: Vec::new(alloc),
            since: vec![in alloc; 0; plan.nodes as usize]?,
        })
    }

    /// Takes a batch of datagrams, sweeps each node and sends the replies; then each node sends what it has learnt since
    /// its last Send, which the others merge in the next round.
    pub(crate) fn round<R: Threads + Wait + Sync, W: Wire, L: Log>(
        self,
        rt: &R,
        alloc: Global,
        wire: &mut W,
        log: &L,
        now: Moment,
        batch: Vec<Datagram>,
    ) -> Result<Server, ServeFault>
        ensures shelves { IfOk result (λ server. server.nodes.shelves ≡ self.nodes.shelves) }
        ensures round { IfOk result (λ server. IsRound self.nodes.shelves.items now batch.items
            self.nodes.passes.items server.nodes.passes.items self.kept.items
            server.kept.items self.since.items server.since.items) }
        ensures fault { IfErr result EndsRound }
    {
        let Server { nodes, kept, since } = self;
        let count = nodes.count();
        let jobs = round_jobs(kept, count, now, batch)?;
        let (nodes, dones) = nodes.serve(rt, alloc, &jobs)?;
        send_replies(wire, log, nodes.passes(), &dones);
        let mut kept = refused_merges(alloc, nodes.passes(), &jobs, &dones)?;
        let sends = send_jobs(alloc, &since)?;
        let (nodes, sent) = nodes.serve(rt, alloc, &sends)?;
        let since = changes_after(alloc, &since, nodes.passes(), &sent)?;
        put_all_merges(count, nodes.passes(), &sent, &mut kept)?;
        Ok(Server { nodes, kept, since })
    }

    /// Cuts all journals, or those whose last cut was refused, and hands the volumes to the sink.
    pub(crate) fn cut<R: Wait, S: VolumeSink>(self, rt: &R, all: bool, sink: &mut S) -> Server
        requires { AreOfNodes (length self.nodes.shelves.items) (S.kept sink.old) }
        ensures volumes { AreOfNodes (length self.nodes.shelves.items) (S.kept sink.new) }
        ensures shelves { result.nodes.shelves ≡ self.nodes.shelves }
        ensures passes { result.nodes.passes ≡ self.nodes.passes }
        ensures kept { result.kept ≡ self.kept }
        ensures since { result.since ≡ self.since }
    {
        let Server { nodes, kept, since } = self;
        Server {
            nodes: nodes.cut(rt, all, sink),
            kept,
            since,
        }
    }

    /// Has the last merges done, and writes `settled` where the sink's volumes and the journals are then what the
    /// transcripts say.
    pub(crate) fn finish<R: Threads + Wait + Sync, S: VolumeSink, O: Write>(
        self,
        rt: &R,
        alloc: Global,
        sink: &S,
        writer: &mut O,
    ) -> Result<(), ServeFault>
        requires { AreOfNodes (length self.nodes.shelves.items) (S.kept sink.now) }
        ensures finished { OnOk result
            (IsFinished self.nodes.shelves.items (S.kept sink.now) self.nodes.passes.items self.kept.items) }
        ensures settled { OnOk result (Appends (O.contents writer.old) (O.contents writer.new) settled_line) }
        ensures stopped { IfErr result (λ fault. IsStopped fault (O.contents writer.old) (O.contents writer.new)) }
        ensures fault { IfErr result
            (EndsFinish self.nodes.shelves.items (S.kept sink.now) self.nodes.passes.items self.kept.items) }
    {
        let Server { nodes, kept, .. } = self;
        let (nodes, _dones) = nodes.serve(rt, alloc, &kept)?;
        nodes.settle(rt, sink)?;
        write_settled(writer)
    }
}
