ghost use Rattle.std.specs.Prelude.{◌≡◌, length, vec_len, IfErr, IfOk, OnOk};
ghost use Rattle.lw_held.specs.Agree.{AreDistinct};
ghost use Rattle.lw_held.specs.Shelves.{AreInOrder, AreNew, AreSettled, IsUnsettled};
ghost use Rattle.lw_serve.specs.Plan.{AreNodes, AreWorkers};
ghost use Rattle.lw_serve.specs.Rounds.{Serves};
ghost use Rattle.lw_serve.specs.inner.Rounds.{AreNumbered};
ghost use Rattle.lw_serve.specs.inner.Volumes.{AreOfNodes};

use crate::cutting::cut_journals;
use crate::plan::Plan;
use crate::sink::VolumeSink;
use lw_crew::{Crew, CrewFault, Done, Job, Sharing};
use lw_held::{NoGate, Pass, Settled, Shelf, Unsettled, set_up, settle};
use lw_stamp::NoMemory;
use std::alloc::Global;
use std::sync::Wait;
use std::thread::Threads;

/// Nodes behind locks, and the workers that call them, with their passes.
#[derive(Drop)]
pub(crate) struct Nodes {
    crew: Crew,
    shelves: Vec<Shelf>,
    passes: Vec<Pass>,
    /// Of each node whether its journal is still to be cut.
    due: Vec<bool>,
    ghost nodes_in_range: { AreNodes (vec_len shelves) },
    ghost workers_in_range: { AreWorkers (vec_len passes) },
    ghost in_order: { AreInOrder shelves.items },
    ghost distinct: { AreDistinct passes.items },
    ghost numbered: { AreNumbered passes.items },
    ghost each_due: { vec_len due ≡ vec_len shelves },
}

impl Nodes {
    /// Nodes and passes that no call was made with.
    #[tactic(auto, using(crate::proofs::Numbering::numbered_new))]
    pub(crate) fn new(alloc: Global, plan: &Plan) -> Result<Nodes, NoMemory>
        ensures shelves { IfOk result (λ nodes. vec_len nodes.shelves ≡ plan.now.nodes) }
        ensures passes { IfOk result (λ nodes. (vec_len nodes.passes ≡ plan.now.workers) × AreNew nodes.passes.items) }
    {
        let (shelves, passes) = set_up(alloc, plan.nodes, plan.workers)?;
        Ok(Nodes {
            crew: Crew::new(Sharing::ByWork),
            shelves,
            passes,
            due: vec![in alloc; false; plan.nodes as usize]?,
        })
    }

    /// How many nodes there are.
    pub(crate) fn count(&self) -> u16
        ensures value { result ≡ vec_len self.now.shelves }
        ensures in_range { AreNodes result }
    {
        self.shelves.len() as u16
    }

    pub(crate) fn passes(&self) -> &[Pass]
        ensures { result.now ≡ self.now.passes.items }
    {
        self.passes.as_slice()
    }

    /// Has the workers do the jobs.
    #[tactic(auto, using(crate::proofs::Numbering::numbered_after))]
    pub(crate) fn serve<R: Threads + Wait + Sync>(
        self,
        rt: &R,
        alloc: Global,
        jobs: &[Job],
    ) -> Result<(Nodes, Vec<Done>), CrewFault>
        ensures shelves { IfOk result (λ r. r.0.shelves ≡ self.shelves) }
        ensures count { IfOk result (λ r. vec_len r.1 ≡ length jobs.now) }
        ensures served { IfOk result (λ r.
            Serves self.shelves.items self.passes.items r.0.passes.items jobs.now r.1.items) }
    {
        let Nodes {
            mut crew,
            shelves,
            passes,
            due,
        } = self;
        let (passes, result) = crew.serve_jobs(rt, alloc, &shelves, passes, jobs, &NoGate);
        let dones = result?;
        let nodes = Nodes {
            crew,
            shelves,
            passes,
            due,
        };
        Ok((nodes, dones))
    }

    /// Cuts all journals, or those that are still to be cut, and hands the volumes to the sink. A cut that is refused is
    /// to be tried again.
    pub(crate) fn cut<R: Wait, S: VolumeSink>(self, rt: &R, all: bool, sink: &mut S) -> Nodes
        requires { AreOfNodes (length self.shelves.items) (S.kept sink.old) }
        ensures shelves { result.shelves ≡ self.shelves }
        ensures passes { result.passes ≡ self.passes }
        ensures kept { AreOfNodes (length self.shelves.items) (S.kept sink.new) }
    {
        let Nodes {
            crew,
            shelves,
            passes,
            mut due,
        } = self;
        cut_journals(rt, &shelves, all, &mut due, sink);
        Nodes {
            crew,
            shelves,
            passes,
            due,
        }
    }

    /// Compares the transcripts of the passes with the volumes of the sink and the journals of the nodes.
    pub(crate) fn settle<R: Wait, S: VolumeSink>(
        &self,
        rt: &R,
        sink: &S,
    ) -> Result<Settled, Unsettled>
        requires { AreOfNodes (length self.now.shelves.items) (S.kept sink.now) }
        ensures settled { OnOk result
            (AreSettled self.now.shelves.items (S.kept sink.now) self.now.passes.items) }
        ensures unsettled { IfErr result
            (IsUnsettled self.now.shelves.items (S.kept sink.now) self.now.passes.items) }
    {
        settle(rt, &self.shelves, sink.volumes(), &self.passes)
    }
}
