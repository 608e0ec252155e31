//! Nodes behind locks of their own.

ghost use Rattle.std.specs.Prelude.{◌≡◌, ◌≤◌, ℕ, slice_get, vec_len, Some, IfErr, IfOk, IfSome, OnOk, OnErr};
ghost use Rattle.lw_held.specs.History.{IsVolume, VolumeContent};
ghost use Rattle.lw_held.specs.Agree.{AreDistinct, IsSettledWith};
ghost use Rattle.lw_held.specs.Shelves.{AreInOrder, AreNew, AreSettled, FailsAt, GivesPart, HaveShelves, IsCutOff, IsUnsettled};

use crate::gate::Gate;
use crate::held::Held;
use crate::pass::Pass;
use crate::volume::Volume;
use lw_node::Call;
use lw_stamp::NoMemory;
use std::alloc::Global;
use std::sync::{Mutex, Wait};
use thiserror::Error;

/// A number, and a lock round a node with its journal.
#[derive(Drop)]
pub struct Shelf {
    number: u16,
    held: Mutex<Held>,
}

impl Shelf {
    /// A new node of the number, behind a lock.
    fn new(alloc: Global, number: u16) -> Shelf
        ensures { result.number ≡ number }
    {
        Shelf {
            number,
            held: Mutex::new(Held::new(alloc, number)),
        }
    }

    /// The number of its node.
    pub fn number(&self) -> u16
        ensures { result ≡ self.now.number }
    {
        self.number
    }

    /// Makes the call of the node behind the lock, and gives its place in the journal there. The gate is told under the
    /// lock before the call, and after an `Ok` when the lock is let go.
    pub fn call<R: Wait, G: Gate>(
        &self,
        rt: &R,
        gate: &G,
        pass: &mut Pass,
        call: &Call,
    ) -> Result<u64, NoMemory>
        // Some node with a legal history has answered. That it is the one behind this lock is what `settle` shows.
        ensures answered { IfOk result (GivesPart pass.old pass.new self.now.number call.now) }
        ensures unchanged { OnErr result (pass.new ≡ pass.old) }
    {
        let answer = self.call_locked(rt, gate, pass, call);
        if answer.is_ok() {
            gate.answered(self.number, pass.number());
        }
        answer
    }

    fn call_locked<R: Wait, G: Gate>(
        &self,
        rt: &R,
        gate: &G,
        pass: &mut Pass,
        call: &Call,
    ) -> Result<u64, NoMemory>
        ensures answered { IfOk result (GivesPart pass.old pass.new self.now.number call.now) }
        ensures unchanged { OnErr result (pass.new ≡ pass.old) }
    {
        let mut held = self.held.lock(rt);
        gate.inside(self.number, pass.number());
        let held: &mut Held = &mut held;
        held.legal();
        pass.step(self.number, held, call)
    }

    /// Cuts off the journal behind the lock, if it has an entry. The node is copied twice under the lock.
    pub fn cut<R: Wait>(&self, rt: &R) -> Result<Option<Volume>, NoMemory>
        // It is that of some node with a legal history. That it is the one behind this lock is what `settle` shows.
        ensures { IfOk result (λ cut. IfSome cut IsCutOff) }
    {
        let mut held = self.held.lock(rt);
        let held: &mut Held = &mut held;
        held.legal();
        held.cut()
    }

    /// Whether the passes' parts for the node are the node's volumes and the journal behind the lock.
    fn agrees<R: Wait>(&self, rt: &R, volumes: &[Volume], passes: &[Pass]) -> Result<(), u64>
        requires { AreDistinct passes.now }
        ensures settled { OnOk result (IsSettledWith self.now.number volumes.now passes.now) }
        ensures fails { IfErr result (λ place. FailsAt self.now.number volumes.now passes.now place) }
    {
        are_legal(volumes);
        let mut held = self.held.lock(rt);
        let held: &mut Held = &mut held;
        held.legal();
        held.agrees(self.number, volumes, passes)
    }
}

/// Does nothing: its contract says that each volume is a legal history.
fn are_legal(volumes: &[Volume])
    ensures { (i : ℕ) (volume : VolumeContent) → slice_get volumes.now i ≡ Some volume → IsVolume volume }
{
    for volume in volumes {
        volume.legal();
    }
}

/// Each journal is, with its volumes, what the passes' transcripts say.
#[derive(Clone, Copy, Debug, PartialEq, Eq)]
pub struct Settled;

/// The first node whose journal, with its volumes, is not what the transcripts say, and the least place that fails
/// there.
#[derive(Clone, Copy, Debug, PartialEq, Eq, Error)]
#[error("the journal of node {node} is not what the transcripts say, first at place {place}")]
pub struct Unsettled {
    pub node: u16,
    pub place: u64,
}

/// Asks under each lock in turn whether the node's volumes and the journal are what the passes' transcripts say. The
/// volumes may come in any order. It takes no memory.
pub fn settle<R: Wait>(
    rt: &R,
    shelves: &[Shelf],
    volumes: &[Volume],
    passes: &[Pass],
) -> Result<Settled, Unsettled>
    requires shelves { AreInOrder shelves.now }
    requires volumes { HaveShelves shelves.now volumes.now }
    requires passes { AreDistinct passes.now }
    ensures settled { OnOk result (AreSettled shelves.now volumes.now passes.now) }
    ensures unsettled { IfErr result (λ unsettled. IsUnsettled shelves.now volumes.now passes.now unsettled) }
{
    for shelf in shelves {
        if let Err(place) = shelf.agrees(rt, volumes, passes) {
            return Err(Unsettled {
                node: shelf.number,
                place,
            });
        }
    }
    Ok(Settled)
}

/// New nodes, numbered from 1 and each behind a lock, and passes, numbered from 0, that no call was made with.
pub fn set_up(alloc: Global, nodes: u16, passes: u32) -> Result<(Vec<Shelf>, Vec<Pass>), NoMemory>
    requires nodes { (1 ≤ nodes) × (nodes ≤ 16) }
    requires passes { (1 ≤ passes) × (passes ≤ 64) }
    ensures shelves { IfOk result (λ r. (vec_len r.0 ≡ nodes) × AreInOrder r.0.items) }
    ensures passes { IfOk result (λ r. (vec_len r.1 ≡ passes) × AreNew r.1.items) }
    ensures distinct { IfOk result (λ r. AreDistinct r.1.items) }
{
    Ok((shelves_of(alloc, nodes)?, passes_of(alloc, passes)?))
}

fn shelves_of(alloc: Global, nodes: u16) -> Result<Vec<Shelf>, NoMemory>
    ensures { IfOk result (λ v. (vec_len v ≡ nodes) × AreInOrder v.items) }
{
    let mut shelves = Vec::new(alloc);
    for place in 0..nodes {
        shelves.push(Shelf::new(alloc, place + 1))?;
    }
    Ok(shelves)
}

fn passes_of(alloc: Global, count: u32) -> Result<Vec<Pass>, NoMemory>
    ensures { IfOk result (λ v. (vec_len v ≡ count) × AreNew v.items) }
{
    let mut passes = Vec::new(alloc);
    for number in 0..count {
        passes.push(Pass::new(alloc, number))?;
    }
    Ok(passes)
}
