ghost use Rattle.std.specs.Prelude.{◌≡◌, ◌≤◌, IfOk};
ghost use Rattle.lw_world.specs.Run.{History, Runs, begun};
ghost use Rattle.lw_world.specs.World.{world_of};

use crate::event::Event;
use crate::outcome::Outcome;
use crate::world::World;
use lw_stamp::NoMemory;
use std::alloc::Global;

/// Runs the events, one after another, from new nodes on, which are numbered from 1: the world that they leave, and
/// what comes of each event. `NoMemory` is the run's own; that of a node's call is its outcome.
pub fn run(alloc: Global, nodes: u16, events: &[Event]) -> Result<(World, Vec<Outcome>), NoMemory>
    requires some { 1 ≤ nodes }
    requires most { nodes ≤ 16 }
    // Each outcome is one that is defined over the operations that reached its node, and each node has just what it has
    // learnt.
    ensures { IfOk result (λ r. (h : History) × Runs (begun nodes) events.now r.1.items h × (r.0 ≡ world_of h)) }
{
    let mut world = World::new(alloc, nodes)?;
    let mut outcomes = Vec::new(alloc);
    for event in events {
        outcomes.push(world.step(event)?)?;
    }
    Ok((world, outcomes))
}
