//! Results in the order of their jobs.

ghost use Rattle.std.specs.Prelude.{length, IfOk, IfErr};
ghost use Rattle.lw_crew.specs.inner.Filling.{AreFilled};
ghost use Rattle.lw_crew.specs.Gather.{IsFault, IsGathered};

use crate::job::{CrewFault, Done};
use std::alloc::Global;

/// The results of the jobs with the numbers below the count, in the order of the jobs. The first result that is of no
/// job, or the second of one, comes before the least job that has none.
///
/// It takes room for a result for each job below the count at once, however few the results are.
pub fn gather(alloc: Global, count: u64, dones: Vec<Done>) -> Result<Vec<Done>, CrewFault>
    ensures ok { IfOk result (λ gathered. IsGathered count dones.items gathered.items) }
    ensures err { IfErr result (λ fault. IsFault count dones.items fault) }
{
    let slots = filled(alloc, count, &dones)?;
    in_order(&slots, dones)
}

/// A slot for each job, with its result.
fn filled(alloc: Global, count: u64, dones: &[Done]) -> Result<Vec<Option<Done>>, CrewFault>
    ensures ok { IfOk result (λ slots. AreFilled count dones.now (length dones.now) slots.items) }
    ensures err { IfErr result (λ fault. IsFault count dones.now fault) }
{
    let Ok(mut slots) = Vec::from_elem(alloc, None, count as usize) else {
        return Err(CrewFault::NoMemory);
    };
    for done in dones {
        if done.job >= count {
            return Err(CrewFault::Stranger { job: done.job });
        }
        let place = done.job as usize;
        if slots[place].is_some() {
            return Err(CrewFault::Double { job: done.job });
        }
        slots[place] = Some(*done);
    }
    Ok(slots)
}

/// What the slots hold, in order, in the room of the results.
fn in_order(slots: &[Option<Done>], dones: Vec<Done>) -> Result<Vec<Done>, CrewFault>
    requires { AreFilled (length slots.now) dones.items (length dones.items) slots.now }
    ensures ok { IfOk result (λ gathered. IsGathered (length slots.now) dones.items gathered.items) }
    ensures err { IfErr result (λ fault. IsFault (length slots.now) dones.items fault) }
{
    let mut all = dones;
    all.clear();
    for job in 0..slots.len() {
        let Some(done) = slots[job] else {
            return Err(CrewFault::Missing { job: job as u64 });
        };
        let Ok(()) = all.push(done) else {
            return Err(CrewFault::NoMemory);
        };
    }
    Ok(all)
}
