//! The calls of a turn.

ghost use Rattle.std.specs.Prelude.{◌≡◌, ◌-◌, ◌*◌, ◌++◌, [], OnOk, cond, replicate};
ghost use Rattle.lw_call.specs.declared.call.Call.TheVariants.{Sweep};
ghost use Rattle.lw_server.specs.Turns.{sweeps_a_turn};
ghost use Rattle.lw_stamp.specs.Moment.{ms_of};

use lw_call::Call;
use lw_stamp::{Moment, NoMemory};

/// How many registrations that have expired end in a turn at most.
const SWEEPS: u32 = 32;

/// Puts the Sweeps of a turn behind the calls, where the replica sweeps.
pub(crate) fn put_sweeps_where(
    calls: &mut Vec<Call>,
    before: Moment,
    sweeps: bool,
) -> Result<(), NoMemory>
    ensures { OnOk result (calls.new.items
        ≡ calls.old.items ++ cond sweeps (replicate sweeps_a_turn (Sweep before)) []) }
{
    if sweeps {
        put_sweeps(calls, before)?;
    }
    Ok(())
}

fn put_sweeps(calls: &mut Vec<Call>, now: Moment) -> Result<(), NoMemory>
    ensures { OnOk result (calls.new.items ≡ calls.old.items ++ replicate sweeps_a_turn (Sweep now)) }
{
    for _sweep in 0..SWEEPS {
        calls.push(Call::Sweep { now })?;
    }
    Ok(())
}

/// The moment so many seconds before, and none before the first.
pub(crate) fn moment_before(now: Moment, seconds: u32) -> Moment
    ensures { ms_of result ≡ ms_of now - 1000 * seconds }
{
    let back = u64::from(seconds) * 1_000;
    Moment::new(now.ms().saturating_sub(back)).unwrap_or(now)
}
