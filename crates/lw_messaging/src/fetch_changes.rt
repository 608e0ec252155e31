//! What changes among the fetches, oldest block first.

ghost use Rattle.std.specs.Prelude.{◌≡◌, ◌<◌, ◌≤◌, length, OnOk, OnErr, vec_len, vec_capacity, filter};
ghost use Rattle.lw_messaging.specs.Fetches.{is_beside, others, with_room, with_fetch};
ghost use Rattle.lw_messaging.specs.inner.Fetches.{changed};

use crate::fetch::Fetch;
use crate::fetches::MAX_FETCHES;
use lw_stamp::NoMemory;

/// What changes by a message.
#[derive(Drop)]
pub(crate) enum Change {
    Nothing,
    Begins(Fetch),
    Continues(Fetch),
    /// The fetch with the number is over.
    Ends(u32),
}

/// Where there are as many as may be, the oldest goes.
fn make_room(fetches: &mut Vec<Fetch>)
    ensures left { fetches.new.items ≡ with_room fetches.old.items }
    ensures len { vec_len fetches.new ≤ vec_len fetches.old }
    ensures capacity { vec_capacity fetches.new ≡ vec_capacity fetches.old }
{
    if fetches.len() >= MAX_FETCHES {
        fetches.remove(0);
    }
}

/// Lets those go that have ended, and those of the notification that a fetch is of.
fn clear(fetches: &mut Vec<Fetch>, new: &Fetch)
    ensures left { fetches.new.items ≡ filter (is_beside new.now) fetches.old.items }
    ensures len { vec_len fetches.new ≤ vec_len fetches.old }
    ensures capacity { vec_capacity fetches.new ≡ vec_capacity fetches.old }
{
    fetches.retain(|fetch| fetch.is_beside(new));
}

/// Puts a fetch behind the others, where there is room in memory.
fn keep(fetches: &mut Vec<Fetch>, fetch: Fetch)
    requires { vec_len fetches.old < vec_capacity fetches.old }
    ensures { fetches.new.items ≡ with_fetch fetches.old.items fetch }
{
    make_room(fetches);
    fetches.push_reserved(fetch);
}

fn begin(fetches: &mut Vec<Fetch>, new: Fetch) -> Result<(), NoMemory>
    ensures begun { OnOk result (fetches.new.items
        ≡ with_fetch (filter (is_beside new) fetches.old.items) new) }
    ensures memory { OnErr result (fetches.new.items ≡ fetches.old.items) }
{
    fetches.reserve(1)?;
    clear(fetches, &new);
    keep(fetches, new);
    Ok(())
}

/// Lets the fetch with the number go.
pub(crate) fn forget(fetches: &mut Vec<Fetch>, number: u32)
    ensures left { fetches.new.items ≡ others number fetches.old.items }
    ensures len { vec_len fetches.new ≤ vec_len fetches.old }
    ensures capacity { vec_capacity fetches.new ≡ vec_capacity fetches.old }
{
    fetches.retain(|fetch| fetch.is_other(number));
}

/// Keeps a fetch in place of that with its number.
fn go_on(fetches: &mut Vec<Fetch>, fetch: Fetch) -> Result<(), NoMemory>
    ensures put { OnOk result (fetches.new.items ≡ with_fetch (others fetch.number fetches.old.items) fetch) }
    ensures memory { OnErr result (fetches.new.items ≡ fetches.old.items) }
{
    fetches.reserve(1)?;
    forget(fetches, fetch.number);
    keep(fetches, fetch);
    Ok(())
}

/// Does what changes: to the number that the next fetch has, and to the fetches.
pub(crate) fn carry_out(
    next: &mut u32,
    fetches: &mut Vec<Fetch>,
    change: Change,
) -> Result<(), NoMemory>
    ensures done { OnOk result (record { next = next.new; fetches = fetches.new.items }
        ≡ changed (record { next = next.old; fetches = fetches.old.items }) change) }
    ensures next { OnErr result (next.new ≡ next.old) }
    ensures memory { OnErr result (fetches.new.items ≡ fetches.old.items) }
{
    match change {
        Change::Nothing => {}
        Change::Begins(fetch) => {
            begin(fetches, fetch)?;
            *next = next.wrapping_add(1);
        }
        Change::Continues(fetch) => go_on(fetches, fetch)?,
        Change::Ends(number) => forget(fetches, number),
    }
    Ok(())
}
