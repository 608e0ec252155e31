//! How many threads a list of jobs needs.

use crate::job::Job;
use lw_held::Call;

/// When the jobs of a node are worth a thread. A node makes one call at a time.
#[derive(Clone, Copy, Debug, PartialEq, Eq)]
pub enum Sharing {
    /// Where one of them answers a client, or merges a long delta: so two clients at two nodes are answered at once.
    ByNode,
    /// Where they cost more together than a thread that is started for them.
    ByWork,
}

/// A Merge of at most so many bytes costs less than a thread that is started for it.
const SHORT_DELTA: usize = 4_096;

/// Calls that cost so much together, in about microseconds, are worth a thread.
const WORTH: u64 = 128;

/// Nodes whose numbers leave the same remainder count as one.
const PLACES: usize = 64;

/// How many workers have a thread, the calling one among them: one for each node whose jobs are worth one, and at least
/// one. More could only wait for each other.
pub(crate) fn threads_for(sharing: Sharing, jobs: &[Job]) -> u32 {
    let mut weights = [0_u64; PLACES];
    for job in jobs {
        let place = job.node as usize % PLACES;
        weights[place] = weights[place].saturating_add(weight(sharing, &job.call));
    }
    let mut threads = 0_u32;
    for weight in weights {
        if weight >= WORTH {
            threads = threads.saturating_add(1);
        }
    }
    threads.max(1)
}

/// What the call counts for: all that a thread is worth, or nothing, where threads are shared by nodes.
fn weight(sharing: Sharing, call: &Call) -> u64 {
    match sharing {
        Sharing::ByNode if is_long(call) => WORTH,
        Sharing::ByNode => 0,
        Sharing::ByWork => cost(call),
    }
}

/// Whether the call may be worth a thread. One that answers a client is.
fn is_long(call: &Call) -> bool {
    match call {
        Call::Send { .. } | Call::Sweep { .. } => false,
        Call::Merge { bytes } => bytes.len() > SHORT_DELTA,
        Call::Take { .. } | Call::Observe { .. } | Call::Cancel { .. } | Call::Ask { .. } => true,
    }
}

/// What the call costs, in about microseconds.
fn cost(call: &Call) -> u64 {
    match call {
        Call::Send { .. } | Call::Sweep { .. } => 1,
        Call::Merge { bytes } => 1 + bytes.len() as u64 / 256,
        Call::Take { bytes, .. } => 2 + bytes.len() as u64 / 32,
        Call::Observe { .. } | Call::Cancel { .. } | Call::Ask { .. } => 2,
    }
}
