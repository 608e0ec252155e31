//! How many datagrams of eight clients are answered in a second, over UDP on the loopback: by the rounds of `lw_serve`, and by
//! the replica of `lw_server`. Beside each is a plain echo of the same datagrams.

mod asking;
mod client;
mod peer;
mod replica;

pub(crate) use self::asking::asking;
use self::peer::{CLIENTS, Peer, measure};
pub(crate) use self::replica::Kept;
use crate::fault::BenchFault;
use std::alloc::Global;
use std::net::Net;
use std::sync::Wait;
use std::thread::Threads;
use std::time::{Clock, Duration};

/// The requests of each client.
pub(crate) const TRIAL_REQUESTS: u32 = 10;

pub(crate) const FULL_REQUESTS: u32 = 2_500;

/// What is measured, and what its row begins with.
const PEERS: [(&str, Peer<'static>); 4] = [
    (
        "1/1          ",
        Peer::Rounds {
            nodes: 1,
            workers: 1,
        },
    ),
    (
        "2/2          ",
        Peer::Rounds {
            nodes: 2,
            workers: 2,
        },
    ),
    (
        "4/4          ",
        Peer::Rounds {
            nodes: 4,
            workers: 4,
        },
    ),
    ("run, memory  ", Peer::Replica(None)),
];

/// The table: for each number of nodes and workers, and for a replica, the replies in a second, those of an echo measured
/// beside them, and how many hundredths of the echo's they are. The last row is of a replica that keeps what it is
/// told.
pub(crate) fn serving<R: Threads + Wait + Net + Clock + Sync>(
    rt: &R,
    alloc: Global,
    requests: u32,
    kept: Option<Kept<'_>>,
) -> Result<String, BenchFault> {
    let header = "nodes/workers  replies/s  echo/s  hundredths\n";
    let mut text = String::from_str(alloc, header)?;
    for (name, peer) in PEERS {
        put_row(rt, alloc, name, peer, requests, &mut text)?;
    }
    if kept.is_some() {
        let peer = Peer::Replica(kept);
        put_row(rt, alloc, "run, data    ", peer, requests, &mut text)?;
    }
    Ok(text)
}

fn put_row<R: Threads + Wait + Net + Clock + Sync>(
    rt: &R,
    alloc: Global,
    name: &str,
    peer: Peer<'_>,
    requests: u32,
    text: &mut String,
) -> Result<(), BenchFault> {
    let all = requests.saturating_mul(u32::from(CLIENTS));
    let echo = per_second(all, measure(rt, alloc, Peer::Echo, requests)?);
    let served = per_second(all, measure(rt, alloc, peer, requests)?);
    let ratio = hundredths(served, echo);
    let row = format!(in alloc; "{name}{served:>11}{echo:>8}{ratio:>12}\n")?;
    Ok(text.push_str(&row)?)
}

/// How many there are in a second, rounded down; 0 where no time has passed.
fn per_second(count: u32, time: Duration) -> u128 {
    (u128::from(count) * 1_000_000_000)
        .checked_div(time.as_nanos())
        .unwrap_or(0)
}

/// How many hundredths of the other it is, rounded down; 0 where the other is 0.
fn hundredths(one: u128, other: u128) -> u128 {
    one.saturating_mul(100).checked_div(other).unwrap_or(0)
}
