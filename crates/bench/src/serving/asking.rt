//! How fast servers that run already answer.

use super::client::Codes;
use super::peer::{CLIENTS, are_answered, ask, clients};
use super::per_second;
use crate::fault::BenchFault;
use std::alloc::Global;
use std::net::Net;
use std::thread::Threads;
use std::time::{Clock, Instant};

/// How many ports may be given: each client asks one.
const MOST_PORTS: usize = CLIENTS as usize;

/// How many replies a second the clients get of the servers at these ports of the loopback, which are parted by commas.
/// The first client asks the first server, and so on, over and over.
pub(crate) fn asking<R: Threads + Net + Clock + Sync>(
    rt: &R,
    alloc: Global,
    ports: &str,
    requests: u32,
) -> Result<String, BenchFault> {
    let servers = ports_in(alloc, ports)?;
    let mut clients = clients(rt, alloc, &servers)?;
    let start = Instant::now(rt)?;
    ask(rt, &mut clients, requests, Codes::OF_SERVERS);
    let time = start.elapsed(rt)?;
    are_answered(&clients, requests)?;
    let all = requests.saturating_mul(u32::from(CLIENTS));
    Ok(format!(in alloc; "{} replies/s", per_second(all, time))?)
}

fn ports_in(alloc: Global, text: &str) -> Result<Vec<u16>, BenchFault> {
    let mut ports = Vec::new(alloc);
    for word in text.split(',').take(MOST_PORTS) {
        let Ok(port) = word.parse() else {
            return Err(BenchFault::UnknownWord);
        };
        ports.push(port)?;
    }
    Ok(ports)
}
