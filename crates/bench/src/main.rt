//! The program `bench`: what the store's calls cost, in processor time and in memory.
//!
//! Without a word each call is made a few times, and then it prints `ok`. With `full` it prints a table, and with a
//! word behind that those of its rows whose name has the word. With `serving` it prints how fast requests over UDP are
//! answered; with a folder behind that, also how fast they are by a server that keeps them there. With `asking` and ports
//! of the loopback behind that, parted by commas, it prints how fast the servers there answer.
#![tactic(auto)]

mod copies;
mod cost;
mod deltas;
mod events;
mod exchange;
mod fault;
mod heap;
mod indexes;
mod journal;
mod messages;
mod names;
mod nodes;
mod operation;
mod pages;
mod requests;
mod row;
mod runs;
mod script;
mod serving;
mod slots;
mod table;

use crate::fault::BenchFault;
use crate::serving::{FULL_REQUESTS, Kept, TRIAL_REQUESTS, asking, serving};
use crate::table::{ALL, FULL, TRIAL, table};
use std::env;
use std::net::Net;
use std::rt::{Env, Files};
use std::sync::Wait;
use std::thread::Threads;
use std::time::{Clock, CpuClock};

fn main(rt: HostRuntime) -> Result<(), BenchFault> {
    let text = answer(&rt, &rt)?;
    Ok(println!(rt; "{}", text.as_str())?)
}

/// What is printed to the words of the command line.
fn answer<R: Env + AllocGlobal + CpuClock + Files + Wait + Threads + Net + Clock + Sync>(
    rt: &R,
    host: &HostRuntime,
) -> Result<String, BenchFault> {
    let mut words = env::args(rt)?;
    words.next();
    text_of(rt, host, words.next().as_deref(), words.next().as_deref())
}

fn text_of<R: AllocGlobal + CpuClock + Files + Wait + Threads + Net + Clock + Sync>(
    rt: &R,
    host: &HostRuntime,
    table_word: Option<&str>,
    further_word: Option<&str>,
) -> Result<String, BenchFault> {
    match table_word {
        Some("serving") => {
            let kept = further_word.map(|folder| Kept { host, folder });
            serving(rt, rt.alloc(), FULL_REQUESTS, kept)
        }
        Some("asking") => asking(rt, rt.alloc(), further_word.unwrap_or(""), FULL_REQUESTS),
        Some("full") => table(rt, FULL, further_word.unwrap_or(ALL)),
        Some(_) => Err(BenchFault::UnknownWord),
        None => trial(rt),
    }
}

fn trial<R: AllocGlobal + CpuClock + Files + Wait + Threads + Net + Clock + Sync>(
    rt: &R,
) -> Result<String, BenchFault> {
    table(rt, TRIAL, ALL)?;
    serving(rt, rt.alloc(), TRIAL_REQUESTS, None)?;
    Ok(String::from_str(rt.alloc(), "ok")?)
}
