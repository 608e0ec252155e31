//! The program `fleet`: `fleet one` takes one datagram at a new node and prints what the node answers; `fleet replay`
//! runs a script of several nodes and prints a line of what comes of each event; `fleet serve` serves datagrams that come
//! to a UDP port, and ends; `fleet run` serves devices until it is killed.
#![tactic(auto)]

mod file_front;
mod host;
mod http;
mod page;
mod run_host;
mod shared;

use host::Host;
use lw_fleet::program;
use std::process::ExitCode;
use std::{env, io};

fn words(rt: &HostRuntime) -> io::Result<Vec<String>> {
    let mut words = Vec::new(rt.alloc());
    for word in env::args(rt)? {
        words.push(word)?;
    }
    Ok(words)
}

fn main(rt: HostRuntime) -> ExitCode {
    let words = words(&rt);
    let (reader, writer, errors) = (&mut rt.reader(), &mut rt.stdout(), &mut rt.stderr());
    let server = &mut Host { host: &rt };
    let ending = program(&rt, rt.alloc(), &words, reader, writer, errors, server);
    ExitCode::from(ending.status())
}
