//! The program `registry`: the store inside a server of one's own, to be copied from.
//!
//! Where a server has a socket and a clock, this program has lines, `MS ADDRESS HEX`: a moment in milliseconds, the
//! address of a device, and a datagram that came from there. It keeps a node (`registry`), which takes each datagram
//! (`taking`), and a second node, as of another server, to which it passes on what changes (`deltas`).
//!
//! It prints, a line each:
//!
//! - `{"expired":..}` where a registration has expired: with each datagram one ends (`expiry`)
//! - `reply HEX`, the datagram that is to be sent back, where there is one
//! - `{"notice":..}` where a device tells of what is observed
//! - `{"registered":..}`, `{"updated":..}` or `{"removed":..}` where a request has changed a registration (`event`)
//! - `send ADDRESS HEX`, a request to a device: what registers with `</3/0>` is observed (`observing`)
//! - after the last line of the input, for each node `node N`, and each registration that it shows (`fleet`)
//!
//! The status is 0; or 1 with a line on the standard error, where a line is none, or where memory, a stream or the clock
//! of the node comes to its end. The contract of `running::run` says what is printed at status 0.
//!
//!     (cd crates/registry && rt try < stdin)
#![tactic(auto)]

mod deltas;
mod event;
mod expiry;
mod fault;
mod fleet;
mod line;
mod observing;
mod registry;
mod running;
mod taking;
mod text;

use crate::running::run;
use std::process::ExitCode;

fn main(rt: HostRuntime) -> ExitCode {
    match run(rt.alloc(), &mut rt.reader(), &mut rt.stdout()) {
        Ok(()) => ExitCode::from(0),
        Err(fault) => {
            // Where nobody takes the text, the status tells that there is a fault.
            let _told = rt.eprintln(fault);
            ExitCode::from(1)
        }
    }
}
