//! Runs that are refused memory.

use super::*;
use lw_stamp::NoMemory;
use std::test::Fail;

/// Three Registers.
static REGISTERS: Stage = Stage {
    comings: &[
        Coming::Datagram(1, REGISTER),
        Coming::Datagram(2, REGISTER),
        Coming::Datagram(3, REGISTER),
    ],
    ..STAGE
};

/// Each of three Registers has its reply, but for one where a growth was refused.
/// Tries: lw_server::run_on, lw_server::Server::take
#[test]
fn a_refused_turn_loses_its_datagrams_alone(rt: HostRuntime) -> Result<(), Fail> {
    let text = REGISTERS.play(&rt, rt.alloc())?;
    is_served(text.as_str())
}

/// Fails where the run did not end well, or two Registers have no reply.
fn is_served(text: &str) -> Result<(), Fail> {
    if text.starts_with("Err(NoMemory)") {
        return Err(NoMemory.into());
    }
    let created = text.lines().filter(|line| line.contains(" 60410004"));
    if text.starts_with("Ok(()) ") && created.count() >= 2 {
        return Ok(());
    }
    Err(Fail::new(text))
}
