//! What the program does with what its server ends with that runs until it is killed.

use super::program::{STAGE, Stage, Want, ends};
use super::telling::{AnyFault, tells_in_part};
use lw_fleet::{Ending, LogLevel, RunningFault};
use std::net::{IpAddr, Ipv4Addr};

/// What a server was asked to run by: the address, the port, the level, whether it keeps nothing, and the port of HTTP.
pub(super) type Asked = (IpAddr, u16, LogLevel, bool, Option<u16>);

static WORDS: [&str; 7] = [
    "fleet",
    "run",
    "--bind=192.0.2.7",
    "--port=1",
    "--log=warn",
    "--memory",
    "--http=127.0.0.1:8080",
];

/// A server that is over, and how the program then ends.
static OVER: (Stage<'static>, Want<'static>) = (
    Stage {
        running: Ok(()),
        ..STAGE
    },
    Want {
        ending: Ending::Done,
        status: 0,
        output: "",
        errors: "",
        unread: 1,
    },
);

/// Tries: program, Runs::run
#[test]
fn a_server_that_is_over(rt: HostRuntime) {
    let server = ends(&rt, rt.alloc(), &WORDS, &OVER.0, &OVER.1);
    let bind = IpAddr::V4(Ipv4Addr::new(192, 0, 2, 7));
    let want = Some((bind, 1, LogLevel::Warn, true, Some(8080)));
    assert!(rt; server.asked_to_run == want);
}

/// Each fault, and its line.
pub(super) static LINES: [(RunningFault, &str); 22] = [
    (RunningFault::DataFailed, "data failed\n"),
    (RunningFault::DataInUse, "data in use\n"),
    (RunningFault::DataDamaged, "data damaged\n"),
    (RunningFault::DataNewer, "data newer\n"),
    (RunningFault::DataCut, "data cut\n"),
    (RunningFault::AnotherFleet, "another fleet\n"),
    (RunningFault::NumberTaken, "number taken\n"),
    (RunningFault::NumbersEnded, "numbers ended\n"),
    (RunningFault::NoFleet, "no fleet\n"),
    (RunningFault::FleetExists, "fleet exists\n"),
    (RunningFault::RedisAway, "redis away\n"),
    (RunningFault::RedisRefused, "redis refused\n"),
    (RunningFault::LoginRefused, "login refused\n"),
    (RunningFault::BindFailed, "bind failed\n"),
    (RunningFault::LinkLocalRefused, "link-local refused\n"),
    (RunningFault::HttpBindFailed, "http bind failed\n"),
    (RunningFault::TokenRefused, "token refused\n"),
    (RunningFault::PageRefused, "page refused\n"),
    (RunningFault::ReceiveFailed, "receive failed\n"),
    (RunningFault::ClockRefused, "clock refused\n"),
    (RunningFault::RandomFailed, "random failed\n"),
    (RunningFault::NoMemory, "no memory\n"),
];

/// Tries: program, Runs::run, RunningFault::tell
#[test]
fn a_server_that_stops(rt: HostRuntime) {
    for (fault, line) in &LINES {
        let stage = Stage {
            running: Err(*fault),
            ..STAGE
        };
        let want = Want {
            ending: Ending::Stopped {
                fault: *fault,
                told: true,
            },
            status: 1,
            output: "",
            errors: line,
            unread: 1,
        };
        let _server = ends(&rt, rt.alloc(), &WORDS, &stage, &want);
    }
}

/// Tries: RunningFault::tell
#[test]
fn a_running_fault_in_part(rt: HostRuntime) {
    for (fault, line) in &LINES {
        tells_in_part(&rt, rt.alloc(), AnyFault::Running(*fault), line);
    }
}
