//! A server that serves and runs as it is told to, and what the program does with what `serve` ends with.

use super::command_line::{GivenToServe, given_to_serve};
use super::program::{STAGE, Stage, Want, ends};
use super::running_server::Asked;
use super::telling::{AnyFault, tells, tells_in_part};
use lw_fleet::{
    Ending, Keeps, RunOptions, RunningFault, Runs, ServeOptions, Serves, ServingFault, write_text,
};
use lw_serve::{CrewFault, ServeFault};
use std::io::Write;
use std::sync::Wait;
use std::thread::Threads;

/// How `serve` ends.
#[derive(Clone, Copy)]
pub(super) enum Serving {
    Settles,
    /// The journals are not what the transcripts say.
    Unsettled,
    /// There is no port.
    Unbound,
}

/// Serves and runs as it is told to, and keeps what it was asked.
#[derive(Drop)]
pub(super) struct Server {
    serving: Serving,
    running: Result<(), RunningFault>,
    pub(super) asked_to_serve: Option<GivenToServe>,
    pub(super) asked_to_run: Option<Asked>,
}

impl Server {
    pub(super) fn new(serving: Serving, running: Result<(), RunningFault>) -> Server {
        Server {
            serving,
            running,
            asked_to_serve: None,
            asked_to_run: None,
        }
    }
}

impl Serves for Server {
    fn serve<R: Threads + Wait + Sync, W: Write>(
        &mut self,
        _rt: &R,
        options: &ServeOptions,
        writer: &mut W,
    ) -> Result<(), ServingFault> {
        self.asked_to_serve = Some(given_to_serve(*options));
        match self.serving {
            Serving::Settles => write_text(writer, b"settled\n").map_err(|_| ServingFault::Run(
                ServeFault::WriteFailed,
            )),
            Serving::Unsettled => {
                Err(ServingFault::Run(ServeFault::Unsettled { node: 2, place: 7 }))
            }
            Serving::Unbound => Err(ServingFault::BindFailed),
        }
    }
}

impl Runs for Server {
    fn run<R: Wait>(&mut self, _rt: &R, options: &RunOptions<'_>) -> Result<(), RunningFault> {
        self.asked_to_run = Some((
            options.bind,
            options.port,
            options.level,
            options.keeps == Keeps::Nothing,
            options.http.map(|http| http.address.port()),
        ));
        self.running
    }
}

static WORDS: [&str; 7] = [
    "fleet",
    "serve",
    "--count=9",
    "--port=1",
    "--nodes=3",
    "--workers=4",
    "--cut=5",
];

/// A server that settles, and how the program then ends.
static SETTLED: (Stage<'static>, Want<'static>) = (
    Stage {
        serving: Serving::Settles,
        ..STAGE
    },
    Want {
        ending: Ending::Done,
        status: 0,
        output: "settled\n",
        errors: "",
        unread: 1,
    },
);

/// Tries: program, Serves::serve
#[test]
fn a_server_that_settles(rt: HostRuntime) {
    let server = ends(&rt, rt.alloc(), &WORDS, &SETTLED.0, &SETTLED.1);
    let asked = server.asked_to_serve;
    assert!(rt; asked == Some((9, 1, 3, 4, Some(5))), "{asked:?}");
}

/// Servers that stop, and how the program then ends.
static STOPPED: [(Stage<'static>, Want<'static>); 2] = [
    (
        Stage {
            serving: Serving::Unsettled,
            ..STAGE
        },
        Want {
            ending: Ending::Unserved {
                fault: ServingFault::Run(ServeFault::Unsettled { node: 2, place: 7 }),
                told: true,
            },
            status: 1,
            output: "",
            errors: "unsettled 2 7\n",
            unread: 1,
        },
    ),
    (
        Stage {
            serving: Serving::Unbound,
            ..STAGE
        },
        Want {
            ending: Ending::Unserved {
                fault: ServingFault::BindFailed,
                told: true,
            },
            status: 1,
            output: "",
            errors: "bind failed\n",
            unread: 1,
        },
    ),
];

/// Tries: program, Serves::serve
#[test]
fn a_server_that_stops(rt: HostRuntime) {
    for (stage, want) in &STOPPED {
        let _server = ends(&rt, rt.alloc(), &WORDS, stage, want);
    }
}

/// Each fault, and its line.
pub(super) static LINES: [(ServingFault, &str); 11] = [
    (ServingFault::BindFailed, "bind failed\n"),
    (
        ServingFault::Run(ServeFault::ReceiveFailed),
        "receive failed\n",
    ),
    (
        ServingFault::Run(ServeFault::ClockRefused),
        "clock refused\n",
    ),
    (
        ServingFault::Run(ServeFault::Crew(CrewFault::Missing { job: 9 })),
        "crew fault 1\n",
    ),
    (
        ServingFault::Run(ServeFault::Crew(CrewFault::Double { job: 9 })),
        "crew fault 2\n",
    ),
    (
        ServingFault::Run(ServeFault::Crew(CrewFault::Stranger { job: 9 })),
        "crew fault 3\n",
    ),
    (
        ServingFault::Run(ServeFault::Crew(CrewFault::NoMemory)),
        "crew fault 4\n",
    ),
    (
        ServingFault::Run(ServeFault::Unsettled { node: 2, place: 7 }),
        "unsettled 2 7\n",
    ),
    (
        ServingFault::Run(ServeFault::Unsettled {
            node: 16,
            place: 18_446_744_073_709_551_615,
        }),
        "unsettled 16 18446744073709551615\n",
    ),
    (ServingFault::Run(ServeFault::WriteFailed), "write failed\n"),
    (ServingFault::Run(ServeFault::NoMemory), "no memory\n"),
];

/// Tries: ServingFault::tell, program
#[test]
fn lines_of_serving_faults(rt: HostRuntime) {
    for (fault, line) in &LINES {
        tells(&rt, rt.alloc(), AnyFault::Serving(*fault), line);
        tells_in_part(&rt, rt.alloc(), AnyFault::Serving(*fault), line);
    }
}
