//! Every ending of a run, with what is then written.

use super::command_line::FLEET_HELP;
use super::serving::{Server, Serving};
use super::{AMPLE, ANSWER, FewBytes, FewWrites, REGISTER, REGISTER_FRONT, Room, many};
use lw_fleet::{Ending, Fault, RunningFault, program};
use std::alloc::Global;
use std::io::{self, ErrorKind};
use std::process::Abort;
use std::sync::Wait;
use std::thread::Threads;

/// What a run of the program meets: an input of which so many bytes come at a time and behind which a read may fail,
/// both outputs, and what its server does.
#[derive(Clone, Copy)]
pub(super) struct Stage<'a> {
    pub(super) input: &'a [u8],
    pub(super) most: usize,
    pub(super) fails: bool,
    pub(super) output: Room,
    pub(super) errors: Room,
    pub(super) serving: Serving,
    pub(super) running: Result<(), RunningFault>,
}

/// An input of one digit, outputs that take all, and a server that finds no port.
pub(super) const STAGE: Stage<'static> = Stage {
    input: b"4",
    most: 7,
    fails: false,
    output: AMPLE,
    errors: AMPLE,
    serving: Serving::Unbound,
    running: Err(RunningFault::BindFailed),
};

/// How a run ends, its status, what stands on both outputs, and how many bytes of the input are left.
#[derive(Clone, Copy)]
pub(super) struct Want<'a> {
    pub(super) ending: Ending,
    pub(super) status: u8,
    pub(super) output: &'a str,
    pub(super) errors: &'a str,
    pub(super) unread: usize,
}

/// Runs the program. That no clause says how keeps the proofs of its callers short.
fn ending_of<R: Threads + Wait + Sync>(
    rt: &R,
    alloc: Global,
    words: &io::Result<Vec<&str>>,
    reader: &mut FewBytes<'_>,
    outputs: (&mut FewWrites, &mut FewWrites),
    server: &mut Server,
) -> Ending {
    let (output, errors) = outputs;
    program(rt, alloc, words, reader, output, errors, server)
}

/// Fails where the program ends in another way, on the words of a command line, if they can be had. Gives its server.
fn ends_on<R: Threads + Wait + Sync + Abort>(
    rt: &R,
    alloc: Global,
    words: &io::Result<Vec<&str>>,
    stage: &Stage<'_>,
    want: &Want<'_>,
) -> Server {
    let mut reader = FewBytes::new(stage.input, stage.most, stage.fails);
    let mut output = FewWrites::new(alloc, stage.output);
    let mut errors = FewWrites::new(alloc, stage.errors);
    let mut server = Server::new(stage.serving, stage.running);
    let outputs = (&mut output, &mut errors);
    let ending = ending_of(rt, alloc, words, &mut reader, outputs, &mut server);
    assert!(rt; ending == want.ending, "{ending:?} of {words:?}");
    assert_eq!(rt; ending.status(), want.status, "the status of {words:?}");
    assert!(rt;
        output.has(want.output.as_bytes()),
        "the output of {words:?}"
    );
    assert!(rt;
        errors.has(want.errors.as_bytes()),
        "the errors of {words:?}"
    );
    assert_eq!(rt; reader.rest.len(), want.unread, "unread by {words:?}");
    server
}

/// Fails where the program ends in another way with these words. Gives its server.
pub(super) fn ends<R: Threads + Wait + Sync + Abort>(
    rt: &R,
    alloc: Global,
    words: &[&str],
    stage: &Stage<'_>,
    want: &Want<'_>,
) -> Server {
    let words = Ok(words.to_vec(alloc).expect(rt, "memory"));
    ends_on(rt, alloc, &words, stage, want)
}

/// The answer of node 65535 to the Register, at moment 60.
const OTHER_ANSWER: &str = "64410001010203048272640d0330303030303030303030303166666666
{\"address\":\"127.0.0.1:5684\",\"attributes\":{},\"binding\":\"U\",\"endpoint\":\"a\",\"id\":\"000000000001ffff\",\"lifetime\":60,\"lwm2m\":\"1.1\",\"objects\":\"</3/0>\",\"queue\":false,\"seen\":60,\"sms\":null}
";

const UNKNOWN_COMMAND: &str = "error: unrecognized subcommand 'two'

Usage: fleet [COMMAND]

For more information, try '--help'.
";

const OTHER_OPTIONS: &[&str] = &[
    "fleet",
    "one",
    "--node=65535",
    "--now=60",
    "--from=127.0.0.1:5684",
];

/// Faults that end a run, all of them told but the last.
const READ_FAILED: Ending = Ending::Failed {
    fault: Fault::ReadFailed,
    told: true,
};

const WRITE_FAILED: Ending = Ending::Failed {
    fault: Fault::WriteFailed,
    told: true,
};

const TOO_LONG: Ending = Ending::Failed {
    fault: Fault::TooLong,
    told: true,
};

const NO_MEMORY: Ending = Ending::Failed {
    fault: Fault::NoMemory,
    told: true,
};

const ADDRESS_REFUSED: Ending = Ending::Failed {
    fault: Fault::AddressRefused,
    told: true,
};

const HEX_REFUSED: Ending = Ending::Failed {
    fault: Fault::HexRefused,
    told: true,
};

const LINE_REFUSED: Ending = Ending::Failed {
    fault: Fault::LineRefused { line: 1 },
    told: true,
};

const HEX_UNTOLD: Ending = Ending::Failed {
    fault: Fault::HexRefused,
    told: false,
};

/// Words and an input; how the run ends, its status, both outputs, and how much of the input is left.
type Row = (
    &'static [&'static str],
    &'static [u8],
    Ending,
    u8,
    &'static str,
    &'static str,
    usize,
);

static ROWS: [Row; 11] = [
    (&["fleet"], REGISTER, Ending::Done, 0, ANSWER, "", 0),
    (
        OTHER_OPTIONS,
        REGISTER,
        Ending::Done,
        0,
        OTHER_ANSWER,
        "",
        0,
    ),
    (
        &["fleet", "one"],
        b"4",
        HEX_REFUSED,
        1,
        "",
        "hex refused\n",
        0,
    ),
    (
        &["fleet", "one", "--from", "x"],
        b"4",
        ADDRESS_REFUSED,
        1,
        "",
        "address refused\n",
        1,
    ),
    (
        &["fleet", "two"],
        b"4",
        Ending::Refused,
        2,
        "",
        UNKNOWN_COMMAND,
        1,
    ),
    (
        &["fleet", "-V"],
        b"4",
        Ending::Done,
        0,
        "fleet 0.1.0\n",
        "",
        1,
    ),
    (
        &["fleet", "--version"],
        b"",
        Ending::Done,
        0,
        "fleet 0.1.0\n",
        "",
        0,
    ),
    (&["fleet", "one"], b"", Ending::Done, 0, "-\n", "", 0),
    (
        &["fleet", "replay"],
        b"nodes 16\n",
        Ending::Done,
        0,
        "",
        "",
        0,
    ),
    (
        &["fleet", "replay"],
        b"nodes 1\nchange 1\nchange 2",
        Ending::Done,
        0,
        "0\nno node\n",
        "",
        0,
    ),
    (
        &["fleet", "replay"],
        b"nodes 17\n",
        LINE_REFUSED,
        1,
        "",
        "line 1 refused\n",
        0,
    ),
];

/// Tries: program, Ending::status
#[test]
fn endings(rt: HostRuntime) {
    for (words, input, ending, status, output, errors, unread) in &ROWS {
        let stage = Stage { input, ..STAGE };
        let want = Want {
            ending: *ending,
            status: *status,
            output,
            errors,
            unread: *unread,
        };
        let _server = ends(&rt, rt.alloc(), words, &stage, &want);
    }
}

/// Tries: program
#[test]
fn a_line_that_is_too_long_ends_the_run(rt: HostRuntime) {
    let line = many(&rt, rt.alloc(), 1_048_577);
    let stage = Stage {
        input: &line,
        ..STAGE
    };
    let want = Want {
        ending: TOO_LONG,
        status: 1,
        output: "",
        errors: "script too long\n",
        unread: 0,
    };
    let _server = ends(&rt, rt.alloc(), &["fleet"], &stage, &want);
}

/// A reader that fails, and how the run ends.
static UNREADABLE: (Stage<'static>, Want<'static>) = (
    Stage {
        input: REGISTER_FRONT,
        most: 3,
        fails: true,
        ..STAGE
    },
    Want {
        ending: READ_FAILED,
        status: 1,
        output: "",
        errors: "read failed\n",
        unread: 0,
    },
);

/// Tries: program
#[test]
fn a_reader_that_fails_ends_the_run(rt: HostRuntime) {
    let _server = ends(&rt, rt.alloc(), &["fleet"], &UNREADABLE.0, &UNREADABLE.1);
}

/// Words, what is printed for them and the Register, and how much of that is left.
static PRINTED: [(&[&str], &str, usize); 3] = [
    (&["fleet", "one"], ANSWER, 0),
    (&["fleet", "--version"], "fleet 0.1.0\n", 83),
    (&["fleet", "--help"], FLEET_HELP, 83),
];

/// Fails where the words with the Register end in another way than with a failed write, or none, and this output.
fn ends_writing<R: Threads + Wait + Sync + Abort>(
    rt: &R,
    alloc: Global,
    words: &[&str],
    (output, fails): (Room, bool),
    (text, unread): (&str, usize),
) {
    let stage = Stage {
        input: REGISTER,
        output,
        ..STAGE
    };
    let (ending, status, errors) = match fails {
        true => (WRITE_FAILED, 1, "write failed\n"),
        false => (Ending::Done, 0, ""),
    };
    let want = Want {
        ending,
        status,
        output: text,
        errors,
        unread,
    };
    let _server = ends(rt, alloc, words, &stage, &want);
}

/// Tries: program
#[test]
fn a_writer_that_fails_ends_the_run(rt: HostRuntime) {
    let alloc = rt.alloc();
    for (words, text, unread) in &PRINTED {
        let front = text.get(..5).expect(&rt, "a front");
        let (small, unflushed) = ((4, 5, false, false), (4, 9999, false, true));
        ends_writing(&rt, alloc, words, (small, true), (front, *unread));
        ends_writing(&rt, alloc, words, (unflushed, true), (text, *unread));
        ends_writing(&rt, alloc, words, (AMPLE, false), (text, *unread));
    }
}

/// Words and how many bytes standard error takes before it fails; how the run ends, its status, both outputs, and how
/// much of the input is left.
type Untold = (
    &'static [&'static str],
    usize,
    Ending,
    u8,
    &'static str,
    &'static str,
    usize,
);

static UNTOLD: [Untold; 4] = [
    (&["fleet"], 0, HEX_UNTOLD, 1, "", "", 0),
    (&["fleet"], 5, HEX_UNTOLD, 1, "", "hex r", 0),
    (&["fleet", "two"], 7, Ending::Refused, 2, "", "error: ", 1),
    (&["fleet", "--help"], 0, Ending::Done, 0, FLEET_HELP, "", 1),
];

/// Tries: program
#[test]
fn standard_error_changes_no_status(rt: HostRuntime) {
    for (words, room, ending, status, output, errors, unread) in &UNTOLD {
        let stage = Stage {
            errors: (2, *room, true, false),
            ..STAGE
        };
        let want = Want {
            ending: *ending,
            status: *status,
            output,
            errors,
            unread: *unread,
        };
        let _server = ends(&rt, rt.alloc(), words, &stage, &want);
    }
}

const NOT_UTF8: &str = "error: a word is not UTF-8

Usage: fleet [COMMAND]

For more information, try '--help'.
";

/// Errors for which the words cannot be had, and how the program ends.
static WITHOUT_WORDS: [(ErrorKind, Want<'static>); 2] = [
    (
        ErrorKind::InvalidData,
        Want {
            ending: Ending::Refused,
            status: 2,
            output: "",
            errors: NOT_UTF8,
            unread: 1,
        },
    ),
    (
        ErrorKind::OutOfMemory,
        Want {
            ending: NO_MEMORY,
            status: 1,
            output: "",
            errors: "no memory\n",
            unread: 1,
        },
    ),
];

/// Tries: not_utf8, program
#[test]
fn words_that_cannot_be_had(rt: HostRuntime) {
    for (kind, want) in &WITHOUT_WORDS {
        let words = Err(io::Error::from(*kind));
        let _server = ends_on(&rt, rt.alloc(), &words, &STAGE, want);
    }
}
