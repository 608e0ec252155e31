//! What the command line gives, and the texts that are printed where it gives nothing.

use super::program::{STAGE, Want, ends};
use lw_fleet::{Ending, Request, ServeOptions, read_request};
use std::alloc::Global;
use std::process::Abort;
use std::sync::Wait;
use std::thread::Threads;

/// What the words ask for.
pub(super) fn asked<'a>(rt: &impl Abort, alloc: Global, words: &'a [&'a str]) -> Request<'a> {
    read_request(alloc, words).expect(rt, "a request")
}

/// Tries: read_request
#[test]
fn a_replay(rt: HostRuntime) {
    let request = asked(&rt, rt.alloc(), &["fleet", "replay"]);
    assert!(rt; request == Request::Replay);
}

/// Words, and what they give to `one`.
static GIVEN_TO_ONE: [(&[&str], (u16, u64, &str)); 5] = [
    (&["fleet"], (1, 0, "127.0.0.1:5683")),
    (&["fleet", "one"], (1, 0, "127.0.0.1:5683")),
    (
        &[
            "fleet",
            "one",
            "--node",
            "65535",
            "--now=281474976710655",
            "--from",
            "x",
        ],
        (65535, 281474976710655, "x"),
    ),
    (&["fleet", "one", "--node=007"], (7, 0, "127.0.0.1:5683")),
    (&["fleet", "one", "--from="], (1, 0, "")),
];

/// Tries: read_request
#[test]
fn options(rt: HostRuntime) {
    for (words, given) in &GIVEN_TO_ONE {
        let request = asked(&rt, rt.alloc(), words);
        let is_so = match request {
            Request::One(options) => (options.node, options.now.ms(), options.from) == *given,
            _ => false,
        };
        assert!(rt; is_so, "{request:?}");
    }
}

/// Fails where the words do not have this text printed, and nothing else done.
pub(super) fn shows<R: Threads + Wait + Sync + Abort>(
    rt: &R,
    alloc: Global,
    words: &[&str],
    text: &str,
) {
    let want = Want {
        ending: Ending::Done,
        status: 0,
        output: text,
        errors: "",
        unread: 1,
    };
    let _server = ends(rt, alloc, words, &STAGE, &want);
}

pub(super) const FLEET_HELP: &str = "\
The registration store behind LwM2M servers; without a command, `fleet one`

Usage: fleet [COMMAND]

Commands:
  one     Takes one datagram, a line of hex on standard input, and prints the reply and the registration
  replay  Runs a script of several nodes, read from standard input, and prints a line for each event
  serve   Serves datagrams that come to a UDP port of 127.0.0.1, and prints `settled` when the journals are checked
  run     Serves devices over UDP until it is killed, and keeps what is registered
  help    Print this message or the help of the given subcommand(s)

Options:
  -h, --help     Print help
  -V, --version  Print version
";

/// Tries: read_request, program
#[test]
fn help_of_the_program(rt: HostRuntime) {
    for word in ["--help", "-h", "help"] {
        shows(&rt, rt.alloc(), &["fleet", word], FLEET_HELP);
    }
}

const ONE_HELP: &str = "\
Takes one datagram, a line of hex on standard input, and prints the reply and the registration

Usage: fleet one [OPTIONS]

Options:
      --node <N>     Number of the node, 0 to 65535 [default: 1]
      --now <MS>     Moment in milliseconds, 0 to 281474976710655 [default: 0]
      --from <ADDR>  Address and port of the client, IPv6 as [eight groups of four digits] [default: 127.0.0.1:5683]
  -h, --help         Print help
";

/// Tries: read_request, program
#[test]
fn help_of_one(rt: HostRuntime) {
    for words in [["fleet", "one", "--help"], ["fleet", "help", "one"]] {
        shows(&rt, rt.alloc(), &words, ONE_HELP);
    }
}

const REPLAY_HELP: &str = "\
Runs a script of several nodes, read from standard input, and prints a line for each event

Usage: fleet replay

Options:
  -h, --help  Print help
";

/// Tries: read_request
#[test]
fn help_of_replay(rt: HostRuntime) {
    shows(&rt, rt.alloc(), &["fleet", "replay", "--help"], REPLAY_HELP);
}

const SERVE_HELP: &str = "\
Serves datagrams that come to a UDP port of 127.0.0.1, and prints `settled` when the journals are checked

Usage: fleet serve [OPTIONS] --count <K>

Options:
      --count <K>    Datagrams that are served before the end, 1 to 1000000
      --port <P>     UDP port, 0 to 65535 [default: 5683]
      --nodes <N>    Nodes, which share the clients by their ports, 1 to 16 [default: 2]
      --workers <W>  Worker threads at most, 1 to 8 [default: 2]
      --cut <C>      Rounds after which the journals are cut, 1 to 1000000 [default: never]
  -h, --help         Print help
";

/// Tries: read_request
#[test]
fn help_of_serve(rt: HostRuntime) {
    shows(&rt, rt.alloc(), &["fleet", "serve", "--help"], SERVE_HELP);
}

/// The count, the port, the nodes, the workers and the rounds before a cut.
pub(super) type GivenToServe = (u32, u16, u16, u32, Option<u32>);

/// What is given to `serve`.
pub(super) fn given_to_serve(options: ServeOptions) -> GivenToServe {
    let ServeOptions { plan, port } = options;
    (plan.count, port, plan.nodes, plan.workers, plan.cut)
}

/// Words, and what they give to `serve`.
static GIVEN_TO_SERVE: [(&[&str], GivenToServe); 4] = [
    (&["fleet", "serve", "--count", "1"], (1, 5683, 2, 2, None)),
    (
        &["fleet", "serve", "--count", "1", "--cut", "1"],
        (1, 5683, 2, 2, Some(1)),
    ),
    (
        &[
            "fleet",
            "serve",
            "--port=0",
            "--nodes=16",
            "--workers=8",
            "--count=1000000",
            "--cut=1000000",
        ],
        (1_000_000, 0, 16, 8, Some(1_000_000)),
    ),
    (
        &[
            "fleet",
            "serve",
            "--port=65535",
            "--nodes=1",
            "--workers=1",
            "--count=007",
            "--cut=002",
        ],
        (7, 65535, 1, 1, Some(2)),
    ),
];

/// Tries: read_request
#[test]
fn options_to_serve(rt: HostRuntime) {
    for (words, given) in &GIVEN_TO_SERVE {
        let request = asked(&rt, rt.alloc(), words);
        let is_so = match request {
            Request::Serve(options) => given_to_serve(options) == *given,
            _ => false,
        };
        assert!(rt; is_so, "{request:?}");
    }
}

const BAD_COUNT: &str = "'--count <K>' takes a number from 1 to 1000000, in digits alone";

pub(super) const BAD_PORT: &str = "'--port <P>' takes a number from 0 to 65535, in digits alone";

const BAD_NODES: &str = "'--nodes <N>' takes a number from 1 to 16, in digits alone";

const BAD_WORKERS: &str = "'--workers <W>' takes a number from 1 to 8, in digits alone";

const BAD_CUT: &str = "'--cut <C>' takes a number from 1 to 1000000, in digits alone";

/// Fails where the words are not refused with these lines.
pub(super) fn refuses<R: Threads + Wait + Sync + Abort>(
    rt: &R,
    alloc: Global,
    words: &[&str],
    line: &str,
    usage: &str,
) {
    let errors = format!(in alloc; "error: {line}\n\n{usage}For more information, try '--help'.\n");
    let errors = errors.expect(rt, "memory");
    let want = Want {
        ending: Ending::Refused,
        status: 2,
        output: "",
        errors: errors.as_str(),
        unread: 1,
    };
    let _server = ends(rt, alloc, words, &STAGE, &want);
}

/// A count and another option, and the line that refuses one of them.
static REFUSED_BY_SERVE: [(&str, &str, &str, &str); 14] = [
    ("0", "--port", "1", BAD_COUNT),
    ("1000001", "--port", "1", BAD_COUNT),
    ("1", "--port", "65536", BAD_PORT),
    ("1", "--port", "+1", BAD_PORT),
    ("1", "--nodes", "0", BAD_NODES),
    ("1", "--nodes", "17", BAD_NODES),
    ("1", "--workers", "0", BAD_WORKERS),
    ("1", "--workers", "9", BAD_WORKERS),
    ("1", "--cut", "0", BAD_CUT),
    ("1", "--cut", "1000001", BAD_CUT),
    ("1", "--cut", "4294967296", BAD_CUT),
    ("1", "--cut", "4294967297", BAD_CUT),
    ("1", "--cut", "one", BAD_CUT),
    ("1", "--cut", "", BAD_CUT),
];

/// Tries: read_request
#[test]
fn refused_words_of_serve(rt: HostRuntime) {
    for (count, option, number, line) in &REFUSED_BY_SERVE {
        let words = ["fleet", "serve", "--count", *count, *option, *number];
        refuses(&rt, rt.alloc(), &words, line, SERVE);
    }
}

/// Tries: read_request
#[test]
fn a_count_has_to_be_given(rt: HostRuntime) {
    let line = "the following required arguments were not provided:\n  --count <K>";
    let usage = "Usage: fleet serve --count <K>\n\n";
    refuses(&rt, rt.alloc(), &["fleet", "serve"], line, usage);
}

/// Tries: read_request, program
#[test]
fn the_version(rt: HostRuntime) {
    for flag in ["--version", "-V"] {
        shows(&rt, rt.alloc(), &["fleet", flag], "fleet 0.1.0\n");
    }
}

const FLEET: &str = "Usage: fleet [COMMAND]\n\n";

const ONE: &str = "Usage: fleet one [OPTIONS]\n\n";

const REPLAY: &str = "Usage: fleet replay\n\n";

const SERVE: &str = "Usage: fleet serve [OPTIONS] --count <K>\n\n";

/// Words that are refused, with the lines.
static REFUSED_WORDS: [(&[&str], &str, &str); 14] = [
    (
        &["fleet", "replay", "two"],
        "unexpected argument 'two' found",
        REPLAY,
    ),
    (
        &["fleet", "replay", "--node", "1"],
        "unexpected argument '--node' found",
        REPLAY,
    ),
    (
        &["fleet", "--node", "1"],
        "unexpected argument '--node' found",
        FLEET,
    ),
    (&["fleet", "two"], "unrecognized subcommand 'two'", FLEET),
    (
        &["fleet", "help", "two"],
        "unrecognized subcommand 'two'",
        FLEET,
    ),
    (
        &["fleet", "help", "one", "two"],
        "unrecognized subcommand 'two'",
        ONE,
    ),
    (
        &["fleet", "one", "two"],
        "unexpected argument 'two' found",
        ONE,
    ),
    (
        &["fleet", "one", "--port", "1"],
        "unexpected argument '--port' found",
        ONE,
    ),
    (
        &["fleet", "one", "--version"],
        "unexpected argument '--version' found",
        ONE,
    ),
    (
        &["fleet", "one", "--node"],
        "a value is required for '--node <N>' but none was supplied",
        "",
    ),
    (
        &["fleet", "serve", "--count", "1", "--cut"],
        "a value is required for '--cut <C>' but none was supplied",
        "",
    ),
    (
        &["fleet", "serve", "--count=1", "--cut=1", "--cut=1"],
        "the argument '--cut <C>' cannot be used multiple times",
        SERVE,
    ),
    (
        &["fleet", "one", "--node", "1", "--node", "1"],
        "the argument '--node <N>' cannot be used multiple times",
        ONE,
    ),
    (
        &["fleet", "one", "--from", "a", "--from=a"],
        "the argument '--from <ADDR>' cannot be used multiple times",
        ONE,
    ),
];

/// Tries: read_request, program
#[test]
fn refused_words(rt: HostRuntime) {
    for (words, line, usage) in &REFUSED_WORDS {
        refuses(&rt, rt.alloc(), words, line, usage);
    }
}

const BAD_NODE: &str = "'--node <N>' takes a number from 0 to 65535, in digits alone";

const BAD_NOW: &str = "'--now <MS>' takes a number from 0 to 281474976710655, in digits alone";

/// An option of `one` with no number of it, and the line that refuses it.
static REFUSED_BY_ONE: [(&str, &str, &str); 7] = [
    ("--node", "65536", BAD_NODE),
    ("--node", "99999999999999999999", BAD_NODE),
    ("--node", "+1", BAD_NODE),
    ("--node", "", BAD_NODE),
    ("--now", "281474976710656", BAD_NOW),
    ("--now", "1 ", BAD_NOW),
    ("--now", "0x1", BAD_NOW),
];

/// Tries: read_request
#[test]
fn refused_numbers(rt: HostRuntime) {
    for (option, number, line) in &REFUSED_BY_ONE {
        let words = ["fleet", "one", *option, *number];
        refuses(&rt, rt.alloc(), &words, line, ONE);
    }
    refuses(
        &rt,
        rt.alloc(),
        &["fleet", "one", "--node=-1"],
        BAD_NODE,
        ONE,
    );
}
