//! The words of `run` that the command line refuses.

use super::command_line::{BAD_PORT, refuses};

const RUN: &str = "Usage: fleet run [OPTIONS]\n\n";

const BAD_BIND: &str = "'--bind <IP>' takes an IPv4 or IPv6 address, without a scope";

const BAD_LEVEL: &str = "'--log <LEVEL>' takes off, error, warn, info or debug";

const KEPT_TWICE: &str =
    "only one of '--data <DIR>', '--memory' and '--redis <HOST:PORT>' can be given";

const BAD_FOLDER: &str = "'--data <DIR>' takes the path of a folder, and not an empty text";

const BAD_REDIS: &str =
    "'--redis <HOST:PORT>' takes a host and a port, as 127.0.0.1:6379 or [::1]:6379";

const LOGIN_ALONE: &str = "'--redis-login <FILE>' needs '--redis <HOST:PORT>'";

const STREAM_ALONE: &str = "'--stream <KEY>' needs '--redis <HOST:PORT>'";

const SKEW_ALONE: &str = "'--skew <S>' needs '--redis <HOST:PORT>'";

const FOUND_ALONE: &str = "'--found' needs '--redis <HOST:PORT>'";

const BAD_LOGIN: &str = "'--redis-login <FILE>' takes the path of a file, and not an empty text";

const BAD_STREAM: &str = "'--stream <KEY>' takes a key, and not an empty text";

const BAD_SKEW: &str = "'--skew <S>' takes a number from 0 to 3600, in digits alone";

const BAD_HTTP: &str =
    "'--http <ADDR>' takes an IP address and a port, as 127.0.0.1:8080 or [::1]:8080";

const TOKEN_ALONE: &str = "'--http-token-file <FILE>' needs '--http <ADDR>'";

const HOST_ALONE: &str = "'--http-host <NAME>' needs '--http <ADDR>'";

const COMMANDS_ALONE: &str = "'--http-commands' needs '--http <ADDR>'";

const PAGE_ALONE: &str = "'--page <FILE>' needs '--http <ADDR>'";

const BAD_TOKEN_FILE: &str =
    "'--http-token-file <FILE>' takes the path of a file, and not an empty text";

const BAD_HOST: &str = "'--http-host <NAME>' takes a name, and not an empty text";

const BAD_PAGE: &str = "'--page <FILE>' takes the path of a file, and not an empty text";

const NO_TOKEN: &str = "'--http <ADDR>' off the loopback needs '--http-token-file <FILE>'";

/// Words that are refused, and the line. Of several rules the first that fails is told.
static REFUSED: [(&[&str], &str); 21] = [
    (&["fleet", "run", "--bind", "localhost"], BAD_BIND),
    (&["fleet", "run", "--bind", "127.0.0.1:5683"], BAD_BIND),
    (&["fleet", "run", "--bind", "[::1]"], BAD_BIND),
    (&["fleet", "run", "--bind", "fe80::1%2"], BAD_BIND),
    (&["fleet", "run", "--bind", "127.0.0.256"], BAD_BIND),
    (&["fleet", "run", "--bind", "127.0.0"], BAD_BIND),
    (&["fleet", "run", "--bind", "127.0.0.01"], BAD_BIND),
    (&["fleet", "run", "--bind="], BAD_BIND),
    (&["fleet", "run", "--port", "65536"], BAD_PORT),
    (&["fleet", "run", "--port", "+1"], BAD_PORT),
    (&["fleet", "run", "--port="], BAD_PORT),
    (&["fleet", "run", "--log", "trace"], BAD_LEVEL),
    (&["fleet", "run", "--log", "Info"], BAD_LEVEL),
    (&["fleet", "run", "--log="], BAD_LEVEL),
    (&["fleet", "run", "--memory", "--data", "a"], KEPT_TWICE),
    (
        &["fleet", "run", "--data=fleet-data", "--memory"],
        KEPT_TWICE,
    ),
    (&["fleet", "run", "--data=", "--memory"], KEPT_TWICE),
    (&["fleet", "run", "--data="], BAD_FOLDER),
    (
        &[
            "fleet",
            "run",
            "--data=",
            "--log=all",
            "--port=p",
            "--bind=b",
        ],
        BAD_BIND,
    ),
    (
        &["fleet", "run", "--data=", "--log=all", "--port=p"],
        BAD_PORT,
    ),
    (
        &["fleet", "run", "--data=a", "--memory", "--log=all"],
        BAD_LEVEL,
    ),
];

/// Tries: read_request, program
#[test]
fn refused_words_of_run(rt: HostRuntime) {
    for (words, line) in &REFUSED {
        refuses(&rt, rt.alloc(), words, line, RUN);
    }
}

/// Texts of `--redis` that are no host with a port.
static NO_HOSTS: [&str; 28] = [
    "",
    ":",
    "6379",
    ":6379",
    "[]:6379",
    "redis",
    "redis:",
    "redis:0",
    "redis:0000",
    "redis:65536",
    "redis:18446744073709551617",
    "redis:+6379",
    "redis:-1",
    "redis: 6379",
    "redis:6379 ",
    "redis:6379/0",
    "redis://redis:6379",
    "user@redis:6379:0",
    "::1",
    "::1:6379",
    "[::1]",
    "[::1]:",
    "[::1]6379",
    "[::1:6379",
    "::1]:6379",
    "[[::1]]:6379",
    "[::1]:[::1]:6379",
    "redis]:6379",
];

/// Tries: read_request, program
#[test]
fn refused_hosts_of_redis(rt: HostRuntime) {
    for text in &NO_HOSTS {
        let words = ["fleet", "run", "--redis", *text];
        refuses(&rt, rt.alloc(), &words, BAD_REDIS, RUN);
    }
}

/// Texts of `--skew` that are no seconds.
static NO_SECONDS: [&str; 9] = [
    "",
    "3601",
    "4294967296",
    "18446744073709551616",
    "+1",
    "-1",
    "1.5",
    "10s",
    " 10",
];

/// Tries: read_request, program
#[test]
fn refused_seconds_of_redis(rt: HostRuntime) {
    for text in &NO_SECONDS {
        let option = format!(in rt.alloc(); "--skew={text}").expect(&rt, "memory");
        let words = ["fleet", "run", "--redis=r:1", option.as_str()];
        refuses(&rt, rt.alloc(), &words, BAD_SKEW, RUN);
    }
}

/// Words that are refused for what goes with `--redis` or against it, and the line.
static REFUSED_FOR_REDIS: [(&[&str], &str); 35] = [
    (&["fleet", "run", "--redis=r:1", "--memory"], KEPT_TWICE),
    (&["fleet", "run", "--data=a", "--redis=r:1"], KEPT_TWICE),
    (
        &["fleet", "run", "--redis=r:1", "--data=fleet-data"],
        KEPT_TWICE,
    ),
    (
        &["fleet", "run", "--data=a", "--redis=r:1", "--memory"],
        KEPT_TWICE,
    ),
    (&["fleet", "run", "--data=", "--redis="], KEPT_TWICE),
    (&["fleet", "run", "--memory", "--redis="], KEPT_TWICE),
    (&["fleet", "run", "--redis-login", "l"], LOGIN_ALONE),
    (&["fleet", "run", "--redis-login="], LOGIN_ALONE),
    (&["fleet", "run", "--stream", "s"], STREAM_ALONE),
    (&["fleet", "run", "--stream=fleet"], STREAM_ALONE),
    (&["fleet", "run", "--stream="], STREAM_ALONE),
    (&["fleet", "run", "--skew", "10"], SKEW_ALONE),
    (&["fleet", "run", "--skew=s"], SKEW_ALONE),
    (&["fleet", "run", "--memory", "--skew=1"], SKEW_ALONE),
    (&["fleet", "run", "--found"], FOUND_ALONE),
    (&["fleet", "run", "--memory", "--found"], FOUND_ALONE),
    (&["fleet", "run", "--found", "--data=a"], FOUND_ALONE),
    (&["fleet", "run", "--found", "--skew=1"], SKEW_ALONE),
    (&["fleet", "run", "--found", "--http-host=h"], FOUND_ALONE),
    (&["fleet", "run", "--found", "--redis=r"], BAD_REDIS),
    (&["fleet", "run", "--data=a", "--stream=s"], STREAM_ALONE),
    (
        &["fleet", "run", "--memory", "--redis-login=l"],
        LOGIN_ALONE,
    ),
    (
        &["fleet", "run", "--skew=1", "--stream=s", "--redis-login=l"],
        LOGIN_ALONE,
    ),
    (&["fleet", "run", "--skew=1", "--stream=s"], STREAM_ALONE),
    (
        &["fleet", "run", "--redis=r:1", "--redis-login="],
        BAD_LOGIN,
    ),
    (&["fleet", "run", "--redis=r:1", "--stream="], BAD_STREAM),
    (
        &[
            "fleet",
            "run",
            "--redis=r:1",
            "--skew=",
            "--stream=",
            "--redis-login=",
        ],
        BAD_LOGIN,
    ),
    (
        &["fleet", "run", "--redis=r:1", "--skew=s", "--stream="],
        BAD_STREAM,
    ),
    (
        &[
            "fleet",
            "run",
            "--redis=r",
            "--skew=s",
            "--stream=",
            "--redis-login=",
        ],
        BAD_REDIS,
    ),
    (&["fleet", "run", "--skew=s", "--data="], BAD_FOLDER),
    (
        &["fleet", "run", "--redis=r", "--memory", "--log=all"],
        BAD_LEVEL,
    ),
    (&["fleet", "run", "--redis=r", "--port=p"], BAD_PORT),
    (
        &["fleet", "run", "--redis=r:1", "--skew=s", "--http=h"],
        BAD_SKEW,
    ),
    (&["fleet", "run", "--skew=1", "--http-host=h"], SKEW_ALONE),
    (
        &["fleet", "run", "--redis=r:1", "--http-host=h"],
        HOST_ALONE,
    ),
];

/// Tries: read_request, program
#[test]
fn refused_words_of_redis(rt: HostRuntime) {
    for (words, line) in &REFUSED_FOR_REDIS {
        refuses(&rt, rt.alloc(), words, line, RUN);
    }
}

/// Texts of `--http` that are no address with a port.
static NO_ADDRESSES: [&str; 12] = [
    "",
    "8080",
    ":8080",
    "127.0.0.1",
    "127.0.0.1:",
    "127.0.0.1:65536",
    "127.0.0.1:+80",
    "127.0.0.1:80 ",
    "localhost:8080",
    "::1:8080",
    "[::1]",
    "http://127.0.0.1:8080",
];

/// Tries: read_request, program
#[test]
fn refused_addresses_of_http(rt: HostRuntime) {
    for text in &NO_ADDRESSES {
        let words = ["fleet", "run", "--http-token-file=t", "--http", *text];
        refuses(&rt, rt.alloc(), &words, BAD_HTTP, RUN);
    }
}

/// Addresses that are off the loopback.
static OFF_THE_LOOPBACK: [&str; 8] = [
    "192.0.2.7:80",
    "0.0.0.0:80",
    "126.255.255.255:80",
    "128.0.0.1:80",
    "[::]:80",
    "[::2]:80",
    "[1::1]:80",
    "[::ffff:127.0.0.1]:80",
];

/// Tries: read_request, program
#[test]
fn addresses_of_http_that_need_a_token(rt: HostRuntime) {
    for text in &OFF_THE_LOOPBACK {
        let words = ["fleet", "run", "--http-host=h", "--http", *text];
        refuses(&rt, rt.alloc(), &words, NO_TOKEN, RUN);
    }
}

/// Words that are refused for what goes with `--http`, behind `fleet run`, and the line.
static REFUSED_FOR_HTTP: [(&[&str], &str); 32] = [
    (&["fleet", "run", "--http-token-file", "t"], TOKEN_ALONE),
    (&["fleet", "run", "--http-token-file="], TOKEN_ALONE),
    (&["fleet", "run", "--http-host", "h"], HOST_ALONE),
    (&["fleet", "run", "--http-host="], HOST_ALONE),
    (
        &["fleet", "run", "--http-host=h", "--http-token-file=t"],
        TOKEN_ALONE,
    ),
    (&["fleet", "run", "--http-commands"], COMMANDS_ALONE),
    (
        &["fleet", "run", "--memory", "--http-commands"],
        COMMANDS_ALONE,
    ),
    (
        &["fleet", "run", "--redis=r:1", "--http-commands"],
        COMMANDS_ALONE,
    ),
    (
        &["fleet", "run", "--http-commands", "--http-token-file=t"],
        TOKEN_ALONE,
    ),
    (
        &["fleet", "run", "--http-commands", "--http-host=h"],
        HOST_ALONE,
    ),
    (
        &["fleet", "run", "--page=p", "--http-commands"],
        COMMANDS_ALONE,
    ),
    (
        &["fleet", "run", "--page=", "--http-commands"],
        COMMANDS_ALONE,
    ),
    (&["fleet", "run", "--http-commands", "--skew=1"], SKEW_ALONE),
    (&["fleet", "run", "--http-commands", "--data="], BAD_FOLDER),
    (&["fleet", "run", "--http-commands", "--http="], BAD_HTTP),
    (&["fleet", "run", "--page", "p"], PAGE_ALONE),
    (&["fleet", "run", "--page="], PAGE_ALONE),
    (&["fleet", "run", "--page=p", "--http-host=h"], HOST_ALONE),
    (
        &["fleet", "run", "--page=p", "--http-token-file=t"],
        TOKEN_ALONE,
    ),
    (
        &["fleet", "run", "--http=127.0.0.1:1", "--http-token-file="],
        BAD_TOKEN_FILE,
    ),
    (
        &["fleet", "run", "--http=192.0.2.7:1", "--http-token-file="],
        BAD_TOKEN_FILE,
    ),
    (
        &["fleet", "run", "--http=127.0.0.1:1", "--http-host="],
        BAD_HOST,
    ),
    (
        &["fleet", "run", "--http=192.0.2.7:1", "--http-host="],
        BAD_HOST,
    ),
    (&["fleet", "run", "--http=127.0.0.1:1", "--page="], BAD_PAGE),
    (&["fleet", "run", "--http=192.0.2.7:1", "--page="], BAD_PAGE),
    (
        &[
            "fleet",
            "run",
            "--http=[::1]:1",
            "--http-host=",
            "--http-token-file=",
        ],
        BAD_TOKEN_FILE,
    ),
    (
        &["fleet", "run", "--http=[::1]:1", "--page=", "--http-host="],
        BAD_HOST,
    ),
    (
        &["fleet", "run", "--http=192.0.2.7:1", "--page=p"],
        NO_TOKEN,
    ),
    (
        &["fleet", "run", "--http=192.0.2.7:1", "--http-commands"],
        NO_TOKEN,
    ),
    (
        &[
            "fleet",
            "run",
            "--http=127.0.0.1:1",
            "--http-commands",
            "--page=",
        ],
        BAD_PAGE,
    ),
    (
        &["fleet", "run", "--http=", "--http-host=", "--data="],
        BAD_FOLDER,
    ),
    (
        &["fleet", "run", "--http-host=", "--memory", "--data=a"],
        KEPT_TWICE,
    ),
];

/// Tries: read_request, program
#[test]
fn refused_words_of_http(rt: HostRuntime) {
    for (words, line) in &REFUSED_FOR_HTTP {
        refuses(&rt, rt.alloc(), words, line, RUN);
    }
}

/// Words that no option takes, the line, and the usage where there is one.
static STRAY: [(&[&str], &str, &str); 22] = [
    (
        &["fleet", "run", "here"],
        "unexpected argument 'here' found",
        RUN,
    ),
    (
        &["fleet", "run", "--workers", "1"],
        "unexpected argument '--workers' found",
        RUN,
    ),
    (
        &["fleet", "run", "--memory=true"],
        "unexpected value 'true' for '--memory' found; no more were expected",
        "Usage: fleet run --memory\n\n",
    ),
    (
        &["fleet", "run", "--memory", "--memory"],
        "the argument '--memory' cannot be used multiple times",
        RUN,
    ),
    (
        &["fleet", "run", "--redis=a:1", "--found", "--found"],
        "the argument '--found' cannot be used multiple times",
        RUN,
    ),
    (
        &["fleet", "run", "--redis=a:1", "--found=yes"],
        "unexpected value 'yes' for '--found' found; no more were expected",
        "Usage: fleet run --redis <HOST:PORT> --found\n\n",
    ),
    (
        &["fleet", "run", "--data"],
        "a value is required for '--data <DIR>' but none was supplied",
        "",
    ),
    (
        &["fleet", "run", "--bind", "::1", "--bind", "::1"],
        "the argument '--bind <IP>' cannot be used multiple times",
        RUN,
    ),
    (
        &["fleet", "run", "--redis"],
        "a value is required for '--redis <HOST:PORT>' but none was supplied",
        "",
    ),
    (
        &["fleet", "run", "--redis=r:1", "--redis-login"],
        "a value is required for '--redis-login <FILE>' but none was supplied",
        "",
    ),
    (
        &["fleet", "run", "--stream"],
        "a value is required for '--stream <KEY>' but none was supplied",
        "",
    ),
    (
        &["fleet", "run", "--skew"],
        "a value is required for '--skew <S>' but none was supplied",
        "",
    ),
    (
        &["fleet", "run", "--redis=a:1", "--redis=a:1"],
        "the argument '--redis <HOST:PORT>' cannot be used multiple times",
        RUN,
    ),
    (
        &["fleet", "run", "--http"],
        "a value is required for '--http <ADDR>' but none was supplied",
        "",
    ),
    (
        &["fleet", "run", "--http-host=a", "--http-host=b"],
        "the argument '--http-host <NAME>' cannot be used multiple times",
        RUN,
    ),
    (
        &["fleet", "run", "--http-commands", "--http-commands"],
        "the argument '--http-commands' cannot be used multiple times",
        RUN,
    ),
    (
        &[
            "fleet",
            "run",
            "--http-commands",
            "--http=127.0.0.1:1",
            "--http-commands",
        ],
        "the argument '--http-commands' cannot be used multiple times",
        RUN,
    ),
    (
        &["fleet", "run", "--http=127.0.0.1:1", "--http-commands=true"],
        "unexpected value 'true' for '--http-commands' found; no more were expected",
        "Usage: fleet run --http <ADDR> --http-commands\n\n",
    ),
    (
        &["fleet", "run", "--http-commands="],
        "unexpected value '' for '--http-commands' found; no more were expected",
        "Usage: fleet run --http-commands\n\n",
    ),
    (
        &["fleet", "run", "--http-token-file=a", "--http-token-file"],
        "a value is required for '--http-token-file <FILE>' but none was supplied",
        "",
    ),
    (
        &["fleet", "run", "--page"],
        "a value is required for '--page <FILE>' but none was supplied",
        "",
    ),
    (
        &["fleet", "run", "--http=127.0.0.1:1", "--page=p", "--page=p"],
        "the argument '--page <FILE>' cannot be used multiple times",
        RUN,
    ),
];

/// Tries: read_request, program
#[test]
fn stray_words_of_run(rt: HostRuntime) {
    for (words, line, usage) in &STRAY {
        refuses(&rt, rt.alloc(), words, line, usage);
    }
}
