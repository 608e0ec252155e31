use lw_redis_log::{error_prefix, passes, shown};

/// Errors as Redis 7.0 writes them, and whether they pass.
static ERRORS: [(&str, bool); 28] = [
    ("LOADING Redis is loading the dataset in memory", true),
    (
        "BUSY Redis is busy running a script. You can only call SCRIPT KILL or SHUTDOWN NOSAVE.",
        true,
    ),
    (
        "TRYAGAIN Multiple keys request during rehashing of slot",
        true,
    ),
    (
        "MASTERDOWN Link with MASTER is down and replica-serve-stale-data is set to 'no'.",
        true,
    ),
    (
        "READONLY You can't write against a read only replica.",
        true,
    ),
    ("CLUSTERDOWN The cluster is down", true),
    (
        "OOM command not allowed when used memory > 'maxmemory'.",
        true,
    ),
    (
        "MISCONF Redis is configured to save RDB snapshots, but it's currently unable to persist to disk.",
        true,
    ),
    ("NOREPLICAS Not enough good replicas to write.", true),
    ("ERR max number of clients reached", true),
    (
        "ERR max number of clients + cluster connections reached",
        true,
    ),
    ("ERR max number of clients", true),
    ("LOADING", true),
    ("NOAUTH Authentication required.", false),
    (
        "WRONGPASS invalid username-password pair or user is disabled.",
        false,
    ),
    (
        "NOPERM this user has no permissions to run the 'xadd' command",
        false,
    ),
    (
        "WRONGTYPE Operation against a key holding the wrong kind of value",
        false,
    ),
    ("MOVED 3999 127.0.0.1:6381", false),
    ("ERR syntax error", false),
    ("ERR max number of client", false),
    ("ERR  max number of clients reached", false),
    ("max number of clients reached", false),
    ("BUSYGROUP Consumer Group name already exists", false),
    ("BUSYKEY Target key name already exists.", false),
    ("ERR LOADING", false),
    (" LOADING", false),
    ("loading", false),
    ("", false),
];

/// Tries: lw_redis_log::passes
#[test]
fn some_errors_pass(rt: HostRuntime) {
    for (error, want) in &ERRORS {
        assert_eq!(rt; passes(error.as_bytes()), *want, "{error}");
    }
}

/// Errors, and their prefixes.
static PREFIXES: [(&str, &str); 4] = [
    (
        "ERR unknown command 'AUTH', with args beginning with: 'fleet' 'secret' ",
        "ERR",
    ),
    ("LOADING", "LOADING"),
    (" ERR", ""),
    ("", ""),
];

/// Tries: lw_redis_log::error_prefix
#[test]
fn a_prefix_is_the_first_word(rt: HostRuntime) {
    for (error, want) in &PREFIXES {
        assert!(rt;
            error_prefix(error.as_bytes()) == want.as_bytes(),
            "{error}"
        );
    }
}

/// Texts, and what is shown of them.
static SHOWN: [(&[u8], &str); 5] = [
    (b"ERR syntax error", "ERR syntax error"),
    (b"ERR ~\x7fa", "ERR ~"),
    (b"ERR \x1b[31m", "ERR "),
    (b"ERR \xc3\xa4", "ERR "),
    (b"", ""),
];

/// Of a long text 200 bytes are shown.
/// Tries: lw_redis_log::shown
#[test]
fn what_is_shown_is_printable(rt: HostRuntime) {
    for (text, want) in &SHOWN {
        assert_eq!(rt; shown(text), *want);
    }
    let long = [b'a'; 201];
    assert_eq!(rt; shown(&long[..200]).len(), 200);
    assert_eq!(rt; shown(&long).len(), 200);
}
