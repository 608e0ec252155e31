use crate::hold::shown;
use lw_redis_log::{
    ReadFrom, append_command, info_command, login_command, ping_command, read_command,
    time_command, trim_command,
};
use lw_resp::StreamId;
use std::alloc::Global;
use std::process::Abort;

/// A command.
enum Asked {
    Read(ReadFrom),
    Append(&'static [u8], bool),
    Trim(StreamId),
    Login,
    Ping,
    Info,
    Time,
}

/// The command over the key `fleet`, or with the user.
fn bytes_of(rt: &impl Abort, alloc: Global, asked: &Asked) -> Vec<u8> {
    let key = b"fleet";
    let bytes = match asked {
        Asked::Read(from) => read_command(alloc, key, *from),
        Asked::Append(entry, makes) => append_command(alloc, key, entry, *makes),
        Asked::Trim(upto) => trim_command(alloc, key, *upto),
        Asked::Login => login_command(alloc, key, b"a secret"),
        Asked::Ping => ping_command(alloc),
        Asked::Info => info_command(alloc),
        Asked::Time => time_command(alloc),
    };
    bytes.expect(rt, "memory")
}

/// Identifiers of entries.
const AT_7_1: StreamId = StreamId { major: 7, minor: 1 };

const LATE: StreamId = StreamId {
    major: 1526985054069,
    minor: 0,
};

const EARLY: StreamId = StreamId {
    major: 649085820,
    minor: 0,
};

const LAST_OF_7: StreamId = StreamId {
    major: 7,
    minor: u64::MAX,
};

const GREATEST: StreamId = StreamId {
    major: u64::MAX,
    minor: u64::MAX,
};

/// Commands, and their arrays of bulk strings by the pages on the protocol and on each command. `~` ends a line.
static ROWS: [(Asked, &str); 12] = [
    (
        Asked::Read(ReadFrom::First),
        "*6~$6~XRANGE~$5~fleet~$1~-~$1~+~$5~COUNT~$3~256~",
    ),
    (
        Asked::Read(ReadFrom::Above(LATE)),
        "*6~$6~XRANGE~$5~fleet~$16~(1526985054069-0~$1~+~$5~COUNT~$3~256~",
    ),
    (
        Asked::Read(ReadFrom::At(AT_7_1)),
        "*6~$6~XRANGE~$5~fleet~$3~7-1~$1~+~$5~COUNT~$3~257~",
    ),
    (
        Asked::Append(b"LWE1", false),
        "*6~$4~XADD~$5~fleet~$10~NOMKSTREAM~$1~*~$1~e~$4~LWE1~",
    ),
    (
        Asked::Append(b"\r\n\x00", true),
        "*5~$4~XADD~$5~fleet~$1~*~$1~e~$3~~?~",
    ),
    (
        Asked::Trim(EARLY),
        "*5~$5~XTRIM~$5~fleet~$5~MINID~$1~=~$11~649085820-1~",
    ),
    (
        Asked::Trim(LAST_OF_7),
        "*5~$5~XTRIM~$5~fleet~$5~MINID~$1~=~$3~8-0~",
    ),
    // Nothing stands above the greatest identifier.
    (
        Asked::Trim(GREATEST),
        "*5~$5~XTRIM~$5~fleet~$6~MAXLEN~$1~=~$1~0~",
    ),
    (Asked::Login, "*3~$4~AUTH~$5~fleet~$8~a secret~"),
    (Asked::Ping, "*1~$4~PING~"),
    (Asked::Info, "*1~$4~INFO~"),
    (Asked::Time, "*1~$4~TIME~"),
];

/// Tries: lw_redis_log::read_command, lw_redis_log::append_command, lw_redis_log::trim_command
/// Tries: lw_redis_log::login_command, lw_redis_log::ping_command, lw_redis_log::info_command
/// Tries: lw_redis_log::time_command
#[test]
fn commands_are_arrays_of_their_words(rt: HostRuntime) {
    for (asked, want) in &ROWS {
        let bytes = bytes_of(&rt, rt.alloc(), asked);
        let text = shown(rt.alloc(), &bytes).expect(&rt, "memory");
        assert_eq!(rt; text.as_str(), *want);
    }
}
