//! The commands of a log over a stream.

ghost use Rattle.std.specs.Prelude.{◌≡◌, ◌++◌, IfOk, OnOk};
ghost use Rattle.lw_resp.specs.Bytes.{command_bytes};
ghost use Rattle.lw_redis_log.specs.Commands.{start_word, read_words, append_words, login_words, ping_words, info_words, time_words, IsTrim};

use lw_resp::{FIELD, StreamId, command};
use lw_stamp::NoMemory;
use std::alloc::Global;

/// Where a reading begins.
#[derive(Clone, Copy, Debug, PartialEq, Eq)]
pub enum ReadFrom {
    /// At the first entry of all.
    First,
    /// Above an identifier.
    Above(StreamId),
    /// At an identifier, whose entry is asked for beside as many as elsewhere.
    At(StreamId),
}

impl ReadFrom {
    /// Puts where the range starts behind what is there.
    fn put(self, out: &mut Vec<u8>) -> Result<(), NoMemory>
        ensures { OnOk result (out.new.items ≡ out.old.items ++ start_word self) }
    {
        match self {
            ReadFrom::First => out.push(b'-')?,
            ReadFrom::Above(id) => {
                out.push(b'(')?;
                id.put(out)?;
            }
            ReadFrom::At(id) => id.put(out)?,
        }
        Ok(())
    }
}

/// Asks for the first entries from somewhere on.
pub fn read_command(alloc: Global, key: &[u8], from: ReadFrom) -> Result<Vec<u8>, NoMemory>
    ensures { IfOk result (λ bytes. bytes.items ≡ command_bytes (read_words key.now from)) }
{
    let mut start = Vec::new(alloc);
    from.put(&mut start)?;
    match from {
        ReadFrom::At(_) => command(alloc, &[b"XRANGE", key, &start, b"+", b"COUNT", b"257"]),
        _ => command(alloc, &[b"XRANGE", key, &start, b"+", b"COUNT", b"256"]),
    }
}

/// Appends an entry, and makes the stream where it is to be made.
pub fn append_command(
    alloc: Global,
    key: &[u8],
    entry: &[u8],
    makes: bool,
) -> Result<Vec<u8>, NoMemory>
    ensures { IfOk result (λ bytes. bytes.items ≡ command_bytes (append_words key.now entry.now makes)) }
{
    if makes {
        return command(alloc, &[b"XADD", key, b"*", FIELD, entry]);
    }
    command(alloc, &[b"XADD", key, b"NOMKSTREAM", b"*", FIELD, entry])
}

/// Lets the entries go at or below an identifier. None are left where it is the greatest.
pub fn trim_command(alloc: Global, key: &[u8], upto: StreamId) -> Result<Vec<u8>, NoMemory>
    ensures { IfOk result (λ bytes. IsTrim key.now upto bytes.items) }
{
    let Some(next) = upto.next() else {
        return command(alloc, &[b"XTRIM", key, b"MAXLEN", b"=", b"0"]);
    };
    let mut start = Vec::new(alloc);
    next.put(&mut start)?;
    command(alloc, &[b"XTRIM", key, b"MINID", b"=", &start])
}

/// Logs a user in.
pub fn login_command(alloc: Global, user: &[u8], password: &[u8]) -> Result<Vec<u8>, NoMemory>
    ensures { IfOk result (λ bytes. bytes.items ≡ command_bytes (login_words user.now password.now)) }
{
    command(alloc, &[b"AUTH", user, password])
}

/// Asks whether the server answers.
pub fn ping_command(alloc: Global) -> Result<Vec<u8>, NoMemory>
    ensures { IfOk result (λ bytes. bytes.items ≡ command_bytes ping_words) }
{
    command(alloc, &[b"PING"])
}

/// Asks what the server is, and how it is set.
pub fn info_command(alloc: Global) -> Result<Vec<u8>, NoMemory>
    ensures { IfOk result (λ bytes. bytes.items ≡ command_bytes info_words) }
{
    command(alloc, &[b"INFO"])
}

/// Asks what time it is.
pub fn time_command(alloc: Global) -> Result<Vec<u8>, NoMemory>
    ensures { IfOk result (λ bytes. bytes.items ≡ command_bytes time_words) }
{
    command(alloc, &[b"TIME"])
}
