//! What a Redis tells of itself.

ghost use Rattle.std.specs.Prelude.{◌↔◌, ◌<◌, IsTrue, length};
ghost use Rattle.lw_redis_log.specs.Settings.{Tells, TellsOfNoFile, TellsOfReplica, TellsOfEviction};
ghost use Rattle.lw_redis_log.specs.inner.Settings.{BeginsWith};

/// The line of `INFO` of a server that keeps no file of what is appended.
const NO_FILE: &[u8] = b"\r\naof_enabled:0\r\n";

/// That of one that is a replica of another one.
const REPLICA: &[u8] = b"\r\nrole:slave\r\n";

/// How the line begins of one that has any key go where its memory is full.
const EVICTION: &[u8] = b"\r\nmaxmemory_policy:allkeys-";

/// What is to be known of a server.
#[derive(Clone, Copy, Debug, PartialEq, Eq)]
pub struct Settings {
    /// It keeps no file of what is appended.
    pub keeps_nothing: bool,
    /// It is a replica.
    pub is_replica: bool,
    /// It may have the stream go where its memory is full.
    pub evicts: bool,
}

impl Settings {
    /// What the text of `INFO` tells.
    pub fn read(text: &[u8]) -> Settings
        ensures keeps_nothing { IsTrue result.keeps_nothing ↔ TellsOfNoFile text.now }
        ensures is_replica { IsTrue result.is_replica ↔ TellsOfReplica text.now }
        ensures evicts { IsTrue result.evicts ↔ TellsOfEviction text.now }
    {
        Settings {
            keeps_nothing: tells(text, NO_FILE),
            is_replica: tells(text, REPLICA),
            evicts: tells(text, EVICTION),
        }
    }
}

fn begins_with(text: &[u8], part: &[u8]) -> bool
    ensures { IsTrue result ↔ BeginsWith part.now text.now }
{
    text.starts_with(part)
}

/// Whether the part stands somewhere in the text.
fn tells(text: &[u8], part: &[u8]) -> bool
    requires { 0 < length part.now }
    ensures { IsTrue result ↔ Tells part.now text.now }
{
    for start in 0..text.len() {
        if begins_with(&text[start..], part) {
            return true;
        }
    }
    false
}
