//! What a reply is to what was asked.

ghost use Rattle.lw_redis_log.specs.Outcomes.{IsFaultOf, IsAppended, AreEntries, IsTrimmed, IsStatus, IsInfo};

use crate::errors::passes;
use lw_resp::{Entry, Reply, StreamId, Word};

/// Why a Redis did not do what it was asked.
#[derive(Clone, Copy, PartialEq, Eq, Debug)]
pub enum RedisFault<'a> {
    /// It cannot do it now, or its reply is none to the question.
    Unavailable,
    /// It will not do it, with the text of its error.
    Refused(&'a [u8]),
    /// The stream is not there.
    Lost,
}

/// What an error is.
pub(crate) fn fault_of(text: &[u8]) -> RedisFault<'_>
    ensures { IsFaultOf text.now result }
{
    if passes(text) {
        return RedisFault::Unavailable;
    }
    RedisFault::Refused(text)
}

/// The identifier of the entry that was appended.
pub fn append_outcome<'a>(reply: &Reply<'a>) -> Result<StreamId, RedisFault<'a>>
    ensures { IsAppended reply.now result }
{
    match reply {
        Reply::Word(Word::Bulk(text)) => match StreamId::read(text) {
            Some(id) => Ok(id),
            None => Err(RedisFault::Unavailable),
        },
        Reply::Word(Word::Null) => Err(RedisFault::Lost),
        Reply::Word(Word::Error(text)) => Err(fault_of(text)),
        _ => Err(RedisFault::Unavailable),
    }
}

/// The entries that were read.
pub fn entries_outcome<'r, 'a>(reply: &'r Reply<'a>) -> Result<&'r [Entry<'a>], RedisFault<'a>>
    ensures { AreEntries reply.now result }
{
    match reply {
        Reply::Entries(entries) => Ok(entries),
        Reply::Word(Word::Error(text)) => Err(fault_of(text)),
        _ => Err(RedisFault::Unavailable),
    }
}

/// How many entries were let go.
pub fn trim_outcome<'a>(reply: &Reply<'a>) -> Result<u64, RedisFault<'a>>
    ensures { IsTrimmed reply.now result }
{
    match reply {
        Reply::Word(Word::Number(number)) => Ok(*number),
        Reply::Word(Word::Error(text)) => Err(fault_of(text)),
        _ => Err(RedisFault::Unavailable),
    }
}

/// Whether the reply is the status that was waited for.
pub fn status_outcome<'a>(want: &[u8], reply: &Reply<'a>) -> Result<(), RedisFault<'a>>
    ensures { IsStatus want.now reply.now result }
{
    match reply {
        Reply::Word(Word::Status(text)) => {
            if *text == want {
                Ok(())
            } else {
                Err(RedisFault::Unavailable)
            }
        }
        Reply::Word(Word::Error(text)) => Err(fault_of(text)),
        _ => Err(RedisFault::Unavailable),
    }
}

/// What the server told of itself.
pub fn info_outcome<'a>(reply: &Reply<'a>) -> Result<&'a [u8], RedisFault<'a>>
    ensures { IsInfo reply.now result }
{
    match reply {
        Reply::Word(Word::Bulk(text)) => Ok(text),
        Reply::Word(Word::Error(text)) => Err(fault_of(text)),
        _ => Err(RedisFault::Unavailable),
    }
}
