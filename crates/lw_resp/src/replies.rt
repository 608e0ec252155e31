//! Replies that a log over a stream gets.

ghost use Rattle.std.specs.Prelude.{◌≡◌, ◌⊎◌, ◌++◌, ◌∷◌, [], ℕ, List, OnOk, Ok, Err, None, IfOk, IfSome, IfErr, IsOkAnd, IsSomeAnd};
ghost use Rattle.std.specs.List.{flat_map, AllZip};
ghost use Rattle.lw_resp.specs.declared.malformed.ReplyFault.TheVariants as fault;
ghost use Rattle.lw_resp.specs.Reading.{Begins, IsCut, IsMalformed};
ghost use Rattle.lw_resp.specs.Replies.ReplyContent.{Entries as EntriesContent};
ghost use Rattle.lw_resp.specs.Replies.{IsReply, IsReplyOf, ReplyContent, reply_bytes};
ghost use Rattle.lw_resp.specs.Streams.{EntryContent, IsEntry, IsEntryOf, entry_bytes};
ghost use Rattle.lw_resp.specs.Words.{IsWord, word_bytes, word_content};
ghost use Rattle.lw_resp.specs.inner.Parts.{AreMany};
ghost use Rattle.lw_resp.specs.inner.Reads.{ReadsOrNoMemory};

use crate::ReplyFault;
use crate::entries::{Entry, first_entry};
use crate::words::{Word, read_word};
use lw_stamp::NoMemory;
use std::alloc::Global;

/// A reply.
#[derive(Drop)]
pub enum Reply<'a> {
    /// A reply that is no array.
    Word(Word<'a>),
    /// Entries of a stream.
    Entries(Vec<Entry<'a>>),
}

/// So many entries at the front, and what stands behind them.
fn entries(
    alloc: Global,
    number: u64,
    bytes: &[u8],
) -> Result<Option<(Vec<Entry<'_>>, &[u8])>, ReplyFault>
    ensures { ReadsOrNoMemory (AreMany IsEntry number) (flat_map entry_bytes) bytes.now result
        (λ x es. AllZip IsEntryOf es x.0.items) (λ x. x.1.now) }
{
    let mut entries = Vec::new(alloc);
    let mut rest = bytes;
    for _ in 0..number {
        match first_entry(rest) {
            Ok(Some((entry, behind))) => {
                push(&mut entries, entry)?;
                rest = behind;
            }
            Ok(None) => return Ok(None),
            Err(_) => return Err(ReplyFault::Malformed),
        }
    }
    Ok(Some((entries, rest)))
}

fn push<'a>(entries: &mut Vec<Entry<'a>>, entry: Entry<'a>) -> Result<(), ReplyFault>
    ensures pushed { OnOk result (entries.new.items ≡ entries.old.items ++ entry.entry ∷ []) }
    ensures refused { IfErr result (λ e. e ≡ fault.NoMemory) }
{
    match entries.push(entry) {
        Ok(()) => Ok(()),
        Err(_) => Err(ReplyFault::NoMemory),
    }
}

fn entries_reply(
    alloc: Global,
    number: u64,
    bytes: &[u8],
) -> Result<Option<(Reply<'_>, &[u8])>, ReplyFault>
    ensures { ReadsOrNoMemory (AreMany IsEntry number) (flat_map entry_bytes) bytes.now result
        (λ x es. IsReplyOf x.0 (EntriesContent es)) (λ x. x.1.now) }
{
    match entries(alloc, number, bytes) {
        Ok(Some((entries, rest))) => Ok(Some((Reply::Entries(entries), rest))),
        Ok(None) => Ok(None),
        Err(fault) => Err(fault),
    }
}

/// The reply whose first word was read.
fn reply_from<'a>(
    alloc: Global,
    word: Word<'a>,
    behind: &'a [u8],
) -> Result<Option<(Reply<'a>, &'a [u8])>, ReplyFault>
    requires { IsWord (word_content word) }
    ensures { ReadsOrNoMemory IsReply reply_bytes (word_bytes (word_content word.entry) ++ behind.now) result
        (λ x reply. IsReplyOf x.0 reply) (λ x. x.1.now) }
{
    match word {
        Word::Array(number) => entries_reply(alloc, number, behind),
        _ => Ok(Some((Reply::Word(word), behind))),
    }
}

fn read_reply(alloc: Global, bytes: &[u8]) -> Result<Option<(Reply<'_>, &[u8])>, ReplyFault>
    ensures { ReadsOrNoMemory IsReply reply_bytes bytes.now result
        (λ x reply. IsReplyOf x.0 reply) (λ x. x.1.now) }
{
    match read_word(bytes) {
        Ok(Some((word, behind))) => reply_from(alloc, word, behind),
        Ok(None) => Ok(None),
        Err(_) => Err(ReplyFault::Malformed),
    }
}

/// The reply at the front, and what stands behind it; none where it has not come whole.
pub fn first_reply(alloc: Global, bytes: &[u8]) -> Result<Option<(Reply<'_>, &[u8])>, ReplyFault>
    // What is read stands there.
    ensures found { IfOk result (λ r. IfSome r (λ x.
        (reply : ReplyContent) × IsReplyOf x.0 reply × Begins IsReply reply_bytes bytes.now reply x.1.now)) }
    // What stands there is read, whatever stands behind it, unless there is no memory.
    ensures only { (reply : ReplyContent) (rest : List ℕ) → Begins IsReply reply_bytes bytes.now reply rest
        → (result ≡ Err fault.NoMemory)
        ⊎ IsOkAnd result (λ r. IsSomeAnd r (λ x. IsReplyOf x.0 reply × (x.1.now ≡ rest))) }
    ensures not_whole { result ≡ Ok None → IsCut IsReply reply_bytes bytes.now }
    ensures cut { IsCut IsReply reply_bytes bytes.now → (result ≡ Err fault.NoMemory) ⊎ (result ≡ Ok None) }
    ensures no_reply { result ≡ Err fault.Malformed → IsMalformed IsReply reply_bytes bytes.now }
    ensures malformed { IsMalformed IsReply reply_bytes bytes.now
        → (result ≡ Err fault.NoMemory) ⊎ (result ≡ Err fault.Malformed) }
{
    read_reply(alloc, bytes)
}
