//! The line of what comes of an event.

ghost use Rattle.std.specs.Prelude.{◌≡◌, ◌∷◌, ◌++◌, IfOk, OnErr, OnOk, [], codes, decimal, option_map};
ghost use Rattle.std.specs.Option.{unwrap_or};
ghost use Rattle.std.specs.List.{join_with_byte};
ghost use Rattle.hex.specs.Hex.{encode_lower};
ghost use Rattle.lw_json.specs.Lines.{outcome_text, outcome_words, taken_words, command_words, sent_words, swept_words, found_text, fault_number, delivery_words, notice_text};
ghost use Rattle.lw_json.specs.inner.Words.{Puts};

use crate::one::put_reply;
use crate::values::put_json;
use crate::watch::{Stale, Watched};
use crate::words::{put_decimal, put_hex, put_id, put_word};
use lw_stamp::{NoMemory, Stamp};
use lw_world::{
    Answer, ClockEnd, DeltaFault, MergeFault, Notice, ObserveFault, Outcome, Outgoing, Sending,
    Taken,
};
use std::alloc::Global;

/// The line of what comes of an event, with its line feed. The bytes are those of the message, where the outcome is
/// one that was sent.
pub fn outcome_line(
    alloc: Global,
    outcome: &Outcome,
    message: Option<&[u8]>,
) -> Result<Vec<u8>, NoMemory>
    ensures { IfOk result (λ line.
        line.items ≡ outcome_text outcome.now (unwrap_or (option_map (λ bytes. bytes.now) message.entry) [])) }
{
    let mut line = Vec::new(alloc);
    put_outcome(&mut line, alloc, outcome, message)?;
    Ok(line)
}

/// Adds the line of what comes of an event, with its line feed. The bytes are those of the message, where the outcome
/// is one that was sent. On a refusal the lines are as they were.
pub fn put_outcome(
    lines: &mut Vec<u8>,
    alloc: Global,
    outcome: &Outcome,
    message: Option<&[u8]>,
) -> Result<(), NoMemory>
    ensures added { OnOk result (lines.new.items ≡ lines.old.items
        ++ outcome_text outcome.now (unwrap_or (option_map (λ bytes. bytes.now) message.entry) [])) }
    ensures refused { OnErr result (lines.new.items ≡ lines.old.items) }
{
    let length = lines.len();
    match put_line(lines, alloc, outcome, message.unwrap_or(&[])) {
        Ok(()) => Ok(()),
        Err(refused) => {
            lines.truncate(length);
            Err(refused)
        }
    }
}

fn put_line(
    line: &mut Vec<u8>,
    alloc: Global,
    outcome: &Outcome,
    message: &[u8],
) -> Result<(), NoMemory>
    ensures { Puts result line.old.items line.new.items (outcome_text outcome.now message.now) }
{
    put_words(line, alloc, outcome, message)?;
    put_word(line, "\n")
}

fn put_words(
    line: &mut Vec<u8>,
    alloc: Global,
    outcome: &Outcome,
    message: &[u8],
) -> Result<(), NoMemory>
    ensures { Puts result line.old.items line.new.items (join_with_byte 32 (outcome_words outcome.now message.now)) }
{
    match outcome {
        Outcome::Taken(Ok(taken)) => put_taken(line, alloc, taken),
        Outcome::Observed(outcome) | Outcome::Cancelled(outcome) => {
            put_command(line, alloc, outcome)
        }
        Outcome::Swept(outcome) => put_swept(line, outcome),
        Outcome::Answered(Ok(answer)) => put_found(line, alloc, answer),
        Outcome::Sent(Ok(sending)) => { put_sending(line, alloc, sending, message) }
        Outcome::Delivered(outcome) => put_delivery(line, outcome),
        Outcome::NoSuchNode => put_word(line, "no node"),
        Outcome::NoSuchMessage => put_word(line, "no message"),
        Outcome::Taken(Err(_)) | Outcome::Answered(Err(_)) | Outcome::Sent(Err(_)) => {
            put_word(line, "no memory")
        }
    }
}

#[tactic(auto, using(crate::proofs::WordLemmas::kept_then))]
fn put_taken(line: &mut Vec<u8>, alloc: Global, taken: &Taken) -> Result<(), NoMemory>
    ensures { Puts result line.old.items line.new.items (join_with_byte 32 (taken_words taken.now)) }
{
    put_word(line, "taken ")?;
    put_reply(line, alloc, taken.reply.as_deref())?;
    put_word(line, " ")?;
    put_notice(line, alloc, taken.notice.as_ref())
}

/// Adds the notice, or a hyphen.
fn put_notice(line: &mut Vec<u8>, alloc: Global, notice: Option<&Notice>) -> Result<(), NoMemory>
    ensures { Puts result line.old.items line.new.items (notice_text (option_map (λ n. n.now) notice.entry)) }
{
    match notice {
        Some(notice) => put_json(line, alloc, notice),
        None => put_word(line, "-"),
    }
}

fn put_command(
    line: &mut Vec<u8>,
    alloc: Global,
    outcome: &Result<Outgoing, ObserveFault>,
) -> Result<(), NoMemory>
    ensures { Puts result line.old.items line.new.items (join_with_byte 32 (command_words outcome.now)) }
{
    match outcome {
        Ok(outgoing) => put_sent(line, alloc, outgoing),
        Err(ObserveFault::NotFound) => put_word(line, "refused 1"),
        Err(ObserveFault::ClockEnd) => put_word(line, "refused 2"),
        Err(ObserveFault::NoMemory) => put_word(line, "no memory"),
    }
}

#[tactic(auto, using(crate::proofs::WordLemmas::kept_then))]
fn put_sent(line: &mut Vec<u8>, alloc: Global, outgoing: &Outgoing) -> Result<(), NoMemory>
    ensures { Puts result line.old.items line.new.items (join_with_byte 32 (sent_words outgoing.now)) }
{
    let address = outgoing.to.print(alloc)?;
    put_word(line, "sent ")?;
    put_id(line, outgoing.token)?;
    put_word(line, " ")?;
    put_word(line, address.as_str())?;
    put_word(line, " ")?;
    put_hex(line, alloc, outgoing.bytes.as_slice())
}

/// Adds the words of a message that is sent, with its bytes.
#[tactic(auto, using(crate::proofs::WordLemmas::kept_then))]
fn put_sending(
    line: &mut Vec<u8>,
    alloc: Global,
    sending: &Sending,
    message: &[u8],
) -> Result<(), NoMemory>
    ensures { Puts result line.old.items line.new.items
        (join_with_byte 32 (codes "message" ∷ decimal sending.now.message ∷ decimal sending.now.change
        ∷ encode_lower message.now ∷ [])) }
{
    put_word(line, "message ")?;
    put_decimal(line, sending.message)?;
    put_word(line, " ")?;
    put_decimal(line, sending.change)?;
    put_word(line, " ")?;
    put_hex(line, alloc, message)
}

/// Adds the registration that has ended, or none, or why none ends.
fn put_swept(line: &mut Vec<u8>, outcome: &Result<Option<Stamp>, ClockEnd>) -> Result<(), NoMemory>
    ensures { Puts result line.old.items line.new.items (join_with_byte 32 (swept_words outcome.now)) }
{
    match outcome {
        Ok(Some(id)) => {
            put_word(line, "swept ")?;
            put_id(line, *id)
        }
        Ok(None) => put_word(line, "none"),
        Err(ClockEnd) => put_word(line, "refused 1"),
    }
}

/// Adds what is found, or `none`.
fn put_found(line: &mut Vec<u8>, alloc: Global, answer: &Answer) -> Result<(), NoMemory>
    ensures { Puts result line.old.items line.new.items (found_text answer.now) }
{
    match answer {
        Answer::Registration(Some(seen)) => put_json(line, alloc, &seen.as_view()),
        Answer::Watched(Some((seen, watch))) => {
            let shown = seen.as_view();
            put_json(
                line,
                alloc,
                &Watched {
                    shown: &shown,
                    watch,
                },
            )
        }
        Answer::Expired(Some((endpoint, id))) => {
            let endpoint = endpoint.as_str();
            put_json(line, alloc, &Stale { endpoint, id: *id })
        }
        Answer::Changed(number) => put_decimal(line, *number),
        Answer::Registration(None) | Answer::Watched(None) | Answer::Expired(None) => {
            put_word(line, "none")
        }
    }
}

fn put_delivery(line: &mut Vec<u8>, outcome: &Result<usize, MergeFault>) -> Result<(), NoMemory>
    ensures { Puts result line.old.items line.new.items (join_with_byte 32 (delivery_words outcome.now)) }
{
    match outcome {
        Ok(joined) => {
            put_word(line, "joined ")?;
            put_decimal(line, *joined)
        }
        Err(MergeFault::Malformed(fault)) => {
            put_word(line, "malformed ")?;
            put_decimal(line, fault_number(*fault))
        }
        Err(MergeFault::NoMemory { .. }) => put_word(line, "no memory"),
    }
}

fn fault_number(fault: DeltaFault) -> u8
    ensures { result ≡ fault_number fault }
{
    match fault {
        DeltaFault::Magic => 1,
        DeltaFault::Truncated => 2,
        DeltaFault::Order => 3,
        DeltaFault::Range => 4,
        DeltaFault::Text => 5,
        DeltaFault::ClockBelow => 6,
        DeltaFault::Trailing => 7,
        DeltaFault::NoMemory => 8,
    }
}
