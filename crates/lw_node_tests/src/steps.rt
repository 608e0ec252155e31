//! Steps of a node as lines of a script, and what each of them prints.

use bytes::Bytes;
use lw_json::outcome_line;
use lw_node::{Call, Node, Question, Reply, Sent, Text};
use lw_script::read_line;
use lw_stamp::{Moment, NoMemory};
use lw_world::{Action, Outcome};
use std::alloc::Global;
use std::process::Abort;
use std::str;

/// What is done with a node.
pub(crate) enum Step<'a> {
    /// A line of a script, but none that delivers. Which node it names does not matter.
    Line(&'a str),
    /// The first is asked for above the empty name, for which there is no line.
    NextAboveNoName,
    /// A delta in hex is merged.
    Merges(&'a str),
    /// Its clock and its change number are told.
    Numbers,
}

/// A step, and what it is to print: as `replay` does, but of a `send` the delta alone.
pub(crate) type Row<'a> = (Step<'a>, &'a str);

/// Steps one after another, by a name.
pub(crate) type Run<'a> = (&'a str, &'a [Row<'a>]);

/// Takes the steps at the node. The first that prints something else fails.
pub(crate) fn play(rt: &impl Abort, alloc: Global, node: &mut Node, (name, rows): Run<'_>) {
    for (step, want) in rows {
        let text = printed(rt, alloc, node, step);
        assert_eq!(rt; text.as_str(), *want, "in the run of {name}");
    }
}

fn printed(rt: &impl Abort, alloc: Global, node: &mut Node, step: &Step<'_>) -> String {
    match call_of(rt, alloc, step) {
        Some(call) => text_of(rt, alloc, node.act(&call)),
        None => numbers(rt, alloc, node),
    }
}

fn numbers(rt: &impl Abort, alloc: Global, node: &Node) -> String {
    format!(in alloc; "{} {}", node.clock(), node.change()).expect(rt, "memory")
}

/// The call that the step makes, where it makes one.
pub(crate) fn call_of(rt: &impl Abort, alloc: Global, step: &Step<'_>) -> Option<Call> {
    match step {
        Step::Line(line) => Some(call_of_line(rt, alloc, line)),
        Step::NextAboveNoName => Some(call_above_no_name(rt, alloc)),
        Step::Merges(delta) => Some(call_to_merge(rt, alloc, delta)),
        Step::Numbers => None,
    }
}

pub(crate) fn call_of_line(rt: &impl Abort, alloc: Global, line: &str) -> Call {
    let event = read_line(alloc, line).expect(rt, "a line");
    call_to(event.action).expect(rt, "a call")
}

fn call_above_no_name(rt: &impl Abort, alloc: Global) -> Call {
    let name = Text::copy_of(alloc, "").expect(rt, "memory");
    Call::Ask {
        now: Moment::START,
        question: Question::FirstAfter(Some(name)),
    }
}

fn call_to_merge(rt: &impl Abort, alloc: Global, delta: &str) -> Call {
    let delta = hex::decode(alloc, delta).expect(rt, "hex");
    Call::Merge {
        bytes: Bytes::from_vec(delta).expect(rt, "memory"),
    }
}

/// The call that the action is, which is none where a message is delivered.
fn call_to(action: Action) -> Option<Call> {
    match action {
        Action::Take { now, from, bytes } => Some(Call::Take { now, from, bytes }),
        Action::Observe {
            now,
            id,
            path,
            accept,
            mid,
        } => Some(Call::Observe {
            now,
            id,
            path,
            accept,
            mid,
        }),
        Action::Cancel { now, token, mid } => Some(Call::Cancel { now, token, mid }),
        Action::Sweep { now } => Some(Call::Sweep { now }),
        Action::Ask { now, question } => Some(Call::Ask { now, question }),
        Action::Send { since } => Some(Call::Send { since }),
        Action::Deliver { .. } => None,
    }
}

/// What a reply prints.
pub(crate) fn text_of(rt: &impl Abort, alloc: Global, reply: Reply) -> String {
    match outcome_of(reply) {
        Ok(outcome) => line_of(rt, alloc, &outcome),
        Err(sent) => digits_of(rt, alloc, &sent),
    }
}

fn digits_of(rt: &impl Abort, alloc: Global, sent: &Sent) -> String {
    hex::encode(alloc, sent.delta.as_slice()).expect(rt, "memory")
}

/// The outcome that a reply would be in a run, or what is sent.
fn outcome_of(reply: Reply) -> Result<Outcome, Sent> {
    match reply {
        Reply::Take(taken) => Ok(Outcome::Taken(taken)),
        Reply::Observe(sent) => Ok(Outcome::Observed(sent)),
        Reply::Cancel(sent) => Ok(Outcome::Cancelled(sent)),
        Reply::Send(Ok(sent)) => Err(sent),
        Reply::Send(Err(NoMemory)) => Ok(Outcome::Sent(Err(NoMemory))),
        Reply::Merge(merged) => Ok(Outcome::Delivered(merged)),
        Reply::Ask(answer) => Ok(Outcome::Answered(answer)),
        Reply::Sweep(swept) => Ok(Outcome::Swept(swept)),
    }
}

/// The line of an outcome, without its line feed.
fn line_of(rt: &impl Abort, alloc: Global, outcome: &Outcome) -> String {
    let line = outcome_line(alloc, outcome, None).expect(rt, "memory");
    let text = str::from_utf8(&line).expect(rt, "a text");
    String::from_str(alloc, text.trim_end()).expect(rt, "memory")
}
