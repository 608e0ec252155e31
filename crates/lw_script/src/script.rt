//! Whole scripts.

ghost use Rattle.std.specs.Prelude.{◌≡◌, ◌↔◌, ◌==◌, ◌++◌, ℕ, List, [], ◌∷◌, length, Err, IfOk, IfErr, IfSome, IfNone, IsTrue};
ghost use Rattle.std.specs.List.{slice_split};
ghost use Rattle.std.specs.Io.BufRead.{strip_last};
ghost use Rattle.lw_world.specs.declared.event.Event.{Event as Events};
ghost use Rattle.lw_script.specs.declared.script.ScriptFault.TheVariants.{Refused, NoMemory};
ghost use Rattle.lw_script.specs.Lines.{ReadsAs};
ghost use Rattle.lw_script.specs.Script.{lines_of, IsNodes, IsEvent, IsScript, IsGood, IsFirstBad};
ghost use Rattle.lw_script.specs.inner.Progress.{IsRead};

use crate::field::Field;
use crate::{LineFault, read_line};
use lw_world::Event;
use std::alloc::Global;
use std::marker::Model;
use std::str;
use thiserror::Error;

/// The number of nodes of a run, and what happens at them, in order.
#[derive(Drop)]
pub struct Script {
    /// From 1 to 16.
    pub nodes: u16,
    pub events: Vec<Event>,
}

impl Model for Script {
    ghost use Rattle.lw_script.specs.Script.{ScriptContent};

    ghost Value = { ScriptContent };

    ghost view = { λ s. record { nodes = s.nodes; events = s.events.items } };
}

/// Why a script was not read.
#[derive(Clone, Copy, Debug, PartialEq, Eq, Error)]
pub enum ScriptFault {
    /// The first line that is none of a script, counted from 1.
    #[error("line {line} is no line of a script")]
    Refused { line: usize },
    /// A growth was refused. The bytes are a script.
    #[error("out of memory")]
    NoMemory,
}

/// What the lines so far come to.
#[derive(Drop)]
enum Progress {
    /// There is none.
    Blank,
    Read(Script),
    /// They are of a script for which there is no memory.
    Full,
}

/// The script that the bytes spell, or the first line that is refused. Only a script may find no memory.
pub fn read_script(alloc: Global, bytes: &[u8]) -> Result<Script, ScriptFault>
    ensures found { IfOk result (λ script. IsScript script.nodes script.events bytes.now) }
    ensures refused { (line : ℕ) → (result ≡ Err (Refused line)) ↔ IsFirstBad (lines_of bytes.now) line }
    ensures memory { result ≡ Err NoMemory → (nodes : ℕ) × (events : List Events) × IsScript nodes events bytes.now }
{
    match read_lines(alloc, without_feed(bytes)) {
        Ok(Progress::Read(script)) => Ok(script),
        Ok(Progress::Full) => Err(ScriptFault::NoMemory),
        Ok(Progress::Blank) => Err(ScriptFault::Refused { line: 1 }),
        Err(line) => Err(ScriptFault::Refused { line }),
    }
}

/// The bytes without the line feed at the end, if one is there.
fn without_feed(bytes: &[u8]) -> &[u8]
    ensures { result.now ≡ strip_last 10 bytes.now }
{
    match bytes {
        [front @ .., b'\n'] => front,
        _ => bytes,
    }
}

/// What the lines of a text come to, or the first that is bad.
fn read_lines(alloc: Global, text: &[u8]) -> Result<Progress, usize>
    ensures read { IfOk result (λ progress. IsRead progress (slice_split (λ byte. byte == 10) text.now)) }
    ensures bad { IfErr result (λ line. IsFirstBad (slice_split (λ byte. byte == 10) text.now) line) }
{
    let mut progress = Progress::Blank;
    for (place, line) in text.split(|byte| *byte == b'\n').enumerate() {
        match progress.then(alloc, line) {
            Some(next) => progress = next,
            None => return Err(place + 1),
        }
    }
    Ok(progress)
}

impl Progress {
    /// What a further line makes of it, if the line is good.
    fn then(self, alloc: Global, line: &[u8]) -> Option<Progress>
        ensures read { (lines : List (List ℕ)) → IsRead self lines
            → IfSome result (λ progress. IsRead progress (lines ++ line.now ∷ [])) }
        ensures bad { (lines : List (List ℕ)) → IsRead self lines → IfNone result (¬ IsGood (length lines) line.now) }
    {
        match self {
            Progress::Blank => Some(Progress::Read(Script {
                nodes: nodes_of(line)?,
                events: Vec::new(alloc),
            })),
            Progress::Read(script) => script.then(alloc, line),
            Progress::Full if is_event(alloc, line) => Some(Progress::Full),
            Progress::Full => None,
        }
    }
}

impl Script {
    ghost use Rattle.lw_script.specs.inner.Progress.{Continues};

    /// The script with the event of a further line.
    fn then(self, alloc: Global, line: &[u8]) -> Option<Progress>
        ensures read { IfSome result (Continues self line.now) }
        ensures bad { IfNone result ((event : Events) → ¬ IsEvent event line.now) }
    {
        let Script { nodes, mut events } = self;
        match event_of(alloc, line) {
            Ok(event) => match events.push(event) {
                Ok(()) => Some(Progress::Read(Script { nodes, events })),
                Err(_) => Some(Progress::Full),
            },
            Err(LineFault::NoMemory) => Some(Progress::Full),
            Err(LineFault::Refused) => None,
        }
    }
}

/// The number that the first line says.
fn nodes_of(line: &[u8]) -> Option<u16>
    ensures found { IfSome result (λ nodes. IsNodes nodes line.now) }
    ensures none { IfNone result ((nodes : ℕ) → ¬ IsNodes nodes line.now) }
{
    let Ok(text) = str::from_utf8(line) else {
        return None;
    };
    let (word, number) = text.split_once(' ')?;
    if word != "nodes" {
        return None;
    }
    let nodes = u16::read(number)?;
    if !(1..=16).contains(&nodes) {
        return None;
    }
    Some(nodes)
}

/// Whether a line spells an event, which may find no memory.
fn is_event(alloc: Global, line: &[u8]) -> bool
    ensures { IsTrue result ↔ ((event : Events) × IsEvent event line.now) }
{
    match event_of(alloc, line).err() {
        Some(LineFault::Refused) => false,
        Some(LineFault::NoMemory) => true,
        None => true,
    }
}

fn event_of(alloc: Global, line: &[u8]) -> Result<Event, LineFault>
    ensures { ReadsAs (λ event. IsEvent event line.now) result }
{
    match str::from_utf8(line) {
        Ok(text) => read_line(alloc, text),
        Err(_) => Err(LineFault::Refused),
    }
}
