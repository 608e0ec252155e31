ghost use Rattle.std.specs.Prelude.{◌≡◌, ◌⊎◌, ◌≤◌, ℕ, IfOk, IfErr, OnOk, OnErr, option_map, Ok, Err};
ghost use Rattle.std.specs.Io.KnownBytes.{Appends};
ghost use Rattle.lw_world.specs.Run.{History, Runs, begun};
ghost use Rattle.lw_world.specs.World.{world_of};
ghost use Rattle.lw_script.specs.Script.{lines_of, IsFirstBad, IsScript};
ghost use Rattle.lw_serve.specs.Ending.{AppendsFront};
ghost use Rattle.lw_fleet.specs.Replay.{line_text, lines_text, message_of, IsReplayStopped, Replays};

use crate::fault::Fault;
use crate::input::read_all;
use crate::output::{flush, write_all};
use lw_json::put_outcome;
use lw_script::{Script, ScriptFault, read_script};
use lw_world::{Outcome, World, run};
use std::alloc::Global;
use std::io::{Read, Write};

/// Reads a script, at most 1,048,576 bytes, runs its events at new nodes, and prints a line of what comes of each.
/// No event happens before the whole script is read.
pub fn replay<R: Read, W: Write>(alloc: Global, reader: &mut R, writer: &mut W) -> Result<(), Fault>
    // What is printed are the lines of outcomes that the events of the script may have, and nothing else.
    ensures printed { OnOk result (Replays (R.remaining reader.old) (W.contents writer.old) (W.contents writer.new)) }
    ensures stopped { IfErr result (IsReplayStopped (R.remaining reader.old) (W.contents writer.old)
        (W.contents writer.new)) }
{
    let bytes = read_all(alloc, reader)?;
    let script = script_of(alloc, &bytes)?;
    let (world, outcomes) = run(alloc, script.nodes, &script.events)?;
    write_lines(alloc, &world, &outcomes, writer)
}

/// The script that the bytes spell.
fn script_of(alloc: Global, bytes: &[u8]) -> Result<Script, Fault>
    ensures is { IfOk result (λ script. IsScript script.nodes script.events bytes.now) }
    ensures some { IfOk result (λ script. 1 ≤ script.nodes) }
    ensures most { IfOk result (λ script. script.nodes ≤ 16) }
    ensures refused { (line : ℕ) → result ≡ Err (Fault.LineRefused line) → IsFirstBad (lines_of bytes.now) line }
    ensures faults { IfErr result (λ e. ((line : ℕ) × (e ≡ Fault.LineRefused line)) ⊎ (e ≡ Fault.NoMemory)) }
{
    match read_script(alloc, bytes) {
        Ok(script) => Ok(script),
        Err(ScriptFault::Refused { line }) => Err(Fault::LineRefused { line }),
        Err(ScriptFault::NoMemory) => Err(Fault::NoMemory),
    }
}

fn write_lines<W: Write>(
    alloc: Global,
    world: &World,
    outcomes: &[Outcome],
    writer: &mut W,
) -> Result<(), Fault>
    ensures whole { OnOk result (Appends (W.contents writer.old) (W.contents writer.new)
        (lines_text world.now.messages outcomes.now)) }
    ensures front { OnErr result (AppendsFront (W.contents writer.old) (W.contents writer.new)
        (lines_text world.now.messages outcomes.now)) }
    ensures faults { IfErr result (λ e. (e ≡ Fault.WriteFailed) ⊎ (e ≡ Fault.NoMemory)) }
{
    let mut line = Vec::new(alloc);
    for outcome in outcomes {
        write_line(&mut line, alloc, world, outcome, writer)?;
    }
    flush(writer)
}

/// Writes the line of an outcome, which is made in place of the line before.
fn write_line<W: Write>(
    line: &mut Vec<u8>,
    alloc: Global,
    world: &World,
    outcome: &Outcome,
    writer: &mut W,
) -> Result<(), Fault>
    ensures whole { OnOk result (Appends (W.contents writer.old) (W.contents writer.new)
        (line_text world.now.messages outcome.now)) }
    ensures front { OnErr result (AppendsFront (W.contents writer.old) (W.contents writer.new)
        (line_text world.now.messages outcome.now)) }
    ensures faults { IfErr result (λ e. (e ≡ Fault.WriteFailed) ⊎ (e ≡ Fault.NoMemory)) }
{
    line.clear();
    put_outcome(line, alloc, outcome, sent_message(world, outcome))?;
    write_all(writer, line)
}

/// The bytes of the message, where the outcome is one that was sent.
fn sent_message<'a>(world: &'a World, outcome: &Outcome) -> Option<&'a [u8]>
    ensures { option_map (λ bytes. bytes.now) result ≡ message_of world.entry.now.messages outcome.now }
{
    match outcome {
        Outcome::Sent(Ok(sending)) => world.message(sending.message),
        _ => None,
    }
}
