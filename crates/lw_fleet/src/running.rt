ghost use Rattle.std.specs.Prelude.{◌≡◌, ◌≢◌, ℕ, Bool, List, Option, IfOk, IfErr, map};
ghost use Rattle.std.specs.IoError.{error_kind};
ghost use Rattle.std.specs.declared.io.ErrorKind.TheVariants.{InvalidData};
ghost use Rattle.clap.specs.Words.{kind_of};
ghost use Rattle.clap.specs.declared.error.kind.ErrorKind.TheVariants.{OutOfMemory};
ghost use Rattle.lw_fleet.specs.CommandLine.{IsRequest};
ghost use Rattle.lw_fleet.specs.One.{IsAddressText};
ghost use Rattle.lw_fleet.specs.Program.{status_of, EndsOne, EndsOtherwise, EndsRefused, EndsReplay, EndsRequest, EndsRun, EndsServe, EndsShown, EndsWithoutMemory, IsEnd, IsOfInput, IsRefusal, Reads, Tells};

use crate::command::{OneOptions, Request, ServeOptions, not_utf8, read_request};
use crate::fault::Fault;
use crate::one_datagram::one;
use crate::output::write_text;
use crate::replaying::replay;
use crate::run_options::RunOptions;
use crate::running_server::{RunningFault, Runs};
use crate::serving::{Serves, ServingFault};
use clap::Error;
use clap::error::ErrorKind;
use lw_stamp::NoMemory;
use std::alloc::Global;
use std::convert::AsStr;
use std::io::{self, Read, Write};
use std::sync::Wait;
use std::thread::Threads;

/// How a run of the program ends.
#[derive(Clone, Copy, Debug, PartialEq, Eq)]
pub enum Ending {
    /// All that was asked for is written.
    Done,
    /// A fault came; it is told where standard error took its whole line.
    Failed { fault: Fault, told: bool },
    /// `serve` stopped at a fault, which is told in the same way.
    Unserved { fault: ServingFault, told: bool },
    /// `run` stopped at a fault, which is told in the same way.
    Stopped { fault: RunningFault, told: bool },
    /// The command line is refused, with a text on standard error.
    Refused,
}

impl Ending {
    /// The exit status of the process.
    pub fn status(self) -> u8
        ensures { result ≡ status_of self }
    {
        match self {
            Ending::Done => 0,
            Ending::Failed { .. } => 1,
            Ending::Unserved { .. } => 1,
            Ending::Stopped { .. } => 1,
            Ending::Refused => 2,
        }
    }
}

#[tactic(auto, using(crate::proofs::EndingLemmas::refused_early))]
/// Runs the program on the words of its command line, if they could be had, the program's name first. Where they ask
/// for it, the server serves or runs.
pub fn program<T: Threads + Wait + Sync, S: AsStr, R: Read, W: Write, E: Write, V: Serves + Runs>(
    rt: &T,
    alloc: Global,
    words: &io::Result<Vec<S>>,
    reader: &mut R,
    writer: &mut W,
    errors: &mut E,
    server: &mut V,
) -> Ending
    ensures end { IfOk words.now (λ words. IsEnd (map S.text words.items)
        (R.remaining reader.old) (W.contents writer.old) (W.contents writer.new) result) }
    // A word that is no text refuses the command line.
    ensures no_text { IfErr words.now (λ error. error_kind error ≡ InvalidData
        → EndsRefused (W.contents writer.old) (W.contents writer.new) result) }
    ensures no_words { IfErr words.now (λ error. error_kind error ≢ InvalidData
        → EndsWithoutMemory (W.contents writer.old) (W.contents writer.new) result) }
    ensures told { Tells result (E.contents errors.old) (E.contents errors.new) }
    ensures unread { IfOk words.now (λ words. ¬ Reads (map S.text words.items) → reader.new ≡ reader.old) }
    ensures unread_words { IfErr words.now (λ error. reader.new ≡ reader.old) }
{
    match words {
        Ok(words) => run_words(rt, alloc, words, reader, writer, errors, server),
        Err(error) if error.kind() == io::ErrorKind::InvalidData => match not_utf8(alloc) {
            Ok(error) => refuse_words(alloc, &error, errors),
            Err(_) => fail(errors, Fault::NoMemory),
        },
        Err(_) => fail(errors, Fault::NoMemory),
    }
}

/// Runs the program on its words, which are texts.
fn run_words<T: Threads + Wait + Sync, S: AsStr, R: Read, W: Write, E: Write, V: Serves + Runs>(
    rt: &T,
    alloc: Global,
    words: &[S],
    reader: &mut R,
    writer: &mut W,
    errors: &mut E,
    server: &mut V,
) -> Ending
    ensures end { IsEnd (map S.text words.now) (R.remaining reader.old)
        (W.contents writer.old) (W.contents writer.new) result }
    ensures told { Tells result (E.contents errors.old) (E.contents errors.new) }
    ensures unread { ¬ Reads (map S.text words.now) → reader.new ≡ reader.old }
{
    match read_request(alloc, words) {
        Ok(request) => run_request(rt, alloc, &request, reader, writer, errors, server),
        Err(error) => show_or_refuse(alloc, &error, writer, errors),
    }
}

/// Does what the words ask for.
fn run_request<T: Threads + Wait + Sync, R: Read, W: Write, E: Write, V: Serves + Runs>(
    rt: &T,
    alloc: Global,
    request: &Request<'_>,
    reader: &mut R,
    writer: &mut W,
    errors: &mut E,
    server: &mut V,
) -> Ending
    ensures end { EndsRequest request.entry.now (R.remaining reader.old)
        (W.contents writer.old) (W.contents writer.new) result }
    ensures told { Tells result (E.contents errors.old) (E.contents errors.new) }
    ensures unread { ¬ IsOfInput request.entry.now → reader.new ≡ reader.old }
{
    match request {
        Request::One(options) => run_one(alloc, options, reader, writer, errors),
        Request::Replay => run_replay(alloc, reader, writer, errors),
        Request::Serve(options) => run_serve(rt, options, writer, errors, server),
        Request::Run(options) => run_server(rt, options, errors, server),
    }
}

fn run_one<R: Read, W: Write, E: Write>(
    alloc: Global,
    options: &OneOptions<'_>,
    reader: &mut R,
    writer: &mut W,
    errors: &mut E,
) -> Ending
    ensures end { EndsOne options.entry.now (R.remaining reader.old)
        (W.contents writer.old) (W.contents writer.new) result }
    ensures told { Tells result (E.contents errors.old) (E.contents errors.new) }
    ensures unread { ¬ IsAddressText options.entry.now.from.now → reader.new ≡ reader.old }
{
    match one(alloc, options, reader, writer) {
        Ok(()) => Ending::Done,
        Err(fault) => fail(errors, fault),
    }
}

fn run_replay<R: Read, W: Write, E: Write>(
    alloc: Global,
    reader: &mut R,
    writer: &mut W,
    errors: &mut E,
) -> Ending
    ensures end { EndsReplay (R.remaining reader.old) (W.contents writer.old) (W.contents writer.new) result }
    ensures told { Tells result (E.contents errors.old) (E.contents errors.new) }
{
    match replay(alloc, reader, writer) {
        Ok(()) => Ending::Done,
        Err(fault) => fail(errors, fault),
    }
}

fn run_serve<T: Threads + Wait + Sync, W: Write, E: Write, V: Serves + Runs>(
    rt: &T,
    options: &ServeOptions,
    writer: &mut W,
    errors: &mut E,
    server: &mut V,
) -> Ending
    ensures end { EndsServe (W.contents writer.old) (W.contents writer.new) result }
    ensures told { Tells result (E.contents errors.old) (E.contents errors.new) }
{
    match server.serve(rt, options, writer) {
        Ok(()) => Ending::Done,
        Err(fault) => Ending::Unserved {
            fault,
            told: fault.tell(errors),
        },
    }
}

fn run_server<T: Wait, E: Write, V: Runs>(
    rt: &T,
    options: &RunOptions<'_>,
    errors: &mut E,
    server: &mut V,
) -> Ending
    ensures end { (written : Option (List ℕ)) → EndsRun written written result }
    ensures told { Tells result (E.contents errors.old) (E.contents errors.new) }
{
    match server.run(rt, options) {
        Ok(()) => Ending::Done,
        Err(fault) => Ending::Stopped {
            fault,
            told: fault.tell(errors),
        },
    }
}

/// Ends the run with the line of a fault. Where standard error fails, the ending is the same.
fn fail<E: Write>(errors: &mut E, fault: Fault) -> Ending
    ensures ending { (told : Bool) × (result ≡ Ending.Failed fault told) }
    ensures told { Tells result (E.contents errors.old) (E.contents errors.new) }
{
    let told = fault.tell(errors);
    Ending::Failed { fault, told }
}

#[tactic(auto, using(crate::proofs::EndingLemmas::refused_early))]
/// Ends the run where the words ask for nothing: help and the version are printed.
fn show_or_refuse<W: Write, E: Write>(
    alloc: Global,
    error: &Error,
    writer: &mut W,
    errors: &mut E,
) -> Ending
    ensures no_memory { kind_of error.now ≡ OutOfMemory
        → EndsWithoutMemory (W.contents writer.old) (W.contents writer.new) result }
    ensures shown { IsRequest (kind_of error.now)
        → EndsShown (W.contents writer.old) (W.contents writer.new) result }
    ensures refused { ¬ IsRequest (kind_of error.now)
        → EndsRefused (W.contents writer.old) (W.contents writer.new) result }
    ensures otherwise { EndsOtherwise (W.contents writer.old) (W.contents writer.new) result }
    ensures told { Tells result (E.contents errors.old) (E.contents errors.new) }
{
    match error.kind() {
        ErrorKind::OutOfMemory => fail(errors, Fault::NoMemory),
        ErrorKind::DisplayHelp | ErrorKind::DisplayVersion => show(alloc, error, writer, errors),
        _ => refuse_words(alloc, error, errors),
    }
}

fn show<W: Write, E: Write>(alloc: Global, error: &Error, writer: &mut W, errors: &mut E) -> Ending
    ensures shown { EndsShown (W.contents writer.old) (W.contents writer.new) result }
    ensures told { Tells result (E.contents errors.old) (E.contents errors.new) }
{
    let Ok(text) = text_of(alloc, error) else {
        return fail(errors, Fault::NoMemory);
    };
    match write_text(writer, text.as_bytes()) {
        Ok(()) => Ending::Done,
        Err(fault) => fail(errors, fault),
    }
}

fn refuse_words<E: Write>(alloc: Global, error: &Error, errors: &mut E) -> Ending
    ensures ending { IsRefusal result }
    ensures told { Tells result (E.contents errors.old) (E.contents errors.new) }
{
    let Ok(text) = text_of(alloc, error) else {
        return fail(errors, Fault::NoMemory);
    };
    // The status tells of the refusal, also where standard error fails.
    let _written = write_text(errors, text.as_bytes());
    Ending::Refused
}

fn text_of(alloc: Global, error: &Error) -> Result<String, NoMemory> {
    format!(in alloc; "{error}").map_err(|_| NoMemory)
}
