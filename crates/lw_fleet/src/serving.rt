//! Serving the datagrams of a socket, and the faults that end it.

ghost use Rattle.std.specs.Prelude.{◌≡◌, ◌++◌, [], codes, decimal, OnOk, OnErr, IfErr};
ghost use Rattle.std.specs.Io.KnownBytes.{Appends};
ghost use Rattle.std.specs.Thread.{IsSync};
ghost use Rattle.lw_serve.specs.Ending.{AppendsFront};
ghost use Rattle.lw_fleet.specs.Serving.{run_line, serving_line, IsServed, IsServingTold, IsUnserved};
ghost use Rattle.lw_fleet.specs.declared.serving.ServingFault.TheVariants.{Run as OfRun};
ghost use Rattle.lw_serve.specs.declared.fault.ServeFault.TheVariants.{Unsettled as NotSettled};

use crate::command::ServeOptions;
use crate::fault::Fault;
use crate::output::{write_number, write_text};
use lw_serve::ServeFault;
use std::io::Write;
use std::sync::Wait;
use std::thread::Threads;
use thiserror::Error;

/// What serves the datagrams that come to a port.
pub trait Serves {
    /// Serves as many datagrams as the options say, and then writes `settled` where the journals of the nodes are what
    /// the transcripts of the workers say.
    fn serve<R: Threads + Wait + Sync, W: Write>(
        &mut self,
        rt: &R,
        options: &ServeOptions,
        writer: &mut W,
    ) -> Result<(), ServingFault>
        // The runtime is shared by the workers.
        requires { IsSync R.row }
        ensures served { OnOk result (IsServed (W.contents writer.old) (W.contents writer.new)) }
        ensures stopped { IfErr result (λ fault. IsUnserved fault (W.contents writer.old) (W.contents writer.new)) };
}

/// What ends `serve` early. Each is told as a line of its own on standard error.
#[derive(Clone, Copy, Debug, PartialEq, Eq, Error)]
pub enum ServingFault {
    /// No socket could be bound to the port.
    #[error("bind failed: no socket could be bound to the port")]
    BindFailed,
    /// The run ended at a fault of its own.
    #[error(transparent)]
    Run(ServeFault),
}

impl ServingFault {
    /// Writes the line of the fault, and tells whether all of it was taken.
    pub fn tell<E: Write>(self, errors: &mut E) -> bool
        ensures { IsServingTold self result (E.contents errors.old) (E.contents errors.new) }
    {
        self.write(errors).is_ok()
    }

    fn write<E: Write>(self, errors: &mut E) -> Result<(), Fault>
        ensures whole { OnOk result (Appends (E.contents errors.old) (E.contents errors.new) (serving_line self)) }
        ensures front { OnErr result (AppendsFront (E.contents errors.old) (E.contents errors.new)
            (serving_line self)) }
    {
        match self {
            ServingFault::BindFailed => write_text(errors, b"bind failed\n"),
            ServingFault::Run(fault) => write_fault(errors, fault),
        }
    }
}

fn write_fault<E: Write>(errors: &mut E, fault: ServeFault) -> Result<(), Fault>
    ensures whole { OnOk result (Appends (E.contents errors.old) (E.contents errors.new) (run_line fault)) }
    ensures front { OnErr result (AppendsFront (E.contents errors.old) (E.contents errors.new) (run_line fault)) }
{
    match fault {
        ServeFault::ReceiveFailed => write_text(errors, b"receive failed\n"),
        ServeFault::ClockRefused => write_text(errors, b"clock refused\n"),
        ServeFault::Crew(fault) => {
            write_number(errors, b"crew fault ", u64::from(fault.number()), b"\n")
        }
        ServeFault::Unsettled { node, place } => write_unsettled(errors, node, place),
        ServeFault::WriteFailed => write_text(errors, b"write failed\n"),
        ServeFault::NoMemory => write_text(errors, b"no memory\n"),
    }
}

fn write_unsettled<E: Write>(errors: &mut E, node: u16, place: u64) -> Result<(), Fault>
    ensures whole { OnOk result (Appends (E.contents errors.old) (E.contents errors.new)
        (run_line (NotSettled node place))) }
    ensures front { OnErr result (AppendsFront (E.contents errors.old) (E.contents errors.new)
        (run_line (NotSettled node place))) }
{
    write_number(errors, b"unsettled ", node as u64, b" ")?;
    write_number(errors, b"", place, b"\n")
}

impl From<ServeFault> for ServingFault {
    ghost from_gives = { λ error fault. fault ≡ OfRun error };

    fn from(error: ServeFault) -> ServingFault {
        ServingFault::Run(error)
    }
}
