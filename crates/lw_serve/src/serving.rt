ghost use Rattle.std.specs.Prelude.{◌≡◌, [], List, length, OnOk, IfErr, IfOk};
ghost use Rattle.std.specs.Io.KnownBytes.{Appends};
ghost use Rattle.lw_held.specs.History.{VolumeContent};
ghost use Rattle.lw_serve.specs.Ending.{settled_line, IsStopped};
ghost use Rattle.lw_serve.specs.Runs.{AreOver, HasCause, IsServed};
ghost use Rattle.lw_serve.specs.inner.Runs.{EndsRounds};
ghost use Rattle.lw_serve.specs.inner.Volumes.{AreOfNodes};

use crate::fault::ServeFault;
use crate::plan::Plan;
use crate::receiving::receive;
use crate::server::Server;
use crate::sink::{Kept, VolumeSink};
use crate::wire::Wire;
use log::Log;
use lw_udp::{BUFFER, HostClock};
use std::alloc::Global;
use std::io::Write;
use std::sync::Wait;
use std::thread::Threads;

/// Serves the plan's count of datagrams that come over the wire, in rounds, and then writes `settled` where the
/// journals, with the volumes that were cut off them, are what the transcripts say. Faults of the wire that are passed
/// over are logged.
pub fn serve_on<R: Threads + Wait + Sync, W: Wire, C: HostClock, L: Log, O: Write>(
    rt: &R,
    alloc: Global,
    wire: &mut W,
    clock: &mut C,
    log: &L,
    plan: &Plan,
    writer: &mut O,
) -> Result<(), ServeFault>
    // The volumes are those that were kept in memory.
    ensures served { OnOk result ((volumes : List VolumeContent) × IsServed plan.now volumes) }
    ensures settled { OnOk result (Appends (O.contents writer.old) (O.contents writer.new) settled_line) }
    ensures stopped { IfErr result (λ fault. IsStopped fault (O.contents writer.old) (O.contents writer.new)) }
    ensures cause { IfErr result (λ fault. (volumes : List VolumeContent) × HasCause plan.now volumes fault) }
{
    let mut sink = Kept::new(alloc);
    serve_into(rt, alloc, wire, clock, log, plan, &mut sink, writer)
}

/// Serves as `serve_on` does, and hands each volume to the sink, whose volumes are those that the journals are settled
/// with. The sink is asked for room before each cut: where it has none, that journal is cut after the next round.
pub fn serve_into<R: Threads + Wait + Sync, W: Wire, C: HostClock, L: Log, S: VolumeSink, O: Write>(
    rt: &R,
    alloc: Global,
    wire: &mut W,
    clock: &mut C,
    log: &L,
    plan: &Plan,
    sink: &mut S,
    writer: &mut O,
) -> Result<(), ServeFault>
    requires { S.kept sink.old ≡ [] }
    ensures served { OnOk result (IsServed plan.now (S.kept sink.new)) }
    ensures settled { OnOk result (Appends (O.contents writer.old) (O.contents writer.new) settled_line) }
    ensures stopped { IfErr result (λ fault. IsStopped fault (O.contents writer.old) (O.contents writer.new)) }
    ensures cause { IfErr result (HasCause plan.now (S.kept sink.new)) }
{
    let server = serve_rounds(rt, alloc, wire, clock, log, plan, sink)?;
    server.finish(rt, alloc, sink, writer)
}

/// Serves all rounds: the nodes that they leave.
fn serve_rounds<R: Threads + Wait + Sync, W: Wire, C: HostClock, L: Log, S: VolumeSink>(
    rt: &R,
    alloc: Global,
    wire: &mut W,
    clock: &mut C,
    log: &L,
    plan: &Plan,
    sink: &mut S,
) -> Result<Server, ServeFault>
    requires { S.kept sink.old ≡ [] }
    ensures over { IfOk result (λ server.
        AreOver plan.now server.nodes.shelves.items server.nodes.passes.items server.kept.items) }
    ensures volumes { IfOk result (λ server. AreOfNodes (length server.nodes.shelves.items) (S.kept sink.new)) }
    ensures fault { IfErr result EndsRounds }
{
    let mut server = Server::new(alloc, plan)?;
    let mut buffer = vec![in alloc; 0; BUFFER]?;
    let mut left = plan.count;
    let mut round = 0u32;
    while left > 0 {
        let batch = receive(alloc, wire, log, &mut buffer, left)?;
        left -= batch.len() as u32;
        let Some(now) = clock.now() else {
            return Err(ServeFault::ClockRefused);
        };
        let served = server.round(rt, alloc, wire, log, now, batch)?;
        round = round.saturating_add(1);
        server = served.cut(rt, plan.cuts_after(round), sink);
    }
    Ok(server)
}
