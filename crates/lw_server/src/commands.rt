//! What operators have done: observations are made and ended.

ghost use Rattle.std.specs.Prelude.{◌≡◌, ◌⊎◌, ◌∷◌, [], option_map, IfOk, OnErr};
ghost use Rattle.lw_call.specs.declared.call.Call.TheVariants as calls;
ghost use Rattle.lw_messaging.specs.PendingRequest.{HasRoom};
ghost use Rattle.lw_replica.specs.Own.{WritesOwn};
ghost use Rattle.lw_server.specs.Commands.{done_by, done_of as done_in, is_full, waiting_after, Executes, FailsTo};
ghost use Rattle.lw_server.specs.Commands.{IsObserved, IsOrdered, IsOrderedWhere, IsRequested, LeavesUndo, MayHaveObserved};
ghost use Rattle.lw_server.specs.Commands.{Requests as RequestsOnce};
ghost use Rattle.lw_server.specs.Api.{serves};

use crate::devices::{Devices, Task};
use crate::one_call::call_once;
use crate::stepping::token_on;
use crate::{Clocks, Server, TurnFault};
use lw_call::{Call, ObserveFault, Outgoing, Reply};
use lw_log::DeltaLog;
use lw_messaging::{OutgoingRequests, Purpose};
use lw_metrics::Tally;
use lw_reg::Path;
use lw_replica::Replica;
use lw_route::Command;
use lw_stamp::{Moment, Stamp, Text};
use std::alloc::Global;

/// How many requests to devices may wait where a command is to be carried out, at most.
const MOST_WAITING: usize = 1_024;

/// What has come of a command.
#[derive(Clone, Copy, Debug, PartialEq, Eq)]
pub enum Done {
    /// The observation with the token was made.
    Observed(Stamp),
    /// The observation has ended.
    Ended,
    /// No registration of the endpoint is shown, or no observation with the token lives.
    NotFound,
    /// As many requests to devices wait as can.
    TooMany,
    /// The clock of the node is at its end.
    ClockEnd,
    /// The server is unavailable.
    Unavailable,
    /// The node had no memory for it.
    NoMemory,
}

impl<G: DeltaLog, C: Clocks> Server<G, C> {
    /// Carries out a command at the moment that the clocks tell.
    pub(crate) fn execute(&mut self, command: &Command) -> Result<Done, TurnFault>
        ensures { Executes command.now self.old result self.new }
    {
        match self.read_clock() {
            Ok(()) => self.execute_now(command),
            Err(fault) => Err(fault),
        }
    }

    /// Carries out a command at the moment that the clocks told last.
    fn execute_now(&mut self, command: &Command) -> Result<Done, TurnFault>
        ensures executed { IfOk result (λ done.
            IsOrderedWhere (is_full self.old) command.now self.old done self.new) }
        ensures own { WritesOwn self.old.replica self.new.replica }
        ensures failed { OnErr result (FailsTo command.now self.old self.new) }
    {
        if self.devices.waiting() >= MOST_WAITING {
            return Ok(Done::TooMany);
        }
        self.order(command)
    }

    fn order(&mut self, command: &Command) -> Result<Done, TurnFault>
        ensures ordered { IfOk result (λ done. IsOrdered command.now self.old done self.new) }
        ensures own { WritesOwn self.old.replica self.new.replica }
        ensures failed { OnErr result (FailsTo command.now self.old self.new) }
    {
        match command {
            Command::Observe {
                endpoint,
                path,
                accept,
            } => self.observe(endpoint, *path, *accept),
            Command::Cancel { token } => {
                let (now, token) = (self.latest, *token);
                self.request(Call::Cancel { now, token, mid: 0 })
            }
        }
    }

    /// Has a path of the endpoint's registration observed.
    fn observe(
        &mut self,
        endpoint: &Text,
        path: Path,
        accept: Option<u16>,
    ) -> Result<Done, TurnFault>
        ensures observed { IfOk result (λ done.
            IsObserved (serves self.old) endpoint.now path accept self.old done self.new) }
        ensures own { WritesOwn self.old.replica self.new.replica }
        ensures failed { OnErr result ((self.new ≡ self.old) ⊎ MayHaveObserved endpoint.now path self.old self.new) }
    {
        let now = self.latest;
        let Some(node) = self.node() else {
            return Ok(Done::Unavailable);
        };
        let Some(shown) = node.by_endpoint(now, endpoint.as_str()) else {
            return Ok(Done::NotFound);
        };
        let (id, before) = (shown.id, token_on(node, now, shown.id, path));
        self.observe_shown(id, path, accept, before)
    }

    /// Has a path of the registration observed, on which there was this observation before. Where the round fails, what
    /// it has left is written with the next one, and then it is ended.
    fn observe_shown(
        &mut self,
        id: Stamp,
        path: Path,
        accept: Option<u16>,
        before: Option<Stamp>,
    ) -> Result<Done, TurnFault>
        ensures observed { IfOk result (λ done.
            IsRequested (calls.Observe self.old.latest id path accept 0) self.old done self.new) }
        ensures own { WritesOwn self.old.replica self.new.replica }
        ensures failed { OnErr result ((self.new ≡ self.old) ⊎ LeavesUndo id path before self.old self.new) }
    {
        let count = self.devices.tasks_left();
        self.devices.leave(Task::Undo { id, path, before })?;
        let made = self.request(Call::Observe {
            now: self.latest,
            id,
            path,
            accept,
            mid: 0,
        });
        if made.is_ok() {
            self.devices.keep_first(count);
        }
        made
    }

    /// A round with the call. The request that it gives waits to be sent.
    fn request(&mut self, call: Call) -> Result<Done, TurnFault>
        ensures requested { IfOk result (λ done. IsRequested call self.old done self.new) }
        ensures own { WritesOwn self.old.replica self.new.replica }
        ensures unchanged { OnErr result (self.new ≡ record (self.old) { replica = self.new.replica }) }
    {
        let steady = self.steady;
        let (replica, tally) = (&mut self.replica, &mut self.tally);
        request_once(self.alloc, replica, tally, &mut self.devices, steady, call)
    }
}

/// A round with the call. The request that it gives waits to be sent.
fn request_once<G: DeltaLog>(
    alloc: Global,
    replica: &mut Replica<G>,
    tally: &mut Tally,
    devices: &mut Devices,
    steady: Moment,
    call: Call,
) -> Result<Done, TurnFault>
    ensures requested { IfOk result (λ done.
        RequestsOnce call steady replica.old tally.old devices.old done replica.new tally.new devices.new) }
    ensures own { WritesOwn replica.old replica.new }
    ensures uncounted { OnErr result (tally.new ≡ tally.old) }
    ensures unchanged { OnErr result (devices.new ≡ devices.old) }
{
    devices.requests.reserve()?;
    let reply = call_once(alloc, replica, tally, call)?;
    Ok(requested(&mut devices.requests, steady, reply))
}

/// Puts the request that a call gave behind those that wait. There is room for it.
fn requested(requests: &mut OutgoingRequests, now: Moment, reply: Reply) -> Done
    requires { HasRoom requests.old }
    ensures done { result ≡ done_in reply }
    ensures waiting { requests.new.list ≡ waiting_after requests.old.list now reply }
{
    match reply {
        Reply::Observe(Ok(outgoing)) => {
            let Outgoing { to, token, bytes } = outgoing;
            requests.add(now, to, Purpose::Observation(token), bytes);
            Done::Observed(token)
        }
        Reply::Cancel(Ok(outgoing)) => {
            let Outgoing { to, token, bytes } = outgoing;
            requests.add(now, to, Purpose::Cancellation(token), bytes);
            requests.forget(Purpose::Observation(token));
            Done::Ended
        }
        Reply::Observe(Err(fault)) | Reply::Cancel(Err(fault)) => done_of(fault),
        _ => Done::NotFound,
    }
}

fn done_of(fault: ObserveFault) -> Done
    ensures { result ≡ done_by fault }
{
    match fault {
        ObserveFault::NotFound => Done::NotFound,
        ObserveFault::ClockEnd => Done::ClockEnd,
        ObserveFault::NoMemory => Done::NoMemory,
    }
}
