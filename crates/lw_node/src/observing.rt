//! What a command about an observation is to do.

ghost use Rattle.std.specs.Prelude.{◌≡◌, IfOk};
ghost use Rattle.lw_stamp.specs.Moment.{ms_of};
ghost use Rattle.lw_reg.specs.Endpoint.{IsEndpoint};
ghost use Rattle.lw_node.specs.Calls.{issuer_at, IsSent};
ghost use Rattle.lw_node.specs.inner.Calls.{Commanded};
ghost use Rattle.lw_node.specs.Effects.{ObserveMeans, CancelMeans, IsAbout, observes, ends};

use crate::command::Command;
use crate::node::Node;
use crate::request::{Observe, get};
use lw_call::{ObserveFault, Outgoing};
use lw_reg::{Endpoint, Op, Path, View, Watch, What};
use lw_stamp::{Moment, NoMemory, Stamp};
use std::alloc::Global;

impl Node {
    pub(crate) fn decide_observe(
        &self,
        now: Moment,
        id: Stamp,
        path: Path,
        accept: Option<u16>,
        mid: u16,
    ) -> Result<Command, ObserveFault>
        ensures { Commanded self.now.table.state (λ M.
            ObserveMeans (issuer_at self.now (ms_of now)) M id path accept mid) result }
    {
        let Some(view) = self.table.by_id(now, id) else {
            return Err(ObserveFault::NotFound);
        };
        let Some(token) = self.next_stamp() else {
            return Err(ObserveFault::ClockEnd);
        };
        Ok(observation(self.alloc, &view, token, path, accept, mid)?)
    }

    pub(crate) fn decide_cancel(
        &self,
        now: Moment,
        token: Stamp,
        mid: u16,
    ) -> Result<Command, ObserveFault>
        ensures { Commanded self.now.table.state (λ M. CancelMeans (issuer_at self.now (ms_of now)) M token mid) result }
    {
        let Some((view, watch)) = self.table.by_token(now, token) else {
            return Err(ObserveFault::NotFound);
        };
        let Some(stamp) = self.next_stamp() else {
            return Err(ObserveFault::ClockEnd);
        };
        Ok(end(self.alloc, &view, stamp, watch, mid)?)
    }
}

/// To observe a path of the registration, with the token.
fn observation(
    alloc: Global,
    view: &View<'_>,
    token: Stamp,
    path: Path,
    accept: Option<u16>,
    mid: u16,
) -> Result<Command, NoMemory>
    requires { IsEndpoint view.now.endpoint }
    ensures operation { IfOk result (λ c. c.operation
        ≡ record { stamp = token; endpoint = view.now.endpoint; reg = view.now.id; what = What.Observe path accept }) }
    ensures sent { IfOk result (λ c. IsSent c.outgoing (observes mid path accept view.now c.operation)) }
{
    let bytes = get(alloc, mid, Observe::Register, &token, &path, accept)?;
    let endpoint = Endpoint::copy_of(alloc, view.endpoint)?;
    Ok(Command {
        outgoing: Outgoing {
            to: view.address,
            token,
            bytes,
        },
        operation: Op {
            stamp: token,
            endpoint,
            reg: view.id,
            what: What::Observe { path, accept },
        },
    })
}

/// To end an observation of the registration.
fn end(
    alloc: Global,
    view: &View<'_>,
    stamp: Stamp,
    watch: Watch,
    mid: u16,
) -> Result<Command, NoMemory>
    requires { IsEndpoint view.now.endpoint }
    ensures operation { IfOk result (λ c. c.operation
        ≡ record { stamp = stamp; endpoint = view.now.endpoint; reg = view.now.id; what = What.Cancel watch.path watch.token }) }
    ensures sent { IfOk result (λ c. IsSent c.outgoing (ends mid (view.now, watch) c.operation)) }
{
    let Watch {
        token,
        path,
        accept,
    } = watch;
    let bytes = get(alloc, mid, Observe::Deregister, &token, &path, accept)?;
    let endpoint = Endpoint::copy_of(alloc, view.endpoint)?;
    Ok(Command {
        outgoing: Outgoing {
            to: view.address,
            token,
            bytes,
        },
        operation: Op {
            stamp,
            endpoint,
            reg: view.id,
            what: What::Cancel { path, token },
        },
    })
}
