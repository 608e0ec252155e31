//! What a request changes.

ghost use Rattle.std.specs.Prelude.{option_copied};
ghost use Rattle.lw_route.specs.Routes.{IsCommandAt, Observes};
ghost use Rattle.lw_route.specs.Targets.{Given};
ghost use Rattle.lw_route.specs.declared.command.Command.TheVariants as Orders;
ghost use Rattle.lw_route.specs.declared.parameters.Form.TheVariants as Forms;
ghost use Rattle.lw_route.specs.declared.resource.Resource.TheVariants as Resources;
ghost use Rattle.lw_route.specs.inner.Faults.{IsAnswered};

use crate::decoding::short;
use crate::fault::Fault;
use crate::parameters::{Form, Parameters};
use crate::{RouteError, segments};
use lw_reg::Path;
use lw_stamp::{Stamp, Text};
use std::alloc::Global;

/// What a request changes.
#[derive(Drop)]
pub enum Command {
    /// The path of the endpoint is to be observed, and told of in the content format of the number, if that is given.
    Observe {
        endpoint: Text,
        path: Path,
        accept: Option<u16>,
    },
    /// The observation of the token is to be cancelled.
    Cancel {
        token: Stamp,
    },
}

/// What POST does at the observations of an endpoint.
pub(crate) fn observe(alloc: Global, segment: &str, query: Option<&str>) -> Result<Command, Fault>
    ensures { IsAnswered (IsCommandAt Resources.Observations segment.now (option_copied query.entry)) result }
{
    let endpoint = short(alloc, segment, RouteError::Endpoint)?;
    observe_at(alloc, endpoint, query)
}

fn observe_at(alloc: Global, endpoint: Text, query: Option<&str>) -> Result<Command, Fault>
    ensures { IsAnswered (Observes endpoint (option_copied query.entry)) result }
{
    let given = Parameters::read(alloc, Form::Observing, query)?;
    let path = given.path.ok_or(RouteError::Path)?;
    Ok(Command::Observe {
        endpoint,
        path,
        accept: given.accept,
    })
}

/// What DELETE does at a token.
pub(crate) fn cancel(alloc: Global, segment: &str, query: Option<&str>) -> Result<Command, Fault>
    ensures { IsAnswered (IsCommandAt Resources.ByToken segment.now (option_copied query.entry)) result }
{
    let token = segments::id(alloc, segment, RouteError::Token)?;
    cancel_at(alloc, token, query)
}

fn cancel_at(alloc: Global, token: Stamp, query: Option<&str>) -> Result<Command, Fault>
    ensures { IsAnswered (Given Forms.Nothing (option_copied query.entry) (λ parameters. Orders.Cancel token)) result }
{
    let _none = Parameters::read(alloc, Form::Nothing, query)?;
    Ok(Command::Cancel { token })
}
