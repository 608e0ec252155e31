ghost use Rattle.std.specs.Prelude.{◌≡◌, ◌≢◌, [], true, Err, option_copied};
ghost use Rattle.lw_route.specs.Targets.{AfterPath, AreObservationsOf, IsQueryAt, Given, takes_text};
ghost use Rattle.lw_route.specs.declared.parameters.Form.TheVariants as Forms;
ghost use Rattle.lw_route.specs.declared.fault.Fault.TheVariants as Faults;
ghost use Rattle.lw_route.specs.inner.Faults.{IsAnswered};
ghost use Rattle.lw_route.specs.declared.resource.Resource.TheVariants as Resources;

use crate::decoding::short;
use crate::fault::Fault;
use crate::parameters::{Form, Parameters};
use crate::resource::Resource;
use crate::{RouteError, segments};
use lw_path::read_path;
use lw_reg::{Addr, Path};
use lw_stamp::{Stamp, Text};
use std::alloc::Global;

/// How many entries are asked for where no limit is given.
const LIMIT: usize = 64;

/// What a request asks for.
#[derive(Drop)]
pub enum ApiQuery {
    /// The page for people.
    Page,
    /// Whether the server serves.
    Health,
    /// What the node knows, in numbers.
    Node,
    /// Measures in text.
    Metrics,
    /// The registrations whose endpoints stand behind the text, as many as the limit at most.
    Registrations {
        after: Option<Text>,
        limit: usize,
    },
    /// The registration of the endpoint.
    Registration {
        endpoint: Text,
    },
    /// The observations of the endpoint's registration whose paths stand behind the path, as many as the limit at most.
    Observations {
        endpoint: Text,
        after: Option<Path>,
        limit: usize,
    },
    /// The registration of the identifier.
    ById {
        id: Stamp,
    },
    /// The registration at the address.
    ByAddress {
        address: Addr,
    },
    /// The observation of the token.
    ByToken {
        token: Stamp,
    },
    /// The changes behind the number, which is of the start with the tag, as many as the limit at most.
    Changes {
        since: u64,
        start: Option<u64>,
        limit: usize,
    },
    /// The notifications from the number on, which is of the start with the tag, as many as the limit at most.
    Notifications {
        from: u64,
        start: Option<u64>,
        limit: usize,
    },
}

/// What is asked for at the resource with the segment.
pub(crate) fn query_at(
    alloc: Global,
    resource: Resource,
    segment: &str,
    query: Option<&str>,
) -> Result<ApiQuery, Fault>
    ensures api_query { IsAnswered (IsQueryAt resource segment.now (option_copied query.entry)) result }
    ensures memory { result ≡ Err Faults.NoMemory → takes_text resource ≡ true }
{
    match resource {
        Resource::Page => alone(alloc, query, ApiQuery::Page),
        Resource::Health => alone(alloc, query, ApiQuery::Health),
        Resource::Node => alone(alloc, query, ApiQuery::Node),
        Resource::Metrics => alone(alloc, query, ApiQuery::Metrics),
        Resource::Registrations => registrations(alloc, query),
        Resource::Registration => registration(alloc, segment, query),
        Resource::Observations => observations(alloc, segment, query),
        Resource::ById => by_id(alloc, segment, query),
        Resource::ByAddress => by_address(alloc, segment, query),
        Resource::ByToken => by_token(alloc, segment, query),
        Resource::Changes => changes(alloc, query),
        Resource::Notifications => notifications(alloc, query),
    }
}

/// What is asked for, at a resource without parameters.
fn alone(alloc: Global, query: Option<&str>, api_query: ApiQuery) -> Result<ApiQuery, Fault>
    ensures given { IsAnswered (Given Forms.Nothing (option_copied query.entry) (λ parameters. api_query)) result }
    ensures memory { result ≢ Err Faults.NoMemory }
{
    let _none = Parameters::read(alloc, Form::Nothing, query)?;
    Ok(api_query)
}

fn registrations(alloc: Global, query: Option<&str>) -> Result<ApiQuery, Fault>
    ensures { IsAnswered (IsQueryAt Resources.Registrations [] (option_copied query.entry)) result }
{
    let given = Parameters::read(alloc, Form::Registrations, query)?;
    Ok(ApiQuery::Registrations {
        after: given.after,
        limit: given.limit.unwrap_or(LIMIT),
    })
}

fn changes(alloc: Global, query: Option<&str>) -> Result<ApiQuery, Fault>
    ensures api_query { IsAnswered (IsQueryAt Resources.Changes [] (option_copied query.entry)) result }
    ensures memory { result ≢ Err Faults.NoMemory }
{
    let given = Parameters::read(alloc, Form::Changes, query)?;
    Ok(ApiQuery::Changes {
        since: given.since.unwrap_or(0),
        start: given.start,
        limit: given.limit.unwrap_or(LIMIT),
    })
}

fn notifications(alloc: Global, query: Option<&str>) -> Result<ApiQuery, Fault>
    ensures api_query { IsAnswered (IsQueryAt Resources.Notifications [] (option_copied query.entry)) result }
    ensures memory { result ≢ Err Faults.NoMemory }
{
    let given = Parameters::read(alloc, Form::Notifications, query)?;
    Ok(ApiQuery::Notifications {
        from: given.from.unwrap_or(0),
        start: given.start,
        limit: given.limit.unwrap_or(LIMIT),
    })
}

fn registration(alloc: Global, segment: &str, query: Option<&str>) -> Result<ApiQuery, Fault>
    ensures { IsAnswered (IsQueryAt Resources.Registration segment.now (option_copied query.entry)) result }
{
    let endpoint = short(alloc, segment, RouteError::Endpoint)?;
    alone(alloc, query, ApiQuery::Registration { endpoint })
}

fn observations(alloc: Global, segment: &str, query: Option<&str>) -> Result<ApiQuery, Fault>
    ensures { IsAnswered (IsQueryAt Resources.Observations segment.now (option_copied query.entry)) result }
{
    let endpoint = short(alloc, segment, RouteError::Endpoint)?;
    observations_of(alloc, endpoint, query)
}

fn observations_of(alloc: Global, endpoint: Text, query: Option<&str>) -> Result<ApiQuery, Fault>
    ensures { IsAnswered (AreObservationsOf endpoint (option_copied query.entry)) result }
{
    let given = Parameters::read(alloc, Form::Observations, query)?;
    let after = after_path(&given.after)?;
    Ok(ApiQuery::Observations {
        endpoint,
        after,
        limit: given.limit.unwrap_or(LIMIT),
    })
}

/// The path that the text of `after` spells, if that is given.
fn after_path(after: &Option<Text>) -> Result<Option<Path>, RouteError>
    ensures { AfterPath after.now result }
{
    let Some(text) = after else {
        return Ok(None);
    };
    match read_path(text.as_str()) {
        Some(path) => Ok(Some(path)),
        None => Err(RouteError::After),
    }
}

fn by_id(alloc: Global, segment: &str, query: Option<&str>) -> Result<ApiQuery, Fault>
    ensures { IsAnswered (IsQueryAt Resources.ById segment.now (option_copied query.entry)) result }
{
    let id = segments::id(alloc, segment, RouteError::Id)?;
    alone(alloc, query, ApiQuery::ById { id })
}

fn by_address(alloc: Global, segment: &str, query: Option<&str>) -> Result<ApiQuery, Fault>
    ensures { IsAnswered (IsQueryAt Resources.ByAddress segment.now (option_copied query.entry)) result }
{
    let address = segments::address(alloc, segment)?;
    alone(alloc, query, ApiQuery::ByAddress { address })
}

fn by_token(alloc: Global, segment: &str, query: Option<&str>) -> Result<ApiQuery, Fault>
    ensures { IsAnswered (IsQueryAt Resources.ByToken segment.now (option_copied query.entry)) result }
{
    let token = segments::id(alloc, segment, RouteError::Token)?;
    alone(alloc, query, ApiQuery::ByToken { token })
}
