//! What a request is for.

ghost use Rattle.std.specs.Prelude.{◌≡◌, true, Err, IfOk, OnErr, option_copied};
ghost use Rattle.lw_route.specs.Methods.{allowed as methods_at};
ghost use Rattle.lw_route.specs.Routes.{IsCommandRouteAt, IsRoute, IsRouteAt, IsQueryRouteAt};
ghost use Rattle.lw_route.specs.Targets.{HasText, takes_text};
ghost use Rattle.lw_route.specs.declared.fault.Fault.TheVariants as Faults;
ghost use Rattle.lw_route.specs.declared.resource.Resource.TheVariants as Resources;
ghost use Rattle.lw_route.specs.inner.Faults.{IsAnswered};

use crate::api_query::query_at;
use crate::command::{cancel, observe};
use crate::fault::Fault;
use crate::resource::Resource;
use crate::{Allowed, ApiQuery, Command, Commands, Method, RouteError};
use lw_stamp::NoMemory;
use std::alloc::Global;

/// What a request is for.
#[derive(Drop)]
pub enum Route {
    /// It asks, and changes nothing.
    Query(ApiQuery),
    /// It changes something.
    Command(Command),
}

/// What a request is for, by its method and the path and query of its target, or why it is for nothing.
///
/// HEAD is handed in as GET. The query is what stands behind `?`, where that stands.
pub fn route_of(
    alloc: Global,
    commands: Commands,
    method: Method,
    path: &str,
    query: Option<&str>,
) -> Result<Result<Route, RouteError>, NoMemory>
    ensures route { IfOk result (IsRoute commands method path.now (option_copied query.entry)) }
    ensures memory { OnErr result (HasText path.now) }
{
    let Some((resource, segment)) = Resource::of_path(path) else {
        return Ok(Err(RouteError::NoResource));
    };
    match route_at(alloc, commands, method, resource, segment, query) {
        Ok(route) => Ok(Ok(route)),
        Err(Fault::Route(error)) => Ok(Err(error)),
        Err(Fault::NoMemory) => Err(NoMemory),
    }
}

fn route_at(
    alloc: Global,
    commands: Commands,
    method: Method,
    resource: Resource,
    segment: &str,
    query: Option<&str>,
) -> Result<Route, Fault>
    ensures route { IsAnswered (IsRouteAt commands method resource segment.now (option_copied query.entry)) result }
    ensures memory { result ≡ Err Faults.NoMemory → takes_text resource ≡ true }
{
    let allowed = resource.allowed(commands);
    match (method, allowed) {
        (Method::Get, _) => query_route(alloc, resource, segment, query),
        (Method::Post, Allowed::GetAndPost) => observation(alloc, segment, query),
        (Method::Delete, Allowed::GetAndDelete) => cancellation(alloc, segment, query),
        _ => Err(Fault::Route(RouteError::MethodNotAllowed(allowed))),
    }
}

fn query_route(
    alloc: Global,
    resource: Resource,
    segment: &str,
    query: Option<&str>,
) -> Result<Route, Fault>
    ensures query_route { IsAnswered (IsQueryRouteAt resource segment.now (option_copied query.entry)) result }
    ensures memory { result ≡ Err Faults.NoMemory → takes_text resource ≡ true }
{
    let api_query = query_at(alloc, resource, segment, query)?;
    Ok(Route::Query(api_query))
}

fn observation(alloc: Global, segment: &str, query: Option<&str>) -> Result<Route, Fault>
    ensures { IsAnswered (IsCommandRouteAt Resources.Observations segment.now (option_copied query.entry)) result }
{
    let command = observe(alloc, segment, query)?;
    Ok(Route::Command(command))
}

fn cancellation(alloc: Global, segment: &str, query: Option<&str>) -> Result<Route, Fault>
    ensures { IsAnswered (IsCommandRouteAt Resources.ByToken segment.now (option_copied query.entry)) result }
{
    let command = cancel(alloc, segment, query)?;
    Ok(Route::Command(command))
}
