//! What a request comes to, before anybody is asked.

ghost use Rattle.std.specs.Prelude.{◌≡◌, ◌↔◌, IsTrue, IfOk};
ghost use Rattle.http.specs.Request.{head_of};
ghost use Rattle.lw_http.specs.Verdicts.{is_protected as protected, target_verdict, IsRouteAuthorized, IsAuthorized};
ghost use Rattle.lw_http.specs.Verdicts.{IsAuthorizedHere, IsMethod, MayAccess, IsOriginAllowed};

use crate::AccessPolicy;
use crate::error::HttpError;
use crate::policy::is_same_origin;
use bytes::Bytes;
use http::{Method as HttpMethod, Request};
use lw_route::{Method, Route, RouteError, route_of};
use lw_stamp::NoMemory;
use std::alloc::Global;

impl AccessPolicy {
    /// What the request is for, or why it is told nothing.
    pub(crate) fn authorize(
        &self,
        alloc: Global,
        request: &Request<Bytes>,
    ) -> Result<Result<Route, HttpError>, NoMemory>
        ensures { IfOk result (IsAuthorized self.now request.now) }
    {
        if !self.is_for_us(request) {
            return Ok(Err(HttpError::Misdirected));
        }
        self.authorize_here(alloc, request)
    }

    /// What a request comes to that is for us.
    fn authorize_here(
        &self,
        alloc: Global,
        request: &Request<Bytes>,
    ) -> Result<Result<Route, HttpError>, NoMemory>
        ensures { IfOk result (IsAuthorizedHere self.now request.now) }
    {
        let method = method_of(request);
        let (path, query) = (request.uri().path(), request.uri().query());
        let route = route_of(alloc, self.commands, method, path, query)?;
        Ok(self.authorize_route(method, request, route))
    }

    /// What a request of the route comes to.
    fn authorize_route(
        &self,
        method: Method,
        request: &Request<Bytes>,
        route: Result<Route, RouteError>,
    ) -> Result<Route, HttpError>
        ensures { IsRouteAuthorized self.now method request.now route result }
    {
        if !self.may_access(request, &route) {
            return Err(HttpError::Unauthorized);
        }
        if !is_origin_allowed(method, request, &route) {
            return Err(HttpError::FromAnotherSite);
        }
        on_target(route)
    }

    /// Whether the request brings what it needs.
    fn may_access(&self, request: &Request<Bytes>, route: &Result<Route, RouteError>) -> bool
        ensures { IsTrue result ↔ MayAccess self.now request.now route.now }
    {
        !is_protected(route) || self.has_access(request)
    }
}

/// Whether the request may come from where it comes.
fn is_origin_allowed(
    method: Method,
    request: &Request<Bytes>,
    route: &Result<Route, RouteError>,
) -> bool
    ensures { IsTrue result ↔ IsOriginAllowed method request.now route.now }
{
    !is_protected(route) || method == Method::Get || is_same_origin(request)
}

/// Whether a token is asked for, and where the request comes from.
fn is_protected(route: &Result<Route, RouteError>) -> bool
    ensures { result ≡ protected route.now }
{
    !matches!(
        route,
        Err(RouteError::NoResource | RouteError::MethodNotAllowed(_))
    )
}

fn on_target(route: Result<Route, RouteError>) -> Result<Route, HttpError>
    ensures { result ≡ target_verdict route }
{
    match route {
        Ok(route) => Ok(route),
        Err(route_error) => Err(HttpError::Target(route_error)),
    }
}

fn method_of(request: &Request<Bytes>) -> Method
    ensures { IsMethod (head_of request.now).method result }
{
    let method = request.method();
    if *method == HttpMethod::GET || *method == HttpMethod::HEAD {
        return Method::Get;
    }
    if *method == HttpMethod::POST {
        return Method::Post;
    }
    if *method == HttpMethod::DELETE {
        return Method::Delete;
    }
    Method::Other
}
