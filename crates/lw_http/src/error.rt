//! Why a request is told nothing.

ghost use Rattle.std.specs.Prelude.{◌≡◌, [], ◌∷◌, ◌++◌, OnOk, IsTrue};
ghost use Rattle.http_header.specs.FieldValue.{is_visible_text};
ghost use Rattle.http_server.specs.Response.{fields_of};
ghost use Rattle.lw_http.specs.Responses.{more_for, error_code, error_fields, error_text};

use http::{StatusCode, header};
use http_header::{HeaderName, HeaderValue};
use http_server::Response;
use lw_route::RouteError;
use std::alloc::AllocError;

/// Why a request is told nothing.
#[derive(Clone, Copy)]
pub(crate) enum HttpError {
    /// It is for another host.
    Misdirected,
    /// It does not bring the token.
    Unauthorized,
    /// It would change something, and a page of another site made it.
    FromAnotherSite,
    /// It is for nothing.
    Target(RouteError),
}

impl HttpError {
    pub(crate) fn status(self) -> StatusCode
        ensures { result ≡ error_code self }
    {
        match self {
            HttpError::Misdirected => StatusCode::MISDIRECTED_REQUEST,
            HttpError::Unauthorized => StatusCode::UNAUTHORIZED,
            HttpError::FromAnotherSite => StatusCode::FORBIDDEN,
            HttpError::Target(RouteError::NoResource) => StatusCode::NOT_FOUND,
            HttpError::Target(RouteError::MethodNotAllowed(_)) => StatusCode::METHOD_NOT_ALLOWED,
            HttpError::Target(_) => StatusCode::BAD_REQUEST,
        }
    }

    pub(crate) fn text(self) -> &'static str
        ensures { result.now ≡ error_text self }
    {
        match self {
            HttpError::Misdirected => "not for this host",
            HttpError::Unauthorized => "a token is needed",
            HttpError::FromAnotherSite => "from another site",
            HttpError::Target(route_error) => route_error.text(),
        }
    }

    /// Adds the fields that only this error has.
    pub(crate) fn add_fields(self, response: &mut Response) -> Result<(), AllocError>
        ensures headers { OnOk result (fields_of response.new ≡ fields_of response.old ++ error_fields self) }
        ensures status { OnOk result (response.new.status ≡ response.old.status) }
        ensures body { OnOk result (response.new.body ≡ response.old.body) }
    {
        match self {
            HttpError::Misdirected | HttpError::FromAnotherSite => Ok(()),
            HttpError::Unauthorized => add_field(response, header::WWW_AUTHENTICATE, "Bearer"),
            HttpError::Target(route_error) => add_allowed(response, route_error),
        }
    }
}

/// Says which methods are allowed, where another one was used.
fn add_allowed(response: &mut Response, route_error: RouteError) -> Result<(), AllocError>
    ensures headers { OnOk result (fields_of response.new ≡ fields_of response.old ++ more_for route_error) }
    ensures status { OnOk result (response.new.status ≡ response.old.status) }
    ensures body { OnOk result (response.new.body ≡ response.old.body) }
{
    match route_error {
        RouteError::MethodNotAllowed(allowed) => add_field(response, header::ALLOW, allowed.text()),
        _ => Ok(()),
    }
}

/// Adds a field whose value is written here.
pub(crate) fn add_field(
    response: &mut Response,
    name: HeaderName,
    value: &'static str,
) -> Result<(), AllocError>
    requires { IsTrue (is_visible_text value.now) }
    ensures headers { OnOk result (fields_of response.new ≡ fields_of response.old ++ (name, value.now) ∷ []) }
    ensures status { response.new.status ≡ response.old.status }
    ensures body { response.new.body ≡ response.old.body }
{
    response.add_header(name, HeaderValue::from_static(value))
}
