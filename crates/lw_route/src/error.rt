ghost use Rattle.std.specs.Prelude.{◌≡◌};
ghost use Rattle.lw_route.specs.Errors.{status_of, text_of};

use crate::Allowed;

/// Why a request has no route, in the order in which the causes are looked for.
#[derive(Clone, Copy, Debug, PartialEq, Eq)]
pub enum RouteError {
    /// No resource has the path.
    NoResource,
    /// The resource has other methods, which are these.
    MethodNotAllowed(Allowed),
    /// The last segment of the path is no name of an endpoint.
    Endpoint,
    /// It is no identifier of a registration.
    Id,
    /// It is no address.
    Address,
    /// It is no token.
    Token,
    /// A part of the query has no `=`.
    NoValue,
    /// The resource has no parameter of the name.
    NoParameter,
    /// A parameter is given twice.
    Twice,
    /// The value of `limit` is none.
    Limit,
    /// The value of `after` is none.
    After,
    /// The value of `since` is none.
    Since,
    /// The value of `start` is none.
    Start,
    /// The value of `from` is none.
    From,
    /// The value of `path` is none, or it is not given.
    Path,
    /// The value of `accept` is none.
    Accept,
}

impl RouteError {
    /// The status code of the response (RFC 9110, section 15.5).
    pub fn status(&self) -> u16
        ensures { result ≡ status_of self.now }
    {
        match self {
            RouteError::NoResource => 404,
            RouteError::MethodNotAllowed(_) => 405,
            _ => 400,
        }
    }

    /// What the response says.
    pub fn text(&self) -> &'static str
        ensures { result.now ≡ text_of self.now }
    {
        match self {
            RouteError::NoResource => "no such resource",
            RouteError::MethodNotAllowed(_) => "method not allowed",
            RouteError::Endpoint => "endpoint",
            RouteError::Id => "id",
            RouteError::Address => "address",
            RouteError::Token => "token",
            RouteError::NoValue => "a parameter without a value",
            RouteError::NoParameter => "no such parameter",
            RouteError::Twice => "a parameter twice",
            RouteError::Limit => "limit",
            RouteError::After => "after",
            RouteError::Since => "since",
            RouteError::Start => "start",
            RouteError::From => "from",
            RouteError::Path => "path",
            RouteError::Accept => "accept",
        }
    }
}
