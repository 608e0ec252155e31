//! What a request over HTTP asks of the store, or changes, by its method and the path and query of its target.
//!
//! Who answers is an [`Api`]. Nothing is read or written here.
#![tactic(auto)]

mod api;
mod api_query;
mod command;
mod decoding;
mod error;
mod fault;
mod method;
mod numbers;
mod parameters;
mod resource;
mod route;
mod segments;

pub use api::{Api, ApiResponse, Media, Status};
pub use api_query::ApiQuery;
pub use command::Command;
pub use error::RouteError;
pub use method::{Allowed, Commands, Method};
pub use route::{Route, route_of};
