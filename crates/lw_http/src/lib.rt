//! An API over HTTP: who may ask, what a response says, and a connection that is answered.
#![tactic(auto)]

mod authorization;
mod connection;
mod error;
mod policy;
mod service;
mod token;

pub use connection::{advance, new_connection, serve_connection};
pub use policy::AccessPolicy;
pub use service::ApiService;
pub use token::token_in;
