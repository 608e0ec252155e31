//! Tests of the crate `uses`, over its public calls.
#![tactic(auto)]

#[cfg(test)]
mod callers;
#[cfg(test)]
mod given;
#[cfg(test)]
mod held;
#[cfg(test)]
mod server;
