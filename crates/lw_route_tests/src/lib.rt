//! Tests of the crate `lw_route`, over its public calls.
#![tactic(auto)]

#[cfg(test)]
mod commands;
#[cfg(test)]
mod targets;
#[cfg(test)]
mod told;
