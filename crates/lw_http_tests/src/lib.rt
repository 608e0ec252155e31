//! Tests of `lw_http`, over its public calls.
#![tactic(auto)]

#[cfg(test)]
mod commands;
#[cfg(test)]
mod connections;
#[cfg(test)]
mod stage;
#[cfg(test)]
mod tokens;
