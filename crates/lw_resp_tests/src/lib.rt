//! Tests of the crate `lw_resp`, over its public calls.
#![tactic(auto)]

#[cfg(test)]
mod commands;
#[cfg(test)]
mod identifiers;
#[cfg(test)]
mod replies;
#[cfg(test)]
mod told;
#[cfg(test)]
mod words;
