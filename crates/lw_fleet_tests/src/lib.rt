//! Tests of the crate `lw_fleet`, over its public calls.
#![tactic(auto)]

#[cfg(test)]
mod tests;
