//! Tests of `lw_server`, over its public calls.
#![tactic(auto)]

#[cfg(test)]
mod serving;
