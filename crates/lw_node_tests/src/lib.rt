//! Tests of the crates from `lw_call` to `lw_script`, over their public calls.
#![tactic(auto)]

#[cfg(test)]
mod call;
#[cfg(test)]
mod json;
#[cfg(test)]
mod node;
#[cfg(test)]
mod script;
#[cfg(test)]
mod steps;
#[cfg(test)]
mod world;
