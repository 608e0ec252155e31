//! Tests of the crates from `lw_held` to `lw_serve`, over their public calls.
#![tactic(auto)]

#[cfg(test)]
mod calls;
#[cfg(test)]
mod crew;
#[cfg(test)]
mod held;
#[cfg(test)]
mod serve;
