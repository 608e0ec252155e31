//! Tests of the crate `lw_redis_log`, over its public calls.
#![tactic(auto)]

#[cfg(test)]
mod commands;
#[cfg(test)]
mod errors;
#[cfg(test)]
mod fleets;
#[cfg(test)]
mod hold;
#[cfg(test)]
mod login;
#[cfg(test)]
mod losses;
#[cfg(test)]
mod marks;
#[cfg(test)]
mod outcomes;
#[cfg(test)]
mod pauses;
#[cfg(test)]
mod stage;
#[cfg(test)]
mod stories;
#[cfg(test)]
mod times;
#[cfg(test)]
mod trims;
