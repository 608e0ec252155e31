//! Tests of `lw_log` and `lw_replica`, over their public calls.
#![tactic(auto)]

#[cfg(test)]
mod compare;
#[cfg(test)]
mod entries;
#[cfg(test)]
mod large;
#[cfg(test)]
mod logs;
#[cfg(test)]
mod replica;
#[cfg(test)]
mod shared;
