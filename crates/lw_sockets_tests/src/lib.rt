//! Tests of `lw_sockets`, over its public calls.
#![tactic(auto)]

#[cfg(test)]
mod addresses;
#[cfg(test)]
mod drops;
#[cfg(test)]
mod sockets;
