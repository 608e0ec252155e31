//! Tests of `lw_api`, over its public calls: what a node with two registrations tells over HTTP.
#![tactic(auto)]

#[cfg(test)]
mod commanded;
#[cfg(test)]
mod notification_buffer;
#[cfg(test)]
mod told;
