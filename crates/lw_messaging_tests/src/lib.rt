//! Tests of the crate `lw_messaging`, over its public calls.
#![tactic(auto)]

#[cfg(test)]
mod bodies;
#[cfg(test)]
mod fetches;
#[cfg(test)]
mod freshness;
#[cfg(test)]
mod message_ids;
#[cfg(test)]
mod moments;
#[cfg(test)]
mod replies;
#[cfg(test)]
mod requests;
#[cfg(test)]
mod retransmission;
