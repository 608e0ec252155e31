//! Tests of the crates from `lw_stamp` to `lw_delta`, over their public calls.
#![tactic(auto)]

#[cfg(test)]
mod change;
#[cfg(test)]
mod coap;
#[cfg(test)]
mod delta;
#[cfg(test)]
mod due;
#[cfg(test)]
mod hold;
#[cfg(test)]
mod index;
#[cfg(test)]
mod join;
#[cfg(test)]
mod link;
#[cfg(test)]
mod recent;
#[cfg(test)]
mod reg;
#[cfg(test)]
mod request;
#[cfg(test)]
mod stamp;
#[cfg(test)]
mod table;
