//! Tests of the crate `lw_metrics`, over its public calls.
#![tactic(auto)]

#[cfg(test)]
mod counting;
#[cfg(test)]
mod io_counters;
#[cfg(test)]
mod rounds;
#[cfg(test)]
mod showing;
#[cfg(test)]
mod shown;
