use crate::cost::Costs;
use std::alloc::{AllocError, Global};

/// A row of the table: what a call costs at three sizes.
pub(crate) fn row(alloc: Global, name: &str, costs: Costs) -> Result<String, AllocError> {
    let Costs {
        small,
        medium,
        large,
    } = costs;
    let first = figure(alloc, medium.hundredths_of(&small))?;
    let second = figure(alloc, large.hundredths_of(&medium))?;
    let speed = figure(alloc, large.megabytes_each_second())?;
    format!(in alloc;
        "{name:<48}{:>10}{:>10}{:>10}{first:>8}{second:>8}{speed:>8}\n",
        small.nanos_each(),
        medium.nanos_each(),
        large.nanos_each()
    )
}

/// A number, or `-`.
fn figure(alloc: Global, number: Option<u128>) -> Result<String, AllocError> {
    match number {
        Some(number) => number.to_string(alloc),
        None => String::from_str(alloc, "-"),
    }
}
