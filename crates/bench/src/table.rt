//! The table of all costs.

use crate::fault::BenchFault;
use crate::heap::{Sizes, measure_sizes};
use crate::operation::ROWS;
use crate::row::row;
use std::alloc::{AllocError, Global};
use std::rt::Files;
use std::sync::Wait;
use std::time::CpuClock;

/// How large a run is.
#[derive(Clone, Copy)]
pub(crate) struct Plan {
    pub small: u32,
    pub medium: u32,
    /// Also how many of a thing are stored where memory is read.
    pub large: u32,
    /// How often a row is measured; the least time counts.
    pub rounds: u32,
}

/// Each call a few times.
pub(crate) const TRIAL: Plan = Plan {
    small: 10,
    medium: 10,
    large: 10,
    rounds: 2,
};

pub(crate) const FULL: Plan = Plan {
    small: 1000,
    medium: 10_000,
    large: 100_000,
    rounds: 7,
};

const HEADING: &str =
    "nanoseconds of a call at three sizes, growth from size to size in hundredths, MB/s\n";

/// The word that each row has.
pub(crate) const ALL: &str = "";

/// The whole table, or, of a word, the rows whose name has it. Memory comes first, while nothing that was freed is kept.
pub(crate) fn table<R: AllocGlobal + CpuClock + Files + Wait>(
    rt: &R,
    plan: Plan,
    word: &str,
) -> Result<String, BenchFault> {
    let mut text = head(rt, plan, word)?;
    put_rows(rt, plan, word, &mut text)?;
    Ok(text)
}

/// What stands above the rows.
fn head<R: AllocGlobal + Files + Wait>(
    rt: &R,
    plan: Plan,
    word: &str,
) -> Result<String, BenchFault> {
    if word != ALL {
        return Ok(String::from_str(rt.alloc(), HEADING)?);
    }
    let sizes = measure_sizes(rt, rt.alloc(), plan.large)?;
    Ok(sizes_text(rt.alloc(), sizes)?)
}

fn sizes_text(alloc: Global, sizes: Sizes) -> Result<String, AllocError> {
    format!(in alloc;
        "bytes of a registration: {}\nbytes of one in a copy of a node: {}\nbytes of a removed one: {}\nbytes of an index key: {}\nbytes of an Update in journal and transcript: {}\n\n{HEADING}",
        sizes.registration, sizes.copied, sizes.removed, sizes.index_key, sizes.update
    )
}

fn put_rows<R: AllocGlobal + CpuClock>(
    rt: &R,
    plan: Plan,
    word: &str,
    text: &mut String,
) -> Result<(), BenchFault> {
    for (name, operation) in &ROWS {
        if name.contains(word) {
            let costs = operation.least(rt, rt.alloc(), plan)?;
            text.push_str(row(rt.alloc(), name, costs)?.as_str())?;
        }
    }
    Ok(())
}
