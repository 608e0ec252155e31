mod copied;
mod kinds;
mod many;
mod refused;

use lw_join::{Flag, Parts};
use lw_stamp::NoMemory;
use std::alloc::Global;

const UP: Flag = Flag { raised: true };

const DOWN: Flag = Flag { raised: false };

/// The entries of a map.
type Entries = &'static [(u16, Flag)];

/// The map of these entries, where the keys rise.
fn map_of(alloc: Global, rows: Entries) -> Result<Option<Parts<u16, Flag>>, NoMemory> {
    let entries = Vec::from_slice(alloc, rows)?;
    Ok(Parts::from_entries(entries))
}
