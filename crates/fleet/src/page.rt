//! The page, as its file has it.

use lw_fleet::{Fault, RunningFault, read_all};
use std::fs::File;

/// The text of the file, which has at most 1,048,576 bytes.
pub(crate) fn page_of_file(host: &HostRuntime, path: &str) -> Result<String, RunningFault> {
    let Ok(mut file) = File::open(host, path) else {
        return Err(RunningFault::PageRefused);
    };
    let bytes = read_all(host.alloc(), &mut file).map_err(fault_of_read)?;
    match String::from_utf8(bytes) {
        Ok(page) => Ok(page),
        Err(_) => Err(RunningFault::PageRefused),
    }
}

fn fault_of_read(fault: Fault) -> RunningFault {
    match fault {
        Fault::NoMemory => RunningFault::NoMemory,
        _ => RunningFault::PageRefused,
    }
}
