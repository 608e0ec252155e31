//! A log in a SQLite file, which `sqlite3` reads.
#![tactic(auto)]

mod columns;
mod folder;
mod open_fault;
mod sqlite_log;
mod statements;

pub use open_fault::OpenFault;
pub use sqlite_log::SqliteLog;
