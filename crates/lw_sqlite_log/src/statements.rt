//! What is asked of the database, a function for each statement.

ghost use Rattle.std.specs.Prelude.{◌≢◌, IfErr};

use lw_log::{LogFault, PAGE};
use sqlite::{Connection, Error, ErrorCode, File, FileStore, Row, params};

/// The database in its file.
pub(crate) type Store = Connection<FileStore<File>>;

/// The table of entries, as the file keeps its text.
pub(crate) const TABLE: &str =
    "CREATE TABLE entry (position INTEGER PRIMARY KEY, number INTEGER NOT NULL, \
    kind INTEGER NOT NULL, bytes BLOB NOT NULL) STRICT";

/// Why the database did not read.
fn read_fault(error: Error) -> LogFault {
    match error {
        Error::SqliteFailure(ErrorCode::OutOfMemory) => LogFault::NoMemory,
        _ => LogFault::Refused,
    }
}

/// Why the database did not write. Out of memory, it has undone what it began and can be asked again.
fn write_fault(error: Error) -> LogFault
    ensures asked { result ≢ LogFault.NoMemory }
{
    match error {
        Error::SqliteFailure(ErrorCode::OutOfMemory) => LogFault::Unavailable,
        _ => LogFault::Refused,
    }
}

/// Opens the file, or makes it, with sums of its pages.
pub(crate) fn open(rt: &HostRuntime, path: &str) -> Result<Store, Error> {
    Connection::open_with_sums(rt, path)
}

/// The texts of all that the file defines.
pub(crate) fn definitions(store: &mut Store) -> Result<Vec<Row>, Error> {
    store.query_all("SELECT sql FROM sqlite_schema", &[])
}

/// Makes the table of entries.
pub(crate) fn create(store: &mut Store) -> Result<usize, Error> {
    store.execute(TABLE, &[])
}

/// Adds an entry, with its number and its kind for those who look at the table, and commits.
pub(crate) fn insert(
    store: &mut Store,
    number: u16,
    kind: u8,
    entry: &[u8],
) -> Result<usize, LogFault>
    ensures asked { IfErr result (λ fault. fault ≢ LogFault.NoMemory) }
{
    let sql = "INSERT INTO entry (number, kind, bytes) VALUES (?1, ?2, ?3)";
    store
        .execute(sql, params![u32::from(number), u32::from(kind), entry])
        .map_err(write_fault)
}

/// The positions and the bytes of the first entries above a position, a page at most.
pub(crate) fn select(store: &mut Store, after: i64) -> Result<Vec<Row>, LogFault> {
    let sql = "SELECT position, bytes FROM entry WHERE position > ?1 ORDER BY position LIMIT ?2";
    store
        .query_all(sql, params![after, PAGE as i64])
        .map_err(read_fault)
}

/// Has the entries go up to a position, and commits.
pub(crate) fn delete(store: &mut Store, upto: i64) -> Result<usize, LogFault>
    ensures asked { IfErr result (λ fault. fault ≢ LogFault.NoMemory) }
{
    let sql = "DELETE FROM entry WHERE position <= ?1";
    store.execute(sql, params![upto]).map_err(write_fault)
}
