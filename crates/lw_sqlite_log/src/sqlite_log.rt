//! A log in a file of its own.

ghost use Rattle.std.specs.Prelude.{◌≢◌, IfErr};

use crate::OpenFault;
use crate::columns::{kind_of, number_of};
use crate::folder::{make_file, make_folder};
use crate::statements::{self, Store, TABLE};
use lw_log::{Bytes, DeltaLog, LogFault, PAGE, Position};
use sqlite::Row;
use sqlite::types::ValueRef;
use std::alloc::Global;

/// The file in the folder of a log.
const FILE: &str = "fleet.db";

/// How many positions go at once: fewer than hold up a server for long.
const STEP: i64 = 512;

/// Keeps entries in the file `fleet.db` of a folder. No other process has the file open at the same time.
///
/// It is never closed: what an append has answered is on the disk, in the file or in `fleet.db-wal` beside it.
#[derive(Drop)]
pub struct SqliteLog {
    alloc: Global,
    store: Store,
    /// The last position, where it is known.
    end: Option<Position>,
    /// A position that no entry stands below, where one is known.
    first: Option<i64>,
    /// Up to where entries are to go that are there still.
    going: Option<i64>,
}

/// Whether the file has the table of entries. One that has anything else is no log.
fn has_table(store: &mut Store) -> Result<bool, OpenFault> {
    let rows = statements::definitions(store)?;
    match rows.as_slice() {
        [] => Ok(false),
        [row] => {
            let text: String = row.get(0)?;
            if text.as_str() == TABLE {
                Ok(true)
            } else {
                Err(OpenFault::Damaged)
            }
        }
        _ => Err(OpenFault::Damaged),
    }
}

/// The key of the last row at or below a position.
fn key_of(position: Position) -> i64 {
    i64::try_from(position.major).unwrap_or(i64::MAX)
}

fn position_of(key: i64) -> Result<Position, LogFault>
    ensures { IfErr result (λ fault. fault ≢ LogFault.NoMemory) }
{
    let Ok(major) = u64::try_from(key) else {
        return Err(LogFault::Refused);
    };
    Ok(Position { major, minor: 0 })
}

/// The entry that a row is.
fn entry_of(alloc: Global, row: &Row) -> Result<(Position, Bytes), LogFault> {
    let Ok(key) = row.get(0) else {
        return Err(LogFault::Refused);
    };
    let Ok(ValueRef::Blob(bytes)) = row.get_ref(1) else {
        return Err(LogFault::Refused);
    };
    Ok((position_of(key)?, Bytes::copy_from_slice(alloc, bytes)?))
}

impl SqliteLog {
    /// Opens the log of the folder, or makes the folder and the file, which are then their owner's alone.
    pub fn open(rt: &HostRuntime, folder: &str) -> Result<SqliteLog, OpenFault> {
        make_folder(rt, folder)?;
        let path = format!(in rt.alloc(); "{folder}/{FILE}")?;
        make_file(rt, path.as_str())?;
        let mut store = statements::open(rt, path.as_str())?;
        if !has_table(&mut store)? {
            statements::create(&mut store)?;
        }
        Ok(SqliteLog {
            alloc: rt.alloc(),
            store,
            end: None,
            first: None,
            going: None,
        })
    }

    /// Has some of the entries go that are to.
    fn let_go(&mut self) -> Result<(), LogFault>
        ensures asked { IfErr result (λ fault. fault ≢ LogFault.NoMemory) }
    {
        let Some(upto) = self.going else {
            return Ok(());
        };
        let until = match self.first {
            Some(first) => upto.min(first.saturating_add(STEP)),
            None => upto,
        };
        statements::delete(&mut self.store, until)?;
        self.first = Some(until);
        if until == upto {
            self.going = None;
        }
        Ok(())
    }
}

impl DeltaLog for SqliteLog {
    ghost use Rattle.std.specs.Prelude.{true};

    ghost alone = { true };

    fn read(&mut self, after: Option<Position>) -> Result<Vec<(Position, Bytes)>, LogFault> {
        let mut page = Vec::new(self.alloc);
        if after.is_some() && after == self.end {
            return Ok(page);
        }
        let rows = statements::select(&mut self.store, after.map_or(i64::MIN, key_of))?;
        for row in &rows {
            page.push(entry_of(self.alloc, row)?)?;
        }
        if let (None, Some(entry)) = (after, page.first()) {
            self.first = Some(key_of(entry.0));
        }
        if page.len() < PAGE {
            self.end = match page.last() {
                Some(entry) => Some(entry.0),
                None => after,
            };
        }
        Ok(page)
    }

    // Whatever is refused, the database was asked.
    fn append(&mut self, entry: &[u8]) -> Result<Position, LogFault>
        ensures asked { IfErr result (λ fault. fault ≢ LogFault.NoMemory) }
    {
        // Entries that cannot go now go later.
        if let Err(LogFault::Refused) = self.let_go() {
            return Err(LogFault::Refused);
        }
        self.end = None;
        statements::insert(&mut self.store, number_of(entry), kind_of(entry), entry)?;
        let position = position_of(self.store.last_insert_rowid())?;
        self.end = Some(position);
        Ok(position)
    }

    // Some go at once, and more with each append. The last entry has to stay: the next one stands behind the greatest that
    // is there.
    fn trim(&mut self, upto: Position) -> Result<(), LogFault>
        ensures asked { IfErr result (λ fault. fault ≢ LogFault.NoMemory) }
    {
        self.going = Some(key_of(upto));
        self.let_go()
    }

    fn is_alone(&self) -> bool {
        true
    }
}
