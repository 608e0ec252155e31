//! A log in memory that several replicas share, and that can be made to fail.

use hex::FromHexError;
use lw_log::{Bytes, DeltaLog, LogFault, MemoryLog, Position};
use std::alloc::Global;
use std::cell::{Cell, RefCell};
use std::process::Abort;

/// A log that several logs share.
pub(crate) type Entries = RefCell<MemoryLog>;

/// A call of a log that fails: how many calls are made before it, its fault, and whether the entry of an append is kept
/// nevertheless.
pub(crate) type Failure = (u64, LogFault, bool);

/// A log over entries that others may share. A reading, an append and a trim can be made to fail, and others can be
/// made to append in between.
#[derive(Drop)]
pub(crate) struct Shared<'a> {
    alloc: Global,
    entries: &'a Entries,
    alone: bool,
    pub(crate) reading: Cell<Option<Failure>>,
    pub(crate) append: Cell<Option<Failure>>,
    pub(crate) trim: Cell<Option<Failure>>,
    /// What another process appends before the next append, in order and in hex.
    pub(crate) between: Cell<&'static [&'static str]>,
}

impl<'a> Shared<'a> {
    /// A log that nobody else may append to, or one that others may.
    pub(crate) fn new(alloc: Global, entries: &'a Entries, alone: bool) -> Shared<'a> {
        Shared {
            alloc,
            entries,
            alone,
            reading: Cell::new(None),
            append: Cell::new(None),
            trim: Cell::new(None),
            between: Cell::new(&[]),
        }
    }

    /// Whether all that was to fail has failed.
    pub(crate) fn has_failed(&self) -> bool {
        self.reading.get().is_none() && self.append.get().is_none() && self.trim.get().is_none()
    }
}

/// Whether this call is the one that fails, and how: its fault, and whether an entry is kept.
fn failing(planned: &Cell<Option<Failure>>) -> Option<(LogFault, bool)> {
    let (before, fault, kept) = planned.get()?;
    let Some(left) = before.checked_sub(1) else {
        planned.set(None);
        return Some((fault, kept));
    };
    planned.set(Some((left, fault, kept)));
    None
}

/// Adds an entry behind the others.
pub(crate) fn add(entries: &Entries, entry: &[u8]) -> Result<Position, LogFault> {
    match entries.try_borrow_mut() {
        Ok(mut log) => log.append(entry),
        Err(_) => Err(LogFault::Unavailable),
    }
}

impl DeltaLog for Shared<'_> {
    ghost use Rattle.std.specs.Prelude.{true};

    ghost alone = { true };

    fn read(&mut self, after: Option<Position>) -> Result<Vec<(Position, Bytes)>, LogFault> {
        if let Some((fault, _)) = failing(&self.reading) {
            return Err(fault);
        }
        match self.entries.try_borrow_mut() {
            Ok(mut log) => log.read(after),
            Err(_) => Err(LogFault::Unavailable),
        }
    }

    fn append(&mut self, entry: &[u8]) -> Result<Position, LogFault> {
        put_all(self.alloc, self.entries, self.between.replace(&[]))?;
        let Some((fault, kept)) = failing(&self.append) else {
            return add(self.entries, entry);
        };
        if kept {
            add(self.entries, entry)?;
        }
        Err(fault)
    }

    fn trim(&mut self, upto: Position) -> Result<(), LogFault> {
        if let Some((fault, _)) = failing(&self.trim) {
            return Err(fault);
        }
        match self.entries.try_borrow_mut() {
            Ok(mut log) => log.trim(upto),
            Err(_) => Err(LogFault::Unavailable),
        }
    }

    fn is_alone(&self) -> bool {
        self.alone
    }
}

/// The bytes that the text spells in hex.
pub(crate) fn bytes_of(alloc: Global, text: &str) -> Result<Vec<u8>, LogFault> {
    match hex::decode(alloc, text) {
        Ok(bytes) => Ok(bytes),
        Err(FromHexError::OutOfMemory) => Err(LogFault::NoMemory),
        Err(_) => Err(LogFault::Refused),
    }
}

/// Puts the entry that the text spells in hex behind the others, as another process does.
fn put(alloc: Global, entries: &Entries, text: &str) -> Result<Position, LogFault> {
    let entry = bytes_of(alloc, text)?;
    add(entries, &entry)
}

/// The same with each of the texts.
pub(crate) fn put_all(alloc: Global, entries: &Entries, texts: &[&str]) -> Result<(), LogFault> {
    for text in texts {
        put(alloc, entries, text)?;
    }
    Ok(())
}

/// The entries that the texts spell in hex, in this order.
pub(crate) fn entries_of(alloc: Global, texts: &[&str]) -> Result<Entries, LogFault> {
    let entries = RefCell::new(MemoryLog::new(alloc));
    put_all(alloc, &entries, texts)?;
    Ok(entries)
}

/// How many entries there are.
pub(crate) fn count_of(rt: &impl Abort, entries: &Entries) -> usize {
    let log = entries.try_borrow().expect(rt, "the log is free");
    log.entries().len()
}

/// How many bytes the entries have together.
pub(crate) fn total_of(rt: &impl Abort, entries: &Entries) -> usize {
    let log = entries.try_borrow().expect(rt, "the log is free");
    let mut total: usize = 0;
    for (_, bytes) in log.entries() {
        total = total.saturating_add(bytes.len());
    }
    total
}

/// A copy of the last entry.
pub(crate) fn last_of(rt: &impl Abort, alloc: Global, entries: &Entries) -> Vec<u8> {
    let log = entries.try_borrow().expect(rt, "the log is free");
    let (_, bytes) = log.entries().last().expect(rt, "an entry");
    bytes.to_vec(alloc).expect(rt, "memory")
}
