//! A log that is looked at after its run, and of which readings fail.

use super::*;
use bytes::Bytes;
use std::cell::{Cell, RefCell};
use std::process::Abort;

/// Readings of a log that fail: after how many others, and how many.
#[derive(Clone, Copy)]
pub(super) struct Trouble {
    pub(super) fault: LogFault,
    pub(super) after: u32,
    pub(super) times: u32,
}

impl Trouble {
    /// What is left of it behind a reading, and the fault of the reading, if it has one.
    fn behind_reading(self) -> (Option<Trouble>, Option<LogFault>) {
        if let Some(after) = self.after.checked_sub(1) {
            return (Some(Trouble { after, ..self }), None);
        }
        match self.times.checked_sub(1) {
            None => (None, None),
            Some(0) => (None, Some(self.fault)),
            Some(times) => (Some(Trouble { times, ..self }), Some(self.fault)),
        }
    }
}

/// What ails a log, and what ails it from then on.
pub(super) type Troubles = (Option<Trouble>, Option<Trouble>);

/// A log that is looked at after the run.
#[derive(Drop)]
pub(super) struct SharedLog<'a> {
    pub(super) log: &'a RefCell<MemoryLog>,
    pub(super) troubles: &'a Cell<Troubles>,
    /// Whether nobody else writes into it.
    pub(super) alone: bool,
}

impl SharedLog<'_> {
    /// The fault of this reading, if it has one.
    fn fault(&self) -> Option<LogFault> {
        let (trouble, next) = self.troubles.get();
        let (left, fault) = trouble?.behind_reading();
        match left {
            Some(_) => self.troubles.set((left, next)),
            None => self.troubles.set((next, None)),
        }
        fault
    }
}

impl DeltaLog for SharedLog<'_> {
    ghost use Rattle.std.specs.Prelude.{true};

    ghost alone = { true };

    fn read(&mut self, after: Option<Position>) -> Result<Vec<(Position, Bytes)>, LogFault> {
        if let Some(fault) = self.fault() {
            return Err(fault);
        }
        match self.log.try_borrow_mut() {
            Ok(mut log) => log.read(after),
            Err(_) => Err(LogFault::Refused),
        }
    }

    fn append(&mut self, entry: &[u8]) -> Result<Position, LogFault> {
        match self.log.try_borrow_mut() {
            Ok(mut log) => log.append(entry),
            Err(_) => Err(LogFault::Refused),
        }
    }

    fn trim(&mut self, upto: Position) -> Result<(), LogFault> {
        match self.log.try_borrow_mut() {
            Ok(mut log) => log.trim(upto),
            Err(_) => Err(LogFault::Refused),
        }
    }

    fn is_alone(&self) -> bool {
        self.alone
    }
}

/// The start entry of another start in that fleet: number 2, sequence 1.
const OTHER_START: &str =
    "4c5745310707070707070707070707070707070700020000000000000008000000000000000100";

/// A delta of it, sequence 2, up to the object list of its one registration: counter 65,536, the name `0000`, and twice
/// the stamp with counter 1 of node 1.
const BEFORE_LIST: &str =
    "4c5745310707070707070707070707070707070700020000000000000008000000000000000201\
4c5744330000000100000104303030300000000000010001400000000000010001";

/// Behind the list: no attributes, not ended, no watches, and the end.
const BEHIND_LIST: [u8; 4] = [0; 4];

/// How many bytes the entry has with the longest list, which has 8,192.
const LONGEST: usize = 8_270;

/// A log in which another start has left so many bytes.
pub(super) fn log_of(rt: &impl Abort, alloc: Global, kept: usize) -> MemoryLog {
    let mut log = MemoryLog::new(alloc);
    if kept > 0 {
        fill(rt, alloc, &mut log, kept);
    }
    log
}

/// Appends entries of another start that have so many bytes.
fn fill(rt: &impl Abort, alloc: Global, log: &mut MemoryLog, kept: usize) {
    let start = hex::decode(alloc, OTHER_START).expect(rt, "a start");
    let left = kept.saturating_sub(start.len());
    append(rt, log, &start);
    let longest = delta_of(rt, alloc, LONGEST);
    for _entry in 0..left / LONGEST {
        append(rt, log, &longest);
    }
    append(rt, log, &delta_of(rt, alloc, left % LONGEST));
}

fn append(rt: &impl Abort, log: &mut MemoryLog, entry: &[u8]) {
    log.append(entry).expect(rt, "an entry");
}

/// A delta of the other start that has exactly so many bytes.
fn delta_of(rt: &impl Abort, alloc: Global, length: usize) -> Vec<u8> {
    let mut bytes = hex::decode(alloc, BEFORE_LIST).expect(rt, "a delta");
    let around = size_of::<u16>() + BEHIND_LIST.len();
    let list = length.saturating_sub(bytes.len()).saturating_sub(around);
    let counted = u16::try_from(list).expect(rt, "a list of 65,535 bytes at most");
    put(rt, &mut bytes, &counted.to_be_bytes());
    put(rt, &mut bytes, b"</");
    for _letter in b"</>".len()..list {
        put(rt, &mut bytes, b"a");
    }
    put(rt, &mut bytes, b">");
    put(rt, &mut bytes, &BEHIND_LIST);
    bytes
}

fn put(rt: &impl Abort, bytes: &mut Vec<u8>, more: &[u8]) {
    bytes.extend_from_slice(more).expect(rt, "memory");
}

/// How many calls were made of the log.
pub(super) fn asked_of(log: &RefCell<MemoryLog>) -> usize {
    match log.try_borrow() {
        Ok(log) => log.asked().len(),
        Err(_) => 0,
    }
}

/// Adds what was asked of the log behind so many calls, a letter each.
pub(super) fn put_letters(
    text: &mut String,
    log: &RefCell<MemoryLog>,
    begun: usize,
) -> Result<(), LogFault> {
    let Ok(log) = log.try_borrow() else {
        return Err(LogFault::Refused);
    };
    for call in log.asked().iter().skip(begun) {
        text.push(match call {
            MemoryCall::Read(..) => 'r',
            MemoryCall::Wrote(..) => 'W',
            MemoryCall::Tried(_) => 't',
            MemoryCall::Trimmed(_) => 'x',
        })?;
    }
    Ok(())
}
