//! A log in memory, which knows what was asked of it.

ghost use Rattle.std.specs.Prelude.{◌≡◌, ◌↔◌, [], Some, None, IsTrue, IfOk, All, MatchResult};
ghost use Rattle.lw_log.specs.Calls.{Calls, read_calls};
ghost use Rattle.lw_log.specs.inner.Memory.{IsAbove};

use crate::{DeltaLog, LogFault, PAGE, Position};
use bytes::Bytes;
use std::alloc::{AllocError, Global};

/// What was asked of a `MemoryLog`.
#[derive(Drop)]
pub enum MemoryCall {
    /// The first entries above a position.
    Read(Option<Position>, Vec<(Position, Bytes)>),
    /// An entry, whose append returned with this position.
    Wrote(Position, Bytes),
    /// An entry, whose append failed.
    Tried(Bytes),
    /// The entries at or below the position were to go.
    Trimmed(Position),
}

/// An append that fails.
#[derive(Clone, Copy)]
struct Failure {
    /// How many appends are made before it.
    after: u64,
    /// Whether the entry is kept nevertheless.
    kept: bool,
}

/// Keeps its entries in memory, and what was asked of it. An append can be made to fail.
#[derive(Drop)]
pub struct MemoryLog {
    alloc: Global,
    count: u64,
    entries: Vec<(Position, Bytes)>,
    asked: Vec<MemoryCall>,
    failure: Option<Failure>,
}

/// Whether the position is above another, where there is one.
fn is_above(after: Option<Position>, position: Position) -> bool
    ensures { IsTrue result ↔ IsAbove after position }
{
    match after {
        None => true,
        Some(after) => after < position,
    }
}

/// A second copy of entries.
fn copy_of(
    alloc: Global,
    entries: &[(Position, Bytes)],
) -> Result<Vec<(Position, Bytes)>, AllocError>
    ensures { IfOk result (λ copy. copy.items ≡ entries.now) }
{
    let mut copy = Vec::with_capacity(alloc, entries.len())?;
    for entry in entries {
        copy.push((entry.0, entry.1.clone()?))?;
    }
    Ok(copy)
}

impl MemoryLog {
    /// One with no entries, of which nothing was asked.
    pub fn new(alloc: Global) -> MemoryLog
        ensures { (result.entries.items ≡ []) × (result.asked.items ≡ []) × (result.failure ≡ None) }
    {
        MemoryLog {
            alloc,
            count: 0,
            entries: Vec::new(alloc),
            asked: Vec::new(alloc),
            failure: None,
        }
    }

    /// Has an append answer `Unavailable`, after so many others, with its entry kept or not.
    pub fn fail_after(&mut self, appends: u64, kept: bool)
        ensures { self.new ≡ record self.old { failure = Some (record { after = appends; kept = kept }) } }
    {
        self.failure = Some(Failure {
            after: appends,
            kept,
        });
    }

    /// The entries that are there, in order.
    pub fn entries(&self) -> &[(Position, Bytes)]
        ensures { result.now ≡ self.now.entries.items }
    {
        &self.entries
    }

    /// What was asked of it, in order.
    pub fn asked(&self) -> &[MemoryCall]
        ensures { result.now ≡ self.now.asked.items }
    {
        &self.asked
    }

    /// The first entries above the position.
    fn page(&self, after: Option<Position>) -> Result<Vec<(Position, Bytes)>, AllocError>
        ensures above { IfOk result (λ page. All (λ e. IsAbove after e.0) page.items) }
    {
        let mut page = Vec::new(self.alloc);
        for entry in &self.entries {
            if page.len() < PAGE && is_above(after, entry.0) {
                page.push((entry.0, entry.1.clone()?))?;
            }
        }
        Ok(page)
    }

    /// Whether this append is the one that fails, and then whether its entry is kept.
    fn failing(&mut self) -> Option<bool>
        ensures { self.new ≡ record self.old { failure = self.new.failure } }
    {
        let Some(Failure { after, kept }) = self.failure else {
            return None;
        };
        let Some(after) = after.checked_sub(1) else {
            self.failure = None;
            return Some(kept);
        };
        self.failure = Some(Failure { after, kept });
        None
    }
}

impl DeltaLog for MemoryLog {
    ghost use Rattle.lw_log.specs.Memory.{calls_of};

    ghost calls = { λ log. Some (calls_of log.asked.items) };

    fn read(&mut self, after: Option<Position>) -> Result<Vec<(Position, Bytes)>, LogFault>
        ensures calls { let old = Some (calls_of self.old.asked.items) in
            let new = Some (calls_of self.new.asked.items) in
            MatchResult result (λ page. Calls old new (read_calls after page.items)) (λ _. Calls old new []) }
        // Each entry stands above the position.
        ensures above { IfOk result (λ page. All (λ e. IsAbove after e.0) page.items) }
    {
        self.asked.reserve(1)?;
        let page = self.page(after)?;
        let told = copy_of(self.alloc, &page)?;
        self.asked.push_reserved(MemoryCall::Read(after, told));
        Ok(page)
    }

    fn append(&mut self, entry: &[u8]) -> Result<Position, LogFault> {
        self.asked.reserve(1)?;
        self.entries.reserve(1)?;
        let bytes = Bytes::copy_from_slice(self.alloc, entry)?;
        let told = bytes.clone()?;
        let Some(count) = self.count.checked_add(1) else {
            self.asked.push_reserved(MemoryCall::Tried(told));
            return Err(LogFault::Refused);
        };
        self.count = count;
        let position = Position {
            major: count,
            minor: 0,
        };
        match self.failing() {
            None => {
                self.entries.push_reserved((position, bytes));
                self.asked.push_reserved(MemoryCall::Wrote(position, told));
                Ok(position)
            }
            Some(kept) => {
                if kept {
                    self.entries.push_reserved((position, bytes));
                }
                self.asked.push_reserved(MemoryCall::Tried(told));
                Err(LogFault::Unavailable)
            }
        }
    }

    fn trim(&mut self, upto: Position) -> Result<(), LogFault> {
        self.asked.reserve(1)?;
        self.entries.retain(|entry| upto < entry.0);
        self.asked.push_reserved(MemoryCall::Trimmed(upto));
        Ok(())
    }

    fn is_alone(&self) -> bool {
        false
    }
}
