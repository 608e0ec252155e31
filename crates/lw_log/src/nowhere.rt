//! A log that keeps nothing.

ghost use Rattle.std.specs.Prelude.{◌≡◌};

use crate::{DeltaLog, LogFault, Position};
use bytes::Bytes;
use std::alloc::Global;

/// Keeps nothing, and counts what is appended.
#[derive(Drop)]
pub struct Nowhere {
    alloc: Global,
    count: u64,
}

impl Nowhere {
    /// One to which nothing was appended.
    pub fn new(alloc: Global) -> Nowhere
        ensures { result.count ≡ 0 }
    {
        Nowhere { alloc, count: 0 }
    }
}

impl DeltaLog for Nowhere {
    ghost use Rattle.std.specs.Prelude.{true};

    ghost alone = { true };

    fn read(&mut self, _after: Option<Position>) -> Result<Vec<(Position, Bytes)>, LogFault> {
        Ok(Vec::new(self.alloc))
    }

    fn append(&mut self, _entry: &[u8]) -> Result<Position, LogFault> {
        let Some(count) = self.count.checked_add(1) else {
            return Err(LogFault::Refused);
        };
        self.count = count;
        Ok(Position {
            major: count,
            minor: 0,
        })
    }

    fn trim(&mut self, _upto: Position) -> Result<(), LogFault> {
        Ok(())
    }

    fn is_alone(&self) -> bool {
        true
    }
}
