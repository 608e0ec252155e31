//! What keeps the entries of a fleet.

use crate::{LogFault, Position};
use bytes::Bytes;

/// The most entries that a reading gives.
pub const PAGE: usize = 256;

/// A log that keeps entries. Positions rise. Other processes may append and trim at any time.
///
/// A call that answers `NoMemory` has asked nothing of the log.
pub trait DeltaLog: Drop {
    ghost use Rattle.std.specs.Prelude.{◌≡◌, Bool, true, false, Option, None, List, [], MatchResult};
    ghost use Rattle.lw_log.specs.Calls.{LogCall, Calls, read_calls, append_calls, trim_calls};

    /// What was asked of it, in order, where that is known.
    ghost calls: { Self → Option (List LogCall) } = { λ _. None };

    /// Whether such a log can be one to which no other process appends.
    ghost alone: { Bool } = { false };

    /// The first entries above the position, in order, 256 at most. Fewer than 256 are the end.
    fn read(&mut self, after: Option<Position>) -> Result<Vec<(Position, Bytes)>, LogFault>
        ensures { MatchResult result (λ page. Calls (calls self.old) (calls self.new) (read_calls after page.items))
            (λ _. Calls (calls self.old) (calls self.new) []) };

    /// Appends an entry. At Ok it is durable. At another Err than `NoMemory` it may be there, or come to be there.
    fn append(&mut self, entry: &[u8]) -> Result<Position, LogFault>
        ensures { Calls (calls self.old) (calls self.new) (append_calls entry.now result) };

    /// Has the entries at or below the position go.
    fn trim(&mut self, upto: Position) -> Result<(), LogFault>
        ensures { Calls (calls self.old) (calls self.new) (trim_calls upto result) };

    /// Whether no other process can append to it. Then what was appended need not be read.
    fn is_alone(&self) -> bool
        ensures { result ≡ true → alone ≡ true };
}
