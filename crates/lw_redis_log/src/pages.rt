//! The entries of a stream as those of a log.

ghost use Rattle.std.specs.Prelude.{◌≡◌, Any, IfOk, MatchResult, OnErr, IfErr};
ghost use Rattle.lw_redis_log.specs.declared.pages.PageFault.TheVariants.{NoMemory as OutOfMemory, Malformed as NoIds};
ghost use Rattle.lw_redis_log.specs.Pages.{IsPlaced, IsPage, HasNoId, id_at};

use lw_log::{Bytes, Position};
use lw_resp::{Entry, StreamId};
use std::alloc::{AllocError, AllocFailed, Global};

/// Why entries of a stream are none of a log.
#[derive(Clone, Copy, PartialEq, Eq, Debug)]
pub enum PageFault {
    /// An identifier is none.
    Malformed,
    /// A growth was refused.
    NoMemory,
}

impl From<AllocError> for PageFault {
    ghost from_gives = { λ _ fault. fault ≡ OutOfMemory };

    fn from(_error: AllocError) -> PageFault {
        PageFault::NoMemory
    }
}

impl<T: Drop> From<AllocFailed<T>> for PageFault {
    ghost from_gives = { λ _ fault. fault ≡ OutOfMemory };

    fn from(_error: AllocFailed<T>) -> PageFault {
        PageFault::NoMemory
    }
}

/// The position of an identifier.
pub(crate) fn position_of(id: StreamId) -> Position
    ensures { id_at result ≡ id }
{
    Position {
        major: id.major,
        minor: id.minor,
    }
}

/// The identifier of a position.
pub(crate) fn id_of(position: Position) -> StreamId
    ensures { result ≡ id_at position }
{
    StreamId {
        major: position.major,
        minor: position.minor,
    }
}

/// The entry of a log that one of a stream is. A foreign one has no bytes.
fn placed(alloc: Global, entry: &Entry<'_>) -> Result<(Position, Bytes), PageFault>
    ensures placed { IfOk result (λ p. IsPlaced entry.now p) }
    ensures malformed { IfErr result (λ fault. fault ≡ NoIds → HasNoId entry.now) }
{
    let Some(id) = StreamId::read(entry.id) else {
        return Err(PageFault::Malformed);
    };
    let bytes = Bytes::copy_from_slice(alloc, entry.value.unwrap_or(b""))?;
    Ok((position_of(id), bytes))
}

/// The positions of the entries, and their bytes. One with other fields than `e` has no bytes.
pub fn page_of(alloc: Global, entries: &[Entry<'_>]) -> Result<Vec<(Position, Bytes)>, PageFault>
    ensures page { IfOk result (λ page. IsPage entries.now page.items) }
    ensures malformed { IfErr result (λ fault. fault ≡ NoIds → Any HasNoId entries.now) }
{
    let mut page = Vec::with_capacity(alloc, entries.len())?;
    for entry in entries {
        page.push(placed(alloc, entry)?)?;
    }
    Ok(page)
}
