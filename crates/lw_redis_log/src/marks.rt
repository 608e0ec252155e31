//! Entries that are known again, and what a page tells of them.

ghost use Rattle.std.specs.Prelude.{◌≡◌, ◌↔◌, ◌≤◌, ◌+◌, ◌*◌, Any, IsTrue, IfSome, IfNone, List, ℕ};
ghost use Rattle.lw_resp.specs.StreamIds.{IsAbove};
ghost use Rattle.lw_log.specs.declared.position.Position.{Position as Positions};
ghost use Rattle.lw_redis_log.specs.Marks.{mark_of, HasMark, IsBehind, IsArrival};
ghost use Rattle.lw_redis_log.specs.Pages.{id_at};

use crate::pages::id_of;
use lw_log::{Bytes, PAGE, Position};
use lw_resp::StreamId;
use sha2::{Digest, Sha256};

/// How many bytes of entries that were read before are read again in each reading at most, on the mean.
pub const LOOK_SIZE: u64 = 16_384;

/// An entry as it is known again.
#[derive(Clone, Copy, Debug, PartialEq, Eq)]
pub struct Mark {
    pub id: StreamId,
    /// How many bytes it has.
    pub length: usize,
    /// Their SHA-256.
    pub digest: [u8; 32],
}

/// What a page tells of an entry that was appended, and not read before.
#[derive(Clone, Copy, Debug, PartialEq, Eq)]
pub enum Arrival {
    /// It is there.
    Came,
    /// A later page may have it.
    Due,
    /// It should be there, and is not.
    Gone,
}

impl Mark {
    /// That of an entry of these bytes.
    pub fn of(id: StreamId, bytes: &[u8]) -> Mark
        ensures { result ≡ mark_of id bytes.now }
    {
        Mark {
            id,
            length: bytes.len(),
            digest: Sha256::digest(bytes),
        }
    }

    /// Whether it is that of the entry. Where the identifier or the length is another one, no digest is made.
    fn is_of(&self, position: Position, bytes: &[u8]) -> bool
        ensures { IsTrue result ↔ HasMark self.now (position, bytes.now) }
    {
        if position.major != self.id.major || position.minor != self.id.minor {
            return false;
        }
        if bytes.len() != self.length {
            return false;
        }
        Sha256::digest(bytes) == self.digest
    }
}

/// Whether the other identifier is above this one.
fn is_above(id: StreamId, other: StreamId) -> bool
    ensures { IsTrue result ↔ IsAbove id other }
{
    id.major < other.major || (id.major == other.major && id.minor < other.minor)
}

/// What of a page stands behind the entry that it has to begin with; none where it does not.
pub fn behind(mark: &Mark, page: Vec<(Position, Bytes)>) -> Option<Vec<(Position, Bytes)>>
    ensures found { IfSome result (λ rest. IsBehind mark.now page.items rest.items) }
    ensures none { IfNone result ((rest : List (Positions × List ℕ)) → ¬ IsBehind mark.now page.items rest) }
{
    let mut rest = page;
    let Some((position, bytes)) = rest.first() else {
        return None;
    };
    if !mark.is_of(*position, bytes) {
        return None;
    }
    rest.remove(0);
    Some(rest)
}

/// Whether the entry stands in the page.
fn has(mark: &Mark, page: &[(Position, Bytes)]) -> bool
    ensures { IsTrue result ↔ Any (HasMark mark.now) page.now }
{
    page.iter()
        .any(|(position, bytes)| mark.is_of(*position, bytes))
}

/// Whether an entry of the page is at the identifier or above it.
fn reaches(id: StreamId, page: &[(Position, Bytes)]) -> bool
    ensures { IsTrue result ↔ Any (λ e. ¬ IsAbove (id_at e.0) id) page.now }
{
    page.iter()
        .any(|(position, _)| !is_above(id_of(*position), id))
}

/// What a page tells of an entry that was appended, where it has the entries above a position.
pub fn arrival_in(mark: &Mark, after: Option<StreamId>, page: &[(Position, Bytes)]) -> Arrival
    ensures { IsArrival mark.now after page.now result }
{
    if has(mark, page) {
        return Arrival::Came;
    }
    if page.len() < PAGE || reaches(mark.id, page) {
        return Arrival::Gone;
    }
    match after {
        Some(after) if !is_above(after, mark.id) => Arrival::Gone,
        _ => Arrival::Due,
    }
}

/// Whether an entry of so many bytes is read again, where so many readings before did without.
pub fn is_looked_for(length: usize, readings: u64) -> bool
    ensures { IsTrue result ↔ (length ≤ 16384 * (readings + 1)) }
{
    LOOK_SIZE.saturating_mul(readings.saturating_add(1)) >= length as u64
}
