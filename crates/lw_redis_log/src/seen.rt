//! What is remembered of a stream, by which a loss is noticed.

use crate::commands::ReadFrom;
use crate::marks::{Arrival, Mark, arrival_in, behind, is_looked_for};
use crate::pages::id_of;
use lw_log::{Bytes, Position};
use lw_resp::StreamId;

/// The entries that the stream has to have.
#[derive(Drop)]
pub(crate) struct Seen {
    /// The last entry that was read.
    last: Option<Mark>,
    /// The last entry that was appended, until it is read.
    own: Option<Mark>,
    /// How many readings did without looking for the last entry.
    readings: u64,
}

impl Seen {
    /// Nothing is remembered.
    pub(crate) fn new() -> Seen {
        Seen {
            last: None,
            own: None,
            readings: 0,
        }
    }

    /// Where a reading above a position begins. The entry that was read last is looked for by the way, but a large one
    /// not each time, unless it has to be.
    pub(crate) fn from(&self, after: Option<StreamId>, must_look: bool) -> ReadFrom {
        let Some(after) = after else {
            return ReadFrom::First;
        };
        match &self.last {
            Some(last)
                if last.id == after && (must_look || is_looked_for(last.length, self.readings)) => {
                ReadFrom::At(after)
            }
            _ => ReadFrom::Above(after),
        }
    }

    /// What of a page was not read before; none where the stream has lost something that it has to have.
    pub(crate) fn take(
        &mut self,
        from: ReadFrom,
        page: Vec<(Position, Bytes)>,
    ) -> Option<Vec<(Position, Bytes)>> {
        let new = self.without_last(from, page)?;
        if let Some(own) = &self.own {
            match arrival_in(own, position_of_start(from), &new) {
                Arrival::Came => self.own = None,
                Arrival::Due => {}
                Arrival::Gone => return None,
            }
        }
        Some(new)
    }

    fn without_last(
        &mut self,
        from: ReadFrom,
        page: Vec<(Position, Bytes)>,
    ) -> Option<Vec<(Position, Bytes)>> {
        if let (ReadFrom::At(_), Some(last)) = (from, &self.last) {
            self.readings = 0;
            return behind(last, page);
        }
        self.readings = self.readings.saturating_add(1);
        Some(page)
    }

    /// Remembers the last entry of what was read.
    pub(crate) fn note_page(&mut self, from: ReadFrom, page: &[(Position, Bytes)]) {
        match page.last() {
            Some((position, bytes)) => self.last = Some(Mark::of(id_of(*position), bytes)),
            None if from == ReadFrom::First => self.last = None,
            None => {}
        }
    }

    /// Remembers what was appended. Whether its identifier is above all that was read and appended before.
    pub(crate) fn note_append(&mut self, id: StreamId, entry: &[u8]) -> bool {
        if is_at_or_above(&self.last, id) || is_at_or_above(&self.own, id) {
            return false;
        }
        self.own = Some(Mark::of(id, entry));
        true
    }

    /// What stands at or below an identifier is not there any more.
    pub(crate) fn note_trim(&mut self, upto: StreamId) {
        self.last = self.last.filter(|last| upto < last.id);
        self.own = self.own.filter(|own| upto < own.id);
    }
}

/// The position that a reading has the entries above, where there is one.
fn position_of_start(from: ReadFrom) -> Option<StreamId> {
    match from {
        ReadFrom::First => None,
        ReadFrom::Above(id) | ReadFrom::At(id) => Some(id),
    }
}

fn is_at_or_above(mark: &Option<Mark>, id: StreamId) -> bool {
    match mark {
        Some(mark) => mark.id >= id,
        None => false,
    }
}
