use crate::exact::Exact;
use crate::join::{Calm, Join};
use lw_stamp::{NoMemory, Stamp};

/// A write that is always there: of two the greater counts, by stamp and then by value.
#[derive(PartialEq, Eq, Drop)]
pub struct Last<V> {
    pub write: (Stamp, V),
}

impl<V: Exact> Join for Last<V> {
    ghost use Rattle.lw_join.specs.Last.{last_below, last_join};
    ghost use Rattle.lw_join.specs.LastLaws.{last_laws};

    ghost below = { last_below V.cmp };

    ghost join = { last_join V.cmp };

    ghost in_place = { λ _ _. Unit {0} };

    ghost laws = { last_laws (record { total = V.total; exact = V.exact }) };

    fn le(&self, other: &Last<V>) -> bool {
        self.write.cmp(&other.write).is_le()
    }

    fn join_with(&mut self, other: Last<V>) -> Result<(), NoMemory> {
        self.join_calm(other);
        Ok(())
    }
}

impl<V: Exact> Calm for Last<V> {
    ghost is_calm = { λ _ _. tt };

    fn join_calm(&mut self, other: Last<V>) {
        if !other.le(self) {
            *self = other;
        }
    }
}
