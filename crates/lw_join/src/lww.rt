use crate::exact::Exact;
use crate::join::{Calm, Join};
use lw_stamp::{NoMemory, Stamp};

/// A register whose last writer wins: nothing, or a value with the stamp that wrote it.
///
/// Nothing is below every write, and of two writes the greater counts, by stamp and then by value.
#[derive(PartialEq, Eq, Drop)]
pub struct Lww<V> {
    pub write: Option<(Stamp, V)>,
}

impl<V: Exact> Join for Lww<V> {
    ghost use Rattle.lw_join.specs.Lww.{lww_below, lww_join};
    ghost use Rattle.lw_join.specs.LwwLaws.{lww_laws};

    ghost below = { lww_below V.cmp };

    ghost join = { lww_join V.cmp };

    ghost in_place = { λ _ _. Unit {0} };

    ghost laws = { lww_laws (record { total = V.total; exact = V.exact }) };

    fn le(&self, other: &Lww<V>) -> bool {
        match (&self.write, &other.write) {
            (None, _) => true,
            (Some(_), None) => false,
            (Some(x), Some(y)) => x.cmp(y).is_le(),
        }
    }

    fn join_with(&mut self, other: Lww<V>) -> Result<(), NoMemory> {
        self.join_calm(other);
        Ok(())
    }
}

impl<V: Exact> Calm for Lww<V> {
    ghost is_calm = { λ _ _. tt };

    fn join_calm(&mut self, other: Lww<V>) {
        if !other.le(self) {
            *self = other;
        }
    }
}
