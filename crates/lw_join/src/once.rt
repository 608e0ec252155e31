use crate::exact::Exact;
use crate::join::{Calm, Join};
use lw_stamp::NoMemory;

/// Nothing, or a value. Nothing is below every value, and of two values the greater counts.
#[derive(PartialEq, Eq, Drop)]
pub struct Once<V> {
    pub value: Option<V>,
}

impl<V: Exact> Join for Once<V> {
    ghost use Rattle.lw_join.specs.Once.{once_below, once_join};
    ghost use Rattle.lw_join.specs.OnceLaws.{once_laws};

    ghost below = { once_below V.cmp };

    ghost join = { once_join V.cmp };

    ghost in_place = { λ _ _. Unit {0} };

    ghost laws = { once_laws (record { total = V.total; exact = V.exact }) };

    fn le(&self, other: &Once<V>) -> bool {
        match (&self.value, &other.value) {
            (None, _) => true,
            (Some(_), None) => false,
            (Some(x), Some(y)) => x.cmp(y).is_le(),
        }
    }

    fn join_with(&mut self, other: Once<V>) -> Result<(), NoMemory> {
        self.join_calm(other);
        Ok(())
    }
}

impl<V: Exact> Calm for Once<V> {
    ghost is_calm = { λ _ _. tt };

    fn join_calm(&mut self, other: Once<V>) {
        if !other.le(self) {
            *self = other;
        }
    }
}
