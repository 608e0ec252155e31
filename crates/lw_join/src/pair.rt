//! Pairs, part by part. The first part may take memory, and the second does not.
ghost use Rattle.lw_join.specs.Pair.{pair_below, pair_join};
ghost use Rattle.lw_join.specs.PairLaws.{pair_laws};

use crate::join::{Calm, Join};
use lw_stamp::NoMemory;

impl<A: Join, B: Calm> Join for (A, B) {
    ghost below = { pair_below A.below B.below };

    ghost join = { pair_join A.join B.join };

    ghost in_place = { λ x y. A.in_place x.0 y.0 };

    ghost laws = { pair_laws A.laws B.laws };

    fn le(&self, other: &(A, B)) -> bool {
        self.0.le(&other.0) && self.1.le(&other.1)
    }

    fn join_with(&mut self, other: (A, B)) -> Result<(), NoMemory> {
        self.0.join_with(other.0)?;
        self.1.join_calm(other.1);
        Ok(())
    }
}

impl<A: Calm, B: Calm> Calm for (A, B) {
    ghost is_calm = { λ x y. A.is_calm x.0 y.0 };

    fn join_calm(&mut self, other: (A, B)) {
        self.0.join_calm(other.0);
        self.1.join_calm(other.1);
    }
}
