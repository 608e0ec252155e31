ghost use Rattle.lw_join.specs.Flag.{flag_below, flag_join};
ghost use Rattle.lw_join.specs.FlagLaws.{flag_laws};

use crate::join::{Calm, Join};
use lw_stamp::NoMemory;

/// A flag that is raised once and stays so: false is below true.
#[derive(Clone, Copy, Debug, PartialEq, Eq)]
pub struct Flag {
    pub raised: bool,
}

impl Join for Flag {
    ghost below = { flag_below };

    ghost join = { flag_join };

    ghost in_place = { λ _ _. Unit {0} };

    ghost laws = { flag_laws };

    fn le(&self, other: &Flag) -> bool {
        !self.raised || other.raised
    }

    fn join_with(&mut self, other: Flag) -> Result<(), NoMemory> {
        self.join_calm(other);
        Ok(())
    }
}

impl Calm for Flag {
    ghost is_calm = { λ _ _. tt };

    fn join_calm(&mut self, other: Flag) {
        self.raised |= other.raised;
    }
}
