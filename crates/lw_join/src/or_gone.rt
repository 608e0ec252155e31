use crate::join::{Calm, Join};
use lw_stamp::NoMemory;

/// A value, or gone for good, which is above every value.
#[derive(PartialEq, Eq, Drop)]
pub enum OrGone<J> {
    Here(J),
    Gone,
}

impl<J: Join> Join for OrGone<J> {
    ghost use Rattle.lw_join.specs.OrGone.{gone_below, gone_join, gone_in_place};
    ghost use Rattle.lw_join.specs.OrGoneLaws.{gone_laws};

    ghost below = { gone_below J.below };

    ghost join = { gone_join J.join };

    ghost in_place = { gone_in_place J.in_place };

    ghost laws = { gone_laws J.laws };

    fn le(&self, other: &OrGone<J>) -> bool {
        match (self, other) {
            (_, OrGone::Gone) => true,
            (OrGone::Gone, OrGone::Here(_)) => false,
            (OrGone::Here(x), OrGone::Here(y)) => x.le(y),
        }
    }

    fn join_with(&mut self, other: OrGone<J>) -> Result<(), NoMemory> {
        match other {
            OrGone::Gone => {
                *self = OrGone::Gone;
                Ok(())
            }
            OrGone::Here(y) => match self {
                OrGone::Gone => Ok(()),
                OrGone::Here(x) => x.join_with(y),
            },
        }
    }
}

impl<J: Calm> Calm for OrGone<J> {
    ghost use Rattle.lw_join.specs.OrGoneLaws.{gone_calm};

    ghost is_calm = { gone_calm J.is_calm };

    fn join_calm(&mut self, other: OrGone<J>) {
        match other {
            OrGone::Gone => *self = OrGone::Gone,
            OrGone::Here(y) => match self {
                OrGone::Gone => {}
                OrGone::Here(x) => x.join_calm(y),
            },
        }
    }
}
