use crate::join::{Calm, Join};
use lw_stamp::{NoMemory, Stamp};
use std::cmp::Ordering;

/// A stamp and a value: the greater stamp wins whole, and at equal stamps the values join.
#[derive(PartialEq, Eq, Drop)]
pub struct Lex<J> {
    pub stamp: Stamp,
    pub value: J,
}

impl<J: Join> Join for Lex<J> {
    ghost use Rattle.lw_join.specs.Lex.{lex_below, lex_join, lex_in_place};
    ghost use Rattle.lw_join.specs.LexLaws.{lex_laws};

    ghost below = { lex_below J.below };

    ghost join = { lex_join J.join };

    ghost in_place = { lex_in_place J.in_place };

    ghost laws = { lex_laws J.laws };

    fn le(&self, other: &Lex<J>) -> bool {
        match self.stamp.cmp(&other.stamp) {
            Ordering::Less => true,
            Ordering::Equal => self.value.le(&other.value),
            Ordering::Greater => false,
        }
    }

    fn join_with(&mut self, other: Lex<J>) -> Result<(), NoMemory> {
        match self.stamp.cmp(&other.stamp) {
            Ordering::Less => {
                *self = other;
                Ok(())
            }
            Ordering::Equal => self.value.join_with(other.value),
            Ordering::Greater => Ok(()),
        }
    }
}

impl<J: Calm> Calm for Lex<J> {
    ghost use Rattle.lw_join.specs.LexLaws.{lex_calm};

    ghost is_calm = { lex_calm J.is_calm };

    fn join_calm(&mut self, other: Lex<J>) {
        match self.stamp.cmp(&other.stamp) {
            Ordering::Less => *self = other,
            Ordering::Equal => self.value.join_calm(other.value),
            Ordering::Greater => {}
        }
    }
}
