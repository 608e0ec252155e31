//! The numbers of a path, with a slash between each two.

ghost use Rattle.std.specs.Prelude.{ℕ, List, IfSome, IfNone};
ghost use Rattle.lw_path.specs.PathText.{IsStep};
ghost use Rattle.lw_path.specs.inner.Steps.{IsSlashed};

use crate::number::read_number;
use lw_reg::Path;

/// What a part of a path spells.
pub(crate) trait Part: Drop {
    /// The texts that spell it.
    ghost spells: { Self → List ℕ → Type 0 };

    fn read(text: &str) -> Option<Self>
    where
        Self: Sized,
        ensures found { IfSome result (λ part. spells part text.now) }
        ensures none { IfNone result ((part : Self) → ¬ spells part text.now) };
}

/// A number of a path.
#[derive(Drop)]
pub(crate) struct Step(pub u16);

/// What stands before a slash and behind it.
#[derive(Drop)]
pub(crate) struct Slashed<A, B>(pub A, pub B);

pub(crate) type Two = Slashed<Step, Step>;

pub(crate) type Three = Slashed<Step, Two>;

pub(crate) type Four = Slashed<Step, Three>;

impl Part for Step {
    ghost spells = { λ step text. IsStep step.0 text };

    fn read(text: &str) -> Option<Step> {
        let number = read_number(text)?;
        if number > Path::MAX_NUMBER {
            return None;
        }
        Some(Step(number))
    }
}

impl<A: Part, B: Part> Part for Slashed<A, B> {
    ghost spells = { λ x text. IsSlashed A.spells B.spells x.0 x.1 text };

    fn read(text: &str) -> Option<Slashed<A, B>> {
        let (first, others) = text.split_once('/')?;
        Some(Slashed(A::read(first)?, B::read(others)?))
    }
}
