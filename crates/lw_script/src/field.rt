//! The fields of a line, and rows of them with a space between each two.

ghost use Rattle.std.specs.Prelude.{◌≡◌, ◌^◌, ℕ, List, IfSome, IfNone};
ghost use Rattle.std.specs.List.{before_first, after_first};
ghost use Rattle.lw_script.specs.Fields.{◌␣◌, IsShort, IsNumber, IsMoment, IsAddress, IsId, IsAccept, HasSpace, is_space};
ghost use Rattle.lw_script.specs.inner.Fields.{IsRest};
ghost use Rattle.lw_stamp.specs.declared.moment.Moment.{Moment as Moments};

use crate::number::is_plain;
use lw_stamp::{Moment, Stamp};
use lw_world::Addr;

/// A value that a field spells, or that several fields spell.
pub(crate) trait Field: Drop {
    /// The texts that spell the value.
    ghost spells: { Self → List ℕ → Type 0 };

    fn read(text: &str) -> Option<Self>
    where
        Self: Sized,
        ensures found { IfSome result (λ value. spells value text.now) }
        ensures none { IfNone result ((value : Self) → ¬ spells value text.now) };
}

impl<A: Field, B: Field> Field for (A, B) {
    ghost spells = { A.spells ␣ B.spells };

    fn read(text: &str) -> Option<(A, B)> {
        let (first, others) = text.split_once(' ')?;
        Some((A::read(first)?, B::read(others)?))
    }
}

impl Field for u16 {
    ghost spells = { IsShort };

    fn read(text: &str) -> Option<u16> {
        if !is_plain(text) {
            return None;
        }
        text.parse().ok()
    }
}

impl Field for u32 {
    ghost spells = { IsNumber (2 ^ 32) };

    fn read(text: &str) -> Option<u32> {
        if !is_plain(text) {
            return None;
        }
        text.parse().ok()
    }
}

impl Field for u64 {
    ghost spells = { IsNumber (2 ^ 64) };

    fn read(text: &str) -> Option<u64> {
        if !is_plain(text) {
            return None;
        }
        text.parse().ok()
    }
}

impl Field for Moment {
    ghost spells = { IsMoment };

    fn read(text: &str) -> Option<Moment> {
        Moment::new(u64::read(text)?)
    }
}

impl Field for Addr {
    ghost spells = { IsAddress };

    fn read(text: &str) -> Option<Addr> {
        Addr::read(text)
    }
}

impl Field for Stamp {
    ghost spells = { IsId };

    fn read(text: &str) -> Option<Stamp> {
        Stamp::read_id(text.as_bytes())
    }
}

impl Field for Option<u16> {
    ghost spells = { IsAccept };

    fn read(text: &str) -> Option<Option<u16>> {
        if text == "-" {
            return Some(None);
        }
        Some(Some(u16::read(text)?))
    }
}

/// The field before the first space, and the text behind it.
pub(crate) fn first<A: Field>(text: &str) -> Option<(A, &str)>
    ensures found { IfSome result (λ x. (A.spells ␣ IsRest) (x.0, x.1.now) text.now) }
    ensures none { IfNone result ((values : A × List ℕ) → ¬ (A.spells ␣ IsRest) values text.now) }
{
    let (field, rest) = text.split_once(' ')?;
    Some((A::read(field)?, rest))
}

/// NODE and MS, and the text behind them.
pub(crate) fn opening(text: &str) -> Option<(u16, Moment, &str)>
    ensures found { IfSome result (λ x. (IsShort ␣ IsMoment ␣ IsRest) (x.0, (x.1, x.2.now)) text.now) }
    ensures none { IfNone result ((values : ℕ × (Moments × List ℕ)) → ¬ (IsShort ␣ IsMoment ␣ IsRest) values text.now) }
{
    let (node, rest) = first(text)?;
    let (now, rest) = first(rest)?;
    Some((node, now, rest))
}
