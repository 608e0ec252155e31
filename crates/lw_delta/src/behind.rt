//! What stands behind the fields of a slot.

ghost use Rattle.std.specs.Prelude.{◌≡◌, ℕ, List, Option, IfOk, IfErr};
ghost use Rattle.lw_stamp.specs.declared.stamp.Stamp.{Stamp as Stamps};
ghost use Rattle.lw_join.specs.declared.last.Last.{Last as Lasts};
ghost use Rattle.lw_delta.specs.Part.{Found, Fails, when};
ghost use Rattle.lw_delta.specs.Format.{attributes as attributes_part, ended as ended_part, behind as behind_part};
ghost use Rattle.lw_delta.specs.Values.{end_from};
ghost use Rattle.lw_delta.specs.inner.Lent.{BehindAt};

use crate::DeltaFault;
use crate::attributes::check_attributes;
use crate::form::{Form, has_attributes, has_end};
use crate::parse::Parse;
use crate::watches::check_watches;
use lw_stamp::Stamp;

/// What stands behind the fields, in the bytes of a delta.
#[derive(Drop)]
pub(crate) struct LentBehind<'a> {
    /// The bytes from the fields on.
    pub bytes: &'a [u8],
    pub attribute_count: usize,
    pub ended: Option<Stamp>,
    /// The bytes from the watches on.
    pub watches: &'a [u8],
    pub watch_count: usize,
}

/// How many attributes there are, and what stands behind them. A format may have none.
fn check_attributes_if(
    present: bool,
    clock: u64,
    bytes: &[u8],
) -> Result<(usize, &[u8]), DeltaFault>
    ensures found { IfOk result (λ x. (es : Option (List (List ℕ × Lasts (List ℕ))))
        × Found (when present (attributes_part clock)) bytes.now es x.1.now) }
    ensures fault { IfErr result (Fails (when present (attributes_part clock)) bytes.now) }
{
    if !present {
        return Ok((0, bytes));
    }
    check_attributes(clock, bytes)
}

/// Up to which stamp what was seen is over, and what stands behind it. A format may not tell.
fn ended_if(present: bool, clock: u64, bytes: &[u8]) -> Result<(Option<Stamp>, &[u8]), DeltaFault>
    ensures found { IfOk result (λ x. (said : Option (Option Stamps))
        × Found (when present (ended_part clock)) bytes.now said x.1.now × (x.0 ≡ end_from said)) }
    ensures fault { IfErr result (Fails (when present (ended_part clock)) bytes.now) }
{
    if !present {
        return Ok((None, bytes));
    }
    Option::<Stamp>::parse(clock, false, bytes)
}

/// Walks what stands behind the fields, and takes no memory.
pub(crate) fn check_behind(
    form: Form,
    clock: u64,
    bytes: &[u8],
) -> Result<(LentBehind<'_>, &[u8]), DeltaFault>
    ensures found { IfOk result (λ x. BehindAt form clock bytes.now x.0 x.1.now) }
    ensures fault { IfErr result (Fails (behind_part form clock) bytes.now) }
{
    let (attribute_count, rest) = check_attributes_if(has_attributes(form), clock, bytes)?;
    let (ended, watches) = ended_if(has_end(form), clock, rest)?;
    let (watch_count, rest) = check_watches(clock, watches)?;
    let behind = LentBehind {
        bytes,
        attribute_count,
        ended,
        watches,
        watch_count,
    };
    Ok((behind, rest))
}
