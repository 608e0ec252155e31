//! Attributes, one after another.

ghost use Rattle.std.specs.Prelude.{◌≡◌, ℕ, ◌-◌, List, length, IfOk, IfErr};
ghost use Rattle.std.specs.Option.{option_copied};
ghost use Rattle.lw_join.specs.declared.last.Last.{Last as Lasts};
ghost use Rattle.lw_delta.specs.Part.{Found, Fails, optional};
ghost use Rattle.lw_delta.specs.Format.{attribute_name as name_part, attribute_value as value_part, attribute as attribute_part, attributes as attributes_part};

use crate::DeltaFault;
use crate::lent::LentAttribute;
use crate::numbers::{byte, stamp, tag};
use crate::values::{is_above, text};
use lw_reg::is_attribute_name;

/// The most bytes of a name and a value together, which stand on the two sides of `=` in a query of 255.
const MAX_PAIR_LENGTH: usize = 254;

fn name<'a>(after: Option<&str>, bytes: &'a [u8]) -> Result<(&'a str, &'a [u8]), DeltaFault>
    ensures found { IfOk result (λ x. Found (name_part (option_copied after.entry)) bytes.now x.0.now x.1.now) }
    ensures fault { IfErr result (Fails (name_part (option_copied after.entry)) bytes.now) }
{
    let (count, rest) = byte(bytes)?;
    if count == 0 {
        return Err(DeltaFault::Range);
    }
    let (name, rest) = text(rest, count)?;
    if !is_attribute_name(name) {
        return Err(DeltaFault::Text);
    }
    if !is_above(after, name) {
        return Err(DeltaFault::Order);
    }
    Ok((name, rest))
}

/// The most bytes of a value behind that name.
fn room_behind(name: &str) -> usize
    ensures { result ≡ 254 - length name.now }
{
    MAX_PAIR_LENGTH.saturating_sub(name.len())
}

fn value<'a>(name: &str, bytes: &'a [u8]) -> Result<(&'a str, &'a [u8]), DeltaFault>
    ensures found { IfOk result (λ x. Found (value_part name.now) bytes.now x.0.now x.1.now) }
    ensures fault { IfErr result (Fails (value_part name.now) bytes.now) }
{
    let (count, rest) = byte(bytes)?;
    if count as usize > room_behind(name) {
        return Err(DeltaFault::Range);
    }
    text(rest, count)
}

fn attribute<'a>(
    clock: u64,
    after: Option<&str>,
    bytes: &'a [u8],
) -> Result<(LentAttribute<'a>, &'a [u8]), DeltaFault>
    ensures found { IfOk result (λ x. Found (attribute_part clock (option_copied after.entry)) bytes.now x.0 x.1.now) }
    ensures fault { IfErr result (Fails (attribute_part clock (option_copied after.entry)) bytes.now) }
{
    let (name, rest) = name(after, bytes)?;
    let (stamp, rest) = stamp(clock, rest)?;
    let (value, rest) = value(name, rest)?;
    Ok((LentAttribute { name, stamp, value }, rest))
}

/// The next attribute, or none at the end of the attributes.
pub(crate) fn next_attribute<'a>(
    clock: u64,
    after: Option<&str>,
    bytes: &'a [u8],
) -> Result<(Option<LentAttribute<'a>>, &'a [u8]), DeltaFault>
    ensures found { IfOk result (λ x.
        Found (optional (attribute_part clock (option_copied after.entry))) bytes.now x.0 x.1.now) }
    ensures fault { IfErr result (Fails (optional (attribute_part clock (option_copied after.entry))) bytes.now) }
{
    let (present, rest) = tag(bytes)?;
    if !present {
        return Ok((None, rest));
    }
    let (attribute, rest) = attribute(clock, after, rest)?;
    Ok((Some(attribute), rest))
}

/// Walks all attributes, takes no memory, and tells how many they are. What stands behind them is left.
pub(crate) fn check_attributes(clock: u64, bytes: &[u8]) -> Result<(usize, &[u8]), DeltaFault>
    ensures found { IfOk result (λ x. (es : List (List ℕ × Lasts (List ℕ)))
        × Found (attributes_part clock) bytes.now es x.1.now × (x.0 ≡ length es)) }
    ensures fault { IfErr result (Fails (attributes_part clock) bytes.now) }
{
    let mut count = 0;
    let mut after = None;
    let mut rest = bytes;
    loop {
        let (next, behind) = next_attribute(clock, after, rest)?;
        rest = behind;
        let Some(attribute) = next else {
            return Ok((count, rest));
        };
        count += 1;
        after = Some(attribute.name());
    }
}
