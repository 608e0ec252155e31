//! Watches, one after another.

ghost use Rattle.std.specs.Prelude.{◌≡◌, ◌≤◌, ◌↔◌, List, length, IsTrue, IfOk, IfErr, take};
ghost use Rattle.std.specs.Option.{option_copied};
ghost use Rattle.lw_reg.specs.declared.path.Path.{Path as Paths};
ghost use Rattle.lw_reg.specs.Body.{Watching as Watchings};
ghost use Rattle.lw_reg.specs.Orders.{path_cmp};
ghost use Rattle.lw_delta.specs.Order.{IsAbove};
ghost use Rattle.lw_delta.specs.Part.{Found, Fails, optional};
ghost use Rattle.lw_delta.specs.Format.{path_number as path_number_part, numbers as numbers_part, path as path_part, watch as watch_part, watches as watches_part};
ghost use Rattle.lw_delta.specs.Values.{watching_from};

use crate::DeltaFault;
use crate::numbers::{byte, is_set, is_within, number16, stamp, tag};
use crate::parse::parse_if;
use lw_join::{Lex, Once, OrGone};
use lw_reg::{Path, Watching};
use lw_stamp::Stamp;

/// An accept is there.
pub(crate) const OBSERVED: u8 = 1;

pub(crate) const CANCELLED: u8 = 2;

fn path_number(bytes: &[u8]) -> Result<(u16, &[u8]), DeltaFault>
    ensures found { IfOk result (λ x. Found path_number_part bytes.now x.0 x.1.now) }
    ensures fault { IfErr result (Fails path_number_part bytes.now) }
{
    let (number, rest) = number16(bytes)?;
    if number > Path::MAX_NUMBER {
        return Err(DeltaFault::Range);
    }
    Ok((number, rest))
}

/// The numbers of a path, and zeros up to four.
fn path_numbers(bytes: &[u8], count: usize) -> Result<([u16; 4], &[u8]), DeltaFault>
    requires { count ≤ 4 }
    ensures found { IfOk result (λ x. Found (numbers_part count) bytes.now (take count x.0) x.1.now) }
    ensures fault { IfErr result (Fails (numbers_part count) bytes.now) }
{
    let mut numbers = [0; 4];
    let mut rest = bytes;
    for n in 0..count {
        let (number, behind) = path_number(rest)?;
        numbers[n] = number;
        rest = behind;
    }
    Ok((numbers, rest))
}

fn is_above(after: Option<Path>, path: &Path) -> bool
    ensures { IsTrue result ↔ IsAbove path_cmp after path.now }
{
    match after {
        None => true,
        Some(before) => before < *path,
    }
}

fn path(after: Option<Path>, bytes: &[u8]) -> Result<(Path, &[u8]), DeltaFault>
    ensures found { IfOk result (λ x. Found (path_part after) bytes.now x.0 x.1.now) }
    ensures fault { IfErr result (Fails (path_part after) bytes.now) }
{
    let (count, rest) = byte(bytes)?;
    if !is_within(count as usize, Path::MAX_LENGTH) {
        return Err(DeltaFault::Range);
    }
    let (numbers, rest) = path_numbers(rest, count as usize)?;
    let Some(path) = Path::new(&numbers[..count as usize]) else {
        unreachable!()
    };
    if !is_above(after, &path) {
        return Err(DeltaFault::Order);
    }
    Ok((path, rest))
}

/// Of a cancelled watch the token alone is kept.
fn watching(token: Stamp, gone: bool, accept: Option<Option<u16>>) -> Watching
    ensures { result ≡ watching_from token gone accept }
{
    let value = if gone {
        OrGone::Gone
    } else {
        let value = accept.flatten();
        OrGone::Here(Once { value })
    };
    Lex {
        stamp: token,
        value,
    }
}

fn watch(
    clock: u64,
    after: Option<Path>,
    bytes: &[u8],
) -> Result<((Path, Watching), &[u8]), DeltaFault>
    ensures found { IfOk result (λ x. Found (watch_part clock after) bytes.now x.0 x.1.now) }
    ensures fault { IfErr result (Fails (watch_part clock after) bytes.now) }
{
    let (path, rest) = path(after, bytes)?;
    let (token, rest) = stamp(clock, rest)?;
    let (flags, rest) = byte(rest)?;
    if !is_within(flags as usize, 3) {
        return Err(DeltaFault::Range);
    }
    let (accept, rest) = parse_if(is_set(flags, OBSERVED), clock, false, rest)?;
    let watching = watching(token, is_set(flags, CANCELLED), accept);
    Ok(((path, watching), rest))
}

/// The next watch, or none at the end of the watches.
pub(crate) fn next_watch(
    clock: u64,
    after: Option<Path>,
    bytes: &[u8],
) -> Result<(Option<(Path, Watching)>, &[u8]), DeltaFault>
    ensures found { IfOk result (λ x. Found (optional (watch_part clock after)) bytes.now x.0 x.1.now) }
    ensures fault { IfErr result (Fails (optional (watch_part clock after)) bytes.now) }
{
    let (present, rest) = tag(bytes)?;
    if !present {
        return Ok((None, rest));
    }
    let (entry, rest) = watch(clock, after, rest)?;
    Ok((Some(entry), rest))
}

/// Walks all watches, takes no memory, and tells how many they are. What stands behind them is left.
pub(crate) fn check_watches(clock: u64, bytes: &[u8]) -> Result<(usize, &[u8]), DeltaFault>
    ensures found { IfOk result (λ x. (ws : List (Paths × Watchings))
        × Found (watches_part clock) bytes.now ws x.1.now × (x.0 ≡ length ws)) }
    ensures fault { IfErr result (Fails (watches_part clock) bytes.now) }
{
    let mut count = 0;
    let mut after = None;
    let mut rest = bytes;
    loop {
        let (entry, behind) = next_watch(clock, after, rest)?;
        rest = behind;
        let Some((path, _)) = entry else {
            return Ok((count, rest));
        };
        count += 1;
        after = Some(path);
    }
}
