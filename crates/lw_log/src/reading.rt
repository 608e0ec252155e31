//! Reading an entry, part by part, without taking memory.

ghost use Rattle.std.specs.Prelude.{◌≡◌, ◌↔◌, ◌+◌, ◌<◌, ◌≤◌, IsTrue, IfOk, IfErr, OnOk, IsOkAnd, Err, length};
ghost use Rattle.lw_log.specs.declared.entry_fault.EntryFault.{EntryFault as Faults};
ghost use Rattle.lw_log.specs.Entries.{EntryContent, IsEntry, content_of, body_content};
ghost use Rattle.lw_log.specs.EntryFaults.{HasMagic, HasHead, IsHeadFault, IsBodyFault, IsNewerDelta, IsFault, IsNewer, number_in};
ghost use Rattle.lw_log.specs.inner.Reading.{IsChunk, IsHead, IsBodyOf, IsDelta, IsDeltaFaultOf};

use crate::{Body, Entry, EntryFault, FleetId, Start};
use lw_delta::check;

/// Where the parts of an entry stand.
const FLEET_AT: usize = 4;

const NUMBER_AT: usize = 20;

const TAG_AT: usize = 22;

const SEQUENCE_AT: usize = 30;

const KIND_AT: usize = 38;

const BODY_AT: usize = 39;

/// What stands before the body of an entry.
#[derive(Clone, Copy)]
pub(crate) struct Head<'a> {
    pub fleet: FleetId,
    pub start: Start,
    pub sequence: u64,
    pub kind: u8,
    pub body: &'a [u8],
}

/// So many bytes at a place.
fn chunk<const N: usize>(bytes: &[u8], at: usize) -> Result<[u8; N], EntryFault>
    ensures found { IfOk result (IsChunk bytes.now at N) }
    ensures cut { IfErr result (λ fault. (fault ≡ EntryFault.Truncated) × (length bytes.now < at + N)) }
{
    if bytes.len() < at {
        return Err(EntryFault::Truncated);
    }
    let Some((chunk, _)) = bytes[at..].split_first_chunk::<N>() else {
        return Err(EntryFault::Truncated);
    };
    Ok(*chunk)
}

fn check_magic(bytes: &[u8]) -> Result<(), EntryFault>
    ensures found { OnOk result (HasMagic bytes.now) }
    ensures fault { IfErr result (IsHeadFault bytes.now) }
{
    let magic = chunk::<4>(bytes, 0)?;
    let family = chunk::<3>(bytes, 0)?;
    if family != *b"LWE" {
        return Err(EntryFault::Magic);
    }
    if magic != *b"LWE1" {
        return Err(EntryFault::Newer);
    }
    Ok(())
}

/// The number, behind a magic.
fn number(bytes: &[u8]) -> Result<u16, EntryFault>
    requires { HasMagic bytes.now }
    ensures found { IfOk result (λ number. (22 ≤ length bytes.now) × (1 ≤ number) × (number ≡ number_in bytes.now)) }
    ensures fault { IfErr result (IsHeadFault bytes.now) }
{
    let number = u16::from_be_bytes(chunk(bytes, NUMBER_AT)?);
    if number == 0 {
        return Err(EntryFault::Range);
    }
    Ok(number)
}

fn read_head(bytes: &[u8]) -> Result<Head<'_>, EntryFault>
    ensures found { IfOk result (IsHead bytes.now) }
    ensures fault { IfErr result (IsHeadFault bytes.now) }
{
    check_magic(bytes)?;
    let fleet = FleetId {
        bytes: chunk(bytes, FLEET_AT)?,
    };
    let number = number(bytes)?;
    let tag = u64::from_be_bytes(chunk(bytes, TAG_AT)?);
    let sequence = u64::from_be_bytes(chunk(bytes, SEQUENCE_AT)?);
    let [kind] = chunk::<1>(bytes, KIND_AT)?;
    Ok(Head {
        fleet,
        start: Start { number, tag },
        sequence,
        kind,
        body: &bytes[BODY_AT..],
    })
}

/// Whether a delta begins with `LWD`, and with none of the magics that are read.
fn is_newer_delta(delta: &[u8]) -> bool
    ensures { IsTrue result ↔ IsNewerDelta delta.now }
{
    let (Ok(family), Ok(magic)) = (chunk::<3>(delta, 0), chunk::<4>(delta, 0)) else {
        return false;
    };
    family == *b"LWD" && magic != *b"LWD1" && magic != *b"LWD2" && magic != *b"LWD3"
}

fn check_delta(delta: &[u8]) -> Result<(), EntryFault>
    ensures found { OnOk result (IsDelta delta.now) }
    ensures fault { IfErr result (IsDeltaFaultOf delta.now) }
{
    if is_newer_delta(delta) {
        return Err(EntryFault::Newer);
    }
    match check(delta) {
        Ok(_) => Ok(()),
        Err(fault) => Err(EntryFault::Delta(fault)),
    }
}

fn read_body(kind: u8, body: &[u8]) -> Result<Body<'_>, EntryFault>
    ensures found { IfOk result (λ b. IsBodyOf kind body.now (body_content b)) }
    ensures fault { IfErr result (IsBodyFault kind body.now) }
{
    match kind {
        0 if body.is_empty() => Ok(Body::Start),
        0 => Err(EntryFault::Trailing),
        1 => {
            check_delta(body)?;
            Ok(Body::Delta(body))
        }
        2 => {
            let Some((used_numbers, delta)) = body.split_first_chunk::<8192>() else {
                return Err(EntryFault::Truncated);
            };
            check_delta(delta)?;
            Ok(Body::Snapshot {
                used_numbers,
                delta,
            })
        }
        _ => Err(EntryFault::Range),
    }
}

fn read(bytes: &[u8]) -> Result<Entry<'_>, EntryFault>
    ensures found { IfOk result (λ e. IsEntry bytes.now (content_of e)) }
    ensures fault { IfErr result (IsFault bytes.now) }
{
    let head = read_head(bytes)?;
    let body = read_body(head.kind, head.body)?;
    Ok(Entry {
        fleet: head.fleet,
        start: head.start,
        sequence: head.sequence,
        body,
    })
}

/// The entry that the bytes are, all of them. It takes no memory.
pub fn read_entry(bytes: &[u8]) -> Result<Entry<'_>, EntryFault>
    // What is read is written so.
    ensures found { IfOk result (λ e. IsEntry bytes.now (content_of e)) }
    // What is written so is read.
    ensures only { (e : EntryContent) → IsEntry bytes.now e → IsOkAnd result (λ x. content_of x ≡ e) }
    // Each fault is answered exactly where it is the first from left to right.
    ensures faults { (fault : Faults) → (result ≡ Err fault) ↔ IsFault bytes.now fault }
    ensures newer { (result ≡ Err EntryFault.Newer) ↔ IsNewer bytes.now }
{
    read(bytes)
}
