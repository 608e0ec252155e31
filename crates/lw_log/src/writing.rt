//! Writing an entry.

ghost use Rattle.std.specs.Prelude.{◌≡◌, ◌++◌, OnOk};
ghost use Rattle.lw_log.specs.Entries.{content_of, entry_bytes};
ghost use Rattle.lw_log.specs.inner.Writing.{head_bytes, tail_bytes};

use crate::{Body, Entry};
use lw_stamp::NoMemory;

/// What stands before the kind of an entry.
fn put_head(out: &mut Vec<u8>, entry: &Entry<'_>) -> Result<(), NoMemory>
    ensures { OnOk result (out.new.items ≡ out.old.items ++ head_bytes entry.now) }
{
    out.extend_from_slice(b"LWE1")?;
    out.extend_from_slice(&entry.fleet.bytes)?;
    out.extend_from_slice(&entry.start.number.to_be_bytes())?;
    out.extend_from_slice(&entry.start.tag.to_be_bytes())?;
    out.extend_from_slice(&entry.sequence.to_be_bytes())?;
    Ok(())
}

/// The kind of an entry, and its body.
fn put_body(out: &mut Vec<u8>, body: &Body<'_>) -> Result<(), NoMemory>
    ensures { OnOk result (out.new.items ≡ out.old.items ++ tail_bytes body.now) }
{
    match body {
        Body::Start => out.push(0)?,
        Body::Delta(delta) => {
            out.push(1)?;
            out.extend_from_slice(delta)?;
        }
        Body::Snapshot {
            used_numbers,
            delta,
        } => {
            out.push(2)?;
            out.extend_from_slice(*used_numbers)?;
            out.extend_from_slice(delta)?;
        }
    }
    Ok(())
}

/// Writes the bytes of an entry behind what is there. Where a growth is refused, a part of them may stand there.
pub fn put_entry(out: &mut Vec<u8>, entry: &Entry<'_>) -> Result<(), NoMemory>
    ensures { OnOk result (out.new.items ≡ out.old.items ++ entry_bytes (content_of entry.now)) }
{
    put_head(out, entry)?;
    put_body(out, &entry.body)
}
