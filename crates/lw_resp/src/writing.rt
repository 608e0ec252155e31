//! Commands.

ghost use Rattle.std.specs.Prelude.{◌≡◌, ◌++◌, length, map, IfOk, OnOk};
ghost use Rattle.lw_resp.specs.Bytes.{bulk_bytes, command_bytes, count_line};

use itoa::Buffer;
use lw_stamp::NoMemory;
use std::alloc::Global;

/// Puts the line of a kind with a number behind what is there.
fn put_count(out: &mut Vec<u8>, kind: u8, count: usize) -> Result<(), NoMemory>
    ensures { OnOk result (out.new.items ≡ out.old.items ++ count_line kind count) }
{
    let mut buffer = Buffer::new();
    out.push(kind)?;
    out.extend_from_slice(buffer.format(count).as_bytes())?;
    out.extend_from_slice(b"\r\n")?;
    Ok(())
}

fn put_bulk(out: &mut Vec<u8>, content: &[u8]) -> Result<(), NoMemory>
    ensures { OnOk result (out.new.items ≡ out.old.items ++ bulk_bytes content.now) }
{
    put_count(out, b'$', content.len())?;
    out.extend_from_slice(content)?;
    out.extend_from_slice(b"\r\n")?;
    Ok(())
}

/// A command, whose name is its first word.
pub fn command(alloc: Global, words: &[&[u8]]) -> Result<Vec<u8>, NoMemory>
    ensures { IfOk result (λ bytes. bytes.items ≡ command_bytes (map (λ word. word.now) words.now)) }
{
    let mut out = Vec::new(alloc);
    put_count(&mut out, b'*', words.len())?;
    for word in words {
        put_bulk(&mut out, word)?;
    }
    Ok(out)
}
