ghost use Rattle.std.specs.Prelude.{◌≡◌, ◌≢◌, ◌<◌, ◌≤◌, ◌+◌, ◌↔◌, ◌++◌, ◌⊎◌, ◌==◌, length, take, position, vec_len, IfOk, IfErr, IfSome, OnOk, OnErr, IsErrOf};
ghost use Rattle.std.specs.Io.{ReadsAtMost};
ghost use Rattle.std.specs.Io.KnownBytes.{Consumes, IsAtEnd, Keeps};
ghost use Rattle.lw_fleet.specs.Line.{line_of, longest_line};
ghost use Rattle.lw_fleet.specs.Replay.{longest_script};

use crate::fault::Fault;
use std::alloc::Global;
use std::io::{ErrorKind, Read};

/// How many bytes a line may have, its line feed not counted, and a script or a page with all of its own.
const LONGEST: usize = 1_048_576;

const CHUNK: usize = 4096;

/// Reads the first line, without its line feed. What stands behind it may be read too.
pub fn read_line<R: Read>(alloc: Global, reader: &mut R) -> Result<Vec<u8>, Fault>
    ensures line { IfOk result (λ line. IfSome (R.remaining reader.old) (λ bytes. line.items ≡ line_of bytes)) }
    ensures fits { IfOk result (λ line. vec_len line ≤ longest_line) }
    ensures too_long { result ≡ Err Fault.TooLong
        → IfSome (R.remaining reader.old) (λ bytes. longest_line < length (line_of bytes)) }
    ensures faults { IfErr result (λ e. (e ≡ Fault.ReadFailed) ⊎ (e ≡ Fault.TooLong) ⊎ (e ≡ Fault.NoMemory)) }
{
    let mut line = Vec::new(alloc);
    let mut chunk = [0; CHUNK];
    loop {
        let count = read_some(reader, &mut chunk)?;
        let part = before_feed(&chunk[..count]);
        add_part(&mut line, part)?;
        if count == 0 || part.len() < count {
            return Ok(line);
        }
    }
}

/// Reads all bytes.
pub fn read_all<R: Read>(alloc: Global, reader: &mut R) -> Result<Vec<u8>, Fault>
    ensures all { IfOk result (λ bytes. IfSome (R.remaining reader.old) (λ all. bytes.items ≡ all)) }
    ensures fits { IfOk result (λ bytes. vec_len bytes ≤ longest_script) }
    ensures too_long { result ≡ Err Fault.TooLong
        → IfSome (R.remaining reader.old) (λ all. longest_script < length all) }
    ensures faults { IfErr result (λ e. (e ≡ Fault.ReadFailed) ⊎ (e ≡ Fault.TooLong) ⊎ (e ≡ Fault.NoMemory)) }
{
    let mut bytes = Vec::new(alloc);
    let mut chunk = [0; CHUNK];
    loop {
        let count = read_some(reader, &mut chunk)?;
        if count == 0 {
            return Ok(bytes);
        }
        add_part(&mut bytes, &chunk[..count])?;
    }
}

/// One read, made again where a signal interrupts it.
fn read_some<R: Read>(reader: &mut R, buf: &mut [u8]) -> Result<usize, Fault>
    ensures bound { ReadsAtMost result buf.new }
    ensures bytes { IfOk result (λ n. Consumes (R.remaining reader.old) (R.remaining reader.new) (take n buf.new)) }
    ensures end { IfOk result (λ n. n ≡ 0 → 0 < length buf.old → IsAtEnd (R.remaining reader.new)) }
    ensures fault { IfErr result (λ e. e ≡ Fault.ReadFailed) }
{
    for _ in 0..u64::MAX {
        match reader.read(buf) {
            Ok(count) => return Ok(count),
            Err(error) => {
                if error.kind() != ErrorKind::Interrupted {
                    return Err(Fault::ReadFailed);
                }
            }
        }
    }
    Err(Fault::ReadFailed)
}

fn first_feed(bytes: &[u8]) -> Option<usize>
    ensures { result ≡ position (λ byte. byte == 10) bytes.now }
{
    bytes.iter().position(|byte| *byte == b'\n')
}

fn before_feed(bytes: &[u8]) -> &[u8]
    ensures { result.now ≡ line_of bytes.now }
{
    match first_feed(bytes) {
        Some(feed) => &bytes[..feed],
        None => bytes,
    }
}

fn add_part(bytes: &mut Vec<u8>, part: &[u8]) -> Result<(), Fault>
    requires { vec_len bytes.old ≤ LONGEST }
    ensures added { OnOk result (bytes.new.items ≡ bytes.old.items ++ part.now) }
    ensures fits { OnOk result (vec_len bytes.new ≤ LONGEST) }
    ensures too_long { IsErrOf result Fault.TooLong → LONGEST < vec_len bytes.old + length part.now }
    ensures faults { IfErr result (λ e. (e ≡ Fault.TooLong) ⊎ (e ≡ Fault.NoMemory)) }
{
    if part.len() > LONGEST - bytes.len() {
        return Err(Fault::TooLong);
    }
    bytes.extend_from_slice(part).map_err(|_| Fault::NoMemory)
}
