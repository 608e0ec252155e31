//! The front of a file.

use std::fs::File;
use std::io::{self, ErrorKind, Read};
use std::os::unix::fs::MetadataExt;

/// The bits of a mode that let others than the owner write.
const OTHERS_WRITE: u32 = 0o022;

/// Reads the front of the file, as far as there is room.
pub(crate) fn read_front(host: &HostRuntime, path: &str, room: &mut [u8]) -> io::Result<usize> {
    let mut file = File::open(host, path)?;
    read_room(&mut file, room)
}

/// The same of a file that its owner alone may write. Any other is refused.
pub(crate) fn read_own_front(host: &HostRuntime, path: &str, room: &mut [u8]) -> io::Result<usize> {
    let mut file = File::open(host, path)?;
    if file.metadata()?.mode() & OTHERS_WRITE != 0 {
        return Err(ErrorKind::PermissionDenied.into());
    }
    read_room(&mut file, room)
}

fn read_room(file: &mut File, room: &mut [u8]) -> io::Result<usize> {
    let mut count = 0usize;
    // A read gives a byte at least, until there are none.
    for _read in 0..room.len() {
        let Some(rest) = room.get_mut(count..) else {
            break;
        };
        let more = file.read(rest)?;
        if more == 0 {
            break;
        }
        count = count.saturating_add(more);
    }
    Ok(count)
}
