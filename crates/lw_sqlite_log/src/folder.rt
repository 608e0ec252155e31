//! The folder that the file of a log lies in.

use std::fs::{DirBuilder, OpenOptions};
use std::os::unix::fs::{DirBuilderExt, OpenOptionsExt};
use std::{fs, io};

/// Its owner alone may enter a folder that is made.
const FOLDER_MODE: u32 = 0o700;

/// Its owner alone may read and write a file that is made.
const FILE_MODE: u32 = 0o600;

/// Makes the folder where there is none. One that was made is on the disk, as its name in the folder above it is.
pub(crate) fn make_folder(rt: &HostRuntime, folder: &str) -> io::Result<()> {
    match DirBuilder::new().mode(FOLDER_MODE).create(rt, folder) {
        Ok(()) => {
            let above = format!(in rt.alloc(); "{folder}/..")?;
            fs::File::open(rt, above.as_str())?.sync_all()
        }
        Err(error) if error.kind() == io::ErrorKind::AlreadyExists => Ok(()),
        Err(error) => Err(error),
    }
}

/// Makes the file where there is none: an empty one, which a database is made in. The file beside it gets its mode.
pub(crate) fn make_file(rt: &HostRuntime, path: &str) -> io::Result<()> {
    let made = OpenOptions::new()
        .write(true)
        .create_new(true)
        .mode(FILE_MODE)
        .open(rt, path);
    match made {
        Ok(_file) => Ok(()),
        Err(error) if error.kind() == io::ErrorKind::AlreadyExists => Ok(()),
        Err(error) => Err(error),
    }
}
