//! The files of the real ports, and whether two names are the same file.

use std::fs::{self, Metadata};
use std::io;
use std::os::unix::fs::{FileTypeExt, MetadataExt};
use std::rt::Files;

/// The buffer size of a port in bytes.
pub(crate) const PIECE: usize = 65536;

/// What a port reads or writes.
#[derive(Debug, Drop)]
pub enum Target {
    /// The file with this name.
    File(String),
    /// Standard input or standard output.
    Standard,
    /// Nothing: the words name no file for this port, and each call fails.
    Nothing,
}

/// The error of a port without a file.
pub(crate) fn no_file() -> io::Error {
    io::Error::from(io::ErrorKind::NotFound)
}

/// The error of a file of the wrong type.
pub(crate) fn unfit() -> io::Error {
    io::Error::from(io::ErrorKind::InvalidInput)
}

/// Whether a call was interrupted, and is to be tried again.
pub(crate) fn is_interrupted(error: &io::Error) -> bool {
    error.kind() == io::ErrorKind::Interrupted
}

/// Whether the file is a regular file or a block device, whose bytes can be read again.
pub(crate) fn keeps_bytes(file: &Metadata) -> bool {
    file.is_file() || file.file_type().is_block_device()
}

/// Whether `name` is this file (the same device and inode), and the file is a regular file or a block device.
pub(crate) fn is_named<R: Files>(rt: &R, name: &str, file: &Metadata) -> bool {
    match fs::metadata(rt, name) {
        Ok(named) => keeps_bytes(file) && named.dev() == file.dev() && named.ino() == file.ino(),
        Err(_) => false,
    }
}
