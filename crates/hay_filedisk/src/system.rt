//! The file system, and what is asked of it by path.

use std::fs::{DirBuilder, File, Files, OpenOptions};
use std::io::ErrorKind;
use std::os::fd::AsRawFd;
use std::os::unix::fs::{DirBuilderExt, OpenOptionsExt};
use std::path::Path;
use std::{fs, io};

/// What reaches the file system, and the memory for its paths.
pub trait System: Files<File = File> + AllocGlobal + Clone + Drop {}

impl<R: Files<File = File> + AllocGlobal + Clone + Drop> System for R {}

/// The owner alone reads and writes a file that is made.
const FILE_MODE: u32 = 0o600;

/// The owner alone comes into a folder that is made.
const FOLDER_MODE: u32 = 0o700;

/// Opens a file. What is meant for a standard stream that was closed must not land in it.
fn open<R: System>(rt: &R, how: &OpenOptions, path: &str) -> io::Result<File> {
    let opened = how.open(rt, path)?;
    if opened.as_raw_fd() <= 2 {
        return opened.try_clone();
    }
    Ok(opened)
}

/// Opens a file to be read and written, if there is one.
pub(crate) fn open_found<R: System>(rt: &R, path: &str) -> io::Result<Option<File>> {
    match open(rt, OpenOptions::new().read(true).write(true), path) {
        Ok(opened) => Ok(Some(opened)),
        Err(error) if error.kind() == ErrorKind::NotFound => Ok(None),
        Err(error) => Err(error),
    }
}

/// Opens a file to be read and written, and makes it where it is missing.
pub(crate) fn open_or_make<R: System>(rt: &R, path: &str) -> io::Result<File> {
    open(
        rt,
        OpenOptions::new()
            .read(true)
            .write(true)
            .create(true)
            .mode(FILE_MODE),
        path,
    )
}

/// Opens a folder, and makes it where it is missing. An earlier process may have made it and stopped, so the folder that
/// has it is synced in either case.
pub(crate) fn open_folder<R: System>(rt: &R, folder: &str) -> io::Result<File> {
    match DirBuilder::new().mode(FOLDER_MODE).create(rt, folder) {
        Ok(()) => {}
        Err(error) if error.kind() == ErrorKind::AlreadyExists => {}
        Err(error) => return Err(error),
    }
    open_to_sync(rt, parent_of(folder))?.sync_all()?;
    open_to_sync(rt, folder)
}

fn open_to_sync<R: System>(rt: &R, folder: &str) -> io::Result<File> {
    open(rt, OpenOptions::new().read(true), folder)
}

fn parent_of(folder: &str) -> &str {
    match Path::new(folder).parent() {
        Some(parent) if !parent.as_str().is_empty() => parent.as_str(),
        _ => ".",
    }
}

/// Locks a file, which is made where it is missing, until it is dropped. Where another has the lock it fails.
pub(crate) fn lock<R: System>(rt: &R, path: &str) -> io::Result<File> {
    let lock = open_or_make(rt, path)?;
    lock.try_lock()?;
    Ok(lock)
}
