//! How a file gets its name: written beside it, synced, and then linked or renamed.

use crate::disk::{Disk, is_absence, object_at};
use crate::paths::{SCRATCH, join, parent};
use dk_store::{Put, StoreError};
use std::fs::File;
use std::io::{ErrorKind, Write};
use std::{fs, io};

// An error before anything was done.
pub(crate) fn store_error(error: io::Error) -> StoreError {
    if error.kind() == ErrorKind::OutOfMemory {
        StoreError::OutOfMemory
    } else {
        StoreError::Failed
    }
}

// Makes what a folder says of its files last.
fn sync_folder<R: Disk>(rt: &R, folder: &str) -> io::Result<()> {
    File::open(rt, folder)?.sync_all()
}

// Makes a folder below the root, where it isn't there.
fn make_folder<R: Disk>(rt: &R, root: &str, folder: &str) -> io::Result<()> {
    let path = join(rt.alloc(), root, folder)?;
    match fs::create_dir(rt, path.as_str()) {
        Ok(()) => {
            let above = join(rt.alloc(), root, parent(folder))?;
            sync_folder(rt, above.as_str())
        }
        Err(error) if error.kind() == ErrorKind::AlreadyExists => Ok(()),
        Err(error) => Err(error),
    }
}

// Makes the folders that a path lies in, below the root.
fn make_folders<R: Disk>(rt: &R, root: &str, path: &str) -> io::Result<()> {
    for (end, byte) in path.as_bytes().iter().enumerate() {
        if *byte == b'/'
            && let Some((folder, _)) = path.split_at_checked(end)
        {
            make_folder(rt, root, folder)?;
        }
    }
    Ok(())
}

// A new file in a folder, which nobody else writes to, by its path.
fn new_scratch<R: Disk>(rt: &R, folder: &str, mark: i64) -> io::Result<(String, File)> {
    for n in 0..1000u32 {
        let path = format!(in rt.alloc(); "{folder}/{SCRATCH}{mark}-{n}")?;
        match File::create_new(rt, path.as_str()) {
            Ok(file) => return Ok((path, file)),
            Err(error) if error.kind() == ErrorKind::AlreadyExists => {}
            Err(error) => return Err(error),
        }
    }
    Err(io::Error::from(ErrorKind::AlreadyExists))
}

// Writes and syncs a new file in a folder, by its path. A file that could not be written is taken away.
fn write_scratch<R: Disk>(rt: &R, folder: &str, mark: i64, bytes: &[u8]) -> io::Result<String> {
    let (path, mut file) = new_scratch(rt, folder, mark)?;
    let written = match file.write_all(bytes) {
        Ok(()) => file.sync_all(),
        Err(error) => Err(error),
    };
    match written {
        Ok(()) => Ok(path),
        Err(error) => {
            let _ = fs::remove_file(rt, path.as_str());
            Err(error)
        }
    }
}

// A file that is written and has no name of its own yet: its path, the path that it is to have, and their folder.
#[derive(Drop)]
struct Ready {
    scratch: String,
    target: String,
    folder: String,
}

fn make_ready<R: Disk>(
    rt: &R,
    root: &str,
    path: &str,
    mark: i64,
    bytes: &[u8],
) -> io::Result<Ready> {
    make_folders(rt, root, path)?;
    let folder = join(rt.alloc(), root, parent(path))?;
    let target = join(rt.alloc(), root, path)?;
    let scratch = write_scratch(rt, folder.as_str(), mark, bytes)?;
    Ok(Ready {
        scratch,
        target,
        folder,
    })
}

// Makes the file where none has the name. The name is made by a hard link, which the system refuses where it is taken.
pub(crate) fn make<R: Disk>(
    rt: &R,
    root: &str,
    path: &str,
    mark: i64,
    bytes: &[u8],
) -> Result<Put, StoreError> {
    let ready = make_ready(rt, root, path, mark, bytes).map_err(store_error)?;
    let linked = fs::hard_link(rt, ready.scratch.as_str(), ready.target.as_str());
    let _ = fs::remove_file(rt, ready.scratch.as_str());
    match linked {
        Ok(()) => match sync_folder(rt, ready.folder.as_str()) {
            Ok(()) => Ok(Put::Made),
            Err(_) => Err(StoreError::Failed),
        },
        Err(error) if error.kind() == ErrorKind::AlreadyExists => exists(rt, ready.target.as_str()),
        Err(_) => Err(StoreError::Failed),
    }
}

// The answer where a name is taken: `Exists` where it is that of an object that can be read.
fn exists<R: Disk>(rt: &R, path: &str) -> Result<Put, StoreError> {
    match object_at(rt, path).map_err(store_error)? {
        Some(_) => match File::open(rt, path) {
            Ok(_) => Ok(Put::Exists),
            Err(error) => Err(store_error(error)),
        },
        None => Err(StoreError::Failed),
    }
}

// Makes the file, in place of another that has the name. What stands there and is no file stays.
pub(crate) fn replace<R: Disk>(
    rt: &R,
    root: &str,
    path: &str,
    mark: i64,
    bytes: &[u8],
) -> Result<(), StoreError> {
    let target = join(rt.alloc(), root, path)?;
    object_at(rt, target.as_str()).map_err(store_error)?;
    let ready = make_ready(rt, root, path, mark, bytes).map_err(store_error)?;
    if fs::rename(rt, ready.scratch.as_str(), ready.target.as_str()).is_err() {
        let _ = fs::remove_file(rt, ready.scratch.as_str());
        return Err(StoreError::Failed);
    }
    sync_folder(rt, ready.folder.as_str()).map_err(|_| StoreError::Failed)
}

// Takes the file away where there is one.
pub(crate) fn remove<R: Disk>(rt: &R, root: &str, path: &str) -> Result<(), StoreError> {
    let folder = join(rt.alloc(), root, parent(path))?;
    let target = join(rt.alloc(), root, path)?;
    let object = object_at(rt, target.as_str()).map_err(store_error)?;
    if object.is_none() {
        return Ok(());
    }
    match fs::remove_file(rt, target.as_str()) {
        Ok(()) => sync_folder(rt, folder.as_str()).map_err(|_| StoreError::Failed),
        Err(error) if is_absence(&error) => Ok(()),
        Err(_) => Err(StoreError::Failed),
    }
}
