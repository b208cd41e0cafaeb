//! What the store asks of the file system.

use crate::paths::{is_log_name, is_object_name};
use crate::stamp::stamp_of;
use dk_store::Entry;
use std::collections::BTreeMap;
use std::fs::{DirEntry, File, Files, Metadata, ReadDir};
use std::io::{ErrorKind, Read};
use std::{fs, io};

/// A runtime with the system's files.
pub trait Disk: Files<File = File> + AllocGlobal + Clone + Drop {}

impl<R: Files<File = File> + AllocGlobal + Clone + Drop> Disk for R {}

// Whether an error says that no file has the name.
pub(crate) fn is_absence(error: &io::Error) -> bool {
    matches!(
        error.kind(),
        ErrorKind::NotFound | ErrorKind::NotADirectory | ErrorKind::InvalidFilename
    )
}

// What a listing shows of a file besides its name.
#[derive(Clone, Copy)]
struct Shown {
    size: u64,
    stamp: i64,
}

// What stands at a path, links followed; None where nothing does. A link that leads nowhere is an error, and so is one
// that may not be followed.
fn look<R: Disk>(rt: &R, path: &str) -> io::Result<Option<Metadata>> {
    match fs::metadata(rt, path) {
        Ok(metadata) => Ok(Some(metadata)),
        Err(error) if is_absence(&error) => match fs::symlink_metadata(rt, path) {
            Ok(_) => Err(error),
            Err(error) if is_absence(&error) => Ok(None),
            Err(error) => Err(error),
        },
        Err(error) => Err(error),
    }
}

// The object at a path; None where nothing stands there. What stands there and is no file, a folder too, is an error.
pub(crate) fn object_at<R: Disk>(rt: &R, path: &str) -> io::Result<Option<Metadata>> {
    match look(rt, path)? {
        None => Ok(None),
        Some(metadata) if metadata.is_file() => Ok(Some(metadata)),
        Some(_) => Err(io::Error::from(ErrorKind::InvalidInput)),
    }
}

// The object that a listing shows at a path; None where nothing or a folder stands there. What else stands there is an
// error.
fn entry_at<R: Disk>(rt: &R, path: &str) -> io::Result<Option<Shown>> {
    match look(rt, path)? {
        None => Ok(None),
        Some(metadata) if metadata.is_file() => Ok(Some(Shown {
            size: metadata.len(),
            stamp: stamp_of(&metadata),
        })),
        Some(metadata) if metadata.is_dir() => Ok(None),
        Some(_) => Err(io::Error::from(ErrorKind::InvalidInput)),
    }
}

// Notes an entry of a folder, where it is an object whose name is at least `from`. Of the entries that can't be read
// those that look like a part of a log are an error, so that none looks absent; all else is passed over.
fn note<R: Disk>(
    rt: &R,
    entry: DirEntry<R, R::A>,
    from: &str,
    found: &mut BTreeMap<String, Shown>,
) -> io::Result<()> {
    let name = entry.file_name();
    if name < from || !is_object_name(name) {
        return Ok(());
    }
    match entry_at(rt, entry.path().as_str()) {
        Ok(None) => Ok(()),
        Ok(Some(file)) => {
            let name = String::from_str(rt.alloc(), name)?;
            found.insert(name, file)?;
            Ok(())
        }
        Err(error) if error.kind() == ErrorKind::OutOfMemory || is_log_name(name) => Err(error),
        Err(_) => Ok(()),
    }
}

// The names in a folder; None where the folder isn't there.
fn names_in<R: Disk>(rt: &R, folder: &str) -> io::Result<Option<ReadDir<R, R::A>>> {
    match fs::read_dir(rt, folder) {
        Ok(names) => Ok(Some(names)),
        Err(error) if is_absence(&error) => match look(rt, folder)? {
            None => Ok(None),
            Some(_) => Err(error),
        },
        Err(error) => Err(error),
    }
}

// The files of a folder whose names are at least `from`, in byte order of their names. Names that are not UTF-8 are
// passed over.
pub(crate) fn list<R: Disk>(rt: &R, folder: &str, from: &str) -> io::Result<Vec<Entry>> {
    let Some(names) = names_in(rt, folder)? else {
        return Ok(Vec::new(rt.alloc()));
    };
    let mut found = BTreeMap::new(rt.alloc());
    for entry in names {
        match entry {
            Ok(entry) => note(rt, entry, from, &mut found)?,
            Err(error) if error.kind() == ErrorKind::InvalidFilename => {}
            Err(error) => return Err(error),
        }
    }
    let mut entries = Vec::new(rt.alloc());
    for (name, Shown { size, stamp }) in found {
        entries.push(Entry { name, size, stamp })?;
    }
    Ok(entries)
}

// All bytes of an open file, of which so many are expected.
fn read_whole<R: Disk>(rt: &R, path: &str, size: u64) -> io::Result<Vec<u8>> {
    let mut file = File::open(rt, path)?;
    let mut bytes = Vec::with_capacity(rt.alloc(), (size as usize).saturating_add(1))?;
    file.read_to_end(&mut bytes)?;
    Ok(bytes)
}

// The bytes of an object; None where nothing stands at its path.
pub(crate) fn read<R: Disk>(rt: &R, path: &str) -> io::Result<Option<Vec<u8>>> {
    let Some(metadata) = object_at(rt, path)? else {
        return Ok(None);
    };
    match read_whole(rt, path, metadata.len()) {
        Ok(bytes) => Ok(Some(bytes)),
        Err(error) if is_absence(&error) => Ok(None),
        Err(error) => Err(error),
    }
}
