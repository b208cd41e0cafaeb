//! The catalogue of ratified commits, as files in `_delta_log/_catalogue`.
//!
//! A ratification is a file whose name is the version in 20 digits and whose bytes are the staged object's name. The
//! file `forgotten` has the number up to which they no longer stand. The file of the greatest version always stays, so
//! that the next version is known.
ghost use Rattle.std.specs.Prelude.{◌≡◌, ◌≤◌, ◌<◌, ◌^◌, ℕ, All, IfOk, IfSome, Ok};

use crate::disk::{Disk, list, read};
use crate::paths::{CATALOGUE, join};
use crate::writes::{make, remove, replace, store_error};
use dk_store::{Put, Ratification, Ratify, StoreError};
use std::io;
use std::io::ErrorKind;

const FORGOTTEN: &str = "_delta_log/_catalogue/forgotten";

// A number that is written in digits alone.
fn number(text: &str) -> Option<u64> {
    if text.bytes().all(|b| b.is_ascii_digit()) {
        text.parse::<u64>().ok()
    } else {
        None
    }
}

// The version that a file of the catalogue is of.
fn version_of(name: &str) -> Option<u64>
    ensures { IfSome result (λ version. version < 2 ^ 63) }
{
    if name.len() != 20 {
        return None;
    }
    match number(name) {
        Some(version) if version < 1 << 63 => Some(version),
        _ => None,
    }
}

// The path of a version's file.
fn path_of<R: Disk>(rt: &R, version: u64) -> io::Result<String> {
    Ok(format!(in rt.alloc(); "{CATALOGUE}/{version:020}")?)
}

// All versions of the catalogue, forgotten or not, ascending.
fn versions<R: Disk>(rt: &R, root: &str) -> io::Result<Vec<u64>>
    ensures { IfOk result (λ found. All (λ version. version < 2 ^ 63) found.items) }
{
    let folder = join(rt.alloc(), root, CATALOGUE)?;
    let mut found = Vec::new(rt.alloc());
    for entry in list(rt, folder.as_str(), "")? {
        if let Some(version) = version_of(entry.name.as_str()) {
            found.push(version)?;
        }
    }
    Ok(found)
}

// A file of the catalogue as text; None where there is none.
fn text<R: Disk>(rt: &R, root: &str, path: &str) -> io::Result<Option<String>> {
    let path = join(rt.alloc(), root, path)?;
    match read(rt, path.as_str())? {
        None => Ok(None),
        Some(bytes) => match String::from_utf8(bytes) {
            Ok(text) => Ok(Some(text)),
            Err(_) => Err(io::Error::from(ErrorKind::InvalidData)),
        },
    }
}

// The number up to which ratifications no longer stand.
fn forgotten<R: Disk>(rt: &R, root: &str) -> io::Result<Option<u64>> {
    match text(rt, root, FORGOTTEN)? {
        None => Ok(None),
        Some(text) => match number(text.as_str()) {
            Some(upto) => Ok(Some(upto)),
            None => Err(io::Error::from(ErrorKind::InvalidData)),
        },
    }
}

// The ratification of a version, where its file is there.
fn ratification<R: Disk>(rt: &R, root: &str, version: u64) -> io::Result<Option<Ratification>>
    ensures { IfOk result (λ found. IfSome found (λ r. r.version ≡ version)) }
{
    let path = path_of(rt, version)?;
    match text(rt, root, path.as_str())? {
        None => Ok(None),
        Some(name) => Ok(Some(Ratification { version, name })),
    }
}

// The ratifications from a version on that stand, ascending.
pub(crate) fn ratified<R: Disk>(rt: &R, root: &str, from: u64) -> io::Result<Vec<Ratification>>
    ensures { IfOk result (λ found. All (λ r. r.version < 2 ^ 63) found.items) }
{
    let gone = forgotten(rt, root)?;
    let mut found = Vec::new(rt.alloc());
    for version in versions(rt, root)? {
        if version < from || gone.is_some_and(|upto| version <= upto) {
            continue;
        }
        if let Some(ratification) = ratification(rt, root, version)? {
            found.push(ratification)?;
        }
    }
    Ok(found)
}

// One above the greatest version of the catalogue.
fn next_version<R: Disk>(rt: &R, root: &str) -> io::Result<Option<u64>>
    ensures { IfOk result (λ next. IfSome next (λ n. n ≤ 2 ^ 63)) }
{
    let versions = versions(rt, root)?;
    match versions.last() {
        None => Ok(None),
        Some(version) => Ok(Some(*version + 1)),
    }
}

// Ratifies a version where none was ratified before, or where it is the next one.
pub(crate) fn ratify<R: Disk>(
    rt: &R,
    root: &str,
    version: u64,
    name: &str,
) -> Result<Ratify, StoreError>
    requires { version < 2 ^ 63 }
    ensures { (next : ℕ) → result ≡ Ok (Ratify.Lost next) → next ≤ 2 ^ 63 }
{
    if let Some(next) = next_version(rt, root).map_err(store_error)?
        && next != version
    {
        return Ok(Ratify::Lost { next });
    }
    let path = path_of(rt, version).map_err(store_error)?;
    match make(rt, root, path.as_str(), version as i64, name.as_bytes())? {
        Put::Made => Ok(Ratify::Made),
        // Somebody else was first.
        Put::Exists => Err(StoreError::Failed),
    }
}

// Forgets the ratifications up to a version. Their files go, but for that of the greatest version.
pub(crate) fn forget<R: Disk>(rt: &R, root: &str, upto: u64) -> Result<(), StoreError> {
    let versions = versions(rt, root).map_err(store_error)?;
    let Some(greatest) = versions.last() else {
        return Ok(());
    };
    let gone = forgotten(rt, root).map_err(store_error)?;
    let upto = upto.min(*greatest).max(gone.unwrap_or(0));
    let number = format!(in rt.alloc(); "{upto}")?;
    replace(rt, root, FORGOTTEN, 0, number.as_bytes())?;
    for version in &versions {
        if *version <= upto && version != greatest {
            forget_file(rt, root, *version);
        }
    }
    Ok(())
}

// Takes a forgotten file away. One that stays is forgotten all the same.
fn forget_file<R: Disk>(rt: &R, root: &str, version: u64) {
    if let Ok(path) = path_of(rt, version) {
        let _ = remove(rt, root, path.as_str());
    }
}
