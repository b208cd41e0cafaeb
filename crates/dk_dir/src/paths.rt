//! Paths of objects, and where they lie in the folder.

use std::alloc::{AllocError, Global};

// A file on its way to its name. No name of a log begins so, and no listing shows one.
pub(crate) const SCRATCH: &str = ".deltak-scratch-";

// The folder of the catalogue, in which no object lies.
pub(crate) const CATALOGUE: &str = "_delta_log/_catalogue";

// Whether a part of a path can be the name of a file or a folder.
fn is_name(part: &str) -> bool {
    !part.is_empty() && part != "." && part != ".." && !part.as_bytes().contains(&0)
}

// Whether an object can have this name.
pub(crate) fn is_object_name(name: &str) -> bool {
    is_name(name) && !name.starts_with(SCRATCH)
}

// Whether a name looks like a part of a log: a commit, a checkpoint or what belongs to one.
pub(crate) fn is_log_name(name: &str) -> bool {
    name.ends_with(".json") || name.ends_with(".parquet")
}

// Whether an object can lie at this path: it stays in the folder, has one spelling, and is no part of the catalogue.
pub(crate) fn is_object_path(path: &str) -> bool {
    let in_catalogue = match path.strip_prefix(CATALOGUE) {
        Some(rest) => rest.is_empty() || rest.starts_with('/'),
        None => false,
    };
    !in_catalogue && path.split('/').all(is_object_name)
}

// The path of a file that lies in a folder; the empty path is the folder's own.
pub(crate) fn join(alloc: Global, folder: &str, path: &str) -> Result<String, AllocError> {
    let mut joined = String::from_str(alloc, folder)?;
    if !path.is_empty() {
        joined.push('/')?;
        joined.push_str(path)?;
    }
    Ok(joined)
}

// The folder that a path lies in, relative to the same folder.
pub(crate) fn parent(path: &str) -> &str {
    match path.rsplit_once('/') {
        Some((parent, _)) => parent,
        None => "",
    }
}
