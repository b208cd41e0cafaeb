//! What a listing of a folder shows.
ghost use Rattle.std.specs.Prelude.{◌≡◌, [], ◌∷◌, IfOk, map, option_map, option_copied, string_bytes};
ghost use Rattle.std.specs.List.{filter_map};
ghost use Rattle.std.specs.FinMap.{entries};
ghost use Rattle.dk_store.specs.Listing.{behind, listed_in, name_from, name_in, unslashed};
ghost use Rattle.dk_store.specs.Views.{listed};
ghost use Rattle.dk_store.specs.Memory.{placed_map, stored};

use crate::event::Entry;
use crate::objects::Object;
use std::alloc::{AllocError, Global};
use std::collections::BTreeMap;

fn strip_text<'a>(prefix: &str, text: &'a str) -> Option<&'a str>
    ensures { option_copied result ≡ behind prefix.now text.now }
{
    text.strip_prefix(prefix)
}

fn strip_slash(text: &str) -> Option<&str>
    ensures { option_copied result ≡ behind (47 ∷ []) text.now }
{
    text.strip_prefix('/')
}

fn without_slash(name: &str) -> Option<&str>
    ensures { option_copied result ≡ unslashed name.now }
{
    if name.as_bytes().contains(&b'/') {
        None
    } else {
        Some(name)
    }
}

// The name of an object that lies directly in the folder.
fn direct_name<'a>(folder: &str, path: &'a str) -> Option<&'a str>
    ensures { option_copied result ≡ name_in folder.now path.now }
{
    if folder.is_empty() {
        return without_slash(path);
    }
    without_slash(strip_slash(strip_text(folder, path)?)?)
}

// A name that is at least `from`.
fn at_least<'a>(from: &str, name: Option<&'a str>) -> Option<&'a str>
    ensures { option_copied result ≡ name_from from.now (option_copied name.entry) }
{
    match name {
        None => None,
        Some(name) => { if name < from { None } else { Some(name) } }
    }
}

// How an object is listed, if it is.
fn entry_of(
    alloc: Global,
    folder: &str,
    from: &str,
    path: &String,
    object: &Object,
) -> Result<Option<Entry>, AllocError>
    ensures { IfOk result (λ entry. option_map listed entry ≡ listed_in folder.now from.now (string_bytes path.now, stored object.now)) }
{
    match at_least(from, direct_name(folder, path.as_str())) {
        None => Ok(None),
        Some(name) => Ok(Some(Entry {
            name: String::from_str(alloc, name)?,
            size: object.bytes.len() as u64,
            stamp: object.stamp,
        })),
    }
}

// What a listing shows of these objects.
pub(crate) fn listed_objects(
    alloc: Global,
    objects: &BTreeMap<String, Object>,
    folder: &str,
    from: &str,
) -> Result<Vec<Entry>, AllocError>
    ensures { IfOk result (λ found. map listed found.items ≡ filter_map (listed_in folder.now from.now) (entries (placed_map objects.now.entries))) }
{
    let mut found = Vec::new(alloc);
    for (path, object) in objects {
        if let Some(entry) = entry_of(alloc, folder, from, path, object)? {
            found.push(entry)?;
        }
    }
    Ok(found)
}
