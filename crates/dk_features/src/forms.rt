//! The forms of a protocol that is written, and whether the features of one stay in force in another.

ghost use Rattle.std.specs.Prelude.{◌≡◌, ◌||◌, IfOk, None, Some, map};
ghost use Rattle.std.specs.List.{list_all};
ghost use Rattle.dk_features.specs.Forms.{are_matched, asks_writers_alone, has_form, has_form_with, is_each_once, is_first_reader, keeps_features, stays_in_force};
ghost use Rattle.dk_features.specs.InForce.{implied, is_in_force, listed_features};
ghost use Rattle.dk_model.specs.NameSets.{HasNames, has_name};
ghost use Rattle.dk_features.specs.Listed.{IsListing};

use crate::features::{IMPLIED_COUNT, implied_name, is_implied_name, is_mapped, listed};
use dk_model::{Protocol, Text, name_set};
use std::alloc::{AllocError, Global};
use std::collections::BTreeSet;

/// Whether a feature isn't one that readers must know too.
fn asks_writers_alone(name: &str) -> bool
    ensures { result ≡ asks_writers_alone name.now }
{
    match name {
        "columnMapping"
        | "deletionVectors"
        | "timestampNtz"
        | "v2Checkpoint"
        | "typeWidening"
        | "vacuumProtocolCheck"
        | "catalogManaged" => false,
        _ => true,
    }
}

fn all_ask_writers_alone(names: &[Text]) -> bool
    ensures { result ≡ list_all asks_writers_alone names.now }
{
    'names: for name in names {
        if !asks_writers_alone(name.as_str()) {
            return false;
        }
    }
    true
}

/// Whether no name of a list stands twice.
fn is_each_once(alloc: Global, list: &[Text]) -> Result<bool, AllocError>
    ensures { IfOk result (λ once. once ≡ is_each_once list.now) }
{
    let mut seen: BTreeSet<&str> = BTreeSet::new(alloc);
    'list: for name in list {
        if !seen.insert(name.as_str())? {
            return Ok(false);
        }
    }
    Ok(true)
}

/// Whether all names of a list are among these.
fn are_among<'a>(names: &BTreeSet<&'a str>, list: &'a [Text]) -> bool
    ensures { result ≡ list_all (has_name names.now) list.now }
{
    'list: for name in list {
        if !names.contains(name.as_str()) {
            return false;
        }
    }
    true
}

/// Whether all names of a list are among these, but for features that ask writers alone.
fn are_known<'a>(names: &BTreeSet<&'a str>, list: &'a [Text]) -> bool
    ensures { result ≡ list_all (λ name. asks_writers_alone name || has_name names.now name) list.now }
{
    'list: for name in list {
        if !asks_writers_alone(name.as_str()) && !names.contains(name.as_str()) {
            return false;
        }
    }
    true
}

fn are_matched(alloc: Global, readers: &[Text], writers: &[Text]) -> Result<bool, AllocError>
    ensures { IfOk result (λ matched. matched ≡ are_matched readers.now writers.now) }
{
    let reader_names = name_set(alloc, readers)?;
    let writer_names = name_set(alloc, writers)?;
    Ok(are_among(&writer_names, readers) && are_known(&reader_names, writers))
}

fn is_first_reader(version: u32) -> bool
    ensures { result ≡ is_first_reader version }
{
    version == 1 || version == 2
}

/// Whether a list for writers alone stands as it may.
fn has_writers_form(
    alloc: Global,
    reader: u32,
    writer: u32,
    writers: &[Text],
) -> Result<bool, AllocError>
    ensures { IfOk result (λ has. has ≡ has_form_with reader writer None (Some writers.now)) }
{
    if is_first_reader(reader) && writer == 7 {
        Ok(is_each_once(alloc, writers)? && all_ask_writers_alone(writers))
    } else {
        Ok(false)
    }
}

/// Whether lists for readers and for writers stand as they may.
fn has_lists_form(
    alloc: Global,
    reader: u32,
    writer: u32,
    readers: &[Text],
    writers: &[Text],
) -> Result<bool, AllocError>
    ensures { IfOk result (λ has. has ≡ has_form_with reader writer (Some readers.now) (Some writers.now)) }
{
    if reader == 3 && writer == 7 {
        let once = is_each_once(alloc, readers)? && is_each_once(alloc, writers)?;
        Ok(once && are_matched(alloc, readers, writers)?)
    } else {
        Ok(false)
    }
}

/// Whether a protocol has one of the three forms in which it is written (Delta Lake's PROTOCOL.md, "Table Features"): reader version 1 or
/// 2, writer version 1 to 6 and no list; reader version 1 or 2, writer version 7 and a list for writers alone, of features that
/// readers need not know; or reader version 3, writer version 7 and both lists, where each name of the list for readers
/// stands in the one for writers, and each feature of the latter that readers must know stands in the former. No list has
/// a name twice. Takes memory in proportion to the lists.
#[tactic(auto, unfolding(crate::specs::Forms::has_form))]
pub fn has_form(alloc: Global, protocol: &Protocol) -> Result<bool, AllocError>
    ensures { IfOk result (λ has. has ≡ has_form protocol.now) }
{
    let (reader, writer) = (protocol.min_reader, protocol.min_writer);
    match (&protocol.reader_features, &protocol.writer_features) {
        (None, None) => Ok(is_first_reader(reader) && (1 <= writer && writer <= 6)),
        (None, Some(writers)) => has_writers_form(alloc, reader, writer, writers.as_slice()),
        (Some(_), None) => Ok(false),
        (Some(readers), Some(writers)) => {
            has_lists_form(
                alloc,
                reader,
                writer,
                readers.as_slice(),
                writers.as_slice(),
            )
        }
    }
}

/// A protocol with the names of its list for writers.
#[derive(Drop)]
struct Listing<'a> {
    protocol: &'a Protocol,
    names: BTreeSet<&'a str>,
}

fn with_names(alloc: Global, protocol: &Protocol) -> Result<Listing<'_>, AllocError>
    ensures is { IfOk result (λ listing. IsListing listing) }
    ensures of { IfOk result (λ listing. listing.protocol.now ≡ protocol.now) }
{
    Ok(Listing {
        protocol,
        names: name_set(alloc, listed(&protocol.writer_features))?,
    })
}

fn is_in_force<'a>(listing: &Listing<'a>, name: &'a str) -> bool
    requires { IsListing listing.now }
    ensures { result ≡ is_in_force listing.now.protocol.now name.now }
{
    if listing.protocol.min_writer < 7 {
        is_implied_name(listing.protocol, name)
    } else {
        listing.names.contains(name) || is_mapped(listing.protocol, name)
    }
}

fn stays_in_force<'a>(before: &Listing<'a>, after: &Listing<'a>, name: &'a str) -> bool
    requires before { IsListing before.now }
    requires after { IsListing after.now }
    ensures { result ≡ stays_in_force before.now.protocol.now after.now.protocol.now name.now }
{
    !is_in_force(before, name) || is_in_force(after, name)
}

fn implied_stay<'a>(before: &Listing<'a>, after: &Listing<'a>) -> bool
    requires before { IsListing before.now }
    requires after { IsListing after.now }
    ensures { result ≡ list_all (stays_in_force before.now.protocol.now after.now.protocol.now) (map (λ feature. feature.0) implied) }
{
    'places: for place in 0..IMPLIED_COUNT {
        if !stays_in_force(before, after, implied_name(place)) {
            return false;
        }
    }
    true
}

fn listed_stay<'a>(before: &Listing<'a>, after: &Listing<'a>, names: &'a [Text]) -> bool
    requires before { IsListing before.now }
    requires after { IsListing after.now }
    ensures { result ≡ list_all (stays_in_force before.now.protocol.now after.now.protocol.now) names.now }
{
    'names: for name in names {
        if !stays_in_force(before, after, name.as_str()) {
            return false;
        }
    }
    true
}

/// Whether each feature that is in force by a protocol is so by the one after it (Delta Lake's PROTOCOL.md, "Protocol Evolution").
/// Takes memory in proportion to the lists.
pub fn keeps_features(
    alloc: Global,
    before: &Protocol,
    after: &Protocol,
) -> Result<bool, AllocError>
    ensures { IfOk result (λ keeps. keeps ≡ keeps_features before.now after.now) }
{
    let earlier = with_names(alloc, before)?;
    let later = with_names(alloc, after)?;
    if !implied_stay(&earlier, &later) {
        return Ok(false);
    }
    Ok(listed_stay(&earlier, &later, listed(&before.writer_features)))
}
