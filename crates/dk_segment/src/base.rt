//! The checkpoint that a version goes on from.
ghost use Rattle.std.specs.Prelude.{◌≡◌, ◌<◌, ◌≤◌, ◌^◌, true, IfOk, IfSome, option_map};
ghost use Rattle.dk_paths.specs.Places.{Classic, V2, place_path};
ghost use Rattle.dk_lawful.specs.Segments.{begins_at, is_allowed, part_paths, version_of};
ghost use Rattle.dk_listing.specs.Newest.{later, newest_by};
ghost use Rattle.dk_listing.specs.Presence.{is_at, lists_in_log};
ghost use Rattle.dk_segment.specs.Places.{allowed_version, base_listed, earlier, earliest_by, id_of_name, parts_of_checkpoint, reference, taken_at};

use dk_lawful::{CheckpointRef, Checkpoints};
use dk_listing::{Catalogued, Named, checkpoint_version, later};
use dk_model::{Names, Text};
use dk_paths::{LogName, write_path};
use std::alloc::{AllocError, Global};

/// A complete checkpoint.
#[derive(Clone, Copy)]
pub(crate) enum Base {
    Classic { version: u64 },
    Parts { version: u64, parts: u32 },
    V2 { version: u64, id: u128, json: bool },
}

impl Base {
    fn version(self) -> u64
        ensures { result ≡ version_of (reference self) }
    {
        match self {
            Base::Classic { version } => version,
            Base::Parts { version, .. } => version,
            Base::V2 { version, .. } => version,
        }
    }
}

/// The version that follows a checkpoint, or the first.
pub(crate) fn begins_at(base: Option<Base>) -> u64
    requires { IfSome base (λ b. version_of (reference b) < 2 ^ 63) }
    ensures { result ≡ begins_at (option_map reference base) }
{
    match base {
        None => 0,
        Some(base) => base.version() + 1,
    }
}

/// Whether the choice allows a checkpoint of a version where another is asked for.
fn is_allowed(allowed: Checkpoints, asked: u64, version: u64) -> bool
    ensures { result ≡ is_allowed allowed asked version }
{
    match allowed {
        Checkpoints::No => false,
        Checkpoints::Newest => version <= asked,
        Checkpoints::AtMost(most) => version <= asked && version <= most,
    }
}

fn allowed_version(name: &LogName, allowed: Checkpoints, asked: u64) -> Option<u64>
    ensures { result ≡ allowed_version allowed asked name.now }
{
    match checkpoint_version(name) {
        Some(version) if is_allowed(allowed, asked, version) => Some(version),
        _ => None,
    }
}

/// The greatest version of a complete checkpoint that the choice allows.
fn base_version(names: &[LogName], allowed: Checkpoints, asked: u64) -> Option<u64>
    ensures within { IfSome result (λ version. version ≤ asked) }
    ensures value { result ≡ newest_by (allowed_version allowed asked) names.now }
{
    let mut best = None;
    for name in names {
        best = later(best, allowed_version(name, allowed, asked));
    }
    best
}

fn parts_of(name: &LogName, version: u64) -> Option<u32>
    ensures { result ≡ parts_of_checkpoint version name.now }
{
    match *name {
        LogName::Part {
            version: own,
            parts,
            ..
        } if own == version => Some(parts),
        _ => None,
    }
}

/// The greater of two numbers that may be absent.
fn more(one: Option<u32>, other: Option<u32>) -> Option<u32>
    ensures { result ≡ later one other }
{
    match (one, other) {
        (Some(one), Some(other)) => Some(one.max(other)),
        (Some(one), None) => Some(one),
        (None, other) => other,
    }
}

/// In how many parts a complete checkpoint of this version is at most.
fn most_parts(names: &[LogName], version: u64) -> Option<u32>
    ensures { result ≡ newest_by (parts_of_checkpoint version) names.now }
{
    let mut best = None;
    for name in names {
        best = more(best, parts_of(name, version));
    }
    best
}

fn id_of(name: &LogName, version: u64) -> Option<u128>
    ensures { result ≡ id_of_name version name.now }
{
    match *name {
        LogName::V2Json { version: own, id } if own == version => Some(id),
        LogName::V2Parquet { version: own, id } if own == version => Some(id),
        _ => None,
    }
}

/// The lesser of two numbers that may be absent.
fn less(one: Option<u128>, other: Option<u128>) -> Option<u128>
    ensures { result ≡ earlier one other }
{
    match (one, other) {
        (Some(one), Some(other)) => Some(one.min(other)),
        (Some(one), None) => Some(one),
        (None, other) => other,
    }
}

/// The least UUID of a checkpoint of the form V2 of this version: UUIDs are written in digits, so the least name.
fn least_id(names: &[LogName], version: u64) -> Option<u128>
    ensures { result ≡ earliest_by (id_of_name version) names.now }
{
    let mut best = None;
    for name in names {
        best = less(best, id_of(name, version));
    }
    best
}

/// Whether a version's checkpoint in one object is listed by the version's name.
fn lists_classic(log: &[Named], version: u64) -> bool
    ensures { result ≡ lists_in_log log.now (Classic version) }
{
    for named in log {
        if is_classic(&named.name, version) {
            return true;
        }
    }
    false
}

fn is_classic(name: &LogName, version: u64) -> bool
    ensures { result ≡ is_at (Classic version) name.now }
{
    match *name {
        LogName::Classic { version: own } => own == version,
        _ => false,
    }
}

/// Whether a version's checkpoint of this UUID is listed in JSON.
fn lists_json(log: &[Named], version: u64, id: u128) -> bool
    ensures { result ≡ lists_in_log log.now (V2 version id true) }
{
    for named in log {
        if is_json(&named.name, version, id) {
            return true;
        }
    }
    false
}

fn is_json(name: &LogName, version: u64, id: u128) -> bool
    ensures { result ≡ is_at (V2 version id true) name.now }
{
    match *name {
        LogName::V2Json {
            version: own,
            id: other,
        } => own == version && other == id,
        _ => false,
    }
}

/// The checkpoint of a version that is taken: one in one object by the version's name, else the one in most parts, else the
/// one of the form V2 whose name is least.
fn taken_at(listing: &Catalogued, version: u64) -> Option<Base>
    ensures of { IfSome result (λ base. version_of (reference base) ≡ version) }
    ensures value { option_map reference result ≡ taken_at listing.now version }
{
    if lists_classic(&listing.log, version) {
        return Some(Base::Classic { version });
    }
    let names = listing.complete_checkpoints();
    if let Some(parts) = most_parts(names, version) {
        return Some(Base::Parts { version, parts });
    }
    match least_id(names, version) {
        None => None,
        Some(id) => {
            let json = lists_json(&listing.log, version, id);
            Some(Base::V2 { version, id, json })
        }
    }
}

/// The checkpoint that is chosen, or none.
pub(crate) fn find_base(listing: &Catalogued, allowed: Checkpoints, asked: u64) -> Option<Base>
    ensures within { IfSome result (λ base. version_of (reference base) ≤ asked) }
    ensures value { option_map reference result ≡ base_listed listing.now allowed asked }
{
    match base_version(listing.complete_checkpoints(), allowed, asked) {
        None => None,
        Some(version) => taken_at(listing, version),
    }
}

fn part_paths(alloc: Global, version: u64, parts: u32) -> Result<Names, AllocError>
    requires { version < 2 ^ 63 }
    ensures { IfOk result (λ paths. paths ≡ part_paths version parts parts) }
{
    let mut paths = Vec::new(alloc);
    for before in 0..parts {
        let name = LogName::Part {
            version,
            part: before + 1,
            parts,
        };
        paths.push(Text::new(write_path(alloc, &name)?))?;
    }
    Ok(Names::new(paths))
}

fn classic_path(alloc: Global, version: u64) -> Result<Text, AllocError>
    requires { version < 2 ^ 63 }
    ensures { IfOk result (λ path. path ≡ place_path (Classic version)) }
{
    Ok(Text::new(write_path(alloc, &LogName::Classic { version })?))
}

fn v2_path(alloc: Global, version: u64, id: u128, json: bool) -> Result<Text, AllocError>
    requires { version < 2 ^ 63 }
    ensures { IfOk result (λ path. path ≡ place_path (V2 version id json)) }
{
    let path = if json {
        write_path(alloc, &LogName::V2Json { version, id })?
    } else {
        write_path(alloc, &LogName::V2Parquet { version, id })?
    };
    Ok(Text::new(path))
}

/// A checkpoint as it is handed on.
fn refer(alloc: Global, base: Base) -> Result<CheckpointRef, AllocError>
    requires { version_of (reference base) < 2 ^ 63 }
    ensures { IfOk result (λ found. found ≡ reference base) }
{
    match base {
        Base::Classic { version } => Ok(CheckpointRef::Classic {
            version,
            path: classic_path(alloc, version)?,
        }),
        Base::Parts { version, parts } => Ok(CheckpointRef::Parts {
            version,
            parts,
            paths: part_paths(alloc, version, parts)?,
        }),
        Base::V2 { version, id, json } => Ok(CheckpointRef::V2 {
            version,
            path: v2_path(alloc, version, id, json)?,
            json,
        }),
    }
}

/// The same of a checkpoint that may be none.
pub(crate) fn refer_base(
    alloc: Global,
    base: Option<Base>,
) -> Result<Option<CheckpointRef>, AllocError>
    requires { IfSome base (λ b. version_of (reference b) < 2 ^ 63) }
    ensures { IfOk result (λ found. found ≡ option_map reference base) }
{
    match base {
        None => Ok(None),
        Some(base) => Ok(Some(refer(alloc, base)?)),
    }
}
