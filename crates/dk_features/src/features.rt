//! The features by their names.

ghost use Rattle.std.specs.Prelude.{◌≡◌, ◌<◌, [], find, get_or, map, option_map};
ghost use Rattle.std.specs.Str.{bytes_eq};
ghost use Rattle.dk_features.specs.InForce.{implied, is_implied, is_implied_name, is_in_force, is_mapped, listed_features};
ghost use Rattle.dk_features.specs.Names.{both, reading_alone};
ghost use Rattle.dk_model.specs.NameSets.{is_one_of};

use dk_model::{Names, Protocol, Text};

/// The feature that asks writers to keep column invariants.
pub(crate) const INVARIANTS: &str = "invariants";

/// The feature that a reader version of 2 stands for.
const COLUMN_MAPPING: &str = "columnMapping";

/// How many features a version of the protocol below 7 can stand for.
pub(crate) const IMPLIED_COUNT: usize = 7;

/// A feature that a version of the protocol below 7 stands for, by its place in their order, from 0 to 6: its name
/// and the least version of a writer that has it.
pub(crate) fn implied_at(place: usize) -> (&'static str, u32)
    requires { place < 7 }
    ensures { (result.0.now, result.1) ≡ get_or implied place ([], 0) }
{
    match place {
        0 => ("appendOnly", 2),
        1 => (INVARIANTS, 2),
        2 => ("checkConstraints", 3),
        3 => ("changeDataFeed", 4),
        4 => ("generatedColumns", 4),
        5 => (COLUMN_MAPPING, 5),
        _ => ("identityColumns", 6),
    }
}

/// The least version of a writer that stands for this feature, where one below 7 does.
fn since(name: &str) -> Option<u32>
    ensures { result ≡ option_map (λ feature. feature.1) (find (λ feature. bytes_eq name.now feature.0) implied) }
{
    match name {
        "appendOnly" | "invariants" => Some(2),
        "checkConstraints" => Some(3),
        "changeDataFeed" | "generatedColumns" => Some(4),
        "columnMapping" => Some(5),
        "identityColumns" => Some(6),
        _ => None,
    }
}

/// Whether a table with this feature is read and written.
pub(crate) fn is_both(name: &str) -> bool
    ensures { result ≡ is_one_of both name.now }
{
    match name {
        "appendOnly" | "domainMetadata" | "timestampNtz" | "v2Checkpoint" | "vacuumProtocolCheck" =>
            true,
        _ => false,
    }
}

/// Whether a table with this feature is read, and written at most where its schema has no invariants.
pub(crate) fn is_reading_alone(name: &str) -> bool
    ensures { result ≡ is_one_of reading_alone name.now }
{
    match name {
        "invariants"
        | "checkConstraints"
        | "changeDataFeed"
        | "generatedColumns"
        | "columnMapping"
        | "identityColumns"
        | "inCommitTimestamp"
        | "typeWidening"
        | "rowTracking"
        | "icebergCompatV1"
        | "icebergCompatV2"
        | "clustering" => true,
        _ => false,
    }
}

/// The name of such a feature; empty from place 7 on.
pub(crate) fn implied_name(place: usize) -> &'static str
    ensures { result.now ≡ get_or (map (λ feature. feature.0) implied) place [] }
{
    if place < IMPLIED_COUNT {
        implied_at(place).0
    } else {
        ""
    }
}

/// The names of a list; an absent one is empty.
pub(crate) fn listed(names: &Option<Names>) -> &[Text]
    ensures { result.now ≡ listed_features names.now }
{
    match names {
        None => &[],
        Some(names) => names.as_slice(),
    }
}

/// Whether the reader version stands for this feature.
pub(crate) fn is_mapped(protocol: &Protocol, name: &str) -> bool
    ensures { result ≡ is_mapped protocol.now name.now }
{
    protocol.min_reader == 2 && name == COLUMN_MAPPING
}

/// Whether the versions stand for this feature, which they do from that version of a writer on.
pub(crate) fn is_implied(protocol: &Protocol, name: &str, since: u32) -> bool
    ensures { result ≡ is_implied protocol.now (name.now, since) }
{
    since <= protocol.min_writer || is_mapped(protocol, name)
}

pub(crate) fn is_implied_name(protocol: &Protocol, name: &str) -> bool
    ensures { result ≡ is_implied_name protocol.now name.now }
{
    match since(name) {
        Some(version) => is_implied(protocol, name, version),
        None => false,
    }
}

/// Whether a list has this name.
pub(crate) fn is_listed(names: &[Text], name: &str) -> bool
    ensures { result ≡ is_one_of names.now name.now }
{
    'names: for listed in names.iter() {
        if name == listed.as_str() {
            return true;
        }
    }
    false
}

/// Whether a feature is in force in tables of this protocol: where writers of version 7 or above have it listed, or where
/// the versions stand for it (Delta Lake's PROTOCOL.md, "Supported Features"). Takes no memory.
pub fn is_in_force(protocol: &Protocol, name: &str) -> bool
    ensures { result ≡ is_in_force protocol.now name.now }
{
    if protocol.min_writer < 7 {
        is_implied_name(protocol, name)
    } else {
        is_listed(listed(&protocol.writer_features), name) || is_mapped(protocol, name)
    }
}
