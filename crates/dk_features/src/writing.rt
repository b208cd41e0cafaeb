//! Whether a table can be written.

ghost use Rattle.std.specs.Prelude.{◌≡◌, IfSome, IsSome};
ghost use Rattle.std.specs.List.{position_from};
ghost use Rattle.dk_features.specs.InForce.{implied};
ghost use Rattle.dk_features.specs.Invariants.{uses_invariants};
ghost use Rattle.dk_features.specs.Support.{answer_of, Answers, fault_at, is_in_the_way, is_unwritten, is_feature_written, unwritten, unwritten_implied, unwritten_listed, unwritten_version};

use crate::fault::{FeatureFault, FeatureList};
use crate::features::{
    IMPLIED_COUNT, INVARIANTS, implied_at, is_both, is_implied, is_listed, listed,
};
use crate::reading::can_read;
use crate::schema::uses_invariants;
use dk_model::{Metadata, Protocol, TableState, Text};
use std::alloc::Global;

/// Whether a table with this feature is written, where its schema uses invariants or not.
fn is_written(uses_invariants: bool, name: &str) -> bool
    ensures { result ≡ is_feature_written uses_invariants name.now }
{
    is_both(name) || name == INVARIANTS && !uses_invariants
}

/// What is in the way at a feature of this name.
fn fault_at(list: FeatureList, name: &str, place: usize) -> FeatureFault
    ensures { result ≡ fault_at list name.now place }
{
    if name == INVARIANTS {
        FeatureFault::InvariantsUsed
    } else {
        FeatureFault::Feature { list, place }
    }
}

/// Tests the features that a list has.
fn test_listed(uses_invariants: bool, names: &[Text]) -> Result<(), FeatureFault>
    ensures { result ≡ answer_of (unwritten_listed uses_invariants names.now) }
{
    'names: for (place, name) in names.iter().enumerate() {
        if !is_written(uses_invariants, name.as_str()) {
            return Err(fault_at(FeatureList::Writer, name.as_str(), place));
        }
    }
    Ok(())
}

/// Tests the features that the versions stand for.
#[tactic(auto, using(crate::proofs::Places::in_the_way, crate::proofs::Places::not_in_the_way))]
fn test_implied(uses_invariants: bool, protocol: &Protocol) -> Result<(), FeatureFault>
    ensures { result ≡ answer_of (unwritten_implied uses_invariants protocol.now) }
{
    'places: for place in 0..IMPLIED_COUNT {
        let (name, since) = implied_at(place);
        if is_implied(protocol, name, since) && !is_written(uses_invariants, name) {
            return Err(fault_at(FeatureList::Implied, name, place));
        }
    }
    Ok(())
}

/// Tests the features that a list has, and reads the schema where `invariants` is among them.
#[tactic(auto, using(crate::proofs::Unused::unused))]
fn test_names(alloc: Global, names: &[Text], schema: &str) -> Result<(), FeatureFault>
    ensures { Answers result (unwritten_listed (uses_invariants schema.now) names.now) }
{
    if is_listed(names, INVARIANTS) {
        test_listed(uses_invariants(alloc, schema)?, names)
    } else {
        test_listed(false, names)
    }
}

/// Tests the version for writers and its features.
fn test_version(alloc: Global, protocol: &Protocol, schema: &str) -> Result<(), FeatureFault>
    ensures { Answers result (unwritten_version (uses_invariants schema.now) protocol.now) }
{
    match protocol.min_writer {
        1 => Ok(()),
        2..=6 => test_implied(uses_invariants(alloc, schema)?, protocol),
        7 => test_names(alloc, listed(&protocol.writer_features), schema),
        n => Err(FeatureFault::WriterVersion { n }),
    }
}

/// Whether tables of this protocol and metadata are written (Delta Lake's PROTOCOL.md, "Writer Requirements"), with the
/// faults that [`can_write`] has for a state.
pub fn can_write_with(
    alloc: Global,
    protocol: &Protocol,
    metadata: &Metadata,
) -> Result<(), FeatureFault>
    ensures { Answers result (unwritten protocol.now metadata.now) }
{
    can_read(protocol)?;
    test_version(alloc, protocol, metadata.schema_string.as_str())
}

/// Whether a table in this state, which has protocol and metadata, is written (Delta Lake's PROTOCOL.md, "Writer Requirements");
/// where not, the first that is in the way: what is in the way of reading, then a version for writers
/// above 7, then the first feature that isn't written, of the writers' list for version 7, of those that the versions
/// stand for below it. A feature `invariants` is in the way where the schema's text has invariants or isn't
/// JSON. `OutOfMemory` is want of memory. No file is looked at.
pub fn can_write(alloc: Global, state: &TableState) -> Result<(), FeatureFault>
    requires protocol { IsSome state.now.protocol }
    requires metadata { IsSome state.now.metadata }
    ensures { IfSome state.now.protocol (λ p. IfSome state.now.metadata (λ m. Answers result (unwritten p m))) }
{
    match (&state.protocol, &state.metadata) {
        (Some(protocol), Some(metadata)) => can_write_with(alloc, protocol, metadata),
        _ => unreachable!(),
    }
}
