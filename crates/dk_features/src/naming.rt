//! What a fault is called.

ghost use Rattle.std.specs.Prelude.{◌≡◌, ◌≢◌, [], IfOk, get_or};
ghost use Rattle.dk_features.specs.Support.{fault_name, unread_name, unwritten_name};

use crate::fault::{FeatureFault, FeatureList};
use crate::features::{INVARIANTS, implied_name, listed};
use crate::reading::can_read;
use crate::writing::can_write_with;
use dk_model::{Metadata, Protocol, Text};
use std::alloc::{AllocError, Global};

/// The name at a place of a list; empty where there is none.
fn name_at(names: &[Text], place: usize) -> &str
    ensures { result.now ≡ get_or names.now place [] }
{
    match names.get(place) {
        Some(name) => name.as_str(),
        None => "",
    }
}

impl FeatureFault {
    /// What is in the way, by its name: the feature's, or `minReaderVersion` or `minWriterVersion` with the number. `protocol` is the
    /// one that was tested. The name is empty where this protocol has no such feature, and for want of memory.
    pub fn name(&self, alloc: Global, protocol: &Protocol) -> Result<Text, AllocError>
        ensures { IfOk result (λ name. name ≡ fault_name protocol.now self.now) }
    {
        match *self {
            FeatureFault::ReaderVersion { n } => {
                Ok(Text::new(format!(in alloc; "minReaderVersion {n}")?))
            }
            FeatureFault::WriterVersion { n } => {
                Ok(Text::new(format!(in alloc; "minWriterVersion {n}")?))
            }
            FeatureFault::Feature { list, place } => {
                let name = match list {
                    FeatureList::Reader => name_at(listed(&protocol.reader_features), place),
                    FeatureList::Writer => name_at(listed(&protocol.writer_features), place),
                    FeatureList::Implied => implied_name(place),
                };
                Text::from_str(alloc, name)
            }
            FeatureFault::InvariantsUsed => Text::from_str(alloc, INVARIANTS),
            FeatureFault::OutOfMemory => Text::from_str(alloc, ""),
        }
    }
}

/// What is in the way of reading tables of this protocol, by its name as [`FeatureFault::name`] has it; None where they are read.
pub fn unread_name(alloc: Global, protocol: &Protocol) -> Result<Option<Text>, AllocError>
    ensures { IfOk result (λ name. name ≡ unread_name protocol.now) }
{
    match can_read(protocol) {
        Ok(()) => Ok(None),
        Err(fault) => Ok(Some(fault.name(alloc, protocol)?)),
    }
}

/// The name of a fault that isn't want of memory.
fn known_name(alloc: Global, fault: FeatureFault, protocol: &Protocol) -> Result<Text, AllocError>
    ensures name { IfOk result (λ name. name ≡ fault_name protocol.now fault) }
    ensures known { IfOk result (λ name. fault ≢ FeatureFault.OutOfMemory) }
{
    match fault {
        FeatureFault::OutOfMemory => Err(AllocError),
        known => known.name(alloc, protocol),
    }
}

/// What is in the way of writing tables of this protocol and metadata, by its name as [`FeatureFault::name`] has it; None where
/// they are written.
pub fn unwritten_name(
    alloc: Global,
    protocol: &Protocol,
    metadata: &Metadata,
) -> Result<Option<Text>, AllocError>
    ensures { IfOk result (λ name. name ≡ unwritten_name protocol.now metadata.now) }
{
    match can_write_with(alloc, protocol, metadata) {
        Ok(()) => Ok(None),
        Err(fault) => Ok(Some(known_name(alloc, fault, protocol)?)),
    }
}
