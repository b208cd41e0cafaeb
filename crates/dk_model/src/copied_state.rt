//! A table's state of the same content.

ghost use Rattle.std.specs.Prelude.{◌≡◌, IfOk};

use crate::action::{AddFile, Metadata, Protocol};
use crate::state::{Application, TableState};
use crate::text::Text;
use crate::text_map::TextMap;
use std::alloc::{AllocError, Global};

impl Application {
    /// What an application has recorded, of the same content. Takes no memory, so it never answers `Err`.
    pub fn copy(&self, _alloc: Global) -> Result<Application, AllocError>
        ensures { IfOk result (λ a. a ≡ self.now) }
    {
        Ok(Application {
            version: self.version,
            last_updated: self.last_updated,
        })
    }
}

#[tactic(auto, using(crate::proofs::Laid::laid_entries), unfolding(crate::proofs::Laid::laid))]
fn copied_files(alloc: Global, files: &TextMap<AddFile>) -> Result<TextMap<AddFile>, AllocError>
    ensures { IfOk result (λ m. m ≡ files.now) }
{
    let mut copied = TextMap::new(alloc);
    'files: for (path, file) in files.iter() {
        copied.insert(Text::from_str(alloc, path)?, file.copy(alloc)?)?;
    }
    Ok(copied)
}

#[tactic(auto, using(crate::proofs::Laid::laid_entries), unfolding(crate::proofs::Laid::laid))]
fn copied_tombstones(alloc: Global, tombstones: &TextMap<i64>) -> Result<TextMap<i64>, AllocError>
    ensures { IfOk result (λ m. m ≡ tombstones.now) }
{
    let mut copied = TextMap::new(alloc);
    'tombstones: for (path, time) in tombstones.iter() {
        copied.insert(Text::from_str(alloc, path)?, *time)?;
    }
    Ok(copied)
}

#[tactic(auto, using(crate::proofs::Laid::laid_entries), unfolding(crate::proofs::Laid::laid))]
fn copied_applications(
    alloc: Global,
    applications: &TextMap<Application>,
) -> Result<TextMap<Application>, AllocError>
    ensures { IfOk result (λ m. m ≡ applications.now) }
{
    let mut copied = TextMap::new(alloc);
    'applications: for (name, application) in applications.iter() {
        copied.insert(Text::from_str(alloc, name)?, application.copy(alloc)?)?;
    }
    Ok(copied)
}

#[tactic(auto, using(crate::proofs::Laid::laid_entries), unfolding(crate::proofs::Laid::laid))]
fn copied_domains(alloc: Global, domains: &TextMap<Text>) -> Result<TextMap<Text>, AllocError>
    ensures { IfOk result (λ m. m ≡ domains.now) }
{
    let mut copied = TextMap::new(alloc);
    'domains: for (name, configuration) in domains.iter() {
        copied.insert(Text::from_str(alloc, name)?, configuration.copy(alloc)?)?;
    }
    Ok(copied)
}

fn copied_protocol(
    alloc: Global,
    protocol: &Option<Protocol>,
) -> Result<Option<Protocol>, AllocError>
    ensures { IfOk result (λ p. p ≡ protocol.now) }
{
    match protocol {
        None => Ok(None),
        Some(protocol) => Ok(Some(protocol.copy(alloc)?)),
    }
}

fn copied_metadata(
    alloc: Global,
    metadata: &Option<Metadata>,
) -> Result<Option<Metadata>, AllocError>
    ensures { IfOk result (λ m. m ≡ metadata.now) }
{
    match metadata {
        None => Ok(None),
        Some(metadata) => Ok(Some(metadata.copy(alloc)?)),
    }
}

impl TableState {
    /// A state of the same content. `Err` is want of memory.
    pub fn copy(&self, alloc: Global) -> Result<TableState, AllocError>
        ensures { IfOk result (λ s. s ≡ self.now) }
    {
        Ok(TableState {
            protocol: copied_protocol(alloc, &self.protocol)?,
            metadata: copied_metadata(alloc, &self.metadata)?,
            files: copied_files(alloc, &self.files)?,
            tombstones: copied_tombstones(alloc, &self.tombstones)?,
            applications: copied_applications(alloc, &self.applications)?,
            domains: copied_domains(alloc, &self.domains)?,
        })
    }
}
