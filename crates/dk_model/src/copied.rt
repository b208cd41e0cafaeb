//! A value of the same content, for each type of this crate.

ghost use Rattle.std.specs.Prelude.{◌≡◌, IfOk};

use crate::action::{
    Action, AddFile, CheckpointMeta, CommitInfo, Domain, Metadata, Protocol, RemoveFile,
    SidecarRef, Txn,
};
use crate::commit::Commit;
use crate::pairs::Pairs;
use crate::text::{Names, Text};
use std::alloc::{AllocError, Global};

impl Text {
    /// A text of the same content. `Err` is want of memory.
    pub fn copy(&self, alloc: Global) -> Result<Text, AllocError>
        ensures { IfOk result (λ t. t ≡ self.now) }
    {
        Text::from_str(alloc, self.as_str())
    }
}

impl Names {
    /// A list of the same content. `Err` is want of memory.
    pub fn copy(&self, alloc: Global) -> Result<Names, AllocError>
        ensures { IfOk result (λ n. n ≡ self.now) }
    {
        let mut list = Vec::with_capacity(alloc, self.as_slice().len())?;
        'texts: for text in self.as_slice() {
            list.push(text.copy(alloc)?)?;
        }
        Ok(Names::new(list))
    }
}

impl Pairs {
    /// Pairs of the same content. `Err` is want of memory.
    pub fn copy(&self, alloc: Global) -> Result<Pairs, AllocError>
        ensures { IfOk result (λ p. p ≡ self.now) }
    {
        let pairs = self.as_slice();
        let mut list = Vec::with_capacity(alloc, pairs.len())?;
        'pairs: for pair in pairs {
            let key = pair.0.copy(alloc)?;
            let value = copied_text(alloc, &pair.1)?;
            list.push((key, value))?;
        }
        Ok(Pairs::new(list))
    }
}

fn copied_text(alloc: Global, text: &Option<Text>) -> Result<Option<Text>, AllocError>
    ensures { IfOk result (λ t. t ≡ text.now) }
{
    match text {
        None => Ok(None),
        Some(text) => Ok(Some(text.copy(alloc)?)),
    }
}

fn copied_names(alloc: Global, names: &Option<Names>) -> Result<Option<Names>, AllocError>
    ensures { IfOk result (λ n. n ≡ names.now) }
{
    match names {
        None => Ok(None),
        Some(names) => Ok(Some(names.copy(alloc)?)),
    }
}

fn copied_pairs(alloc: Global, pairs: &Option<Pairs>) -> Result<Option<Pairs>, AllocError>
    ensures { IfOk result (λ p. p ≡ pairs.now) }
{
    match pairs {
        None => Ok(None),
        Some(pairs) => Ok(Some(pairs.copy(alloc)?)),
    }
}

impl Protocol {
    /// A protocol of the same content. `Err` is want of memory.
    pub fn copy(&self, alloc: Global) -> Result<Protocol, AllocError>
        ensures { IfOk result (λ p. p ≡ self.now) }
    {
        Ok(Protocol {
            min_reader: self.min_reader,
            min_writer: self.min_writer,
            reader_features: copied_names(alloc, &self.reader_features)?,
            writer_features: copied_names(alloc, &self.writer_features)?,
        })
    }
}

impl Metadata {
    /// Metadata of the same content. `Err` is want of memory.
    pub fn copy(&self, alloc: Global) -> Result<Metadata, AllocError>
        ensures { IfOk result (λ m. m ≡ self.now) }
    {
        Ok(Metadata {
            id: self.id.copy(alloc)?,
            name: copied_text(alloc, &self.name)?,
            description: copied_text(alloc, &self.description)?,
            provider: self.provider.copy(alloc)?,
            options: self.options.copy(alloc)?,
            schema_string: self.schema_string.copy(alloc)?,
            partition_columns: self.partition_columns.copy(alloc)?,
            created_time: self.created_time,
            configuration: self.configuration.copy(alloc)?,
        })
    }
}

impl AddFile {
    /// A file of the same content. `Err` is want of memory.
    pub fn copy(&self, alloc: Global) -> Result<AddFile, AllocError>
        ensures { IfOk result (λ f. f ≡ self.now) }
    {
        Ok(AddFile {
            path: self.path.copy(alloc)?,
            partition_values: self.partition_values.copy(alloc)?,
            size: self.size,
            modification_time: self.modification_time,
            data_change: self.data_change,
            stats: copied_text(alloc, &self.stats)?,
            tags: copied_pairs(alloc, &self.tags)?,
            base_row_id: self.base_row_id,
            default_row_commit_version: self.default_row_commit_version,
            clustering_provider: copied_text(alloc, &self.clustering_provider)?,
            vector: self.vector,
        })
    }
}

impl RemoveFile {
    /// A removed file of the same content. `Err` is want of memory.
    pub fn copy(&self, alloc: Global) -> Result<RemoveFile, AllocError>
        ensures { IfOk result (λ r. r ≡ self.now) }
    {
        Ok(RemoveFile {
            path: self.path.copy(alloc)?,
            deletion_timestamp: self.deletion_timestamp,
            data_change: self.data_change,
        })
    }
}

impl Txn {
    /// An application's version of the same content. `Err` is want of memory.
    pub fn copy(&self, alloc: Global) -> Result<Txn, AllocError>
        ensures { IfOk result (λ t. t ≡ self.now) }
    {
        Ok(Txn {
            app_id: self.app_id.copy(alloc)?,
            version: self.version,
            last_updated: self.last_updated,
        })
    }
}

impl Domain {
    /// A domain of the same content. `Err` is want of memory.
    pub fn copy(&self, alloc: Global) -> Result<Domain, AllocError>
        ensures { IfOk result (λ d. d ≡ self.now) }
    {
        Ok(Domain {
            domain: self.domain.copy(alloc)?,
            configuration: self.configuration.copy(alloc)?,
            removed: self.removed,
        })
    }
}

impl CheckpointMeta {
    /// A checkpoint's version of the same content. Takes no memory, so it never answers `Err`.
    pub fn copy(&self, _alloc: Global) -> Result<CheckpointMeta, AllocError>
        ensures { IfOk result (λ m. m ≡ self.now) }
    {
        Ok(CheckpointMeta {
            version: self.version,
        })
    }
}

impl SidecarRef {
    /// A sidecar's entry of the same content. `Err` is want of memory.
    pub fn copy(&self, alloc: Global) -> Result<SidecarRef, AllocError>
        ensures { IfOk result (λ r. r ≡ self.now) }
    {
        Ok(SidecarRef {
            path: self.path.copy(alloc)?,
            size: self.size,
            stamp: self.stamp,
        })
    }
}

impl CommitInfo {
    /// What is said of a commit, of the same content. `Err` is want of memory.
    pub fn copy(&self, alloc: Global) -> Result<CommitInfo, AllocError>
        ensures { IfOk result (λ i. i ≡ self.now) }
    {
        Ok(CommitInfo {
            in_commit_timestamp: self.in_commit_timestamp,
            txn_id: copied_text(alloc, &self.txn_id)?,
        })
    }
}

impl Action {
    /// An action of the same content. `Err` is want of memory.
    pub fn copy(&self, alloc: Global) -> Result<Action, AllocError>
        ensures { IfOk result (λ a. a ≡ self.now) }
    {
        match self {
            Action::Protocol(protocol) => Ok(Action::Protocol(protocol.copy(alloc)?)),
            Action::Metadata(metadata) => Ok(Action::Metadata(metadata.copy(alloc)?)),
            Action::Add(file) => Ok(Action::Add(file.copy(alloc)?)),
            Action::Remove(file) => Ok(Action::Remove(file.copy(alloc)?)),
            Action::Txn(txn) => Ok(Action::Txn(txn.copy(alloc)?)),
            Action::Domain(domain) => Ok(Action::Domain(domain.copy(alloc)?)),
            Action::Info(info) => Ok(Action::Info(info.copy(alloc)?)),
            Action::Cdc => Ok(Action::Cdc),
            Action::CheckpointMeta(meta) => Ok(Action::CheckpointMeta(meta.copy(alloc)?)),
            Action::Sidecar(sidecar) => Ok(Action::Sidecar(sidecar.copy(alloc)?)),
        }
    }
}

impl Commit {
    /// A commit of the same content. `Err` is want of memory.
    pub fn copy(&self, alloc: Global) -> Result<Commit, AllocError>
        ensures { IfOk result (λ c. c ≡ self.now) }
    {
        let mut actions = Vec::with_capacity(alloc, self.as_slice().len())?;
        'actions: for action in self.as_slice() {
            actions.push(action.copy(alloc)?)?;
        }
        Ok(Commit::new(actions))
    }
}
