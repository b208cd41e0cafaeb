//! What a table is at a version.

use crate::action::{Action, AddFile, Domain, Metadata, Protocol, RemoveFile, Txn};
use crate::commit::Commit;
use crate::text::Text;
use crate::text_map::TextMap;
use std::alloc::{AllocError, Global};

/// What an application has recorded last.
#[derive(Drop)]
pub struct Application {
    /// The application's own count.
    pub version: i64,
    /// When it was recorded, in milliseconds since 1970-01-01T00:00:00Z.
    pub last_updated: Option<i64>,
}

/// What a table is at a version (Delta Lake's PROTOCOL.md, "Action Reconciliation").
#[derive(Drop)]
pub struct TableState {
    /// The last protocol, where there was one.
    pub protocol: Option<Protocol>,
    /// The last metadata, where there was one.
    pub metadata: Option<Metadata>,
    /// The files of the table, each under its path.
    pub files: TextMap<AddFile>,
    /// The removed files: each path with the time of its removal, in milliseconds since
    /// 1970-01-01T00:00:00Z.
    pub tombstones: TextMap<i64>,
    /// What each application has recorded last, by its name.
    pub applications: TextMap<Application>,
    /// The configuration of each domain, by its name.
    pub domains: TextMap<Text>,
}

impl TableState {
    ghost use Rattle.std.specs.Prelude.{◌≡◌, OnOk};
    ghost use Rattle.dk_model.specs.State.{step, steps, empty_state};

    /// The state before all commits (Delta Lake's PROTOCOL.md, "Action Reconciliation"): nothing is set, nothing is live.
    pub fn new(alloc: Global) -> TableState
        ensures { result ≡ empty_state }
    {
        TableState {
            protocol: None,
            metadata: None,
            files: TextMap::new(alloc),
            tombstones: TextMap::new(alloc),
            applications: TextMap::new(alloc),
            domains: TextMap::new(alloc),
        }
    }

    /// Makes the steps of a commit, in order (Delta Lake's PROTOCOL.md, "Action Reconciliation"). `Err` says that memory was
    /// wanted and not had; the state must not be used further then.
    pub fn apply(&mut self, alloc: Global, commit: &Commit) -> Result<(), AllocError>
        ensures { OnOk result (self.new ≡ steps self.old commit.now) }
    {
        'actions: for action in commit.as_slice() {
            self.take(alloc, action.copy(alloc)?)?;
        }
        Ok(())
    }

    /// Makes the steps of a commit that is given up, in order (Delta Lake's PROTOCOL.md, "Action Reconciliation"), and copies
    /// none of its texts but the paths of its adds. `Err` says that memory was wanted and not had; the state must not be used
    /// further then.
    pub fn absorb(&mut self, alloc: Global, commit: Commit) -> Result<(), AllocError>
        ensures { OnOk result (self.new ≡ steps self.old commit) }
    {
        'actions: for action in commit.into_vec() {
            self.take(alloc, action)?;
        }
        Ok(())
    }

    /// Makes the step of one action (Delta Lake's PROTOCOL.md, "Action Reconciliation"). `Err` says that memory was wanted and
    /// not had; the state must not be used further then.
    pub fn take(&mut self, alloc: Global, action: Action) -> Result<(), AllocError>
        ensures { OnOk result (self.new ≡ step self.old action) }
    {
        match action {
            Action::Protocol(protocol) => {
                self.protocol = Some(protocol);
                Ok(())
            }
            Action::Metadata(metadata) => {
                self.metadata = Some(metadata);
                Ok(())
            }
            Action::Add(file) => self.add(alloc, file),
            Action::Remove(file) => self.remove(file),
            Action::Txn(txn) => self.record(txn),
            Action::Domain(domain) => self.set_domain(domain),
            Action::Info(_) | Action::Cdc | Action::CheckpointMeta(_) | Action::Sidecar(_) => Ok(
                (),
            ),
        }
    }

    fn add(&mut self, alloc: Global, file: AddFile) -> Result<(), AllocError>
        ensures { OnOk result (self.new ≡ step self.old (Action.Add file)) }
    {
        let mut kept = file;
        kept.data_change = false;
        let path = kept.path.copy(alloc)?;
        self.tombstones.remove(path.as_str());
        self.files.insert(path, kept)
    }

    fn remove(&mut self, file: RemoveFile) -> Result<(), AllocError>
        ensures { OnOk result (self.new ≡ step self.old (Action.Remove file)) }
    {
        self.files.remove(file.path.as_str());
        self.tombstones.insert(file.path, file.deletion_timestamp)
    }

    fn record(&mut self, txn: Txn) -> Result<(), AllocError>
        ensures { OnOk result (self.new ≡ step self.old (Action.Txn txn)) }
    {
        let application = Application {
            version: txn.version,
            last_updated: txn.last_updated,
        };
        self.applications.insert(txn.app_id, application)
    }

    fn set_domain(&mut self, domain: Domain) -> Result<(), AllocError>
        ensures { OnOk result (self.new ≡ step self.old (Action.Domain domain)) }
    {
        if domain.removed {
            self.domains.remove(domain.domain.as_str());
            Ok(())
        } else {
            self.domains.insert(domain.domain, domain.configuration)
        }
    }
}
