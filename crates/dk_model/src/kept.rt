//! What the types of an action's parts keep, for callers, who see its content alone.

ghost use Rattle.std.specs.Prelude.{IfSome};
ghost use Rattle.dk_model.specs.Pairs.{AreKeysRising};
ghost use Rattle.dk_model.specs.Ranges.{IsWhole, IsMetadataInRange, IsAddInRange, IsRemoveInRange, IsTxnInRange, IsInfoInRange, IsSidecarInRange, IsInRange};
ghost use Rattle.dk_model.specs.ReadBack.{HasRisingKeys, HasVersionsInRange};

use crate::action::{Action, AddFile, CommitInfo, Metadata, RemoveFile, SidecarRef, Txn};
use crate::pairs::Pairs;

impl Action {
    /// Does nothing but say, for proofs, that the numbers of an action are of 64 bits and that its maps
    /// have their keys in order.
    pub fn note_kept(&self)
        ensures range { HasVersionsInRange self.now → IsInRange self.now }
        ensures keys { HasRisingKeys self.now }
    {
        match self {
            Action::Protocol(_) => {}
            Action::Metadata(metadata) => note_metadata(metadata),
            Action::Add(file) => note_add(file),
            Action::Remove(file) => note_remove(file),
            Action::Txn(txn) => note_txn(txn),
            Action::Domain(_) => {}
            Action::Info(info) => note_info(info),
            Action::Cdc | Action::CheckpointMeta(_) => {}
            Action::Sidecar(sidecar) => note_sidecar(sidecar),
        }
    }
}

fn note_metadata(metadata: &Metadata)
    ensures range { IsMetadataInRange metadata.now }
    ensures keys { HasRisingKeys (Action.Metadata metadata.now) }
{
    note_numbers(&metadata.created_time);
    note_pairs(&metadata.options);
    note_pairs(&metadata.configuration);
}

fn note_add(file: &AddFile)
    ensures range { IsAddInRange file.now }
    ensures keys { HasRisingKeys (Action.Add file.now) }
{
    note_number(file.size);
    note_number(file.modification_time);
    note_numbers(&file.base_row_id);
    note_numbers(&file.default_row_commit_version);
    note_pairs(&file.partition_values);
    if let Some(tags) = &file.tags {
        note_pairs(tags);
    }
}

fn note_remove(file: &RemoveFile)
    ensures { IsRemoveInRange file.now }
{
    note_number(file.deletion_timestamp);
}

fn note_txn(txn: &Txn)
    ensures { IsTxnInRange txn.now }
{
    note_number(txn.version);
    note_numbers(&txn.last_updated);
}

fn note_sidecar(sidecar: &SidecarRef)
    ensures { IsSidecarInRange sidecar.now }
{
    note_number(sidecar.size);
    note_number(sidecar.stamp);
}

fn note_info(info: &CommitInfo)
    ensures { IsInfoInRange info.now }
{
    note_numbers(&info.in_commit_timestamp);
}

fn note_number(number: i64)
    ensures { IsWhole number }
{}

fn note_numbers(numbers: &Option<i64>)
    ensures { IfSome numbers.now IsWhole }
{
    if let Some(number) = numbers {
        note_number(*number);
    }
}

fn note_pairs(pairs: &Pairs)
    ensures { AreKeysRising pairs.now }
{
    let _ = pairs.as_slice();
}
