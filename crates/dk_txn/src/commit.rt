//! What is written of a commit.
ghost use Rattle.std.specs.Prelude.{IfErr, ◌≡◌, ◌<◌, ◌^◌, List, Ok, Err, Some, IsNone};
ghost use Rattle.dk_store.specs.Seen.{IfTold, StoreWrites, is_taken};
ghost use Rattle.dk_engine.specs.Effects.{MayPut};
ghost use Rattle.dk_store.specs.Objects.{object};
ghost use Rattle.dk_store.specs.Writing.{PutsNew};
ghost use Rattle.dk_model.specs.declared.action.Action.{Action};
ghost use Rattle.dk_model.specs.CommitText.{commit_of};
ghost use Rattle.dk_paths.specs.Names.{commit_path};
ghost use Rattle.dk_lawful.specs.Kept.{IfBoth, KeepsLawful};
ghost use Rattle.dk_txn.specs.Commits.{ComesNext, Commits, CountsClash, SaysHistory};
ghost use Rattle.dk_txn.specs.Refusals.{TransactionRefuses};
ghost use Rattle.dk_txn.specs.Transactions.{by_file_writing};

use crate::attempt::Writing;
use dk_engine::Refusal;
use dk_model::Text;
use dk_paths::commit_path;
use dk_store::{Put, Store, StoreError};
use std::alloc::Global;

/// A commit that was made.
#[derive(Clone, Copy)]
pub struct Committed {
    /// From 0 to 9,223,372,036,854,775,807.
    pub version: u64,
}

/// Makes an object where none is.
fn put_if_absent(
    store: &mut dyn Store,
    path: &str,
    bytes: &[u8],
    now: i64,
) -> Result<Put, StoreError>
    ensures events { PutsNew path.now bytes.now (seen store.old).told result (seen store.new).told }
    ensures writes { StoreWrites (is_taken result) (seen store.old) (seen store.new) result }
{
    store.put_new(path, bytes, now)
}

/// Writes the commit where nothing stands.
pub(crate) fn write(
    alloc: Global,
    store: &mut dyn Store,
    writing: &Writing,
    now: i64,
) -> Result<Committed, Refusal>
    requires { writing.now.version < 2 ^ 63 }
    ensures commits { IfTold (seen store.old) (λ events. IsNone (object events (commit_path writing.now.version))
        → Commits (Ok (by_file_writing writing.now)) events result (seen store.new).told) }
    ensures puts { MayPut (seen store.old) (seen store.new) result }
    ensures refusals { IfErr result TransactionRefuses }
    ensures clash { CountsClash result (seen store.old).clashes (seen store.new).clashes }
    ensures lawful { (commit : List Action) → commit_of writing.now.text.items ≡ Some commit
        → IfTold (seen store.old) (ComesNext writing.now.version commit) → KeepsLawful (seen store.old).told (seen store.new).told }
    ensures history { (commit : List Action) → commit_of writing.now.text.items ≡ Some commit
        → IfTold (seen store.old) (ComesNext writing.now.version commit) → IfBoth (seen store.old).told (seen store.new).told (SaysHistory commit result) }
{
    let path = commit_path(alloc, writing.version)?;
    match put_if_absent(store, path.as_str(), &writing.text, now) {
        Ok(Put::Made) => Ok(Committed {
            version: writing.version,
        }),
        Ok(Put::Exists) => Err(Refusal::Taken {
            path: Text::new(path),
        }),
        Err(StoreError::Failed) => Err(Refusal::Store),
        Err(StoreError::OutOfMemory) => Err(Refusal::OutOfMemory),
    }
}
