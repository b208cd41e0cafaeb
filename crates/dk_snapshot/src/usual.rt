//! The choice under which versions are opened usually.
ghost use Rattle.std.specs.Prelude.{◌≡◌};
ghost use Rattle.dk_snapshot.specs.Opening.{usual_choice};

use dk_lawful::{Checkpoints, Choice};

/// The choice under which versions are opened usually: the newest checkpoint, compacted files, published commits first (Delta
/// Lake's PROTOCOL.md, "Checkpoints", "Log Compaction Files", "Catalog-managed tables"). Takes no memory.
pub fn usual_choice() -> Choice
    ensures { result ≡ usual_choice }
{
    Choice {
        checkpoints: Checkpoints::Newest,
        compacted: true,
        staged_first: false,
    }
}
