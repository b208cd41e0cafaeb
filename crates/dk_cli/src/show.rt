//! The command `show`: a version of the table, as text.
ghost use Rattle.std.specs.Prelude.{◌≡◌, IfOk};
ghost use Rattle.dk_store.specs.Seen.{IfTold};
ghost use Rattle.dk_engine.specs.Answers.{AnswersBy};
ghost use Rattle.dk_engine.specs.Held.{held};
ghost use Rattle.dk_snapshot.specs.Opens.{Opens};
ghost use Rattle.dk_snapshot.specs.Refusals.{OpenRefuses};
ghost use Rattle.dk_txn.specs.Effects.{OnlyChecks};
ghost use Rattle.dk_cli.specs.Equipment.{KeepsEquipment};
ghost use Rattle.dk_cli.specs.Show.{ShowsAs, text_of_snapshot};

use crate::text::shown_text;
use dk_engine::{Engine, Refusal};
use dk_lawful::Choice;
use dk_snapshot::{OpenOptions, Snapshot, open_at};
use std::alloc::{AllocError, Global};

/// The text of a snapshot.
fn text_of(alloc: Global, snapshot: &Snapshot) -> Result<Vec<u8>, AllocError>
    ensures { IfOk result (λ text. text.items ≡ text_of_snapshot snapshot.now) }
{
    shown_text(alloc, snapshot.version, &snapshot.state, snapshot.cut)
}

/// The asked version of the engine's table, or the latest one, as it is read under the choice.
fn open(
    alloc: Global,
    engine: &mut Engine,
    at: Option<u64>,
    choice: &Choice,
    now: i64,
) -> Result<Snapshot, Refusal>
    ensures effects { OnlyChecks (OpenRefuses at) (seen (held engine.old.store)) (seen (held engine.new.store)) result }
    ensures equipment { KeepsEquipment engine.old engine.new }
    ensures means { IfTold (seen (held engine.old.store)) (λ events. AnswersBy (λ snapshot. snapshot) result (Opens events engine.old.limits at choice.now now)) }
{
    let options = OpenOptions {
        limits: engine.limits,
        now,
        choice: *choice,
    };
    open_at(alloc, &mut *engine.store, &mut *engine.json, at, options)
}

/// The whole output of `show` of a version.
pub(crate) fn show_text(
    alloc: Global,
    engine: &mut Engine,
    at: Option<u64>,
    choice: &Choice,
    now: i64,
) -> Result<Vec<u8>, Refusal>
    ensures effects { OnlyChecks (OpenRefuses at) (seen (held engine.old.store)) (seen (held engine.new.store)) result }
    ensures equipment { KeepsEquipment engine.old engine.new }
    ensures means { IfTold (seen (held engine.old.store)) (λ events. AnswersBy (λ text. text.items) result (ShowsAs events engine.old.limits at choice.now now)) }
{
    match open(alloc, engine, at, choice, now) {
        Err(refusal) => Err(refusal),
        Ok(snapshot) => Ok(text_of(alloc, &snapshot)?),
    }
}
