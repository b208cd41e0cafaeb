//! The command `commit`: the actions of the input become the next version.
ghost use Rattle.std.specs.Prelude.{◌≡◌, ◌+◌, IfErr, IfSome};
ghost use Rattle.dk_store.specs.Seen.{IfTold};
ghost use Rattle.dk_engine.specs.Held.{held};
ghost use Rattle.dk_engine.specs.Usual.{AreWithin};
ghost use Rattle.dk_lawful.specs.Kept.{IfBoth, KeepsLawful};
ghost use Rattle.dk_txn.specs.Attempt.{attempt};
ghost use Rattle.dk_txn.specs.Commits.{Commits, SaysTransacted};
ghost use Rattle.dk_txn.specs.Effects.{MayCommit};
ghost use Rattle.dk_cli.specs.Actions.{actions_of, InputEnds, TakesActions};
ghost use Rattle.dk_cli.specs.Commit.{CommitAnswers, CommitEnds, EndsTransacting, GivesLine, InputFirst, InputSays, InputTransacts, SaysCommitted, SaysOnce};
ghost use Rattle.dk_cli.specs.Effects.{PutsInStore, ReadsSource, TakesFromSource, WritesToSink};
ghost use Rattle.dk_cli.specs.Equipment.{KeepsEquipment};
ghost use Rattle.dk_cli.specs.Endings.{CommitMayEnd};
ghost use Rattle.dk_txn.specs.Refusals.{CommitAtLatestRefuses};
ghost use Rattle.dk_txn.specs.Transactions.{Transacts};

use crate::actions::take_actions;
use crate::status::Status;
use crate::text::committed_text;
use dk_engine::{Engine, Limits, Refusal};
use dk_model::Commit;
use dk_store::{Failed, Sink, Source, give_all};
use dk_txn::{CommitOptions, Committed, Intent, commit_at_latest};
use std::alloc::Global;

/// Commits these actions to the engine's table, by a transaction that begins at the latest version and has read so much of it.
fn commit(
    alloc: Global,
    engine: &mut Engine,
    options: CommitOptions,
    intent: Intent,
    actions: Commit,
) -> Result<Committed, Refusal>
    ensures effects { MayCommit CommitAtLatestRefuses (seen (held engine.old.store)) (seen (held engine.new.store)) result }
    ensures commits { IfTold (seen (held engine.old.store)) (λ events. Commits (attempt events options.limits actions options.now intent.id) events result (seen (held engine.new.store)).told) }
    ensures transacts { Transacts options.limits options.now intent.reads actions intent.id (seen (held engine.old.store)).told result (seen (held engine.new.store)).told }
    ensures lawful { KeepsLawful (seen (held engine.old.store)).told (seen (held engine.new.store)).told }
    ensures history { IfBoth (seen (held engine.old.store)).told (seen (held engine.new.store)).told (SaysTransacted options.now intent.id actions result) }
    ensures equipment { KeepsEquipment engine.old engine.new }
{
    commit_at_latest(
        alloc,
        &mut *engine.store,
        &mut *engine.json,
        options,
        intent,
        actions,
    )
}

/// Gives the line of a version to the sink.
fn give_committed<O: Sink>(alloc: Global, out: &mut O, version: u64) -> Status
    ensures line { GivesLine version (O.sink_seen out.old).taken result (O.sink_seen out.new).taken }
    ensures writes { WritesToSink (O.sink_seen out.old) (O.sink_seen out.new) result }
{
    let Ok(text) = committed_text(alloc, version) else {
        return Status::Refused(Refusal::OutOfMemory);
    };
    match give_all(out, &text) {
        Ok(()) => Status::Done,
        Err(Failed) => Status::SinkFault,
    }
}

/// Commits these actions, and then gives the line of the version that they are.
fn commit_actions<O: Sink>(
    alloc: Global,
    engine: &mut Engine,
    out: &mut O,
    options: CommitOptions,
    intent: Intent,
    actions: Commit,
) -> Status
    ensures puts { PutsInStore (seen (held engine.old.store)) (seen (held engine.new.store)) result }
    ensures writes { WritesToSink (O.sink_seen out.old) (O.sink_seen out.new) result }
    ensures ends { CommitMayEnd result }
    ensures no_source { result ≡ Status.SourceFault → ⊥ }
    ensures answer { IfTold (seen (held engine.old.store)) (λ events. CommitEnds (attempt events options.limits actions options.now intent.id) events (O.sink_seen out.old).taken result (O.sink_seen out.new).taken (seen (held engine.new.store)).told) }
    ensures transacts { EndsTransacting options.limits options.now intent.reads actions intent.id (seen (held engine.old.store)).told result (seen (held engine.new.store)).told }
    ensures lawful { KeepsLawful (seen (held engine.old.store)).told (seen (held engine.new.store)).told }
    ensures history { IfBoth (seen (held engine.old.store)).told (seen (held engine.new.store)).told (SaysCommitted options.now intent.id actions result (O.sink_seen out.old).taken (O.sink_seen out.new).taken) }
    ensures once { IfBoth (seen (held engine.old.store)).told (seen (held engine.new.store)).told (SaysOnce intent.id result) }
    ensures equipment { KeepsEquipment engine.old engine.new }
{
    match commit(alloc, engine, options, intent, actions) {
        Err(refusal) => Status::Refused(refusal),
        Ok(committed) => give_committed(alloc, out, committed.version),
    }
}

/// The actions of the whole input, by the engine's handler, within these limits.
fn read_actions<I: Source>(
    alloc: Global,
    engine: &mut Engine,
    input: &mut I,
    limits: Limits,
) -> Result<Commit, Status>
    requires { AreWithin limits }
    ensures means { IfSome (I.source_seen input.old).left (λ left. TakesActions result (actions_of limits left)) }
    ensures reads { ReadsSource (limits.input + 1) (I.source_seen input.old) (I.source_seen input.new) result }
    ensures ends { IfErr result InputEnds }
    ensures same { engine.new.store ≡ engine.old.store }
    ensures equipment { KeepsEquipment engine.old engine.new }
{
    take_actions(alloc, &mut *engine.json, input, limits)
}

/// Reads the input to its end, commits its actions, and then gives the line of the version that they are.
pub(crate) fn commit_command<I: Source, O: Sink>(
    alloc: Global,
    engine: &mut Engine,
    input: &mut I,
    out: &mut O,
    options: CommitOptions,
    intent: Intent,
) -> Status
    requires { AreWithin options.limits }
    ensures puts { PutsInStore (seen (held engine.old.store)) (seen (held engine.new.store)) result }
    ensures takes { TakesFromSource (options.limits.input + 1) (I.source_seen input.old) (I.source_seen input.new) result }
    ensures writes { WritesToSink (O.sink_seen out.old) (O.sink_seen out.new) result }
    ensures ends { CommitMayEnd result }
    ensures answer { IfTold (seen (held engine.old.store)) (λ events. IfSome (I.source_seen input.old).left (λ left.
        CommitAnswers (actions_of options.limits left) (λ actions. attempt events options.limits actions options.now intent.id) events (O.sink_seen out.old).taken result (O.sink_seen out.new).taken (seen (held engine.new.store)).told)) }
    ensures transacts { IfSome (I.source_seen input.old).left (λ left. InputTransacts (actions_of options.limits left) options.limits options.now intent.reads intent.id (seen (held engine.old.store)).told result (seen (held engine.new.store)).told) }
    ensures input_first { IfSome (I.source_seen input.old).left (λ left. InputFirst (actions_of options.limits left) result engine.old.store engine.new.store) }
    ensures unasked { result ≡ Status.SourceFault → engine.new.store ≡ engine.old.store }
    ensures lawful { KeepsLawful (seen (held engine.old.store)).told (seen (held engine.new.store)).told }
    ensures history { IfSome (I.source_seen input.old).left (λ left. IfBoth (seen (held engine.old.store)).told (seen (held engine.new.store)).told
        (InputSays (actions_of options.limits left) options.now intent.id result (O.sink_seen out.old).taken (O.sink_seen out.new).taken)) }
    ensures once { IfBoth (seen (held engine.old.store)).told (seen (held engine.new.store)).told (SaysOnce intent.id result) }
    ensures equipment { KeepsEquipment engine.old engine.new }
{
    match read_actions(alloc, engine, input, options.limits) {
        Err(status) => status,
        Ok(actions) => commit_actions(alloc, engine, out, options, intent, actions),
    }
}
