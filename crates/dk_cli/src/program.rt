//! The top call.
ghost use Rattle.std.specs.Prelude.{◌≡◌, ◌+◌, ◌↔◌, ℕ, None, Option, IfSome};
ghost use Rattle.dk_conflicts.specs.declared.reads.Reads.{Reads};
ghost use Rattle.dk_lawful.specs.declared.segment.Choice.{Choice};
ghost use Rattle.dk_store.specs.Seen.{IfTold};
ghost use Rattle.dk_engine.specs.Held.{held};
ghost use Rattle.dk_engine.specs.Usual.{AreWithin};
ghost use Rattle.dk_lawful.specs.Kept.{IfBoth, KeepsLawful, KeepsLawfulPast};
ghost use Rattle.dk_txn.specs.Attempt.{attempt};
ghost use Rattle.dk_cli.specs.Actions.{actions_of};
ghost use Rattle.dk_cli.specs.declared.words.Command.TheVariants as commands;
ghost use Rattle.dk_cli.specs.Commit.{CommitAnswers, InputFirst, InputSays, InputTransacts, SaysOnce};
ghost use Rattle.dk_cli.specs.Effects.{PutsInStore, ReadsStore, TakesFromSource, WritesToSink};
ghost use Rattle.dk_cli.specs.Equipment.{KeepsEquipment};
ghost use Rattle.dk_cli.specs.Endings.{MayEnd, ShowMayEnd};
ghost use Rattle.dk_cli.specs.Show.{ShowsAs};
ghost use Rattle.dk_cli.specs.Run.{AnswersText, Asks, AsksToRead, LeavesInput, TakesInput, asked, cut_for};
ghost use Rattle.dk_cli.specs.History.{ShowsLog};
ghost use Rattle.dk_cli.specs.ShownHistory.{ShowsHistory};

use crate::commit::commit_command;
use crate::show::show_text;
use crate::status::Status;
use crate::words::{Command, command_of};
use dk_engine::Engine;
use dk_lawful::Choice;
use dk_store::{Failed, Sink, Source, give_all};
use dk_txn::{CommitOptions, Intent};
use std::alloc::Global;

/// Makes the whole output of `show`, and then gives it to the sink.
fn show_command<O: Sink>(
    alloc: Global,
    engine: &mut Engine,
    out: &mut O,
    at: Option<u64>,
    choice: &Choice,
    now: i64,
) -> Status
    ensures reads { ReadsStore (seen (held engine.old.store)) (seen (held engine.new.store)) result }
    ensures writes { WritesToSink (O.sink_seen out.old) (O.sink_seen out.new) result }
    ensures ends { ShowMayEnd at result }
    ensures answer { IfTold (seen (held engine.old.store)) (λ events. AnswersText (ShowsAs events engine.old.limits at choice.now now) (O.sink_seen out.old).taken result (O.sink_seen out.new).taken) }
    ensures lawful { KeepsLawful (seen (held engine.old.store)).told (seen (held engine.new.store)).told }
    ensures equipment { KeepsEquipment engine.old engine.new }
{
    match show_text(alloc, engine, at, choice, now) {
        Err(refusal) => Status::Refused(refusal),
        Ok(text) => match give_all(out, &text) {
            Ok(()) => Status::Done,
            Err(Failed) => Status::SinkFault,
        },
    }
}

/// All that the program does: carries out the command that the words say over the engine, and ends with a status. `show` follows
/// Delta Lake's PROTOCOL.md, "Action Reconciliation", and `commit` "Delta Log Entries" and "Commit Provenance Information" there.
///
/// `now` is the moment of the call in milliseconds since 1970-01-01T00:00:00Z, and `base` the first of the ids that a
/// command may draw. By now the commands are `show` with `--at V` or without, and `commit` with `--reads nothing` or
/// `--reads table` or without. The whole output is made first and given to the sink at the end; `commit` reads the input to
/// its end, before it asks the store; its transaction begins at the latest version, has read so much of it, and has the id
/// `base`.
///
/// `ends` names the statuses that each command may end with, over any store. `whole_log` is the promise on `show` in the
/// subject's own words: over a log of commit files 0 to n, where no later version stands ratified, neither a checkpoint nor a
/// compacted file is listed and no commit is over the limit of objects, and whose version at hand is one that is read, the sink
/// took exactly the text of that version as the fold of the commits up to it gives it. `show` says the
/// same of every log, by what the version opens as, and with it exactly when each refusal comes. `shows_history` says it of each
/// lawful log by its history: what is shown is the asked version of the history, or its last one, with the state that the
/// objects make up which it is read from. That is the state that the history's commits up to it lead to, but that removed files
/// may lack whose time isn't above the log's horizon; read from commits alone it is exactly that state. A refusal says that a
/// commit which the version needs is missing, that the version is above the last one,
/// that an object is over the limit, or what the table asks for that isn't read, and so is never `Damaged`. `commit` says
/// which one event a commit adds, and exactly when each refusal comes. `lawful` is the promise on the log: whatever the
/// command and its end, what was lawful stays so. `history` is the promise on `commit` in the subject's own words: with Done
/// the history of a lawful log has exactly this commit more, at the version that was answered.
pub fn run<I: Source, O: Sink>(
    alloc: Global,
    words: &[String],
    engine: &mut Engine,
    input: &mut I,
    out: &mut O,
    now: i64,
    base: u128,
) -> Status
    requires { AreWithin engine.old.limits }
    ensures usage { (result ≡ Status.Usage) ↔ (asked words.now ≡ None) }
    ensures ends { MayEnd (asked words.now) result }
    ensures show { (at : Option ℕ) (choice : Choice) → Asks words.now (commands.Show at choice) → IfTold (seen (held engine.old.store))
        (λ events. AnswersText (ShowsAs events engine.old.limits at choice now) (O.sink_seen out.old).taken result (O.sink_seen out.new).taken) }
    ensures whole_log { (at : Option ℕ) (choice : Choice) → Asks words.now (commands.Show at choice) → IfTold (seen (held engine.old.store))
        (λ events. ShowsLog events engine.old.limits at choice now (O.sink_seen out.old).taken result (O.sink_seen out.new).taken) }
    ensures shows_history { (at : Option ℕ) (choice : Choice) → Asks words.now (commands.Show at choice) → IfTold (seen (held engine.old.store))
        (λ events. ShowsHistory events engine.old.limits at choice now (O.sink_seen out.old).taken result (O.sink_seen out.new).taken) }
    ensures commit { (reads : Reads) → Asks words.now (commands.Commit reads) → IfTold (seen (held engine.old.store)) (λ events. IfSome (I.source_seen input.old).left (λ left.
        CommitAnswers (actions_of engine.old.limits left) (λ actions. attempt events engine.old.limits actions now base) events (O.sink_seen out.old).taken result (O.sink_seen out.new).taken (seen (held engine.new.store)).told)) }
    ensures transacts { (reads : Reads) → Asks words.now (commands.Commit reads) → IfSome (I.source_seen input.old).left (λ left.
        InputTransacts (actions_of engine.old.limits left) engine.old.limits now reads base (seen (held engine.old.store)).told result (seen (held engine.new.store)).told) }
    ensures input_first { TakesInput words.now → IfSome (I.source_seen input.old).left (λ left. InputFirst (actions_of engine.old.limits left) result engine.old.store engine.new.store) }
    ensures lawful { KeepsLawfulPast (cut_for (asked words.now)) (seen (held engine.old.store)).told (seen (held engine.new.store)).told }
    ensures history { (reads : Reads) → Asks words.now (commands.Commit reads) → IfSome (I.source_seen input.old).left (λ left. IfBoth (seen (held engine.old.store)).told (seen (held engine.new.store)).told
        (InputSays (actions_of engine.old.limits left) now base result (O.sink_seen out.old).taken (O.sink_seen out.new).taken)) }
    ensures once { (reads : Reads) → Asks words.now (commands.Commit reads) → IfBoth (seen (held engine.old.store)).told (seen (held engine.new.store)).told (SaysOnce base result) }

    // What it touches, and what stays as it was.
    ensures reads { AsksToRead words.now → ReadsStore (seen (held engine.old.store)) (seen (held engine.new.store)) result }
    ensures puts { PutsInStore (seen (held engine.old.store)) (seen (held engine.new.store)) result }
    ensures takes { TakesInput words.now → TakesFromSource (engine.old.limits.input + 1) (I.source_seen input.old) (I.source_seen input.new) result }
    ensures unread { LeavesInput words.now → input.new ≡ input.old }
    ensures writes { WritesToSink (O.sink_seen out.old) (O.sink_seen out.new) result }
    ensures unasked { result ≡ Status.SourceFault → engine.new.store ≡ engine.old.store }
    ensures equipment { KeepsEquipment engine.old engine.new }
{
    match command_of(words) {
        None => Status::Usage,
        Some(Command::Show { at, choice }) => show_command(alloc, engine, out, at, &choice, now),
        Some(Command::Commit { reads }) => {
            let limits = engine.limits;
            let options = CommitOptions { limits, now };
            let intent = Intent { reads, id: base };
            commit_command(alloc, engine, input, out, options, intent)
        }
    }
}
