//! The laws of the log, for the crates above. None of these functions does anything when it runs.

ghost use Rattle.std.specs.Prelude.{[], codes, pos, true, ◌++◌, ◌∷◌, ◌≡◌, ℤ};
ghost use Rattle.dk_lawful.specs.BacklogExample.{BacklogIsLawful, both_ratified, covered, next_text};
ghost use Rattle.dk_lawful.specs.BrokenRules.{appending_log, applying_text, informing_text, removing_text, settling_text, sidecar_text, untimed_text, vector_text};
ghost use Rattle.dk_lawful.specs.Calls.{DeleteKeepsLawful, ForgetKeepsLawful, KeepsLawfulOnwards, NoCutIsSame, PutNewKeepsLawful, PutOverKeepsLawful, RatifyKeepsLawful, SameIsPastEach};
ghost use Rattle.dk_lawful.specs.Example.{ExampleHistory, ExampleIsLawful, IsForbidden, example, first_text, listing_text, managed_actions, managed_text, ratifying, second_actions, second_text, shrinking_text, staging, upgrading_text};
ghost use Rattle.dk_lawful.specs.History.{by_catalogue, by_file, history};
ghost use Rattle.dk_lawful.specs.Lawful.{Lawful};
ghost use Rattle.dk_lawful.specs.Laws.{AgreeingHaveSameRules, CommitsStay, CompleteIsPublished, EachCameItsWay, EachIsValid, FeaturesStay, FilesStay, FilesUpToJoin, FloorIsUpward, GreaterHorizonIsLawful, HistoryGrows, KeptFromFloor, LastIsAvailable, LastIsFromFloor, LastIsPublished, LastPublishedIsOne, LogShowsHistory, LowWriterIsUnmanaged, ManagementStays, NeededStays, NextIsFree, NextIsRatifiedNext, NoneBeyondLast, OneAtATime, PrefixesAreLawful, PublishedStays, PutAddsCommit, PutKeepsLawful, PutLeavesFloor, RatifiedIsAboveJoin, RatifiedIsManaged, RatifiedStays, ReadLogIsHistory, RulesByHeads, SidecarsStay, StagedCommitIsHistory, StandingCommitIsHistory, TableIsWhole, TakenAddsNothing, UnpublishedIsStaged, WholeLogIsOne};
ghost use Rattle.dk_lawful.specs.ManagedExample.{ManagedHistory, ManagedIsLawful, adding_text, catalogued, checkpoint_text, founded, late_text, staged_ahead, staged_twice, staged_unreadable};
ghost use Rattle.dk_lawful.specs.SoFar.{ReadSoFar, RulesSoFar, WrittenHasNeither};
ghost use Rattle.dk_lawful.specs.Transacted.{TransactedPlainly};
ghost use Rattle.dk_lawful.specs.MoreExamples.{IsLawfulAfter, cleaning, compacting, dropping, forgetting, hinting, staged_event, storing};
ghost use Rattle.dk_paths.specs.Names.{commit_path};
ghost use Rattle.dk_paths.specs.Places.{Compacted, Staged, V2, place_path};
ghost use Rattle.dk_paths.specs.Staged.{staged_name};
ghost use Rattle.dk_store.specs.Told.{Deleted, Forgotten, Made, Over, Ratified};

/// Whether a list of events is lawful is decided event by event: what was before is lawful, so the log is lawful
/// after each single write. A greater horizon permits as much.
pub fn permitted_one_by_one()
    ensures prefix { PrefixesAreLawful }
    ensures horizon { GreaterHorizonIsLawful }
{}

/// Whatever events come, lawful or not, the history only grows, by at most one commit an event, and each commit
/// stays at its version.
pub fn history_only_grows()
    ensures grows { HistoryGrows }
    ensures one { OneAtATime }
    ensures stays { CommitsStay }
    ensures ways { EachCameItsWay }
{}

/// On a lawful log a commit that stands means what the history has at its version, and so does the staged commit of
/// a version that stands ratified. The last version can be read, and none beyond it. While nothing that is needed was
/// deleted, the log of a table that isn't managed shows the whole history and nothing else; and whoever has read a
/// whole log that leads to such a table has read the history, whatever was deleted (Delta Lake's PROTOCOL.md, "Delta
/// Log Entries").
pub fn log_is_the_history()
    ensures commit { StandingCommitIsHistory }
    ensures staged { StagedCommitIsHistory }
    ensures available { LastIsAvailable }
    ensures none_beyond { NoneBeyondLast }
    ensures whole { TableIsWhole }

    // a table that isn't managed
    ensures shown { LogShowsHistory }
    ensures one { WholeLogIsOne }
    ensures read { ReadLogIsHistory }
    ensures last { LastIsPublished }
    ensures last_one { LastPublishedIsOne }
{}

/// Nothing that is needed goes. Each version can be read or lies below a complete checkpoint; from the floor on below
/// one of at most the version that is asked for. Sidecars that a checkpoint names stand, and what was published stays
/// so (Delta Lake's PROTOCOL.md, "Metadata Cleanup").
pub fn needed_stays()
    ensures needed { NeededStays }
    ensures kept { KeptFromFloor }
    ensures last { LastIsFromFloor }
    ensures upward { FloorIsUpward }
    ensures sidecars { SidecarsStay }
    ensures files { FilesStay }
    ensures published { PublishedStays }
    ensures complete { CompleteIsPublished }
{}

/// What stands ratified came to a managed table and can be read, staged where it isn't published yet; and a table that is
/// managed stays so. Versions up to the one that joined the catalogue came by files, and what stands ratified is above that one
/// (Delta Lake's PROTOCOL.md, "Catalog-managed tables").
pub fn ratified_stays()
    ensures managed { RatifiedIsManaged }
    ensures available { RatifiedStays }
    ensures unpublished { UnpublishedIsStaged }
    ensures next { NextIsRatifiedNext }
    ensures management { ManagementStays }
    ensures files { FilesUpToJoin }
    ensures above { RatifiedIsAboveJoin }
{}

/// What the rules of a commit look at, and that a feature in force stays so (Delta Lake's PROTOCOL.md, "Protocol Evolution"): states
/// that agree have the same valid commits, given the commits before. The rules permit tables whose commits say their time and
/// tables that a catalogue manages, which this program refuses by name so far: where neither is asked for, the rules that it tests
/// are these.
pub fn rules_of_a_commit()
    ensures heads { RulesByHeads }
    ensures agreeing { AgreeingHaveSameRules }
    ensures features { FeaturesStay }
    ensures each { EachIsValid }

    // what is built so far
    ensures neither { WrittenHasNeither }
    ensures so_far { RulesSoFar }
    ensures read { ReadSoFar }
    ensures plainly { TransactedPlainly }
{}

/// One put of a commit's text at the path of the next version leaves a lawful log lawful, and adds exactly that
/// commit to the history, or nothing, as the answer says. Where something stands at the path nothing is added, and
/// at the path of the next version nothing stands. A table of a writer version below 7 goes on by such files (Delta Lake's
/// PROTOCOL.md, "Delta Log Entries", "Catalog-managed tables").
pub fn next_commit_is_added()
    ensures lawful { PutKeepsLawful }
    ensures adds { PutAddsCommit }
    ensures floor { PutLeavesFloor }
    ensures free { NextIsFree }
    ensures low { LowWriterIsUnmanaged }
    ensures taken { TakenAddsNothing }
{}

/// Each writing call of a store whose event is permitted leaves a lawful log lawful, with the old events as they were,
/// whatever it answers: also where it failed before or after its event, or left a beginning of an object that it was to
/// write over. What was lawful up to a horizon is so up to each that is at least that horizon and the cut of tombstones that the
/// call works for; where it works for none, up to the same. So it is over calls one after another.
pub fn calls_keep_the_law()
    ensures put_new { PutNewKeepsLawful }
    ensures put_over { PutOverKeepsLawful }
    ensures delete { DeleteKeepsLawful }
    ensures ratify { RatifyKeepsLawful }
    ensures forget { ForgetKeepsLawful }
    ensures same { NoCutIsSame }
    ensures past_each { SameIsPastEach }
    ensures onwards { KeepsLawfulOnwards }
{}

/// A lawful log of two commits, and its history.
pub fn example_is_lawful()
    ensures lawful { ExampleIsLawful }
    ensures history { ExampleHistory }
{}

/// What adds to a history and what doesn't.
pub fn example_histories()
    // a version that isn't the next one, a text that means nothing, an object that is written over
    ensures gap { history (Made (commit_path 3) second_text (pos 2) ∷ example) ≡ history example }
    ensures unreadable { history (Made (commit_path 2) (codes "{") (pos 2) ∷ example) ≡ history example }
    ensures over { history (Over (commit_path 2) second_text (pos 2) ∷ example) ≡ history example }

    // a ratified commit of a managed table, and there nothing that comes by file
    ensures staged { history staging ≡ by_file managed_actions ∷ [] }
    ensures ratified { history ratifying ≡ by_file managed_actions ∷ by_catalogue second_actions ∷ [] }
    ensures by_file { history (Made (commit_path 1) second_text (pos 2) ∷ staging) ≡ history staging }

    // what was deleted or forgotten stays in the history
    ensures deleted { history (Deleted (commit_path 0) ∷ example) ≡ history example }
    ensures forgotten { history (Forgotten 1 ∷ ratifying) ≡ history ratifying }
{}

/// The example goes on with events of the other kinds.
pub fn example_goes_on()
    ensures compacting { IsLawfulAfter compacting }
    ensures hinting { IsLawfulAfter hinting }
    ensures dropping { IsLawfulAfter dropping }
    ensures cleaning { IsLawfulAfter cleaning }
    ensures storing { IsLawfulAfter storing }
    ensures forgetting { IsLawfulAfter forgetting }
{}

/// For each condition on a commit an event that it forbids, and some of other kinds.
pub fn forbidden_events()
    // a version that isn't the next one
    ensures gap { IsForbidden example (Made (commit_path 3) second_text (pos 2)) }
    ensures again { IsForbidden example (Made (commit_path 1) second_text (pos 2)) }

    // a path at which something stands
    ensures taken { IsForbidden (Over (commit_path 0) first_text (pos 0) ∷ []) (Made (commit_path 0) first_text (pos 1)) }

    // a text that means nothing, and texts that break a rule
    ensures unreadable { IsForbidden example (Made (commit_path 2) (codes "{") (pos 2)) }
    ensures path_twice { IsForbidden example (Made (commit_path 2) (second_text ++ second_text) (pos 2)) }
    ensures no_protocol { IsForbidden [] (Made (commit_path 0) second_text (pos 0)) }
    ensures features { IsForbidden example (Made (commit_path 2) listing_text (pos 2)) }
    ensures upgrade { IsForbidden example (Made (commit_path 2) upgrading_text (pos 2)) }
    ensures size { IsForbidden example (Made (commit_path 2) shrinking_text (pos 2)) }

    // a commit by file of a table that a catalogue manages
    ensures managed { IsForbidden (Made (commit_path 0) managed_text (pos 0) ∷ []) (Made (commit_path 1) second_text (pos 1)) }

    // a commit that is written over or deleted
    ensures over { IsForbidden example (Over (commit_path 1) second_text (pos 2)) }
    ensures deleted { IsForbidden example (Deleted (commit_path 0)) }

    // a compacted file that does something else than its commits, means nothing, or has one that isn't published
    ensures wrong_sum { IsForbidden example (Made (place_path (Compacted 0 1)) second_text (pos 2)) }
    ensures unreadable_sum { IsForbidden example (Made (place_path (Compacted 0 1)) (codes "{") (pos 2)) }
    ensures sum_beyond { IsForbidden example (Made (place_path (Compacted 1 2)) second_text (pos 2)) }

    // a staged commit of a version that came, a ratification of a table that isn't managed, and that more is forgotten than is published
    ensures staged_below { IsForbidden example (Made (place_path (Staged 1 7)) second_text (pos 2)) }
    ensures unmanaged { IsForbidden (staged_event ∷ example) (Ratified 2 (staged_name 2 7)) }
    ensures forgotten { IsForbidden example (Forgotten 2) }
{}

/// Texts that break the rules of a commit which no text above breaks, each an event that may not come.
pub fn broken_rules()
    // its writer's word twice, and an action of checkpoints
    ensures informed_twice { IsForbidden example (Made (commit_path 2) (informing_text ++ informing_text) (pos 2)) }
    ensures sidecar_named { IsForbidden example (Made (commit_path 2) sidecar_text (pos 2)) }

    // an application or a domain twice
    ensures application_twice { IsForbidden example (Made (commit_path 2) (applying_text ++ applying_text) (pos 2)) }
    ensures domain_twice { IsForbidden example (Made (commit_path 2) (settling_text ++ settling_text) (pos 2)) }

    // rows that go from a table that they are only added to, which is a lawful one
    ensures appended { (horizon : ℤ) → Lawful appending_log horizon }
    ensures rows_removed { IsForbidden appending_log (Made (commit_path 1) removing_text (pos 1)) }

    // a domain without its feature
    ensures domain_early { IsForbidden example (Made (commit_path 2) settling_text (pos 2)) }

    // a managed table whose commits don't say their times, and a file with a deletion vector
    ensures untimed { IsForbidden [] (Made (commit_path 0) untimed_text (pos 0)) }
    ensures vector_added { IsForbidden example (Made (commit_path 2) vector_text (pos 2)) }
{}

/// A lawful log of a table that a catalogue manages: two commits of one version are staged, one is ratified and published, the
/// ratification is forgotten, both staged commits go, and a checkpoint comes (Delta Lake's PROTOCOL.md, "Catalog-managed tables").
/// Beside it events that lack one condition each, while all else holds.
pub fn managed_tables()
    ensures lawful { ManagedIsLawful }
    ensures history { ManagedHistory }

    // a valid commit by file; a ratification whose commit isn't later than the one before, under another name, of a later version, or
    // whose staged commit is absent or means nothing
    ensures by_file { IsForbidden staged_twice (Made (commit_path 1) adding_text (pos 3)) }
    ensures not_later { IsForbidden staged_twice (Ratified 1 (staged_name 1 8)) }
    ensures other_name { IsForbidden staged_twice (Ratified 1 (codes "x")) }
    ensures not_next { IsForbidden staged_ahead (Ratified 2 (staged_name 2 5)) }
    ensures staged_absent { IsForbidden founded (Ratified 1 (staged_name 1 7)) }
    ensures staged_means_nothing { IsForbidden staged_unreadable (Ratified 1 (staged_name 1 6)) }

    // a backfill with other bytes; and before the version is published its checkpoint, that it is forgotten, and that it goes
    ensures other_bytes { IsForbidden catalogued (Made (commit_path 1) late_text (pos 3)) }
    ensures checkpoint_early { IsForbidden catalogued (Made (place_path (V2 1 9 true)) checkpoint_text (pos 4)) }
    ensures forgotten_early { IsForbidden catalogued (Forgotten 1) }
    ensures dropped_early { IsForbidden catalogued (Deleted (place_path (Staged 1 7))) }
{}

/// A lawful log of the same table, of which two versions are ratified before either is published, a checkpoint comes, and one of
/// them goes after its ratification is forgotten. A later version isn't published before an earlier one, and what stands
/// ratified doesn't go, though a complete checkpoint is above it (Delta Lake's PROTOCOL.md, "Catalog-managed tables").
pub fn ratified_backlog()
    ensures lawful { BacklogIsLawful }
    ensures ahead { IsForbidden both_ratified (Made (commit_path 2) next_text (pos 5)) }
    ensures ratified { IsForbidden covered (Deleted (commit_path 1)) }
{}
