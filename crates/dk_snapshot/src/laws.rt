//! Laws of what a version is, over the events of a store. None of these functions does anything when it runs.
ghost use Rattle.dk_snapshot.specs.BaseExample.{AbsentIsMissing, BadLineIsNamed, CodecIsNamed, EarlierPartIsFirst, EncodingIsNamed, GreatIsOver, LackingSidecarIsMissing, MarkedTwiceIsDamaged, MisnamingIsDamaged, TextForFileIsDamaged, UnmarkedIsDamaged, WholeIsRead};
ghost use Rattle.dk_snapshot.specs.KeptVersions.{NotKeptIsMissing, OpenedIsKept};
ghost use Rattle.dk_snapshot.specs.LawfulOpens.{AboveIsNoVersion, EachAnswer, EmptyIsMissing, GapIsMissing, KeptIsAnswered, LatestIsLast, OpenedAgrees, OpenedHasCut, OpenedIsAsked, OpenedIsTable, UndeletedIsKept};
ghost use Rattle.dk_snapshot.specs.Opens.{OpensAsOne, OpensAsSome};
ghost use Rattle.dk_snapshot.specs.OldestExample.{ClassicIsOldest, CommitIsOldest, CompactedIsOldest, PartIsOldest, V2IsOldest};
ghost use Rattle.dk_snapshot.specs.LatestVersion.{LatestIsGreatest, ListedIsGreatest};

/// The latest version of a store's events, and so of a listing of them, is the greatest one that is published, stands
/// ratified, or has a complete checkpoint in the log's folder (Delta Lake's PROTOCOL.md, "Delta Log Entries",
/// "Checkpoints", "Catalog-managed tables").
pub fn latest_is_greatest()
    ensures events { LatestIsGreatest }
    ensures listed { ListedIsGreatest }
{}

/// Whatever a store holds, a version opens as something, and as one thing alone (Delta Lake's PROTOCOL.md, "Action
/// Reconciliation").
pub fn opens_as_one()
    ensures some { OpensAsSome }
    ensures one { OpensAsOne }
{}

/// On any store, lawful or not, a version that is answered is kept: none of the commits that it needs is missing. One that is
/// at most the latest and isn't kept is refused with the path of its first missing commit.
pub fn opened_is_kept()
    ensures kept { OpenedIsKept }
    ensures missing { NotKeptIsMissing }
{}

/// On a lawful log a version opens exactly where the history has it and it is kept, and its state is that of the history's
/// commits up to it. Without an asked version it is the last one of the history. Its cut is the moment of the call, less the
/// time that the table keeps removed files. A version of the history that is kept opens, unless one of its objects is
/// over the limit, or the text of how long the table keeps removed files is no interval, or the table awaits a feature that
/// isn't built so far: `Unsupported` names that setting or what isn't read. So it is never `Missing`, `NoVersion` or `Damaged`. As long as no deletion has taken what a version needs,
/// each one is kept. One that isn't kept is `Missing` of its first missing commit, and one above the last is `NoVersion`.
/// Nothing else is answered (Delta Lake's PROTOCOL.md, "Delta Log Entries", "Action
/// Reconciliation", "Catalog-managed tables").
pub fn lawful_opens()
    ensures latest { LatestIsLast }

    // what is answered
    ensures asked { OpenedIsAsked }
    ensures agrees { OpenedAgrees }
    ensures state { OpenedIsTable }
    ensures cut { OpenedHasCut }

    // each version of the history
    ensures kept { KeptIsAnswered }
    ensures undeleted { UndeletedIsKept }
    ensures missing { GapIsMissing }

    // no version of it
    ensures above { AboveIsNoVersion }
    ensures empty { EmptyIsMissing }

    // each answer and its cause
    ensures each { EachAnswer }
{}

/// The oldest object of a segment, row by row: without a checkpoint its first commit or compacted file, else the checkpoint's one
/// object or its first part (Delta Lake's PROTOCOL.md, "Checkpoints", "Log Compaction Files").
pub fn oldest_objects()
    ensures commit { CommitIsOldest }
    ensures compacted { CompactedIsOldest }
    ensures classic { ClassicIsOldest }
    ensures part { PartIsOldest }
    ensures v2 { V2IsOldest }
{}

/// What the checkpoint that a segment goes on from is read as, row by row (Delta Lake's PROTOCOL.md, "V2 Spec", "Sidecar Files",
/// "Multi-part checkpoint"; Apache Parquet, parquet.thrift). One in JSON means its lines, where it says its version once and each
/// sidecar that it names stands. Of the objects, and then of the sidecars, the first that can't be read refuses it: over the limit
/// by its size, absent, damaged at a line or as a whole, or compressed or encoded in a way that isn't read.
pub fn bases_are_read()
    ensures whole { WholeIsRead }

    // the object, or a part
    ensures absent { AbsentIsMissing }
    ensures great { GreatIsOver }
    ensures part { EarlierPartIsFirst }

    // in JSON
    ensures line { BadLineIsNamed }
    ensures unmarked { UnmarkedIsDamaged }
    ensures marked_twice { MarkedTwiceIsDamaged }
    ensures misnaming { MisnamingIsDamaged }
    ensures sidecar { LackingSidecarIsMissing }

    // in Parquet
    ensures text { TextForFileIsDamaged }
    ensures codec { CodecIsNamed }
    ensures encoding { EncodingIsNamed }
{}
