//! Laws of what a version is read from. None of these functions does anything when it runs.

ghost use Rattle.dk_lawful.specs.Openable.{BaseStands, CleanupLeavesFloor, EachFromFloorIsKept, OthersLeaveFloor, PlainIsByCommits, SamePlacesReadAlike, StandingPlacesStand};
ghost use Rattle.dk_lawful.specs.SegmentLaws.{ReadAgrees, ReadWithoutBase, StandingStepMeans};
ghost use Rattle.dk_pqmodel.specs.FileMeans.{MeansOneList};

/// Whatever a version of a lawful log is read from, a complete checkpoint or none and then commits, published or staged,
/// and compacted files, one behind another: all of it means something, and it leads to the state of the history at the
/// version, but that a checkpoint may leave out expired tombstones (Delta Lake's PROTOCOL.md, "Action Reconciliation"). That
/// a Parquet file means at most one list of rows is a premise where there is a checkpoint.
pub fn segments_agree()
    ensures agrees { MeansOneList → ReadAgrees }
    ensures whole { ReadWithoutBase }
    ensures means { StandingStepMeans }
{}

/// On a lawful log each version of the history from the floor on can be opened, for every choice with the newest checkpoint: no
/// commit is missing of what it is read from, and each sidecar that its checkpoint names stands. That a Parquet file means at most
/// one list of rows is a premise, as it is of parts of checkpoints. The checkpoint that is chosen is one of a version of at most the
/// asked one, by the paths of its objects, which stand. A cleanup leaves a floor of at most the greater of the floor before
/// and its cut, and whatever takes no commit, checkpoint or compacted file away leaves the floor (Delta Lake's PROTOCOL.md, "Metadata
/// Cleanup"). Where neither a checkpoint nor a compacted file is chosen, a version is read from its commits alone. What a version is read
/// from hangs on which places are there, and not on their order, so a listing gives what the events do.
pub fn versions_stay_kept()
    ensures kept { MeansOneList → EachFromFloorIsKept }
    ensures base { BaseStands }
    ensures cleanup { CleanupLeavesFloor }
    ensures others { OthersLeaveFloor }
    ensures plain { PlainIsByCommits }
    ensures places { StandingPlacesStand }
    ensures alike { SamePlacesReadAlike }
{}
