//! Laws of the definitions, for the crates above.

ghost use Rattle.dk_model.specs.Changes.{LastDecides};
ghost use Rattle.dk_model.specs.CommitText.{FaultIsFirst};
ghost use Rattle.dk_model.specs.ReadBack.{WrittenReadsBack, OwnReadsBack, LinesAreUtf8};
ghost use Rattle.dk_model.specs.WellKept.{StaysWellKept};

/// Lists of actions whose last protocol, metadata and change of each path are the same lead from every
/// state to the same state (Delta Lake's PROTOCOL.md, "Action Reconciliation").
pub fn last_decides()
    ensures { LastDecides }
{}

/// What writers of checkpoints need of a state holds of the empty one, and each step keeps it (Delta Lake's
/// PROTOCOL.md, "Checkpoints").
pub fn stays_well_kept()
    ensures { StaysWellKept }
{}

/// The number of a fault is that of the first line that means nothing, counted from 0.
pub fn fault_is_first()
    ensures { FaultIsFirst }
{}

/// A text that is written for actions means those of them that have a line (Delta Lake's PROTOCOL.md, "Actions").
pub fn written_reads_back()
    ensures { WrittenReadsBack }
{}

/// Behind the line in which a transaction speaks of its own commit (Delta Lake's PROTOCOL.md, "Commit Provenance
/// Information"), such a text means that and the actions.
pub fn own_reads_back()
    ensures { OwnReadsBack }
{}

/// Where a text that is written for actions is UTF-8, so is each of their lines.
pub fn lines_are_utf8()
    ensures { LinesAreUtf8 }
{}
