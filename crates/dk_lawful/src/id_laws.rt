//! The law of transactions' ids. The function does nothing when it runs.

ghost use Rattle.dk_lawful.specs.Ids.{AddedStandsAt, IdsAreNoMore, IdsStandOnce, IdsStay, StandsAtForGood};

/// An id of a transaction stands at most once in the history, where each event adds a commit with it only to a history
/// without it, and a commit with it stays at its version for good, whatever events come, lawful or not (Delta Lake's
/// PROTOCOL.md, "Commit Provenance Information"). So a commit that is added under an id that stood nowhere is the only one that has it.
pub fn ids_stand_once()
    ensures once { IdsStandOnce }
    ensures stay { IdsStay }
    ensures no_more { IdsAreNoMore }
    ensures added { AddedStandsAt }
    ensures for_good { StandsAtForGood }
{}
