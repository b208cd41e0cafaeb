//! Laws of transactions, over the events of a store. None of these functions does anything when it runs.
ghost use Rattle.dk_txn.specs.FitLaws.{AttemptedByFile, AttemptsAreTransacted, FitComes, FitIsNext, StandingIsNext, WrittenByFile};
ghost use Rattle.dk_txn.specs.Starts.{StartsAsOne, StartsAsSome};
ghost use Rattle.dk_txn.specs.WinnerLaws.{OthersAreLater, OwnIsHad};

/// On a lawful log the winners of a transaction are all commits of the history since its snapshot, and none of these has its id;
/// or the own commit that is found is the one that the history has there (Delta Lake's PROTOCOL.md, "Delta Log
/// Entries", "Commit Provenance Information").
pub fn winners_are_the_history()
    ensures others { OthersAreLater }
    ensures own { OwnIsHad }
{}

/// What a transaction that stands to a lawful log as it should is to write is the next version of the history: the rules hold
/// there, and none of the commits since its snapshot is in its way. What it commits, as the law of the log has it at the moment of
/// the call, is the line of its id and its actions, as long as tables whose commits say their times are refused by name (Delta
/// Lake's PROTOCOL.md, "Delta Log Entries", "Commit Provenance Information").
pub fn fit_transactions_come_next()
    ensures next { FitIsNext }
    ensures standing { StandingIsNext }
    ensures comes { FitComes }
    ensures transacted { AttemptsAreTransacted }
{}

/// What a transaction comes after that begins at the latest version is what that version may open as, and one value (Delta Lake's
/// PROTOCOL.md, "Delta Log Entries", "Action Reconciliation").
pub fn transactions_start_as_one()
    ensures some { StartsAsSome }
    ensures one { StartsAsOne }
{}

/// What a commit is to write comes by file, over any events, as long as tables that a catalogue manages are refused by name (Delta
/// Lake's PROTOCOL.md, "Catalog-managed tables").
pub fn commits_come_by_file()
    ensures written { WrittenByFile }
    ensures attempted { AttemptedByFile }
{}
