//! The law of those who are at work on a table. None of these functions does anything when it runs.

ghost use Rattle.dk_lawful.specs.ActorExample.{AddsAgain, AddsOne, BothFit, OwnFitsThere, OwnIsLawful, SignedTwiceIsLawful, SignedTwiceIsNotOnce};
ghost use Rattle.dk_lawful.specs.Actors.{AllFitWithBegun, BegunFits, GreaterHorizonFits, JobsStayFit, NobodyFits, OthersStayFit, PutStaysFit, TransactionsStayFit};

/// What others do on a lawful log leaves a transaction fit, and a job that makes a checkpoint: what they opened still
/// agrees with the history, an id stands once and after its snapshot, an answered version has it, and what was
/// recorded still means what was written, where it stands. So all that are at work stay fit, also at a greater horizon,
/// and nobody being at work is a start. A transaction that begins with what was opened and an id that stands nowhere is fit, and stays so
/// when actions are put to it.
pub fn others_stay_fit()
    ensures transactions { TransactionsStayFit }
    ensures jobs { JobsStayFit }
    ensures all { OthersStayFit }
    ensures horizon { GreaterHorizonFits }
    ensures start { NobodyFits }
    ensures begun { BegunFits }
    ensures put { PutStaysFit }
    ensures with_begun { AllFitWithBegun }
{}

/// A transaction and a job fit that began on the example, and a transaction with a staged commit of its own on a table that a catalogue
/// manages. Ids stand in no rule of a commit, so a lawful log may have one twice; that each
/// event adds it only to a history without it, or none does, is what rules that out (Delta Lake's PROTOCOL.md, "Commit Provenance
/// Information").
pub fn actors_at_work()
    ensures fit { BothFit }
    ensures lawful { SignedTwiceIsLawful }
    ensures not_once { SignedTwiceIsNotOnce }
    ensures adds_again { AddsAgain }
    ensures adds_one { AddsOne }
    ensures own_lawful { OwnIsLawful }
    ensures own_fits { OwnFitsThere }
{}
