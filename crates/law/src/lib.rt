// That what cancels in a log is not missed when the log is replayed, and what a join guarantees in every run.
#![tactic(auto)]

ghost use Rattle.law.specs.Examples.{WorkedRuns, WorkedJoins, NumberGivenAgainOverwrites};
ghost use Rattle.law.specs.Guarantees.{JoinFollowsTheEdits, RefusedJoinChangesNothing, ConflictNamesFirstFailure};
ghost use Rattle.law.specs.Guarantees.{JoinOverwritesOnlyWhatWasSeen, JoinTouchesOnlyWhatIsListed};
ghost use Rattle.law.specs.Guarantees.{ServerNumbersStayBelow, StateAgreesWithThePast, LogKnowsItsNumbers};
ghost use Rattle.law.specs.Theorems.{CancellingLosesNothing};
ghost use Rattle.law.specs.Theorems.{CountGrows, CopyGrows, SpellGrows, LogGrows};

pub fn cancelling_loses_nothing()
    ensures { CancellingLosesNothing }
{}

pub fn spells_grow_by_one_record()
    ensures count { CountGrows }
    ensures copy { CopyGrows }
    ensures spell { SpellGrows }
    ensures log { LogGrows }
{}

pub fn joins_keep_their_guarantees()
    ensures follows { JoinFollowsTheEdits }
    ensures refused { RefusedJoinChangesNothing }
    ensures conflict { ConflictNamesFirstFailure }
    ensures numbers { ServerNumbersStayBelow }
    ensures state { StateAgreesWithThePast }
    ensures log { LogKnowsItsNumbers }
    ensures seen { JoinOverwritesOnlyWhatWasSeen }
    ensures listed { JoinTouchesOnlyWhatIsListed }
{}

// The premises of the guarantees can be met.
pub fn runs_compute()
    ensures { WorkedRuns }
{}

// What the records of the worked joins do one by one.
pub fn joins_compute()
    ensures { WorkedJoins }
{}

// Why no two loaders of a run may have one number, not even one after the other.
pub fn a_number_given_again_overwrites()
    ensures { NumberGivenAgainOverwrites }
{}
