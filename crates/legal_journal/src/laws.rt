ghost use Rattle.legal_journal.specs.Theorems.{JournalRuns, TakesAreBounded, EndIsQuiet, LaneChoicesAreExact, DutiesAreExact, OneLaneGoesOn, RunsGoOn, CutsAreConsistent, EpochsAreInRange, SealedAreInForm, CutsAreFit, SealedAreFit, JournalsGrow, EventsFollowTakes, EventsAreBounded, EpochsFollow, SealedAreFound, SealsAdd};

/// The Takes and Gives of a legal journal are a run to its state.
pub fn journal_runs()
    ensures { JournalRuns }
{}

/// A legal journal has at most the bound's number of Takes.
pub fn takes_are_bounded()
    ensures { TakesAreBounded }
{}

/// After an End every worker rests without mail, and no worker took since the last Ask.
pub fn end_is_quiet()
    ensures { EndIsQuiet }
{}

/// What a lane or the coordinator chooses is admitted, and they choose nothing exactly where nothing of theirs is admitted.
pub fn choices_are_exact()
    ensures lane { LaneChoicesAreExact }
    ensures duty { DutiesAreExact }
{}

/// A run that has not ended can go on, by any one lane.
pub fn runs_go_on()
    ensures alone { OneLaneGoesOn }
    ensures all { RunsGoOn }
{}

/// A sealed snapshot is of a cut of the run, in which nobody runs, and the run's other events go on from there.
pub fn cuts_are_consistent()
    ensures cut { CutsAreConsistent }
    ensures epochs { EpochsAreInRange }
    ensures form { SealedAreInForm }
    ensures fit { CutsAreFit }
    ensures resumed { SealedAreFit }
{}

/// The snapshots that a legal journal seals have epochs one after another, and are those that are found by the epochs of its Seals.
pub fn seals_follow_on()
    ensures epochs { EpochsFollow }
    ensures found { SealedAreFound }
    ensures add { SealsAdd }
{}

/// A legal journal is as long as its Takes allow, and so has at most the bound's number of events.
pub fn events_are_bounded()
    ensures ledger { EventsFollowTakes }
    ensures bound { EventsAreBounded }
{}

/// What one more event makes of a journal's words, state and legality.
pub fn journals_grow()
    ensures { JournalsGrow }
{}
