ghost use Rattle.graph_core.specs.declared.job.Job.{Job};
ghost use Rattle.graph_core.specs.Graphs.{IsJob};
ghost use Rattle.grape_hub.specs.Theorems.{NothingIsSealed, WorksMayBeEvaluated, EvaluatedMayBeGiven, CalmIsFree, CalmAtBeginning, CalmAfterTurn, CalmAfterOther, IdleIsQuiet, OneLaneGoesOn, EndIsQuiet, HubsRun, IsConfluent, QuietIsTheAnswer, JournalIsBounded, CutsAreConsistent, SealedMayBeResumed, FreshIsAStart, KeptsFollowSeals, CutsMayBeResumed, WorksStay, LanesStay, GroundsTell, NotesBegin, EmptyIsFree, RecordsTell, WorksTell, CutsTell, CalmIsEmpty};

use pie_core::Pie;

/// A Work that is ready may be evaluated, and what was evaluated may be given back.
pub fn works_go_round()
    ensures evaluated { WorksMayBeEvaluated }
    ensures given { EvaluatedMayBeGiven }
{}

/// An event leaves the Works that other lanes have out, and a free lane free but at its own Take; the Give of its Work
/// frees a lane.
pub fn works_stay()
    ensures work { WorksStay }
    ensures lane { LanesStay }
{}

/// Where nobody is out every lane is free; a hub begins so, and one lane's turns leave it so.
pub fn turns_are_calm()
    ensures free { CalmIsFree }
    ensures beginning { CalmAtBeginning }
    ensures turn { CalmAfterTurn }
    ensures other { CalmAfterOther }
{}

/// Without snapshots, before the end: where nobody is out and a lane has nothing to do, every worker rests and no mail
/// waits.
pub fn idle_is_quiet()
    ensures { IdleIsQuiet }
{}

/// Before the end: where nobody is out, what is sealed is kept, and the coordinator has no duty, any one lane has
/// something to do.
pub fn one_lane_goes_on()
    ensures { OneLaneGoesOn }
{}

/// Where the journal ends by End, every worker rests and no mail waits.
pub fn end_is_quiet()
    ensures { EndIsQuiet }
{}

/// From a fit start: where every worker rests and no mail waits, the values of the owners are the greatest solution,
/// whatever the order in which the workers went on.
pub fn quiet_is_the_answer()
    ensures { QuietIsTheAnswer }
{}

/// Where a job asks for no snapshots, none is sealed.
pub fn nothing_is_sealed()
    ensures { NothingIsSealed }
{}

/// The Takes and Gives of a hub's journal are a run of the base machine.
pub fn hubs_run()
    ensures { HubsRun }
{}

/// Every program that has the laws of `Pie` is confluent on every job that it is for, whatever the fragments, the fit
/// start and the order of events.
pub fn every_program_is_confluent<P: Pie>(program: &P)
    ensures { (job : Job) → IsJob job → P.is_for program.now job → IsConfluent (P.equations program.now job) job }
{}

/// A hub's journal has at most so many events.
pub fn hubs_are_bounded()
    ensures { JournalIsBounded }
{}

/// A sealed snapshot is of a cut of the hub's run, in which nobody runs, and a hub may begin with it.
pub fn cuts_are_consistent()
    ensures cut { CutsAreConsistent }
    ensures resumed { SealedMayBeResumed }
{}

/// What the Kepts of a hub's journal say was kept are its sealed snapshots in order, all but the one that waits; and a hub
/// may begin with each of them.
pub fn kepts_follow_seals()
    ensures kept { KeptsFollowSeals }
    ensures resumed { CutsMayBeResumed }
{}

/// The fresh snapshot of every job is in the form, and is a fit start.
pub fn fresh_is_a_start()
    ensures { FreshIsAStart }
{}

/// A note tells the job and the start, the lane's record, and the Work that the lane has out. The coordinator's tells the
/// epoch that waits to be kept, whether the disk stopped the run, and the sealed snapshots.
pub fn notes_tell()
    ensures grounds { GroundsTell }
    ensures begin { NotesBegin }
    ensures empty { EmptyIsFree }
    ensures records { RecordsTell }
    ensures works { WorksTell }
    ensures cuts { CutsTell }
{}

/// No lane has a Work out where nobody is out; until the journal has ended the converse holds too.
pub fn calm_is_empty()
    ensures { CalmIsEmpty }
{}
