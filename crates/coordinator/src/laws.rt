ghost use Rattle.coordinator.specs.Runs.{DoneIsTheAnswer, DoneIsQuiet};
ghost use Rattle.coordinator.specs.Shapes.{ShapesBeginRuns, FormsAgree, EntriesMayBegin};
ghost use Rattle.coordinator.specs.Keeping.{SealsMayBeKept};

use base_machine::{slots_hold_starts, systems_are_sound};
use legal_journal::{end_is_quiet, journal_runs, journals_grow, seals_follow_on};

/// The fresh snapshot of a job's shape is the one with which a run of the job begins.
pub fn shapes_begin_runs()
    ensures { ShapesBeginRuns }
{}

/// A snapshot may stand in a slot of the state file of a job exactly where its epoch is one of that slot, and it is in
/// the form in which a run of the job may begin.
pub fn forms_agree()
    ensures { FormsAgree }
{
    systems_are_sound();
    slots_hold_starts();
}

/// A run of a job may begin with the fresh snapshot of its shape, and with what a slot of the state file may hold.
pub fn entries_may_begin()
    ensures { EntriesMayBegin }
{
    grape_hub::fresh_is_a_start();
    shapes_begin_runs();
    forms_agree();
}

/// Where a run from a fit start is done, the values of the owners are the greatest solution of the job's equations,
/// whatever the policy, the delays and the order of events.
pub fn done_is_the_answer()
    ensures { DoneIsTheAnswer }
{
    end_is_quiet();
    journals_grow();
    journal_runs();
}

/// Where a run is done, no worker runs at its end, and no message waits.
pub fn done_is_quiet()
    ensures { DoneIsQuiet }
{
    end_is_quiet();
    journals_grow();
}

/// The snapshot of a Seal has the next epoch and may stand in that epoch's slot of the state file. It is the last that was
/// sealed, and waits to be kept.
pub fn seals_may_be_kept()
    ensures { SealsMayBeKept }
{
    seals_follow_on();
    grape_hub::cuts_are_consistent();
    forms_agree();
}
