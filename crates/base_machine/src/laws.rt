ghost use Rattle.base_machine.specs.Theorems.{SystemsAreSound, FitIsKept, Confluence, NeighboursSwap, FreshIsFit, RunsAreBounded, FormIsKept, SlotsHoldStarts, SnapshotIsFit};

/// The equations of a job are lawful, and its fragments are a proper cut of them.
pub fn systems_are_sound()
    ensures { SystemsAreSound }
{}

/// Whatever the program, the fragments and the order of events: a quiet run from a Fit start has the greatest solution.
pub fn confluence()
    ensures kept { FitIsKept }
    ensures answer { Confluence }
{}

/// The beginning is fit.
pub fn fresh_is_fit()
    ensures { FreshIsFit }
{}

/// Two base events that are apart may change places.
pub fn neighbours_swap()
    ensures { NeighboursSwap }
{}

/// A run has at most the bound's number of Takes.
pub fn runs_are_bounded()
    ensures { RunsAreBounded }
{}

/// A run keeps the form of its start.
pub fn form_is_kept()
    ensures { FormIsKept }
{}

/// A slot of a state file may hold the snapshots in which a run may begin, but for those whose epoch isn't one of that slot.
pub fn slots_hold_starts()
    ensures { SlotsHoldStarts }
{}

/// A fit state in which nobody runs may be resumed from its snapshot.
pub fn snapshot_is_fit()
    ensures { SnapshotIsFit }
{}
