ghost use Rattle.base_machine.specs.Machine.{System};
ghost use Rattle.legal_journal.specs.Legal.{State};
ghost use Rattle.stop_probe.specs.Journals.{FollowsEvents, MeetsTheTable, TakesAreSeen, AcksFollowNoTake};

/// The probe that a journal makes follows it event by event, and says what the table of events says.
pub fn probe_follows_the_journal()
    ensures events { FollowsEvents }
    ensures rows { (sys : System) (s : State) → MeetsTheTable sys s }
{}

/// Between the last Ask and an Ack that is admitted there is no Take of its worker: a probe sees each Take since the Ask,
/// and an Ack asks for none.
pub fn acks_follow_no_take()
    ensures seen { TakesAreSeen }
    ensures none { AcksFollowNoTake }
{}
