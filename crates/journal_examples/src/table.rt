ghost use Rattle.std.specs.Prelude.{◌≡◌, ◌-◌, ◌^◌, ◌++◌, [], ◌∷◌, true, false, take};
ghost use Rattle.graph_core.specs.declared.settings.Policy.TheVariants.{Bsp, Ap, Ssp, Aap};
ghost use Rattle.grape_event.specs.declared.event.Event.TheVariants.{Take, Give, Flag, Ask, Hold, Ack, Nack, Begin, Mark, Seal, Kept, End, Stop, Stretch};
ghost use Rattle.grape_event.specs.declared.event.StopCause.TheVariants.{Memory};
ghost use Rattle.base_machine.specs.Machine.{Fresh, Running, Rest};
ghost use Rattle.legal_journal.specs.Delays.{is_fresh_enough};
ghost use Rattle.journal_examples.specs.FromFresh.{admits, admits_from, admits_in, written, standing_so, state_after_run};
ghost use Rattle.journal_examples.specs.Examples.{two_ranges, asked_twice, before_first_answer, served_after_ask, three_parts, late_and_tagged, tagged_waits, parts_under, gone_ahead, gathered, mailed_while_running, mailed_after_ack, caught_up, left_behind, turn_by_turn, backwards, stretched, alone, kept_and_ended, alone_from, alone_at_rest, a_worker, some_mail};

/// Takes that fail on one condition each, beside some that are admitted. That no mail waits fails alone only where a Stretch
/// was written without it.
pub fn takes_are_refused()
    ensures no_such_worker { admits two_ranges (Take 2 0 ∷ []) ≡ false }
    ensures no_such_lane { admits two_ranges (Take 0 1 ∷ []) ≡ false }
    ensures running { admits (parts_under (Aap 4 1)) (mailed_while_running ++ Take 1 1 ∷ []) ≡ false }
    ensures lane_is_busy { admits three_parts (Take 0 0 ∷ Take 1 0 ∷ []) ≡ false }
    ensures other_lane { admits three_parts (Take 0 0 ∷ Take 1 1 ∷ []) ≡ true }
    ensures lane_is_free { admits three_parts (Take 0 0 ∷ Give 0 ∷ Take 1 0 ∷ []) ≡ true }
    ensures snapshot_is_due { admits three_parts (Take 0 0 ∷ Take 1 1 ∷ Give 1 ∷ Take 2 1 ∷ []) ≡ false }
    ensures snapshot_has_begun { admits three_parts (Take 0 0 ∷ Take 1 1 ∷ Give 1 ∷ Begin 1 ∷ Take 2 1 ∷ []) ≡ true }
    ensures no_mail { admits_in two_ranges (written (Stretch 1 0) (state_after_run two_ranges (Take 1 0 ∷ Give 1 ∷ []))) (Take 1 0) ≡ false }
    ensures no_stretch { admits two_ranges (before_first_answer ++ Take 1 0 ∷ []) ≡ false }
    ensures mail_and_stretch { admits two_ranges (before_first_answer ++ Stretch 1 0 ∷ Take 1 0 ∷ []) ≡ true }
    ensures tagged { admits three_parts (tagged_waits ++ Take 1 0 ∷ []) ≡ false }
    ensures marked { admits three_parts (tagged_waits ++ Mark 1 ∷ Take 1 0 ∷ []) ≡ true }
    ensures untagged { admits three_parts (take 4 tagged_waits ++ Take 0 1 ∷ []) ≡ true }
    ensures sealed { admits three_parts (tagged_waits ++ Mark 1 ∷ Mark 2 ∷ Seal 1 ∷ Take 1 0 ∷ []) ≡ true }
{}

/// A worker that is a round ahead of another one may take under each policy but the strictest.
pub fn rounds_are_compared()
    ensures bsp { admits (parts_under Bsp) (gone_ahead ++ Take 1 0 ∷ []) ≡ false }
    ensures ssp { admits (parts_under (Ssp 1)) (gone_ahead ++ Take 1 0 ∷ []) ≡ true }
    ensures aap { admits (parts_under (Aap 0 2)) (gone_ahead ++ Take 1 0 ∷ []) ≡ false }
    ensures ap { admits (parts_under Ap) (gone_ahead ++ Take 1 0 ∷ []) ≡ true }
    ensures enough_mail { admits (parts_under (Aap 1 1)) (take 4 gone_ahead ++ Take 1 0 ∷ []) ≡ true }
    ensures too_little_mail { admits (parts_under (Aap 1 2)) (take 4 gone_ahead ++ Take 1 0 ∷ []) ≡ false }
{}

/// Who keeps back a worker that is a round ahead: another one that is Fresh or Running or has mail.
pub fn busy_workers_are_waited_for()
    ensures fresh { is_fresh_enough Bsp (a_worker Rest some_mail ∷ a_worker Fresh [] ∷ []) (1 ∷ 0 ∷ []) 0 ≡ false }
    ensures running { is_fresh_enough Bsp (a_worker Rest some_mail ∷ a_worker (Running []) [] ∷ []) (1 ∷ 0 ∷ []) 0 ≡ false }
    ensures mailed { is_fresh_enough Bsp (a_worker Rest some_mail ∷ a_worker Rest some_mail ∷ []) (1 ∷ 0 ∷ []) 0 ≡ false }
    ensures idle { is_fresh_enough Bsp (a_worker Rest some_mail ∷ a_worker Rest [] ∷ []) (1 ∷ 0 ∷ []) 0 ≡ true }
    ensures as_far { is_fresh_enough Bsp (a_worker Rest some_mail ∷ a_worker Fresh [] ∷ []) (1 ∷ 1 ∷ []) 0 ≡ true }
    ensures two_ahead { is_fresh_enough (Ssp 1) (a_worker Rest some_mail ∷ a_worker Fresh [] ∷ []) (2 ∷ 0 ∷ []) 0 ≡ false }
{}

/// Rounds and arrivals after each Give. A worker that rests without mail catches up with the giver's new round.
pub fn rounds_and_arrivals()
    ensures start { (state_after_run (parts_under Ap) []).rounds ≡ 0 ∷ 0 ∷ 0 ∷ [] }
    ensures fresh_stays { (state_after_run (parts_under Ap) (take 2 caught_up)).rounds ≡ 0 ∷ 1 ∷ 0 ∷ [] }
    ensures stays { (state_after_run (parts_under Ap) (take 4 caught_up)).rounds ≡ 1 ∷ 1 ∷ 0 ∷ [] }
    ensures catches_up { (state_after_run (parts_under Ap) (take 7 caught_up)).rounds ≡ 2 ∷ 2 ∷ 0 ∷ [] }
    ensures never_falls { (state_after_run (parts_under Ap) caught_up).rounds ≡ 3 ∷ 2 ∷ 1 ∷ [] }
    ensures mailed_stays { (state_after_run (parts_under Ap) left_behind).rounds ≡ 1 ∷ 2 ∷ 1 ∷ [] }
    ensures none_came { (state_after_run (parts_under Ap) []).arrivals ≡ [] ∷ [] ∷ [] ∷ [] }
    ensures came { (state_after_run (parts_under Ap) caught_up).arrivals ≡ (11 ∷ 6 ∷ 1 ∷ []) ∷ (3 ∷ []) ∷ [] ∷ [] }
    ensures also_came { (state_after_run (parts_under Ap) left_behind).arrivals ≡ (8 ∷ 5 ∷ 1 ∷ []) ∷ (3 ∷ []) ∷ [] ∷ [] }
{}

/// Gives of workers that don't run.
pub fn gives_are_refused()
    ensures no_such_worker { admits two_ranges (Take 0 0 ∷ Give 2 ∷ []) ≡ false }
    ensures fresh { admits two_ranges (Give 0 ∷ []) ≡ false }
    ensures given_already { admits two_ranges (Take 0 0 ∷ Give 0 ∷ Give 0 ∷ []) ≡ false }
{}

/// Stretches that fail on one condition each, beside some that are admitted.
pub fn stretches_are_refused()
    ensures no_such_worker { admits two_ranges (before_first_answer ++ Stretch 2 0 ∷ []) ≡ false }
    ensures fresh { admits (parts_under Ap) (Take 0 0 ∷ Give 0 ∷ Stretch 1 0 ∷ []) ≡ false }
    ensures running { admits (parts_under Ap) (mailed_while_running ++ Stretch 1 0 ∷ []) ≡ false }
    ensures rests { admits (parts_under Ap) (mailed_while_running ++ Give 1 ∷ Stretch 1 0 ∷ []) ≡ true }
    ensures no_mail { admits two_ranges (Take 1 0 ∷ Give 1 ∷ Stretch 1 0 ∷ []) ≡ false }
    ensures second { admits two_ranges (before_first_answer ++ Stretch 1 2 ∷ Stretch 1 2 ∷ []) ≡ false }
    ensures many_turns { admits two_ranges (before_first_answer ++ Stretch 1 64 ∷ []) ≡ true }
    ensures too_many_turns { admits two_ranges (before_first_answer ++ Stretch 1 65 ∷ []) ≡ false }
    ensures formula { admits (parts_under (Aap 4 3)) (gathered ++ Stretch 0 2 ∷ []) ≡ true }
    ensures below_formula { admits (parts_under (Aap 4 3)) (gathered ++ Stretch 0 1 ∷ []) ≡ false }
    ensures above_formula { admits (parts_under (Aap 4 3)) (gathered ++ Stretch 0 66 ∷ []) ≡ true }
    ensures far_above_formula { admits (parts_under (Aap 4 3)) (gathered ++ Stretch 0 67 ∷ []) ≡ false }
{}

/// Holds that fail on one condition each, beside some that are admitted.
pub fn holds_are_refused()
    ensures no_such_worker { admits backwards (take 5 stretched ++ Hold 2 ∷ []) ≡ false }
    ensures no_stretch { admits two_ranges (before_first_answer ++ Hold 1 ∷ []) ≡ false }
    ensures other_stretch { admits backwards (take 5 stretched ++ Hold 1 ∷ []) ≡ false }
    ensures stretched { admits backwards (take 5 stretched ++ Hold 0 ∷ []) ≡ true }
    ensures delay_is_over { admits backwards (stretched ++ Hold 0 ∷ []) ≡ false }
    ensures taken_since { admits backwards (stretched ++ Take 0 0 ∷ Hold 0 ∷ []) ≡ false }
    ensures too_little_mail { admits (parts_under (Aap 4 3)) (gathered ++ Stretch 0 5 ∷ Hold 0 ∷ []) ≡ true }
    ensures enough_mail { admits (parts_under (Aap 4 2)) (gathered ++ Stretch 0 5 ∷ Hold 0 ∷ []) ≡ false }
{}

/// Flags and Asks that fail on one condition each, beside some that are admitted.
pub fn flags_are_refused()
    ensures no_such_worker { admits two_ranges (Flag 2 ∷ []) ≡ false }
    ensures fresh { admits two_ranges (Flag 0 ∷ []) ≡ false }
    ensures running { admits two_ranges (Take 0 0 ∷ Flag 0 ∷ []) ≡ false }
    ensures rests { admits two_ranges (Take 0 0 ∷ Give 0 ∷ Flag 0 ∷ []) ≡ true }
    ensures with_mail { admits two_ranges (Take 1 0 ∷ Give 1 ∷ Take 0 0 ∷ Give 0 ∷ Flag 1 ∷ []) ≡ false }
    ensures twice { admits two_ranges (take 5 turn_by_turn ++ Flag 0 ∷ []) ≡ false }
    ensures after_a_take { admits two_ranges (before_first_answer ++ Stretch 1 0 ∷ Take 1 0 ∷ Give 1 ∷ Flag 1 ∷ []) ≡ true }
    ensures flag_down { admits two_ranges (take 5 turn_by_turn ++ Ask ∷ []) ≡ false }
    ensures flags_up { admits two_ranges (take 6 turn_by_turn ++ Ask ∷ []) ≡ true }
    ensures flag_fell { admits two_ranges (take 9 asked_twice ++ Ask ∷ []) ≡ false }
    ensures asked_already { admits two_ranges (take 7 turn_by_turn ++ Ask ∷ []) ≡ false }
    ensures answered_already { admits two_ranges (take 9 turn_by_turn ++ Ask ∷ []) ≡ false }
    ensures asked_again { admits two_ranges (take 13 asked_twice ++ Ask ∷ []) ≡ true }
{}

/// Acks that fail on one condition each, beside some that are admitted. That a worker doesn't rest fails alone only where
/// it runs without a Take.
pub fn acks_are_refused()
    ensures no_such_worker { admits two_ranges (take 7 turn_by_turn ++ Ack 2 ∷ []) ≡ false }
    ensures no_probe { admits_from alone alone_at_rest (Flag 0 ∷ Ack 0 ∷ []) ≡ false }
    ensures probe { admits_from alone alone_at_rest (Flag 0 ∷ Ask ∷ Ack 0 ∷ []) ≡ true }
    ensures closed_by_a_nack { admits two_ranges (take 7 asked_twice ++ Nack 1 ∷ Ack 0 ∷ []) ≡ false }
    ensures twice { admits two_ranges (take 8 turn_by_turn ++ Ack 0 ∷ []) ≡ false }
    ensures with_mail { admits two_ranges (before_first_answer ++ Ack 1 ∷ []) ≡ false }
    ensures taken_since { admits two_ranges (served_after_ask ++ Ack 1 ∷ []) ≡ false }
    ensures running { admits_in two_ranges (standing_so 1 (Running []) (state_after_run two_ranges (take 8 turn_by_turn))) (Ack 1) ≡ false }
    ensures rests { admits_in two_ranges (state_after_run two_ranges (take 8 turn_by_turn)) (Ack 1) ≡ true }
{}

/// Nacks that fail on one condition each, beside some that are admitted.
pub fn nacks_are_refused()
    ensures no_such_worker { admits two_ranges (before_first_answer ++ Nack 2 ∷ []) ≡ false }
    ensures no_probe { admits two_ranges (take 5 asked_twice ++ Nack 1 ∷ []) ≡ false }
    ensures with_mail { admits two_ranges (before_first_answer ++ Nack 1 ∷ []) ≡ true }
    ensures twice { admits two_ranges (before_first_answer ++ Nack 1 ∷ Nack 1 ∷ []) ≡ false }
    ensures answered_already { admits (parts_under Ap) (mailed_after_ack ++ Nack 0 ∷ []) ≡ false }
    ensures taken_since { admits (parts_under Ap) (mailed_after_ack ++ Nack 1 ∷ []) ≡ true }
    ensures running { admits two_ranges (take 10 served_after_ask ++ Nack 1 ∷ []) ≡ false }
    ensures calm { admits two_ranges (take 7 turn_by_turn ++ Nack 0 ∷ []) ≡ false }
{}

/// Begins and Marks that fail on one condition each, beside some that are admitted.
pub fn begins_are_refused()
    ensures not_due { admits three_parts (take 2 late_and_tagged ++ Begin 1 ∷ []) ≡ false }
    ensures due { admits three_parts (take 3 late_and_tagged ++ Begin 1 ∷ []) ≡ true }
    ensures never_due { admits two_ranges (Take 0 0 ∷ Begin 1 ∷ []) ≡ false }
    ensures other_epoch { admits three_parts (take 3 late_and_tagged ++ Begin 2 ∷ []) ≡ false }
    ensures before_kept { admits three_parts (late_and_tagged ++ Stretch 1 0 ∷ Take 1 0 ∷ Begin 2 ∷ []) ≡ false }
    ensures after_kept { admits three_parts (late_and_tagged ++ Kept 1 ∷ Stretch 1 0 ∷ Take 1 0 ∷ Begin 2 ∷ []) ≡ true }
    ensures last_epoch { admits_from alone (alone_from (2 ^ 62 - 2)) (Take 0 0 ∷ Begin (2 ^ 62 - 1) ∷ []) ≡ true }
    ensures no_epoch_left { admits_from alone (alone_from (2 ^ 62 - 1)) (Take 0 0 ∷ Begin (2 ^ 62) ∷ []) ≡ false }
    ensures marks_nobody { admits three_parts (take 4 late_and_tagged ++ Mark 3 ∷ []) ≡ false }
    ensures marks { admits three_parts (take 4 late_and_tagged ++ Mark 0 ∷ []) ≡ true }
    ensures no_recording { admits three_parts (take 3 late_and_tagged ++ Mark 0 ∷ []) ≡ false }
    ensures marked_already { admits three_parts (take 5 late_and_tagged ++ Mark 0 ∷ []) ≡ false }
    ensures marked_running { admits three_parts (take 5 late_and_tagged ++ Mark 2 ∷ []) ≡ false }
{}

/// Seals, Kepts and ends that fail on one condition each, beside some that are admitted; `kept_is_legal` has the End before
/// a Kept.
pub fn ends_are_refused()
    ensures sealed_early { admits three_parts (take 9 late_and_tagged ++ Seal 1 ∷ []) ≡ false }
    ensures sealed { admits three_parts (take 10 late_and_tagged ++ Seal 1 ∷ []) ≡ true }
    ensures sealed_as_another { admits three_parts (take 10 late_and_tagged ++ Seal 2 ∷ []) ≡ false }
    ensures sealed_already { admits three_parts (late_and_tagged ++ Seal 1 ∷ []) ≡ false }
    ensures kept_unsealed { admits three_parts (take 10 late_and_tagged ++ Kept 1 ∷ []) ≡ false }
    ensures kept { admits three_parts (late_and_tagged ++ Kept 1 ∷ []) ≡ true }
    ensures kept_as_another { admits three_parts (late_and_tagged ++ Kept 2 ∷ []) ≡ false }
    ensures kept_already { admits alone (take 6 kept_and_ended ++ Kept 1 ∷ []) ≡ false }
    ensures no_probe { admits two_ranges (take 6 turn_by_turn ++ End ∷ []) ≡ false }
    ensures answer_missing { admits two_ranges (take 8 turn_by_turn ++ End ∷ []) ≡ false }
    ensures old_answer { admits two_ranges (take 14 asked_twice ++ Ack 1 ∷ End ∷ []) ≡ false }
    ensures stopped { admits three_parts (take 5 late_and_tagged ++ Stop Memory ∷ []) ≡ true }
    ensures after_an_end { admits two_ranges (turn_by_turn ++ Stop Memory ∷ []) ≡ false }
    ensures after_a_stop { admits two_ranges (Stop Memory ∷ Take 0 0 ∷ []) ≡ false }
{}
