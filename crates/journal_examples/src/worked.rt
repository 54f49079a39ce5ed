ghost use Rattle.std.specs.Prelude.{◌≡◌, ◌+◌, ◌*◌, ◌^◌, ◌++◌, [], ◌∷◌, true, false, Some, None, length, take};
ghost use Rattle.graph_core.specs.declared.settings.Policy.TheVariants.{Bsp, Aap};
ghost use Rattle.grape_event.specs.declared.event.Event.TheVariants.{Take, Give, Flag, Ask, Hold, Ack, Nack, End, Stretch};
ghost use Rattle.base_machine.specs.Machine.{system_of, worker_at, BaseTake, BaseGive, snapshot_of, base_state_of, base_after_all};
ghost use Rattle.base_machine.specs.Theorems.{IsSound};
ghost use Rattle.base_machine.specs.Bounds.{bound_of};
ghost use Rattle.base_machine.specs.Fitness.{is_quiet, IsInForm};
ghost use Rattle.legal_journal.specs.Choices.{next_choice, duty_choice};
ghost use Rattle.legal_journal.specs.Cuts.{sealed_snapshot, cut_of, after_cut};
ghost use Rattle.legal_journal.specs.Delays.{stretch_turns};
ghost use Rattle.journal_examples.specs.FromFresh.{beginning, admits, IsLegalRun, state_after_run};
ghost use Rattle.journal_examples.specs.Examples.{two_ranges, asked_twice, before_first_answer, served_after_ask, three_parts, late_and_tagged, late_and_tagged_snapshot, turn_by_turn, backwards, stretched, alone, kept_and_ended, three_and_two, no_fragments, asked_nobody};

/// A run whose second worker finds its mail only after a first probe was asked.
pub fn asked_twice_is_legal()
    ensures legal { IsLegalRun two_ranges asked_twice }
    ensures no_ack { admits two_ranges (before_first_answer ++ Ack 1 ∷ []) ≡ false }
    ensures served { admits two_ranges served_after_ask ≡ true }
    ensures late_nack { admits two_ranges (served_after_ask ++ Nack 1 ∷ []) ≡ true }
    ensures late_no_ack { admits two_ranges (served_after_ask ++ Ack 1 ∷ []) ≡ false }
    ensures quiet { is_quiet (state_after_run two_ranges asked_twice).workers ≡ true }
{}

/// A snapshot that late mail joined.
pub fn late_mail_is_sealed()
    ensures legal { IsLegalRun three_parts late_and_tagged }
    ensures sealed { sealed_snapshot (system_of three_parts) (beginning three_parts) 1 late_and_tagged ≡ Some late_and_tagged_snapshot }
{}

/// A run of two workers in turn.
pub fn turn_by_turn_is_legal()
    ensures legal { IsLegalRun two_ranges turn_by_turn }
    ensures values { worker_at (state_after_run two_ranges turn_by_turn).workers 1 ≡ three_and_two }
{}

/// A delay of three turns is over after three events.
pub fn stretch_runs_out()
    ensures legal { admits backwards (stretched ++ Take 0 0 ∷ Give 0 ∷ Flag 0 ∷ []) ≡ true }
    ensures no_hold { admits backwards (stretched ++ Hold 0 ∷ []) ≡ false }
    ensures no_take { admits backwards (take 7 stretched ++ Take 0 0 ∷ []) ≡ false }
{}

/// A snapshot is kept before the end.
pub fn kept_is_legal()
    ensures legal { IsLegalRun alone kept_and_ended }
    ensures no_end_before { admits alone (take 5 kept_and_ended ++ Flag 0 ∷ Ask ∷ Ack 0 ∷ End ∷ []) ≡ false }
{}

/// Mean gaps and caps.
pub fn stretches_by_formula()
    ensures one_waits { stretch_turns (Aap 4 3) 1 (22 ∷ 14 ∷ 10 ∷ []) ≡ 12 }
    ensures enough_wait { stretch_turns (Aap 4 3) 3 (22 ∷ 14 ∷ 10 ∷ []) ≡ 0 }
    ensures capped { stretch_turns (Aap 4 2) 1 (100 ∷ 0 ∷ []) ≡ 64 }
    ensures one_arrival { stretch_turns (Aap 4 2) 1 (100 ∷ []) ≡ 0 }
    ensures other_policy { stretch_turns Bsp 1 (100 ∷ 0 ∷ []) ≡ 0 }
    ensures rounded_down { stretch_turns (Aap 4 2) 1 (11 ∷ 4 ∷ 0 ∷ []) ≡ 5 }
    ensures last_eight { stretch_turns (Aap 4 2) 1 (90 ∷ 80 ∷ 70 ∷ 60 ∷ 50 ∷ 40 ∷ 30 ∷ 20 ∷ 0 ∷ []) ≡ 10 }
{}

/// The bound on Takes of two small jobs.
pub fn bounds_by_formula()
    ensures labels { bound_of (system_of three_parts) ≡ 18 }
    ensures distances { bound_of (system_of two_ranges) ≡ 2 ^ 52 + 4 }
{}

/// The cut of a sealed epoch, and the rest.
pub fn cut_by_marks()
    ensures cut { cut_of (beginning three_parts) 1 late_and_tagged
        ≡ BaseTake 1 (0 ∷ 0 ∷ 0 ∷ []) ∷ BaseGive 1 ∷ BaseTake 2 (0 ∷ 1 ∷ 0 ∷ []) ∷ BaseGive 2 ∷ [] }
    ensures after { after_cut (beginning three_parts) 1 late_and_tagged ≡ BaseTake 0 (0 ∷ 1 ∷ 0 ∷ []) ∷ BaseGive 0 ∷ [] }
    ensures snapshot { Some (snapshot_of (system_of three_parts) (base_after_all (system_of three_parts) (base_state_of (beginning three_parts)) (cut_of (beginning three_parts) 1 late_and_tagged)) 1)
        ≡ sealed_snapshot (system_of three_parts) (beginning three_parts) 1 late_and_tagged }
    ensures joined { base_after_all (system_of three_parts) (base_state_of (beginning three_parts)) (cut_of (beginning three_parts) 1 late_and_tagged ++ after_cut (beginning three_parts) 1 late_and_tagged)
        ≡ (state_after_run three_parts late_and_tagged).workers }
{}

/// Without fragments a sound system has a legal journal of two events, though the bound on events comes to 0.
pub fn nobody_is_asked()
    ensures legal { IsLegalRun no_fragments asked_nobody }
    ensures sound { IsSound (system_of no_fragments) }
    ensures form { IsInForm (system_of no_fragments) (beginning no_fragments) }
    ensures none { (140 + 2 * length (system_of no_fragments).pieces) * (bound_of (system_of no_fragments) + length (system_of no_fragments).pieces) ≡ 0 }
{}

/// What a lane and the coordinator choose in a run of two workers.
pub fn choices_in_order()
    ensures first { next_choice (system_of two_ranges) (state_after_run two_ranges []) 0 (λ i. 0) ≡ Some (Take 0 0) }
    ensures in_turn { next_choice (system_of two_ranges) (state_after_run two_ranges (Take 0 0 ∷ Give 0 ∷ [])) 0 (λ i. 0) ≡ Some (Take 1 0) }
    ensures no_lane { next_choice (system_of two_ranges) (state_after_run two_ranges (Take 0 0 ∷ [])) 0 (λ i. 0) ≡ None }
    ensures ask { duty_choice (system_of two_ranges) (state_after_run two_ranges (take 6 asked_twice)) ≡ Some Ask }
    ensures stretch { next_choice (system_of two_ranges) (state_after_run two_ranges before_first_answer) 0 (λ i. 5) ≡ Some (Stretch 1 5) }
    ensures nothing { duty_choice (system_of two_ranges) (state_after_run two_ranges before_first_answer) ≡ None }
{}
