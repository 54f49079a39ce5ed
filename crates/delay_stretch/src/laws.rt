ghost use Rattle.std.specs.Prelude.{◌≡◌, ℕ, List, ◌∷◌};
ghost use Rattle.graph_core.specs.declared.settings.Policy.{Policy};
ghost use Rattle.legal_journal.specs.Delays.{window, stretch_turns};

/// Where a window of all arrivals so far is kept, and a new arrival put into it, it is the window of all arrivals again.
pub fn window_follows_the_arrivals()
    ensures { (clock : ℕ) (arrivals : List ℕ) → window (clock ∷ window arrivals) ≡ window (clock ∷ arrivals) }
{}

/// The turns of a stretch depend on the window alone.
pub fn only_the_window_counts()
    ensures { (policy : Policy) (batches : ℕ) (arrivals : List ℕ) → stretch_turns policy batches (window arrivals) ≡ stretch_turns policy batches arrivals }
{}
