ghost use Rattle.pie_core.specs.Laws.{LocalSolutionIsUnique, LocalSolutionIsComputed, LocalSolutionInSteps, SolvedIsReadyAgain};

/// There is at most one local solution.
pub fn local_solution_is_unique()
    ensures { LocalSolutionIsUnique }
{}

/// Steps in which all owned places at once are lowered by their equations compute the local solution.
pub fn local_solution_is_computed()
    ensures { LocalSolutionIsComputed }
{}

/// What solves the values of a local solution, lowered by a hand, solves the values before it, lowered by that hand.
pub fn solving_in_steps()
    ensures { LocalSolutionInSteps }
{}

/// What was evaluated can be evaluated again.
pub fn solved_is_ready_again()
    ensures { SolvedIsReadyAgain }
{}
