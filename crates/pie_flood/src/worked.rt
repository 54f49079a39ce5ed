ghost use Rattle.std.specs.Prelude.{◌≡◌, [], ◌∷◌};
ghost use Rattle.graph_core.specs.Queries.{equations_of};
ghost use Rattle.graph_core.specs.Fragments.{mirrors_of};
ghost use Rattle.pie_core.specs.Solutions.{local_solution, lowered, starts_of};
ghost use Rattle.pie_flood.specs.FloodJobs.{IsLabelJob, IsReachJob};
ghost use Rattle.pie_flood.specs.Worked.{label_row, reach_row};

/// Labels on both sides of a border, by steps of the equations: the edge from 7 to 5 is read by both ends. At first 5 is
/// known to the second fragment, and then 3.
pub fn label_values()
    ensures job { IsLabelJob label_row }
    ensures mirrors { (mirrors_of label_row 0 ≡ 2 ∷ []) × (mirrors_of label_row 1 ≡ 1 ∷ []) }
    ensures left { local_solution (equations_of label_row) (0 ∷ 1 ∷ []) (2 ∷ []) (3 ∷ 5 ∷ 7 ∷ []) ≡ 3 ∷ 3 ∷ 7 ∷ [] }
    ensures right { local_solution (equations_of label_row) (2 ∷ []) (1 ∷ []) (7 ∷ 5 ∷ []) ≡ 5 ∷ 5 ∷ [] }
    ensures again { local_solution (equations_of label_row) (2 ∷ []) (1 ∷ []) (lowered (equations_of label_row) (2 ∷ []) (5 ∷ 5 ∷ []) (3 ∷ [])) ≡ 3 ∷ 3 ∷ [] }
{}

/// Reachability from 7, by steps of the equations: a walk leads to 5, and none to 3. The source itself is reached.
pub fn reach_values()
    ensures job { IsReachJob reach_row }
    ensures mirrors { (mirrors_of reach_row 0 ≡ 2 ∷ []) × (mirrors_of reach_row 1 ≡ []) }
    ensures left { local_solution (equations_of reach_row) (0 ∷ 1 ∷ []) (2 ∷ []) (1 ∷ 1 ∷ 1 ∷ []) ≡ 1 ∷ 1 ∷ 1 ∷ [] }
    ensures right { local_solution (equations_of reach_row) (2 ∷ []) [] (starts_of (equations_of reach_row) (2 ∷ [])) ≡ 0 ∷ [] }
    ensures again { local_solution (equations_of reach_row) (0 ∷ 1 ∷ []) (2 ∷ []) (lowered (equations_of reach_row) (0 ∷ 1 ∷ []) (1 ∷ 1 ∷ 1 ∷ []) (0 ∷ [])) ≡ 1 ∷ 0 ∷ 0 ∷ [] }
{}
