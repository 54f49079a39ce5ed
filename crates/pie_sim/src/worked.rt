ghost use Rattle.std.specs.Prelude.{◌≡◌, [], ◌∷◌};
ghost use Rattle.graph_core.specs.Queries.{equations_of};
ghost use Rattle.graph_core.specs.Fragments.{owned_of, mirrors_of};
ghost use Rattle.pie_core.specs.Solutions.{local_solution, lowered, starts_of};
ghost use Rattle.pie_sim.specs.SimJobs.{targets_from};
ghost use Rattle.pie_sim.specs.Worked.{ring_links, ring_row};

/// A worked fragment, by steps of the equations: it owns vertices 3 and 4, and has the mirror of 1. At first all starts
/// stay. Then it is known that 1 has lost its bit, and so do 4 and 3.
pub fn ring_values()
    ensures targets { (targets_from ring_links 0 ≡ 2) × (targets_from ring_links 1 ≡ 1) × (targets_from ring_links 2 ≡ 0) }
    ensures owned { owned_of ring_row 1 ≡ 2 ∷ 3 ∷ [] }
    ensures mirrors { mirrors_of ring_row 1 ≡ 0 ∷ [] }
    ensures starts { starts_of (equations_of ring_row) (2 ∷ 3 ∷ 0 ∷ []) ≡ 1 ∷ 2 ∷ 1 ∷ [] }
    ensures first { local_solution (equations_of ring_row) (2 ∷ 3 ∷ []) (0 ∷ []) (1 ∷ 2 ∷ 1 ∷ []) ≡ 1 ∷ 2 ∷ 1 ∷ [] }
    ensures again { local_solution (equations_of ring_row) (2 ∷ 3 ∷ []) (0 ∷ []) (lowered (equations_of ring_row) (2 ∷ 3 ∷ []) (1 ∷ 2 ∷ 1 ∷ []) (0 ∷ [])) ≡ 0 ∷ 0 ∷ 0 ∷ [] }
{}
