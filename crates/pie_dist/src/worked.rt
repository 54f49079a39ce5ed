ghost use Rattle.std.specs.Prelude.{◌≡◌, [], ◌∷◌};
ghost use Rattle.graph_core.specs.declared.TheConstants.{FAR};
ghost use Rattle.graph_core.specs.Queries.{equations_of};
ghost use Rattle.pie_core.specs.Solutions.{local_solution, lowered};
ghost use Rattle.pie_dist.specs.DistJobs.{IsDistJob};
ghost use Rattle.pie_dist.specs.Worked.{two_ranges};

/// A worked fragment, by steps of the equations: it owns the vertex with index 2 and has the mirror of the one with
/// index 1. Nothing is known at first; then the mirror falls to 5.
pub fn second_part_values()
    ensures job { IsDistJob two_ranges }
    ensures first { local_solution (equations_of two_ranges) (2 ∷ []) (1 ∷ []) (FAR ∷ FAR ∷ []) ≡ FAR ∷ FAR ∷ [] }
    ensures again { local_solution (equations_of two_ranges) (2 ∷ []) (1 ∷ []) (lowered (equations_of two_ranges) (2 ∷ []) (FAR ∷ FAR ∷ []) (5 ∷ [])) ≡ 6 ∷ 5 ∷ [] }
{}
