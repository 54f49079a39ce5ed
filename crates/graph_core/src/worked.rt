ghost use Rattle.std.specs.Prelude.{◌≡◌, [], ◌∷◌};
ghost use Rattle.graph_core.specs.Graphs.{IsJob};
ghost use Rattle.graph_core.specs.declared.query.Query.TheVariants.{Label, Reach};
ghost use Rattle.graph_core.specs.Meaning.{AreValues};
ghost use Rattle.graph_core.specs.Equations.{IsGreatest};
ghost use Rattle.graph_core.specs.Queries.{mask_of, equations_on, equations_of};
ghost use Rattle.graph_core.specs.Rows.{listed, detour, two_parts, ring, chain};
ghost use Rattle.graph_core.specs.Generated.{generated_graph, generated_vertices};
ghost use Rattle.graph_core.specs.DrawnRows.{one_from_five, one_from_seven, two_from_five, two_from_seven, three_from_five, three_from_seven, four_from_five, four_from_seven, five_from_five, five_from_seven};

/// The greatest solutions of some worked inputs.
#[tactic(auto, unfolding(crate::specs::Queries::mask_of))]
pub fn rows()
    ensures dist { IsGreatest (equations_of detour) (listed (0 ∷ 5 ∷ 6 ∷ [])) }
    ensures label { IsGreatest (equations_on two_parts Label) (listed (1 ∷ 1 ∷ 1 ∷ 7 ∷ 7 ∷ [])) }
    ensures reach { IsGreatest (equations_on two_parts (Reach 2)) (listed (0 ∷ 0 ∷ 0 ∷ 1 ∷ 1 ∷ [])) }
    ensures sim { IsGreatest (equations_of ring) (listed (1 ∷ 2 ∷ 1 ∷ 2 ∷ [])) }
    ensures sim_chain { IsGreatest (equations_of chain) (listed (0 ∷ 0 ∷ 0 ∷ 0 ∷ [])) }
{}

/// The distances of the worked input, as its least walks.
pub fn row_values()
    ensures job { IsJob detour }
    ensures values { AreValues detour (listed (0 ∷ 5 ∷ 6 ∷ [])) }
{}

/// Graphs of 1 to 5 vertices that are drawn from two numbers.
pub fn generated_rows()
    ensures vertices { generated_vertices 3 ≡ (0, 0) ∷ (1, 0) ∷ (2, 0) ∷ [] }
    ensures one_from_five { generated_graph 1 5 ≡ record { vertices = generated_vertices 1; edges = one_from_five } }
    ensures one_from_seven { generated_graph 1 7 ≡ record { vertices = generated_vertices 1; edges = one_from_seven } }
    ensures two_from_five { generated_graph 2 5 ≡ record { vertices = generated_vertices 2; edges = two_from_five } }
    ensures two_from_seven { generated_graph 2 7 ≡ record { vertices = generated_vertices 2; edges = two_from_seven } }
    ensures three_from_five { generated_graph 3 5 ≡ record { vertices = generated_vertices 3; edges = three_from_five } }
    ensures three_from_seven { generated_graph 3 7 ≡ record { vertices = generated_vertices 3; edges = three_from_seven } }
    ensures four_from_five { generated_graph 4 5 ≡ record { vertices = generated_vertices 4; edges = four_from_five } }
    ensures four_from_seven { generated_graph 4 7 ≡ record { vertices = generated_vertices 4; edges = four_from_seven } }
    ensures five_from_five { generated_graph 5 5 ≡ record { vertices = generated_vertices 5; edges = five_from_five } }
    ensures five_from_seven { generated_graph 5 7 ≡ record { vertices = generated_vertices 5; edges = five_from_seven } }
{}
