ghost use Rattle.std.specs.Prelude.{◌≡◌, ℕ, ◌<◌, ◌≤◌, List, Contains, [], ◌∷◌, ◌++◌, ◌+◌};
ghost use Rattle.graph_core.specs.Graphs.{count_of, graph_of, MakeGraph, IsGraph, IsJob};
ghost use Rattle.graph_core.specs.Digraph.{Digraph};
ghost use Rattle.graph_core.specs.declared.edge.Edge.{Edge};
ghost use Rattle.graph_core.specs.declared.query.Query.{Query};
ghost use Rattle.graph_core.specs.declared.job.Job.{Job};
ghost use Rattle.graph_core.specs.declared.query.Query.TheVariants.{Dist, Label, Reach};
ghost use Rattle.graph_core.specs.Walks.{IsWalk, IsWalkFrom, walk_weight, IsWeightOrFar, IsRelaxed};
ghost use Rattle.graph_core.specs.Meaning.{IsLeastWeight, IsDistance, AreValues};
ghost use Rattle.graph_core.specs.Equations.{Assignment, Equations, AreLawful, IsGreatest};
ghost use Rattle.graph_core.specs.Queries.{equations_on, equations_of};
ghost use Rattle.graph_core.specs.Theorems.{GreatestIsValues, GreatestIsMeaning, BelowStartsRulesDecide, ReadersAreTurnedReadings};
ghost use Rattle.graph_core.specs.Fragments.{FragmentsCut, fragment_of};
ghost use Rattle.graph_core.specs.Parts.{IsFragment};

use crate::FAR;
use crate::edge::Edge;
use crate::job::Job;
use crate::query::Query;

/// Vertices and edges within the limits make a graph within them.
pub fn made_graph_is_one()
    ensures { (vertices : List (ℕ × ℕ)) (edges : List Edge) → MakeGraph vertices edges → IsGraph (graph_of vertices edges) }
{}

/// Each equation of a job stands in exactly one fragment, with all that it reads.
pub fn fragments_cut()
    ensures { FragmentsCut }
{}

/// Each fragment of a job has its rows, and the places in them are its own.
pub fn fragments_are_whole()
    ensures { (job : Job) (i : ℕ) → IsFragment (fragment_of job i) }
{}

/// The readers of a fragment's places are its readings turned round, each as often.
pub fn readers_are_turned_readings()
    ensures { (job : Job) (i : ℕ) → IsJob job → i < job.settings.fragments → ReadersAreTurnedReadings (fragment_of job i) }
{}

/// No walk weighs less than the relaxed value of its end.
pub fn no_walk_is_shorter()
    ensures { (g : Digraph) (sources : List ℕ) (x : ℕ → ℕ) (v : ℕ) (walk : List Edge) → IsRelaxed g sources x → IsWalkFrom g sources v walk → x v ≤ walk_weight walk }
{}

/// Relaxed values that are each the weight of a walk, or FAR, are the distances.
pub fn relaxed_weights_are_distances()
    ensures { (g : Digraph) (sources : List ℕ) (x : ℕ → ℕ) → IsGraph g → IsRelaxed g sources x → (v : ℕ) → v < count_of g → IsWeightOrFar g sources v (x v) → IsDistance g sources v (x v) }
{}

/// A walk goes on by an edge that begins where it ends.
pub fn walk_goes_on()
    ensures { (g : Digraph) (u : ℕ) (walk : List Edge) (e : Edge) → IsWalk g u e.from walk → Contains g.edges e → IsWalk g u e.to (walk ++ e ∷ []) × (walk_weight (walk ++ e ∷ []) ≡ walk_weight walk + e.weight) }
{}

/// A vertex has one distance.
pub fn one_distance()
    ensures { (g : Digraph) (sources : List ℕ) (v m n : ℕ) → IsDistance g sources v m → IsDistance g sources v n → m ≡ n }
{}

/// A distance along a walk is less than `FAR`, which stands for none.
pub fn distances_are_near()
    ensures { (g : Digraph) (sources : List ℕ) (v n : ℕ) → IsGraph g → IsLeastWeight g sources v n → n < FAR }
{}

/// The equations of every query on a graph within its limits are lawful.
pub fn equations_are_lawful()
    ensures any_query { (g : Digraph) (q : Query) → IsGraph g → AreLawful (equations_on g q) }
    ensures job { (job : Job) → IsJob job → AreLawful (equations_of job) }
{}

/// Below the starts an equation asks of a value what the query's rule asks, where the start is left out.
pub fn below_starts_rules_decide()
    ensures { (g : Digraph) (q : Query) → BelowStartsRulesDecide g q }
{}

/// Lawful equations have one greatest solution.
pub fn greatest_is_there()
    ensures there { (e : Equations) → AreLawful e → (x : Assignment) × IsGreatest e x }
    ensures only { (e : Equations) (x y : Assignment) → AreLawful e → IsGreatest e x → IsGreatest e y → (v : ℕ) → v < e.count → x v ≡ y v }
{}

/// The greatest solution of a job's equations has the value of its query at each vertex, and no other assignment has.
pub fn greatest_is_meaning()
    ensures job { (job : Job) → IsJob job → GreatestIsMeaning job }
    ensures dist { (g : Digraph) (source : ℕ) → IsGraph g → GreatestIsValues g (Dist source) }
    ensures label { (g : Digraph) → IsGraph g → GreatestIsValues g Label }
    ensures reach { (g : Digraph) (source : ℕ) → IsGraph g → GreatestIsValues g (Reach source) }
{}

/// A job has one answer.
pub fn values_are_there()
    ensures there { (job : Job) → IsJob job → (x : Assignment) × AreValues job x }
    ensures only { (job : Job) (x y : Assignment) → IsJob job → AreValues job x → AreValues job y → (v : ℕ) → v < count_of job.graph → x v ≡ y v }
{}
