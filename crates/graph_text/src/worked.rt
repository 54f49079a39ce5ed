ghost use Rattle.std.specs.Prelude.{◌≡◌, [], codes, replicate};
ghost use Rattle.graph_text.specs.Input.{input_of, shown_of, bad};
ghost use Rattle.graph_text.specs.Rows.{detour_job, to_and_fro, alone_job, labelled_job, empty_job, empty_under, empty_with_snapshots, download_job, cycle_job, unused_job};

use graph_core::Policy;
use line_statements::Why;

/// Worked inputs are these jobs, and a bad line is found with its number and cause.
pub fn rows()
    ensures job { input_of (codes "query dist 1\n1 2 5\n2 3 1\n1 3 9\n") ≡ Ok detour_job }
    ensures no_source { input_of (codes "query dist 9\n1 2\n") ≡ Err (bad 3 Why.NoSource) }
    ensures empty { input_of [] ≡ Err (bad 1 Why.NoQuery) }
    ensures keyword { input_of (codes "hello") ≡ Err (bad 1 Why.Word) }
    ensures query_word { input_of (codes "query foo") ≡ Err (bad 1 Why.Word) }
    ensures no_pattern { input_of (codes "query sim") ≡ Err (bad 2 Why.NoPattern) }
    ensures simulation_count { input_of (codes "query sim 1") ≡ Err (bad 1 Why.Count) }
    ensures node_range { input_of (codes "node 64 0") ≡ Err (bad 1 Why.Range) }
    ensures node_count { input_of (codes "node 0") ≡ Err (bad 1 Why.Count) }
    ensures second_node { input_of (codes "node 1 1\nnode 1 2\n") ≡ Err (bad 2 Why.Twice) }
    ensures link_count { input_of (codes "link 0") ≡ Err (bad 1 Why.Count) }
    ensures link_range { input_of (codes "link 0 64") ≡ Err (bad 1 Why.Range) }
    ensures link_without_node { input_of (codes "query sim\nnode 0 0\nlink 0 1\n") ≡ Err (bad 4 Why.NoPattern) }
    ensures cycle { input_of (codes "query sim\nnode 0 1\nlink 0 1\nnode 1 2\nlink 1 0\nv 1 1\n1 2\n") ≡ Ok cycle_job }
    ensures unused_pattern { input_of (codes "query dist 1\nnode 0 1\nlink 0 5\n1 2\n") ≡ Ok unused_job }
    ensures labels { input_of (codes "query label") ≡ Ok empty_job }
    ensures labels_count { input_of (codes "query label 1") ≡ Err (bad 1 Why.Count) }
    ensures reach_count { input_of (codes "query reach") ≡ Err (bad 1 Why.Count) }
    ensures reach_number { input_of (codes "query reach x") ≡ Err (bad 1 Why.Number) }
    ensures reach_range { input_of (codes "query reach 4294967296") ≡ Err (bad 1 Why.Range) }
    ensures other_query { input_of (codes "query label\nquery reach 1\n") ≡ Err (bad 2 Why.Twice) }
    ensures reach_source { input_of (codes "query reach 9\n1 2\n") ≡ Err (bad 3 Why.NoSource) }
    ensures download { input_of (codes "# Directed graph\r\n# FromNodeId\tToNodeId\r\nquery reach 0\r\n0\t11342\r\n0\t824020\r\n11342\t0") ≡ Ok download_job }
    ensures snapshots { input_of (codes "snapshot 2\nquery label\n") ≡ Ok (empty_with_snapshots 2) }
    ensures no_snapshots { input_of (codes "query label\nsnapshot 0") ≡ Ok (empty_with_snapshots 0) }
    ensures rarest_snapshots { input_of (codes "query label\nsnapshot 4294967295\n") ≡ Ok (empty_with_snapshots 4294967295) }
    ensures snapshot_count { input_of (codes "snapshot") ≡ Err (bad 1 Why.Count) }
    ensures snapshot_number { input_of (codes "snapshot x") ≡ Err (bad 1 Why.Number) }
    ensures snapshot_range { input_of (codes "snapshot 4294967296") ≡ Err (bad 1 Why.Range) }
    ensures second_snapshot { input_of (codes "snapshot 2\nsnapshot 0\n") ≡ Err (bad 2 Why.Twice) }
    ensures lanes { input_of (codes "query label\nlanes 16\n") ≡ Ok (empty_under 16 (Policy.Aap 4 2)) }
    ensures lanes_count { input_of (codes "lanes") ≡ Err (bad 1 Why.Count) }
    ensures no_lanes { input_of (codes "lanes 0") ≡ Err (bad 1 Why.Range) }
    ensures lanes_range { input_of (codes "lanes 17") ≡ Err (bad 1 Why.Range) }
    ensures second_lanes { input_of (codes "lanes 1\nlanes 1\n") ≡ Err (bad 2 Why.Twice) }
    ensures bsp { input_of (codes "policy bsp\nquery label\n") ≡ Ok (empty_under 2 Policy.Bsp) }
    ensures ap { input_of (codes "lanes 1\npolicy ap\nquery label\n") ≡ Ok (empty_under 1 Policy.Ap) }
    ensures ssp { input_of (codes "policy ssp 1000000\nquery label\n") ≡ Ok (empty_under 2 (Policy.Ssp 1000000)) }
    ensures aap { input_of (codes "policy aap 0 1000000\nquery label\n") ≡ Ok (empty_under 2 (Policy.Aap 0 1000000)) }
    ensures policy_word { input_of (codes "policy foo") ≡ Err (bad 1 Why.Word) }
    ensures policy_count { input_of (codes "policy") ≡ Err (bad 1 Why.Count) }
    ensures ap_count { input_of (codes "policy ap 3") ≡ Err (bad 1 Why.Count) }
    ensures ssp_count { input_of (codes "policy ssp") ≡ Err (bad 1 Why.Count) }
    ensures ssp_range { input_of (codes "policy ssp 1000001") ≡ Err (bad 1 Why.Range) }
    ensures aap_count { input_of (codes "policy aap 4") ≡ Err (bad 1 Why.Count) }
    ensures aap_number { input_of (codes "policy aap 1000001 x") ≡ Err (bad 1 Why.Number) }
    ensures aap_range { input_of (codes "policy aap 4 0") ≡ Err (bad 1 Why.Range) }
    ensures second_policy { input_of (codes "policy ap\npolicy ssp 1\n") ≡ Err (bad 2 Why.Twice) }
    ensures fragments { input_of (codes "fragments 65") ≡ Err (bad 1 Why.Range) }
    ensures no_fragments { input_of (codes "fragments 0") ≡ Err (bad 1 Why.Range) }
    ensures fragments_count { input_of (codes "fragments") ≡ Err (bad 1 Why.Count) }
    ensures fragments_number { input_of (codes "fragments four") ≡ Err (bad 1 Why.Number) }
    ensures second_fragments { input_of (codes "fragments 2\nfragments 2\n") ≡ Err (bad 2 Why.Twice) }
    ensures cut_word { input_of (codes "cut up down") ≡ Err (bad 1 Why.Word) }
    ensures cut_count { input_of (codes "cut range 1") ≡ Err (bad 1 Why.Count) }
    ensures second_cut { input_of (codes "cut range\ncut hash\n") ≡ Err (bad 2 Why.Twice) }
    ensures vertex_count { input_of (codes "v") ≡ Err (bad 1 Why.Count) }
    ensures vertex_number { input_of (codes "v 4294967296 x") ≡ Err (bad 1 Why.Number) }
    ensures vertex_range { input_of (codes "v 1 4294967296") ≡ Err (bad 1 Why.Range) }
    ensures second_vertex { input_of (codes "v 3\nv 3\n") ≡ Err (bad 2 Why.Twice) }
    ensures alone { input_of (codes "query dist 7\nv 7 0\n") ≡ Ok alone_job }
    ensures labelled { input_of (codes "5 8 4\nv 2 9\ncut range\n3 2\nv 8 1\nv 3\nfragments 2\nquery dist 3\n") ≡ Ok labelled_job }
    ensures query_count { input_of (codes "query") ≡ Err (bad 1 Why.Count) }
    ensures one_word { input_of (codes "1") ≡ Err (bad 1 Why.Count) }
    ensures four_words { input_of (codes "1 2 3 4") ≡ Err (bad 1 Why.Count) }
    ensures no_number { input_of (codes "1 x") ≡ Err (bad 1 Why.Number) }
    ensures half_number { input_of (codes "12a 3") ≡ Err (bad 1 Why.Number) }
    ensures second_query { input_of (codes "query dist 1\nquery dist 1\n") ≡ Err (bad 2 Why.Twice) }
    ensures crlf { input_of (codes "# Directed graph\r\n# FromNodeId\tToNodeId\r\nquery dist 0\r\n0\t11342\r\n11342\t0") ≡ Ok to_and_fro }
    ensures range { input_of (codes "query dist 0\n0 4294967296\n") ≡ Err (bad 2 Why.Range) }
    ensures largest { shown_of (codes "query dist 0\n0 4294967295 4294967295\n") ≡ None }
    ensures minus { input_of (codes "-1 2\n") ≡ Err (bad 1 Why.Word) }
    ensures plus { input_of (codes "1 +2\n") ≡ Err (bad 1 Why.Number) }
    ensures long_comment { shown_of (replicate 4097 35) ≡ Some (bad 1 Why.TooLong) }
    ensures longest_comment { shown_of (replicate 4096 35) ≡ None }
    ensures shown { shown_of (codes "hello") ≡ None }
    ensures shown_ended { shown_of (codes "# x\r\nhello\n1") ≡ Some (bad 2 Why.Word) }
{}
