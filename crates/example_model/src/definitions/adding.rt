//! Adding nodes and edges.
ghost use Rattle.std.specs.Prelude.{◌≡◌, ℕ, List, [], ◌∷◌, Some, None};
ghost use Rattle.daggy_base.specs.declared.index.Direction.TheVariants.{Outgoing, Incoming};
ghost use Rattle.daggy_base.specs.Graph.{Graph, node_weight, edge_at, out_list, in_list};
ghost use Rattle.daggy_base.specs.Graph.{node_count, edge_count, node_bound, edge_bound};
ghost use Rattle.daggy_base.specs.Adding.{next_node, next_edge, with_node};
ghost use Rattle.daggy_base.specs.Cursor.{first_of, cursor_after};
ghost use Rattle.example_model.specs.Examples.{line, end, nothing, one_node, self_loop, fan};
ghost use Rattle.example_model.specs.Examples.{triangle, pair};

/// The first node is node 0, and has no edges.
pub fn the_first_node_is_node_0()
    ensures index { next_node nothing ≡ 0 }
    ensures weight { node_weight (with_node nothing 5) 0 ≡ Some 5 }
    ensures no_out { out_list (with_node nothing 5) 0 ≡ [] }
    ensures no_in { in_list (with_node nothing 5) 0 ≡ [] }
    ensures next { next_node (with_node nothing 5) ≡ 1 }
{}

/// A missing node has no weight and no edges, and a missing edge no weight and no endpoints.
pub fn an_empty_graph_has_nothing()
    ensures node { node_weight nothing 0 ≡ None }
    ensures edge { edge_at nothing 0 ≡ None }
    ensures first_out { first_of end (out_list nothing 0) ≡ end }
    ensures first_in { first_of end (in_list nothing 0) ≡ end }
    ensures nodes { node_bound nothing ≡ 0 }
    ensures edges { edge_bound nothing ≡ 0 }
{}

/// The edges that leave a node are in its out list, newest first.
pub fn edges_that_leave_stand_newest_first()
    ensures root { out_list fan 0 ≡ 2 ∷ 1 ∷ 0 ∷ [] }
    ensures first_child { in_list fan 1 ≡ 0 ∷ [] }
    ensures last_child { in_list fan 3 ≡ 2 ∷ [] }
    ensures next { next_edge fan ≡ 3 }
{}

/// The edges that enter a node are in its in list, newest first.
pub fn edges_that_enter_stand_newest_first()
    ensures two { in_list triangle 2 ≡ 2 ∷ 1 ∷ [] }
    ensures one { in_list triangle 1 ≡ 0 ∷ [] }
    ensures none { in_list triangle 0 ≡ [] }
{}

/// If nothing was removed, counts and bounds are the number of additions.
pub fn counts_are_of_what_was_added()
    ensures nodes { node_count fan ≡ 4 }
    ensures edges { edge_count fan ≡ 3 }
    ensures node_bound { node_bound fan ≡ 4 }
    ensures edge_bound { edge_bound fan ≡ 3 }
{}

/// An edge keeps its endpoints and its weight.
pub fn edges_keep_their_ends_and_weights()
    ensures { triangle.edges ≡ Some (line 0 1 10) ∷ Some (line 0 2 20) ∷ Some (line 1 2 30) ∷ [] }
{}

/// Each edge has a next edge in both of its lists.
pub fn each_edge_names_the_next()
    ensures first_out { first_of end (out_list triangle 0) ≡ 1 }
    ensures next_out { cursor_after Outgoing end triangle 1 (edge_at triangle 1) ≡ 0 }
    ensures last_out { cursor_after Outgoing end triangle 0 (edge_at triangle 0) ≡ end }
    ensures first_in { first_of end (in_list triangle 2) ≡ 2 }
    ensures next_in { cursor_after Incoming end triangle 2 (edge_at triangle 2) ≡ 1 }
    ensures last_in { cursor_after Incoming end triangle 1 (edge_at triangle 1) ≡ end }
{}

/// A self-loop is in both lists of its node. A graph that is not a dag may have one.
pub fn a_self_loop_stands_in_both_lists()
    ensures leaves { out_list self_loop 0 ≡ 0 ∷ [] }
    ensures enters { in_list self_loop 0 ≡ 0 ∷ [] }
    ensures nodes { self_loop.nodes ≡ one_node.nodes }
{}

/// Parallel edges are distinct edges.
pub fn parallel_edges_are_edges_of_their_own()
    ensures leaves { out_list pair 0 ≡ 1 ∷ 0 ∷ [] }
    ensures enters { in_list pair 1 ≡ 1 ∷ 0 ∷ [] }
    ensures count { edge_count pair ≡ 2 }
{}
