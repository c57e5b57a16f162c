//! Removal in the compact kind: the last element moves into the freed index.
ghost use Rattle.std.specs.Prelude.{◌≡◌, ℕ, List, [], ◌∷◌, Some, None};
ghost use Rattle.daggy_base.specs.Graph.{Graph, out_list, in_list, node_count, edge_count};
ghost use Rattle.daggy_base.specs.Adding.{next_node, next_edge};
ghost use Rattle.daggy_base.specs.Removal.{without_edge, without_node, without_edges};
ghost use Rattle.daggy_base.specs.declared.kind.Kind.TheVariants.{Compact};
ghost use Rattle.daggy_base.specs.declared.index.Direction.TheVariants.{Outgoing, Incoming};
ghost use Rattle.example_model.specs.Examples.{line, fan, triangle, turned_triangle, doubled};
ghost use Rattle.example_model.specs.Examples.{diamond, shortcuts, doubled_step, self_loop};
ghost use Rattle.example_model.specs.Examples.{one_node, with_lines};

/// Removing an edge moves the edge with the last index into the freed index.
pub fn removing_an_edge_moves_the_last_one()
    ensures edges { (without_edge Compact triangle 0).edges
        ≡ Some (line 1 2 30) ∷ Some (line 0 2 20) ∷ [] }
    ensures entering { in_list (without_edge Compact triangle 0) 2 ≡ 0 ∷ 1 ∷ [] }
    ensures none_entering { in_list (without_edge Compact triangle 0) 1 ≡ [] }
    ensures leaving { out_list (without_edge Compact triangle 0) 0 ≡ 1 ∷ [] }
    ensures moved { out_list (without_edge Compact triangle 0) 1 ≡ 0 ∷ [] }
    ensures next { next_edge (without_edge Compact triangle 0) ≡ 2 }
{}

/// The other members of a list keep their order, whatever indices they get.
pub fn removing_an_edge_keeps_the_order_of_lists()
    ensures lists { out_list (without_edge Compact doubled 0) 0 ≡ 0 ∷ 1 ∷ [] }
    ensures edges { (without_edge Compact doubled 0).edges
        ≡ Some (line 0 1 30) ∷ Some (line 0 2 20) ∷ [] }
{}

/// Removing the edge with the last index moves no other edge.
pub fn removing_the_last_edge_moves_none()
    ensures edges { (without_edge Compact fan 2).edges
        ≡ Some (line 0 1 10) ∷ Some (line 0 2 20) ∷ [] }
    ensures lists { out_list (without_edge Compact fan 2) 0 ≡ 1 ∷ 0 ∷ [] }
    ensures nodes { (without_edge Compact fan 2).nodes ≡ fan.nodes }
{}

/// Removing a node removes its edges, and moves the node with the last index into the freed index.
pub fn removing_a_node_moves_the_last_one()
    ensures nodes { (without_node Compact turned_triangle 0).nodes ≡ Some 30 ∷ Some 20 ∷ [] }
    ensures edges { (without_node Compact turned_triangle 0).edges ≡ Some (line 1 0 20) ∷ [] }
    ensures leaving { out_list (without_node Compact turned_triangle 0) 1 ≡ 0 ∷ [] }
    ensures entering { in_list (without_node Compact turned_triangle 0) 0 ≡ 0 ∷ [] }
    ensures next_node { next_node (without_node Compact turned_triangle 0) ≡ 2 }
    ensures next_edge { next_edge (without_node Compact turned_triangle 0) ≡ 1 }
{}

/// The edges that leave a removed node are removed newest first, which determines the new indices
/// of the others.
pub fn edges_that_leave_a_removed_node_go_newest_first()
    ensures edges { (without_node Compact diamond 0).edges
        ≡ Some (line 1 0 30) ∷ Some (line 2 0 40) ∷ [] }
    ensures entering { in_list (without_node Compact diamond 0) 0 ≡ 1 ∷ 0 ∷ [] }
    ensures nodes { (without_node Compact diamond 0).nodes ≡ Some 40 ∷ Some 20 ∷ Some 30 ∷ [] }
{}

/// The edges that enter a removed node are removed newest first too.
pub fn edges_that_enter_a_removed_node_go_newest_first()
    ensures edges { (without_node Compact diamond 3).edges
        ≡ Some (line 0 1 10) ∷ Some (line 0 2 20) ∷ [] }
    ensures leaving { out_list (without_node Compact diamond 3) 0 ≡ 1 ∷ 0 ∷ [] }
{}

/// The edges that leave a removed node are removed before those that enter it.
pub fn edges_that_leave_a_removed_node_go_first()
    ensures edges { (without_node Compact diamond 1).edges
        ≡ Some (line 2 1 40) ∷ Some (line 0 2 20) ∷ [] }
    ensures nodes { (without_node Compact diamond 1).nodes ≡ Some 10 ∷ Some 40 ∷ Some 30 ∷ [] }
    ensures leaving { out_list (without_node Compact diamond 1) 0 ≡ 1 ∷ [] }
    ensures entering { in_list (without_node Compact diamond 1) 1 ≡ 0 ∷ [] }
{}

/// A self-loop of a removed node is removed once.
pub fn a_self_loop_goes_with_its_node()
    ensures nodes { node_count (without_node Compact self_loop 0) ≡ 0 }
    ensures edges { edge_count (without_node Compact self_loop 0) ≡ 0 }
    ensures the_edge_alone { without_edge Compact self_loop 0 ≡ one_node }
{}

/// Three of eight edges between five nodes are removed, from the highest index down.
pub fn removing_downwards_keeps_the_lower_indices()
    ensures edges { (without_edges Compact shortcuts (6 ∷ 3 ∷ 2 ∷ [])).edges
        ≡ Some (line 0 1 1) ∷ Some (line 0 2 2) ∷ Some (line 2 3 6) ∷ Some (line 3 4 8)
        ∷ Some (line 1 3 5) ∷ [] }
    ensures entering { in_list (without_edges Compact shortcuts (6 ∷ 3 ∷ 2 ∷ [])) 3 ≡ 2 ∷ 4 ∷ [] }
    ensures next { next_edge (without_edges Compact shortcuts (6 ∷ 3 ∷ 2 ∷ [])) ≡ 5 }
    ensures again { let reduced = without_edges Compact shortcuts (6 ∷ 3 ∷ 2 ∷ []) in
        without_edges Compact (with_lines (line 0 4 9 ∷ []) reduced) (5 ∷ []) ≡ reduced }
{}

/// Parallel edges keep their order when the edge before them is removed.
pub fn removing_a_shortcut_beside_parallel_edges()
    ensures { (without_edges Compact doubled_step (1 ∷ [])).edges
        ≡ Some (line 0 1 1) ∷ Some (line 2 3 5) ∷ Some (line 1 2 3) ∷ Some (line 1 2 4) ∷ [] }
{}
