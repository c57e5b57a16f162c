//! Writing weights, clearing, adding a node with an edge, and taking a node back.
ghost use Rattle.std.specs.Prelude.{◌≡◌, ℕ, List, [], ◌∷◌, Some, None, true, false};
ghost use Rattle.daggy_base.specs.declared.index.Direction.TheVariants.{Outgoing, Incoming};
ghost use Rattle.daggy_base.specs.Graph.{Graph, node_weight, out_list, in_list};
ghost use Rattle.daggy_base.specs.Adding.{next_node, next_edge, with_node, with_neighbor};
ghost use Rattle.daggy_base.specs.Removal.{without_node, without_all_edges};
ghost use Rattle.daggy_base.specs.declared.kind.Kind.TheVariants.{Stable};
ghost use Rattle.daggy_base.specs.TakingBack.{with_node_taken_back};
ghost use Rattle.daggy_base.specs.Weights.{with_node_weight, with_edge_weight, edge_weight};
ghost use Rattle.example_model.specs.Examples.{line, one_node, pair, fan, diamond};

/// Writing the weight of an edge changes only that weight.
pub fn writing_the_weight_of_an_edge_changes_it_alone()
    ensures edges { (with_edge_weight pair 1 9).edges ≡ Some (line 0 1 1) ∷ Some (line 0 1 9) ∷ [] }
    ensures weight { edge_weight (with_edge_weight pair 1 9) 1 ≡ Some 9 }
    ensures nodes { (with_edge_weight pair 1 9).nodes ≡ pair.nodes }
    ensures out_lists { (with_edge_weight pair 1 9).out_lists ≡ pair.out_lists }
    ensures in_lists { (with_edge_weight pair 1 9).in_lists ≡ pair.in_lists }
{}

/// Writing the weight of a node changes only that weight.
pub fn writing_the_weight_of_a_node_changes_it_alone()
    ensures nodes { (with_node_weight pair 1 9).nodes ≡ Some 10 ∷ Some 9 ∷ [] }
    ensures edges { (with_node_weight pair 1 9).edges ≡ pair.edges }
    ensures out_lists { (with_node_weight pair 1 9).out_lists ≡ pair.out_lists }
{}

/// A node is added with an edge to it, or with an edge from it.
pub fn a_node_is_added_with_an_edge()
    ensures child { (with_neighbor Outgoing one_node 0 9 7).edges ≡ Some (line 0 1 9) ∷ [] }
    ensures parent { (with_neighbor Incoming one_node 0 9 7).edges ≡ Some (line 1 0 9) ∷ [] }
    ensures weight { node_weight (with_neighbor Outgoing one_node 0 9 7) 1 ≡ Some 7 }
    ensures leaving { out_list (with_neighbor Outgoing one_node 0 9 7) 0 ≡ 0 ∷ [] }
    ensures entering { in_list (with_neighbor Incoming one_node 0 9 7) 0 ≡ 0 ∷ [] }
{}

/// Clearing the edges keeps nodes and vacant node slots, and drops vacant edge slots.
pub fn clearing_edges_keeps_nodes()
    ensures nodes { (without_all_edges (without_node Stable diamond 1)).nodes
        ≡ Some 10 ∷ None ∷ Some 30 ∷ Some 40 ∷ [] }
    ensures edges { (without_all_edges (without_node Stable diamond 1)).edges ≡ [] }
    ensures next_node { next_node (without_all_edges (without_node Stable diamond 1)) ≡ 1 }
    ensures next_edge { next_edge (without_all_edges (without_node Stable diamond 1)) ≡ 0 }
    ensures leaving { out_list (without_all_edges (without_node Stable diamond 1)) 0 ≡ [] }
    ensures entering { in_list (without_all_edges (without_node Stable diamond 1)) 3 ≡ [] }
{}

/// Taking back the node that was added last restores the graph, whether its slot was new or reused.
pub fn taking_a_node_back_gives_the_graph_before()
    ensures made { with_node_taken_back true (with_node fan 9) 4 ≡ fan }
    ensures reused { let g = without_node Stable fan 2 in
        with_node_taken_back false (with_node g 9) 2 ≡ g }
{}
