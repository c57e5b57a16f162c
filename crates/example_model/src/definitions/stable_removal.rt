//! Removal in the stable kind: slots become vacant, and are reused.
ghost use Rattle.std.specs.Prelude.{◌≡◌, ℕ, List, [], ◌∷◌, Some, None, true, false};
ghost use Rattle.daggy_base.specs.Graph.{Graph, node_weight, edge_at, out_list, in_list};
ghost use Rattle.daggy_base.specs.Graph.{node_count, edge_count, node_bound, edge_bound};
ghost use Rattle.daggy_base.specs.Adding.{next_node, next_edge, with_node, with_edge};
ghost use Rattle.daggy_base.specs.Removal.{without_edge, without_node, without_edges};
ghost use Rattle.daggy_base.specs.declared.kind.Kind.TheVariants.{Stable};
ghost use Rattle.daggy_base.specs.TakingBack.{with_edge_taken_back};
ghost use Rattle.example_model.specs.Examples.{line, fan, triangle, diamond, chain};
ghost use Rattle.example_model.specs.Examples.{two_children, with_lines, with_nodes};

/// Removing an edge moves nothing, and its slot is reused next.
pub fn a_vacated_edge_slot_is_taken_next()
    ensures edges { (without_edge Stable chain 0).edges ≡ None ∷ Some (line 1 2 20) ∷ [] }
    ensures next { next_edge (without_edge Stable chain 0) ≡ 0 }
    ensures taken { (with_edge (without_edge Stable chain 0) 0 2 7).edges
        ≡ Some (line 0 2 7) ∷ Some (line 1 2 20) ∷ [] }
    ensures new_one_after { next_edge (with_edge (without_edge Stable chain 0) 0 1 5) ≡ 2 }
    ensures count { edge_count (without_edge Stable chain 0) ≡ 1 }
    ensures bound { edge_bound (without_edge Stable chain 0) ≡ 2 }
{}

/// Of several vacant slots, the one vacated last is reused first.
pub fn the_slot_vacated_last_is_taken_first()
    ensures first { next_edge (without_edges Stable fan (0 ∷ 2 ∷ 1 ∷ [])) ≡ 1 }
    ensures second { next_edge (with_edge (without_edges Stable fan (0 ∷ 2 ∷ 1 ∷ [])) 0 1 5) ≡ 2 }
    ensures third { next_edge
        (with_lines (line 0 1 5 ∷ line 0 1 6 ∷ []) (without_edges Stable fan (0 ∷ 2 ∷ 1 ∷ [])))
        ≡ 0 }
    ensures fourth { next_edge (with_lines (line 0 1 5 ∷ line 0 1 6 ∷ line 0 1 7 ∷ [])
        (without_edges Stable fan (0 ∷ 2 ∷ 1 ∷ [])))
        ≡ 3 }
{}

/// Removing a node vacates its slot and those of its edges. Everything else keeps its index.
pub fn removing_a_node_vacates_slots()
    ensures nodes { (without_node Stable two_children 1).nodes ≡ Some 10 ∷ None ∷ Some 30 ∷ [] }
    ensures edges { (without_node Stable two_children 1).edges ≡ None ∷ Some (line 0 2 5) ∷ [] }
    ensures leaving { out_list (without_node Stable two_children 1) 0 ≡ 1 ∷ [] }
    ensures next_node { next_node (without_node Stable two_children 1) ≡ 1 }
    ensures next_edge { next_edge (without_node Stable two_children 1) ≡ 0 }
    ensures bound { node_bound (without_node Stable two_children 1) ≡ 3 }
    ensures count { node_count (without_node Stable two_children 1) ≡ 2 }
{}

/// A node in a reused slot has no edges, and the edges of the others are unchanged.
pub fn a_node_in_a_vacated_slot_has_no_edges()
    ensures weight { node_weight (with_node (without_node Stable two_children 1) 40) 1 ≡ Some 40 }
    ensures entering { in_list (with_node (without_node Stable two_children 1) 40) 1 ≡ [] }
    ensures leaving { out_list (with_node (without_node Stable two_children 1) 40) 1 ≡ [] }
    ensures children { out_list (with_node (without_node Stable two_children 1) 40) 0 ≡ 1 ∷ [] }
    ensures next { next_node (with_node (without_node Stable two_children 1) 40) ≡ 3 }
{}

/// First the edges that leave a removed node are vacated, newest first, and then those that enter
/// it.
pub fn slots_of_a_removed_node_are_vacated_newest_first()
    ensures leaving { (without_node Stable fan 0).vacant_edges ≡ 0 ∷ 1 ∷ 2 ∷ [] }
    ensures entering { (without_node Stable diamond 3).vacant_edges ≡ 2 ∷ 3 ∷ [] }
    ensures both { (without_node Stable diamond 1).vacant_edges ≡ 0 ∷ 2 ∷ [] }
{}

/// Bounds are those of the greatest occupied slots, not of all slots.
pub fn bounds_pass_over_vacant_slots_at_the_end()
    ensures last_node { node_bound (without_node Stable fan 3) ≡ 3 }
    ensures last_edge { edge_bound (without_node Stable fan 3) ≡ 2 }
    ensures inner_node { node_bound (without_node Stable (without_node Stable fan 2) 3) ≡ 2 }
    ensures no_edge { edge_bound (without_node Stable fan 0) ≡ 0 }
    ensures no_node { node_bound (without_node Stable (without_node Stable chain 0) 2) ≡ 2 }
    ensures nothing_left { node_bound
        (without_node Stable (without_node Stable (without_node Stable chain 0) 2) 1)
        ≡ 0 }
{}

/// Taking back the edge that was added last restores the graph, whether its slot was new or reused.
pub fn taking_an_edge_back_gives_the_graph_before()
    ensures made { with_edge_taken_back true (with_edge fan 1 2 9) 3 ≡ fan }
    ensures reused { let g = without_edges Stable fan (0 ∷ 2 ∷ []) in
        with_edge_taken_back false (with_edge g 1 2 9) 2 ≡ g }
{}
