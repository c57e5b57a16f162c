//! Finding an edge between two nodes.
ghost use Rattle.std.specs.Prelude.{◌≡◌, ℕ, Some, None};
ghost use Rattle.daggy_base.specs.Finding.{find_edge};
ghost use Rattle.daggy_base.specs.Removal.{without_edge, without_node};
ghost use Rattle.daggy_base.specs.declared.kind.Kind.TheVariants.{Compact, Stable};
ghost use Rattle.example_model.specs.Examples.{fan, pair, doubled, self_loop, triangle};

/// Of several parallel edges, the newest is found.
pub fn the_newest_of_parallel_edges_is_found()
    ensures pair { find_edge pair 0 1 ≡ Some 1 }
    ensures others_between { find_edge doubled 0 1 ≡ Some 2 }
{}

/// After the first edge is removed, the edge that got its index is found, although it is after
/// others in the list.
pub fn the_edge_that_moved_is_found()
    ensures { find_edge (without_edge Compact doubled 0) 0 1 ≡ Some 0 }
{}

/// An edge is found only in its own direction, and only if there is one.
pub fn only_edges_that_lead_there_are_found()
    ensures there { find_edge fan 0 1 ≡ Some 0 }
    ensures back { find_edge fan 1 0 ≡ None }
    ensures not_joined { find_edge fan 1 2 ≡ None }
    ensures only_by_a_path { find_edge triangle 2 2 ≡ None }
    ensures self_loop { find_edge self_loop 0 0 ≡ Some 0 }
{}

/// No edge is found between missing nodes.
pub fn missing_nodes_have_no_edge_between_them()
    ensures parent { find_edge fan 9 1 ≡ None }
    ensures child { find_edge fan 0 9 ≡ None }
    ensures removed_child { find_edge (without_node Stable fan 3) 0 3 ≡ None }
    ensures removed_parent { find_edge (without_node Stable fan 0) 0 3 ≡ None }
{}
