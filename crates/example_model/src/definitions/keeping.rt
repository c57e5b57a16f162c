//! Parts that are kept in their slots.
ghost use Rattle.std.specs.Prelude.{◌≡◌, ℕ, [], ◌∷◌};
ghost use Rattle.std.specs.Borrow.{Bor};
ghost use Rattle.daggy_base.specs.Graph.{Graph, out_list, in_list, node_count};
ghost use Rattle.daggy_base.specs.Adding.{next_node, next_edge, with_edge};
ghost use Rattle.daggy_base.specs.FilteringInPlace.{IsFilteredInPlace};
ghost use Rattle.daggy_base.specs.FromSlots.{graph_of_slots};
ghost use Rattle.example_model.specs.Examples.{line, nothing, pair, triangle, diamond};
ghost use Rattle.example_model.specs.Examples.{shortcuts, with_lines};
ghost use Rattle.example_model.specs.Keeping.{drops_ten, numbers_its_calls, kept};

/// A graph of given slots: each list begins with the greatest index, and of the vacant slots the
/// greatest is taken next.
pub fn slots_make_lists_from_the_greatest_index_down()
    ensures count { node_count kept ≡ 2 }
    ensures leaving { out_list kept 1 ≡ 2 ∷ [] }
    ensures entering { in_list kept 2 ≡ 2 ∷ [] }
    ensures vacant { out_list kept 0 ≡ [] }
    ensures next_node { next_node kept ≡ 0 }
    ensures next_edge { next_edge kept ≡ 1 }
    ensures second { next_edge (with_edge kept 1 2 7) ≡ 0 }
    ensures third { next_edge (with_lines (line 1 2 7 ∷ line 1 2 8 ∷ []) kept) ≡ 3 }
    ensures parallel { out_list (graph_of_slots pair.nodes pair.edges) 0 ≡ 1 ∷ 0 ∷ [] }
{}

/// Where all was added one after another and nothing was removed, the slots make the graph again.
pub fn slots_of_what_was_added_make_it_again()
    ensures none { graph_of_slots nothing.nodes nothing.edges ≡ nothing }
    ensures four { graph_of_slots diamond.nodes diamond.edges ≡ diamond }
    ensures five { graph_of_slots shortcuts.nodes shortcuts.edges ≡ shortcuts }
{}

/// The first node of three is dropped. The other two and the edge between them keep their indices,
/// and that edge is the only one that the second closure was called with.
pub fn what_is_kept_stays_in_its_slot()
    ensures this { (shown : ℕ → Bor ℕ) → ((w : ℕ) → (shown w).now ≡ w)
        → IsFilteredInPlace (λ n. n) drops_ten numbers_its_calls 0 0 triangle kept }
    ensures no_other { (h : Graph ℕ ℕ)
        → IsFilteredInPlace (λ n. n) drops_ten numbers_its_calls 0 0 triangle h → h ≡ kept }
{}
