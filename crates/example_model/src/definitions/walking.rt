//! Steps of walkers, and reads of edges.
ghost use Rattle.std.specs.Prelude.{◌≡◌, ℕ, List, [], ◌∷◌, Some, None};
ghost use Rattle.daggy_base.specs.declared.index.Direction.TheVariants.{Outgoing, Incoming};
ghost use Rattle.daggy_base.specs.Graph.{out_list, in_list};
ghost use Rattle.daggy_base.specs.Adding.{with_edge};
ghost use Rattle.daggy_base.specs.Removal.{without_edge, without_edges};
ghost use Rattle.daggy_base.specs.declared.kind.Kind.TheVariants.{Compact, Stable};
ghost use Rattle.daggy_base.specs.Cursor.{first_of, IsWalkStep};
ghost use Rattle.daggy_base.specs.Look.{IsLook};
ghost use Rattle.example_model.specs.Examples.{end, fan, triangle, shortcuts, two_children};
ghost use Rattle.example_model.specs.Examples.{nothing, self_loop};

/// A walk over the children of a node yields its edges newest first, and then nothing.
pub fn a_walk_over_children_goes_newest_first()
    ensures starts { first_of end (out_list fan 0) ≡ 2 }
    ensures newest { IsWalkStep Outgoing end fan 2 (Some (2, 3)) 1 }
    ensures middle { IsWalkStep Outgoing end fan 1 (Some (1, 2)) 0 }
    ensures oldest { IsWalkStep Outgoing end fan 0 (Some (0, 1)) end }
    ensures over { IsWalkStep Outgoing end fan end None end }
{}

/// A walk over the parents of a node yields its edges newest first, here after a removal that moved
/// edges.
pub fn a_walk_over_parents_goes_newest_first()
    ensures starts { first_of end (in_list (without_edge Compact triangle 0) 2) ≡ 0 }
    ensures newest { IsWalkStep Incoming end (without_edge Compact triangle 0) 0 (Some (0, 1)) 1 }
    ensures oldest { IsWalkStep Incoming end (without_edge Compact triangle 0) 1 (Some (1, 0)) end }
{}

/// After three of eight edges are removed, the two edges that enter a node are still yielded newest
/// first.
pub fn a_walk_over_parents_after_removals()
    ensures starts { first_of end (in_list (without_edges Compact shortcuts (6 ∷ 3 ∷ 2 ∷ [])) 3)
        ≡ 2 }
    ensures newest { IsWalkStep Incoming end (without_edges Compact shortcuts (6 ∷ 3 ∷ 2 ∷ [])) 2
        (Some (2, 2)) 4 }
    ensures oldest { IsWalkStep Incoming end (without_edges Compact shortcuts (6 ∷ 3 ∷ 2 ∷ [])) 4
        (Some (4, 1)) end }
{}

/// A walk over a missing node yields nothing.
pub fn a_missing_node_has_no_children()
    ensures starts { first_of end (out_list nothing 0) ≡ end }
    ensures over { IsWalkStep Outgoing end nothing end None end }
{}

/// A walker whose edge was removed stays where it is. Once its index is used again, it continues
/// along the list of that edge.
pub fn a_stale_walker_waits_for_its_index()
    ensures starts { first_of end (out_list two_children 0) ≡ 1 }
    ensures stays { IsWalkStep Outgoing end (without_edge Compact two_children 1) 1 None 1 }
    ensures goes_on { IsWalkStep Outgoing end
        (with_edge (without_edge Compact two_children 1) 1 2 7) 1 (Some (1, 2)) end }
{}

/// A walker whose edge moved to another index continues from the edge that got its index.
pub fn a_stale_walker_follows_the_index()
    ensures moved { IsWalkStep Outgoing end (without_edge Compact fan 0) 0 (Some (0, 3)) 1 }
    ensures gone { IsWalkStep Outgoing end (without_edge Compact fan 0) 2 None 2 }
{}

/// An edge in a vacated slot does not exist, so a walker at it stays there.
pub fn a_walker_at_a_vacated_slot_stays()
    ensures vacated { IsWalkStep Outgoing end (without_edge Stable fan 1) 1 None 1 }
    ensures other { IsWalkStep Outgoing end (without_edge Stable fan 1) 2 (Some (2, 3)) 0 }
{}

/// A step along a self-loop leads to its node.
pub fn a_step_along_a_self_loop_stays_at_its_node()
    ensures forward { IsWalkStep Outgoing end self_loop 0 (Some (0, 0)) end }
    ensures backward { IsWalkStep Incoming end self_loop 0 (Some (0, 0)) end }
{}

/// A look at an edge returns its child and the edge after it in the out list of its parent.
pub fn a_look_tells_the_child_and_the_next_edge()
    ensures newest { IsLook end fan 2 3 1 }
    ensures oldest { IsLook end fan 0 1 end }
    ensures of_another_node { IsLook end triangle 2 2 end }
{}
