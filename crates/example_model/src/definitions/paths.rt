//! Paths, reachability and cycles.
ghost use Rattle.std.specs.Prelude.{List, [], ◌∷◌};
ghost use Rattle.daggy_base.specs.Path.{Reaches, IsAcyclic};
ghost use Rattle.example_model.specs.Examples.{line, nothing, one_node, self_loop, with_lines};
ghost use Rattle.example_model.specs.Examples.{fan, chain, ring, shortcuts, diamond};

/// A node that exists reaches itself, by the path of one node. A missing one does not.
pub fn only_existing_nodes_reach_themselves()
    ensures existing { Reaches one_node 0 0 }
    ensures none { Reaches nothing 0 0 → ⊥ }
    ensures missing { Reaches chain 9 9 → ⊥ }
{}

/// Paths lead along edges, and not against them.
pub fn paths_lead_along_edges()
    ensures along { Reaches chain 0 2 }
    ensures round { Reaches ring 2 1 }
    ensures against { Reaches chain 2 0 → ⊥ }
    ensures across { Reaches diamond 2 1 → ⊥ }
{}

/// A graph with an edge from a node to itself, or with a longer way round, has a cycle.
pub fn ways_round_are_cycles()
    ensures self_loop { IsAcyclic self_loop → ⊥ }
    ensures ring { IsAcyclic ring → ⊥ }
{}

/// Edges that all lead to greater nodes close no cycle.
pub fn ways_forward_are_no_cycles()
    ensures fan { IsAcyclic fan }
    ensures shortcuts { IsAcyclic shortcuts }
{}

/// One more edge can close a cycle.
pub fn an_edge_closes_a_cycle()
    ensures to_itself { IsAcyclic (with_lines (line 3 3 3 ∷ []) fan) → ⊥ }
    ensures back { IsAcyclic (with_lines (line 3 0 3 ∷ []) fan) → ⊥ }
{}
