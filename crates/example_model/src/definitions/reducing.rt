//! Redundant edges and reductions.
ghost use Rattle.std.specs.Prelude.{List, [], ◌∷◌};
ghost use Rattle.daggy_base.specs.Removal.{without_edges};
ghost use Rattle.daggy_base.specs.declared.kind.Kind.TheVariants.{Compact};
ghost use Rattle.daggy_base.specs.Reduction.{IsReduction, Covers};
ghost use Rattle.example_model.specs.Examples.{line, with_lines, shortcuts, doubled_step};
ghost use Rattle.example_model.specs.Examples.{turned_triangle};

/// Three of eight edges between five nodes are redundant. Adding one of them back and reducing
/// again leaves the same reduction.
pub fn the_reduction_of_five_nodes()
    ensures before { IsReduction Compact (0 ∷ []) shortcuts
        (without_edges Compact shortcuts (6 ∷ 3 ∷ 2 ∷ [])) }
    ensures again { let reduced = without_edges Compact shortcuts (6 ∷ 3 ∷ 2 ∷ []) in
        IsReduction Compact (0 ∷ []) (with_lines (line 0 4 9 ∷ []) reduced) reduced }
{}

/// Parallel edges do not make each other redundant.
pub fn parallel_edges_stay()
    ensures { IsReduction Compact (0 ∷ []) doubled_step
        (without_edges Compact doubled_step (1 ∷ [])) }
{}

/// An edge that no root reaches stays.
pub fn edges_above_the_roots_stay()
    ensures from_the_middle { IsReduction Compact (1 ∷ []) turned_triangle turned_triangle }
    ensures from_nowhere { IsReduction Compact (99 ∷ []) turned_triangle turned_triangle }
    ensures from_the_top { IsReduction Compact (0 ∷ []) turned_triangle
        (without_edges Compact turned_triangle (2 ∷ [])) }
{}

/// A node covers its children, but not what they reach.
pub fn nothing_stands_between_a_cover()
    ensures covers { Covers turned_triangle 0 1 }
    ensures not { Covers turned_triangle 0 2 → ⊥ }
{}
