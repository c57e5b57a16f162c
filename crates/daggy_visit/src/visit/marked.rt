//! Sets of visited nodes and adjacency matrices, as graphs create them.
ghost use Rattle.std.specs.Prelude.{◌≡◌, ℕ, ◌<◌, ◌↔◌, ◌⊎◌, List, Bool, length, IsTrue, IsFalse};
ghost use Rattle.std.specs.Prelude.{IfOk, OnOk, OnErr};
ghost use Rattle.daggy_base.specs.Graph.{node_bound as node_bound_of};
ghost use Rattle.daggy_base.specs.Path.{AreJoined};
ghost use Rattle.daggy_visit.specs.Visit.{IsVisited, HasPair};

use crate::visit::Data;
use std::alloc::AllocError;

/// The set of nodes, or of anything else of type `N`, that a search has visited.
///
/// # Examples
///
/// ```
/// fn was_seen<M: VisitMap<NodeIndex>>(seen: &M, n: NodeIndex) -> bool {
///     seen.is_visited(&n)
/// }
///
/// let mut seen: NodeSet<u32> = NodeSet::new(rt.alloc(), 8)?;
/// let sow = NodeIndex::new(3);
/// assert!(rt; !was_seen(&seen, sow));
/// assert!(rt; seen.visit(sow) && was_seen(&seen, sow));
/// ```
pub trait VisitMap<N> {
    // The set, by number, and the number of a member.
    ghost visited: { Self → List Bool };

    ghost number: { N → ℕ };

    /// Adds `a` to the set, and returns whether it was new.
    ///
    /// # Requires
    ///
    /// - The index of `a` is below the bound of the set.
    fn visit(&mut self, a: N) -> bool
        requires { number a < length (visited self.old) }
        ensures answer { IsFalse result ↔ IsVisited (visited self.old) (number a) }
        ensures visited { (m : ℕ) → IsVisited (visited self.new) m
            ↔ ((m ≡ number a) ⊎ IsVisited (visited self.old) m) }
        ensures bound { length (visited self.new) ≡ length (visited self.old) };

    /// Whether the set contains `a`.
    fn is_visited(&self, a: &N) -> bool
        ensures { IsTrue result ↔ IsVisited (visited self.now) (number a.now) };
}

/// A graph that can create sets of its nodes, for searches that mark the nodes they have visited.
///
/// # Examples
///
/// ```
/// let mut dag: Dag<&'static str, ()> = Dag::new(rt.alloc());
/// let sow = dag.add_node("sow")?;
/// let mut seen = dag.visit_map()?;
/// assert!(rt; seen.visit(sow));
/// // Now it fits the new node too.
/// let reap = dag.add_node("reap")?;
/// dag.reset_map(&mut seen)?;
/// assert!(rt; seen.visit(reap) && !seen.is_visited(sow));
/// ```
pub trait Visitable: Data {
    /// A set of nodes.
    type Map: VisitMap<Self::NodeId>;

    /// An empty set that fits the nodes of the graph.
    ///
    /// # Errors
    ///
    /// Returns `AllocError` if an allocation fails.
    ///
    /// # Complexity
    ///
    /// O(node bound / 64).
    fn visit_map(&self) -> Result<Self::Map, AllocError>
        ensures bound { IfOk result (λ map.
            length (Self.Map.visited map) ≡ node_bound_of (Self.graph self.now)) }
        ensures empty { IfOk result (λ map. (n : ℕ) → ¬ IsVisited (Self.Map.visited map) n) };

    /// Empties a set, and resizes it to the nodes of the graph.
    ///
    /// # Errors
    ///
    /// Returns `AllocError` if an allocation fails; the set is unchanged.
    ///
    /// # Complexity
    ///
    /// O(node bound / 64).
    fn reset_map(&self, map: &mut Self::Map) -> Result<(), AllocError>
        ensures bound { OnOk result
            (length (Self.Map.visited map.new) ≡ node_bound_of (Self.graph self.now)) }
        ensures empty { OnOk result ((n : ℕ) → ¬ IsVisited (Self.Map.visited map.new) n) }
        ensures err { OnErr result (map.new ≡ map.old) };

    // A node has the same number in the set.
    ghost map_number: { (n : Self.NodeId) → Self.Map.number n ≡ Self.node_number n };
}

/// A graph that can create its adjacency matrix.
///
/// # Examples
///
/// ```
/// let mut dag: Dag<&'static str, ()> = Dag::new(rt.alloc());
/// let sow = dag.add_node("sow")?;
/// let (_, reap) = dag.add_child(sow, (), "reap")?;
/// let matrix = dag.adjacency_matrix()?;
/// assert!(rt; dag.is_adjacent(&matrix, sow, reap));
/// assert!(rt; !dag.is_adjacent(&matrix, reap, sow));
/// ```
pub trait GetAdjacencyMatrix: Data {
    /// The type of the matrix.
    type AdjMatrix;

    // The pairs in a matrix.
    ghost pairs: { Self.AdjMatrix → List (List Bool) };

    /// The adjacency matrix: the pairs of nodes that an edge connects.
    ///
    /// # Errors
    ///
    /// Returns `AllocError` if an allocation fails.
    ///
    /// # Complexity
    ///
    /// O(node bound^2 / 64 + edges).
    fn adjacency_matrix(&self) -> Result<Self::AdjMatrix, AllocError>
        ensures { IfOk result (λ matrix.
            (a b : ℕ) → HasPair (pairs matrix) a b ↔ AreJoined (Self.graph self.now) a b) };

    /// Whether an edge led from one node to another when the matrix was made.
    fn is_adjacent(&self, matrix: &Self::AdjMatrix, a: Self::NodeId, b: Self::NodeId) -> bool
        ensures { IsTrue result
            ↔ HasPair (pairs matrix.now) (Self.node_number a) (Self.node_number b) };
}
