//! Graphs whose nodes have numbers.
ghost use Rattle.std.specs.Prelude.{◌≡◌, ℕ, ◌≤◌};
ghost use Rattle.daggy_base.specs.Graph.{node_bound as node_bound_of};

use crate::visit::{Data, NodeCount};

/// A graph whose nodes have numbers below a bound, so that a list can have an entry for each node.
///
/// # Examples
///
/// ```
/// fn number_of<G: NodeIndexable>(graph: &G, n: G::NodeId) -> usize {
///     graph.to_index(n)
/// }
///
/// let mut dag: StableDag<&'static str, ()> = StableDag::new(rt.alloc());
/// dag.add_node("sow")?;
/// let reap = dag.add_node("reap")?;
/// assert!(rt; number_of(&dag, reap) == 1);
/// assert!(rt; dag.from_index(1) == reap);
/// ```
pub trait NodeIndexable: Data {
    // The greatest number that a node can be named by.
    ghost greatest: { ℕ };

    /// One more than the greatest node index, or 0 if there is no node.
    ///
    /// # Complexity
    ///
    /// O(1), plus the vacant slots after that node.
    fn node_bound(&self) -> usize
        ensures value { result ≡ node_bound_of (Self.graph self.now) }
        ensures fits { node_bound_of (Self.graph self.now) ≤ greatest };

    /// The number of a node.
    fn to_index(&self, id: Self::NodeId) -> usize
        ensures { result ≡ Self.node_number id };

    /// The node with this number, which need not exist.
    ///
    /// # Requires
    ///
    /// - `x` is at most the greatest value of the index type.
    fn from_index(&self, x: usize) -> Self::NodeId
        requires { x ≤ greatest }
        ensures { Self.node_number result ≡ x };
}

/// A graph whose nodes are numbered from 0 without gaps.
///
/// # Examples
///
/// ```
/// // The numbers of the nodes.
/// fn numbers<G: NodeCompactIndexable>(graph: &G) -> std::ops::Range<usize> {
///     0..graph.node_count()
/// }
///
/// let mut dag: Dag<&'static str, ()> = Dag::new(rt.alloc());
/// dag.add_node("sow")?;
/// dag.add_node("reap")?;
/// assert!(rt; numbers(&dag).len() == 2);
/// ```
pub trait NodeCompactIndexable: NodeIndexable + NodeCount {}
