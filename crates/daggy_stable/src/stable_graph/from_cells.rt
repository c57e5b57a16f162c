//! Making a graph from slots that are already filled.
ghost use Rattle.std.specs.Prelude.{◌≡◌};
ghost use Rattle.daggy_base.specs.Graph.{Graph};
ghost use Rattle.daggy_stable.specs.Held.{HoldsGraph};

use crate::stable_graph::StableDiGraph;
use daggy_base::index::IndexType;
use daggy_base::link::Link;
use daggy_base::looks::Looks;
use daggy_cells::cell::{Edge, Node};

impl<N, E, Ix: IndexType> StableDiGraph<N, E, Ix> {
    /// Makes a graph from these slots, none of which is vacant.
    ///
    /// # Requires
    ///
    /// - The slots hold a graph: their links form its lists.
    ///
    /// # Complexity
    ///
    /// O(1). Does not allocate.
    ///
    /// # Examples
    ///
    /// ```
    /// let nodes = Vec::new(rt.alloc());
    /// let edges = Vec::new(rt.alloc());
    /// let graph: StableDiGraph<&'static str, u32> = StableDiGraph::from_cells(nodes, edges);
    /// assert!(rt; graph.node_count() == 0);
    /// ```
    pub fn from_cells(nodes: Vec<Node<Option<N>, Ix>>, edges: Vec<Edge<Option<E>, Ix>>) -> Self
        requires { (graph : Graph N E) × HoldsGraph Ix.greatest nodes.items edges.items graph }
        ensures { (graph : Graph N E) → HoldsGraph Ix.greatest nodes.items edges.items graph
            → result ≡ record { graph = graph; looks = 0 } }
    {
        let node_count = nodes.len();
        let edge_count = edges.len();
        StableDiGraph {
            nodes,
            edges,
            first_vacant_node: Link::end(),
            first_vacant_edge: Link::end(),
            node_count,
            edge_count,
            looks: Looks::new(),
        }
    }
}
