//! Building a graph from explicit slots.
ghost use Rattle.std.specs.Prelude.{◌≡◌, ◌≤◌, [], map, length, vec_capacity, IfOk};
ghost use Rattle.std.specs.Option.{option_map};
ghost use Rattle.daggy_base.specs.FromSlots.{graph_of_slots, edge_of, edges_by, MakeGraph};
ghost use Rattle.daggy_stable.specs.Stored.{weight_of, plain_edge};
ghost use Rattle.daggy_stable.specs.Building.{IsBuilt};

use crate::stable_graph::StableDiGraph;
use crate::stable_graph::building::{SlotBuilder, built, keep_edge, keep_node, leave_edge};
use daggy_base::index::{EdgeIndex, IndexType, NodeIndex};
use daggy_base::link::Link;
use daggy_cells::cell::{Edge, Node};
use std::alloc::{AllocError, Global};

// Makes the node slots, within the capacity.
fn make_nodes<N: Drop, E, Ix: IndexType>(
    given: Vec<Option<N>>,
    nodes: &mut SlotBuilder<Node<Option<N>, Ix>, Ix>,
    edges: &SlotBuilder<Edge<Option<E>, Ix>, Ix>,
)
    requires few { length given.items ≤ Ix.greatest }
    requires capacity { length given.items ≤ vec_capacity nodes.old.cells }
    requires empty { nodes.old.cells.items ≡ [] }
    requires no_edges { edges.now.cells.items ≡ [] }
    requires stored { IsBuilt Ix.greatest nodes.old edges.now }
    ensures stored { IsBuilt Ix.greatest nodes.new edges.now }
    ensures made { map weight_of nodes.new.cells.items ≡ given.items }
{
    'each: for x in given {
        keep_node(nodes, edges, x);
    }
}

// Makes the edge slots, within the capacity.
fn make_edges<N, E: Drop, Ix: IndexType>(
    given: Vec<Option<(NodeIndex<Ix>, NodeIndex<Ix>, E)>>,
    nodes: &mut SlotBuilder<Node<Option<N>, Ix>, Ix>,
    edges: &mut SlotBuilder<Edge<Option<E>, Ix>, Ix>,
)
    requires makes_graph { MakeGraph Ix.greatest (map weight_of nodes.old.cells.items)
        (map (option_map (edge_of Ix.number)) given.items) }
    requires capacity { length given.items ≤ vec_capacity edges.old.cells }
    requires empty { edges.old.cells.items ≡ [] }
    requires stored { IsBuilt Ix.greatest nodes.old edges.old }
    ensures stored { IsBuilt Ix.greatest nodes.new edges.new }
    ensures nodes { map weight_of nodes.new.cells.items ≡ map weight_of nodes.old.cells.items }
    ensures made { map plain_edge edges.new.cells.items
        ≡ map (option_map (edge_of Ix.number)) given.items }
{
    'each: for x in given {
        let edge = match x {
            Some(edge) => edge,
            None => {
                leave_edge(nodes, edges);
                continue;
            }
        };
        let (a, b, weight) = edge;
        let parent = Link::of_node(a);
        let child = Link::of_node(b);
        keep_edge(nodes, edges, parent, child, Some(weight));
    }
}

impl<N, E, Ix: IndexType> StableDiGraph<N, E, Ix> {
    /// Builds a graph from explicit slots; `None` leaves a slot vacant. An edge slot holds the
    /// parent, the child and the weight.
    ///
    /// Each list is in descending index order, and the highest vacant slot is reused first.
    ///
    /// # Requires
    ///
    /// - The index type has an index for each slot, and both endpoints of each edge are nodes:
    ///   slots that are not `None`.
    ///
    /// # Errors
    ///
    /// Returns `AllocError` if an allocation fails.
    ///
    /// # Complexity
    ///
    /// O(slots).
    ///
    /// # Examples
    ///
    /// ```
    /// let sow = NodeIndex::new(0);
    /// let reap = NodeIndex::new(2);
    /// let nodes = Vec::from_array(rt.alloc(), [Some("sow"), None, Some("reap")])?;
    /// let edges = Vec::from_array(rt.alloc(), [Some((sow, reap, 90))])?;
    /// let graph: StableDiGraph<&'static str, u32> =
    ///     StableDiGraph::from_slots(rt.alloc(), nodes, edges)?;
    /// assert!(rt; graph.node_count() == 2 && graph.node_slots() == 3);
    /// ```
    pub fn from_slots(
        alloc: Global,
        nodes: Vec<Option<N>>,
        edges: Vec<Option<(NodeIndex<Ix>, NodeIndex<Ix>, E)>>,
    ) -> Result<Self, AllocError>
    where
        N: Drop,
        E: Drop,
        requires { MakeGraph Ix.greatest nodes.items (edges_by Ix.number edges.items) }
        ensures { IfOk result (λ g. g ≡ record {
          graph = graph_of_slots nodes.items (edges_by Ix.number edges.items);
          looks = 0;
        }) }
    {
        let mut node_slots = SlotBuilder::with_capacity(alloc, nodes.len())?;
        let mut edge_slots = SlotBuilder::with_capacity(alloc, edges.len())?;
        make_nodes(nodes, &mut node_slots, &edge_slots);
        make_edges(edges, &mut node_slots, &mut edge_slots);
        Ok(built(node_slots, edge_slots))
    }
}
