//! Building a graph from explicit slots.
ghost use Rattle.std.specs.Prelude.{◌≡◌, ◌≤◌, [], map, length, vec_capacity, IfOk};
ghost use Rattle.std.specs.Option.{option_map};
ghost use Rattle.daggy_base.specs.Graph.{IsCompact};
ghost use Rattle.daggy_base.specs.FromSlots.{vacant_down, graph_of_slots, edge_of, edges_by};
ghost use Rattle.daggy_base.specs.FromSlots.{MakeGraph};
ghost use Rattle.daggy_cells.specs.Fields.{weight_of, plain_edge};
ghost use Rattle.daggy_graph.specs.Stored.{IsBuilt};

use crate::graph::changes::{put_edge, put_node};
use crate::graph::{DiGraph, Edge, Node};
use daggy_base::index::{EdgeIndex, IndexType, NodeIndex};
use daggy_base::link::Link;
use daggy_base::looks::Looks;
use std::alloc::{AllocError, Global};

// Adds each node, within the capacity.
fn make_nodes<N: Drop, E, Ix: IndexType>(
    given: Vec<Option<N>>,
    nodes: &mut Vec<Node<N, Ix>>,
    edges: &Vec<Edge<E, Ix>>,
)
    requires few { length given.items ≤ Ix.greatest }
    requires full { vacant_down given.items ≡ [] }
    requires capacity { length given.items ≤ vec_capacity nodes.old }
    requires empty { nodes.old.items ≡ [] }
    requires no_edges { edges.now.items ≡ [] }
    requires stored { IsBuilt Ix.greatest nodes.old.items edges.now.items }
    ensures stored { IsBuilt Ix.greatest nodes.new.items edges.now.items }
    ensures made { map weight_of nodes.new.items ≡ given.items }
{
    'each: for x in given {
        let weight = match x {
            Some(weight) => weight,
            None => continue,
        };
        let _n = put_node(nodes, edges, weight);
    }
}

// Adds each edge, within the capacity.
fn make_edges<N, E: Drop, Ix: IndexType>(
    given: Vec<Option<(NodeIndex<Ix>, NodeIndex<Ix>, E)>>,
    nodes: &mut Vec<Node<N, Ix>>,
    edges: &mut Vec<Edge<E, Ix>>,
)
    requires makes_graph { MakeGraph Ix.greatest (map weight_of nodes.old.items)
        (map (option_map (edge_of Ix.number)) given.items) }
    requires full { vacant_down (map (option_map (edge_of Ix.number)) given.items) ≡ [] }
    requires capacity { length given.items ≤ vec_capacity edges.old }
    requires empty { edges.old.items ≡ [] }
    requires stored { IsBuilt Ix.greatest nodes.old.items edges.old.items }
    ensures stored { IsBuilt Ix.greatest nodes.new.items edges.new.items }
    ensures nodes { map weight_of nodes.new.items ≡ map weight_of nodes.old.items }
    ensures made { map plain_edge edges.new.items
        ≡ map (option_map (edge_of Ix.number)) given.items }
{
    'each: for x in given {
        let edge = match x {
            Some(edge) => edge,
            None => continue,
        };
        let (a, b, weight) = edge;
        let parent = Link::of_node(a);
        let child = Link::of_node(b);
        let _e = put_edge(nodes, edges, parent, child, weight);
    }
}

impl<N, E, Ix: IndexType> DiGraph<N, E, Ix> {
    /// Builds a graph from explicit slots, none of them vacant. An edge slot holds the parent, the
    /// child and the weight.
    ///
    /// Each list is in descending index order.
    ///
    /// # Requires
    ///
    /// - `makes_graph`: The index type has an index for each slot, and both endpoints of each edge
    ///   are nodes: slots that are not `None`.
    /// - `full`: No slot is `None`.
    ///
    /// # Errors
    ///
    /// Returns `AllocError` if an allocation fails.
    ///
    /// # Complexity
    ///
    /// O(nodes + edges).
    ///
    /// # Examples
    ///
    /// ```
    /// let sow = NodeIndex::new(0);
    /// let reap = NodeIndex::new(1);
    /// let nodes = Vec::from_array(rt.alloc(), [Some("sow"), Some("reap")])?;
    /// let edges = Vec::from_array(rt.alloc(), [Some((sow, reap, 90))])?;
    /// let graph: DiGraph<&'static str, u32> = DiGraph::from_slots(rt.alloc(), nodes, edges)?;
    /// assert!(rt; graph.contains_edge(sow, reap));
    /// ```
    pub fn from_slots(
        alloc: Global,
        nodes: Vec<Option<N>>,
        edges: Vec<Option<(NodeIndex<Ix>, NodeIndex<Ix>, E)>>,
    ) -> Result<Self, AllocError>
    where
        N: Drop,
        E: Drop,
        requires makes_graph { MakeGraph Ix.greatest nodes.items (edges_by Ix.number edges.items) }
        requires full { IsCompact (graph_of_slots nodes.items (edges_by Ix.number edges.items)) }
        ensures { IfOk result (λ g. g ≡ record {
          graph = graph_of_slots nodes.items (edges_by Ix.number edges.items);
          looks = 0;
        }) }
    {
        let mut new_nodes = Vec::with_capacity(alloc, nodes.len())?;
        let mut new_edges = Vec::with_capacity(alloc, edges.len())?;
        make_nodes(nodes, &mut new_nodes, &new_edges);
        make_edges(edges, &mut new_nodes, &mut new_edges);
        Ok(DiGraph {
            nodes: new_nodes,
            edges: new_edges,
            looks: Looks::new(),
        })
    }
}
