//! Moving a compact graph into slots whose memory was allocated in advance.
ghost use Rattle.std.specs.Prelude.{◌≡◌, ◌≤◌, [], length, map, vec_capacity, IfOk};
ghost use Rattle.daggy_base.specs.Graph.{node_count as node_count_of, edge_count as edge_count_of};
ghost use Rattle.daggy_dag.specs.SlottedCells.{slotted_node, slotted_edge};

use daggy_base::index::{DefaultIx, Direction, IndexType};
use daggy_cells::cell::{Edge, Node};
use daggy_cells::links;
use daggy_graph::graph::DiGraph;
use daggy_stable::stable_graph::StableDiGraph;
use std::alloc::{AllocError, Global};
use std::marker::Model;

/// Memory for a stable graph, allocated in advance, so that the conversion from a compact graph
/// cannot fail.
///
/// # Examples
///
/// ```
/// let mut graph: DiGraph<&'static str, ()> = DiGraph::new(rt.alloc());
/// let sow = graph.add_node("sow")?;
/// let room = Room::new(rt.alloc(), graph.node_count(), graph.edge_count())?;
/// // From here on nothing can fail.
/// let stable = room.fill(graph);
/// assert!(rt; stable.node_weight(sow) == Some(&"sow"));
/// ```
#[derive(Drop)]
pub struct Room<N, E, Ix: IndexType = DefaultIx> {
    nodes: Vec<Node<Option<N>, Ix>>,
    edges: Vec<Edge<Option<E>, Ix>>,
}

impl<N, E, Ix: IndexType> Model for Room<N, E, Ix> {
    ghost use Rattle.std.specs.Prelude.{◌≡◌, [], vec_capacity};
    ghost use Rattle.daggy_base.specs.Capacity.{Capacity};

    ghost Value = { Capacity };

    ghost view = { λ r. record { nodes = vec_capacity r.nodes; edges = vec_capacity r.edges } };

    ghost invariant = { λ r. (r.nodes.items ≡ []) × (r.edges.items ≡ []) };
}

impl<N, E, Ix: IndexType> Room<N, E, Ix> {
    /// Allocates memory for `nodes` nodes and `edges` edges.
    ///
    /// # Errors
    ///
    /// Returns `AllocError` if an allocation fails, or if the capacity exceeds what a machine can
    /// address.
    ///
    /// # Complexity
    ///
    /// O(1), plus the allocations.
    pub fn new(alloc: Global, nodes: usize, edges: usize) -> Result<Self, AllocError>
    where
        N: Drop,
        E: Drop,
        ensures { IfOk result (λ r. r ≡ record { nodes = nodes; edges = edges }) }
    {
        Ok(Room {
            nodes: Vec::with_capacity(alloc, nodes)?,
            edges: Vec::with_capacity(alloc, edges)?,
        })
    }

    /// Moves `graph` into a stable graph with the same indices and lists, and with no vacant slot.
    ///
    /// # Requires
    ///
    /// - `nodes`: `graph` has at most as many nodes as the memory was allocated for.
    /// - `edges`: `graph` has at most as many edges as the memory was allocated for.
    ///
    /// # Complexity
    ///
    /// O(nodes + edges). Does not allocate.
    pub fn fill(self, graph: DiGraph<N, E, Ix>) -> StableDiGraph<N, E, Ix>
    where
        N: Drop,
        E: Drop,
        requires nodes { node_count_of graph.graph ≤ self.nodes }
        requires edges { edge_count_of graph.graph ≤ self.edges }
        ensures { result ≡ record { graph = graph.graph; looks = 0 } }
    {
        // No slot is vacant, and the parts of the graph agree.
        let _compact = graph.node_count();
        let _many = graph.edge_count();
        let (old_nodes, old_edges) = graph.into_raw();
        let mut nodes = self.nodes;
        let mut edges = self.edges;
        put_nodes(old_nodes, &mut nodes);
        put_edges(old_edges, &mut edges);
        StableDiGraph::from_cells(nodes, edges)
    }
}

// Puts the nodes into slots, within the capacity that is there.
fn put_nodes<N: Drop, Ix: IndexType>(old: Vec<Node<N, Ix>>, slots: &mut Vec<Node<Option<N>, Ix>>)
    requires capacity { length old.items ≤ vec_capacity slots.old }
    requires empty { slots.old.items ≡ [] }
    ensures { slots.new.items ≡ map slotted_node old.items }
{
    'each: for x in old {
        slots.push_reserved(node_slot(x));
    }
}

#[inline]
fn node_slot<N, Ix: IndexType>(x: Node<N, Ix>) -> Node<Option<N>, Ix>
    ensures { result ≡ slotted_node x }
{
    let first_out = links::first(&x, Direction::Outgoing);
    let first_in = links::first(&x, Direction::Incoming);
    let mut slot = links::new_node(Some(x.weight));
    links::set_first(&mut slot, Direction::Outgoing, first_out);
    links::set_first(&mut slot, Direction::Incoming, first_in);
    slot
}

// Puts the edges into slots, within the capacity that is there.
fn put_edges<E: Drop, Ix: IndexType>(old: Vec<Edge<E, Ix>>, slots: &mut Vec<Edge<Option<E>, Ix>>)
    requires capacity { length old.items ≤ vec_capacity slots.old }
    requires empty { slots.old.items ≡ [] }
    ensures { slots.new.items ≡ map slotted_edge old.items }
{
    'each: for x in old {
        slots.push_reserved(edge_slot(x));
    }
}

#[inline]
fn edge_slot<E, Ix: IndexType>(x: Edge<E, Ix>) -> Edge<Option<E>, Ix>
    ensures { result ≡ slotted_edge x }
{
    let parent = links::endpoint(&x, Direction::Outgoing);
    let child = links::endpoint(&x, Direction::Incoming);
    let next_out = links::next(&x, Direction::Outgoing);
    let next_in = links::next(&x, Direction::Incoming);
    links::new_edge(Some(x.weight), parent, child, next_out, next_in)
}
