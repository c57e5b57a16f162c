//! A directed graph with stable indices.
ghost use Rattle.std.specs.Prelude.{◌≡◌, ◌<◌, ◌↔◌, IsTrue};
ghost use Rattle.std.specs.Option.{option_map};
ghost use Rattle.daggy_base.specs.Graph.{empty, edge_at, HasNode, HasEdge, list_at, ends_of};
ghost use Rattle.daggy_base.specs.Graph.{pair_of};
ghost use Rattle.daggy_base.specs.Finding.{find_edge as edge_between};
ghost use Rattle.daggy_base.specs.Cursor.{first_of, cursor_after};
ghost use Rattle.daggy_base.specs.Path.{AreJoined};

mod adding;
mod building;
mod capacity;
mod copy;
mod count;
mod debug;
mod filter;
mod from_cells;
mod from_slots;
mod full_slots;
pub mod iterators;
pub mod lists;
mod map;
mod ordering;
mod removal;
mod rewriting;
mod source;
mod store;
mod taking_back;
mod two_weights;
mod weights;

use daggy_base::index::{DefaultIx, Direction, EdgeIndex, IndexType, NodeIndex};
use daggy_base::link::Link;
use daggy_base::looks::Looks;
use daggy_cells::cell::{Edge, Node};
use daggy_cells::links::{self, find_to};
use std::alloc::Global;
use std::marker::Model;

/// A directed graph whose indices stay valid when other nodes and edges are removed. Parallel edges
/// and self-loops are allowed.
///
/// A removal leaves a vacant slot and changes no other index. Adding reuses the slot vacated last,
/// and makes a new slot only if none is vacant. All operations are O(1) unless stated otherwise.
///
/// `Ix` is the integer type of the indices. It limits the number of nodes and the number of edges.
///
/// # Examples
///
/// ```
/// let mut graph: StableDiGraph<&'static str, u32> = StableDiGraph::new(rt.alloc());
/// let egg = graph.add_node("egg")?;
/// let hen = graph.add_node("hen")?;
/// let _ = graph.add_edge(egg, hen, 21)?;
/// // A store may hold cycles.
/// let back = graph.add_edge(hen, egg, 1)?;
/// assert!(rt; graph.neighbors(egg).next() == Some(hen));
/// assert!(rt; graph.remove_edge(back) == Some(1));
/// assert!(rt; graph.neighbors(hen).next().is_none());
/// ```
#[derive(Drop)]
pub struct StableDiGraph<N, E, Ix: IndexType = DefaultIx> {
    nodes: Vec<Node<Option<N>, Ix>>,
    edges: Vec<Edge<Option<E>, Ix>>,
    first_vacant_node: Link<Ix>,
    first_vacant_edge: Link<Ix>,
    node_count: usize,
    edge_count: usize,
    looks: Looks,
}

impl<N, E, Ix: IndexType> Model for StableDiGraph<N, E, Ix> {
    ghost use Rattle.daggy_base.specs.State.{State};
    ghost use Rattle.daggy_stable.specs.Stored.{stored_graph, Stores};

    ghost Value = { State N E };

    ghost view = { λ a. record {
      graph =
          stored_graph Ix.greatest a.nodes.items a.edges.items a.first_vacant_node
          a.first_vacant_edge;
      looks = a.looks.count;
    } };

    ghost invariant = { λ a.
        Stores Ix.greatest a.nodes.items a.edges.items a.first_vacant_node a.first_vacant_edge
        a.node_count a.edge_count (stored_graph Ix.greatest a.nodes.items a.edges.items
        a.first_vacant_node a.first_vacant_edge) };
}

impl<N, E, Ix: IndexType> StableDiGraph<N, E, Ix> {
    /// An empty graph. Does not allocate.
    pub fn new(alloc: Global) -> Self
        ensures { result ≡ record { graph = empty; looks = 0 } }
    {
        StableDiGraph {
            nodes: Vec::new(alloc),
            edges: Vec::new(alloc),
            first_vacant_node: Link::end(),
            first_vacant_edge: Link::end(),
            node_count: 0,
            edge_count: 0,
            looks: Looks::new(),
        }
    }

    /// Whether the node exists.
    #[inline]
    pub fn contains_node(&self, n: NodeIndex<Ix>) -> bool
        ensures { IsTrue result ↔ HasNode self.now.graph (Ix.number n) }
    {
        self.node_weight(n).is_some()
    }

    /// Whether the edge exists.
    #[inline]
    pub fn contains_edge_index(&self, e: EdgeIndex<Ix>) -> bool
        ensures { IsTrue result ↔ HasEdge self.now.graph (Ix.number e) }
    {
        self.edge_weight(e).is_some()
    }

    /// The parent and the child of an edge, if the edge exists.
    #[inline]
    pub fn edge_endpoints(&self, e: EdgeIndex<Ix>) -> Option<(NodeIndex<Ix>, NodeIndex<Ix>)>
        ensures { option_map (pair_of Ix.number) result
            ≡ option_map ends_of (edge_at self.now.graph (Ix.number e)) }
    {
        match self.edges.get(e.index()) {
            Some(x) => {
                if x.weight.is_none() {
                    return None;
                }
                let parent = links::endpoint(x, Direction::Outgoing);
                let child = links::endpoint(x, Direction::Incoming);
                Some((parent.node(), child.node()))
            }
            None => None,
        }
    }

    /// The first edge of the node's list in direction `dir`, or `end` if that list is empty.
    #[inline]
    pub fn first_edge(&self, n: NodeIndex<Ix>, dir: Direction) -> EdgeIndex<Ix>
        ensures { Ix.number result
            ≡ first_of Ix.greatest (list_at dir self.now.graph (Ix.number n)) }
    {
        match self.nodes.get(n.index()) {
            Some(x) => {
                if x.weight.is_none() {
                    return EdgeIndex::end();
                }
                links::first(x, dir).edge()
            }
            None => EdgeIndex::end(),
        }
    }

    /// The edge after this one in its list in direction `dir`, or `end` if this one is the last.
    /// The list is the out list of its parent or the in list of its child.
    ///
    /// # Requires
    ///
    /// - `e` is an edge of the graph. Test: `contains_edge_index(e)`.
    #[inline]
    pub fn next_edge(&self, e: EdgeIndex<Ix>, dir: Direction) -> EdgeIndex<Ix>
        requires { HasEdge self.now.graph (Ix.number e) }
        ensures { Ix.number result
            ≡ cursor_after dir Ix.greatest self.now.graph (Ix.number e)
            (edge_at self.now.graph (Ix.number e)) }
    {
        let x = &self.edges[e.index()];
        links::next(x, dir).edge()
    }

    /// The first edge from `a` to `b` in the out list of `a`, if there is one.
    ///
    /// # Complexity
    ///
    /// O(edges that leave `a`).
    pub fn find_edge(&self, a: NodeIndex<Ix>, b: NodeIndex<Ix>) -> Option<EdgeIndex<Ix>>
        ensures { option_map Ix.number result
            ≡ edge_between self.now.graph (Ix.number a) (Ix.number b) }
    {
        let first = self.first_edge(a, Direction::Outgoing);
        let e = find_to(&self.edges, Link::of_edge(first), b.index())?;
        Some(e.edge())
    }

    /// Whether an edge leads from `a` to `b`.
    ///
    /// # Complexity
    ///
    /// O(edges that leave `a`).
    pub fn contains_edge(&self, a: NodeIndex<Ix>, b: NodeIndex<Ix>) -> bool
        ensures { IsTrue result ↔ AreJoined self.now.graph (Ix.number a) (Ix.number b) }
    {
        let _well_formed = self.edge_count();
        self.find_edge(a, b).is_some()
    }
}
