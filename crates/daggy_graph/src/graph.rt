//! A directed graph with compact indices.
ghost use Rattle.std.specs.Prelude.{◌≡◌, ℕ, ◌<◌, ◌↔◌, IsTrue, IfOk, OnOk, IfErr, OnErr};
ghost use Rattle.std.specs.Option.{option_map};
ghost use Rattle.daggy_base.specs.Graph.{empty, edge_at, HasNode, HasEdge};
ghost use Rattle.daggy_base.specs.Graph.{node_count as node_count_of, edge_count as edge_count_of};
ghost use Rattle.daggy_base.specs.Graph.{list_at, ends_of, pair_of};
ghost use Rattle.daggy_base.specs.Adding.{next_node, next_edge as next_edge_of, with_node};
ghost use Rattle.daggy_base.specs.Adding.{with_edge};
ghost use Rattle.daggy_base.specs.Finding.{find_edge as edge_between};
ghost use Rattle.daggy_base.specs.Cursor.{first_of, cursor_after};
ghost use Rattle.daggy_base.specs.Path.{AreJoined};
ghost use Rattle.daggy_base.specs.State.{with_graph};
ghost use Rattle.daggy_base.specs.declared.error.NodeError.TheVariants.{Memory as NodeMemory};
ghost use Rattle.daggy_base.specs.declared.error.EdgeError.TheVariants.{Memory as EdgeMemory};

mod capacity;
mod changes;
mod copy;
mod count;
pub mod cursors;
mod debug;
mod filter;
mod from_slots;
pub mod iterators;
pub mod lists;
mod map;
mod ordering;
mod raw;
mod removal;
mod rewriting;
mod source;
mod store;
mod two_weights;
mod weights;

use crate::graph::changes::{put_edge, put_node};
pub use daggy_base::element::{Element, IntoWeightedEdge};
use daggy_base::error::{EdgeError, NodeError};
use daggy_base::index::{DefaultIx, Direction, EdgeIndex, IndexType, NodeIndex};
use daggy_base::link::Link;
use daggy_base::looks::Looks;
pub use daggy_cells::cell::{Edge, Node};
use daggy_cells::links::{self, find_to};
pub use daggy_cells::reference::EdgeReference;
use std::alloc::Global;
use std::marker::Model;

/// A directed graph. Parallel edges and self-loops are allowed.
///
/// Its nodes are numbered from 0 without gaps, and so are its edges. A removal moves the last node
/// or edge into the freed index. All operations are O(1) unless stated otherwise.
///
/// `Ix` is the integer type of the indices. It limits the number of nodes and the number of edges.
///
/// # Examples
///
/// ```
/// let mut graph: DiGraph<&'static str, u32> = DiGraph::new(rt.alloc());
/// let egg = graph.add_node("egg")?;
/// let hen = graph.add_node("hen")?;
/// let _ = graph.add_edge(egg, hen, 21)?;
/// // A store may hold cycles.
/// let back = graph.add_edge(hen, egg, 1)?;
/// assert!(rt; graph.neighbors(egg).next() == Some(hen));
/// assert!(rt; graph.remove_edge(back) == Some(1));
/// assert!(rt; graph.neighbors(hen).next().is_none());
/// ```
#[derive(Drop)]
pub struct DiGraph<N, E, Ix: IndexType = DefaultIx> {
    nodes: Vec<Node<N, Ix>>,
    edges: Vec<Edge<E, Ix>>,
    looks: Looks,
}

impl<N, E, Ix: IndexType> Model for DiGraph<N, E, Ix> {
    ghost use Rattle.daggy_base.specs.State.{State};
    ghost use Rattle.daggy_graph.specs.Stored.{stored_graph, Stores};

    ghost Value = { State N E };

    ghost view = { λ a.
        record { graph = stored_graph a.nodes.items a.edges.items; looks = a.looks.count } };

    ghost invariant = { λ a.
        Stores Ix.greatest a.nodes.items a.edges.items (stored_graph a.nodes.items a.edges.items) };
}

impl<N, E, Ix: IndexType> DiGraph<N, E, Ix> {
    /// An empty graph. Does not allocate.
    pub fn new(alloc: Global) -> Self
        ensures { result ≡ record { graph = empty; looks = 0 } }
    {
        DiGraph {
            nodes: Vec::new(alloc),
            edges: Vec::new(alloc),
            looks: Looks::new(),
        }
    }

    /// Whether the node exists.
    #[inline]
    pub fn contains_node(&self, n: NodeIndex<Ix>) -> bool
        ensures { IsTrue result ↔ HasNode self.now.graph (Ix.number n) }
    {
        n.index() < self.nodes.len()
    }

    /// Whether the edge exists.
    #[inline]
    pub fn contains_edge_index(&self, e: EdgeIndex<Ix>) -> bool
        ensures { IsTrue result ↔ HasEdge self.now.graph (Ix.number e) }
    {
        e.index() < self.edges.len()
    }

    /// Adds a node. Its index is the previous node count.
    ///
    /// # Requires
    ///
    /// - The index type has an index left for one more node. Test: `can_add_node()`.
    ///
    /// # Errors
    ///
    /// Returns `Memory` with the weight if an allocation fails; the graph is unchanged.
    ///
    /// # Complexity
    ///
    /// Amortized O(1).
    ///
    /// # Examples
    ///
    /// ```
    /// let mut graph: DiGraph<&'static str, u32> = DiGraph::new(rt.alloc());
    /// let sow = graph.add_node("sow")?;
    /// // Its weight, by its index.
    /// assert!(rt; graph[sow] == "sow");
    /// graph[sow] = "mow";
    /// assert!(rt; graph.node_weight(sow) == Some(&"mow"));
    /// ```
    #[inline]
    pub fn add_node(&mut self, weight: N) -> Result<NodeIndex<Ix>, NodeError<N>>
        requires { node_count_of self.old.graph < Ix.greatest }
        ensures index { IfOk result (λ n. Ix.number n ≡ next_node self.old.graph) }
        ensures added { OnOk result
            (self.new ≡ with_graph self.old (with_node self.old.graph weight)) }
        ensures refusal { IfErr result (λ e. e ≡ NodeMemory weight) }
        ensures unchanged { OnErr result (self.new ≡ self.old) }
    {
        if self.nodes.reserve(1).is_err() {
            return Err(NodeError::Memory(weight));
        }
        let n = put_node(&mut self.nodes, &self.edges, weight);
        Ok(n.node())
    }

    /// Adds an edge from `a` to `b`. Its index is the previous edge count, and it is first in the
    /// out list of `a` and in the in list of `b`.
    ///
    /// # Requires
    ///
    /// - `parent`: `a` is a node of the graph. Test: `contains_node(a)`.
    /// - `child`: `b` is a node of the graph. Test: `contains_node(b)`.
    /// - `index_left`: The index type has an index left for one more edge. Test: `can_add_edge()`.
    ///
    /// # Errors
    ///
    /// Returns `Memory` with the weight if an allocation fails; the graph is unchanged.
    ///
    /// # Complexity
    ///
    /// Amortized O(1).
    #[inline]
    pub fn add_edge(
        &mut self,
        a: NodeIndex<Ix>,
        b: NodeIndex<Ix>,
        weight: E,
    ) -> Result<EdgeIndex<Ix>, EdgeError<E>>
        requires parent { HasNode self.old.graph (Ix.number a) }
        requires child { HasNode self.old.graph (Ix.number b) }
        requires index_left { edge_count_of self.old.graph < Ix.greatest }
        ensures index { IfOk result (λ e. Ix.number e ≡ next_edge_of self.old.graph) }
        ensures added { OnOk result (self.new
            ≡ with_graph self.old (with_edge self.old.graph (Ix.number a) (Ix.number b) weight)) }
        ensures refusal { IfErr result (λ e. e ≡ EdgeMemory weight) }
        ensures unchanged { OnErr result (self.new ≡ self.old) }
    {
        if self.edges.reserve(1).is_err() {
            return Err(EdgeError::Memory(weight));
        }
        let e = put_edge(
            &mut self.nodes,
            &mut self.edges,
            Link::of_node(a),
            Link::of_node(b),
            weight,
        );
        Ok(e.edge())
    }

    /// The parent and the child of an edge, if the edge exists.
    #[inline]
    pub fn edge_endpoints(&self, e: EdgeIndex<Ix>) -> Option<(NodeIndex<Ix>, NodeIndex<Ix>)>
        ensures { option_map (pair_of Ix.number) result
            ≡ option_map ends_of (edge_at self.now.graph (Ix.number e)) }
    {
        match self.edges.get(e.index()) {
            Some(x) => Some((x.source(), x.target())),
            None => None,
        }
    }

    /// The first edge of the node's list in direction `dir`, or `end` if that list is empty.
    ///
    /// # Examples
    ///
    /// ```
    /// let mut graph: DiGraph<&'static str, u32> = DiGraph::new(rt.alloc());
    /// let sow = graph.add_node("sow")?;
    /// let reap = graph.add_node("reap")?;
    /// assert!(rt; graph.first_edge(sow, Direction::Outgoing) == EdgeIndex::end());
    /// let days = graph.add_edge(sow, reap, 90)?;
    /// let more = graph.add_edge(sow, reap, 30)?;
    /// // The newest edge comes first.
    /// assert!(rt; graph.first_edge(sow, Direction::Outgoing) == more);
    /// assert!(rt; graph.next_edge(more, Direction::Outgoing) == days);
    /// ```
    #[inline]
    pub fn first_edge(&self, n: NodeIndex<Ix>, dir: Direction) -> EdgeIndex<Ix>
        ensures { Ix.number result
            ≡ first_of Ix.greatest (list_at dir self.now.graph (Ix.number n)) }
    {
        match self.nodes.get(n.index()) {
            Some(x) => links::first(x, dir).edge(),
            None => EdgeIndex::end(),
        }
    }

    /// The edge after this one in its list in direction `dir`, or `end` if this one is the last.
    /// The list is the out list of its parent or the in list of its child.
    ///
    /// # Requires
    ///
    /// - `e` is an edge of the graph. Test: `contains_edge_index(e)`.
    #[inline]
    pub fn next_edge(&self, e: EdgeIndex<Ix>, dir: Direction) -> EdgeIndex<Ix>
        requires { HasEdge self.now.graph (Ix.number e) }
        ensures { Ix.number result
            ≡ cursor_after dir Ix.greatest self.now.graph (Ix.number e)
            (edge_at self.now.graph (Ix.number e)) }
    {
        let x = &self.edges[e.index()];
        links::next(x, dir).edge()
    }

    /// The first edge from `a` to `b` in the out list of `a`, if there is one.
    ///
    /// # Complexity
    ///
    /// O(edges that leave `a`).
    ///
    /// # Examples
    ///
    /// ```
    /// let mut graph: DiGraph<&'static str, u32> = DiGraph::new(rt.alloc());
    /// let sow = graph.add_node("sow")?;
    /// let reap = graph.add_node("reap")?;
    /// let days = graph.add_edge(sow, reap, 90)?;
    /// assert!(rt; graph.find_edge(sow, reap) == Some(days));
    /// assert!(rt; graph.contains_edge(sow, reap) && !graph.contains_edge(reap, sow));
    /// ```
    pub fn find_edge(&self, a: NodeIndex<Ix>, b: NodeIndex<Ix>) -> Option<EdgeIndex<Ix>>
        ensures { option_map Ix.number result
            ≡ edge_between self.now.graph (Ix.number a) (Ix.number b) }
    {
        let first = self.first_edge(a, Direction::Outgoing);
        let e = find_to(&self.edges, Link::of_edge(first), b.index())?;
        Some(e.edge())
    }

    /// Whether an edge leads from `a` to `b`.
    ///
    /// # Complexity
    ///
    /// O(edges that leave `a`).
    pub fn contains_edge(&self, a: NodeIndex<Ix>, b: NodeIndex<Ix>) -> bool
        ensures { IsTrue result ↔ AreJoined self.now.graph (Ix.number a) (Ix.number b) }
    {
        let _well_formed = self.edge_count();
        self.find_edge(a, b).is_some()
    }
}
