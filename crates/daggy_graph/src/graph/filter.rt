//! The subgraph that closures keep.
ghost use Rattle.std.specs.Prelude.{◌≡◌, ◌+◌, ◌<◌, ◌≤◌, [], ◌∷◌, ◌++◌, map, length, vec_len};
ghost use Rattle.std.specs.Prelude.{vec_capacity, IfOk};
ghost use Rattle.daggy_base.specs.CallsInTurn.{CanCallAtSlots, CanCallAtSomeSlots};
ghost use Rattle.daggy_base.specs.CallsInTurn.{CanCallAtNodes, CanCallAtSomeEdges};
ghost use Rattle.daggy_base.specs.Graph.{empty, slot};
ghost use Rattle.daggy_base.specs.Mapping.{weight_in};
ghost use Rattle.daggy_graph.specs.Stored.{stored_graph, Stores};
ghost use Rattle.daggy_cells.specs.Fields.{weight_of, plain_edge};
ghost use Rattle.daggy_base.specs.Filtering.{with_kept_node, named, with_kept_edge, both};
ghost use Rattle.daggy_base.specs.Filtering.{FiltersNodes, FiltersEdges, IsFiltered, ListsDescend};
ghost use Rattle.daggy_base.specs.Filtering.{HaveSameEnds};
ghost use Rattle.daggy_graph.specs.Names.{AreNamesBelow, IsFilteredAs};

use crate::graph::changes::{put_edge, put_node};
use crate::graph::{DiGraph, Edge, Node};
use daggy_base::index::{Direction, EdgeIndex, IndexType, NodeIndex};
use daggy_base::link::Link;
use daggy_base::looks::Looks;
use daggy_cells::links;
use std::alloc::AllocError;

// Adds a node if `answer` has a weight for it, and appends its new index to `names`.
fn keep_node<N, E, Ix: IndexType>(
    nodes: &mut Vec<Node<N, Ix>>,
    edges: &Vec<Edge<E, Ix>>,
    names: &mut Vec<Option<Link<Ix>>>,
    answer: Option<N>,
)
    requires stored { Stores Ix.greatest nodes.old.items edges.now.items
        (stored_graph nodes.old.items edges.now.items) }
    requires index_left { length nodes.old.items < Ix.greatest }
    requires capacity { vec_len nodes.old < vec_capacity nodes.old }
    requires room_for_name { vec_len names.old < vec_capacity names.old }
    ensures stored { Stores Ix.greatest nodes.new.items edges.now.items
        (with_kept_node (stored_graph nodes.old.items edges.now.items) answer) }
    ensures names { names.new.items
        ≡ names.old.items ++ named (stored_graph nodes.old.items edges.now.items) answer ∷ [] }
    ensures len { length nodes.new.items ≤ length nodes.old.items + 1 }
    ensures below { AreNamesBelow (length nodes.old.items) names.old.items
        → AreNamesBelow (length nodes.new.items) names.new.items }
    ensures capacity { vec_capacity nodes.new ≡ vec_capacity nodes.old }
    ensures capacity_for_names { vec_capacity names.new ≡ vec_capacity names.old }
{
    match answer {
        Some(weight) => {
            let n = put_node(nodes, edges, weight);
            names.push_reserved(Some(n));
        }
        None => names.push_reserved(None),
    }
}

// Adds the nodes that `f` keeps, within the capacity.
fn filter_nodes<N, V, W, Ix: IndexType, F: FnMut(NodeIndex<Ix>, &N) -> Option<V>>(
    nodes: &[Node<N, Ix>],
    new: &mut Vec<Node<V, Ix>>,
    edges: &Vec<Edge<W, Ix>>,
    names: &mut Vec<Option<Link<Ix>>>,
    mut f: F,
)
    requires callable { CanCallAtSlots Ix.of F.pre F.step (λ w. w) f (map weight_of nodes.now) }
    requires few { length nodes.now ≤ Ix.greatest }
    requires capacity { length nodes.now ≤ vec_capacity new.old }
    requires room_for_names { length nodes.now ≤ vec_capacity names.old }
    requires empty { new.old.items ≡ [] }
    requires no_names { names.old.items ≡ [] }
    requires no_edges { edges.now.items ≡ [] }
    ensures stored { Stores Ix.greatest new.new.items edges.now.items
        (stored_graph new.new.items edges.now.items) }
    ensures below { AreNamesBelow (length new.new.items) names.new.items }
    ensures filtered { FiltersNodes F.step Ix.of f 0 (map weight_of nodes.now) empty names.new.items
        (stored_graph new.new.items edges.now.items) }
{
    'each: for i in 0..nodes.len() {
        let x = &nodes[i];
        let answer = f(NodeIndex::new(i), &x.weight);
        keep_node(new, edges, names, answer);
    }
}

#[inline]
fn new_index<Ix: IndexType>(names: &Vec<Option<Link<Ix>>>, n: Link<Ix>) -> Option<Link<Ix>>
    ensures { result ≡ slot names.now.items n }
{
    match names.get(n.index()) {
        Some(name) => *name,
        None => None,
    }
}

// The new endpoints of an edge, if both were kept.
#[inline]
fn kept_endpoints<E, Ix: IndexType>(
    names: &Vec<Option<Link<Ix>>>,
    x: &Edge<E, Ix>,
) -> Option<(Link<Ix>, Link<Ix>)>
    ensures { result ≡ both (slot names.now.items x.now.parent) (slot names.now.items x.now.child) }
{
    let parent = links::endpoint(x, Direction::Outgoing);
    let child = links::endpoint(x, Direction::Incoming);
    match (new_index(names, parent), new_index(names, child)) {
        (Some(a), Some(b)) => Some((a, b)),
        _ => None,
    }
}

// Adds an edge if `answer` has a weight for it.
fn keep_edge<N, E, Ix: IndexType>(
    nodes: &mut Vec<Node<N, Ix>>,
    edges: &mut Vec<Edge<E, Ix>>,
    ends: (Link<Ix>, Link<Ix>),
    answer: Option<E>,
)
    requires stored { Stores Ix.greatest nodes.old.items edges.old.items
        (stored_graph nodes.old.items edges.old.items) }
    requires parent { ends.0 < length nodes.old.items }
    requires child { ends.1 < length nodes.old.items }
    requires index_left { length edges.old.items < Ix.greatest }
    requires capacity { vec_len edges.old < vec_capacity edges.old }
    ensures stored { Stores Ix.greatest nodes.new.items edges.new.items
        (with_kept_edge (stored_graph nodes.old.items edges.old.items) ends answer) }
    ensures len { length edges.new.items ≤ length edges.old.items + 1 }
    ensures nodes { length nodes.new.items ≡ length nodes.old.items }
    ensures capacity { vec_capacity edges.new ≡ vec_capacity edges.old }
{
    if let Some(weight) = answer {
        let _e = put_edge(nodes, edges, ends.0, ends.1, weight);
    }
}

// Adds the edges that `g` keeps, of those whose endpoints were both kept, within the capacity.
fn filter_edges<N, E, W, Ix: IndexType, G: FnMut(EdgeIndex<Ix>, &E) -> Option<W>>(
    edges: &[Edge<E, Ix>],
    names: &Vec<Option<Link<Ix>>>,
    nodes: &mut Vec<Node<N, Ix>>,
    new: &mut Vec<Edge<W, Ix>>,
    mut g: G,
)
    requires callable { CanCallAtSomeSlots Ix.of G.pre G.step weight_in g
        (map plain_edge edges.now) }
    requires few { length edges.now ≤ Ix.greatest }
    requires capacity { length edges.now ≤ vec_capacity new.old }
    requires empty { new.old.items ≡ [] }
    requires below { AreNamesBelow (length nodes.old.items) names.now.items }
    requires stored { Stores Ix.greatest nodes.old.items new.old.items
        (stored_graph nodes.old.items new.old.items) }
    ensures stored { Stores Ix.greatest nodes.new.items new.new.items
        (stored_graph nodes.new.items new.new.items) }
    ensures filtered { FiltersEdges G.step Ix.of names.now.items g 0 (map plain_edge edges.now)
        (stored_graph nodes.old.items new.old.items) (stored_graph nodes.new.items new.new.items) }
{
    'each: for i in 0..edges.len() {
        let x = &edges[i];
        let ends = match kept_endpoints(names, x) {
            Some(ends) => ends,
            None => continue,
        };
        let answer = g(EdgeIndex::new(i), &x.weight);
        keep_edge(nodes, new, ends, answer);
    }
}

impl<N, E, Ix: IndexType> DiGraph<N, E, Ix> {
    /// A graph of the nodes and edges for which the closures return a weight: `f` is called with
    /// each node in ascending index order, and then `g` with each edge whose endpoints were both
    /// kept.
    ///
    /// The nodes that are kept are renumbered from 0, in their old order. The edges that are kept
    /// are added in ascending index order, so each list is in descending index order. If nothing is
    /// left out, each node and edge keeps its index.
    ///
    /// # Requires
    ///
    /// - `nodes`: `f` may be called with each node and its weight, in ascending index order.
    /// - `edges`: `g` may be called with the edges that are kept and their weights, in ascending
    ///   index order, no matter which edges these are.
    ///
    /// # Errors
    ///
    /// Returns `AllocError` if an allocation fails; in that case no closure has been called.
    ///
    /// # Complexity
    ///
    /// O(nodes + edges), plus the calls.
    ///
    /// # Examples
    ///
    /// ```
    /// let mut graph: DiGraph<u32, u32> = DiGraph::new(rt.alloc());
    /// let sow = graph.add_node(1)?;
    /// graph.add_edge(sow, sow, 90)?;
    /// graph.add_edge(sow, sow, 1)?;
    /// let long = graph.filter_map(
    ///     |_, n| Some(*n),
    ///     |_, days| if *days > 7 { Some(*days) } else { None },
    /// )?;
    /// assert!(rt; long.node_count() == 1 && long.edge_count() == 1);
    /// ```
    pub fn filter_map<
        N2: Drop,
        E2: Drop,
        F: FnMut(NodeIndex<Ix>, &N) -> Option<N2>,
        G: FnMut(EdgeIndex<Ix>, &E) -> Option<E2>,
    >(&self, f: F, g: G) -> Result<DiGraph<N2, E2, Ix>, AllocError>
        requires nodes { CanCallAtNodes Ix.of F.pre F.step f self.now.graph }
        requires edges { CanCallAtSomeEdges Ix.of G.pre G.step g self.now.graph }
        ensures filtered { IfOk result (λ h.
            IsFiltered Ix.of F.step G.step f g self.now.graph h.graph) }
        ensures descending { IfOk result (λ h. ListsDescend h.graph) }
        ensures whole { IfOk result (λ h. length h.graph.nodes ≡ length self.now.graph.nodes
            → length h.graph.edges ≡ length self.now.graph.edges
            → HaveSameEnds self.now.graph h.graph) }
        ensures looks { IfOk result (λ h. h.looks ≡ 0) }
    {
        let (graph, _names) = self.filter_map_named(f, g)?;
        Ok(graph)
    }

    /// The same as [`filter_map`](DiGraph::filter_map), but also returns the new index of each node
    /// of this graph, if it was kept.
    #[doc(hidden)]
    pub fn filter_map_named<
        N2: Drop,
        E2: Drop,
        F: FnMut(NodeIndex<Ix>, &N) -> Option<N2>,
        G: FnMut(EdgeIndex<Ix>, &E) -> Option<E2>,
    >(&self, f: F, g: G) -> Result<(DiGraph<N2, E2, Ix>, Vec<Option<Link<Ix>>>), AllocError>
        requires nodes { CanCallAtNodes Ix.of F.pre F.step f self.now.graph }
        requires edges { CanCallAtSomeEdges Ix.of G.pre G.step g self.now.graph }
        ensures filtered { IfOk result (λ made.
            IsFilteredAs Ix.of F.step G.step f g made.1.items self.now.graph made.0.graph) }
        ensures descending { IfOk result (λ made. ListsDescend made.0.graph) }
        ensures whole { IfOk result (λ made. length made.0.graph.nodes ≡ length self.now.graph.nodes
            → length made.0.graph.edges ≡ length self.now.graph.edges
            → HaveSameEnds self.now.graph made.0.graph) }
        ensures looks { IfOk result (λ made. made.0.looks ≡ 0) }
    {
        let alloc = *self.nodes.allocator();
        let mut nodes = Vec::with_capacity(alloc, self.nodes.len())?;
        let mut edges = Vec::with_capacity(alloc, self.edges.len())?;
        let mut names = Vec::with_capacity(alloc, self.nodes.len())?;
        filter_nodes(self.nodes.as_slice(), &mut nodes, &edges, &mut names, f);
        filter_edges(self.edges.as_slice(), &names, &mut nodes, &mut edges, g);
        let graph = DiGraph {
            nodes,
            edges,
            looks: Looks::new(),
        };
        Ok((graph, names))
    }
}
