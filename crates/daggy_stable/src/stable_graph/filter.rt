//! The subgraph that closures keep, with the same indices.
ghost use Rattle.std.specs.Prelude.{◌≡◌, ◌≤◌, [], map, length, vec_capacity, is_some};
ghost use Rattle.std.specs.Prelude.{option_copied, IfOk};
ghost use Rattle.std.specs.Option.{option_map};
ghost use Rattle.daggy_base.specs.CallsInTurn.{CanCallAtSlots, CanCallAtSomeSlots};
ghost use Rattle.daggy_base.specs.CallsInTurn.{CanCallAtNodes, CanCallAtSomeEdges};
ghost use Rattle.daggy_base.specs.Graph.{slot};
ghost use Rattle.daggy_base.specs.Mapping.{weight_in, with_weight};
ghost use Rattle.daggy_base.specs.Filtering.{ListsDescend};
ghost use Rattle.daggy_base.specs.FilteringInPlace.{KeepsSlots, if_ends_exist, IsFilteredInPlace};
ghost use Rattle.daggy_stable.specs.Stored.{weight_of, plain_edge};
ghost use Rattle.daggy_stable.specs.Building.{IsBuilt};

use crate::stable_graph::StableDiGraph;
use crate::stable_graph::building::{SlotBuilder, built, keep_edge, keep_node, leave_edge};
use daggy_base::index::{Direction, EdgeIndex, IndexType, NodeIndex};
use daggy_base::link::Link;
use daggy_cells::cell::{Edge, Node};
use daggy_cells::links;
use std::alloc::AllocError;

// Makes a slot for each node slot, occupied by what `f` keeps, within the capacity.
fn filter_nodes<N, V, W, Ix: IndexType, F: FnMut(NodeIndex<Ix>, &N) -> Option<V>>(
    nodes: &[Node<Option<N>, Ix>],
    new: &mut SlotBuilder<Node<Option<V>, Ix>, Ix>,
    edges: &SlotBuilder<Edge<Option<W>, Ix>, Ix>,
    mut f: F,
)
    requires callable { CanCallAtSlots Ix.of F.pre F.step (λ w. w) f (map weight_of nodes.now) }
    requires few { length nodes.now ≤ Ix.greatest }
    requires capacity { length nodes.now ≤ vec_capacity new.old.cells }
    requires empty { new.old.cells.items ≡ [] }
    requires no_edges { edges.now.cells.items ≡ [] }
    requires stored { IsBuilt Ix.greatest new.old edges.now }
    ensures stored { IsBuilt Ix.greatest new.new edges.now }
    ensures kept { KeepsSlots F.step Ix.of (λ w. w) (λ w v. v) f 0 (map weight_of nodes.now)
        (map weight_of new.new.cells.items) }
{
    'each: for i in 0..nodes.len() {
        let x = &nodes[i];
        let old = match x.weight.as_ref() {
            Some(old) => old,
            None => {
                keep_node(new, edges, None);
                continue;
            }
        };
        let answer = f(NodeIndex::new(i), old);
        keep_node(new, edges, answer);
    }
}

#[inline]
fn was_kept<N, Ix: IndexType>(nodes: &SlotBuilder<Node<Option<N>, Ix>, Ix>, n: Link<Ix>) -> bool
    ensures { result ≡ is_some (slot (map weight_of nodes.now.cells.items) n) }
{
    match nodes.cells.get(n.index()) {
        Some(x) => x.weight.is_some(),
        None => false,
    }
}

// The weight of an edge, if the edge exists and both its endpoints were kept.
#[inline]
fn joined_weight<'a, N, E, Ix: IndexType>(
    nodes: &SlotBuilder<Node<Option<N>, Ix>, Ix>,
    x: &'a Edge<Option<E>, Ix>,
) -> Option<&'a E>
    ensures { option_copied result
        ≡ option_map weight_in
        (if_ends_exist (map weight_of nodes.now.cells.items) (plain_edge x.now)) }
{
    if !was_kept(nodes, links::endpoint(x, Direction::Outgoing)) {
        return None;
    }
    if !was_kept(nodes, links::endpoint(x, Direction::Incoming)) {
        return None;
    }
    x.weight.as_ref()
}

// Makes a slot for each edge slot, occupied by what `g` keeps of the edges whose endpoints were
// both kept, within the capacity.
fn filter_edges<N, E, W, Ix: IndexType, G: FnMut(EdgeIndex<Ix>, &E) -> Option<W>>(
    edges: &[Edge<Option<E>, Ix>],
    nodes: &mut SlotBuilder<Node<Option<N>, Ix>, Ix>,
    new: &mut SlotBuilder<Edge<Option<W>, Ix>, Ix>,
    mut g: G,
)
    requires callable { CanCallAtSomeSlots Ix.of G.pre G.step weight_in g
        (map plain_edge edges.now) }
    requires few { length edges.now ≤ Ix.greatest }
    requires capacity { length edges.now ≤ vec_capacity new.old.cells }
    requires empty { new.old.cells.items ≡ [] }
    requires stored { IsBuilt Ix.greatest nodes.old new.old }
    ensures stored { IsBuilt Ix.greatest nodes.new new.new }
    ensures nodes { map weight_of nodes.new.cells.items ≡ map weight_of nodes.old.cells.items }
    ensures kept { KeepsSlots G.step Ix.of weight_in with_weight g 0
        (map (λ x. if_ends_exist (map weight_of nodes.old.cells.items) (plain_edge x)) edges.now)
        (map plain_edge new.new.cells.items) }
{
    'each: for i in 0..edges.len() {
        let x = &edges[i];
        let old = match joined_weight(nodes, x) {
            Some(old) => old,
            None => {
                leave_edge(nodes, new);
                continue;
            }
        };
        let answer = g(EdgeIndex::new(i), old);
        let a = links::endpoint(x, Direction::Outgoing);
        let b = links::endpoint(x, Direction::Incoming);
        keep_edge(nodes, new, a, b, answer);
    }
}

impl<N, E, Ix: IndexType> StableDiGraph<N, E, Ix> {
    /// A graph of the nodes and edges for which the closures return a weight, with the same
    /// indices: `f` is called with each node in ascending index order, and then `g` with each edge
    /// whose endpoints were both kept.
    ///
    /// Slots after the last node and the last edge are dropped. Each list is in descending index
    /// order, and the highest vacant slot is reused first.
    ///
    /// # Requires
    ///
    /// - `nodes`: `f` may be called with each node and its weight, in ascending index order.
    /// - `edges`: `g` may be called with the edges that are kept and their weights, in ascending
    ///   index order, no matter which edges these are.
    ///
    /// # Errors
    ///
    /// Returns `AllocError` if an allocation fails; in that case no closure has been called.
    ///
    /// # Complexity
    ///
    /// O(slots), plus the calls.
    pub fn filter_map<
        N2: Drop,
        E2: Drop,
        F: FnMut(NodeIndex<Ix>, &N) -> Option<N2>,
        G: FnMut(EdgeIndex<Ix>, &E) -> Option<E2>,
    >(&self, f: F, g: G) -> Result<StableDiGraph<N2, E2, Ix>, AllocError>
        requires nodes { CanCallAtNodes Ix.of F.pre F.step f self.now.graph }
        requires edges { CanCallAtSomeEdges Ix.of G.pre G.step g self.now.graph }
        ensures filtered { IfOk result (λ h.
            IsFilteredInPlace Ix.of F.step G.step f g self.now.graph h.graph) }
        ensures descending { IfOk result (λ h. ListsDescend h.graph) }
        ensures looks { IfOk result (λ h. h.looks ≡ 0) }
    {
        let alloc = *self.nodes.allocator();
        let node_bound = self.node_bound();
        let edge_bound = self.edge_bound();
        let mut nodes = SlotBuilder::with_capacity(alloc, node_bound)?;
        let mut edges = SlotBuilder::with_capacity(alloc, edge_bound)?;
        filter_nodes(&self.nodes[..node_bound], &mut nodes, &edges, f);
        filter_edges(&self.edges[..edge_bound], &mut nodes, &mut edges, g);
        Ok(built(nodes, edges))
    }
}
