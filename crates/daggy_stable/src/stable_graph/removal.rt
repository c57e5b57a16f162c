//! Removing edges and nodes.
ghost use Rattle.std.specs.Prelude.{◌≡◌, ◌<◌, length, map, OnSome, IfNone, Some};
ghost use Rattle.std.specs.Prelude.{[]};
ghost use Rattle.std.specs.Option.{option_map};
ghost use Rattle.daggy_base.specs.declared.index.Direction.{Direction};
ghost use Rattle.daggy_base.specs.Graph.{empty, node_weight, edge_at, HasNode, HasEdge, list_at};
ghost use Rattle.daggy_base.specs.Removal.{without_edge, without_front, without_node};
ghost use Rattle.daggy_base.specs.declared.kind.Kind.TheVariants.{Stable};
ghost use Rattle.daggy_base.specs.Removal.{with_node_isolated, with_node_dropped};
ghost use Rattle.daggy_base.specs.Removal.{without_all_edges};
ghost use Rattle.daggy_base.specs.WellFormed.{IsIsolated};
ghost use Rattle.daggy_base.specs.State.{with_graph};
ghost use Rattle.daggy_cells.specs.Fields.{IsReady};
ghost use Rattle.daggy_stable.specs.Stored.{with_lists_emptied, IsUnlinked};

use crate::stable_graph::StableDiGraph;
use daggy_base::index::{Direction, EdgeIndex, IndexType, NodeIndex};
use daggy_base::link::Link;
use daggy_cells::cell::{Edge, Node};
use daggy_cells::links::{self, ListHead, redirect};

impl<N, E, Ix: IndexType> StableDiGraph<N, E, Ix> {
    /// Removes an edge and returns its weight, if the edge exists. No other index changes.
    ///
    /// # Complexity
    ///
    /// O(edges before it in its two lists). Does not allocate.
    #[inline]
    pub fn remove_edge(&mut self, e: EdgeIndex<Ix>) -> Option<E>
        ensures value { result ≡ option_map (λ x. x.weight) (edge_at self.old.graph (Ix.number e)) }
        ensures removed { OnSome result
            (self.new ≡ with_graph self.old (without_edge Stable self.old.graph (Ix.number e))) }
        ensures missing { IfNone result (self.new ≡ self.old) }
    {
        if !self.contains_edge_index(e) {
            return None;
        }
        self.vacate_edge(e)
    }

    // Unlinks an edge from its two lists, and vacates its slot.
    #[inline]
    pub(super) fn vacate_edge(&mut self, e: EdgeIndex<Ix>) -> Option<E>
        requires { HasEdge self.old.graph (Ix.number e) }
        ensures value { result ≡ option_map (λ x. x.weight) (edge_at self.old.graph (Ix.number e)) }
        ensures removed { self.new
            ≡ with_graph self.old (without_edge Stable self.old.graph (Ix.number e)) }
    {
        let link = Link::of_edge(e);
        unlink(&mut self.nodes, &mut self.edges, link);
        let x = &mut self.edges[link.index()];
        links::set_next(x, Direction::Outgoing, self.first_vacant_edge);
        let weight = x.weight.take();
        self.first_vacant_edge = link;
        self.edge_count -= 1;
        weight
    }

    /// Removes a node with its edges and returns its weight, if the node exists. No other index
    /// changes.
    ///
    /// First the edges that leave it are removed, and then the edges that enter it, in the order of
    /// each list.
    ///
    /// # Complexity
    ///
    /// The sum of the costs of removing its edges by `remove_edge`. Does not allocate.
    pub fn remove_node(&mut self, n: NodeIndex<Ix>) -> Option<N>
    where
        E: Drop,
        ensures value { result ≡ node_weight self.old.graph (Ix.number n) }
        ensures removed { OnSome result
            (self.new ≡ with_graph self.old (without_node Stable self.old.graph (Ix.number n))) }
        ensures between { OnSome result (IsIsolated Ix.greatest
            (with_node_isolated Stable self.old.graph (Ix.number n)) (Ix.number n)) }
        ensures missing { IfNone result (self.new ≡ self.old) }
    {
        if self.node_weight(n).is_none() {
            return None;
        }
        self.clear_front(n, Direction::Outgoing);
        self.clear_front(n, Direction::Incoming);
        let _well_formed = self.edge_count();
        self.vacate_node(n)
    }

    // Removes the first edge of the node's list in direction `dir` until the list is empty.
    #[inline]
    fn clear_front(&mut self, n: NodeIndex<Ix>, dir: Direction)
    where
        E: Drop,
        ensures cleared { self.new
            ≡ with_graph self.old (without_front Stable dir
            (length (list_at dir self.old.graph (Ix.number n))) self.old.graph (Ix.number n)) }
        ensures emptied { list_at dir self.new.graph (Ix.number n) ≡ [] }
        ensures empty_stays { (d : Direction) → list_at d self.old.graph (Ix.number n) ≡ []
            → list_at d self.new.graph (Ix.number n) ≡ [] }
        ensures nodes { self.new.graph.nodes ≡ self.old.graph.nodes }
    {
        'front: loop {
            let _well_formed = self.edge_count();
            let e = self.first_edge(n, dir);
            if self.remove_edge(e).is_none() {
                return;
            }
        }
    }

    // Vacates the slot of a node that has no edges.
    pub(super) fn vacate_node(&mut self, n: NodeIndex<Ix>) -> Option<N>
        requires node { HasNode self.old.graph (Ix.number n) }
        requires no_edges { (d : Direction) → list_at d self.old.graph (Ix.number n) ≡ [] }
        ensures value { result ≡ node_weight self.old.graph (Ix.number n) }
        ensures dropped { self.new
            ≡ with_graph self.old (with_node_dropped Stable self.old.graph (Ix.number n)) }
    {
        let link = Link::of_node(n);
        let x = &mut self.nodes[link.index()];
        links::set_first(x, Direction::Outgoing, self.first_vacant_node);
        let weight = x.weight.take();
        self.first_vacant_node = link;
        self.node_count -= 1;
        weight
    }

    /// Removes all nodes and edges, and all slots. The capacity is kept.
    ///
    /// # Complexity
    ///
    /// O(slots).
    pub fn clear(&mut self)
    where
        N: Drop,
        E: Drop,
        ensures { self.new ≡ with_graph self.old empty }
    {
        self.nodes.clear();
        self.edges.clear();
        self.first_vacant_node = Link::end();
        self.first_vacant_edge = Link::end();
        self.node_count = 0;
        self.edge_count = 0;
    }

    /// Removes all edges and all edge slots, and keeps the nodes. The capacity is kept.
    ///
    /// # Complexity
    ///
    /// O(slots).
    pub fn clear_edges(&mut self)
    where
        E: Drop,
        ensures { self.new ≡ with_graph self.old (without_all_edges self.old.graph) }
    {
        self.edges.clear();
        empty_lists(&mut self.nodes);
        self.first_vacant_edge = Link::end();
        self.edge_count = 0;
    }
}

// Unlinks an edge from its two lists.
pub(super) fn unlink<N, E, Ix: IndexType>(
    nodes: &mut Vec<Node<N, Ix>>,
    edges: &mut Vec<Edge<E, Ix>>,
    e: Link<Ix>,
)
    requires { (dir : Direction) → IsReady Ix.greatest dir nodes.old.items edges.old.items e }
    ensures { IsUnlinked nodes.old.items nodes.new.items edges.old.items edges.new.items e }
{
    let i = e.index();
    // Both list heads are loaded before a list is walked, so that the loads overlap.
    let out = ListHead::of(nodes, edges, Direction::Outgoing, e);
    let into = ListHead::of(nodes, edges, Direction::Incoming, e);
    let next_out = links::next(&edges[i], Direction::Outgoing);
    let next_in = links::next(&edges[i], Direction::Incoming);
    redirect(nodes, edges, Direction::Outgoing, out, e, next_out);
    redirect(nodes, edges, Direction::Incoming, into, e, next_in);
}

// Empties the lists of every node.
fn empty_lists<N, Ix: IndexType>(nodes: &mut Vec<Node<Option<N>, Ix>>)
    ensures { nodes.new.items ≡ map (with_lists_emptied Ix.greatest) nodes.old.items }
{
    for i in 0..nodes.len() {
        empty_both(&mut nodes[i]);
    }
}

// Empties the lists of a node, if it exists.
fn empty_both<N, Ix: IndexType>(x: &mut Node<Option<N>, Ix>)
    ensures { x.new ≡ with_lists_emptied Ix.greatest x.old }
{
    if x.weight.is_none() {
        return;
    }
    links::set_first(x, Direction::Outgoing, Link::end());
    links::set_first(x, Direction::Incoming, Link::end());
}
