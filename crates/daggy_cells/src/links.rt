//! The links between stored nodes and edges, and the changes that stores make to them.
ghost use Rattle.std.specs.Prelude.{◌≡◌, ◌≢◌, ℕ, ◌<◌, ◌≤◌, ◌↔◌, length, map, slice_get, slice_set};
ghost use Rattle.std.specs.Prelude.{slice_index, Contains, Some};
ghost use Rattle.std.specs.List.{find};
ghost use Rattle.daggy_base.specs.declared.index.Direction.{Direction};
ghost use Rattle.daggy_base.specs.declared.index.Direction.TheVariants.{Outgoing, Incoming};
ghost use Rattle.daggy_base.specs.Cursor.{after};
ghost use Rattle.daggy_base.specs.Removal.{renamed};
ghost use Rattle.daggy_base.specs.Orders.{numbers_of};
ghost use Rattle.daggy_cells.specs.Links.{IsLinkedList, CanLink};
ghost use Rattle.daggy_cells.specs.Raw.{raw_first, raw_next};
ghost use Rattle.daggy_cells.specs.Fields.{weight_of, plain_edge, with_first, end_at, with_next};
ghost use Rattle.daggy_cells.specs.Fields.{with_end, with_end_renamed, firsts_of, nexts_of};
ghost use Rattle.daggy_cells.specs.Fields.{ends_of, list_from, with_lists_emptied, KeepsNodes};
ghost use Rattle.daggy_cells.specs.Fields.{KeepsEdges, IsReady, IsHead, IsRedirected, Relinks};
ghost use Rattle.daggy_cells.specs.Fields.{order_at, node_with, edge_with, enters, AreLedTo};
ghost use Rattle.daggy_cells.specs.Fields.{edge_put_first};
ghost use Rattle.daggy_cells.specs.Rest.{IsOnList};

use crate::cell::{Edge, Node};
use daggy_base::index::{Direction, EdgeIndex, IndexType};
use daggy_base::link::Link;

/// A stored node with empty lists.
#[inline]
pub fn new_node<N, Ix: IndexType>(weight: N) -> Node<N, Ix>
    ensures { result ≡ record { weight = weight; first_out = Ix.greatest; first_in = Ix.greatest } }
{
    Node {
        weight,
        first_out: Link::end(),
        first_in: Link::end(),
    }
}

/// A node with the links of `x`.
#[inline]
pub fn node_like<N, V, Ix: IndexType>(x: &Node<N, Ix>, weight: V) -> Node<V, Ix>
    ensures { result ≡ node_with x.now weight }
{
    Node {
        weight,
        first_out: x.first_out,
        first_in: x.first_in,
    }
}

/// The link to the first edge of a node's list in direction `dir`.
#[inline]
pub fn first<N, Ix: IndexType>(x: &Node<N, Ix>, dir: Direction) -> Link<Ix>
    ensures { result ≡ raw_first dir x.now }
{
    match dir {
        Direction::Outgoing => x.first_out,
        Direction::Incoming => x.first_in,
    }
}

/// Sets the link to the first edge of a node's list in direction `dir`.
#[inline]
pub fn set_first<N, Ix: IndexType>(x: &mut Node<N, Ix>, dir: Direction, e: Link<Ix>)
    ensures { x.new ≡ with_first dir x.old e }
{
    match dir {
        Direction::Outgoing => x.first_out = e,
        Direction::Incoming => x.first_in = e,
    }
}

/// A stored edge with these endpoints, and with the edges after it in its two lists.
#[inline]
pub fn new_edge<E, Ix: IndexType>(
    weight: E,
    parent: Link<Ix>,
    child: Link<Ix>,
    next_out: Link<Ix>,
    next_in: Link<Ix>,
) -> Edge<E, Ix>
    ensures { result ≡ record {
      weight = weight;
      parent = parent;
      child = child;
      next_out = next_out;
      next_in = next_in;
    } }
{
    Edge {
        weight,
        parent,
        child,
        next_out,
        next_in,
    }
}

/// An edge with the endpoints and the links of `x`.
#[inline]
pub fn edge_like<E, W, Ix: IndexType>(x: &Edge<E, Ix>, weight: W) -> Edge<W, Ix>
    ensures { result ≡ edge_with x.now weight }
{
    Edge {
        weight,
        parent: x.parent,
        child: x.child,
        next_out: x.next_out,
        next_in: x.next_in,
    }
}

/// The link to the edge after this one in its list in direction `dir`.
#[inline]
pub fn next<E, Ix: IndexType>(x: &Edge<E, Ix>, dir: Direction) -> Link<Ix>
    ensures { result ≡ raw_next dir x.now }
{
    match dir {
        Direction::Outgoing => x.next_out,
        Direction::Incoming => x.next_in,
    }
}

/// Sets the link to the edge after this one in its list in direction `dir`.
#[inline]
pub fn set_next<E, Ix: IndexType>(x: &mut Edge<E, Ix>, dir: Direction, e: Link<Ix>)
    ensures { x.new ≡ with_next dir x.old e }
{
    match dir {
        Direction::Outgoing => x.next_out = e,
        Direction::Incoming => x.next_in = e,
    }
}

/// The link to the node whose list in direction `dir` holds the edge.
#[inline]
pub fn endpoint<E, Ix: IndexType>(x: &Edge<E, Ix>, dir: Direction) -> Link<Ix>
    ensures { result ≡ end_at dir x.now }
{
    match dir {
        Direction::Outgoing => x.parent,
        Direction::Incoming => x.child,
    }
}

#[inline]
fn set_endpoint<E, Ix: IndexType>(x: &mut Edge<E, Ix>, dir: Direction, n: Link<Ix>)
    ensures { x.new ≡ with_end dir x.old n }
{
    match dir {
        Direction::Outgoing => x.parent = n,
        Direction::Incoming => x.child = n,
    }
}

/// Puts the edge `e` first in the out list of `a` and in the in list of `b`, and returns the edge
/// to store.
#[inline]
pub fn put_first<N, E, Ix: IndexType>(
    nodes: &mut Vec<Node<N, Ix>>,
    a: Link<Ix>,
    b: Link<Ix>,
    e: Link<Ix>,
    weight: E,
) -> Edge<E, Ix>
    requires parent { a < length nodes.old.items }
    requires child { b < length nodes.old.items }
    ensures edge { result ≡ edge_put_first nodes.old.items a b weight }
    ensures len { length nodes.new.items ≡ length nodes.old.items }
    ensures led { AreLedTo nodes.old.items nodes.new.items a b e }
{
    let u = a.index();
    let v = b.index();
    let next_out = first(&nodes[u], Direction::Outgoing);
    let next_in = first(&nodes[v], Direction::Incoming);
    set_first(&mut nodes[u], Direction::Outgoing, e);
    set_first(&mut nodes[v], Direction::Incoming, e);
    new_edge(weight, a, b, next_out, next_in)
}

// The edge before `old` in the list that begins with `first`.
fn find_before<E, Ix: IndexType>(
    edges: &[Edge<E, Ix>],
    dir: Direction,
    first: Link<Ix>,
    old: Link<Ix>,
) -> Link<Ix>
    requires linked { IsLinkedList Ix.greatest (nexts_of dir edges.now) first
        (list_from dir edges.now first) }
    requires listed { Contains (list_from dir edges.now first) old }
    requires later { first ≢ old }
    requires few { length edges.now ≤ Ix.greatest }
    ensures listed { Contains (list_from dir edges.now first) result }
    ensures before { after Ix.greatest (list_from dir edges.now first) result ≡ old }
{
    let target = old.index();
    let mut e = first;
    'along: loop {
        let i = e.index();
        let next = next(&edges[i], dir);
        if next.index() == target {
            return e;
        }
        e = next;
    }
}

/// The first edge into `child` in the out list that begins with `first`, or `None`.
///
/// # Complexity
///
/// O(edges of the list).
#[inline]
pub fn find_to<E, Ix: IndexType>(
    edges: &Vec<Edge<E, Ix>>,
    first: Link<Ix>,
    child: usize,
) -> Option<Link<Ix>>
    requires { IsOnList Ix.greatest Outgoing edges.now.items first }
    ensures { result
        ≡ find (enters edges.now.items child) (list_from Outgoing edges.now.items first) }
{
    let mut e = first;
    'along: loop {
        let i = e.index();
        if i >= edges.len() {
            return None;
        }
        let x = &edges[i];
        if endpoint(x, Direction::Incoming).index() == child {
            return Some(e);
        }
        e = next(x, Direction::Outgoing);
    }
}

/// Where a list of edges begins.
#[derive(Clone, Copy)]
pub struct ListHead<Ix: IndexType> {
    /// The node whose list it is.
    pub node: Link<Ix>,
    /// Its first edge, or `end`.
    pub first: Link<Ix>,
}

impl<Ix: IndexType> ListHead<Ix> {
    /// The head of the list in direction `dir` that holds an edge.
    #[inline]
    pub fn of<N, E>(
        nodes: &Vec<Node<N, Ix>>,
        edges: &Vec<Edge<E, Ix>>,
        dir: Direction,
        e: Link<Ix>,
    ) -> Self
        requires edge { e < length edges.now.items }
        requires node { slice_index (ends_of dir edges.now.items) e < length nodes.now.items }
        ensures { IsHead dir nodes.now.items edges.now.items e result.node result.first }
    {
        let node = endpoint(&edges[e.index()], dir);
        let first = first(&nodes[node.index()], dir);
        ListHead { node, first }
    }

    /// The head of this list after the edge `e` is removed from its list, which may be this list or
    /// another one. `next` is the edge after `e` in its list, or `end`.
    #[inline]
    pub fn without(self, e: Link<Ix>, next: Link<Ix>) -> Self
        ensures node { result.node ≡ self.node }
        ensures first { result.first ≡ renamed e next self.first }
    {
        if self.first.index() == e.index() {
            ListHead {
                node: self.node,
                first: next,
            }
        } else {
            self
        }
    }
}

/// Replaces the link to `old`, in its list in direction `dir`, with a link to `new`. `head` is the
/// head of that list.
///
/// # Complexity
///
/// O(edges before `old` in that list).
pub fn redirect<N, E, Ix: IndexType>(
    nodes: &mut Vec<Node<N, Ix>>,
    edges: &mut Vec<Edge<E, Ix>>,
    dir: Direction,
    head: ListHead<Ix>,
    old: Link<Ix>,
    new: Link<Ix>,
)
    requires ready { IsReady Ix.greatest dir nodes.old.items edges.old.items old }
    requires head { IsHead dir nodes.old.items edges.old.items old head.node head.first }
    ensures { IsRedirected dir nodes.old.items edges.old.items old new nodes.new.items
        edges.new.items }
{
    let first = head.first;
    if first.index() == old.index() {
        let i = head.node.index();
        set_first(&mut nodes[i], dir, new);
    } else {
        let before = find_before(edges.as_slice(), dir, first, old);
        let j = before.index();
        set_next(&mut edges[j], dir, new);
    }
}

/// Makes `to` the endpoint, in place of `from`, of all edges of the list that begins with `first`.
pub fn reassign<E, Ix: IndexType>(
    edges: &mut Vec<Edge<E, Ix>>,
    dir: Direction,
    first: Link<Ix>,
    from: Link<Ix>,
    to: Link<Ix>,
)
    requires linked { IsLinkedList Ix.greatest (nexts_of dir edges.old.items) first
        (list_from dir edges.old.items first) }
    requires exact { (e : ℕ)
        → Contains (list_from dir edges.old.items first) e
        ↔ (slice_get (ends_of dir edges.old.items) e ≡ Some from) }
    requires differ { from ≢ to }
    requires few { length edges.old.items ≤ Ix.greatest }
    ensures { edges.new.items ≡ map (with_end_renamed dir from to) edges.old.items }
{
    let mut e = first;
    'along: loop {
        let i = e.index();
        if i >= edges.len() {
            return;
        }
        let x = &mut edges[i];
        set_endpoint(x, dir, to);
        e = next(x, dir);
    }
}

/// Links the edges of `list`, in this order, as the list of node `n` in direction `dir`.
pub fn relink<N, E, Ix: IndexType>(
    nodes: &mut Vec<Node<N, Ix>>,
    edges: &mut Vec<Edge<E, Ix>>,
    dir: Direction,
    n: usize,
    list: &[EdgeIndex<Ix>],
)
    requires node { n < length nodes.old.items }
    requires list { CanLink (length edges.old.items) (map Ix.number list.now) }
    ensures links { Relinks Ix.greatest dir nodes.old.items edges.old.items n
        (map Ix.number list.now) nodes.new.items edges.new.items }
    ensures nodes { KeepsNodes dir nodes.old.items nodes.new.items }
    ensures edges { KeepsEdges dir edges.old.items edges.new.items }
{
    let mut after = Link::end();
    let mut left = list.len();
    'back: while left > 0 {
        left -= 1;
        let e = Link::of_edge(list[left]);
        let i = e.index();
        set_next(&mut edges[i], dir, after);
        after = e;
    }
    set_first(&mut nodes[n], dir, after);
}

/// Links the out list and the in list of the node `n` in the given orders.
pub fn relink_both<N, E, Ix: IndexType>(
    nodes: &mut Vec<Node<N, Ix>>,
    edges: &mut Vec<Edge<E, Ix>>,
    n: usize,
    order: &(Vec<EdgeIndex<Ix>>, Vec<EdgeIndex<Ix>>),
)
    requires node { n < length nodes.old.items }
    requires lists { (dir : Direction)
        → CanLink (length edges.old.items) (order_at dir (numbers_of Ix.number order.now)) }
    ensures links { (dir : Direction)
        → Relinks Ix.greatest dir nodes.old.items edges.old.items n
        (order_at dir (numbers_of Ix.number order.now)) nodes.new.items edges.new.items }
    ensures nodes { map weight_of nodes.new.items ≡ map weight_of nodes.old.items }
    ensures edges { map plain_edge edges.new.items ≡ map plain_edge edges.old.items }
{
    relink(nodes, edges, Direction::Outgoing, n, order.0.as_slice());
    relink(nodes, edges, Direction::Incoming, n, order.1.as_slice());
}

/// Empties every list.
pub fn clear_lists<N, Ix: IndexType>(nodes: &mut Vec<Node<N, Ix>>)
    ensures { nodes.new.items ≡ map (with_lists_emptied Ix.greatest) nodes.old.items }
{
    let end = Link::end();
    for i in 0..nodes.len() {
        let x = &mut nodes[i];
        x.first_out = end;
        x.first_in = end;
    }
}
