//! Adding stored nodes and edges, and unlinking them.
ghost use Rattle.std.specs.Prelude.{◌≡◌, ◌+◌, ◌-◌, ◌<◌, length, map, vec_len, vec_capacity};
ghost use Rattle.daggy_base.specs.declared.index.Direction.TheVariants.{Outgoing, Incoming};
ghost use Rattle.daggy_base.specs.Adding.{with_node, with_edge};
ghost use Rattle.daggy_cells.specs.Fields.{with_end_renamed, plain_edge};
ghost use Rattle.daggy_graph.specs.Stored.{stored_graph, IsDetached, Stores};

use daggy_base::index::{Direction, IndexType};
use daggy_base::link::Link;
use daggy_cells::cell::{Edge, Node};
use daggy_cells::links::{self, ListHead, put_first, reassign, redirect};

// Adds a node, within the capacity.
#[inline]
pub(super) fn put_node<N, E, Ix: IndexType>(
    nodes: &mut Vec<Node<N, Ix>>,
    edges: &Vec<Edge<E, Ix>>,
    weight: N,
) -> Link<Ix>
    requires stored { Stores Ix.greatest nodes.old.items edges.now.items
        (stored_graph nodes.old.items edges.now.items) }
    requires index_left { length nodes.old.items < Ix.greatest }
    requires capacity { vec_len nodes.old < vec_capacity nodes.old }
    ensures index { result ≡ length nodes.old.items }
    ensures stored { Stores Ix.greatest nodes.new.items edges.now.items
        (with_node (stored_graph nodes.old.items edges.now.items) weight) }
    ensures len { length nodes.new.items ≡ length nodes.old.items + 1 }
    ensures capacity { vec_capacity nodes.new ≡ vec_capacity nodes.old }
{
    let _edges = edges;
    let n = Link::new(nodes.len());
    nodes.push_reserved(links::new_node(weight));
    n
}

// Adds an edge from `a` to `b`, within the capacity.
#[inline]
pub(super) fn put_edge<N, E, Ix: IndexType>(
    nodes: &mut Vec<Node<N, Ix>>,
    edges: &mut Vec<Edge<E, Ix>>,
    a: Link<Ix>,
    b: Link<Ix>,
    weight: E,
) -> Link<Ix>
    requires stored { Stores Ix.greatest nodes.old.items edges.old.items
        (stored_graph nodes.old.items edges.old.items) }
    requires parent { a < length nodes.old.items }
    requires child { b < length nodes.old.items }
    requires index_left { length edges.old.items < Ix.greatest }
    requires capacity { vec_len edges.old < vec_capacity edges.old }
    ensures index { result ≡ length edges.old.items }
    ensures stored { Stores Ix.greatest nodes.new.items edges.new.items
        (with_edge (stored_graph nodes.old.items edges.old.items) a b weight) }
    ensures len { length edges.new.items ≡ length edges.old.items + 1 }
    ensures nodes { length nodes.new.items ≡ length nodes.old.items }
    ensures capacity { vec_capacity edges.new ≡ vec_capacity edges.old }
{
    let e = Link::new(edges.len());
    let x = put_first(nodes, a, b, e, weight);
    edges.push_reserved(x);
    e
}

// Unlinks `e` from its two lists, and redirects the links to the last edge to `e`: the caller then
// moves the last edge to that index.
pub(super) fn detach<N, E, Ix: IndexType>(
    nodes: &mut Vec<Node<N, Ix>>,
    edges: &mut Vec<Edge<E, Ix>>,
    e: Link<Ix>,
)
    requires stored { Stores Ix.greatest nodes.old.items edges.old.items
        (stored_graph nodes.old.items edges.old.items) }
    requires edge { e < length edges.old.items }
    ensures detached { IsDetached Ix.greatest (stored_graph nodes.old.items edges.old.items) e
        nodes.new.items edges.new.items }
    ensures edges { map plain_edge edges.new.items ≡ map plain_edge edges.old.items }
{
    let i = e.index();
    let moved = Link::new(edges.len() - 1);
    // All four list heads are loaded before a list is walked, so that the loads overlap.
    let out = ListHead::of(nodes, edges, Direction::Outgoing, e);
    let into = ListHead::of(nodes, edges, Direction::Incoming, e);
    let moved_out = ListHead::of(nodes, edges, Direction::Outgoing, moved);
    let moved_into = ListHead::of(nodes, edges, Direction::Incoming, moved);
    let next_out = links::next(&edges[i], Direction::Outgoing);
    let next_in = links::next(&edges[i], Direction::Incoming);
    redirect(nodes, edges, Direction::Outgoing, out, e, next_out);
    redirect(nodes, edges, Direction::Incoming, into, e, next_in);
    if i != moved.index() {
        let out = moved_out.without(e, next_out);
        let into = moved_into.without(e, next_in);
        redirect(nodes, edges, Direction::Outgoing, out, moved, e);
        redirect(nodes, edges, Direction::Incoming, into, moved, e);
    }
}

// Makes `n` the endpoint of the edges of the last node: the caller then moves the last node to that
// index.
pub(super) fn reassign_last<N, E, Ix: IndexType>(
    nodes: &Vec<Node<N, Ix>>,
    edges: &mut Vec<Edge<E, Ix>>,
    n: Link<Ix>,
)
    requires stored { Stores Ix.greatest nodes.now.items edges.old.items
        (stored_graph nodes.now.items edges.old.items) }
    requires node { n < length nodes.now.items }
    ensures { let last = length nodes.now.items - 1 in
        edges.new.items
        ≡ map (with_end_renamed Incoming last n)
        (map (with_end_renamed Outgoing last n) edges.old.items) }
{
    let i = n.index();
    let last = nodes.len() - 1;
    if i != last {
        let from = Link::new(last);
        let out = links::first(&nodes[last], Direction::Outgoing);
        let into = links::first(&nodes[last], Direction::Incoming);
        reassign(edges, Direction::Outgoing, out, from, n);
        reassign(edges, Direction::Incoming, into, from, n);
    }
}
