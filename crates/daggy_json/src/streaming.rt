//! The document of a graph, written token by token.
ghost use Rattle.std.specs.Prelude.{◌≤◌, IsTrue, map, take};
ghost use Rattle.daggy_base.specs.Graph.{edge_at, edge_bound, list_at};
ghost use Rattle.daggy_base.specs.Iterating.{node_identifiers, node_weights};
ghost use Rattle.daggy_json.specs.Document.{whole, listed, wholes, holes_of, row_of};
ghost use Rattle.daggy_json.specs.Document.{IsEntry, IsDocumentOf, IsDocumentWithoutOrders};
ghost use Rattle.daggy_json.specs.Document.{IsShortDocumentOf};
ghost use Rattle.daggy_json.specs.Weight.{WritesAs};
ghost use Rattle.daggy_json.specs.Passing.{HasFailed, Writes, AreTokensOf, AreTokensOfA, Encodes};
ghost use Rattle.daggy_json.specs.Passing.{IsArrayOf, AreTokensOfParts};

use crate::descending::lists_descend;
use crate::text::TextWriter;
use crate::values::write_weight;
use daggy_base::index::{Direction, EdgeIndex, IndexType, NodeIndex};
use daggy_base::read_store::ReadStore;
use daggy_visit::prefetch::{PREFETCH_FROM, touch_lists};
use json::Token;
use serde_json::Value;
use std::alloc::AllocError;
use std::io::Write;

/// The number of nodes whose lists are prefetched together.
const AHEAD: usize = 32;

// The entry of an edge slot.
fn stream_entry<
    W: Write,
    Ix: IndexType,
    S: ReadStore<Ix>,
    G: Fn(&S::EdgeWeight) -> Result<Value, AllocError>,
>(store: &S, e: EdgeIndex<Ix>, fn_edge: &G, out: &mut TextWriter<'_, W>)
    requires { G.IsAlwaysCallable fn_edge.now }
    ensures { Writes W.contents out.old out.new (AreTokensOfA
        (IsEntry (Encodes (WritesAs G.Fn fn_edge.now) (HasFailed out.new))
        (edge_at (S.graph store.now) (Ix.number e)))) }
{
    let Some(ends) = store.edge_endpoints(e) else {
        return out.token(Token::Null);
    };
    let Some(weight) = store.edge_weight(e) else {
        return out.token(Token::Null);
    };
    out.begin_array();
    out.whole(ends.0.index());
    out.whole(ends.1.index());
    write_weight(fn_edge(weight), out);
    out.token(Token::EndArray);
}

// The entries of the edge slots below the bound.
fn stream_entries<
    W: Write,
    Ix: IndexType,
    S: ReadStore<Ix>,
    G: Fn(&S::EdgeWeight) -> Result<Value, AllocError>,
>(store: &S, fn_edge: &G, out: &mut TextWriter<'_, W>)
    requires { G.IsAlwaysCallable fn_edge.now }
    ensures { Writes W.contents out.old out.new (AreTokensOfA (IsArrayOf
        (IsEntry (Encodes (WritesAs G.Fn fn_edge.now) (HasFailed out.new)))
        (take (edge_bound (S.graph store.now)) (S.graph store.now).edges))) }
{
    let bound = store.edge_bound();
    store.invariant();
    out.begin_array();
    let mut i = 0;
    'edges: while i < bound {
        stream_entry(store, EdgeIndex::new(i), fn_edge, out);
        i += 1;
    }
    out.token(Token::EndArray);
}

// The indices of the vacant nodes below the bound, ascending.
fn stream_holes<W: Write, Ix: IndexType, S: ReadStore<Ix>>(store: &S, out: &mut TextWriter<'_, W>)
    ensures { Writes W.contents out.old out.new
        (AreTokensOf (wholes (holes_of (S.graph store.now)))) }
{
    let bound = store.node_bound();
    out.begin_array();
    let mut i = 0;
    'nodes: while i < bound {
        if !store.contains_node(NodeIndex::new(i)) {
            out.whole(i);
        }
        i += 1;
    }
    out.token(Token::EndArray);
}

// The encoded weights of the nodes, by ascending index.
fn stream_weights<
    W: Write,
    Ix: IndexType,
    S: ReadStore<Ix>,
    F: Fn(&S::NodeWeight) -> Result<Value, AllocError>,
>(store: &S, fn_node: &F, out: &mut TextWriter<'_, W>)
    requires { F.IsAlwaysCallable fn_node.now }
    ensures { Writes W.contents out.old out.new (AreTokensOfA (IsArrayOf
        (Encodes (WritesAs F.Fn fn_node.now) (HasFailed out.new))
        (node_weights (S.graph store.now)))) }
{
    let bound = store.node_bound();
    out.begin_array();
    let mut i = 0;
    'nodes: while i < bound {
        if let Some(weight) = store.node_weight(NodeIndex::new(i)) {
            write_weight(fn_node(weight), out);
        }
        i += 1;
    }
    out.token(Token::EndArray);
}

// A list of a node, first edge first.
fn stream_list<W: Write, Ix: IndexType, S: ReadStore<Ix>>(
    store: &S,
    n: NodeIndex<Ix>,
    dir: Direction,
    out: &mut TextWriter<'_, W>,
)
    ensures { Writes W.contents out.old out.new
        (AreTokensOf (wholes (list_at dir (S.graph store.now) (Ix.number n)))) }
{
    store.invariant();
    let end = EdgeIndex::<Ix>::end().index();
    out.begin_array();
    let mut e = store.first_edge(n, dir);
    'edges: while e.index() != end {
        out.whole(e.index());
        e = store.next_edge(e, dir);
    }
    out.token(Token::EndArray);
}

// The lists of a node.
fn stream_row<W: Write, Ix: IndexType, S: ReadStore<Ix>>(
    store: &S,
    n: NodeIndex<Ix>,
    out: &mut TextWriter<'_, W>,
)
    ensures { Writes W.contents out.old out.new
        (AreTokensOf (row_of (S.graph store.now) (Ix.number n))) }
{
    out.begin_array();
    stream_list(store, n, Direction::Outgoing, out);
    stream_list(store, n, Direction::Incoming, out);
    out.token(Token::EndArray);
}

// Prefetches the lists in direction `dir` of the nodes from `from` up to `to`. Always returns true.
fn touch_side<Ix: IndexType, S: ReadStore<Ix>>(
    store: &S,
    from: usize,
    to: usize,
    dir: Direction,
) -> bool
    requires { to ≤ Ix.greatest }
    ensures { IsTrue result }
{
    let mut cursors = [store.edge_slots(); AHEAD];
    for i in from..to {
        if let Some(cursor) = cursors.get_mut(i - from) {
            *cursor = store.first_edge(NodeIndex::new(i), dir).index();
        }
    }
    touch_lists(store, dir, &mut cursors)
}

// Prefetches both lists of the nodes from `from` up to `to`. Always returns true.
fn touch_nodes<Ix: IndexType, S: ReadStore<Ix>>(store: &S, from: usize, to: usize) -> bool
    requires { to ≤ Ix.greatest }
    ensures { IsTrue result }
{
    touch_side(store, from, to, Direction::Outgoing)
        && touch_side(store, from, to, Direction::Incoming)
}

// The lists of the nodes, by ascending index.
fn stream_orders<W: Write, Ix: IndexType, S: ReadStore<Ix>>(store: &S, out: &mut TextWriter<'_, W>)
    ensures { Writes W.contents out.old out.new (AreTokensOf
        (listed (map (row_of (S.graph store.now)) (node_identifiers (S.graph store.now))))) }
{
    let bound = store.node_bound();
    let is_large = store.edge_slots() >= PREFETCH_FROM;
    out.begin_array();
    let mut i = 0;
    'nodes: while i < bound {
        // Never taken: this is a prefetch.
        if is_large
            && i % AHEAD == 0
            && !touch_nodes(store, i, bound.min(i.saturating_add(AHEAD)))
        {
            return;
        }
        let n = NodeIndex::new(i);
        if store.contains_node(n) {
            stream_row(store, n, out);
        }
        i += 1;
    }
    out.token(Token::EndArray);
}

// The members of a document before `orders`.
fn stream_parts<
    W: Write,
    Ix: IndexType,
    S: ReadStore<Ix>,
    F: Fn(&S::NodeWeight) -> Result<Value, AllocError>,
    G: Fn(&S::EdgeWeight) -> Result<Value, AllocError>,
>(store: &S, fn_node: &F, fn_edge: &G, out: &mut TextWriter<'_, W>)
    requires nodes { F.IsAlwaysCallable fn_node.now }
    requires edges { G.IsAlwaysCallable fn_edge.now }
    ensures { Writes W.contents out.old out.new (AreTokensOfParts
        (Encodes (WritesAs F.Fn fn_node.now) (HasFailed out.new))
        (Encodes (WritesAs G.Fn fn_edge.now) (HasFailed out.new))
        (S.graph store.now)) }
{
    out.token(Token::BeginObject);
    out.token(Token::Key("edge_property"));
    out.token(Token::String("directed"));
    out.token(Token::Key("edges"));
    stream_entries(store, fn_edge, out);
    out.token(Token::Key("node_holes"));
    stream_holes(store, out);
    out.token(Token::Key("nodes"));
    stream_weights(store, fn_node, out);
}

/// Writes the document of the graph of a store.
pub(crate) fn stream_document<
    W: Write,
    Ix: IndexType,
    S: ReadStore<Ix>,
    F: Fn(&S::NodeWeight) -> Result<Value, AllocError>,
    G: Fn(&S::EdgeWeight) -> Result<Value, AllocError>,
>(store: &S, fn_node: &F, fn_edge: &G, out: &mut TextWriter<'_, W>)
    requires nodes { F.IsAlwaysCallable fn_node.now }
    requires edges { G.IsAlwaysCallable fn_edge.now }
    ensures { Writes W.contents out.old out.new (AreTokensOfA (IsDocumentOf
        (Encodes (WritesAs F.Fn fn_node.now) (HasFailed out.new))
        (Encodes (WritesAs G.Fn fn_edge.now) (HasFailed out.new))
        (S.graph store.now))) }
{
    stream_parts(store, fn_node, fn_edge, out);
    out.token(Token::Key("orders"));
    stream_orders(store, out);
    out.token(Token::EndObject);
}

// The document without `orders`.
fn stream_without_orders<
    W: Write,
    Ix: IndexType,
    S: ReadStore<Ix>,
    F: Fn(&S::NodeWeight) -> Result<Value, AllocError>,
    G: Fn(&S::EdgeWeight) -> Result<Value, AllocError>,
>(store: &S, fn_node: &F, fn_edge: &G, out: &mut TextWriter<'_, W>)
    requires nodes { F.IsAlwaysCallable fn_node.now }
    requires edges { G.IsAlwaysCallable fn_edge.now }
    ensures { Writes W.contents out.old out.new (AreTokensOfA (IsDocumentWithoutOrders
        (Encodes (WritesAs F.Fn fn_node.now) (HasFailed out.new))
        (Encodes (WritesAs G.Fn fn_edge.now) (HasFailed out.new))
        (S.graph store.now))) }
{
    stream_parts(store, fn_node, fn_edge, out);
    out.token(Token::EndObject);
}

/// Writes the short document of the graph of a store.
pub(crate) fn stream_short_document<
    W: Write,
    Ix: IndexType,
    S: ReadStore<Ix>,
    F: Fn(&S::NodeWeight) -> Result<Value, AllocError>,
    G: Fn(&S::EdgeWeight) -> Result<Value, AllocError>,
>(store: &S, fn_node: &F, fn_edge: &G, out: &mut TextWriter<'_, W>)
    requires nodes { F.IsAlwaysCallable fn_node.now }
    requires edges { G.IsAlwaysCallable fn_edge.now }
    ensures { Writes W.contents out.old out.new (AreTokensOfA (IsShortDocumentOf
        (Encodes (WritesAs F.Fn fn_node.now) (HasFailed out.new))
        (Encodes (WritesAs G.Fn fn_edge.now) (HasFailed out.new))
        (S.graph store.now))) }
{
    if lists_descend(store) {
        stream_without_orders(store, fn_node, fn_edge, out);
    } else {
        stream_document(store, fn_node, fn_edge, out);
    }
}
