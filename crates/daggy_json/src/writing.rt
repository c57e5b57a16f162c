//! The document of a graph, part by part.
ghost use Rattle.std.specs.Prelude.{◌≡◌, ◌<◌, ◌≤◌, [], ◌∷◌, map, take, length, IfOk};
ghost use Rattle.std.specs.List.{AllZip};
ghost use Rattle.serde_json.specs.View.{view};
ghost use Rattle.daggy_base.specs.Graph.{edge_at, edge_bound, list_at};
ghost use Rattle.daggy_base.specs.Iterating.{node_identifiers, node_weights};
ghost use Rattle.daggy_json.specs.Document.{whole, listed, document_of, holes_of, row_of};
ghost use Rattle.daggy_json.specs.Document.{IsEntry};
ghost use Rattle.daggy_json.specs.Document.{IsDocumentOf};
ghost use Rattle.daggy_json.specs.Weight.{WritesAs};

use daggy_base::index::{Direction, EdgeIndex, IndexType, NodeIndex};
use daggy_base::read_store::ReadStore;
use serde_json::{Value, json};
use std::alloc::{AllocError, Global};

// The encoded weights of the nodes, by ascending index.
fn write_weights<
    Ix: IndexType,
    S: ReadStore<Ix>,
    F: Fn(&S::NodeWeight) -> Result<Value, AllocError>,
>(alloc: Global, store: &S, fn_node: &F) -> Result<Vec<Value>, AllocError>
    requires { F.IsAlwaysCallable fn_node.now }
    ensures { IfOk result
        (λ v. AllZip (WritesAs F.Fn fn_node.now) (node_weights (S.graph store.now))
        (map view v.items)) }
{
    let bound = store.node_bound();
    let mut weights = Vec::new(alloc);
    let mut i = 0;
    'nodes: while i < bound {
        if let Some(weight) = store.node_weight(NodeIndex::new(i)) {
            weights.push(fn_node(weight)?)?;
        }
        i += 1;
    }
    Ok(weights)
}

// The indices of the vacant nodes below the bound, ascending.
fn write_holes<Ix: IndexType, S: ReadStore<Ix>>(
    alloc: Global,
    store: &S,
) -> Result<Vec<Value>, AllocError>
    ensures { IfOk result (λ v. map view v.items ≡ map whole (holes_of (S.graph store.now))) }
{
    let bound = store.node_bound();
    let mut holes = Vec::new(alloc);
    let mut i = 0;
    'nodes: while i < bound {
        if !store.contains_node(NodeIndex::new(i)) {
            holes.push(Value::from(i))?;
        }
        i += 1;
    }
    Ok(holes)
}

fn write_triple(
    alloc: Global,
    parent: usize,
    child: usize,
    weight: Value,
) -> Result<Value, AllocError>
    ensures { IfOk result (λ v. view v ≡ listed (whole parent ∷ whole child ∷ view weight ∷ [])) }
{
    let mut parts = Vec::new(alloc);
    parts.reserve(3)?;
    parts.push(Value::from(parent))?;
    parts.push(Value::from(child))?;
    parts.push(weight)?;
    Ok(Value::Array(parts))
}

// The entry of an edge slot.
fn write_entry<Ix: IndexType, S: ReadStore<Ix>, G: Fn(&S::EdgeWeight) -> Result<Value, AllocError>>(
    alloc: Global,
    store: &S,
    e: EdgeIndex<Ix>,
    fn_edge: &G,
) -> Result<Value, AllocError>
    requires { G.IsAlwaysCallable fn_edge.now }
    ensures { IfOk result
        (λ v. IsEntry (WritesAs G.Fn fn_edge.now) (edge_at (S.graph store.now) (Ix.number e))
        (view v)) }
{
    let Some(ends) = store.edge_endpoints(e) else {
        return Ok(Value::Null);
    };
    let Some(weight) = store.edge_weight(e) else {
        return Ok(Value::Null);
    };
    let value = fn_edge(weight)?;
    write_triple(alloc, ends.0.index(), ends.1.index(), value)
}

// The entries of the edge slots below the bound.
fn write_entries<
    Ix: IndexType,
    S: ReadStore<Ix>,
    G: Fn(&S::EdgeWeight) -> Result<Value, AllocError>,
>(alloc: Global, store: &S, fn_edge: &G) -> Result<Vec<Value>, AllocError>
    requires { G.IsAlwaysCallable fn_edge.now }
    ensures { IfOk result (λ v. AllZip (IsEntry (WritesAs G.Fn fn_edge.now))
        (take (edge_bound (S.graph store.now)) (S.graph store.now).edges) (map view v.items)) }
{
    let bound = store.edge_bound();
    store.invariant();
    let mut entries = Vec::new(alloc);
    entries.reserve(bound)?;
    let mut i = 0;
    'edges: while i < bound {
        entries.push(write_entry(alloc, store, EdgeIndex::new(i), fn_edge)?)?;
        i += 1;
    }
    Ok(entries)
}

// A list of a node, first edge first.
fn write_list<Ix: IndexType, S: ReadStore<Ix>>(
    alloc: Global,
    store: &S,
    n: NodeIndex<Ix>,
    dir: Direction,
) -> Result<Vec<Value>, AllocError>
    ensures { IfOk result (λ v.
        map view v.items ≡ map whole (list_at dir (S.graph store.now) (Ix.number n))) }
{
    store.invariant();
    let end = EdgeIndex::<Ix>::end().index();
    let mut list = Vec::new(alloc);
    let mut e = store.first_edge(n, dir);
    'edges: while e.index() != end {
        list.push(Value::from(e.index()))?;
        e = store.next_edge(e, dir);
    }
    Ok(list)
}

// The lists of a node.
fn write_row<Ix: IndexType, S: ReadStore<Ix>>(
    alloc: Global,
    store: &S,
    n: NodeIndex<Ix>,
) -> Result<Value, AllocError>
    ensures { IfOk result (λ v. view v ≡ row_of (S.graph store.now) (Ix.number n)) }
{
    let out_list = Value::Array(write_list(alloc, store, n, Direction::Outgoing)?);
    let in_list = Value::Array(write_list(alloc, store, n, Direction::Incoming)?);
    let mut row = Vec::new(alloc);
    row.reserve(2)?;
    row.push(out_list)?;
    row.push(in_list)?;
    Ok(Value::Array(row))
}

// The lists of the nodes, by ascending index.
fn write_orders<Ix: IndexType, S: ReadStore<Ix>>(
    alloc: Global,
    store: &S,
) -> Result<Vec<Value>, AllocError>
    ensures { IfOk result (λ v. map view v.items
        ≡ map (row_of (S.graph store.now)) (node_identifiers (S.graph store.now))) }
{
    let bound = store.node_bound();
    let mut rows = Vec::new(alloc);
    let mut i = 0;
    'nodes: while i < bound {
        let n = NodeIndex::new(i);
        if store.contains_node(n) {
            rows.push(write_row(alloc, store, n)?)?;
        }
        i += 1;
    }
    Ok(rows)
}

// The object of the parts.
fn assemble(
    alloc: Global,
    entries: Vec<Value>,
    holes: Vec<Value>,
    weights: Vec<Value>,
    orders: Vec<Value>,
) -> Result<Value, AllocError>
    ensures { IfOk result (λ v. view v ≡ document_of (map view entries.items) (map view holes.items)
        (map view weights.items) (map view orders.items)) }
{
    json!(in alloc; {
        "edge_property": "directed",
        "edges": entries,
        "node_holes": holes,
        "nodes": weights,
        "orders": orders
    })
}

/// The document of the graph of a store.
///
/// # Errors
///
/// Returns `Memory` if an allocation fails.
///
/// # Complexity
///
/// O(nodes + edges), plus the calls.
pub fn write_document<
    Ix: IndexType,
    S: ReadStore<Ix>,
    F: Fn(&S::NodeWeight) -> Result<Value, AllocError>,
    G: Fn(&S::EdgeWeight) -> Result<Value, AllocError>,
>(alloc: Global, store: &S, fn_node: &F, fn_edge: &G) -> Result<Value, AllocError>
    requires nodes { F.IsAlwaysCallable fn_node.now }
    requires edges { G.IsAlwaysCallable fn_edge.now }
    ensures { IfOk result (λ v.
        IsDocumentOf (WritesAs F.Fn fn_node.now) (WritesAs G.Fn fn_edge.now) (S.graph store.now)
        (view v)) }
{
    let entries = write_entries(alloc, store, fn_edge)?;
    let holes = write_holes(alloc, store)?;
    let weights = write_weights(alloc, store, fn_node)?;
    let orders = write_orders(alloc, store)?;
    assemble(alloc, entries, holes, weights, orders)
}
