//! The slots and the orders of a document, before a dag is made from them.
ghost use Rattle.std.specs.Prelude.{◌≡◌, ◌≤◌, ◌⊎◌, [], IfSome, Result, Ok, Err, map, length};
ghost use Rattle.std.specs.Prelude.{vec_len, IfOk, IfErr};
ghost use Rattle.std.specs.Option.{option_map};
ghost use Rattle.serde_json.specs.View.{view};
ghost use Rattle.daggy_base.specs.Graph.{Graph};
ghost use Rattle.daggy_base.specs.FromSlots.{graph_of_slots, edges_by};
ghost use Rattle.daggy_base.specs.Orders.{AreOrders, numbers_of};
ghost use Rattle.daggy_base.specs.declared.kind.Kind.TheVariants.{Compact};
ghost use Rattle.daggy_json.specs.Document.{vacant_from};
ghost use Rattle.daggy_json.specs.Reading.{IsOrdered, IsGraphRead, IsRead, IsTested};
ghost use Rattle.daggy_json.specs.Found.{ordered, orders_by, EndsExist, parts_of, AreNodesRead};
ghost use Rattle.daggy_json.specs.FoundFault.{IsNodesFault, AreWrongOrders};
ghost use Rattle.daggy_json.specs.Fault.{IsFaultAt};
ghost use Rattle.daggy_json.specs.Weight.{ReadsAs};
ghost use Rattle.daggy_json.specs.declared.error.ReadError.TheVariants.{Memory};
ghost use Rattle.daggy_json.specs.declared.error.ReadError.{ReadError};

use crate::fault::Fault;
use crate::reading::entries::read_entries;
use crate::reading::layout::check_layout;
use crate::reading::orders::{Row, read_rows};
use crate::reading::parts::{Parts, read_parts};
use crate::reading::rearranged::{Slot, are_orders};
use crate::reading::rows::wrong_orders;
use crate::reading::weights::{place_weights, read_weights};
use daggy_base::index::IndexType;
use daggy_base::kind::Kind;
use serde_json::Value;
use std::alloc::{AllocError, Global};

// The orders of the lists of the graph with these slots, if the document has any.
fn read_orders<N, E, Ix: IndexType>(
    alloc: Global,
    orders: Option<&Value>,
    nodes: &Vec<Option<N>>,
    edges: &Vec<Slot<E, Ix>>,
) -> Result<Option<Vec<Row<Ix>>>, Fault>
    requires ends { EndsExist nodes.now.items (edges_by Ix.number edges.now.items) }
    requires few { vec_len edges.now ≤ Ix.greatest }
    ensures ok { IfOk result
        (λ o. IsOrdered (graph_of_slots nodes.now.items (edges_by Ix.number edges.now.items))
        (option_map (λ d. view d.now) orders.entry)
        (Ok (ordered (graph_of_slots nodes.now.items (edges_by Ix.number edges.now.items))
        (orders_by Ix.number o)))) }
    ensures orders { IfOk result (λ o. IfSome o (λ v.
        AreOrders (graph_of_slots nodes.now.items (edges_by Ix.number edges.now.items))
        (map (numbers_of Ix.number) v.items))) }
    ensures err { IfErr result (λ f. (f.error ≡ Memory)
        ⊎ AreWrongOrders (graph_of_slots nodes.now.items (edges_by Ix.number edges.now.items))
        (option_map (λ d. view d.now) orders.entry) f) }
{
    let Some(value) = orders else {
        return Ok(None);
    };
    let Some(rows) = read_rows(alloc, value, edges.len())? else {
        return Err(wrong_orders(alloc, value, nodes, edges)?);
    };
    if !are_orders(alloc, nodes, edges, &rows)? {
        return Err(wrong_orders(alloc, value, nodes, edges)?);
    }
    Ok(Some(rows))
}

/// The slots of a valid document, and its orders if it has any. Not yet checked for cycles.
#[derive(Drop)]
pub struct Gathered<N, E, Ix> {
    /// The weight in each node slot.
    pub nodes: Vec<Option<N>>,
    /// The endpoints and the weight in each edge slot.
    pub edges: Vec<Slot<E, Ix>>,
    /// For each existing node, the edges that leave it and the edges that enter it, in order.
    pub orders: Option<Vec<Row<Ix>>>,
}

// The nodes of the document.
fn gather_nodes<N: Drop, Ix: IndexType, F: Fn(&Value) -> Result<Option<N>, AllocError>>(
    alloc: Global,
    parts: &Parts,
    kind: Kind,
    fn_node: &F,
) -> Result<Vec<Option<N>>, Fault>
    requires { F.IsAlwaysCallable fn_node.now }
    ensures ok { IfOk result (λ v. AreNodesRead Ix.greatest kind (ReadsAs F.Fn fn_node.now)
        (parts_of parts.now.nodes.now.items parts.now.holes.items parts.now.property.now
        parts.now.edges.now.items parts.now.orders) v.items) }
    ensures err { IfErr result
        (λ f. (f.error ≡ Memory) ⊎ IsNodesFault Ix.greatest kind (ReadsAs F.Fn fn_node.now)
        (parts_of parts.now.nodes.now.items parts.now.holes.items parts.now.property.now
        parts.now.edges.now.items parts.now.orders) f) }
{
    check_layout::<Ix>(kind, parts)?;
    let weights = read_weights(alloc, parts.nodes, fn_node)?;
    Ok(place_weights(alloc, weights, &parts.holes)?)
}

/// Reads the slots and the orders of a document, or returns its first fault and its place. Does not
/// check for cycles. Slots may be vacant in the stable kind.
pub fn gather<
    N: Drop,
    E: Drop,
    Ix: IndexType,
    F: Fn(&Value) -> Result<Option<N>, AllocError>,
    G: Fn(&Value) -> Result<Option<E>, AllocError>,
>(
    alloc: Global,
    value: &Value,
    kind: Kind,
    fn_node: &F,
    fn_edge: &G,
) -> Result<Gathered<N, E, Ix>, Fault>
    requires nodes { F.IsAlwaysCallable fn_node.now }
    requires edges { G.IsAlwaysCallable fn_edge.now }
    ensures ok { IfOk result (λ s. (r : Result (Graph N E) ReadError)
        → IsTested (ordered (graph_of_slots s.nodes.items (edges_by Ix.number s.edges.items))
        (orders_by Ix.number s.orders)) r
        → IsRead Ix.greatest kind (ReadsAs F.Fn fn_node.now) (ReadsAs G.Fn fn_edge.now)
        (view value.now) r) }
    ensures graph { IfOk result (λ s.
        IsGraphRead Ix.greatest kind (ReadsAs F.Fn fn_node.now) (ReadsAs G.Fn fn_edge.now)
        (view value.now) (Ok (ordered (graph_of_slots s.nodes.items (edges_by Ix.number s.edges.items))
        (orders_by Ix.number s.orders)))) }
    ensures few_nodes { IfOk result (λ s. length s.nodes.items ≤ Ix.greatest) }
    ensures few_edges { IfOk result (λ s. length s.edges.items ≤ Ix.greatest) }
    ensures ends { IfOk result (λ s. EndsExist s.nodes.items (edges_by Ix.number s.edges.items)) }
    ensures full_nodes { IfOk result (λ s. kind ≡ Compact → vacant_from 0 s.nodes.items ≡ []) }
    ensures full_edges { IfOk result (λ s. kind ≡ Compact → vacant_from 0 s.edges.items ≡ []) }
    ensures orders { IfOk result (λ s. IfSome s.orders (λ v.
        AreOrders (graph_of_slots s.nodes.items (edges_by Ix.number s.edges.items))
        (map (numbers_of Ix.number) v.items))) }
    ensures fault { IfErr result (λ f. (f.error ≡ Memory)
        ⊎ IsFaultAt {N = N} {E = E} Ix.greatest kind (ReadsAs F.Fn fn_node.now)
        (ReadsAs G.Fn fn_edge.now) (view value.now) f.error f.place.member f.place.entry) }
{
    let parts = read_parts(alloc, value)?;
    let nodes = gather_nodes::<N, Ix, F>(alloc, &parts, kind, fn_node)?;
    let edges = read_entries(alloc, parts.edges, kind, &nodes, fn_edge)?;
    let orders = read_orders(alloc, parts.orders, &nodes, &edges)?;
    Ok(Gathered {
        nodes,
        edges,
        orders,
    })
}
