//! Building the graph or the dag of a valid document.
ghost use Rattle.std.specs.Prelude.{◌≡◌, ◌≤◌, ◌⊎◌, [], Ok, Err, map, length, IfOk, IfErr};
ghost use Rattle.std.specs.Prelude.{IfSome};
ghost use Rattle.std.specs.Option.{option_map};
ghost use Rattle.serde_json.specs.View.{view};
ghost use Rattle.daggy_base.specs.FromSlots.{graph_of_slots, edges_by};
ghost use Rattle.daggy_base.specs.Orders.{AreOrders, numbers_of};
ghost use Rattle.daggy_base.specs.declared.kind.Kind.TheVariants.{Compact};
ghost use Rattle.daggy_json.specs.Document.{vacant_from};
ghost use Rattle.daggy_json.specs.Reading.{IsGraphRead, IsRead, IsTested};
ghost use Rattle.daggy_json.specs.Found.{ordered, orders_by, EndsExist};
ghost use Rattle.daggy_json.specs.Weight.{ReadsAs};
ghost use Rattle.daggy_json.specs.declared.error.ReadError.TheVariants.{Memory};

use crate::error::ReadError;
use crate::reading::gathering::{Gathered, gather};
use daggy_base::error::SlotsError;
use daggy_base::index::IndexType;
use daggy_base::store::Store;
use daggy_dag::acyclic::Acyclic;
use serde_json::Value;
use std::alloc::{AllocError, Global};

// The dag of what was gathered.
fn make<N: Drop, E: Drop, Ix: IndexType, S: Store<Ix, NodeWeight = N, EdgeWeight = E>>(
    alloc: Global,
    found: Gathered<N, E, Ix>,
) -> Result<Acyclic<N, E, Ix, S>, ReadError>
    requires few_nodes { length found.nodes.items ≤ Ix.greatest }
    requires few_edges { length found.edges.items ≤ Ix.greatest }
    requires ends { EndsExist found.nodes.items (edges_by Ix.number found.edges.items) }
    requires full_nodes { S.KIND ≡ Compact → vacant_from 0 found.nodes.items ≡ [] }
    requires full_edges { S.KIND ≡ Compact → vacant_from 0 found.edges.items ≡ [] }
    requires orders { IfSome found.orders (λ v.
        AreOrders (graph_of_slots found.nodes.items (edges_by Ix.number found.edges.items))
        (map (numbers_of Ix.number) v.items)) }
    ensures ok { IfOk result (λ d.
        IsTested (ordered (graph_of_slots found.nodes.items (edges_by Ix.number found.edges.items))
        (orders_by Ix.number found.orders)) (Ok d.graph)) }
    ensures err { IfErr result (λ e. (e ≡ Memory)
        ⊎ IsTested
        (ordered (graph_of_slots found.nodes.items (edges_by Ix.number found.edges.items))
        (orders_by Ix.number found.orders)) (Err e)) }
{
    let Gathered {
        nodes,
        edges,
        orders,
    } = found;
    let mut dag = match Acyclic::from_slots(alloc, nodes, edges) {
        Ok(dag) => dag,
        Err(SlotsError::Cycle) => return Err(ReadError::Cycle),
        Err(SlotsError::Memory) => return Err(ReadError::Memory),
    };
    let Some(rows) = orders else {
        return Ok(dag);
    };
    dag.set_orders(rows.as_slice());
    Ok(dag)
}

// The graph of what was gathered.
fn make_graph<N: Drop, E: Drop, Ix: IndexType, S: Store<Ix, NodeWeight = N, EdgeWeight = E>>(
    alloc: Global,
    found: Gathered<N, E, Ix>,
) -> Result<S, AllocError>
    requires few_nodes { length found.nodes.items ≤ Ix.greatest }
    requires few_edges { length found.edges.items ≤ Ix.greatest }
    requires ends { EndsExist found.nodes.items (edges_by Ix.number found.edges.items) }
    requires full_nodes { S.KIND ≡ Compact → vacant_from 0 found.nodes.items ≡ [] }
    requires full_edges { S.KIND ≡ Compact → vacant_from 0 found.edges.items ≡ [] }
    requires orders { IfSome found.orders (λ v.
        AreOrders (graph_of_slots found.nodes.items (edges_by Ix.number found.edges.items))
        (map (numbers_of Ix.number) v.items)) }
    ensures ok { IfOk result (λ s.
        S.graph s ≡ ordered (graph_of_slots found.nodes.items (edges_by Ix.number found.edges.items))
        (orders_by Ix.number found.orders)) }
{
    let Gathered {
        nodes,
        edges,
        orders,
    } = found;
    let mut graph = S::from_slots(alloc, nodes, edges)?;
    let Some(rows) = orders else {
        return Ok(graph);
    };
    graph.set_orders(rows.as_slice());
    Ok(graph)
}

// The graph that the value is read as.
pub(crate) fn read_graph<
    N: Drop,
    E: Drop,
    Ix: IndexType,
    S: Store<Ix, NodeWeight = N, EdgeWeight = E>,
    F: Fn(&Value) -> Result<Option<N>, AllocError>,
    G: Fn(&Value) -> Result<Option<E>, AllocError>,
>(alloc: Global, value: &Value, fn_node: &F, fn_edge: &G) -> Result<S, ReadError>
    requires nodes { F.IsAlwaysCallable fn_node.now }
    requires edges { G.IsAlwaysCallable fn_edge.now }
    ensures ok { IfOk result (λ s.
        IsGraphRead Ix.greatest S.KIND (ReadsAs F.Fn fn_node.now) (ReadsAs G.Fn fn_edge.now)
        (view value.now) (Ok (S.graph s))) }
    ensures err { IfErr result
        (λ e. (e ≡ Memory) ⊎ IsGraphRead {N = N} {E = E} Ix.greatest S.KIND
        (ReadsAs F.Fn fn_node.now) (ReadsAs G.Fn fn_edge.now) (view value.now) (Err e)) }
{
    match gather(alloc, value, S::KIND, fn_node, fn_edge) {
        Ok(found) => Ok(make_graph(alloc, found)?),
        Err(fault) => Err(fault.error),
    }
}

// The dag that the value is read as.
pub(crate) fn read<
    N: Drop,
    E: Drop,
    Ix: IndexType,
    S: Store<Ix, NodeWeight = N, EdgeWeight = E>,
    F: Fn(&Value) -> Result<Option<N>, AllocError>,
    G: Fn(&Value) -> Result<Option<E>, AllocError>,
>(alloc: Global, value: &Value, fn_node: &F, fn_edge: &G) -> Result<Acyclic<N, E, Ix, S>, ReadError>
    requires nodes { F.IsAlwaysCallable fn_node.now }
    requires edges { G.IsAlwaysCallable fn_edge.now }
    ensures ok { IfOk result (λ d.
        IsRead Ix.greatest S.KIND (ReadsAs F.Fn fn_node.now) (ReadsAs G.Fn fn_edge.now)
        (view value.now) (Ok d.graph)) }
    ensures err { IfErr result
        (λ e. (e ≡ Memory) ⊎ IsRead {N = N} {E = E} Ix.greatest S.KIND (ReadsAs F.Fn fn_node.now)
        (ReadsAs G.Fn fn_edge.now) (view value.now) (Err e)) }
{
    let found = match gather(alloc, value, S::KIND, fn_node, fn_edge) {
        Ok(found) => found,
        Err(fault) => return Err(fault.error),
    };
    make(alloc, found)
}
