//! Graphs from tables.
ghost use Rattle.std.specs.Prelude.{◌≡◌, ◌<◌, Ok, Some, IfOk, IfErr, IfSome, length, map, replicate};
ghost use Rattle.std.specs.Prelude.{string_bytes};
ghost use Rattle.daggy_base.specs.Graph.{IsCompact};
ghost use Rattle.std.specs.Option.{option_map};
ghost use Rattle.daggy_base.specs.FromSlots.{graph_of_slots, edge_of, edges_by};
ghost use Rattle.daggy_tables.specs.Reading.{occupied, with_text, EndsBelow};
ghost use Rattle.daggy_tables.specs.Reading.{Explains, ExplainsEdges};
ghost use Rattle.daggy_tables.specs.Stops.{error_of_nodes, error_of_edges};
ghost use Rattle.daggy_tables.specs.Tables.{rows_of, nodes_said, edges_said};
ghost use Rattle.daggy_tables.specs.Tables.{ends_bound, bound_after};
ghost use Rattle.daggy_tables.specs.declared.error.RowFault.TheVariants.{NoSuchNode, Full};

use crate::edges::{EdgeSlot, read_edges};
use crate::error::{RowFault, TableError};
use crate::nodes::read_nodes;
use crate::rows::Stop;
use daggy_base::index::{IndexType, NodeIndex};
use daggy_base::store::Store;
use std::alloc::{AllocError, Global};

// The error of the table of nodes.
fn nodes_error(stop: Stop) -> TableError
    ensures { result ≡ error_of_nodes stop }
{
    match stop {
        Stop::Memory => TableError::Memory,
        Stop::Row(error) => TableError::Nodes(error),
    }
}

// The error of the table of edges.
fn edges_error(stop: Stop) -> TableError
    ensures { result ≡ error_of_edges stop }
{
    match stop {
        Stop::Memory => TableError::Memory,
        Stop::Row(error) => TableError::Edges(error),
    }
}

/// Reads a graph from the table of its nodes and the table of its edges, as
/// [`node_table`](daggy_formats::node_table) and [`edge_table`](daggy_formats::edge_table) write
/// them. The graph may have cycles.
///
/// The tables are comma-separated values with the headers `node,weight` and `parent,child,weight`.
/// The rows of the nodes are numbered from 0 in their order; edge 0 is the first row of the edges,
/// edge 1 the second, and so on. Weights are texts. Lines may end as in Unix or in Windows, blank
/// lines are skipped, and any field may be quoted.
///
/// Each list of the graph is in descending index order.
///
/// # Errors
///
/// Returns the first row of the nodes that is at fault, or else the first row of the edges, or
/// `Memory` if an allocation fails.
///
/// # Complexity
///
/// O(length of both texts).
///
/// # Examples
///
/// ```
/// let graph: DiGraph<String, String> = graph_from_tables(
///     rt.alloc(),
///     b"node,weight\n0,sow\n1,reap\n",
///     b"parent,child,weight\n0,1,90\n",
/// )?;
/// let sow = NodeIndex::new(0);
/// assert!(rt; graph.node_weight(sow).is_some_and(|weight| weight.as_str() == "sow"));
/// assert!(rt; graph.contains_edge(sow, NodeIndex::new(1)));
/// // A dag, if there is no cycle.
/// let dag = Dag::try_from_graph(rt.alloc(), graph).ok();
/// assert!(rt; dag.is_some());
/// ```
pub fn graph_from_tables<Ix: IndexType, S>(
    alloc: Global,
    nodes: &[u8],
    edges: &[u8],
) -> Result<S, TableError>
where
    S: Store<Ix, NodeWeight = String, EdgeWeight = String>,
    ensures nodes { IfOk result (λ s. nodes_said Ix.greatest (rows_of nodes.now)
        ≡ Ok (map string_bytes (occupied (S.graph s).nodes))) }
    ensures edges { IfOk result (λ s.
        edges_said Ix.greatest (length (S.graph s).nodes) NoSuchNode (rows_of edges.now)
        ≡ Ok (map with_text (occupied (S.graph s).edges))) }
    ensures no_vacant_slot { IfOk result (λ s. IsCompact (S.graph s)) }
    ensures lists { IfOk result (λ s.
        S.graph s ≡ graph_of_slots (S.graph s).nodes (S.graph s).edges) }
    ensures looks { IfOk result (λ s. S.looks s ≡ 0) }
    ensures fault { IfErr result
        (λ e. Explains Ix.greatest (rows_of nodes.now) (rows_of edges.now) e) }
{
    let slots = match read_nodes::<Ix>(alloc, nodes) {
        Ok(slots) => slots,
        Err(stop) => return Err(nodes_error(stop)),
    };
    let edge_slots = match read_edges::<Ix>(alloc, edges, slots.len(), RowFault::NoSuchNode) {
        Ok(edge_slots) => edge_slots,
        Err(stop) => return Err(edges_error(stop)),
    };
    match S::from_slots(alloc, slots, edge_slots) {
        Ok(graph) => Ok(graph),
        Err(_) => Err(TableError::Memory),
    }
}

// The bound that an edge needs besides.
fn bound_with<Ix: IndexType>(bound: usize, edge: &EdgeSlot<Ix>) -> usize
    requires { IfSome edge.now
        (λ x. (Ix.number x.0 < Ix.greatest) × (Ix.number x.1 < Ix.greatest)) }
    ensures { result ≡ bound_after bound (option_map (edge_of Ix.number) edge.now) }
{
    match edge {
        Some(edge) => {
            let (parent, child) = (edge.0.index(), edge.1.index());
            bound.max(parent + 1).max(child + 1)
        }
        None => bound,
    }
}

// One more than the greatest endpoint, or 0 if there is no edge.
fn node_bound<Ix: IndexType>(edges: &[EdgeSlot<Ix>]) -> usize
    requires { EndsBelow Ix.greatest (edges_by Ix.number edges.now) }
    ensures { result ≡ ends_bound (map with_text (occupied (edges_by Ix.number edges.now))) }
{
    let mut bound = 0;
    'edges: for edge in edges {
        bound = bound_with(bound, edge);
    }
    bound
}

// Slots for nodes without weights, all occupied.
fn occupied_slots(alloc: Global, count: usize) -> Result<Vec<Option<()>>, AllocError>
    ensures { IfOk result (λ slots. slots.items ≡ replicate count (Some tt)) }
{
    let mut slots = Vec::with_capacity(alloc, count)?;
    slots.resize(count, Some(()))?;
    Ok(slots)
}

/// Reads a graph from the table of its edges alone, as
/// [`edge_table`](daggy_formats::edge_table) writes it. The graph may have cycles. It has as many
/// nodes as the greatest endpoint requires, without weights.
///
/// The table is comma-separated values with the header `parent,child,weight`. Edge 0 is the first
/// row, edge 1 the second, and so on. Weights are texts. Lines may end as in Unix or in Windows,
/// blank lines are skipped, and any field may be quoted.
///
/// Each list of the graph is in descending index order.
///
/// # Errors
///
/// Returns the first row that is at fault, or `Memory` if an allocation fails. A row whose parent or
/// child is not an index of the index type is at fault as `Full`.
///
/// # Complexity
///
/// O(length of the text + nodes).
///
/// # Examples
///
/// ```
/// let graph: DiGraph<(), String> =
///     graph_from_edge_table(rt.alloc(), b"parent,child,weight\n0,2,90\n")?;
/// assert!(rt; graph.node_count() == 3);
/// assert!(rt; graph.contains_edge(NodeIndex::new(0), NodeIndex::new(2)));
/// ```
pub fn graph_from_edge_table<Ix: IndexType, S>(alloc: Global, edges: &[u8]) -> Result<S, TableError>
where
    S: Store<Ix, NodeWeight = (), EdgeWeight = String>,
    ensures edges { IfOk result (λ s.
        edges_said Ix.greatest Ix.greatest Full (rows_of edges.now)
        ≡ Ok (map with_text (occupied (S.graph s).edges))) }
    ensures nodes { IfOk result (λ s. (S.graph s).nodes
        ≡ replicate (ends_bound (map with_text (occupied (S.graph s).edges))) (Some tt)) }
    ensures no_vacant_slot { IfOk result (λ s. IsCompact (S.graph s)) }
    ensures lists { IfOk result (λ s.
        S.graph s ≡ graph_of_slots (S.graph s).nodes (S.graph s).edges) }
    ensures looks { IfOk result (λ s. S.looks s ≡ 0) }
    ensures fault { IfErr result
        (λ e. ExplainsEdges Ix.greatest (rows_of edges.now) e) }
{
    let end: NodeIndex<Ix> = NodeIndex::end();
    let edge_slots = match read_edges::<Ix>(alloc, edges, end.index(), RowFault::Full) {
        Ok(edge_slots) => edge_slots,
        Err(stop) => return Err(edges_error(stop)),
    };
    let bound = node_bound(edge_slots.as_slice());
    let Ok(slots) = occupied_slots(alloc, bound) else {
        return Err(TableError::Memory);
    };
    match S::from_slots(alloc, slots, edge_slots) {
        Ok(graph) => Ok(graph),
        Err(_) => Err(TableError::Memory),
    }
}
