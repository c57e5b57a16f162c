//! A caller that writes a graph of `String` weights as tables and reads them.
ghost use Rattle.std.specs.Prelude.{◌≡◌, IfOk, map, string_bytes};
ghost use Rattle.daggy_base.specs.Graph.{IsCompact};
ghost use Rattle.daggy_tables.specs.Reading.{occupied, with_text};

use daggy_base::store::Store;
use daggy_formats::{edge_table, node_table};
use daggy_tables::{TableError, graph_from_tables, tables_are_read_back};
use std::alloc::{AllocError, Global};

/// Writes a graph without vacant slots as tables and reads them: the result has the same endpoints
/// and the same texts. Fails only if an allocation fails: no row is at fault.
pub fn copied_by_tables<S: Store<u32, NodeWeight = String, EdgeWeight = String>>(
    alloc: Global,
    graph: &S,
) -> Result<S, AllocError>
    requires { IsCompact (S.graph graph.now) }
    ensures nodes { IfOk result (λ s. map string_bytes (occupied (S.graph s).nodes)
        ≡ map string_bytes (occupied (S.graph graph.now).nodes)) }
    ensures edges { IfOk result (λ s. map with_text (occupied (S.graph s).edges)
        ≡ map with_text (occupied (S.graph graph.now).edges)) }
{
    graph.invariant();
    let node_text = String::format(alloc, node_table(graph))?;
    let edge_text = String::format(alloc, edge_table(graph))?;
    let nodes = node_text.as_str().as_bytes();
    let edges = edge_text.as_str().as_bytes();
    tables_are_read_back(graph, nodes, edges);
    match graph_from_tables(alloc, nodes, edges) {
        Ok(copy) => Ok(copy),
        Err(TableError::Memory) => Err(AllocError),
        Err(TableError::Nodes(_)) => unreachable!(),
        Err(TableError::Edges(_)) => unreachable!(),
    }
}
