//! A law of tables that are written and read.
ghost use Rattle.std.specs.Prelude.{◌≡◌, Ok, length, map};
ghost use Rattle.daggy_base.specs.Graph.{IsCompact};
ghost use Rattle.daggy_tables.specs.ReadBack.{DisplayText, IsNodeTable, IsEdgeTable};
ghost use Rattle.daggy_tables.specs.ReadBack.{shown, with_shown};
ghost use Rattle.daggy_tables.specs.Reading.{occupied};
ghost use Rattle.daggy_tables.specs.Tables.{rows_of, nodes_said, edges_said};
ghost use Rattle.daggy_tables.specs.declared.error.RowFault.TheVariants.{NoSuchNode};

use daggy_base::index::{IndexType, NodeIndex};
use daggy_base::read_store::ReadStore;
use std::fmt::Display;

/// If `nodes` and `edges` are what [`node_table`](daggy_formats::node_table) and
/// [`edge_table`](daggy_formats::edge_table) write of a graph without vacant slots, their rows say
/// the nodes and the edges of that graph, with the texts that the weights display. So
/// [`graph_from_tables`](crate::graph_from_tables) finds no fault in them.
///
/// A law is a function that does nothing at run time. Call it with the texts before they are read;
/// its postcondition then holds in the caller's proof.
///
/// # Examples
///
/// ```
/// let mut graph: DiGraph<&'static str, u32> = DiGraph::new(rt.alloc());
/// let sow = graph.add_node("sow")?;
/// graph.add_edge(sow, sow, 90)?;
/// let nodes = format!(in rt.alloc(); "{}", node_table(&graph))?;
/// let edges = format!(in rt.alloc(); "{}", edge_table(&graph))?;
/// let (nodes, edges) = (nodes.as_str().as_bytes(), edges.as_str().as_bytes());
/// tables_are_read_back(&graph, nodes, edges);
/// let copy: DiGraph<String, String> = graph_from_tables(rt.alloc(), nodes, edges)?;
/// assert!(rt; copy.contains_edge(sow, sow));
/// ```
pub fn tables_are_read_back<N: Display, E: Display, Ix: IndexType, S>(
    graph: &S,
    nodes: &[u8],
    edges: &[u8],
)
where
    S: ReadStore<Ix, NodeWeight = N, EdgeWeight = E>,
    ensures nodes { let g = S.graph graph.now in
        IsCompact g → DisplayText N.output E.output g
        → IsNodeTable N.output E.output g nodes.now
        → nodes_said Ix.greatest (rows_of nodes.now)
        ≡ Ok (map (shown N.output) (occupied g.nodes)) }
    ensures edges { let g = S.graph graph.now in
        IsCompact g → DisplayText N.output E.output g
        → IsEdgeTable N.output E.output g edges.now
        → edges_said Ix.greatest (length g.nodes) NoSuchNode (rows_of edges.now)
        ≡ Ok (map (with_shown E.output) (occupied g.edges)) }
{
    graph.invariant();
    let end: NodeIndex<Ix> = NodeIndex::end();
    let _ = end.index();
}
