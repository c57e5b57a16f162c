//! Graphs from tables, of either store.
use crate::support::{holds, made, node, same};
use daggy_base::index::{EdgeIndex, IndexType, NodeIndex};
use daggy_base::read_store::ReadStore;
use daggy_base::store::Store;
use daggy_formats::{edge_table, node_table};
use daggy_graph::graph::DiGraph;
use daggy_stable::stable_graph::StableDiGraph;
use daggy_tables::{
    RowError, RowFault, TableError, graph_from_edge_table, graph_from_tables, tables_are_read_back,
};
use std::alloc::Global;
use std::process::Abort;

type Compact = DiGraph<String, String, u8>;

type Stable = StableDiGraph<String, String, u8>;

type Plain = DiGraph<(), String, u8>;

type PlainStable = StableDiGraph<(), String, u8>;

// The endpoints and the weight of each edge, in a line.
fn has_edges<N: Drop, S: ReadStore<u8, NodeWeight = N, EdgeWeight = String>>(
    rt: &impl Abort,
    graph: &S,
    wanted: &[(usize, usize, &str)],
) {
    same(rt, graph.edge_slots(), wanted.len());
    for i in 0..wanted.len() {
        holds(rt, i < 255);
        let e = EdgeIndex::new(i);
        let (a, b, weight) = wanted[i];
        let ends = graph
            .edge_endpoints(e)
            .map(|ends| (ends.0.index(), ends.1.index()));
        same(rt, ends, Some((a, b)));
        let found = graph.edge_weight(e);
        holds(rt, found.is_some_and(|text| text.as_str() == weight));
    }
}

fn has_nodes<E: Drop, S: ReadStore<u8, NodeWeight = String, EdgeWeight = E>>(
    rt: &impl Abort,
    graph: &S,
    wanted: &[&str],
) {
    same(rt, graph.node_slots(), wanted.len());
    for i in 0..wanted.len() {
        let found = graph.node_weight(node(rt, i));
        let weight = wanted[i];
        holds(rt, found.is_some_and(|text| text.as_str() == weight));
    }
}

fn tables_are_read<S: Store<u8, NodeWeight = String, EdgeWeight = String>>(
    rt: &impl Abort,
    alloc: Global,
) {
    // As Python's csv writes them, with either end of line.
    let nodes =
        "node,weight\r\n0,\"to \"\"sow\"\"\"\r\n1,\"a, b\"\r\n2,\"#1\n2\"\r\n3,\"9\r0\"\r\n4,\r\n\
                 5, 7 \r\n6,é €\r\n";
    let edges = "parent,child,weight\n0,1,\"to \"\"sow\"\"\"\n1,4,\"a, b\"\n2,0,\"#1\n2\"\n4,6,\n";
    let graph: S = made(
        rt,
        graph_from_tables(alloc, nodes.as_bytes(), edges.as_bytes()),
    );
    has_nodes(
        rt,
        &graph,
        &["to \"sow\"", "a, b", "#1\n2", "9\r0", "", " 7 ", "é €"],
    );
    has_edges(
        rt,
        &graph,
        &[
            (0, 1, "to \"sow\""),
            (1, 4, "a, b"),
            (2, 0, "#1\n2"),
            (4, 6, ""),
        ],
    );
    // What a graph is written as is read as that graph.
    let node_text = made(rt, format!(in alloc; "{}", node_table(&graph)));
    let edge_text = made(rt, format!(in alloc; "{}", edge_table(&graph)));
    let node_bytes = node_text.as_str().as_bytes();
    let edge_bytes = edge_text.as_str().as_bytes();
    tables_are_read_back(&graph, node_bytes, edge_bytes);
    let again: S = made(rt, graph_from_tables(alloc, node_bytes, edge_bytes));
    has_nodes(
        rt,
        &again,
        &["to \"sow\"", "a, b", "#1\n2", "9\r0", "", " 7 ", "é €"],
    );
    has_edges(
        rt,
        &again,
        &[
            (0, 1, "to \"sow\""),
            (1, 4, "a, b"),
            (2, 0, "#1\n2"),
            (4, 6, ""),
        ],
    );
}

fn edges_are_read<S: Store<u8, NodeWeight = (), EdgeWeight = String>>(
    rt: &impl Abort,
    alloc: Global,
) {
    let text = b"parent,child,weight\n3,0,x\n+1,003,y";
    let graph: S = made(rt, graph_from_edge_table(alloc, text));
    same(rt, graph.node_count(), 4);
    has_edges(rt, &graph, &[(3, 0, "x"), (1, 3, "y")]);
    let none: S = made(rt, graph_from_edge_table(alloc, b"parent,child,weight\n"));
    same(rt, none.node_slots(), 0);
    same(rt, none.edge_slots(), 0);
    let marked: S = made(
        rt,
        graph_from_edge_table(alloc, b"\xef\xbb\xbfparent,child,weight\n0,0,\n"),
    );
    has_edges(rt, &marked, &[(0, 0, "")]);
}

#[test]
fn a_compact_graph_is_read(rt: HostRuntime) {
    tables_are_read::<Compact>(&rt, rt.alloc());
    edges_are_read::<Plain>(&rt, rt.alloc());
}

#[test]
fn a_stable_graph_is_read(rt: HostRuntime) {
    tables_are_read::<Stable>(&rt, rt.alloc());
    edges_are_read::<PlainStable>(&rt, rt.alloc());
}

// Reads two tables, of which the table of edges is at fault.
fn edges_at_fault(
    rt: &impl Abort,
    alloc: Global,
    text: &[u8],
    row: usize,
    line: usize,
    fault: RowFault,
) {
    let nodes = b"node,weight\n0,sow\n1,reap\n";
    let result: Result<Compact, TableError> = graph_from_tables(alloc, nodes, text);
    same(
        rt,
        result.err(),
        Some(TableError::Edges(RowError { row, line, fault })),
    );
}

fn nodes_at_fault(
    rt: &impl Abort,
    alloc: Global,
    text: &[u8],
    row: usize,
    line: usize,
    fault: RowFault,
) {
    let result: Result<Stable, TableError> = graph_from_tables(
        alloc,
        text,
        b"parent,child,weight\n",
    );
    same(
        rt,
        result.err(),
        Some(TableError::Nodes(RowError { row, line, fault })),
    );
}

fn alone_at_fault(
    rt: &impl Abort,
    alloc: Global,
    text: &[u8],
    row: usize,
    line: usize,
    fault: RowFault,
) {
    let result: Result<Plain, TableError> = graph_from_edge_table(alloc, text);
    same(
        rt,
        result.err(),
        Some(TableError::Edges(RowError { row, line, fault })),
    );
}

#[test]
fn the_first_fault_is_told(rt: HostRuntime) {
    let alloc = rt.alloc();
    edges_at_fault(&rt, alloc, b"", 0, 1, RowFault::Header);
    edges_at_fault(
        &rt,
        alloc,
        b"\n\nparent,child\n0,1\n",
        0,
        3,
        RowFault::Header,
    );
    edges_at_fault(
        &rt,
        alloc,
        b"source,target,weight\n0,1,5\n",
        0,
        1,
        RowFault::Header,
    );
    edges_at_fault(
        &rt,
        alloc,
        b"parent,child,weight\n0,1,x\n0,1\n0,9,y\n",
        2,
        3,
        RowFault::FieldCount,
    );
    edges_at_fault(
        &rt,
        alloc,
        b"parent,child,weight\n0,1,x,y\n",
        1,
        2,
        RowFault::FieldCount,
    );
    edges_at_fault(
        &rt,
        alloc,
        b"parent,child,weight\r\n0,1,x\r\n0,-1,y\r\n",
        2,
        3,
        RowFault::NotAnIndex,
    );
    edges_at_fault(
        &rt,
        alloc,
        b"parent,child,weight\n 0,1,x\n",
        1,
        2,
        RowFault::NotAnIndex,
    );
    edges_at_fault(
        &rt,
        alloc,
        b"parent,child,weight\n,1,x\n",
        1,
        2,
        RowFault::NotAnIndex,
    );
    edges_at_fault(
        &rt,
        alloc,
        b"parent,child,weight\n18446744073709551616,1,x\n",
        1,
        2,
        RowFault::NotAnIndex,
    );
    edges_at_fault(
        &rt,
        alloc,
        b"parent,child,weight\n0,1,\"a\nb\"\n\n2,1,x\n",
        2,
        5,
        RowFault::NoSuchNode,
    );
    edges_at_fault(
        &rt,
        alloc,
        b"parent,child,weight\n0,2,x\n",
        1,
        2,
        RowFault::NoSuchNode,
    );
    edges_at_fault(
        &rt,
        alloc,
        b"parent,child,weight\n0,1,\xff\n",
        1,
        2,
        RowFault::NotText,
    );
    edges_at_fault(&rt, alloc, b"parent,child,\xff\n", 0, 1, RowFault::Header);
    nodes_at_fault(
        &rt,
        alloc,
        b"node,weight\n0,sow\n2,reap\n",
        2,
        3,
        RowFault::NotInOrder,
    );
    nodes_at_fault(
        &rt,
        alloc,
        b"node,weight\n0,sow\n0,reap\n",
        2,
        3,
        RowFault::NotInOrder,
    );
    nodes_at_fault(&rt, alloc, b"node,weight\n0\n", 1, 2, RowFault::FieldCount);
    nodes_at_fault(
        &rt,
        alloc,
        b"node,weight\nsow,0\n",
        1,
        2,
        RowFault::NotAnIndex,
    );
    nodes_at_fault(&rt, alloc, b"node\n", 0, 1, RowFault::Header);
    alone_at_fault(
        &rt,
        alloc,
        b"parent,child,weight\n0,255,x\n",
        1,
        2,
        RowFault::Full,
    );
    alone_at_fault(
        &rt,
        alloc,
        b"parent,child,weight\n0,254,x\n1,y\n",
        2,
        3,
        RowFault::FieldCount,
    );
}

// A table of more edges than there are indices, and one of more nodes.
#[test]
fn full_is_told(rt: HostRuntime) {
    let alloc = rt.alloc();
    let mut nodes = made(&rt, String::from_str(alloc, "node,weight\n"));
    let mut edges = made(&rt, String::from_str(alloc, "parent,child,weight\n"));
    for i in 0..256 {
        let row = made(&rt, format!(in alloc; "{i},\n"));
        made(&rt, nodes.push_str(row.as_str()));
        made(&rt, edges.push_str("0,0,\n"));
    }
    nodes_at_fault(
        &rt,
        alloc,
        nodes.as_str().as_bytes(),
        256,
        257,
        RowFault::Full,
    );
    edges_at_fault(
        &rt,
        alloc,
        edges.as_str().as_bytes(),
        256,
        257,
        RowFault::Full,
    );
    alone_at_fault(
        &rt,
        alloc,
        edges.as_str().as_bytes(),
        256,
        257,
        RowFault::Full,
    );
}
