//! Graphs in the formats of other programs, of either store.
use crate::support::{made, node, same};
use daggy_base::store::Store;
use daggy_formats::{Document, Format, edge_table, graphml, mermaid, node_table};
use daggy_graph::graph::DiGraph;
use daggy_stable::stable_graph::StableDiGraph;
use std::alloc::Global;
use std::process::Abort;

const NODES: [&'static str; 3] = ["to \"sow\"", "a & <b>", "#1\n2"];

// A graph of three nodes, with an edge and one back, which has an empty weight.
fn graph_of<S: Store<u8, NodeWeight = &'static str, EdgeWeight = &'static str>>(
    rt: &impl Abort,
    alloc: Global,
) -> S {
    let mut graph = S::new(alloc);
    for weight in NODES {
        assert!(rt; graph.can_add_node());
        made(rt, graph.add_node(weight));
    }
    for (a, b, weight) in [(0, 2, "9\r0"), (2, 0, "")] {
        let (a, b) = (node(rt, a), node(rt, b));
        assert!(rt; graph.contains_node(a) && graph.contains_node(b) && graph.can_add_edge());
        made(rt, graph.add_edge(a, b, weight));
    }
    graph
}

fn reads<F: Format, S: Store<u8, NodeWeight = &'static str, EdgeWeight = &'static str>>(
    rt: &impl Abort,
    alloc: Global,
    document: &Document<'_, F, &'static str, &'static str, u8, S>,
    wanted: &str,
) {
    let text = made(rt, format!(in alloc; "{document}"));
    same(rt, text.as_str(), wanted);
}

fn are_written<S: Store<u8, NodeWeight = &'static str, EdgeWeight = &'static str>>(
    rt: &impl Abort,
    alloc: Global,
    graph: &S,
) {
    reads(
        rt,
        alloc,
        &mermaid(graph),
        "flowchart TD\n    0[\"to #quot;sow#quot;\"]\n    1[\"a &amp; &lt;b>\"]\n    2[\"#35;1<br>2\"]\n    \
         0 -->|\"9\r0\"| 2\n    2 -->|\"\"| 0\n",
    );
    reads(
        rt,
        alloc,
        &node_table(graph),
        "node,weight\n0,\"to \"\"sow\"\"\"\n1,\"a & <b>\"\n2,\"#1\n2\"\n",
    );
    reads(
        rt,
        alloc,
        &edge_table(graph),
        "parent,child,weight\n0,2,\"9\r0\"\n2,0,\"\"\n",
    );
    reads(
        rt,
        alloc,
        &graphml(graph),
        "<?xml version=\"1.0\" encoding=\"UTF-8\"?>\n\
         <graphml xmlns=\"http://graphml.graphdrawing.org/xmlns\">\n  \
         <key id=\"weight\" for=\"all\" attr.name=\"weight\" attr.type=\"string\"/>\n  \
         <graph edgedefault=\"directed\">\n    \
         <node id=\"n0\"><data key=\"weight\">to \"sow\"</data></node>\n    \
         <node id=\"n1\"><data key=\"weight\">a &amp; &lt;b&gt;</data></node>\n    \
         <node id=\"n2\"><data key=\"weight\">#1\n2</data></node>\n    \
         <edge source=\"n0\" target=\"n2\"><data key=\"weight\">9&#13;0</data></edge>\n    \
         <edge source=\"n2\" target=\"n0\"><data key=\"weight\"></data></edge>\n  \
         </graph>\n</graphml>\n",
    );
}

#[test]
fn a_compact_graph_is_written(rt: HostRuntime) {
    let graph: DiGraph<&'static str, &'static str, u8> = graph_of(&rt, rt.alloc());
    are_written(&rt, rt.alloc(), &graph);
}

#[test]
fn a_stable_graph_is_written(rt: HostRuntime) {
    let graph: StableDiGraph<&'static str, &'static str, u8> = graph_of(&rt, rt.alloc());
    are_written(&rt, rt.alloc(), &graph);
}

#[test]
fn vacant_slots_are_left_out(rt: HostRuntime) {
    let mut graph: StableDiGraph<&'static str, &'static str, u8> = graph_of(&rt, rt.alloc());
    graph.remove_node(node(&rt, 0));
    reads(
        &rt,
        rt.alloc(),
        &node_table(&graph),
        "node,weight\n1,\"a & <b>\"\n2,\"#1\n2\"\n",
    );
    reads(
        &rt,
        rt.alloc(),
        &edge_table(&graph),
        "parent,child,weight\n",
    );
}
