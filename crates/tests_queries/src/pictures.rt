//! The text of a whole picture, written out.

use crate::support::{made, node, same};
use daggy_base::index::{EdgeIndex, NodeIndex};
use daggy_base::source::EdgeSource;
use daggy_base::store::Store;
use daggy_dot::{Dot, Label, NoLabels, RankDir, write_attribute, write_label};
use daggy_graph::graph::DiGraph;
use daggy_stable::stable_graph::StableDiGraph;
use std::alloc::Global;
use std::fmt::{self, Display, Formatter, Write};
use std::process::Abort;

type Text = &'static str;

// A graph with these weights, and these edges by the numbers of their ends.
fn graph_of<N: Copy + Drop, E: Copy + Drop, S: Store<u32, NodeWeight = N, EdgeWeight = E>>(
    rt: &impl Abort,
    alloc: Global,
    nodes: &[N],
    edges: &[(usize, usize, E)],
) -> S {
    let mut graph = S::new(alloc);
    for weight in nodes {
        assert!(rt; graph.can_add_node());
        let _ = graph.add_node(*weight);
    }
    for edge in edges {
        let (a, b) = (node(rt, edge.0), node(rt, edge.1));
        assert!(rt; graph.contains_node(a) && graph.contains_node(b));
        assert!(rt; graph.can_add_edge());
        let _ = graph.add_edge(a, b, edge.2);
    }
    graph
}

// These nodes in a `Vec`.
fn list(rt: &impl Abort, alloc: Global, nodes: &[NodeIndex]) -> Vec<NodeIndex> {
    made(rt, Vec::from_slice(alloc, nodes))
}

// Asserts the whole text of a picture.
fn shows<D: Display + Drop>(rt: &impl Abort, alloc: Global, dot: D, text: &str) {
    let shown = made(rt, format!(in alloc; "{dot}"));
    same(rt, shown.as_str(), text);
}

/// A picture of texts that are joined by numbers.
#[derive(Clone, Copy)]
enum Picture {
    Empty,
    TwoNodes,
    Cycle,
    VacantSlots,
    Ranks,
    Directions,
    Clusters,
    Attributes,
    InLittleRoom,
}

fn draw<S: Store<u32, NodeWeight = Text, EdgeWeight = u32>>(
    rt: &impl Abort,
    alloc: Global,
    picture: Picture,
) {
    match picture {
        Picture::Empty => draw_empty_graph::<S>(rt, alloc),
        Picture::TwoNodes => draw_two_nodes::<S>(rt, alloc),
        Picture::Cycle => draw_parallel_edges_and_a_cycle::<S>(rt, alloc),
        Picture::VacantSlots => draw_vacant_slots::<S>(rt, alloc),
        Picture::Ranks => draw_ranks_and_a_path::<S>(rt, alloc),
        Picture::Directions => draw_titles_and_directions::<S>(rt, alloc),
        Picture::Clusters => draw_clusters::<S>(rt, alloc),
        Picture::Attributes => draw_attributes::<S>(rt, alloc),
        Picture::InLittleRoom => draw_in_little_room::<S>(rt, alloc),
    }
}

// A call at a kind costs a proof much more than a call at any graph, so each is named once.
fn draw_compact(rt: &impl Abort, alloc: Global, picture: Picture) {
    draw::<DiGraph<Text, u32, u32>>(rt, alloc, picture);
}

fn draw_stable(rt: &impl Abort, alloc: Global, picture: Picture) {
    draw::<StableDiGraph<Text, u32, u32>>(rt, alloc, picture);
}

fn draw_empty_graph<S: Store<u32, NodeWeight = Text, EdgeWeight = u32>>(
    rt: &impl Abort,
    alloc: Global,
) {
    let graph: S = S::new(alloc);
    shows(rt, alloc, Dot::of_graph(&graph), "digraph {\n}\n");
}

#[test]
fn an_empty_graph(rt: HostRuntime) {
    draw_compact(&rt, rt.alloc(), Picture::Empty);
}

fn draw_two_nodes<S: Store<u32, NodeWeight = Text, EdgeWeight = u32>>(
    rt: &impl Abort,
    alloc: Global,
) {
    let graph: S = graph_of(rt, alloc, &["sow", "reap"], &[(0, 1, 90)]);
    let text = "digraph {
    0 [ label = \"sow\" ]
    1 [ label = \"reap\" ]
    0 -> 1 [ label = \"90\" ]
}
";
    shows(rt, alloc, Dot::of_graph(&graph), text);
    let text = "digraph {
    rankdir = LR
    0 [ label = \"sow\" ]
    1 [ label = \"reap\" ]
    0 -> 1 [ label = \"90\" ]
}
";
    shows(rt, alloc, Dot::of_graph(&graph).left_to_right(), text);
}

#[test]
fn two_nodes(rt: HostRuntime) {
    draw_compact(&rt, rt.alloc(), Picture::TwoNodes);
}

fn draw_escapes<S: Store<u32, NodeWeight = Text, EdgeWeight = Text>>(
    rt: &impl Abort,
    alloc: Global,
) {
    let names = ["say \"sow\"\nC:\\new\\", "日本 \u{1F33E}"];
    let graph: S = graph_of(rt, alloc, &names, &[(0, 1, "säen & <b>&amp;</b>")]);
    let text = "digraph {
    0 [ label = \"say \\\"sow\\\"\\nC:\\\\new\\\\\" ]
    1 [ label = \"日本 \u{1F33E}\" ]
    0 -> 1 [ label = \"säen &amp; <b>&amp;amp;</b>\" ]
}
";
    shows(rt, alloc, Dot::of_graph(&graph), text);
}

#[test]
fn escapes(rt: HostRuntime) {
    draw_escapes::<DiGraph<Text, Text, u32>>(&rt, rt.alloc());
}

fn draw_parallel_edges_and_a_cycle<S: Store<u32, NodeWeight = Text, EdgeWeight = u32>>(
    rt: &impl Abort,
    alloc: Global,
) {
    let edges = [(0, 1, 90), (0, 1, 80), (1, 0, 5)];
    let graph: S = graph_of(rt, alloc, &["sow", "reap"], &edges);
    let text = "digraph {
    0 [ label = \"sow\" style = bold ]
    1 [ label = \"reap\" style = bold ]
    0 -> 1 [ label = \"90\" style = bold ]
    0 -> 1 [ label = \"80\" style = bold ]
    1 -> 0 [ label = \"5\" ]
}
";
    let path = [node(rt, 0), node(rt, 1)];
    let dot = made(rt, Dot::of_graph(&graph).bold(alloc, &path));
    shows(rt, alloc, dot, text);
}

#[test]
fn parallel_edges_and_a_cycle(rt: HostRuntime) {
    draw_stable(&rt, rt.alloc(), Picture::Cycle);
}

fn draw_vacant_slots<S: Store<u32, NodeWeight = Text, EdgeWeight = u32>>(
    rt: &impl Abort,
    alloc: Global,
) {
    let edges = [(0, 1, 30), (0, 2, 90)];
    let mut graph: S = graph_of(rt, alloc, &["sow", "hoe", "reap"], &edges);
    let (sow, hoe, reap) = (node(rt, 0), node(rt, 1), node(rt, 2));
    let _ = graph.remove_node(hoe);
    // A node that does not exist is on no rank, and no edge is on a path past it.
    let stages = [list(rt, alloc, &[sow]), list(rt, alloc, &[hoe, reap])];
    let path = [sow, hoe, reap];
    let text = "digraph {
    0 [ label = \"sow\" style = bold ]
    2 [ label = \"reap\" style = bold ]
    0 -> 2 [ label = \"90\" ]
    { rank = same; 0; }
    { rank = same; 2; }
}
";
    let dot = made(rt, Dot::of_graph(&graph).ranks(&stages).bold(alloc, &path));
    shows(rt, alloc, dot, text);
}

#[test]
fn vacant_slots(rt: HostRuntime) {
    draw_stable(&rt, rt.alloc(), Picture::VacantSlots);
}

// Labels a node by its index and its weight, in a box.
#[derive(Drop)]
struct Boxes<'a> {
    unit: &'a str,
}

impl Label<NodeIndex, u32> for Boxes<'_> {
    fn write<W: Write>(&self, n: NodeIndex, days: &u32, f: &mut Formatter<W>) -> fmt::Result {
        let (x, days, unit) = (n.index(), *days, self.unit);
        write_label(format_args!("{x}: {days} {unit}"), f)?;
        write_attribute("shape", "box", f)
    }
}

// Labels an edge by its index.
#[derive(Drop)]
struct Numbers;

impl Label<EdgeIndex, ()> for Numbers {
    fn write<W: Write>(&self, e: EdgeIndex, _weight: &(), f: &mut Formatter<W>) -> fmt::Result {
        write_label(e.index(), f)
    }
}

fn draw_labels_of_ones_own<S: Store<u32, NodeWeight = u32, EdgeWeight = ()>>(
    rt: &impl Abort,
    alloc: Global,
) {
    let graph: S = graph_of(rt, alloc, &[3, 5], &[(0, 1, ())]);
    let text = "digraph {
    0 [ label = \"0: 3 \\\"days\\\"\" shape = \"box\" ]
    1 [ label = \"1: 5 \\\"days\\\"\" shape = \"box\" ]
    0 -> 1 [ label = \"0\" ]
}
";
    let labels = Boxes { unit: "\"days\"" };
    let dot = Dot::of_graph(&graph)
        .node_labels(labels)
        .edge_labels(Numbers);
    shows(rt, alloc, dot, text);
}

#[test]
fn labels_of_ones_own(rt: HostRuntime) {
    draw_labels_of_ones_own::<DiGraph<u32, (), u32>>(&rt, rt.alloc());
}

fn draw_no_labels<S: Store<u32, NodeWeight = u32, EdgeWeight = ()>>(
    rt: &impl Abort,
    alloc: Global,
) {
    let graph: S = graph_of(rt, alloc, &[3, 5], &[(0, 1, ())]);
    let text = "digraph {
    0 [ label = \"3\" style = bold ]
    1 [ label = \"5\" ]
    0 -> 1 [ ]
}
";
    let path = [node(rt, 0)];
    let dot = made(
        rt,
        Dot::of_graph(&graph).no_edge_labels().bold(alloc, &path),
    );
    shows(rt, alloc, dot, text);
    let text = "digraph {
    0 [ ]
    1 [ ]
    0 -> 1 [ ]
}
";
    let dot = Dot::of_graph(&graph).node_labels(NoLabels).no_edge_labels();
    shows(rt, alloc, dot, text);
}

#[test]
fn no_labels(rt: HostRuntime) {
    draw_no_labels::<DiGraph<u32, (), u32>>(&rt, rt.alloc());
}

fn draw_ranks_and_a_path<S: Store<u32, NodeWeight = Text, EdgeWeight = u32>>(
    rt: &impl Abort,
    alloc: Global,
) {
    let names = ["sow", "hoe", "mow", "reap"];
    let edges = [(0, 1, 30), (0, 2, 20), (1, 3, 60)];
    let graph: S = graph_of(rt, alloc, &names, &edges);
    let (sow, hoe) = (node(rt, 0), node(rt, 1));
    let (mow, reap) = (node(rt, 2), node(rt, 3));
    let stages = [
        list(rt, alloc, &[sow]),
        list(rt, alloc, &[hoe, mow]),
        list(rt, alloc, &[reap]),
    ];
    let path = [sow, hoe, reap];
    let text = "digraph {
    0 [ label = \"sow\" style = bold ]
    1 [ label = \"hoe\" style = bold ]
    2 [ label = \"mow\" ]
    3 [ label = \"reap\" style = bold ]
    0 -> 1 [ label = \"30\" style = bold ]
    0 -> 2 [ label = \"20\" ]
    1 -> 3 [ label = \"60\" style = bold ]
    { rank = same; 0; }
    { rank = same; 1; 2; }
    { rank = same; 3; }
}
";
    let dot = made(rt, Dot::of_graph(&graph).bold(alloc, &path)).ranks(&stages);
    shows(rt, alloc, dot, text);
}

#[test]
fn ranks_and_a_path(rt: HostRuntime) {
    draw_compact(&rt, rt.alloc(), Picture::Ranks);
}

fn draw_titles_and_directions<S: Store<u32, NodeWeight = Text, EdgeWeight = u32>>(
    rt: &impl Abort,
    alloc: Global,
) {
    let graph: S = graph_of(rt, alloc, &["sow"], &[]);
    let text = "digraph {
    rankdir = BT
    labelloc = t label = \"A \\\"garden\\\"\"
    0 [ label = \"sow\" ]
}
";
    let dot = Dot::of_graph(&graph).title("A \"garden\"");
    shows(rt, alloc, dot.rank_dir(RankDir::BottomToTop), text);
    let text = "digraph {
    rankdir = RL
    0 [ label = \"sow\" ]
}
";
    let dot = Dot::of_graph(&graph).rank_dir(RankDir::RightToLeft);
    shows(rt, alloc, dot, text);
    let text = "digraph {
    0 [ label = \"sow\" ]
}
";
    let dot = Dot::of_graph(&graph).left_to_right();
    shows(rt, alloc, dot.rank_dir(RankDir::TopToBottom), text);
}

#[test]
fn titles_and_directions(rt: HostRuntime) {
    draw_compact(&rt, rt.alloc(), Picture::Directions);
}

fn draw_clusters<S: Store<u32, NodeWeight = Text, EdgeWeight = u32>>(
    rt: &impl Abort,
    alloc: Global,
) {
    let names = ["sow", "hoe", "mow", "reap"];
    let edges = [(0, 2, 20), (0, 3, 60)];
    let mut graph: S = graph_of(rt, alloc, &names, &edges);
    let _ = graph.remove_node(node(rt, 1));
    let text = "digraph {
    newrank = true
    labelloc = t label = \"A garden\"
    0 [ label = \"sow\" ]
    subgraph \"cluster_with \\\"s\\\"\" { label = \"with \\\"s\\\"\" 0 }
    2 [ label = \"mow\" ]
    3 [ label = \"reap\" ]
    subgraph \"cluster_with r\" { label = \"with r\" 3 }
    0 -> 2 [ label = \"20\" ]
    0 -> 3 [ label = \"60\" ]
    { rank = same; 2; 3; }
}
";
    let stages = [list(rt, alloc, &[node(rt, 2), node(rt, 3)])];
    let initials = |_: NodeIndex, name: &Text| {
        if name.starts_with('s') {
            Some("with \"s\"")
        } else if name.starts_with('r') {
            Some("with r")
        } else {
            None
        }
    };
    let dot = Dot::of_graph(&graph).title("A garden").ranks(&stages);
    shows(rt, alloc, made(rt, dot.clusters(alloc, initials)), text);
}

#[test]
fn clusters(rt: HostRuntime) {
    draw_stable(&rt, rt.alloc(), Picture::Clusters);
}

fn draw_attributes<S: Store<u32, NodeWeight = Text, EdgeWeight = u32>>(
    rt: &impl Abort,
    alloc: Global,
) {
    let edges = [(0, 1, 20), (0, 2, 90), (1, 2, 60)];
    let mut graph: S = graph_of(rt, alloc, &["sow", "hoe", "reap"], &edges);
    let _ = graph.remove_edge(EdgeIndex::new(1));
    let text = "digraph {
    0 [ label = \"sow\" ]
    1 [ label = \"hoe\" color = \"red\" shape = \"box\" ]
    2 [ label = \"reap\" shape = \"box\" style = bold ]
    0 -> 1 [ label = \"20\" ]
    1 -> 2 [ label = \"60\" penwidth = \"6\" ]
}
";
    let color = |_: NodeIndex, name: &Text| if *name == "hoe" { Some("red") } else { None };
    let shape = |n: NodeIndex, _: &Text| if n.index() > 0 { Some("box") } else { None };
    let width = |_: EdgeIndex, days: &u32| if *days > 30 { Some(*days / 10) } else { None };
    let dot = made(rt, Dot::of_graph(&graph).bold(alloc, &[node(rt, 2)]));
    let dot = made(rt, dot.node_attribute(alloc, "color", color));
    let dot = made(rt, dot.node_attribute(alloc, "shape", shape));
    shows(
        rt,
        alloc,
        made(rt, dot.edge_attribute(alloc, "penwidth", width)),
        text,
    );
}

#[test]
fn attributes(rt: HostRuntime) {
    draw_stable(&rt, rt.alloc(), Picture::Attributes);
}

// Asserts that a label of that many letters is written in lines of 3,000.
fn shows_long_label(rt: &impl Abort, alloc: Global, letters: usize) {
    let mut graph = DiGraph::<String, (), u32>::new(alloc);
    let mut label = String::new(alloc);
    let mut lines = String::new(alloc);
    for i in 0..letters {
        made(rt, label.push('&'));
        if i > 0 && i % 3000 == 0 {
            made(rt, lines.push_str("\\\n"));
        }
        made(rt, lines.push_str("&amp;"));
    }
    let _ = graph.add_node(label);
    let text = made(
        rt,
        format!(in alloc; "digraph {{\n    0 [ label = \"{lines}\" ]\n}}\n"),
    );
    shows(
        rt,
        alloc,
        Dot::of_graph(&graph).no_edge_labels(),
        text.as_str(),
    );
}

#[test]
fn long_labels(rt: HostRuntime) {
    shows_long_label(&rt, rt.alloc(), 2999);
    shows_long_label(&rt, rt.alloc(), 3000);
    shows_long_label(&rt, rt.alloc(), 3001);
    shows_long_label(&rt, rt.alloc(), 7000);
}

fn draw_forbidden_characters(rt: &impl Abort, alloc: Global) {
    let names = ["a\0b\x1fc\x7f", "\t\r", "\u{fffe}\u{fffd}\u{ffff}"];
    let graph: DiGraph<Text, (), u32> = graph_of(rt, alloc, &names, &[]);
    let text = "digraph {
    0 [ label = \"a\u{fffd}b\u{fffd}c\x7f\" ]
    1 [ label = \"\t\r\" ]
    2 [ label = \"\u{fffd}\u{fffd}\u{fffd}\" ]
}
";
    shows(rt, alloc, Dot::of_graph(&graph).no_edge_labels(), text);
}

#[test]
fn forbidden_characters(rt: HostRuntime) {
    draw_forbidden_characters(&rt, rt.alloc());
}

// A writer with room for a number of bytes.
#[derive(Drop)]
struct Narrow {
    room: usize,
}

impl Write for Narrow {
    fn write_str(&mut self, s: &str) -> fmt::Result {
        if s.len() > self.room {
            return Err(fmt::Error);
        }
        self.room -= s.len();
        Ok(())
    }
}

// How much room is left behind a picture, if it fits.
fn room_behind<D: Display>(dot: &D, room: usize) -> Option<usize> {
    let mut out = Narrow { room };
    match out.write(dot) {
        Ok(()) => Some(out.room),
        Err(_) => None,
    }
}

// Asserts that a picture fits a writer with room for all of it, and no other.
fn needs_room<D: Display + Drop>(rt: &impl Abort, alloc: Global, dot: D) {
    let whole = made(rt, format!(in alloc; "{dot}")).len();
    for room in 0..whole {
        same(rt, room_behind(&dot, room), None);
    }
    same(rt, room_behind(&dot, whole), Some(0));
}

fn draw_in_little_room<S: Store<u32, NodeWeight = Text, EdgeWeight = u32>>(
    rt: &impl Abort,
    alloc: Global,
) {
    let graph: S = graph_of(rt, alloc, &["s\"w", "reap"], &[(0, 1, 90)]);
    let (first, last) = (node(rt, 0), node(rt, 1));
    let path = [first, last];
    let stages = [list(rt, alloc, &[first, last])];
    let dot = made(rt, Dot::of_graph(&graph).bold(alloc, &path)).ranks(&stages);
    needs_room(rt, alloc, dot);
}

#[test]
fn a_writer_that_fails(rt: HostRuntime) {
    draw_compact(&rt, rt.alloc(), Picture::InLittleRoom);
}
