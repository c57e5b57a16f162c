//! The questions, each with its answer in a line.
ghost use Rattle.std.specs.Prelude.{OnErr, ◌≡◌};
ghost use Rattle.daggy_components.specs.Components.{AreComponents};

use crate::dags::{Members, Tally, write_all_edges, write_folded};
use anyhow::{Result, bail};
use daggy_base::index::{EdgeIndex, NodeIndex};
use daggy_base::read_store::ReadStore;
use daggy_base::store::Store;
use daggy_components::{
    Components, condensation, find_cycle, strongly_connected_components,
    weakly_connected_components,
};
use daggy_cycles::{feedback_arc_set, find_cycle_edges, shortest_cycle};
use daggy_graph::graph::DiGraph;
use daggy_search::Reading;
use std::alloc::Global;
use std::io::{self, Write};

/// A graph, and the edges of it that are to be kept.
#[derive(Drop)]
pub struct Asked<S: Drop> {
    pub graph: S,
    pub preferred: Vec<EdgeIndex<u32>>,
}

/// A graph of this many nodes, without edges.
pub fn edgeless<S: Store<u32, NodeWeight = (), EdgeWeight = ()>>(
    alloc: Global,
    count: usize,
) -> Result<Asked<S>> {
    let mut graph = S::new(alloc);
    for _ in 0..count {
        if !graph.can_add_node() {
            bail!("too many nodes");
        }
        graph.add_node(())?;
    }
    Ok(Asked {
        graph,
        preferred: Vec::new(alloc),
    })
}

/// Adds an edge.
pub fn add_edge<S: Store<u32, NodeWeight = (), EdgeWeight = ()>>(
    asked: &mut Asked<S>,
    parent: NodeIndex<u32>,
    child: NodeIndex<u32>,
) -> Result<()> {
    let graph = &mut asked.graph;
    if !graph.contains_node(parent) || !graph.contains_node(child) || !graph.can_add_edge() {
        bail!("no such nodes, or too many edges");
    }
    graph.add_edge(parent, child, ())?;
    Ok(())
}

/// Writes all answers. The dags have the stores `T` and `U`.
pub fn write_answers<S, T, U, W: Write>(alloc: Global, out: &mut W, asked: &Asked<S>) -> Result<()>
where
    S: Store<u32, NodeWeight = (), EdgeWeight = ()>,
    T: Store<u32, NodeWeight = Members, EdgeWeight = EdgeIndex<u32>>,
    U: Store<u32, NodeWeight = Members, EdgeWeight = Tally>,
{
    let graph = &asked.graph;
    let components = strongly_connected_components(alloc, &mut Reading::new(graph))?;
    write!(out, "components:")?;
    write_components(out, &components)?;
    write!(out, "weak:")?;
    write_components(out, &weakly_connected_components(alloc, graph)?)?;
    write_condensation(alloc, out, graph, &components)?;
    write_all_edges::<S, T, W>(alloc, out, graph, &components)?;
    write_folded::<S, U, W>(alloc, out, graph, &components)?;
    write!(out, "cycle:")?;
    write_nodes(out, find_cycle(alloc, &mut Reading::new(graph))?.as_ref())?;
    write!(out, "edges:")?;
    write_edges(out, find_cycle_edges(alloc, graph)?.as_ref())?;
    let left_out = feedback_arc_set(alloc, graph, asked.preferred.as_slice())?;
    write!(out, "left out:")?;
    write_edges(out, Some(&left_out))?;
    for members in components.iter() {
        for n in members {
            write!(out, "shortest {}:", n.index())?;
            write_nodes(
                out,
                shortest_cycle(alloc, &mut Reading::new(graph), *n)?.as_ref(),
            )?;
        }
    }
    Ok(())
}

// Writes the members of each component, by the numbers of the components.
fn write_components<W: Write>(out: &mut W, components: &Components<u32>) -> io::Result<()> {
    for members in components.iter() {
        write!(out, " |")?;
        for n in members {
            write!(out, " {}", n.index())?;
        }
    }
    writeln!(out)
}

// Writes the edges between components, each with the edge that it stands for.
fn write_condensation<S: ReadStore<u32>, W: Write>(
    alloc: Global,
    out: &mut W,
    graph: &S,
    components: &Components<u32>,
) -> Result<()>
    requires { AreComponents (S.graph graph.now) components.now }
{
    let condensed: DiGraph<Vec<NodeIndex<u32>>, EdgeIndex<u32>, u32> = condensation(
        alloc,
        &mut Reading::new(graph),
        components,
    )?;
    write!(out, "condensation:")?;
    for i in 0..condensed.edge_count() {
        let e = EdgeIndex::new(i);
        if let Some(ends) = condensed.edge_endpoints(e) {
            let (j, k) = (ends.0.index(), ends.1.index());
            if let Some(least) = condensed.edge_weight(e) {
                write!(out, " {j}-{k}:{}", least.index())?;
            }
        }
    }
    writeln!(out)?;
    Ok(())
}

// Writes nodes, if there are any.
fn write_nodes<W: Write>(out: &mut W, nodes: Option<&Vec<NodeIndex<u32>>>) -> io::Result<()> {
    match nodes {
        Some(nodes) => {
            for n in nodes {
                write!(out, " {}", n.index())?;
            }
            writeln!(out)
        }
        None => writeln!(out, " none"),
    }
}

// Writes edges, if there are any.
fn write_edges<W: Write>(out: &mut W, edges: Option<&Vec<EdgeIndex<u32>>>) -> io::Result<()> {
    match edges {
        Some(edges) => {
            for e in edges {
                write!(out, " {}", e.index())?;
            }
            writeln!(out)
        }
        None => writeln!(out, " none"),
    }
}
