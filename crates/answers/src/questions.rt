//! The questions, each with its answer in a line.
ghost use Rattle.std.specs.Prelude.{◌≡◌, OnOk, OnErr, IfOk};
ghost use Rattle.daggy_base.specs.Adding.{with_edge};
ghost use Rattle.answers.specs.Answers.{HasOnly};

use crate::edges::{endpoints, sorted_endpoints};
use crate::walks::{breadth_first, depth_first, in_postorder};
use anyhow::{Result, bail};
use daggy::operators::{all_simple_paths, lowest_common_ancestors, transitive_closure_dag};
use daggy::schedule::{Schedule, topological_order_by};
use daggy::{Acyclic, NodeIndex, Store};
use std::alloc::Global;
use std::io::{self, Write};

/// A dag of either kind, with a key and a duration of each node as its weight.
pub type Timed<S> = Acyclic<u64, (), u32, S>;

/// A dag of nodes with these weights, without edges.
pub fn dag_of<S: Store<u32, NodeWeight = u64, EdgeWeight = ()>>(
    alloc: Global,
    weights: &[u64],
) -> Result<Timed<S>>
    ensures { IfOk result (λ dag. HasOnly weights.now dag.graph) }
{
    let mut dag = Timed::<S>::new(alloc);
    for weight in weights {
        if !dag.can_add_node() {
            bail!("too many nodes");
        }
        dag.add_node(*weight)?;
    }
    Ok(dag)
}

/// Adds an edge.
pub fn add_edge<S: Store<u32, NodeWeight = u64, EdgeWeight = ()>>(
    dag: &mut Timed<S>,
    parent: NodeIndex,
    child: NodeIndex,
) -> Result<()>
    ensures added { OnOk result
        (dag.new.graph ≡ with_edge dag.old.graph parent child tt) }
    ensures unchanged { OnErr result (dag.new.graph ≡ dag.old.graph) }
{
    if !dag.contains_node(parent) || !dag.contains_node(child) || !dag.can_add_edge() {
        bail!("no such nodes, or too many edges");
    }
    dag.add_edge(parent, child, ())?;
    Ok(())
}

/// Writes whether a path leads from a node to another, how many edges a shortest one has, and the
/// lowest common ancestors of the two.
pub fn write_path<S: Store<u32, NodeWeight = u64, EdgeWeight = ()>, W: Write>(
    out: &mut W,
    dag: &mut Timed<S>,
    from: NodeIndex,
    to: NodeIndex,
) -> Result<()>
    ensures { dag.new.graph ≡ dag.old.graph }
{
    let (a, b) = (from.index(), to.index());
    let reaches = dag.reaches(from, to);
    write!(out, "path {a} {b}: {reaches}")?;
    if let Some(path) = dag.path(from, to)? {
        write!(out, " {}", path.len().saturating_sub(1))?;
    }
    write!(out, "\ncommon {a} {b}:")?;
    let common = lowest_common_ancestors(dag.allocator(), dag, from, to)?;
    write_nodes(out, common.as_slice())?;
    Ok(())
}

/// Writes the nodes of each simple path from a node to another that has at most `limit` edges.
pub fn write_simple_paths<S: Store<u32, NodeWeight = u64, EdgeWeight = ()>, W: Write>(
    alloc: Global,
    out: &mut W,
    dag: &Timed<S>,
    from: NodeIndex,
    to: NodeIndex,
    limit: usize,
) -> Result<()> {
    let (a, b) = (from.index(), to.index());
    write!(out, "simple {a} {b} {limit}:")?;
    let mut paths = all_simple_paths(alloc, dag, from, to, limit)?;
    'paths: while let Some(path) = paths.next()? {
        write!(out, " {a}")?;
        for n in path.iter().skip(1) {
            write!(out, "-{}", n.index())?;
        }
    }
    writeln!(out)?;
    Ok(())
}

/// Writes the answers to all other questions. In the end it reduces the dag.
pub fn write_rest<S: Store<u32, NodeWeight = u64, EdgeWeight = ()>, W: Write>(
    alloc: Global,
    out: &mut W,
    dag: &mut Timed<S>,
) -> Result<()> {
    let order = topological_order_by(alloc, dag, |_, key| *key)?;
    write!(out, "order:")?;
    write_nodes(out, order.as_slice())?;
    let plan = Schedule::new(alloc, dag, |_, duration| *duration)?;
    writeln!(out, "makespan: {}", plan.makespan)?;
    let plan = Schedule::with_lags(alloc, dag, |_, duration| *duration, |e, _| e.index() as u64)?;
    writeln!(out, "with lags: {}", plan.makespan)?;
    for n in order.iter() {
        write_relatives(out, dag, *n)?;
        write_walks(alloc, out, dag.graph(), *n)?;
    }
    write_closure(alloc, out, dag)?;
    dag.transitive_reduce(order)?;
    write_edges(out, "reduction", sorted_endpoints(alloc, dag)?.as_slice())?;
    Ok(())
}

// Writes the ancestors and the descendants of a node, by ascending index.
fn write_relatives<S: Store<u32, NodeWeight = u64, EdgeWeight = ()>, W: Write>(
    out: &mut W,
    dag: &mut Timed<S>,
    n: NodeIndex,
) -> Result<()>
    ensures { dag.new.graph ≡ dag.old.graph }
{
    let mut ancestors = dag.ancestors(&[n])?;
    ancestors.sort()?;
    write!(out, "ancestors {}:", n.index())?;
    write_nodes(out, ancestors.as_slice())?;
    let mut descendants = dag.descendants(&[n])?;
    descendants.sort()?;
    write!(out, "descendants {}:", n.index())?;
    write_nodes(out, descendants.as_slice())?;
    Ok(())
}

// Writes the nodes that a node reaches, in three orders.
fn write_walks<S: Store<u32, NodeWeight = u64, EdgeWeight = ()>, W: Write>(
    alloc: Global,
    out: &mut W,
    graph: &S,
    n: NodeIndex,
) -> Result<()> {
    write!(out, "bfs:")?;
    write_nodes(out, breadth_first(alloc, graph, n)?.as_slice())?;
    write!(out, "dfs:")?;
    write_nodes(out, depth_first(alloc, graph, n)?.as_slice())?;
    write!(out, "postorder:")?;
    write_nodes(out, in_postorder(alloc, graph, n)?.as_slice())?;
    Ok(())
}

// Writes the indices of nodes.
fn write_nodes<W: Write>(out: &mut W, nodes: &[NodeIndex]) -> io::Result<()> {
    for n in nodes {
        write!(out, " {}", n.index())?;
    }
    writeln!(out)
}

// Writes the edges of the transitive closure, by ascending index.
fn write_closure<S: Store<u32, NodeWeight = u64, EdgeWeight = ()>, W: Write>(
    alloc: Global,
    out: &mut W,
    dag: &Timed<S>,
) -> Result<()> {
    let closure = transitive_closure_dag(alloc, dag)?;
    write_edges(out, "closure", endpoints(alloc, &closure)?.as_slice())?;
    Ok(())
}

// Writes edges.
fn write_edges<W: Write>(out: &mut W, name: &str, edges: &[(usize, usize)]) -> io::Result<()> {
    write!(out, "{name}:")?;
    for (parent, child) in edges {
        write!(out, " {parent}-{child}")?;
    }
    writeln!(out)
}
