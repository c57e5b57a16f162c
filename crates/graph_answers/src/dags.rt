//! Condensations as dags, each written in lines.
ghost use Rattle.daggy_components.specs.Components.{AreComponents};

use anyhow::Result;
use daggy_base::index::{EdgeIndex, NodeIndex};
use daggy_base::read_store::ReadStore;
use daggy_base::store::Store;
use daggy_components::Components;
use daggy_condensation::{condensed_dag_with_all_edges, condensed_dag_with_fold};
use daggy_dag::acyclic::Acyclic;
use std::alloc::Global;
use std::io::{self, Write};

/// The members of a component.
pub type Members = Vec<NodeIndex<u32>>;

/// The number of edges between two components, and the sum of their indices.
pub type Tally = (u64, u64);

// Writes the members of each node.
fn write_members<E: Drop, T, W: Write>(
    out: &mut W,
    dag: &Acyclic<Members, E, u32, T>,
) -> io::Result<()>
where
    T: Store<u32, NodeWeight = Members, EdgeWeight = E>,
{
    for i in 0..dag.node_count() {
        write!(out, " |")?;
        if let Some(members) = dag.node_weight(NodeIndex::new(i)) {
            for n in members {
                write!(out, " {}", n.index())?;
            }
        }
    }
    writeln!(out)
}

// Writes the ends of an edge.
fn write_ends<E: Drop, T, W: Write>(
    out: &mut W,
    dag: &Acyclic<Members, E, u32, T>,
    e: EdgeIndex<u32>,
) -> io::Result<()>
where
    T: Store<u32, NodeWeight = Members, EdgeWeight = E>,
{
    if let Some(ends) = dag.edge_endpoints(e) {
        write!(out, " {}-{}:", ends.0.index(), ends.1.index())?;
    }
    Ok(())
}

// Writes the edges, each with the edge that it stands for.
fn write_named<T, W: Write>(
    out: &mut W,
    dag: &Acyclic<Members, EdgeIndex<u32>, u32, T>,
) -> io::Result<()>
where
    T: Store<u32, NodeWeight = Members, EdgeWeight = EdgeIndex<u32>>,
{
    for i in 0..dag.edge_count() {
        let e = EdgeIndex::new(i);
        write_ends(out, dag, e)?;
        if let Some(named) = dag.edge_weight(e) {
            write!(out, "{}", named.index())?;
        }
    }
    writeln!(out)
}

// Writes the edges, each with the tally of those that it stands for.
fn write_tallies<T, W: Write>(out: &mut W, dag: &Acyclic<Members, Tally, u32, T>) -> io::Result<()>
where
    T: Store<u32, NodeWeight = Members, EdgeWeight = Tally>,
{
    for i in 0..dag.edge_count() {
        let e = EdgeIndex::new(i);
        write_ends(out, dag, e)?;
        if let Some(tally) = dag.edge_weight(e) {
            write!(out, "{}/{}", tally.0, tally.1)?;
        }
    }
    writeln!(out)
}

/// Writes the nodes, and all edges between components.
pub fn write_all_edges<S: ReadStore<u32>, T, W: Write>(
    alloc: Global,
    out: &mut W,
    graph: &S,
    components: &Components<u32>,
) -> Result<()>
where
    T: Store<u32, NodeWeight = Members, EdgeWeight = EdgeIndex<u32>>,
    requires { AreComponents (S.graph graph.now) components.now }
{
    let dag: Acyclic<_, _, u32, T> = condensed_dag_with_all_edges(
        alloc,
        graph,
        components,
        |e, _| e,
    )?;
    write!(out, "members:")?;
    write_members(out, &dag)?;
    write!(out, "all edges:")?;
    write_named(out, &dag)?;
    Ok(())
}

// One more edge in a tally.
fn counted(tally: Option<Tally>, e: EdgeIndex<u32>) -> Tally {
    let (count, sum) = tally.unwrap_or((0, 0));
    (
        count.saturating_add(1),
        sum.saturating_add(e.index() as u64),
    )
}

/// Writes an edge for each two components, with a tally of the edges between them.
pub fn write_folded<S: ReadStore<u32>, T, W: Write>(
    alloc: Global,
    out: &mut W,
    graph: &S,
    components: &Components<u32>,
) -> Result<()>
where
    T: Store<u32, NodeWeight = Members, EdgeWeight = Tally>,
    requires { AreComponents (S.graph graph.now) components.now }
{
    let dag: Acyclic<_, _, u32, T> = condensed_dag_with_fold(
        alloc,
        graph,
        components,
        |tally: Option<Tally>, e, _| counted(tally, e),
    )?;
    write!(out, "folded:")?;
    write_tallies(out, &dag)?;
    Ok(())
}
