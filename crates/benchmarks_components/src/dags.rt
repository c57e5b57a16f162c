//! The components of a graph, as dags.
use crate::figures::{Figures, since};
use daggy_base::index::{EdgeIndex, NodeIndex};
use daggy_base::store::Store;
use daggy_components::strongly_connected_components;
use daggy_condensation::{condensed_dag, condensed_dag_with_all_edges, condensed_dag_with_fold};
use daggy_dag::acyclic::Acyclic;
use std::io;
use std::rt::CpuClock;

type Members = Vec<NodeIndex<u32>>;

// A number of a dag: how many nodes and edges it has.
fn count_sum<W: Drop, T>(dag: &Acyclic<Members, W, u32, T>) -> u64
where
    T: Store<u32, NodeWeight = Members, EdgeWeight = W>,
{
    let nodes = dag.node_count() as u64;
    nodes.wrapping_mul(31).wrapping_add(dag.edge_count() as u64)
}

// The same with the sum of the weights.
fn weight_sum<T>(dag: &Acyclic<Members, i64, u32, T>) -> u64
where
    T: Store<u32, NodeWeight = Members, EdgeWeight = i64>,
{
    let mut sum = count_sum(dag);
    for i in 0..dag.edge_count() {
        let weight = dag.edge_weight(EdgeIndex::new(i)).copied().unwrap_or(0);
        sum = sum.wrapping_add(weight.cast_unsigned());
    }
    sum
}

/// An edge for each two components that edges join.
pub fn condense<S, T, R>(rt: &R, graph: &mut S) -> io::Result<Figures>
where
    S: Store<u32>,
    T: Store<u32, NodeWeight = Members, EdgeWeight = EdgeIndex<u32>>,
    R: AllocGlobal + CpuClock,
{
    let start = rt.process_cpu_time()?;
    let components = strongly_connected_components(rt.alloc(), graph)?;
    let dag: Acyclic<_, _, u32, T> = condensed_dag(rt.alloc(), graph, &components)?;
    let time = since(rt, start)?;
    let check = count_sum(&dag);
    Ok(Figures { time, check })
}

/// All edges between components, with their weights.
pub fn keep_edges<S, U, R>(rt: &R, graph: &mut S) -> io::Result<Figures>
where
    S: Store<u32, EdgeWeight = i64>,
    U: Store<u32, NodeWeight = Members, EdgeWeight = i64>,
    R: AllocGlobal + CpuClock,
{
    let start = rt.process_cpu_time()?;
    let components = strongly_connected_components(rt.alloc(), graph)?;
    let dag: Acyclic<_, _, u32, U> = condensed_dag_with_all_edges(
        rt.alloc(),
        graph,
        &components,
        |_, w| *w,
    )?;
    let time = since(rt, start)?;
    let check = weight_sum(&dag);
    Ok(Figures { time, check })
}

/// An edge for each two components that edges join, with the greatest weight of these.
pub fn fold_edges<S, U, R>(rt: &R, graph: &mut S) -> io::Result<Figures>
where
    S: Store<u32, EdgeWeight = i64>,
    U: Store<u32, NodeWeight = Members, EdgeWeight = i64>,
    R: AllocGlobal + CpuClock,
{
    let start = rt.process_cpu_time()?;
    let components = strongly_connected_components(rt.alloc(), graph)?;
    let dag: Acyclic<_, _, u32, U> = condensed_dag_with_fold(
        rt.alloc(),
        graph,
        &components,
        |greatest: Option<i64>, _, w| greatest.map_or(*w, |greatest| greatest.max(*w)),
    )?;
    let time = since(rt, start)?;
    let check = weight_sum(&dag);
    Ok(Figures { time, check })
}
