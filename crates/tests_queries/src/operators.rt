//! Transitive closures and simple paths, worked out by hand.
use crate::support::{holds, lists, made, node, same};
use daggy::operators::{
    ClosureError, SimplePaths, all_simple_paths, have_same_reachability, transitive_closure_dag,
};
use daggy_base::index::{EdgeIndex, NodeIndex};
use daggy_base::store::Store;
use daggy_dag::acyclic::Acyclic;
use daggy_graph::graph::DiGraph;
use daggy_stable::stable_graph::StableDiGraph;
use std::alloc::{AllocError, Global};
use std::process::Abort;

// A dag with two edges from 1 to 3, and a node without edges.
const EDGES: [(usize, usize); 6] = [(0, 1), (0, 2), (1, 3), (2, 3), (1, 3), (3, 4)];

type Plain<S> = Acyclic<u64, (), u32, S>;

fn diamond<S: Store<u32, NodeWeight = u64, EdgeWeight = ()>>(
    rt: &impl Abort,
    alloc: Global,
) -> Plain<S> {
    let mut dag = Plain::<S>::new(alloc);
    for n in 0..6 {
        let _added = made(rt, dag.try_add_node(n));
    }
    for (a, b) in EDGES.iter() {
        let _added = made(rt, dag.try_add_edge(node(rt, *a), node(rt, *b), ()));
    }
    dag
}

// The closure of the dag has these edges, in this order.
fn closes<S: Store<u32, NodeWeight = u64, EdgeWeight = ()>>(rt: &impl Abort, alloc: Global) {
    let dag = diamond::<S>(rt, alloc);
    let closure = made(rt, transitive_closure_dag(alloc, &dag));
    let pairs = [
        (0, 1),
        (0, 2),
        (0, 3),
        (0, 4),
        (1, 3),
        (1, 4),
        (2, 3),
        (2, 4),
        (3, 4),
    ];
    same(rt, closure.node_count(), 6);
    same(rt, closure.edge_count(), pairs.len());
    for (i, (a, b)) in pairs.iter().enumerate() {
        let ends = closure.edge_endpoints(EdgeIndex::new(i % 9));
        same(rt, ends, Some((node(rt, *a), node(rt, *b))));
    }
    holds(
        rt,
        closure.node_weight(node(rt, 5)).is_some_and(|w| **w == 5),
    );
    holds(rt, made(rt, have_same_reachability(alloc, &dag, &closure)));
}

// Yields a path of these nodes.
fn yields<S: Store<u32, NodeWeight = u64, EdgeWeight = ()>>(
    rt: &impl Abort,
    paths: &mut SimplePaths<'_, u32, S>,
    wanted: &[usize],
) {
    let path = match paths.next() {
        Ok(path) => path,
        // No path is lost.
        Err(AllocError) => made(rt, paths.next()),
    };
    match path {
        Some(path) => lists(rt, path.as_slice(), wanted),
        None => holds(rt, wanted.is_empty()),
    }
}

fn ask<'d, S: Store<u32, NodeWeight = u64, EdgeWeight = ()>>(
    rt: &impl Abort,
    alloc: Global,
    dag: &'d Plain<S>,
    (from, to): (usize, usize),
    limit: usize,
) -> SimplePaths<'d, u32, S> {
    let (from, to) = (node(rt, from), node(rt, to));
    match all_simple_paths(alloc, dag, from, to, limit) {
        Ok(paths) => paths,
        Err(AllocError) => made(rt, all_simple_paths(alloc, dag, from, to, limit)),
    }
}

fn leads<S: Store<u32, NodeWeight = u64, EdgeWeight = ()>>(rt: &impl Abort, alloc: Global) {
    let dag = diamond::<S>(rt, alloc);
    // The newest edges first, and parallel edges have a path each.
    let mut paths = ask(rt, alloc, &dag, (0, 4), usize::MAX);
    yields(rt, &mut paths, &[0, 2, 3, 4]);
    yields(rt, &mut paths, &[0, 1, 3, 4]);
    yields(rt, &mut paths, &[0, 1, 3, 4]);
    yields(rt, &mut paths, &[]);
    yields(rt, &mut paths, &[]);
    let mut paths = ask(rt, alloc, &dag, (0, 3), 2);
    yields(rt, &mut paths, &[0, 2, 3]);
    yields(rt, &mut paths, &[0, 1, 3]);
    yields(rt, &mut paths, &[0, 1, 3]);
    yields(rt, &mut paths, &[]);
    // Each path has three edges.
    yields(rt, &mut ask(rt, alloc, &dag, (0, 4), 2), &[]);
    yields(rt, &mut ask(rt, alloc, &dag, (4, 0), usize::MAX), &[]);
    yields(rt, &mut ask(rt, alloc, &dag, (0, 5), usize::MAX), &[]);
    let mut paths = ask(rt, alloc, &dag, (5, 5), 0);
    yields(rt, &mut paths, &[5]);
    yields(rt, &mut paths, &[]);
    yields(rt, &mut ask(rt, alloc, &dag, (9, 9), 3), &[]);
    yields(rt, &mut ask(rt, alloc, &dag, (0, 9), 3), &[]);
}

// A chain of 23 nodes, and edges between two nodes of their own.
fn chain_and_edges<S: Store<u8, NodeWeight = u8, EdgeWeight = ()>>(
    rt: &impl Abort,
    alloc: Global,
    edges: u8,
) -> Acyclic<u8, (), u8, S> {
    let mut dag = Acyclic::<u8, (), u8, S>::new(alloc);
    let mut last = made(rt, dag.try_add_node(0));
    for n in 1..23 {
        let added = made(rt, dag.try_add_child(last, (), n));
        last = added.1;
    }
    for n in 0..edges {
        let parent = made(rt, dag.try_add_node(n));
        let _added = made(rt, dag.try_add_child(parent, (), n));
    }
    dag
}

// 23 * 22 / 2 pairs along the chain and one for each other edge, but only 255 indices.
fn fills<S: Store<u8, NodeWeight = u8, EdgeWeight = ()>>(rt: &impl Abort, alloc: Global) {
    let dag = chain_and_edges::<S>(rt, alloc, 2);
    same(
        rt,
        made(rt, transitive_closure_dag(alloc, &dag)).edge_count(),
        255,
    );
    let dag = chain_and_edges::<S>(rt, alloc, 3);
    let closure = transitive_closure_dag(alloc, &dag);
    holds(rt, closure.err() == Some(ClosureError::Full));
}

#[test]
fn closures_and_paths(rt: HostRuntime) {
    closes::<DiGraph<u64, (), u32>>(&rt, rt.alloc());
    leads::<DiGraph<u64, (), u32>>(&rt, rt.alloc());
    fills::<DiGraph<u8, (), u8>>(&rt, rt.alloc());
}

#[test]
fn closures_and_paths_of_stable_dags(rt: HostRuntime) {
    closes::<StableDiGraph<u64, (), u32>>(&rt, rt.alloc());
    leads::<StableDiGraph<u64, (), u32>>(&rt, rt.alloc());
    fills::<StableDiGraph<u8, (), u8>>(&rt, rt.alloc());
}
