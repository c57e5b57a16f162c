//! Dags of both kinds, asked through shared borrows.
use crate::support::{made, same};
use daggy_base::index::NodeIndex;
use daggy_base::read_store::ReadStore;
use daggy_dag::acyclic::{Acyclic, Dag, StableDag};
use daggy_paths::Paths;
use daggy_walk::walker::Walker;
use std::process::Abort;

// How many children of a node reach another, asked between the steps of a walk.
fn children_that_reach<S: ReadStore<u32, NodeWeight = u32, EdgeWeight = u32>>(
    rt: &impl Abort,
    dag: &Acyclic<u32, u32, u32, S>,
    paths: &mut Paths<'_, u32, S>,
    from: NodeIndex,
    to: NodeIndex,
) -> usize {
    let mut count = 0;
    let mut children = dag.children(from);
    for _ in 0..9 {
        if let Some((_, n)) = children.walk_next(dag) {
            if paths.reaches(n, to) {
                same(rt, count < 9, true);
                if count < 9 {
                    count += 1;
                }
            }
        }
    }
    count
}

// A diamond of which two paths lead to the last node, that is asked while it is borrowed.
fn ask<S: ReadStore<u32, NodeWeight = u32, EdgeWeight = u32>>(
    rt: &impl Abort,
    dag: &Acyclic<u32, u32, u32, S>,
    nodes: [NodeIndex; 4],
) {
    let [sow, hoe, rake, reap] = nodes;
    let mut paths = made(rt, dag.paths());
    same(rt, children_that_reach(rt, dag, &mut paths, sow, reap), 1);
    same(rt, children_that_reach(rt, dag, &mut paths, sow, rake), 1);
    same(rt, children_that_reach(rt, dag, &mut paths, rake, reap), 0);
    same(rt, paths.would_close_cycle(reap, sow), true);
    same(rt, made(rt, paths.descendants(&[sow])).len(), 3);
    same(rt, made(rt, paths.ancestors(&[reap])).len(), 2);
    same(
        rt,
        made(rt, paths.path_edges(sow, reap)).is_some_and(|edges| edges.len() == 2),
        true,
    );
    same(rt, dag.node_count(), 4);
    // A second one over the same dag.
    let mut others = made(rt, dag.paths());
    same(rt, others.reaches(hoe, reap), true);
    same(rt, paths.reaches(reap, hoe), false);
}

#[test]
fn a_dag_is_asked_while_it_is_read(rt: HostRuntime) {
    let mut dag: Dag<u32, u32> = Dag::new(rt.alloc());
    let sow = made(&rt, dag.add_node(0));
    let (_, hoe) = made(&rt, dag.add_child(sow, 0, 1));
    let (_, rake) = made(&rt, dag.add_child(sow, 0, 2));
    let (_, reap) = made(&rt, dag.add_child(hoe, 0, 3));
    ask(&rt, &dag, [sow, hoe, rake, reap]);
    // The dag can be changed again once nobody borrows it.
    same(&rt, dag.reaches(hoe, reap), true);
    same(&rt, dag.remove_node(hoe), Some(1));
}

#[test]
fn a_stable_dag_is_asked_while_it_is_read(rt: HostRuntime) {
    let mut dag: StableDag<u32, u32> = StableDag::new(rt.alloc());
    let gone = made(&rt, dag.add_node(9));
    let sow = made(&rt, dag.add_node(0));
    let (_, hoe) = made(&rt, dag.add_child(sow, 0, 1));
    let (_, rake) = made(&rt, dag.add_child(sow, 0, 2));
    let (_, reap) = made(&rt, dag.add_child(hoe, 0, 3));
    same(&rt, dag.remove_node(gone), Some(9));
    ask(&rt, &dag, [sow, hoe, rake, reap]);
    same(&rt, dag.reaches(hoe, reap), true);
}
