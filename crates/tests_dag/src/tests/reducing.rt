//! Which edges are left when a dag is reduced. The weight of an edge is the index that it had.
use super::acts::{Act, both as acts_of_both};
use super::script::{Answer, Call};
use super::support::made;
use super::table::{Scene, both, compact, edge_added, fill_nodes, is, play_row, stable};
use daggy_base::index::IndexType;
use daggy_base::store::Store;
use daggy_dag::acyclic::Acyclic;
use std::alloc::Global;
use std::process::Abort;

#[test]
fn a_compact_dag_moves_the_last_edges_to_the_gaps(rt: HostRuntime) {
    const ROWS: &str = "
        nodes 5 = done
        edges 0 1 0, 0 2 1, 0 3 2, 0 4 3, 1 3 4, 2 3 5, 2 4 6, 3 4 7 = edges 0 1 2 3 4 5 6 7
        reduce 0 = done
        counts = counts 5 5
        parents 3 = walk 2 2, 4 1
        edge 0 4 8 = edge 5
        reduce 0 = done
        counts = counts 5 5
        stored 0 = stored 0 1 0
        stored 1 = stored 0 2 1
        stored 2 = stored 2 3 5
        stored 3 = stored 3 4 7
        stored 4 = stored 1 3 4
    ";
    compact(&rt, rt.alloc(), Scene::Rows(ROWS));
}

#[test]
fn in_a_stable_dag_what_stays_keeps_its_index(rt: HostRuntime) {
    const ROWS: &str = "
        nodes 5 = done
        edges 0 1 0, 0 2 1, 0 3 2, 0 4 3, 1 3 4, 2 3 5, 2 4 6, 3 4 7 = edges 0 1 2 3 4 5 6 7
        reduce 0 = done
        counts = counts 5 5
        parents 3 = walk 5 2, 4 1
        edge 0 4 8 = edge 2
        reduce 0 = done
        counts = counts 5 5
        stored 0 = stored 0 1 0
        stored 1 = stored 0 2 1
        stored 4 = stored 1 3 4
        stored 5 = stored 2 3 5
        stored 7 = stored 3 4 7
        edge 0 1 9 = edge 2
        edge 0 1 9 = edge 3
        edge 0 1 9 = edge 6
        edge 0 1 9 = edge 8
    ";
    stable(&rt, rt.alloc(), Scene::Rows(ROWS));
}

#[test]
fn all_redundant_edges_go(rt: HostRuntime) {
    // No node reaches all others.
    const ROWS: &str = "
        nodes 5 = done
        edges 4 2 0, 2 1 1, 4 1 2, 3 1 3, 3 2 4 = edges 0 1 2 3 4
    ";
    const ACTS: &[Act<'static>] = &[
        Act::ReduceAll,
        Act::Rows(
            "
            counts = counts 5 3
            find 4 1 = nothing
            find 3 1 = nothing
        ",
        ),
    ];
    acts_of_both(&rt, rt.alloc(), ROWS, ACTS);
}

#[test]
fn roots_that_miss_change_nothing(rt: HostRuntime) {
    const ROWS: &str = "
        nodes 3 = done
        reduce 0 0 9 = done
        counts = counts 3 0
        edges 0 1 0, 1 2 1, 0 2 2 = edges 0 1 2
        reduce 1 = done
        reduce 99 = done
        reduce = done
        counts = counts 3 3
        reduce 0 9 0 = done
        counts = counts 3 2
        stored 0 = stored 0 1 0
        stored 1 = stored 1 2 1
    ";
    both(&rt, rt.alloc(), Scene::Rows(ROWS));
}

#[test]
fn all_edges_of_a_pair_stay_or_go(rt: HostRuntime) {
    const ROWS: &str = "
        nodes 4 = done
        edges 0 1 0, 0 2 1, 1 2 2, 1 2 3, 2 3 4 = edges 0 1 2 3 4
        reduce 0 = done
        counts = counts 4 4
        children 0 = walk 0 1
        children 1 = walk 3 2, 2 2
        children 2 = walk 1 3
        parents 2 = walk 3 1, 2 1
        stored 0 = stored 0 1 0
        stored 1 = stored 2 3 4
        stored 2 = stored 1 2 2
        stored 3 = stored 1 2 3
    ";
    compact(&rt, rt.alloc(), Scene::Rows(ROWS));
}

#[test]
fn a_full_dag_is_reduced(rt: HostRuntime) {
    const ROWS: &str = "
        nodes 3 = done
        edges 0 1 0, 1 2 0 = edges 0 1
        fill 0 2 = done
        reduce 0 = done
        counts = counts 3 2
        stored 0 = stored 0 1 0
        stored 1 = stored 1 2 0
        fill 0 1 = done
        reduce 0 = done
        counts = counts 3 255
    ";
    compact(&rt, rt.alloc(), Scene::Rows(ROWS));
}

// Adds a chain of `count` diamonds: two ways from each third node to the next one.
fn add_diamonds<Ix: IndexType, S: Store<Ix, NodeWeight = u32, EdgeWeight = u32>>(
    rt: &impl Abort,
    dag: &mut Acyclic<u32, u32, Ix, S>,
    count: usize,
) {
    let mut edges = 0usize;
    for k in 0..count {
        let n = k.wrapping_mul(3);
        for (from, to) in [(0usize, 1usize), (0, 2), (1, 3), (2, 3)] {
            let ends = (n.wrapping_add(from), n.wrapping_add(to));
            is(rt, edge_added(rt, dag, ends, 0), Answer::Edge(edges));
            edges = edges.wrapping_add(1);
        }
    }
}

/// Forty diamonds in a chain, along which 2^40 paths lead. No edge of theirs is redundant, and an
/// edge from the first node of a diamond to the last one is.
pub fn reduce_diamonds<Ix: IndexType, S: Store<Ix, NodeWeight = u32, EdgeWeight = u32>>(
    rt: &impl Abort,
    alloc: Global,
    dag: &mut Acyclic<u32, u32, Ix, S>,
) {
    let mut all = Vec::new(alloc);
    for n in 0usize..121 {
        made(rt, all.push(n));
    }
    let all = all.as_slice();
    fill_nodes(rt, dag, 121);
    add_diamonds(rt, dag, 40);
    play_row(rt, alloc, dag, Call::Reduce(all), Answer::Done);
    play_row(rt, alloc, dag, Call::Counts, Answer::Counts(121, 160));
    play_row(rt, alloc, dag, Call::Edge(0, 3, 7), Answer::Edge(160));
    play_row(rt, alloc, dag, Call::Reduce(all), Answer::Done);
    play_row(rt, alloc, dag, Call::Counts, Answer::Counts(121, 160));
    play_row(rt, alloc, dag, Call::Find(0, 3), Answer::Nothing);
}

#[test]
fn a_chain_of_diamonds_is_reduced_without_walking_its_paths(rt: HostRuntime) {
    both(&rt, rt.alloc(), Scene::Diamonds);
}
