//! Many edges or elements at once, in both kinds.
use super::ordering::indices;
use super::script::{Answer, Call};
use super::support::{made, node, same};
use super::table::{Part, Scene, both, edge_added, fill_nodes, is, items, play_row, walk};
use daggy_base::error::EdgesError;
use daggy_base::index::IndexType;
use daggy_base::store::Store;
use daggy_dag::acyclic::Acyclic;
use daggy_walk::walker::Walker;
use std::alloc::Global;
use std::process::Abort;

#[test]
fn a_series_gives_its_indices_in_order(rt: HostRuntime) {
    const ROWS: &str = "
        node 0 = node 0
        node 1 = node 1
        node 2 = node 2
        node 3 = node 3
        edges = edges
        edges 0 1 0, 0 2 1, 0 3 2 = edges 0 1 2
        stored 1 = stored 0 2 1
        find 0 2 = edge 1
        children 0 = walk 2 3, 1 2, 0 1
        edge 3 0 0 = cycle 0
    ";
    both(&rt, rt.alloc(), Scene::Rows(ROWS));
}

#[test]
fn a_series_that_closes_a_cycle_adds_nothing(rt: HostRuntime) {
    const ROWS: &str = "
        node 0 = node 0
        node 1 = node 1
        node 2 = node 2
        node 3 = node 3
        edges 0 1 0, 0 2 1, 0 3 2, 3 3 3 = cycle_all 3 2 1 0
        edges 0 1 0, 0 2 1, 0 3 2, 3 0 3 = cycle_all 3 2 1 0
        counts = counts 4 0
        children 0 = walk
        children 3 = walk
        parents 0 = walk
        parents 1 = walk
        parents 3 = walk
    ";
    both(&rt, rt.alloc(), Scene::Rows(ROWS));
}

#[test]
fn a_cycle_in_the_middle_of_a_series_is_found_at_its_end(rt: HostRuntime) {
    const ROWS: &str = "
        node 0 = node 0
        node 1 = node 1
        node 2 = node 2
        edges 0 1 1 = edges 0
        edges 1 2 2, 2 0 3, 0 2 4 = cycle_all 4 3 2
        children 0 = walk 0 1
        children 1 = walk
    ";
    both(&rt, rt.alloc(), Scene::Rows(ROWS));
}

// A path from node 0 to node 4 that the order has first, and then five edges of two nodes each.
const CONFLICTS: &str = "
    nodes 15 = done
    edges 0 1 0, 1 2 0, 2 3 0, 3 4 0 = edges 0 1 2 3
    edges 5 6 0, 7 8 0, 9 10 0, 11 12 0, 13 14 0 = edges 4 5 6 7 8
";

// Each item needs a search of the whole path. The order is abandoned at the last one.
#[test]
fn a_series_may_need_many_searches(rt: HostRuntime) {
    const ROWS: &str = "
        edges 6 0 1, 8 0 2, 10 0 3, 12 0 4, 14 0 5 = edges 9 10 11 12 13
        edge 4 13 6 = cycle 6
        edge 4 5 7 = cycle 7
        edge 6 13 8 = edge 14
    ";
    const CYCLE: &str = "
        edges 6 0 1, 8 0 2, 10 0 3, 12 0 4, 14 0 5, 4 5 6, 0 2 7 = cycle_all 7 6 5 4 3 2 1
        counts = counts 15 9
        edge 4 5 8 = edge 9
    ";
    both(&rt, rt.alloc(), Scene::Twice(CONFLICTS, ROWS));
    both(&rt, rt.alloc(), Scene::Twice(CONFLICTS, CYCLE));
}

/// A series ends at the first item at fault, and its iterator still holds what comes after.
pub fn end_at_a_fault<Ix: IndexType, S: Store<Ix, NodeWeight = u32, EdgeWeight = u32>>(
    rt: &impl Abort,
    alloc: Global,
    dag: &mut Acyclic<u32, u32, Ix, S>,
) {
    fill_nodes(rt, dag, 2);
    let list = items(rt, alloc, &[(0, 1, 8), (1, 0, 9), (0, 9, 3), (9, 9, 4)]);
    let mut items = list.into_iter();
    match dag.add_edges(&mut items) {
        Err(EdgesError::BadEndpoint { last, before }) => {
            is(
                rt,
                Answer::NoEndAt(last, before.as_slice()),
                Answer::NoEndAt(3, &[9, 8]),
            );
        }
        _ => panic!(rt; "an end is missing"),
    }
    same(rt, items.next(), Some((node(rt, 9), node(rt, 9), 4)));
}

#[test]
fn the_first_item_at_fault_ends_a_series(rt: HostRuntime) {
    both(&rt, rt.alloc(), Scene::Fault);
}

#[test]
fn an_extension_keeps_what_it_made(rt: HostRuntime) {
    both(
        &rt,
        rt.alloc(),
        Scene::Rows(
            "
            extend 0 1 5, 1 2 6, 2 0 7, 0 3 8 = cycle 7
            counts = counts 3 2
            weight 2 = weight 0
            stored 0 = stored 0 1 5
            stored 1 = stored 1 2 6
        ",
        ),
    );
}

#[test]
fn an_extension_makes_the_nodes_before_an_end(rt: HostRuntime) {
    const ROWS: &str = "
        extend 0 1 5, 5 5 6 = cycle 6
        counts = counts 6 1
        stored 0 = stored 0 1 5
    ";
    both(&rt, rt.alloc(), Scene::Rows(ROWS));
}

#[test]
fn an_extension_needs_an_index_for_each_node_and_edge(rt: HostRuntime) {
    const ROWS: &str = "
        extend 0 255 4 = no_index 4
        counts = counts 0 0
        extend 0 254 0 = done
        counts = counts 255 1
    ";
    const FULL: &str = "
        nodes 2 = done
        fill 0 1 = done
        extend 0 2 3 = no_index 3
    ";
    both(&rt, rt.alloc(), Scene::Rows(ROWS));
    both(&rt, rt.alloc(), Scene::Rows(FULL));
}

#[test]
fn a_dag_is_made_of_edges(rt: HostRuntime) {
    const ROWS: &str = "
        counts = counts 3 3
        weight 2 = weight 0
        children 0 = walk 2 2, 0 1
        stored 0 = stored 0 1 0
    ";
    both(
        &rt,
        rt.alloc(),
        Scene::OfPairs(&[(0, 1), (1, 2), (0, 2)], Answer::Done, ROWS),
    );
}

#[test]
fn edges_that_close_a_cycle_make_no_dag(rt: HostRuntime) {
    both(
        &rt,
        rt.alloc(),
        Scene::OfPairs(&[(0, 1), (1, 0)], Answer::Cycle(0), ""),
    );
}

#[test]
fn a_dag_of_edges_needs_an_index_for_each_node_and_edge(rt: HostRuntime) {
    const PAST: &[(usize, usize)] = &[(0, 255)];
    const MOST: &[(usize, usize)] = &[(0, 1); 255];
    const MORE: &[(usize, usize)] = &[(0, 1); 256];
    const FULL: Answer<'static> = Answer::NoIndex(0);
    const ROWS: &str = "counts = counts 2 255";
    const NO_ROWS: &str = "";
    both(&rt, rt.alloc(), Scene::OfPairs(PAST, FULL, NO_ROWS));
    both(&rt, rt.alloc(), Scene::OfPairs(MOST, Answer::Done, ROWS));
    both(&rt, rt.alloc(), Scene::OfPairs(MORE, FULL, NO_ROWS));
}

#[test]
fn elements_are_nodes_and_edges_by_position(rt: HostRuntime) {
    const PARTS: &[Part] = &[
        Part::Node(1),
        Part::Node(2),
        Part::Edge(0, 1, 7),
        Part::Edge(0, 1, 8),
    ];
    const ROWS: &str = "
        counts = counts 2 1
        weight 1 = weight 2
        stored 0 = stored 0 1 8
    ";
    both(&rt, rt.alloc(), Scene::OfParts(PARTS, Answer::Done, ROWS));
}

#[test]
fn an_element_needs_the_nodes_at_its_ends(rt: HostRuntime) {
    const PARTS: &[Part] = &[Part::Node(1), Part::Edge(300, 0, 9)];
    both(&rt, rt.alloc(), Scene::OfParts(PARTS, Answer::NoEnd(9), ""));
}

#[test]
fn an_element_that_closes_a_cycle_is_refused(rt: HostRuntime) {
    const PARTS: &[Part] = &[
        Part::Node(1),
        Part::Node(2),
        Part::Edge(0, 1, 7),
        Part::Edge(1, 0, 4),
    ];
    both(&rt, rt.alloc(), Scene::OfParts(PARTS, Answer::Cycle(4), ""));
}

// `nodes` nodes and `edges` edges between them, no two with the same endpoints. The weight of each
// is its position among its own kind.
fn parts_of(rt: &impl Abort, alloc: Global, nodes: u32, edges: u32) -> Vec<Part> {
    let mut parts = Vec::new(alloc);
    for weight in 0..nodes {
        made(rt, parts.push(Part::Node(weight)));
    }
    let mut count = 0;
    for b in 0..nodes {
        for a in 0..b {
            if count < edges {
                made(rt, parts.push(Part::Edge(a as usize, b as usize, count)));
                count += 1;
            }
        }
    }
    parts
}

#[test]
fn elements_need_an_index_for_each_node_and_edge(rt: HostRuntime) {
    for (nodes, edges, wanted) in [
        (255, 0, Answer::Done),
        (256, 0, Answer::NoNodeIndex(255)),
        (24, 255, Answer::Done),
        (24, 256, Answer::NoIndex(255)),
    ] {
        let parts = parts_of(&rt, rt.alloc(), nodes, edges);
        both(
            &rt,
            rt.alloc(),
            Scene::OfParts(parts.as_slice(), wanted, ""),
        );
    }
}

const ENDS: [(usize, usize); 26] = [
    (1, 4),
    (3, 4),
    (2, 5),
    (3, 5),
    (2, 8),
    (1, 9),
    (1, 8),
    (1, 3),
    (2, 7),
    (1, 7),
    (0, 6),
    (1, 2),
    (0, 7),
    (1, 6),
    (2, 4),
    (0, 1),
    (0, 9),
    (2, 9),
    (2, 6),
    (0, 4),
    (2, 3),
    (0, 2),
    (0, 3),
    (0, 5),
    (0, 8),
    (1, 5),
];

// Adds the edges of the list to ten nodes, one by one.
fn add_one_by_one<Ix: IndexType, S: Store<Ix, NodeWeight = u32, EdgeWeight = u32>>(
    rt: &impl Abort,
    dag: &mut Acyclic<u32, u32, Ix, S>,
) {
    fill_nodes(rt, dag, 10);
    let mut count = 0usize;
    for ends in ENDS {
        is(rt, edge_added(rt, dag, ends, 0), Answer::Edge(count));
        count = count.wrapping_add(1);
    }
}

// Adds the edges of the list to ten nodes, all at once.
fn add_at_once<Ix: IndexType, S: Store<Ix, NodeWeight = u32, EdgeWeight = u32>>(
    rt: &impl Abort,
    alloc: Global,
    dag: &mut Acyclic<u32, u32, Ix, S>,
) {
    fill_nodes(rt, dag, 10);
    let mut edges = Vec::new(alloc);
    for (a, b) in ENDS {
        made(rt, edges.push((a, b, 0)));
    }
    let added = indices(rt, alloc, &[], 0, edges.len());
    let wanted = Answer::Edges(added.as_slice());
    play_row(rt, alloc, dag, Call::Edges(edges.as_slice()), wanted);
}

// Asserts that ten nodes have the same children in two dags.
fn agree<Ix: IndexType, S: Store<Ix, NodeWeight = u32, EdgeWeight = u32>>(
    rt: &impl Abort,
    alloc: Global,
    a: &mut Acyclic<u32, u32, Ix, S>,
    b: &Acyclic<u32, u32, Ix, S>,
) {
    for n in 0..10 {
        let walk = walk(rt, alloc, b, n);
        play_row(
            rt,
            alloc,
            a,
            Call::Children(n),
            Answer::Walk(walk.as_slice()),
        );
    }
}

/// The edges of a sorted list, added one by one to one dag and all at once to another, lead to the
/// same lists.
pub fn add_sorted_list<Ix: IndexType, S: Store<Ix, NodeWeight = u32, EdgeWeight = u32>>(
    rt: &impl Abort,
    alloc: Global,
    dag: &mut Acyclic<u32, u32, Ix, S>,
) {
    let mut other: Acyclic<u32, u32, Ix, S> = Acyclic::new(alloc);
    add_one_by_one(rt, dag);
    add_at_once(rt, alloc, &mut other);
    agree(rt, alloc, dag, &other);
}

#[test]
fn each_edge_of_a_sorted_list_is_accepted(rt: HostRuntime) {
    both(&rt, rt.alloc(), Scene::SortedList);
}
