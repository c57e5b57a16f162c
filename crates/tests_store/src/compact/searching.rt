use super::support::connect;
use crate::support::{holds, made};
use daggy_base::index::NodeIndex;
use daggy_base::source::EdgeSource;
use daggy_graph::graph::DiGraph;
use daggy_search::{Scratch, reaches};
use std::process::Abort;

// Asserts whether a path leads from one node to another.
fn leads<S: EdgeSource<u8> + Drop>(
    rt: &impl Abort,
    source: &mut S,
    scratch: &mut Scratch<u8>,
    ends: (usize, usize),
    wanted: bool,
) {
    let (from, to) = ends;
    assert!(rt; from < 100 && to < 100);
    let bound = source.node_bound();
    let fits = scratch.fits(bound, 0);
    assert!(rt; fits);
    let reached = reaches(source, NodeIndex::new(from), NodeIndex::new(to), scratch);
    assert_eq!(rt; reached, wanted, "from {from} to {to}");
}

#[test]
fn a_scratch_grows_and_goes_on_fitting(rt: HostRuntime) {
    let mut scratch: Scratch<u32> = Scratch::new(rt.alloc());
    holds(&rt, scratch.fits(0, 0));
    holds(&rt, !scratch.fits(1, 0));
    made(&rt, scratch.reserve(5, 2));
    holds(&rt, scratch.fits(5, 2));
    holds(&rt, scratch.fits(4, 0));
    made(&rt, scratch.reserve(2, 9));
    holds(&rt, scratch.fits(5, 9));
}

#[test]
fn searches_end_in_graphs_with_cycles(rt: HostRuntime) {
    let mut graph: DiGraph<(), (), u8> = DiGraph::new(rt.alloc());
    for _ in 0..6 {
        assert!(rt; graph.can_add_node());
        made(&rt, graph.add_node(()));
    }
    for (a, b) in [(0, 1), (1, 2), (2, 0), (2, 3), (3, 3), (4, 5)] {
        connect(&rt, &mut graph, NodeIndex::new(a), NodeIndex::new(b), ());
    }
    let mut scratch = Scratch::new(rt.alloc());
    made(&rt, scratch.reserve(6, 0));
    for ends in [(0, 2), (2, 1), (0, 3), (3, 3), (4, 5), (5, 5)] {
        leads(&rt, &mut graph, &mut scratch, ends, true);
    }
    for ends in [(3, 0), (0, 5), (5, 4), (9, 9), (0, 9), (9, 0)] {
        leads(&rt, &mut graph, &mut scratch, ends, false);
    }
}
