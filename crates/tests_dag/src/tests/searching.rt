use super::support::{holds, made};
use daggy_base::index::NodeIndex;
use daggy_base::source::EdgeSource;
use daggy_search::{Scratch, reaches};
use example_model::round::Round;
use std::process::Abort;

// Asserts whether a path leads from one node to another.
fn leads<S: EdgeSource<u8> + Drop>(
    rt: &impl Abort,
    source: &mut S,
    scratch: &mut Scratch<u8>,
    ends: (usize, usize),
    wanted: bool,
) {
    let (from, to) = ends;
    assert!(rt; from < 100 && to < 100);
    let bound = source.node_bound();
    let fits = scratch.fits(bound, 0);
    assert!(rt; fits);
    let reached = reaches(source, NodeIndex::new(from), NodeIndex::new(to), scratch);
    assert_eq!(rt; reached, wanted, "from {from} to {to}");
}

#[test]
fn searches_read_any_source(rt: HostRuntime) {
    let mut scratch: Scratch<u8> = Scratch::new(rt.alloc());
    made(&rt, scratch.reserve(2, 0));
    let mut round = Round::new();
    holds(&rt, round.edge_bound() == 2);
    for ends in [(0, 1), (1, 0), (0, 0)] {
        leads(&rt, &mut round, &mut scratch, ends, true);
    }
    for ends in [(0, 2), (2, 2)] {
        leads(&rt, &mut round, &mut scratch, ends, false);
    }
}
