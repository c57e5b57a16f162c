use super::acts::{Act, TRIANGLE, both};
use super::support::same;
use super::table::{Scene, compact_by};
use daggy_base::index::{EdgeIndex, IndexType, NodeIndex};
use std::alloc::Global;
use std::process::Abort;

fn joins_two_nodes<Ix: IndexType>(rt: &impl Abort, alloc: Global) {
    compact_by::<Ix>(
        rt,
        alloc,
        Scene::Rows(
            "
            node 1 = node 0
            node 2 = node 1
            edge 0 1 7 = edge 0
            edge 1 0 5 = cycle 5
            children 0 = walk 0 1
            find 0 1 = edge 0
        ",
        ),
    );
}

#[test]
fn each_index_type_serves(rt: HostRuntime) {
    joins_two_nodes::<u16>(&rt, rt.alloc());
    joins_two_nodes::<u32>(&rt, rt.alloc());
    joins_two_nodes::<usize>(&rt, rt.alloc());
}

#[test]
fn an_index_becomes_a_number(rt: HostRuntime) {
    same(&rt, usize::from(NodeIndex::<u8>::new(7)), 7);
    same(&rt, usize::from(EdgeIndex::<u8>::new(8)), 8);
    same(&rt, NodeIndex::<u8>::default(), NodeIndex::new(0));
    same(&rt, EdgeIndex::<u8>::default(), EdgeIndex::new(0));
}

#[test]
fn references_to_one_edge_are_equal(rt: HostRuntime) {
    both(&rt, rt.alloc(), TRIANGLE, &[Act::References]);
}
