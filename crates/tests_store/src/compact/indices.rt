use crate::support::{holds, made, same};
use daggy_base::index::{DefaultIx, Direction, EdgeIndex, IndexType, NodeIndex};
use std::collections::HashSet;

#[test]
fn indices_are_ordered_as_their_numbers(rt: HostRuntime) {
    let (two, three): (NodeIndex, NodeIndex) = (NodeIndex::new(2), NodeIndex::new(3));
    holds(&rt, two < three);
    holds(&rt, two != three);
    same(&rt, two, NodeIndex::new(2));
    same(&rt, two.max(three).index(), 3);
    let edge: EdgeIndex = EdgeIndex::new(2);
    holds(&rt, edge < EdgeIndex::end());
    same(&rt, edge, EdgeIndex::new(2));
}

#[test]
fn indices_are_hashed_as_their_numbers(rt: HostRuntime) {
    let two: NodeIndex = NodeIndex::new(2);
    let mut set = HashSet::new(rt.alloc());
    made(&rt, set.insert(two));
    made(&rt, set.insert(NodeIndex::new(3)));
    made(&rt, set.insert(NodeIndex::new(2)));
    same(&rt, set.len(), 2);
}

#[test]
fn indices_are_printed(rt: HostRuntime) {
    let (two, edge): (NodeIndex, EdgeIndex) = (NodeIndex::new(2), EdgeIndex::new(2));
    let text = made(
        &rt,
        format!(in rt.alloc(); "{two:?} {edge:?} {:?}", Direction::Incoming),
    );
    holds(&rt, text.len() > 2);
}

#[test]
fn the_end_is_the_greatest_value(rt: HostRuntime) {
    same(&rt, NodeIndex::<u8>::end().index(), 255);
    same(&rt, EdgeIndex::<u16>::end().index(), 65_535);
    same(&rt, NodeIndex::<DefaultIx>::end().index(), 4_294_967_295);
    same(&rt, EdgeIndex::<usize>::end().index(), usize::MAX);
    same(&rt, <u16 as IndexType>::max().index(), 65_535);
    same(&rt, <u8 as IndexType>::new(7).index(), 7);
}
