ghost use Rattle.std.specs.Iterator.{IsFinite};

use super::scenes::{Scene, both};
use super::support::{Plain, Step, far, goes, node, same, six};
use daggy_base::store::Store;
use daggy_walk::walker::{
    Chain, Cycle, Filter, FusedWalker, Inspect, Peekable, Skip, SkipWhile, Take, TakeWhile, Walker,
};
use std::alloc::Global;
use std::iter::FusedIterator;
use std::process::Abort;

/// Asserts the size hint of a walk as an iterator.
fn tells<G, W: Walker<G>>(rt: &impl Abort, graph: &G, walker: W, wanted: Option<usize>) {
    let items = walker.iter(graph);
    same(rt, items.size_hint(), (0, wanted));
}

pub fn hints<S: Store<u32, NodeWeight = u32, EdgeWeight = u32>>(rt: &impl Abort, alloc: Global) {
    let dag: Plain<S> = six(rt, alloc);
    let all = dag.children(node(rt, 6));
    tells(rt, &dag, all, None);
    tells(rt, &dag, Take::new(all, 3), Some(3));
    tells(rt, &dag, Take::new(Take::new(all, 3), 2), Some(2));
    tells(rt, &dag, Take::new(Take::new(all, 2), 3), Some(2));
    tells(rt, &dag, Take::new(Cycle::new(all), 8), Some(8));
    tells(rt, &dag, Skip::new(Take::new(all, 3), 1), Some(3));
    tells(rt, &dag, Cycle::new(Take::new(all, 3)), None);

    let mut both = Chain::new(Take::new(all, 3), Take::new(all, 2));
    same(rt, both.upper_bound(&dag), Some(5));
    goes(rt, &dag, &mut both, &[Some(5), Some(4), Some(3), Some(5)]);
    tells(rt, &dag, both, Some(1));

    let mut ahead = Peekable::new(Take::new(all, 3));
    same(rt, far(ahead.peek(&dag).copied()), Some(5));
    tells(rt, &dag, ahead, Some(3));

    let none = |_: &Plain<S>, _: &Step| false;
    let mut ended = TakeWhile::new(all, none);
    goes(rt, &dag, &mut ended, &[None]);
    tells(rt, &dag, ended, Some(0));
}

/// Takes all `count` items, and asks twice more.
fn rests<I: FusedIterator<Item = Step>>(rt: &impl Abort, mut items: I, count: usize)
    requires can { (s : I) → I.can_next s }
    requires ends { IsFinite (I.remaining items) }
{
    for _ in 0..count {
        same(rt, items.next().is_some(), true);
    }
    same(rt, items.next(), None);
    same(rt, items.next(), None);
}

// That a walker says of itself that nothing comes after the end.
fn is_fused<G, W: FusedWalker<G>>(_walker: &W) {}

pub fn ends<S: Store<u32, NodeWeight = u32, EdgeWeight = u32>>(rt: &impl Abort, alloc: Global) {
    let dag: Plain<S> = six(rt, alloc);
    let all = dag.children(node(rt, 6));
    rests(rt, all.iter(&dag), 6);
    rests(rt, dag.parents(node(rt, 2)).iter(&dag), 1);
    rests(rt, Take::new(all, 2).iter(&dag), 2);
    is_fused::<Plain<S>, _>(&Skip::new(all, 2));
    is_fused::<Plain<S>, _>(&Chain::new(all, all));
    is_fused::<Plain<S>, _>(&Peekable::new(all));
    let even = |_: &Plain<S>, item: &Step| item.1.index() % 2 == 0;
    is_fused::<Plain<S>, _>(&Filter::new(all, even));
    is_fused::<Plain<S>, _>(&SkipWhile::new(all, even));
    is_fused::<Plain<S>, _>(&TakeWhile::new(all, even));
    is_fused::<Plain<S>, _>(&Inspect::new(all, |_: &Plain<S>, _: &Step| ()));
}

#[test]
fn a_bound_on_the_items_is_told(rt: HostRuntime) {
    both(&rt, rt.alloc(), Scene::Hints);
}

#[test]
fn nothing_comes_after_the_end(rt: HostRuntime) {
    both(&rt, rt.alloc(), Scene::Ends);
}
