use super::scenes::{Scene, both};
use super::support::{Plain, Step, goes, node, same, six};
use daggy_base::store::Store;
use daggy_walk::walker::{Filter, Inspect, SkipWhile, Take, TakeWhile};
use std::alloc::Global;
use std::process::Abort;

pub fn questions<S: Store<u32, NodeWeight = u32, EdgeWeight = u32>>(
    rt: &impl Abort,
    alloc: Global,
) {
    let dag: Plain<S> = six(rt, alloc);
    let all = dag.children(node(rt, 6));

    let mut asked = 0u32;
    let mut every_other = Filter::new(all, |_: &Plain<S>, _: &Step| {
        asked = asked.wrapping_add(1);
        asked % 2 == 0
    });
    goes(
        rt,
        &dag,
        &mut every_other,
        &[Some(4), Some(2), Some(0), None],
    );
    same(rt, asked, 6);

    let mut asked = 0u32;
    let mut first_two = TakeWhile::new(all, |_: &Plain<S>, _: &Step| {
        asked = asked.wrapping_add(1);
        asked < 3
    });
    goes(rt, &dag, &mut first_two, &[Some(5), Some(4), None, None]);
    same(rt, asked, 3);

    let mut asked = 0u32;
    let mut but_one = SkipWhile::new(all, |_: &Plain<S>, _: &Step| {
        asked = asked.wrapping_add(1);
        asked < 2
    });
    goes(
        rt,
        &dag,
        &mut but_one,
        &[Some(4), Some(3), Some(2), Some(1), Some(0), None],
    );
    same(rt, asked, 2);

    let mut asked = 0u32;
    let mut shown = Inspect::new(Take::new(all, 3), |_: &Plain<S>, _: &Step| {
        asked = asked.wrapping_add(1);
    });
    goes(rt, &dag, &mut shown, &[Some(5), Some(4), Some(3), None]);
    same(rt, asked, 3);
}

#[test]
fn a_predicate_is_asked_as_often_as_it_must(rt: HostRuntime) {
    both(&rt, rt.alloc(), Scene::Questions);
}
