use super::scenes::{Scene, both};
use super::support::{
    Plain, Step, add_parent, dag_of, far, goes, is_copy, made, node, numbers, same, six, weight,
};
use daggy_base::store::Store;
use daggy_walk::walker::{
    Chain, Cycle, Filter, Inspect, Peekable, Skip, SkipWhile, Take, TakeWhile, Walker,
};
use std::alloc::Global;
use std::process::Abort;

pub fn cuts<S: Store<u32, NodeWeight = u32, EdgeWeight = u32>>(rt: &impl Abort, alloc: Global) {
    let dag: Plain<S> = six(rt, alloc);
    let all = dag.children(node(rt, 6));
    goes(
        rt,
        &dag,
        &mut Skip::new(all, 3),
        &[Some(2), Some(1), Some(0), None],
    );
    goes(rt, &dag, &mut Skip::new(all, 8), &[None, None]);
    goes(
        rt,
        &dag,
        &mut Take::new(all, 3),
        &[Some(5), Some(4), Some(3), None],
    );
    goes(rt, &dag, &mut Take::new(all, 0), &[None, None]);
    goes(
        rt,
        &dag,
        &mut Take::new(Cycle::new(all), 8),
        &[
            Some(5),
            Some(4),
            Some(3),
            Some(2),
            Some(1),
            Some(0),
            Some(5),
            Some(4),
            None,
        ],
    );
    let none = dag.children(node(rt, 0));
    goes(rt, &dag, &mut Cycle::new(none), &[None, None]);
}

pub fn tests<S: Store<u32, NodeWeight = u32, EdgeWeight = u32>>(rt: &impl Abort, alloc: Global) {
    let dag: Plain<S> = six(rt, alloc);
    let all = dag.children(node(rt, 6));
    let mut even = Filter::new(
        all,
        |dag: &Plain<S>, item: &Step| weight(dag, item) % 2 == 0,
    );
    goes(rt, &dag, &mut even, &[Some(4), Some(2), Some(0), None]);
    let mut below = SkipWhile::new(all, |dag: &Plain<S>, item: &Step| weight(dag, item) >= 3);
    goes(rt, &dag, &mut below, &[Some(2), Some(1), Some(0), None]);
    let mut above = TakeWhile::new(all, |dag: &Plain<S>, item: &Step| weight(dag, item) > 2);
    goes(
        rt,
        &dag,
        &mut above,
        &[Some(5), Some(4), Some(3), None, None],
    );
}

pub fn chains<S: Store<u32, NodeWeight = u32, EdgeWeight = u32>>(rt: &impl Abort, alloc: Global) {
    let dag: Plain<S> = dag_of(rt, alloc, 6, &[(0, 1), (0, 2), (0, 3), (2, 4), (2, 5)]);
    let mut both = Chain::new(dag.children(node(rt, 2)), dag.children(node(rt, 0)));
    goes(
        rt,
        &dag,
        &mut both,
        &[Some(5), Some(4), Some(3), Some(2), Some(1), None],
    );
}

pub fn peeks<S: Store<u32, NodeWeight = u32, EdgeWeight = u32>>(rt: &impl Abort, alloc: Global) {
    let dag: Plain<S> = dag_of(rt, alloc, 4, &[(0, 1), (0, 2), (0, 3)]);
    let mut children = Peekable::new(dag.children(node(rt, 0)));
    same(rt, far(children.peek(&dag).copied()), Some(3));
    goes(rt, &dag, &mut children, &[Some(3), Some(2)]);
    same(rt, far(children.peek(&dag).copied()), Some(1));
    same(rt, far(children.peek(&dag).copied()), Some(1));
    goes(rt, &dag, &mut children, &[Some(1)]);
    same(rt, far(children.peek(&dag).copied()), None);
    goes(rt, &dag, &mut children, &[None]);
}

pub fn leads<S: Store<u32, NodeWeight = u32, EdgeWeight = u32>>(rt: &impl Abort, alloc: Global) {
    let mut dag: Plain<S> = dag_of(rt, alloc, 3, &[(0, 1), (1, 2)]);
    let mut up = dag.recursive_walk(
        node(rt, 2),
        |dag: &Plain<S>, n| dag.parents(n).walk_next(dag),
    );
    same(rt, numbers(up.walk_next(&dag)), Some((1, 1)));
    same(rt, numbers(up.walk_next(&dag)), Some((0, 0)));
    same(rt, numbers(up.walk_next(&dag)), None);
    add_parent(rt, &mut dag, 0, 0, 0);
    same(rt, numbers(up.walk_next(&dag)), Some((2, 3)));
    same(rt, numbers(up.walk_next(&dag)), None);
}

pub fn copies<S: Store<u32, NodeWeight = u32, EdgeWeight = u32>>(rt: &impl Abort, alloc: Global) {
    let dag: Plain<S> = six(rt, alloc);
    let mut first = Take::new(dag.children(node(rt, 6)), 3);
    let mut second = made(rt, first.clone());
    goes(rt, &dag, &mut first, &[Some(5), Some(4)]);
    goes(rt, &dag, &mut second, &[Some(5), Some(4), Some(3), None]);
    goes(rt, &dag, &mut first, &[Some(3), None]);
}

pub fn are_copy<S: Store<u32, NodeWeight = u32, EdgeWeight = u32>>(rt: &impl Abort, alloc: Global) {
    let dag: Plain<S> = six(rt, alloc);
    let all = dag.children(node(rt, 6));
    is_copy(&dag, &Chain::new(all, all));
    is_copy(&dag, &Cycle::new(all));
    is_copy(&dag, &Peekable::new(all));
    is_copy(&dag, &Skip::new(all, 1));
    is_copy(&dag, &Take::new(all, 1));
    is_copy(&dag, &Filter::new(all, |_: &Plain<S>, _: &Step| true));
    is_copy(&dag, &SkipWhile::new(all, |_: &Plain<S>, _: &Step| true));
    is_copy(&dag, &TakeWhile::new(all, |_: &Plain<S>, _: &Step| true));
    is_copy(&dag, &Inspect::new(all, |_: &Plain<S>, _: &Step| {}));
    is_copy(
        &dag,
        &dag.recursive_walk(
            node(rt, 0),
            |dag: &Plain<S>, n| dag.parents(n).walk_next(dag),
        ),
    );
}

#[test]
fn adapters_of_copy_walkers_are_copy(rt: HostRuntime) {
    both(&rt, rt.alloc(), Scene::AreCopy);
}

#[test]
fn walks_are_cut(rt: HostRuntime) {
    both(&rt, rt.alloc(), Scene::Cuts);
}

#[test]
fn items_are_tested(rt: HostRuntime) {
    both(&rt, rt.alloc(), Scene::Tests);
}

#[test]
fn one_list_comes_after_another(rt: HostRuntime) {
    both(&rt, rt.alloc(), Scene::Chains);
}

#[test]
fn a_look_ahead_takes_no_step(rt: HostRuntime) {
    both(&rt, rt.alloc(), Scene::Peeks);
}

#[test]
fn a_walk_up_goes_on_after_a_parent_was_added(rt: HostRuntime) {
    both(&rt, rt.alloc(), Scene::Leads);
}

#[test]
fn a_copied_walk_goes_its_own_way(rt: HostRuntime) {
    both(&rt, rt.alloc(), Scene::Copies);
}
