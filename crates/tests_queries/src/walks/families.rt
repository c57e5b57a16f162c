use super::scenes::{Scene, both};
use super::support::{
    Plain, add_child, add_parent, dag_of, edge_weight, family, far, goes, lists, node, numbers,
    same, steps, weight,
};
use daggy_base::store::Store;
use daggy_walk::walker::Walker;
use std::alloc::Global;
use std::process::Abort;

pub fn down<S: Store<u32, NodeWeight = u32, EdgeWeight = u32>>(rt: &impl Abort, alloc: Global) {
    let mut dag: Plain<S> = family(rt, alloc, &[(0, 0), (0, 0), (0, 0)]);
    let mut walker = dag.children(node(rt, 0));
    let all = walker;
    steps(
        rt,
        &dag,
        &mut walker,
        &[Some((2, 3)), Some((1, 2)), Some((0, 1)), None],
    );
    lists(rt, &dag, all, &[(2, 3), (1, 2), (0, 1)]);
    for _ in 0..3 {
        add_child(rt, &mut dag, 2, 0, 0);
    }
    walker = dag.children(node(rt, 2));
    let all = walker;
    steps(
        rt,
        &dag,
        &mut walker,
        &[Some((5, 6)), Some((4, 5)), Some((3, 4)), None],
    );
    lists(rt, &dag, all, &[(5, 6), (4, 5), (3, 4)]);
}

pub fn up<S: Store<u32, NodeWeight = u32, EdgeWeight = u32>>(rt: &impl Abort, alloc: Global) {
    let mut dag: Plain<S> = dag_of(rt, alloc, 1, &[]);
    for _ in 0..4 {
        add_parent(rt, &mut dag, 0, 0, 0);
    }
    let all = dag.parents(node(rt, 0));
    let mut walker = all;
    steps(
        rt,
        &dag,
        &mut walker,
        &[Some((3, 4)), Some((2, 3)), Some((1, 2)), Some((0, 1)), None],
    );
    lists(rt, &dag, all, &[(3, 4), (2, 3), (1, 2), (0, 1)]);
}

pub fn places<S: Store<u32, NodeWeight = u32, EdgeWeight = u32>>(rt: &impl Abort, alloc: Global) {
    let dag: Plain<S> = family(rt, alloc, &[(0, 0), (0, 0), (0, 0)]);
    let all = dag.children(node(rt, 0));
    same(rt, all.iter(&dag).count(), 3);
    same(rt, numbers(all.iter(&dag).last()), Some((0, 1)));
    same(rt, numbers(all.iter(&dag).nth(2)), Some((0, 1)));
    same(rt, numbers(all.iter(&dag).nth(3)), None);
}

pub fn weights<S: Store<u32, NodeWeight = u32, EdgeWeight = u32>>(rt: &impl Abort, alloc: Global) {
    let dag: Plain<S> = family(rt, alloc, &[(1, 10), (2, 20), (3, 30)]);
    let wanted = [(3, 30), (2, 20), (1, 10)];
    let mut count = 0usize;
    for item in dag.children(node(rt, 0)).iter(&dag) {
        let found = (edge_weight(&dag, &item), weight(&dag, &item));
        same(rt, Some(found), wanted.get(count).copied());
        count = count.wrapping_add(1);
    }
    same(rt, count, 3);
}

pub fn sought<S: Store<u32, NodeWeight = u32, EdgeWeight = u32>>(rt: &impl Abort, alloc: Global) {
    for (weights, added, all_even, any_even, even) in [
        (
            [0, 2, 4],
            7,
            [true, false],
            [true, true],
            [Some(3), Some(3)],
        ),
        ([1, 3, 5], 6, [false, false], [false, true], [None, Some(4)]),
        ([1, 3, 5], 4, [false, false], [false, true], [None, Some(4)]),
    ] {
        let mut dag: Plain<S> = family(
            rt,
            alloc,
            &[(0, weights[0]), (0, weights[1]), (0, weights[2])],
        );
        for round in 0..2usize {
            let children = dag.children(node(rt, 0));
            let is_even = |item: &(_, _)| weight(&dag, item) % 2 == 0;
            same(
                rt,
                children.iter(&dag).all(|item| is_even(&item)),
                all_even[round],
            );
            same(
                rt,
                children.iter(&dag).any(|item| is_even(&item)),
                any_even[round],
            );
            let found = children.iter(&dag).find(is_even);
            same(rt, far(found), even[round]);
            add_child(rt, &mut dag, 0, 0, added);
        }
    }
}

pub fn summed<S: Store<u32, NodeWeight = u32, EdgeWeight = u32>>(rt: &impl Abort, alloc: Global) {
    let dag: Plain<S> = family(rt, alloc, &[(1, 1), (2, 2), (3, 3)]);
    let sum = dag
        .children(node(rt, 0))
        .iter(&dag)
        .fold(0u32, |sum, item| {
            sum.wrapping_add(edge_weight(&dag, &item))
                .wrapping_add(weight(&dag, &item))
        });
    same(rt, sum, 12);
}

pub fn ancestry<S: Store<u32, NodeWeight = u32, EdgeWeight = u32>>(rt: &impl Abort, alloc: Global) {
    let mut dag: Plain<S> = family(rt, alloc, &[(0, 0)]);
    add_child(rt, &mut dag, 1, 0, 0);
    let mut walker = dag.recursive_walk(node(rt, 2), |dag: &Plain<S>, n| {
        dag.parents(n).iter(dag).find(|item| edge_weight(dag, item) == 0 && weight(dag, item) == 0)
    });
    goes(rt, &dag, &mut walker, &[Some(1), Some(0), None]);
}

#[test]
fn children_are_walked_newest_first(rt: HostRuntime) {
    both(&rt, rt.alloc(), Scene::Down);
}

#[test]
fn parents_are_walked_newest_first(rt: HostRuntime) {
    both(&rt, rt.alloc(), Scene::Up);
}

#[test]
fn children_are_counted_and_found_by_place(rt: HostRuntime) {
    both(&rt, rt.alloc(), Scene::Places);
}

#[test]
fn weights_of_children_are_read(rt: HostRuntime) {
    both(&rt, rt.alloc(), Scene::Weights);
}

#[test]
fn children_are_found_by_their_weights(rt: HostRuntime) {
    both(&rt, rt.alloc(), Scene::Sought);
}

#[test]
fn weights_of_children_are_added_up(rt: HostRuntime) {
    both(&rt, rt.alloc(), Scene::Summed);
}

#[test]
fn a_walk_up_chooses_its_parents(rt: HostRuntime) {
    both(&rt, rt.alloc(), Scene::Ancestry);
}
