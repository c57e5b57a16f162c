use super::scenes::{Scene, both};
use super::support::{Plain, Step, add_edge, dag_of, edge, goes, node};
use daggy_base::store::Store;
use daggy_walk::walker::{
    Chain, Cycle, Filter, Inspect, Peekable, Skip, SkipWhile, Take, TakeWhile, Walker,
};
use std::alloc::Global;
use std::process::Abort;

/// Nodes 0 to 2 and edges from 0 to 1 and from 0 to 2. A walk over the children of 0 is begun; its
/// edge is removed, and one step is taken. Then the edge from 1 to 2 gets that index, and two steps
/// are taken.
fn over_an_edge_that_changes<S, W>(
    rt: &impl Abort,
    mut dag: Plain<S>,
    mut walker: W,
    wanted: [Option<usize>; 3],
)
where
    S: Store<u32, NodeWeight = u32, EdgeWeight = u32>,
    W: Walker<Plain<S>, Item = Step>,
    requires { (w : W) (g : _) → W.can_walk w g }
{
    dag.remove_edge(edge(rt, 1));
    goes(rt, &dag, &mut walker, &[wanted[0]]);
    add_edge(rt, &mut dag, 1, 2);
    goes(rt, &dag, &mut walker, &[wanted[1], wanted[2]]);
}

fn begun<S: Store<u32, NodeWeight = u32, EdgeWeight = u32>>(
    rt: &impl Abort,
    alloc: Global,
) -> Plain<S> {
    dag_of(rt, alloc, 3, &[(0, 1), (0, 2)])
}

// A walk over the children of a node that had none when it was begun has ended. One that is begun
// after an edge was added yields it, and so does a copy of it.
fn begun_before_and_after<S: Store<u32, NodeWeight = u32, EdgeWeight = u32>>(
    rt: &impl Abort,
    alloc: Global,
) {
    let mut dag: Plain<S> = dag_of(rt, alloc, 2, &[]);
    let mut early = dag.children(node(rt, 0));
    add_edge(rt, &mut dag, 0, 1);
    let mut late = dag.children(node(rt, 0));
    let mut again = late;
    goes(rt, &dag, &mut early, &[None]);
    goes(rt, &dag, &mut late, &[Some(1), None, None]);
    goes(rt, &dag, &mut again, &[Some(1)]);
}

pub fn stale<S: Store<u32, NodeWeight = u32, EdgeWeight = u32>>(rt: &impl Abort, alloc: Global) {
    let dag: Plain<S> = begun(rt, alloc);
    let w = dag.children(node(rt, 0));
    let z = dag.children(node(rt, 1));
    let later = [None, Some(2), None];
    over_an_edge_that_changes::<S, _>(rt, begun(rt, alloc), w, later);
    begun_before_and_after::<S>(rt, alloc);
    over_an_edge_that_changes(rt, dag, Peekable::new(w), later);
    over_an_edge_that_changes::<S, _>(rt, begun(rt, alloc), Take::new(w, 1), [None, None, None]);
    over_an_edge_that_changes::<S, _>(rt, begun(rt, alloc), Chain::new(w, z), [None, None, None]);
    let again = [None, Some(2), Some(2)];
    over_an_edge_that_changes::<S, _>(rt, begun(rt, alloc), Cycle::new(w), again);
    over_an_edge_that_changes::<S, _>(rt, begun(rt, alloc), Skip::new(w, 1), later);
    over_an_edge_that_changes::<S, _>(rt, begun(rt, alloc), Skip::new(w, 0), later);
    let seen = |_: &Plain<S>, _: &Step| ();
    over_an_edge_that_changes::<S, _>(rt, begun(rt, alloc), Inspect::new(w, seen), later);
    let all = |_: &Plain<S>, _: &Step| true;
    over_an_edge_that_changes::<S, _>(rt, begun(rt, alloc), Filter::new(w, all), later);
    over_an_edge_that_changes::<S, _>(
        rt,
        begun(rt, alloc),
        SkipWhile::new(w, all),
        [None, Some(2), None],
    );
    over_an_edge_that_changes::<S, _>(rt, begun(rt, alloc), TakeWhile::new(w, all), later);
}

#[test]
fn a_walk_goes_on_over_an_index_that_was_given_again(rt: HostRuntime) {
    both(&rt, rt.alloc(), Scene::Stale);
}
