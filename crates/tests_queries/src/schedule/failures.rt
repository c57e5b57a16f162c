//! Dags that are worked off while nodes fail.
ghost use Rattle.daggy_schedule.specs.Fallible.{IsUnderWayWithFailures};

use super::scenes::{Scene, compact, stable};
use super::support::{Plain, dag_of};
use crate::support::{holds, lists, made, node, same};
use daggy_base::index::NodeIndex;
use daggy_base::store::Store;
use daggy_schedule::fallible_ready::FallibleReady;
use std::alloc::{AllocError, Global};
use std::process::Abort;

/// A dag that is worked off. It does not change, so the work on it stays under way.
#[derive(Drop)]
struct Shop<'a, S: Store<u32, NodeWeight = u64, EdgeWeight = ()>> {
    dag: &'a Plain<S>,
    ready: FallibleReady,
    ghost under_way: { IsUnderWayWithFailures dag.now.graph ready },
}

impl<'a, S: Store<u32, NodeWeight = u64, EdgeWeight = ()>> Shop<'a, S> {
    // The node that is to begin, if any is ready.
    fn begin(&mut self) -> Option<NodeIndex> {
        let dag = self.dag;
        self.ready.next(dag)
    }

    // A node has ended. It failed if its weight is 0. Whether it was in progress.
    fn end(&mut self, n: NodeIndex) -> bool {
        let dag = self.dag;
        let was_out = self.ready.is_out(n);
        if was_out {
            if dag.node_weight(n) == Some(&0) {
                self.ready.fail(dag, n);
            } else {
                self.ready.done(dag, n);
            }
        }
        was_out && !self.ready.is_out(n)
    }

    fn waiting_count(&self) -> usize {
        self.ready.waiting_count(self.dag)
    }

    fn skipped(&self, alloc: Global) -> Result<Vec<NodeIndex>, AllocError> {
        self.ready.skipped(alloc, self.dag)
    }
}

// Works a dag off, one node after the other. Asserts which nodes are returned, in order, how many of
// them fail, and which nodes are skipped.
fn ends<S: Store<u32, NodeWeight = u64, EdgeWeight = ()>>(
    rt: &impl Abort,
    alloc: Global,
    dag: &Plain<S>,
    returned: &[usize],
    failures: usize,
    skipped: &[usize],
) {
    let ready = made(rt, FallibleReady::new(alloc, dag));
    let mut shop = Shop { dag, ready };
    for index in returned {
        let n = node(rt, *index);
        holds(rt, !shop.ready.is_over());
        holds(rt, shop.begin() == Some(n));
        same(rt, shop.ready.out_count(), 1);
        holds(rt, shop.end(n));
    }
    holds(rt, shop.begin().is_none());
    holds(rt, shop.ready.is_over());
    same(rt, shop.ready.ready_count(), 0);
    same(rt, shop.ready.out_count(), 0);
    same(rt, shop.ready.failed_count(), failures);
    same(rt, shop.waiting_count(), skipped.len());
    lists(rt, made(rt, shop.skipped(alloc)).as_slice(), skipped);
}

pub fn works_off_failing<S: Store<u32, NodeWeight = u64, EdgeWeight = ()>>(
    rt: &impl Abort,
    alloc: Global,
) {
    // The newest edge of node 0 comes first, so node 2 is ready before node 1.
    let diamond = [(0, 1), (0, 2), (1, 3), (2, 3)];
    let none = dag_of::<S>(rt, alloc, &[1, 1, 1, 1], &diamond);
    ends(rt, alloc, &none, &[0, 2, 1, 3], 0, &[]);
    let one = dag_of::<S>(rt, alloc, &[1, 0, 1, 1], &diamond);
    ends(rt, alloc, &one, &[0, 2, 1], 1, &[3]);
    let both = dag_of::<S>(rt, alloc, &[1, 0, 0, 1], &diamond);
    ends(rt, alloc, &both, &[0, 2, 1], 2, &[3]);
    let first = dag_of::<S>(rt, alloc, &[0, 1, 1, 1], &diamond);
    ends(rt, alloc, &first, &[0], 1, &[1, 2, 3]);
    let all = dag_of::<S>(rt, alloc, &[0, 0, 0], &[]);
    ends(rt, alloc, &all, &[0, 1, 2], 3, &[]);
    // What node 1 does not reach goes on, whatever the order of the indices.
    let chains = dag_of::<S>(rt, alloc, &[1, 0, 1, 1, 1], &[(4, 1), (1, 0), (0, 2)]);
    ends(rt, alloc, &chains, &[3, 4, 1], 1, &[0, 2]);
}

// The same, and past a vacant slot.
pub fn works_off_failing_past_a_slot<S: Store<u32, NodeWeight = u64, EdgeWeight = ()>>(
    rt: &impl Abort,
    alloc: Global,
) {
    works_off_failing::<S>(rt, alloc);
    let mut dag = dag_of::<S>(rt, alloc, &[1, 9, 0, 1], &[(0, 1), (1, 3), (2, 3)]);
    holds(rt, dag.remove_node(node(rt, 1)).is_some());
    ends(rt, alloc, &dag, &[0, 2], 1, &[3]);
}

#[test]
fn works_off_a_dag_with_failures(rt: HostRuntime) {
    compact(&rt, rt.alloc(), Scene::Failures);
}

#[test]
fn works_off_a_stable_dag_with_failures(rt: HostRuntime) {
    stable(&rt, rt.alloc(), Scene::FailuresPastASlot);
}
