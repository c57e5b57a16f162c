//! Dags that are worked off by keys, by two workers at a time.
ghost use Rattle.daggy_schedule.specs.ByKey.{IsUnderWayByKey};

use super::scenes::{Scene, compact, stable};
use super::support::{Plain, dag_of};
use crate::support::{holds, lists, made, node};
use daggy_base::index::NodeIndex;
use daggy_base::store::Store;
use daggy_schedule::ready_by_key::ReadyByKey;
use std::alloc::{AllocError, Global};
use std::cmp::Reverse;
use std::collections::VecDeque;
use std::process::Abort;

/// A dag that is worked off by keys. It does not change, so the work on it stays under way.
#[derive(Drop)]
struct Shop<'a, K: Ord, S: Store<u32, NodeWeight = u64, EdgeWeight = ()>> {
    dag: &'a Plain<S>,
    ready: ReadyByKey<K>,
    ghost under_way: { IsUnderWayByKey dag.now.graph ready },
}

impl<'a, K: Ord + Drop, S: Store<u32, NodeWeight = u64, EdgeWeight = ()>> Shop<'a, K, S> {
    // The node that a worker is to begin, if any is ready.
    fn begin(&mut self) -> Option<NodeIndex> {
        let dag = self.dag;
        self.ready.next(dag)
    }

    // A worker has finished a node. Whether it was out.
    fn finish(&mut self, n: NodeIndex) -> bool {
        let dag = self.dag;
        let is_out = self.ready.is_out(n);
        if is_out {
            self.ready.done(dag, n);
        }
        is_out
    }
}

// Up to `workers` nodes are out at a time, and the one that began first finishes, until all is done.
// The nodes, in the order in which they began.
fn work_off<K: Ord + Drop, S: Store<u32, NodeWeight = u64, EdgeWeight = ()>>(
    alloc: Global,
    dag: &Plain<S>,
    ready: ReadyByKey<K>,
    workers: usize,
) -> Result<Vec<NodeIndex>, AllocError>
    requires { IsUnderWayByKey dag.now.graph ready }
{
    let mut shop = Shop { dag, ready };
    let mut busy: VecDeque<NodeIndex> = VecDeque::new(alloc);
    let mut begun = Vec::new(alloc);
    for _turn in 0..dag.node_count() {
        for _worker in busy.len()..workers {
            if let Some(n) = shop.begin() {
                busy.push_back(n)?;
                begun.push(n)?;
            }
        }
        if let Some(n) = busy.pop_front() {
            if !shop.finish(n) {
                begun.clear();
            }
        }
    }
    if !shop.ready.is_finished() {
        begun.clear();
    }
    Ok(begun)
}

// Asserts in which order the nodes are begun, with their weights as keys.
fn begins<S: Store<u32, NodeWeight = u64, EdgeWeight = ()>>(
    rt: &impl Abort,
    alloc: Global,
    dag: &Plain<S>,
    workers: usize,
    wanted: &[usize],
) {
    let ready = made(rt, ReadyByKey::new(alloc, dag, |_, key| *key));
    let begun = made(rt, work_off(alloc, dag, ready, workers));
    lists(rt, begun.as_slice(), wanted);
}

// The same, with the least weight first.
fn begins_reversed<S: Store<u32, NodeWeight = u64, EdgeWeight = ()>>(
    rt: &impl Abort,
    alloc: Global,
    dag: &Plain<S>,
    workers: usize,
    wanted: &[usize],
) {
    let ready = made(rt, ReadyByKey::new(alloc, dag, |_, key| Reverse(*key)));
    let begun = made(rt, work_off(alloc, dag, ready, workers));
    lists(rt, begun.as_slice(), wanted);
}

pub fn works_off_by_keys<S: Store<u32, NodeWeight = u64, EdgeWeight = ()>>(
    rt: &impl Abort,
    alloc: Global,
) {
    let none = dag_of::<S>(rt, alloc, &[], &[]);
    begins(rt, alloc, &none, 2, &[]);
    // Node 4 waits for node 0, twice, and node 1 for node 4. Nodes 2, 3 and 5 have equal keys.
    let edges = [(0, 4), (4, 1), (2, 3), (0, 4)];
    let dag = dag_of::<S>(rt, alloc, &[7, 1, 5, 5, 2, 5], &edges);
    begins(rt, alloc, &dag, 1, &[0, 2, 3, 5, 4, 1]);
    begins_reversed(rt, alloc, &dag, 1, &[2, 3, 5, 0, 4, 1]);
    // With two nodes out, node 5 begins before node 2 is done, so before node 3.
    begins(rt, alloc, &dag, 2, &[0, 2, 5, 3, 4, 1]);
    // No node is ready while node 0 is out.
    let chain = dag_of::<S>(rt, alloc, &[1, 2, 3], &[(0, 1), (1, 2)]);
    begins(rt, alloc, &chain, 2, &[0, 1, 2]);
    // All keys are equal.
    let flat = dag_of::<S>(rt, alloc, &[4; 4], &[(3, 0)]);
    begins(rt, alloc, &flat, 1, &[1, 2, 3, 0]);
}

// The same, and past a vacant slot.
pub fn works_off_by_keys_past_a_slot<S: Store<u32, NodeWeight = u64, EdgeWeight = ()>>(
    rt: &impl Abort,
    alloc: Global,
) {
    works_off_by_keys::<S>(rt, alloc);
    let edges = [(0, 1), (1, 2)];
    let mut dag = dag_of::<S>(rt, alloc, &[1, 9, 2, 3], &edges);
    holds(rt, dag.remove_node(node(rt, 1)).is_some());
    begins(rt, alloc, &dag, 2, &[3, 2, 0]);
}

#[test]
fn works_off_a_dag_by_keys(rt: HostRuntime) {
    compact(&rt, rt.alloc(), Scene::Keys);
}

#[test]
fn works_off_a_stable_dag_by_keys(rt: HostRuntime) {
    stable(&rt, rt.alloc(), Scene::KeysPastASlot);
}
