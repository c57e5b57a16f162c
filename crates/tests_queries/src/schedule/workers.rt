//! Dags that are worked off by three workers.
ghost use Rattle.daggy_schedule.specs.Work.{IsUnderWay};

use super::scenes::{Scene, compact, stable};
use super::support::{Plain, dag_of, turned_dag_of};
use crate::support::{holds, lists, made, node};
use daggy_base::index::NodeIndex;
use daggy_base::store::Store;
use daggy_schedule::ready::Ready;
use std::alloc::{AllocError, Global};
use std::collections::VecDeque;
use std::process::Abort;

/// A dag that is worked off. It does not change, so the work on it stays under way.
#[derive(Drop)]
struct Shop<'a, S: Store<u32, NodeWeight = u64, EdgeWeight = ()>> {
    dag: &'a Plain<S>,
    ready: Ready,
    ghost under_way: { IsUnderWay dag.now.graph ready },
}

impl<'a, S: Store<u32, NodeWeight = u64, EdgeWeight = ()>> Shop<'a, S> {
    // The node that a worker is to begin, if any is ready.
    fn begin(&mut self) -> Option<NodeIndex> {
        let dag = self.dag;
        self.ready.next(dag)
    }

    // A worker has finished a node. Whether it was out.
    fn finish(&mut self, n: NodeIndex) -> bool {
        let dag = self.dag;
        let is_out = self.ready.is_out(n);
        if is_out {
            self.ready.done(dag, n);
        }
        is_out
    }
}

// Up to three workers take what is ready, and the one that began first finishes, until all is done.
// The nodes, in the order in which they were finished.
fn work_off<S: Store<u32, NodeWeight = u64, EdgeWeight = ()>>(
    alloc: Global,
    dag: &Plain<S>,
) -> Result<Vec<NodeIndex>, AllocError> {
    let ready = Ready::new(alloc, dag)?;
    let mut shop = Shop { dag, ready };
    let mut busy: VecDeque<NodeIndex> = VecDeque::new(alloc);
    let mut finished = Vec::new(alloc);
    for _turn in 0..dag.node_count() {
        for _worker in busy.len()..3 {
            if let Some(n) = shop.begin() {
                busy.push_back(n)?;
            }
        }
        if let Some(n) = busy.pop_front() {
            if shop.finish(n) {
                finished.push(n)?;
            }
        }
    }
    if !shop.ready.is_finished() {
        finished.clear();
    }
    Ok(finished)
}

pub fn works_off<S: Store<u32, NodeWeight = u64, EdgeWeight = ()>>(rt: &impl Abort, alloc: Global) {
    let none = dag_of::<S>(rt, alloc, &[], &[]);
    lists(rt, made(rt, work_off(alloc, &none)).as_slice(), &[]);
    // Node 2 is released at the second of the two edges that lead to it from node 0.
    let edges = [(0, 1), (0, 2), (1, 3), (2, 3), (2, 4), (0, 2)];
    let dag = dag_of::<S>(rt, alloc, &[3, 2, 5, 1, 4], &edges);
    lists(
        rt,
        made(rt, work_off(alloc, &dag)).as_slice(),
        &[0, 2, 1, 4, 3],
    );
    // Three at a time, and by ascending index where none waits, whatever the order of the dag.
    let wide = dag_of::<S>(rt, alloc, &[0; 6], &[(0, 5), (1, 5), (2, 4)]);
    lists(
        rt,
        made(rt, work_off(alloc, &wide)).as_slice(),
        &[0, 1, 2, 3, 5, 4],
    );
    let turned = turned_dag_of::<S>(rt, alloc, &[0; 6], &[(0, 5), (1, 5), (2, 4)]);
    lists(
        rt,
        made(rt, work_off(alloc, &turned)).as_slice(),
        &[0, 1, 2, 3, 5, 4],
    );
}

// The same, and past a vacant slot.
pub fn works_off_past_a_slot<S: Store<u32, NodeWeight = u64, EdgeWeight = ()>>(
    rt: &impl Abort,
    alloc: Global,
) {
    works_off::<S>(rt, alloc);
    let mut dag = dag_of::<S>(rt, alloc, &[1, 1, 1], &[(0, 1), (1, 2)]);
    holds(rt, dag.remove_node(node(rt, 1)).is_some());
    lists(rt, made(rt, work_off(alloc, &dag)).as_slice(), &[0, 2]);
}

#[test]
fn works_off_a_dag(rt: HostRuntime) {
    compact(&rt, rt.alloc(), Scene::Workers);
}

#[test]
fn works_off_a_stable_dag(rt: HostRuntime) {
    stable(&rt, rt.alloc(), Scene::WorkersPastASlot);
}
