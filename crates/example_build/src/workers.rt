//! Workers that take what is ready.
ghost use Rattle.daggy.specs.Work.{IsUnderWay};

use crate::targets::Target;
use daggy::schedule::Ready;
use daggy::{NodeIndex, StableDag};
use std::alloc::{AllocError, Global};
use std::num::NonZeroUsize;

/// A dag that is worked off. It does not change, so the work on it stays under way.
#[derive(Drop)]
pub struct Shop<'a> {
    dag: &'a StableDag<Target, ()>,
    ready: Ready,
    ghost under_way: { IsUnderWay dag.now.graph ready },
    /// What each worker does, and until when.
    workers: Vec<Option<(u64, NodeIndex)>>,
    pub time: u64,
}

impl<'a> Shop<'a> {
    /// A shop in which nothing is done yet.
    pub fn new(
        alloc: Global,
        dag: &'a StableDag<Target, ()>,
        workers: NonZeroUsize,
    ) -> Result<Shop<'a>, AllocError> {
        let ready = Ready::new(alloc, dag)?;
        // More workers than nodes have nothing to do.
        let count = workers.get().min(dag.node_count().max(1));
        let mut workers = Vec::new(alloc);
        workers.resize(count, None)?;
        Ok(Shop {
            dag,
            ready,
            workers,
            time: 0,
        })
    }

    /// A node that is ready, if a worker is free.
    pub fn next(&mut self) -> Option<NodeIndex> {
        if self.workers.iter().all(Option::is_some) {
            return None;
        }
        let dag = self.dag;
        self.ready.next(dag)
    }

    /// Lets the first free worker begin with a node, and returns its number. `None` if that would end
    /// too late to be counted.
    pub fn begin(&mut self, n: NodeIndex, seconds: u64) -> Option<usize> {
        let end = self.time.checked_add(seconds)?;
        let worker = self.workers.iter().position(Option::is_none)?;
        *self.workers.get_mut(worker)? = Some((end, n));
        Some(worker)
    }

    /// Notes that a node is done without work.
    pub fn skip(&mut self, n: NodeIndex) {
        let dag = self.dag;
        if self.ready.is_out(n) {
            self.ready.done(dag, n);
        }
    }

    /// Goes on to the next time at which a worker has finished. Returns false if none works.
    pub fn finish(&mut self) -> bool {
        let mut next: Option<(u64, usize, NodeIndex)> = None;
        for (worker, work) in self.workers.as_slice().iter().enumerate() {
            let Some((end, n)) = *work else {
                continue;
            };
            match next {
                Some((first, _, _)) if first <= end => {}
                _ => next = Some((end, worker, n)),
            }
        }
        let Some((end, worker, n)) = next else {
            return false;
        };
        self.time = end;
        if let Some(work) = self.workers.get_mut(worker) {
            *work = None;
        }
        self.skip(n);
        true
    }
}
