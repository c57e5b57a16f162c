//! The nodes as work.
ghost use Rattle.daggy.specs.Work.{IsUnderWay};

use super::kinds::Kind;
use super::{Ix, Numbers, numbers};
use anyhow::{Result, bail};
use daggy::NodeIndex;
use daggy::run::plan;
use daggy::schedule::{Ready, Schedule, ScheduleError, schedule_on, topological_order_by};
use histories_model::answer::{Answer, Event, Times};
use histories_model::calls::{Work, key_of};
use histories_model::random::Random;
use std::alloc::Global;
use std::num::NonZeroUsize;

/// Asks a question about the nodes as work.
pub fn work<S: Kind>(alloc: Global, dag: &Numbers<S>, work: &Work) -> Result<Answer> {
    match *work {
        Work::Ready(salt) => work_off(alloc, dag, salt),
        Work::Schedule => schedule(alloc, dag),
        Work::ScheduleOn(workers) => assign(alloc, dag, workers),
        Work::OrderBy(salt) => {
            let order = topological_order_by(alloc, dag, |n, w| key_of(n.index(), *w, salt))?;
            Ok(Answer::Indices(numbers(alloc, order.as_slice())?))
        }
        Work::Plan => {
            let plan = plan(alloc, dag)?;
            let mut stages = Vec::new(alloc);
            for stage in &plan.stages {
                stages.push(numbers(alloc, stage.as_slice())?)?;
            }
            Ok(Answer::Stages(stages, numbers(alloc, plan.chain.as_slice())?))
        }
    }
}

/// A dag that is worked off. It does not change, so the work on it stays under way.
#[derive(Drop)]
struct Shop<'a, S: Kind> {
    dag: &'a Numbers<S>,
    ready: Ready<Ix>,
    ghost under_way: { IsUnderWay dag.now.graph ready },
}

impl<'a, S: Kind> Shop<'a, S> {
    fn next(&mut self) -> Option<NodeIndex<Ix>> {
        let dag = self.dag;
        self.ready.next(dag)
    }

    fn done(&mut self, n: NodeIndex<Ix>) {
        let dag = self.dag;
        if self.ready.is_out(n) {
            self.ready.done(dag, n);
        }
    }
}

// Takes nodes as long as some are ready or up to three times, and then one that is out is done.
fn work_off<S: Kind>(alloc: Global, dag: &Numbers<S>, salt: u64) -> Result<Answer> {
    let mut random = Random::new(salt);
    let ready = Ready::new(alloc, dag)?;
    let mut shop = Shop { dag, ready };
    let mut out = Vec::new(alloc);
    let mut events = Vec::new(alloc);
    for _ in 0..dag.node_count().saturating_add(1) {
        for _ in 0..3u8 {
            if let Some(n) = shop.next() {
                events.push(Event::Out(n.index()))?;
                out.push(n)?;
            }
        }
        let chosen = random.below(out.len());
        if chosen < out.len() {
            let n = out.swap_remove(chosen);
            shop.done(n);
            events.push(Event::Done(n.index()))?;
        }
    }
    if shop.ready.is_finished() {
        Ok(Answer::Events(events))
    } else {
        Ok(Answer::Truth(false))
    }
}

fn schedule<S: Kind>(alloc: Global, dag: &Numbers<S>) -> Result<Answer> {
    match Schedule::new(alloc, dag, |_, duration| *duration) {
        Ok(plan) => Ok(Answer::Times(Times {
            starts: plan.starts,
            finishes: plan.finishes,
            slack: plan.slack,
            critical: numbers(alloc, plan.critical.as_slice())?,
            makespan: plan.makespan,
        })),
        Err(ScheduleError::Overflow) => Ok(Answer::Overflow),
        Err(ScheduleError::Memory) => bail!("out of memory"),
    }
}

fn assign<S: Kind>(alloc: Global, dag: &Numbers<S>, workers: usize) -> Result<Answer> {
    let workers = NonZeroUsize::new(workers).unwrap_or(NonZeroUsize::MIN);
    match schedule_on(alloc, dag, |_, duration| *duration, workers) {
        Ok(assignment) => Ok(Answer::Assigned {
            workers: assignment.workers,
            starts: assignment.starts,
            makespan: assignment.makespan,
        }),
        Err(ScheduleError::Overflow) => Ok(Answer::Overflow),
        Err(ScheduleError::Memory) => bail!("out of memory"),
    }
}
