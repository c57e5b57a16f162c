//! Orders and schedules of all nodes of a dag.
ghost use Rattle.daggy.specs.Work.{IsUnderWay};

use crate::builds::build;
use crate::figures::{Figures, median, since};
use crate::graph::{Graph, mixed};
use crate::inputs::{Sizes, random_pairs};
use daggy::schedule::{Ready, Schedule};
use daggy::{Acyclic, NodeIndex, Store};
use std::alloc::{AllocError, Global};
use std::io;
use std::rt::CpuClock;

/// How the nodes are listed, each after its parents.
#[derive(Clone, Copy)]
pub enum Listing {
    /// In the order that the dag keeps.
    Sorted,
    /// As a ready queue hands them out, if each is done at once.
    Ready,
}

// A dag that is worked off. It does not change, so the work on it stays under way.
#[derive(Drop)]
struct Work<'a, S: Store<u32, NodeWeight = i64, EdgeWeight = i64>> {
    dag: &'a Acyclic<i64, i64, u32, S>,
    ready: Ready<u32>,
    ghost under_way: { IsUnderWay dag.now.graph ready },
}

impl<'a, S: Store<u32, NodeWeight = i64, EdgeWeight = i64>> Work<'a, S> {
    // The next node, which is done then.
    #[inline]
    fn next(&mut self) -> Option<NodeIndex<u32>> {
        let dag = self.dag;
        let n = self.ready.next(dag)?;
        self.ready.done(dag, n);
        Some(n)
    }
}

/// All nodes as they become ready.
pub fn as_ready<S: Store<u32, NodeWeight = i64, EdgeWeight = i64>>(
    alloc: Global,
    dag: &Acyclic<i64, i64, u32, S>,
) -> Result<Vec<NodeIndex<u32>>, AllocError> {
    let ready = Ready::new(alloc, dag)?;
    let mut work = Work { dag, ready };
    let mut nodes = Vec::new(alloc);
    for _ in 0..dag.node_count() {
        let Some(n) = work.next() else {
            break;
        };
        nodes.push(n)?;
    }
    Ok(nodes)
}

/// How long a node takes, by its weight.
#[inline]
pub fn duration(weight: i64) -> u64 {
    weight.cast_unsigned() % 100 + 1
}

// A number that is the same for each topological order of the nodes.
fn order_sum(
    alloc: Global,
    nodes: &[NodeIndex<u32>],
    pairs: &[(u32, u32)],
) -> Result<u64, AllocError> {
    let mut places = Vec::new(alloc);
    places.resize(nodes.len(), 0usize)?;
    let mut sum = 0u64;
    for (i, n) in nodes.iter().enumerate() {
        if let Some(place) = places.get_mut(n.index()) {
            *place = i;
        }
        sum = sum.wrapping_add(n.index() as u64);
    }
    let mut ascending = 0u64;
    for (parent, child) in pairs {
        if places.get(*parent as usize) < places.get(*child as usize) {
            ascending = ascending.wrapping_add(1);
        }
    }
    Ok(mixed(sum, ascending))
}

/// Listing the nodes.
pub fn list<G: Graph, R: AllocGlobal + CpuClock>(
    rt: &R,
    listing: Listing,
    sizes: Sizes,
) -> io::Result<Figures> {
    let pairs = random_pairs(rt.alloc(), sizes)?;
    let dag = build::<G>(rt.alloc(), sizes.nodes, pairs.as_slice())?;
    median(rt.alloc(), sizes.reps, || {
        let start = rt.process_cpu_time()?;
        let nodes = match listing {
            Listing::Sorted => dag.in_order(rt.alloc())?,
            Listing::Ready => dag.as_ready(rt.alloc())?,
        };
        let time = since(rt, start)?;
        let check = order_sum(rt.alloc(), nodes.as_slice(), pairs.as_slice())?;
        Ok(Figures { time, check })
    })
}

// A number of a schedule that does not depend on which critical path it has.
fn schedule_sum(schedule: &Schedule<u32>) -> u64 {
    let mut sum = schedule.makespan;
    for (start, slack) in schedule.starts.iter().zip(schedule.slack.iter()) {
        sum = mixed(mixed(sum, *start), *slack);
    }
    let mut length = 0u64;
    for n in schedule.critical.iter() {
        let duration = schedule.durations.get(n.index()).copied().unwrap_or(0);
        length = length.wrapping_add(duration);
    }
    mixed(sum, length)
}

/// Making a schedule.
pub fn schedule<G: Graph, R: AllocGlobal + CpuClock>(rt: &R, sizes: Sizes) -> io::Result<Figures> {
    let pairs = random_pairs(rt.alloc(), sizes)?;
    let dag = build::<G>(rt.alloc(), sizes.nodes, pairs.as_slice())?;
    median(rt.alloc(), sizes.reps, || {
        let start = rt.process_cpu_time()?;
        let schedule = dag.schedule(rt.alloc())?;
        let time = since(rt, start)?;
        let check = schedule_sum(&schedule);
        Ok(Figures { time, check })
    })
}
