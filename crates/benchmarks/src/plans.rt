//! Plans of the nodes of a dag.
use crate::builds::build;
use crate::figures::{Figures, median, since};
use crate::graph::{Graph, mixed};
use crate::inputs::{Sizes, low_high_pairs};
use daggy::NodeIndex;
use std::io;
use std::rt::CpuClock;

// A check value of the stages of the nodes.
fn stages_sum(stages: &[Vec<NodeIndex<u32>>]) -> u64 {
    let mut sum = 0u64;
    for stage in stages {
        sum = mixed(sum, stage.len() as u64);
    }
    sum
}

/// Planning a dag of random edges.
pub fn plan_stages<G: Graph, R: AllocGlobal + CpuClock>(
    rt: &R,
    sizes: Sizes,
) -> io::Result<Figures> {
    let pairs = low_high_pairs(rt.alloc(), sizes)?;
    let dag = build::<G>(rt.alloc(), sizes.nodes, pairs.as_slice())?;
    median(rt.alloc(), sizes.reps, || {
        let start = rt.process_cpu_time()?;
        let stages = dag.stages(rt.alloc())?;
        let time = since(rt, start)?;
        let check = stages_sum(stages.as_slice());
        Ok(Figures { time, check })
    })
}
