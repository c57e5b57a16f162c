//! Dags whose nodes or edges are removed.
use crate::builds::sorted;
use crate::figures::{Figures, median, since};
use crate::graph::{Kind, mixed};
use crate::inputs::{Sizes, shuffled};
use crate::random::Random;
use std::io;
use std::rt::CpuClock;

/// What is removed.
#[derive(Clone, Copy)]
pub enum Part {
    Nodes,
    Edges,
}

// Removes one and returns its weight.
#[inline]
fn take<G: Kind>(dag: &mut G, part: Part, i: u32) -> i64 {
    match part {
        Part::Nodes => dag.take_node(i),
        Part::Edges => dag.take_edge(i),
    }
}

// Removes a random one of those that are left until there is none.
fn take_at_random<G: Kind>(dag: &mut G, part: Part, count: u32) -> u64 {
    let mut random = Random::new(2);
    let mut sum = 0u64;
    for k in 0..count {
        let weight = take(dag, part, random.below(count - k));
        sum = mixed(sum, weight.cast_unsigned());
    }
    sum
}

fn take_in_turn<G: Kind>(dag: &mut G, part: Part, order: &[u32]) -> u64 {
    let mut sum = 0u64;
    for i in order {
        sum = mixed(sum, take(dag, part, *i).cast_unsigned());
    }
    sum
}

/// Removing all nodes, or all edges, in random order.
pub fn remove<G: Kind, R: AllocGlobal + CpuClock>(
    rt: &R,
    part: Part,
    sizes: Sizes,
) -> io::Result<Figures> {
    let count = match part {
        Part::Nodes => sizes.nodes,
        Part::Edges => sizes.edges,
    };
    let order = shuffled(rt.alloc(), &mut Random::new(2), count)?;
    let built = sorted::<G>(rt.alloc(), sizes)?;
    median(rt.alloc(), sizes.reps, || {
        let mut dag = built.copy()?;
        let start = rt.process_cpu_time()?;
        let check = if G::keeps_indices() {
            take_in_turn(&mut dag, part, order.as_slice())
        } else {
            take_at_random(&mut dag, part, count)
        };
        let time = since(rt, start)?;
        Ok(Figures { time, check })
    })
}
