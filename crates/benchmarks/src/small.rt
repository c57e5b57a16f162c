//! Small dags, many of them.
use crate::figures::{Figures, median, since};
use crate::graph::{Graph, mixed};
use crate::inputs::Sizes;
use std::alloc::{AllocError, Global};
use std::io;
use std::rt::CpuClock;

/// What is done with each dag before it is dropped.
#[derive(Clone, Copy)]
pub enum Life {
    /// The children of its first node are walked.
    Walked,
    /// Its first node is removed until there is none.
    Emptied,
}

// A dag with an edge from each node to the next, and to the one after it.
fn small<G: Graph>(alloc: Global, nodes: u32) -> Result<G, AllocError> {
    let mut dag = G::make(alloc);
    for i in 0..nodes {
        let _n = dag.put_node(i64::from(i))?;
    }
    for step in 1..3u32 {
        for i in step..nodes {
            let _e = dag.put_edge(i - step, i, 1);
        }
    }
    Ok(dag)
}

fn walked<G: Graph>(dag: &G) -> u64 {
    (dag.edges() as u64).wrapping_add(dag.walked(0))
}

fn emptied<G: Graph>(dag: &mut G, nodes: u32) -> u64 {
    let mut sum = 0u64;
    for _ in 0..nodes {
        sum = mixed(sum, dag.take_node(0).cast_unsigned());
    }
    sum
}

/// Making and dropping dags: `sizes` has the number of nodes of each, and the number of dags.
pub fn many<G: Graph, R: AllocGlobal + CpuClock>(
    rt: &R,
    life: Life,
    sizes: Sizes,
) -> io::Result<Figures> {
    median(rt.alloc(), sizes.reps, || {
        let start = rt.process_cpu_time()?;
        let mut check = 0u64;
        for _ in 0..sizes.edges {
            let mut dag = small::<G>(rt.alloc(), sizes.nodes)?;
            let sum = match life {
                Life::Walked => walked(&dag),
                Life::Emptied => emptied(&mut dag, sizes.nodes),
            };
            check = check.wrapping_add(sum);
        }
        let time = since(rt, start)?;
        Ok(Figures { time, check })
    })
}
