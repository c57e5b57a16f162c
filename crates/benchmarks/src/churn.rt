//! A dag in which edges and nodes come and go.
use crate::figures::{Figures, median, since};
use crate::graph::{Graph, mixed};
use crate::inputs::Sizes;
use crate::random::Random;
use std::alloc::{AllocError, Global};
use std::io;
use std::rt::CpuClock;

// How many times an edge or a node comes or goes.
const STEPS: u32 = 100_000;

// A dag whose edges lead from nodes of lesser rank to nodes of greater rank.
#[derive(Drop)]
struct Churn<G: Graph> {
    dag: G,
    ranks: Vec<u64>,
    random: Random,
    // The edges that there ever were have indices below it.
    top: usize,
    // A number of all walks so far.
    walked: u64,
}

impl<G: Graph> Churn<G> {
    fn new(alloc: Global, nodes: u32) -> Result<Churn<G>, AllocError> {
        let mut random = Random::new(1);
        let mut dag = G::make(alloc);
        let mut ranks = Vec::new(alloc);
        for i in 0..nodes {
            let _n = dag.put_node(i64::from(i))?;
            ranks.push(random.next())?;
        }
        let mut churn = Churn {
            dag,
            ranks,
            random,
            top: 0,
            walked: 0,
        };
        for _ in 0..3u8 {
            for _ in 0..nodes {
                churn.add_edge(nodes);
            }
        }
        Ok(churn)
    }

    fn rank(&self, n: u32) -> u64 {
        self.ranks.get(n as usize).copied().unwrap_or(0)
    }

    fn add_edge(&mut self, nodes: u32) {
        if nodes == 0 {
            return;
        }
        let a = self.random.below(nodes);
        let b = self.random.below(nodes);
        if a == b {
            return;
        }
        let (a, b) = if self.rank(a) < self.rank(b) {
            (a, b)
        } else {
            (b, a)
        };
        if let Some(e) = self.dag.put_edge(a, b, 1) {
            self.top = self.top.max(e.saturating_add(1));
        }
    }

    fn replace_node(&mut self, nodes: u32) -> Result<(), AllocError> {
        if nodes == 0 {
            return Ok(());
        }
        let _weight = self.dag.take_node(self.random.below(nodes));
        let n = self.dag.put_node(2)?;
        let rank = self.random.next();
        if let Some(old) = self.ranks.get_mut(n) {
            *old = rank;
        }
        Ok(())
    }

    fn remove_edge(&mut self) {
        if self.top > 0 && self.top <= u32::MAX as usize {
            let e = self.random.below(self.top as u32);
            let _weight = self.dag.take_edge(e);
        }
    }

    fn walk(&mut self, nodes: u32) {
        if nodes > 0 {
            let n = self.random.below(nodes);
            self.walked = self.walked.wrapping_add(self.dag.walked(n));
        }
    }

    fn run(&mut self, nodes: u32) -> Result<(), AllocError> {
        for _ in 0..STEPS {
            match self.random.below(64) {
                0 => self.replace_node(nodes)?,
                1..=26 => self.remove_edge(),
                27..=58 => self.add_edge(nodes),
                _ => self.walk(nodes),
            }
        }
        Ok(())
    }

    // A number of what is there.
    fn check(&self, nodes: u32) -> u64 {
        let mut sum = self.walked.wrapping_add(self.dag.edges() as u64);
        for n in 0..nodes {
            sum = mixed(sum, self.dag.walked(n));
        }
        sum
    }
}

/// Edges and nodes that come and go.
pub fn come_and_go<G: Graph, R: AllocGlobal + CpuClock>(
    rt: &R,
    sizes: Sizes,
) -> io::Result<Figures> {
    median(rt.alloc(), sizes.reps, || {
        let mut churn: Churn<G> = Churn::new(rt.alloc(), sizes.nodes)?;
        let start = rt.process_cpu_time()?;
        churn.run(sizes.nodes)?;
        let time = since(rt, start)?;
        let check = churn.check(sizes.nodes);
        Ok(Figures { time, check })
    })
}
