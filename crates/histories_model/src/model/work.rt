//! The nodes as work: orders by keys, times and stages.
use super::Model;
use super::paths::flag;
use crate::answer::{Answer, Times};
use crate::calls::{Way, Work, key_of};
use std::alloc::AllocError;

impl Model {
    pub(super) fn work(&self, work: &Work) -> Result<Answer, AllocError> {
        match *work {
            Work::Ready(_) => Ok(Answer::Indices(self.existing()?)),
            Work::Schedule => match self.times()? {
                Some(times) => Ok(Answer::Times(times)),
                None => Ok(Answer::Overflow),
            },
            Work::ScheduleOn(_) => Ok(Answer::Done),
            Work::OrderBy(salt) => Ok(Answer::Indices(self.order_by(salt)?)),
            Work::Plan => self.stages(),
        }
    }

    /// The nodes, each after its parents: of those that could be next the one with the least key, of
    /// equal keys the one with the least index.
    pub fn order_by(&self, salt: u64) -> Result<Vec<usize>, AllocError> {
        let mut is_taken = Vec::new(self.alloc);
        is_taken.resize(self.nodes.len(), false)?;
        let mut order = Vec::new(self.alloc);
        for _ in 0..self.nodes.len() {
            let mut best = None;
            for (n, node) in self.nodes.iter().enumerate() {
                let Some(weight) = *node else {
                    continue;
                };
                if flag(&is_taken, n) || !self.has_parents_in(n, &is_taken) {
                    continue;
                }
                let key = key_of(n, weight, salt);
                match best {
                    Some((least, _)) if least <= key => {}
                    _ => best = Some((key, n)),
                }
            }
            if let Some((_, n)) = best {
                order.push(n)?;
                if let Some(taken) = is_taken.get_mut(n) {
                    *taken = true;
                }
            }
        }
        Ok(order)
    }

    /// Whether all parents of a node are flagged.
    pub fn has_parents_in(&self, n: usize, flags: &Vec<bool>) -> bool {
        for e in self.parents_of(n) {
            if let Some(edge) = self.edge(*e) {
                if !flag(flags, edge.parent) {
                    return false;
                }
            }
        }
        true
    }

    // The latest finish of the parents of a node.
    fn ready_at(&self, n: usize, finishes: &Vec<u128>) -> Result<u128, AllocError> {
        self.longest_of(n, Way::Up, finishes)
    }

    // The greatest of the numbers that the neighbors of a node have.
    fn longest_of(&self, n: usize, way: Way, numbers: &Vec<u128>) -> Result<u128, AllocError> {
        let mut longest = 0u128;
        for other in self.neighbors(n, way)?.iter() {
            longest = longest.max(numbers.get(*other).copied().unwrap_or(0));
        }
        Ok(longest)
    }

    /// When each node can start and finish at the earliest, and how much later it can start. `None` if
    /// some path takes 2^64 or more.
    pub fn times(&self) -> Result<Option<Times>, AllocError> {
        let mut finishes = Vec::new(self.alloc);
        let mut tails = Vec::new(self.alloc);
        let makespan = self.measure(&mut finishes, &mut tails)?;
        if makespan > u128::from(u64::MAX) {
            return Ok(None);
        }
        let mut times = Times {
            starts: Vec::new(self.alloc),
            finishes: Vec::new(self.alloc),
            slack: Vec::new(self.alloc),
            critical: Vec::new(self.alloc),
            makespan: narrow(makespan),
        };
        self.note_times(&finishes, &tails, makespan, &mut times)?;
        Ok(Some(times))
    }

    /// How long the longest path takes, if that is less than 2^64.
    pub fn makespan(&self) -> Result<Option<u64>, AllocError> {
        let mut finishes = Vec::new(self.alloc);
        let makespan = self.finish_all(self.order_by(0)?.as_slice(), &mut finishes)?;
        Ok(u64::try_from(makespan).ok())
    }

    // When each node finishes, and how long the longest path from it takes. Returns when all are
    // finished.
    fn measure(&self, finishes: &mut Vec<u128>, tails: &mut Vec<u128>) -> Result<u128, AllocError> {
        let order = self.order_by(0)?;
        let makespan = self.finish_all(order.as_slice(), finishes)?;
        self.go_back(order.as_slice(), tails)?;
        Ok(makespan)
    }

    fn finish_all(&self, order: &[usize], finishes: &mut Vec<u128>) -> Result<u128, AllocError> {
        finishes.resize(self.node_bound(), 0u128)?;
        let mut makespan = 0u128;
        for n in order {
            let weight = u128::from(self.node(*n).unwrap_or(0));
            let finish = self.ready_at(*n, finishes)?.saturating_add(weight);
            put(finishes, *n, finish);
            makespan = makespan.max(finish);
        }
        Ok(makespan)
    }

    fn go_back(&self, order: &[usize], tails: &mut Vec<u128>) -> Result<(), AllocError> {
        tails.resize(self.node_bound(), 0u128)?;
        for n in order.iter().rev() {
            let weight = u128::from(self.node(*n).unwrap_or(0));
            let tail = self
                .longest_of(*n, Way::Down, tails)?
                .saturating_add(weight);
            put(tails, *n, tail);
        }
        Ok(())
    }

    fn note_times(
        &self,
        ends: &Vec<u128>,
        tails: &Vec<u128>,
        makespan: u128,
        times: &mut Times,
    ) -> Result<(), AllocError> {
        for (n, (end, tail)) in ends.iter().zip(tails.iter()).enumerate() {
            let start = end.saturating_sub(u128::from(self.node(n).unwrap_or(0)));
            let spare = makespan.saturating_sub(start.saturating_add(*tail));
            let exists = self.has_node(n);
            times.starts.push(narrow(start))?;
            times.finishes.push(narrow(*end))?;
            times.slack.push(if exists { narrow(spare) } else { 0 })?;
        }
        Ok(())
    }

    // The nodes by the number of edges of the longest path that ends with them, and a path with a node
    // of each stage.
    fn stages(&self) -> Result<Answer, AllocError> {
        let mut stages: Vec<Vec<usize>> = Vec::new(self.alloc);
        self.fill_stages(&mut stages)?;
        for stage in stages.as_mut_slice().iter_mut() {
            stage.sort()?;
        }
        let chain = self.chain(&stages)?;
        Ok(Answer::Stages(stages, chain))
    }

    fn fill_stages(&self, stages: &mut Vec<Vec<usize>>) -> Result<(), AllocError> {
        let mut levels = Vec::new(self.alloc);
        levels.resize(self.nodes.len(), 0usize)?;
        for n in self.order_by(0)?.iter() {
            let level = self.level_of(*n, &levels)?;
            if let Some(slot) = levels.get_mut(*n) {
                *slot = level;
            }
            self.put_on_stage(*n, level, stages)?;
        }
        Ok(())
    }

    // One more than the levels of the parents of a node, or 0.
    fn level_of(&self, n: usize, levels: &Vec<usize>) -> Result<usize, AllocError> {
        let mut level = 0usize;
        for parent in self.neighbors(n, Way::Up)?.iter() {
            let above = levels.get(*parent).copied().unwrap_or(0);
            level = level.max(above.saturating_add(1));
        }
        Ok(level)
    }

    fn put_on_stage(
        &self,
        n: usize,
        level: usize,
        stages: &mut Vec<Vec<usize>>,
    ) -> Result<(), AllocError> {
        if stages.len() <= level {
            stages.push(Vec::new(self.alloc))?;
        }
        if let Some(stage) = stages.get_mut(level) {
            stage.push(n)?;
        }
        Ok(())
    }

    // The least node of the last stage, and before each node the least of its parents in the stage
    // before.
    fn chain(&self, stages: &Vec<Vec<usize>>) -> Result<Vec<usize>, AllocError> {
        let mut chain: Vec<usize> = Vec::new(self.alloc);
        for stage in stages.iter().rev() {
            let next = chain.first().copied();
            for n in stage {
                let leads_on = match next {
                    Some(next) => self.edge_between(*n, next).is_some(),
                    None => true,
                };
                if leads_on {
                    chain.insert(0, *n)?;
                    break;
                }
            }
        }
        Ok(chain)
    }
}

fn put(times: &mut Vec<u128>, n: usize, time: u128) {
    if let Some(slot) = times.get_mut(n) {
        *slot = time;
    }
}

fn narrow(time: u128) -> u64 {
    u64::try_from(time).unwrap_or(u64::MAX)
}
