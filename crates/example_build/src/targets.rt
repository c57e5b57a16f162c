//! Targets, and what is out of date.
use crate::line::{BadLine, Line};
use crate::workers::Shop;
use anyhow::{Context, Result, bail};
use daggy::named::{DependError, Named};
use daggy::schedule::{Schedule, ScheduleError, schedule_on, topological_order_by};
use daggy::visit::NodeIndexable;
use daggy::{NodeIndex, Walker};
use std::alloc::{AllocError, Global};
use std::num::NonZeroUsize;

/// A target, or a source.
#[derive(Clone, Copy, Debug)]
pub struct Target {
    /// Whether it has a line. A source has none.
    pub given: bool,
    pub seconds: u64,
    pub time: Option<u64>,
}

/// The targets by name. An edge leads from a target to each that needs it.
#[derive(Drop)]
pub struct Targets {
    alloc: Global,
    by_name: Named<String, Target, ()>,
}

/// A schedule, or what is wrong with the durations.
fn scheduled<T: Drop>(schedule: Result<T, ScheduleError>) -> Result<T> {
    match schedule {
        Ok(schedule) => Ok(schedule),
        Err(ScheduleError::Overflow) => bail!("the durations sum up to 2^64 seconds or more"),
        Err(error) => Err(error.into()),
    }
}

/// The name of a target.
fn name(targets: &Named<String, Target, ()>, n: NodeIndex) -> &str {
    targets.key_of(n).map_or("", String::as_str)
}

impl Targets {
    /// No targets.
    pub fn new(alloc: Global) -> Targets {
        Targets {
            alloc,
            by_name: Named::new(alloc),
        }
    }

    /// Adds a source, unless the name has a target or a source.
    fn add_name(&mut self, name: &str) -> Result<()> {
        if self.by_name.index_of(name).is_none() {
            let source = Target {
                given: false,
                seconds: 0,
                time: Some(0),
            };
            self.by_name
                .add(String::from_str(self.alloc, name)?, source)?;
        }
        Ok(())
    }

    /// Adds the target of a line, and what it needs. Dependencies that would close a cycle are
    /// reported and left out; returns how many there were.
    pub fn add(
        &mut self,
        rt: &(impl Eprint + AllocGlobal),
        number: u64,
        line: Line<'_>,
    ) -> Result<u64, BadLine> {
        self.add_name(line.target)?;
        if let Some(target) = self.by_name.weight_mut(line.target) {
            if target.given {
                return Err(BadLine::Twice);
            }
            *target = Target {
                given: true,
                seconds: line.seconds,
                time: line.time,
            };
        }
        let mut left_out = 0u64;
        for word in line.dependencies.split_whitespace() {
            if !self.depend(word, line.target)? {
                self.report_cycle(rt, number, word, line.target)?;
                left_out = left_out.saturating_add(1);
            }
        }
        Ok(left_out)
    }

    /// Adds that a target needs something, unless that would close a cycle. Returns whether it was
    /// added.
    fn depend(&mut self, needed: &str, target: &str) -> Result<bool> {
        self.add_name(needed)?;
        match self.by_name.depend(needed, target, ()) {
            Ok(_) => Ok(true),
            Err(DependError::WouldCycle(())) => Ok(false),
            Err(error) => bail!("{error}"),
        }
    }

    /// Reports each name that has no line, and returns how many there are.
    pub fn report_sources(&self, rt: &impl Eprint) -> Result<u64> {
        let mut count = 0u64;
        for name in self.by_name.keys() {
            if self
                .by_name
                .weight(name)
                .is_some_and(|target| !target.given)
            {
                eprintln!(rt; "{name} has no line")?;
                count = count.saturating_add(1);
            }
        }
        Ok(count)
    }

    /// Reports the cycle that a dependency would close.
    fn report_cycle(
        &mut self,
        rt: &impl Eprint,
        number: u64,
        needed: &str,
        target: &str,
    ) -> Result<()> {
        eprint!(rt; "line {number}: cycle: {target}")?;
        if let Some(path) = self.by_name.cycle(needed, target)? {
            for n in path.as_slice().iter().rev() {
                eprint!(rt; " needs {}", name(&self.by_name, *n))?;
            }
        }
        eprintln!(rt; "")?;
        Ok(())
    }

    /// Which targets are out of date, by index.
    fn outdated(&self) -> Result<Vec<bool>, AllocError> {
        let dag = self.by_name.dag();
        let mut outdated = Vec::new(self.alloc);
        outdated.resize(dag.node_bound(), false)?;
        for n in dag.topological_order() {
            let Some(target) = dag.node_weight(n) else {
                continue;
            };
            let mut is_old = target.given && target.time.is_none();
            for (_, parent) in dag.parents(n).iter(dag) {
                let later = dag
                    .node_weight(parent)
                    .is_some_and(|needed| needed.time > target.time);
                is_old = is_old || later || outdated.get(parent.index()) == Some(&true);
            }
            if let Some(flag) = outdated.get_mut(n.index()) {
                *flag = is_old;
            }
        }
        Ok(outdated)
    }

    /// Prints the targets that are out of date, each after what it needs; which comes first otherwise
    /// is decided by the names.
    pub fn print_outdated(&self, rt: &impl Print) -> Result<()> {
        let outdated = self.outdated()?;
        let targets = &self.by_name;
        let order = topological_order_by(self.alloc, targets.dag(), |n, _| name(targets, n))?;
        for n in order {
            if outdated.get(n.index()) == Some(&true) {
                println!(rt; "{}", name(targets, n))?;
            }
        }
        Ok(())
    }

    /// Prints when which worker builds each target that is out of date, where the longest path comes
    /// first, and the longest path.
    pub fn print_plan(&self, rt: &impl Print, workers: NonZeroUsize) -> Result<()> {
        let outdated = self.outdated()?;
        let targets = &self.by_name;
        let dag = targets.dag();
        let seconds = |n: NodeIndex, target: &Target| match outdated.get(n.index()) {
            Some(true) => target.seconds,
            _ => 0,
        };
        let plan = scheduled(schedule_on(self.alloc, dag, seconds, workers))?;
        for n in topological_order_by(self.alloc, dag, |n, _| name(targets, n))? {
            let i = n.index();
            if outdated.get(i) == Some(&true) {
                if let (Some(start), Some(worker)) = (plan.starts.get(i), plan.workers.get(i)) {
                    println!(rt; "{start} s, worker {worker}: {}", name(targets, n))?;
                }
            }
        }
        let longest = scheduled(Schedule::new(self.alloc, dag, seconds))?;
        print!(rt; "{} s, at least {} s:", plan.makespan, longest.makespan)?;
        for n in longest.critical {
            print!(rt; " {}", name(targets, n))?;
        }
        println!(rt; "")?;
        Ok(())
    }

    /// Lets workers build what is out of date, each target as soon as it is ready and a worker is
    /// free, and prints what they begin.
    pub fn build(&self, rt: &impl Print, workers: NonZeroUsize) -> Result<()> {
        let outdated = self.outdated()?;
        let targets = &self.by_name;
        let dag = targets.dag();
        let mut shop = Shop::new(self.alloc, dag, workers)?;
        for _ in 0..=dag.node_count() {
            for _ in 0..dag.node_count() {
                let Some(n) = shop.next() else {
                    break;
                };
                let seconds = match (dag.node_weight(n), outdated.get(n.index())) {
                    (Some(target), Some(true)) => target.seconds,
                    _ => {
                        shop.skip(n);
                        continue;
                    }
                };
                let worker = shop
                    .begin(n, seconds)
                    .context("the durations sum up to 2^64 seconds or more")?;
                println!(rt; "{} s, worker {worker}: {}", shop.time, name(targets, n))?;
            }
            if !shop.finish() {
                break;
            }
        }
        println!(rt; "{} s", shop.time)?;
        Ok(())
    }
}
