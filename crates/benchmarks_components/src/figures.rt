//! The figures of a run of a workload.
use std::alloc::{AllocError, Global};
use std::io;
use std::rt::CpuClock;
use std::time::Duration;

/// The processor time of a run, and its check value: equal for all programs that did the same.
#[derive(Clone, Copy)]
pub struct Figures {
    pub time: Duration,
    pub check: u64,
}

/// The processor time that the program has used since `start`.
pub fn since<R: CpuClock>(rt: &R, start: Duration) -> io::Result<Duration> {
    let now = rt.process_cpu_time()?;
    Ok(now.saturating_sub(start))
}

/// The figures of several runs.
#[derive(Drop)]
pub struct Runs {
    times: Vec<Duration>,
    check: u64,
}

impl Runs {
    pub fn new(alloc: Global) -> Runs {
        Runs {
            times: Vec::new(alloc),
            check: 0,
        }
    }

    pub fn add(&mut self, figures: Figures) -> Result<(), AllocError> {
        self.check = figures.check;
        self.times.push(figures.time)?;
        Ok(())
    }

    /// The median of the times, and the check value of the last run.
    pub fn median(mut self) -> Result<Figures, AllocError> {
        self.times.sort()?;
        let time = self
            .times
            .get(self.times.len() / 2)
            .copied()
            .unwrap_or_default();
        Ok(Figures {
            time,
            check: self.check,
        })
    }
}
