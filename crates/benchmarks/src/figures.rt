//! The figures of a run of a workload.
ghost use Rattle.std.specs.Prelude.{IfOk};

use std::alloc::Global;
use std::io;
use std::rt::CpuClock;
use std::time::Duration;

/// The processor time of a run, and its check value: equal for all programs that did the same.
#[derive(Clone, Copy)]
pub struct Figures {
    pub time: Duration,
    pub check: u64,
}

/// The processor time that the program has used since `start`.
pub fn since<R: CpuClock>(rt: &R, start: Duration) -> io::Result<Duration> {
    let now = rt.process_cpu_time()?;
    Ok(now.saturating_sub(start))
}

/// Calls `run` `reps` times. Returns the median of the times, and the check value of the last run.
pub fn median<F: FnMut() -> io::Result<Figures>>(
    alloc: Global,
    reps: u32,
    mut run: F,
) -> io::Result<Figures>
    requires { F.IsAlwaysCallable run }
{
    let mut times = Vec::new(alloc);
    let mut check = 0;
    for _ in 0..reps {
        let figures = run()?;
        times.push(figures.time)?;
        check = figures.check;
    }
    times.sort()?;
    let time = times.get(times.len() / 2).copied().unwrap_or_default();
    Ok(Figures { time, check })
}
