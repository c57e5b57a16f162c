//! The figures of a workload.
use std::alloc::AllocError;
use std::io;
use std::rt::CpuClock;
use std::time::Duration;

/// The processor time of a round, how many nodes it computed, and a number of all values at the end,
/// equal for all ways to compute them.
#[derive(Clone, Copy)]
pub struct Figures {
    pub time: Duration,
    pub computed: u64,
    pub check: u64,
}

/// The processor time that the program has used since `start`.
pub fn since<R: CpuClock>(rt: &R, start: Duration) -> io::Result<Duration> {
    let now = rt.process_cpu_time()?;
    Ok(now.saturating_sub(start))
}

/// The median of some times.
pub fn median(mut times: Vec<Duration>) -> Result<Duration, AllocError> {
    times.sort()?;
    Ok(times.get(times.len() / 2).copied().unwrap_or_default())
}

/// The number so far with one more item in it.
#[inline]
pub fn mixed(sum: u64, item: i64) -> u64 {
    sum.wrapping_mul(31).wrapping_add(item.cast_unsigned())
}
