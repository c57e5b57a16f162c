//! What the tests share.
use dagbench_engine::{MemorySink, MemorySource, Mode, Stop, serve};
use std::alloc::{AllocError, Global};
use std::process::Abort;

/// How a run ended, and what its sink took.
pub type Run = (Result<(), Stop>, Vec<u8>);

/// These are the same bytes.
pub fn same(rt: &impl Abort, found: &[u8], wanted: &[u8]) {
    assert_eq!(rt; found, wanted);
}

/// A run ended so.
pub fn ended(rt: &impl Abort, found: Result<(), Stop>, wanted: Result<(), Stop>) {
    assert_eq!(rt; found, wanted);
}

/// A run over devices in memory that fail after the given numbers of calls.
pub fn run(
    alloc: Global,
    mode: Mode,
    input: &[u8],
    reads: Option<usize>,
    writes: Option<usize>,
) -> Result<Run, AllocError> {
    let mut source = MemorySource::new(Vec::from_slice(alloc, input)?, reads);
    let mut sink = MemorySink::new(alloc, writes);
    let outcome = serve(alloc, mode, &mut source, &mut sink);
    let taken = Vec::from_slice(alloc, sink.bytes())?;
    Ok((outcome, taken))
}

/// A run of this kind goes to the end of its input, and writes what is wanted.
pub fn served(
    rt: &impl Abort,
    alloc: Global,
    mode: Mode,
    input: &[u8],
    wanted: &[u8],
) -> Result<(), AllocError> {
    let (outcome, taken) = run(alloc, mode, input, None, None)?;
    ended(rt, outcome, Ok(()));
    same(rt, taken.as_slice(), wanted);
    Ok(())
}
