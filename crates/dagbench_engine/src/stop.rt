//! How a run ends.
ghost use Rattle.std.specs.Prelude.{◌≡◌, option_copied};
ghost use Rattle.dagbench_engine.specs.Endings.{ending_of};

/// Why a run stopped before the end of its input.
#[derive(Clone, Copy, Debug, PartialEq, Eq)]
pub enum Stop {
    /// The source failed.
    Read,
    /// The sink failed.
    Write,
    /// Memory for the buffers could not be allocated.
    Memory,
}

/// The exit status, and the text for standard error. `None` is for wrong arguments.
pub fn ending(run: Option<&Result<(), Stop>>) -> (u8, &'static str)
    ensures { (result.0, result.1.now) ≡ ending_of (option_copied run.entry) }
{
    match run {
        None => (
            2,
            "usage: dagbench compact|stable|plan compact|plan stable\n",
        ),
        Some(Ok(())) => (0, ""),
        Some(Err(Stop::Read)) => (1, "dagbench: read failed\n"),
        Some(Err(Stop::Write)) => (1, "dagbench: write failed\n"),
        Some(Err(Stop::Memory)) => (1, "dagbench: out of memory\n"),
    }
}
