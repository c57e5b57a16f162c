//! What arguments ask for, and how the program ends.
use super::support::same;
use dagbench_engine::{Mode, Stop, ending, mode_of};
use std::alloc::{AllocError, Global};
use std::process::Abort;
use std::test::Fail;

/// These words ask for this kind.
fn ask(
    rt: &impl Abort,
    alloc: Global,
    texts: &[&str],
    wanted: Option<Mode>,
) -> Result<(), AllocError> {
    let mut words = Vec::new(alloc);
    for text in texts {
        words.push(String::from_str(alloc, text)?)?;
    }
    assert!(rt; mode_of(words.as_slice()) == wanted);
    Ok(())
}

#[test]
fn arguments_name_the_kind(rt: HostRuntime) -> Result<(), Fail> {
    ask(&rt, rt.alloc(), &["compact"], Some(Mode::Compact))?;
    ask(&rt, rt.alloc(), &["stable"], Some(Mode::Stable))?;
    ask(
        &rt,
        rt.alloc(),
        &["plan", "compact"],
        Some(Mode::PlanCompact),
    )?;
    ask(&rt, rt.alloc(), &["plan", "stable"], Some(Mode::PlanStable))?;
    ask(&rt, rt.alloc(), &["plan"], None)?;
    ask(&rt, rt.alloc(), &["plan", "plan"], None)?;
    ask(&rt, rt.alloc(), &["compact", "plan"], None)?;
    ask(&rt, rt.alloc(), &["plan", "compact", "stable"], None)?;
    ask(&rt, rt.alloc(), &["compact", "stable"], None)?;
    ask(&rt, rt.alloc(), &["Compact"], None)?;
    ask(&rt, rt.alloc(), &[""], None)?;
    ask(&rt, rt.alloc(), &[], None)?;
    Ok(())
}

/// A run that ended so has this status and writes this text.
fn tell(rt: &impl Abort, outcome: Option<&Result<(), Stop>>, status: u8, text: &str) {
    let (found, told) = ending(outcome);
    assert!(rt; found == status);
    same(rt, told.as_bytes(), text.as_bytes());
}

#[test]
fn endings_have_their_texts(rt: HostRuntime) {
    tell(
        &rt,
        None,
        2,
        "usage: dagbench compact|stable|plan compact|plan stable\n",
    );
    tell(&rt, Some(&Ok(())), 0, "");
    tell(&rt, Some(&Err(Stop::Read)), 1, "dagbench: read failed\n");
    tell(&rt, Some(&Err(Stop::Write)), 1, "dagbench: write failed\n");
    tell(
        &rt,
        Some(&Err(Stop::Memory)),
        1,
        "dagbench: out of memory\n",
    );
}
