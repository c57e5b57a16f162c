//! Plans a release: which tasks can run side by side, and how long all of them take.
#![tactic(auto)]

use anyhow::Result;
use daggy::named::{Dependency, Named};
use daggy::run::plan;
use daggy::schedule::Schedule;

/// Tasks by name. The weight of a task is the seconds that it takes.
type Tasks = Named<&'static str, u64, ()>;

const SECONDS: &[(&str, u64)] = &[
    ("fetch", 2),
    ("core", 6),
    ("gui", 4),
    ("docs", 3),
    ("cli", 3),
    ("tests", 5),
    ("package", 1),
];

/// Each task with one that has to be done before.
const NEEDS: &[(&str, &str)] = &[
    ("core", "fetch"),
    ("gui", "fetch"),
    ("docs", "fetch"),
    ("cli", "core"),
    ("tests", "core"),
    ("tests", "gui"),
    ("package", "cli"),
    ("package", "tests"),
    ("package", "docs"),
];

fn fill(tasks: &mut Tasks) -> Result<()> {
    for (name, seconds) in SECONDS {
        tasks.add_node(*name, *seconds)?;
    }
    for (dependent, on) in NEEDS {
        let dependency = Dependency {
            dependent: *dependent,
            on: *on,
        };
        tasks.add_dependency(dependency, ())?;
    }
    Ok(())
}

fn print(tasks: &Tasks, rt: &(impl Print + AllocGlobal)) -> Result<()> {
    for stage in plan(rt.alloc(), tasks.dag())?.stages {
        print!(rt; "-")?;
        for task in stage {
            if let Some(name) = tasks.key_of(task) {
                print!(rt; " {name}")?;
            }
        }
        println!(rt)?;
    }
    let schedule = Schedule::new(rt.alloc(), tasks.dag(), |_, seconds| *seconds)?;
    println!(rt; "{} seconds", schedule.makespan)?;
    Ok(())
}

fn main(rt: HostRuntime) -> Result<()> {
    let mut tasks = Named::new(rt.alloc());
    fill(&mut tasks)?;
    let backwards = Dependency {
        dependent: "fetch",
        on: "tests",
    };
    if let Err(error) = tasks.add_dependency(backwards, ()) {
        println!(rt; "fetch after tests: {error}")?;
    }
    print(&tasks, &rt)
}
