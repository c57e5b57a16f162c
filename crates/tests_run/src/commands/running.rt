//! Lists of commands.
use crate::commands::support::{
    Ask, Asked, Get, Row, Said, Scene, Weights, both, command, made, reply, same, stable,
};
use daggy_run::guarded::GuardedDag;
use daggy_run::run::run;
use std::alloc::Global;
use std::process::Abort;

/// Carries out the commands of a table as one list, and asserts that all replies come in its order.
pub fn run_all<D: GuardedDag<u32, u32, u8>>(
    rt: &impl Abort,
    alloc: Global,
    dag: &mut D,
    rows: &[Row<'_>],
) {
    let mut commands: Vec<Asked> = Vec::new(alloc);
    let mut wanted: Vec<Said> = Vec::new(alloc);
    for (asked, said) in rows {
        made(rt, commands.push(command(rt, alloc, *asked)));
        made(rt, wanted.push(reply(rt, alloc, *said)));
    }
    same(rt, made(rt, run(alloc, dag, commands)), wanted);
}

#[test]
fn commands_behind_a_refused_one_are_carried_out(rt: HostRuntime) {
    const ROWS: &[Row<'static>] = &[
        (Ask::Node(1), Get::Node(0)),
        (Ask::Edge(0, 1, 9), Get::Missing(Weights::Edge(9))),
        (Ask::Child(0, 2, 3), Get::EdgeNode(0, 1)),
        (Ask::Edge(1, 0, 5), Get::Cycle(5)),
        (Ask::Edges(&[(0, 1, 8), (1, 0, 9)]), Get::CycleAll(&[9, 8])),
        (
            Ask::Edges(&[(0, 1, 8), (0, 9, 9)]),
            Get::Missing(Weights::Edges(9, &[8])),
        ),
        (Ask::Update(0, 1, 7), Get::Edge(0)),
        (Ask::Children(0), Get::Walk(&[(0, 1)])),
    ];
    both(&rt, rt.alloc(), Scene::List(ROWS));
}

#[test]
fn no_commands_have_no_replies(rt: HostRuntime) {
    stable(&rt, rt.alloc(), Scene::List(&[]));
}
