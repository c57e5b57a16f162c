//! Commands that are run while memory is refused once: they come back, or the reply says so and
//! nothing has changed. Run again they must succeed.
use crate::support::{answered, holds, made, refuse, same};
use daggy::run::{Back, Command, GuardedDag, Reply, plan, run};
use daggy::{Dag, EdgeIndex, NodeIndex, StableDag};
use std::alloc::{AllocError, Global};
use std::process::Abort;
use std::rt::Env;

type Asked = Command<usize, usize, u32>;

type Said = Reply<usize, usize, u32>;

type HandedBack = Back<usize, usize>;

// A number of the nodes and the ends of edges.
fn state_of<D: GuardedDag<usize, usize, u32>>(dag: &D) -> usize {
    let mut sum = dag.node_bound();
    for e in 0..32 {
        let ends = dag.edge_endpoints(EdgeIndex::new(e));
        sum = match ends {
            Some((a, b)) => sum.wrapping_mul(31).wrapping_add(a.index() ^ b.index()),
            None => sum.wrapping_mul(31),
        };
    }
    sum
}

// These in a list, which is asked for again if it is refused.
fn listed<T: Copy>(rt: &impl Abort, alloc: Global, items: &[T], refused: &mut bool) -> Vec<T> {
    let mut list = Vec::new(alloc);
    for item in items {
        if list.push(*item).is_err() {
            refuse(rt, refused);
            made(rt, list.push(*item));
        }
    }
    list
}

fn alone(rt: &impl Abort, alloc: Global, command: Asked, refused: &mut bool) -> Vec<Asked> {
    let mut list = Vec::new(alloc);
    if list.reserve(1).is_err() {
        refuse(rt, refused);
        made(rt, list.reserve(1));
    }
    list.push_reserved(command);
    list
}

// Runs commands that are no longer refused.
fn run_again<D: GuardedDag<usize, usize, u32>>(
    rt: &impl Abort,
    alloc: Global,
    dag: &mut D,
    commands: Vec<Asked>,
) -> Option<Said> {
    let mut replies = made(rt, run(alloc, dag, commands));
    replies.pop()
}

// The weights of the command came back. Of a list of edges weighing 1, 2 and so on, those up to the
// one at fault.
fn came_back(rt: &impl Abort, back: HandedBack, wanted: HandedBack) {
    match back {
        Back::Edges { last, before } => same(rt, before.len(), last.wrapping_sub(1)),
        back => same(rt, back, wanted),
    }
}

// Runs one command, and again if memory was refused. Asserts the returned weights and the reply.
fn replies<D: GuardedDag<usize, usize, u32>>(
    rt: &impl Abort,
    alloc: Global,
    dag: &mut D,
    command: (Asked, Asked),
    weights: HandedBack,
    refused: &mut bool,
) -> Option<Said> {
    let before = state_of(dag);
    let commands = alone(rt, alloc, command.0, refused);
    match run(alloc, dag, commands) {
        Ok(mut replies) => match replies.pop() {
            Some(Reply::Memory(back)) => {
                refuse(rt, refused);
                came_back(rt, back, weights);
                same(rt, state_of(dag), before);
                let commands = alone(rt, alloc, command.1, refused);
                run_again(rt, alloc, dag, commands)
            }
            reply => reply,
        },
        Err(commands) => {
            refuse(rt, refused);
            same(rt, (commands.len(), state_of(dag)), (1, before));
            run_again(rt, alloc, dag, commands)
        }
    }
}

// Runs a command alone, likewise, and asserts its reply.
fn is_answered<D: GuardedDag<usize, usize, u32>>(
    rt: &impl Abort,
    alloc: Global,
    dag: &mut D,
    command: (Asked, Asked),
    weights: HandedBack,
    wanted: Said,
    refused: &mut bool,
) {
    let reply = replies(rt, alloc, dag, command, weights, refused);
    same(rt, reply, Some(wanted));
}

fn add_one_by_one<D: GuardedDag<usize, usize, u32>>(
    rt: &impl Abort,
    alloc: Global,
    dag: &mut D,
    refused: &mut bool,
) {
    let root: NodeIndex = NodeIndex::new(0);
    let node = (Command::Node(7), Command::Node(7));
    is_answered(
        rt,
        alloc,
        dag,
        node,
        Back::Node(7),
        Reply::Node(root),
        refused,
    );
    let child = (Command::Child(root, 8, 9), Command::Child(root, 8, 9));
    let added = Reply::EdgeNode(EdgeIndex::new(0), NodeIndex::new(1));
    is_answered(rt, alloc, dag, child, Back::EdgeNode(8, 9), added, refused);
    let parent = (Command::Parent(root, 8, 9), Command::Parent(root, 8, 9));
    let added = Reply::EdgeNode(EdgeIndex::new(1), NodeIndex::new(2));
    is_answered(rt, alloc, dag, parent, Back::EdgeNode(8, 9), added, refused);
}

fn join_nodes<D: GuardedDag<usize, usize, u32>>(
    rt: &impl Abort,
    alloc: Global,
    dag: &mut D,
    refused: &mut bool,
) {
    let (a, b): (NodeIndex, NodeIndex) = (NodeIndex::new(0), NodeIndex::new(1));
    let edge = (Command::Edge(a, b, 5), Command::Edge(a, b, 5));
    let added = Reply::Edge(EdgeIndex::new(2));
    is_answered(rt, alloc, dag, edge, Back::Edge(5), added, refused);
    let top = NodeIndex::new(2);
    let edge = (Command::Update(top, b, 6), Command::Update(top, b, 6));
    let added = Reply::Edge(EdgeIndex::new(3));
    is_answered(rt, alloc, dag, edge, Back::Edge(6), added, refused);
}

fn add_many<D: GuardedDag<usize, usize, u32>>(
    rt: &impl Abort,
    alloc: Global,
    dag: &mut D,
    refused: &mut bool,
) {
    let (a, b): (NodeIndex, NodeIndex) = (NodeIndex::new(0), NodeIndex::new(1));
    let edges = [(a, b, 1), (a, b, 2), (a, b, 3)];
    let first = Command::Edges(listed(rt, alloc, &edges, refused));
    let second = Command::Edges(listed(rt, alloc, &edges, refused));
    let added = replies(rt, alloc, dag, (first, second), Back::Nothing, refused);
    holds(rt, matches!(added, Some(Reply::Edges(_))));
}

// Edges that close a cycle, which the reply says.
fn close_cycle<D: GuardedDag<usize, usize, u32>>(
    rt: &impl Abort,
    alloc: Global,
    dag: &mut D,
    refused: &mut bool,
) {
    let (a, b): (NodeIndex, NodeIndex) = (NodeIndex::new(0), NodeIndex::new(1));
    let edges = [(a, b, 1), (b, a, 2)];
    let first = Command::Edges(listed(rt, alloc, &edges, refused));
    let second = Command::Edges(listed(rt, alloc, &edges, refused));
    let reply = replies(rt, alloc, dag, (first, second), Back::Nothing, refused);
    holds(rt, matches!(reply, Some(Reply::CycleAll(_))));
}

fn ask_and_reduce<D: GuardedDag<usize, usize, u32>>(
    rt: &impl Abort,
    alloc: Global,
    dag: &mut D,
    refused: &mut bool,
) {
    let root: NodeIndex = NodeIndex::new(0);
    let children = (Command::Children(root), Command::Children(root));
    let walk = replies(rt, alloc, dag, children, Back::Nothing, refused);
    holds(rt, matches!(walk, Some(Reply::Walk(_))));
    let first = Command::Reduce(listed(rt, alloc, &[NodeIndex::new(2)], refused));
    let second = Command::Reduce(listed(rt, alloc, &[NodeIndex::new(2)], refused));
    let roots = (first, second);
    is_answered(rt, alloc, dag, roots, Back::Nothing, Reply::Done, refused);
}

// A plan, which is made again if it was refused.
fn plan_all<D: GuardedDag<usize, usize, u32>>(
    rt: &impl Abort,
    alloc: Global,
    dag: &D,
    refused: &mut bool,
) {
    let before = state_of(dag);
    let planned = match plan(alloc, dag) {
        Ok(found) => found,
        Err(AllocError) => {
            refuse(rt, refused);
            same(rt, state_of(dag), before);
            made(rt, plan(alloc, dag))
        }
    };
    same(rt, planned.chain.len(), planned.stages.len());
}

fn run_all<D: GuardedDag<usize, usize, u32>>(rt: &(impl Abort + Env), alloc: Global, dag: &mut D) {
    let mut refused = false;
    add_one_by_one(rt, alloc, dag, &mut refused);
    join_nodes(rt, alloc, dag, &mut refused);
    add_many(rt, alloc, dag, &mut refused);
    close_cycle(rt, alloc, dag, &mut refused);
    plan_all(rt, alloc, dag, &mut refused);
    ask_and_reduce(rt, alloc, dag, &mut refused);
    answered(rt, refused);
}

#[test]
fn refused_commands_of_a_dag_come_back(rt: HostRuntime) {
    run_all(&rt, rt.alloc(), &mut Dag::new(rt.alloc()));
}

#[test]
fn refused_commands_of_a_stable_dag_come_back(rt: HostRuntime) {
    run_all(&rt, rt.alloc(), &mut StableDag::new(rt.alloc()));
}
