//! What a dag is asked about paths, and about what depends on what.
use super::script::Answer;
use super::support::{made, node, same};
use super::table::{Scene, both, compact, is, stable};
use daggy_base::index::{EdgeIndex, IndexType, NodeIndex};
use daggy_base::store::Store;
use daggy_dag::acyclic::Acyclic;
use std::alloc::{AllocError, Global};
use std::process::Abort;

/// A question about some nodes.
#[derive(Clone, Copy)]
pub enum Question<'a> {
    Reaches(usize, usize),
    ClosesCycle(usize, usize),
    Joined(usize, usize),
    Before(usize, usize),
    Affected(&'a [usize]),
    Descendants(&'a [usize]),
    Ancestors(&'a [usize]),
    Path(usize, usize),
    PathEdges(usize, usize),
}

fn nodes<Ix: IndexType>(rt: &impl Abort, alloc: Global, indices: &[usize]) -> Vec<NodeIndex<Ix>> {
    let mut nodes = Vec::new(alloc);
    for i in indices {
        made(rt, nodes.push(node(rt, *i)));
    }
    nodes
}

fn are<Ix: IndexType>(rt: &impl Abort, alloc: Global, found: &[NodeIndex<Ix>], wanted: Answer<'_>) {
    let mut indices = Vec::new(alloc);
    for n in found {
        made(rt, indices.push(n.index()));
    }
    is(rt, Answer::Nodes(indices.as_slice()), wanted);
}

fn are_edges<Ix: IndexType>(
    rt: &impl Abort,
    alloc: Global,
    found: &[EdgeIndex<Ix>],
    wanted: Answer<'_>,
) {
    let mut indices = Vec::new(alloc);
    for e in found {
        made(rt, indices.push(e.index()));
    }
    is(rt, Answer::Edges(indices.as_slice()), wanted);
}

fn yes(answer: bool) -> Answer<'static> {
    if answer {
        Answer::Done
    } else {
        Answer::Nothing
    }
}

/// Asks a question, and asserts its answer: `Done` for yes, `Nothing` for no.
pub fn ask<Ix: IndexType, S: Store<Ix, NodeWeight = u32, EdgeWeight = u32>>(
    rt: &impl Abort,
    alloc: Global,
    dag: &mut Acyclic<u32, u32, Ix, S>,
    question: Question<'_>,
    wanted: Answer<'_>,
) {
    match question {
        Question::Reaches(a, b)
        | Question::ClosesCycle(a, b)
        | Question::Joined(a, b)
        | Question::Before(a, b) => {
            let (a, b) = (node(rt, a), node(rt, b));
            is(rt, yes(is_so(dag, question, a, b)), wanted);
        }
        Question::Path(a, b) => match made(rt, dag.path(node(rt, a), node(rt, b))) {
            Some(path) => are(rt, alloc, path.as_slice(), wanted),
            None => is(rt, Answer::Nothing, wanted),
        },
        Question::PathEdges(a, b) => match made(rt, dag.path_edges(node(rt, a), node(rt, b))) {
            Some(edges) => are_edges(rt, alloc, edges.as_slice(), wanted),
            None => is(rt, Answer::Nothing, wanted),
        },
        Question::Affected(given) | Question::Descendants(given) | Question::Ancestors(given) => {
            let given = nodes(rt, alloc, given);
            let found = made(rt, listed(dag, question, given.as_slice()));
            are(rt, alloc, found.as_slice(), wanted);
        }
    }
}

// The answer of a question about two nodes.
fn is_so<Ix: IndexType, S: Store<Ix, NodeWeight = u32, EdgeWeight = u32>>(
    dag: &mut Acyclic<u32, u32, Ix, S>,
    question: Question<'_>,
    a: NodeIndex<Ix>,
    b: NodeIndex<Ix>,
) -> bool {
    match question {
        Question::Reaches(_, _) => dag.reaches(a, b),
        Question::ClosesCycle(_, _) => dag.would_close_cycle(a, b),
        Question::Joined(_, _) => dag.contains_edge(a, b),
        _ => dag.stands_before(a, b),
    }
}

// The nodes that a question about some nodes is answered with.
fn listed<Ix: IndexType, S: Store<Ix, NodeWeight = u32, EdgeWeight = u32>>(
    dag: &mut Acyclic<u32, u32, Ix, S>,
    question: Question<'_>,
    given: &[NodeIndex<Ix>],
) -> Result<Vec<NodeIndex<Ix>>, AllocError> {
    match question {
        Question::Affected(_) => dag.affected(given),
        Question::Descendants(_) => dag.descendants(given),
        _ => dag.ancestors(given),
    }
}

// A path through the nodes 0, 1, 2 and 3, and two edges beside it.
const PATH: &str = "
    nodes 4 = done
    extend 0 1 1, 1 2 1, 2 3 1, 0 3 1, 0 3 1 = done
";

#[test]
fn a_dag_tells_of_paths(rt: HostRuntime) {
    const ROWS: &str = "
        reaches 0 3 = done
        reaches 3 0 = nothing
        reaches 2 2 = done
        reaches 0 9 = nothing
        reaches 9 9 = nothing
        closes_cycle 3 1 = done
        closes_cycle 1 3 = nothing
        joined 0 3 = done
        joined 0 2 = nothing
        path 0 2 = nodes 0 1 2
        # The edge from 0 to 3 is shorter than the path through all nodes.
        path 0 3 = nodes 0 3
        path 2 2 = nodes 2
        path 3 0 = nothing
        path 0 9 = nothing
        path_edges 0 2 = edges 0 1
        # The newer one of the two edges from 0 to 3.
        path_edges 0 3 = edges 4
        path_edges 2 2 = edges
        path_edges 3 0 = nothing
        path_edges 9 9 = nothing
        before 0 3 = done
        before 3 0 = nothing
        before 0 0 = nothing
        before 0 9 = nothing
        before 9 0 = nothing
    ";
    both(&rt, rt.alloc(), Scene::Twice(PATH, ROWS));
}

#[test]
fn a_dag_tells_what_depends_on_what(rt: HostRuntime) {
    const ROWS: &str = "
        affected 2 9 1 1 = nodes 1 2 3
        affected 3 = nodes 3
        affected 9 = nodes
        descendants 0 = nodes 1 2 3
        descendants 2 1 = nodes 2 3
        descendants 3 9 = nodes
        ancestors 3 = nodes 0 1 2
        ancestors 2 1 = nodes 0 1
        ancestors 0 9 = nodes
        # Asking changes nothing.
        order = nodes 0 1 2 3
    ";
    both(&rt, rt.alloc(), Scene::Twice(PATH, ROWS));
}

#[test]
fn an_empty_dag_has_no_answers(rt: HostRuntime) {
    const ROWS: &str = "
        reaches 0 0 = nothing
        path 0 0 = nothing
        path_edges 0 0 = nothing
        before 0 1 = nothing
        affected 0 = nodes
        descendants = nodes
        ancestors 0 = nodes
    ";
    both(&rt, rt.alloc(), Scene::Rows(ROWS));
}

#[test]
fn no_path_leads_through_a_removed_node(rt: HostRuntime) {
    // Node 3 gets the index that is gone.
    const ROWS: &str = "
        remove_node 1 = weight 1
        path_edges 0 1 = edges 1
        path_edges 0 2 = nothing
        reaches 0 1 = done
        reaches 0 2 = nothing
        affected 0 3 = nodes 0 1
        descendants 2 = nodes 1
        ancestors 2 = nodes
    ";
    const AFTER: &str = "
        remove_node 1 = weight 1
        path_edges 0 3 = edges 4
        path_edges 0 2 = nothing
        reaches 0 3 = done
        reaches 0 2 = nothing
        reaches 1 1 = nothing
        affected 0 1 = nodes 0 3
        descendants 1 = nodes
        ancestors 2 = nodes
    ";
    compact(&rt, rt.alloc(), Scene::Twice(PATH, ROWS));
    stable(&rt, rt.alloc(), Scene::Twice(PATH, AFTER));
}
