//! Questions whose answers take memory, while memory is refused once.
use crate::again::small_fan;
use crate::observed::state_of;
use crate::support::{Kind, Plain, made, refuse, same};
use daggy::NodeIndex;
use std::alloc::{AllocError, Global};
use std::process::Abort;

// What is asked about a node.
#[derive(Clone, Copy)]
enum Question {
    Affected,
    Descendants,
    Ancestors,
    PathFromRoot,
    EdgesFromRoot,
    PairedWithRoot,
}

// How many nodes, or edges, the answer has.
fn ask<S: Kind>(dag: &mut Plain<S>, question: Question, n: NodeIndex) -> Result<usize, AllocError> {
    let nodes = [n];
    let found = match question {
        Question::Affected => dag.affected(&nodes)?,
        Question::Descendants => dag.descendants(&nodes)?,
        Question::Ancestors => dag.ancestors(&nodes)?,
        Question::PathFromRoot => match dag.path(NodeIndex::new(0), n)? {
            Some(path) => path,
            None => return Ok(0),
        },
        Question::EdgesFromRoot => {
            let edges = dag.path_edges(NodeIndex::new(0), n)?;
            return Ok(edges.map_or(0, |edges| edges.len()));
        }
        Question::PairedWithRoot => {
            let closure = dag.transitive_closure()?;
            return Ok(usize::from(closure.has(NodeIndex::new(0), n)));
        }
    };
    Ok(found.len())
}

// Asks again if that was refused. The dag stays as it is.
fn ask_again<S: Kind>(
    rt: &impl Abort,
    dag: &mut Plain<S>,
    question: Question,
    n: NodeIndex,
    wanted: usize,
    refused: &mut bool,
) {
    let before = state_of(dag);
    let count = match ask(dag, question, n) {
        Ok(count) => count,
        Err(AllocError) => {
            refuse(rt, refused);
            same(rt, state_of(dag), before);
            made(rt, ask(dag, question, n))
        }
    };
    same(rt, count, wanted);
    same(rt, state_of(dag), before);
}

/// What depends on the root of a small fan, on what its last child depends, and a path between
/// the two, and whether the closure pairs them.
pub fn queries<S: Kind>(rt: &impl Abort, alloc: Global, refused: &mut bool) {
    let mut dag: Plain<S> = small_fan(rt, alloc, refused);
    let nodes = dag.node_count();
    let others = nodes.wrapping_sub(1);
    let (root, last) = (NodeIndex::new(0), NodeIndex::new(3));
    ask_again(rt, &mut dag, Question::Affected, root, nodes, refused);
    ask_again(rt, &mut dag, Question::Descendants, root, others, refused);
    ask_again(rt, &mut dag, Question::Ancestors, last, 1, refused);
    ask_again(rt, &mut dag, Question::PathFromRoot, last, 2, refused);
    ask_again(rt, &mut dag, Question::EdgesFromRoot, last, 1, refused);
    ask_again(rt, &mut dag, Question::PairedWithRoot, last, 1, refused);
}
