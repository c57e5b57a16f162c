//! What is asked of paths.
use super::kinds::Kind;
use super::wholes::compact;
use super::{Numbers, node, nodes, numbers, redundant};
use anyhow::{Result, bail};
use daggy::same_reachability;
use histories_model::answer::Answer;
use histories_model::calls::Search;
use std::alloc::Global;

/// Asks a question about paths.
pub fn search<S: Kind>(alloc: Global, dag: &mut Numbers<S>, search: &Search) -> Result<Answer> {
    match search {
        Search::Reaches(a, b) => Ok(Answer::Truth(dag.reaches(node(*a), node(*b)))),
        Search::WouldCloseCycle(a, b) => {
            Ok(Answer::Truth(dag.would_close_cycle(node(*a), node(*b))))
        }
        Search::StandsBefore(a, b) => stands_before(dag, *a, *b),
        Search::Path(a, b) => match dag.path(node(*a), node(*b))? {
            Some(path) => Ok(Answer::Path(Some(numbers(alloc, path.as_slice())?))),
            None => Ok(Answer::Path(None)),
        },
        Search::PathEdges(a, b) => path_edges(alloc, dag, *a, *b),
        Search::TransitiveClosure => closure(alloc, dag),
        Search::RedundantEdges(roots) => {
            let roots = nodes(alloc, roots.as_slice())?;
            redundant::redundant(alloc, S::copied(dag)?.into_graph(), roots.as_slice())
        }
        Search::SameReachability(salt) => {
            let whole = compact(alloc, dag, None)?;
            let part = compact(alloc, dag, Some(*salt))?;
            Ok(Answer::Truth(same_reachability(&whole, &part)?))
        }
    }
}

// Whether a node stands before another, which is also read from the order.
fn stands_before<S: Kind>(dag: &Numbers<S>, a: usize, b: usize) -> Result<Answer> {
    let mut has_a = false;
    let mut stands = false;
    for n in dag.topological_order() {
        stands = stands || has_a && n.index() == b;
        has_a = has_a || n.index() == a;
    }
    if stands != dag.stands_before(node(a), node(b)) {
        bail!("in the order {stands}");
    }
    Ok(Answer::Truth(stands))
}

fn path_edges<S: Kind>(alloc: Global, dag: &mut Numbers<S>, a: usize, b: usize) -> Result<Answer> {
    let Some(path) = dag.path_edges(node(a), node(b))? else {
        return Ok(Answer::Path(None));
    };
    let mut edges = Vec::new(alloc);
    for e in &path {
        edges.push(e.index())?;
    }
    Ok(Answer::Path(Some(edges)))
}

fn closure<S: Kind>(alloc: Global, dag: &mut Numbers<S>) -> Result<Answer> {
    let matrix = dag.transitive_closure()?;
    let slots = dag.graph().node_slots();
    let mut pairs = Vec::new(alloc);
    for a in 0..slots {
        for b in 0..slots {
            if matrix.has(node(a), node(b)) {
                pairs.push((a, b))?;
            }
        }
    }
    Ok(Answer::Pairs(pairs))
}
