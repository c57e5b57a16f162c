//! What is asked of nodes and edges.
use super::kinds::Kind;
use super::{Ix, Numbers, edge, node};
use anyhow::Result;
use daggy::{Direction, NodeIndex, Walker};
use histories_model::answer::Answer;
use histories_model::calls::{Query, Way};
use std::alloc::Global;

/// Asks a question.
pub fn look_up<S: Kind>(alloc: Global, dag: &Numbers<S>, query: &Query) -> Result<Answer> {
    match *query {
        Query::FindEdge(a, b) => {
            let found = dag.find_edge(node(a), node(b));
            Ok(Answer::Found(found.map(|e| e.index())))
        }
        Query::ContainsEdge(a, b) => Ok(Answer::Truth(dag.contains_edge(node(a), node(b)))),
        Query::EdgesConnecting(a, b) => connecting(alloc, dag, node(a), node(b)),
        Query::EdgeEndpoints(e) => Ok(Answer::Ends(match dag.edge_endpoints(edge(e)) {
            Some((a, b)) => Some((a.index(), b.index())),
            None => None,
        })),
        Query::Children(n) => children(alloc, dag, node(n)),
        Query::Parents(n) => parents(alloc, dag, node(n)),
        Query::Neighbors(n, way) => Ok(Answer::Indices(S::neighbors(
            alloc,
            dag,
            node(n),
            direction(way),
        )?)),
        Query::Edges(n, way) => Ok(Answer::Edges(S::edges(alloc, dag, node(n), direction(way))?)),
        Query::Externals(way) => {
            let mut found = Vec::new(alloc);
            for n in dag.externals(direction(way)) {
                found.push(n.index())?;
            }
            Ok(Answer::Indices(found))
        }
        Query::Nodes => Ok(Answer::Indices(S::nodes(alloc, dag)?)),
        Query::AllEdges => Ok(Answer::Edges(S::all_edges(alloc, dag)?)),
        Query::Weights => {
            let (nodes, edges) = S::weights(alloc, dag)?;
            Ok(Answer::Weights(nodes, edges))
        }
    }
}

/// A direction as the library names it.
pub fn direction(way: Way) -> Direction {
    match way {
        Way::Down => Direction::Outgoing,
        Way::Up => Direction::Incoming,
    }
}

fn connecting<S: Kind>(
    alloc: Global,
    dag: &Numbers<S>,
    a: NodeIndex<Ix>,
    b: NodeIndex<Ix>,
) -> Result<Answer> {
    let mut edges = Vec::new(alloc);
    for edge in dag.edges_connecting(a, b) {
        let ends = (edge.source().index(), edge.target().index());
        edges.push((edge.id().index(), (ends.0, ends.1, *edge.weight())))?;
    }
    Ok(Answer::Edges(edges))
}

fn children<S: Kind>(alloc: Global, dag: &Numbers<S>, n: NodeIndex<Ix>) -> Result<Answer> {
    let mut steps = Vec::new(alloc);
    for (e, child) in dag.children(n).iter(dag) {
        steps.push((e.index(), child.index()))?;
    }
    Ok(Answer::Steps(steps))
}

fn parents<S: Kind>(alloc: Global, dag: &Numbers<S>, n: NodeIndex<Ix>) -> Result<Answer> {
    let mut steps = Vec::new(alloc);
    for (e, parent) in dag.parents(n).iter(dag) {
        steps.push((e.index(), parent.index()))?;
    }
    Ok(Answer::Steps(steps))
}
