//! Random questions.
use super::{a_node, an_edge, some_nodes};
use crate::calls::{Query, Search, Walk, Way, Whole, Work};
use crate::model::Model;
use crate::random::Random;
use std::alloc::{AllocError, Global};

fn a_way(random: &mut Random) -> Way {
    if random.once_in(2) {
        Way::Down
    } else {
        Way::Up
    }
}

/// A random call about the whole dag.
pub fn choose_whole(random: &mut Random, model: &Model) -> Whole {
    match random.below(10) {
        0 => Whole::TryClone,
        1 => Whole::Map(random.next()),
        2 => Whole::FilterMap(random.next()),
        3 => Whole::FromDag,
        4 => Whole::WriteDocument,
        5 => Whole::Restore,
        6 => Whole::Rewrite(random.next()),
        7 => Whole::ReadSlots(an_edge(random, model)),
        8 => Whole::Recompute(random.next()),
        _ => Whole::ReadDocument(random.next()),
    }
}

/// A random question about nodes and edges.
pub fn choose_query(random: &mut Random, model: &Model) -> Query {
    let (a, b) = (a_node(random, model), a_node(random, model));
    match random.below(12) {
        0 => Query::FindEdge(a, b),
        1 => Query::EdgesConnecting(a, b),
        2 => Query::EdgeEndpoints(an_edge(random, model)),
        3 => Query::Children(a),
        4 => Query::Parents(a),
        5 => Query::Neighbors(a, a_way(random)),
        6 => Query::Edges(a, a_way(random)),
        7 => Query::Externals(a_way(random)),
        8 => Query::Nodes,
        9 => Query::AllEdges,
        10 => Query::ContainsEdge(a, b),
        _ => Query::Weights,
    }
}

/// A random question about paths.
pub fn choose_search(
    alloc: Global,
    random: &mut Random,
    model: &Model,
) -> Result<Search, AllocError> {
    let (a, b) = (a_node(random, model), a_node(random, model));
    Ok(match random.below(8) {
        0 => Search::Reaches(a, b),
        1 => Search::WouldCloseCycle(a, b),
        2 => Search::Path(a, b),
        3 => Search::PathEdges(a, b),
        4 => Search::StandsBefore(a, b),
        5 => Search::TransitiveClosure,
        6 => Search::RedundantEdges(some_nodes(alloc, random, model)?),
        _ => Search::SameReachability(random.next()),
    })
}

/// A random question whose answer is a list of nodes.
pub fn choose_walk(alloc: Global, random: &mut Random, model: &Model) -> Result<Walk, AllocError> {
    let n = a_node(random, model);
    Ok(match random.below(7) {
        0 => Walk::TopologicalOrder,
        1 => Walk::Descendants(some_nodes(alloc, random, model)?),
        2 => Walk::Ancestors(some_nodes(alloc, random, model)?),
        3 => Walk::Affected(some_nodes(alloc, random, model)?),
        4 => Walk::Bfs(n, a_way(random)),
        5 => Walk::Dfs(n, a_way(random)),
        _ => Walk::DfsPostOrder(n, a_way(random)),
    })
}

/// A random question about the nodes as work.
pub fn choose_work(random: &mut Random) -> Work {
    match random.below(5) {
        0 => Work::Ready(random.next()),
        1 => Work::Schedule,
        2 => Work::ScheduleOn(1usize.saturating_add(random.below(4))),
        3 => Work::OrderBy(random.next()),
        _ => Work::Plan,
    }
}
