//! Lists of nodes.
use super::kinds::Kind;
use super::queries::direction;
use super::{Numbers, node, nodes, numbers};
use anyhow::Result;
use daggy::Walker;
use daggy::traversal::{Bfs, Dfs, DfsPostOrder};
use histories_model::answer::Answer;
use histories_model::calls::Walk;
use std::alloc::Global;

/// Asks a question whose answer is a list of nodes.
pub fn walk<S: Kind>(alloc: Global, dag: &mut Numbers<S>, walk: &Walk) -> Result<Answer> {
    let found = match walk {
        Walk::TopologicalOrder => dag.topological_order().collect(alloc)?,
        Walk::Descendants(from) => dag.descendants(nodes(alloc, from.as_slice())?.as_slice())?,
        Walk::Ancestors(from) => dag.ancestors(nodes(alloc, from.as_slice())?.as_slice())?,
        Walk::Affected(from) => dag.affected(nodes(alloc, from.as_slice())?.as_slice())?,
        Walk::Bfs(n, way) => {
            let walk = Bfs::new(alloc, dag.graph(), node(*n), direction(*way))?;
            walk.iter(dag.graph()).collect(alloc)?
        }
        Walk::Dfs(n, way) => {
            let walk = Dfs::new(alloc, dag.graph(), node(*n), direction(*way))?;
            walk.iter(dag.graph()).collect(alloc)?
        }
        Walk::DfsPostOrder(n, way) => {
            let walk = DfsPostOrder::new(alloc, dag.graph(), node(*n), direction(*way))?;
            walk.iter(dag.graph()).collect(alloc)?
        }
    };
    Ok(Answer::Indices(numbers(alloc, found.as_slice())?))
}
