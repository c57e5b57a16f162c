//! Additions that test their conditions.
use super::acts::{Act, both};
use super::kinds::{Kind, Plain};
use super::support::{edge, holds, made, node, same};
use super::table::fill_nodes;
use daggy_base::error::{EdgeError, NodeError, ParentsError, TryChildError, WouldCycle};
use daggy_dag::acyclic::TryParentsError;
use std::process::Abort;

// Asserts that a new edge is refused so.
fn refuses<S: Kind>(
    rt: &impl Abort,
    dag: &mut Plain<S>,
    (a, b): (usize, usize),
    wanted: EdgeError<u32>,
) {
    let (a, b) = (node(rt, a), node(rt, b));
    same(rt, dag.try_add_edge(a, b, 7).err(), Some(wanted));
}

// The same of an edge that is updated.
fn refuses_update<S: Kind>(
    rt: &impl Abort,
    dag: &mut Plain<S>,
    (a, b): (usize, usize),
    wanted: EdgeError<u32>,
) {
    let (a, b) = (node(rt, a), node(rt, b));
    same(rt, dag.try_update_edge(a, b, 7).err(), Some(wanted));
}

/// Makes the path 0, 1, 2, 3 from an empty dag.
pub fn try_all<S: Kind>(rt: &impl Abort, dag: &mut Plain<S>) {
    same(rt, made(rt, dag.try_add_node(1)), node(rt, 0));
    let added = made(rt, dag.try_add_child(node(rt, 0), 10, 2));
    same(rt, added, (edge(rt, 0), node(rt, 1)));
    same(rt, made(rt, dag.try_add_node(3)), node(rt, 2));
    same(
        rt,
        made(rt, dag.try_add_edge(node(rt, 1), node(rt, 2), 11)),
        edge(rt, 1),
    );
    same(
        rt,
        made(rt, dag.try_update_edge(node(rt, 1), node(rt, 2), 12)),
        edge(rt, 1),
    );
    let added = made(rt, dag.try_add_parent(node(rt, 0), 13, 4));
    same(rt, added, (edge(rt, 2), node(rt, 3)));
    refuses(rt, dag, (0, 9), EdgeError::BadEndpoint(7));
    refuses(rt, dag, (9, 0), EdgeError::BadEndpoint(7));
    refuses(rt, dag, (2, 3), EdgeError::WouldCycle(WouldCycle(7)));
    refuses_update(rt, dag, (9, 0), EdgeError::BadEndpoint(7));
    refuses_update(rt, dag, (2, 0), EdgeError::WouldCycle(WouldCycle(7)));
    let missing = dag.try_add_child(node(rt, 9), 5, 6).err();
    same(rt, missing, Some(TryChildError::Missing(5, 6)));
    let missing = dag.try_add_parent(node(rt, 9), 5, 6).err();
    same(rt, missing, Some(TryChildError::Missing(5, 6)));
    holds(
        rt,
        matches!(
            tries_parent(rt, dag, 2, 9),
            Err(TryParentsError::Missing(_))
        ),
    );
    holds(
        rt,
        matches!(
            tries_parent(rt, dag, 9, 2),
            Err(TryParentsError::Missing(_))
        ),
    );
    let cycle = tries_parent(rt, dag, 3, 2);
    holds(
        rt,
        matches!(
            cycle,
            Err(TryParentsError::Refused(ParentsError::WouldCycle(_)))
        ),
    );
}

// Tries to make a node the only parent of another.
fn tries_parent<S: Kind>(
    rt: &impl Abort,
    dag: &mut Plain<S>,
    n: usize,
    parent: usize,
) -> Result<(), TryParentsError<u32, u8>> {
    let items = Vec::from_array(dag.allocator(), [(node(rt, parent), 7)]);
    dag.try_set_parents(node(rt, n), made(rt, items))
}

/// Fills the indices of nodes and then those of edges of an empty dag.
pub fn try_full<S: Kind>(rt: &impl Abort, dag: &mut Plain<S>) {
    fill_nodes(rt, dag, 255);
    same(rt, dag.try_add_node(9).err(), Some(NodeError::Full(9)));
    let full = dag.try_add_child(node(rt, 0), 5, 6).err();
    same(rt, full, Some(TryChildError::Full(5, 6)));
    for _ in 0..255 {
        holds(rt, dag.try_add_edge(node(rt, 0), node(rt, 1), 1).is_ok());
    }
    refuses(rt, dag, (0, 1), EdgeError::Full(7));
    // Whether it would close a cycle is not asked.
    refuses(rt, dag, (1, 0), EdgeError::Full(7));
    refuses_update(rt, dag, (0, 2), EdgeError::Full(7));
    same(
        rt,
        made(rt, dag.try_update_edge(node(rt, 0), node(rt, 1), 8)),
        edge(rt, 254),
    );
    same(rt, dag.remove_node(node(rt, 9)), Some(9));
    let full = dag.try_add_parent(node(rt, 0), 5, 6).err();
    same(rt, full, Some(TryChildError::Full(5, 6)));
}

#[test]
fn conditions_are_tested(rt: HostRuntime) {
    const ACTS: &[Act<'static>] = &[
        Act::TryAll,
        Act::Rows(
            "
            stored 0 = stored 0 1 10
            stored 1 = stored 1 2 12
            stored 2 = stored 3 0 13
            counts = counts 4 3
        ",
        ),
    ];
    both(&rt, rt.alloc(), "", ACTS);
}

#[test]
fn full_dags_refuse(rt: HostRuntime) {
    both(&rt, rt.alloc(), "", &[Act::TryFull]);
}
