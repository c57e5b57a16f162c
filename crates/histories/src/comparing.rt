//! A dag compared with its model, in all that can be seen of it.
ghost use Rattle.std.specs.Iterator.{IsFinite};

use crate::dag::kinds::Kind;
use crate::dag::{Ix, Numbers, edge, node};
use daggy::{EdgeIndex, NodeIndex, Walker};
use histories_model::calls::Way;
use histories_model::judging::is_order_of;
use histories_model::model::Model;
use std::alloc::{AllocError, Global};

/// What differs.
#[derive(Clone, Copy, Debug)]
pub enum Difference {
    Counts,
    Slots,
    Limits,
    Node(usize),
    Edge(usize),
    Children(usize),
    Parents(usize),
    Order,
}

/// The first difference between a dag and its model, if there is one.
pub fn compare<S: Kind>(
    alloc: Global,
    dag: &Numbers<S>,
    model: &Model,
) -> Result<Option<Difference>, AllocError> {
    if dag.node_count() != model.node_count() || dag.edge_count() != model.edge_count() {
        return Ok(Some(Difference::Counts));
    }
    let slots = (dag.graph().node_slots(), dag.graph().edge_slots());
    if slots != (model.nodes.len(), model.edges.len()) {
        return Ok(Some(Difference::Slots));
    }
    if dag.can_add_node() != (model.node_count() < model.limit)
        || dag.can_add_edge() != (model.edge_count() < model.limit)
    {
        return Ok(Some(Difference::Limits));
    }
    for n in 0..model.nodes.len() {
        if let Some(difference) = compare_node(dag, model, n) {
            return Ok(Some(difference));
        }
    }
    for e in 0..model.edges.len() {
        if !is_same_edge(dag, model, e) {
            return Ok(Some(Difference::Edge(e)));
        }
    }
    let mut order = Vec::new(alloc);
    for n in dag.topological_order() {
        order.push(n.index())?;
    }
    if !is_order_of(alloc, model, model.existing()?.as_slice(), order.as_slice())? {
        return Ok(Some(Difference::Order));
    }
    Ok(None)
}

fn compare_node<S: Kind>(dag: &Numbers<S>, model: &Model, n: usize) -> Option<Difference> {
    let weight = dag.node_weight(node(n)).copied();
    if weight != model.node(n) || dag.contains_node(node(n)) != weight.is_some() {
        return Some(Difference::Node(n));
    }
    if !is_list(model, n, Way::Down, dag.children(node(n)).iter(dag)) {
        return Some(Difference::Children(n));
    }
    if !is_list(model, n, Way::Up, dag.parents(node(n)).iter(dag)) {
        return Some(Difference::Parents(n));
    }
    None
}

// Whether a walk yields the edges of a list, each with its other end.
fn is_list<I: Iterator<Item = (EdgeIndex<Ix>, NodeIndex<Ix>)> + Drop>(
    model: &Model,
    n: usize,
    way: Way,
    walk: I,
) -> bool
    requires can { I.can_next walk }
    requires ends { IsFinite (I.remaining walk) }
{
    let mut wanted = model.list(n, way).iter();
    for (e, other) in walk {
        let (e, other) = (e.index(), other.index());
        if wanted.next() != Some(&e) || model.far_end(e, way) != Some(other) {
            return false;
        }
    }
    wanted.next().is_none()
}

fn is_same_edge<S: Kind>(dag: &Numbers<S>, model: &Model, e: usize) -> bool {
    let found = (dag.edge_endpoints(edge(e)), dag.edge_weight(edge(e)));
    match (found, model.edge(e)) {
        ((Some((a, b)), Some(weight)), Some(edge)) => {
            a.index() == edge.parent && b.index() == edge.child && *weight == edge.weight
        }
        ((None, None), None) => true,
        _ => false,
    }
}
