//! Whether an answer is right. Most calls have one right answer, but a topological order, a path or a
//! schedule is one of several.
mod schedules;

use crate::answer::{Answer, Event};
use crate::calls::{Call, Search, Walk, Way, Work};
use crate::model::Model;
use crate::model::paths::{at, flag};
use schedules::{is_assignment, is_schedule};
use std::alloc::{AllocError, Global};

/// Whether a dag answers correctly. `expected` is the answer of the model; a call with several right
/// answers does not change the model.
pub fn is_right(
    alloc: Global,
    model: &Model,
    call: &Call,
    expected: &Answer,
    actual: &Answer,
) -> Result<bool, AllocError> {
    match (call, actual) {
        (Call::Search(search), _) => is_right_search(alloc, model, search, expected, actual),
        (Call::Walk(walk), Answer::Indices(found)) => {
            is_right_walk(alloc, model, walk, expected, found.as_slice())
        }
        (Call::Work(Work::Ready(_)), Answer::Events(events)) => {
            is_worked_off(alloc, model, events.as_slice())
        }
        (Call::Work(Work::Schedule), Answer::Times(times)) => {
            Ok(is_schedule(model, expected, times))
        }
        (Call::Work(Work::ScheduleOn(count)), _) => is_assignment(alloc, model, *count, actual),
        _ => Ok(expected == actual),
    }
}

fn is_right_search(
    alloc: Global,
    model: &Model,
    search: &Search,
    expected: &Answer,
    actual: &Answer,
) -> Result<bool, AllocError> {
    match (search, expected, actual) {
        (Search::Path(a, b), Answer::Path(Some(wanted)), Answer::Path(Some(found))) => {
            Ok(found.len() == wanted.len() && is_path(model, *a, *b, found.as_slice()))
        }
        (Search::PathEdges(a, b), Answer::Path(Some(wanted)), Answer::Path(Some(found))) => {
            let nodes = nodes_along(alloc, model, *a, found.as_slice())?;
            let edges = model.edges_along(nodes.as_slice())?;
            let is_one = is_path(model, *a, *b, nodes.as_slice()) && edges == *found;
            Ok(found.len() == wanted.len() && is_one)
        }
        (Search::StandsBefore(a, b), _, Answer::Truth(stands)) => may_stand(model, *a, *b, *stands),
        _ => Ok(expected == actual),
    }
}

// Whether `stands` can be right, for one of the topological orders.
fn may_stand(model: &Model, a: usize, b: usize, stands: bool) -> Result<bool, AllocError> {
    if a == b || !model.has_node(a) || !model.has_node(b) {
        return Ok(!stands);
    }
    Ok(if stands {
        !model.descends(b, a)?
    } else {
        !model.descends(a, b)?
    })
}

fn is_right_walk(
    alloc: Global,
    model: &Model,
    walk: &Walk,
    expected: &Answer,
    found: &[usize],
) -> Result<bool, AllocError> {
    let Answer::Indices(wanted) = expected else {
        return Ok(false);
    };
    match walk {
        Walk::TopologicalOrder | Walk::Descendants(_) | Walk::Ancestors(_) | Walk::Affected(_) => {
            is_order_of(alloc, model, wanted.as_slice(), found)
        }
        Walk::Bfs(n, way) => is_breadth_first(alloc, model, *n, *way, wanted.as_slice(), found),
        Walk::Dfs(_, _) | Walk::DfsPostOrder(_, _) => Ok(wanted.as_slice() == found),
    }
}

// Whether two lists have the same nodes.
fn are_same(alloc: Global, wanted: &[usize], found: &[usize]) -> Result<bool, AllocError> {
    let mut wanted = Vec::from_slice(alloc, wanted)?;
    let mut found = Vec::from_slice(alloc, found)?;
    wanted.sort()?;
    found.sort()?;
    Ok(wanted == found)
}

/// Whether some nodes are these, each once, and none comes after one that it reaches.
pub fn is_order_of(
    alloc: Global,
    model: &Model,
    wanted: &[usize],
    found: &[usize],
) -> Result<bool, AllocError> {
    if !are_same(alloc, wanted, found)? {
        return Ok(false);
    }
    let mut places = Vec::new(alloc);
    places.resize(model.nodes.len(), None)?;
    for (place, n) in found.iter().enumerate() {
        if let Some(slot) = places.get_mut(*n) {
            *slot = Some(place);
        }
    }
    if found.len() == model.node_count() {
        return Ok(agrees_with_edges(model, &places));
    }
    for a in found {
        let distances = model.distances(*a, Way::Down)?;
        for b in found {
            if a != b && at(&distances, *b).is_some() && at(&places, *b) < at(&places, *a) {
                return Ok(false);
            }
        }
    }
    Ok(true)
}

// Whether each edge leads to a later place.
fn agrees_with_edges(model: &Model, places: &Vec<Option<usize>>) -> bool {
    for edge in &model.edges {
        if let Some(edge) = edge {
            if at(places, edge.child) <= at(places, edge.parent) {
                return false;
            }
        }
    }
    true
}

fn is_path(model: &Model, a: usize, b: usize, nodes: &[usize]) -> bool {
    for (from, to) in nodes.iter().zip(nodes.iter().skip(1)) {
        if model.edge_between(*from, *to).is_none() {
            return false;
        }
    }
    nodes.first() == Some(&a) && nodes.last() == Some(&b)
}

// The nodes along some edges from a node on.
fn nodes_along(
    alloc: Global,
    model: &Model,
    from: usize,
    edges: &[usize],
) -> Result<Vec<usize>, AllocError> {
    let mut nodes = vec![in alloc; from]?;
    for e in edges {
        if let Some(edge) = model.edge(*e) {
            nodes.push(edge.child)?;
        }
    }
    Ok(nodes)
}

fn is_breadth_first(
    alloc: Global,
    model: &Model,
    n: usize,
    way: Way,
    wanted: &[usize],
    found: &[usize],
) -> Result<bool, AllocError> {
    let distances = model.distances(n, way)?;
    let mut last = Some(0);
    for other in found {
        let distance = at(&distances, *other);
        if distance < last {
            return Ok(false);
        }
        last = distance;
    }
    are_same(alloc, wanted, found)
}

// Whether each node was handed out once, after its parents were done, and then done.
fn is_worked_off(alloc: Global, model: &Model, events: &[Event]) -> Result<bool, AllocError> {
    let mut out = Vec::new(alloc);
    let mut is_done = Vec::new(alloc);
    is_done.resize(model.nodes.len(), false)?;
    for event in events {
        match *event {
            Event::Out(n) => {
                if !model.has_parents_in(n, &is_done) {
                    return Ok(false);
                }
                out.push(n)?;
            }
            Event::Done(n) => {
                if flag(&is_done, n) || !out.as_slice().contains(&n) {
                    return Ok(false);
                }
                if let Some(done) = is_done.get_mut(n) {
                    *done = true;
                }
            }
        }
    }
    are_same(alloc, model.existing()?.as_slice(), out.as_slice())
}
