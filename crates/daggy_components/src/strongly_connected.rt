//! The search for components.
ghost use Rattle.std.specs.Prelude.{◌≡◌, ℕ, ◌+◌, ◌-◌, ◌<◌, ◌≤◌, ◌++◌, IfOk, OnOk, map, replicate};
ghost use Rattle.std.specs.Prelude.{vec_len, slice_index_or, slice_range};
ghost use Rattle.daggy_base.specs.Graph.{edge_count};
ghost use Rattle.daggy_components.specs.Components.{AreComponents};
ghost use Rattle.daggy_components.specs.Stored.{placed};

use crate::components::Components;
use daggy_base::index::{EdgeIndex, IndexType, NodeIndex};
use daggy_base::link::Link;
use daggy_base::source::EdgeSource;
use std::alloc::{AllocError, Global};

// Links that lead nowhere.
pub(crate) fn links<Ix: IndexType>(alloc: Global, count: usize) -> Result<Vec<Link<Ix>>, AllocError>
    ensures { IfOk result (λ list. list.items ≡ replicate count Ix.greatest) }
{
    let mut list = Vec::new(alloc);
    list.resize(count, Link::end())?;
    Ok(list)
}

// How many groups are left once each that begins after `at` is one with the group below it.
fn joined<Ix: IndexType>(bases: &Vec<Link<Ix>>, groups: usize, at: usize) -> usize
    requires some { 0 < groups }
    requires within { groups ≤ vec_len bases.now }
    requires first { slice_index_or bases.now.items 0 0 ≤ at }
    ensures left { 0 < result }
    ensures fewer { result ≤ groups }
    ensures joins { (k : ℕ) → result ≤ k → k < groups → at < slice_index_or bases.now.items k 0 }
    ensures stays { slice_index_or bases.now.items (result - 1) 0 ≤ at }
{
    let mut left = groups;
    'groups: while bases[left - 1].index() > at {
        left -= 1;
    }
    left
}

// Puts some of the nodes behind the members, and gives them a place.
fn close<Ix: IndexType>(
    nodes: &Vec<Link<Ix>>,
    from: usize,
    to: usize,
    place: Link<Ix>,
    places: &mut Vec<Link<Ix>>,
    members: &mut Vec<NodeIndex<Ix>>,
) -> Result<(), AllocError>
    requires order { from ≤ to }
    requires within { to ≤ vec_len nodes.now }
    requires low { (k : ℕ) → from ≤ k → k < to
        → slice_index_or nodes.now.items k 0 < vec_len places.old }
    ensures placed { OnOk result
        (places.new.items ≡ placed places.old.items (slice_range nodes.now.items from to) place) }
    ensures moved { OnOk result (map Ix.number members.new.items
        ≡ map Ix.number members.old.items ++ slice_range nodes.now.items from to) }
{
    'nodes: for k in from..to {
        let n = nodes[k].node();
        places[n.index()] = place;
        members.push(n)?;
    }
    Ok(())
}

/// The strongly connected components of a graph: the classes of nodes that reach each other. They
/// are found by one depth-first search that keeps groups of such nodes along its path (Gabow 2000).
///
/// An edge between two components leads from the one with the greater number to the one with the
/// smaller.
///
/// # Errors
///
/// Returns `AllocError` if an allocation fails.
///
/// # Complexity
///
/// O(nodes + edges); each edge is read at most once. It allocates memory for five indices per node
/// and a number per component.
///
/// # Examples
///
/// ```
/// let mut graph: DiGraph<&'static str, ()> = DiGraph::new(rt.alloc());
/// let hen = graph.add_node("hen")?;
/// let egg = graph.add_node("egg")?;
/// let soup = graph.add_node("soup")?;
/// let _ = graph.add_edge(hen, egg, ())?;
/// let _ = graph.add_edge(egg, hen, ())?;
/// let _ = graph.add_edge(egg, soup, ())?;
/// let components = strongly_connected_components(rt.alloc(), &mut graph)?;
/// assert!(rt; components.count() == 2);
/// assert!(rt; components.component_of(hen) == components.component_of(egg));
/// // The edge between the two components leads to the smaller number.
/// assert!(rt; components.component_of(soup) == Some(0));
/// assert!(rt; components.component_of(egg) == Some(1));
/// ```
pub fn strongly_connected_components<Ix: IndexType, S: EdgeSource<Ix>>(
    alloc: Global,
    source: &mut S,
) -> Result<Components<Ix>, AllocError>
    ensures components { IfOk result (λ components.
        AreComponents (S.graph source.old) components) }
    ensures same { S.graph source.new ≡ S.graph source.old }
    ensures looked { S.looks source.old ≤ S.looks source.new }
    ensures counted { S.looks source.new ≤ S.looks source.old + edge_count (S.graph source.old) }
{
    let bound = source.node_bound();
    let end = EdgeIndex::<Ix>::end().index();
    // Of a node that was met and is in no component yet, how many such nodes there were before it.
    // Of a node of a component, `bound - 1` less the number of that component, which is no less than
    // the number of such nodes.
    let mut places: Vec<Link<Ix>> = links(alloc, bound)?;
    // From the front, the nodes on the way to the one at which the walk is, and from the back, the
    // others that were met and are in no component yet.
    let mut nodes: Vec<Link<Ix>> = links(alloc, bound)?;
    let mut cursors: Vec<Link<Ix>> = links(alloc, bound)?;
    // Where each group of nodes that reach each other begins among the nodes that were met and are
    // in no component yet.
    let mut bases: Vec<Link<Ix>> = links(alloc, bound)?;
    let mut members: Vec<NodeIndex<Ix>> = Vec::with_capacity(alloc, bound)?;
    let mut ends: Vec<usize> = Vec::new(alloc);
    let mut top = bound;
    'roots: for i in 0..bound {
        let root = NodeIndex::new(i);
        if !source.contains_node(root) || places[i].index() != end {
            continue;
        }
        places[i] = Link::new(0);
        bases[0] = Link::new(0);
        let mut groups = 1;
        let mut opened = 1;
        let mut len = 0;
        let mut n = root;
        let mut e = source.first(root);
        'steps: loop {
            if e.index() == end {
                let base = bases[groups - 1].index();
                if places[n.index()].index() == base {
                    // The last group is a component.
                    let place = Link::new(bound - 1 - ends.len());
                    let rest = top + (opened - base - 1);
                    places[n.index()] = place;
                    members.push(n)?;
                    close(&nodes, top, rest, place, &mut places, &mut members)?;
                    ends.push(members.len())?;
                    top = rest;
                    opened = base;
                    groups -= 1;
                } else {
                    top -= 1;
                    nodes[top] = Link::of_node(n);
                }
                if len == 0 {
                    break;
                }
                len -= 1;
                n = nodes[len].node();
                e = cursors[len].edge();
            } else {
                let (v, next) = source.look(e);
                let at = places[v.index()].index();
                if at == end {
                    nodes[len] = Link::of_node(n);
                    cursors[len] = Link::of_edge(next);
                    places[v.index()] = Link::new(opened);
                    bases[groups] = Link::new(opened);
                    len += 1;
                    groups += 1;
                    opened += 1;
                    n = v;
                    e = source.first(v);
                } else {
                    groups = joined(&bases, groups, at);
                    e = next;
                }
            }
        }
    }
    Ok(Components::of(members, ends, places))
}
