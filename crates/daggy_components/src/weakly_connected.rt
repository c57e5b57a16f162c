//! The search for weakly connected components.
ghost use Rattle.std.specs.Prelude.{◌≡◌, ◌≢◌, ◌+◌, ◌≤◌, IfOk, OnOk, map, vec_len};
ghost use Rattle.daggy_base.specs.Graph.{node_bound as node_bound_of};
ghost use Rattle.daggy_components.specs.Meeting.{MeetsChildren};
ghost use Rattle.daggy_components.specs.WeakComponents.{AreWeakComponents};

use crate::components::Components;
use crate::strongly_connected::links;
use daggy_base::index::{EdgeIndex, IndexType, NodeIndex};
use daggy_base::link::Link;
use daggy_base::read_store::ReadStore;
use daggy_base::source::EdgeSource;
use daggy_search::{Reading, Reversed};
use std::alloc::{AllocError, Global};

// Gives a place to each child of a node that has none, and puts it behind the nodes.
fn meet_children<Ix: IndexType, S: EdgeSource<Ix>>(
    source: &mut S,
    n: NodeIndex<Ix>,
    place: Link<Ix>,
    places: &mut Vec<Link<Ix>>,
    nodes: &mut Vec<NodeIndex<Ix>>,
) -> Result<(), AllocError>
    requires sized { node_bound_of (S.graph source.old) ≤ vec_len places.old }
    requires some { place ≢ Ix.greatest }
    ensures met { OnOk result (MeetsChildren Ix.greatest (S.graph source.old) (Ix.number n) place
        places.old.items places.new.items (map Ix.number nodes.old.items)
        (map Ix.number nodes.new.items)) }
    ensures same { S.graph source.new ≡ S.graph source.old }
{
    // Called for its contract: each list has the edges of its node.
    let _bound = source.node_bound();
    let end = EdgeIndex::<Ix>::end().index();
    let mut e = source.first(n);
    'edges: while e.index() != end {
        let (v, next) = source.look(e);
        if places[v.index()].index() == end {
            places[v.index()] = place;
            nodes.push(v)?;
        }
        e = next;
    }
    Ok(())
}

/// The weakly connected components of a graph: the classes of nodes that are connected if the
/// direction of the edges is ignored.
///
/// # Errors
///
/// Returns `AllocError` if an allocation fails.
///
/// # Complexity
///
/// O(nodes + edges). It allocates memory for two indices per node and a number per component.
///
/// # Examples
///
/// ```
/// let mut graph: DiGraph<&'static str, ()> = DiGraph::new(rt.alloc());
/// let sow = graph.add_node("sow")?;
/// let reap = graph.add_node("reap")?;
/// let fence = graph.add_node("mend the fence")?;
/// let _ = graph.add_edge(sow, reap, ())?;
/// let components = weakly_connected_components(rt.alloc(), &graph)?;
/// assert!(rt; components.count() == 2);
/// assert!(rt; components.component_of(sow) == components.component_of(reap));
/// assert!(rt; components.component_of(sow) != components.component_of(fence));
/// ```
pub fn weakly_connected_components<Ix: IndexType, S: ReadStore<Ix>>(
    alloc: Global,
    store: &S,
) -> Result<Components<Ix>, AllocError>
    ensures { IfOk result (λ components. AreWeakComponents (S.graph store.now) components) }
{
    let mut along = Reading::new(store);
    let mut against = Reversed::new(store);
    let bound = store.node_bound();
    let end = EdgeIndex::<Ix>::end().index();
    // Of a node that was met, `bound - 1` less the number of its component.
    let mut places: Vec<Link<Ix>> = links(alloc, bound)?;
    // The members of each component, one after another. Those of the last wait for their neighbors
    // to be met, from `head` on.
    let mut nodes: Vec<NodeIndex<Ix>> = Vec::with_capacity(alloc, bound)?;
    let mut ends: Vec<usize> = Vec::new(alloc);
    'roots: for i in 0..bound {
        let root = NodeIndex::new(i);
        if !store.contains_node(root) || places[i].index() != end {
            continue;
        }
        let place = Link::new(bound - 1 - ends.len());
        let mut head = nodes.len();
        places[i] = place;
        nodes.push(root)?;
        'queue: while head < nodes.len() {
            let n = nodes[head];
            meet_children(&mut along, n, place, &mut places, &mut nodes)?;
            meet_children(&mut against, n, place, &mut places, &mut nodes)?;
            head += 1;
        }
        ends.push(nodes.len())?;
    }
    Ok(Components::of(nodes, ends, places))
}
