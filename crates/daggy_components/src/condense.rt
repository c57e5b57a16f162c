//! The condensation of a graph.
ghost use Rattle.std.specs.Prelude.{◌≡◌, ℕ, ◌+◌, ◌<◌, ◌≤◌, ◌⊎◌, Some, IfOk, OnOk, IfSome, IfNone};
ghost use Rattle.std.specs.Prelude.{map, length, vec_len, slice_get, slice_index};
ghost use Rattle.std.specs.Option.{option_map};
ghost use Rattle.daggy_base.specs.Graph.{edge_count, slot, IsCompact};
ghost use Rattle.daggy_base.specs.Path.{IsAcyclic};
ghost use Rattle.daggy_base.specs.FromSlots.{graph_of_slots, edges_by, MakeGraph};
ghost use Rattle.daggy_components.specs.Components.{AreComponents};
ghost use Rattle.daggy_components.specs.Condensation.{AreBetween, IsCondensation};
ghost use Rattle.daggy_components.specs.Condensation.{KeepsReachability};
ghost use Rattle.daggy_components.specs.Noting.{Joins, IsLowered, IsAppended};

use crate::components::Components;
use daggy_base::index::{EdgeIndex, IndexType, NodeIndex};
use daggy_base::source::EdgeSource;
use daggy_base::store::Store;
use std::alloc::{AllocError, Global};

/// The nodes of a condensation, as slots: the members of each component.
pub type NodeSlots<Ix> = Vec<Option<Vec<NodeIndex<Ix>>>>;

/// The edges of a condensation, as slots: two components, and the edge with the smallest index that
/// connects them.
pub type EdgeSlots<Ix> = Vec<Option<(NodeIndex<Ix>, NodeIndex<Ix>, EdgeIndex<Ix>)>>;

// The members of each component.
fn node_slots<Ix: IndexType>(
    alloc: Global,
    components: &Components<Ix>,
) -> Result<NodeSlots<Ix>, AllocError>
    ensures slots { IfOk result (λ slots. (k : ℕ)
        → option_map (λ list. map Ix.number list.items) (slot slots.items k)
        ≡ slice_get components.now k) }
    ensures count { IfOk result (λ slots. vec_len slots ≡ length components.now) }
{
    let mut slots = Vec::with_capacity(alloc, components.count())?;
    'components: for k in 0..components.count() {
        let mut list = Vec::new(alloc);
        list.extend_from_slice(components.members(k))?;
        slots.push(Some(list))?;
    }
    Ok(slots)
}

// The edge that a slot holds, if it leads from the component `j` to the component `k`.
fn noted<Ix: IndexType>(
    slots: &EdgeSlots<Ix>,
    at: usize,
    j: usize,
    k: usize,
) -> Option<EdgeIndex<Ix>>
    ensures some { IfSome result (λ e. slot (edges_by Ix.number slots.now.items) at
        ≡ Some (record { parent = j; child = k; weight = e })) }
    ensures none { IfNone result (¬ Joins (edges_by Ix.number slots.now.items) at j k) }
{
    let (a, b, e) = (*slots.get(at)?)?;
    if a.index() == j && b.index() == k {
        Some(e)
    } else {
        None
    }
}

// The same, where the slots before `begin` hold no such edge.
fn noted_from<Ix: IndexType>(
    slots: &EdgeSlots<Ix>,
    begin: usize,
    at: usize,
    j: usize,
    k: usize,
) -> Option<EdgeIndex<Ix>>
    requires { (i : ℕ) → i < begin → ¬ Joins (edges_by Ix.number slots.now.items) i j k }
    ensures some { IfSome result (λ e. slot (edges_by Ix.number slots.now.items) at
        ≡ Some (record { parent = j; child = k; weight = e })) }
    ensures none { IfNone result (¬ Joins (edges_by Ix.number slots.now.items) at j k) }
{
    if at < begin {
        return None;
    }
    noted(slots, at, j, k)
}

// Notes an edge from the component `j` to the component `k`. If one was noted already, the one with
// the smaller index is left. The slots before `begin` have no edge from `j`, so they are not read:
// most of them would have to come from memory.
fn note<Ix: IndexType>(
    slots: &mut EdgeSlots<Ix>,
    found: &mut Vec<usize>,
    begin: usize,
    j: usize,
    k: usize,
    e: EdgeIndex<Ix>,
) -> Result<(), AllocError>
    requires before { (i : ℕ) → i < begin → ¬ Joins (edges_by Ix.number slots.old.items) i j k }
    requires from { j ≤ Ix.greatest }
    requires to { k ≤ Ix.greatest }
    requires within { k < vec_len found.old }
    ensures noted { OnOk result (
        (IsLowered Ix.number (edges_by Ix.number slots.old.items)
        (edges_by Ix.number slots.new.items) (slice_index found.old.items k) j k e × (found.new.items ≡ found.old.items))
        ⊎ IsAppended (edges_by Ix.number slots.old.items) (edges_by Ix.number slots.new.items)
        found.old.items found.new.items j k e) }
{
    let edge = (NodeIndex::new(j), NodeIndex::new(k), e);
    let at = found[k];
    let Some(least) = noted_from(slots, begin, at, j, k) else {
        found[k] = slots.len();
        slots.push(Some(edge))?;
        return Ok(());
    };
    if e.index() < least.index() {
        slots[at] = Some(edge);
        return Ok(());
    }
    Ok(())
}

// An edge for each two components that edges join.
fn edge_slots<Ix: IndexType, S: EdgeSource<Ix>>(
    alloc: Global,
    source: &mut S,
    components: &Components<Ix>,
) -> Result<EdgeSlots<Ix>, AllocError>
    requires { AreComponents (S.graph source.old) components.now }
    ensures between { IfOk result (λ slots. AreBetween Ix.number (S.graph source.old) components.now
        (edges_by Ix.number slots.items)) }
    ensures few { IfOk result (λ slots. vec_len slots ≤ Ix.greatest) }
    ensures few_components { length components.now ≤ Ix.greatest }
    ensures same { S.graph source.new ≡ S.graph source.old }
    ensures looked { S.looks source.old ≤ S.looks source.new }
    ensures counted { S.looks source.new ≤ S.looks source.old + edge_count (S.graph source.old) }
{
    // Called for its contract: each list has the edges of its node.
    let _bound = source.node_bound();
    let end = EdgeIndex::<Ix>::end().index();
    let mut slots = Vec::new(alloc);
    // For each component, which slot may hold an edge that leads to it from the component at hand.
    let mut found = vec![in alloc; 0; components.count()]?;
    'components: for j in 0..components.count() {
        let begin = slots.len();
        'members: for n in components.members(j) {
            let mut e = source.first(*n);
            'edges: while e.index() != end {
                let (v, next) = source.look(e);
                let k = components.component_of(v).unwrap();
                if k != j {
                    note(&mut slots, &mut found, begin, j, k, e)?;
                }
                e = next;
            }
        }
    }
    Ok(slots)
}

/// The slots of the condensation of a graph: a node for each component, with the list of its
/// members as its weight, and an edge for each pair of components that edges connect, with the
/// smallest index of these edges as its weight.
///
/// Pass them to `from_slots` of a store or of a dag, which finds no cycle in them.
///
/// # Requires
///
/// - `components` are the strongly connected components of the graph, as
///   `strongly_connected_components` returns them.
///
/// # Errors
///
/// Returns `AllocError` if an allocation fails.
///
/// # Complexity
///
/// O(nodes + edges); each edge is read at most once.
///
/// # Examples
///
/// ```
/// let mut graph: DiGraph<&'static str, ()> = DiGraph::new(rt.alloc());
/// let hen = graph.add_node("hen")?;
/// let egg = graph.add_node("egg")?;
/// let cake = graph.add_node("cake")?;
/// graph.add_edge(hen, egg, ())?;
/// graph.add_edge(egg, hen, ())?;
/// let used = graph.add_edge(egg, cake, ())?;
/// let mut source = Reading::new(&graph);
/// let components = strongly_connected_components(rt.alloc(), &mut source)?;
/// let (nodes, edges) = condensation_slots(rt.alloc(), &mut source, &components)?;
/// assert!(rt; nodes.len() == 2 && edges.len() == 1);
/// assert!(rt; edges[0].is_some_and(|edge| edge.2 == used));
/// ```
pub fn condensation_slots<Ix: IndexType, S: EdgeSource<Ix>>(
    alloc: Global,
    source: &mut S,
    components: &Components<Ix>,
) -> Result<(NodeSlots<Ix>, EdgeSlots<Ix>), AllocError>
    requires { AreComponents (S.graph source.old) components.now }
    ensures condensation { IfOk result (λ slots.
        IsCondensation (λ list. map Ix.number list.items) Ix.number (S.graph source.old)
        components.now (graph_of_slots slots.0.items (edges_by Ix.number slots.1.items))) }
    ensures acyclic { IfOk result (λ slots.
        IsAcyclic (graph_of_slots slots.0.items (edges_by Ix.number slots.1.items))) }
    ensures reachability { IfOk result (λ slots.
        KeepsReachability (S.graph source.old) components.now
        (graph_of_slots slots.0.items (edges_by Ix.number slots.1.items))) }
    ensures makes_graph { IfOk result (λ slots.
        MakeGraph Ix.greatest slots.0.items (edges_by Ix.number slots.1.items)) }
    ensures compact { IfOk result (λ slots.
        IsCompact (graph_of_slots slots.0.items (edges_by Ix.number slots.1.items))) }
    ensures same { S.graph source.new ≡ S.graph source.old }
    ensures looked { S.looks source.old ≤ S.looks source.new }
    ensures counted { S.looks source.new ≤ S.looks source.old + edge_count (S.graph source.old) }
{
    let nodes = node_slots(alloc, components)?;
    let edges = edge_slots(alloc, source, components)?;
    Ok((nodes, edges))
}

/// The condensation of a graph, which is acyclic: a node for each component, with the list of its
/// members as its weight, and an edge for each pair of components that edges connect, with the
/// smallest index of these edges as its weight.
///
/// Node `k` is the component `k`. A node of the graph reaches another if and only if its component
/// reaches the other node's component.
///
/// # Requires
///
/// - `components` are the strongly connected components of the graph, as
///   `strongly_connected_components` returns them.
///
/// # Errors
///
/// Returns `AllocError` if an allocation fails.
///
/// # Complexity
///
/// O(nodes + edges); each edge is read at most once.
///
/// # Examples
///
/// ```
/// let mut graph: DiGraph<&'static str, ()> = DiGraph::new(rt.alloc());
/// let hen = graph.add_node("hen")?;
/// let egg = graph.add_node("egg")?;
/// let cake = graph.add_node("cake")?;
/// graph.add_edge(hen, egg, ())?;
/// graph.add_edge(egg, hen, ())?;
/// graph.add_edge(egg, cake, ())?;
/// let mut source = Reading::new(&graph);
/// let components = strongly_connected_components(rt.alloc(), &mut source)?;
/// assert!(rt; components.component_of(hen) == components.component_of(egg));
/// let condensed: DiGraph<Vec<NodeIndex>, EdgeIndex> =
///     condensation(rt.alloc(), &mut source, &components)?;
/// assert!(rt; condensed.node_count() == 2 && condensed.edge_count() == 1);
/// ```
pub fn condensation<Ix: IndexType, S: EdgeSource<Ix>, T>(
    alloc: Global,
    source: &mut S,
    components: &Components<Ix>,
) -> Result<T, AllocError>
where
    T: Store<Ix, NodeWeight = Vec<NodeIndex<Ix>>, EdgeWeight = EdgeIndex<Ix>>,
    requires { AreComponents (S.graph source.old) components.now }
    ensures condensation { IfOk result (λ c.
        IsCondensation (λ list. map Ix.number list.items) Ix.number (S.graph source.old)
        components.now (T.graph c)) }
    ensures acyclic { IfOk result (λ c. IsAcyclic (T.graph c)) }
    ensures reachability { IfOk result (λ c.
        KeepsReachability (S.graph source.old) components.now (T.graph c)) }
    ensures compact { IfOk result (λ c. IsCompact (T.graph c)) }
    ensures fresh { IfOk result (λ c. T.looks c ≡ 0) }
    ensures same { S.graph source.new ≡ S.graph source.old }
    ensures looked { S.looks source.old ≤ S.looks source.new }
    ensures counted { S.looks source.new ≤ S.looks source.old + edge_count (S.graph source.old) }
{
    let (nodes, edges) = condensation_slots(alloc, source, components)?;
    T::from_slots(alloc, nodes, edges)
}
