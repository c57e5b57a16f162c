//! The order of the children of a node.
ghost use Rattle.std.specs.Prelude.{◌≡◌, ℕ, ◌↔◌, ◌++◌, true, Ok, map, IsTrue, IfOk, OnOk, OnErr, IfSome, IfNone};
ghost use Rattle.daggy_base.specs.declared.index.Direction.TheVariants.{Outgoing};
ghost use Rattle.daggy_base.specs.Graph.{HasNode, list_at, out_list, in_list};
ghost use Rattle.daggy_base.specs.Orders.{numbers_of, AreOrders, IsOrder, with_orders};
ghost use Rattle.daggy_base.specs.Path.{IsAcyclic};
ghost use Rattle.daggy_operators.specs.Children.{with_out_list, AreSiblings, put_one, put_before};

use daggy_base::index::{Direction, EdgeIndex, IndexType, NodeIndex};
use daggy_base::read_store::ReadStore;
use daggy_base::store::Store;
use daggy_dag::acyclic::Acyclic;
use daggy_visit::walk;
use std::alloc::{AllocError, Global};

// The out list and the in list of a node.
type Lists<Ix> = (Vec<EdgeIndex<Ix>>, Vec<EdgeIndex<Ix>>);

// The edges of a node, in the order of its list.
pub(crate) fn listed_edges<Ix: IndexType, S: ReadStore<Ix>>(
    alloc: Global,
    store: &S,
    n: NodeIndex<Ix>,
    dir: Direction,
) -> Result<Vec<EdgeIndex<Ix>>, AllocError>
    ensures { IfOk result (λ edges. map Ix.number edges.items
        ≡ list_at dir (S.graph store.now) (Ix.number n)) }
{
    store.invariant();
    let mut edges = Vec::new(alloc);
    let mut cursor = store.first_edge(n, dir);
    'edges: while let Some(item) = walk::step(store, dir, &mut cursor) {
        edges.push(item.0)?;
    }
    Ok(edges)
}

// The out list of the node `at`: the given one if this is the node `n`.
fn out_list_of<Ix: IndexType, S: ReadStore<Ix>>(
    alloc: Global,
    store: &S,
    at: NodeIndex<Ix>,
    n: NodeIndex<Ix>,
    order: &[EdgeIndex<Ix>],
) -> Result<Vec<EdgeIndex<Ix>>, AllocError>
    requires { HasNode (S.graph store.now) (Ix.number n) }
    ensures { IfOk result (λ edges. map Ix.number edges.items
        ≡ out_list (with_out_list (S.graph store.now) (Ix.number n) (map Ix.number order.now))
        (Ix.number at)) }
{
    store.invariant();
    if at.index() == n.index() {
        return Vec::from_slice(alloc, order);
    }
    listed_edges(alloc, store, at, Direction::Outgoing)
}

// The lists of each node that exists, in ascending index order, with the given out list of `n`.
fn rows_with<Ix: IndexType, S: ReadStore<Ix>>(
    alloc: Global,
    store: &S,
    n: NodeIndex<Ix>,
    order: &[EdgeIndex<Ix>],
) -> Result<Vec<Lists<Ix>>, AllocError>
    requires node { HasNode (S.graph store.now) (Ix.number n) }
    requires order { IsOrder (out_list (S.graph store.now) (Ix.number n)) (map Ix.number order.now) }
    ensures orders { IfOk result (λ rows.
        AreOrders (S.graph store.now) (map (numbers_of Ix.number) rows.items)) }
    ensures graph { IfOk result (λ rows.
        with_orders (S.graph store.now) (map (numbers_of Ix.number) rows.items)
        ≡ with_out_list (S.graph store.now) (Ix.number n) (map Ix.number order.now)) }
{
    store.invariant();
    let mut rows = Vec::with_capacity(alloc, store.node_count())?;
    'nodes: for i in 0..store.node_slots() {
        let at = NodeIndex::new(i);
        if !store.contains_node(at) {
            continue;
        }
        let out = out_list_of(alloc, store, at, n, order)?;
        let into = listed_edges(alloc, store, at, Direction::Incoming)?;
        rows.push((out, into))?;
    }
    Ok(rows)
}

// Permutes the out list of a node.
pub(crate) fn set_out_list<N: Drop, E: Drop, Ix: IndexType, S>(
    alloc: Global,
    dag: &mut Acyclic<N, E, Ix, S>,
    n: NodeIndex<Ix>,
    order: &[EdgeIndex<Ix>],
) -> Result<(), AllocError>
where
    S: Store<Ix, NodeWeight = N, EdgeWeight = E>,
    requires node { HasNode dag.old.graph (Ix.number n) }
    requires order { IsOrder (out_list dag.old.graph (Ix.number n)) (map Ix.number order.now) }
    ensures ordered { OnOk result (dag.new.graph
        ≡ with_out_list dag.old.graph (Ix.number n) (map Ix.number order.now)) }
    ensures unchanged { OnErr result (dag.new ≡ dag.old) }
    ensures acyclic { IsAcyclic dag.new.graph }
    ensures counted { dag.new.looks ≡ dag.old.looks }
{
    // Called for its contract: the dag is acyclic.
    let _count = dag.node_count();
    let rows = rows_with(alloc, dag.graph(), n, order)?;
    dag.set_orders(rows.as_slice());
    Ok(())
}

// The node that both edges leave, if they are two different edges.
fn common_parent<Ix: IndexType, S: ReadStore<Ix>>(
    store: &S,
    a: EdgeIndex<Ix>,
    b: EdgeIndex<Ix>,
) -> Option<NodeIndex<Ix>>
    ensures some { IfSome result (λ n.
        AreSiblings (S.graph store.now) (Ix.number n) (Ix.number a) (Ix.number b)) }
    ensures none { IfNone result ((n : ℕ)
        → ¬ AreSiblings (S.graph store.now) n (Ix.number a) (Ix.number b)) }
{
    store.invariant();
    if a.index() == b.index() {
        return None;
    }
    let first = store.edge_endpoints(a)?;
    let second = store.edge_endpoints(b)?;
    if first.0.index() != second.0.index() {
        return None;
    }
    Some(first.0)
}

// Appends what stands for the edge `e` once `edge` was moved before the edge `before`.
fn push_moved<Ix: IndexType>(
    order: &mut Vec<EdgeIndex<Ix>>,
    edge: EdgeIndex<Ix>,
    before: EdgeIndex<Ix>,
    e: EdgeIndex<Ix>,
) -> Result<(), AllocError>
    ensures { OnOk result (map Ix.number order.new.items ≡ map Ix.number order.old.items
        ++ put_one (Ix.number edge) (Ix.number before) (Ix.number e)) }
{
    if e.index() == edge.index() {
        return Ok(());
    }
    if e.index() == before.index() {
        order.push(edge)?;
        order.push(e)?;
        return Ok(());
    }
    order.push(e)?;
    Ok(())
}

// The list with `edge` moved before `before`.
fn moved_before<Ix: IndexType>(
    alloc: Global,
    list: &[EdgeIndex<Ix>],
    edge: EdgeIndex<Ix>,
    before: EdgeIndex<Ix>,
) -> Result<Vec<EdgeIndex<Ix>>, AllocError>
    ensures { IfOk result (λ order. map Ix.number order.items
        ≡ put_before (Ix.number edge) (Ix.number before) (map Ix.number list.now)) }
{
    let mut order = Vec::with_capacity(alloc, list.len())?;
    'edges: for i in 0..list.len() {
        push_moved(&mut order, edge, before, list[i])?;
    }
    Ok(order)
}

/// Moves a child of a node before another one: afterwards `edge` comes just before the edge
/// `before` among the edges that leave their common parent, and nothing else has changed. Returns
/// whether it was moved: it is not if the two are not different edges that leave the same node.
///
/// [`children`](Acyclic::children) and [`neighbors`](Acyclic::neighbors) yield the children in this
/// order. A new edge still becomes the first. In the reverse order, oldest edge first, the child
/// comes just after the other one; a second call with the two edges swapped puts it just before.
///
/// # Errors
///
/// Returns `AllocError` if an allocation fails; the dag is unchanged.
///
/// # Complexity
///
/// O(slots), since all lists are written again.
///
/// # Examples
///
/// ```
/// let mut dag: Dag<&'static str, ()> = Dag::new(rt.alloc());
/// let scene = dag.add_node("scene")?;
/// let (to_floor, floor) = dag.add_child(scene, (), "floor")?;
/// let (to_lamp, lamp) = dag.add_child(scene, (), "lamp")?;
/// // The newest edge is first.
/// assert!(rt; dag.neighbors(scene).next() == Some(lamp));
/// assert!(rt; move_child_before(rt.alloc(), &mut dag, to_floor, to_lamp)?);
/// assert!(rt; dag.neighbors(scene).next() == Some(floor));
/// ```
pub fn move_child_before<N: Drop, E: Drop, Ix: IndexType, S>(
    alloc: Global,
    dag: &mut Acyclic<N, E, Ix, S>,
    edge: EdgeIndex<Ix>,
    before: EdgeIndex<Ix>,
) -> Result<bool, AllocError>
where
    S: Store<Ix, NodeWeight = N, EdgeWeight = E>,
    ensures answer { IfOk result (λ moved. IsTrue moved
        ↔ ((n : ℕ) × AreSiblings dag.old.graph n (Ix.number edge) (Ix.number before))) }
    ensures moved { result ≡ Ok true → (n : ℕ)
        → AreSiblings dag.old.graph n (Ix.number edge) (Ix.number before)
        → dag.new.graph ≡ with_out_list dag.old.graph n
        (put_before (Ix.number edge) (Ix.number before) (out_list dag.old.graph n)) }
    ensures unchanged { ¬ (result ≡ Ok true) → dag.new ≡ dag.old }
    ensures acyclic { IsAcyclic dag.new.graph }
    ensures counted { dag.new.looks ≡ dag.old.looks }
{
    // Called for its contract: the dag is well formed and acyclic.
    let _count = dag.node_count();
    let Some(n) = common_parent(dag.graph(), edge, before) else {
        return Ok(false);
    };
    let list = listed_edges(alloc, dag.graph(), n, Direction::Outgoing)?;
    let order = moved_before(alloc, list.as_slice(), edge, before)?;
    set_out_list(alloc, dag, n, order.as_slice())?;
    Ok(true)
}
