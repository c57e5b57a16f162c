//! The slots of a subgraph, and the dag made from them.
ghost use Rattle.std.specs.Prelude.{◌≡◌, ℕ, ◌<◌, ◌≤◌, ◌↔◌, false, true, IfOk, Contains, map, replicate};
ghost use Rattle.std.specs.Prelude.{length, vec_len, slice_index_or, option_copied};
ghost use Rattle.std.specs.Option.{option_map};
ghost use Rattle.daggy_base.specs.Graph.{node_weight, edge_at, ends_of, slot};
ghost use Rattle.daggy_base.specs.Path.{IsAcyclic};
ghost use Rattle.daggy_base.specs.FromSlots.{edges_by};
ghost use Rattle.daggy_operators.specs.Parts.{kept, mark_of, kept_ends, ends_by, IsPart};

use daggy_base::error::SlotsError;
use daggy_base::index::{Direction, EdgeIndex, IndexType, NodeIndex};
use daggy_base::read_store::ReadStore;
use daggy_dag::acyclic::{Acyclic, StableDag};
use std::alloc::{AllocError, Global};

// The ends of an edge.
pub(crate) type Slot<Ix> = Option<(NodeIndex<Ix>, NodeIndex<Ix>, ())>;

// For each slot of a node, whether its index is among those given.
pub(crate) fn marks_of<Ix: IndexType>(
    alloc: Global,
    slots: usize,
    nodes: &[NodeIndex<Ix>],
) -> Result<Vec<bool>, AllocError>
    ensures sized { IfOk result (λ marks. vec_len marks ≡ slots) }
    ensures marked { IfOk result (λ marks. (n : ℕ) → n < slots
        → (slice_index_or marks.items n false ≡ true) ↔ Contains (map Ix.number nodes.now) n) }
{
    let mut marks = Vec::new(alloc);
    marks.resize(slots, false)?;
    'nodes: for k in 0..nodes.len() {
        let i = nodes[k].index();
        if i < slots {
            marks[i] = true;
        }
    }
    Ok(marks)
}

// As many marks as there are slots, all of them set or all of them not set.
pub(crate) fn all_marks(alloc: Global, slots: usize, mark: bool) -> Result<Vec<bool>, AllocError>
    ensures { IfOk result (λ marks. marks.items ≡ replicate slots mark) }
{
    let mut marks = Vec::new(alloc);
    marks.resize(slots, mark)?;
    Ok(marks)
}

// The weights of the marked nodes.
pub(crate) fn node_slots<'d, Ix: IndexType, S: ReadStore<Ix>>(
    alloc: Global,
    store: &'d S,
    marks: &Vec<bool>,
) -> Result<Vec<Option<&'d S::NodeWeight>>, AllocError>
    requires { vec_len marks.now ≡ length (S.graph store.now).nodes }
    ensures sized { IfOk result (λ slots. vec_len slots ≡ vec_len marks.now) }
    ensures kept { IfOk result (λ slots. (n : ℕ) → option_copied (slot slots.items n)
        ≡ kept (slice_index_or marks.now.items n false) (node_weight (S.graph store.now) n)) }
{
    store.invariant();
    let mut slots = Vec::with_capacity(alloc, marks.len())?;
    'nodes: for i in 0..marks.len() {
        let weight = if marks[i] {
            store.node_weight(NodeIndex::new(i))
        } else {
            None
        };
        slots.push(weight)?;
    }
    Ok(slots)
}

// The mark of a node.
pub(crate) fn is_marked<Ix: IndexType>(marks: &Vec<bool>, n: NodeIndex<Ix>) -> bool
    requires { Ix.number n < vec_len marks.now }
    ensures { result ≡ mark_of marks.now.items (Ix.number n) }
{
    marks[n.index()]
}

// The ends of an edge in that direction, if both are marked.
fn edge_slot<Ix: IndexType, Jx: IndexType, S: ReadStore<Ix>>(
    store: &S,
    marks: &Vec<bool>,
    dir: Direction,
    e: EdgeIndex<Ix>,
) -> Slot<Jx>
    requires sized { vec_len marks.now ≡ length (S.graph store.now).nodes }
    requires few { length (S.graph store.now).nodes ≤ Jx.greatest }
    ensures { option_map (ends_by Jx.number) result
        ≡ kept_ends dir marks.now.items
        (option_map ends_of (edge_at (S.graph store.now) (Ix.number e))) }
{
    store.invariant();
    let (parent, child) = store.edge_endpoints(e)?;
    if !is_marked(marks, parent) || !is_marked(marks, child) {
        return None;
    }
    let parent = NodeIndex::new(parent.index());
    let child = NodeIndex::new(child.index());
    Some(match dir {
        Direction::Outgoing => (parent, child, ()),
        Direction::Incoming => (child, parent, ()),
    })
}

// The edges between marked nodes.
fn edge_slots<Ix: IndexType, Jx: IndexType, S: ReadStore<Ix>>(
    alloc: Global,
    store: &S,
    marks: &Vec<bool>,
    dir: Direction,
) -> Result<Vec<Slot<Jx>>, AllocError>
    requires sized { vec_len marks.now ≡ length (S.graph store.now).nodes }
    requires few { length (S.graph store.now).nodes ≤ Jx.greatest }
    ensures sized { IfOk result (λ slots. vec_len slots ≡ length (S.graph store.now).edges) }
    ensures kept { IfOk result (λ slots. (e : ℕ)
        → option_map ends_of (slot (edges_by Jx.number slots.items) e)
        ≡ kept_ends dir marks.now.items (option_map ends_of (edge_at (S.graph store.now) e))) }
{
    store.invariant();
    let bound = store.edge_slots();
    let mut slots = Vec::with_capacity(alloc, bound)?;
    'edges: for i in 0..bound {
        slots.push(edge_slot(store, marks, dir, EdgeIndex::new(i)))?;
    }
    Ok(slots)
}

// The marked nodes of a dag and the edges between them, each from its near end in that direction to
// its far end, at the same indices.
pub(crate) fn part<'d, N: Drop, E: Drop, Ix: IndexType, Jx: IndexType, S>(
    alloc: Global,
    dag: &'d Acyclic<N, E, Ix, S>,
    marks: &Vec<bool>,
    dir: Direction,
) -> Result<StableDag<&'d N, (), Jx>, AllocError>
where
    S: ReadStore<Ix, NodeWeight = N, EdgeWeight = E>,
    requires sized { vec_len marks.now ≡ length dag.now.graph.nodes }
    requires few_nodes { length dag.now.graph.nodes ≤ Jx.greatest }
    requires few_edges { length dag.now.graph.edges ≤ Jx.greatest }
    ensures part { IfOk result (λ d. IsPart dir marks.now.items dag.now.graph d.graph) }
    ensures acyclic { IfOk result (λ d. IsAcyclic d.graph) }
{
    let store = dag.graph();
    // Called for its contract: the dag is well formed and acyclic.
    let _count = dag.node_count();
    let nodes = node_slots(alloc, store, marks)?;
    let edges = edge_slots(alloc, store, marks, dir)?;
    match Acyclic::from_slots(alloc, nodes, edges) {
        Ok(part) => Ok(part),
        Err(SlotsError::Memory) => Err(AllocError),
        Err(SlotsError::Cycle) => unreachable!(),
    }
}
