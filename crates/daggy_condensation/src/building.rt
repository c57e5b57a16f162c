//! The nodes of a condensation, and the dag that is made from nodes and edges.
ghost use Rattle.std.specs.Prelude.{◌≡◌, ℕ, IfOk, map, length, vec_len, slice_get};
ghost use Rattle.std.specs.Option.{option_map};
ghost use Rattle.daggy_base.specs.Graph.{slot, IsCompact};
ghost use Rattle.daggy_base.specs.Path.{IsAcyclic};
ghost use Rattle.daggy_base.specs.FromSlots.{graph_of_slots, edges_by, MakeGraph};

use daggy_base::error::SlotsError;
use daggy_base::index::{IndexType, NodeIndex};
use daggy_base::store::Store;
use daggy_components::Components;
use daggy_dag::acyclic::Acyclic;
use std::alloc::{AllocError, Global};

/// Nodes, as slots: the members of each component.
pub type Nodes<Ix> = Vec<Option<Vec<NodeIndex<Ix>>>>;

/// Edges, as slots: two components, and a weight.
pub type Edges<Ix, W> = Vec<Option<(NodeIndex<Ix>, NodeIndex<Ix>, W)>>;

/// A node for each component.
pub fn nodes_of<Ix: IndexType>(
    alloc: Global,
    components: &Components<Ix>,
) -> Result<Nodes<Ix>, AllocError>
    ensures members { IfOk result (λ slots. (k : ℕ)
        → option_map (λ list. map Ix.number list.items) (slot slots.items k)
        ≡ slice_get components.now k) }
    ensures count { IfOk result (λ slots. vec_len slots ≡ length components.now) }
{
    let mut slots = Vec::with_capacity(alloc, components.count())?;
    'components: for k in 0..components.count() {
        let members = components.members(k);
        let mut list = Vec::with_capacity(alloc, members.len())?;
        list.extend_from_slice(members)?;
        slots.push(Some(list))?;
    }
    Ok(slots)
}

/// Builds a dag from these slots, which have no cycle.
pub fn dag_of<Ix: IndexType, W: Drop, T>(
    alloc: Global,
    nodes: Nodes<Ix>,
    edges: Edges<Ix, W>,
) -> Result<Acyclic<Vec<NodeIndex<Ix>>, W, Ix, T>, AllocError>
where
    T: Store<Ix, NodeWeight = Vec<NodeIndex<Ix>>, EdgeWeight = W>,
    requires makes_graph { MakeGraph Ix.greatest nodes.items (edges_by Ix.number edges.items) }
    requires compact { IsCompact (graph_of_slots nodes.items (edges_by Ix.number edges.items)) }
    requires acyclic { IsAcyclic (graph_of_slots nodes.items (edges_by Ix.number edges.items)) }
    ensures { IfOk result (λ dag.
        dag.graph ≡ graph_of_slots nodes.items (edges_by Ix.number edges.items)) }
{
    match Acyclic::from_slots(alloc, nodes, edges) {
        Ok(dag) => Ok(dag),
        Err(SlotsError::Memory) => Err(AllocError),
        Err(SlotsError::Cycle) => unreachable!(),
    }
}
