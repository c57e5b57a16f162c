//! A stable dag made from a compact one.
ghost use Rattle.std.specs.Prelude.{◌≡◌, ◌≤◌, IfOk, IfErr};
ghost use Rattle.daggy_base.specs.Graph.{IsCompact};
ghost use Rattle.daggy_base.specs.Path.{IsAcyclic};

use crate::acyclic::{Acyclic, Dag, scratch_for};
use crate::slot_capacity::Room;
use daggy_base::index::IndexType;
use daggy_search::Scratch;
use daggy_stable::stable_graph::StableDiGraph;
use std::alloc::{AllocError, Global};

// Memory for a graph of this many nodes and edges, and for its searches.
fn room_for<N: Drop, E: Drop, Ix: IndexType>(
    alloc: Global,
    nodes: usize,
    edges: usize,
) -> Result<(Scratch<Ix>, Room<N, E, Ix>), AllocError>
    ensures searches { IfOk result (λ taken. nodes ≤ taken.0.nodes) }
    ensures graph { IfOk result (λ taken. taken.1 ≡ record { nodes = nodes; edges = edges }) }
{
    let scratch = scratch_for(alloc, nodes)?;
    let room = Room::new(alloc, nodes, edges)?;
    Ok((scratch, room))
}

impl<N: Drop, E: Drop, Ix: IndexType> Acyclic<N, E, Ix, StableDiGraph<N, E, Ix>> {
    /// A stable dag with the same indices and lists, and with no vacant slot.
    ///
    /// # Errors
    ///
    /// Returns the dag unchanged if an allocation fails.
    ///
    /// # Complexity
    ///
    /// O(nodes + edges).
    ///
    /// # Examples
    ///
    /// ```
    /// let mut dag: Dag<&'static str, u32> = Dag::new(rt.alloc());
    /// let sow = dag.add_node("sow")?;
    /// let (_, reap) = dag.add_child(sow, 90, "reap")?;
    /// match StableDag::from_dag(dag) {
    ///     Ok(mut stable) => {
    ///         assert!(rt; stable.remove_node(sow) == Some("sow"));
    ///         assert!(rt; stable.node_weight(reap) == Some(&"reap"));
    ///     }
    ///     Err(_dag) => return Err(AllocError.into()),
    /// }
    /// ```
    pub fn from_dag(dag: Dag<N, E, Ix>) -> Result<Self, Dag<N, E, Ix>>
        ensures value { IfOk result (λ d. d ≡ record { graph = dag.graph; looks = 0 }) }
        ensures acyclic { IfOk result (λ d. IsAcyclic d.graph) }
        ensures compact { IfOk result (λ d. IsCompact d.graph) }
        ensures refused { IfErr result (λ back. back ≡ dag) }
    {
        let nodes = dag.graph().node_count();
        let edges = dag.graph().edge_count();
        let alloc = dag.allocator();
        match room_for(alloc, nodes, edges) {
            Ok((scratch, room)) => {
                let (graph, order) = dag.into_parts();
                let store = room.fill(graph);
                Ok(Acyclic::from_parts(store, order, scratch))
            }
            Err(_) => Err(dag),
        }
    }
}
