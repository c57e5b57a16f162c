//! Capacity.
ghost use Rattle.std.specs.Prelude.{◌≡◌, ◌<◌, ◌^◌, IfOk, OnOk};
ghost use Rattle.daggy_base.specs.Graph.{empty};

use crate::stable_graph::StableDiGraph;
use daggy_base::index::IndexType;
use daggy_base::link::Link;
use daggy_base::looks::Looks;
use std::alloc::{AllocError, Global};

impl<N, E, Ix: IndexType> StableDiGraph<N, E, Ix> {
    /// An empty graph with capacity for `nodes` nodes and `edges` edges.
    ///
    /// # Errors
    ///
    /// Returns `AllocError` if an allocation fails, or if the capacity exceeds what a machine can
    /// address.
    ///
    /// # Complexity
    ///
    /// O(1), plus the allocations.
    pub fn with_capacity(alloc: Global, nodes: usize, edges: usize) -> Result<Self, AllocError>
    where
        N: Drop,
        E: Drop,
        ensures value { IfOk result (λ g. g ≡ record { graph = empty; looks = 0 }) }
        ensures nodes_fit { OnOk result (nodes < 2 ^ 63) }
        ensures edges_fit { OnOk result (edges < 2 ^ 63) }
    {
        Ok(StableDiGraph {
            nodes: Vec::with_capacity(alloc, nodes)?,
            edges: Vec::with_capacity(alloc, edges)?,
            first_vacant_node: Link::end(),
            first_vacant_edge: Link::end(),
            node_count: 0,
            edge_count: 0,
            looks: Looks::new(),
        })
    }
}
