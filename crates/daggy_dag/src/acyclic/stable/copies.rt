//! Copies and capacity.
ghost use Rattle.std.specs.Prelude.{◌≡◌, ◌<◌, ◌^◌, IfOk, OnOk};
ghost use Rattle.daggy_base.specs.Copying.{IsCopy};
ghost use Rattle.daggy_base.specs.Graph.{empty};
ghost use Rattle.daggy_base.specs.Path.{IsAcyclic};

use crate::acyclic::Acyclic;
use daggy_base::index::IndexType;
use daggy_order::order::Order;
use daggy_search::Scratch;
use daggy_stable::stable_graph::StableDiGraph;
use std::alloc::{AllocError, Global};

/// Returns a dag with the same slots and lists, and with a clone of each weight.
impl<N: Clone + Drop, E: Clone + Drop, Ix: IndexType> Clone
    for Acyclic<N, E, Ix, StableDiGraph<N, E, Ix>> {
    ghost is_clone = { λ d copy.
        IsCopy N.is_clone E.is_clone d.graph copy.graph × (copy.looks ≡ 0) };

    fn clone(&self) -> Result<Self, AllocError> {
        let (order, scratch) = self.copied_parts()?;
        let store = self.graph().clone()?;
        Ok(Acyclic::from_parts(store, order, scratch))
    }
}

impl<N: Drop, E: Drop, Ix: IndexType> Acyclic<N, E, Ix, StableDiGraph<N, E, Ix>> {
    /// An empty dag with capacity for `nodes` nodes and `edges` edges, including the memory for
    /// their order and for searches.
    ///
    /// # Errors
    ///
    /// Returns `AllocError` if an allocation fails, or if the capacity exceeds what a machine can
    /// address.
    ///
    /// # Complexity
    ///
    /// O(1), plus the allocations. The memory for searches is initialised by the first search.
    pub fn with_capacity(alloc: Global, nodes: usize, edges: usize) -> Result<Self, AllocError>
        ensures value { IfOk result (λ d. d ≡ record { graph = empty; looks = 0 }) }
        ensures nodes_fit { OnOk result (nodes < 2 ^ 63) }
        ensures edges_fit { OnOk result (edges < 2 ^ 63) }
    {
        let store = StableDiGraph::with_capacity(alloc, nodes, edges)?;
        let mut scratch = Scratch::new(alloc);
        scratch.reserve(nodes, 0)?;
        let mut order = Order::new(alloc);
        order.reserve(nodes)?;
        Ok(Acyclic::from_parts(store, order, scratch))
    }

    /// A dag with the same indices and lists, with a clone of each weight, and with the same vacant
    /// slots, which are reused in the same order.
    ///
    /// # Errors
    ///
    /// Returns `AllocError` if an allocation fails.
    ///
    /// # Complexity
    ///
    /// O(slots).
    pub fn try_clone(&self) -> Result<Self, AllocError>
    where
        N: Clone,
        E: Clone,
        ensures copied { IfOk result (λ d.
            IsCopy N.is_clone E.is_clone self.now.graph d.graph) }
        ensures looks { IfOk result (λ d. d.looks ≡ 0) }
        ensures same_if_clones_equal { IfOk result (λ d.
            ((x y : N) → N.is_clone x y → y ≡ x) → ((x y : E) → E.is_clone x y → y ≡ x)
            → d ≡ record { graph = self.now.graph; looks = 0 }) }
        ensures acyclic { IfOk result (λ d. IsAcyclic d.graph) }
    {
        // Called only for its postcondition: the dag is acyclic.
        let _acyclic = self.node_count();
        self.clone()
    }
}
