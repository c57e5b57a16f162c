//! Copies and capacity.
ghost use Rattle.std.specs.Prelude.{◌≡◌, ◌+◌, ◌<◌, ◌^◌, length, IfOk, OnOk};
ghost use Rattle.daggy_base.specs.Copying.{IsCopy};
ghost use Rattle.daggy_base.specs.Graph.{empty};
ghost use Rattle.daggy_base.specs.Path.{IsAcyclic};

use crate::acyclic::Acyclic;
use daggy_base::index::IndexType;
use daggy_graph::graph::DiGraph;
use daggy_order::order::Order;
use daggy_search::Scratch;
use std::alloc::{AllocError, Global};

/// Returns a dag with the same indices and lists, and with a clone of each weight.
impl<N: Clone + Drop, E: Clone + Drop, Ix: IndexType> Clone
    for Acyclic<N, E, Ix, DiGraph<N, E, Ix>> {
    ghost is_clone = { λ d copy.
        IsCopy N.is_clone E.is_clone d.graph copy.graph × (copy.looks ≡ 0) };

    fn clone(&self) -> Result<Self, AllocError> {
        let (order, scratch) = self.copied_parts()?;
        let store = self.graph().clone()?;
        Ok(Acyclic::from_parts(store, order, scratch))
    }
}

impl<N: Drop, E: Drop, Ix: IndexType> Acyclic<N, E, Ix, DiGraph<N, E, Ix>> {
    /// An empty dag with capacity for `nodes` nodes and `edges` edges, including the memory for
    /// their order and for searches.
    ///
    /// # Errors
    ///
    /// Returns `AllocError` if an allocation fails, or if the capacity exceeds what a machine can
    /// address.
    ///
    /// # Complexity
    ///
    /// O(1), plus the allocations. The memory for searches is initialised by the first search.
    ///
    /// # Examples
    ///
    /// ```
    /// let mut dag: Dag<&'static str, u32> = Dag::with_capacity(rt.alloc(), 2, 1)?;
    /// // None of these allocates.
    /// let sow = dag.add_node("sow")?;
    /// let (days, _) = dag.add_child(sow, 90, "reap")?;
    /// assert!(rt; dag.edge_weight(days) == Some(&90));
    /// ```
    pub fn with_capacity(alloc: Global, nodes: usize, edges: usize) -> Result<Self, AllocError>
        ensures value { IfOk result (λ d. d ≡ record { graph = empty; looks = 0 }) }
        ensures nodes_fit { OnOk result (nodes < 2 ^ 63) }
        ensures edges_fit { OnOk result (edges < 2 ^ 63) }
    {
        let store = DiGraph::with_capacity(alloc, nodes, edges)?;
        let mut scratch = Scratch::new(alloc);
        scratch.reserve(nodes, 0)?;
        let mut order = Order::new(alloc);
        order.reserve(nodes)?;
        Ok(Acyclic::from_parts(store, order, scratch))
    }

    /// A dag with the same indices and lists, and with a clone of each weight.
    ///
    /// # Errors
    ///
    /// Returns `AllocError` if an allocation fails.
    ///
    /// # Complexity
    ///
    /// O(nodes + edges).
    ///
    /// # Examples
    ///
    /// ```
    /// let mut dag: Dag<u32, u32> = Dag::new(rt.alloc());
    /// let sow = dag.add_node(1)?;
    /// let (days, _) = dag.add_child(sow, 90, 2)?;
    /// let copy = dag.try_clone()?;
    /// assert!(rt; dag.remove_edge(days) == Some(90));
    /// assert!(rt; copy.edge_weight(days) == Some(&90));
    /// ```
    pub fn try_clone(&self) -> Result<Self, AllocError>
    where
        N: Clone,
        E: Clone,
        ensures copied { IfOk result (λ d.
            IsCopy N.is_clone E.is_clone self.now.graph d.graph) }
        ensures looks { IfOk result (λ d. d.looks ≡ 0) }
        ensures same_if_clones_equal { IfOk result (λ d.
            ((x y : N) → N.is_clone x y → y ≡ x) → ((x y : E) → E.is_clone x y → y ≡ x)
            → d ≡ record { graph = self.now.graph; looks = 0 }) }
        ensures acyclic { IfOk result (λ d. IsAcyclic d.graph) }
    {
        // Called only for its postcondition: the dag is acyclic.
        let _acyclic = self.node_count();
        self.clone()
    }

    /// Reserves capacity for at least `additional` more nodes, including the memory for their order
    /// and for searches.
    ///
    /// # Errors
    ///
    /// Returns `AllocError` if an allocation fails, or if the capacity exceeds what a machine can
    /// address; the dag is unchanged.
    ///
    /// # Complexity
    ///
    /// O(nodes) if a buffer has to be moved, and O(1) otherwise.
    ///
    /// # Examples
    ///
    /// ```
    /// let mut dag: Dag<u32, u32> = Dag::new(rt.alloc());
    /// dag.reserve_nodes(100)?;
    /// dag.reserve_edges(300)?;
    /// let n = dag.add_node(1)?;
    /// // The rest of the memory is not needed.
    /// dag.shrink_to_fit()?;
    /// assert!(rt; dag.node_weight(n) == Some(&1));
    /// ```
    pub fn reserve_nodes(&mut self, additional: usize) -> Result<(), AllocError>
        ensures same { self.new ≡ self.old }
        ensures fits { OnOk result (length self.new.graph.nodes + additional < 2 ^ 63) }
    {
        self.guarded.store.reserve_nodes(additional)?;
        let nodes = self.guarded.store.node_count() + additional;
        self.guarded.order.reserve(nodes)?;
        self.guarded.scratch.reserve(nodes, 0)
    }

    /// Reserves the minimum capacity for `additional` more nodes, including the memory for their
    /// order and for searches.
    ///
    /// # Errors
    ///
    /// Returns `AllocError` if an allocation fails, or if the capacity exceeds what a machine can
    /// address; the dag is unchanged.
    ///
    /// # Complexity
    ///
    /// O(nodes) if a buffer has to be moved, and O(1) otherwise.
    ///
    /// # Examples
    ///
    /// ```
    /// let mut dag: Dag<u32, u32> = Dag::new(rt.alloc());
    /// dag.reserve_exact_nodes(2)?;
    /// dag.reserve_exact_edges(1)?;
    /// // Neither of these allocates.
    /// let sow = dag.add_node(1)?;
    /// let (days, _) = dag.add_child(sow, 90, 2)?;
    /// assert!(rt; dag.remove_edge(days) == Some(90));
    /// dag.shrink_to_fit_edges()?;
    /// dag.shrink_to_fit_nodes()?;
    /// assert!(rt; dag.node_count() == 2);
    /// ```
    pub fn reserve_exact_nodes(&mut self, additional: usize) -> Result<(), AllocError>
        ensures same { self.new ≡ self.old }
        ensures fits { OnOk result (length self.new.graph.nodes + additional < 2 ^ 63) }
    {
        self.guarded.store.reserve_exact_nodes(additional)?;
        let nodes = self.guarded.store.node_count() + additional;
        self.guarded.order.reserve(nodes)?;
        self.guarded.scratch.reserve(nodes, 0)
    }

    /// Reserves capacity for at least `additional` more edges.
    ///
    /// # Errors
    ///
    /// Returns `AllocError` if an allocation fails, or if the capacity exceeds what a machine can
    /// address; the dag is unchanged.
    ///
    /// # Complexity
    ///
    /// O(edges) if a buffer has to be moved, and O(1) otherwise.
    pub fn reserve_edges(&mut self, additional: usize) -> Result<(), AllocError>
        ensures same { self.new ≡ self.old }
        ensures fits { OnOk result (length self.new.graph.edges + additional < 2 ^ 63) }
    {
        self.guarded.store.reserve_edges(additional)
    }

    /// Reserves the minimum capacity for `additional` more edges.
    ///
    /// # Errors
    ///
    /// Returns `AllocError` if an allocation fails, or if the capacity exceeds what a machine can
    /// address; the dag is unchanged.
    ///
    /// # Complexity
    ///
    /// O(edges) if a buffer has to be moved, and O(1) otherwise.
    pub fn reserve_exact_edges(&mut self, additional: usize) -> Result<(), AllocError>
        ensures same { self.new ≡ self.old }
        ensures fits { OnOk result (length self.new.graph.edges + additional < 2 ^ 63) }
    {
        self.guarded.store.reserve_exact_edges(additional)
    }

    /// Shrinks the capacity of nodes and edges to fit. The memory for searches is kept.
    ///
    /// # Errors
    ///
    /// Returns `AllocError` if a reallocation fails; the list that was to be shrunk keeps its
    /// capacity, and the dag is unchanged.
    ///
    /// # Complexity
    ///
    /// O(nodes + edges) if a buffer has to be moved, and O(1) otherwise.
    pub fn shrink_to_fit(&mut self) -> Result<(), AllocError>
        ensures { self.new ≡ self.old }
    {
        self.guarded.store.shrink_to_fit()
    }

    /// Shrinks the capacity of nodes to fit. The memory for searches is kept.
    ///
    /// # Errors
    ///
    /// Returns `AllocError` if the reallocation fails; the buffer keeps its size, and the dag is
    /// unchanged.
    ///
    /// # Complexity
    ///
    /// O(nodes) if a buffer has to be moved, and O(1) otherwise.
    pub fn shrink_to_fit_nodes(&mut self) -> Result<(), AllocError>
        ensures { self.new ≡ self.old }
    {
        self.guarded.store.shrink_to_fit_nodes()
    }

    /// Shrinks the capacity of edges to fit.
    ///
    /// # Errors
    ///
    /// Returns `AllocError` if the reallocation fails; the buffer keeps its size, and the dag is
    /// unchanged.
    ///
    /// # Complexity
    ///
    /// O(edges) if a buffer has to be moved, and O(1) otherwise.
    pub fn shrink_to_fit_edges(&mut self) -> Result<(), AllocError>
        ensures { self.new ≡ self.old }
    {
        self.guarded.store.shrink_to_fit_edges()
    }
}
