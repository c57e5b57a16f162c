//! Capacity.
ghost use Rattle.std.specs.Prelude.{◌≡◌, ◌+◌, ◌<◌, ◌^◌, length, IfOk, OnOk};
ghost use Rattle.daggy_base.specs.Graph.{empty};

use crate::graph::DiGraph;
use daggy_base::index::IndexType;
use daggy_base::looks::Looks;
use std::alloc::{AllocError, Global};

impl<N, E, Ix: IndexType> DiGraph<N, E, Ix> {
    /// An empty graph with capacity for `nodes` nodes and `edges` edges.
    ///
    /// # Errors
    ///
    /// Returns `AllocError` if an allocation fails, or if the capacity exceeds what a machine can
    /// address.
    ///
    /// # Complexity
    ///
    /// O(1), plus the allocations.
    ///
    /// # Examples
    ///
    /// ```
    /// let mut graph: DiGraph<u32, u32> = DiGraph::with_capacity(rt.alloc(), 2, 1)?;
    /// // None of these three allocates.
    /// let sow = graph.add_node(1)?;
    /// let reap = graph.add_node(2)?;
    /// graph.add_edge(sow, reap, 90)?;
    /// assert!(rt; graph.edge_count() == 1);
    /// ```
    pub fn with_capacity(alloc: Global, nodes: usize, edges: usize) -> Result<Self, AllocError>
    where
        N: Drop,
        E: Drop,
        ensures value { IfOk result (λ g. g ≡ record { graph = empty; looks = 0 }) }
        ensures nodes_fit { OnOk result (nodes < 2 ^ 63) }
        ensures edges_fit { OnOk result (edges < 2 ^ 63) }
    {
        Ok(DiGraph {
            nodes: Vec::with_capacity(alloc, nodes)?,
            edges: Vec::with_capacity(alloc, edges)?,
            looks: Looks::new(),
        })
    }

    /// Reserves capacity for at least `additional` more nodes.
    ///
    /// # Errors
    ///
    /// Returns `AllocError` if an allocation fails, or if the capacity exceeds what a machine can
    /// address; the graph is unchanged.
    ///
    /// # Complexity
    ///
    /// O(nodes) if a buffer has to be moved, and O(1) otherwise.
    ///
    /// # Examples
    ///
    /// ```
    /// let mut graph: DiGraph<u32, u32> = DiGraph::new(rt.alloc());
    /// graph.reserve_nodes(100)?;
    /// graph.reserve_edges(300)?;
    /// let n = graph.add_node(1)?;
    /// // The rest of the memory is not needed.
    /// graph.shrink_to_fit()?;
    /// assert!(rt; graph.node_weight(n) == Some(&1));
    /// ```
    pub fn reserve_nodes(&mut self, additional: usize) -> Result<(), AllocError>
        ensures same { self.new ≡ self.old }
        ensures fits { OnOk result (length self.new.graph.nodes + additional < 2 ^ 63) }
    {
        self.nodes.reserve(additional)
    }

    /// Reserves the minimum capacity for `additional` more nodes.
    ///
    /// # Errors
    ///
    /// Returns `AllocError` if an allocation fails, or if the capacity exceeds what a machine can
    /// address; the graph is unchanged.
    ///
    /// # Complexity
    ///
    /// O(nodes) if a buffer has to be moved, and O(1) otherwise.
    ///
    /// # Examples
    ///
    /// ```
    /// let mut graph: DiGraph<u32, u32> = DiGraph::new(rt.alloc());
    /// graph.reserve_exact_nodes(1)?;
    /// graph.reserve_exact_edges(1)?;
    /// // Neither of these allocates.
    /// let sow = graph.add_node(1)?;
    /// let days = graph.add_edge(sow, sow, 90)?;
    /// assert!(rt; graph.remove_edge(days) == Some(90));
    /// graph.shrink_to_fit_edges()?;
    /// graph.shrink_to_fit_nodes()?;
    /// assert!(rt; graph.node_count() == 1);
    /// ```
    pub fn reserve_exact_nodes(&mut self, additional: usize) -> Result<(), AllocError>
        ensures same { self.new ≡ self.old }
        ensures fits { OnOk result (length self.new.graph.nodes + additional < 2 ^ 63) }
    {
        self.nodes.reserve_exact(additional)
    }

    /// Reserves capacity for at least `additional` more edges.
    ///
    /// # Errors
    ///
    /// Returns `AllocError` if an allocation fails, or if the capacity exceeds what a machine can
    /// address; the graph is unchanged.
    ///
    /// # Complexity
    ///
    /// O(edges) if a buffer has to be moved, and O(1) otherwise.
    pub fn reserve_edges(&mut self, additional: usize) -> Result<(), AllocError>
        ensures same { self.new ≡ self.old }
        ensures fits { OnOk result (length self.new.graph.edges + additional < 2 ^ 63) }
    {
        self.edges.reserve(additional)
    }

    /// Reserves the minimum capacity for `additional` more edges.
    ///
    /// # Errors
    ///
    /// Returns `AllocError` if an allocation fails, or if the capacity exceeds what a machine can
    /// address; the graph is unchanged.
    ///
    /// # Complexity
    ///
    /// O(edges) if a buffer has to be moved, and O(1) otherwise.
    pub fn reserve_exact_edges(&mut self, additional: usize) -> Result<(), AllocError>
        ensures same { self.new ≡ self.old }
        ensures fits { OnOk result (length self.new.graph.edges + additional < 2 ^ 63) }
    {
        self.edges.reserve_exact(additional)
    }

    /// Shrinks the capacity of nodes and edges to fit.
    ///
    /// # Errors
    ///
    /// Returns `AllocError` if a reallocation fails; that buffer keeps its size, and the graph is
    /// unchanged.
    ///
    /// # Complexity
    ///
    /// O(nodes + edges) if a buffer has to be moved, and O(1) otherwise.
    pub fn shrink_to_fit(&mut self) -> Result<(), AllocError>
        ensures { self.new ≡ self.old }
    {
        let nodes = self.shrink_to_fit_nodes();
        let edges = self.shrink_to_fit_edges();
        nodes?;
        edges
    }

    /// Shrinks the capacity of nodes to fit.
    ///
    /// # Errors
    ///
    /// Returns `AllocError` if the reallocation fails; the buffer keeps its size, and the graph is
    /// unchanged.
    ///
    /// # Complexity
    ///
    /// O(nodes) if a buffer has to be moved, and O(1) otherwise.
    pub fn shrink_to_fit_nodes(&mut self) -> Result<(), AllocError>
        ensures { self.new ≡ self.old }
    {
        self.nodes.shrink_to_fit();
        if self.nodes.capacity() > self.nodes.len() {
            return Err(AllocError);
        }
        Ok(())
    }

    /// Shrinks the capacity of edges to fit.
    ///
    /// # Errors
    ///
    /// Returns `AllocError` if the reallocation fails; the buffer keeps its size, and the graph is
    /// unchanged.
    ///
    /// # Complexity
    ///
    /// O(edges) if a buffer has to be moved, and O(1) otherwise.
    pub fn shrink_to_fit_edges(&mut self) -> Result<(), AllocError>
        ensures { self.new ≡ self.old }
    {
        self.edges.shrink_to_fit();
        if self.edges.capacity() > self.edges.len() {
            return Err(AllocError);
        }
        Ok(())
    }
}
