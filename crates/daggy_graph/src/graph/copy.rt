//! Cloning a graph.
ghost use Rattle.std.specs.Prelude.{◌≡◌, IfOk};
ghost use Rattle.daggy_base.specs.Copying.{IsCopy};

use crate::graph::DiGraph;
use daggy_base::index::IndexType;
use daggy_base::looks::Looks;
use std::alloc::AllocError;

/// Returns a graph with the same indices and lists, and with a clone of each weight.
impl<N: Clone + Drop, E: Clone + Drop, Ix: IndexType> Clone for DiGraph<N, E, Ix> {
    ghost is_clone = { λ g copy.
        IsCopy N.is_clone E.is_clone g.graph copy.graph × (copy.looks ≡ 0) };

    fn clone(&self) -> Result<Self, AllocError> {
        Ok(DiGraph {
            nodes: self.nodes.clone()?,
            edges: self.edges.clone()?,
            looks: Looks::new(),
        })
    }
}

impl<N, E, Ix: IndexType> DiGraph<N, E, Ix> {
    /// A graph with the same indices and lists, and with a clone of each weight.
    ///
    /// # Errors
    ///
    /// Returns `AllocError` if an allocation fails.
    ///
    /// # Complexity
    ///
    /// O(nodes + edges).
    ///
    /// # Examples
    ///
    /// ```
    /// let mut graph: DiGraph<&'static str, u32> = DiGraph::new(rt.alloc());
    /// let sow = graph.add_node("sow")?;
    /// let copy = graph.try_clone()?;
    /// assert!(rt; graph.remove_node(sow) == Some("sow"));
    /// assert!(rt; copy.node_weight(sow) == Some(&"sow"));
    /// ```
    pub fn try_clone(&self) -> Result<Self, AllocError>
    where
        N: Clone + Drop,
        E: Clone + Drop,
        ensures copied { IfOk result (λ g.
            IsCopy N.is_clone E.is_clone self.now.graph g.graph) }
        ensures looks { IfOk result (λ g. g.looks ≡ 0) }
        ensures same_if_clones_equal { IfOk result (λ g.
            ((x y : N) → N.is_clone x y → y ≡ x) → ((x y : E) → E.is_clone x y → y ≡ x)
            → g ≡ record { graph = self.now.graph; looks = 0 }) }
    {
        self.clone()
    }
}
