//! Mapping the weights of a dag, and the subgraph that closures keep.
ghost use Rattle.std.specs.Prelude.{◌≡◌, length, IfOk};
ghost use Rattle.daggy_base.specs.CallsInTurn.{CanCallAtNodes, CanCallAtEdges};
ghost use Rattle.daggy_base.specs.CallsInTurn.{CanCallAtSomeEdges};
ghost use Rattle.daggy_base.specs.Path.{IsAcyclic};
ghost use Rattle.daggy_base.specs.Mapping.{IsMapped};
ghost use Rattle.daggy_base.specs.Filtering.{IsFiltered, ListsDescend, HaveSameEnds};

use crate::acyclic::{Acyclic, Dag};
use daggy_base::index::{EdgeIndex, IndexType, NodeIndex};
use daggy_base::read_store::ReadStore;
use daggy_graph::graph::DiGraph;
use std::alloc::AllocError;

impl<N: Drop, E: Drop, Ix: IndexType> Acyclic<N, E, Ix, DiGraph<N, E, Ix>> {
    /// A dag with the same indices and lists, and with the weights returned by the closures: `f` is
    /// called with each node in ascending index order, and then `g` with each edge.
    ///
    /// # Requires
    ///
    /// - `nodes`: `f` may be called with each node and its weight, in ascending index order.
    /// - `edges`: `g` may be called with each edge and its weight, in ascending index order.
    ///
    /// # Errors
    ///
    /// Returns `AllocError` if an allocation fails; in that case no closure has been called.
    ///
    /// # Complexity
    ///
    /// O(nodes + edges), plus the calls.
    ///
    /// # Examples
    ///
    /// ```
    /// let mut dag: Dag<u32, u32> = Dag::new(rt.alloc());
    /// let sow = dag.add_node(1)?;
    /// let (days, _) = dag.add_child(sow, 90, 2)?;
    /// let weeks = dag.map(|_, n| *n, |_, days| *days / 7)?;
    /// assert!(rt; weeks.edge_weight(days) == Some(&12));
    /// ```
    pub fn map<
        N2: Drop,
        E2: Drop,
        F: FnMut(NodeIndex<Ix>, &N) -> N2,
        G: FnMut(EdgeIndex<Ix>, &E) -> E2,
    >(&self, f: F, g: G) -> Result<Dag<N2, E2, Ix>, AllocError>
        requires nodes { CanCallAtNodes Ix.of F.pre F.step f self.now.graph }
        requires edges { CanCallAtEdges Ix.of G.pre G.step g self.now.graph }
        ensures mapped { IfOk result (λ d.
            IsMapped Ix.of F.step G.step f g self.now.graph d.graph) }
        ensures acyclic { IfOk result (λ d. IsAcyclic d.graph) }
        ensures looks { IfOk result (λ d. d.looks ≡ 0) }
    {
        let (order, scratch) = self.copied_parts()?;
        let store = self.graph().map(f, g)?;
        Ok(Acyclic::from_parts(store, order, scratch))
    }

    /// A dag of the nodes and edges for which the closures return a weight: `f` is called with each
    /// node in ascending index order, and then `g` with each edge whose endpoints were both kept.
    ///
    /// The nodes that are kept are renumbered from 0, in their old order. The edges that are kept
    /// are added again in ascending index order, so each list is in descending index order. If
    /// nothing is left out, each node and edge keeps its index.
    ///
    /// # Requires
    ///
    /// - `nodes`: `f` may be called with each node and its weight, in ascending index order.
    /// - `edges`: `g` may be called with the edges that are kept and their weights, in ascending
    ///   index order, no matter which edges these are.
    ///
    /// # Errors
    ///
    /// Returns `AllocError` if an allocation fails; in that case no closure has been called.
    ///
    /// # Complexity
    ///
    /// O(nodes + edges), plus the calls.
    ///
    /// # Examples
    ///
    /// ```
    /// let mut dag: Dag<u32, u32> = Dag::new(rt.alloc());
    /// let sow = dag.add_node(1)?;
    /// let _ = dag.add_child(sow, 90, 2)?;
    /// let _ = dag.add_child(sow, 1, 3)?;
    /// let long = dag.filter_map(
    ///     |_, n| Some(*n),
    ///     |_, days| if *days > 7 { Some(*days) } else { None },
    /// )?;
    /// assert!(rt; long.node_count() == 3);
    /// assert!(rt; long.edge_count() == 1);
    /// ```
    pub fn filter_map<
        N2: Drop,
        E2: Drop,
        F: FnMut(NodeIndex<Ix>, &N) -> Option<N2>,
        G: FnMut(EdgeIndex<Ix>, &E) -> Option<E2>,
    >(&self, f: F, g: G) -> Result<Dag<N2, E2, Ix>, AllocError>
        requires nodes { CanCallAtNodes Ix.of F.pre F.step f self.now.graph }
        requires edges { CanCallAtSomeEdges Ix.of G.pre G.step g self.now.graph }
        ensures filtered { IfOk result (λ d.
            IsFiltered Ix.of F.step G.step f g self.now.graph d.graph) }
        ensures descending { IfOk result (λ d. ListsDescend d.graph) }
        ensures whole { IfOk result (λ d. length d.graph.nodes ≡ length self.now.graph.nodes
            → length d.graph.edges ≡ length self.now.graph.edges
            → HaveSameEnds self.now.graph d.graph) }
        ensures acyclic { IfOk result (λ d. IsAcyclic d.graph) }
        ensures looks { IfOk result (λ d. d.looks ≡ 0) }
    {
        let graph = self.graph();
        graph.invariant();
        let (mut order, scratch) = self.copied_parts()?;
        let (store, names) = graph.filter_map_named(f, g)?;
        order.rename_all(names.as_slice());
        Ok(Acyclic::from_parts(store, order, scratch))
    }
}
