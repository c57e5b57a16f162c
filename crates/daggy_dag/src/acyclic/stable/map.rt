//! Mapping the weights of a dag, and the subgraph that closures keep.
ghost use Rattle.std.specs.Prelude.{◌≡◌, ℕ, ◌<◌, ◌≤◌, Contains, filter, is_some, IfOk};
ghost use Rattle.daggy_base.specs.Graph.{node_weight as weight_at};
ghost use Rattle.daggy_base.specs.CallsInTurn.{CanCallAtNodes, CanCallAtEdges};
ghost use Rattle.daggy_base.specs.CallsInTurn.{CanCallAtSomeEdges};
ghost use Rattle.daggy_base.specs.Path.{IsAcyclic};
ghost use Rattle.daggy_base.specs.Mapping.{IsMapped};
ghost use Rattle.daggy_base.specs.FilteringInPlace.{IsFilteredInPlace};
ghost use Rattle.daggy_base.specs.Filtering.{ListsDescend};

use crate::acyclic::{Acyclic, StableDag};
use daggy_base::index::{EdgeIndex, IndexType, NodeIndex};
use daggy_base::read_store::ReadStore;
use daggy_order::order::Order;
use daggy_stable::stable_graph::StableDiGraph;
use std::alloc::AllocError;

// Takes the nodes out of an order that a graph does not have. Each is below `slots`.
fn keep_existing<Ix: IndexType, S: ReadStore<Ix>>(store: &S, order: &mut Order<Ix>, slots: usize)
    requires few { slots ≤ Ix.greatest }
    requires below { (n : ℕ) → Contains order.old n → n < slots }
    ensures { order.new ≡ filter (λ n. is_some (weight_at (S.graph store.now) n)) order.old }
{
    'nodes: for i in 0..slots {
        let n = NodeIndex::new(i);
        if order.holds(n) && !store.contains_node(n) {
            order.remove(n);
        }
    }
}

impl<N: Drop, E: Drop, Ix: IndexType> Acyclic<N, E, Ix, StableDiGraph<N, E, Ix>> {
    /// A dag with the same slots and lists, and with the weights returned by the closures: `f` is
    /// called with each node in ascending index order, and then `g` with each edge.
    ///
    /// # Requires
    ///
    /// - `nodes`: `f` may be called with each node and its weight, in ascending index order.
    /// - `edges`: `g` may be called with each edge and its weight, in ascending index order.
    ///
    /// # Errors
    ///
    /// Returns `AllocError` if an allocation fails; in that case no closure has been called.
    ///
    /// # Complexity
    ///
    /// O(slots), plus the calls.
    pub fn map<
        N2: Drop,
        E2: Drop,
        F: FnMut(NodeIndex<Ix>, &N) -> N2,
        G: FnMut(EdgeIndex<Ix>, &E) -> E2,
    >(&self, f: F, g: G) -> Result<StableDag<N2, E2, Ix>, AllocError>
        requires nodes { CanCallAtNodes Ix.of F.pre F.step f self.now.graph }
        requires edges { CanCallAtEdges Ix.of G.pre G.step g self.now.graph }
        ensures mapped { IfOk result (λ d.
            IsMapped Ix.of F.step G.step f g self.now.graph d.graph) }
        ensures acyclic { IfOk result (λ d. IsAcyclic d.graph) }
        ensures looks { IfOk result (λ d. d.looks ≡ 0) }
    {
        let (order, scratch) = self.copied_parts()?;
        let store = self.graph().map(f, g)?;
        Ok(Acyclic::from_parts(store, order, scratch))
    }

    /// A dag of the nodes and edges for which the closures return a weight: `f` is called with each
    /// node in ascending index order, and then `g` with each edge whose endpoints were both kept.
    ///
    /// Nodes and edges that are kept keep their indices. Slots after the last node and the last
    /// edge are dropped; nodes and edges that are left out leave vacant slots, the highest of which
    /// is reused first. Each list is in descending index order.
    ///
    /// # Requires
    ///
    /// - `nodes`: `f` may be called with each node and its weight, in ascending index order.
    /// - `edges`: `g` may be called with the edges that are kept and their weights, in ascending
    ///   index order, no matter which edges these are.
    ///
    /// # Errors
    ///
    /// Returns `AllocError` if an allocation fails; in that case no closure has been called.
    ///
    /// # Complexity
    ///
    /// O(slots), plus the calls.
    ///
    /// # Examples
    ///
    /// ```
    /// let mut dag: StableDag<u32, u32> = StableDag::new(rt.alloc());
    /// let sow = dag.add_node(1)?;
    /// let (_, water) = dag.add_child(sow, 1, 60)?;
    /// let (_, reap) = dag.add_child(sow, 90, 2)?;
    /// let short = dag.filter_map(|_, n| if *n < 60 { Some(*n) } else { None }, |_, e| Some(*e))?;
    /// // The others keep their indices.
    /// assert!(rt; short.node_weight(reap) == Some(&2));
    /// assert!(rt; !short.contains_node(water));
    /// ```
    pub fn filter_map<
        N2: Drop,
        E2: Drop,
        F: FnMut(NodeIndex<Ix>, &N) -> Option<N2>,
        G: FnMut(EdgeIndex<Ix>, &E) -> Option<E2>,
    >(&self, f: F, g: G) -> Result<StableDag<N2, E2, Ix>, AllocError>
        requires nodes { CanCallAtNodes Ix.of F.pre F.step f self.now.graph }
        requires edges { CanCallAtSomeEdges Ix.of G.pre G.step g self.now.graph }
        ensures filtered { IfOk result (λ d.
            IsFilteredInPlace Ix.of F.step G.step f g self.now.graph d.graph) }
        ensures descending { IfOk result (λ d. ListsDescend d.graph) }
        ensures acyclic { IfOk result (λ d. IsAcyclic d.graph) }
        ensures looks { IfOk result (λ d. d.looks ≡ 0) }
    {
        let graph = self.graph();
        graph.invariant();
        let (mut order, scratch) = self.copied_parts()?;
        let store = graph.filter_map(f, g)?;
        store.invariant();
        keep_existing(&store, &mut order, graph.node_slots());
        Ok(Acyclic::from_parts(store, order, scratch))
    }
}
