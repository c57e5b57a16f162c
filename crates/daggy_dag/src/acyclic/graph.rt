//! The graph inside a dag: reading it, and taking it out.
ghost use Rattle.std.specs.Prelude.{◌≡◌};
ghost use Rattle.daggy_base.specs.Path.{IsAcyclic};
ghost use Rattle.daggy_base.specs.Ordered.{IsOrderOf};

use crate::acyclic::{Acyclic, Dag, StableDag};
use daggy_base::index::IndexType;
use daggy_base::read_store::ReadStore;
use daggy_base::source::EdgeSource;
use daggy_graph::graph::DiGraph;
use daggy_order::order::Order;
use daggy_stable::stable_graph::StableDiGraph;
use std::alloc::Global;

impl<N: Drop, E: Drop, Ix: IndexType, S> Acyclic<N, E, Ix, S>
where
    S: ReadStore<Ix, NodeWeight = N, EdgeWeight = E>,
{
    /// A shared reference to the graph inside, through which the graph cannot be changed. Use it
    /// for the methods of the graph, for the traits of `visit`, and for searches and traversals
    /// that take any graph.
    ///
    /// # Examples
    ///
    /// ```
    /// let mut dag: Dag<&'static str, u32> = Dag::new(rt.alloc());
    /// let sow = dag.add_node("sow")?;
    /// let (_, reap) = dag.add_child(sow, 90, "reap")?;
    /// // What takes any graph takes a dag's.
    /// let components = weakly_connected_components(rt.alloc(), dag.graph())?;
    /// assert!(rt; components.component_of(sow) == components.component_of(reap));
    /// ```
    #[inline]
    pub fn graph(&self) -> &S
        ensures graph { S.graph result.now ≡ self.now.graph }
        ensures looks { S.looks result.now ≡ self.now.looks }
        ensures acyclic { IsAcyclic (S.graph result.now) }
    {
        self.guarded.invariant();
        &self.guarded.store
    }

    /// The allocator of the dag.
    ///
    /// # Examples
    ///
    /// ```
    /// let mut dag: Dag<&'static str, ()> = Dag::new(rt.alloc());
    /// let sow = dag.add_node("sow")?;
    /// let mut nodes = Vec::new(dag.allocator());
    /// nodes.push(sow)?;
    /// assert!(rt; dag.transitive_reduce(nodes).is_ok());
    /// ```
    #[inline]
    pub fn allocator(&self) -> Global {
        self.guarded.scratch.allocator()
    }

    /// Returns the graph inside, without copying it. From then on, edges that close a cycle can be
    /// added to it.
    ///
    /// # Examples
    ///
    /// ```
    /// let mut dag: Dag<&'static str, u32> = Dag::new(rt.alloc());
    /// let sow = dag.add_node("sow")?;
    /// let mut graph = dag.into_graph();
    /// // A graph may have cycles.
    /// assert!(rt; graph.add_edge(sow, sow, 365).is_ok());
    /// ```
    #[inline]
    pub fn into_graph(self) -> S
        ensures graph { S.graph result ≡ self.graph }
        ensures looks { S.looks result ≡ self.looks }
        ensures acyclic { IsAcyclic (S.graph result) }
    {
        self.guarded.store
    }
}

impl<N: Drop, E: Drop, Ix: IndexType> Acyclic<N, E, Ix, DiGraph<N, E, Ix>> {
    /// Returns the graph inside, without copying it, and a topological order of its nodes.
    ///
    /// # Examples
    ///
    /// ```
    /// let mut dag: Dag<&'static str, u32> = Dag::new(rt.alloc());
    /// let reap = dag.add_node("reap")?;
    /// let (_, sow) = dag.add_parent(reap, 90, "sow")?;
    /// let (graph, order) = dag.into_parts();
    /// assert!(rt; graph.node_count() == 2);
    /// assert!(rt; order.nodes().next() == Some(sow));
    /// ```
    #[inline]
    pub fn into_parts(self) -> (DiGraph<N, E, Ix>, Order<Ix>)
        ensures graph { result.0.graph ≡ self.graph }
        ensures looks { result.0.looks ≡ self.looks }
        ensures ordered { IsOrderOf result.0.graph result.1 }
    {
        (self.guarded.store, self.guarded.order)
    }
}

impl<N: Drop, E: Drop, Ix: IndexType> From<Dag<N, E, Ix>> for DiGraph<N, E, Ix> {
    ghost from_gives = { λ dag graph. graph ≡ dag };

    #[inline]
    fn from(dag: Dag<N, E, Ix>) -> DiGraph<N, E, Ix> {
        dag.into_graph()
    }
}

impl<N: Drop, E: Drop, Ix: IndexType> From<StableDag<N, E, Ix>> for StableDiGraph<N, E, Ix> {
    ghost from_gives = { λ dag graph. graph ≡ dag };

    #[inline]
    fn from(dag: StableDag<N, E, Ix>) -> StableDiGraph<N, E, Ix> {
        dag.into_graph()
    }
}
