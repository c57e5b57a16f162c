//! Mutable access to all weights by a closure.
ghost use Rattle.std.specs.Prelude.{◌≡◌};
ghost use Rattle.daggy_base.specs.CallsInTurn.{CanLendNodes, CanLendEdges};
ghost use Rattle.daggy_base.specs.Path.{IsAcyclic};
ghost use Rattle.daggy_base.specs.Rewriting.{RewritesNodes, RewritesEdges};

use crate::acyclic::Acyclic;
use daggy_base::index::{EdgeIndex, IndexType, NodeIndex};
use daggy_base::read_store::ReadStore;
use daggy_graph::graph::DiGraph;

impl<N: Drop, E: Drop, Ix: IndexType> Acyclic<N, E, Ix, DiGraph<N, E, Ix>> {
    /// Calls `f` with each node in ascending index order and a mutable reference to its weight.
    ///
    /// # Requires
    ///
    /// - `f` may be called with each node and a mutable reference to its weight, in ascending index
    ///   order.
    ///
    /// # Complexity
    ///
    /// O(nodes), plus the calls.
    ///
    /// # Examples
    ///
    /// ```
    /// let mut dag: Dag<u32, ()> = Dag::new(rt.alloc());
    /// let one = dag.add_node(1)?;
    /// dag.update_node_weights(|_, weight| *weight = 7);
    /// assert!(rt; dag.node_weight(one) == Some(&7));
    /// ```
    pub fn update_node_weights<F: FnMut(NodeIndex<Ix>, &mut N)>(&mut self, f: F)
        requires { CanLendNodes Ix.of F.pre F.step f self.old.graph }
        ensures written { RewritesNodes Ix.of F.step f self.old.graph self.new.graph }
        ensures acyclic { IsAcyclic self.new.graph }
        ensures looks { self.new.looks ≡ self.old.looks }
    {
        self.guarded.store.invariant();
        self.guarded.store.update_node_weights(f);
    }

    /// Calls `f` with each edge in ascending index order and a mutable reference to its weight.
    ///
    /// # Requires
    ///
    /// - `f` may be called with each edge and a mutable reference to its weight, in ascending index
    ///   order.
    ///
    /// # Complexity
    ///
    /// O(edges), plus the calls.
    ///
    /// # Examples
    ///
    /// ```
    /// let mut dag: Dag<&'static str, u32> = Dag::new(rt.alloc());
    /// let sow = dag.add_node("sow")?;
    /// let (days, _) = dag.add_child(sow, 90, "reap")?;
    /// dag.update_edge_weights(|_, weight| *weight = 30);
    /// assert!(rt; dag.edge_weight(days) == Some(&30));
    /// ```
    pub fn update_edge_weights<F: FnMut(EdgeIndex<Ix>, &mut E)>(&mut self, f: F)
        requires { CanLendEdges Ix.of F.pre F.step f self.old.graph }
        ensures written { RewritesEdges Ix.of F.step f self.old.graph self.new.graph }
        ensures acyclic { IsAcyclic self.new.graph }
        ensures looks { self.new.looks ≡ self.old.looks }
    {
        self.guarded.store.invariant();
        self.guarded.store.update_edge_weights(f);
    }
}
