//! Keeping only the nodes or the edges that a closure chooses.
ghost use Rattle.std.specs.Prelude.{◌≡◌};
ghost use Rattle.daggy_base.specs.Path.{IsAcyclic};
ghost use Rattle.daggy_base.specs.Removal.{KeepsIndices};
ghost use Rattle.daggy_base.specs.declared.kind.Kind.TheVariants.{Stable};
ghost use Rattle.daggy_dag.specs.Retaining.{CanAskNodes, CanAskEdges, RetainsNodes, RetainsEdges};

use crate::acyclic::Acyclic;
use daggy_base::index::{EdgeIndex, IndexType, NodeIndex};
use daggy_base::store::Store;

impl<N: Drop, E: Drop, Ix: IndexType, S> Acyclic<N, E, Ix, S>
where
    S: Store<Ix, NodeWeight = N, EdgeWeight = E>,
{
    /// Keeps only the nodes for which `keep` returns true, and removes the others as
    /// [`remove_node`](Acyclic::remove_node) does.
    ///
    /// `keep` is called once with each node, in descending index order, so it sees the index that
    /// the node had before the call.
    ///
    /// # Requires
    ///
    /// - `keep` may be called with each node and its weight, in descending index order, whatever it
    ///   returned before.
    ///
    /// # Complexity
    ///
    /// O(node slots), plus the calls and the cost of the removals.
    ///
    /// # Examples
    ///
    /// ```
    /// let mut dag: Dag<u32, u32> = Dag::new(rt.alloc());
    /// let sow = dag.add_node(1)?;
    /// let (_, water) = dag.add_child(sow, 90, 60)?;
    /// let _ = dag.add_child(water, 1, 2)?;
    /// dag.retain_nodes(|_, days| *days < 60);
    /// assert!(rt; dag.node_count() == 2);
    /// assert!(rt; dag.edge_count() == 0);
    /// ```
    pub fn retain_nodes<F: FnMut(NodeIndex<Ix>, &N) -> bool>(&mut self, mut keep: F)
        requires { CanAskNodes Ix.of F.pre F.step keep self.old.graph }
        ensures retained { RetainsNodes Ix.of F.step S.KIND keep self.old.graph self.new.graph }
        ensures keeps { S.KIND ≡ Stable → KeepsIndices self.old.graph self.new.graph }
        ensures looks { self.new.looks ≡ self.old.looks }
        ensures acyclic { IsAcyclic self.new.graph }
    {
        let graph = self.graph();
        graph.invariant();
        let mut slot = graph.node_slots();
        'nodes: while slot > 0 {
            slot -= 1;
            let n = NodeIndex::new(slot);
            if let Some(weight) = self.node_weight(n) {
                if !keep(n, weight) {
                    let _ = self.remove_node(n);
                }
            }
        }
    }

    /// Keeps only the edges for which `keep` returns true, and removes the others as
    /// [`remove_edge`](Acyclic::remove_edge) does.
    ///
    /// `keep` is called once with each edge, in descending index order, so it sees the index that
    /// the edge had before the call.
    ///
    /// # Requires
    ///
    /// - `keep` may be called with each edge and its weight, in descending index order, whatever it
    ///   returned before.
    ///
    /// # Complexity
    ///
    /// O(edge slots), plus the calls and the cost of the removals.
    ///
    /// # Examples
    ///
    /// ```
    /// let mut dag: Dag<u32, u32> = Dag::new(rt.alloc());
    /// let sow = dag.add_node(1)?;
    /// let (days, water) = dag.add_child(sow, 90, 60)?;
    /// let _ = dag.add_child(water, 1, 2)?;
    /// dag.retain_edges(|_, days| *days > 1);
    /// assert!(rt; dag.edge_count() == 1);
    /// assert!(rt; dag.edge_weight(days) == Some(&90));
    /// ```
    pub fn retain_edges<F: FnMut(EdgeIndex<Ix>, &E) -> bool>(&mut self, mut keep: F)
        requires { CanAskEdges Ix.of F.pre F.step keep self.old.graph }
        ensures retained { RetainsEdges Ix.of F.step S.KIND keep self.old.graph self.new.graph }
        ensures nodes { self.new.graph.nodes ≡ self.old.graph.nodes }
        ensures keeps { S.KIND ≡ Stable → KeepsIndices self.old.graph self.new.graph }
        ensures looks { self.new.looks ≡ self.old.looks }
        ensures acyclic { IsAcyclic self.new.graph }
    {
        let graph = self.graph();
        graph.invariant();
        let mut slot = graph.edge_slots();
        'edges: while slot > 0 {
            slot -= 1;
            let e = EdgeIndex::new(slot);
            if let Some(weight) = self.edge_weight(e) {
                if !keep(e, weight) {
                    let _ = self.remove_edge(e);
                }
            }
        }
    }
}
