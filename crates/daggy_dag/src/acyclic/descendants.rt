//! The descendants and the ancestors of given nodes of a dag.
ghost use Rattle.std.specs.Prelude.{◌≡◌, ◌+◌, ◌≤◌, map, IfOk};
ghost use Rattle.daggy_base.specs.Graph.{edge_count as edge_count_of};
ghost use Rattle.daggy_base.specs.Ordered.{edges_from};
ghost use Rattle.daggy_base.specs.Reduction.{IsBelow};
ghost use Rattle.daggy_reduction.specs.Descendants.{IsDescendantOfAny, IsAncestorOfAny, IsOrderOfPart};
ghost use Rattle.daggy_reduction.specs.Descendants.{edges_into};

use crate::acyclic::Acyclic;
use daggy_base::index::{IndexType, NodeIndex};
use daggy_base::read_store::ReadStore;
use daggy_base::source::EdgeSource;
use daggy_reduction::affected;
use daggy_search::Reversed;
use std::alloc::AllocError;

impl<N: Drop, E: Drop, Ix: IndexType, S> Acyclic<N, E, Ix, S>
where
    S: ReadStore<Ix, NodeWeight = N, EdgeWeight = E>,
{
    /// Returns `nodes` and their descendants, each once and parents before children. If `nodes`
    /// have changed, these are the nodes to recompute, in this order. Nodes that do not exist are
    /// ignored.
    ///
    /// # Errors
    ///
    /// Returns `AllocError` if an allocation fails.
    ///
    /// # Complexity
    ///
    /// O(k log k + m) for k nodes found and m edges that leave them. The first search after nodes
    /// have been added also takes O(node bound).
    ///
    /// # Examples
    ///
    /// ```
    /// let mut dag: Dag<&'static str, u32> = Dag::new(rt.alloc());
    /// let sow = dag.add_node("sow")?;
    /// let (_, reap) = dag.add_child(sow, 90, "reap")?;
    /// let (_, hoe) = dag.add_parent(reap, 60, "hoe")?;
    /// let found = dag.affected(&[hoe])?;
    /// assert!(rt; found.as_slice() == [hoe, reap].as_slice());
    /// ```
    pub fn affected(&mut self, nodes: &[NodeIndex<Ix>]) -> Result<Vec<NodeIndex<Ix>>, AllocError>
        ensures found { IfOk result (λ found. IsOrderOfPart self.old.graph
            (IsBelow self.old.graph (map Ix.number nodes.now)) (map Ix.number found.items)) }
        ensures same { self.new.graph ≡ self.old.graph }
        ensures looked { self.old.looks ≤ self.new.looks }
        ensures counted { self.new.looks ≤ self.old.looks + edge_count_of self.old.graph }
        ensures visited { IfOk result (λ found. self.new.looks
            ≤ self.old.looks + edges_from self.old.graph (map Ix.number found.items)) }
    {
        affected::affected(
            self.guarded.scratch.allocator(),
            &mut self.guarded.store,
            &mut self.guarded.order,
            nodes,
            &mut self.guarded.scratch,
        )
    }

    /// Returns the descendants of `nodes`, each once and parents before children: the nodes to
    /// which a path of one or more edges leads from one of `nodes`. Nodes that do not exist are
    /// ignored.
    ///
    /// # Errors
    ///
    /// Returns `AllocError` if an allocation fails.
    ///
    /// # Complexity
    ///
    /// O(k log k + m) for k nodes found and m edges that leave them or `nodes`.
    ///
    /// # Examples
    ///
    /// ```
    /// let mut dag: Dag<&'static str, ()> = Dag::new(rt.alloc());
    /// let sow = dag.add_node("sow")?;
    /// let (_, hoe) = dag.add_child(sow, (), "hoe")?;
    /// let (_, reap) = dag.add_child(hoe, (), "reap")?;
    /// // Unlike `affected`, it leaves out `sow`.
    /// let found = dag.descendants(&[sow])?;
    /// assert!(rt; found.as_slice() == [hoe, reap].as_slice());
    /// ```
    pub fn descendants(&mut self, nodes: &[NodeIndex<Ix>]) -> Result<Vec<NodeIndex<Ix>>, AllocError>
        ensures found { IfOk result (λ found. IsOrderOfPart self.old.graph
            (IsDescendantOfAny self.old.graph (map Ix.number nodes.now)) (map Ix.number found.items)) }
        ensures same { self.new.graph ≡ self.old.graph }
        ensures looked { self.old.looks ≤ self.new.looks }
        ensures counted { self.new.looks ≤ self.old.looks
            + (edges_from self.old.graph (map Ix.number nodes.now)
            + edge_count_of self.old.graph) }
        ensures visited { IfOk result (λ found. self.new.looks ≤ self.old.looks
            + (edges_from self.old.graph (map Ix.number nodes.now)
            + edges_from self.old.graph (map Ix.number found.items))) }
    {
        affected::descendants(
            self.guarded.scratch.allocator(),
            &mut self.guarded.store,
            &mut self.guarded.order,
            nodes,
            &mut self.guarded.scratch,
        )
    }

    /// Returns the ancestors of `nodes`, each once and parents before children: the nodes from
    /// which a path of one or more edges leads to one of `nodes`. Nodes that do not exist are
    /// ignored.
    ///
    /// # Errors
    ///
    /// Returns `AllocError` if an allocation fails.
    ///
    /// # Complexity
    ///
    /// O(k log k + m) for k nodes found and m edges that enter them or `nodes`.
    ///
    /// # Examples
    ///
    /// ```
    /// let mut dag: Dag<&'static str, ()> = Dag::new(rt.alloc());
    /// let sow = dag.add_node("sow")?;
    /// let (_, hoe) = dag.add_child(sow, (), "hoe")?;
    /// let (_, reap) = dag.add_child(hoe, (), "reap")?;
    /// let found = dag.ancestors(&[reap])?;
    /// assert!(rt; found.as_slice() == [sow, hoe].as_slice());
    /// ```
    pub fn ancestors(&mut self, nodes: &[NodeIndex<Ix>]) -> Result<Vec<NodeIndex<Ix>>, AllocError>
        ensures found { IfOk result (λ found. IsOrderOfPart self.old.graph
            (IsAncestorOfAny self.old.graph (map Ix.number nodes.now)) (map Ix.number found.items)) }
        ensures same { self.new.graph ≡ self.old.graph }
        ensures looked { self.old.looks ≤ self.new.looks }
        ensures counted { self.new.looks ≤ self.old.looks
            + (edges_into self.old.graph (map Ix.number nodes.now)
            + edge_count_of self.old.graph) }
        ensures visited { IfOk result (λ found. self.new.looks ≤ self.old.looks
            + (edges_into self.old.graph (map Ix.number nodes.now)
            + edges_into self.old.graph (map Ix.number found.items))) }
    {
        self.guarded.invariant();
        let mut reversed = Reversed::new(&self.guarded.store);
        let found = affected::descendants(
            self.guarded.scratch.allocator(),
            &mut reversed,
            &mut self.guarded.order,
            nodes,
            &mut self.guarded.scratch,
        );
        let looks = reversed.into_looks();
        self.guarded.store.count_looks(&looks);
        found
    }
}
