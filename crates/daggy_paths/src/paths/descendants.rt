//! The descendants and the ancestors of given nodes in a borrowed graph.
ghost use Rattle.std.specs.Prelude.{◌≡◌, ℕ, ◌+◌, ◌≤◌, ◌↔◌, map, IfOk};
ghost use Rattle.daggy_base.specs.Graph.{edge_count as edge_count_of};
ghost use Rattle.daggy_base.specs.Ordered.{edges_from};
ghost use Rattle.daggy_base.specs.Reduction.{IsBelow};
ghost use Rattle.daggy_visit.specs.Visit.{HasPair};
ghost use Rattle.daggy_reduction.specs.Descendants.{IsDescendantOf, IsDescendantOfAny, IsAncestorOfAny};
ghost use Rattle.daggy_reduction.specs.Descendants.{IsOrderOfPart, edges_into};

use crate::paths::Paths;
use daggy_base::index::{IndexType, NodeIndex};
use daggy_base::read_store::ReadStore;
use daggy_base::source::EdgeSource;
use daggy_reduction::{affected, transitive_closure};
use daggy_visit::visit::AdjMatrix;
use std::alloc::AllocError;

impl<'d, Ix: IndexType, S: ReadStore<Ix>> Paths<'d, Ix, S> {
    /// Returns `nodes` and their descendants, each once and parents before children. If `nodes`
    /// have changed, these are the nodes to recompute, in this order. Nodes that do not exist are
    /// ignored.
    ///
    /// # Errors
    ///
    /// Returns `AllocError` if an allocation fails.
    ///
    /// # Complexity
    ///
    /// O(k log k + m) for k nodes found and m edges that leave them.
    ///
    /// # Examples
    ///
    /// ```
    /// let mut dag: Dag<&'static str, ()> = Dag::new(rt.alloc());
    /// let sow = dag.add_node("sow")?;
    /// let (_, hoe) = dag.add_child(sow, (), "hoe")?;
    /// let (_, reap) = dag.add_child(hoe, (), "reap")?;
    /// let mut paths = dag.paths()?;
    /// assert!(rt; paths.affected(&[hoe])?.as_slice() == [hoe, reap].as_slice());
    /// ```
    pub fn affected(&mut self, nodes: &[NodeIndex<Ix>]) -> Result<Vec<NodeIndex<Ix>>, AllocError>
        ensures found { IfOk result (λ found. IsOrderOfPart self.old.graph
            (IsBelow self.old.graph (map Ix.number nodes.now)) (map Ix.number found.items)) }
        ensures same { self.new.graph ≡ self.old.graph }
        ensures looked { self.old.looks ≤ self.new.looks }
        ensures counted { self.new.looks ≤ self.old.looks + edge_count_of self.old.graph }
        ensures visited { IfOk result (λ found. self.new.looks
            ≤ self.old.looks + edges_from self.old.graph (map Ix.number found.items)) }
    {
        affected::affected(
            self.scratch.allocator(),
            &mut self.forward,
            &mut self.order,
            nodes,
            &mut self.scratch,
        )
    }

    /// Returns the descendants of `nodes`, each once and parents before children: the nodes to
    /// which a path of one or more edges leads from one of `nodes`. Nodes that do not exist are
    /// ignored.
    ///
    /// # Errors
    ///
    /// Returns `AllocError` if an allocation fails.
    ///
    /// # Complexity
    ///
    /// O(k log k + m) for k nodes found and m edges that leave them or `nodes`.
    pub fn descendants(&mut self, nodes: &[NodeIndex<Ix>]) -> Result<Vec<NodeIndex<Ix>>, AllocError>
        ensures found { IfOk result (λ found. IsOrderOfPart self.old.graph
            (IsDescendantOfAny self.old.graph (map Ix.number nodes.now)) (map Ix.number found.items)) }
        ensures same { self.new.graph ≡ self.old.graph }
        ensures looked { self.old.looks ≤ self.new.looks }
        ensures counted { self.new.looks ≤ self.old.looks
            + (edges_from self.old.graph (map Ix.number nodes.now)
            + edge_count_of self.old.graph) }
        ensures visited { IfOk result (λ found. self.new.looks ≤ self.old.looks
            + (edges_from self.old.graph (map Ix.number nodes.now)
            + edges_from self.old.graph (map Ix.number found.items))) }
    {
        affected::descendants(
            self.scratch.allocator(),
            &mut self.forward,
            &mut self.order,
            nodes,
            &mut self.scratch,
        )
    }

    /// Returns the ancestors of `nodes`, each once and parents before children: the nodes from
    /// which a path of one or more edges leads to one of `nodes`. Nodes that do not exist are
    /// ignored.
    ///
    /// # Errors
    ///
    /// Returns `AllocError` if an allocation fails.
    ///
    /// # Complexity
    ///
    /// O(k log k + m) for k nodes found and m edges that enter them or `nodes`.
    pub fn ancestors(&mut self, nodes: &[NodeIndex<Ix>]) -> Result<Vec<NodeIndex<Ix>>, AllocError>
        ensures found { IfOk result (λ found. IsOrderOfPart self.old.graph
            (IsAncestorOfAny self.old.graph (map Ix.number nodes.now)) (map Ix.number found.items)) }
        ensures same { self.new.graph ≡ self.old.graph }
        ensures looked { self.old.looks ≤ self.new.looks }
        ensures counted { self.new.looks ≤ self.old.looks
            + (edges_into self.old.graph (map Ix.number nodes.now)
            + edge_count_of self.old.graph) }
        ensures visited { IfOk result (λ found. self.new.looks ≤ self.old.looks
            + (edges_into self.old.graph (map Ix.number nodes.now)
            + edges_into self.old.graph (map Ix.number found.items))) }
    {
        // Called only for its postcondition: the graph is well formed.
        let _bound = self.forward.node_bound();
        affected::descendants(
            self.scratch.allocator(),
            &mut self.back,
            &mut self.order,
            nodes,
            &mut self.scratch,
        )
    }

    /// Returns the reachability matrix: the pairs of nodes such that a path of one or more edges
    /// leads from the first to the second. So no node is paired with itself.
    ///
    /// # Errors
    ///
    /// Returns `AllocError` if the matrix cannot be allocated. It takes a bit for each pair of node
    /// indices.
    ///
    /// # Complexity
    ///
    /// Reads each edge once, and takes O(node bound / 64) for each.
    ///
    /// # Examples
    ///
    /// ```
    /// let mut dag: Dag<&'static str, ()> = Dag::new(rt.alloc());
    /// let sow = dag.add_node("sow")?;
    /// let (_, hoe) = dag.add_child(sow, (), "hoe")?;
    /// let (_, reap) = dag.add_child(hoe, (), "reap")?;
    /// let closure = dag.paths()?.transitive_closure()?;
    /// assert!(rt; closure.has(sow, reap));
    /// assert!(rt; !closure.has(sow, sow));
    /// ```
    pub fn transitive_closure(&mut self) -> Result<AdjMatrix<Ix>, AllocError>
        ensures closure { IfOk result (λ matrix. (a b : ℕ)
            → HasPair matrix a b ↔ IsDescendantOf self.old.graph a b) }
        ensures same { self.new.graph ≡ self.old.graph }
        ensures looked { self.old.looks ≤ self.new.looks }
        ensures counted { self.new.looks ≤ self.old.looks + edge_count_of self.old.graph }
    {
        let alloc = self.scratch.allocator();
        transitive_closure::transitive_closure(&mut self.forward, &self.order, alloc)
    }
}
