//! The transitive reduction and the transitive closure.
ghost use Rattle.std.specs.Prelude.{◌≡◌, ℕ, ◌+◌, ◌*◌, ◌<◌, ◌≤◌, ◌↔◌, map, Contains, IfOk};
ghost use Rattle.std.specs.Prelude.{OnOk, OnErr};
ghost use Rattle.daggy_base.specs.Graph.{node_count as node_count_of, edge_count as edge_count_of};
ghost use Rattle.daggy_base.specs.Path.{IsAcyclic};
ghost use Rattle.daggy_base.specs.Removal.{KeepsIndices};
ghost use Rattle.daggy_base.specs.declared.kind.Kind.TheVariants.{Stable};
ghost use Rattle.daggy_base.specs.Reduction.{IsReduction};
ghost use Rattle.daggy_visit.specs.Visit.{HasPair};
ghost use Rattle.daggy_reduction.specs.Descendants.{IsDescendantOf};
ghost use Rattle.daggy_redundant.specs.Comparison.{HaveSameReachability, JoinsCovers, JoinsOthers};
ghost use Rattle.daggy_redundant.specs.Comparison.{IsLeast, HasNoneRedundant, IsCanonical};
ghost use Rattle.daggy_dag.specs.WholeReduction.{IsWholeReduction, JoinsCoversOnly};

use crate::acyclic::Acyclic;
use daggy_base::index::{IndexType, NodeIndex};
use daggy_base::store::Store;
use daggy_reduction::{reduce, transitive_closure};
use daggy_visit::visit::{AdjMatrix, NodeIndexable};
use std::alloc::{AllocError, Global};

// The nodes below a number.
fn nodes_below<Ix: IndexType>(alloc: Global, count: usize) -> Result<Vec<NodeIndex<Ix>>, AllocError>
    requires { count ≤ Ix.greatest }
    ensures { IfOk result (λ nodes. (n : ℕ) → n < count → Contains (map Ix.number nodes.items) n) }
{
    let mut nodes = Vec::new(alloc);
    let mut n = 0;
    'nodes: while n < count {
        nodes.push(NodeIndex::new(n))?;
        n += 1;
    }
    Ok(nodes)
}

impl<N: Drop, E: Drop, Ix: IndexType, S> Acyclic<N, E, Ix, S>
where
    S: Store<Ix, NodeWeight = N, EdgeWeight = E>,
{
    /// Removes the redundant edges that are reachable from `roots`: the edges whose parent a root
    /// reaches, and whose parent reaches their child by another path of two or more edges.
    /// Reachability is unchanged. If the roots reach all nodes, the result is the transitive
    /// reduction of the dag (Aho, Garey and Ullman 1972), except for parallel edges.
    ///
    /// A parallel edge alone does not make an edge redundant, so the edges from one node to another
    /// are either all removed or all kept. Missing roots are ignored. The edges are removed from
    /// the highest index down, each as by [`remove_edge`](Acyclic::remove_edge), and their weights
    /// are dropped.
    ///
    /// # Errors
    ///
    /// Returns `AllocError` if the memory for searches cannot be allocated; the dag is unchanged.
    ///
    /// # Complexity
    ///
    /// One search for each node that the roots reach, limited to the nodes before that node's last
    /// child in the dag's order. If processing the nodes in blocks of 512 is expected to read fewer
    /// edges, this is done instead, in O(nodes * edges / 512) steps of 512 bits each, or O(edges)
    /// steps if each edge leads at most 512 positions ahead in that order. The blocks take 80 bytes
    /// of memory for each node and, with `u32` indices, 12 bytes for each edge, which the dag
    /// keeps. Plus the cost of the removals.
    ///
    /// # Examples
    ///
    /// ```
    /// let mut dag: Dag<&'static str, u32> = Dag::new(rt.alloc());
    /// let sow = dag.add_node("sow")?;
    /// let (_, hoe) = dag.add_child(sow, 30, "hoe")?;
    /// let (_, reap) = dag.add_child(hoe, 60, "reap")?;
    /// let _days = dag.add_edge(sow, reap, 90)?;
    /// let mut roots = Vec::new(rt.alloc());
    /// roots.push(sow)?;
    /// dag.transitive_reduce(roots)?;
    /// // `hoe` is on a longer path to `reap`.
    /// assert!(rt; dag.find_edge(sow, reap).is_none());
    /// assert!(rt; dag.edge_count() == 2);
    /// ```
    pub fn transitive_reduce(&mut self, roots: Vec<NodeIndex<Ix>>) -> Result<(), AllocError>
        ensures reduced { OnOk result
            (IsReduction S.KIND (map Ix.number roots.items) self.old.graph self.new.graph) }
        ensures reachability { OnOk result (HaveSameReachability self.old.graph self.new.graph) }
        ensures covers { OnOk result
            (JoinsCovers (map Ix.number roots.items) self.old.graph self.new.graph) }
        ensures others { OnOk result
            (JoinsOthers (map Ix.number roots.items) self.old.graph self.new.graph) }
        ensures least { OnOk result
            (IsLeast (map Ix.number roots.items) self.old.graph self.new.graph) }
        ensures none_left { OnOk result
            (HasNoneRedundant (map Ix.number roots.items) self.new.graph) }
        ensures canonical { OnOk result
            (IsCanonical Ix.greatest (map Ix.number roots.items) self.old.graph self.new.graph) }
        ensures keeps { OnOk result (S.KIND ≡ Stable → KeepsIndices self.old.graph self.new.graph) }
        ensures unchanged { OnErr result (self.new ≡ self.old) }
        ensures acyclic { IsAcyclic self.new.graph }
        ensures looked { self.old.looks ≤ self.new.looks }
        ensures counted { self.new.looks ≤ self.old.looks
            + (node_count_of self.old.graph + 2) * edge_count_of self.old.graph }
    {
        reduce::transitive_reduce(
            &mut self.guarded.store,
            &self.guarded.order,
            &mut self.guarded.scratch,
            roots.as_slice(),
        )
    }

    /// Removes all redundant edges: an edge is redundant if its parent reaches its child by another
    /// path of two or more edges. Reachability is unchanged.
    ///
    /// It is [`transitive_reduce`](Acyclic::transitive_reduce) from all nodes.
    ///
    /// # Errors
    ///
    /// Returns `AllocError` if an allocation fails; the dag is unchanged.
    ///
    /// # Complexity
    ///
    /// The same as [`transitive_reduce`](Acyclic::transitive_reduce).
    ///
    /// # Examples
    ///
    /// ```
    /// let mut dag: StableDag<&'static str, u32> = StableDag::new(rt.alloc());
    /// let sow = dag.add_node("sow")?;
    /// let (_, hoe) = dag.add_child(sow, 30, "hoe")?;
    /// let (_, reap) = dag.add_child(hoe, 60, "reap")?;
    /// let days = dag.add_edge(sow, reap, 90)?;
    /// dag.transitive_reduce_all()?;
    /// assert!(rt; dag.edge_weight(days).is_none());
    /// assert!(rt; dag.edge_count() == 2);
    /// ```
    pub fn transitive_reduce_all(&mut self) -> Result<(), AllocError>
        ensures reduced { OnOk result (IsWholeReduction S.KIND self.old.graph self.new.graph) }
        ensures reachability { OnOk result (HaveSameReachability self.old.graph self.new.graph) }
        ensures covers { OnOk result (JoinsCoversOnly self.old.graph self.new.graph) }
        ensures keeps { OnOk result (S.KIND ≡ Stable → KeepsIndices self.old.graph self.new.graph) }
        ensures unchanged { OnErr result (self.new ≡ self.old) }
        ensures acyclic { IsAcyclic self.new.graph }
        ensures looked { self.old.looks ≤ self.new.looks }
        ensures counted { self.new.looks ≤ self.old.looks
            + (node_count_of self.old.graph + 2) * edge_count_of self.old.graph }
    {
        // Called for its contract, here and below: the dag is well formed and acyclic.
        let _count = self.node_count();
        let nodes = nodes_below(self.allocator(), self.node_bound())?;
        let reduced = self.transitive_reduce(nodes);
        let _count = self.node_count();
        reduced
    }

    /// Returns the reachability matrix: the pairs of nodes such that a path of one or more edges
    /// leads from the first to the second. So no node is paired with itself.
    ///
    /// The graph is unchanged; the call needs `&mut self` because contracts count the edges that it
    /// reads.
    ///
    /// # Errors
    ///
    /// Returns `AllocError` if the matrix cannot be allocated. It takes a bit for each pair of node
    /// indices.
    ///
    /// # Complexity
    ///
    /// Reads each edge once, and takes O(node bound / 64) for each.
    ///
    /// # Examples
    ///
    /// ```
    /// let mut dag: Dag<&'static str, u32> = Dag::new(rt.alloc());
    /// let sow = dag.add_node("sow")?;
    /// let (_, hoe) = dag.add_child(sow, 30, "hoe")?;
    /// let (_, reap) = dag.add_child(hoe, 60, "reap")?;
    /// let closure = dag.transitive_closure()?;
    /// assert!(rt; closure.has(sow, reap));
    /// assert!(rt; !closure.has(reap, hoe));
    /// assert!(rt; !closure.has(sow, sow));
    /// ```
    pub fn transitive_closure(&mut self) -> Result<AdjMatrix<Ix>, AllocError>
        ensures closure { IfOk result (λ matrix. (a b : ℕ)
            → HasPair matrix a b ↔ IsDescendantOf self.old.graph a b) }
        ensures same { self.new.graph ≡ self.old.graph }
        ensures looked { self.old.looks ≤ self.new.looks }
        ensures counted { self.new.looks ≤ self.old.looks + edge_count_of self.old.graph }
    {
        let alloc = self.guarded.scratch.allocator();
        transitive_closure::transitive_closure(&mut self.guarded.store, &self.guarded.order, alloc)
    }
}
