//! Whether one node reaches another, and a shortest path between them, as nodes or as edges.
ghost use Rattle.std.specs.Prelude.{◌≡◌, ◌+◌, ◌≤◌, ◌↔◌, IsTrue, Ok, None, map, IfOk, IfSome};
ghost use Rattle.daggy_order.specs.Paths.{IsShortestPath};
ghost use Rattle.daggy_base.specs.Graph.{edge_count as edge_count_of};
ghost use Rattle.daggy_base.specs.Path.{AreJoined, Reaches};
ghost use Rattle.daggy_paths.specs.EdgePaths.{IsShortestEdgePath};

use crate::acyclic::Acyclic;
use daggy_base::index::{EdgeIndex, IndexType, NodeIndex};
use daggy_base::read_store::ReadStore;
use daggy_paths::{Paths, edges_along};
use std::alloc::AllocError;

impl<N: Drop, E: Drop, Ix: IndexType, S> Acyclic<N, E, Ix, S>
where
    S: ReadStore<Ix, NodeWeight = N, EdgeWeight = E>,
{
    /// Borrows the dag for queries about its paths, and allocates memory for the searches. The dag
    /// can be read between two queries, as in a loop over the neighbors of a node.
    ///
    /// [`Paths`] has all queries that take `&mut self` here: [`reaches`](Acyclic::reaches),
    /// [`path`](Acyclic::path), [`descendants`](Acyclic::descendants) and so on.
    ///
    /// # Errors
    ///
    /// Returns `AllocError` if an allocation fails.
    ///
    /// # Complexity
    ///
    /// O(nodes), so use one `Paths` for many queries.
    ///
    /// # Examples
    ///
    /// ```
    /// let mut dag: Dag<&'static str, u32> = Dag::new(rt.alloc());
    /// let sow = dag.add_node("sow")?;
    /// let (_, hoe) = dag.add_child(sow, 30, "hoe")?;
    /// let (_, reap) = dag.add_child(hoe, 60, "reap")?;
    /// let mut paths = dag.paths()?;
    /// for n in dag.neighbors(sow) {
    ///     assert!(rt; paths.reaches(n, reap));
    /// }
    /// ```
    pub fn paths(&self) -> Result<Paths<'_, Ix, S>, AllocError>
        ensures { IfOk result (λ paths. paths ≡ record { graph = self.now.graph; looks = 0 }) }
    {
        Paths::new(
            self.guarded.scratch.allocator(),
            &self.guarded.store,
            &self.guarded.order,
        )
    }

    /// Whether a path leads from `a` to `b`. A single node is a path, so an existing node reaches
    /// itself; a missing node reaches nothing.
    ///
    /// The graph is unchanged; the call needs `&mut self` because it uses the dag's memory for
    /// searches.
    ///
    /// # Complexity
    ///
    /// O(1) if `b` precedes `a` in the dag's order. Otherwise a search of the nodes reachable from
    /// `a` that precede `b` in the order. The first search after nodes have been added also takes
    /// O(node bound). Does not allocate.
    ///
    /// # Examples
    ///
    /// ```
    /// let mut dag: Dag<&'static str, u32> = Dag::new(rt.alloc());
    /// let sow = dag.add_node("sow")?;
    /// let (_, hoe) = dag.add_child(sow, 30, "hoe")?;
    /// let (_, reap) = dag.add_child(hoe, 60, "reap")?;
    /// assert!(rt; dag.reaches(sow, reap));
    /// assert!(rt; !dag.reaches(reap, hoe));
    /// ```
    pub fn reaches(&mut self, a: NodeIndex<Ix>, b: NodeIndex<Ix>) -> bool
        ensures decided { IsTrue result ↔ Reaches self.old.graph (Ix.number a) (Ix.number b) }
        ensures same { self.new.graph ≡ self.old.graph }
        ensures looked { self.old.looks ≤ self.new.looks }
        ensures counted { self.new.looks ≤ self.old.looks + edge_count_of self.old.graph }
        ensures ready { Reaches self.old.graph (Ix.number b) (Ix.number a)
            → self.new.looks ≡ self.old.looks }
    {
        self.guarded.reaches(a, b)
    }

    /// Whether an edge from `a` to `b` would close a cycle: whether `b` already reaches `a`. For
    /// existing nodes, [`add_edge`](Acyclic::add_edge) returns `EdgeError::WouldCycle` if and only
    /// if this is true.
    ///
    /// # Complexity
    ///
    /// The same as [`reaches`](Acyclic::reaches) from `b` to `a`.
    ///
    /// # Examples
    ///
    /// ```
    /// let mut dag: Dag<&'static str, u32> = Dag::new(rt.alloc());
    /// let sow = dag.add_node("sow")?;
    /// let (_, reap) = dag.add_child(sow, 90, "reap")?;
    /// assert!(rt; dag.would_close_cycle(reap, sow));
    /// assert!(rt; !dag.would_close_cycle(sow, reap));
    /// ```
    pub fn would_close_cycle(&mut self, a: NodeIndex<Ix>, b: NodeIndex<Ix>) -> bool
        ensures decided { IsTrue result ↔ Reaches self.old.graph (Ix.number b) (Ix.number a) }
        ensures same { self.new.graph ≡ self.old.graph }
        ensures looked { self.old.looks ≤ self.new.looks }
        ensures counted { self.new.looks ≤ self.old.looks + edge_count_of self.old.graph }
        ensures ready { Reaches self.old.graph (Ix.number a) (Ix.number b)
            → self.new.looks ≡ self.old.looks }
    {
        self.reaches(b, a)
    }

    /// Returns a shortest path from `a` to `b`, as its nodes in order, or `None` if no path leads
    /// from `a` to `b`. The path from an existing node to itself is that node alone.
    ///
    /// If [`add_edge`](Acyclic::add_edge) rejects an edge from `a` to `b` as a cycle, the cycle is
    /// that edge and the path from `b` to `a`.
    ///
    /// # Errors
    ///
    /// Returns `AllocError` if the memory for the path cannot be allocated.
    ///
    /// # Complexity
    ///
    /// The same as [`reaches`](Acyclic::reaches), plus O(length of the path).
    ///
    /// # Examples
    ///
    /// ```
    /// let mut dag: Dag<&'static str, u32> = Dag::new(rt.alloc());
    /// let sow = dag.add_node("sow")?;
    /// let (_, hoe) = dag.add_child(sow, 30, "hoe")?;
    /// let (_, reap) = dag.add_child(hoe, 60, "reap")?;
    /// // The cycle that an edge from `reap` to `sow` would close.
    /// let cycle = dag.path(sow, reap)?;
    /// assert!(rt; cycle.is_some_and(|nodes| nodes.as_slice() == [sow, hoe, reap].as_slice()));
    /// assert!(rt; dag.path(reap, sow)?.is_none());
    /// ```
    pub fn path(
        &mut self,
        a: NodeIndex<Ix>,
        b: NodeIndex<Ix>,
    ) -> Result<Option<Vec<NodeIndex<Ix>>>, AllocError>
        ensures path { IfOk result (λ found. IfSome found (λ path.
            IsShortestPath self.old.graph (Ix.number a) (Ix.number b)
            (map Ix.number path.items))) }
        ensures none { (result ≡ Ok None) ↔ ¬ Reaches self.old.graph (Ix.number a) (Ix.number b) }
        ensures same { self.new.graph ≡ self.old.graph }
        ensures looked { self.old.looks ≤ self.new.looks }
        ensures counted { self.new.looks ≤ self.old.looks + edge_count_of self.old.graph }
        ensures ready { Reaches self.old.graph (Ix.number b) (Ix.number a)
            → self.new.looks ≡ self.old.looks }
    {
        self.guarded.path(a, b)
    }

    /// Returns the edges along a shortest path from `a` to `b`, in order, or `None` if no path leads
    /// from `a` to `b`. From an existing node to itself there are none.
    ///
    /// Of parallel edges along the path it returns the newest, which is the edge that
    /// [`find_edge`](Acyclic::find_edge) returns.
    ///
    /// # Errors
    ///
    /// Returns `AllocError` if the memory for the path or for its edges cannot be allocated.
    ///
    /// # Complexity
    ///
    /// The same as [`path`](Acyclic::path), plus the cost of `find_edge` for each edge.
    ///
    /// # Examples
    ///
    /// ```
    /// let mut dag: Dag<&'static str, u32> = Dag::new(rt.alloc());
    /// let sow = dag.add_node("sow")?;
    /// let (days, hoe) = dag.add_child(sow, 30, "hoe")?;
    /// let (more, reap) = dag.add_child(hoe, 60, "reap")?;
    /// let edges = dag.path_edges(sow, reap)?;
    /// assert!(rt; edges.is_some_and(|edges| edges.as_slice() == [days, more].as_slice()));
    /// assert!(rt; dag.path_edges(reap, sow)?.is_none());
    /// ```
    pub fn path_edges(
        &mut self,
        a: NodeIndex<Ix>,
        b: NodeIndex<Ix>,
    ) -> Result<Option<Vec<EdgeIndex<Ix>>>, AllocError>
        ensures path { IfOk result (λ found. IfSome found (λ edges.
            IsShortestEdgePath self.old.graph (Ix.number a) (Ix.number b)
            (map Ix.number edges.items))) }
        ensures none { (result ≡ Ok None) ↔ ¬ Reaches self.old.graph (Ix.number a) (Ix.number b) }
        ensures same { self.new.graph ≡ self.old.graph }
        ensures looked { self.old.looks ≤ self.new.looks }
        ensures counted { self.new.looks ≤ self.old.looks + edge_count_of self.old.graph }
        ensures ready { Reaches self.old.graph (Ix.number b) (Ix.number a)
            → self.new.looks ≡ self.old.looks }
    {
        let Some(nodes) = self.path(a, b)? else {
            return Ok(None);
        };
        let alloc = self.guarded.scratch.allocator();
        Ok(Some(edges_along(alloc, &self.guarded.store, nodes.as_slice())?))
    }

    /// Whether an edge leads from `a` to `b`.
    ///
    /// # Complexity
    ///
    /// The same as [`find_edge`](Acyclic::find_edge).
    ///
    /// # Examples
    ///
    /// ```
    /// let mut dag: Dag<&'static str, u32> = Dag::new(rt.alloc());
    /// let sow = dag.add_node("sow")?;
    /// let (_, hoe) = dag.add_child(sow, 30, "hoe")?;
    /// let (_, reap) = dag.add_child(hoe, 60, "reap")?;
    /// assert!(rt; dag.contains_edge(sow, hoe));
    /// // A path is no edge.
    /// assert!(rt; !dag.contains_edge(sow, reap));
    /// ```
    pub fn contains_edge(&self, a: NodeIndex<Ix>, b: NodeIndex<Ix>) -> bool
        ensures { IsTrue result ↔ AreJoined self.now.graph (Ix.number a) (Ix.number b) }
    {
        self.guarded.invariant();
        self.find_edge(a, b).is_some()
    }
}
