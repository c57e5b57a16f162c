//! Queries about the paths of a borrowed acyclic graph.
ghost use Rattle.std.specs.Prelude.{◌≡◌, ◌+◌, ◌≤◌, ◌↔◌, IsTrue, Ok, None, map, IfOk, IfSome, IfNone};
ghost use Rattle.daggy_order.specs.Paths.{IsShortestPath};
ghost use Rattle.daggy_base.specs.Graph.{edge_count as edge_count_of};
ghost use Rattle.daggy_base.specs.Ordered.{IsOrderOf};
ghost use Rattle.daggy_base.specs.Path.{Reaches, IsAcyclic};
ghost use Rattle.daggy_paths.specs.EdgePaths.{IsShortestEdgePath};

use crate::edges::edges_along;
use daggy_base::index::{EdgeIndex, IndexType, NodeIndex};
use daggy_base::read_store::ReadStore;
use daggy_base::source::EdgeSource;
use daggy_order::order::{Order, path_in, reaches_in};
use daggy_search::{Reading, Reversed, Scratch};
use std::alloc::{AllocError, Global};
use std::fmt;
use std::marker::Model;

mod descendants;

/// Answers queries about the paths of an acyclic graph that it borrows.
///
/// It has its own memory for searches, so the graph can be read at the same time, as in a loop over
/// the neighbors of a node, and several `Paths` can borrow one graph. Creating a `Paths` takes
/// O(nodes), so use one for many queries.
///
/// # Examples
///
/// ```
/// let mut dag: Dag<&'static str, ()> = Dag::new(rt.alloc());
/// let sow = dag.add_node("sow")?;
/// let (_, hoe) = dag.add_child(sow, (), "hoe")?;
/// let (_, reap) = dag.add_child(hoe, (), "reap")?;
/// let mut paths = dag.paths()?;
/// assert!(rt; paths.reaches(sow, reap));
/// assert!(rt; paths.would_close_cycle(reap, sow));
/// assert!(rt; paths.descendants(&[sow])?.as_slice() == [hoe, reap].as_slice());
/// assert!(rt; paths.ancestors(&[reap])?.as_slice() == [sow, hoe].as_slice());
/// ```
#[derive(Drop)]
pub struct Paths<'d, Ix: IndexType, S: ReadStore<Ix>> {
    forward: Reading<'d, Ix, S>,
    back: Reversed<'d, Ix, S>,
    order: Order<Ix>,
    scratch: Scratch<Ix>,
}

impl<'d, Ix: IndexType, S: ReadStore<Ix>> Model for Paths<'d, Ix, S> {
    ghost use Rattle.std.specs.Prelude.{◌≡◌, ◌+◌, ◌≤◌};
    ghost use Rattle.daggy_base.specs.Graph.{node_bound};
    ghost use Rattle.daggy_base.specs.Ordered.{IsOrderOf};
    ghost use Rattle.daggy_base.specs.State.{State};
    ghost use Rattle.daggy_search.specs.Reversed.{reversed};

    ghost Value = { State S.NodeWeight S.EdgeWeight };

    ghost view = { λ p.
        record { graph = p.forward.graph; looks = p.forward.looks + p.back.looks } };

    ghost invariant = { λ p.
        IsOrderOf p.forward.graph p.order
        × (node_bound p.forward.graph ≤ p.scratch.nodes)
        × (p.back.graph ≡ reversed p.forward.graph) };
}

impl<'d, Ix: IndexType, S: ReadStore<Ix>> Paths<'d, Ix, S> {
    /// Borrows a graph, and copies a topological order of its nodes.
    ///
    /// # Requires
    ///
    /// - `order` is a topological order of the nodes of `store`: it contains exactly these, each
    ///   before its children.
    ///
    /// # Errors
    ///
    /// Returns `AllocError` if an allocation fails.
    ///
    /// # Complexity
    ///
    /// O(nodes).
    pub fn new(alloc: Global, store: &'d S, order: &Order<Ix>) -> Result<Self, AllocError>
        requires { IsOrderOf (S.graph store.now) order.now }
        ensures { IfOk result (λ paths.
            paths ≡ record { graph = S.graph store.now; looks = 0 }) }
    {
        let mut scratch = Scratch::new(alloc);
        scratch.reserve(store.node_bound(), 0)?;
        let order = order.try_clone()?;
        Ok(Paths {
            forward: Reading::new(store),
            back: Reversed::new(store),
            order,
            scratch,
        })
    }

    /// Borrows any graph and sorts its nodes topologically. Returns `None` if the graph has a
    /// cycle.
    ///
    /// # Errors
    ///
    /// Returns `AllocError` if an allocation fails.
    ///
    /// # Complexity
    ///
    /// O(nodes + edges).
    ///
    /// # Examples
    ///
    /// ```
    /// let mut graph: DiGraph<&'static str, ()> = DiGraph::new(rt.alloc());
    /// let hen = graph.add_node("hen")?;
    /// let egg = graph.add_node("egg")?;
    /// graph.add_edge(hen, egg, ())?;
    /// match Paths::sorted(rt.alloc(), &graph)? {
    ///     Some(mut paths) => assert!(rt; paths.reaches(hen, egg)),
    ///     None => assert!(rt; false),
    /// }
    /// graph.add_edge(egg, hen, ())?;
    /// assert!(rt; Paths::sorted(rt.alloc(), &graph)?.is_none());
    /// ```
    pub fn sorted(alloc: Global, store: &'d S) -> Result<Option<Self>, AllocError>
        ensures graph { IfOk result (λ found. IfSome found (λ paths.
            paths.graph ≡ S.graph store.now)) }
        ensures counted { IfOk result (λ found. IfSome found (λ paths.
            paths.looks ≤ edge_count_of (S.graph store.now))) }
        ensures acyclic { IfOk result (λ found. IfSome found (λ _. IsAcyclic (S.graph store.now))) }
        ensures cyclic { IfOk result (λ found. IfNone found (¬ IsAcyclic (S.graph store.now))) }
    {
        let mut scratch = Scratch::new(alloc);
        scratch.reserve(store.node_bound(), 0)?;
        let mut forward = Reading::new(store);
        let Some(order) = Order::sorted(alloc, &mut forward, &mut scratch)? else {
            return Ok(None);
        };
        Ok(Some(Paths {
            forward,
            back: Reversed::new(store),
            order,
            scratch,
        }))
    }

    /// Whether a path leads from `a` to `b`. A single node is a path, so an existing node reaches
    /// itself; a missing node reaches nothing.
    ///
    /// # Complexity
    ///
    /// O(1) if `b` precedes `a` in the order. Otherwise a search of the nodes reachable from `a`
    /// that precede `b` in the order. Does not allocate.
    pub fn reaches(&mut self, a: NodeIndex<Ix>, b: NodeIndex<Ix>) -> bool
        ensures decided { IsTrue result ↔ Reaches self.old.graph (Ix.number a) (Ix.number b) }
        ensures same { self.new.graph ≡ self.old.graph }
        ensures looked { self.old.looks ≤ self.new.looks }
        ensures counted { self.new.looks ≤ self.old.looks + edge_count_of self.old.graph }
        ensures ready { Reaches self.old.graph (Ix.number b) (Ix.number a)
            → self.new.looks ≡ self.old.looks }
    {
        // Called only for its postcondition: the graph is well formed.
        let _bound = self.forward.node_bound();
        reaches_in(&mut self.forward, &mut self.order, a, b, &mut self.scratch)
    }

    /// Whether an edge from `a` to `b` would close a cycle: whether `b` already reaches `a`.
    ///
    /// # Complexity
    ///
    /// The same as [`reaches`](Paths::reaches) from `b` to `a`.
    pub fn would_close_cycle(&mut self, a: NodeIndex<Ix>, b: NodeIndex<Ix>) -> bool
        ensures decided { IsTrue result ↔ Reaches self.old.graph (Ix.number b) (Ix.number a) }
        ensures same { self.new.graph ≡ self.old.graph }
        ensures looked { self.old.looks ≤ self.new.looks }
        ensures counted { self.new.looks ≤ self.old.looks + edge_count_of self.old.graph }
        ensures ready { Reaches self.old.graph (Ix.number a) (Ix.number b)
            → self.new.looks ≡ self.old.looks }
    {
        self.reaches(b, a)
    }

    /// Returns a shortest path from `a` to `b`, as its nodes in order, or `None` if no path leads
    /// from `a` to `b`. The path from an existing node to itself is that node alone.
    ///
    /// # Errors
    ///
    /// Returns `AllocError` if the memory for the path cannot be allocated.
    ///
    /// # Complexity
    ///
    /// The same as [`reaches`](Paths::reaches), plus O(length of the path).
    pub fn path(
        &mut self,
        a: NodeIndex<Ix>,
        b: NodeIndex<Ix>,
    ) -> Result<Option<Vec<NodeIndex<Ix>>>, AllocError>
        ensures path { IfOk result (λ found. IfSome found (λ path.
            IsShortestPath self.old.graph (Ix.number a) (Ix.number b)
            (map Ix.number path.items))) }
        ensures none { (result ≡ Ok None) ↔ ¬ Reaches self.old.graph (Ix.number a) (Ix.number b) }
        ensures same { self.new.graph ≡ self.old.graph }
        ensures looked { self.old.looks ≤ self.new.looks }
        ensures counted { self.new.looks ≤ self.old.looks + edge_count_of self.old.graph }
        ensures ready { Reaches self.old.graph (Ix.number b) (Ix.number a)
            → self.new.looks ≡ self.old.looks }
    {
        // Called only for its postcondition: the graph is well formed.
        let _bound = self.forward.node_bound();
        path_in(
            self.scratch.allocator(),
            &mut self.forward,
            &mut self.order,
            a,
            b,
            &mut self.scratch,
        )
    }

    /// Returns the edges along a shortest path from `a` to `b`, in order, or `None` if no path leads
    /// from `a` to `b`. From an existing node to itself there are none.
    ///
    /// Of parallel edges along the path it returns the newest, which is the edge that the store's
    /// `find_edge` returns.
    ///
    /// # Errors
    ///
    /// Returns `AllocError` if the memory for the path or for its edges cannot be allocated.
    ///
    /// # Complexity
    ///
    /// The same as [`path`](Paths::path), plus the cost of `find_edge` for each edge.
    ///
    /// # Examples
    ///
    /// ```
    /// let mut dag: Dag<&'static str, u32> = Dag::new(rt.alloc());
    /// let sow = dag.add_node("sow")?;
    /// let (days, hoe) = dag.add_child(sow, 30, "hoe")?;
    /// let (more, reap) = dag.add_child(hoe, 60, "reap")?;
    /// let mut paths = dag.paths()?;
    /// let nodes = paths.path(sow, reap)?;
    /// assert!(rt; nodes.is_some_and(|nodes| nodes.as_slice() == [sow, hoe, reap].as_slice()));
    /// let edges = paths.path_edges(sow, reap)?;
    /// assert!(rt; edges.is_some_and(|edges| edges.as_slice() == [days, more].as_slice()));
    /// ```
    pub fn path_edges(
        &mut self,
        a: NodeIndex<Ix>,
        b: NodeIndex<Ix>,
    ) -> Result<Option<Vec<EdgeIndex<Ix>>>, AllocError>
        ensures path { IfOk result (λ found. IfSome found (λ edges.
            IsShortestEdgePath self.old.graph (Ix.number a) (Ix.number b)
            (map Ix.number edges.items))) }
        ensures none { (result ≡ Ok None) ↔ ¬ Reaches self.old.graph (Ix.number a) (Ix.number b) }
        ensures same { self.new.graph ≡ self.old.graph }
        ensures looked { self.old.looks ≤ self.new.looks }
        ensures counted { self.new.looks ≤ self.old.looks + edge_count_of self.old.graph }
        ensures ready { Reaches self.old.graph (Ix.number b) (Ix.number a)
            → self.new.looks ≡ self.old.looks }
    {
        let Some(nodes) = self.path(a, b)? else {
            return Ok(None);
        };
        let alloc = self.scratch.allocator();
        Ok(Some(edges_along(alloc, self.forward.store(), nodes.as_slice())?))
    }
}

impl<'d, Ix: IndexType, S: ReadStore<Ix>> fmt::Debug for Paths<'d, Ix, S> {
    fn fmt<W: fmt::Write>(&self, f: &mut fmt::Formatter<W>) -> fmt::Result {
        f.debug_struct("Paths").finish_non_exhaustive()
    }
}
