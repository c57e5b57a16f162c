//! Walking breadth first.
ghost use Rattle.std.specs.Prelude.{◌≡◌, ℕ, ◌-◌, ◌≤◌, ◌↔◌, ◌∷◌, ◌++◌, [], length, vec_capacity, Contains};
ghost use Rattle.std.specs.Prelude.{IsNone, IfNone, IfSome, IfOk};
ghost use Rattle.std.specs.Iterator.{at_most};
ghost use Rattle.std.specs.Option.{option_map};
ghost use Rattle.daggy_base.specs.Graph.{node_bound};
ghost use Rattle.daggy_traversal.specs.Traversal.{LeadsFar, neighbors, AreAllGiven, AreMarked};
ghost use Rattle.daggy_traversal.specs.Breadth.{IsBreadthFirst, IsBreadthStep, IsWithin};
ghost use Rattle.daggy_traversal.specs.Breadth.{next_in_breadth, fresh};

use crate::neighbors::next_neighbor;
use daggy_base::index::{DefaultIx, Direction, IndexType, NodeIndex};
use daggy_base::link::Link;
use daggy_base::read_store::ReadStore;
use daggy_visit::visit::NodeSet;
use daggy_walk::walker::{FiniteWalker, FusedWalker, Walker};
use std::alloc::{AllocError, Global};
use std::fmt;
use std::marker::Model;

/// The nodes reachable from a node, breadth first: a node at a smaller distance from the start
/// comes earlier.
///
/// It does not borrow the graph; each step borrows it for that step. Until the walk ends, no node
/// and no edge may be added or removed. Weights may be written: by the lemmas in
/// `proofs/Reweighed.antt`, what the next call requires still holds afterwards.
/// [`iter`](Walker::iter) turns it into an iterator, which borrows the graph.
///
/// For proofs: [`next`](Bfs::next) requires that no node or edge has been added or removed since
/// [`new`](Bfs::new), and ensures that this still holds at the next call. A struct that has both
/// the graph and the walk can state this once, as a field `ghost under_way: { IsBreadthFirst
/// (S.graph graph.now) walk }`.
///
/// # Complexity
///
/// O(nodes + edges) for a whole walk. [`new`](Bfs::new) allocates all the memory; no other method
/// allocates.
///
/// # Examples
///
/// ```
/// let mut dag: Dag<&'static str, ()> = Dag::new(rt.alloc());
/// let sow = dag.add_node("sow")?;
/// let (_, hoe) = dag.add_child(sow, (), "hoe")?;
/// let (_, reap) = dag.add_child(hoe, (), "reap")?;
/// let (_, eat) = dag.add_child(reap, (), "eat")?;
/// let (_, water) = dag.add_child(sow, (), "water")?;
/// dag.add_edge(water, reap, ())?;
/// // The children of `sow` come before `reap`, the one with the newer edge first.
/// let mut walk = Bfs::new(rt.alloc(), dag.graph(), sow, Direction::Outgoing)?;
/// assert!(rt; walk.next(dag.graph()) == Some(sow));
/// assert!(rt; walk.next(dag.graph()) == Some(water));
/// let rest: Vec<_> = walk.iter(dag.graph()).collect(rt.alloc())?;
/// assert!(rt; rest.as_slice() == [hoe, reap, eat].as_slice());
/// ```
#[derive(Drop)]
pub struct Bfs<Ix: IndexType = DefaultIx> {
    start: NodeIndex<Ix>,
    dir: Direction,
    // The nodes that were met, in order. Those before `head` were yielded.
    queue: Vec<Link<Ix>>,
    head: usize,
    met: NodeSet<Ix>,
}

impl<Ix: IndexType> Model for Bfs<Ix> {
    ghost use Rattle.std.specs.Prelude.{◌≤◌, take, drop, length, vec_capacity};
    ghost use Rattle.daggy_traversal.specs.Breadth.{Breadth};
    ghost use Rattle.daggy_traversal.specs.Traversal.{AreMarked};

    ghost Value = { Breadth };

    ghost view = { λ b. record {
      start = Ix.number b.start;
      dir = b.dir;
      given = take b.head b.queue.items;
      waiting = drop b.head b.queue.items;
      bound = length b.met;
    } };

    ghost invariant = { λ b. AreMarked b.met b.queue.items
        × (b.head ≤ length b.queue.items) × (length b.met ≤ vec_capacity b.queue) };
}

impl<Ix: IndexType> Bfs<Ix> {
    /// A walk that starts at the node `start` and follows the edges forward or backward. If the
    /// node does not exist, the walk yields nothing.
    ///
    /// # Errors
    ///
    /// Returns `AllocError` if an allocation fails.
    ///
    /// # Complexity
    ///
    /// O(nodes / 64).
    pub fn new<S: ReadStore<Ix>>(
        alloc: Global,
        graph: &S,
        start: NodeIndex<Ix>,
        dir: Direction,
    ) -> Result<Self, AllocError>
        ensures start { IfOk result (λ walk. walk.start ≡ Ix.number start) }
        ensures dir { IfOk result (λ walk. walk.dir ≡ dir) }
        ensures none_given { IfOk result (λ walk. walk.given ≡ []) }
        ensures under_way { IfOk result (λ walk. IsBreadthFirst (S.graph graph.now) walk) }
    {
        let bound = graph.node_bound();
        let mut met = NodeSet::new(alloc, bound)?;
        let mut queue = Vec::with_capacity(alloc, bound)?;
        if graph.contains_node(start) {
            let _new = met.visit(start);
            queue.push_reserved(Link::of_node(start));
        }
        Ok(Bfs {
            start,
            dir,
            queue,
            head: 0,
            met,
        })
    }

    /// Returns the next node, or `None` if no reachable node is left.
    ///
    /// The start comes first. The neighbors of a node come in the order of its list, after the
    /// neighbors of each node that was returned before it.
    ///
    /// # Requires
    ///
    /// - The walk was started over this `graph`, and no node or edge has been added or removed
    ///   since. Weights may have been written.
    ///
    /// # Complexity
    ///
    /// O(edges in the list of the node).
    pub fn next<S: ReadStore<Ix>>(&mut self, graph: &S) -> Option<NodeIndex<Ix>>
        requires { IsBreadthFirst (S.graph graph.now) self.old }
        ensures next { option_map Ix.number result
            ≡ next_in_breadth (S.graph graph.now) self.old.dir self.old.start self.old.given }
        ensures none { IsNone result
            ↔ AreAllGiven (S.graph graph.now) self.old.dir self.old.start self.old.given }
        ensures reached { IfSome result (λ n.
            LeadsFar self.old.dir (S.graph graph.now) self.old.start (Ix.number n)) }
        ensures once { IfSome result (λ n. ¬ Contains self.old.given (Ix.number n)) }
        ensures distance { IfSome result (λ n. (m : ℕ) → Contains self.old.given m
            → IsWithin (S.graph graph.now) self.old.dir self.old.start 0 m (Ix.number n)) }
        ensures given { IfSome result (λ n. self.new.given ≡ self.old.given ++ Ix.number n ∷ []) }
        ensures unchanged { IfNone result (self.new ≡ self.old) }
        ensures few { length self.new.given ≤ node_bound (S.graph graph.now) }
        ensures start { self.new.start ≡ self.old.start }
        ensures dir { self.new.dir ≡ self.old.dir }
        ensures under_way { IsBreadthFirst (S.graph graph.now) self.new }
    {
        graph.invariant();
        if self.head == self.queue.len() {
            return None;
        }
        let n = self.queue[self.head].node();
        self.head += 1;
        meet_neighbors(graph, self.dir, n, &mut self.queue, &mut self.met);
        Some(n)
    }
}

impl<Ix: IndexType, S: ReadStore<Ix>> Walker<S> for Bfs<Ix> {
    type Item = NodeIndex<Ix>;

    ghost can_walk = { λ w g. IsBreadthFirst (S.graph g) w };

    ghost walk_gives = { λ w g r v. IsBreadthStep (S.graph g) w (option_map Ix.number r) v };

    ghost items_left = { λ w g. at_most (node_bound (S.graph g) - length w.given) };

    #[inline]
    fn walk_next(&mut self, graph: &S) -> Option<NodeIndex<Ix>> {
        self.next(graph)
    }
}

impl<Ix: IndexType, S: ReadStore<Ix>> FiniteWalker<S> for Bfs<Ix> {
    ghost ends = { λ w g. tt };
}

impl<Ix: IndexType, S: ReadStore<Ix>> FusedWalker<S> for Bfs<Ix> {
    ghost use Rattle.daggy_traversal.specs.Fused.{step_rests};

    ghost rests = { λ g w t u r a b. step_rests Ix.number r a.dir a.start a.step b.step };
}

// Queues the neighbors of a node that were not met.
fn meet_neighbors<Ix: IndexType, S: ReadStore<Ix>>(
    graph: &S,
    dir: Direction,
    n: NodeIndex<Ix>,
    queue: &mut Vec<Link<Ix>>,
    met: &mut NodeSet<Ix>,
)
    requires bound { node_bound (S.graph graph.now) ≤ length met.old }
    requires room { length met.old ≤ vec_capacity queue.old }
    requires marked { AreMarked met.old queue.old.items }
    ensures met { queue.new.items ≡ queue.old.items
        ++ fresh queue.old.items (neighbors dir (S.graph graph.now) (Ix.number n)) }
    ensures marked { AreMarked met.new queue.new.items }
    ensures bound { length met.new ≡ length met.old }
    ensures room { length met.old ≤ vec_capacity queue.new }
{
    graph.invariant();
    let mut e = graph.first_edge(n, dir);
    'edges: while let Some((v, next)) = next_neighbor(graph, dir, e) {
        e = next;
        if met.visit(v) {
            queue.push_reserved(Link::of_node(v));
        }
    }
}

impl<Ix: IndexType> fmt::Debug for Bfs<Ix> {
    fn fmt<W: fmt::Write>(&self, f: &mut fmt::Formatter<W>) -> fmt::Result {
        f.debug_struct("Bfs")
            .field("start", &self.start)
            .field("dir", &self.dir)
            .finish_non_exhaustive()
    }
}
