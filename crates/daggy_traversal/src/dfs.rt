//! Walking depth first.
ghost use Rattle.std.specs.Prelude.{◌≡◌, ℕ, ◌-◌, ◌+◌, ◌<◌, ◌≤◌, ◌↔◌, ◌∷◌, ◌++◌, [], length, vec_capacity, Contains};
ghost use Rattle.std.specs.Prelude.{IsNone, IfNone, IfSome, IfOk};
ghost use Rattle.std.specs.Iterator.{at_most};
ghost use Rattle.std.specs.Option.{option_map};
ghost use Rattle.daggy_base.specs.Graph.{HasNode, node_bound};
ghost use Rattle.daggy_traversal.specs.Traversal.{LeadsFar, neighbors, AreAllGiven, AreMarked};
ghost use Rattle.daggy_traversal.specs.Traversal.{first_new, without_old, neighbors_left};
ghost use Rattle.daggy_traversal.specs.Depth.{IsDepthFirst, IsDepthStep, next_in_depth, ahead};

use crate::given::Given;
use crate::neighbors::next_new;
use daggy_base::index::{DefaultIx, Direction, EdgeIndex, IndexType, NodeIndex};
use daggy_base::link::Link;
use daggy_base::read_store::ReadStore;
use daggy_visit::prefetch::touch_edge;
use daggy_visit::visit::NodeSet;
use daggy_walk::walker::{FiniteWalker, FusedWalker, Walker};
use std::alloc::{AllocError, Global};
use std::fmt;
use std::marker::Model;

/// The nodes reachable from a node, depth first and in preorder: each node comes before the nodes
/// that are reached through it.
///
/// It does not borrow the graph; each step borrows it for that step. Until the walk ends, no node
/// and no edge may be added or removed. Weights may be written: by the lemmas in
/// `proofs/Reweighed.antt`, what the next call requires still holds afterwards.
/// [`iter`](Walker::iter) turns it into an iterator, which borrows the graph.
///
/// For proofs: [`next`](Dfs::next) requires that no node or edge has been added or removed since
/// [`new`](Dfs::new), and ensures that this still holds at the next call. A struct that has both
/// the graph and the walk can state this once, as a field `ghost under_way: { IsDepthFirst (S.graph
/// graph.now) walk }`.
///
/// # Complexity
///
/// O(nodes + edges) for a whole walk. [`new`](Dfs::new) allocates all the memory; no other method
/// allocates.
///
/// # Examples
///
/// ```
/// let mut dag: Dag<&'static str, ()> = Dag::new(rt.alloc());
/// let sow = dag.add_node("sow")?;
/// let (_, hoe) = dag.add_child(sow, (), "hoe")?;
/// let (_, reap) = dag.add_child(hoe, (), "reap")?;
/// let (_, eat) = dag.add_child(reap, (), "eat")?;
/// let (_, water) = dag.add_child(sow, (), "water")?;
/// dag.add_edge(water, reap, ())?;
/// // All that `water` reaches comes before `hoe`.
/// let mut walk = Dfs::new(rt.alloc(), dag.graph(), sow, Direction::Outgoing)?;
/// assert!(rt; walk.next(dag.graph()) == Some(sow));
/// assert!(rt; walk.next(dag.graph()) == Some(water));
/// assert!(rt; walk.next(dag.graph()) == Some(reap));
/// assert!(rt; walk.next(dag.graph()) == Some(eat));
/// assert!(rt; walk.next(dag.graph()) == Some(hoe));
/// assert!(rt; walk.next(dag.graph()).is_none());
/// ```
#[derive(Drop)]
pub struct Dfs<Ix: IndexType = DefaultIx> {
    start: NodeIndex<Ix>,
    dir: Direction,
    // Whether the start is still to come.
    waits: bool,
    // For each node on the path to the node yielded last, the edge to read next, if there is one.
    cursors: Vec<Link<Ix>>,
    // The nodes that were yielded.
    met: NodeSet<Ix>,
    given: Given,
}

impl<Ix: IndexType> Model for Dfs<Ix> {
    ghost use Rattle.std.specs.Prelude.{◌≤◌, length, vec_capacity};
    ghost use Rattle.daggy_traversal.specs.Traversal.{AreMarked};
    ghost use Rattle.daggy_traversal.specs.Depth.{Depth};

    ghost Value = { Depth };

    ghost view = { λ d. record {
      start = Ix.number d.start;
      dir = d.dir;
      given = d.given.nodes;
      waits = d.waits;
      cursors = d.cursors.items;
      bound = length d.met;
    } };

    ghost invariant = { λ d.
        AreMarked d.met d.given.nodes × (length d.met ≤ vec_capacity d.cursors) };
}

impl<Ix: IndexType> Dfs<Ix> {
    /// A walk that starts at the node `start` and follows the edges forward or backward. If the
    /// node does not exist, the walk yields nothing.
    ///
    /// # Errors
    ///
    /// Returns `AllocError` if an allocation fails.
    ///
    /// # Complexity
    ///
    /// O(nodes / 64).
    pub fn new<S: ReadStore<Ix>>(
        alloc: Global,
        graph: &S,
        start: NodeIndex<Ix>,
        dir: Direction,
    ) -> Result<Self, AllocError>
        ensures start { IfOk result (λ walk. walk.start ≡ Ix.number start) }
        ensures dir { IfOk result (λ walk. walk.dir ≡ dir) }
        ensures none_given { IfOk result (λ walk. walk.given ≡ []) }
        ensures under_way { IfOk result (λ walk. IsDepthFirst (S.graph graph.now) walk) }
    {
        let bound = graph.node_bound();
        let met = NodeSet::new(alloc, bound)?;
        let cursors = Vec::with_capacity(alloc, bound)?;
        Ok(Dfs {
            start,
            dir,
            waits: graph.contains_node(start),
            cursors,
            met,
            given: Given::new(),
        })
    }

    /// Returns the next node, or `None` if no reachable node is left.
    ///
    /// The start comes first. After that, the next node is the first new neighbor, in the order of
    /// the list, of the latest node that still has one.
    ///
    /// # Requires
    ///
    /// - The walk was started over this `graph`, and no node or edge has been added or removed
    ///   since. Weights may have been written.
    ///
    /// # Complexity
    ///
    /// O(nodes + edges) for all calls together.
    pub fn next<S: ReadStore<Ix>>(&mut self, graph: &S) -> Option<NodeIndex<Ix>>
        requires { IsDepthFirst (S.graph graph.now) self.old }
        ensures next { option_map Ix.number result
            ≡ next_in_depth (S.graph graph.now) self.old.dir self.old.start self.old.given }
        ensures none { IsNone result
            ↔ AreAllGiven (S.graph graph.now) self.old.dir self.old.start self.old.given }
        ensures reached { IfSome result (λ n.
            LeadsFar self.old.dir (S.graph graph.now) self.old.start (Ix.number n)) }
        ensures once { IfSome result (λ n. ¬ Contains self.old.given (Ix.number n)) }
        ensures given { IfSome result (λ n. self.new.given ≡ self.old.given ++ Ix.number n ∷ []) }
        ensures kept { IfNone result (self.new.given ≡ self.old.given) }
        ensures few { length self.new.given ≤ node_bound (S.graph graph.now) }
        ensures start { self.new.start ≡ self.old.start }
        ensures dir { self.new.dir ≡ self.old.dir }
        ensures under_way { IsDepthFirst (S.graph graph.now) self.new }
    {
        graph.invariant();
        if self.waits {
            self.waits = false;
            let start = self.start;
            let _new = self.met.visit(start);
            self.given.push(start.index());
            let first = graph.first_edge(start, self.dir);
            self.cursors.push_reserved(Link::of_edge(first));
            return Some(start);
        }
        advance(
            graph,
            self.dir,
            &mut self.cursors,
            &mut self.met,
            &mut self.given,
        )
    }
}

impl<Ix: IndexType, S: ReadStore<Ix>> Walker<S> for Dfs<Ix> {
    type Item = NodeIndex<Ix>;

    ghost can_walk = { λ w g. IsDepthFirst (S.graph g) w };

    ghost walk_gives = { λ w g r v. IsDepthStep (S.graph g) w (option_map Ix.number r) v };

    ghost items_left = { λ w g. at_most (node_bound (S.graph g) - length w.given) };

    #[inline]
    fn walk_next(&mut self, graph: &S) -> Option<NodeIndex<Ix>> {
        self.next(graph)
    }
}

impl<Ix: IndexType, S: ReadStore<Ix>> FiniteWalker<S> for Dfs<Ix> {
    ghost ends = { λ w g. tt };
}

impl<Ix: IndexType, S: ReadStore<Ix>> FusedWalker<S> for Dfs<Ix> {
    ghost use Rattle.daggy_traversal.specs.Fused.{step_rests};

    ghost rests = { λ g w t u r a b. step_rests Ix.number r a.dir a.start a.step b.step };
}

// Adds a cursor at the edge `e`, unless the list is at its end there.
#[inline]
fn push_cursor<Ix: IndexType, S: ReadStore<Ix>>(
    graph: &S,
    _dir: Direction,
    cursors: &mut Vec<Link<Ix>>,
    e: EdgeIndex<Ix>,
)
    requires room { length cursors.old.items < vec_capacity cursors.old }
    ensures ahead { ahead _dir (S.graph graph.now) cursors.new.items
        ≡ neighbors_left _dir (S.graph graph.now) (Ix.number e)
        ++ ahead _dir (S.graph graph.now) cursors.old.items }
    ensures few { length cursors.new.items ≤ length cursors.old.items + 1 }
    ensures capacity { vec_capacity cursors.new ≡ vec_capacity cursors.old }
{
    graph.invariant();
    if e.index() != EdgeIndex::<Ix>::end().index() {
        cursors.push_reserved(Link::of_edge(e));
    }
}

// The same as `push_cursor`, without a branch, which would often be mispredicted after a neighbor:
// the cursor is popped again if the list is at its end. (At the beginning of a list a branch is
// better: the processor reads memory ahead as predicted, before it is known whether the node has
// any edges.)
#[inline]
fn push_rest<Ix: IndexType, S: ReadStore<Ix>>(
    graph: &S,
    _dir: Direction,
    cursors: &mut Vec<Link<Ix>>,
    e: EdgeIndex<Ix>,
)
    requires room { length cursors.old.items < vec_capacity cursors.old }
    ensures ahead { ahead _dir (S.graph graph.now) cursors.new.items
        ≡ neighbors_left _dir (S.graph graph.now) (Ix.number e)
        ++ ahead _dir (S.graph graph.now) cursors.old.items }
    ensures few { length cursors.new.items ≤ length cursors.old.items + 1 }
    ensures capacity { vec_capacity cursors.new ≡ vec_capacity cursors.old }
{
    graph.invariant();
    cursors.push_reserved(Link::of_edge(e));
    if e.index() == EdgeIndex::<Ix>::end().index() {
        cursors.pop();
    }
}

// Advances the cursors to the first neighbor that was not yielded, and returns it. If it has
// neighbors itself, its cursor is then the last one.
fn advance<Ix: IndexType, S: ReadStore<Ix>>(
    graph: &S,
    dir: Direction,
    cursors: &mut Vec<Link<Ix>>,
    met: &mut NodeSet<Ix>,
    given: &mut Given,
) -> Option<NodeIndex<Ix>>
    requires bound { node_bound (S.graph graph.now) ≤ length met.old }
    requires room { length met.old ≤ vec_capacity cursors.old }
    requires few { length cursors.old.items ≤ length given.old.nodes }
    requires marked { AreMarked met.old given.old.nodes }
    ensures next { option_map Ix.number result
        ≡ first_new given.old.nodes (ahead dir (S.graph graph.now) cursors.old.items) }
    ensures given { IfSome result (λ n.
        given.new.nodes ≡ given.old.nodes ++ Ix.number n ∷ []) }
    ensures kept { IfNone result (given.new.nodes ≡ given.old.nodes) }
    ensures exists { IfSome result (λ n. HasNode (S.graph graph.now) (Ix.number n)) }
    ensures left { IfSome result (λ n.
        without_old given.new.nodes (ahead dir (S.graph graph.now) cursors.new.items)
        ≡ without_old given.new.nodes (neighbors dir (S.graph graph.now) (Ix.number n)
        ++ ahead dir (S.graph graph.now) cursors.old.items)) }
    ensures over { IfNone result (cursors.new.items ≡ []) }
    ensures few { length cursors.new.items ≤ length given.new.nodes }
    ensures marked { AreMarked met.new given.new.nodes }
    ensures bound { length met.new ≡ length met.old }
    ensures room { length met.old ≤ vec_capacity cursors.new }
{
    graph.invariant();
    'steps: while let Some(at) = cursors.pop() {
        if let Some((n, next)) = next_new(graph, dir, at.edge(), met) {
            // Never taken: this is a prefetch.
            if !touch_edge(graph, next) {
                return None;
            }
            let _new = met.visit(n);
            given.push(n.index());
            push_rest(graph, dir, cursors, next);
            push_cursor(graph, dir, cursors, graph.first_edge(n, dir));
            return Some(n);
        }
    }
    None
}

impl<Ix: IndexType> fmt::Debug for Dfs<Ix> {
    fn fmt<W: fmt::Write>(&self, f: &mut fmt::Formatter<W>) -> fmt::Result {
        f.debug_struct("Dfs")
            .field("start", &self.start)
            .field("dir", &self.dir)
            .finish_non_exhaustive()
    }
}
