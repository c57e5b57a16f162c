//! Walking depth first, oldest edge first.
ghost use Rattle.std.specs.Prelude.{◌≡◌, ℕ, ◌+◌, ◌-◌, ◌<◌, ◌≤◌, ◌↔◌, true, ◌∷◌, ◌++◌, [], length, reverse};
ghost use Rattle.std.specs.Prelude.{vec_capacity, IsNone, IfNone, IfSome, IfOk, Contains};
ghost use Rattle.std.specs.Iterator.{at_most};
ghost use Rattle.std.specs.Option.{option_map};
ghost use Rattle.daggy_base.specs.Graph.{HasNode, node_bound};
ghost use Rattle.daggy_traversal.specs.Traversal.{LeadsFar, neighbors, AreAllGiven, AreMarked};
ghost use Rattle.daggy_traversal.specs.Traversal.{begin, first_new, without_old, is_among};
ghost use Rattle.daggy_traversal.specs.OldestFirst.{IsOldestFirst, IsOldestStep, next_oldest, edges_of};

use crate::given::Given;
use crate::neighbors::next_neighbor;
use daggy_base::index::{DefaultIx, Direction, IndexType, NodeIndex};
use daggy_base::link::Link;
use daggy_base::read_store::ReadStore;
use daggy_visit::visit::NodeSet;
use daggy_walk::walker::{FiniteWalker, FusedWalker, Walker};
use std::alloc::{AllocError, Global};
use std::fmt;
use std::marker::Model;

/// The nodes reachable from a node, depth first and in preorder, oldest edge first: the order of
/// petgraph's `Dfs`.
///
/// It differs from [`Dfs`](crate::dfs::Dfs) only in the order of the neighbors of a node, and in
/// its memory, which also grows with the number of edges.
///
/// It does not borrow the graph; each step borrows it for that step. Until the walk ends, no node
/// and no edge may be added or removed. Weights may be written: by the lemmas in
/// `proofs/Reweighed.antt`, what the next call requires still holds afterwards.
/// [`iter`](Walker::iter) turns it into an iterator, which borrows the graph.
///
/// For proofs: [`next`](DfsOldestFirst::next) requires that no node or edge has been added or
/// removed since [`new`](DfsOldestFirst::new), and ensures that this still holds at the next call.
/// A struct that has both the graph and the walk can state this once, as a field `ghost under_way:
/// { IsOldestFirst (S.graph graph.now) walk }`.
///
/// # Complexity
///
/// O(nodes + edges) for a whole walk. [`new`](DfsOldestFirst::new) allocates all the memory; no
/// other method allocates.
///
/// # Examples
///
/// ```
/// let mut dag: Dag<&'static str, ()> = Dag::new(rt.alloc());
/// let scene = dag.add_node("scene")?;
/// let (_, floor) = dag.add_child(scene, (), "floor")?;
/// let (_, table) = dag.add_child(scene, (), "table")?;
/// let (_, lamp) = dag.add_child(table, (), "lamp")?;
/// let (_, chair) = dag.add_child(scene, (), "chair")?;
/// let mut walk = DfsOldestFirst::new(rt.alloc(), dag.graph(), scene, Direction::Outgoing)?;
/// assert!(rt; walk.next(dag.graph()) == Some(scene));
/// let rest: Vec<_> = walk.iter(dag.graph()).collect(rt.alloc())?;
/// assert!(rt; rest.as_slice() == [floor, table, lamp, chair].as_slice());
/// ```
#[derive(Drop)]
pub struct DfsOldestFirst<Ix: IndexType = DefaultIx> {
    start: NodeIndex<Ix>,
    dir: Direction,
    // The nodes to look at, the next one last. Some of them may have been yielded meanwhile.
    stack: Vec<Link<Ix>>,
    // The nodes that were yielded.
    met: NodeSet<Ix>,
    given: Given,
}

impl<Ix: IndexType> Model for DfsOldestFirst<Ix> {
    ghost use Rattle.std.specs.Prelude.{length, vec_capacity};
    ghost use Rattle.daggy_traversal.specs.Traversal.{AreMarked};
    ghost use Rattle.daggy_traversal.specs.OldestFirst.{OldestFirst};

    ghost Value = { OldestFirst };

    ghost view = { λ d. record {
      start = Ix.number d.start;
      dir = d.dir;
      given = d.given.nodes;
      stack = d.stack.items;
      bound = length d.met;
      room = vec_capacity d.stack;
    } };

    ghost invariant = { λ d. AreMarked d.met d.given.nodes };
}

impl<Ix: IndexType> DfsOldestFirst<Ix> {
    /// A walk that starts at the node `start` and follows the edges forward or backward. If the
    /// node does not exist, the walk yields nothing.
    ///
    /// # Errors
    ///
    /// Returns `AllocError` if an allocation fails.
    ///
    /// # Complexity
    ///
    /// O(nodes / 64), and memory for one index for each edge slot, which is not written yet.
    pub fn new<S: ReadStore<Ix>>(
        alloc: Global,
        graph: &S,
        start: NodeIndex<Ix>,
        dir: Direction,
    ) -> Result<Self, AllocError>
        ensures start { IfOk result (λ walk. walk.start ≡ Ix.number start) }
        ensures dir { IfOk result (λ walk. walk.dir ≡ dir) }
        ensures none_given { IfOk result (λ walk. walk.given ≡ []) }
        ensures under_way { IfOk result (λ walk. IsOldestFirst (S.graph graph.now) walk) }
    {
        let met = NodeSet::new(alloc, graph.node_bound())?;
        let stack = first_stack(alloc, graph, start)?;
        Ok(DfsOldestFirst {
            start,
            dir,
            stack,
            met,
            given: Given::new(),
        })
    }

    /// Returns the next node, or `None` if no reachable node is left.
    ///
    /// The start comes first. After that, the next node is the last new neighbor, in the order of
    /// the list, of the latest node that still has one.
    ///
    /// # Requires
    ///
    /// - The walk was started over this `graph`, and no node or edge has been added or removed
    ///   since. Weights may have been written.
    ///
    /// # Complexity
    ///
    /// O(nodes + edges) for all calls together.
    pub fn next<S: ReadStore<Ix>>(&mut self, graph: &S) -> Option<NodeIndex<Ix>>
        requires { IsOldestFirst (S.graph graph.now) self.old }
        ensures next { option_map Ix.number result
            ≡ next_oldest (S.graph graph.now) self.old.dir self.old.start self.old.given }
        ensures none { IsNone result
            ↔ AreAllGiven (S.graph graph.now) self.old.dir self.old.start self.old.given }
        ensures reached { IfSome result (λ n.
            LeadsFar self.old.dir (S.graph graph.now) self.old.start (Ix.number n)) }
        ensures once { IfSome result (λ n. ¬ Contains self.old.given (Ix.number n)) }
        ensures given { IfSome result (λ n. self.new.given ≡ self.old.given ++ Ix.number n ∷ []) }
        ensures kept { IfNone result (self.new.given ≡ self.old.given) }
        ensures few { length self.new.given ≤ node_bound (S.graph graph.now) }
        ensures start { self.new.start ≡ self.old.start }
        ensures dir { self.new.dir ≡ self.old.dir }
        ensures under_way { IsOldestFirst (S.graph graph.now) self.new }
    {
        graph.invariant();
        let n = pop_new(&mut self.stack, &mut self.met, &mut self.given)?;
        push_neighbors(graph, n, self.dir, &mut self.stack);
        Some(n)
    }
}

impl<Ix: IndexType, S: ReadStore<Ix>> Walker<S> for DfsOldestFirst<Ix> {
    type Item = NodeIndex<Ix>;

    ghost can_walk = { λ w g. IsOldestFirst (S.graph g) w };

    ghost walk_gives = { λ w g r v. IsOldestStep (S.graph g) w (option_map Ix.number r) v };

    ghost items_left = { λ w g. at_most (node_bound (S.graph g) - length w.given) };

    #[inline]
    fn walk_next(&mut self, graph: &S) -> Option<NodeIndex<Ix>> {
        self.next(graph)
    }
}

impl<Ix: IndexType, S: ReadStore<Ix>> FiniteWalker<S> for DfsOldestFirst<Ix> {
    ghost ends = { λ w g. tt };
}

impl<Ix: IndexType, S: ReadStore<Ix>> FusedWalker<S> for DfsOldestFirst<Ix> {
    ghost use Rattle.daggy_traversal.specs.Fused.{step_rests};

    ghost rests = { λ g w t u r a b. step_rests Ix.number r a.dir a.start a.step b.step };
}

// The start, if it exists, and room for the neighbors of all nodes.
fn first_stack<Ix: IndexType, S: ReadStore<Ix>>(
    alloc: Global,
    graph: &S,
    start: NodeIndex<Ix>,
) -> Result<Vec<Link<Ix>>, AllocError>
    ensures start { IfOk result (λ stack.
        stack.items ≡ begin (S.graph graph.now) (Ix.number start)) }
    ensures room { IfOk result (λ stack. length (S.graph graph.now).edges ≤ vec_capacity stack) }
{
    graph.invariant();
    let mut stack = Vec::with_capacity(alloc, graph.edge_slots().max(1))?;
    if !graph.contains_node(start) {
        return Ok(stack);
    }
    stack.push_reserved(Link::of_node(start));
    Ok(stack)
}

// Takes nodes from the stack up to one that was not yielded, marks it, and returns it.
fn pop_new<Ix: IndexType>(
    stack: &mut Vec<Link<Ix>>,
    met: &mut NodeSet<Ix>,
    given: &mut Given,
) -> Option<NodeIndex<Ix>>
    requires low { (n : ℕ) → is_among stack.old.items n ≡ true → n < length met.old }
    requires marked { AreMarked met.old given.old.nodes }
    ensures next { option_map Ix.number result
        ≡ first_new given.old.nodes (reverse stack.old.items) }
    ensures given { IfSome result (λ n.
        given.new.nodes ≡ given.old.nodes ++ Ix.number n ∷ []) }
    ensures kept { IfNone result (given.new.nodes ≡ given.old.nodes) }
    ensures left { IfSome result (λ n. without_old given.old.nodes (reverse stack.old.items)
        ≡ Ix.number n ∷ without_old given.old.nodes (reverse stack.new.items)) }
    ensures over { IfNone result (stack.new.items ≡ []) }
    ensures among { (n : ℕ) → is_among stack.new.items n ≡ true
        → is_among stack.old.items n ≡ true }
    ensures fewer { IfSome result (λ _. length stack.new.items < length stack.old.items) }
    ensures marked { AreMarked met.new given.new.nodes }
    ensures bound { length met.new ≡ length met.old }
    ensures room { vec_capacity stack.new ≡ vec_capacity stack.old }
{
    'nodes: while let Some(at) = stack.pop() {
        let n = at.node();
        if met.visit(n) {
            given.push(n.index());
            return Some(n);
        }
    }
    None
}

// Adds the neighbors of a node in the order of its list, so the oldest edge is looked at first.
fn push_neighbors<Ix: IndexType, S: ReadStore<Ix>>(
    graph: &S,
    n: NodeIndex<Ix>,
    dir: Direction,
    stack: &mut Vec<Link<Ix>>,
)
    requires room { length stack.old.items
        + length (neighbors dir (S.graph graph.now) (Ix.number n)) ≤ vec_capacity stack.old }
    ensures pushed { stack.new.items
        ≡ stack.old.items ++ neighbors dir (S.graph graph.now) (Ix.number n) }
    ensures capacity { vec_capacity stack.new ≡ vec_capacity stack.old }
{
    graph.invariant();
    let mut e = graph.first_edge(n, dir);
    'edges: while let Some(step) = next_neighbor(graph, dir, e) {
        stack.push_reserved(Link::of_node(step.0));
        e = step.1;
    }
}

impl<Ix: IndexType> fmt::Debug for DfsOldestFirst<Ix> {
    fn fmt<W: fmt::Write>(&self, f: &mut fmt::Formatter<W>) -> fmt::Result {
        f.debug_struct("DfsOldestFirst")
            .field("start", &self.start)
            .field("dir", &self.dir)
            .finish_non_exhaustive()
    }
}
