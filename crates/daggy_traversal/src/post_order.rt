//! Walking depth first, in postorder.
ghost use Rattle.std.specs.Prelude.{◌≡◌, ℕ, ◌-◌, ◌≤◌, ◌↔◌, ◌⊎◌, ◌∷◌, ◌++◌, [], length, vec_capacity};
ghost use Rattle.std.specs.Prelude.{IsNone, IfNone, IfSome, IfOk, Contains};
ghost use Rattle.std.specs.Iterator.{at_most};
ghost use Rattle.std.specs.Option.{option_map};
ghost use Rattle.daggy_base.specs.Graph.{node_bound};
ghost use Rattle.daggy_base.specs.Path.{IsAcyclic};
ghost use Rattle.daggy_traversal.specs.Traversal.{LeadsTo, LeadsFar, AreAllGiven, AreMarked, begin};
ghost use Rattle.daggy_traversal.specs.Postorder.{IsPostorder, IsPostorderStep, GivesLast, AreLeft};

use crate::given::Given;
use crate::neighbors::next_new;
use daggy_base::index::{DefaultIx, Direction, IndexType, NodeIndex};
use daggy_base::link::Link;
use daggy_base::read_store::ReadStore;
use daggy_visit::visit::NodeSet;
use daggy_walk::walker::{FiniteWalker, FusedWalker, Walker};
use std::alloc::{AllocError, Global};
use std::fmt;
use std::marker::Model;

/// The nodes reachable from a node, depth first and in postorder: each node comes after its
/// neighbors, except for neighbors that lead back to it.
///
/// It does not borrow the graph; each step borrows it for that step. Until the walk ends, no node
/// and no edge may be added or removed. Weights may be written: by the lemmas in
/// `proofs/Reweighed.antt`, what the next call requires still holds afterwards.
/// [`iter`](Walker::iter) turns it into an iterator, which borrows the graph.
///
/// For proofs: [`next`](DfsPostOrder::next) requires that no node or edge has been added or removed
/// since [`new`](DfsPostOrder::new), and ensures that this still holds at the next call. A struct
/// that has both the graph and the walk can state this once, as a field `ghost under_way: {
/// IsPostorder (S.graph graph.now) walk }`.
///
/// # Complexity
///
/// O(nodes + edges) for a whole walk. [`new`](DfsPostOrder::new) allocates all the memory; no other
/// method allocates.
///
/// # Examples
///
/// ```
/// let mut dag: Dag<&'static str, ()> = Dag::new(rt.alloc());
/// let sow = dag.add_node("sow")?;
/// let (_, hoe) = dag.add_child(sow, (), "hoe")?;
/// let (_, reap) = dag.add_child(hoe, (), "reap")?;
/// let (_, eat) = dag.add_child(reap, (), "eat")?;
/// let (_, water) = dag.add_child(sow, (), "water")?;
/// dag.add_edge(water, reap, ())?;
/// // Each comes after its children.
/// let mut walk = DfsPostOrder::new(rt.alloc(), dag.graph(), sow, Direction::Outgoing)?;
/// assert!(rt; walk.next(dag.graph()) == Some(eat));
/// assert!(rt; walk.next(dag.graph()) == Some(reap));
/// assert!(rt; walk.next(dag.graph()) == Some(water));
/// assert!(rt; walk.next(dag.graph()) == Some(hoe));
/// assert!(rt; walk.next(dag.graph()) == Some(sow));
/// assert!(rt; walk.next(dag.graph()).is_none());
/// ```
#[derive(Drop)]
pub struct DfsPostOrder<Ix: IndexType = DefaultIx> {
    start: NodeIndex<Ix>,
    dir: Direction,
    // The nodes on the path from the start to the node that was met last.
    path: Vec<Link<Ix>>,
    // For each node on the path, the edge to read next.
    cursors: Vec<Link<Ix>>,
    // The nodes that were yielded, and the nodes on the path.
    met: NodeSet<Ix>,
    given: Given,
}

impl<Ix: IndexType> Model for DfsPostOrder<Ix> {
    ghost use Rattle.std.specs.Prelude.{◌≤◌, ◌++◌, length, vec_capacity};
    ghost use Rattle.daggy_traversal.specs.Traversal.{AreMarked};
    ghost use Rattle.daggy_traversal.specs.Postorder.{Postorder};

    ghost Value = { Postorder };

    ghost view = { λ d. record {
      start = Ix.number d.start;
      dir = d.dir;
      given = d.given.nodes;
      path = d.path.items;
      cursors = d.cursors.items;
      bound = length d.met;
    } };

    ghost invariant = { λ d. AreMarked d.met (d.given.nodes ++ d.path.items)
        × (length d.met ≤ vec_capacity d.path) × (length d.met ≤ vec_capacity d.cursors) };
}

impl<Ix: IndexType> DfsPostOrder<Ix> {
    /// A walk that starts at the node `start` and follows the edges forward or backward. If the
    /// node does not exist, the walk yields nothing.
    ///
    /// # Errors
    ///
    /// Returns `AllocError` if an allocation fails.
    ///
    /// # Complexity
    ///
    /// O(nodes / 64).
    pub fn new<S: ReadStore<Ix>>(
        alloc: Global,
        graph: &S,
        start: NodeIndex<Ix>,
        dir: Direction,
    ) -> Result<Self, AllocError>
        ensures start { IfOk result (λ walk. walk.start ≡ Ix.number start) }
        ensures dir { IfOk result (λ walk. walk.dir ≡ dir) }
        ensures none_given { IfOk result (λ walk. walk.given ≡ []) }
        ensures path { IfOk result (λ walk.
            walk.path ≡ begin (S.graph graph.now) (Ix.number start)) }
        ensures under_way { IfOk result (λ walk. IsPostorder (S.graph graph.now) walk) }
    {
        let bound = graph.node_bound();
        let mut met = NodeSet::new(alloc, bound)?;
        let mut path = Vec::with_capacity(alloc, bound)?;
        let mut cursors = Vec::with_capacity(alloc, bound)?;
        if graph.contains_node(start) {
            let _new = met.visit(start);
            path.push_reserved(Link::of_node(start));
            cursors.push_reserved(Link::of_edge(graph.first_edge(start, dir)));
        }
        Ok(DfsPostOrder {
            start,
            dir,
            path,
            cursors,
            met,
            given: Given::new(),
        })
    }

    /// Returns the next node, or `None` if no reachable node is left.
    ///
    /// The walk goes down from neighbor to neighbor, each time to the first new neighbor in the
    /// order of the list, until a node has no new neighbor. It returns that node, and goes back up.
    /// The start comes last.
    ///
    /// # Requires
    ///
    /// - The walk was started over this `graph`, and no node or edge has been added or removed
    ///   since. Weights may have been written.
    ///
    /// # Complexity
    ///
    /// O(nodes + edges) for all calls together.
    pub fn next<S: ReadStore<Ix>>(&mut self, graph: &S) -> Option<NodeIndex<Ix>>
        requires { IsPostorder (S.graph graph.now) self.old }
        ensures next { IfSome result (λ n. GivesLast self.old.dir (S.graph graph.now)
            self.old.given self.old.path self.new.path (Ix.number n)) }
        ensures none { IsNone result
            ↔ AreAllGiven (S.graph graph.now) self.old.dir self.old.start self.old.given }
        ensures reached { IfSome result (λ n.
            LeadsFar self.old.dir (S.graph graph.now) self.old.start (Ix.number n)) }
        ensures once { IfSome result (λ n. ¬ Contains self.old.given (Ix.number n)) }
        ensures after { IfSome result (λ n. (v : ℕ)
            → LeadsTo self.old.dir (S.graph graph.now) (Ix.number n) v
            → Contains self.old.given v ⊎ LeadsFar self.old.dir (S.graph graph.now) v (Ix.number n)) }
        ensures acyclic { IsAcyclic (S.graph graph.now) → IfSome result (λ n. (v : ℕ)
            → LeadsTo self.old.dir (S.graph graph.now) (Ix.number n) v
            → Contains self.old.given v) }
        ensures given { IfSome result (λ n. self.new.given ≡ self.old.given ++ Ix.number n ∷ []) }
        ensures unchanged { IfNone result (self.new ≡ self.old) }
        ensures few { length self.new.given ≤ node_bound (S.graph graph.now) }
        ensures start { self.new.start ≡ self.old.start }
        ensures dir { self.new.dir ≡ self.old.dir }
        ensures under_way { IsPostorder (S.graph graph.now) self.new }
    {
        graph.invariant();
        descend(
            graph,
            self.dir,
            &mut self.path,
            &mut self.cursors,
            &mut self.met,
            &mut self.given,
        )
    }
}

impl<Ix: IndexType, S: ReadStore<Ix>> Walker<S> for DfsPostOrder<Ix> {
    type Item = NodeIndex<Ix>;

    ghost can_walk = { λ w g. IsPostorder (S.graph g) w };

    ghost walk_gives = { λ w g r v. IsPostorderStep (S.graph g) w (option_map Ix.number r) v };

    ghost items_left = { λ w g. at_most (node_bound (S.graph g) - length w.given) };

    #[inline]
    fn walk_next(&mut self, graph: &S) -> Option<NodeIndex<Ix>> {
        self.next(graph)
    }
}

impl<Ix: IndexType, S: ReadStore<Ix>> FiniteWalker<S> for DfsPostOrder<Ix> {
    ghost ends = { λ w g. tt };
}

impl<Ix: IndexType, S: ReadStore<Ix>> FusedWalker<S> for DfsPostOrder<Ix> {
    ghost use Rattle.daggy_traversal.specs.Fused.{step_rests};

    ghost rests = { λ g w t u r a b. step_rests Ix.number r a.dir a.start a.step b.step };
}

// Goes down to a node all of whose neighbors were met, and returns it.
fn descend<Ix: IndexType, S: ReadStore<Ix>>(
    graph: &S,
    dir: Direction,
    path: &mut Vec<Link<Ix>>,
    cursors: &mut Vec<Link<Ix>>,
    met: &mut NodeSet<Ix>,
    given: &mut Given,
) -> Option<NodeIndex<Ix>>
    requires bound { node_bound (S.graph graph.now) ≤ length met.old }
    requires path_room { length met.old ≤ vec_capacity path.old }
    requires room { length met.old ≤ vec_capacity cursors.old }
    requires marked { AreMarked met.old (given.old.nodes ++ path.old.items) }
    requires left { AreLeft dir (S.graph graph.now) (given.old.nodes ++ path.old.items)
        path.old.items cursors.old.items }
    ensures next { IfSome result (λ n. GivesLast dir (S.graph graph.now)
        given.old.nodes path.old.items path.new.items (Ix.number n)) }
    ensures over { IfNone result (path.old.items ≡ []) }
    ensures given { IfSome result (λ n.
        given.new.nodes ≡ given.old.nodes ++ Ix.number n ∷ []) }
    ensures kept { IfNone result (given.new.nodes ≡ given.old.nodes) }
    ensures path_kept { IfNone result (path.new.items ≡ path.old.items) }
    ensures cursors_kept { IfNone result (cursors.new.items ≡ cursors.old.items) }
    ensures left { AreLeft dir (S.graph graph.now) (given.new.nodes ++ path.new.items)
        path.new.items cursors.new.items }
    ensures marked { AreMarked met.new (given.new.nodes ++ path.new.items) }
    ensures bound { length met.new ≡ length met.old }
    ensures path_room { length met.old ≤ vec_capacity path.new }
    ensures room { length met.old ≤ vec_capacity cursors.new }
{
    graph.invariant();
    'nodes: while let Some(at) = cursors.pop() {
        let Some((v, next)) = next_new(graph, dir, at.edge(), met) else {
            let n = path.take_last().node();
            given.push(n.index());
            return Some(n);
        };
        cursors.push_reserved(Link::of_edge(next));
        let _new = met.visit(v);
        path.push_reserved(Link::of_node(v));
        cursors.push_reserved(Link::of_edge(graph.first_edge(v, dir)));
    }
    None
}

impl<Ix: IndexType> fmt::Debug for DfsPostOrder<Ix> {
    fn fmt<W: fmt::Write>(&self, f: &mut fmt::Formatter<W>) -> fmt::Result {
        f.debug_struct("DfsPostOrder")
            .field("start", &self.start)
            .field("dir", &self.dir)
            .finish_non_exhaustive()
    }
}
