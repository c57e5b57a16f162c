//! The nodes of a dag that are ready, while others are in progress.
ghost use Rattle.std.specs.Prelude.{◌≡◌, ℕ, ◌+◌, ◌<◌, ◌≤◌, ◌↔◌, ◌⊎◌, ◌∷◌, ◌++◌, []};
ghost use Rattle.std.specs.Prelude.{IsTrue, IsNone, IfSome, IfOk, take, length, filter, slice_index_or};
ghost use Rattle.daggy_base.specs.Graph.{HasNode, in_list, out_list, node_bound};
ghost use Rattle.daggy_base.specs.Iterating.{node_identifiers};
ghost use Rattle.daggy_schedule.specs.Work.{IsSet, IsOut, IsIdle, IsUnderWay};
ghost use Rattle.daggy_schedule.specs.Work.{has_no_parents, released, each_last, children_of};
ghost use Rattle.daggy_schedule.specs.Work.{out_count as out_count_of};
ghost use Rattle.daggy_schedule.specs.Work.{waiting_count as waiting_count_of};
ghost use Rattle.daggy_schedule.specs.Queue.{IsCounted, waits_for_none};

use daggy_base::index::{DefaultIx, Direction, EdgeIndex, IndexType, NodeIndex};
use daggy_base::link::Link;
use daggy_base::read_store::ReadStore;
use daggy_dag::acyclic::Acyclic;
use daggy_visit::prefetch::{PREFETCH_FROM, touch_list};
use std::alloc::{AllocError, Global};
use std::marker::Model;

/// A queue of the nodes of a dag that are ready: all of their parents are done. Each node is
/// returned once. As in Kahn's algorithm (1962), it counts for each node the edges from parents
/// that are not done.
///
/// It does not borrow the dag; each call that needs the dag borrows it for that call. Until all
/// nodes are done, no node and no edge may be added or removed. Weights may be written: by the
/// lemmas in `proofs/Reweighed.antt`, what the next call requires still holds afterwards.
///
/// For proofs: [`next`](Ready::next) and [`done`](Ready::done) require that no node or edge has
/// been added or removed since [`new`](Ready::new), and ensure that this still holds at the next
/// call. A struct that has both the dag and the queue can state this once, as a field `ghost
/// under_way: { IsUnderWay dag.now.graph ready }`.
///
/// # Complexity
///
/// O(nodes + edges) for a whole run. [`new`](Ready::new) allocates all the memory; no other method
/// allocates.
///
/// # Examples
///
/// ```
/// let mut dag: Dag<&'static str, u32> = Dag::new(rt.alloc());
/// let sow = dag.add_node("sow")?;
/// let (_, reap) = dag.add_child(sow, 90, "reap")?;
/// let mut ready = Ready::new(rt.alloc(), &dag)?;
/// assert!(rt; ready.next(&dag) == Some(sow));
/// // Its parent is not done yet.
/// assert!(rt; ready.next(&dag).is_none());
/// ready.done(&dag, sow);
/// assert!(rt; ready.next(&dag) == Some(reap));
/// ready.done(&dag, reap);
/// assert!(rt; ready.is_finished());
/// ```
#[derive(Debug, Drop)]
pub struct Ready<Ix: IndexType = DefaultIx> {
    // By node index, the number of edges from parents that are not done.
    waiting: Vec<usize>,
    // The nodes that became ready, in order. Those before `head` were returned.
    queue: Vec<Link<Ix>>,
    head: usize,
    tail: usize,
    out: Vec<bool>,
    done: Vec<bool>,
    // How many nodes are done.
    finished: usize,
}

impl<Ix: IndexType> Model for Ready<Ix> {
    ghost use Rattle.std.specs.Prelude.{take, drop};
    ghost use Rattle.daggy_schedule.specs.Work.{Work};
    ghost use Rattle.daggy_schedule.specs.Queue.{IsKept};

    ghost Value = { Work };

    ghost view = { λ r. record {
      waiting = r.waiting.items;
      ready = drop r.head (take r.tail r.queue.items);
      out = r.out.items;
      done = r.done.items;
    } };

    ghost invariant = { λ r.
        IsKept r.waiting.items r.queue.items r.head r.tail r.out.items r.done.items r.finished };
}

impl<Ix: IndexType> Ready<Ix> {
    /// A queue of the nodes of a dag. At first the nodes without parents are ready, in ascending
    /// index order.
    ///
    /// # Errors
    ///
    /// Returns `AllocError` if an allocation fails.
    ///
    /// # Complexity
    ///
    /// O(nodes + edges), vacant slots included.
    pub fn new<N: Drop, E: Drop, S>(
        alloc: Global,
        dag: &Acyclic<N, E, Ix, S>,
    ) -> Result<Self, AllocError>
    where
        S: ReadStore<Ix, NodeWeight = N, EdgeWeight = E>,
        ensures ready { IfOk result (λ r.
            r.ready ≡ filter (has_no_parents dag.now.graph) (node_identifiers dag.now.graph)) }
        ensures none_out { IfOk result (λ r. (n : ℕ) → ¬ IsSet r.out n) }
        ensures under_way { IfOk result (λ r. IsUnderWay dag.now.graph r) }
    {
        let store = dag.graph();
        let bound = store.node_bound();
        let waiting = count_parents(alloc, store)?;
        let mut queue = Vec::new(alloc);
        queue.resize(bound, Link::end())?;
        let mut out = Vec::new(alloc);
        out.resize(bound, false)?;
        let mut done = Vec::new(alloc);
        done.resize(bound, false)?;
        let mut tail = 0;
        // Called only for its postcondition: the graph has an order.
        let _order = dag.topological_order();
        'nodes: for i in 0..bound {
            let n = NodeIndex::new(i);
            if let Some(_weight) = store.node_weight(n) {
                if waiting[i] == 0 {
                    queue[tail] = Link::of_node(n);
                    tail += 1;
                }
            }
        }
        Ok(Ready {
            waiting,
            queue,
            head: 0,
            tail,
            out,
            done,
            finished: 0,
        })
    }

    /// Returns the node that has been ready for longest, or `None` if none is ready: either a node
    /// that was returned has to be done first, or all nodes are done.
    ///
    /// `dag` must be the dag that was passed to [`new`](Ready::new). It is read only to prefetch
    /// edges of the next nodes.
    ///
    /// # Requires
    ///
    /// - The work was started on this `dag`, and no node or edge has been added or removed since.
    ///   Weights may have been written.
    ///
    /// # Complexity
    ///
    /// O(1).
    pub fn next<N: Drop, E: Drop, S>(&mut self, dag: &Acyclic<N, E, Ix, S>) -> Option<NodeIndex<Ix>>
    where
        S: ReadStore<Ix, NodeWeight = N, EdgeWeight = E>,
        requires { IsUnderWay dag.now.graph self.old }
        ensures none { IsNone result ↔ (self.old.ready ≡ []) }
        ensures first { IfSome result (λ n. self.old.ready ≡ Ix.number n ∷ self.new.ready) }
        ensures out { IfSome result (λ n. (m : ℕ)
            → IsSet self.new.out m ↔ (IsSet self.old.out m ⊎ (m ≡ Ix.number n))) }
        ensures is_out { IfSome result (λ n. IsOut self.new (Ix.number n)) }
        ensures unchanged { IsNone result → self.new ≡ self.old }
        ensures done { self.new.done ≡ self.old.done }
        ensures waiting { self.new.waiting ≡ self.old.waiting }
        ensures under_way { IsUnderWay dag.now.graph self.new }
    {
        if self.head == self.tail {
            return None;
        }
        let store = dag.graph();
        // Never taken: this is a prefetch.
        if store.edge_slots() >= PREFETCH_FROM
            && !touch_lists(store, &self.queue[self.head..self.tail])
        {
            return None;
        }
        let n = self.queue[self.head].node();
        self.head += 1;
        self.out[n.index()] = true;
        Some(n)
    }

    /// Whether the node is in progress: [`next`](Ready::next) returned it, and it is not done yet.
    ///
    /// # Examples
    ///
    /// ```
    /// let mut dag: Dag<&'static str, u32> = Dag::new(rt.alloc());
    /// let sow = dag.add_node("sow")?;
    /// let mut ready = Ready::new(rt.alloc(), &dag)?;
    /// assert!(rt; !ready.is_out(sow));
    /// assert!(rt; ready.next(&dag) == Some(sow));
    /// if ready.is_out(sow) {
    ///     ready.done(&dag, sow);
    /// }
    /// assert!(rt; !ready.is_out(sow));
    /// ```
    pub fn is_out(&self, n: NodeIndex<Ix>) -> bool
        ensures { IsTrue result ↔ IsOut self.now (Ix.number n) }
    {
        let i = n.index();
        i < self.out.len() && self.out[i] && !(i < self.done.len() && self.done[i])
    }

    /// Marks `n` as done. Children whose parents are now all done become ready, after the nodes
    /// that are ready already and in the order of the edges that leave `n`. If several of these
    /// edges enter a child, it becomes ready at the last of them.
    ///
    /// # Requires
    ///
    /// - `under_way`: The work was started on this `dag`, and no node or edge has been added or
    ///   removed since. Weights may have been written.
    /// - `out`: `next` returned `n`, and `n` has not been passed to `done` since. Test:
    ///   `is_out(n)`.
    ///
    /// # Complexity
    ///
    /// O(children of the node).
    pub fn done<N: Drop, E: Drop, S>(&mut self, dag: &Acyclic<N, E, Ix, S>, n: NodeIndex<Ix>)
    where
        S: ReadStore<Ix, NodeWeight = N, EdgeWeight = E>,
        requires under_way { IsUnderWay dag.now.graph self.old }
        requires out { IsOut self.old (Ix.number n) }
        ensures done { (m : ℕ)
            → IsSet self.new.done m ↔ (IsSet self.old.done m ⊎ (m ≡ Ix.number n)) }
        ensures ready { self.new.ready
            ≡ self.old.ready ++ released dag.now.graph self.new.done (Ix.number n) }
        ensures out { self.new.out ≡ self.old.out }
        ensures under_way { IsUnderWay dag.now.graph self.new }
    {
        let store = dag.graph();
        store.invariant();
        let _order = dag.topological_order();
        self.done[n.index()] = true;
        self.finished += 1;
        self.tail = release(
            store,
            n,
            &self.done,
            &mut self.waiting,
            &mut self.queue,
            self.tail,
        );
    }

    /// How many nodes are ready.
    ///
    /// # Examples
    ///
    /// ```
    /// let mut dag: Dag<&'static str, u32> = Dag::new(rt.alloc());
    /// let sow = dag.add_node("sow")?;
    /// dag.add_child(sow, 90, "reap")?;
    /// let mut ready = Ready::new(rt.alloc(), &dag)?;
    /// assert!(rt; ready.ready_count() == 1 && ready.waiting_count(&dag) == 1);
    /// assert!(rt; ready.next(&dag) == Some(sow));
    /// assert!(rt; ready.ready_count() == 0 && ready.out_count() == 1);
    /// ```
    pub fn ready_count(&self) -> usize
        ensures { result ≡ length self.now.ready }
    {
        self.tail - self.head
    }

    /// How many nodes are in progress: [`next`](Ready::next) returned them, and they are not done.
    pub fn out_count(&self) -> usize
        ensures { result ≡ out_count_of self.now }
    {
        self.head - self.finished
    }

    /// The number of nodes that are waiting for parents: those that are not ready and have not been
    /// returned.
    ///
    /// # Requires
    ///
    /// - The work was started on this `dag`, and no node or edge has been added or removed since.
    ///   Weights may have been written.
    ///
    /// # Complexity
    ///
    /// O(1).
    pub fn waiting_count<N: Drop, E: Drop, S>(&self, dag: &Acyclic<N, E, Ix, S>) -> usize
    where
        S: ReadStore<Ix, NodeWeight = N, EdgeWeight = E>,
        requires { IsUnderWay dag.now.graph self.now }
        ensures { result ≡ waiting_count_of dag.now.graph self.now }
    {
        dag.node_count() - self.tail
    }

    /// Whether all nodes are done: none is ready, and none is in progress.
    pub fn is_finished(&self) -> bool
        ensures { IsTrue result ↔ IsIdle self.now }
    {
        self.finished == self.tail
    }
}

// How many of the nodes that come next are prefetched.
const AHEAD: usize = 4;

// By node index, how many edges lead to each node.
fn count_parents<Ix: IndexType, S: ReadStore<Ix>>(
    alloc: Global,
    store: &S,
) -> Result<Vec<usize>, AllocError>
    ensures sized { IfOk result (λ counts.
        length counts.items ≡ node_bound (S.graph store.now)) }
    ensures counted { IfOk result (λ counts. (n : ℕ)
        → slice_index_or counts.items n 0 ≡ length (in_list (S.graph store.now) n)) }
{
    store.invariant();
    let mut counts = Vec::new(alloc);
    counts.resize(store.node_bound(), 0usize)?;
    let bound = store.edge_slots();
    let mut e = 0;
    'edges: while e < bound {
        if let Some((_parent, child)) = store.edge_endpoints(EdgeIndex::new(e)) {
            counts[child.index()] += 1;
        }
        e += 1;
    }
    Ok(counts)
}

// Prefetches the first edges of the next nodes, more of them the sooner a node comes. Always
// returns true. Out of line, so that small graphs need not save registers for it.
#[cold]
#[inline(never)]
fn touch_lists<Ix: IndexType, S: ReadStore<Ix>>(store: &S, queue: &[Link<Ix>]) -> bool
    ensures { IsTrue result }
{
    for k in 0..AHEAD.min(queue.len()) {
        if !touch_list(store, queue[k].node(), Direction::Outgoing, AHEAD - k) {
            return false;
        }
    }
    true
}

// Counts down, for each child of a node that is done, the edges it waits for, and queues the
// children that wait for none any more.
fn release<Ix: IndexType, S: ReadStore<Ix>>(
    store: &S,
    n: NodeIndex<Ix>,
    done: &Vec<bool>,
    waiting: &mut Vec<usize>,
    queue: &mut Vec<Link<Ix>>,
    tail: usize,
) -> usize
    requires within { (m : ℕ) → HasNode (S.graph store.now) m → m < length waiting.old.items }
    requires room { length queue.old.items ≡ length waiting.old.items }
    requires low { tail ≤ length queue.old.items }
    requires done { IsSet done.now.items (Ix.number n) }
    requires counted { IsCounted (S.graph store.now) done.now.items
        (out_list (S.graph store.now) (Ix.number n)) waiting.old.items (take tail queue.old.items) }
    ensures counted { IsCounted (S.graph store.now) done.now.items [] waiting.new.items
        (take result queue.new.items) }
    ensures later { tail ≤ result }
    ensures low { result ≤ length queue.new.items }
    ensures kept { take tail queue.new.items ≡ take tail queue.old.items }
    ensures queued { take result queue.new.items ≡ take tail queue.old.items
        ++ each_last (filter (waits_for_none waiting.new.items)
        (children_of (S.graph store.now) (Ix.number n))) }
    ensures waiting_long { length waiting.new.items ≡ length waiting.old.items }
    ensures queue_long { length queue.new.items ≡ length queue.old.items }
{
    store.invariant();
    let mut at = tail;
    let end = EdgeIndex::<Ix>::end().index();
    let mut e = store.first_edge(n, Direction::Outgoing);
    'children: while e.index() != end {
        let ends = store.edge_endpoints(e);
        e = store.next_edge(e, Direction::Outgoing);
        if let Some((_parent, child)) = ends {
            let i = child.index();
            let count = waiting[i] - 1;
            waiting[i] = count;
            // Written in any case: a branch around it would often be mispredicted.
            queue[at] = Link::of_node(child);
            if count == 0 {
                at += 1;
            }
        }
    }
    at
}
