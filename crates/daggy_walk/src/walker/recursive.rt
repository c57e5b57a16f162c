//! Walks in which a closure chooses each edge.
ghost use Rattle.std.specs.Prelude.{◌≡◌};
ghost use Rattle.daggy_walk.specs.Leading.{LeadsOn, RecursiveStep};
ghost use Rattle.daggy_walk.specs.Parts.{recursive_node, recursive_function};

use crate::walker::Walker;
use daggy_visit::visit::GraphBase;
use std::marker::PhantomData;

/// A walk in which a closure chooses the next node in each step.
///
/// If the closure returns `None`, the walk yields `None` and stays at its node; the next step calls
/// the closure again. It may never end, so it is not a
/// [`FiniteWalker`](crate::walker::FiniteWalker).
///
/// # Examples
///
/// ```
/// let mut dag: Dag<u32, ()> = Dag::new(rt.alloc());
/// let sow = dag.add_node(1)?;
/// let (_, hoe) = dag.add_child(sow, (), 2)?;
/// let (_, reap) = dag.add_child(hoe, (), 3)?;
///
/// // Up to a node without parents.
/// let mut walk = Recursive::new(reap, |dag: &Dag<u32, ()>, n| {
///     dag.parents(n).walk_next(dag)
/// });
/// assert!(rt; walk.next(&dag).is_some_and(|step| step.1 == hoe));
/// assert!(rt; walk.next(&dag).is_some_and(|step| step.1 == sow));
/// assert!(rt; walk.next(&dag).is_none());
/// ```
pub type Recursive<G, F> = Led<G, <G as GraphBase>::NodeId, F>;

/// The type behind [`Recursive`], spelled out because an alias cannot have methods: write
/// `Recursive<G, F>`. `N` is the type that identifies nodes.
#[derive(Drop)]
#[derive_where(Clone, Copy, Debug; N, F)]
pub struct Led<G, N, F> {
    node: N,
    f: F,
    graph: PhantomData<G>,
}

impl<G, N, F> Led<G, N, F> {
    /// A walk from `start` along the edges that `f` chooses.
    #[inline]
    pub fn new(start: N, f: F) -> Self
        ensures node { recursive_node result ≡ start }
        ensures function { recursive_function result ≡ f }
    {
        Led {
            node: start,
            f,
            graph: PhantomData,
        }
    }
}

impl<G: GraphBase, F> Led<G, G::NodeId, F>
where
    F: FnMut(&G, G::NodeId) -> Option<(G::EdgeId, G::NodeId)>,
{
    /// Takes one step, and returns the edge and the node that the closure chose.
    /// [`Walker::walk_next`] does the same, for code that takes any walker.
    ///
    /// # Requires
    ///
    /// - The closure may be called with every node that the walk can reach.
    ///
    /// # Complexity
    ///
    /// One call of the closure.
    #[inline]
    pub fn next(&mut self, graph: &G) -> Option<(G::EdgeId, G::NodeId)>
        requires { LeadsOn F.FnMut graph.now (recursive_node self.old)
            (recursive_function self.old) }
        ensures step { RecursiveStep F.FnMut graph.now
            (recursive_node self.old) (recursive_function self.old) result (recursive_node self.new)
            (recursive_function self.new) }
        ensures can { LeadsOn F.FnMut graph.now (recursive_node self.new)
            (recursive_function self.new) }
    {
        let (edge, node) = (self.f)(graph, self.node)?;
        self.node = node;
        Some((edge, node))
    }
}

impl<G: GraphBase, F> Walker<G> for Led<G, G::NodeId, F>
where
    F: FnMut(&G, G::NodeId) -> Option<(G::EdgeId, G::NodeId)>,
{
    type Item = (G::EdgeId, G::NodeId);

    ghost can_walk = { λ s g. LeadsOn F.FnMut g (recursive_node s) (recursive_function s) };

    ghost walk_gives = { λ s g r t. RecursiveStep F.FnMut g
        (recursive_node s) (recursive_function s) r (recursive_node t) (recursive_function t) };

    #[inline]
    fn walk_next(&mut self, graph: &G) -> Option<(G::EdgeId, G::NodeId)> {
        self.next(graph)
    }
}
