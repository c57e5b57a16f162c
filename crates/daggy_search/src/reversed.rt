//! A graph whose edges are read from child to parent.
ghost use Rattle.std.specs.Prelude.{◌≡◌, ◌+◌, ◌↔◌, IsTrue};
ghost use Rattle.daggy_base.specs.Graph.{HasNode, HasEdge, out_list, node_bound as node_bound_of};
ghost use Rattle.daggy_base.specs.Graph.{edge_bound as edge_bound_of};
ghost use Rattle.daggy_base.specs.WellFormed.{IsWellFormed};
ghost use Rattle.daggy_base.specs.Cursor.{first_of};
ghost use Rattle.daggy_base.specs.Look.{IsLook};
ghost use Rattle.daggy_search.specs.Reversed.{reversed};

use daggy_base::index::{Direction, EdgeIndex, IndexType, NodeIndex};
use daggy_base::looks::Looks;
use daggy_base::read_store::ReadStore;
use daggy_base::source::EdgeSource;
use std::marker::{Model, PhantomData};

/// A view of a store with all edges reversed, so that a search from a node finds the nodes that
/// reach it. It borrows the store. Nodes and edges have the same indices as in the store.
///
/// # Examples
///
/// ```
/// let mut graph: DiGraph<&'static str, ()> = DiGraph::new(rt.alloc());
/// let sow = graph.add_node("sow")?;
/// let reap = graph.add_node("reap")?;
/// let _edge = graph.add_edge(sow, reap, ())?;
/// let mut scratch = Scratch::new(rt.alloc());
/// scratch.reserve(graph.node_count(), 0)?;
/// // Against its edge, `reap` comes first.
/// assert!(rt; reaches(&mut Reversed::new(&graph), reap, sow, &mut scratch));
/// assert!(rt; !reaches(&mut Reversed::new(&graph), sow, reap, &mut scratch));
/// ```
#[derive(Drop)]
pub struct Reversed<'a, Ix: IndexType, S: ReadStore<Ix>> {
    store: &'a S,
    looks: Looks,
    // Only for the checker, which looks for the lifetimes of borrowed weights among the fields.
    index: PhantomData<Ix>,
    node_weight: PhantomData<S::NodeWeight>,
    edge_weight: PhantomData<S::EdgeWeight>,
}

impl<'a, Ix: IndexType, S: ReadStore<Ix>> Model for Reversed<'a, Ix, S> {
    ghost use Rattle.daggy_base.specs.State.{State};
    ghost use Rattle.daggy_search.specs.Reversed.{reversed};

    ghost Value = { State S.NodeWeight S.EdgeWeight };

    ghost view = { λ r. record { graph = reversed (S.graph r.store.now); looks = r.looks.count } };
}

impl<'a, Ix: IndexType, S: ReadStore<Ix>> Reversed<'a, Ix, S> {
    /// A view of `store` with all edges reversed, with a count of 0 edge reads.
    pub fn new(store: &'a S) -> Self
        ensures { result ≡ record { graph = reversed (S.graph store.now); looks = 0 } }
    {
        Reversed {
            store,
            looks: Looks::new(),
            index: PhantomData,
            node_weight: PhantomData,
            edge_weight: PhantomData,
        }
    }

    /// The number of edge reads.
    ///
    /// # Examples
    ///
    /// ```
    /// let mut graph: DiGraph<&'static str, ()> = DiGraph::new(rt.alloc());
    /// let sow = graph.add_node("sow")?;
    /// let mut scratch = Scratch::new(rt.alloc());
    /// scratch.reserve(graph.node_count(), 0)?;
    /// let mut source = Reversed::new(&graph);
    /// assert!(rt; reaches(&mut source, sow, sow, &mut scratch));
    /// // For contracts: the graph counts these edge reads as its own.
    /// let looks = source.into_looks();
    /// graph.count_looks(&looks);
    /// ```
    #[inline]
    pub fn into_looks(self) -> Looks
        ensures { result.count ≡ self.entry.looks }
    {
        let Reversed {
            store: _,
            looks,
            index: _,
            node_weight: _,
            edge_weight: _,
        } = self;
        looks
    }
}

impl<'a, Ix: IndexType, S: ReadStore<Ix>> EdgeSource<Ix> for Reversed<'a, Ix, S> {
    type NodeWeight = S::NodeWeight;

    type EdgeWeight = S::EdgeWeight;

    ghost graph = { λ s. s.graph };

    ghost looks = { λ s. s.looks };

    #[inline]
    fn node_bound(&self) -> usize
        ensures value { result ≡ node_bound_of self.now.graph }
        ensures well_formed { IsWellFormed Ix.greatest self.now.graph }
    {
        self.store.node_bound()
    }

    #[inline]
    fn edge_bound(&self) -> usize
        ensures { result ≡ edge_bound_of self.now.graph }
    {
        self.store.edge_bound()
    }

    #[inline]
    fn contains_node(&self, n: NodeIndex<Ix>) -> bool
        ensures exists { IsTrue result ↔ HasNode self.now.graph (Ix.number n) }
        ensures well_formed { IsWellFormed Ix.greatest self.now.graph }
    {
        self.store.contains_node(n)
    }

    #[inline]
    fn first(&self, n: NodeIndex<Ix>) -> EdgeIndex<Ix>
        ensures { Ix.number result ≡ first_of Ix.greatest (out_list self.now.graph (Ix.number n)) }
    {
        self.store.first_edge(n, Direction::Incoming)
    }

    #[inline]
    fn look(&mut self, e: EdgeIndex<Ix>) -> (NodeIndex<Ix>, EdgeIndex<Ix>)
        requires { HasEdge self.old.graph (Ix.number e) }
        ensures gives { IsLook Ix.greatest self.old.graph (Ix.number e) (Ix.number result.0)
            (Ix.number result.1) }
        ensures same { self.new.graph ≡ self.old.graph }
        ensures counted { self.new.looks ≡ self.old.looks + 1 }
    {
        self.looks.take();
        let next = self.store.next_edge(e, Direction::Incoming);
        let (parent, _) = self.store.edge_endpoints(e).unwrap();
        (parent, next)
    }

    #[inline]
    fn count_looks(&mut self, taken: &Looks)
        ensures same { self.new.graph ≡ self.old.graph }
        ensures counted { self.new.looks ≡ self.old.looks + taken.now.count }
    {
        self.looks.add(taken);
    }
}
