//! A store that is read through a shared borrow.
ghost use Rattle.std.specs.Prelude.{◌≡◌, ◌+◌, ◌↔◌, IsTrue};
ghost use Rattle.daggy_base.specs.Graph.{HasNode, HasEdge, out_list, node_bound as node_bound_of};
ghost use Rattle.daggy_base.specs.Graph.{edge_bound as edge_bound_of};
ghost use Rattle.daggy_base.specs.WellFormed.{IsWellFormed};
ghost use Rattle.daggy_base.specs.Cursor.{first_of};
ghost use Rattle.daggy_base.specs.Look.{IsLook};

use daggy_base::index::{Direction, EdgeIndex, IndexType, NodeIndex};
use daggy_base::looks::Looks;
use daggy_base::read_store::ReadStore;
use daggy_base::source::EdgeSource;
use std::marker::{Model, PhantomData};

/// A view of a store for searches, which borrows it. Edge reads are counted here, so the store does
/// not change.
///
/// # Examples
///
/// ```
/// let mut graph: DiGraph<&'static str, ()> = DiGraph::new(rt.alloc());
/// let sow = graph.add_node("sow")?;
/// let reap = graph.add_node("reap")?;
/// graph.add_edge(sow, reap, ())?;
/// let mut scratch = Scratch::new(rt.alloc());
/// scratch.reserve(graph.node_count(), 0)?;
/// let mut source = Reading::new(&graph);
/// assert!(rt; reaches(&mut source, sow, reap, &mut scratch));
/// // For contracts: the graph counts these edge reads as its own.
/// let looks = source.into_looks();
/// graph.count_looks(&looks);
/// ```
#[derive(Drop)]
pub struct Reading<'a, Ix: IndexType, S: ReadStore<Ix>> {
    store: &'a S,
    looks: Looks,
    // Only for the checker, which looks for the lifetimes of borrowed weights among the fields.
    index: PhantomData<Ix>,
    node_weight: PhantomData<S::NodeWeight>,
    edge_weight: PhantomData<S::EdgeWeight>,
}

impl<'a, Ix: IndexType, S: ReadStore<Ix>> Model for Reading<'a, Ix, S> {
    ghost use Rattle.daggy_base.specs.State.{State};

    ghost Value = { State S.NodeWeight S.EdgeWeight };

    ghost view = { λ r. record { graph = S.graph r.store.now; looks = r.looks.count } };
}

impl<'a, Ix: IndexType, S: ReadStore<Ix>> Reading<'a, Ix, S> {
    /// A view of `store`, with a count of 0 edge reads.
    pub fn new(store: &'a S) -> Self
        ensures { result ≡ record { graph = S.graph store.now; looks = 0 } }
    {
        Reading {
            store,
            looks: Looks::new(),
            index: PhantomData,
            node_weight: PhantomData,
            edge_weight: PhantomData,
        }
    }

    /// The store that is read.
    #[inline]
    pub fn store(&self) -> &'a S
        ensures { S.graph result.now ≡ self.now.graph }
    {
        self.store
    }

    /// The number of edge reads.
    #[inline]
    pub fn into_looks(self) -> Looks
        ensures { result.count ≡ self.entry.looks }
    {
        let Reading {
            store: _,
            looks,
            index: _,
            node_weight: _,
            edge_weight: _,
        } = self;
        looks
    }
}

impl<'a, Ix: IndexType, S: ReadStore<Ix>> EdgeSource<Ix> for Reading<'a, Ix, S> {
    type NodeWeight = S::NodeWeight;

    type EdgeWeight = S::EdgeWeight;

    ghost graph = { λ s. s.graph };

    ghost looks = { λ s. s.looks };

    #[inline]
    fn node_bound(&self) -> usize
        ensures value { result ≡ node_bound_of self.now.graph }
        ensures well_formed { IsWellFormed Ix.greatest self.now.graph }
    {
        self.store.node_bound()
    }

    #[inline]
    fn edge_bound(&self) -> usize
        ensures { result ≡ edge_bound_of self.now.graph }
    {
        self.store.edge_bound()
    }

    #[inline]
    fn contains_node(&self, n: NodeIndex<Ix>) -> bool
        ensures exists { IsTrue result ↔ HasNode self.now.graph (Ix.number n) }
        ensures well_formed { IsWellFormed Ix.greatest self.now.graph }
    {
        self.store.contains_node(n)
    }

    #[inline]
    fn first(&self, n: NodeIndex<Ix>) -> EdgeIndex<Ix>
        ensures { Ix.number result ≡ first_of Ix.greatest (out_list self.now.graph (Ix.number n)) }
    {
        self.store.first(n)
    }

    #[inline]
    fn look(&mut self, e: EdgeIndex<Ix>) -> (NodeIndex<Ix>, EdgeIndex<Ix>)
        requires { HasEdge self.old.graph (Ix.number e) }
        ensures gives { IsLook Ix.greatest self.old.graph (Ix.number e) (Ix.number result.0)
            (Ix.number result.1) }
        ensures same { self.new.graph ≡ self.old.graph }
        ensures counted { self.new.looks ≡ self.old.looks + 1 }
    {
        self.looks.take();
        let next = self.store.next_edge(e, Direction::Outgoing);
        let (_, child) = self.store.edge_endpoints(e).unwrap();
        (child, next)
    }

    #[inline]
    fn count_looks(&mut self, taken: &Looks)
        ensures same { self.new.graph ≡ self.old.graph }
        ensures counted { self.new.looks ≡ self.old.looks + taken.now.count }
    {
        self.looks.add(taken);
    }
}
