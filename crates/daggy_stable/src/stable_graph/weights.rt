//! Reading and writing weights.
ghost use Rattle.std.specs.Prelude.{◌≡◌, Some, option_copied};
ghost use Rattle.std.specs.Borrow.{sem};
ghost use Rattle.std.specs.Option.{option_map, option_copied_mut};
ghost use Rattle.daggy_base.specs.Graph.{node_weight as weight_at, edge_at, HasNode, HasEdge};
ghost use Rattle.daggy_base.specs.State.{with_graph};
ghost use Rattle.daggy_base.specs.Weights.{with_edge_weight};
ghost use Rattle.daggy_stable.specs.Lends.{lends_node, lends_node_if, lends_edge, lends_edge_if};

use crate::stable_graph::StableDiGraph;
use daggy_base::index::{EdgeIndex, IndexType, NodeIndex};
use std::mem;
use std::ops::{Index, IndexMut};

impl<N, E, Ix: IndexType> StableDiGraph<N, E, Ix> {
    /// The weight of a node, if the node exists.
    #[inline]
    pub fn node_weight(&self, n: NodeIndex<Ix>) -> Option<&N>
        ensures { option_copied result ≡ weight_at self.now.graph (Ix.number n) }
    {
        match self.nodes.get(n.index()) {
            Some(x) => x.weight.as_ref(),
            None => None,
        }
    }

    /// The weight of an edge, if the edge exists.
    #[inline]
    pub fn edge_weight(&self, e: EdgeIndex<Ix>) -> Option<&E>
        ensures { option_copied result
            ≡ option_map (λ x. x.weight) (edge_at self.now.graph (Ix.number e)) }
    {
        match self.edges.get(e.index()) {
            Some(x) => x.weight.as_ref(),
            None => None,
        }
    }

    /// A mutable reference to the weight of a node, if the node exists.
    #[inline]
    pub fn node_weight_mut(&mut self, n: NodeIndex<Ix>) -> Option<&mut N>
        ensures* writes_back { sem 𝓛
            (lends_node_if N.row E.row Ix.row Ix.IndexType self.entry n result) }
        ensures value { option_copied_mut result ≡ weight_at self.old.graph (Ix.number n) }
    {
        if self.contains_node(n) {
            Some(self.node_mut(n))
        } else {
            None
        }
    }

    /// A mutable reference to the weight of an edge, if the edge exists.
    #[inline]
    pub fn edge_weight_mut(&mut self, e: EdgeIndex<Ix>) -> Option<&mut E>
        ensures* writes_back { sem 𝓛
            (lends_edge_if N.row E.row Ix.row Ix.IndexType self.entry e result) }
        ensures value { option_copied_mut result
            ≡ option_map (λ x. x.weight) (edge_at self.old.graph (Ix.number e)) }
    {
        if self.contains_edge_index(e) {
            Some(self.edge_mut(e))
        } else {
            None
        }
    }

    #[inline]
    fn node_mut(&mut self, n: NodeIndex<Ix>) -> &mut N
        requires { HasNode self.old.graph (Ix.number n) }
        ensures* writes_back { sem 𝓛
            (lends_node N.row E.row Ix.row Ix.IndexType self.entry n result) }
        ensures value { weight_at self.old.graph (Ix.number n) ≡ Some result.now }
    {
        let x = &mut self.nodes[n.index()];
        x.weight.as_mut().unwrap()
    }

    #[inline]
    fn edge_mut(&mut self, e: EdgeIndex<Ix>) -> &mut E
        requires { HasEdge self.old.graph (Ix.number e) }
        ensures* writes_back { sem 𝓛
            (lends_edge N.row E.row Ix.row Ix.IndexType self.entry e result) }
        ensures value { option_map (λ x. x.weight) (edge_at self.old.graph (Ix.number e))
            ≡ Some result.now }
    {
        let x = &mut self.edges[e.index()];
        x.weight.as_mut().unwrap()
    }

    /// Replaces the weight of an edge, and returns the old one.
    ///
    /// # Requires
    ///
    /// - `e` is an edge of the graph. Test: `contains_edge_index(e)`.
    ///
    /// # Examples
    ///
    /// ```
    /// let mut graph: StableDiGraph<&'static str, u32> = StableDiGraph::new(rt.alloc());
    /// let sow = graph.add_node("sow")?;
    /// let days = graph.add_edge(sow, sow, 90)?;
    /// assert!(rt; graph.replace_edge_weight(days, 80) == 90);
    /// assert!(rt; graph.edge_weight(days) == Some(&80));
    /// ```
    #[inline]
    pub fn replace_edge_weight(&mut self, e: EdgeIndex<Ix>, weight: E) -> E
        requires { HasEdge self.old.graph (Ix.number e) }
        ensures value { option_map (λ x. x.weight) (edge_at self.old.graph (Ix.number e))
            ≡ Some result }
        ensures replaced { self.new
            ≡ with_graph self.old (with_edge_weight self.old.graph (Ix.number e) weight) }
    {
        mem::replace(self.edge_mut(e), weight)
    }
}

impl<N, E, Ix: IndexType> Index<NodeIndex<Ix>> for StableDiGraph<N, E, Ix> {
    type Output = N;

    ghost can_index = { λ s n. HasNode s.graph (Ix.number n) };

    ghost index_gives = { λ s n w. weight_at s.graph (Ix.number n) ≡ Some w };

    /// # Examples
    ///
    /// ```
    /// let mut graph: StableDiGraph<u32, u32> = StableDiGraph::new(rt.alloc());
    /// let n = graph.add_node(3)?;
    /// graph[n] = 4;
    /// assert!(rt; graph[n] == 4);
    /// ```
    #[inline]
    fn index(&self, n: NodeIndex<Ix>) -> &N {
        self.node_weight(n).unwrap()
    }
}

impl<N, E, Ix: IndexType> Index<EdgeIndex<Ix>> for StableDiGraph<N, E, Ix> {
    type Output = E;

    ghost can_index = { λ s e. HasEdge s.graph (Ix.number e) };

    ghost index_gives = { λ s e w.
        option_map (λ x. x.weight) (edge_at s.graph (Ix.number e)) ≡ Some w };

    /// # Examples
    ///
    /// ```
    /// let mut graph: StableDiGraph<u32, u32> = StableDiGraph::new(rt.alloc());
    /// let n = graph.add_node(3)?;
    /// let e = graph.add_edge(n, n, 5)?;
    /// graph[e] = 6;
    /// assert!(rt; graph[e] == 6);
    /// ```
    #[inline]
    fn index(&self, e: EdgeIndex<Ix>) -> &E {
        self.edge_weight(e).unwrap()
    }
}

impl<N, E, Ix: IndexType> IndexMut<NodeIndex<Ix>> for StableDiGraph<N, E, Ix> {
    #[inline]
    fn index_mut(&mut self, n: NodeIndex<Ix>) -> &mut N
        requires { HasNode self.old.graph (Ix.number n) }
        ensures* writes_back { sem 𝓛
            (lends_node N.row E.row Ix.row Ix.IndexType self.entry n result) }
        ensures value { weight_at self.old.graph (Ix.number n) ≡ Some result.now }
    {
        self.node_mut(n)
    }
}

impl<N, E, Ix: IndexType> IndexMut<EdgeIndex<Ix>> for StableDiGraph<N, E, Ix> {
    #[inline]
    fn index_mut(&mut self, e: EdgeIndex<Ix>) -> &mut E
        requires { HasEdge self.old.graph (Ix.number e) }
        ensures* writes_back { sem 𝓛
            (lends_edge N.row E.row Ix.row Ix.IndexType self.entry e result) }
        ensures value { option_map (λ x. x.weight) (edge_at self.old.graph (Ix.number e))
            ≡ Some result.now }
    {
        self.edge_mut(e)
    }
}
