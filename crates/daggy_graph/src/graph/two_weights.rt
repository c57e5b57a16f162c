//! Mutable access to two weights at once.
ghost use Rattle.std.specs.Prelude.{◌≢◌, Some};
ghost use Rattle.daggy_base.specs.Graph.{node_weight as weight_at, HasNode, HasEdge};
ghost use Rattle.daggy_base.specs.State.{with_graph};
ghost use Rattle.daggy_base.specs.Weights.{edge_weight as edge_weight_of, with_node_weight};
ghost use Rattle.daggy_base.specs.Weights.{with_edge_weight};
ghost use Rattle.daggy_base.specs.Calls.{TakesAtTwo, CalledAtTwo};
ghost use Rattle.daggy_cells.specs.declared.cell.Node.{Node};
ghost use Rattle.daggy_cells.specs.declared.cell.Edge.{Edge};
ghost use Rattle.daggy_cells.specs.Cells.{node_of_weight, edge_of_weight};

use crate::graph::{DiGraph, Edge, Node};
use daggy_base::index::{EdgeIndex, IndexType, NodeIndex};
use daggy_cells::two_cells::at_two;

impl<N, E, Ix: IndexType> DiGraph<N, E, Ix> {
    /// Calls `f` with mutable references to the weights of two nodes, and returns its result.
    ///
    /// # Requires
    ///
    /// - `first`: `a` is a node of the graph. Test: `contains_node(a)`.
    /// - `second`: `b` is a node of the graph. Test: `contains_node(b)`.
    /// - `different`: `a` and `b` are not the same index. Test: `a != b`.
    /// - `callable`: `f` may be called with these two weights.
    ///
    /// # Complexity
    ///
    /// O(1), plus the call.
    ///
    /// # Examples
    ///
    /// ```
    /// let mut graph: DiGraph<u32, ()> = DiGraph::new(rt.alloc());
    /// let from = graph.add_node(10)?;
    /// let to = graph.add_node(1)?;
    /// if from != to {
    ///     graph.update_two_nodes(from, to, |a, b| std::mem::swap(a, b));
    /// }
    /// assert!(rt; graph.node_weight(from) == Some(&1));
    /// assert!(rt; graph.node_weight(to) == Some(&10));
    /// ```
    #[inline]
    pub fn update_two_nodes<R, F: FnOnce(&mut N, &mut N) -> R>(
        &mut self,
        a: NodeIndex<Ix>,
        b: NodeIndex<Ix>,
        f: F,
    ) -> R
        requires first { HasNode self.old.graph (Ix.number a) }
        requires second { HasNode self.old.graph (Ix.number b) }
        requires different { Ix.number a ≢ Ix.number b }
        requires callable { TakesAtTwo F.FnOnce f (weight_at self.old.graph (Ix.number a))
            (weight_at self.old.graph (Ix.number b)) }
        ensures { CalledAtTwo F.FnOnce f (weight_at self.old.graph (Ix.number a))
            (weight_at self.old.graph (Ix.number b)) result
            (λ v w. with_graph self.old
            (with_node_weight (with_node_weight self.old.graph (Ix.number a) v) (Ix.number b) w))
            self.new }
    {
        at_two(
            self.nodes.as_mut_slice(),
            a.index(),
            b.index(),
            |x: &mut Node<N, Ix>, y: &mut Node<N, Ix>|
                requires { TakesAtTwo F.FnOnce f (Some x.old.weight) (Some y.old.weight) }
                ensures { CalledAtTwo F.FnOnce f (Some x.old.weight) (Some y.old.weight)
                    {S = Node N Ix × Node N Ix} result
                    (λ v w. (node_of_weight v x.old, node_of_weight w y.old)) (x.new, y.new) }
            { f(&mut x.weight, &mut y.weight) },
        )
    }

    /// Calls `f` with mutable references to the weights of two edges, and returns its result.
    ///
    /// # Requires
    ///
    /// - `first`: `a` is an edge of the graph. Test: `contains_edge_index(a)`.
    /// - `second`: `b` is an edge of the graph. Test: `contains_edge_index(b)`.
    /// - `different`: `a` and `b` are not the same index. Test: `a != b`.
    /// - `callable`: `f` may be called with these two weights.
    ///
    /// # Complexity
    ///
    /// O(1), plus the call.
    ///
    /// # Examples
    ///
    /// ```
    /// let mut graph: DiGraph<&'static str, u32> = DiGraph::new(rt.alloc());
    /// let sow = graph.add_node("sow")?;
    /// let days = graph.add_edge(sow, sow, 90)?;
    /// let more = graph.add_edge(sow, sow, 30)?;
    /// if days != more {
    ///     graph.update_two_edges(days, more, |a, b| std::mem::swap(a, b));
    /// }
    /// assert!(rt; graph.edge_weight(days) == Some(&30));
    /// ```
    #[inline]
    pub fn update_two_edges<R, F: FnOnce(&mut E, &mut E) -> R>(
        &mut self,
        a: EdgeIndex<Ix>,
        b: EdgeIndex<Ix>,
        f: F,
    ) -> R
        requires first { HasEdge self.old.graph (Ix.number a) }
        requires second { HasEdge self.old.graph (Ix.number b) }
        requires different { Ix.number a ≢ Ix.number b }
        requires callable { TakesAtTwo F.FnOnce f (edge_weight_of self.old.graph (Ix.number a))
            (edge_weight_of self.old.graph (Ix.number b)) }
        ensures { CalledAtTwo F.FnOnce f (edge_weight_of self.old.graph (Ix.number a))
            (edge_weight_of self.old.graph (Ix.number b)) result
            (λ v w. with_graph self.old
            (with_edge_weight (with_edge_weight self.old.graph (Ix.number a) v) (Ix.number b) w))
            self.new }
    {
        at_two(
            self.edges.as_mut_slice(),
            a.index(),
            b.index(),
            |x: &mut Edge<E, Ix>, y: &mut Edge<E, Ix>|
                requires { TakesAtTwo F.FnOnce f (Some x.old.weight) (Some y.old.weight) }
                ensures { CalledAtTwo F.FnOnce f (Some x.old.weight) (Some y.old.weight)
                    {S = Edge E Ix × Edge E Ix} result
                    (λ v w. (edge_of_weight v x.old, edge_of_weight w y.old)) (x.new, y.new) }
            { f(&mut x.weight, &mut y.weight) },
        )
    }

    /// Calls `f` with mutable references to the weights of a node and an edge, and returns its
    /// result.
    ///
    /// # Requires
    ///
    /// - `node`: `n` is a node of the graph. Test: `contains_node(n)`.
    /// - `edge`: `e` is an edge of the graph. Test: `contains_edge_index(e)`.
    /// - `callable`: `f` may be called with these two weights.
    ///
    /// # Complexity
    ///
    /// O(1), plus the call.
    ///
    /// # Examples
    ///
    /// ```
    /// let mut graph: DiGraph<u32, u32> = DiGraph::new(rt.alloc());
    /// let sow = graph.add_node(1)?;
    /// let days = graph.add_edge(sow, sow, 90)?;
    /// graph.update_node_and_edge(sow, days, |weight, days| *weight = *days);
    /// assert!(rt; graph.node_weight(sow) == Some(&90));
    /// ```
    #[inline]
    pub fn update_node_and_edge<R, F: FnOnce(&mut N, &mut E) -> R>(
        &mut self,
        n: NodeIndex<Ix>,
        e: EdgeIndex<Ix>,
        f: F,
    ) -> R
        requires node { HasNode self.old.graph (Ix.number n) }
        requires edge { HasEdge self.old.graph (Ix.number e) }
        requires callable { TakesAtTwo F.FnOnce f (weight_at self.old.graph (Ix.number n))
            (edge_weight_of self.old.graph (Ix.number e)) }
        ensures { CalledAtTwo F.FnOnce f (weight_at self.old.graph (Ix.number n))
            (edge_weight_of self.old.graph (Ix.number e)) result
            (λ v w. with_graph self.old
            (with_edge_weight (with_node_weight self.old.graph (Ix.number n) v) (Ix.number e) w))
            self.new }
    {
        let x = &mut self.nodes[n.index()];
        let y = &mut self.edges[e.index()];
        f(&mut x.weight, &mut y.weight)
    }
}
