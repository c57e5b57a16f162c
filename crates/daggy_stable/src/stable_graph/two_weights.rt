//! Mutable access to two weights at once.
ghost use Rattle.std.specs.Prelude.{◌≡◌, ◌≢◌, Option, IsSome, Some};
ghost use Rattle.daggy_base.specs.Graph.{node_weight as weight_at, HasNode, HasEdge};
ghost use Rattle.daggy_base.specs.State.{with_graph};
ghost use Rattle.daggy_base.specs.Weights.{edge_weight as edge_weight_of, with_node_weight};
ghost use Rattle.daggy_base.specs.Weights.{with_edge_weight};
ghost use Rattle.daggy_base.specs.Calls.{TakesAtTwo, CalledAtTwo};
ghost use Rattle.daggy_cells.specs.Cells.{node_of_weight, edge_of_weight};

use crate::stable_graph::StableDiGraph;
use daggy_base::index::{EdgeIndex, IndexType, NodeIndex};
use daggy_cells::cell::{Edge, Node};
use daggy_cells::two_cells::at_two;

impl<N, E, Ix: IndexType> StableDiGraph<N, E, Ix> {
    /// Calls `f` with mutable references to the weights of two nodes, and returns its result.
    ///
    /// # Requires
    ///
    /// - `first`: `a` is a node of the graph. Test: `contains_node(a)`.
    /// - `second`: `b` is a node of the graph. Test: `contains_node(b)`.
    /// - `different`: `a` and `b` are not the same index. Test: `a != b`.
    /// - `callable`: `f` may be called with these two weights.
    ///
    /// # Complexity
    ///
    /// O(1), plus the call.
    #[inline]
    pub fn update_two_nodes<R, F: FnOnce(&mut N, &mut N) -> R>(
        &mut self,
        a: NodeIndex<Ix>,
        b: NodeIndex<Ix>,
        f: F,
    ) -> R
        requires first { HasNode self.old.graph (Ix.number a) }
        requires second { HasNode self.old.graph (Ix.number b) }
        requires different { Ix.number a ≢ Ix.number b }
        requires callable { TakesAtTwo F.FnOnce f (weight_at self.old.graph (Ix.number a))
            (weight_at self.old.graph (Ix.number b)) }
        ensures { CalledAtTwo F.FnOnce f (weight_at self.old.graph (Ix.number a))
            (weight_at self.old.graph (Ix.number b)) result
            (λ v w. with_graph self.old
            (with_node_weight (with_node_weight self.old.graph (Ix.number a) v) (Ix.number b) w))
            self.new }
    {
        at_two(
            self.nodes.as_mut_slice(),
            a.index(),
            b.index(),
            |x: &mut Node<Option<N>, Ix>, y: &mut Node<Option<N>, Ix>|
                requires { IsSome x.old.weight × IsSome y.old.weight
                    × TakesAtTwo F.FnOnce f x.old.weight y.old.weight }
                ensures { CalledAtTwo F.FnOnce f x.old.weight y.old.weight
                    {S = Option N × Option N} result (λ v w. (Some v, Some w))
                    (x.new.weight, y.new.weight)
                    × (x.new ≡ node_of_weight x.new.weight x.old)
                    × (y.new ≡ node_of_weight y.new.weight y.old) }
            { at_pair(&mut x.weight, &mut y.weight, f) },
        )
    }

    /// Calls `f` with mutable references to the weights of two edges, and returns its result.
    ///
    /// # Requires
    ///
    /// - `first`: `a` is an edge of the graph. Test: `contains_edge_index(a)`.
    /// - `second`: `b` is an edge of the graph. Test: `contains_edge_index(b)`.
    /// - `different`: `a` and `b` are not the same index. Test: `a != b`.
    /// - `callable`: `f` may be called with these two weights.
    ///
    /// # Complexity
    ///
    /// O(1), plus the call.
    #[inline]
    pub fn update_two_edges<R, F: FnOnce(&mut E, &mut E) -> R>(
        &mut self,
        a: EdgeIndex<Ix>,
        b: EdgeIndex<Ix>,
        f: F,
    ) -> R
        requires first { HasEdge self.old.graph (Ix.number a) }
        requires second { HasEdge self.old.graph (Ix.number b) }
        requires different { Ix.number a ≢ Ix.number b }
        requires callable { TakesAtTwo F.FnOnce f (edge_weight_of self.old.graph (Ix.number a))
            (edge_weight_of self.old.graph (Ix.number b)) }
        ensures { CalledAtTwo F.FnOnce f (edge_weight_of self.old.graph (Ix.number a))
            (edge_weight_of self.old.graph (Ix.number b)) result
            (λ v w. with_graph self.old
            (with_edge_weight (with_edge_weight self.old.graph (Ix.number a) v) (Ix.number b) w))
            self.new }
    {
        at_two(
            self.edges.as_mut_slice(),
            a.index(),
            b.index(),
            |x: &mut Edge<Option<E>, Ix>, y: &mut Edge<Option<E>, Ix>|
                requires { IsSome x.old.weight × IsSome y.old.weight
                    × TakesAtTwo F.FnOnce f x.old.weight y.old.weight }
                ensures { CalledAtTwo F.FnOnce f x.old.weight y.old.weight
                    {S = Option E × Option E} result (λ v w. (Some v, Some w))
                    (x.new.weight, y.new.weight)
                    × (x.new ≡ edge_of_weight x.new.weight x.old)
                    × (y.new ≡ edge_of_weight y.new.weight y.old) }
            { at_pair(&mut x.weight, &mut y.weight, f) },
        )
    }

    /// Calls `f` with mutable references to the weights of a node and an edge, and returns its
    /// result.
    ///
    /// # Requires
    ///
    /// - `node`: `n` is a node of the graph. Test: `contains_node(n)`.
    /// - `edge`: `e` is an edge of the graph. Test: `contains_edge_index(e)`.
    /// - `callable`: `f` may be called with these two weights.
    ///
    /// # Complexity
    ///
    /// O(1), plus the call.
    #[inline]
    pub fn update_node_and_edge<R, F: FnOnce(&mut N, &mut E) -> R>(
        &mut self,
        n: NodeIndex<Ix>,
        e: EdgeIndex<Ix>,
        f: F,
    ) -> R
        requires node { HasNode self.old.graph (Ix.number n) }
        requires edge { HasEdge self.old.graph (Ix.number e) }
        requires callable { TakesAtTwo F.FnOnce f (weight_at self.old.graph (Ix.number n))
            (edge_weight_of self.old.graph (Ix.number e)) }
        ensures { CalledAtTwo F.FnOnce f (weight_at self.old.graph (Ix.number n))
            (edge_weight_of self.old.graph (Ix.number e)) result
            (λ v w. with_graph self.old
            (with_edge_weight (with_node_weight self.old.graph (Ix.number n) v) (Ix.number e) w))
            self.new }
    {
        let x = &mut self.nodes[n.index()];
        let y = &mut self.edges[e.index()];
        at_slots(&mut x.weight, &mut y.weight, f)
    }
}

// Calls `f` with the weights in two slots.
#[inline]
fn at_slots<V, W, R, F: FnOnce(&mut V, &mut W) -> R>(
    x: &mut Option<V>,
    y: &mut Option<W>,
    f: F,
) -> R
    requires first { IsSome x.old }
    requires second { IsSome y.old }
    requires callable { TakesAtTwo F.FnOnce f x.old y.old }
    ensures { CalledAtTwo F.FnOnce f x.old y.old {S = Option V × Option W} result
        (λ v w. (Some v, Some w)) (x.new, y.new) }
{
    let v = x.as_mut().unwrap();
    let w = y.as_mut().unwrap();
    f(v, w)
}

// The same for two slots of one type: a closure bound over one type does not satisfy a bound over
// two.
#[inline]
fn at_pair<W, R, F: FnOnce(&mut W, &mut W) -> R>(x: &mut Option<W>, y: &mut Option<W>, f: F) -> R
    requires first { IsSome x.old }
    requires second { IsSome y.old }
    requires callable { TakesAtTwo F.FnOnce f x.old y.old }
    ensures { CalledAtTwo F.FnOnce f x.old y.old {S = Option W × Option W} result
        (λ v w. (Some v, Some w)) (x.new, y.new) }
{
    let v = x.as_mut().unwrap();
    let w = y.as_mut().unwrap();
    f(v, w)
}
