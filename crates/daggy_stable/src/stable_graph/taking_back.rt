//! Undoing additions.
ghost use Rattle.std.specs.Prelude.{◌≡◌, ◌+◌, IsTrue, true, Some, [], length};
ghost use Rattle.daggy_base.specs.declared.index.Direction.{Direction};
ghost use Rattle.daggy_base.specs.Graph.{node_weight, HasNode, HasEdge, list_at};
ghost use Rattle.daggy_base.specs.Weights.{edge_weight};
ghost use Rattle.daggy_base.specs.TakingBack.{with_edge_taken_back, with_node_taken_back};
ghost use Rattle.daggy_base.specs.TakingBack.{UndoesEdge, UndoesNode};
ghost use Rattle.daggy_base.specs.State.{with_graph};

use crate::stable_graph::StableDiGraph;
use crate::stable_graph::removal::unlink;
use daggy_base::index::{EdgeIndex, IndexType, NodeIndex};
use daggy_base::link::Link;

impl<N, E, Ix: IndexType> StableDiGraph<N, E, Ix> {
    /// Undoes the addition of an edge, and returns its weight. The slot is removed if it was new
    /// (`made`), and vacated otherwise.
    ///
    /// # Requires
    ///
    /// - `exists`: `e` is an edge of the graph. Test: `contains_edge_index(e)`.
    /// - `last`: If `made` is true, `e` is in the last edge slot.
    ///
    /// # Complexity
    ///
    /// O(edges before it in its two lists), so O(1) for the edge added last. Does not allocate.
    ///
    /// # Examples
    ///
    /// ```
    /// let mut graph: StableDiGraph<&'static str, u32> = StableDiGraph::new(rt.alloc());
    /// let sow = graph.add_node("sow")?;
    /// let days = graph.add_edge(sow, sow, 90)?;
    /// assert!(rt; graph.take_back_edge(days, true) == 90);
    /// assert!(rt; graph.edge_slots() == 0);
    /// ```
    pub fn take_back_edge(&mut self, e: EdgeIndex<Ix>, made: bool) -> E
        requires exists { HasEdge self.old.graph (Ix.number e) }
        requires last { IsTrue made → Ix.number e + 1 ≡ length self.old.graph.edges }
        ensures gives { edge_weight self.old.graph (Ix.number e) ≡ Some result }
        ensures removed { self.new
            ≡ with_graph self.old (with_edge_taken_back made self.old.graph (Ix.number e)) }
        ensures undone { UndoesEdge Ix.greatest made self.old.graph (Ix.number e) self.new.graph }
    {
        if made {
            return self.cut_edge(e).unwrap();
        }
        self.vacate_edge(e).unwrap()
    }

    // Unlinks the edge in the last slot from its two lists, and removes the slot.
    fn cut_edge(&mut self, e: EdgeIndex<Ix>) -> Option<E>
        requires exists { HasEdge self.old.graph (Ix.number e) }
        requires last { Ix.number e + 1 ≡ length self.old.graph.edges }
        ensures value { result ≡ edge_weight self.old.graph (Ix.number e) }
        ensures removed { self.new
            ≡ with_graph self.old (with_edge_taken_back true self.old.graph (Ix.number e)) }
    {
        unlink(&mut self.nodes, &mut self.edges, Link::of_edge(e));
        self.edge_count -= 1;
        let x = self.edges.pop().unwrap();
        x.weight
    }

    /// Undoes the addition of a node without edges, and returns its weight. The slot is removed if
    /// it was new (`made`), and vacated otherwise.
    ///
    /// # Requires
    ///
    /// - `exists`: `n` is a node of the graph. Test: `contains_node(n)`.
    /// - `no_edges`: `n` has no edges.
    /// - `last`: If `made` is true, `n` is in the last node slot.
    ///
    /// # Complexity
    ///
    /// O(1). Does not allocate.
    ///
    /// # Examples
    ///
    /// ```
    /// let mut graph: StableDiGraph<&'static str, u32> = StableDiGraph::new(rt.alloc());
    /// let sow = graph.add_node("sow")?;
    /// assert!(rt; graph.take_back_node(sow, true) == "sow");
    /// assert!(rt; graph.node_slots() == 0);
    /// ```
    pub fn take_back_node(&mut self, n: NodeIndex<Ix>, made: bool) -> N
        requires exists { HasNode self.old.graph (Ix.number n) }
        requires no_edges { (dir : Direction) → list_at dir self.old.graph (Ix.number n) ≡ [] }
        requires last { IsTrue made → Ix.number n + 1 ≡ length self.old.graph.nodes }
        ensures gives { node_weight self.old.graph (Ix.number n) ≡ Some result }
        ensures removed { self.new
            ≡ with_graph self.old (with_node_taken_back made self.old.graph (Ix.number n)) }
        ensures undone { UndoesNode Ix.greatest made self.old.graph (Ix.number n) self.new.graph }
    {
        if made {
            return self.cut_node(n).unwrap();
        }
        self.vacate_node(n).unwrap()
    }

    // Removes the last slot, which holds a node without edges.
    fn cut_node(&mut self, n: NodeIndex<Ix>) -> Option<N>
        requires exists { HasNode self.old.graph (Ix.number n) }
        requires no_edges { (dir : Direction) → list_at dir self.old.graph (Ix.number n) ≡ [] }
        requires last { Ix.number n + 1 ≡ length self.old.graph.nodes }
        ensures value { result ≡ node_weight self.old.graph (Ix.number n) }
        ensures removed { self.new
            ≡ with_graph self.old (with_node_taken_back true self.old.graph (Ix.number n)) }
    {
        let _number = n.index();
        self.node_count -= 1;
        let x = self.nodes.pop().unwrap();
        x.weight
    }
}
