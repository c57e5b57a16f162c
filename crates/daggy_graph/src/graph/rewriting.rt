//! Mutable access to all weights by a closure.
ghost use Rattle.std.specs.Prelude.{◌≡◌, ◌≤◌, length, map};
ghost use Rattle.daggy_base.specs.declared.index.Direction.{Direction};
ghost use Rattle.daggy_base.specs.Mapping.{MapsSlots, weight_in, with_weight};
ghost use Rattle.daggy_base.specs.CallsInTurn.{CanCallAtSlots, TakesToWrite};
ghost use Rattle.daggy_base.specs.CallsInTurn.{CanLendNodes, CanLendEdges};
ghost use Rattle.daggy_cells.specs.Fields.{weight_of, plain_edge, firsts_of, nexts_of, ends_of};
ghost use Rattle.daggy_base.specs.Rewriting.{Leaves, RewritesNodes, RewritesEdges};

use crate::graph::{DiGraph, Edge, Node};
use daggy_base::index::{EdgeIndex, IndexType, NodeIndex};

impl<N, E, Ix: IndexType> DiGraph<N, E, Ix> {
    /// Calls `f` with each node in ascending index order and a mutable reference to its weight.
    ///
    /// # Requires
    ///
    /// - `f` may be called with each node and a mutable reference to its weight, in ascending index
    ///   order.
    ///
    /// # Complexity
    ///
    /// O(nodes), plus the calls.
    pub fn update_node_weights<F: FnMut(NodeIndex<Ix>, &mut N)>(&mut self, f: F)
        requires { CanLendNodes Ix.of F.pre F.step f self.old.graph }
        ensures written { RewritesNodes Ix.of F.step f self.old.graph self.new.graph }
        ensures looks { self.new.looks ≡ self.old.looks }
    {
        write_nodes(&mut self.nodes, f);
    }

    /// Calls `f` with each edge in ascending index order and a mutable reference to its weight.
    ///
    /// # Requires
    ///
    /// - `f` may be called with each edge and a mutable reference to its weight, in ascending index
    ///   order.
    ///
    /// # Complexity
    ///
    /// O(edges), plus the calls.
    ///
    /// # Examples
    ///
    /// ```
    /// let mut graph: DiGraph<&'static str, u32> = DiGraph::new(rt.alloc());
    /// let sow = graph.add_node("sow")?;
    /// let days = graph.add_edge(sow, sow, 90)?;
    /// graph.update_edge_weights(|_, weight| *weight = 30);
    /// assert!(rt; graph.edge_weight(days) == Some(&30));
    /// ```
    pub fn update_edge_weights<F: FnMut(EdgeIndex<Ix>, &mut E)>(&mut self, f: F)
        requires { CanLendEdges Ix.of F.pre F.step f self.old.graph }
        ensures written { RewritesEdges Ix.of F.step f self.old.graph self.new.graph }
        ensures looks { self.new.looks ≡ self.old.looks }
    {
        write_edges(&mut self.edges, f);
    }
}

// Calls `f` with each node and its weight.
fn write_nodes<N, Ix: IndexType, F: FnMut(NodeIndex<Ix>, &mut N)>(
    nodes: &mut Vec<Node<N, Ix>>,
    mut f: F,
)
    requires callable { CanCallAtSlots Ix.of (TakesToWrite F.pre) (Leaves F.step) (λ w. w) f
        (map weight_of nodes.old.items) }
    requires few { length nodes.old.items ≤ Ix.greatest }
    ensures written { MapsSlots (Leaves F.step) Ix.of (λ w. w) (λ w v. v) f 0
        (map weight_of nodes.old.items) (map weight_of nodes.new.items) }
    ensures links { (dir : Direction) → firsts_of dir nodes.new.items
        ≡ firsts_of dir nodes.old.items }
{
    'each: for i in 0..nodes.len() {
        let x = &mut nodes[i];
        f(NodeIndex::new(i), &mut x.weight);
    }
}

// Calls `f` with each edge and its weight.
fn write_edges<E, Ix: IndexType, F: FnMut(EdgeIndex<Ix>, &mut E)>(
    edges: &mut Vec<Edge<E, Ix>>,
    mut f: F,
)
    requires callable { CanCallAtSlots Ix.of (TakesToWrite F.pre) (Leaves F.step) weight_in f
        (map plain_edge edges.old.items) }
    requires few { length edges.old.items ≤ Ix.greatest }
    ensures written { MapsSlots (Leaves F.step) Ix.of weight_in with_weight f 0
        (map plain_edge edges.old.items) (map plain_edge edges.new.items) }
    ensures links { (dir : Direction) → nexts_of dir edges.new.items
        ≡ nexts_of dir edges.old.items }
    ensures ends { (dir : Direction) → ends_of dir edges.new.items
        ≡ ends_of dir edges.old.items }
{
    'each: for i in 0..edges.len() {
        let x = &mut edges[i];
        f(EdgeIndex::new(i), &mut x.weight);
    }
}
