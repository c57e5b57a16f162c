//! Mapping the weights of a graph.
ghost use Rattle.std.specs.Prelude.{◌≡◌, ◌≤◌, [], map, length, vec_capacity, IfOk};
ghost use Rattle.daggy_base.specs.declared.index.Direction.{Direction};
ghost use Rattle.daggy_base.specs.Mapping.{MapsSlots, IsMapped, weight_in, with_weight};
ghost use Rattle.daggy_base.specs.CallsInTurn.{CanCallAtSlots, CanCallAtNodes, CanCallAtEdges};
ghost use Rattle.daggy_cells.specs.Fields.{weight_of, plain_edge, firsts_of, nexts_of, ends_of};

use crate::graph::{DiGraph, Edge, Node};
use daggy_base::index::{EdgeIndex, IndexType, NodeIndex};
use daggy_base::looks::Looks;
use daggy_cells::links;
use std::alloc::AllocError;

// Makes the nodes of the new graph, within the capacity.
fn map_nodes<N, V, Ix: IndexType, F: FnMut(NodeIndex<Ix>, &N) -> V>(
    nodes: &[Node<N, Ix>],
    new: &mut Vec<Node<V, Ix>>,
    mut f: F,
)
    requires callable { CanCallAtSlots Ix.of F.pre F.step (λ w. w) f (map weight_of nodes.now) }
    requires few { length nodes.now ≤ Ix.greatest }
    requires capacity { length nodes.now ≤ vec_capacity new.old }
    requires empty { new.old.items ≡ [] }
    ensures mapped { MapsSlots F.step Ix.of (λ w. w) (λ w v. v) f 0 (map weight_of nodes.now)
        (map weight_of new.new.items) }
    ensures links { (dir : Direction) → firsts_of dir new.new.items ≡ firsts_of dir nodes.now }
{
    'each: for i in 0..nodes.len() {
        let x = &nodes[i];
        let weight = f(NodeIndex::new(i), &x.weight);
        new.push_reserved(links::node_like(x, weight));
    }
}

// Makes the edges of the new graph, within the capacity.
fn map_edges<E, V, Ix: IndexType, G: FnMut(EdgeIndex<Ix>, &E) -> V>(
    edges: &[Edge<E, Ix>],
    new: &mut Vec<Edge<V, Ix>>,
    mut g: G,
)
    requires callable { CanCallAtSlots Ix.of G.pre G.step weight_in g (map plain_edge edges.now) }
    requires few { length edges.now ≤ Ix.greatest }
    requires capacity { length edges.now ≤ vec_capacity new.old }
    requires empty { new.old.items ≡ [] }
    ensures mapped { MapsSlots G.step Ix.of weight_in with_weight g 0 (map plain_edge edges.now)
        (map plain_edge new.new.items) }
    ensures links { (dir : Direction) → nexts_of dir new.new.items ≡ nexts_of dir edges.now }
    ensures ends { (dir : Direction) → ends_of dir new.new.items ≡ ends_of dir edges.now }
{
    'each: for i in 0..edges.len() {
        let x = &edges[i];
        let weight = g(EdgeIndex::new(i), &x.weight);
        new.push_reserved(links::edge_like(x, weight));
    }
}

impl<N, E, Ix: IndexType> DiGraph<N, E, Ix> {
    /// A graph with the same indices and lists, and with the weights returned by the closures: `f`
    /// is called with each node in ascending index order, and then `g` with each edge.
    ///
    /// # Requires
    ///
    /// - `nodes`: `f` may be called with each node and its weight, in ascending index order.
    /// - `edges`: `g` may be called with each edge and its weight, in ascending index order.
    ///
    /// # Errors
    ///
    /// Returns `AllocError` if an allocation fails; in that case no closure has been called.
    ///
    /// # Complexity
    ///
    /// O(nodes + edges), plus the calls.
    ///
    /// # Examples
    ///
    /// ```
    /// let mut graph: DiGraph<u32, u32> = DiGraph::new(rt.alloc());
    /// let sow = graph.add_node(1)?;
    /// let days = graph.add_edge(sow, sow, 90)?;
    /// let weeks = graph.map(|_, n| *n, |_, days| *days / 7)?;
    /// assert!(rt; weeks.edge_weight(days) == Some(&12));
    /// ```
    pub fn map<
        N2: Drop,
        E2: Drop,
        F: FnMut(NodeIndex<Ix>, &N) -> N2,
        G: FnMut(EdgeIndex<Ix>, &E) -> E2,
    >(&self, f: F, g: G) -> Result<DiGraph<N2, E2, Ix>, AllocError>
        requires nodes { CanCallAtNodes Ix.of F.pre F.step f self.now.graph }
        requires edges { CanCallAtEdges Ix.of G.pre G.step g self.now.graph }
        ensures mapped { IfOk result (λ h.
            IsMapped Ix.of F.step G.step f g self.now.graph h.graph) }
        ensures looks { IfOk result (λ h. h.looks ≡ 0) }
    {
        let alloc = *self.nodes.allocator();
        let mut nodes = Vec::with_capacity(alloc, self.nodes.len())?;
        let mut edges = Vec::with_capacity(alloc, self.edges.len())?;
        map_nodes(self.nodes.as_slice(), &mut nodes, f);
        map_edges(self.edges.as_slice(), &mut edges, g);
        Ok(DiGraph {
            nodes,
            edges,
            looks: Looks::new(),
        })
    }
}
