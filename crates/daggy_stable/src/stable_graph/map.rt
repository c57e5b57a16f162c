//! Mapping the weights of a graph.
ghost use Rattle.std.specs.Prelude.{◌≡◌, ◌≤◌, [], map, length, vec_capacity, IfOk};
ghost use Rattle.daggy_base.specs.declared.index.Direction.{Direction};
ghost use Rattle.daggy_base.specs.CallsInTurn.{CanCallAtSlots, CanCallAtNodes, CanCallAtEdges};
ghost use Rattle.daggy_base.specs.Mapping.{MapsSlots, IsMapped, weight_in, with_weight};
ghost use Rattle.daggy_cells.specs.Fields.{firsts_of, nexts_of};
ghost use Rattle.daggy_stable.specs.Stored.{weight_of, plain_edge};

use crate::stable_graph::StableDiGraph;
use daggy_base::index::{Direction, EdgeIndex, IndexType, NodeIndex};
use daggy_base::looks::Looks;
use daggy_cells::cell::{Edge, Node};
use daggy_cells::links;
use std::alloc::AllocError;

// Makes the node slots of the new graph, within the capacity.
fn map_nodes<N, V, Ix: IndexType, F: FnMut(NodeIndex<Ix>, &N) -> V>(
    nodes: &[Node<Option<N>, Ix>],
    new: &mut Vec<Node<Option<V>, Ix>>,
    mut f: F,
)
    requires callable { CanCallAtSlots Ix.of F.pre F.step (λ w. w) f (map weight_of nodes.now) }
    requires few { length nodes.now ≤ Ix.greatest }
    requires capacity { length nodes.now ≤ vec_capacity new.old }
    requires empty { new.old.items ≡ [] }
    ensures mapped { MapsSlots F.step Ix.of (λ w. w) (λ w v. v) f 0 (map weight_of nodes.now)
        (map weight_of new.new.items) }
    ensures links { (dir : Direction) → firsts_of dir new.new.items ≡ firsts_of dir nodes.now }
{
    'each: for i in 0..nodes.len() {
        let x = &nodes[i];
        let old = match x.weight.as_ref() {
            Some(old) => old,
            None => {
                new.push_reserved(links::node_like(x, None));
                continue;
            }
        };
        let weight = f(NodeIndex::new(i), old);
        new.push_reserved(links::node_like(x, Some(weight)));
    }
}

// Makes the edge slots of the new graph, within the capacity.
fn map_edges<E, W, Ix: IndexType, G: FnMut(EdgeIndex<Ix>, &E) -> W>(
    edges: &[Edge<Option<E>, Ix>],
    new: &mut Vec<Edge<Option<W>, Ix>>,
    mut g: G,
)
    requires callable { CanCallAtSlots Ix.of G.pre G.step weight_in g (map plain_edge edges.now) }
    requires few { length edges.now ≤ Ix.greatest }
    requires capacity { length edges.now ≤ vec_capacity new.old }
    requires empty { new.old.items ≡ [] }
    ensures mapped { MapsSlots G.step Ix.of weight_in with_weight g 0 (map plain_edge edges.now)
        (map plain_edge new.new.items) }
    ensures links { (dir : Direction) → nexts_of dir new.new.items ≡ nexts_of dir edges.now }
{
    'each: for i in 0..edges.len() {
        let x = &edges[i];
        let old = match x.weight.as_ref() {
            Some(old) => old,
            None => {
                new.push_reserved(links::edge_like(x, None));
                continue;
            }
        };
        let weight = g(EdgeIndex::new(i), old);
        new.push_reserved(links::edge_like(x, Some(weight)));
    }
}

impl<N, E, Ix: IndexType> StableDiGraph<N, E, Ix> {
    /// A graph with the same indices, lists and vacant slots, and with the weights returned by the
    /// closures: `f` is called with each node in ascending index order, and then `g` with each
    /// edge.
    ///
    /// # Requires
    ///
    /// - `nodes`: `f` may be called with each node and its weight, in ascending index order.
    /// - `edges`: `g` may be called with each edge and its weight, in ascending index order.
    ///
    /// # Errors
    ///
    /// Returns `AllocError` if an allocation fails; in that case no closure has been called.
    ///
    /// # Complexity
    ///
    /// O(slots), plus the calls.
    pub fn map<
        N2: Drop,
        E2: Drop,
        F: FnMut(NodeIndex<Ix>, &N) -> N2,
        G: FnMut(EdgeIndex<Ix>, &E) -> E2,
    >(&self, f: F, g: G) -> Result<StableDiGraph<N2, E2, Ix>, AllocError>
        requires nodes { CanCallAtNodes Ix.of F.pre F.step f self.now.graph }
        requires edges { CanCallAtEdges Ix.of G.pre G.step g self.now.graph }
        ensures mapped { IfOk result (λ h.
            IsMapped Ix.of F.step G.step f g self.now.graph h.graph) }
        ensures looks { IfOk result (λ h. h.looks ≡ 0) }
    {
        let alloc = *self.nodes.allocator();
        let mut nodes = Vec::with_capacity(alloc, self.nodes.len())?;
        let mut edges = Vec::with_capacity(alloc, self.edges.len())?;
        map_nodes(self.nodes.as_slice(), &mut nodes, f);
        map_edges(self.edges.as_slice(), &mut edges, g);
        Ok(StableDiGraph {
            nodes,
            edges,
            first_vacant_node: self.first_vacant_node,
            first_vacant_edge: self.first_vacant_edge,
            node_count: self.node_count,
            edge_count: self.edge_count,
            looks: Looks::new(),
        })
    }
}
