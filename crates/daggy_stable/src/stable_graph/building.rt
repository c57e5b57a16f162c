//! Building a graph slot by slot.
ghost use Rattle.std.specs.Prelude.{◌≡◌, ◌<◌, ◌≤◌, None, [], ◌∷◌, ◌++◌, map, length, vec_len};
ghost use Rattle.std.specs.Prelude.{vec_capacity, IsSome, IfOk};
ghost use Rattle.std.specs.Option.{option_map};
ghost use Rattle.daggy_base.specs.Graph.{slot};
ghost use Rattle.daggy_base.specs.FromSlots.{graph_of_slots};
ghost use Rattle.daggy_stable.specs.Stored.{weight_of, plain_edge};
ghost use Rattle.daggy_stable.specs.Building.{IsBuilt, between};

use crate::stable_graph::StableDiGraph;
use daggy_base::index::{Direction, IndexType};
use daggy_base::link::Link;
use daggy_base::looks::Looks;
use daggy_cells::cell::{Edge, Node};
use daggy_cells::links::{self, put_first};
use std::alloc::{AllocError, Global};

// The slots so far, the last vacant one among them, and how many are occupied.
#[derive(Drop)]
pub(super) struct SlotBuilder<T, Ix: IndexType> {
    pub(super) cells: Vec<T>,
    pub(super) first_vacant: Link<Ix>,
    pub(super) count: usize,
}

impl<T: Drop, Ix: IndexType> SlotBuilder<T, Ix> {
    pub(super) fn with_capacity(alloc: Global, slots: usize) -> Result<Self, AllocError>
        ensures empty { IfOk result (λ s. s.cells.items ≡ []) }
        ensures end { IfOk result (λ s. s.first_vacant ≡ Ix.greatest) }
        ensures none { IfOk result (λ s. s.count ≡ 0) }
        ensures capacity { IfOk result (λ s. slots ≤ vec_capacity s.cells) }
    {
        Ok(SlotBuilder {
            cells: Vec::with_capacity(alloc, slots)?,
            first_vacant: Link::end(),
            count: 0,
        })
    }
}

// Appends a node slot, vacant if there is no weight.
pub(super) fn keep_node<N, E, Ix: IndexType>(
    nodes: &mut SlotBuilder<Node<Option<N>, Ix>, Ix>,
    edges: &SlotBuilder<Edge<Option<E>, Ix>, Ix>,
    answer: Option<N>,
)
    requires no_edges { edges.now.cells.items ≡ [] }
    requires stored { IsBuilt Ix.greatest nodes.old edges.now }
    requires index_left { length nodes.old.cells.items < Ix.greatest }
    requires capacity { vec_len nodes.old.cells < vec_capacity nodes.old.cells }
    ensures stored { IsBuilt Ix.greatest nodes.new edges.now }
    ensures weights { map weight_of nodes.new.cells.items
        ≡ map weight_of nodes.old.cells.items ++ answer ∷ [] }
    ensures capacity { vec_capacity nodes.new.cells ≡ vec_capacity nodes.old.cells }
{
    let n = Link::new(nodes.cells.len());
    match answer {
        Some(weight) => {
            nodes.cells.push_reserved(links::new_node(Some(weight)));
            nodes.count += 1;
        }
        None => {
            let mut x = links::new_node(None);
            links::set_first(&mut x, Direction::Outgoing, nodes.first_vacant);
            nodes.cells.push_reserved(x);
            nodes.first_vacant = n;
        }
    }
}

// Appends a vacant edge slot.
pub(super) fn leave_edge<N, E, Ix: IndexType>(
    nodes: &SlotBuilder<Node<Option<N>, Ix>, Ix>,
    edges: &mut SlotBuilder<Edge<Option<E>, Ix>, Ix>,
)
    requires stored { IsBuilt Ix.greatest nodes.now edges.old }
    requires index_left { length edges.old.cells.items < Ix.greatest }
    requires capacity { vec_len edges.old.cells < vec_capacity edges.old.cells }
    ensures stored { IsBuilt Ix.greatest nodes.now edges.new }
    ensures edges { map plain_edge edges.new.cells.items
        ≡ map plain_edge edges.old.cells.items ++ None ∷ [] }
    ensures capacity { vec_capacity edges.new.cells ≡ vec_capacity edges.old.cells }
{
    let e = Link::new(edges.cells.len());
    let end = Link::end();
    edges
        .cells
        .push_reserved(links::new_edge(None, end, end, edges.first_vacant, end));
    edges.first_vacant = e;
}

// Appends a slot for an edge from `a` to `b`, vacant if there is no weight.
pub(super) fn keep_edge<N, E, Ix: IndexType>(
    nodes: &mut SlotBuilder<Node<Option<N>, Ix>, Ix>,
    edges: &mut SlotBuilder<Edge<Option<E>, Ix>, Ix>,
    a: Link<Ix>,
    b: Link<Ix>,
    answer: Option<E>,
)
    requires stored { IsBuilt Ix.greatest nodes.old edges.old }
    requires parent { IsSome (slot (map weight_of nodes.old.cells.items) a) }
    requires child { IsSome (slot (map weight_of nodes.old.cells.items) b) }
    requires index_left { length edges.old.cells.items < Ix.greatest }
    requires capacity { vec_len edges.old.cells < vec_capacity edges.old.cells }
    ensures stored { IsBuilt Ix.greatest nodes.new edges.new }
    ensures nodes { map weight_of nodes.new.cells.items ≡ map weight_of nodes.old.cells.items }
    ensures edges { map plain_edge edges.new.cells.items
        ≡ map plain_edge edges.old.cells.items ++ option_map (between a b) answer ∷ [] }
    ensures capacity { vec_capacity edges.new.cells ≡ vec_capacity edges.old.cells }
{
    let weight = match answer {
        Some(weight) => weight,
        None => {
            leave_edge(nodes, edges);
            return;
        }
    };
    let e = Link::new(edges.cells.len());
    let x = put_first(&mut nodes.cells, a, b, e, Some(weight));
    edges.cells.push_reserved(x);
    edges.count += 1;
}

// The graph of these slots.
pub(super) fn built<N, E, Ix: IndexType>(
    nodes: SlotBuilder<Node<Option<N>, Ix>, Ix>,
    edges: SlotBuilder<Edge<Option<E>, Ix>, Ix>,
) -> StableDiGraph<N, E, Ix>
    requires { IsBuilt Ix.greatest nodes edges }
    ensures { result
        ≡ record {
          graph =
              graph_of_slots (map weight_of nodes.cells.items) (map plain_edge edges.cells.items);
          looks = 0;
        } }
{
    StableDiGraph {
        nodes: nodes.cells,
        edges: edges.cells,
        first_vacant_node: nodes.first_vacant,
        first_vacant_edge: edges.first_vacant,
        node_count: nodes.count,
        edge_count: edges.count,
        looks: Looks::new(),
    }
}
