//! Building a dag from explicit slots, and permuting its lists.
ghost use Rattle.std.specs.Prelude.{◌≡◌, ◌≤◌, Err, map, IfOk};
ghost use Rattle.daggy_base.specs.Graph.{edge_count as edge_count_of, IsCompact};
ghost use Rattle.daggy_base.specs.Path.{IsAcyclic};
ghost use Rattle.daggy_base.specs.declared.kind.Kind.TheVariants.{Compact};
ghost use Rattle.daggy_base.specs.FromSlots.{graph_of_slots, edges_by, MakeGraph};
ghost use Rattle.daggy_base.specs.Orders.{AreOrders, with_orders, numbers_of};
ghost use Rattle.daggy_base.specs.State.{with_graph};
ghost use Rattle.daggy_base.specs.declared.error.SlotsError.TheVariants.{Cycle};

use crate::acyclic::Acyclic;
use daggy_base::error::SlotsError;
use daggy_base::index::{EdgeIndex, IndexType, NodeIndex};
use daggy_base::store::Store;
use daggy_guard::packed::sorted_order;
use daggy_search::Scratch;
use std::alloc::Global;

impl<N: Drop, E: Drop, Ix: IndexType, S> Acyclic<N, E, Ix, S>
where
    S: Store<Ix, NodeWeight = N, EdgeWeight = E>,
{
    /// Builds a dag from explicit slots: `nodes[i]` is the weight of node `i`, and `edges[i]` the
    /// endpoints and the weight of edge `i`; `None` leaves the slot vacant. A
    /// [`Dag`](crate::acyclic::Dag) has no vacant slot.
    ///
    /// Each list is in descending index order, and the highest vacant slot is reused first.
    ///
    /// # Requires
    ///
    /// - `makes_graph`: The index type has an index for each slot, and both endpoints of each edge
    ///   are nodes: slots that are not `None`.
    /// - `compact`: In a `Dag` no slot is `None`.
    ///
    /// # Errors
    ///
    /// Returns `SlotsError::Cycle` if the edges close a cycle, `SlotsError::Memory` if an
    /// allocation fails.
    ///
    /// # Complexity
    ///
    /// O(slots).
    ///
    /// # Examples
    ///
    /// ```
    /// let sow = NodeIndex::new(0);
    /// let reap = NodeIndex::new(2);
    /// let nodes = Vec::from_array(rt.alloc(), [Some("sow"), None, Some("reap")])?;
    /// let edges = Vec::from_array(rt.alloc(), [Some((sow, reap, 90))])?;
    /// let dag: StableDag<&'static str, u32> = StableDag::from_slots(rt.alloc(), nodes, edges)?;
    /// assert!(rt; dag.contains_edge(sow, reap));
    /// assert!(rt; !dag.contains_node(NodeIndex::new(1)));
    /// ```
    pub fn from_slots(
        alloc: Global,
        nodes: Vec<Option<N>>,
        edges: Vec<Option<(NodeIndex<Ix>, NodeIndex<Ix>, E)>>,
    ) -> Result<Self, SlotsError>
        requires makes_graph { MakeGraph Ix.greatest nodes.items (edges_by Ix.number edges.items) }
        requires compact { S.KIND ≡ Compact
            → IsCompact (graph_of_slots nodes.items (edges_by Ix.number edges.items)) }
        ensures made { IfOk result (λ d.
            d.graph ≡ graph_of_slots nodes.items (edges_by Ix.number edges.items)) }
        ensures cycle { result ≡ Err Cycle
            → ¬ IsAcyclic (graph_of_slots nodes.items (edges_by Ix.number edges.items)) }
        ensures acyclic { IfOk result (λ d. IsAcyclic d.graph) }
        ensures counted { IfOk result (λ d. d.looks ≤ edge_count_of d.graph) }
    {
        let Ok(mut store) = S::from_slots(alloc, nodes, edges) else {
            return Err(SlotsError::Memory);
        };
        let mut scratch = Scratch::new(alloc);
        let Ok(()) = scratch.reserve(store.node_slots(), 0) else {
            return Err(SlotsError::Memory);
        };
        match sorted_order(alloc, &mut store, &mut scratch) {
            Ok(Some(order)) => Ok(Acyclic::from_parts(store, order, scratch)),
            Ok(None) => Err(SlotsError::Cycle),
            Err(_) => Err(SlotsError::Memory),
        }
    }

    /// Permutes the lists: for each existing node, in ascending index order, `orders` has its out
    /// list and its in list in the desired order. Nothing else changes.
    ///
    /// # Requires
    ///
    /// - `orders` has one pair for each node that exists, in ascending index order, and each pair
    ///   permutes the out list and the in list of its node.
    ///
    /// # Complexity
    ///
    /// O(slots).
    ///
    /// # Examples
    ///
    /// ```
    /// let mut dag: Dag<&'static str, ()> = Dag::new(rt.alloc());
    /// let sow = dag.add_node("sow")?;
    /// let reap = dag.add_node("reap")?;
    /// let early = dag.add_edge(sow, reap, ())?;
    /// let late = dag.add_edge(sow, reap, ())?;
    /// let out = Vec::from_array(rt.alloc(), [early, late])?;
    /// let into = Vec::from_array(rt.alloc(), [late, early])?;
    /// dag.set_orders(&[(out, Vec::new(rt.alloc())), (Vec::new(rt.alloc()), into)]);
    /// // The oldest edge is first now.
    /// assert!(rt; dag.children(sow).walk_next(&dag).is_some_and(|step| step.0 == early));
    /// ```
    pub fn set_orders(&mut self, orders: &[(Vec<EdgeIndex<Ix>>, Vec<EdgeIndex<Ix>>)])
        requires { AreOrders self.old.graph (map (numbers_of Ix.number) orders.now) }
        ensures ordered { self.new
            ≡ with_graph self.old
            (with_orders self.old.graph (map (numbers_of Ix.number) orders.now)) }
        ensures acyclic { IsAcyclic self.new.graph }
    {
        self.guarded.store.set_orders(orders);
    }
}
