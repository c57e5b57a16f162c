//! Permuting the lists of a graph.
ghost use Rattle.std.specs.Prelude.{◌≡◌, ℕ, ◌≤◌, None, is_some, map, length, count_by, slice_get};
ghost use Rattle.std.specs.Prelude.{Contains};
ghost use Rattle.daggy_base.specs.declared.index.Direction.{Direction};
ghost use Rattle.daggy_base.specs.declared.index.Direction.TheVariants.{Outgoing};
ghost use Rattle.daggy_base.specs.Graph.{slot};
ghost use Rattle.daggy_base.specs.Orders.{numbers_of, with_orders, AreOrders};
ghost use Rattle.daggy_base.specs.State.{with_graph};
ghost use Rattle.daggy_cells.specs.Fields.{firsts_of, nexts_of};
ghost use Rattle.daggy_cells.specs.Links.{nth_list, AreLinkedLists, CanLinkAll};
ghost use Rattle.daggy_stable.specs.Stored.{weight_of, plain_edge, list_firsts};
ghost use Rattle.daggy_stable.specs.Ordering.{new_lists};

use crate::stable_graph::StableDiGraph;
use daggy_base::index::{EdgeIndex, IndexType};
use daggy_cells::cell::{Edge, Node};
use daggy_cells::links::relink_both;

// Links the lists of each existing node in these orders.
fn relink_nodes<N, E, Ix: IndexType>(
    nodes: &mut Vec<Node<Option<N>, Ix>>,
    edges: &mut Vec<Edge<Option<E>, Ix>>,
    orders: &[(Vec<EdgeIndex<Ix>>, Vec<EdgeIndex<Ix>>)],
)
    requires count { length orders.now ≡ count_by is_some (map weight_of nodes.old.items) }
    requires lists { (dir : Direction)
        → CanLinkAll (length edges.old.items)
        (new_lists dir nodes.old.items (map (numbers_of Ix.number) orders.now)) }
    ensures linked { (dir : Direction)
        → AreLinkedLists Ix.greatest (list_firsts Ix.greatest dir nodes.new.items)
        (nexts_of dir edges.new.items)
        (new_lists dir nodes.old.items (map (numbers_of Ix.number) orders.now)) }
    ensures nodes { map weight_of nodes.new.items ≡ map weight_of nodes.old.items }
    ensures edges { map plain_edge edges.new.items ≡ map plain_edge edges.old.items }
    ensures vacant_nodes { (n : ℕ) → slot (map weight_of nodes.old.items) n ≡ None
        → slice_get (firsts_of Outgoing nodes.new.items) n
        ≡ slice_get (firsts_of Outgoing nodes.old.items) n }
    ensures other_edges { (e : ℕ)
        → ((n : ℕ)
        → ¬ Contains
        (nth_list (new_lists Outgoing nodes.old.items (map (numbers_of Ix.number) orders.now)) n) e)
        → slice_get (nexts_of Outgoing edges.new.items) e
        ≡ slice_get (nexts_of Outgoing edges.old.items) e }
    ensures as_many { length (nexts_of Outgoing edges.new.items)
        ≡ length (nexts_of Outgoing edges.old.items) }
{
    let mut next = 0;
    'each: for i in 0..nodes.len() {
        if nodes[i].weight.is_none() {
            continue;
        }
        let order = &orders[next];
        relink_both(nodes, edges, i, order);
        next += 1;
    }
}

impl<N, E, Ix: IndexType> StableDiGraph<N, E, Ix> {
    /// Permutes the lists: for each existing node, in ascending index order, `orders` has its out
    /// list and its in list in the desired order.
    ///
    /// # Requires
    ///
    /// - `orders` has one pair for each node that exists, in ascending index order, and each pair
    ///   permutes the out list and the in list of its node.
    ///
    /// # Complexity
    ///
    /// O(slots). Does not allocate.
    ///
    /// # Examples
    ///
    /// ```
    /// let mut graph: StableDiGraph<&'static str, ()> = StableDiGraph::new(rt.alloc());
    /// let sow = graph.add_node("sow")?;
    /// let reap = graph.add_node("reap")?;
    /// let early = graph.add_edge(sow, reap, ())?;
    /// let late = graph.add_edge(sow, reap, ())?;
    /// let out = Vec::from_array(rt.alloc(), [early, late])?;
    /// let into = Vec::from_array(rt.alloc(), [late, early])?;
    /// graph.set_orders(&[(out, Vec::new(rt.alloc())), (Vec::new(rt.alloc()), into)]);
    /// // The oldest edge is first now.
    /// assert!(rt; graph.find_edge(sow, reap) == Some(early));
    /// ```
    pub fn set_orders(&mut self, orders: &[(Vec<EdgeIndex<Ix>>, Vec<EdgeIndex<Ix>>)])
        requires { AreOrders self.old.graph (map (numbers_of Ix.number) orders.now) }
        ensures { self.new
            ≡ with_graph self.old
            (with_orders self.old.graph (map (numbers_of Ix.number) orders.now)) }
    {
        relink_nodes(&mut self.nodes, &mut self.edges, orders);
    }
}
