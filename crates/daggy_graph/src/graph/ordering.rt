//! Permuting the lists of a graph.
ghost use Rattle.std.specs.Prelude.{◌≡◌, map, length};
ghost use Rattle.daggy_base.specs.declared.index.Direction.{Direction};
ghost use Rattle.daggy_base.specs.Orders.{numbers_of, with_orders, AreOrders};
ghost use Rattle.daggy_base.specs.State.{with_graph};
ghost use Rattle.daggy_cells.specs.Fields.{weight_of, plain_edge, firsts_of, nexts_of, order_at};
ghost use Rattle.daggy_cells.specs.Links.{AreLinkedLists, CanLinkAll};

use crate::graph::{DiGraph, Edge, Node};
use daggy_base::index::{EdgeIndex, IndexType};
use daggy_cells::links::relink_both;

// Links the lists of each node in these orders.
fn relink_nodes<N, E, Ix: IndexType>(
    nodes: &mut Vec<Node<N, Ix>>,
    edges: &mut Vec<Edge<E, Ix>>,
    orders: &[(Vec<EdgeIndex<Ix>>, Vec<EdgeIndex<Ix>>)],
)
    requires count { length orders.now ≡ length nodes.old.items }
    requires lists { (dir : Direction)
        → CanLinkAll (length edges.old.items)
        (map (order_at dir) (map (numbers_of Ix.number) orders.now)) }
    ensures linked { (dir : Direction)
        → AreLinkedLists Ix.greatest (firsts_of dir nodes.new.items) (nexts_of dir edges.new.items)
        (map (order_at dir) (map (numbers_of Ix.number) orders.now)) }
    ensures nodes { map weight_of nodes.new.items ≡ map weight_of nodes.old.items }
    ensures edges { map plain_edge edges.new.items ≡ map plain_edge edges.old.items }
{
    'each: for i in 0..nodes.len() {
        let order = &orders[i];
        relink_both(nodes, edges, i, order);
    }
}

impl<N, E, Ix: IndexType> DiGraph<N, E, Ix> {
    /// Permutes the lists: for each node, in ascending index order, `orders` has its out list and
    /// its in list in the desired order.
    ///
    /// # Requires
    ///
    /// - `orders` has one pair for each node that exists, in ascending index order, and each pair
    ///   permutes the out list and the in list of its node.
    ///
    /// # Complexity
    ///
    /// O(nodes + edges). Does not allocate.
    ///
    /// # Examples
    ///
    /// ```
    /// let mut graph: DiGraph<&'static str, ()> = DiGraph::new(rt.alloc());
    /// let sow = graph.add_node("sow")?;
    /// let reap = graph.add_node("reap")?;
    /// let early = graph.add_edge(sow, reap, ())?;
    /// let late = graph.add_edge(sow, reap, ())?;
    /// let out = Vec::from_array(rt.alloc(), [early, late])?;
    /// let into = Vec::from_array(rt.alloc(), [late, early])?;
    /// graph.set_orders(&[(out, Vec::new(rt.alloc())), (Vec::new(rt.alloc()), into)]);
    /// // The oldest edge is first now.
    /// assert!(rt; graph.find_edge(sow, reap) == Some(early));
    /// ```
    pub fn set_orders(&mut self, orders: &[(Vec<EdgeIndex<Ix>>, Vec<EdgeIndex<Ix>>)])
        requires { AreOrders self.old.graph (map (numbers_of Ix.number) orders.now) }
        ensures { self.new
            ≡ with_graph self.old
            (with_orders self.old.graph (map (numbers_of Ix.number) orders.now)) }
    {
        relink_nodes(&mut self.nodes, &mut self.edges, orders);
    }
}
