//! Adding nodes and edges.
ghost use Rattle.std.specs.Prelude.{◌≡◌, ◌≢◌, ◌<◌, [], IfOk, OnOk, IfErr, OnErr};
ghost use Rattle.daggy_base.specs.Graph.{HasNode, node_count as node_count_of};
ghost use Rattle.daggy_base.specs.Graph.{edge_count as edge_count_of};
ghost use Rattle.daggy_base.specs.Adding.{next_node, next_edge as next_edge_of, with_node};
ghost use Rattle.daggy_base.specs.Adding.{with_edge};
ghost use Rattle.daggy_base.specs.State.{with_graph};
ghost use Rattle.daggy_base.specs.declared.error.NodeError.TheVariants.{Memory as NodeMemory};
ghost use Rattle.daggy_base.specs.declared.error.EdgeError.TheVariants.{Memory as EdgeMemory};

use crate::stable_graph::StableDiGraph;
use daggy_base::error::{EdgeError, NodeError};
use daggy_base::index::{Direction, EdgeIndex, IndexType, NodeIndex};
use daggy_base::link::Link;
use daggy_cells::links::{self, put_first};

impl<N: Drop, E: Drop, Ix: IndexType> StableDiGraph<N, E, Ix> {
    /// Adds a node, in the slot vacated last. If no slot is vacant, its index is the previous node
    /// count.
    ///
    /// # Requires
    ///
    /// - The index type has an index left for one more node. Test: `can_add_node()`.
    ///
    /// # Errors
    ///
    /// Returns `Memory` with the weight if an allocation fails; the graph is unchanged.
    ///
    /// # Complexity
    ///
    /// Amortized O(1).
    ///
    /// # Examples
    ///
    /// ```
    /// let mut graph: StableDiGraph<&'static str, u32> = StableDiGraph::new(rt.alloc());
    /// let sow = graph.add_node("sow")?;
    /// let reap = graph.add_node("reap")?;
    /// assert!(rt; graph.remove_node(sow) == Some("sow"));
    /// // The vacant slot is reused.
    /// assert!(rt; graph.add_node("mow") == Ok(sow));
    /// assert!(rt; graph.node_weight(reap) == Some(&"reap"));
    /// ```
    #[inline]
    pub fn add_node(&mut self, weight: N) -> Result<NodeIndex<Ix>, NodeError<N>>
        requires { node_count_of self.old.graph < Ix.greatest }
        ensures index { IfOk result (λ n. Ix.number n ≡ next_node self.old.graph) }
        ensures added { OnOk result
            (self.new ≡ with_graph self.old (with_node self.old.graph weight)) }
        ensures refusal { IfErr result (λ e. e ≡ NodeMemory weight) }
        ensures unchanged { OnErr result (self.new ≡ self.old) }
    {
        if self.first_vacant_node.index() < self.nodes.len() {
            return Ok(self.fill_node(weight));
        }
        self.make_node(weight)
    }

    // Adds a node in the slot vacated last. Out of line, to keep the inlined part small.
    #[inline(never)]
    fn fill_node(&mut self, weight: N) -> NodeIndex<Ix>
        requires { self.old.graph.vacant_nodes ≢ [] }
        ensures index { Ix.number result ≡ next_node self.old.graph }
        ensures added { self.new ≡ with_graph self.old (with_node self.old.graph weight) }
    {
        let n = self.first_vacant_node;
        let i = n.index();
        self.first_vacant_node = links::first(&self.nodes[i], Direction::Outgoing);
        self.nodes[i] = links::new_node(Some(weight));
        self.node_count += 1;
        n.node()
    }

    // Adds a node in a new slot.
    #[inline]
    fn make_node(&mut self, weight: N) -> Result<NodeIndex<Ix>, NodeError<N>>
        requires none { self.old.graph.vacant_nodes ≡ [] }
        requires index_left { node_count_of self.old.graph < Ix.greatest }
        ensures index { IfOk result (λ n. Ix.number n ≡ next_node self.old.graph) }
        ensures added { OnOk result
            (self.new ≡ with_graph self.old (with_node self.old.graph weight)) }
        ensures refusal { IfErr result (λ e. e ≡ NodeMemory weight) }
        ensures unchanged { OnErr result (self.new ≡ self.old) }
    {
        if self.nodes.reserve(1).is_err() {
            return Err(NodeError::Memory(weight));
        }
        let n = NodeIndex::new(self.nodes.len());
        self.nodes.push_reserved(links::new_node(Some(weight)));
        self.node_count += 1;
        Ok(n)
    }

    /// Adds an edge from `a` to `b`, in the slot vacated last. If no slot is vacant, its index is
    /// the previous edge count. It is first in the out list of `a` and in the in list of `b`.
    ///
    /// # Requires
    ///
    /// - `parent`: `a` is a node of the graph. Test: `contains_node(a)`.
    /// - `child`: `b` is a node of the graph. Test: `contains_node(b)`.
    /// - `index_left`: The index type has an index left for one more edge. Test: `can_add_edge()`.
    ///
    /// # Errors
    ///
    /// Returns `Memory` with the weight if an allocation fails; the graph is unchanged.
    ///
    /// # Complexity
    ///
    /// Amortized O(1).
    #[inline]
    pub fn add_edge(
        &mut self,
        a: NodeIndex<Ix>,
        b: NodeIndex<Ix>,
        weight: E,
    ) -> Result<EdgeIndex<Ix>, EdgeError<E>>
        requires parent { HasNode self.old.graph (Ix.number a) }
        requires child { HasNode self.old.graph (Ix.number b) }
        requires index_left { edge_count_of self.old.graph < Ix.greatest }
        ensures index { IfOk result (λ e. Ix.number e ≡ next_edge_of self.old.graph) }
        ensures added { OnOk result (self.new
            ≡ with_graph self.old (with_edge self.old.graph (Ix.number a) (Ix.number b) weight)) }
        ensures refusal { IfErr result (λ e. e ≡ EdgeMemory weight) }
        ensures unchanged { OnErr result (self.new ≡ self.old) }
    {
        if self.first_vacant_edge.index() < self.edges.len() {
            return Ok(self.fill_edge(a, b, weight));
        }
        self.make_edge(a, b, weight)
    }

    // Adds an edge in the slot vacated last. Out of line, as `fill_node` is.
    #[inline(never)]
    fn fill_edge(&mut self, a: NodeIndex<Ix>, b: NodeIndex<Ix>, weight: E) -> EdgeIndex<Ix>
        requires some { self.old.graph.vacant_edges ≢ [] }
        requires parent { HasNode self.old.graph (Ix.number a) }
        requires child { HasNode self.old.graph (Ix.number b) }
        ensures index { Ix.number result ≡ next_edge_of self.old.graph }
        ensures added { self.new
            ≡ with_graph self.old (with_edge self.old.graph (Ix.number a) (Ix.number b) weight) }
    {
        let e = self.first_vacant_edge;
        let i = e.index();
        self.first_vacant_edge = links::next(&self.edges[i], Direction::Outgoing);
        let x = put_first(
            &mut self.nodes,
            Link::of_node(a),
            Link::of_node(b),
            e,
            Some(weight),
        );
        self.edges[i] = x;
        self.edge_count += 1;
        e.edge()
    }

    // Adds an edge in a new slot.
    #[inline]
    fn make_edge(
        &mut self,
        a: NodeIndex<Ix>,
        b: NodeIndex<Ix>,
        weight: E,
    ) -> Result<EdgeIndex<Ix>, EdgeError<E>>
        requires none { self.old.graph.vacant_edges ≡ [] }
        requires parent { HasNode self.old.graph (Ix.number a) }
        requires child { HasNode self.old.graph (Ix.number b) }
        requires index_left { edge_count_of self.old.graph < Ix.greatest }
        ensures index { IfOk result (λ e. Ix.number e ≡ next_edge_of self.old.graph) }
        ensures added { OnOk result (self.new
            ≡ with_graph self.old (with_edge self.old.graph (Ix.number a) (Ix.number b) weight)) }
        ensures refusal { IfErr result (λ e. e ≡ EdgeMemory weight) }
        ensures unchanged { OnErr result (self.new ≡ self.old) }
    {
        if self.edges.reserve(1).is_err() {
            return Err(EdgeError::Memory(weight));
        }
        let e = Link::new(self.edges.len());
        let x = put_first(
            &mut self.nodes,
            Link::of_node(a),
            Link::of_node(b),
            e,
            Some(weight),
        );
        self.edges.push_reserved(x);
        self.edge_count += 1;
        Ok(e.edge())
    }
}
