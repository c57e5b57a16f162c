//! The types of a graph's nodes, edges and weights.
ghost use Rattle.std.specs.Prelude.{◌≡◌, ℕ, Bool, option_copied};
ghost use Rattle.std.specs.Borrow.{sem, LendsIf};
ghost use Rattle.std.specs.Option.{option_copied_mut};
ghost use Rattle.daggy_base.specs.Graph.{Graph, node_weight as weight_at};
ghost use Rattle.daggy_base.specs.Graph.{node_count as node_count_of};
ghost use Rattle.daggy_base.specs.Weights.{edge_weight as edge_weight_at, with_node_weight};
ghost use Rattle.daggy_base.specs.Weights.{with_edge_weight};

/// The types that identify the nodes and the edges of a graph.
///
/// # Examples
///
/// ```
/// let mut dag: Dag<&'static str, u32> = Dag::new(rt.alloc());
/// let sow: <Dag<&'static str, u32> as GraphBase>::NodeId = dag.add_node("sow")?;
/// assert!(rt; sow == NodeIndex::new(0));
/// ```
pub trait GraphBase {
    /// The type that identifies a node.
    type NodeId: Copy;
    /// The type that identifies an edge.
    type EdgeId: Copy;

    // The number of a node, and of an edge.
    ghost node_number: { Self.NodeId → ℕ };

    ghost edge_number: { Self.EdgeId → ℕ };
}

/// The types of the weights of a graph. `Dag` and `StableDag` implement it, and also [`DataMap`]
/// and [`DataMapMut`]; the stores do not.
///
/// # Examples
///
/// ```
/// let weight: <Dag<u32, ()> as Data>::NodeWeight = 7;
/// let mut dag: Dag<u32, ()> = Dag::new(rt.alloc());
/// let sow = dag.add_node(weight)?;
/// assert!(rt; dag.node_weight(sow) == Some(&7));
/// ```
pub trait Data: GraphBase {
    /// The weight of a node.
    type NodeWeight;
    /// The weight of an edge.
    type EdgeWeight;

    // The graph by whole lists.
    ghost graph: { Self → Graph Self.NodeWeight Self.EdgeWeight };
}

/// A graph that can count its nodes.
///
/// # Examples
///
/// ```
/// fn is_empty<G: NodeCount>(graph: &G) -> bool {
///     graph.node_count() == 0
/// }
///
/// let dag: Dag<(), ()> = Dag::new(rt.alloc());
/// assert!(rt; is_empty(&dag));
/// ```
pub trait NodeCount: Data {
    /// How many nodes there are.
    fn node_count(&self) -> usize
        ensures { result ≡ node_count_of (Self.graph self.now) };
}

/// A marker type for graphs with directed edges. It has no values.
#[derive(Clone, Copy)]
pub enum Directed {}

/// A graph type that states whether its edges are directed.
///
/// # Examples
///
/// ```
/// fn has_directions<G: GraphProp<EdgeType = Directed>>(graph: &G) -> bool {
///     graph.is_directed()
/// }
///
/// let dag: Dag<(), ()> = Dag::new(rt.alloc());
/// assert!(rt; has_directions(&dag));
/// ```
pub trait GraphProp: GraphBase {
    /// [`Directed`] if the edges are directed.
    type EdgeType;

    // Whether edges have a direction.
    ghost directed: { Bool };

    /// Whether the edges are directed.
    fn is_directed(&self) -> bool
        ensures { result ≡ directed };
}

/// A graph whose weights can be read by index: generic code over `G: DataMap` calls
/// [`node_weight`](DataMap::node_weight) and [`edge_weight`](DataMap::edge_weight) of any such
/// graph.
///
/// # Examples
///
/// ```
/// fn weight_of<G: DataMap>(graph: &G, n: G::NodeId) -> Option<&G::NodeWeight> {
///     graph.node_weight(n)
/// }
///
/// let mut dag: Dag<&'static str, u32> = Dag::new(rt.alloc());
/// let sow = dag.add_node("sow")?;
/// assert!(rt; weight_of(&dag, sow) == Some(&"sow"));
/// ```
pub trait DataMap: Data {
    /// The weight of a node, or `None` if there is no such node.
    fn node_weight(&self, id: Self::NodeId) -> Option<&Self::NodeWeight>
        ensures { option_copied result ≡ weight_at (Self.graph self.now) (Self.node_number id) };

    /// The weight of an edge, or `None` if there is no such edge.
    fn edge_weight(&self, id: Self::EdgeId) -> Option<&Self::EdgeWeight>
        ensures { option_copied result
            ≡ edge_weight_at (Self.graph self.now) (Self.edge_number id) };
}

/// A graph whose weights can also be written, through mutable references.
///
/// # Examples
///
/// ```
/// fn clear_weight<G: DataMapMut<NodeWeight = u32>>(graph: &mut G, n: G::NodeId) {
///     if let Some(weight) = graph.node_weight_mut(n) {
///         *weight = 0;
///     }
/// }
///
/// let mut dag: Dag<u32, ()> = Dag::new(rt.alloc());
/// let sow = dag.add_node(7)?;
/// clear_weight(&mut dag, sow);
/// assert!(rt; dag.node_weight(sow) == Some(&0));
/// ```
pub trait DataMapMut: DataMap {
    // What the graph ends as, once the weight of a node was written, or that of an edge.
    ghost node_written: { Self → Self.NodeId → Self.NodeWeight → Self };

    ghost edge_written: { Self → Self.EdgeId → Self.EdgeWeight → Self };

    /// A mutable reference to the weight of a node, or `None` if there is no such node.
    fn node_weight_mut(&mut self, id: Self::NodeId) -> Option<&mut Self::NodeWeight>
        ensures* writes_back { sem 𝓛 (LendsIf Self.row Self.NodeWeight.row self.entry result
            (node_written self.entry.now id) self.entry.now) }
        ensures value { option_copied_mut result
            ≡ weight_at (Self.graph self.old) (Self.node_number id) };

    /// A mutable reference to the weight of an edge, or `None` if there is no such edge.
    fn edge_weight_mut(&mut self, id: Self::EdgeId) -> Option<&mut Self::EdgeWeight>
        ensures* writes_back { sem 𝓛 (LendsIf Self.row Self.EdgeWeight.row self.entry result
            (edge_written self.entry.now id) self.entry.now) }
        ensures value { option_copied_mut result
            ≡ edge_weight_at (Self.graph self.old) (Self.edge_number id) };

    // Nothing but that weight changes.
    ghost node_written_is: { (g : Self) (n : Self.NodeId) (w : Self.NodeWeight)
        → Self.graph (node_written g n w)
        ≡ with_node_weight (Self.graph g) (Self.node_number n) w };

    ghost edge_written_is: { (g : Self) (e : Self.EdgeId) (w : Self.EdgeWeight)
        → Self.graph (edge_written g e w)
        ≡ with_edge_weight (Self.graph g) (Self.edge_number e) w };
}
