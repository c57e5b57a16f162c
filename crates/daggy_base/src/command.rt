//! Commands to a dag and the replies to them, as values.

use crate::index::{DefaultIx, EdgeIndex, IndexType, NodeIndex};

/// An edge, and a node that it leads to or comes from.
///
/// # Examples
///
/// ```
/// let mut dag: Dag<u32, u32> = Dag::new(rt.alloc());
/// let sow = dag.add_node(1)?;
/// let reap: Neighbor<u32> = dag.add_child(sow, 90, 2)?;
/// match perform(&mut dag, Command::Children(sow)) {
///     Reply::Walk(children) => assert!(rt; children.as_slice() == [reap].as_slice()),
///     _ => assert!(rt; false),
/// }
/// ```
pub type Neighbor<Ix> = (EdgeIndex<Ix>, NodeIndex<Ix>);

/// An edge to be added: its parent, its child and its weight.
///
/// # Examples
///
/// ```
/// let mut dag: Dag<u32, u32> = Dag::new(rt.alloc());
/// let sow = dag.add_node(1)?;
/// let reap = dag.add_node(2)?;
/// let edge: NewEdge<u32, u32> = (sow, reap, 90);
/// let edges = Vec::from_array(rt.alloc(), [edge])?;
/// match perform(&mut dag, Command::Edges(edges)) {
///     Reply::Edges(added) => assert!(rt; added.as_slice() == [EdgeIndex::new(0)].as_slice()),
///     _ => assert!(rt; false),
/// }
/// ```
pub type NewEdge<E, Ix> = (NodeIndex<Ix>, NodeIndex<Ix>, E);

/// A command to a dag. The indices in it need not exist.
///
/// # Examples
///
/// ```
/// let mut dag: Dag<u32, u32> = Dag::new(rt.alloc());
/// let sow = NodeIndex::new(0);
/// assert!(rt; perform(&mut dag, Command::Node(1)) == Reply::Node(sow));
/// let reap = NodeIndex::new(1);
/// let days = EdgeIndex::new(0);
/// let reply = perform(&mut dag, Command::Child(sow, 90, 2));
/// assert!(rt; reply == Reply::EdgeNode(days, reap));
/// assert!(rt; perform(&mut dag, Command::Find(sow, reap)) == Reply::Found(Some(days)));
/// ```
#[derive(Debug, Drop, PartialEq)]
pub enum Command<N, E, Ix: IndexType = DefaultIx> {
    /// Add a node with this weight.
    Node(N),
    /// Add an edge: its parent, its child and its weight.
    Edge(NodeIndex<Ix>, NodeIndex<Ix>, E),
    /// Replace the weight of the newest edge from the first node to the second, or add an edge if
    /// there is none.
    Update(NodeIndex<Ix>, NodeIndex<Ix>, E),
    /// Add a child of a node: the node, the weight of the edge, and the weight of the new node.
    Child(NodeIndex<Ix>, E, N),
    /// Add a parent of a node: the node, the weight of the edge, and the weight of the new node.
    Parent(NodeIndex<Ix>, E, N),
    /// Add all these edges, or none.
    Edges(Vec<NewEdge<E, Ix>>),
    /// Find the newest edge from the first node to the second.
    Find(NodeIndex<Ix>, NodeIndex<Ix>),
    /// Return the parent and the child of an edge.
    Ends(EdgeIndex<Ix>),
    /// Remove a node with its edges.
    RemoveNode(NodeIndex<Ix>),
    /// Remove an edge.
    RemoveEdge(EdgeIndex<Ix>),
    /// List the children of a node.
    Children(NodeIndex<Ix>),
    /// List the parents of a node.
    Parents(NodeIndex<Ix>),
    /// Remove all edges.
    ClearEdges,
    /// Remove all nodes and edges.
    Clear,
    /// Remove the redundant edges that are reachable from these nodes.
    Reduce(Vec<NodeIndex<Ix>>),
}

/// The reply to a command.
///
/// # Examples
///
/// ```
/// let mut dag: Dag<u32, u32> = Dag::new(rt.alloc());
/// let sow = dag.add_node(1)?;
/// assert!(rt; perform(&mut dag, Command::Edge(sow, sow, 5)) == Reply::Cycle(5));
/// assert!(rt; perform(&mut dag, Command::RemoveNode(sow)) == Reply::NodeGone(Some(1)));
/// assert!(rt; perform(&mut dag, Command::RemoveNode(sow)) == Reply::NodeGone(None));
/// ```
#[derive(Debug, Drop, PartialEq)]
pub enum Reply<N, E, Ix: IndexType = DefaultIx> {
    /// The node that [`Command::Node`](crate::command::Command::Node) added.
    Node(NodeIndex<Ix>),
    /// The edge that [`Command::Edge`](crate::command::Command::Edge) added, or that
    /// [`Command::Update`](crate::command::Command::Update) added or gave another weight.
    Edge(EdgeIndex<Ix>),
    /// The edge and the node that [`Command::Child`](crate::command::Command::Child) or
    /// [`Command::Parent`](crate::command::Command::Parent) added.
    EdgeNode(EdgeIndex<Ix>, NodeIndex<Ix>),
    /// The edges that [`Command::Edges`](crate::command::Command::Edges) added, in the order in
    /// which they were given.
    Edges(Vec<EdgeIndex<Ix>>),
    /// The edge that [`Command::Find`](crate::command::Command::Find) found, or `None` if there is
    /// none.
    Found(Option<EdgeIndex<Ix>>),
    /// The parent and the child of the edge of [`Command::Ends`](crate::command::Command::Ends), or
    /// `None` if there is no such edge.
    Ends(Option<(NodeIndex<Ix>, NodeIndex<Ix>)>),
    /// The weight of the node that [`Command::RemoveNode`](crate::command::Command::RemoveNode)
    /// removed, or `None` if there was no such node.
    NodeGone(Option<N>),
    /// The weight of the edge that [`Command::RemoveEdge`](crate::command::Command::RemoveEdge)
    /// removed, or `None` if there was no such edge.
    EdgeGone(Option<E>),
    /// The edges that [`Command::Children`](crate::command::Command::Children) or
    /// [`Command::Parents`](crate::command::Command::Parents) lists, each with the child or the
    /// parent, newest edge first.
    Walk(Vec<Neighbor<Ix>>),
    /// [`Command::ClearEdges`](crate::command::Command::ClearEdges),
    /// [`Command::Clear`](crate::command::Command::Clear) or
    /// [`Command::Reduce`](crate::command::Command::Reduce) was carried out.
    Done,
    /// An endpoint of the edge to be added does not exist. Nothing has changed.
    Missing(Back<N, E>),
    /// The index type has no index left. Nothing has changed.
    Full(Back<N, E>),
    /// The edge with this weight would close a cycle. Nothing has changed.
    Cycle(E),
    /// All these edges together would close a cycle. Nothing has changed. The weights are in
    /// reverse order.
    CycleAll(Vec<E>),
    /// An allocation failed. Nothing has changed.
    Memory(Back<N, E>),
}

/// The weights of a command that failed, returned to the caller.
///
/// # Examples
///
/// ```
/// let mut dag: Dag<u32, u32> = Dag::new(rt.alloc());
/// // There is no node 9.
/// let reply = perform(&mut dag, Command::Child(NodeIndex::new(9), 90, 2));
/// assert!(rt; reply == Reply::Missing(Back::EdgeNode(90, 2)));
/// ```
#[derive(Debug, Drop, PartialEq)]
pub enum Back<N, E> {
    /// No weight: the command took none.
    Nothing,
    /// The weight of the node.
    Node(N),
    /// The weight of the edge.
    Edge(E),
    /// The weight of the edge and the weight of the node.
    EdgeNode(E, N),
    /// The weights of a batch of edges, up to the offending one.
    Edges {
        /// The weight of the offending edge.
        last: E,
        /// The weights of the edges before it, in reverse order.
        before: Vec<E>,
    },
}
