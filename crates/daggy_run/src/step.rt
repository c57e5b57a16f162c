//! One command, carried out.
ghost use Rattle.std.specs.Prelude.{◌≡◌, map, IfOk, OnErr};
ghost use Rattle.daggy_base.specs.Path.{IsAcyclic};
ghost use Rattle.daggy_base.specs.Finding.{find_edge as edge_between};
ghost use Rattle.daggy_base.specs.Adding.{by_numbers};
ghost use Rattle.daggy_base.specs.Requests.{request_of, Node, Children, Parents, Reduce};
ghost use Rattle.daggy_base.specs.Answers.{answer_of};
ghost use Rattle.daggy_run.specs.Steps.{IsStep, IsEdgeStep, IsUpdateStep, IsNeighborStep};
ghost use Rattle.daggy_run.specs.Steps.{IsBatchStep};

use crate::guarded::GuardedDag;
use daggy_base::command::{Back, Command, Neighbor, NewEdge, Reply};
use daggy_base::error::{ChildError, EdgeError, EdgesError, NodeError};
use daggy_base::index::{Direction, IndexType, NodeIndex};
use std::alloc::AllocError;

fn add_node<N: Drop, E: Drop, Ix: IndexType, D: GuardedDag<N, E, Ix>>(
    dag: &mut D,
    weight: N,
) -> Reply<N, E, Ix>
    ensures step { IsStep D.KIND Ix.greatest (D.graph dag.old) (Node weight)
        (answer_of Ix.number result) (D.graph dag.new) }
    ensures acyclic { IsAcyclic (D.graph dag.new) }
{
    if !dag.can_add_node() {
        return Reply::Full(Back::Node(weight));
    }
    match dag.add_node(weight) {
        Ok(n) => Reply::Node(n),
        Err(error) => Reply::Memory(Back::Node(error.into_weight())),
    }
}

fn add_edge<N: Drop, E: Drop, Ix: IndexType, D: GuardedDag<N, E, Ix>>(
    dag: &mut D,
    a: NodeIndex<Ix>,
    b: NodeIndex<Ix>,
    weight: E,
) -> Reply<N, E, Ix>
    ensures step { IsEdgeStep Ix.greatest (D.graph dag.old) (by_numbers Ix.number (a, b, weight))
        (answer_of Ix.number result) (D.graph dag.new) }
    ensures acyclic { IsAcyclic (D.graph dag.new) }
{
    // Called before the tests of nodes, also for its postcondition: there is no cycle.
    let index_left = dag.can_add_edge();
    if !dag.has_node(a) || !dag.has_node(b) {
        return Reply::Missing(Back::Edge(weight));
    }
    if !index_left {
        return Reply::Full(Back::Edge(weight));
    }
    match dag.add_edge(a, b, weight) {
        Ok(e) => Reply::Edge(e),
        Err(EdgeError::WouldCycle(refused)) => Reply::Cycle(refused.0),
        Err(error) => Reply::Memory(Back::Edge(error.into_weight())),
    }
}

fn update_edge<N: Drop, E: Drop, Ix: IndexType, D: GuardedDag<N, E, Ix>>(
    dag: &mut D,
    a: NodeIndex<Ix>,
    b: NodeIndex<Ix>,
    weight: E,
) -> Reply<N, E, Ix>
    ensures step { IsUpdateStep Ix.greatest
        (edge_between (D.graph dag.old) (Ix.number a) (Ix.number b))
        (D.graph dag.old) (by_numbers Ix.number (a, b, weight)) (answer_of Ix.number result)
        (D.graph dag.new) }
    ensures acyclic { IsAcyclic (D.graph dag.new) }
{
    let Some(e) = dag.find_edge(a, b) else {
        return add_edge(dag, a, b, weight);
    };
    // The two are joined, so this cannot fail.
    let _updated = dag.update_edge(a, b, weight);
    Reply::Edge(e)
}

fn add_neighbor<N: Drop, E: Drop, Ix: IndexType, D: GuardedDag<N, E, Ix>>(
    dag: &mut D,
    dir: Direction,
    n: NodeIndex<Ix>,
    edge: E,
    node: N,
) -> Reply<N, E, Ix>
    ensures step { IsNeighborStep dir Ix.greatest (D.graph dag.old) (Ix.number n) edge node
        (answer_of Ix.number result) (D.graph dag.new) }
    ensures acyclic { IsAcyclic (D.graph dag.new) }
{
    let indices_left = dag.can_add_edge() && dag.can_add_node();
    if !dag.has_node(n) {
        return Reply::Missing(Back::EdgeNode(edge, node));
    }
    if !indices_left {
        return Reply::Full(Back::EdgeNode(edge, node));
    }
    let added = match dir {
        Direction::Outgoing => dag.add_child(n, edge, node),
        Direction::Incoming => dag.add_parent(n, edge, node),
    };
    match added {
        Ok((e, n)) => Reply::EdgeNode(e, n),
        Err(ChildError::Memory(edge, node)) => Reply::Memory(Back::EdgeNode(edge, node)),
    }
}

fn add_edges<N: Drop, E: Drop, Ix: IndexType, D: GuardedDag<N, E, Ix>>(
    dag: &mut D,
    edges: Vec<NewEdge<E, Ix>>,
) -> Reply<N, E, Ix>
    ensures step { IsBatchStep Ix.greatest (D.graph dag.old)
        (map (by_numbers Ix.number) edges.items)
        (answer_of Ix.number result) (D.graph dag.new) }
    ensures acyclic { IsAcyclic (D.graph dag.new) }
{
    match dag.add_edges(edges) {
        Ok(indices) => Reply::Edges(indices),
        Err(EdgesError::BadEndpoint { last, before }) => Reply::Missing(Back::Edges {
            last,
            before,
        }),
        Err(EdgesError::Full { last, before }) => Reply::Full(Back::Edges { last, before }),
        Err(EdgesError::Memory { last, before }) => Reply::Memory(Back::Edges { last, before }),
        Err(EdgesError::WouldCycle(refused)) => Reply::CycleAll(refused.0),
    }
}

fn walk<N: Drop, E: Drop, Ix: IndexType>(
    items: Result<Vec<Neighbor<Ix>>, AllocError>,
) -> Reply<N, E, Ix>
    ensures listed { IfOk items (λ listed. result ≡ Reply.Walk listed) }
    ensures refused { OnErr items (result ≡ Reply.Memory Back.Nothing) }
{
    match items {
        Ok(items) => Reply::Walk(items),
        Err(_) => Reply::Memory(Back::Nothing),
    }
}

/// Carries out one command. A command that fails changes nothing.
///
/// If an endpoint of a new edge does not exist, the reply is `Missing`; otherwise, if no index is
/// left, it is `Full`; otherwise, if a cycle would be closed, `Cycle` or `CycleAll`.
///
/// # Complexity
///
/// The cost of the method of the dag that carries out the command.
///
/// # Examples
///
/// ```
/// let mut dag: Dag<u32, u32> = Dag::new(rt.alloc());
/// let sow = NodeIndex::new(0);
/// assert!(rt; perform(&mut dag, Command::Node(1)) == Reply::Node(sow));
/// // There is no node 5.
/// let reply = perform(&mut dag, Command::Edge(sow, NodeIndex::new(5), 90));
/// assert!(rt; reply == Reply::Missing(Back::Edge(90)));
/// ```
pub fn perform<N: Drop, E: Drop, Ix: IndexType, D: GuardedDag<N, E, Ix>>(
    dag: &mut D,
    command: Command<N, E, Ix>,
) -> Reply<N, E, Ix>
    ensures step { IsStep D.KIND Ix.greatest (D.graph dag.old) (request_of Ix.number command)
        (answer_of Ix.number result) (D.graph dag.new) }
    ensures acyclic { IsAcyclic (D.graph dag.new) }
{
    // Called only for its postcondition: there is no cycle.
    let _acyclic = dag.can_add_node();
    match command {
        Command::Node(weight) => add_node(dag, weight),
        Command::Edge(a, b, weight) => add_edge(dag, a, b, weight),
        Command::Update(a, b, weight) => update_edge(dag, a, b, weight),
        Command::Child(parent, edge, node) => {
            add_neighbor(dag, Direction::Outgoing, parent, edge, node)
        }
        Command::Parent(child, edge, node) => {
            add_neighbor(dag, Direction::Incoming, child, edge, node)
        }
        Command::Edges(edges) => add_edges(dag, edges),
        Command::RemoveNode(n) => Reply::NodeGone(dag.remove_node(n)),
        Command::RemoveEdge(e) => Reply::EdgeGone(dag.remove_edge(e)),
        Command::ClearEdges => {
            dag.clear_edges();
            Reply::Done
        }
        Command::Clear => {
            dag.clear();
            Reply::Done
        }
        Command::Find(a, b) => Reply::Found(dag.find_edge(a, b)),
        Command::Ends(e) => Reply::Ends(dag.edge_endpoints(e)),
        Command::Children(n) => walk(dag.children(n)),
        Command::Parents(n) => walk(dag.parents(n)),
        Command::Reduce(roots) => match dag.transitive_reduce(roots) {
            Ok(()) => Reply::Done,
            Err(_) => Reply::Memory(Back::Nothing),
        },
    }
}
