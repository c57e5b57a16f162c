//! Dags made from graphs that may have cycles.
ghost use Rattle.std.specs.Prelude.{◌≡◌, ◌+◌, ◌*◌, ◌≤◌, IfOk, IfErr};
ghost use Rattle.daggy_base.specs.Graph.{edge_count as edge_count_of};
ghost use Rattle.daggy_base.specs.Path.{IsAcyclic};
ghost use Rattle.daggy_dag.specs.FromGraph.{returned_graph, HasCycleOf};

use crate::acyclic::Acyclic;
use daggy_base::index::{DefaultIx, IndexType, NodeIndex};
use daggy_base::store::Store;
use daggy_components::find_cycle;
use daggy_guard::packed::sorted_order;
use daggy_search::Scratch;
use std::alloc::Global;
use std::{error, fmt};

/// Converting a graph into a dag failed. The error holds the graph, which is unchanged.
///
/// # Examples
///
/// ```
/// let mut graph: DiGraph<&'static str, u32> = DiGraph::new(rt.alloc());
/// let hen = graph.add_node("hen")?;
/// graph.add_edge(hen, hen, 1)?;
/// match Dag::try_from_graph(rt.alloc(), graph) {
///     Ok(_) => assert!(rt; false),
///     Err(error) => assert!(rt; error.into_graph().edge_count() == 1),
/// }
/// ```
#[derive(Drop)]
pub enum FromGraphError<S, Ix: IndexType = DefaultIx> {
    /// The graph has a cycle.
    Cycle {
        /// The graph.
        graph: S,
        /// The nodes of the cycle in order, each once. An edge leads from each node to the next,
        /// and from the last to the first.
        cycle: Vec<NodeIndex<Ix>>,
    },
    /// Out of memory for the order, or for the search for a cycle.
    Memory {
        /// The graph.
        graph: S,
    },
}

impl<S: Drop, Ix: IndexType> FromGraphError<S, Ix> {
    /// Returns the graph.
    pub fn into_graph(self) -> S
        ensures { result ≡ returned_graph self }
    {
        match self {
            FromGraphError::Cycle { graph, cycle: _ } => graph,
            FromGraphError::Memory { graph } => graph,
        }
    }
}

impl<S, Ix: IndexType> fmt::Debug for FromGraphError<S, Ix> {
    fn fmt<W: fmt::Write>(&self, f: &mut fmt::Formatter<W>) -> fmt::Result {
        match self {
            FromGraphError::Cycle { graph: _, cycle } => write!(f, "Cycle({cycle:?})"),
            FromGraphError::Memory { graph: _ } => write!(f, "Memory"),
        }
    }
}

impl<S, Ix: IndexType> fmt::Display for FromGraphError<S, Ix> {
    fn fmt<W: fmt::Write>(&self, f: &mut fmt::Formatter<W>) -> fmt::Result {
        match self {
            FromGraphError::Cycle { graph: _, cycle: _ } => write!(f, "has a cycle"),
            FromGraphError::Memory { graph: _ } => write!(f, "out of memory"),
        }
    }
}

impl<S: Drop, Ix: IndexType> error::Error for FromGraphError<S, Ix> {}

impl<N: Drop, E: Drop, Ix: IndexType, S> Acyclic<N, E, Ix, S>
where
    S: Store<Ix, NodeWeight = N, EdgeWeight = E>,
{
    /// Converts a graph that has no cycle into a dag. Indices, weights and lists are unchanged.
    ///
    /// [`into_graph`](Acyclic::into_graph) is the reverse.
    ///
    /// # Errors
    ///
    /// Returns `FromGraphError::Cycle` with a cycle if the graph has one, and
    /// `FromGraphError::Memory` if an allocation fails. Each error holds the graph.
    ///
    /// # Complexity
    ///
    /// O(slots).
    ///
    /// # Examples
    ///
    /// ```
    /// let mut graph: DiGraph<&'static str, u32> = DiGraph::new(rt.alloc());
    /// let hen = graph.add_node("hen")?;
    /// let egg = graph.add_node("egg")?;
    /// let laid = graph.add_edge(hen, egg, 1)?;
    /// let hatched = graph.add_edge(egg, hen, 21)?;
    /// match Dag::try_from_graph(rt.alloc(), graph) {
    ///     Err(FromGraphError::Cycle { mut graph, cycle }) => {
    ///         assert!(rt; cycle.as_slice() == [hen, egg].as_slice());
    ///         let _ = graph.remove_edge(hatched);
    ///         let dag = Dag::try_from_graph(rt.alloc(), graph).ok();
    ///         assert!(rt; dag.is_some_and(|dag| dag.find_edge(hen, egg) == Some(laid)));
    ///     }
    ///     _ => assert!(rt; false),
    /// }
    /// ```
    pub fn try_from_graph(alloc: Global, mut graph: S) -> Result<Self, FromGraphError<S, Ix>>
        ensures made { IfOk result (λ d. d.graph ≡ S.graph graph) }
        ensures acyclic { IfOk result (λ d. IsAcyclic d.graph) }
        ensures cycle { IfErr result (HasCycleOf Ix.number (S.graph graph)) }
        ensures returned { IfErr result (λ e. S.graph (returned_graph e) ≡ S.graph graph) }
        ensures counted { IfOk result (λ d.
            d.looks ≤ S.looks graph + edge_count_of (S.graph graph)) }
        ensures searched { IfErr result (λ e.
            S.looks (returned_graph e) ≤ S.looks graph + 2 * edge_count_of (S.graph graph)) }
    {
        let mut scratch = Scratch::new(alloc);
        let Ok(()) = scratch.reserve(graph.node_slots(), 0) else {
            return Err(FromGraphError::Memory { graph });
        };
        match sorted_order(alloc, &mut graph, &mut scratch) {
            Ok(Some(order)) => Ok(Acyclic::from_parts(graph, order, scratch)),
            Ok(None) => match find_cycle(alloc, &mut graph) {
                Ok(found) => Err(FromGraphError::Cycle {
                    graph,
                    cycle: found.unwrap(),
                }),
                Err(_) => Err(FromGraphError::Memory { graph }),
            },
            Err(_) => Err(FromGraphError::Memory { graph }),
        }
    }
}
