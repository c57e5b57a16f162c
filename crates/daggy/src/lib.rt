//! Directed acyclic graphs with weights at nodes and edges.
//!
//! A [`Dag`] stays acyclic: an edge is rejected if and only if its child already reaches its
//! parent, and the error returns its weight. [`NodeIndex`] and [`EdgeIndex`] identify nodes and
//! edges. A [`Walker`], such as [`Children`], iterates over a node's edges and borrows the dag only
//! while it takes a step.
//!
//! ```
//! let mut dag: Dag<&'static str, u32> = Dag::new(rt.alloc());
//! let sow = dag.add_node("sow")?;
//! let (days, reap) = dag.add_child(sow, 90, "reap")?;
//! assert!(rt; dag.add_edge(reap, sow, 5).is_err());
//! assert!(rt; dag.children(sow).walk_next(&dag) == Some((days, reap)));
//! ```
//!
//! In a `Dag` a removal moves the last element into the freed index; in the dag of [`stable_dag`]
//! no other index changes. Both are aliases of [`Acyclic`], each over its own [`Store`], so code
//! can be generic over the kind; for code that only reads, the bound [`ReadStore`] is enough.
//!
//! - [`named`]: dags whose nodes have keys, and whose methods accept any key; [`computed`]: dags
//!   whose nodes have formulas and values.
//! - [`operators`]: subgraphs of a dag, reversed and merged dags, transitive closures, simple paths,
//!   lowest common ancestors, and the order of children.
//! - [`schedule`]: ready queues, schedules and orders by keys; [`run`]: plans in stages, and lists
//!   of commands.
//! - [`traversal`]: breadth-first and depth-first walks; [`walker`]: walkers, which iterate without
//!   a lasting borrow, and their adapters; [`visit`]: traits for generic code.
//! - [`json`]: dags as JSON; [`dot`]: dags as graphviz pictures; [`formats`]: Mermaid, GraphML and
//!   tables.
//! - [`graph`] and [`stable_graph`]: the stores inside, which may have cycles; [`search`]: paths,
//!   orders and reductions of any graph; [`components`]: its components and cycles.
//! - [`index`]: typed indices.
#![tactic(auto)]

pub mod components;
pub mod computed;
pub mod dot;
pub mod formats;
pub mod graph;
pub mod index;
pub mod json;
pub mod named;
pub mod operators;
pub mod run;
pub mod schedule;
pub mod search;
pub mod stable_graph;
pub mod traversal;

pub use daggy_base::element::IntoWeightedEdge;
pub use daggy_base::error::{
    ChildError, EdgeError, EdgesError, ElementError, NodeError, ParentsError, SlotsError,
    TryChildError, WouldCycle,
};
pub use daggy_base::index::{DefaultIx, Direction, EdgeIndex, IndexType, NodeIndex};
pub use daggy_base::read_store::ReadStore;
pub use daggy_base::store::Store;
pub use daggy_cells::reference::EdgeReference;
pub use daggy_dag::acyclic::{
    Acyclic, Children, Dag, EdgeWeightsMut, EdgesConnecting, Externals, FromGraphError,
    NodeWeightsMut, Parents, RawEdges, RawNodes, RecursiveWalk, StableDag, TopologicalOrder,
    TryParentsError, same_reachability,
};
pub use daggy_graph::graph::lists::Edges;
pub use daggy_guard::edge_indices::EdgeIndices;
pub use daggy_paths::Paths;
pub use daggy_stable_dag::stable_dag;
pub use daggy_visit::visit;
pub use daggy_walk::walker;
pub use daggy_walk::walker::Walker;
