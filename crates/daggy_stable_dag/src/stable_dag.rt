//! The stable dag, whose indices outlive removals, and the types that its methods use.
use daggy_base::index::DefaultIx;
pub use daggy_base::index::{EdgeIndex, NodeIndex};
use daggy_dag::acyclic;
pub use daggy_dag::acyclic::{Children, Parents, StableDag, TopologicalOrder};
pub use daggy_guard::edge_indices::EdgeIndices;
use daggy_stable::stable_graph::StableDiGraph;
pub use daggy_stable::stable_graph::lists::Edges;
use daggy_walk::walker::Recursive;
pub use daggy_walk::walker::Walker;

/// A walk over a [`StableDag`] along edges that a function chooses.
pub type RecursiveWalk<N, E, Ix, F> = Recursive<StableDag<N, E, Ix>, F>;

/// Mutable references to the weights of the nodes of a [`StableDag`], one at a time, in ascending
/// index order.
pub type NodeWeightsMut<'a, N, E, Ix = DefaultIx> = acyclic::NodeWeightsMut<
    'a,
    N,
    E,
    Ix,
    StableDiGraph<N, E, Ix>,
>;

/// Mutable references to the weights of the edges of a [`StableDag`], one at a time, in ascending
/// index order.
pub type EdgeWeightsMut<'a, N, E, Ix = DefaultIx> = acyclic::EdgeWeightsMut<
    'a,
    N,
    E,
    Ix,
    StableDiGraph<N, E, Ix>,
>;
