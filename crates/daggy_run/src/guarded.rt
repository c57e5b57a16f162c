//! The trait of a dag that takes commands.
ghost use Rattle.std.specs.Prelude.{◌≡◌, ℕ, ◌<◌, ◌≤◌, ◌^◌, ◌↔◌, ◌⊎◌, IsTrue, Err, None, IfOk};
ghost use Rattle.std.specs.Prelude.{IfErr, OnOk, OnErr, OnSome, IfSome, IfNone, IsOkAnd, length};
ghost use Rattle.std.specs.Prelude.{map};
ghost use Rattle.std.specs.Option.{option_map};
ghost use Rattle.daggy_base.specs.Graph.{Graph, empty, HasNode, HasEdge, node_weight as weight_at};
ghost use Rattle.daggy_base.specs.Graph.{edge_at, ends_of, pair_of, node_count as node_count_of};
ghost use Rattle.daggy_base.specs.Graph.{edge_count as edge_count_of, node_bound as node_bound_of};
ghost use Rattle.daggy_base.specs.Graph.{out_list};
ghost use Rattle.daggy_base.specs.Path.{Reaches, IsAcyclic};
ghost use Rattle.daggy_base.specs.WellFormed.{IsDag};
ghost use Rattle.daggy_base.specs.Adding.{next_node, next_edge, with_node, with_edge};
ghost use Rattle.daggy_base.specs.Adding.{with_neighbor};
ghost use Rattle.daggy_base.specs.Removal.{without_edge, without_node};
ghost use Rattle.daggy_base.specs.declared.kind.Kind.{Kind};
ghost use Rattle.daggy_base.specs.Removal.{without_all_edges};
ghost use Rattle.daggy_base.specs.Reduction.{IsReduction};
ghost use Rattle.daggy_base.specs.Weights.{edge_weight as edge_weight_at, with_edge_weight};
ghost use Rattle.daggy_base.specs.Finding.{find_edge as edge_between};
ghost use Rattle.daggy_base.specs.Cursor.{first_of};
ghost use Rattle.daggy_base.specs.Look.{IsLook};
ghost use Rattle.daggy_base.specs.Ordered.{IsOrderOf};
ghost use Rattle.daggy_base.specs.declared.index.Direction.TheVariants.{Outgoing, Incoming};
ghost use Rattle.daggy_base.specs.declared.error.NodeError.TheVariants.{Memory as NodeMemory};
ghost use Rattle.daggy_base.specs.declared.error.EdgeError.TheVariants.{WouldCycle as ByCycle};
ghost use Rattle.daggy_base.specs.declared.error.EdgeError.TheVariants.{Memory as EdgeMemory};
ghost use Rattle.daggy_base.specs.declared.error.ChildError.TheVariants.{Memory as ChildMemory};
ghost use Rattle.daggy_base.specs.Adding.{by_numbers};
ghost use Rattle.daggy_run.specs.Steps.{walk_of};
ghost use Rattle.daggy_run.specs.EdgeLists.{AddsAll, IsRefused};

use daggy_base::command::{Neighbor, NewEdge};
use daggy_base::error::{ChildError, EdgeError, EdgesError, NodeError};
use daggy_base::index::{EdgeIndex, IndexType, NodeIndex};
use daggy_base::kind::Kind;
use daggy_dag::acyclic::TopologicalOrder;
use std::alloc::AllocError;

mod acyclic;

/// A dag that takes commands. Both kinds do.
///
/// The methods that add require existing endpoints and a free index: test with
/// [`has_node`](GuardedDag::has_node), [`can_add_node`](GuardedDag::can_add_node) and
/// [`can_add_edge`](GuardedDag::can_add_edge). A call that fails changes nothing.
///
/// # Examples
///
/// ```
/// fn add_one<D: GuardedDag<u32, u32, u32>>(dag: &mut D) -> bool {
///     dag.can_add_node() && dag.add_node(1).is_ok()
/// }
///
/// let mut dag: Dag<u32, u32> = Dag::new(rt.alloc());
/// assert!(rt; add_one(&mut dag) && dag.node_count() == 1);
/// let mut dag: StableDag<u32, u32> = StableDag::new(rt.alloc());
/// assert!(rt; add_one(&mut dag) && dag.node_count() == 1);
/// ```
pub trait GuardedDag<N, E, Ix: IndexType> {
    // The graph.
    ghost graph: { Self → Graph N E };

    ghost KIND: { Kind };

    /// Which kind of dag it is: `Kind::Compact` if a removal moves the last element into the freed
    /// index, `Kind::Stable` if it leaves the slot vacant.
    const KIND: Kind;

    /// Whether the node exists.
    fn has_node(&self, n: NodeIndex<Ix>) -> bool
        ensures { IsTrue result ↔ HasNode (graph self.now) (Ix.number n) };

    /// Whether an index is left for one more node.
    fn can_add_node(&self) -> bool
        ensures value { IsTrue result ↔ (node_count_of (graph self.now) < Ix.greatest) }
        ensures dag { IsDag Ix.greatest (graph self.now) };

    /// Whether an index is left for one more edge.
    fn can_add_edge(&self) -> bool
        ensures value { IsTrue result ↔ (edge_count_of (graph self.now) < Ix.greatest) }
        ensures dag { IsDag Ix.greatest (graph self.now) };

    /// Adds a node without edges, and returns its index.
    ///
    /// # Requires
    ///
    /// - The index type has an index left for one more node. Test: `can_add_node()`.
    ///
    /// # Errors
    ///
    /// Returns `NodeError::Memory` with the weight if an allocation fails; the dag is unchanged.
    ///
    /// # Complexity
    ///
    /// Amortized O(1).
    fn add_node(&mut self, weight: N) -> Result<NodeIndex<Ix>, NodeError<N>>
        requires { node_count_of (graph self.old) < Ix.greatest }
        ensures added { IfOk result (λ n. (Ix.number n ≡ next_node (graph self.old))
            × (graph self.new ≡ with_node (graph self.old) weight)) }
        ensures refusal { IfErr result (λ e. e ≡ NodeMemory weight) }
        ensures unchanged { OnErr result (graph self.new ≡ graph self.old) }
        ensures acyclic { IsAcyclic (graph self.new) };

    /// Adds an edge from `a` to `b`, and returns its index.
    ///
    /// # Requires
    ///
    /// - `parent`: `a` is a node of the dag. Test: `has_node(a)`.
    /// - `child`: `b` is a node of the dag. Test: `has_node(b)`.
    /// - `index_left`: The index type has an index left for one more edge. Test: `can_add_edge()`.
    ///
    /// # Errors
    ///
    /// Returns `EdgeError::WouldCycle` if `b` reaches `a`, or is `a` itself, and
    /// `EdgeError::Memory` if an allocation fails. Each error holds the weight, and the dag is
    /// unchanged.
    ///
    /// # Complexity
    ///
    /// The same as `add_edge` of a dag: O(1) if `a` precedes `b` in its order, and otherwise a
    /// search.
    ///
    /// # Examples
    ///
    /// ```
    /// fn connect<D: GuardedDag<u32, u32, u32>>(dag: &mut D, a: NodeIndex, b: NodeIndex) -> bool {
    ///     let may_add = dag.has_node(a) && dag.has_node(b) && dag.can_add_edge();
    ///     may_add && dag.add_edge(a, b, 90).is_ok()
    /// }
    ///
    /// let mut dag: StableDag<u32, u32> = StableDag::new(rt.alloc());
    /// let sow = dag.add_node(1)?;
    /// let reap = dag.add_node(2)?;
    /// assert!(rt; connect(&mut dag, sow, reap));
    /// assert!(rt; !connect(&mut dag, reap, sow));
    /// ```
    fn add_edge(
        &mut self,
        a: NodeIndex<Ix>,
        b: NodeIndex<Ix>,
        weight: E,
    ) -> Result<EdgeIndex<Ix>, EdgeError<E>>
        requires parent { HasNode (graph self.old) (Ix.number a) }
        requires child { HasNode (graph self.old) (Ix.number b) }
        requires index_left { edge_count_of (graph self.old) < Ix.greatest }
        ensures cycle { (result ≡ Err (ByCycle (record { 0 = weight })))
            ↔ Reaches (graph self.old) (Ix.number b) (Ix.number a) }
        ensures refusal { IfErr result (λ e.
            (e ≡ ByCycle (record { 0 = weight })) ⊎ (e ≡ EdgeMemory weight)) }
        ensures added { IfOk result (λ e. (Ix.number e ≡ next_edge (graph self.old))
            × (graph self.new ≡ with_edge (graph self.old) (Ix.number a) (Ix.number b) weight)) }
        ensures unchanged { OnErr result (graph self.new ≡ graph self.old) }
        ensures acyclic { IsAcyclic (graph self.new) };

    /// Replaces the weight of the edge that [`find_edge`](GuardedDag::find_edge) returns for `a`
    /// and `b`, or adds an edge as [`add_edge`](GuardedDag::add_edge) does if there is none.
    /// Returns the index of that edge.
    ///
    /// # Requires
    ///
    /// - `parent`: `a` is a node of the dag. Test: `has_node(a)`.
    /// - `child`: `b` is a node of the dag. Test: `has_node(b)`.
    /// - `index_left`: If no edge leads from `a` to `b` yet, the index type has an index left for
    ///   one more edge. Test: `can_add_edge()`.
    ///
    /// # Errors
    ///
    /// Returns the errors of [`add_edge`](GuardedDag::add_edge), and only if no edge leads from `a`
    /// to `b`. Each error holds the weight, and the dag is unchanged.
    ///
    /// # Complexity
    ///
    /// The cost of [`find_edge`](GuardedDag::find_edge), plus the cost of
    /// [`add_edge`](GuardedDag::add_edge) if there is no such edge.
    fn update_edge(
        &mut self,
        a: NodeIndex<Ix>,
        b: NodeIndex<Ix>,
        weight: E,
    ) -> Result<EdgeIndex<Ix>, EdgeError<E>>
        requires parent { HasNode (graph self.old) (Ix.number a) }
        requires child { HasNode (graph self.old) (Ix.number b) }
        requires index_left { edge_between (graph self.old) (Ix.number a) (Ix.number b) ≡ None
            → edge_count_of (graph self.old) < Ix.greatest }
        ensures replaced { IfSome (edge_between (graph self.old) (Ix.number a) (Ix.number b)) (λ e.
            IsOkAnd result (λ updated. Ix.number updated ≡ e)
            × (graph self.new ≡ with_edge_weight (graph self.old) e weight)) }
        ensures cycle { (result ≡ Err (ByCycle (record { 0 = weight })))
            ↔ Reaches (graph self.old) (Ix.number b) (Ix.number a) }
        ensures refusal { IfErr result (λ e.
            (e ≡ ByCycle (record { 0 = weight })) ⊎ (e ≡ EdgeMemory weight)) }
        ensures added { edge_between (graph self.old) (Ix.number a) (Ix.number b) ≡ None
            → IfOk result (λ e.
            (Ix.number e ≡ next_edge (graph self.old))
            × (graph self.new ≡ with_edge (graph self.old) (Ix.number a) (Ix.number b) weight)) }
        ensures unchanged { OnErr result (graph self.new ≡ graph self.old) }
        ensures acyclic { IsAcyclic (graph self.new) };

    /// Adds a node and an edge from `parent` to it, or neither. Returns the index of the edge and
    /// the index of the node.
    ///
    /// # Requires
    ///
    /// - `parent`: `parent` is a node of the dag. Test: `has_node(parent)`.
    /// - `edge_index_left`: The index type has an index left for one more edge. Test:
    ///   `can_add_edge()`.
    /// - `node_index_left`: The index type has an index left for one more node. Test:
    ///   `can_add_node()`.
    ///
    /// # Errors
    ///
    /// Returns `ChildError::Memory` with both weights if an allocation fails; the dag is unchanged.
    /// The edge never closes a cycle.
    ///
    /// # Complexity
    ///
    /// Amortized O(1).
    fn add_child(
        &mut self,
        parent: NodeIndex<Ix>,
        edge: E,
        node: N,
    ) -> Result<Neighbor<Ix>, ChildError<N, E>>
        requires parent { HasNode (graph self.old) (Ix.number parent) }
        requires edge_index_left { edge_count_of (graph self.old) < Ix.greatest }
        requires node_index_left { node_count_of (graph self.old) < Ix.greatest }
        ensures added { IfOk result (λ r. (Ix.number r.0 ≡ next_edge (graph self.old))
            × (Ix.number r.1 ≡ next_node (graph self.old))
            × (graph self.new
            ≡ with_neighbor Outgoing (graph self.old) (Ix.number parent) edge node)) }
        ensures refusal { IfErr result (λ e. e ≡ ChildMemory edge node) }
        ensures unchanged { OnErr result (graph self.new ≡ graph self.old) }
        ensures acyclic { IsAcyclic (graph self.new) };

    /// Adds a node and an edge from it to `child`, or neither. Returns the index of the edge and
    /// the index of the node.
    ///
    /// # Requires
    ///
    /// - `child`: `child` is a node of the dag. Test: `has_node(child)`.
    /// - `edge_index_left`: The index type has an index left for one more edge. Test:
    ///   `can_add_edge()`.
    /// - `node_index_left`: The index type has an index left for one more node. Test:
    ///   `can_add_node()`.
    ///
    /// # Errors
    ///
    /// Returns `ChildError::Memory` with both weights if an allocation fails; the dag is unchanged.
    /// The edge never closes a cycle.
    ///
    /// # Complexity
    ///
    /// Amortized O(1).
    fn add_parent(
        &mut self,
        child: NodeIndex<Ix>,
        edge: E,
        node: N,
    ) -> Result<Neighbor<Ix>, ChildError<N, E>>
        requires child { HasNode (graph self.old) (Ix.number child) }
        requires edge_index_left { edge_count_of (graph self.old) < Ix.greatest }
        requires node_index_left { node_count_of (graph self.old) < Ix.greatest }
        ensures added { IfOk result (λ r. (Ix.number r.0 ≡ next_edge (graph self.old))
            × (Ix.number r.1 ≡ next_node (graph self.old))
            × (graph self.new
            ≡ with_neighbor Incoming (graph self.old) (Ix.number child) edge node)) }
        ensures refusal { IfErr result (λ e. e ≡ ChildMemory edge node) }
        ensures unchanged { OnErr result (graph self.new ≡ graph self.old) }
        ensures acyclic { IsAcyclic (graph self.new) };

    /// Adds all the edges, or none of them. Returns their indices in the order of `edges`. Unlike
    /// [`add_edge`](GuardedDag::add_edge) it has no precondition: an endpoint that does not exist
    /// is an error.
    ///
    /// # Errors
    ///
    /// Returns the error of the first edge that cannot be added: `EdgesError::BadEndpoint` if one
    /// of its endpoints does not exist, `EdgesError::Full` if no index is left for it, and
    /// `EdgesError::Memory` if an allocation fails. If there is no such edge,
    /// `EdgesError::WouldCycle` if all edges together close a cycle. Each error holds the weights
    /// of the edges up to the one that failed, and the dag is unchanged.
    ///
    /// # Complexity
    ///
    /// The same as `add_edges` of a dag, which reads O(nodes + edges) edges.
    fn add_edges(&mut self, edges: Vec<NewEdge<E, Ix>>) -> Result<Vec<EdgeIndex<Ix>>, EdgesError<E>>
        ensures added { IfOk result (λ indices. AddsAll Ix.greatest (graph self.old)
            (map (by_numbers Ix.number) edges.items) (map Ix.number indices.items)
            (graph self.new)) }
        ensures refused { IfErr result (λ error. IsRefused Ix.greatest (graph self.old)
            (map (by_numbers Ix.number) edges.items) error) }
        ensures unchanged { OnErr result (graph self.new ≡ graph self.old) }
        ensures acyclic { IsAcyclic (graph self.new) };

    /// The newest edge from `a` to `b`, or `None` if there is none.
    ///
    /// # Complexity
    ///
    /// O(edges that leave `a`).
    fn find_edge(&self, a: NodeIndex<Ix>, b: NodeIndex<Ix>) -> Option<EdgeIndex<Ix>>
        ensures found { option_map Ix.number result
            ≡ edge_between (graph self.now) (Ix.number a) (Ix.number b) }
        ensures ends { OnSome result (HasNode (graph self.now) (Ix.number a)
            × HasNode (graph self.now) (Ix.number b)) };

    /// The parent and the child of an edge, or `None` if there is no such edge.
    fn edge_endpoints(&self, e: EdgeIndex<Ix>) -> Option<(NodeIndex<Ix>, NodeIndex<Ix>)>
        ensures { option_map (pair_of Ix.number) result
            ≡ option_map ends_of (edge_at (graph self.now) (Ix.number e)) };

    /// Removes a node with its edges and returns its weight, or `None` if there is no such node.
    ///
    /// # Complexity
    ///
    /// The same as `remove_node` of a dag.
    fn remove_node(&mut self, n: NodeIndex<Ix>) -> Option<N>
        ensures value { result ≡ weight_at (graph self.old) (Ix.number n) }
        ensures removed { OnSome result
            (graph self.new ≡ without_node KIND (graph self.old) (Ix.number n)) }
        ensures missing { IfNone result (graph self.new ≡ graph self.old) }
        ensures acyclic { IsAcyclic (graph self.new) };

    /// Removes an edge and returns its weight, or `None` if there is no such edge.
    ///
    /// # Complexity
    ///
    /// The same as `remove_edge` of a dag.
    fn remove_edge(&mut self, e: EdgeIndex<Ix>) -> Option<E>
        ensures value { result ≡ edge_weight_at (graph self.old) (Ix.number e) }
        ensures removed { OnSome result
            (graph self.new ≡ without_edge KIND (graph self.old) (Ix.number e)) }
        ensures missing { IfNone result (graph self.new ≡ graph self.old) }
        ensures acyclic { IsAcyclic (graph self.new) };

    /// The edges that leave a node with their children, newest first. A missing node has none.
    ///
    /// # Errors
    ///
    /// Returns `AllocError` if an allocation fails.
    ///
    /// # Complexity
    ///
    /// O(children).
    fn children(&self, n: NodeIndex<Ix>) -> Result<Vec<Neighbor<Ix>>, AllocError>
        ensures { IfOk result (λ items. map (pair_of Ix.number) items.items
            ≡ walk_of Outgoing (graph self.now) (Ix.number n)) };

    /// The edges that enter a node with their parents, newest first. A missing node has none.
    ///
    /// # Errors
    ///
    /// Returns `AllocError` if an allocation fails.
    ///
    /// # Complexity
    ///
    /// O(parents).
    fn parents(&self, n: NodeIndex<Ix>) -> Result<Vec<Neighbor<Ix>>, AllocError>
        ensures { IfOk result (λ items. map (pair_of Ix.number) items.items
            ≡ walk_of Incoming (graph self.now) (Ix.number n)) };

    /// Removes all edges, and keeps the nodes.
    ///
    /// # Complexity
    ///
    /// O(slots).
    fn clear_edges(&mut self)
        ensures cleared { graph self.new ≡ without_all_edges (graph self.old) }
        ensures acyclic { IsAcyclic (graph self.new) };

    /// Removes all nodes and edges.
    ///
    /// # Complexity
    ///
    /// O(slots).
    fn clear(&mut self)
        ensures cleared { graph self.new ≡ empty }
        ensures acyclic { IsAcyclic (graph self.new) };

    /// Removes the redundant edges that are reachable from `roots`, from the highest index down.
    ///
    /// # Errors
    ///
    /// Returns `AllocError` if an allocation fails; the dag is unchanged.
    ///
    /// # Complexity
    ///
    /// The same as `transitive_reduce` of a dag.
    fn transitive_reduce(&mut self, roots: Vec<NodeIndex<Ix>>) -> Result<(), AllocError>
        ensures reduced { OnOk result
            (IsReduction KIND (map Ix.number roots.items) (graph self.old) (graph self.new)) }
        ensures unchanged { OnErr result (graph self.new ≡ graph self.old) }
        ensures acyclic { IsAcyclic (graph self.new) };

    /// One more than the greatest node index, or 0 if there is no node.
    ///
    /// # Complexity
    ///
    /// O(1), plus the vacant slots after that node.
    fn node_bound(&self) -> usize
        ensures value { result ≡ node_bound_of (graph self.now) }
        ensures fits { node_bound_of (graph self.now) ≤ Ix.greatest }
        ensures dag { IsDag Ix.greatest (graph self.now) };

    /// The newest edge that leaves a node, or `end` if there is none.
    fn first_child(&self, n: NodeIndex<Ix>) -> EdgeIndex<Ix>
        ensures { Ix.number result
            ≡ first_of Ix.greatest (out_list (graph self.now) (Ix.number n)) };

    /// The child of an edge, and the next edge in the out list of its parent, or `end` if the given
    /// edge is the last. With [`first_child`](GuardedDag::first_child) it can be used to iterate
    /// over the children of a node without allocation.
    ///
    /// # Requires
    ///
    /// - `e` is an edge of the dag. Test: `edge_endpoints(e).is_some()`.
    ///
    /// # Examples
    ///
    /// ```
    /// fn newest_child<D: GuardedDag<u32, u32, u32>>(dag: &D, n: NodeIndex) -> Option<NodeIndex> {
    ///     let e = dag.first_child(n);
    ///     if dag.edge_endpoints(e).is_some() { Some(dag.child_edge(e).0) } else { None }
    /// }
    ///
    /// let mut dag: Dag<u32, u32> = Dag::new(rt.alloc());
    /// let sow = dag.add_node(1)?;
    /// let (_, reap) = dag.add_child(sow, 90, 2)?;
    /// assert!(rt; newest_child(&dag, sow) == Some(reap));
    /// assert!(rt; newest_child(&dag, reap).is_none());
    /// ```
    fn child_edge(&self, e: EdgeIndex<Ix>) -> (NodeIndex<Ix>, EdgeIndex<Ix>)
        requires { HasEdge (graph self.now) (Ix.number e) }
        ensures { IsLook Ix.greatest (graph self.now) (Ix.number e) (Ix.number result.0)
            (Ix.number result.1) };

    /// The nodes in topological order: each after its parents.
    ///
    /// # Complexity
    ///
    /// O(nodes) for the whole iteration.
    fn topological_order(&self) -> TopologicalOrder<'_, Ix>
        ensures ordered { IsOrderOf (graph self.now) result }
        ensures fits { length result < 2 ^ 64 };
}
