//! Methods that test what `add_node`, `add_edge` and similar methods require, and then add nodes
//! and edges.
ghost use Rattle.std.specs.Prelude.{◌≡◌, ◌+◌, ◌<◌, ◌≤◌, ◌↔◌, ◌⊎◌, Err, None, IfOk, IfErr, OnErr};
ghost use Rattle.std.specs.Prelude.{IfSome, IsOkAnd};
ghost use Rattle.daggy_base.specs.Graph.{HasNode, node_count as node_count_of};
ghost use Rattle.daggy_base.specs.Graph.{edge_count as edge_count_of};
ghost use Rattle.daggy_base.specs.Path.{Reaches, IsAcyclic};
ghost use Rattle.daggy_base.specs.Adding.{next_node, next_edge, with_node, with_edge};
ghost use Rattle.daggy_base.specs.Adding.{with_neighbor, ComesFirst};
ghost use Rattle.daggy_base.specs.Finding.{find_edge as edge_between};
ghost use Rattle.daggy_base.specs.State.{with_graph};
ghost use Rattle.daggy_base.specs.Weights.{with_edge_weight};
ghost use Rattle.daggy_base.specs.declared.index.Direction.TheVariants.{Outgoing, Incoming};
ghost use Rattle.daggy_base.specs.declared.error.NodeError.TheVariants.{Memory as NodeMemory};
ghost use Rattle.daggy_base.specs.declared.error.NodeError.TheVariants.{Full as NodeFull};
ghost use Rattle.daggy_base.specs.declared.error.EdgeError.TheVariants.{WouldCycle as ByCycle};
ghost use Rattle.daggy_base.specs.declared.error.EdgeError.TheVariants.{Memory as EdgeMemory};
ghost use Rattle.daggy_base.specs.declared.error.EdgeError.TheVariants.{BadEndpoint, Full};
ghost use Rattle.daggy_base.specs.declared.error.TryChildError.TheVariants.{Missing as ChildMissing};
ghost use Rattle.daggy_base.specs.declared.error.TryChildError.TheVariants.{Full as ChildFull};
ghost use Rattle.daggy_base.specs.declared.error.TryChildError.TheVariants.{Memory as ChildMemory};

use crate::acyclic::Acyclic;
use daggy_base::error::{ChildError, EdgeError, NodeError, TryChildError};
use daggy_base::index::{EdgeIndex, IndexType, NodeIndex};
use daggy_base::store::Store;

impl<N: Drop, E: Drop, Ix: IndexType, S> Acyclic<N, E, Ix, S>
where
    S: Store<Ix, NodeWeight = N, EdgeWeight = E>,
{
    /// Adds a node as [`add_node`](Acyclic::add_node) does, if there is an index left for it.
    ///
    /// # Errors
    ///
    /// Returns `NodeError::Full` if the index type has no index left, and `NodeError::Memory` if an
    /// allocation fails. Each error holds the weight, and the dag is unchanged.
    ///
    /// # Complexity
    ///
    /// The same as [`add_node`](Acyclic::add_node).
    ///
    /// # Examples
    ///
    /// ```
    /// let mut dag: Dag<u32, (), u8> = Dag::new(rt.alloc());
    /// let mut added: u32 = 0;
    /// while dag.try_add_node(added).is_ok() {
    ///     added = added.wrapping_add(1);
    /// }
    /// assert!(rt; added == 255);
    /// assert!(rt; dag.try_add_node(7) == Err(NodeError::Full(7)));
    /// ```
    pub fn try_add_node(&mut self, weight: N) -> Result<NodeIndex<Ix>, NodeError<N>>
        ensures full { (result ≡ Err (NodeFull weight)) ↔ (Ix.greatest ≤ node_count_of self.old.graph) }
        ensures refusal { IfErr result (λ e. (e ≡ NodeFull weight) ⊎ (e ≡ NodeMemory weight)) }
        ensures added { IfOk result (λ n. (Ix.number n ≡ next_node self.old.graph)
            × (self.new.graph ≡ with_node self.old.graph weight)) }
        ensures unchanged { OnErr result (self.new.graph ≡ self.old.graph) }
        ensures acyclic { IsAcyclic self.new.graph }
        ensures counted { self.new.looks ≡ self.old.looks }
    {
        self.guarded.invariant();
        if !self.can_add_node() {
            return Err(NodeError::Full(weight));
        }
        self.add_node(weight)
    }

    /// Adds an edge as [`add_edge`](Acyclic::add_edge) does, if both of its endpoints exist and
    /// there is an index left for it.
    ///
    /// # Errors
    ///
    /// Returns the first of these errors that applies: `EdgeError::BadEndpoint` if an endpoint does
    /// not exist, `EdgeError::Full` if the index type has no index left, `EdgeError::WouldCycle` if
    /// `b` already reaches `a`, and `EdgeError::Memory` if an allocation fails. Each error holds
    /// the weight, and the dag is unchanged.
    ///
    /// # Complexity
    ///
    /// The same as [`add_edge`](Acyclic::add_edge).
    ///
    /// # Examples
    ///
    /// ```
    /// let mut dag: Dag<&'static str, u32> = Dag::new(rt.alloc());
    /// let sow = dag.try_add_node("sow")?;
    /// assert!(rt; dag.try_add_edge(sow, NodeIndex::new(9), 90) == Err(EdgeError::BadEndpoint(90)));
    /// assert!(rt; dag.try_add_edge(sow, sow, 5) == Err(EdgeError::WouldCycle(WouldCycle(5))));
    /// ```
    pub fn try_add_edge(
        &mut self,
        a: NodeIndex<Ix>,
        b: NodeIndex<Ix>,
        weight: E,
    ) -> Result<EdgeIndex<Ix>, EdgeError<E>>
        ensures missing { (result ≡ Err (BadEndpoint weight))
            ↔ (¬ HasNode self.old.graph (Ix.number a) ⊎ ¬ HasNode self.old.graph (Ix.number b)) }
        ensures full { (result ≡ Err (Full weight))
            ↔ (HasNode self.old.graph (Ix.number a) × HasNode self.old.graph (Ix.number b)
            × (Ix.greatest ≤ edge_count_of self.old.graph)) }
        ensures cycle { (result ≡ Err (ByCycle (record { 0 = weight })))
            ↔ (Reaches self.old.graph (Ix.number b) (Ix.number a)
            × (edge_count_of self.old.graph < Ix.greatest)) }
        ensures refusal { IfErr result (λ e. (e ≡ BadEndpoint weight) ⊎ (e ≡ Full weight)
            ⊎ (e ≡ ByCycle (record { 0 = weight })) ⊎ (e ≡ EdgeMemory weight)) }
        ensures added { IfOk result (λ e. (Ix.number e ≡ next_edge self.old.graph)
            × (self.new.graph ≡ with_edge self.old.graph (Ix.number a) (Ix.number b) weight)) }
        ensures first { IfOk result (λ e.
            ComesFirst self.old.graph self.new.graph (Ix.number a) (Ix.number b) (Ix.number e)) }
        ensures unchanged { OnErr result (self.new.graph ≡ self.old.graph) }
        ensures acyclic { IsAcyclic self.new.graph }
        ensures looked { self.old.looks ≤ self.new.looks }
        ensures counted { self.new.looks ≤ self.old.looks + edge_count_of self.old.graph }
    {
        self.guarded.invariant();
        if !self.contains_node(a) || !self.contains_node(b) {
            return Err(EdgeError::BadEndpoint(weight));
        }
        if !self.can_add_edge() {
            return Err(EdgeError::Full(weight));
        }
        self.add_edge(a, b, weight)
    }

    /// Replaces the weight of an edge, or adds an edge, as [`update_edge`](Acyclic::update_edge)
    /// does, if both endpoints exist and, for an edge that has to be added, there is an index left.
    ///
    /// # Errors
    ///
    /// The same as [`try_add_edge`](Acyclic::try_add_edge). If an edge already leads from `a` to
    /// `b`, the call cannot fail.
    ///
    /// # Complexity
    ///
    /// The same as [`update_edge`](Acyclic::update_edge).
    ///
    /// # Examples
    ///
    /// ```
    /// let mut dag: Dag<&'static str, u32> = Dag::new(rt.alloc());
    /// let sow = dag.try_add_node("sow")?;
    /// let (days, reap) = dag.try_add_child(sow, 90, "reap")?;
    /// assert!(rt; dag.try_update_edge(sow, reap, 80) == Ok(days));
    /// assert!(rt; dag.edge_weight(days) == Some(&80));
    /// let nowhere = NodeIndex::new(9);
    /// assert!(rt; dag.try_update_edge(sow, nowhere, 5) == Err(EdgeError::BadEndpoint(5)));
    /// ```
    pub fn try_update_edge(
        &mut self,
        a: NodeIndex<Ix>,
        b: NodeIndex<Ix>,
        weight: E,
    ) -> Result<EdgeIndex<Ix>, EdgeError<E>>
        ensures missing { (result ≡ Err (BadEndpoint weight))
            ↔ (¬ HasNode self.old.graph (Ix.number a) ⊎ ¬ HasNode self.old.graph (Ix.number b)) }
        ensures full { (result ≡ Err (Full weight))
            ↔ (HasNode self.old.graph (Ix.number a) × HasNode self.old.graph (Ix.number b)
            × (edge_between self.old.graph (Ix.number a) (Ix.number b) ≡ None)
            × (Ix.greatest ≤ edge_count_of self.old.graph)) }
        ensures replaced { IfSome (edge_between self.old.graph (Ix.number a) (Ix.number b)) (λ e.
            IsOkAnd result (λ updated. Ix.number updated ≡ e)
            × (self.new ≡ with_graph self.old (with_edge_weight self.old.graph e weight))) }
        ensures cycle { (result ≡ Err (ByCycle (record { 0 = weight })))
            ↔ (Reaches self.old.graph (Ix.number b) (Ix.number a)
            × (edge_count_of self.old.graph < Ix.greatest)) }
        ensures refusal { IfErr result (λ e. (e ≡ BadEndpoint weight) ⊎ (e ≡ Full weight)
            ⊎ (e ≡ ByCycle (record { 0 = weight })) ⊎ (e ≡ EdgeMemory weight)) }
        ensures added { edge_between self.old.graph (Ix.number a) (Ix.number b) ≡ None
            → IfOk result (λ e.
            (Ix.number e ≡ next_edge self.old.graph)
            × (self.new.graph ≡ with_edge self.old.graph (Ix.number a) (Ix.number b) weight)) }
        ensures unchanged { OnErr result (self.new.graph ≡ self.old.graph) }
        ensures acyclic { IsAcyclic self.new.graph }
        ensures looked { self.old.looks ≤ self.new.looks }
        ensures counted { self.new.looks ≤ self.old.looks + edge_count_of self.old.graph }
    {
        self.guarded.invariant();
        if !self.contains_node(a) || !self.contains_node(b) {
            return Err(EdgeError::BadEndpoint(weight));
        }
        if !self.can_add_edge() && self.find_edge(a, b).is_none() {
            return Err(EdgeError::Full(weight));
        }
        self.update_edge(a, b, weight)
    }

    /// Adds a node and an edge from `parent` to it as [`add_child`](Acyclic::add_child) does, if
    /// `parent` exists and there is an index left for both.
    ///
    /// # Errors
    ///
    /// Returns the first of these errors that applies: `TryChildError::Missing` if `parent` does
    /// not exist, `TryChildError::Full` if the index type has no index left for the node or for the
    /// edge, and `TryChildError::Memory` if an allocation fails. Each error holds both weights, and
    /// the dag is unchanged.
    ///
    /// # Complexity
    ///
    /// The same as [`add_child`](Acyclic::add_child).
    ///
    /// # Examples
    ///
    /// ```
    /// let mut dag: StableDag<&'static str, u32> = StableDag::new(rt.alloc());
    /// let sow = dag.try_add_node("sow")?;
    /// let (days, reap) = dag.try_add_child(sow, 90, "reap")?;
    /// assert!(rt; dag.edge_endpoints(days) == Some((sow, reap)));
    /// let nowhere = NodeIndex::new(9);
    /// assert!(rt; dag.try_add_child(nowhere, 1, "mow") == Err(TryChildError::Missing(1, "mow")));
    /// ```
    pub fn try_add_child(
        &mut self,
        parent: NodeIndex<Ix>,
        edge: E,
        node: N,
    ) -> Result<(EdgeIndex<Ix>, NodeIndex<Ix>), TryChildError<N, E>>
        ensures missing { (result ≡ Err (ChildMissing edge node))
            ↔ ¬ HasNode self.old.graph (Ix.number parent) }
        ensures full { (result ≡ Err (ChildFull edge node))
            ↔ (HasNode self.old.graph (Ix.number parent)
            × ((Ix.greatest ≤ node_count_of self.old.graph)
            ⊎ (Ix.greatest ≤ edge_count_of self.old.graph))) }
        ensures refusal { IfErr result (λ e. (e ≡ ChildMissing edge node)
            ⊎ (e ≡ ChildFull edge node) ⊎ (e ≡ ChildMemory edge node)) }
        ensures added { IfOk result (λ r. (Ix.number r.0 ≡ next_edge self.old.graph)
            × (Ix.number r.1 ≡ next_node self.old.graph)
            × (self.new ≡ with_graph self.old
            (with_neighbor Outgoing self.old.graph (Ix.number parent) edge node))) }
        ensures unchanged { OnErr result (self.new ≡ self.old) }
        ensures acyclic { IsAcyclic self.new.graph }
    {
        self.guarded.invariant();
        if !self.contains_node(parent) {
            return Err(TryChildError::Missing(edge, node));
        }
        if !self.can_add_node() || !self.can_add_edge() {
            return Err(TryChildError::Full(edge, node));
        }
        match self.add_child(parent, edge, node) {
            Ok(indices) => Ok(indices),
            Err(ChildError::Memory(edge, node)) => Err(TryChildError::Memory(edge, node)),
        }
    }

    /// Adds a node and an edge from it to `child` as [`add_parent`](Acyclic::add_parent) does, if
    /// `child` exists and there is an index left for both.
    ///
    /// # Errors
    ///
    /// The same as [`try_add_child`](Acyclic::try_add_child), with `child` in place of `parent`.
    ///
    /// # Complexity
    ///
    /// The same as [`add_parent`](Acyclic::add_parent).
    ///
    /// # Examples
    ///
    /// ```
    /// let mut dag: Dag<&'static str, u32> = Dag::new(rt.alloc());
    /// let reap = dag.try_add_node("reap")?;
    /// let (days, sow) = dag.try_add_parent(reap, 90, "sow")?;
    /// assert!(rt; dag.edge_endpoints(days) == Some((sow, reap)));
    /// ```
    pub fn try_add_parent(
        &mut self,
        child: NodeIndex<Ix>,
        edge: E,
        node: N,
    ) -> Result<(EdgeIndex<Ix>, NodeIndex<Ix>), TryChildError<N, E>>
        ensures missing { (result ≡ Err (ChildMissing edge node))
            ↔ ¬ HasNode self.old.graph (Ix.number child) }
        ensures full { (result ≡ Err (ChildFull edge node))
            ↔ (HasNode self.old.graph (Ix.number child)
            × ((Ix.greatest ≤ node_count_of self.old.graph)
            ⊎ (Ix.greatest ≤ edge_count_of self.old.graph))) }
        ensures refusal { IfErr result (λ e. (e ≡ ChildMissing edge node)
            ⊎ (e ≡ ChildFull edge node) ⊎ (e ≡ ChildMemory edge node)) }
        ensures added { IfOk result (λ r. (Ix.number r.0 ≡ next_edge self.old.graph)
            × (Ix.number r.1 ≡ next_node self.old.graph)
            × (self.new ≡ with_graph self.old
            (with_neighbor Incoming self.old.graph (Ix.number child) edge node))) }
        ensures unchanged { OnErr result (self.new ≡ self.old) }
        ensures acyclic { IsAcyclic self.new.graph }
    {
        self.guarded.invariant();
        if !self.contains_node(child) {
            return Err(TryChildError::Missing(edge, node));
        }
        if !self.can_add_node() || !self.can_add_edge() {
            return Err(TryChildError::Full(edge, node));
        }
        match self.add_parent(child, edge, node) {
            Ok(indices) => Ok(indices),
            Err(ChildError::Memory(edge, node)) => Err(TryChildError::Memory(edge, node)),
        }
    }
}
