//! Dependencies between nodes that are given by their keys.
ghost use Rattle.std.specs.Prelude.{◌≡◌, ℕ, ◌<◌, ◌≤◌, ◌↔◌, ◌⊎◌, None, Err, IsSome, IfOk, IfErr};
ghost use Rattle.std.specs.Prelude.{OnErr, IfSome, IfNone};
ghost use Rattle.daggy_base.specs.Adding.{next_edge, with_edge};
ghost use Rattle.daggy_base.specs.Graph.{edge_count as edge_count_of};
ghost use Rattle.daggy_base.specs.Path.{Reaches};
ghost use Rattle.daggy_base.specs.Removal.{without_edge};
ghost use Rattle.daggy_base.specs.Weights.{edge_weight};
ghost use Rattle.daggy_base.specs.declared.kind.Kind.TheVariants.{Stable};
ghost use Rattle.daggy_named.specs.Naming.{index_by, ForNodes};
ghost use Rattle.daggy_named.specs.Asked.{edge_by};
ghost use Rattle.daggy_named.specs.declared.error.DependError.TheVariants as depend;

use crate::error::DependError;
use crate::named::Named;
use daggy_base::index::{EdgeIndex, IndexType};
use indexmap::Equivalent;
use std::hash::Hash;

/// A dependency between two nodes that are given by their keys.
///
/// Its fields have names, so the two keys cannot be confused.
///
/// # Examples
///
/// ```
/// let mut plan: Named<&'static str, u32, ()> = Named::new(rt.alloc());
/// let sow = plan.add_node("sow", 1)?;
/// let reap = plan.add_node("reap", 2)?;
/// plan.add_dependency(Dependency { dependent: "reap", on: "sow" }, ())?;
/// assert!(rt; plan.dag().contains_edge(sow, reap));
/// ```
#[derive(Clone, Copy, Debug)]
pub struct Dependency<Q> {
    /// The key of the node that depends on the other: the child of the edge.
    pub dependent: Q,
    /// The key of the node that the other depends on: the parent of the edge.
    pub on: Q,
}

impl<K: Eq + Hash + Drop, N: Drop, E: Drop, Ix: IndexType> Named<K, N, E, Ix> {
    /// Adds a dependency: an edge from the node with the key `on` to the node with the key
    /// `dependent`. Returns the index of the edge.
    ///
    /// The same as [`depend`](Named::depend), but the call shows which key is which.
    ///
    /// # Errors
    ///
    /// The errors of [`depend`](Named::depend). Each holds the weight, and the dag is unchanged.
    ///
    /// # Complexity
    ///
    /// The same as [`depend`](Named::depend).
    ///
    /// # Examples
    ///
    /// ```
    /// let mut plan: Named<&'static str, u32, ()> = Named::new(rt.alloc());
    /// let sow = plan.add_node("sow", 1)?;
    /// let reap = plan.add_node("reap", 2)?;
    /// let reap_needs_sow = Dependency { dependent: "reap", on: "sow" };
    /// let e = plan.add_dependency(reap_needs_sow, ())?;
    /// assert!(rt; plan.dag().edge_endpoints(e) == Some((sow, reap)));
    /// assert!(rt; plan.remove_dependency(reap_needs_sow) == Some(()));
    /// assert!(rt; plan.remove_dependency(reap_needs_sow).is_none());
    /// ```
    pub fn add_dependency<Q: Equivalent<K>>(
        &mut self,
        dependency: Dependency<Q>,
        weight: E,
    ) -> Result<EdgeIndex<Ix>, DependError<E>>
        ensures unknown_dependency { (result ≡ Err (depend.UnknownDependency weight))
            ↔ (index_by (Q.equivalent dependency.on) self.old.keys ≡ None) }
        ensures unknown_dependent { (result ≡ Err (depend.UnknownDependent weight))
            ↔ (IsSome (index_by (Q.equivalent dependency.on) self.old.keys)
            × (index_by (Q.equivalent dependency.dependent) self.old.keys ≡ None)) }
        ensures full { (result ≡ Err (depend.Full weight))
            ↔ ForNodes (Q.equivalent dependency.on) (Q.equivalent dependency.dependent)
            self.old.keys (λ _ _. Ix.greatest ≤ edge_count_of self.old.graph) }
        ensures cycle { (result ≡ Err (depend.WouldCycle weight))
            ↔ ForNodes (Q.equivalent dependency.on) (Q.equivalent dependency.dependent)
            self.old.keys (λ u v. (edge_count_of self.old.graph < Ix.greatest)
            × Reaches self.old.graph v u) }
        ensures refusal { IfErr result (λ e.
            (e ≡ depend.UnknownDependency weight) ⊎ (e ≡ depend.UnknownDependent weight)
            ⊎ (e ≡ depend.Full weight) ⊎ (e ≡ depend.WouldCycle weight)
            ⊎ (e ≡ depend.Memory weight)) }
        ensures added { IfOk result (λ e. (Ix.number e ≡ next_edge self.old.graph)
            × ForNodes (Q.equivalent dependency.on) (Q.equivalent dependency.dependent)
            self.old.keys (λ u v. self.new.graph ≡ with_edge self.old.graph u v weight)) }
        ensures keys { self.new.keys ≡ self.old.keys }
        ensures unchanged { OnErr result (self.new ≡ self.old) }
    {
        self.depend(dependency.on, dependency.dependent, weight)
    }

    /// Removes a dependency and returns the weight of its edge, or `None` if there is none. Of
    /// parallel edges it removes the newest.
    ///
    /// No other index changes, and the next edge that is added gets the freed index.
    ///
    /// # Complexity
    ///
    /// Two hash lookups, plus the cost of `find_edge` and `remove_edge` of the dag.
    pub fn remove_dependency<Q: Equivalent<K>>(&mut self, dependency: Dependency<Q>) -> Option<E>
        ensures removed { IfSome (edge_by (Q.equivalent dependency.on)
            (Q.equivalent dependency.dependent) self.old) (λ e.
            (result ≡ edge_weight self.old.graph e)
            × (self.new.graph ≡ without_edge Stable self.old.graph e)) }
        ensures found { IsSome result ↔ IsSome (edge_by (Q.equivalent dependency.on)
            (Q.equivalent dependency.dependent) self.old) }
        ensures keys { self.new.keys ≡ self.old.keys }
        ensures missing { IfNone result (self.new ≡ self.old) }
    {
        // Called only for its contract: the graph is well formed.
        let _count = self.node_count();
        let parent = self.index_of(dependency.on)?;
        let child = self.index_of(dependency.dependent)?;
        let e = self.dag.find_edge(parent, child)?;
        self.dag.remove_edge(e)
    }
}
