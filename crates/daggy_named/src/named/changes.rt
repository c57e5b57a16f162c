//! Changes to the whole dag, and `add_node`.
ghost use Rattle.std.specs.Prelude.{◌≡◌, ◌≤◌, ◌↔◌, ◌⊎◌, [], Some, None, Err, IsSome, IfOk, OnOk};
ghost use Rattle.std.specs.Prelude.{IfErr, OnErr};
ghost use Rattle.daggy_base.specs.Adding.{next_node, with_node, with_slot_filled};
ghost use Rattle.daggy_base.specs.Graph.{empty, node_count as node_count_of};
ghost use Rattle.daggy_base.specs.Removal.{KeepsIndices};
ghost use Rattle.daggy_base.specs.declared.kind.Kind.TheVariants.{Stable};
ghost use Rattle.daggy_redundant.specs.Comparison.{HaveSameReachability};
ghost use Rattle.daggy_dag.specs.WholeReduction.{IsWholeReduction, JoinsCoversOnly};
ghost use Rattle.daggy_named.specs.Naming.{index_in};
ghost use Rattle.daggy_named.specs.declared.error.AddError.TheVariants as refused;

use crate::error::AddError;
use crate::named::Named;
use daggy_base::index::{IndexType, NodeIndex};
use daggy_dag::acyclic::StableDag;
use std::alloc::AllocError;
use std::hash::Hash;

impl<K: Eq + Hash + Drop, N: Drop, E: Drop, Ix: IndexType> Named<K, N, E, Ix> {
    /// Removes all redundant edges: an edge is redundant if its parent reaches its child by another
    /// path of two or more edges. Which nodes depend on which, directly or through others, is
    /// unchanged.
    ///
    /// # Errors
    ///
    /// Returns `AllocError` if an allocation fails; the dag is unchanged.
    ///
    /// # Complexity
    ///
    /// The cost of the same method of the [`dag`](Named::dag).
    ///
    /// # Examples
    ///
    /// ```
    /// let mut plan: Named<&'static str, u32, ()> = Named::new(rt.alloc());
    /// plan.add_node("sow", 1)?;
    /// plan.add_node("hoe", 2)?;
    /// plan.add_node("reap", 3)?;
    /// plan.add_dependency(Dependency { dependent: "hoe", on: "sow" }, ())?;
    /// plan.add_dependency(Dependency { dependent: "reap", on: "hoe" }, ())?;
    /// plan.add_dependency(Dependency { dependent: "reap", on: "sow" }, ())?;
    /// plan.transitive_reduce_all()?;
    /// assert!(rt; plan.dag().edge_count() == 2);
    /// assert!(rt; plan.reaches("sow", "reap")?);
    /// ```
    pub fn transitive_reduce_all(&mut self) -> Result<(), AllocError>
        ensures reduced { OnOk result (IsWholeReduction Stable self.old.graph self.new.graph) }
        ensures reachability { OnOk result (HaveSameReachability self.old.graph self.new.graph) }
        ensures covers { OnOk result (JoinsCoversOnly self.old.graph self.new.graph) }
        ensures keeps { OnOk result (KeepsIndices self.old.graph self.new.graph) }
        ensures keys { self.new.keys ≡ self.old.keys }
        ensures unchanged { OnErr result (self.new ≡ self.old) }
    {
        self.dag.transitive_reduce_all()
    }

    /// Removes everything; indices start from 0 again.
    ///
    /// # Complexity
    ///
    /// O(slots).
    ///
    /// # Examples
    ///
    /// ```
    /// let mut plan: Named<&'static str, u32, ()> = Named::new(rt.alloc());
    /// plan.add_node("sow", 1)?;
    /// plan.clear();
    /// assert!(rt; plan.is_empty());
    /// ```
    pub fn clear(&mut self)
        ensures { self.new ≡ record { graph = empty; keys = [] } }
    {
        self.dag.clear();
        self.nodes.clear();
        self.places.clear();
    }

    /// Returns the dag inside, without copying it. Its nodes no longer have keys.
    ///
    /// # Complexity
    ///
    /// O(nodes): the keys are dropped.
    ///
    /// # Examples
    ///
    /// ```
    /// let mut plan: Named<&'static str, u32, ()> = Named::new(rt.alloc());
    /// let sow = plan.add_node("sow", 1)?;
    /// let mut dag = plan.into_dag();
    /// assert!(rt; dag.remove_node(sow) == Some(1));
    /// ```
    pub fn into_dag(self) -> StableDag<N, E, Ix>
        ensures { result.graph ≡ self.graph }
    {
        self.dag
    }

    /// The same as [`add`](Named::add).
    ///
    /// # Errors
    ///
    /// The errors of [`add`](Named::add). Each holds the key and the weight, and the dag is
    /// unchanged.
    ///
    /// # Complexity
    ///
    /// The same as [`add`](Named::add).
    pub fn add_node(&mut self, key: K, weight: N) -> Result<NodeIndex<Ix>, AddError<K, N>>
        ensures taken { (result ≡ Err (refused.Taken key weight))
            ↔ IsSome (index_in K.eq self.old.keys key) }
        ensures full { (result ≡ Err (refused.Full key weight))
            ↔ ((index_in K.eq self.old.keys key ≡ None)
            × (Ix.greatest ≤ node_count_of self.old.graph)) }
        ensures refusal { IfErr result (λ e. (e ≡ refused.Taken key weight)
            ⊎ (e ≡ refused.Full key weight) ⊎ (e ≡ refused.Memory key weight)) }
        ensures added { IfOk result (λ n. (Ix.number n ≡ next_node self.old.graph)
            × (self.new.graph ≡ with_node self.old.graph weight)
            × (self.new.keys
            ≡ with_slot_filled self.old.keys self.old.graph.vacant_nodes (Some key))) }
        ensures unchanged { OnErr result (self.new ≡ self.old) }
    {
        self.add(key, weight)
    }
}
