//! `try_set_parents`, which tests what `set_parents` requires.
ghost use Rattle.std.specs.Prelude.{◌≡◌, ◌≢◌, ℕ, ◌+◌, ◌<◌, ◌≤◌, ◌↔◌, ◌⊎◌, Err, map, reverse};
ghost use Rattle.std.specs.Prelude.{vec_len, OnOk, IfErr, OnErr, IsTrue};
ghost use Rattle.std.specs.List.{All};
ghost use Rattle.daggy_base.specs.Graph.{HasNode, edge_count as edge_count_of};
ghost use Rattle.daggy_base.specs.Path.{IsAcyclic};
ghost use Rattle.daggy_base.specs.declared.kind.Kind.TheVariants.{Stable};
ghost use Rattle.daggy_base.specs.declared.error.ParentsError.{ParentsError};
ghost use Rattle.daggy_base.specs.declared.error.ParentsError.TheVariants.{WouldCycle as ByCycle};
ghost use Rattle.daggy_base.specs.declared.error.ParentsError.TheVariants.{Full as NoIndex};
ghost use Rattle.daggy_guard.specs.Parents.{edges_to, entering, HasParentsSet, IsMemory};
ghost use Rattle.daggy_guard.specs.Parents.{KeepsOtherEdges, ReachesParent};
ghost use Rattle.daggy_dag.specs.declared.acyclic.trying_parents.TryParentsError.TheVariants.{Missing};
ghost use Rattle.daggy_dag.specs.declared.acyclic.trying_parents.TryParentsError.TheVariants.{Refused};

use crate::acyclic::Acyclic;
use daggy_base::error::ParentsError;
use daggy_base::index::{DefaultIx, IndexType, NodeIndex};
use daggy_base::store::Store;
use thiserror::Error;

/// The parents of a node were not set.
///
/// # Examples
///
/// ```
/// let mut dag: Dag<&'static str, u32> = Dag::new(rt.alloc());
/// let sow = dag.add_node("sow")?;
/// let parents = Vec::from_array(rt.alloc(), [(sow, 90)])?;
/// match dag.try_set_parents(sow, parents) {
///     Err(TryParentsError::Refused(ParentsError::WouldCycle(_))) => {}
///     _ => assert!(rt; false),
/// }
/// ```
#[derive(Debug, Drop, Eq, Error, PartialEq)]
pub enum TryParentsError<E, Ix: IndexType = DefaultIx> {
    /// The node or one of the parents does not exist.
    #[error("no such node")]
    Missing(Vec<(NodeIndex<Ix>, E)>),
    /// All of them exist, but the edges could not be added.
    #[error("{0}")]
    Refused(ParentsError<E, Ix>),
}

impl<N: Drop, E: Drop, Ix: IndexType, S> Acyclic<N, E, Ix, S>
where
    S: Store<Ix, NodeWeight = N, EdgeWeight = E>,
{
    // Whether a node and the parent of each item exist.
    fn exist(&self, n: NodeIndex<Ix>, items: &Vec<(NodeIndex<Ix>, E)>) -> bool
        ensures { IsTrue result ↔ (HasNode self.now.graph (Ix.number n)
            × All (λ x. HasNode self.now.graph (Ix.number x.0)) items.now.items) }
    {
        if !self.contains_node(n) {
            return false;
        }
        self.contains_parents(items.as_slice())
    }

    /// Replaces the edges that enter `n` as [`set_parents`](Acyclic::set_parents) does, if `n` and
    /// the parent of each item exist.
    ///
    /// # Errors
    ///
    /// Each error holds the items, and the dag is unchanged. `TryParentsError::Missing` if `n` or
    /// the parent of an item does not exist; otherwise the error of `set_parents`.
    ///
    /// # Complexity
    ///
    /// The same as [`set_parents`](Acyclic::set_parents).
    ///
    /// # Examples
    ///
    /// ```
    /// let mut dag: StableDag<&'static str, u32> = StableDag::new(rt.alloc());
    /// let sow = dag.add_node("sow")?;
    /// let reap = dag.add_node("reap")?;
    /// dag.try_set_parents(reap, Vec::from_array(rt.alloc(), [(sow, 90)])?)?;
    /// assert!(rt; dag.contains_edge(sow, reap));
    /// let parents = Vec::from_array(rt.alloc(), [(NodeIndex::new(9), 30)])?;
    /// assert!(rt; dag.try_set_parents(reap, parents).is_err());
    /// assert!(rt; dag.contains_edge(sow, reap));
    /// ```
    pub fn try_set_parents(
        &mut self,
        n: NodeIndex<Ix>,
        items: Vec<(NodeIndex<Ix>, E)>,
    ) -> Result<(), TryParentsError<E, Ix>>
        ensures missing { (result ≡ Err (Missing items))
            ↔ ¬ (HasNode self.old.graph (Ix.number n)
            × All (λ x. HasNode self.old.graph (Ix.number x.0)) items.items) }
        ensures cycle { HasNode self.old.graph (Ix.number n)
            → All (λ x. HasNode self.old.graph (Ix.number x.0)) items.items
            → (result ≡ Err (Refused (ByCycle (record { 0 = items }))))
            ↔ ReachesParent Ix.number self.old.graph (Ix.number n) items.items }
        ensures full { HasNode self.old.graph (Ix.number n)
            → All (λ x. HasNode self.old.graph (Ix.number x.0)) items.items
            → (result ≡ Err (Refused (NoIndex items)))
            ↔ ((¬ ReachesParent Ix.number self.old.graph (Ix.number n) items.items)
            × (Ix.greatest < edge_count_of self.old.graph + vec_len items)) }
        ensures refusal { IfErr result (λ e. (e ≡ Missing items)
            ⊎ ((r : ParentsError E Ix) × (e ≡ Refused r)
            × ((r ≡ ByCycle (record { 0 = items }))
            ⊎ ((r ≡ NoIndex items) ⊎ IsMemory items.items r)))) }
        ensures unchanged { OnErr result (self.new.graph ≡ self.old.graph) }
        ensures set { OnOk result (HasParentsSet S.KIND (Ix.number n)
            (edges_to Ix.number (Ix.number n) items.items) self.old.graph self.new.graph) }
        ensures parents { OnOk result (entering self.new.graph (Ix.number n)
            ≡ reverse (map (λ x. (Ix.number x.0, x.1)) items.items)) }
        ensures others { OnOk result ((m : ℕ) → m ≢ Ix.number n
            → entering self.new.graph m ≡ entering self.old.graph m) }
        ensures nodes { OnOk result (self.new.graph.nodes ≡ self.old.graph.nodes) }
        ensures keeps { OnOk result (S.KIND ≡ Stable
            → KeepsOtherEdges (Ix.number n) self.old.graph self.new.graph) }
        ensures acyclic { IsAcyclic self.new.graph }
        ensures looked { self.old.looks ≤ self.new.looks }
        ensures counted { self.new.looks
            ≤ self.old.looks + edge_count_of self.old.graph }
    {
        self.guarded.invariant();
        if !self.exist(n, &items) {
            return Err(TryParentsError::Missing(items));
        }
        match self.set_parents(n, items) {
            Ok(()) => Ok(()),
            Err(error) => Err(TryParentsError::Refused(error)),
        }
    }
}
