//! Walkers over the children and over the parents of a node.
ghost use Rattle.std.specs.Prelude.{◌≡◌, length};
ghost use Rattle.std.specs.Option.{option_map};
ghost use Rattle.std.specs.Iterator.{at_most, YieldsFirstBy};
ghost use Rattle.daggy_base.specs.Graph.{pair_of};
ghost use Rattle.daggy_base.specs.Cursor.{IsWalkStep};
ghost use Rattle.daggy_base.specs.declared.index.Direction.TheVariants.{Outgoing, Incoming};
ghost use Rattle.daggy_dag.specs.Walks.{rest_of_walk};

use crate::acyclic::Acyclic;
use daggy_base::index::{DefaultIx, Direction, EdgeIndex, IndexType, NodeIndex};
use daggy_base::read_store::ReadStore;
use daggy_visit::walk;
use daggy_walk::walker::{FiniteWalker, FusedWalker, Walker};
use std::alloc::AllocError;
use std::marker::{Model, PhantomData};

/// A walker over the children of a node. It yields each edge with its child.
///
/// It does not borrow the dag. If the next edge has been removed, the walker yields nothing from
/// then on, unless an edge gets that index again.
///
/// # Examples
///
/// ```
/// let mut dag: StableDag<&'static str, u32> = StableDag::new(rt.alloc());
/// let sow = dag.add_node("sow")?;
/// let (days, _) = dag.add_child(sow, 90, "reap")?;
/// let mut walk = dag.children(sow);
/// // The edge that comes next is removed.
/// assert!(rt; dag.remove_edge(days) == Some(90));
/// assert!(rt; walk.walk_next(&dag).is_none());
/// ```
#[derive_where(Debug; Ix: IndexType)]
pub struct Children<N, E, Ix = DefaultIx> {
    pub(super) edge: EdgeIndex<Ix>,
    pub(super) node_weight: PhantomData<N>,
    pub(super) edge_weight: PhantomData<E>,
}

impl<N, E, Ix> Model for Children<N, E, Ix> {
    ghost use Rattle.std.specs.Prelude.{refl};

    ghost Value = { Ix };

    ghost coded = { Ix.code };

    ghost view = { λ w. w.edge };

    ghost inverse = { λ e. record { edge = e; node_weight = record {}; edge_weight = record {} } };

    ghost inverse_ok = { λ w h. refl };
}

impl<N, E, Ix: Copy> Clone for Children<N, E, Ix> {
    ghost is_clone = { λ a b. a ≡ b };

    fn clone(&self) -> Result<Self, AllocError> {
        Ok(Children {
            edge: self.edge,
            node_weight: PhantomData,
            edge_weight: PhantomData,
        })
    }
}

impl<N, E, Ix: Copy> Copy for Children<N, E, Ix> {}

impl<N: Drop, E: Drop, Ix: IndexType, S> Walker<Acyclic<N, E, Ix, S>> for Children<N, E, Ix>
where
    S: ReadStore<Ix, NodeWeight = N, EdgeWeight = E>,
{
    type Item = (EdgeIndex<Ix>, NodeIndex<Ix>);

    ghost walk_gives = { λ w d r after.
        IsWalkStep Outgoing Ix.greatest d.graph (Ix.number w) (option_map (pair_of Ix.number) r)
        (Ix.number after)
        × YieldsFirstBy (λ x. Ix.number x.0) (λ v. rest_of_walk Outgoing d.graph (Ix.number v))
        w r after };

    ghost items_left = { λ w d. at_most (length (rest_of_walk Outgoing d.graph (Ix.number w))) };

    #[inline]
    fn walk_next(&mut self, dag: &Acyclic<N, E, Ix, S>) -> Option<(EdgeIndex<Ix>, NodeIndex<Ix>)> {
        dag.guarded.store.invariant();
        walk::step(&dag.guarded.store, Direction::Outgoing, &mut self.edge)
    }
}

impl<N: Drop, E: Drop, Ix: IndexType, S> FiniteWalker<Acyclic<N, E, Ix, S>> for Children<N, E, Ix>
where
    S: ReadStore<Ix, NodeWeight = N, EdgeWeight = E>,
{
    ghost ends = { λ w d. tt };
}

impl<N: Drop, E: Drop, Ix: IndexType, S> FusedWalker<Acyclic<N, E, Ix, S>> for Children<N, E, Ix>
where
    S: ReadStore<Ix, NodeWeight = N, EdgeWeight = E>,
{
    ghost use Rattle.daggy_walk.specs.Fused.{list_rests};

    ghost rests = { λ d w t u r a b.
        list_rests (λ x. Ix.number x.0) (λ v. rest_of_walk Outgoing d.graph (Ix.number v))
        w t u r a.1 b.1 };
}

/// A walker over the parents of a node. It yields each edge with its parent.
///
/// It does not borrow the dag. If the next edge has been removed, the walker yields nothing from
/// then on, unless an edge gets that index again.
///
/// # Examples
///
/// ```
/// let mut dag: Dag<&'static str, u32> = Dag::new(rt.alloc());
/// let reap = dag.add_node("reap")?;
/// let (days, sow) = dag.add_parent(reap, 90, "sow")?;
/// let mut walk = dag.parents(reap);
/// assert!(rt; walk.walk_next(&dag) == Some((days, sow)));
/// assert!(rt; walk.walk_next(&dag).is_none());
/// ```
#[derive_where(Debug; Ix: IndexType)]
pub struct Parents<N, E, Ix = DefaultIx> {
    pub(super) edge: EdgeIndex<Ix>,
    pub(super) node_weight: PhantomData<N>,
    pub(super) edge_weight: PhantomData<E>,
}

impl<N, E, Ix> Model for Parents<N, E, Ix> {
    ghost use Rattle.std.specs.Prelude.{refl};

    ghost Value = { Ix };

    ghost coded = { Ix.code };

    ghost view = { λ w. w.edge };

    ghost inverse = { λ e. record { edge = e; node_weight = record {}; edge_weight = record {} } };

    ghost inverse_ok = { λ w h. refl };
}

impl<N, E, Ix: Copy> Clone for Parents<N, E, Ix> {
    ghost is_clone = { λ a b. a ≡ b };

    fn clone(&self) -> Result<Self, AllocError> {
        Ok(Parents {
            edge: self.edge,
            node_weight: PhantomData,
            edge_weight: PhantomData,
        })
    }
}

impl<N, E, Ix: Copy> Copy for Parents<N, E, Ix> {}

impl<N: Drop, E: Drop, Ix: IndexType, S> Walker<Acyclic<N, E, Ix, S>> for Parents<N, E, Ix>
where
    S: ReadStore<Ix, NodeWeight = N, EdgeWeight = E>,
{
    type Item = (EdgeIndex<Ix>, NodeIndex<Ix>);

    ghost walk_gives = { λ w d r after.
        IsWalkStep Incoming Ix.greatest d.graph (Ix.number w) (option_map (pair_of Ix.number) r)
        (Ix.number after)
        × YieldsFirstBy (λ x. Ix.number x.0) (λ v. rest_of_walk Incoming d.graph (Ix.number v))
        w r after };

    ghost items_left = { λ w d. at_most (length (rest_of_walk Incoming d.graph (Ix.number w))) };

    #[inline]
    fn walk_next(&mut self, dag: &Acyclic<N, E, Ix, S>) -> Option<(EdgeIndex<Ix>, NodeIndex<Ix>)> {
        dag.guarded.store.invariant();
        walk::step(&dag.guarded.store, Direction::Incoming, &mut self.edge)
    }
}

impl<N: Drop, E: Drop, Ix: IndexType, S> FiniteWalker<Acyclic<N, E, Ix, S>> for Parents<N, E, Ix>
where
    S: ReadStore<Ix, NodeWeight = N, EdgeWeight = E>,
{
    ghost ends = { λ w d. tt };
}

impl<N: Drop, E: Drop, Ix: IndexType, S> FusedWalker<Acyclic<N, E, Ix, S>> for Parents<N, E, Ix>
where
    S: ReadStore<Ix, NodeWeight = N, EdgeWeight = E>,
{
    ghost use Rattle.daggy_walk.specs.Fused.{list_rests};

    ghost rests = { λ d w t u r a b.
        list_rests (λ x. Ix.number x.0) (λ v. rest_of_walk Incoming d.graph (Ix.number v))
        w t u r a.1 b.1 };
}
