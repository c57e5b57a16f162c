//! How a dag is printed for debugging.
use crate::acyclic::Acyclic;
use daggy_base::index::IndexType;
use daggy_base::read_store::ReadStore;
use std::fmt;

impl<N: Drop, E: Drop, Ix: IndexType, S> fmt::Debug for Acyclic<N, E, Ix, S>
where
    S: ReadStore<Ix, NodeWeight = N, EdgeWeight = E> + fmt::Debug,
{
    fn fmt<W: fmt::Write>(&self, f: &mut fmt::Formatter<W>) -> fmt::Result {
        f.debug_struct("Dag")
            .field("graph", &self.guarded.store)
            .finish()
    }
}
