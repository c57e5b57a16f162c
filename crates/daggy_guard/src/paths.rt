//! Whether one node reaches another, and a shortest path between them.
ghost use Rattle.std.specs.Prelude.{◌≡◌, ◌+◌, ◌≤◌, ◌↔◌, IsTrue, Ok, None, map, IfOk, IfSome};
ghost use Rattle.daggy_order.specs.Paths.{IsShortestPath};
ghost use Rattle.daggy_base.specs.Graph.{edge_count};
ghost use Rattle.daggy_base.specs.Path.{Reaches};

use crate::guard::Guarded;
use daggy_base::index::{IndexType, NodeIndex};
use daggy_base::read_store::ReadStore;
use daggy_order::order::{path_in, reaches_in};
use std::alloc::AllocError;

impl<Ix: IndexType, S: ReadStore<Ix>> Guarded<Ix, S> {
    /// Whether a path leads from `a` to `b`. Only nodes between them in the order are searched.
    pub fn reaches(&mut self, a: NodeIndex<Ix>, b: NodeIndex<Ix>) -> bool
        ensures decided { IsTrue result ↔ Reaches self.old.graph (Ix.number a) (Ix.number b) }
        ensures same { self.new.graph ≡ self.old.graph }
        ensures looked { self.old.looks ≤ self.new.looks }
        ensures counted { self.new.looks ≤ self.old.looks + edge_count self.old.graph }
        ensures ready { Reaches self.old.graph (Ix.number b) (Ix.number a)
            → self.new.looks ≡ self.old.looks }
    {
        self.store.invariant();
        reaches_in(&mut self.store, &mut self.order, a, b, &mut self.scratch)
    }

    /// A shortest path from `a` to `b`. Only nodes between them in the order are searched.
    pub fn path(
        &mut self,
        a: NodeIndex<Ix>,
        b: NodeIndex<Ix>,
    ) -> Result<Option<Vec<NodeIndex<Ix>>>, AllocError>
        ensures path { IfOk result (λ found. IfSome found (λ path.
            IsShortestPath self.old.graph (Ix.number a) (Ix.number b)
            (map Ix.number path.items))) }
        ensures none { (result ≡ Ok None) ↔ ¬ Reaches self.old.graph (Ix.number a) (Ix.number b) }
        ensures same { self.new.graph ≡ self.old.graph }
        ensures looked { self.old.looks ≤ self.new.looks }
        ensures counted { self.new.looks ≤ self.old.looks + edge_count self.old.graph }
        ensures ready { Reaches self.old.graph (Ix.number b) (Ix.number a)
            → self.new.looks ≡ self.old.looks }
    {
        self.store.invariant();
        path_in(
            self.scratch.allocator(),
            &mut self.store,
            &mut self.order,
            a,
            b,
            &mut self.scratch,
        )
    }
}
