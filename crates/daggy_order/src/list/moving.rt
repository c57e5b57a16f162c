//! Moving nodes after another.
ghost use Rattle.std.specs.Prelude.{◌≡◌, ℕ, ◌<◌, ◌≤◌, ◌++◌, ◌∷◌, List, Contains, length};
ghost use Rattle.std.specs.Prelude.{slice_index, take};
ghost use Rattle.daggy_base.specs.WellFormed.{AreDistinct};
ghost use Rattle.daggy_order.specs.Links.{LabelsAscend, IsSegment, StandBefore, IsMoved};
ghost use Rattle.daggy_order.specs.Links.{without_all};

use crate::list::LabeledList;
use crate::list::links::Links;
use daggy_base::index::{IndexType, NodeIndex};
use daggy_base::link::Link;
use daggy_search::{NodeKey, Worklist};

// The label of a node, or 0 if it has none.
impl<Ix: IndexType> NodeKey<Ix> for Links<Ix> {
    ghost key = { λ links n. slice_index links.labels n };

    #[inline]
    fn key(&self, node: NodeIndex<Ix>) -> u64
        ensures { result ≡ slice_index self.now.labels (Ix.number node) }
    {
        let i = node.index();
        if i < self.index_bound() {
            self.label(i)
        } else {
            0
        }
    }
}

// Moves the first `count` nodes of a worklist, which come before `a`, to right after it, in their
// order.
fn put_all_after<Ix: IndexType>(
    links: &mut Links<Ix>,
    a: Link<Ix>,
    work: &Worklist<Ix>,
    count: usize,
)
    requires within { count ≤ length work.now.nodes }
    requires stand { StandBefore links.old.nodes a (take count work.now.nodes) }
    requires distinct { AreDistinct (take count work.now.nodes) }
    ensures moved { (before behind : List ℕ) → links.old.nodes ≡ before ++ a ∷ behind
        → ((n : ℕ) → Contains (take count work.now.nodes) n → Contains before n)
        → links.new.nodes ≡ without_all (take count work.now.nodes) before
        ++ a ∷ (take count work.now.nodes ++ behind) }
    ensures labels { links.new.labels ≡ links.old.labels }
{
    let _count = links.len();
    let mut at = a;
    'nodes: for i in 0..count {
        let n = work.node(i);
        links.remove(n);
        links.put_after(at, n);
        at = n;
    }
}

impl<Ix: IndexType> LabeledList<Ix> {
    /// Moves the first `count` nodes of a worklist, which come before `a`, to right after `a`, in
    /// their old order. Sorts that part of the worklist. A few neighbors may be relabelled.
    pub fn move_after(&mut self, a: Link<Ix>, work: &mut Worklist<Ix>, count: usize)
        requires within { count ≤ length work.old.nodes }
        requires stand { StandBefore self.old.nodes a (take count work.old.nodes) }
        requires distinct { AreDistinct (take count work.old.nodes) }
        ensures moved { IsMoved a (take count work.old.nodes) self.old.nodes self.new.nodes }
        ensures kept { work.new.size ≡ work.old.size }
    {
        let after = self.links.next(a);
        work.sort_front(count, &self.links);
        let from = if count == 0 { after } else { work.node(0) };
        put_all_after(&mut self.links, a, work, count);
        self.links.relabel_run(a, from, count, after);
    }
}
