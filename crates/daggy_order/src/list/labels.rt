//! Labels that ascend along a list.
ghost use Rattle.std.specs.Prelude.{◌≡◌, ℕ, ◌≢◌, ◌+◌, ◌-◌, ◌*◌, ◌<◌, ◌≤◌, ◌^◌, List, Contains};
ghost use Rattle.std.specs.Prelude.{IsTrue, slice_index, length};
ghost use Rattle.daggy_order.specs.Links.{LabelsAscend, IsSegment, HasSegment, HasGap};
ghost use Rattle.daggy_order.specs.Links.{HasFirst, HasLast};

use crate::list::links::Links;
use daggy_base::index::IndexType;
use daggy_base::link::Link;

// The gap between labels where there is room.
const STEP: u64 = 1 << 32;

// The label range used by a full relabelling; it leaves room at both ends.
const LOWEST: u64 = 1 << 61;

const HIGHEST: u64 = LOWEST + (1 << 63);

// The widest gap at which `count` labels fit between `low` and `high`, or 0 if there is no room.
#[inline]
pub(super) fn gap_between(low: u64, high: u64, count: usize) -> u64
    requires order { low ≤ high }
    requires few { count + 1 < 2 ^ 64 }
    ensures fits { 0 < result → low + result * count < high }
    ensures some { count < high - low → 0 < result }
{
    ((high - low) / (count as u64 + 1)).min(STEP)
}

impl<Ix: IndexType> Links<Ix> {
    // Labels `count` nodes from `from` on: the first gets `low + gap`, and each of the others `gap`
    // more than the one before it.
    fn assign(&mut self, from: Link<Ix>, count: usize, low: u64, gap: u64)
        requires run { HasSegment Ix.greatest self.old.nodes from count }
        requires some { 0 < gap }
        requires fits { low + gap * count < 2 ^ 64 }
        ensures ascending { (before run behind : List ℕ)
            → IsSegment Ix.greatest self.old.nodes from count before run behind
            → LabelsAscend self.new.labels low run (low + gap * count + 1) }
        ensures others { (before run behind : List ℕ)
            → IsSegment Ix.greatest self.old.nodes from count before run behind
            → (n : ℕ) → ¬ Contains run n
            → slice_index self.new.labels n ≡ slice_index self.old.labels n }
        ensures nodes { self.new.nodes ≡ self.old.nodes }
        ensures sized { length self.new.labels ≡ length self.old.labels }
    {
        let _count = self.len();
        let mut n = from;
        let mut label = low;
        'run: for _i in 0..count {
            label += gap;
            self.set_label(n.index(), label);
            n = self.next(n);
        }
    }

    // The label of a node, or the greatest label if there is no node.
    #[inline]
    fn label_or_end(&self, n: Link<Ix>) -> u64
        requires { (n ≢ Ix.greatest) → (n < length self.now.labels) }
        ensures end { n ≡ Ix.greatest → result ≡ 2 ^ 64 - 1 }
        ensures node { n ≢ Ix.greatest → result ≡ slice_index self.now.labels n }
    {
        let i = n.index();
        if i == Link::<Ix>::end().index() {
            u64::MAX
        } else {
            self.label(i)
        }
    }

    // Relabels all nodes, around the middle of the range.
    #[cold]
    #[inline(never)]
    fn relabel_all(&mut self)
        ensures ascending { LabelsAscend self.new.labels 0 self.old.nodes (2 ^ 64) }
        ensures others { (n : ℕ) → ¬ Contains self.old.nodes n
            → slice_index self.new.labels n ≡ slice_index self.old.labels n }
        ensures nodes { self.new.nodes ≡ self.old.nodes }
        ensures sized { length self.new.labels ≡ length self.old.labels }
    {
        let count = self.len();
        let gap = gap_between(LOWEST, HIGHEST, count);
        let first = self.first();
        self.assign(first, count, LOWEST, gap);
    }

    // Labels the `count` nodes after `a` (from `from` up to, not including, `after`). If the gap is
    // too narrow, widens the run until the gaps are at least as wide as the run is long. Returns
    // false if the end of the list is reached first.
    fn relabel_window(&mut self, a: Link<Ix>, from: Link<Ix>, count: usize, after: Link<Ix>) -> bool
        requires { HasGap Ix.greatest self.old.labels self.old.nodes a from count after }
        ensures ascending { IsTrue result
            → LabelsAscend self.new.labels 0 self.old.nodes (2 ^ 64) }
        ensures others { (n : ℕ) → ¬ Contains self.old.nodes n
            → slice_index self.new.labels n ≡ slice_index self.old.labels n }
        ensures nodes { self.new.nodes ≡ self.old.nodes }
        ensures sized { length self.new.labels ≡ length self.old.labels }
    {
        let len = self.len();
        let low = self.label(a.index());
        let end = Link::<Ix>::end().index();
        let mut behind = after;
        'window: for size in count..len {
            let high = self.label_or_end(behind);
            let gap = gap_between(low, high, size);
            if gap > 0 && size as u64 <= gap {
                self.assign(from, size, low, gap);
                return true;
            }
            if behind.index() == end {
                return false;
            }
            behind = self.next(behind);
        }
        false
    }

    /// Labels the `count` nodes after `a` (from `from` up to, not including, `after`), and relabels
    /// others if there is no room.
    pub fn relabel_run(&mut self, a: Link<Ix>, from: Link<Ix>, count: usize, after: Link<Ix>)
        requires { HasGap Ix.greatest self.old.labels self.old.nodes a from count after }
        ensures ascending { LabelsAscend self.new.labels 0 self.old.nodes (2 ^ 64) }
        ensures others { (n : ℕ) → ¬ Contains self.old.nodes n
            → slice_index self.new.labels n ≡ slice_index self.old.labels n }
        ensures nodes { self.new.nodes ≡ self.old.nodes }
    {
        if !self.relabel_window(a, from, count, after) {
            self.relabel_all();
        }
    }

    /// Labels a node that was just put last, after `last`, or into an empty list.
    #[inline]
    pub fn label_last(&mut self, last: Link<Ix>, n: Link<Ix>)
        requires { HasLast self.old.labels self.old.nodes last n }
        ensures ascending { LabelsAscend self.new.labels 0 self.old.nodes (2 ^ 64) }
        ensures others { (k : ℕ) → ¬ Contains self.old.nodes k
            → slice_index self.new.labels k ≡ slice_index self.old.labels k }
        ensures nodes { self.new.nodes ≡ self.old.nodes }
        ensures sized { length self.new.labels ≡ length self.old.labels }
    {
        let low = if self.len() == 1 {
            u64::MAX
        } else {
            self.label(last.index())
        };
        if low < u64::MAX - STEP {
            self.set_label(n.index(), low + STEP);
        } else {
            self.relabel_all();
        }
    }

    /// Labels a node that was just put first, before `first`, or into an empty list.
    #[inline]
    pub fn label_first(&mut self, first: Link<Ix>, n: Link<Ix>)
        requires { HasFirst Ix.greatest self.old.labels self.old.nodes first n }
        ensures ascending { LabelsAscend self.new.labels 0 self.old.nodes (2 ^ 64) }
        ensures others { (k : ℕ) → ¬ Contains self.old.nodes k
            → slice_index self.new.labels k ≡ slice_index self.old.labels k }
        ensures nodes { self.new.nodes ≡ self.old.nodes }
    {
        let high = if self.len() == 1 {
            0
        } else {
            self.label(first.index())
        };
        if high > STEP {
            self.set_label(n.index(), high - STEP);
        } else {
            self.relabel_all();
        }
    }
}
