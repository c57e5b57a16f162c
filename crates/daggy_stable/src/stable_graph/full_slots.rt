//! Iterating over occupied slots.
ghost use Rattle.std.specs.Prelude.{◌≡◌, ◌+◌, ◌<◌, ◌≤◌, ◌^◌, Bool, true, Some, None, [], is_none, length};
ghost use Rattle.std.specs.Prelude.{IfSome, IfNone, All};
ghost use Rattle.daggy_stable.specs.FullSlots.{next_full as next_full_of, IsLastFull};

use daggy_base::index::IndexType;
use daggy_cells::cell::{Edge, Node};

// A node or an edge in a slot.
pub(super) trait Slot {
    ghost vacant: { Self → Bool };

    fn is_vacant(&self) -> bool
        ensures { result ≡ vacant self.now };
}

impl<N, Ix: IndexType> Slot for Node<Option<N>, Ix> {
    ghost vacant = { λ x. is_none x.weight };

    #[inline]
    fn is_vacant(&self) -> bool {
        self.weight.is_none()
    }
}

impl<E, Ix: IndexType> Slot for Edge<Option<E>, Ix> {
    ghost vacant = { λ x. is_none x.weight };

    #[inline]
    fn is_vacant(&self) -> bool {
        self.weight.is_none()
    }
}

// The slots left to iterate over, and the index of the first of them.
#[derive(Drop)]
pub(super) struct FullSlots<'a, C> {
    pub(super) cells: &'a [C],
    pub(super) index: usize,
}

impl<'a, C: Slot> FullSlots<'a, C> {
    // The next occupied slot, with its index.
    #[inline]
    pub(super) fn next_full(&mut self) -> Option<(usize, &'a C)>
        requires { self.old.index + length self.old.cells.now < 2 ^ 64 }
        ensures found { IfSome result (λ p. next_full_of C.vacant self.old.index self.old.cells.now
            ≡ Some (p.0, (p.1.now, self.new.cells.now))) }
        ensures index { IfSome result (λ p. self.new.index ≡ p.0 + 1) }
        ensures bound { self.new.index + length self.new.cells.now
            ≤ self.old.index + length self.old.cells.now }
        ensures none { IfNone result
            (next_full_of C.vacant self.old.index self.old.cells.now ≡ None) }
        ensures ended { IfNone result (self.new.cells.now ≡ []) }
    {
        'along: while let Some((x, rest)) = self.cells.split_first() {
            let i = self.index;
            self.cells = rest;
            self.index += 1;
            if !x.is_vacant() {
                return Some((i, x));
            }
        }
        None
    }

    // The last occupied slot, with its index.
    #[inline]
    pub(super) fn last_full(&mut self) -> Option<(usize, &'a C)>
        requires { self.old.index + length self.old.cells.now < 2 ^ 64 }
        ensures found { IfSome result (λ p.
            IsLastFull C.vacant self.old.cells.now p.1.now self.new.cells.now) }
        ensures at { IfSome result (λ p. p.0 ≡ self.old.index + length self.new.cells.now) }
        ensures index { self.new.index ≡ self.old.index }
        ensures bound { length self.new.cells.now ≤ length self.old.cells.now }
        ensures none { IfNone result (All (λ x. C.vacant x ≡ true) self.old.cells.now) }
        ensures ended { IfNone result (self.new.cells.now ≡ []) }
    {
        'along: while let Some((x, rest)) = self.cells.split_last() {
            self.cells = rest;
            if !x.is_vacant() {
                return Some((self.index + rest.len(), x));
            }
        }
        None
    }
}
