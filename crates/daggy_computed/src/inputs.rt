//! What a value is computed from.
ghost use Rattle.std.specs.Prelude.{◌≡◌, slice_get, option_copied};
ghost use Rattle.std.specs.Iterator.{YieldsFirstRef, item_count};
ghost use Rattle.daggy_computed.specs.Cells.{HaveValues, values_of};

use crate::entry::{Entry, value_at};
use std::iter::{ExactSizeIterator, FusedIterator};
use std::marker::Model;

/// The values of the parents of a node, one for each edge that enters it, in the order in which the
/// edges were added, as an iterator.
#[derive(Drop)]
pub struct Inputs<'a, V> {
    entries: &'a [Entry<V>],
    // The indices of the parents that are left. Each has a value.
    parents: &'a [usize],
}

impl<'a, V> Model for Inputs<'a, V> {
    ghost use Rattle.std.specs.Prelude.{List};
    ghost use Rattle.daggy_computed.specs.Cells.{HaveValues, values_of};

    ghost Value = { List V };

    ghost view = { λ it. values_of it.entries.now it.parents.now };

    ghost invariant = { λ it. HaveValues it.entries.now it.parents.now };
}

impl<'a, V> Inputs<'a, V> {
    // The values at some indices, each of which has one.
    pub(crate) fn new(entries: &'a [Entry<V>], parents: &'a [usize]) -> Self
        requires { HaveValues entries.now parents.now }
        ensures { result ≡ values_of entries.now parents.now }
    {
        Inputs { entries, parents }
    }

    /// The value at position `i` among those not yet yielded, or `None` if there are fewer.
    pub fn get(&self, i: usize) -> Option<&'a V>
        ensures { option_copied result ≡ slice_get self.now i }
    {
        value_at(self.entries, *self.parents.get(i)?)
    }
}

impl<'a, V> Iterator for Inputs<'a, V> {
    type Item = &'a V;

    ghost next_gives = { YieldsFirstRef (λ rest. rest) };

    ghost remaining = { item_count (λ rest. rest) };

    fn next(&mut self) -> Option<&'a V> {
        let (parent, rest) = self.parents.split_first()?;
        self.parents = rest;
        value_at(self.entries, *parent)
    }

    fn size_hint(&self) -> (usize, Option<usize>) {
        let left = self.len();
        (left, Some(left))
    }
}

impl<'a, V> ExactSizeIterator for Inputs<'a, V> {
    fn len(&self) -> usize {
        self.parents.len()
    }
}

impl<'a, V> FusedIterator for Inputs<'a, V> {}
