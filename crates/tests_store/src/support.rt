//! The assertions.
//!
//! Each `assert_eq!` costs a proof, so it is written here once, and tests call it.
ghost use Rattle.std.specs.Prelude.{◌≡◌, IsTrue, Ok};
ghost use Rattle.std.specs.Iterator.{IsFinite};

use daggy_base::index::{EdgeIndex, IndexType, NodeIndex};
use std::fmt::Debug;
use std::process::Abort;

/// Asserts that what was found is what is wanted.
pub fn same<T: PartialEq + Debug + Drop>(rt: &impl Abort, found: T, wanted: T) {
    assert_eq!(rt; found, wanted);
}

/// Asserts a fact, which calls after it may rest on.
pub fn holds(rt: &impl Abort, fact: bool)
    ensures { IsTrue fact }
{
    assert!(rt; fact);
}

/// Asserts that a call succeeded, and returns its value.
pub fn made<T: Drop, E: Drop>(rt: &impl Abort, answer: Result<T, E>) -> T
    ensures { answer ≡ Ok result }
{
    match answer {
        Ok(x) => x,
        Err(_) => panic!(rt; "the call was refused"),
    }
}

/// Asserts that an iterator yields these values and then ends.
pub fn gives<T: PartialEq + Debug + Copy + Drop, I: Iterator<Item = T> + Drop>(
    rt: &impl Abort,
    items: I,
    wanted: &[T],
)
    requires can { I.can_next items }
    requires ends { IsFinite (I.remaining items) }
{
    let mut count = 0usize;
    for x in items {
        same(rt, Some(x), wanted.get(count).copied());
        count = count.wrapping_add(1);
    }
    same(rt, count, wanted.len());
}

/// The index of a node.
pub fn node<Ix: IndexType>(rt: &impl Abort, x: usize) -> NodeIndex<Ix> {
    assert!(rt; x <= NodeIndex::<Ix>::end().index());
    NodeIndex::new(x)
}

/// The index of an edge.
pub fn edge<Ix: IndexType>(rt: &impl Abort, x: usize) -> EdgeIndex<Ix> {
    assert!(rt; x <= EdgeIndex::<Ix>::end().index());
    EdgeIndex::new(x)
}

/// Asserts that a list of nodes has these indices.
pub fn lists(rt: &impl Abort, found: &[NodeIndex], wanted: &[usize]) {
    same(rt, found.len(), wanted.len());
    for (n, index) in found.iter().zip(wanted) {
        same(rt, n.index(), *index);
    }
}
