//! The assertions, and indices that are small enough.
//!
//! Each `assert_eq!` costs a proof, so it is written here once, and tests call it.
ghost use Rattle.std.specs.Prelude.{◌≡◌, IsTrue, Ok};

use daggy_base::index::{EdgeIndex, IndexType, NodeIndex};
use std::alloc::Global;
use std::fmt::Debug;
use std::process::Abort;

/// Asserts that what was found is what is wanted.
pub fn same<T: PartialEq + Debug + Drop>(rt: &impl Abort, found: T, wanted: T) {
    assert_eq!(rt; found, wanted);
}

/// Asserts a fact, which calls after it may rest on.
pub fn holds(rt: &impl Abort, fact: bool)
    ensures { IsTrue fact }
{
    assert!(rt; fact);
}

/// Asserts that a call succeeded, and returns its value.
pub fn made<T: Drop, E: Drop>(rt: &impl Abort, answer: Result<T, E>) -> T
    ensures { answer ≡ Ok result }
{
    match answer {
        Ok(x) => x,
        Err(_) => panic!(rt; "the call was refused"),
    }
}

/// A text that owns its memory.
pub fn text(rt: &impl Abort, alloc: Global, text: &str) -> String {
    made(rt, text.to_string(alloc))
}

/// Asserts that there is a text, and that it is this one.
pub fn reads(rt: &impl Abort, found: Option<&String>, wanted: &str) {
    match found {
        Some(text) => same(rt, text.as_str(), wanted),
        None => panic!(rt; "there is no text"),
    }
}

/// Asserts that a value is shown as this text where a program is debugged.
pub fn shows<T: Debug>(rt: &impl Abort, alloc: Global, value: &T, wanted: &str) {
    let text = made(rt, format!(in alloc; "{value:?}"));
    assert_eq!(rt; text.as_str(), wanted);
}

/// The index of a node.
pub fn node<Ix: IndexType>(rt: &impl Abort, x: usize) -> NodeIndex<Ix> {
    assert!(rt; x <= NodeIndex::<Ix>::end().index());
    NodeIndex::new(x)
}

/// The index of an edge.
pub fn edge<Ix: IndexType>(rt: &impl Abort, x: usize) -> EdgeIndex<Ix> {
    assert!(rt; x <= EdgeIndex::<Ix>::end().index());
    EdgeIndex::new(x)
}
