//! The assertions, the dags of both kinds, and the one refusal.
//!
//! Each `assert_eq!` costs a proof, so it is written here once, and tests call it. What is
//! generic over the store serves both kinds of dag.
ghost use Rattle.std.specs.Prelude.{◌≡◌, IsTrue, Ok};

use daggy::graph::DiGraph;
use daggy::stable_graph::StableDiGraph;
use daggy_base::store::Store;
use daggy_dag::acyclic::Acyclic;
use std::alloc::{AllocError, Global};
use std::fmt::Debug;
use std::process::Abort;
use std::rt::Env;

/// A dag of either kind.
pub type Plain<S> = Acyclic<usize, usize, u32, S>;

/// How often the closures of a call were called for nodes and for edges.
#[derive(Clone, Copy, Debug, PartialEq)]
pub struct Calls {
    pub nodes: usize,
    pub edges: usize,
}

/// A store of one kind, whose weights are numbers, with the calls that only its dags have.
pub trait Kind: Store<u32, NodeWeight = usize, EdgeWeight = usize> {
    /// Whether a removal leaves a gap.
    const GAP: bool;

    /// An empty dag with capacity for `nodes` nodes and `edges` edges.
    fn with_capacity(alloc: Global, nodes: usize, edges: usize) -> Result<Plain<Self>, AllocError>;

    /// Copies a dag.
    fn copied(dag: &Plain<Self>) -> Result<Plain<Self>, AllocError>;

    /// Maps a dag to its own weights.
    fn mapped(dag: &Plain<Self>, calls: &mut Calls) -> Result<Plain<Self>, AllocError>;

    /// Keeps all of a dag.
    fn kept(dag: &Plain<Self>, calls: &mut Calls) -> Result<Plain<Self>, AllocError>;
}

/// The store of the compact kind.
pub type Compact = DiGraph<usize, usize, u32>;

/// The store of the stable kind.
pub type Stable = StableDiGraph<usize, usize, u32>;

/// Counts a call, and returns the weight that it was called with.
pub fn counted(calls: &mut usize, weight: &usize) -> usize {
    *calls = calls.wrapping_add(1);
    *weight
}

impl Kind for Compact {
    const GAP: bool = false;

    fn with_capacity(alloc: Global, nodes: usize, edges: usize) -> Result<Plain<Self>, AllocError> {
        Plain::<Compact>::with_capacity(alloc, nodes, edges)
    }

    fn copied(dag: &Plain<Self>) -> Result<Plain<Self>, AllocError> {
        dag.try_clone()
    }

    fn mapped(dag: &Plain<Self>, calls: &mut Calls) -> Result<Plain<Self>, AllocError> {
        let Calls { nodes, edges } = calls;
        dag.map(|_, w| counted(nodes, w), |_, w| counted(edges, w))
    }

    fn kept(dag: &Plain<Self>, calls: &mut Calls) -> Result<Plain<Self>, AllocError> {
        let Calls { nodes, edges } = calls;
        dag.filter_map(
            |_, w| Some(counted(nodes, w)),
            |_, w| Some(counted(edges, w)),
        )
    }
}

impl Kind for Stable {
    const GAP: bool = true;

    fn with_capacity(alloc: Global, nodes: usize, edges: usize) -> Result<Plain<Self>, AllocError> {
        Plain::<Stable>::with_capacity(alloc, nodes, edges)
    }

    fn copied(dag: &Plain<Self>) -> Result<Plain<Self>, AllocError> {
        dag.try_clone()
    }

    fn mapped(dag: &Plain<Self>, calls: &mut Calls) -> Result<Plain<Self>, AllocError> {
        let Calls { nodes, edges } = calls;
        dag.map(|_, w| counted(nodes, w), |_, w| counted(edges, w))
    }

    fn kept(dag: &Plain<Self>, calls: &mut Calls) -> Result<Plain<Self>, AllocError> {
        let Calls { nodes, edges } = calls;
        dag.filter_map(
            |_, w| Some(counted(nodes, w)),
            |_, w| Some(counted(edges, w)),
        )
    }
}

/// Asserts that what was found is what is wanted.
pub fn same<T: PartialEq + Debug + Drop>(rt: &impl Abort, found: T, wanted: T) {
    assert_eq!(rt; found, wanted);
}

/// Asserts a fact, which calls after it may rest on.
pub fn holds(rt: &impl Abort, fact: bool)
    ensures { IsTrue fact }
{
    assert!(rt; fact);
}

/// Asserts that a call succeeded, and returns its value.
pub fn made<T: Drop, E: Drop>(rt: &impl Abort, answer: Result<T, E>) -> T
    ensures { answer ≡ Ok result }
{
    match answer {
        Ok(x) => x,
        Err(_) => panic!(rt; "the call was refused"),
    }
}

/// Notes a refusal, and asserts that there was none before: one allocation fails, and no other.
pub fn refuse(rt: &impl Abort, refused: &mut bool) {
    assert!(rt; !*refused, "a second refusal");
    *refused = true;
}

// Whether an allocation was refused so far. `.ci/fail_allocation.c` says so in the environment; by
// itself no test is refused.
fn was_refused(rt: &impl Env) -> bool {
    let mut told = [0u8; 8];
    match rt.var("ALLOCATIONS_REFUSED", &mut told) {
        Ok(_) => told[0] == b'1',
        Err(_) => false,
    }
}

/// Asserts that the refusal was answered if an allocation was refused, and else that none was.
pub fn answered(rt: &(impl Abort + Env), refused: bool) {
    same(rt, refused, was_refused(rt));
}

/// Asserts that no refusal was answered if no allocation was refused. A call that can do without
/// the memory need not answer one.
pub fn has_cause(rt: &(impl Abort + Env), refused: bool) {
    holds(rt, !refused || was_refused(rt));
}
