//! Errors of writing and reading documents.
ghost use Rattle.std.specs.Prelude.{◌≡◌};
ghost use Rattle.daggy_json.specs.declared.error.WriteError.TheVariants.{Memory};
ghost use Rattle.daggy_json.specs.declared.error.ReadError.TheVariants.{Memory as ReadMemory};

use std::alloc::{AllocError, AllocFailed};
use std::io;
use thiserror::Error;

/// Writing a document failed.
///
/// # Examples
///
/// ```
/// let mut dag: Dag<u32, u32> = Dag::new(rt.alloc());
/// dag.add_node(1)?;
/// let result = dag_to_json(rt.alloc(), &dag, |_| Err(AllocError), |e| Ok(Value::from(*e)));
/// assert!(rt; result.err() == Some(WriteError::Memory));
/// ```
#[derive(Clone, Copy, Debug, Drop, Eq, Error, PartialEq)]
pub enum WriteError {
    /// Out of memory, here or in a function that encodes a weight.
    #[error("out of memory")]
    Memory,
}

/// Writing a document to a writer failed.
///
/// # Examples
///
/// ```
/// let mut dag: Dag<u32, u32> = Dag::new(rt.alloc());
/// dag.add_node(1)?;
/// let mut text = Vec::new(rt.alloc());
/// let result = write_json(&dag, &mut text, |_| Err(AllocError), |e| Ok(Value::from(*e)));
/// assert!(rt; matches!(result, Err(StreamError::Memory)));
/// ```
#[derive(Debug, Drop, Error)]
pub enum StreamError {
    /// Out of memory in a function that encodes a weight.
    #[error("out of memory")]
    Memory,
    /// The writer failed.
    #[error("{0}")]
    Io(io::Error),
}

/// Reading a document failed. The error is the first fault, in the order of the variants; edge
/// entries are checked one by one, each for its shape, its endpoints and its weight.
/// [`find_fault`](crate::finding::find_fault) returns the place of the fault.
///
/// # Examples
///
/// ```
/// let weight = |value: &Value| Ok(value.as_u64().and_then(|w| u32::try_from(w).ok()));
/// let result: Result<Dag<u32, u32>, ReadError> =
///     dag_from_json(rt.alloc(), &Value::Null, weight, weight);
/// // It is no object.
/// assert!(rt; result.err() == Some(ReadError::Shape));
/// ```
#[derive(Clone, Copy, Debug, Drop, Eq, Error, PartialEq)]
pub enum ReadError {
    /// A value or a member has the wrong type. The value must be an object, `nodes` and `edges`
    /// arrays, `edge_property` a string, `node_holes` an array of whole numbers, and each entry of
    /// `edges` an array of two whole numbers and a weight, or `null` for a vacant slot.
    #[error("wrong shape")]
    Shape,
    /// `edge_property` is not `directed`.
    #[error("not directed")]
    Property,
    /// The entries of `node_holes` do not ascend, or one is too large. A `Dag` has no holes.
    #[error("wrong holes")]
    Holes,
    /// The index type has too few indices for the node slots or for the edge slots.
    #[error("no index left")]
    Full,
    /// A function that reads weights returned `None`.
    #[error("wrong weight")]
    Weight,
    /// An endpoint of an edge does not exist.
    #[error("no such endpoint")]
    BadEndpoint,
    /// `orders` does not permute the lists of each node.
    #[error("wrong orders")]
    Orders,
    /// The graph has a cycle.
    #[error("document has a cycle")]
    Cycle,
    /// Out of memory, here or in a function that reads a weight.
    #[error("out of memory")]
    Memory,
}

impl From<AllocError> for WriteError {
    ghost from_gives = { λ _ e. e ≡ Memory };

    fn from(_error: AllocError) -> WriteError {
        WriteError::Memory
    }
}

impl From<AllocError> for ReadError {
    ghost from_gives = { λ _ e. e ≡ ReadMemory };

    fn from(_error: AllocError) -> ReadError {
        ReadError::Memory
    }
}

impl<T: Drop> From<AllocFailed<T>> for ReadError {
    ghost from_gives = { λ _ e. e ≡ ReadMemory };

    fn from(_error: AllocFailed<T>) -> ReadError {
        ReadError::Memory
    }
}
