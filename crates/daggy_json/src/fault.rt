//! Where a document has its first fault.
ghost use Rattle.std.specs.Prelude.{◌≡◌, Some, None};
ghost use Rattle.daggy_json.specs.declared.error.ReadError.TheVariants.{Memory};

use crate::error::ReadError;
use std::alloc::{AllocError, AllocFailed};
use std::fmt;
use thiserror::Error;

/// A member of a document, or the document as a whole. It is displayed as its key.
///
/// # Examples
///
/// ```
/// let text = format!(in rt.alloc(); "{} {}", Member::NodeHoles, Member::Document)?;
/// assert!(rt; text.as_str() == "node_holes document");
/// ```
#[derive(Clone, Copy, Debug, Drop, Eq, PartialEq)]
pub enum Member {
    /// The document as a whole.
    Document,
    /// The weights of the nodes.
    Nodes,
    /// The vacant node slots.
    NodeHoles,
    /// The member that says that edges are directed.
    EdgeProperty,
    /// The edges.
    Edges,
    /// The order of each node's lists.
    Orders,
}

impl fmt::Display for Member {
    fn fmt<W: fmt::Write>(&self, f: &mut fmt::Formatter<W>) -> fmt::Result {
        f.write_str(match self {
            Member::Document => "document",
            Member::Nodes => "nodes",
            Member::NodeHoles => "node_holes",
            Member::EdgeProperty => "edge_property",
            Member::Edges => "edges",
            Member::Orders => "orders",
        })
    }
}

/// A place in a document: a member, or an entry of its list.
///
/// # Examples
///
/// ```
/// let place = Place { member: Member::Edges, entry: Some(17) };
/// assert!(rt; format!(in rt.alloc(); "{place}")?.as_str() == "edges[17]");
/// let place = Place { member: Member::Nodes, entry: None };
/// assert!(rt; format!(in rt.alloc(); "{place}")?.as_str() == "nodes");
/// ```
#[derive(Clone, Copy, Debug, Drop, Eq, PartialEq)]
pub struct Place {
    /// The member.
    pub member: Member,
    /// The index of the entry, or `None` if the place is the member itself.
    pub entry: Option<usize>,
}

impl fmt::Display for Place {
    fn fmt<W: fmt::Write>(&self, f: &mut fmt::Formatter<W>) -> fmt::Result {
        match self.entry {
            Some(entry) => write!(f, "{}[{entry}]", self.member),
            None => write!(f, "{}", self.member),
        }
    }
}

/// A fault of a document, and its place.
///
/// # Examples
///
/// ```
/// let place = Place { member: Member::Edges, entry: Some(17) };
/// let fault = Fault { error: ReadError::BadEndpoint, place };
/// let text = format!(in rt.alloc(); "{fault}")?;
/// assert!(rt; text.as_str() == "edges[17]: no such endpoint");
/// ```
#[derive(Clone, Copy, Debug, Drop, Eq, Error, PartialEq)]
#[error("{place}: {error}")]
pub struct Fault {
    /// What is wrong.
    pub error: ReadError,
    /// Where.
    pub place: Place,
}

impl Fault {
    // A fault of a member.
    pub(crate) fn of(error: ReadError, member: Member) -> Fault
        ensures error { result.error ≡ error }
        ensures member { result.place.member ≡ member }
        ensures entry { result.place.entry ≡ None }
    {
        Fault {
            error,
            place: Place {
                member,
                entry: None,
            },
        }
    }

    // A fault of an entry of a list.
    pub(crate) fn at(error: ReadError, member: Member, entry: usize) -> Fault
        ensures error { result.error ≡ error }
        ensures member { result.place.member ≡ member }
        ensures entry { result.place.entry ≡ Some entry }
    {
        Fault {
            error,
            place: Place {
                member,
                entry: Some(entry),
            },
        }
    }
}

impl From<AllocError> for Fault {
    ghost from_gives = { λ _ fault. fault.error ≡ Memory };

    fn from(_error: AllocError) -> Fault {
        Fault::of(ReadError::Memory, Member::Document)
    }
}

impl<T: Drop> From<AllocFailed<T>> for Fault {
    ghost from_gives = { λ _ fault. fault.error ≡ Memory };

    fn from(_error: AllocFailed<T>) -> Fault {
        Fault::of(ReadError::Memory, Member::Document)
    }
}
