//! Finding the first fault of a document.
ghost use Rattle.std.specs.Prelude.{Result, Ok, Err, IfOk, IfSome, IfNone};
ghost use Rattle.serde_json.specs.View.{view};
ghost use Rattle.daggy_base.specs.Graph.{Graph};
ghost use Rattle.daggy_json.specs.Weight.{ReadsAs};
ghost use Rattle.daggy_json.specs.Reading.{IsGraphRead};
ghost use Rattle.daggy_json.specs.Fault.{IsFaultAt, IsDecided, Agrees};
ghost use Rattle.daggy_json.specs.declared.error.ReadError.{ReadError};

use crate::error::ReadError;
use crate::fault::Fault;
use crate::reading::gathering::gather;
use daggy_base::index::IndexType;
use daggy_base::kind::Kind;
use serde_json::Value;
use std::alloc::{AllocError, Global};

/// The first fault of a document that [`graph_from_json`] cannot read, and its place: a member of
/// the document, and the index of the entry if the member is a list. Returns `None` if the document
/// can be read as a graph. A cycle is not a fault.
///
/// Members are checked in this order: first whether `nodes`, `edge_property`, `edges` and
/// `node_holes` are present and have the right type, then `edge_property`, `node_holes`, the
/// numbers of slots, the weights of `nodes`, the entries of `edges`, and the entries of `orders`,
/// one for each node. With `Kind::Compact`, the first hole is a fault.
///
/// # Requires
///
/// - `nodes`: `fn_node` may be called with any argument, any number of times.
/// - `edges`: `fn_edge` may be called with any argument, any number of times.
///
/// # Errors
///
/// Returns `AllocError` if an allocation fails, here or in one of the two functions.
///
/// # Complexity
///
/// O(slots), plus the calls.
///
/// # Examples
///
/// ```
/// let text = r#"{"edge_property": "directed", "nodes": [1, 2], "edges": [[0, 1, 5], [1, 2, 6]]}"#;
/// let value = Value::from_str(rt.alloc(), text)?;
/// let number = |value: &Value| Ok(value.as_u64());
/// let result: Result<Dag<u64, u64>, ReadError> =
///     dag_from_json(rt.alloc(), &value, number, number);
/// assert!(rt; result.err() == Some(ReadError::BadEndpoint));
/// let fault =
///     find_fault::<u64, u64, u32, _, _>(rt.alloc(), &value, Kind::Compact, number, number)?;
/// let place = Place { member: Member::Edges, entry: Some(1) };
/// assert!(rt; fault == Some(Fault { error: ReadError::BadEndpoint, place }));
/// ```
pub fn find_fault<
    N: Drop,
    E: Drop,
    Ix: IndexType,
    F: Fn(&Value) -> Result<Option<N>, AllocError> + Drop,
    G: Fn(&Value) -> Result<Option<E>, AllocError> + Drop,
>(
    alloc: Global,
    value: &Value,
    kind: Kind,
    fn_node: F,
    fn_edge: G,
) -> Result<Option<Fault>, AllocError>
    requires nodes { F.IsAlwaysCallable fn_node }
    requires edges { G.IsAlwaysCallable fn_edge }
    ensures none { IfOk result (λ o. IfNone o ((g : Graph N E)
        × IsGraphRead Ix.greatest kind (ReadsAs F.Fn fn_node) (ReadsAs G.Fn fn_edge)
        (view value.now) (Ok g))) }
    ensures error { IfOk result (λ o. IfSome o (λ f.
        IsGraphRead {N = N} {E = E} Ix.greatest kind (ReadsAs F.Fn fn_node) (ReadsAs G.Fn fn_edge)
        (view value.now) (Err f.error))) }
    ensures place { IfOk result (λ o. IfSome o (λ f.
        IsFaultAt {N = N} {E = E} Ix.greatest kind (ReadsAs F.Fn fn_node) (ReadsAs G.Fn fn_edge)
        (view value.now) f.error f.place.member f.place.entry)) }
    // Whatever a reading of this value returns, this is it, if each value is decoded in one way.
    ensures agrees { IfOk result (λ o.
        IsDecided (ReadsAs F.Fn fn_node) → IsDecided (ReadsAs G.Fn fn_edge)
        → (r : Result (Graph N E) ReadError)
        → IsGraphRead Ix.greatest kind (ReadsAs F.Fn fn_node) (ReadsAs G.Fn fn_edge)
        (view value.now) r
        → Agrees o r) }
{
    match gather::<N, E, Ix, F, G>(alloc, value, kind, &fn_node, &fn_edge) {
        Ok(_) => Ok(None),
        Err(fault) => match fault.error {
            ReadError::Memory => Err(AllocError),
            _ => Ok(Some(fault)),
        },
    }
}
