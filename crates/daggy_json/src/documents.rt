//! Dags of both kinds, written as JSON values and read from them.
ghost use Rattle.std.specs.Prelude.{◌≡◌, ◌⊎◌, Ok, Err, IfOk, OnOk, IfErr, MatchResult};
ghost use Rattle.serde_json.specs.Data.{Data};
ghost use Rattle.serde_json.specs.View.{view};
ghost use Rattle.daggy_base.specs.Graph.{Graph, IsCompact};
ghost use Rattle.daggy_base.specs.declared.kind.Kind.TheVariants.{Compact, Stable};
ghost use Rattle.daggy_base.specs.WellFormed.{IsDag};
ghost use Rattle.daggy_json.specs.Document.{IsDocumentOf, IsShortDocumentOf};
ghost use Rattle.daggy_json.specs.Weight.{WritesAs, ReadsAs};
ghost use Rattle.daggy_json.specs.Reading.{IsGraphRead, IsRead};
ghost use Rattle.daggy_json.specs.Restoring.{ReadsOnly, trimmed, IsCopyAs, ReadsTo};
ghost use Rattle.daggy_json.specs.Restoring.{HasRefused, HasValues};
ghost use Rattle.daggy_json.specs.Streaming.{HasDocument, HasFront, OrNull};
ghost use Rattle.daggy_json.specs.Streaming.{HasShortDocument, HasShortFront};
ghost use Rattle.daggy_json.specs.declared.error.ReadError.TheVariants.{Memory, Weight};

use crate::error::{ReadError, StreamError, WriteError};
use crate::making::{read, read_graph};
use crate::streaming::{stream_document, stream_short_document};
use crate::text::TextWriter;
use crate::writing::write_document;
use daggy_base::index::IndexType;
use daggy_base::read_store::ReadStore;
use daggy_base::store::Store;
use daggy_dag::acyclic::{Acyclic, Dag, StableDag};
use serde_json::Value;
use std::alloc::{AllocError, Global};
use std::io::Write;

// The document of a dag of either kind.
fn write<
    N: Drop,
    E: Drop,
    Ix: IndexType,
    S: ReadStore<Ix, NodeWeight = N, EdgeWeight = E>,
    F: Fn(&N) -> Result<Value, AllocError>,
    G: Fn(&E) -> Result<Value, AllocError>,
>(alloc: Global, dag: &Acyclic<N, E, Ix, S>, fn_node: &F, fn_edge: &G) -> Result<Value, WriteError>
    requires nodes { F.IsAlwaysCallable fn_node.now }
    requires edges { G.IsAlwaysCallable fn_edge.now }
    ensures document { IfOk result
        (λ v. IsDocumentOf (WritesAs F.Fn fn_node.now) (WritesAs G.Fn fn_edge.now) dag.now.graph
        (view v)) }
    ensures values { IfOk result
        (λ v. HasValues S.KIND Ix.greatest (WritesAs F.Fn fn_node.now) (WritesAs G.Fn fn_edge.now)
        dag.now.graph (view v)) }
{
    // Called only for its postcondition: the graph is that of a dag.
    let _dag = dag.node_count();
    Ok(write_document(alloc, dag.graph(), fn_node, fn_edge)?)
}

/// The document of a dag: an object with the weights of its nodes, its edges, and the orders of its
/// lists.
///
/// `fn_node` encodes the weight of a node, and `fn_edge` the weight of an edge.
///
/// # Requires
///
/// - `nodes`: `fn_node` may be called with any argument, any number of times.
/// - `edges`: `fn_edge` may be called with any argument, any number of times.
///
/// # Errors
///
/// Returns `WriteError::Memory` if an allocation fails, here or in one of the two functions.
///
/// # Complexity
///
/// O(nodes + edges), plus the calls.
///
/// # Examples
///
/// ```
/// let mut dag: Dag<u32, u32> = Dag::new(rt.alloc());
/// let sow = dag.add_node(1)?;
/// dag.add_child(sow, 90, 2)?;
/// let value = dag_to_json(
///     rt.alloc(),
///     &dag,
///     |n| Ok(Value::from(*n)),
///     |e| Ok(Value::from(*e)),
/// )?;
/// let text = value.to_vec(rt.alloc())?;
/// assert!(rt; text.starts_with(b"{\"edge_property\":\"directed\",\"edges\":[[0,1,90]],"));
/// ```
pub fn dag_to_json<
    N: Drop,
    E: Drop,
    Ix: IndexType,
    F: Fn(&N) -> Result<Value, AllocError> + Drop,
    G: Fn(&E) -> Result<Value, AllocError> + Drop,
>(alloc: Global, dag: &Dag<N, E, Ix>, fn_node: F, fn_edge: G) -> Result<Value, WriteError>
    requires nodes { F.IsAlwaysCallable fn_node }
    requires edges { G.IsAlwaysCallable fn_edge }
    ensures document { IfOk result (λ v.
        IsDocumentOf (WritesAs F.Fn fn_node) (WritesAs G.Fn fn_edge) dag.now.graph (view v)) }
    // It is also the document of a dag of the encoded weights.
    ensures values { IfOk result (λ v.
        HasValues Compact Ix.greatest (WritesAs F.Fn fn_node) (WritesAs G.Fn fn_edge)
        dag.now.graph (view v)) }
{
    write(alloc, dag, &fn_node, &fn_edge)
}

/// The document of a stable dag, in the format of [`dag_to_json`]. It also lists the vacant node
/// slots, and has `null` for each vacant edge slot, both up to the greatest index in use.
///
/// # Requires
///
/// - `nodes`: `fn_node` may be called with any argument, any number of times.
/// - `edges`: `fn_edge` may be called with any argument, any number of times.
///
/// # Errors
///
/// Returns `WriteError::Memory` if an allocation fails, here or in one of the two functions.
///
/// # Complexity
///
/// O(slots), plus the calls.
///
/// # Examples
///
/// ```
/// let mut dag: StableDag<u32, u32> = StableDag::new(rt.alloc());
/// let plan = dag.add_node(1)?;
/// let sow = dag.add_node(2)?;
/// let _child = dag.add_child(sow, 90, 3)?;
/// assert!(rt; dag.remove_node(plan) == Some(1));
/// let value = stable_to_json(
///     rt.alloc(),
///     &dag,
///     |n| Ok(Value::from(*n)),
///     |e| Ok(Value::from(*e)),
/// )?;
/// let text = value.to_vec(rt.alloc())?;
/// assert!(rt; text.starts_with(b"{\"edge_property\":\"directed\",\"edges\":[[1,2,90]],"));
/// ```
pub fn stable_to_json<
    N: Drop,
    E: Drop,
    Ix: IndexType,
    F: Fn(&N) -> Result<Value, AllocError> + Drop,
    G: Fn(&E) -> Result<Value, AllocError> + Drop,
>(alloc: Global, dag: &StableDag<N, E, Ix>, fn_node: F, fn_edge: G) -> Result<Value, WriteError>
    requires nodes { F.IsAlwaysCallable fn_node }
    requires edges { G.IsAlwaysCallable fn_edge }
    ensures document { IfOk result (λ v.
        IsDocumentOf (WritesAs F.Fn fn_node) (WritesAs G.Fn fn_edge) dag.now.graph (view v)) }
    // It is also the document of a dag of the encoded weights.
    ensures values { IfOk result (λ v.
        HasValues Stable Ix.greatest (WritesAs F.Fn fn_node) (WritesAs G.Fn fn_edge)
        dag.now.graph (view v)) }
{
    write(alloc, dag, &fn_node, &fn_edge)
}

/// Writes the document of a dag of either kind to a writer, as compact text: the same bytes that
/// `Value::to_vec` returns for the value of [`dag_to_json`], without building that value. It does
/// not allocate, and does not flush the writer.
///
/// `fn_node` encodes the weight of a node, and `fn_edge` the weight of an edge.
///
/// # Requires
///
/// - `nodes`: `fn_node` may be called with any argument, any number of times.
/// - `edges`: `fn_edge` may be called with any argument, any number of times.
///
/// # Errors
///
/// Returns `Memory` if one of these functions fails, otherwise `Io` with the writer's error. In
/// that case a prefix of the text has been written.
///
/// # Complexity
///
/// O(nodes + edges), plus the calls. After an error the writer is not called again, but the rest of
/// the dag is still traversed.
///
/// # Examples
///
/// ```
/// let mut dag: Dag<u32, u32> = Dag::new(rt.alloc());
/// let sow = dag.add_node(1)?;
/// let _ = dag.add_child(sow, 90, 2)?;
/// let mut text = Vec::new(rt.alloc());
/// write_json(
///     &dag,
///     &mut text,
///     |n| Ok(Value::from(*n)),
///     |e| Ok(Value::from(*e)),
/// )?;
/// assert!(rt; text.starts_with(b"{\"edge_property\":\"directed\",\"edges\":[[0,1,90]],"));
/// ```
pub fn write_json<
    W: Write,
    N: Drop,
    E: Drop,
    Ix: IndexType,
    S: ReadStore<Ix, NodeWeight = N, EdgeWeight = E>,
    F: Fn(&N) -> Result<Value, AllocError> + Drop,
    G: Fn(&E) -> Result<Value, AllocError> + Drop,
>(dag: &Acyclic<N, E, Ix, S>, writer: &mut W, fn_node: F, fn_edge: G) -> Result<(), StreamError>
    requires nodes { F.IsAlwaysCallable fn_node }
    requires edges { G.IsAlwaysCallable fn_edge }
    ensures document { OnOk result (HasDocument (WritesAs F.Fn fn_node) (WritesAs G.Fn fn_edge)
        dag.now.graph (W.contents writer.old) (W.contents writer.new)) }
    ensures fault { IfErr result (λ e. ¬ (e ≡ StreamError.Memory)
        → HasFront (WritesAs F.Fn fn_node) (WritesAs G.Fn fn_edge)
        dag.now.graph (W.contents writer.old) (W.contents writer.new)) }
    // After the failure `null` may be written for a weight.
    ensures memory { result ≡ Err StreamError.Memory
        → HasFront (OrNull (WritesAs F.Fn fn_node)) (OrNull (WritesAs G.Fn fn_edge))
        dag.now.graph (W.contents writer.old) (W.contents writer.new) }
{
    let mut out = TextWriter::new(writer);
    stream_document(dag.graph(), &fn_node, &fn_edge, &mut out);
    out.finish()
}

/// Writes the short document of a dag of either kind to a writer: without `orders` if each list is
/// in descending index order, otherwise the text of [`write_json`]. Both are read as the same dag.
/// It does not allocate, and does not flush the writer.
///
/// Each list of a dag is in descending index order if edges were only added. In a stable dag this
/// remains so after removals, until an edge is added to a vacant slot.
///
/// `fn_node` encodes the weight of a node, and `fn_edge` the weight of an edge.
///
/// # Requires
///
/// - `nodes`: `fn_node` may be called with any argument, any number of times.
/// - `edges`: `fn_edge` may be called with any argument, any number of times.
///
/// # Errors
///
/// Returns `Memory` if one of these functions fails, otherwise `Io` with the writer's error. In
/// that case a prefix of the text has been written.
///
/// # Complexity
///
/// O(nodes + edges), plus the calls. After an error the writer is not called again, but the rest of
/// the dag is still traversed.
///
/// # Examples
///
/// ```
/// let mut dag: Dag<u32, u32> = Dag::new(rt.alloc());
/// let sow = dag.add_node(1)?;
/// let _ = dag.add_child(sow, 90, 2)?;
/// let mut text = Vec::new(rt.alloc());
/// write_short_json(
///     &dag,
///     &mut text,
///     |n| Ok(Value::from(*n)),
///     |e| Ok(Value::from(*e)),
/// )?;
/// assert!(rt; text.ends_with(b"\"edges\":[[0,1,90]],\"node_holes\":[],\"nodes\":[1,2]}"));
/// ```
pub fn write_short_json<
    W: Write,
    N: Drop,
    E: Drop,
    Ix: IndexType,
    S: ReadStore<Ix, NodeWeight = N, EdgeWeight = E>,
    F: Fn(&N) -> Result<Value, AllocError> + Drop,
    G: Fn(&E) -> Result<Value, AllocError> + Drop,
>(dag: &Acyclic<N, E, Ix, S>, writer: &mut W, fn_node: F, fn_edge: G) -> Result<(), StreamError>
    requires nodes { F.IsAlwaysCallable fn_node }
    requires edges { G.IsAlwaysCallable fn_edge }
    ensures document { OnOk result
        (HasShortDocument (WritesAs F.Fn fn_node) (WritesAs G.Fn fn_edge)
        dag.now.graph (W.contents writer.old) (W.contents writer.new)) }
    ensures fault { IfErr result (λ e. ¬ (e ≡ StreamError.Memory)
        → HasShortFront (WritesAs F.Fn fn_node) (WritesAs G.Fn fn_edge)
        dag.now.graph (W.contents writer.old) (W.contents writer.new)) }
    // After the failure `null` may be written for a weight.
    ensures memory { result ≡ Err StreamError.Memory
        → HasShortFront (OrNull (WritesAs F.Fn fn_node)) (OrNull (WritesAs G.Fn fn_edge))
        dag.now.graph (W.contents writer.old) (W.contents writer.new) }
{
    let mut out = TextWriter::new(writer);
    stream_short_document(dag.graph(), &fn_node, &fn_edge, &mut out);
    out.finish()
}

/// Reads a dag from a value in the format of [`dag_to_json`]. Unknown members are ignored. Without
/// `orders` each list is in descending index order. Reading a written document restores the dag:
/// its indices, the endpoints of its edges and its lists, with the weights that `fn_node` and
/// `fn_edge` return for the encoded ones.
///
/// `fn_node` and `fn_edge` read the weights, and return `None` for a value that is not a weight.
///
/// # Requires
///
/// - `nodes`: `fn_node` may be called with any argument, any number of times.
/// - `edges`: `fn_edge` may be called with any argument, any number of times.
///
/// # Errors
///
/// Returns the first fault of the value, or `Memory` if an allocation fails.
///
/// # Complexity
///
/// O(nodes + edges), plus the calls.
///
/// # Examples
///
/// ```
/// let mut dag: Dag<u32, u32> = Dag::new(rt.alloc());
/// let sow = dag.add_node(1)?;
/// let (days, _) = dag.add_child(sow, 90, 2)?;
/// let value = dag_to_json(
///     rt.alloc(),
///     &dag,
///     |n| Ok(Value::from(*n)),
///     |e| Ok(Value::from(*e)),
/// )?;
/// let weight = |value: &Value| Ok(value.as_u64().and_then(|w| u32::try_from(w).ok()));
/// let read: Dag<u32, u32> = dag_from_json(rt.alloc(), &value, weight, weight)?;
/// assert!(rt; read.edge_weight(days) == Some(&90));
/// ```
pub fn dag_from_json<
    N: Drop,
    E: Drop,
    Ix: IndexType,
    F: Fn(&Value) -> Result<Option<N>, AllocError> + Drop,
    G: Fn(&Value) -> Result<Option<E>, AllocError> + Drop,
>(alloc: Global, value: &Value, fn_node: F, fn_edge: G) -> Result<Dag<N, E, Ix>, ReadError>
    requires nodes { F.IsAlwaysCallable fn_node }
    requires edges { G.IsAlwaysCallable fn_edge }
    ensures ok { IfOk result (λ d.
        IsRead Ix.greatest Compact (ReadsAs F.Fn fn_node) (ReadsAs G.Fn fn_edge) (view value.now)
        (Ok d.graph)) }
    ensures err { IfErr result
        (λ e. (e ≡ Memory) ⊎ IsRead {N = N} {E = E} Ix.greatest Compact (ReadsAs F.Fn fn_node)
        (ReadsAs G.Fn fn_edge) (view value.now) (Err e)) }
    // The document of a dag is read as that dag, if each encoded weight decodes only to itself.
    ensures restored { (g : Graph N E) → IsDag Ix.greatest g → IsCompact g
        → IsDocumentOf (ReadsOnly (ReadsAs F.Fn fn_node)) (ReadsOnly (ReadsAs G.Fn fn_edge)) g
        (view value.now)
        → MatchResult result (λ d. d.graph ≡ g) (λ e. e ≡ Memory) }
    // The document of a dag of encoded weights is read with each weight decoded, unless one is
    // rejected.
    ensures restored_shape { (g : Graph Data Data) → IsDag Ix.greatest g → IsCompact g
        → IsDocumentOf (λ w v. w ≡ v) (λ w v. w ≡ v) g (view value.now)
        → MatchResult result
        (λ d. IsCopyAs (ReadsTo (ReadsAs F.Fn fn_node)) (ReadsTo (ReadsAs G.Fn fn_edge)) g d.graph)
        (λ e. (e ≡ Memory)
        ⊎ (e ≡ Weight) × HasRefused (ReadsAs F.Fn fn_node) (ReadsAs G.Fn fn_edge) g) }
    // The short document of a dag is read in the same way.
    ensures restored_short { (g : Graph N E) → IsDag Ix.greatest g → IsCompact g
        → IsShortDocumentOf (ReadsOnly (ReadsAs F.Fn fn_node)) (ReadsOnly (ReadsAs G.Fn fn_edge)) g
        (view value.now)
        → MatchResult result (λ d. d.graph ≡ g) (λ e. e ≡ Memory) }
    ensures restored_short_shape { (g : Graph Data Data) → IsDag Ix.greatest g → IsCompact g
        → IsShortDocumentOf (λ w v. w ≡ v) (λ w v. w ≡ v) g (view value.now)
        → MatchResult result
        (λ d. IsCopyAs (ReadsTo (ReadsAs F.Fn fn_node)) (ReadsTo (ReadsAs G.Fn fn_edge)) g d.graph)
        (λ e. (e ≡ Memory)
        ⊎ (e ≡ Weight) × HasRefused (ReadsAs F.Fn fn_node) (ReadsAs G.Fn fn_edge) g) }
{
    read(alloc, value, &fn_node, &fn_edge)
}

/// Reads a stable dag from a value, as [`dag_from_json`] reads a dag. A node slot is vacant if
/// `node_holes` lists it, and an edge slot if its entry is `null`; the highest vacant slot is
/// reused first. So a written document restores the dag, except for the order of its vacant slots
/// and for vacant slots after the greatest index in use.
///
/// # Requires
///
/// - `nodes`: `fn_node` may be called with any argument, any number of times.
/// - `edges`: `fn_edge` may be called with any argument, any number of times.
///
/// # Errors
///
/// Returns the first fault of the value, or `Memory` if an allocation fails.
///
/// # Complexity
///
/// O(slots), plus the calls.
///
/// # Examples
///
/// ```
/// let mut dag: StableDag<u32, u32> = StableDag::new(rt.alloc());
/// let plan = dag.add_node(1)?;
/// let sow = dag.add_node(2)?;
/// assert!(rt; dag.remove_node(plan) == Some(1));
/// let value = stable_to_json(
///     rt.alloc(),
///     &dag,
///     |n| Ok(Value::from(*n)),
///     |e| Ok(Value::from(*e)),
/// )?;
/// let weight = |value: &Value| Ok(value.as_u64().and_then(|w| u32::try_from(w).ok()));
/// let read: StableDag<u32, u32> = stable_from_json(rt.alloc(), &value, weight, weight)?;
/// assert!(rt; read.node_weight(sow) == Some(&2));
/// assert!(rt; !read.contains_node(plan));
/// ```
pub fn stable_from_json<
    N: Drop,
    E: Drop,
    Ix: IndexType,
    F: Fn(&Value) -> Result<Option<N>, AllocError> + Drop,
    G: Fn(&Value) -> Result<Option<E>, AllocError> + Drop,
>(alloc: Global, value: &Value, fn_node: F, fn_edge: G) -> Result<StableDag<N, E, Ix>, ReadError>
    requires nodes { F.IsAlwaysCallable fn_node }
    requires edges { G.IsAlwaysCallable fn_edge }
    ensures ok { IfOk result (λ d.
        IsRead Ix.greatest Stable (ReadsAs F.Fn fn_node) (ReadsAs G.Fn fn_edge) (view value.now)
        (Ok d.graph)) }
    ensures err { IfErr result
        (λ e. (e ≡ Memory) ⊎ IsRead {N = N} {E = E} Ix.greatest Stable (ReadsAs F.Fn fn_node)
        (ReadsAs G.Fn fn_edge) (view value.now) (Err e)) }
    // The document of a dag is read as that dag, if each encoded weight decodes only to itself.
    ensures restored { (g : Graph N E) → IsDag Ix.greatest g
        → IsDocumentOf (ReadsOnly (ReadsAs F.Fn fn_node)) (ReadsOnly (ReadsAs G.Fn fn_edge)) g
        (view value.now)
        → MatchResult result (λ d. d.graph ≡ trimmed g) (λ e. e ≡ Memory) }
    // The document of a dag of encoded weights is read with each weight decoded, unless one is
    // rejected.
    ensures restored_shape { (g : Graph Data Data) → IsDag Ix.greatest g
        → IsDocumentOf (λ w v. w ≡ v) (λ w v. w ≡ v) g (view value.now)
        → MatchResult result
        (λ d. IsCopyAs (ReadsTo (ReadsAs F.Fn fn_node)) (ReadsTo (ReadsAs G.Fn fn_edge)) (trimmed g)
        d.graph)
        (λ e. (e ≡ Memory)
        ⊎ (e ≡ Weight) × HasRefused (ReadsAs F.Fn fn_node) (ReadsAs G.Fn fn_edge) g) }
    // The short document of a dag is read in the same way.
    ensures restored_short { (g : Graph N E) → IsDag Ix.greatest g
        → IsShortDocumentOf (ReadsOnly (ReadsAs F.Fn fn_node)) (ReadsOnly (ReadsAs G.Fn fn_edge)) g
        (view value.now)
        → MatchResult result (λ d. d.graph ≡ trimmed g) (λ e. e ≡ Memory) }
    ensures restored_short_shape { (g : Graph Data Data) → IsDag Ix.greatest g
        → IsShortDocumentOf (λ w v. w ≡ v) (λ w v. w ≡ v) g (view value.now)
        → MatchResult result
        (λ d. IsCopyAs (ReadsTo (ReadsAs F.Fn fn_node)) (ReadsTo (ReadsAs G.Fn fn_edge)) (trimmed g)
        d.graph)
        (λ e. (e ≡ Memory)
        ⊎ (e ≡ Weight) × HasRefused (ReadsAs F.Fn fn_node) (ReadsAs G.Fn fn_edge) g) }
{
    read(alloc, value, &fn_node, &fn_edge)
}

/// Reads a graph, which may have cycles, from a value in the format of [`dag_to_json`]. If
/// [`dag_from_json`] or [`stable_from_json`] returns [`ReadError::Cycle`], this graph has the
/// cycle, and `find_cycle` finds it. In a `StableDiGraph`, a node slot is vacant if `node_holes`
/// lists it, and an edge slot if its entry is `null`. A `DiGraph` has no vacant slots.
///
/// # Requires
///
/// - `nodes`: `fn_node` may be called with any argument, any number of times.
/// - `edges`: `fn_edge` may be called with any argument, any number of times.
///
/// # Errors
///
/// Returns the first fault of the value, or `Memory` if an allocation fails. A cycle is not a fault.
///
/// # Complexity
///
/// O(slots), plus the calls.
///
/// # Examples
///
/// ```
/// let text = r#"{"edge_property": "directed", "node_holes": [], "nodes": [1, 2],
///     "edges": [[0, 1, 5], [1, 0, 6]]}"#;
/// let value = Value::from_str(rt.alloc(), text)?;
/// let number = |value: &Value| Ok(value.as_u64());
/// let read: Result<Dag<u64, u64>, ReadError> = dag_from_json(rt.alloc(), &value, number, number);
/// assert!(rt; matches!(read, Err(ReadError::Cycle)));
/// let mut graph: DiGraph<u64, u64> = graph_from_json(rt.alloc(), &value, number, number)?;
/// assert!(rt; find_cycle(rt.alloc(), &mut graph)?.is_some_and(|nodes| nodes.len() == 2));
/// ```
pub fn graph_from_json<
    N: Drop,
    E: Drop,
    Ix: IndexType,
    S: Store<Ix, NodeWeight = N, EdgeWeight = E>,
    F: Fn(&Value) -> Result<Option<N>, AllocError> + Drop,
    G: Fn(&Value) -> Result<Option<E>, AllocError> + Drop,
>(alloc: Global, value: &Value, fn_node: F, fn_edge: G) -> Result<S, ReadError>
    requires nodes { F.IsAlwaysCallable fn_node }
    requires edges { G.IsAlwaysCallable fn_edge }
    ensures ok { IfOk result (λ s.
        IsGraphRead Ix.greatest S.KIND (ReadsAs F.Fn fn_node) (ReadsAs G.Fn fn_edge)
        (view value.now) (Ok (S.graph s))) }
    ensures err { IfErr result
        (λ e. (e ≡ Memory) ⊎ IsGraphRead {N = N} {E = E} Ix.greatest S.KIND (ReadsAs F.Fn fn_node)
        (ReadsAs G.Fn fn_edge) (view value.now) (Err e)) }
{
    read_graph(alloc, value, &fn_node, &fn_edge)
}
