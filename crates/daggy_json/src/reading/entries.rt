//! Reading the member `edges` of a document.
ghost use Rattle.std.specs.Prelude.{◌≡◌, ◌⊎◌, ◌≤◌, ◌↔◌, IsTrue, IsSome, Ok, Err, map, length};
ghost use Rattle.std.specs.Prelude.{vec_len, IfOk, IfErr};
ghost use Rattle.std.specs.Option.{option_map};
ghost use Rattle.serde_json.specs.View.{view};
ghost use Rattle.daggy_base.specs.Graph.{slot};
ghost use Rattle.daggy_base.specs.FromSlots.{edges_by};
ghost use Rattle.daggy_json.specs.Reading.{ReadsEach, IsEntryRead, triple_in};
ghost use Rattle.daggy_json.specs.Found.{edge_of};
ghost use Rattle.daggy_json.specs.FoundFault.{StopsIn};
ghost use Rattle.daggy_json.specs.Weight.{ReadsAs};
ghost use Rattle.daggy_json.specs.declared.error.ReadError.TheVariants.{Memory};
ghost use Rattle.daggy_json.specs.declared.fault.Member.TheVariants.{Edges};

use crate::error::ReadError;
use crate::fault::{Fault, Member};
use daggy_base::index::{IndexType, NodeIndex};
use daggy_base::kind::Kind;
use serde_json::Value;
use std::alloc::{AllocError, Global};

// Two whole numbers and a third value.
fn find_triple<'v>(value: &'v Value) -> Option<(usize, usize, &'v Value)>
    ensures { option_map (λ t. (t.0, t.1, view t.2.now)) result ≡ triple_in (view value.now) }
{
    let parts = value.as_array()?;
    if parts.len() != 3 {
        return None;
    }
    let (first, second, third) = (&parts[0], &parts[1], &parts[2]);
    let parent = first.as_u64()? as usize;
    let child = second.as_u64()? as usize;
    Some((parent, child, third))
}

// Whether there is a node in the slot.
fn is_node<N>(nodes: &Vec<Option<N>>, i: usize) -> bool
    ensures { IsTrue result ↔ IsSome (slot nodes.now.items i) }
{
    i < nodes.len() && nodes[i].is_some()
}

// An entry of an edge slot.
fn read_entry<N, E: Drop, Ix: IndexType, G: Fn(&Value) -> Result<Option<E>, AllocError>>(
    value: &Value,
    kind: Kind,
    nodes: &Vec<Option<N>>,
    fn_edge: &G,
) -> Result<Option<(NodeIndex<Ix>, NodeIndex<Ix>, E)>, ReadError>
    requires callable { G.IsAlwaysCallable fn_edge.now }
    requires few { vec_len nodes.now ≤ Ix.greatest }
    ensures ok { IfOk result
        (λ x. IsEntryRead kind nodes.now.items (ReadsAs G.Fn fn_edge.now) (view value.now)
        (Ok (option_map (edge_of Ix.number) x))) }
    ensures err { IfErr result (λ e. (e ≡ Memory)
        ⊎ IsEntryRead kind nodes.now.items (ReadsAs G.Fn fn_edge.now) (view value.now) (Err e)) }
{
    if kind == Kind::Stable && value.is_null() {
        return Ok(None);
    }
    let Some(found) = find_triple(value) else {
        return Err(ReadError::Shape);
    };
    if !is_node(nodes, found.0) || !is_node(nodes, found.1) {
        return Err(ReadError::BadEndpoint);
    }
    match fn_edge(found.2) {
        Ok(Some(weight)) => Ok(Some((NodeIndex::new(found.0), NodeIndex::new(found.1), weight))),
        Ok(None) => Err(ReadError::Weight),
        Err(_) => Err(ReadError::Memory),
    }
}

// The slots of the edges.
pub(super) fn read_entries<
    N,
    E: Drop,
    Ix: IndexType,
    G: Fn(&Value) -> Result<Option<E>, AllocError>,
>(
    alloc: Global,
    list: &Vec<Value>,
    kind: Kind,
    nodes: &Vec<Option<N>>,
    fn_edge: &G,
) -> Result<Vec<Option<(NodeIndex<Ix>, NodeIndex<Ix>, E)>>, Fault>
    requires callable { G.IsAlwaysCallable fn_edge.now }
    requires few { vec_len nodes.now ≤ Ix.greatest }
    ensures ok { IfOk result
        (λ v. ReadsEach (IsEntryRead kind nodes.now.items (ReadsAs G.Fn fn_edge.now))
        (map view list.now.items) (Ok (edges_by Ix.number v.items))) }
    ensures err { IfErr result (λ f. (f.error ≡ Memory)
        ⊎ StopsIn (IsEntryRead kind nodes.now.items (ReadsAs G.Fn fn_edge.now))
        (map view list.now.items) Edges f) }
{
    let mut edges = Vec::new(alloc);
    edges.reserve(list.len())?;
    for value in list {
        match read_entry(value, kind, nodes, fn_edge) {
            Ok(edge) => edges.push(edge)?,
            Err(error) => return Err(Fault::at(error, Member::Edges, edges.len())),
        }
    }
    Ok(edges)
}
