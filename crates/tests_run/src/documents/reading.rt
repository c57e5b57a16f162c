//! Documents that are read.
use super::scenes::{Scene, both, compact, stable};
use super::support::{
    Kind, Plain, REORDERED, VACANT, edge, holds, is_written, made, node, value_of,
};
use daggy_base::index::NodeIndex;
use daggy_json::error::ReadError;
use daggy_walk::walker::Walker;
use std::alloc::Global;
use std::process::Abort;

fn read<S: Kind>(rt: &impl Abort, alloc: Global, text: &str) -> Result<Plain<S>, ReadError> {
    let value = value_of(rt, alloc, text);
    S::read(alloc, &value)
}

/// Asserts that a document is read.
pub fn reads<S: Kind>(rt: &impl Abort, alloc: Global, text: &str) {
    let _dag = made(rt, read::<S>(rt, alloc, text));
}

/// Asserts that a document reads as a dag that is written as the other one.
pub fn reads_as<S: Kind>(rt: &impl Abort, alloc: Global, text: &str, wanted: &str) {
    let dag = made(rt, read::<S>(rt, alloc, text));
    is_written(rt, alloc, &dag, wanted);
}

const WITHOUT_ORDERS: &str =
    "{\"edge_property\":\"directed\",\"edges\":[[0,1,6],[0,2,5]],\"node_holes\":[],\
     \"nodes\":[1,2,3]}";

const DESCENDING: &str =
    "{\"edge_property\":\"directed\",\"edges\":[[0,1,6],[0,2,5]],\"node_holes\":[],\
     \"nodes\":[1,2,3],\"orders\":[[[1,0],[]],[[],[0]],[[],[1]]]}";

#[test]
fn lists_are_read_in_their_order(rt: HostRuntime) {
    both(&rt, rt.alloc(), Scene::ReadAs(REORDERED, REORDERED));
}

#[test]
fn without_orders_lists_descend(rt: HostRuntime) {
    both(&rt, rt.alloc(), Scene::ReadAs(WITHOUT_ORDERS, DESCENDING));
}

const TRAILING: &str = "{\"nodes\":[1,2],\"node_holes\":[0,2],\"edge_property\":\"directed\",\
     \"edges\":[null,[1,3,7]]}";

/// Reads a document of two nodes and an edge between vacant slots.
pub fn reads_vacant_slots<S: Kind>(rt: &impl Abort, alloc: Global, text: &str) {
    let dag = made(rt, read::<S>(rt, alloc, text));
    let (a, b) = (node(rt, 1), node(rt, 3));
    holds(rt, (dag.node_count(), dag.edge_count()) == (2, 1));
    holds(rt, dag.node_weight(a) == Some(&1));
    holds(rt, dag.node_weight(b) == Some(&2));
    let only = edge(rt, 1);
    holds(rt, dag.edge_weight(only) == Some(&7));
    let mut children = dag.children(a);
    holds(rt, children.walk_next(&dag) == Some((only, b)));
    holds(rt, children.walk_next(&dag).is_none());
}

#[test]
fn vacant_slots_are_read(rt: HostRuntime) {
    stable(&rt, rt.alloc(), Scene::ReadAs(VACANT, VACANT));
    stable(&rt, rt.alloc(), Scene::VacantRead(TRAILING));
}

// Adds a node, and asserts its index.
fn takes_node<S: Kind>(rt: &impl Abort, dag: &mut Plain<S>, wanted: usize) {
    holds(rt, dag.can_add_node());
    let n = made(rt, dag.add_node(9));
    holds(rt, n.index() == wanted);
}

// Adds an edge, and asserts its index.
fn takes_edge<S: Kind>(
    rt: &impl Abort,
    dag: &mut Plain<S>,
    ends: (NodeIndex<u8>, NodeIndex<u8>),
    wanted: usize,
) {
    let (a, b) = ends;
    holds(rt, dag.contains_node(a) && dag.contains_node(b));
    holds(rt, dag.can_add_edge());
    let e = made(rt, dag.add_edge(a, b, 5));
    holds(rt, e.index() == wanted);
}

/// Reads the same document and adds nodes and edges. The vacant slot with the greatest index is taken
/// first.
pub fn takes_vacant_slots<S: Kind>(rt: &impl Abort, alloc: Global, text: &str) {
    let mut dag = made(rt, read::<S>(rt, alloc, text));
    for wanted in [2, 0, 4] {
        takes_node(rt, &mut dag, wanted);
    }
    let a = node(rt, 1);
    let b = node(rt, 3);
    for wanted in [0, 2] {
        takes_edge(rt, &mut dag, (a, b), wanted);
    }
}

#[test]
fn vacant_slots_that_were_read_are_taken(rt: HostRuntime) {
    stable(&rt, rt.alloc(), Scene::VacantTaken(TRAILING));
}

/// Asserts that a document has this fault.
pub fn refuses<S: Kind>(rt: &impl Abort, alloc: Global, text: &str, wanted: ReadError) {
    match read::<S>(rt, alloc, text) {
        Ok(_) => holds(rt, false),
        Err(found) => holds(rt, found == wanted),
    }
}

/// Documents, and the first fault of each, whatever the kind is.
const FAULTS: [(&str, ReadError); 29] = [
    ("null", ReadError::Shape),
    ("[]", ReadError::Shape),
    ("{\"nodes\":[],\"edges\":[]}", ReadError::Shape),
    (
        "{\"edge_property\":\"directed\",\"edges\":[]}",
        ReadError::Shape,
    ),
    (
        "{\"nodes\":[],\"edge_property\":\"directed\"}",
        ReadError::Shape,
    ),
    (
        "{\"nodes\":{},\"edge_property\":\"directed\",\"edges\":[]}",
        ReadError::Shape,
    ),
    (
        "{\"nodes\":[],\"edge_property\":true,\"edges\":[]}",
        ReadError::Shape,
    ),
    (
        "{\"nodes\":[],\"edge_property\":\"directed\",\"edges\":{}}",
        ReadError::Shape,
    ),
    (
        "{\"nodes\":[],\"node_holes\":null,\"edge_property\":\"directed\",\"edges\":[]}",
        ReadError::Shape,
    ),
    (
        "{\"nodes\":[1],\"node_holes\":[-1],\"edge_property\":\"x\",\"edges\":[]}",
        ReadError::Shape,
    ),
    (
        "{\"nodes\":[1],\"node_holes\":[5],\"edge_property\":\"x\",\"edges\":[]}",
        ReadError::Property,
    ),
    (
        "{\"nodes\":[true],\"edge_property\":\"undirected\",\"edges\":[]}",
        ReadError::Property,
    ),
    (
        "{\"nodes\":[1,2],\"node_holes\":[1,1],\"edge_property\":\"directed\",\"edges\":[]}",
        ReadError::Holes,
    ),
    (
        "{\"nodes\":[true],\"node_holes\":[5],\"edge_property\":\"directed\",\"edges\":[]}",
        ReadError::Holes,
    ),
    (
        "{\"nodes\":[true],\"edge_property\":\"directed\",\"edges\":[[0,9,1]]}",
        ReadError::Weight,
    ),
    (
        "{\"nodes\":[1],\"edge_property\":\"directed\",\"edges\":[[0,9,true]]}",
        ReadError::BadEndpoint,
    ),
    (
        "{\"nodes\":[1],\"edge_property\":\"directed\",\"edges\":[[0,5,0]]}",
        ReadError::BadEndpoint,
    ),
    (
        "{\"nodes\":[1],\"edge_property\":\"directed\",\"edges\":[[0,18446744073709551615,1]]}",
        ReadError::BadEndpoint,
    ),
    (
        "{\"nodes\":[1],\"edge_property\":\"directed\",\"edges\":[[0,0,true]]}",
        ReadError::Weight,
    ),
    (
        "{\"nodes\":[1],\"edge_property\":\"directed\",\"edges\":[[0,0]]}",
        ReadError::Shape,
    ),
    (
        "{\"nodes\":[1],\"edge_property\":\"directed\",\"edges\":[[0,0,1],[0]]}",
        ReadError::Shape,
    ),
    (
        "{\"nodes\":[1],\"edge_property\":\"directed\",\"edges\":[[0,-1,1]]}",
        ReadError::Shape,
    ),
    (
        "{\"nodes\":[1],\"edge_property\":\"directed\",\"edges\":[[0,0,1,1]]}",
        ReadError::Shape,
    ),
    (
        "{\"nodes\":[1],\"edge_property\":\"directed\",\"edges\":[0]}",
        ReadError::Shape,
    ),
    (
        "{\"nodes\":[1],\"edge_property\":\"directed\",\"edges\":[[0,0,1]]}",
        ReadError::Cycle,
    ),
    (
        "{\"nodes\":[1],\"edge_property\":\"directed\",\"edges\":[[0,0,1]],\"orders\":[]}",
        ReadError::Orders,
    ),
    (
        "{\"nodes\":[1],\"edge_property\":\"directed\",\"edges\":[[0,0,1]],\"orders\":null}",
        ReadError::Orders,
    ),
    (
        "{\"nodes\":[1],\"edge_property\":\"directed\",\"edges\":[[0,0,1]],\
         \"orders\":[[[0],[0]]]}",
        ReadError::Cycle,
    ),
    (
        "{\"nodes\":[1,2],\"edge_property\":\"directed\",\"edges\":[[0,1,0],[1,0,0]]}",
        ReadError::Cycle,
    ),
];

#[test]
fn the_first_fault_of_a_document_is_told(rt: HostRuntime) {
    for (text, wanted) in FAULTS {
        both(&rt, rt.alloc(), Scene::Refused(text, wanted));
    }
}

const HOLE_AND_NO_END: &str =
    "{\"nodes\":[1],\"node_holes\":[0],\"edge_property\":\"directed\",\"edges\":[[0,1,2]]}";

#[test]
fn a_vacant_slot_is_no_end(rt: HostRuntime) {
    let (text, end) = (HOLE_AND_NO_END, ReadError::BadEndpoint);
    compact(&rt, rt.alloc(), Scene::Refused(text, ReadError::Holes));
    stable(&rt, rt.alloc(), Scene::Refused(text, end));
}

/// Documents with a vacant slot, their fault in the compact kind, and what they are written as in
/// the stable kind.
const ONE_VACANT: [(&str, ReadError, &str); 2] = [
    (
        "{\"nodes\":[1],\"node_holes\":[0],\"edge_property\":\"directed\",\"edges\":[]}",
        ReadError::Holes,
        "{\"edge_property\":\"directed\",\"edges\":[],\"node_holes\":[0],\"nodes\":[1],\
         \"orders\":[[[],[]]]}",
    ),
    (
        "{\"nodes\":[1,2],\"edge_property\":\"directed\",\"edges\":[null,[0,1,3]]}",
        ReadError::Shape,
        "{\"edge_property\":\"directed\",\"edges\":[null,[0,1,3]],\"node_holes\":[],\
         \"nodes\":[1,2],\"orders\":[[[1],[]],[[],[1]]]}",
    ),
];

#[test]
fn a_compact_dag_has_no_vacant_slot(rt: HostRuntime) {
    for (text, fault, wanted) in ONE_VACANT {
        compact(&rt, rt.alloc(), Scene::Refused(text, fault));
        stable(&rt, rt.alloc(), Scene::ReadAs(text, wanted));
    }
}

#[test]
fn other_orders_are_no_rearrangement(rt: HostRuntime) {
    let front = "{\"edge_property\":\"directed\",\"edges\":[[0,1,6],[0,2,5]],\"nodes\":[1,2,3],\
         \"orders\":[[";
    for list in ["[0]", "[0,0]", "[0,1,1]"] {
        let text = format!(in rt.alloc(); "{front}{list},[]],[[],[0]],[[],[1]]]}}");
        let text = made(&rt, text);
        let scene = Scene::Refused(text.as_str(), ReadError::Orders);
        compact(&rt, rt.alloc(), scene);
    }
}

// So many of an item, parted by commas.
fn repeated(rt: &impl Abort, alloc: Global, item: &str, count: usize) -> String {
    let mut list = String::new(alloc);
    for i in 0..count {
        if i > 0 {
            made(rt, list.push(','));
        }
        made(rt, list.push_str(item));
    }
    list
}

// A document is read, or has no index left.
fn fits_or_not(text: &str, fits: bool) -> Scene<'_> {
    if fits {
        Scene::Read(text)
    } else {
        Scene::Refused(text, ReadError::Full)
    }
}

#[test]
fn there_is_an_index_for_each_slot(rt: HostRuntime) {
    for (count, fits) in [(255, true), (256, false)] {
        let nodes = repeated(&rt, rt.alloc(), "1", count);
        let edges = repeated(&rt, rt.alloc(), "[0,1,7]", count);
        for (nodes, edges) in [(nodes.as_str(), ""), ("1,1", edges.as_str())] {
            let text = format!(in rt.alloc();
                "{{\"nodes\":[{nodes}],\"edge_property\":\"directed\",\"edges\":[{edges}]}}"
            );
            let text = made(&rt, text);
            both(&rt, rt.alloc(), fits_or_not(text.as_str(), fits));
        }
    }
}

#[test]
fn a_vacant_slot_takes_an_index(rt: HostRuntime) {
    let nodes = repeated(&rt, rt.alloc(), "1", 254);
    for (holes, count, fits) in [("0", 255, true), ("0,1", 0, false), ("0", 256, false)] {
        let edges = repeated(&rt, rt.alloc(), "null", count);
        let text = format!(in rt.alloc();
            "{{\"nodes\":[{nodes}],\"node_holes\":[{holes}],\"edge_property\":\"directed\",\
             \"edges\":[{edges}]}}"
        );
        let text = made(&rt, text);
        stable(&rt, rt.alloc(), fits_or_not(text.as_str(), fits));
    }
}

/// Asserts that a document is not read if there is no memory for a weight.
pub fn starves<S: Kind>(rt: &impl Abort, alloc: Global, text: &str) {
    let value = value_of(rt, alloc, text);
    for of_nodes in [false, true] {
        let answer = S::read_starving(alloc, &value, of_nodes);
        holds(rt, matches!(&answer, Err(ReadError::Memory)));
    }
}

#[test]
fn want_of_memory_for_a_weight_is_the_answer(rt: HostRuntime) {
    compact(&rt, rt.alloc(), Scene::NotRead(REORDERED));
}
