//! Places of the faults of documents.
use super::support::{REORDERED, VACANT, holds, made, starve, value_of, weight};
use daggy_base::kind::Kind;
use daggy_json::error::ReadError;
use daggy_json::fault::{Fault, Member, Place};
use daggy_json::finding::find_fault;
use std::alloc::Global;
use std::process::Abort;

// The first fault of a document.
fn fault_of(rt: &impl Abort, alloc: Global, kind: Kind, text: &str) -> Option<Fault> {
    let value = value_of(rt, alloc, text);
    let answer = find_fault::<u64, u64, u8, _, _>(alloc, &value, kind, weight, weight);
    made(rt, answer)
}

// Asserts the first fault of a document, and its text.
fn has_fault(rt: &impl Abort, alloc: Global, kind: Kind, text: &str, wanted: Case) {
    let (error, member, entry, shown) = wanted;
    let Some(fault) = fault_of(rt, alloc, kind, text) else {
        panic!(rt; "the document has no fault");
    };
    let place = Place { member, entry };
    holds(rt, fault == Fault { error, place });
    let told = made(rt, format!(in alloc; "{fault}"));
    holds(rt, told.as_str() == shown);
}

/// An error, the member and the entry that it is in, and how the fault is shown.
type Case = (ReadError, Member, Option<usize>, &'static str);

/// Documents, and the first fault of each, whatever the kind is.
const FAULTS: [(&str, Case); 16] = [
    (
        "[]",
        (
            ReadError::Shape,
            Member::Document,
            None,
            "document: wrong shape",
        ),
    ),
    (
        "{\"nodes\":{},\"edges\":{}}",
        (ReadError::Shape, Member::Nodes, None, "nodes: wrong shape"),
    ),
    (
        "{\"nodes\":[],\"edge_property\":true,\"edges\":{}}",
        (
            ReadError::Shape,
            Member::EdgeProperty,
            None,
            "edge_property: wrong shape",
        ),
    ),
    (
        "{\"nodes\":[],\"edge_property\":\"x\",\"node_holes\":null}",
        (ReadError::Shape, Member::Edges, None, "edges: wrong shape"),
    ),
    (
        "{\"nodes\":[],\"edge_property\":\"x\",\"edges\":[],\"node_holes\":null}",
        (
            ReadError::Shape,
            Member::NodeHoles,
            None,
            "node_holes: wrong shape",
        ),
    ),
    (
        "{\"nodes\":[1],\"edge_property\":\"x\",\"edges\":[],\"node_holes\":[5,-1,\"a\"]}",
        (
            ReadError::Shape,
            Member::NodeHoles,
            Some(1),
            "node_holes[1]: wrong shape",
        ),
    ),
    (
        "{\"nodes\":[true],\"edge_property\":\"x\",\"edges\":[],\"node_holes\":[5]}",
        (
            ReadError::Property,
            Member::EdgeProperty,
            None,
            "edge_property: not directed",
        ),
    ),
    (
        "{\"nodes\":[1,2,true,4,false],\"edge_property\":\"directed\",\"edges\":[0]}",
        (
            ReadError::Weight,
            Member::Nodes,
            Some(2),
            "nodes[2]: wrong weight",
        ),
    ),
    (
        "{\"nodes\":[1,2],\"edge_property\":\"directed\",\"edges\":[[0,1,3],[0,1],[0,2,3]]}",
        (
            ReadError::Shape,
            Member::Edges,
            Some(1),
            "edges[1]: wrong shape",
        ),
    ),
    (
        "{\"nodes\":[1,2],\"edge_property\":\"directed\",\"edges\":[[0,1,3],[0,2,3],[0,1]]}",
        (
            ReadError::BadEndpoint,
            Member::Edges,
            Some(1),
            "edges[1]: no such endpoint",
        ),
    ),
    (
        "{\"nodes\":[1,2],\"edge_property\":\"directed\",\"edges\":[[0,1,3],[0,1,[]],[0,2,3]]}",
        (
            ReadError::Weight,
            Member::Edges,
            Some(1),
            "edges[1]: wrong weight",
        ),
    ),
    (
        "{\"nodes\":[1,2],\"edge_property\":\"directed\",\"edges\":[[0,1,3]],\"orders\":{}}",
        (
            ReadError::Orders,
            Member::Orders,
            None,
            "orders: wrong orders",
        ),
    ),
    (
        "{\"nodes\":[1,2],\"edge_property\":\"directed\",\"edges\":[[0,1,3]],\
         \"orders\":[[[0],[]]]}",
        (
            ReadError::Orders,
            Member::Orders,
            None,
            "orders: wrong orders",
        ),
    ),
    (
        "{\"nodes\":[1,2],\"edge_property\":\"directed\",\"edges\":[[0,1,3]],\
         \"orders\":[[[0],[]],[[0],[]]]}",
        (
            ReadError::Orders,
            Member::Orders,
            Some(1),
            "orders[1]: wrong orders",
        ),
    ),
    (
        "{\"nodes\":[1,2],\"edge_property\":\"directed\",\"edges\":[[0,1,3]],\
         \"orders\":[[[0],[]],[[]]]}",
        (
            ReadError::Orders,
            Member::Orders,
            Some(1),
            "orders[1]: wrong orders",
        ),
    ),
    (
        "{\"nodes\":[1,2],\"edge_property\":\"directed\",\"edges\":[[0,1,3]],\
         \"orders\":[[[0],[]],[[],[1]]]}",
        (
            ReadError::Orders,
            Member::Orders,
            Some(1),
            "orders[1]: wrong orders",
        ),
    ),
];

#[test]
fn the_place_of_the_first_fault_is_told(rt: HostRuntime) {
    for (text, wanted) in FAULTS {
        has_fault(&rt, rt.alloc(), Kind::Compact, text, wanted);
        has_fault(&rt, rt.alloc(), Kind::Stable, text, wanted);
    }
}

const FRONT: &str =
    "{\"edge_property\":\"directed\",\"edges\":[[0,1,6],[0,2,5]],\"nodes\":[1,2,3],\"orders\":";

#[test]
fn the_first_entry_that_is_no_permutation_is_told(rt: HostRuntime) {
    for (orders, entry, shown) in [
        ("[[[0],[]],[[],[0]],[[],[0]]]", 0, "orders[0]: wrong orders"),
        (
            "[[[0,0],[]],[[],[0]],[[],[]]]",
            0,
            "orders[0]: wrong orders",
        ),
        (
            "[[[1,0],[]],[[],[]],[[],[1]]]",
            1,
            "orders[1]: wrong orders",
        ),
        (
            "[[[0,1],[]],[[],[0]],[[0],[1]]]",
            2,
            "orders[2]: wrong orders",
        ),
    ] {
        let text = made(&rt, format!(in rt.alloc(); "{FRONT}{orders}}}"));
        let wanted = (ReadError::Orders, Member::Orders, Some(entry), shown);
        has_fault(&rt, rt.alloc(), Kind::Compact, text.as_str(), wanted);
        has_fault(&rt, rt.alloc(), Kind::Stable, text.as_str(), wanted);
    }
}

const VACANT_NODE: &str =
    "{\"edge_property\":\"directed\",\"edges\":[null,[1,2,3]],\"node_holes\":[0],\
     \"nodes\":[1,2],\"orders\":[[[1],[]],[[],[0]]]}";

#[test]
fn orders_have_no_entry_for_a_vacant_node(rt: HostRuntime) {
    let second = (
        ReadError::Orders,
        Member::Orders,
        Some(1),
        "orders[1]: wrong orders",
    );
    has_fault(&rt, rt.alloc(), Kind::Stable, VACANT_NODE, second);
}

const EQUAL_HOLES: &str =
    "{\"nodes\":[1,2],\"node_holes\":[0,2,2,9],\"edge_property\":\"directed\",\
     \"edges\":[]}";

#[test]
fn each_hole_of_a_compact_dag_is_wrong(rt: HostRuntime) {
    let first = (
        ReadError::Holes,
        Member::NodeHoles,
        Some(0),
        "node_holes[0]: wrong holes",
    );
    let third = (
        ReadError::Holes,
        Member::NodeHoles,
        Some(2),
        "node_holes[2]: wrong holes",
    );
    has_fault(&rt, rt.alloc(), Kind::Compact, EQUAL_HOLES, first);
    has_fault(&rt, rt.alloc(), Kind::Stable, EQUAL_HOLES, third);
}

const VACANT_EDGE: &str =
    "{\"nodes\":[1,2],\"edge_property\":\"directed\",\"edges\":[[0,1,3],null,[0,2,3]]}";

#[test]
fn a_vacant_edge_is_wrong_in_a_compact_dag(rt: HostRuntime) {
    let vacant = (
        ReadError::Shape,
        Member::Edges,
        Some(1),
        "edges[1]: wrong shape",
    );
    let end = (
        ReadError::BadEndpoint,
        Member::Edges,
        Some(2),
        "edges[2]: no such endpoint",
    );
    has_fault(&rt, rt.alloc(), Kind::Compact, VACANT_EDGE, vacant);
    has_fault(&rt, rt.alloc(), Kind::Stable, VACANT_EDGE, end);
}

// A list of `count` items.
fn list_of(rt: &impl Abort, alloc: Global, item: &str, count: usize) -> String {
    let mut list = String::new(alloc);
    for i in 0..count {
        made(rt, list.push_str(if i > 0 { "," } else { "" }));
        made(rt, list.push_str(item));
    }
    list
}

#[test]
fn too_many_slots_are_a_fault_of_a_member(rt: HostRuntime) {
    let nodes = list_of(&rt, rt.alloc(), "1", 256);
    let edges = list_of(&rt, rt.alloc(), "[0,1,7]", 256);
    let of_nodes = (ReadError::Full, Member::Nodes, None, "nodes: no index left");
    let of_edges = (ReadError::Full, Member::Edges, None, "edges: no index left");
    for (nodes, wanted) in [(nodes.as_str(), of_nodes), ("1,1", of_edges)] {
        let text = format!(in rt.alloc();
            "{{\"nodes\":[{nodes}],\"edge_property\":\"directed\",\"edges\":[{edges}]}}"
        );
        let text = made(&rt, text);
        has_fault(&rt, rt.alloc(), Kind::Compact, text.as_str(), wanted);
        has_fault(&rt, rt.alloc(), Kind::Stable, text.as_str(), wanted);
    }
}

const CYCLIC: &str = "{\"nodes\":[1,2],\"edge_property\":\"directed\",\"edges\":[[0,1,3],[1,0,4]]}";

#[test]
fn a_graph_has_no_fault(rt: HostRuntime) {
    for text in [REORDERED, CYCLIC] {
        holds(
            &rt,
            fault_of(&rt, rt.alloc(), Kind::Compact, text).is_none(),
        );
        holds(&rt, fault_of(&rt, rt.alloc(), Kind::Stable, text).is_none());
    }
    holds(
        &rt,
        fault_of(&rt, rt.alloc(), Kind::Stable, VACANT).is_none(),
    );
}

#[test]
fn want_of_memory_for_a_weight_is_no_fault(rt: HostRuntime) {
    let alloc = rt.alloc();
    let value = value_of(&rt, alloc, REORDERED);
    let kind = Kind::Compact;
    let of_nodes = find_fault::<u64, u64, u8, _, _>(alloc, &value, kind, starve, weight);
    holds(&rt, of_nodes.is_err());
    let of_edges = find_fault::<u64, u64, u8, _, _>(alloc, &value, kind, weight, starve);
    holds(&rt, of_edges.is_err());
}
