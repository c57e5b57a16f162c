//! Calls that cannot succeed, while memory is refused once: each answers why, or that there was no
//! memory, and why when it is made again.
use crate::again::small_fan;
use crate::slots::{edge_slots, node_slots};
use crate::support::{Kind, Plain, refuse, same};
use daggy::graph::Element;
use daggy::{EdgeError, EdgesError, ElementError, NodeError, NodeIndex, SlotsError};
use std::alloc::Global;
use std::process::Abort;

/// Why a call failed.
#[derive(Clone, Copy, Debug, PartialEq)]
enum Cause {
    Cycle,
    End,
    Index,
    Memory,
}

/// A call that cannot succeed, since edges close a cycle or lead to no node.
#[derive(Clone, Copy)]
enum Fault {
    Cycle,
    End,
    Extension,
    OfEdges,
    OfElements,
    OfElementsEnd,
    OfSlots,
}

const FAULTS: [(Fault, Cause); 7] = [
    (Fault::Cycle, Cause::Cycle),
    (Fault::End, Cause::End),
    (Fault::Extension, Cause::Cycle),
    (Fault::OfEdges, Cause::Cycle),
    (Fault::OfElements, Cause::Cycle),
    (Fault::OfElementsEnd, Cause::End),
    (Fault::OfSlots, Cause::Cycle),
];

fn of_edge(error: EdgeError<usize>) -> Cause {
    match error {
        EdgeError::WouldCycle(_) => Cause::Cycle,
        EdgeError::BadEndpoint(_) => Cause::End,
        EdgeError::Full(_) => Cause::Index,
        EdgeError::Memory(_) | EdgeError::NodeMemory(_) => Cause::Memory,
    }
}

fn of_batch(error: EdgesError<usize>) -> Cause {
    match error {
        EdgesError::WouldCycle(_) => Cause::Cycle,
        EdgesError::BadEndpoint { .. } => Cause::End,
        EdgesError::Full { .. } => Cause::Index,
        EdgesError::Memory { .. } => Cause::Memory,
    }
}

fn of_element(error: ElementError<usize, usize>) -> Cause {
    match error {
        ElementError::Edge(error) => of_edge(error),
        ElementError::Node(NodeError::Full(_)) => Cause::Index,
        ElementError::Node(NodeError::Memory(_)) => Cause::Memory,
    }
}

fn of_slots(error: SlotsError) -> Cause {
    match error {
        SlotsError::Cycle => Cause::Cycle,
        SlotsError::Memory => Cause::Memory,
    }
}

// Two nodes, an edge from the first to the second, and one from the second to this node.
fn elements(target: usize) -> [Element<usize, usize>; 4] {
    [
        Element::Node { weight: 1 },
        Element::Node { weight: 2 },
        Element::Edge {
            source: 0,
            target: 1,
            weight: 3,
        },
        Element::Edge {
            source: 1,
            target,
            weight: 4,
        },
    ]
}

// Why the call fails, or `None` if it succeeds.
fn cause_of<S: Kind>(
    rt: &impl Abort,
    alloc: Global,
    dag: &mut Plain<S>,
    fault: Fault,
    refused: &mut bool,
) -> Option<Cause> {
    let (a, b) = (NodeIndex::new(0), NodeIndex::new(1));
    let cycle = [(a, b, 5), (b, a, 6)];
    match fault {
        Fault::Cycle => dag.add_edges(cycle).err().map(of_batch),
        Fault::End => {
            let no_end = [(a, b, 5), (b, NodeIndex::new(9), 6)];
            dag.add_edges(no_end).err().map(of_batch)
        }
        Fault::Extension => dag.extend_with_edges(cycle).err().map(of_edge),
        Fault::OfEdges => Plain::<S>::from_edges(alloc, cycle).err().map(of_edge),
        Fault::OfElements => Plain::<S>::from_elements(alloc, elements(0))
            .err()
            .map(of_element),
        Fault::OfElementsEnd => Plain::<S>::from_elements(alloc, elements(2))
            .err()
            .map(of_element),
        Fault::OfSlots => {
            let nodes = node_slots(rt, alloc, refused);
            let edges = edge_slots(rt, alloc, 0, refused);
            Plain::<S>::from_slots(alloc, nodes, edges)
                .err()
                .map(of_slots)
        }
    }
}

/// Makes the calls, each a second time if memory was refused in the first.
pub fn faults<S: Kind>(rt: &impl Abort, alloc: Global, refused: &mut bool) {
    let mut dag: Plain<S> = small_fan(rt, alloc, refused);
    for (fault, cause) in FAULTS {
        let mut found = cause_of(rt, alloc, &mut dag, fault, refused);
        if found == Some(Cause::Memory) {
            refuse(rt, refused);
            found = cause_of(rt, alloc, &mut dag, fault, refused);
        }
        same(rt, found, Some(cause));
    }
}
