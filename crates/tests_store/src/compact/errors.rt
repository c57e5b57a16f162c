use super::support::{prints, shows};
use crate::support::{holds, made, same};
use daggy_base::error::{ChildError, EdgeError, EdgesError, ElementError, NodeError, WouldCycle};
use std::error::Error;

#[derive(Drop)]
struct Unprinted;

#[test]
fn a_refused_cycle_prints_whatever_its_weight_is(rt: HostRuntime) {
    let error = WouldCycle(Unprinted);
    shows(&rt, rt.alloc(), &error, "WouldCycle\n");
    prints(&rt, rt.alloc(), &error, "WouldCycle\n\n");
    let copied = WouldCycle(7);
    let copy = copied;
    same(&rt, copied.0, copy.0);
}

fn is_error<E: Error>(_error: &E) -> bool {
    true
}

#[test]
fn errors_of_one_edge_say_what_went_wrong(rt: HostRuntime) {
    let texts = [
        (
            EdgeError::WouldCycle(WouldCycle(1u8)),
            "would close a cycle",
        ),
        (EdgeError::Memory(1), "out of memory"),
        (EdgeError::BadEndpoint(1), "no such endpoint"),
        (EdgeError::Full(1), "no index left"),
        (EdgeError::NodeMemory(1), "out of memory for a node"),
    ];
    for (error, text) in texts {
        holds(&rt, is_error(&error));
        prints(&rt, rt.alloc(), &error, text);
    }
}

#[test]
fn errors_of_nodes_say_what_went_wrong(rt: HostRuntime) {
    let memory: NodeError<u8> = NodeError::Memory(1);
    let full: NodeError<u8> = NodeError::Full(1);
    let child: ChildError<u8, u16> = ChildError::Memory(2, 1);
    prints(&rt, rt.alloc(), &memory, "out of memory");
    prints(&rt, rt.alloc(), &full, "no index left");
    prints(&rt, rt.alloc(), &child, "out of memory");
    holds(&rt, is_error(&memory));
    holds(&rt, is_error(&child));
    holds(&rt, is_error(&WouldCycle(Unprinted)));
}

#[test]
fn errors_of_many_edges_say_what_went_wrong(rt: HostRuntime) {
    let alloc = rt.alloc();
    let before = Vec::new(alloc);
    let ends: EdgesError<u8> = EdgesError::BadEndpoint { last: 1, before };
    let before = Vec::new(alloc);
    let full: EdgesError<u8> = EdgesError::Full { last: 1, before };
    let before = Vec::new(alloc);
    let memory: EdgesError<u8> = EdgesError::Memory { last: 1, before };
    let cycle: EdgesError<u8> = EdgesError::WouldCycle(WouldCycle(Vec::new(alloc)));
    prints(&rt, alloc, &ends, "no such endpoint");
    prints(&rt, alloc, &full, "no index left");
    prints(&rt, alloc, &memory, "out of memory");
    prints(&rt, alloc, &cycle, "would close a cycle");
    holds(&rt, is_error(&ends));
}

#[test]
fn errors_of_elements_say_what_went_wrong(rt: HostRuntime) {
    let node: ElementError<u8, u8> = ElementError::Node(NodeError::Full(1));
    let edge: ElementError<u8, u8> = ElementError::Edge(EdgeError::BadEndpoint(1));
    prints(&rt, rt.alloc(), &node, "no index left");
    prints(&rt, rt.alloc(), &edge, "no such endpoint");
    holds(&rt, is_error(&edge));
}

#[test]
fn errors_give_their_weights_back(rt: HostRuntime) {
    let child: ChildError<u8, u16> = ChildError::Memory(2, 1);
    let node: ElementError<u8, u16> = ElementError::Node(NodeError::Full(3));
    let edge: ElementError<u8, u16> = ElementError::Edge(EdgeError::BadEndpoint(4));
    same(&rt, WouldCycle(7u8).into_weight(), 7);
    same(&rt, NodeError::Memory(8u8).into_weight(), 8);
    same(&rt, EdgeError::NodeMemory(9u8).into_weight(), 9);
    same(&rt, child.into_weights(), (2, 1));
    same(&rt, node.into_weights(), (Some(3), None));
    same(&rt, edge.into_weights(), (None, Some(4)));
}

#[test]
fn errors_of_many_edges_give_their_weights_back(rt: HostRuntime) {
    let mut before = Vec::new(rt.alloc());
    made(&rt, before.push(5u8));
    let (last, before) = EdgesError::Full { last: 6, before }.into_weights();
    same(&rt, last, Some(6));
    same(&rt, before.as_slice(), [5].as_slice());
    let (last, weights) = EdgesError::WouldCycle(WouldCycle(before)).into_weights();
    same(&rt, last, None);
    same(&rt, weights.as_slice(), [5].as_slice());
}

#[test]
fn errors_are_compared_by_case_and_weight(rt: HostRuntime) {
    same(&rt, EdgeError::Full(1u8), EdgeError::Full(1));
    holds(&rt, EdgeError::Full(1u8) != EdgeError::Full(2));
    holds(&rt, EdgeError::Full(1u8) != EdgeError::BadEndpoint(1));
}
