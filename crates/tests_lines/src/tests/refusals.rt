//! A script of lines with every command that may ask for memory. `.ci/checks/refused_commands.sh`
//! runs the last two tests with one request for memory refused, for each request in turn.
use super::support::{Run, ended, run, same};
use dagbench_engine::{Mode, Stop};
use std::alloc::{AllocError, Global};
use std::process::Abort;
use std::test::Fail;

/// Lines, and the replies to them in both kinds.
const SCRIPT: [(&'static str, &'static str); 17] = [
    ("node 1", "n0"),
    ("node 2", "n1"),
    ("child 0 5 3", "e0 n2"),
    ("parent 1 6 4", "e1 n3"),
    ("edge 0 1 7", "e2"),
    ("update 0 1 8", "e2"),
    ("edges 1 2 9 3 2 10", "e3 e4"),
    ("find 0 1", "e2"),
    ("ends 0", "n0 n2"),
    ("children 0", "e2:1 e0:2"),
    ("parents 2", "e4:3 e3:1 e0:0"),
    ("reduce 3", "ok"),
    (
        "json",
        "{\"edge_property\":\"directed\",\"edges\":[[0,2,5],[3,1,6],[0,1,8],[1,2,9]],\
         \"node_holes\":[],\"nodes\":[1,2,3,4],\
         \"orders\":[[[2,0],[]],[[3],[2,1]],[[],[3,0]],[[1],[]]]}",
    ),
    ("rmedge 0", "weight 5"),
    ("rmnode 1", "weight 2"),
    ("clearedges", "ok"),
    ("clear", "ok"),
];

/// The run over the lines of the script but for the one at this place, if there is one.
fn run_without(alloc: Global, mode: Mode, place: usize) -> Result<Run, AllocError> {
    let mut input = Vec::new(alloc);
    for at in 0..SCRIPT.len() {
        if at != place {
            input.extend_from_slice(SCRIPT[at].0.as_bytes())?;
            input.push(b'\n')?;
        }
    }
    run(alloc, mode, input.as_slice(), None, None)
}

fn wanted(alloc: Global) -> Result<Vec<u8>, AllocError> {
    let mut replies = Vec::new(alloc);
    for (_, reply) in SCRIPT {
        replies.extend_from_slice(reply.as_bytes())?;
        replies.push(b'\n')?;
    }
    Ok(replies)
}

#[test]
fn the_script_is_answered(rt: HostRuntime) -> Result<(), Fail> {
    let wanted = wanted(rt.alloc())?;
    for mode in [Mode::Compact, Mode::Stable] {
        let (outcome, taken) = run_without(rt.alloc(), mode, SCRIPT.len())?;
        ended(&rt, outcome, Ok(()));
        same(&rt, taken.as_slice(), wanted.as_slice());
    }
    Ok(())
}

fn first_line(text: &[u8]) -> (&[u8], &[u8]) {
    for end in 0..text.len() {
        if text[end] == b'\n' {
            let (line, rest) = text.split_at(end);
            return (line, &rest[1..]);
        }
    }
    (text, &text[text.len()..])
}

/// Whether replies are those to the script without the line at this place, with one that begins
/// with `memory` in its place.
fn lacks_memory_at(replies: &[u8], others: &[u8], place: usize) -> bool {
    let mut rest = replies;
    let mut rest_of_others = others;
    for at in 0..SCRIPT.len() {
        let (reply, behind) = first_line(rest);
        rest = behind;
        if at == place {
            if reply.len() < 6 || &reply[..6] != b"memory".as_slice() {
                return false;
            }
        } else {
            let (other, behind) = first_line(rest_of_others);
            rest_of_others = behind;
            if reply != other {
                return false;
            }
        }
    }
    rest.is_empty() && rest_of_others.is_empty()
}

/// With one request refused, these are the replies to the script.
fn are_replies(alloc: Global, mode: Mode, replies: &[u8]) -> Result<bool, AllocError> {
    if replies == wanted(alloc)?.as_slice() {
        return Ok(true);
    }
    for place in 0..SCRIPT.len() {
        let (_, others) = run_without(alloc, mode, place)?;
        if lacks_memory_at(replies, others.as_slice(), place) {
            return Ok(true);
        }
    }
    Ok(false)
}

#[test]
fn a_refused_request_is_the_reply_to_one_line(rt: HostRuntime) {
    for mode in [Mode::Compact, Mode::Stable] {
        // If a request of the test itself or of its sink is refused, there is nothing to compare.
        let Ok((outcome, taken)) = run_without(rt.alloc(), mode, SCRIPT.len()) else {
            continue;
        };
        let fits = match outcome {
            Ok(()) => are_replies(rt.alloc(), mode, taken.as_slice()).unwrap_or(true),
            Err(Stop::Memory) => taken.is_empty(),
            Err(stop) => stop == Stop::Write,
        };
        assert!(rt; fits);
    }
}

const LINES: &'static str = "node 1\nnode 2\nedge 1 0 3\n";

/// What is written for these lines and a plan with at most one request refused: that of the plan,
/// or that of one line.
const PLANNED: [&'static str; 5] = [
    "n0\nn1\ne0\nstage n1\nstage n0\nchain n1 n0\n",
    "n0\nn1\ne0\nmemory\n",
    "memory\nn0\nmissing\nstage n0\nchain n0\n",
    "n0\nmemory\nmissing\nstage n0\nchain n0\n",
    "n0\nn1\nmemory\nstage n0 n1\nchain n0\n",
];

#[test]
fn a_refused_request_of_a_plan_is_its_one_line(rt: HostRuntime) {
    for mode in [Mode::PlanCompact, Mode::PlanStable] {
        let Ok((outcome, taken)) = run(rt.alloc(), mode, LINES.as_bytes(), None, None) else {
            continue;
        };
        let mut is_planned = false;
        for wanted in PLANNED {
            is_planned = is_planned || taken.as_slice() == wanted.as_bytes();
        }
        assert!(rt; is_planned == outcome.is_ok());
    }
}
