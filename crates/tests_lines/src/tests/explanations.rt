//! Why lines are no commands.
use super::support::same;
use dagbench_engine::explain;
use std::alloc::Global;
use std::process::Abort;
use std::test::Fail;

/// Lines, and why they are no commands. It is empty for a command.
const LINES: [(&'static str, &'static str); 31] = [
    ("", "no command"),
    ("   ", "no command"),
    ("frob", "\"frob\" is no command"),
    ("Node 1", "\"Node\" is no command"),
    ("node\t1", "\"node\\t1\" is no command"),
    ("node", "\"node\" lacks a weight"),
    ("edge", "\"edge\" lacks an index"),
    ("edge 0 1", "\"edge\" lacks a weight"),
    ("find 0", "\"find\" lacks an index"),
    ("child 0 1", "\"child\" lacks a weight"),
    ("edges 0 1 2 3", "\"edges\" lacks an index"),
    ("edges 0 1 2 3 4", "\"edges\" lacks a weight"),
    ("node 1 2", "\"2\" is one word too many"),
    ("clear all", "\"all\" is one word too many"),
    ("json  1 2", "\"1\" is one word too many"),
    ("edge 0 1 7\r", "\"7\\r\" is not a weight"),
    ("node +1", "\"+1\" is not a weight"),
    ("node -", "\"-\" is not a weight"),
    ("children -1", "\"-1\" is not an index"),
    ("reduce 0 x", "\"x\" is not an index"),
    ("edges 0 1 2 0 1 x", "\"x\" is not a weight"),
    (
        "rmedge 4294967296",
        "\"4294967296\" is not an index: at most 4294967295, in at most 10 digits",
    ),
    (
        "parents 00000000000",
        "\"00000000000\" is not an index: at most 4294967295, in at most 10 digits",
    ),
    (
        "node -9223372036854775809",
        "\"-9223372036854775809\" is not a weight: \
         from -9223372036854775808 to 9223372036854775807, in at most 19 digits",
    ),
    ("  node   1  ", ""),
    ("node -9223372036854775808", ""),
    ("update 4294967295 0 1", ""),
    ("parent 0 1 2", ""),
    ("edges", ""),
    ("reduce 0 1", ""),
    (" json ", ""),
];

/// A line is no command for this reason; it is one if the reason is empty.
fn is_bad(rt: &impl Abort, alloc: Global, line: &[u8], wanted: &str) -> Result<(), Fail> {
    let mut told = String::new(alloc);
    if let Some(why) = explain(alloc, line) {
        write!(told, "{why}")?;
    }
    same(rt, told.as_bytes(), wanted.as_bytes());
    Ok(())
}

#[test]
fn bad_lines_are_explained(rt: HostRuntime) -> Result<(), Fail> {
    for (line, wanted) in LINES {
        is_bad(&rt, rt.alloc(), line.as_bytes(), wanted)?;
    }
    is_bad(&rt, rt.alloc(), b"\xff 1", "\"\\xff\" is no command")?;
    let long = vec![in rt.alloc(); b'7'; 4097]?;
    is_bad(&rt, rt.alloc(), long.as_slice(), "more than 4096 bytes")
}
