//! Whole runs over devices in memory.
use super::support::{ended, run, same, served};
use dagbench_engine::{Mode, Stop};
use std::alloc::{AllocError, Global};
use std::test::Fail;

/// Inputs and what is written for them, whatever the kind is: refusals, many edges at once, the
/// greatest and the longest numbers, words, and what is no line.
const OF_BOTH_KINDS: [(&'static str, &'static str); 10] = [
    (
        "node 1\nnode 2\nedge 0 1 7\nedge 1 0 5\nchildren 0\n",
        "n0\nn1\ne0\ncycle 5\ne0:1\n",
    ),
    (
        "node -0\nnode 2\nedge 1 1 -4\nedge 0 9 1\nchildren 1\nchildren 4294967295\nfrob\n\
         edge 0 1 3\nedge 0 1 4\nchildren 0",
        "n0\nn1\ncycle -4\nmissing\n-\n-\nbad line\ne0\ne1\ne1:1 e0:1\n",
    ),
    (
        "node 1\nnode 2\nnode 3\nedges\nedges 0 1\nedges 0 1 x\n edges  0 1 -5  1 2 6 0 2 7\n\
         edges 2 0 4 9 9 1\nedges 2 2 -3\nedges 0 1 1 2 0 2 0 9 3\nchildren 0\nparents 2",
        "n0\nn1\nn2\n-\nbad line\nbad line\ne0 e1 e2\nmissing 1 4\ncycle -3\nmissing 3 2 1\n\
         e2:2 e0:1\ne2:0 e1:1\n",
    ),
    (
        "node 9223372036854775807\nnode 9223372036854775808\nnode -9223372036854775808\n\
         node -9223372036854775809\nnode -0\nnode -\nnode +1\nnode --1\n\
         node 0000000000000000007\nnode 00000000000000000007\n\
         rmnode 3\nrmnode 2\nrmnode 1\nrmnode 0\n",
        "n0\nbad line\nn1\nbad line\nn2\nbad line\nbad line\nbad line\nn3\nbad line\n\
         weight 7\nweight 0\nweight -9223372036854775808\nweight 9223372036854775807\n",
    ),
    (
        "node 1\nnode 2\nedge 0 0000000001 5\nedge 0 00000000001 5\nchildren 0000000000\n\
         children 00000000000\nchildren 4294967295\nchildren 4294967296\nchildren -1\nchildren x\n",
        "n0\nn1\ne0\nbad line\ne0:1\nbad line\n-\nbad line\nbad line\nbad line\n",
    ),
    (
        "node 1\nnode 2\n  edge   0 1  -7 \nrmedge 0\nedge 0\t1 7\nedge 0 1 7\r\nedge 0 1\n\
         edge 0 1 7 8\nNode 1\nnodes 1\n    ",
        "n0\nn1\ne0\nweight -7\nbad line\nbad line\nbad line\nbad line\nbad line\nbad line\n\
         bad line\n",
    ),
    (
        "\nnode\nnode 1 2\nnode +1\nNODE 1\nnode 1\r\nnode\t1\n\
         node 9223372036854775808\n  node   1  \n\
         node -0\nnode -9223372036854775808\nedge 00 01 5\nedge 0 4294967295 1\n\
         edge 0 4294967296 1\nchildren 00000000000\nedges 0 1\nedges\n",
        "bad line\nbad line\nbad line\nbad line\nbad line\nbad line\nbad line\nbad line\n\
         n0\nn1\nn2\ne0\nmissing\nbad line\nbad line\nbad line\n-\n",
    ),
    (
        " json \njson 1\nnode -9223372036854775808\nnode 9223372036854775807\nedge 1 0 -0\njson",
        "{\"edge_property\":\"directed\",\"edges\":[],\"node_holes\":[],\"nodes\":[],\
         \"orders\":[]}\n\
         bad line\nn0\nn1\ne0\n\
         {\"edge_property\":\"directed\",\"edges\":[[1,0,0]],\"node_holes\":[],\
         \"nodes\":[-9223372036854775808,9223372036854775807],\
         \"orders\":[[[],[0]],[[0],[]]]}\n",
    ),
    ("", ""),
    ("\n  \nnode 1\n  ", "bad line\nbad line\nn0\nbad line\n"),
];

/// Inputs with removals. The last index moves to the gap in the compact kind alone.
const OF_ONE_KIND: [(Mode, &'static str, &'static str); 6] = [
    (
        Mode::Compact,
        "node 1\nnode 2\nnode 3\nnode 4\nedge 0 1 1\nedge 0 2 2\nedge 1 2 3\nedge 1 2 4\n\
         edge 2 3 5\nreduce 0\nchildren 0\nchildren 1\nchildren 2\nparents 2\nreduce 99\nreduce\n",
        "n0\nn1\nn2\nn3\ne0\ne1\ne2\ne3\ne4\nok\ne0:1\ne3:2 e2:2\ne1:3\ne3:1 e2:1\nok\nok\n",
    ),
    (
        Mode::Compact,
        "node 1\nnode 2\nnode 3\nedge 0 1 4\nedge 0 2 5\nedge 0 1 6\nrmedge 0\njson\n",
        "n0\nn1\nn2\ne0\ne1\ne2\nweight 4\n\
         {\"edge_property\":\"directed\",\"edges\":[[0,1,6],[0,2,5]],\"node_holes\":[],\
         \"nodes\":[1,2,3],\
         \"orders\":[[[0,1],[]],[[],[0]],[[],[1]]]}\n",
    ),
    (
        Mode::Compact,
        "node 1\nchild 0 7 2\nparent 0 8 3\nupdate 0 1 9\nupdate 1 0 5\nupdate 0 9 5\nfind 0 1\n\
         ends 1\nends 2\nparents 0\nrmedge 5\nrmnode 0\nparents 0\nends 0\nrmnode 9\nclearedges\n\
         clear\nnode 6\n",
        "n0\ne0 n1\ne1 n2\ne0\ncycle 5\nmissing\ne0\nn2 n0\nnone\ne1:2\nnone\nweight 1\n-\nnone\n\
         none\nok\nok\nn0\n",
    ),
    (
        Mode::Compact,
        "node 10\nnode 20\nnode 30\nedge 0 1 4\nedge 0 2 5\nrmnode 1\njson\nnode 40\nchildren 0\n\
         clear\nnode 7\n",
        "n0\nn1\nn2\ne0\ne1\nweight 20\n\
         {\"edge_property\":\"directed\",\"edges\":[[0,1,5]],\"node_holes\":[],\"nodes\":[10,30],\
         \"orders\":[[[0],[]],[[],[0]]]}\n\
         n2\ne0:1\nok\nn0\n",
    ),
    (
        Mode::Stable,
        "node 10\nnode 20\nnode 30\nedge 0 1 4\nedge 0 2 5\nrmnode 1\njson\nnode 40\nchildren 0\n\
         clear\nnode 7\n",
        "n0\nn1\nn2\ne0\ne1\nweight 20\n\
         {\"edge_property\":\"directed\",\"edges\":[null,[0,2,5]],\"node_holes\":[1],\
         \"nodes\":[10,30],\
         \"orders\":[[[1],[]],[[],[1]]]}\n\
         n1\ne1:2\nok\nn0\n",
    ),
    (
        Mode::Stable,
        "node 1\nchild 0 7 2\nparent 0 8 3\nupdate 0 1 9\nupdate 1 0 5\nedges 2 1 6 1 2 5\n\
         edges 2 1 6\nrmedge 0\nedge 2 1 4\nrmnode 0\nends 0\nends 1\nchildren 2\nparents 1\n\
         node 5\nchild 0 1 1\nfind 0 3\nclearedges\nparents 1\nedge 0 1 2\n",
        "n0\ne0 n1\ne1 n2\ne0\ncycle 5\ncycle 5 6\ne2\nweight 9\ne0\nweight 1\nn2 n1\nnone\n\
         e0:1 e2:1\ne0:2 e2:2\nn0\ne1 n3\ne1\nok\n-\ne0\n",
    ),
];

#[test]
fn lines_are_answered(rt: HostRuntime) -> Result<(), Fail> {
    for (input, wanted) in OF_BOTH_KINDS {
        for mode in [Mode::Compact, Mode::Stable] {
            served(&rt, rt.alloc(), mode, input.as_bytes(), wanted.as_bytes())?;
        }
    }
    for (mode, input, wanted) in OF_ONE_KIND {
        served(&rt, rt.alloc(), mode, input.as_bytes(), wanted.as_bytes())?;
    }
    Ok(())
}

/// Inputs, and what is written with a plan at the end.
const PLANNED: [(Mode, &'static str, &'static str); 5] = [
    (
        Mode::PlanCompact,
        "node 1\nnode 1\nnode 1\nnode 1\nnode 1\nedges 0 2 1 1 2 1 2 4 1 0 4 1\n",
        "n0\nn1\nn2\nn3\nn4\ne0 e1 e2 e3\nstage n0 n1 n3\nstage n2\nstage n4\nchain n0 n2 n4\n",
    ),
    (
        Mode::PlanStable,
        "node 1\nnode 1\nnode 1\nedge 2 0 1\nrmnode 1",
        "n0\nn1\nn2\ne0\nweight 1\nstage n2\nstage n0\nchain n2 n0\n",
    ),
    (Mode::PlanCompact, "", "chain -\n"),
    (Mode::PlanStable, "", "chain -\n"),
    (
        Mode::PlanCompact,
        "plan\nnode 1\n",
        "bad line\nn0\nstage n0\nchain n0\n",
    ),
];

#[test]
fn a_plan_stands_behind_the_replies(rt: HostRuntime) -> Result<(), Fail> {
    for (mode, input, wanted) in PLANNED {
        served(&rt, rt.alloc(), mode, input.as_bytes(), wanted.as_bytes())?;
    }
    Ok(())
}

#[test]
fn a_line_may_hold_any_byte(rt: HostRuntime) -> Result<(), Fail> {
    let input = b"\xff\nnode 1\xff\nnode\x00 1\nnode 1\n";
    let wanted = "bad line\nbad line\nbad line\nn0\n".as_bytes();
    served(&rt, rt.alloc(), Mode::Stable, input, wanted)?;
    Ok(())
}

/// A front, a piece with the number of times it is repeated, and a rest.
type Repeated = (&'static str, &'static str, u32, &'static str);

fn repeated(alloc: Global, text: Repeated) -> Result<String, AllocError> {
    let (front, piece, count, rest) = text;
    let mut all = String::from_str(alloc, front)?;
    for _ in 0..count {
        all.push_str(piece)?;
    }
    all.push_str(rest)?;
    Ok(all)
}

/// Inputs with long lines, and one whose last line but one lies in two blocks.
const LONG: [(Repeated, Repeated); 5] = [
    (("node", " ", 4091, "7\n"), ("n0\n", "", 0, "")),
    (("node", " ", 4092, "7\n"), ("bad line\n", "", 0, "")),
    (("node", " ", 4092, "7"), ("bad line\n", "", 0, "")),
    (
        ("node 5\n", "x", 200_000, "\nnode 6\nnode 7"),
        ("n0\nbad line\nn1\nn2\n", "", 0, ""),
    ),
    (
        ("node 5\n", "\n", 65_524, "node 66\nedge 0 1 8\n"),
        ("n0\n", "bad line\n", 65_524, "n1\ne0\n"),
    ),
];

#[test]
fn long_lines_are_bad_once(rt: HostRuntime) -> Result<(), Fail> {
    for (input, wanted) in LONG {
        let input = repeated(rt.alloc(), input)?;
        let wanted = repeated(rt.alloc(), wanted)?;
        served(
            &rt,
            rt.alloc(),
            Mode::Compact,
            input.as_bytes(),
            wanted.as_bytes(),
        )?;
    }
    Ok(())
}

/// Behind how many reads and writes one fails, how the run ends, and what was written.
const FAULTS: [(Option<usize>, Option<usize>, Result<(), Stop>, &'static str); 6] = [
    (Some(0), None, Err(Stop::Read), ""),
    (Some(1), None, Err(Stop::Read), "n0\nn1\n"),
    (Some(2), None, Ok(()), "n0\nn1\nbad line\n"),
    (None, Some(0), Err(Stop::Write), ""),
    (None, Some(1), Err(Stop::Write), "n0\nn1\n"),
    (None, Some(2), Ok(()), "n0\nn1\nbad line\n"),
];

#[test]
fn a_fault_is_told_where_its_device_failed(rt: HostRuntime) -> Result<(), Fail> {
    for (reads, writes, outcome, wanted) in FAULTS {
        let input = "node 1\nnode 2\nno".as_bytes();
        let (found, taken) = run(rt.alloc(), Mode::Compact, input, reads, writes)?;
        ended(&rt, found, outcome);
        same(&rt, taken.as_slice(), wanted.as_bytes());

        // There is no plan after a fault.
        if outcome.is_err() {
            let (found, taken) = run(rt.alloc(), Mode::PlanStable, input, reads, writes)?;
            ended(&rt, found, outcome);
            same(&rt, taken.as_slice(), wanted.as_bytes());
        }
    }
    Ok(())
}
