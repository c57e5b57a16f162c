//! Command lines for the line program.
use crate::random::Random;
use std::io;
use std::io::Write;

/// Writes `count` random command lines, the same in every run.
pub fn write_commands<W: Write>(out: &mut W, count: u32) -> io::Result<()> {
    let mut random = Random::new(1);
    for i in 0..count {
        write_command(out, &mut random, i / 8 + 1)?;
    }
    Ok(())
}

// Writes one command over about `nodes` nodes.
fn write_command<W: Write>(out: &mut W, random: &mut Random, nodes: u32) -> io::Result<()> {
    let (a, b, weight) = if nodes > 0 {
        (random.below(nodes), random.below(nodes), random.below(1000))
    } else {
        (0, 0, 0)
    };
    match random.below(100) {
        0..=9 => writeln!(out, "node {weight}"),
        10..=39 => writeln!(out, "edge {a} {b} {weight}"),
        40..=44 => writeln!(out, "update {a} {b} {weight}"),
        45..=52 => writeln!(out, "child {a} {weight} {b}"),
        53..=57 => writeln!(out, "parent {a} {weight} {b}"),
        58..=67 => writeln!(out, "find {a} {b}"),
        68..=75 => writeln!(out, "ends {a}"),
        76..=87 => writeln!(out, "children {a}"),
        88..=95 => writeln!(out, "parents {a}"),
        96..=97 => writeln!(out, "rmedge {a}"),
        _ => writeln!(out, "rmnode {a}"),
    }
}
