//! Random lines to both kinds.
use super::support::{ended, run, same};
use dagbench_engine::Mode;
use std::alloc::{AllocError, Global};
use std::test::Fail;

/// Lines of the commands that remove nothing, each with as many numbers as it takes.
const COMMANDS: [(&'static str, u8); 10] = [
    ("node", 1),
    ("edge", 3),
    ("update", 3),
    ("child", 3),
    ("parent", 3),
    ("edges", 6),
    ("find", 2),
    ("ends", 1),
    ("children", 1),
    ("parents", 1),
];

/// The next number of the generator splitmix64, below 30.
fn next_number(state: &mut u64) -> u8 {
    *state = state.wrapping_add(0x9e37_79b9_7f4a_7c15);
    let mut z = *state;
    z = (z ^ (z >> 30)).wrapping_mul(0xbf58_476d_1ce4_e5b9);
    z = (z ^ (z >> 27)).wrapping_mul(0x94d0_49bb_1331_11eb);
    ((z ^ (z >> 31)) % 30) as u8
}

fn random_lines(alloc: Global, seed: u64, count: u32) -> Result<Vec<u8>, AllocError> {
    let mut state = seed;
    let mut lines = Vec::new(alloc);
    for _ in 0..count {
        let place = (next_number(&mut state) % 10) as usize;
        let (name, numbers) = COMMANDS[place];
        lines.extend_from_slice(name.as_bytes())?;
        for _ in 0..numbers {
            let number = next_number(&mut state);
            lines.push(b' ')?;
            lines.push(b'0' + number / 10)?;
            lines.push(b'0' + number % 10)?;
        }
        lines.push(b'\n')?;
    }
    Ok(lines)
}

#[test]
fn without_removals_both_kinds_answer_alike(rt: HostRuntime) -> Result<(), Fail> {
    for seed in 1..=20 {
        let lines = random_lines(rt.alloc(), seed, 400)?;
        let (outcome, compact) = run(rt.alloc(), Mode::Compact, lines.as_slice(), None, None)?;
        ended(&rt, outcome, Ok(()));
        let (outcome, stable) = run(rt.alloc(), Mode::Stable, lines.as_slice(), None, None)?;
        ended(&rt, outcome, Ok(()));
        assert!(rt; compact.len() >= 1600);
        same(&rt, compact.as_slice(), stable.as_slice());
    }
    Ok(())
}
