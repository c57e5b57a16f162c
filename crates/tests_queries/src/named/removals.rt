//! Keys and indices after removals.
use super::steps::Refusal::{UnknownDependent, WouldCycle};
use super::steps::{Step, play};

#[test]
fn a_removed_key_is_free_again(rt: HostRuntime) {
    const STEPS: &[Step] = &[
        Step::Add(1, 10, 0),
        Step::Add(2, 20, 1),
        Step::Add(3, 30, 2),
        Step::Depend(1, 2, 12, 0),
        Step::Depend(2, 3, 23, 1),
        Step::Remove(2, Some(20)),
        Step::Remove(2, None),
        // The other nodes keep their keys and indices; its edges are gone.
        Step::Counts(2, 0),
        Step::Find(1, Some((0, 10))),
        Step::Find(2, None),
        Step::Find(3, Some((2, 30))),
        Step::Key(0, Some(1)),
        Step::Key(1, None),
        Step::Key(2, Some(3)),
        Step::Refused(1, 2, 4, UnknownDependent),
        // No path leads from 1 to 3 any more. The edges that left 2 were removed first, and the slot
        // vacated last is used first.
        Step::Depend(3, 1, 31, 0),
        // The next node gets the index that was vacated.
        Step::Add(2, 21, 1),
        Step::Key(1, Some(2)),
        Step::Find(2, Some((1, 21))),
        Step::Refused(1, 3, 5, WouldCycle),
    ];
    play(&rt, rt.alloc(), STEPS);
}

#[test]
fn removals_in_any_order(rt: HostRuntime) {
    const STEPS: &[Step] = &[
        Step::Add(0, 100, 0),
        Step::Add(1, 101, 1),
        Step::Add(2, 102, 2),
        Step::Add(3, 103, 3),
        Step::Add(4, 104, 4),
        Step::Add(5, 105, 5),
        // The first, the last, and one between.
        Step::Remove(0, Some(100)),
        Step::Remove(5, Some(105)),
        Step::Remove(2, Some(102)),
        Step::Find(1, Some((1, 101))),
        Step::Find(3, Some((3, 103))),
        Step::Find(4, Some((4, 104))),
        Step::Key(1, Some(1)),
        Step::Key(3, Some(3)),
        Step::Key(4, Some(4)),
        Step::Find(0, None),
        Step::Find(2, None),
        Step::Find(5, None),
        // The slot vacated last is used first.
        Step::Add(7, 7, 2),
        Step::Add(8, 8, 5),
        Step::Add(9, 9, 0),
        Step::Add(10, 10, 6),
        Step::Key(2, Some(7)),
        Step::Key(5, Some(8)),
        Step::Key(0, Some(9)),
        Step::Key(6, Some(10)),
        Step::Find(4, Some((4, 104))),
        Step::Find(10, Some((6, 10))),
    ];
    play(&rt, rt.alloc(), STEPS);
}

#[test]
fn some_are_kept(rt: HostRuntime) {
    const STEPS: &[Step] = &[
        Step::Retain(0, 0),
        Step::Add(0, 100, 0),
        Step::Add(1, 90, 1),
        Step::Add(2, 102, 2),
        Step::Add(3, 103, 3),
        Step::Depend(0, 2, 20, 0),
        Step::Depend(1, 2, 21, 1),
        Step::Depend(2, 3, 32, 2),
        // All are kept.
        Step::Retain(7, 90),
        Step::Counts(4, 3),
        // Key 1 has too low a weight, and key 3 is not wanted.
        Step::Retain(3, 91),
        Step::Counts(2, 1),
        Step::Find(0, Some((0, 100))),
        Step::Find(1, None),
        Step::Find(2, Some((2, 102))),
        Step::Find(3, None),
        Step::Key(1, None),
        Step::Key(2, Some(2)),
        Step::Refused(2, 0, 2, WouldCycle),
        // Removals go from the last index down, and the slot vacated last is used first.
        Step::Add(8, 108, 1),
        Step::Add(9, 109, 3),
        Step::Retain(0, 200),
        Step::Counts(0, 0),
    ];
    play(&rt, rt.alloc(), STEPS);
}
