//! Work by key, with keys that are owned texts: what is ready, and when each node can start.
use super::support::{add, depend};
use crate::support::{made, same};
use daggy_named::named::{Named, ReadyKeys, ScheduleByKey};
use daggy_schedule::schedule::ScheduleError;
use std::alloc::Global;
use std::process::Abort;

type Plan = Named<String, u64, ()>;

// Each call costs a proof seconds wherever it stands, so each stands here once.

fn text(rt: &impl Abort, alloc: Global, of: &str) -> String {
    made(rt, String::from_str(alloc, of))
}

// Asserts which key comes next, if one is ready.
fn next(rt: &impl Abort, ready: &mut ReadyKeys<'_, String, u64, ()>, wanted: Option<&'static str>) {
    same(rt, ready.next().map(String::as_str), wanted);
}

// Asserts how many keys were not returned yet, and how many nodes are in progress.
fn counts(
    rt: &impl Abort,
    ready: &ReadyKeys<'_, String, u64, ()>,
    remaining: usize,
    out_count: usize,
) {
    same(rt, ready.remaining(), remaining);
    same(rt, ready.out_count(), out_count);
}

fn done(rt: &impl Abort, ready: &mut ReadyKeys<'_, String, u64, ()>, key: &str, was_out: bool) {
    same(rt, ready.is_out(key), was_out);
    same(rt, ready.done(key), was_out);
    same(rt, ready.is_out(key), false);
}

fn fail(rt: &impl Abort, ready: &mut ReadyKeys<'_, String, u64, ()>, key: &str, was_out: bool) {
    same(rt, ready.fail(key), was_out);
    same(rt, ready.is_out(key), false);
}

// Asserts whether a key failed, how many did, and whether the work is over.
fn failed(
    rt: &impl Abort,
    ready: &ReadyKeys<'_, String, u64, ()>,
    key: &str,
    is_failed: bool,
    count: usize,
    is_over: bool,
) {
    same(rt, ready.is_failed(key), is_failed);
    same(rt, ready.failed_count(), count);
    same(rt, ready.is_over(), is_over);
}

// Asserts which keys are skipped.
fn skipped(rt: &impl Abort, ready: &ReadyKeys<'_, String, u64, ()>, wanted: &[&'static str]) {
    let found = made(rt, ready.skipped());
    same(rt, found.len(), wanted.len());
    for (key, text) in found.iter().zip(wanted) {
        same(rt, key.as_str(), *text);
    }
}

// Asserts when a key can start, if there is a node with it.
fn starts(
    rt: &impl Abort,
    schedule: &ScheduleByKey<'_, String, u64, ()>,
    key: &str,
    wanted: Option<(u64, u64)>,
) {
    let earliest = schedule.earliest_start(key);
    let latest = schedule.latest_start(key);
    same(rt, earliest, wanted.map(|times| times.0));
    same(rt, latest, wanted.map(|times| times.1));
}

fn critical(
    rt: &impl Abort,
    schedule: &ScheduleByKey<'_, String, u64, ()>,
    wanted: &[&'static str],
) {
    let found = schedule.critical_path();
    same(rt, found.len(), wanted.len());
    for (key, text) in found.iter().zip(wanted) {
        same(rt, key.as_str(), *text);
    }
}

// Sow, then hoe and water, then reap; and a node apart.
fn fill(rt: &impl Abort, alloc: Global, plan: &mut Plan) {
    for (key, days) in [
        ("mow", 6),
        ("reap", 4),
        ("water", 2),
        ("hoe", 3),
        ("sow", 5),
    ] {
        made(rt, add(plan, text(rt, alloc, key), days));
    }
    for (on, what) in [
        ("sow", "hoe"),
        ("sow", "water"),
        ("hoe", "reap"),
        ("water", "reap"),
    ] {
        let (on, what) = (text(rt, alloc, on), text(rt, alloc, what));
        made(rt, depend(plan, &on, &what, ()));
    }
}

#[test]
fn keys_become_ready(rt: HostRuntime) {
    let mut plan: Plan = Named::new(rt.alloc());
    fill(&rt, rt.alloc(), &mut plan);
    let mut ready = made(&rt, plan.ready());
    counts(&rt, &ready, 5, 0);
    next(&rt, &mut ready, Some("mow"));
    done(&rt, &mut ready, "sow", false);
    next(&rt, &mut ready, Some("sow"));
    next(&rt, &mut ready, None);
    done(&rt, &mut ready, "hoe", false);
    done(&rt, &mut ready, "rake", false);
    done(&rt, &mut ready, "sow", true);
    done(&rt, &mut ready, "sow", false);
    // The newest edge comes first.
    next(&rt, &mut ready, Some("water"));
    next(&rt, &mut ready, Some("hoe"));
    counts(&rt, &ready, 1, 3);
    done(&rt, &mut ready, "hoe", true);
    next(&rt, &mut ready, None);
    done(&rt, &mut ready, "water", true);
    next(&rt, &mut ready, Some("reap"));
    done(&rt, &mut ready, "reap", true);
    next(&rt, &mut ready, None);
    same(&rt, ready.is_finished(), false);
    done(&rt, &mut ready, "mow", true);
    same(&rt, ready.is_finished(), true);
    counts(&rt, &ready, 0, 0);
}

// Works off one key after another. How many there were.
fn work_off(rt: &impl Abort, plan: &Plan) -> usize {
    let mut ready = made(rt, plan.ready());
    let mut count = 0usize;
    'ready: while let Some(key) = ready.next() {
        ready.done(key);
        count = count.saturating_add(1);
    }
    same(rt, ready.is_finished(), true);
    count
}

// A removal leaves a slot vacant.
#[test]
fn keys_are_worked_off(rt: HostRuntime) {
    let mut plan: Plan = Named::new(rt.alloc());
    fill(&rt, rt.alloc(), &mut plan);
    same(&rt, work_off(&rt, &plan), 5);
    same(&rt, plan.remove("water").is_some(), true);
    same(&rt, work_off(&rt, &plan), 4);
}

// "reap" depends on "hoe", which fails, and "water" does not.
#[test]
fn a_key_fails(rt: HostRuntime) {
    let mut plan: Plan = Named::new(rt.alloc());
    fill(&rt, rt.alloc(), &mut plan);
    let mut ready = made(&rt, plan.ready());
    fail(&rt, &mut ready, "sow", false);
    fail(&rt, &mut ready, "rake", false);
    next(&rt, &mut ready, Some("mow"));
    next(&rt, &mut ready, Some("sow"));
    done(&rt, &mut ready, "sow", true);
    next(&rt, &mut ready, Some("water"));
    next(&rt, &mut ready, Some("hoe"));
    failed(&rt, &ready, "hoe", false, 0, false);
    fail(&rt, &mut ready, "hoe", true);
    fail(&rt, &mut ready, "hoe", false);
    done(&rt, &mut ready, "hoe", false);
    done(&rt, &mut ready, "water", true);
    next(&rt, &mut ready, None);
    failed(&rt, &ready, "hoe", true, 1, false);
    counts(&rt, &ready, 1, 1);
    done(&rt, &mut ready, "mow", true);
    failed(&rt, &ready, "water", false, 1, true);
    same(&rt, ready.is_finished(), false);
    skipped(&rt, &ready, &["reap"]);
}

#[test]
fn keys_are_skipped(rt: HostRuntime) {
    let mut plan: Plan = Named::new(rt.alloc());
    fill(&rt, rt.alloc(), &mut plan);
    let mut ready = made(&rt, plan.ready());
    next(&rt, &mut ready, Some("mow"));
    next(&rt, &mut ready, Some("sow"));
    skipped(&rt, &ready, &[]);
    fail(&rt, &mut ready, "sow", true);
    // In the order in which they were added.
    skipped(&rt, &ready, &["reap", "water", "hoe"]);
}

#[test]
fn no_key_is_ready(rt: HostRuntime) {
    let plan: Plan = Named::new(rt.alloc());
    let mut ready = made(&rt, plan.ready());
    same(&rt, ready.is_finished(), true);
    next(&rt, &mut ready, None);
    let schedule = made(&rt, plan.schedule(|_, days| *days));
    same(&rt, schedule.makespan(), 0);
    critical(&rt, &schedule, &[]);
    starts(&rt, &schedule, "sow", None);
}

#[test]
fn starts_are_found_by_key(rt: HostRuntime) {
    let mut plan: Plan = Named::new(rt.alloc());
    fill(&rt, rt.alloc(), &mut plan);
    let schedule = made(&rt, plan.schedule(|_, days| *days));
    same(&rt, schedule.makespan(), 12);
    critical(&rt, &schedule, &["sow", "hoe", "reap"]);
    starts(&rt, &schedule, "sow", Some((0, 0)));
    starts(&rt, &schedule, "hoe", Some((5, 5)));
    starts(&rt, &schedule, "water", Some((5, 6)));
    starts(&rt, &schedule, "reap", Some((8, 8)));
    starts(&rt, &schedule, "mow", Some((0, 6)));
    starts(&rt, &schedule, "rake", None);
}

// A removal leaves a slot vacant. The durations are the lengths of the keys.
#[test]
fn durations_depend_on_keys(rt: HostRuntime) {
    let mut plan: Plan = Named::new(rt.alloc());
    fill(&rt, rt.alloc(), &mut plan);
    same(&rt, plan.remove("hoe").is_some(), true);
    let schedule = made(&rt, plan.schedule(|key, _| key.len() as u64));
    same(&rt, schedule.makespan(), 12);
    critical(&rt, &schedule, &["sow", "water", "reap"]);
    starts(&rt, &schedule, "water", Some((3, 3)));
    starts(&rt, &schedule, "mow", Some((0, 9)));
    starts(&rt, &schedule, "hoe", None);
}

#[test]
fn durations_take_too_long(rt: HostRuntime) {
    let mut plan: Plan = Named::new(rt.alloc());
    fill(&rt, rt.alloc(), &mut plan);
    let schedule = plan.schedule(|key, _| if key.as_str() == "hoe" { u64::MAX } else { 1 });
    same(&rt, schedule.err(), Some(ScheduleError::Overflow));
    let schedule = plan.schedule(|key, _| if key.as_str() == "mow" { u64::MAX } else { 1 });
    same(&rt, made(&rt, schedule).makespan(), u64::MAX);
}
