//! What the tests do with a dag of either kind.
//!
//! Each kind is named here alone, since a call at a kind costs a proof much more than a call at any
//! dag.
use super::assignments::{assigns_in_all_ways, assigns_past_a_slot};
use super::failures::{works_off_failing, works_off_failing_past_a_slot};
use super::keys::{works_off_by_keys, works_off_by_keys_past_a_slot};
use super::orders::{orders_all, orders_past_a_slot};
use super::refusals::again;
use super::schedules::{plans_all, plans_past_a_slot};
use super::workers::{works_off, works_off_past_a_slot};
use daggy_base::store::Store;
use daggy_graph::graph::DiGraph;
use daggy_stable::stable_graph::StableDiGraph;
use std::alloc::Global;
use std::process::Abort;

/// What is done with dags.
#[derive(Clone, Copy)]
pub enum Scene {
    Assigns,
    AssignsPastASlot,
    Failures,
    FailuresPastASlot,
    Keys,
    KeysPastASlot,
    Orders,
    OrdersPastASlot,
    Plans,
    PlansPastASlot,
    Refusals,
    Workers,
    WorkersPastASlot,
}

fn play<S: Store<u32, NodeWeight = u64, EdgeWeight = ()>>(
    rt: &impl Abort,
    alloc: Global,
    scene: Scene,
) {
    match scene {
        Scene::Assigns => assigns_in_all_ways::<S>(rt, alloc),
        Scene::AssignsPastASlot => assigns_past_a_slot::<S>(rt, alloc),
        Scene::Failures => works_off_failing::<S>(rt, alloc),
        Scene::FailuresPastASlot => works_off_failing_past_a_slot::<S>(rt, alloc),
        Scene::Keys => works_off_by_keys::<S>(rt, alloc),
        Scene::KeysPastASlot => works_off_by_keys_past_a_slot::<S>(rt, alloc),
        Scene::Orders => orders_all::<S>(rt, alloc),
        Scene::OrdersPastASlot => orders_past_a_slot::<S>(rt, alloc),
        Scene::Plans => plans_all::<S>(rt, alloc),
        Scene::PlansPastASlot => plans_past_a_slot::<S>(rt, alloc),
        Scene::Refusals => again::<S>(rt, alloc),
        Scene::Workers => works_off::<S>(rt, alloc),
        Scene::WorkersPastASlot => works_off_past_a_slot::<S>(rt, alloc),
    }
}

/// Plays a scene with compact dags.
pub fn compact(rt: &impl Abort, alloc: Global, scene: Scene) {
    play::<DiGraph<u64, (), u32>>(rt, alloc, scene);
}

/// Plays a scene with stable dags.
pub fn stable(rt: &impl Abort, alloc: Global, scene: Scene) {
    play::<StableDiGraph<u64, (), u32>>(rt, alloc, scene);
}
