//! What the tests do with a dag of either kind.
//!
//! Each kind is named here alone, since a call at a kind costs a proof much more than a call at any
//! dag.
use super::adapters::{are_copy, chains, copies, cuts, leads, peeks, tests};
use super::asked::questions;
use super::families::{ancestry, down, places, sought, summed, up, weights};
use super::hints::{ends, hints};
use super::stale::stale;
use daggy_base::store::Store;
use daggy_graph::graph::DiGraph;
use daggy_stable::stable_graph::StableDiGraph;
use std::alloc::Global;
use std::process::Abort;

/// What is done with a dag.
#[derive(Clone, Copy)]
pub enum Scene {
    Cuts,
    Tests,
    Chains,
    Peeks,
    Leads,
    Copies,
    AreCopy,
    Questions,
    Down,
    Up,
    Places,
    Weights,
    Sought,
    Summed,
    Ancestry,
    Hints,
    Ends,
    Stale,
}

fn play<S: Store<u32, NodeWeight = u32, EdgeWeight = u32>>(
    rt: &impl Abort,
    alloc: Global,
    scene: Scene,
) {
    match scene {
        Scene::Cuts => cuts::<S>(rt, alloc),
        Scene::Tests => tests::<S>(rt, alloc),
        Scene::Chains => chains::<S>(rt, alloc),
        Scene::Peeks => peeks::<S>(rt, alloc),
        Scene::Leads => leads::<S>(rt, alloc),
        Scene::Copies => copies::<S>(rt, alloc),
        Scene::AreCopy => are_copy::<S>(rt, alloc),
        Scene::Questions => questions::<S>(rt, alloc),
        Scene::Down => down::<S>(rt, alloc),
        Scene::Up => up::<S>(rt, alloc),
        Scene::Places => places::<S>(rt, alloc),
        Scene::Weights => weights::<S>(rt, alloc),
        Scene::Sought => sought::<S>(rt, alloc),
        Scene::Summed => summed::<S>(rt, alloc),
        Scene::Ancestry => ancestry::<S>(rt, alloc),
        Scene::Hints => hints::<S>(rt, alloc),
        Scene::Ends => ends::<S>(rt, alloc),
        Scene::Stale => stale::<S>(rt, alloc),
    }
}

/// Plays a scene with a dag of each kind.
pub fn both(rt: &impl Abort, alloc: Global, scene: Scene) {
    play::<DiGraph<u32, u32, u32>>(rt, alloc, scene);
    play::<StableDiGraph<u32, u32, u32>>(rt, alloc, scene);
}
