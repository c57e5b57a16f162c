//! What is done with documents of dags of either kind.
//!
//! Each kind is named in one function, [`compact`] or [`stable`], since a call at a kind costs a
//! proof much more than a call at any dag.
use super::reading::{reads, reads_as, reads_vacant_slots, refuses, starves, takes_vacant_slots};
use super::short::{ends_short, fails_short, fills, shortens};
use super::streaming::{ends, fails, goes_on, streams, takes_nothing};
use super::support::{Compact, Kind, Recipe, Stable};
use super::writing::{writes, writes_nothing};
use daggy_json::error::ReadError;
use std::alloc::Global;
use std::process::Abort;

/// What is done.
#[derive(Clone, Copy)]
pub enum Scene<'a> {
    /// A dag is made by a recipe, and has this document.
    Written(Recipe<'a>, &'a str),
    /// A dag has no document, since there is no memory for a weight.
    NotWritten,
    /// A dag is made by a recipe, and its document is written to a writer.
    Streamed(Recipe<'a>, &'a str),
    /// No document is written to a writer, since there is no memory for a weight.
    NotStreamed,
    /// The writer fails, at each call in turn.
    Failing,
    /// The writer takes nothing.
    TakingNothing,
    /// The writer is interrupted.
    Interrupted,
    /// A dag is made by a recipe, and its short document is written to a writer.
    Shortened(Recipe<'a>, &'a str),
    /// No short document is written, since there is no memory for a weight.
    NotShortened,
    /// An edge is added in a vacant slot, and the short document is written.
    Filled(&'a str),
    /// The writer of a short document fails, at each call in turn.
    ShortFailing(Recipe<'a>, &'a str),
    /// A document is read.
    Read(&'a str),
    /// A document is read as a dag that is written as the other one.
    ReadAs(&'a str, &'a str),
    /// A document has this fault.
    Refused(&'a str, ReadError),
    /// A document with vacant slots is read.
    VacantRead(&'a str),
    /// The vacant slots of a document are taken.
    VacantTaken(&'a str),
    /// A document is not read, since there is no memory for a weight.
    NotRead(&'a str),
}

fn play<S: Kind>(rt: &impl Abort, alloc: Global, scene: Scene<'_>) {
    match scene {
        Scene::Written(recipe, wanted) => writes::<S>(rt, alloc, recipe, wanted),
        Scene::NotWritten => writes_nothing::<S>(rt, alloc),
        Scene::Streamed(recipe, wanted) => streams::<S>(rt, alloc, recipe, wanted),
        Scene::NotStreamed => ends::<S>(rt, alloc),
        Scene::Failing => fails::<S>(rt, alloc),
        Scene::TakingNothing => takes_nothing::<S>(rt, alloc),
        Scene::Interrupted => goes_on::<S>(rt, alloc),
        Scene::Shortened(recipe, wanted) => shortens::<S>(rt, alloc, recipe, wanted),
        Scene::NotShortened => ends_short::<S>(rt, alloc),
        Scene::Filled(wanted) => fills::<S>(rt, alloc, wanted),
        Scene::ShortFailing(recipe, text) => fails_short::<S>(rt, alloc, recipe, text),
        Scene::Read(text) => reads::<S>(rt, alloc, text),
        Scene::ReadAs(text, wanted) => reads_as::<S>(rt, alloc, text, wanted),
        Scene::Refused(text, wanted) => refuses::<S>(rt, alloc, text, wanted),
        Scene::VacantRead(text) => reads_vacant_slots::<S>(rt, alloc, text),
        Scene::VacantTaken(text) => takes_vacant_slots::<S>(rt, alloc, text),
        Scene::NotRead(text) => starves::<S>(rt, alloc, text),
    }
}

/// Plays a scene with compact dags.
pub fn compact(rt: &impl Abort, alloc: Global, scene: Scene<'_>) {
    play::<Compact>(rt, alloc, scene);
}

/// Plays a scene with stable dags.
pub fn stable(rt: &impl Abort, alloc: Global, scene: Scene<'_>) {
    play::<Stable>(rt, alloc, scene);
}

/// Plays a scene with dags of each kind.
pub fn both(rt: &impl Abort, alloc: Global, scene: Scene<'_>) {
    compact(rt, alloc, scene);
    stable(rt, alloc, scene);
}
