//! Histories: calls of a dag that is empty at first, and of its model.
use crate::comparing::{Difference, compare};
use crate::dag::kinds::Kind;
use crate::dag::{self, Ix, Numbers};
use anyhow::Result;
use daggy::NodeIndex;
use histories_model::answer::Answer;
use histories_model::calls::Call;
use histories_model::choosing::{Style, choose};
use histories_model::judging::is_right;
use histories_model::model::Model;
use histories_model::random::Random;
use histories_model::tally::Tally;
use std::alloc::Global;

/// How a dag and its model disagree.
#[derive(Drop)]
pub enum Fault {
    /// The answer of the model, and that of the dag.
    Answer(Answer, Answer),
    /// What differs after a call.
    State(Difference),
}

/// A dag with its model.
#[derive(Drop)]
struct Pair<S: Kind> {
    alloc: Global,
    dag: Numbers<S>,
    model: Model,
    tally: Tally,
}

impl<S: Kind> Pair<S> {
    fn new(alloc: Global) -> Self {
        Pair {
            alloc,
            dag: Numbers::new(alloc),
            model: Model::new(alloc, S::removal(), NodeIndex::<Ix>::end().index()),
            tally: Tally::default(),
        }
    }

    // Makes a call of both and compares the answers. If `compares`, it compares the dag and the model
    // too.
    fn step(&mut self, call: &Call, compares: bool) -> Result<Option<Fault>> {
        let actual = match dag::answer(self.alloc, &mut self.dag, &self.model, call) {
            Ok(answer) => answer,
            Err(error) => Answer::Error(format!(in self.alloc; "{error:#}")?),
        };
        let expected = self.model.answer(call)?;
        self.tally.count(call, &expected);
        if !is_right(self.alloc, &self.model, call, &expected, &actual)? {
            return Ok(Some(Fault::Answer(expected, actual)));
        }
        if compares {
            let found = compare(self.alloc, &self.dag, &self.model)?;
            return Ok(found.map(Fault::State));
        }
        Ok(None)
    }
}

/// The result of a history.
#[derive(Drop)]
pub enum Played {
    Agrees,
    /// The last of these calls disagrees.
    Disagrees(Vec<Call>),
}

// What borrows a pair is proved sooner than what owns one.
impl<S: Kind> Pair<S> {
    // Plays that many random calls.
    fn play(&mut self, random: &mut Random, style: Style, length: usize) -> Result<Played> {
        let mut calls = Vec::new(self.alloc);
        for left in (0..length).rev() {
            let call = choose(self.alloc, random, &self.model, style)?;
            let compares = left == 0 || random.once_in(4);
            let fault = self.step(&call, compares)?;
            calls.push(call)?;
            if fault.is_some() {
                return Ok(Played::Disagrees(calls));
            }
        }
        Ok(Played::Agrees)
    }

    // Plays the calls that are kept, and returns the position of the first one that disagrees.
    fn replay(&mut self, calls: &[Call], kept: &[bool]) -> Result<Option<(usize, Fault)>> {
        for (i, (call, is_kept)) in calls.iter().zip(kept.iter()).enumerate() {
            if *is_kept {
                if let Some(fault) = self.step(call, true)? {
                    return Ok(Some((i, fault)));
                }
            }
        }
        Ok(None)
    }
}

/// Plays a random history of at most `most` calls, and adds them to the tally if it agrees.
pub fn play<S: Kind>(
    alloc: Global,
    random: &mut Random,
    style: Style,
    most: usize,
    tally: &mut Tally,
) -> Result<Played> {
    let mut pair = Pair::<S>::new(alloc);
    pair.tally = *tally;
    let length = 50usize.saturating_add(random.below(351)).min(most);
    let played = pair.play(random, style, length)?;
    if matches!(played, Played::Agrees) {
        *tally = pair.tally;
    }
    Ok(played)
}

/// Plays the calls that are kept, and returns the position of the first one that disagrees.
pub fn replay<S: Kind>(
    alloc: Global,
    calls: &[Call],
    kept: &[bool],
) -> Result<Option<(usize, Fault)>> {
    let mut pair = Pair::<S>::new(alloc);
    pair.replay(calls, kept)
}
