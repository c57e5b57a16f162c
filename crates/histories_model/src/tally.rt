//! How many calls of which sort there were, and what they answered.
use crate::answer::Answer;
use crate::calls::Call;
use std::fmt;

/// Numbers of calls.
#[derive(Clone, Copy, Default)]
pub struct Tally {
    changes: u64,
    batches: u64,
    wholes: u64,
    queries: u64,
    searches: u64,
    works: u64,
    cycles: u64,
    missing: u64,
    full: u64,
}

impl Tally {
    /// Counts a call.
    pub fn count(&mut self, call: &Call, answer: &Answer) {
        let counter = match call {
            Call::Change(_) => &mut self.changes,
            Call::Batch(_) => &mut self.batches,
            Call::Whole(_) => &mut self.wholes,
            Call::Query(_) => &mut self.queries,
            Call::Search(_) | Call::Walk(_) => &mut self.searches,
            Call::Work(_) => &mut self.works,
        };
        *counter = counter.saturating_add(1);
        match answer {
            Answer::WouldCycle(_) => self.cycles = self.cycles.saturating_add(1),
            Answer::Missing | Answer::BadEndpoint(_) => {
                self.missing = self.missing.saturating_add(1);
            }
            Answer::NoIndex | Answer::Full(_) => self.full = self.full.saturating_add(1),
            _ => {}
        }
    }

    /// How many calls there were.
    pub fn calls(&self) -> u64 {
        self.changes
            .saturating_add(self.batches)
            .saturating_add(self.wholes)
            .saturating_add(self.queries)
            .saturating_add(self.searches)
            .saturating_add(self.works)
    }
}

impl fmt::Display for Tally {
    fn fmt<W: fmt::Write>(&self, f: &mut fmt::Formatter<W>) -> fmt::Result {
        entry(f, "changes ", self.changes)?;
        entry(f, ", batches ", self.batches)?;
        entry(f, ", whole dags ", self.wholes)?;
        entry(f, ", queries ", self.queries)?;
        entry(f, ", searches ", self.searches)?;
        entry(f, ", work ", self.works)?;
        entry(f, "\nrefused: cycles ", self.cycles)?;
        entry(f, ", missing nodes ", self.missing)?;
        entry(f, ", no index left ", self.full)
    }
}

fn entry<W: fmt::Write>(f: &mut fmt::Formatter<W>, name: &str, number: u64) -> fmt::Result {
    f.write_str(name)?;
    write!(f, "{number}")
}
