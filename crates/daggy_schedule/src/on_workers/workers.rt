//! The workers and the nodes they process, over time.
ghost use Rattle.std.specs.Prelude.{◌≡◌, ◌∷◌, ℕ, ◌+◌, ◌<◌, ◌≤◌, [], length, replicate, true, false, Ok, Err, IfOk};
ghost use Rattle.std.specs.Prelude.{OnOk, Contains, MatchOption, vec_len, slice_index, slice_set};
ghost use Rattle.std.specs.List.{AllByRecursion};
ghost use Rattle.daggy_schedule.specs.LeastFirst.{nodes_of};
ghost use Rattle.daggy_schedule.specs.Workers.{Waits, Begins, Finishes, IsStuck, IsTooLate, IsIdleWorker};
ghost use Rattle.daggy_schedule.specs.declared.schedule.ScheduleError.TheVariants.{Overflow};

use crate::candidates::Candidates;
use crate::on_workers::Assignment;
use crate::schedule::ScheduleError;
use daggy_base::index::{IndexType, NodeIndex};
use std::alloc::{AllocError, Global};
use std::marker::Model;

// Which nodes wait, which are in progress, and which workers are free.
#[derive(Drop)]
pub(super) struct Workers<Ix: IndexType> {
    // With their latest starts.
    waiting: Candidates<u64, Ix>,
    // With their finishes.
    running: Candidates<u64, Ix>,
    free: Vec<usize>,
    starts: Vec<u64>,
    workers: Vec<usize>,
    now: u64,
}

impl<Ix: IndexType> Model for Workers<Ix> {
    ghost use Rattle.daggy_schedule.specs.Workers.{Progress};

    ghost Value = { Progress };

    ghost view = { λ s. record {
      waiting = s.waiting.items;
      running = s.running.items;
      free = s.free.items;
      starts = s.starts.items;
      workers = s.workers.items;
      now = s.now;
    } };
}

impl<Ix: IndexType> Workers<Ix> {
    // All workers are free. The lists are `bound` long.
    pub fn new(alloc: Global, bound: usize) -> Result<Self, AllocError>
        ensures { IfOk result (λ s. s ≡ record {
          waiting = [];
          running = [];
          free = [];
          starts = replicate bound 0;
          workers = replicate bound 0;
          now = 0;
        }) }
    {
        let mut starts = Vec::new(alloc);
        starts.resize(bound, 0u64)?;
        let mut workers = Vec::new(alloc);
        workers.resize(bound, 0usize)?;
        Ok(Workers {
            waiting: Candidates::new(alloc),
            running: Candidates::new(alloc),
            free: Vec::new(alloc),
            starts,
            workers,
            now: 0,
        })
    }

    // Adds a waiting node, with the time by which it should start.
    pub fn add(&mut self, latest: u64, n: NodeIndex<Ix>) -> Result<(), AllocError>
        ensures { OnOk result (Waits (latest, Ix.number n) self.old self.new) }
    {
        self.waiting.add(latest, n)
    }

    // Lets a free worker start the waiting node that should start first. Returns whether a node was
    // started.
    pub fn begin_next(&mut self, durations: &[u64], count: usize) -> Result<bool, ScheduleError>
        requires starts { (n : ℕ) → Contains (nodes_of self.old.waiting) n
            → n < length self.old.starts }
        requires workers { (n : ℕ) → Contains (nodes_of self.old.waiting) n
            → n < length self.old.workers }
        requires durations { (n : ℕ) → Contains (nodes_of self.old.waiting) n
            → n < length durations.now }
        requires ends { AllByRecursion (λ p. self.old.now ≤ p.0) self.old.running }
        ensures begun { result ≡ Ok true → Begins durations.now count self.old self.new }
        ensures stuck { result ≡ Ok false → (self.new ≡ self.old) × IsStuck count self.old }
        ensures overflow { result ≡ Err Overflow → IsTooLate durations.now self.old }
    {
        let busy = self.running.len();
        if busy >= count {
            return Ok(false);
        }
        if let Some(finish) = self.running.first_key() {
            if finish == self.now {
                return Ok(false);
            }
        }
        let Some(first) = self.waiting.take_first() else {
            return Ok(false);
        };
        let n = first.1;
        let i = n.index();
        let Some(finish) = self.now.checked_add(durations[i]) else {
            return Err(ScheduleError::Overflow);
        };
        let worker = idle_worker(&mut self.free, busy);
        note(&mut self.starts, &mut self.workers, i, self.now, worker);
        self.running.add(finish, n)?;
        Ok(true)
    }

    // Finishes the node in progress that finishes next, and frees its worker.
    pub fn finish_next(&mut self) -> Result<Option<NodeIndex<Ix>>, AllocError>
        requires { (n : ℕ) → Contains (nodes_of self.old.running) n → n < length self.old.workers }
        ensures { IfOk result (λ r. MatchOption r
            ((self.old.running ≡ []) × (self.new ≡ self.old))
            (λ n. Finishes (Ix.number n) self.old self.new)) }
    {
        let Some(first) = self.running.take_first() else {
            return Ok(None);
        };
        let n = first.1;
        self.now = first.0;
        self.free.push(self.workers[n.index()])?;
        Ok(Some(n))
    }

    // When each node finishes.
    pub fn finishes(&self, alloc: Global, durations: &[u64]) -> Result<Vec<u64>, AllocError>
        requires sized { length self.now.starts ≡ length durations.now }
        requires ended { (i : ℕ)
            → slice_index self.now.starts i + slice_index durations.now i ≤ self.now.now }
        ensures sized { IfOk result (λ finishes. vec_len finishes ≡ length durations.now) }
        ensures finishes { IfOk result (λ finishes. (i : ℕ) → slice_index finishes.items i
            ≡ slice_index self.entry.now.starts i + slice_index durations.now i) }
    {
        // Read only for its range: no sum is greater.
        let _now = self.now;
        let bound = durations.len();
        let mut finishes = Vec::with_capacity(alloc, bound)?;
        'nodes: for i in 0..bound {
            finishes.push(self.starts[i] + durations[i])?;
        }
        Ok(finishes)
    }

    // When each node started and which worker processed it, with the durations and the finishes.
    pub fn into_assignment(self, durations: Vec<u64>, finishes: Vec<u64>) -> Assignment
        ensures durations { result.durations ≡ durations }
        ensures finishes { result.finishes ≡ finishes }
        ensures starts { result.starts.items ≡ self.starts }
        ensures workers { result.workers.items ≡ self.workers }
        ensures makespan { result.makespan ≡ self.now }
    {
        Assignment {
            durations,
            starts: self.starts,
            finishes,
            workers: self.workers,
            makespan: self.now,
        }
    }
}

// Records when a node starts, and which worker processes it.
fn note(starts: &mut Vec<u64>, workers: &mut Vec<usize>, i: usize, now: u64, worker: usize)
    requires starts { i < vec_len starts.old }
    requires workers { i < vec_len workers.old }
    ensures starts { starts.new.items ≡ slice_set starts.old.items i now }
    ensures workers { workers.new.items ≡ slice_set workers.old.items i worker }
{
    starts[i] = now;
    workers[i] = worker;
}

// A free worker: one that was freed, or else the next one.
fn idle_worker(free: &mut Vec<usize>, busy: usize) -> usize
    ensures { IsIdleWorker busy free.old.items free.new.items result }
{
    match free.pop() {
        Some(worker) => worker,
        None => busy,
    }
}
