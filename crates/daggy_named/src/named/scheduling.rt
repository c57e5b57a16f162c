//! Schedules by keys.
ghost use Rattle.std.specs.Prelude.{◌≡◌, ℕ, List, Some, Err, IsSome, IfOk, slice_index};
ghost use Rattle.std.specs.Option.{option_map};
ghost use Rattle.daggy_schedule.specs.Times.{TakesTooLong};
ghost use Rattle.daggy_schedule.specs.declared.schedule.ScheduleError.TheVariants.{Overflow};
ghost use Rattle.daggy_named.specs.Naming.{key_at, index_by};
ghost use Rattle.daggy_named.specs.Planned.{keys_in};
ghost use Rattle.daggy_named.specs.Scheduled.{CanCallAtEachKey, AreDurationsByKey, IsScheduleByKey};
ghost use Rattle.daggy_named.specs.Scheduled.{latest_start_of};

use crate::named::Named;
use daggy_base::index::{DefaultIx, IndexType};
use daggy_schedule::schedule::{Schedule, ScheduleError};
use indexmap::Equivalent;
use std::fmt;
use std::hash::Hash;
use std::marker::Model;

/// The schedule of a dag, by keys: when each node can start.
///
/// # Examples
///
/// ```
/// let mut plan: Named<&'static str, u64, ()> = Named::new(rt.alloc());
/// plan.add_node("sow", 1)?;
/// plan.add_node("reap", 2)?;
/// plan.add_dependency(Dependency { dependent: "reap", on: "sow" }, ())?;
/// let schedule = plan.schedule(|_, days| *days)?;
/// assert!(rt; schedule.makespan() == 3);
/// assert!(rt; schedule.earliest_start("reap") == Some(1));
/// ```
#[derive(Drop)]
pub struct ScheduleByKey<'a, K: Eq + Hash, N: Drop, E: Drop, Ix: IndexType = DefaultIx> {
    named: &'a Named<K, N, E, Ix>,
    times: Schedule<Ix>,
    critical: Vec<&'a K>,
}

impl<'a, K: Eq + Hash, N: Drop, E: Drop, Ix: IndexType> Model for ScheduleByKey<'a, K, N, E, Ix> {
    ghost use Rattle.std.specs.Prelude.{◌≡◌, vec_len};
    ghost use Rattle.daggy_base.specs.Graph.{node_bound};
    ghost use Rattle.daggy_named.specs.Planned.{keys_in};
    ghost use Rattle.daggy_named.specs.Scheduled.{NamedTimes, IsScheduleByKey};

    ghost Value = { NamedTimes K N E };

    ghost view = { λ s. record {
      named = s.named.now;
      durations = s.times.durations.items;
      starts = s.times.starts.items;
      finishes = s.times.finishes.items;
      slack = s.times.slack.items;
      critical = keys_in s.critical.items;
      makespan = s.times.makespan;
    } };

    ghost invariant = { λ s.
        IsScheduleByKey (record {
          named = s.named.now;
          durations = s.times.durations.items;
          starts = s.times.starts.items;
          finishes = s.times.finishes.items;
          slack = s.times.slack.items;
          critical = keys_in s.critical.items;
          makespan = s.times.makespan;
        })
        × (vec_len s.times.starts ≡ node_bound s.named.now.graph)
        × (vec_len s.times.slack ≡ node_bound s.named.now.graph) };
}

impl<'a, K: Eq + Hash + Drop, N: Drop, E: Drop, Ix: IndexType> ScheduleByKey<'a, K, N, E, Ix> {
    /// The length of the schedule: the time when the last node finishes, or 0 if there are no nodes.
    pub fn makespan(&self) -> u64
        ensures value { result ≡ self.now.makespan }
        ensures schedule { IsScheduleByKey self.now }
    {
        self.times.makespan
    }

    /// The keys along a critical path: a path whose durations add up to the
    /// [`makespan`](ScheduleByKey::makespan). Empty only if there are no nodes. It ends with the
    /// node that finishes last, and each node is preceded by whichever of its dependencies finishes
    /// last; ties go to the lowest index.
    pub fn critical_path(&self) -> &[&'a K]
        ensures { keys_in result.now ≡ self.now.critical }
    {
        self.critical.as_slice()
    }

    /// The earliest start of the node with this key: the time when all nodes that it depends on have
    /// finished. `None` if there is no such node.
    ///
    /// # Complexity
    ///
    /// O(1) on average: one hash lookup.
    pub fn earliest_start<Q: Equivalent<K>>(&self, key: Q) -> Option<u64>
        ensures { result ≡ option_map (slice_index self.now.starts)
            (index_by (Q.equivalent key) self.now.named.keys) }
    {
        let n = self.named.index_of(key)?;
        Some(self.times.starts[n.index()])
    }

    /// The latest start of the node with this key that does not increase the
    /// [`makespan`](ScheduleByKey::makespan). `None` if there is no such node.
    ///
    /// # Complexity
    ///
    /// O(1) on average: one hash lookup.
    ///
    /// # Examples
    ///
    /// ```
    /// let mut plan: Named<&'static str, u64, ()> = Named::new(rt.alloc());
    /// plan.add_node("sow", 5)?;
    /// plan.add_node("build a fence", 3)?;
    /// let schedule = plan.schedule(|_, days| *days)?;
    /// assert!(rt; schedule.latest_start("sow") == Some(0));
    /// assert!(rt; schedule.latest_start("build a fence") == Some(2));
    /// assert!(rt; schedule.latest_start("reap").is_none());
    /// ```
    pub fn latest_start<Q: Equivalent<K>>(&self, key: Q) -> Option<u64>
        ensures { result ≡ option_map (latest_start_of self.now)
            (index_by (Q.equivalent key) self.now.named.keys) }
    {
        // Read only for its type: no node starts after the end.
        let _end = self.times.makespan;
        let n = self.named.index_of(key)?;
        Some(self.times.starts[n.index()] + self.times.slack[n.index()])
    }
}

impl<'a, K: Eq + Hash, N: Drop, E: Drop, Ix: IndexType> fmt::Debug
    for ScheduleByKey<'a, K, N, E, Ix> {
    fn fmt<W: fmt::Write>(&self, f: &mut fmt::Formatter<W>) -> fmt::Result {
        f.debug_struct("ScheduleByKey").finish_non_exhaustive()
    }
}

impl<K: Eq + Hash + Drop, N: Drop, E: Drop, Ix: IndexType> Named<K, N, E, Ix> {
    /// Computes when each node can start and finish if it waits only for the nodes that it depends
    /// on, how late it can start, and a critical path. The same as
    /// [`Schedule::new`](daggy_schedule::schedule::Schedule::new) of the [`dag`](Named::dag), by
    /// keys. `duration` is called once with the key and the weight of each node; the unit is up to
    /// the caller.
    ///
    /// # Requires
    ///
    /// - `duration` may be called with the key and the weight of each node.
    ///
    /// # Errors
    ///
    /// Returns `ScheduleError::Overflow` if the durations along some path add up to 2^64 or more,
    /// and `ScheduleError::Memory` if an allocation fails before the overflow is detected.
    ///
    /// # Complexity
    ///
    /// O(node slots + edges), plus the calls.
    ///
    /// # Examples
    ///
    /// ```
    /// let mut plan: Named<&'static str, u64, ()> = Named::new(rt.alloc());
    /// plan.add_node("sow", 1)?;
    /// plan.add_node("water", 60)?;
    /// plan.add_node("reap", 2)?;
    /// plan.add_node("scarecrow", 5)?;
    /// plan.add_dependency(Dependency { dependent: "water", on: "sow" }, ())?;
    /// plan.add_dependency(Dependency { dependent: "reap", on: "water" }, ())?;
    /// plan.add_dependency(Dependency { dependent: "scarecrow", on: "sow" }, ())?;
    /// let schedule = plan.schedule(|_, days| *days)?;
    /// assert!(rt; schedule.makespan() == 63);
    /// assert!(rt; schedule.critical_path() == [&"sow", &"water", &"reap"].as_slice());
    /// assert!(rt; schedule.earliest_start("scarecrow") == Some(1));
    /// assert!(rt; schedule.latest_start("scarecrow") == Some(58));
    /// ```
    pub fn schedule<F: Fn(&K, &N) -> u64>(
        &self,
        duration: F,
    ) -> Result<ScheduleByKey<'_, K, N, E, Ix>, ScheduleError>
        requires { CanCallAtEachKey F.pre duration self.now }
        ensures named { IfOk result (λ s. s.named ≡ self.now) }
        ensures durations { IfOk result (λ s.
            AreDurationsByKey F.post duration self.now s.durations) }
        ensures schedule { IfOk result (λ s. IsScheduleByKey s) }
        ensures fits { IfOk result (λ s. ¬ TakesTooLong self.now.graph s.durations) }
        ensures overflow { result ≡ Err Overflow → (durations' : List ℕ)
            × AreDurationsByKey F.post duration self.now durations'
            × TakesTooLong self.now.graph durations' }
    {
        // Called only for its contract: each node has a key, and its index fits.
        let _count = self.node_count();
        let times = Schedule::new(
            self.dag.allocator(),
            &self.dag,
            |n, weight|
                requires { IsSome (key_at self.now.keys (Ix.number n))
                    × ((key : _) → key_at self.now.keys (Ix.number n) ≡ Some key.now
                    → F.pre duration key weight) }
                ensures { (key : _) × (key_at self.entry.now.keys (Ix.number n) ≡ Some key.now)
                    × F.post duration key weight.entry result }
            { duration(self.key_of(n).unwrap(), weight) },
        )?;
        let critical = self.keys_of(times.critical.as_slice())?;
        Ok(ScheduleByKey {
            named: self,
            times,
            critical,
        })
    }
}
