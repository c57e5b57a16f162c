//! The keys of the nodes that are ready, while others are in progress and some may fail.
ghost use Rattle.std.specs.Prelude.{◌≡◌, ℕ, ◌+◌, ◌↔◌, ◌⊎◌, [], Some};
ghost use Rattle.std.specs.Prelude.{IsTrue, IsFalse, IsNone, IfSome, IfOk, filter, map};
ghost use Rattle.daggy_base.specs.Iterating.{node_identifiers};
ghost use Rattle.daggy_schedule.specs.Work.{IsSet, IsIdle, has_no_parents};
ghost use Rattle.daggy_schedule.specs.Fallible.{IsInProgress, IsOver, IsSkipped};
ghost use Rattle.daggy_schedule.specs.Fallible.{IsUnderWayWithFailures, HandsOut, Finishes};
ghost use Rattle.daggy_schedule.specs.Fallible.{in_progress_count, set_count};
ghost use Rattle.daggy_named.specs.Asked.{ForNode, AreKeysOf};
ghost use Rattle.daggy_named.specs.Naming.{key_at};
ghost use Rattle.daggy_named.specs.Working.{AreSkipped, remaining_of};

use crate::named::Named;
use daggy_base::index::{DefaultIx, IndexType};
use daggy_schedule::fallible_ready::FallibleReady;
use indexmap::Equivalent;
use std::alloc::AllocError;
use std::fmt;
use std::hash::Hash;
use std::marker::Model;

/// A queue of the keys of the nodes that are ready: all nodes that they depend on are done. Each
/// key is returned once. Nodes that depend on a node that failed, directly or through others, are
/// skipped: their keys are never returned.
///
/// It borrows the dag, so its methods have no preconditions: [`done`](ReadyKeys::done) and
/// [`fail`](ReadyKeys::fail) return `false` for a key that is unknown or not in progress. To write
/// weights between two calls, use [`FallibleReady`] with [`dag`](Named::dag).
///
/// # Complexity
///
/// O(nodes + edges) for a whole run. Only [`ready`](Named::ready) and
/// [`skipped`](ReadyKeys::skipped) allocate.
///
/// # Examples
///
/// ```
/// let mut plan: Named<&'static str, u32, ()> = Named::new(rt.alloc());
/// plan.add_node("reap", 2)?;
/// plan.add_node("sow", 1)?;
/// plan.add_dependency(Dependency { dependent: "reap", on: "sow" }, ())?;
/// let mut ready = plan.ready()?;
/// assert!(rt; ready.next() == Some(&"sow"));
/// // What it depends on is not done yet.
/// assert!(rt; ready.next().is_none());
/// assert!(rt; ready.done("sow"));
/// assert!(rt; ready.next() == Some(&"reap"));
/// assert!(rt; ready.done("reap"));
/// assert!(rt; ready.is_finished());
/// ```
#[derive(Drop)]
pub struct ReadyKeys<'a, K: Eq + Hash, N: Drop, E: Drop, Ix: IndexType = DefaultIx> {
    named: &'a Named<K, N, E, Ix>,
    ready: FallibleReady<Ix>,
}

impl<'a, K: Eq + Hash, N: Drop, E: Drop, Ix: IndexType> Model for ReadyKeys<'a, K, N, E, Ix> {
    ghost use Rattle.daggy_schedule.specs.Fallible.{IsUnderWayWithFailures};
    ghost use Rattle.daggy_named.specs.Working.{NamedWork};

    ghost Value = { NamedWork K N E };

    ghost view = { λ r. record { named = r.named.now; queue = r.ready } };

    ghost invariant = { λ r. IsUnderWayWithFailures r.named.now.graph r.ready };
}

impl<'a, K: Eq + Hash + Drop, N: Drop, E: Drop, Ix: IndexType> ReadyKeys<'a, K, N, E, Ix> {
    /// Returns the key that has been ready for longest, or `None` if none is ready: either a node
    /// whose key was returned has to be done first, or all nodes are done, have failed or are
    /// skipped.
    ///
    /// # Complexity
    ///
    /// O(1).
    pub fn next(&mut self) -> Option<&'a K>
        ensures none { IsNone result ↔ (self.old.queue.work.ready ≡ []) }
        ensures first { IfSome result (λ key. (n : ℕ)
            × (key_at self.old.named.keys n ≡ Some key.now)
            × HandsOut n self.old.queue.work self.new.queue.work
            × IsInProgress self.new.queue n) }
        ensures is_out { IfSome result (λ key.
            ForNode (K.eq key.now) self.new.named.keys (IsInProgress self.new.queue)) }
        ensures not_skipped { IfSome result (λ key. ForNode (K.eq key.now) self.old.named.keys
            (λ n. ¬ IsSkipped self.old.named.graph self.old.queue n)) }
        ensures fewer { IfSome result (λ _. remaining_of self.new.named.graph self.new.queue.work
            + 1 ≡ remaining_of self.old.named.graph self.old.queue.work) }
        ensures failed { self.new.queue.failed ≡ self.old.queue.failed }
        ensures named { self.new.named ≡ self.old.named }
        ensures unchanged { IsNone result → self.new ≡ self.old }
    {
        let named = self.named;
        // Called only for its contract: each node has a key.
        let _count = named.node_count();
        let n = self.ready.next(named.dag())?;
        Some(named.key_of(n).unwrap())
    }

    /// Whether the node with this key is in progress: [`next`](ReadyKeys::next) returned its key,
    /// it is not done and did not fail. `false` if there is no such node.
    ///
    /// # Complexity
    ///
    /// O(1) on average: one hash lookup.
    ///
    /// # Examples
    ///
    /// ```
    /// let mut plan: Named<&'static str, u32, ()> = Named::new(rt.alloc());
    /// plan.add_node("sow", 1)?;
    /// let mut ready = plan.ready()?;
    /// assert!(rt; !ready.is_out("sow"));
    /// assert!(rt; ready.next() == Some(&"sow"));
    /// assert!(rt; ready.is_out("sow"));
    /// assert!(rt; ready.done("sow"));
    /// assert!(rt; !ready.is_out("sow"));
    /// ```
    pub fn is_out<Q: Equivalent<K>>(&self, key: Q) -> bool
        ensures { IsTrue result
            ↔ ForNode (Q.equivalent key) self.now.named.keys (IsInProgress self.now.queue) }
    {
        let Some(n) = self.named.index_of(key) else {
            return false;
        };
        self.ready.is_out(n)
    }

    /// Whether the node with this key failed. `false` if there is no such node.
    ///
    /// # Complexity
    ///
    /// O(1) on average: one hash lookup.
    pub fn is_failed<Q: Equivalent<K>>(&self, key: Q) -> bool
        ensures { IsTrue result
            ↔ ForNode (Q.equivalent key) self.now.named.keys (IsSet self.now.queue.failed) }
    {
        let Some(n) = self.named.index_of(key) else {
            return false;
        };
        self.ready.is_failed(n)
    }

    /// Marks the node with this key as done, and returns whether it was in progress. If it was not,
    /// or if there is no such node, nothing changes.
    ///
    /// Nodes that depend on it and whose other dependencies are all done become ready, after the
    /// nodes that are already ready and in the order of the edges that leave the node. If several
    /// of these edges enter a node, it becomes ready at the last of them.
    ///
    /// # Complexity
    ///
    /// One hash lookup, plus O(children of the node).
    ///
    /// # Examples
    ///
    /// ```
    /// let mut plan: Named<&'static str, u32, ()> = Named::new(rt.alloc());
    /// plan.add_node("sow", 1)?;
    /// let mut ready = plan.ready()?;
    /// // `next` did not return it yet.
    /// assert!(rt; !ready.done("sow"));
    /// assert!(rt; ready.next() == Some(&"sow"));
    /// assert!(rt; ready.done("sow"));
    /// // It is done already, and there is no node with the other key.
    /// assert!(rt; !ready.done("sow") && !ready.done("reap"));
    /// ```
    pub fn done<Q: Equivalent<K>>(&mut self, key: Q) -> bool
        ensures was_out { IsTrue result
            ↔ ForNode (Q.equivalent key) self.old.named.keys (IsInProgress self.old.queue) }
        ensures done { IsTrue result → ForNode (Q.equivalent key) self.old.named.keys
            (λ n. Finishes self.old.named.graph n self.old.queue.work self.new.queue.work) }
        ensures out { self.new.queue.work.out ≡ self.old.queue.work.out }
        ensures failed { self.new.queue.failed ≡ self.old.queue.failed }
        ensures named { self.new.named ≡ self.old.named }
        ensures unchanged { IsFalse result → self.new ≡ self.old }
    {
        let named = self.named;
        let Some(n) = named.index_of(key) else {
            return false;
        };
        if !self.ready.is_out(n) {
            return false;
        }
        self.ready.done(named.dag(), n);
        true
    }

    /// Marks the node with this key as failed, and returns whether it was in progress. If it was
    /// not, or if there is no such node, nothing changes.
    ///
    /// The node is then no longer in progress, and all nodes that depend on it, directly or through
    /// others, are skipped.
    ///
    /// # Complexity
    ///
    /// O(1) on average: one hash lookup.
    ///
    /// # Examples
    ///
    /// ```
    /// let mut plan: Named<&'static str, u32, ()> = Named::new(rt.alloc());
    /// plan.add_node("sow", 1)?;
    /// plan.add_node("reap", 2)?;
    /// plan.add_node("mow", 1)?;
    /// plan.add_dependency(Dependency { dependent: "reap", on: "sow" }, ())?;
    /// let mut ready = plan.ready()?;
    /// // `next` did not return it yet.
    /// assert!(rt; !ready.fail("sow"));
    /// assert!(rt; ready.next() == Some(&"sow") && ready.next() == Some(&"mow"));
    /// assert!(rt; ready.fail("sow") && ready.done("mow"));
    /// assert!(rt; ready.is_failed("sow") && !ready.is_failed("mow"));
    /// // "reap" is skipped.
    /// assert!(rt; ready.next().is_none() && ready.is_over());
    /// ```
    pub fn fail<Q: Equivalent<K>>(&mut self, key: Q) -> bool
        ensures was_out { IsTrue result
            ↔ ForNode (Q.equivalent key) self.old.named.keys (IsInProgress self.old.queue) }
        ensures failed { IsTrue result → ForNode (Q.equivalent key) self.old.named.keys
            (λ n. (m : ℕ) → IsSet self.new.queue.failed m
            ↔ (IsSet self.old.queue.failed m ⊎ (m ≡ n))) }
        ensures work { self.new.queue.work ≡ self.old.queue.work }
        ensures named { self.new.named ≡ self.old.named }
        ensures unchanged { IsFalse result → self.new ≡ self.old }
    {
        let named = self.named;
        let Some(n) = named.index_of(key) else {
            return false;
        };
        if !self.ready.is_out(n) {
            return false;
        }
        self.ready.fail(named.dag(), n);
        true
    }

    /// How many keys [`next`](ReadyKeys::next) has not returned, including those of skipped nodes. It
    /// decreases by one with each key that is returned, so it bounds a loop over
    /// [`next`](ReadyKeys::next).
    ///
    /// # Complexity
    ///
    /// O(1).
    pub fn remaining(&self) -> usize
        ensures { result ≡ remaining_of self.now.named.graph self.now.queue.work }
    {
        let named = self.named;
        // Called only for its contract: the sum is not greater.
        let _count = named.node_count();
        self.ready.ready_count() + self.ready.waiting_count(named.dag())
    }

    /// How many nodes are in progress.
    ///
    /// # Complexity
    ///
    /// O(1).
    ///
    /// # Examples
    ///
    /// ```
    /// let mut plan: Named<&'static str, u32, ()> = Named::new(rt.alloc());
    /// plan.add_node("sow", 1)?;
    /// plan.add_node("mow", 1)?;
    /// let mut ready = plan.ready()?;
    /// assert!(rt; ready.remaining() == 2 && ready.out_count() == 0);
    /// assert!(rt; ready.next() == Some(&"sow"));
    /// assert!(rt; ready.remaining() == 1 && ready.out_count() == 1);
    /// assert!(rt; ready.done("sow"));
    /// assert!(rt; ready.remaining() == 1 && ready.out_count() == 0);
    /// ```
    pub fn out_count(&self) -> usize
        ensures { result ≡ in_progress_count self.now.queue }
    {
        self.ready.out_count()
    }

    /// How many nodes failed.
    ///
    /// # Complexity
    ///
    /// O(1).
    ///
    /// # Examples
    ///
    /// ```
    /// let mut plan: Named<&'static str, u32, ()> = Named::new(rt.alloc());
    /// plan.add_node("sow", 1)?;
    /// let mut ready = plan.ready()?;
    /// assert!(rt; ready.next() == Some(&"sow") && ready.failed_count() == 0);
    /// assert!(rt; ready.fail("sow"));
    /// assert!(rt; ready.failed_count() == 1 && ready.out_count() == 0);
    /// ```
    pub fn failed_count(&self) -> usize
        ensures { result ≡ set_count self.now.queue.failed }
    {
        self.ready.failed_count()
    }

    /// Whether no node is ready and none is in progress: each node whose key was returned is done
    /// or has failed, and no other key will be returned.
    ///
    /// # Complexity
    ///
    /// O(1).
    pub fn is_over(&self) -> bool
        ensures { IsTrue result ↔ IsOver self.now.queue }
    {
        self.ready.is_over()
    }

    /// Whether all nodes are done: none is ready, none is in progress, and none has failed.
    ///
    /// # Complexity
    ///
    /// O(1).
    pub fn is_finished(&self) -> bool
        ensures value { IsTrue result ↔ IsIdle self.now.queue.work }
        ensures under_way { IsUnderWayWithFailures self.now.named.graph self.now.queue }
    {
        self.ready.is_over() && self.ready.failed_count() == 0
    }

    /// Returns the keys of the nodes that depend on a node that failed, directly or through others,
    /// in ascending order of the nodes' indices: [`next`](ReadyKeys::next) will never return them.
    /// When the work is over, they are all the keys that it has not returned.
    ///
    /// # Errors
    ///
    /// Returns `AllocError` if an allocation fails.
    ///
    /// # Complexity
    ///
    /// O(node slots + edges that leave nodes that failed or are skipped).
    ///
    /// # Examples
    ///
    /// ```
    /// let mut plan: Named<&'static str, u32, ()> = Named::new(rt.alloc());
    /// plan.add_node("reap", 3)?;
    /// plan.add_node("hoe", 2)?;
    /// plan.add_node("sow", 1)?;
    /// plan.add_dependency(Dependency { dependent: "hoe", on: "sow" }, ())?;
    /// plan.add_dependency(Dependency { dependent: "reap", on: "hoe" }, ())?;
    /// let mut ready = plan.ready()?;
    /// assert!(rt; ready.next() == Some(&"sow"));
    /// assert!(rt; ready.skipped()?.is_empty());
    /// assert!(rt; ready.fail("sow"));
    /// assert!(rt; ready.skipped()?.as_slice() == [&"reap", &"hoe"].as_slice());
    /// ```
    pub fn skipped(&self) -> Result<Vec<&'a K>, AllocError>
        ensures { IfOk result (λ keys. AreKeysOf self.now.named.keys
            (AreSkipped self.now.named.graph self.now.queue) (map (λ k. k.now) keys.items)) }
    {
        let named = self.named;
        let nodes = self.ready.skipped(named.dag.allocator(), named.dag())?;
        named.keys_of(nodes.as_slice())
    }
}

impl<'a, K: Eq + Hash, N: Drop, E: Drop, Ix: IndexType> fmt::Debug for ReadyKeys<'a, K, N, E, Ix> {
    fn fmt<W: fmt::Write>(&self, f: &mut fmt::Formatter<W>) -> fmt::Result {
        f.debug_struct("ReadyKeys").finish_non_exhaustive()
    }
}

impl<K: Eq + Hash + Drop, N: Drop, E: Drop, Ix: IndexType> Named<K, N, E, Ix> {
    /// A queue of the keys of the nodes that are ready. At first these are the nodes that depend on
    /// nothing, in ascending index order, and none has failed.
    ///
    /// # Errors
    ///
    /// Returns `AllocError` if an allocation fails.
    ///
    /// # Complexity
    ///
    /// O(node slots + edges).
    ///
    /// # Examples
    ///
    /// ```
    /// let mut plan: Named<&'static str, u32, ()> = Named::new(rt.alloc());
    /// plan.add_node("sow", 1)?;
    /// plan.add_node("hoe", 2)?;
    /// plan.add_node("reap", 3)?;
    /// plan.add_dependency(Dependency { dependent: "hoe", on: "sow" }, ())?;
    /// plan.add_dependency(Dependency { dependent: "reap", on: "hoe" }, ())?;
    /// let mut ready = plan.ready()?;
    /// let mut keys = Vec::new(rt.alloc());
    /// for _ in 0..ready.remaining() {
    ///     if let Some(key) = ready.next() {
    ///         keys.push(key)?;
    ///         ready.done(key);
    ///     }
    /// }
    /// assert!(rt; keys.as_slice() == [&"sow", &"hoe", &"reap"].as_slice());
    /// ```
    pub fn ready(&self) -> Result<ReadyKeys<'_, K, N, E, Ix>, AllocError>
        ensures named { IfOk result (λ r. r.named ≡ self.now) }
        ensures ready { IfOk result (λ r. r.queue.work.ready
            ≡ filter (has_no_parents self.now.graph) (node_identifiers self.now.graph)) }
        ensures none_out { IfOk result (λ r. (n : ℕ) → ¬ IsSet r.queue.work.out n) }
        ensures none_failed { IfOk result (λ r. (n : ℕ) → ¬ IsSet r.queue.failed n) }
    {
        let ready = FallibleReady::new(self.dag.allocator(), &self.dag)?;
        Ok(ReadyKeys { named: self, ready })
    }
}
