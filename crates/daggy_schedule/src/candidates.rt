//! A priority queue of nodes with keys.
ghost use Rattle.std.specs.Prelude.{◌≡◌, ◌<◌, ◌≤◌, ◌∷◌, [], ℕ, length, IsNone, IfSome, IfOk, OnOk};
ghost use Rattle.std.specs.Prelude.{Contains, IsPermutation};
ghost use Rattle.std.specs.List.{AllByRecursion};
ghost use Rattle.daggy_schedule.specs.LeastFirst.{Precedes};

use daggy_base::index::{IndexType, NodeIndex};
use std::alloc::{AllocError, Global};
use std::cmp::Reverse;
use std::collections::BinaryHeap;
use std::marker::Model;

// Nodes with their keys. The node with the least key is taken first; ties go to the smallest index.
#[derive(Drop)]
pub(crate) struct Candidates<K: Ord, Ix: IndexType> {
    heap: BinaryHeap<Reverse<(K, NodeIndex<Ix>)>>,
}

impl<K: Ord, Ix: IndexType> Model for Candidates<K, Ix> {
    ghost use Rattle.std.specs.BinaryHeap.{IsHeap, heap_items, heap_capacity};
    ghost use Rattle.daggy_schedule.specs.Entries.{Waiting, entries, turned};

    ghost Value = { Waiting K };

    ghost view = { λ c. record {
      items = entries Ix.number (heap_items c.heap);
      capacity = heap_capacity c.heap;
    } };

    ghost invariant = { λ c. IsHeap (turned K.cmp Ix.number) (heap_items c.heap) };
}

impl<K: Ord + Drop, Ix: IndexType> Candidates<K, Ix> {
    pub fn new(alloc: Global) -> Self
        ensures { result.items ≡ [] }
    {
        Candidates {
            heap: BinaryHeap::new(alloc),
        }
    }

    pub fn with_capacity(alloc: Global, capacity: usize) -> Result<Self, AllocError>
        ensures none { IfOk result (λ c. c.items ≡ []) }
        ensures capacity { IfOk result (λ c. capacity ≤ c.capacity) }
    {
        Ok(Candidates {
            heap: BinaryHeap::with_capacity(alloc, capacity)?,
        })
    }

    pub fn add(&mut self, key: K, n: NodeIndex<Ix>) -> Result<(), AllocError>
        ensures { OnOk result (IsPermutation ((key, Ix.number n) ∷ self.old.items) self.new.items) }
    {
        self.heap.push(Reverse((key, n)))?;
        Ok(())
    }

    // Within the capacity, so that it does not allocate.
    pub fn add_reserved(&mut self, key: K, n: NodeIndex<Ix>)
        requires { length self.old.items < self.old.capacity }
        ensures added { IsPermutation ((key, Ix.number n) ∷ self.old.items) self.new.items }
        ensures capacity { self.old.capacity ≤ self.new.capacity }
    {
        self.heap.push(Reverse((key, n))).unwrap();
    }

    pub fn len(&self) -> usize
        ensures { result ≡ length self.now.items }
    {
        self.heap.len()
    }

    // The least key.
    pub fn first_key(&self) -> Option<K>
    where
        K: Copy,
        ensures none { IsNone result → self.now.items ≡ [] }
        ensures first { IfSome result (λ key. (n : ℕ) × Contains self.now.items (key, n)
            × AllByRecursion (Precedes K.cmp (key, n)) self.now.items) }
    {
        let first = self.heap.peek()?;
        Some(first.0.0)
    }

    pub fn take_first(&mut self) -> Option<(K, NodeIndex<Ix>)>
        ensures none { IsNone result → (self.old.items ≡ []) × (self.new.items ≡ self.old.items) }
        ensures taken { IfSome result (λ p.
            IsPermutation self.old.items ((p.0, Ix.number p.1) ∷ self.new.items)) }
        ensures first { IfSome result (λ p.
            AllByRecursion (Precedes K.cmp (p.0, Ix.number p.1)) self.new.items) }
        ensures capacity { self.old.capacity ≤ self.new.capacity }
    {
        let Reverse(first) = self.heap.pop()?;
        Some(first)
    }
}
