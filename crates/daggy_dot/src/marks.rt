//! The nodes and the edges of a path, looked up in constant time.
ghost use Rattle.std.specs.Prelude.{◌≡◌, ◌==◌, ◌&&◌, ◌||◌, ℕ, IfOk, OnOk};
ghost use Rattle.daggy_dot.specs.Picture.{AreMarks, is_marked, is_step, begins_with};

use daggy_base::index::{IndexType, NodeIndex};
use std::alloc::{AllocError, Global};
use std::collections::HashSet;
use std::marker::Model;

// The nodes of a path, and its steps from one node to the next, by index.
#[derive(Drop)]
pub(crate) struct Marks {
    nodes: HashSet<usize>,
    steps: HashSet<(usize, usize)>,
}

impl Model for Marks {
    ghost use Rattle.daggy_dot.specs.Picture.{Marked};

    ghost Value = { Marked };

    ghost view = { λ marks. record {
      nodes = marks.nodes.keys;
      steps = marks.steps.keys;
    } };
}

impl Marks {
    // The marks of a path.
    pub(crate) fn new<Ix: IndexType>(
        alloc: Global,
        path: &[NodeIndex<Ix>],
    ) -> Result<Marks, AllocError>
        ensures { IfOk result (AreMarks Ix.number path.now) }
    {
        let mut marks = Marks {
            nodes: HashSet::new(alloc),
            steps: HashSet::new(alloc),
        };
        let mut rest = path;
        while let Some((n, after)) = rest.split_first() {
            marks.add(*n, after)?;
            rest = after;
        }
        Ok(marks)
    }

    // Marks a node, and the step to the one after it.
    fn add<Ix: IndexType>(
        &mut self,
        n: NodeIndex<Ix>,
        after: &[NodeIndex<Ix>],
    ) -> Result<(), AllocError>
        ensures nodes { OnOk result ((q : ℕ) → is_marked self.new q
            ≡ (Ix.number n == q || is_marked self.old q)) }
        ensures steps { OnOk result ((a b : ℕ) → is_step self.new a b
            ≡ ((Ix.number n == a && begins_with Ix.number after.now b) || is_step self.old a b)) }
    {
        self.add_node(n.index())?;
        match after.first() {
            Some(next) => self.add_step(n.index(), next.index()),
            None => Ok(()),
        }
    }

    fn add_node(&mut self, n: usize) -> Result<(), AllocError>
        ensures nodes { OnOk result ((q : ℕ) → is_marked self.new q
            ≡ (n == q || is_marked self.old q)) }
        ensures steps { OnOk result (self.new.steps ≡ self.old.steps) }
    {
        self.nodes.insert(n)?;
        Ok(())
    }

    fn add_step(&mut self, a: usize, b: usize) -> Result<(), AllocError>
        ensures nodes { OnOk result (self.new.nodes ≡ self.old.nodes) }
        ensures steps { OnOk result ((c d : ℕ) → is_step self.new c d
            ≡ ((a == c && b == d) || is_step self.old c d)) }
    {
        self.steps.insert((a, b))?;
        Ok(())
    }

    // Whether the path passes through the node with this index.
    pub(crate) fn has_node(&self, n: usize) -> bool
        ensures { result ≡ is_marked self.now n }
    {
        self.nodes.contains(&n)
    }

    // Whether the path goes from `a` to `b` in one step.
    pub(crate) fn has_step(&self, a: usize, b: usize) -> bool
        ensures { result ≡ is_step self.now a b }
    {
        self.steps.contains(&(a, b))
    }
}
