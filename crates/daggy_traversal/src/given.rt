//! A list that only proofs read.
ghost use Rattle.std.specs.Prelude.{◌≡◌, ℕ, List, [], ◌∷◌, ◌++◌};
ghost use Rattle.std.specs.Borrow.{ftrue};

use std::marker::Model;

/// The nodes that a walk has yielded, in order. It exists only in proofs: it takes no bytes, and
/// its methods do nothing at run time.
#[derive(Drop)]
pub struct Given {
    pub ghost nodes: { List ℕ },
}

impl Model for Given {
    ghost also_owns = { λ _. ftrue };
}

impl Given {
    /// An empty list: no node has been yielded yet.
    #[inline]
    pub fn new() -> Given
        ensures { result.nodes ≡ [] }
    {
        Given {}
    }

    #[inline]
    fn and(&self, _n: &usize) -> Given
        ensures { result.nodes ≡ self.now.nodes ++ _n.now ∷ [] }
    {
        Given {}
    }

    /// Appends a node that was yielded.
    #[inline]
    pub fn push(&mut self, n: usize)
        ensures { self.new.nodes ≡ self.old.nodes ++ n ∷ [] }
    {
        *self = self.and(&n);
    }
}
