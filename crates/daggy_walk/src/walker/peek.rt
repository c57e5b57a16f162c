//! `peek`, in a separate module, because its clause names `the_row`, which is generated from the
//! type.
ghost use Rattle.std.specs.Prelude.{◌≡◌, ⊤, option_copied};
ghost use Rattle.std.specs.Borrow.{sem, follows_so};
ghost use mathlib.Core.Option.{none};
ghost use Rattle.daggy_walk.specs.Adapters.{Peeks};
ghost use Rattle.daggy_walk.specs.Parts.{peekable_walker, peekable_held};
ghost use Rattle.daggy_walk.specs.contracts.walker.peekable.Ahead.{the_row};

use crate::walker::Walker;
use crate::walker::peekable::Ahead;

impl<G, W: Walker<G>> Ahead<G, W, W::Item>
where
    W::Item: Drop,
{
    /// Returns the item of the next step. The wrapped walk takes that step now, and the item is
    /// kept until the next step.
    ///
    /// If the walk yields nothing, no item is kept, and the next step tries again.
    ///
    /// # Requires
    ///
    /// - The walker may take a step over `graph`: if it calls a closure, the closure may be called
    ///   with the next item.
    ///
    /// # Complexity
    ///
    /// One step of the walk, unless an item is kept.
    #[inline]
    pub fn peek(&mut self, graph: &G) -> Option<&W::Item>
        requires { W.can_walk (peekable_walker self.old) graph.now }
        ensures* peeks { sem 𝓛 (follows_so (the_row G.row W.row W.Item.row)
            (the_row G.row W.row W.Item.row) self.entry.ghost_name none
            (λ _ _. ⊤) (λ v. (peekable_held v ≡ option_copied result)
            × Peeks (λ w o u. W.walk_gives w graph.now o u)
            (λ w. W.can_walk w graph.now) (λ w. W.items_left w graph.now)
            (peekable_walker self.entry.now) (peekable_held self.entry.now) (peekable_walker v)
            (peekable_held v))) }
    {
        self.fill(graph);
        self.held.as_ref()
    }

    fn fill(&mut self, graph: &G)
        requires { W.can_walk (peekable_walker self.old) graph.now }
        ensures { Peeks (λ w o u. W.walk_gives w graph.now o u)
            (λ w. W.can_walk w graph.now) (λ w. W.items_left w graph.now)
            (peekable_walker self.old) (peekable_held self.old) (peekable_walker self.new)
            (peekable_held self.new) }
    {
        if self.held.is_none() {
            self.held = self.walker.walk_next(graph);
        }
    }
}
