//! The components that a search found.
ghost use Rattle.std.specs.Prelude.{◌≡◌, ℕ, ◌<◌, ◌≤◌, ◌^◌, ◌↔◌, Some, Contains, length, map};
ghost use Rattle.std.specs.Prelude.{vec_len, slice_range};
ghost use Rattle.std.specs.Iterator.{YieldsFirstBy, item_count};
ghost use Rattle.daggy_components.specs.Components.{component};
ghost use Rattle.daggy_components.specs.Stored.{cut, AreStored};

use daggy_base::index::{IndexType, NodeIndex};
use daggy_base::link::Link;
use std::alloc::AllocError;
use std::fmt;
use std::iter::{ExactSizeIterator, FusedIterator};
use std::marker::Model;

/// The components of a graph, numbered from 0: the members of each, and the component of each node.
///
/// It allocates memory for two indices per node and a number per component.
///
/// # Examples
///
/// ```
/// let mut graph: DiGraph<&'static str, ()> = DiGraph::new(rt.alloc());
/// let hen = graph.add_node("hen")?;
/// let egg = graph.add_node("egg")?;
/// let cake = graph.add_node("cake")?;
/// graph.add_edge(hen, egg, ())?;
/// graph.add_edge(egg, hen, ())?;
/// graph.add_edge(egg, cake, ())?;
/// let components = strongly_connected_components(rt.alloc(), &mut Reading::new(&graph))?;
/// assert!(rt; components.count() == 2);
/// // A component has a lower number than those that lead to it.
/// assert!(rt; components.component_of(cake) == Some(0));
/// assert!(rt; components.component_of(egg) == Some(1));
/// assert!(rt; components.iter().map(|members| members.len()).max() == Some(2));
/// ```
#[derive(Drop)]
pub struct Components<Ix: IndexType> {
    // The members of the first component, then those of the second, and so on.
    nodes: Vec<NodeIndex<Ix>>,
    // Where the members of each component end.
    ends: Vec<usize>,
    // For each slot of a node, the last slot less the number of its component, or `end` if it is
    // vacant.
    places: Vec<Link<Ix>>,
}

impl<Ix: IndexType> Model for Components<Ix> {
    ghost use Rattle.std.specs.Prelude.{ℕ, List, map};
    ghost use Rattle.daggy_components.specs.Stored.{cut, AreStored};

    ghost Value = { List (List ℕ) };

    ghost view = { λ c. cut 0 c.ends.items (map Ix.number c.nodes.items) };

    ghost invariant = { λ c.
        AreStored Ix.greatest (map Ix.number c.nodes.items) c.ends.items c.places.items
        (cut 0 c.ends.items (map Ix.number c.nodes.items)) };
}

// Some of the nodes, from one position up to another.
fn between<Ix: IndexType>(nodes: &Vec<NodeIndex<Ix>>, from: usize, to: usize) -> &[NodeIndex<Ix>]
    requires order { from ≤ to }
    requires within { to ≤ vec_len nodes.now }
    ensures { result.now ≡ slice_range nodes.now.items from to }
{
    &nodes[from..to]
}

impl<Ix: IndexType> Components<Ix> {
    // What a search found.
    pub(crate) fn of(nodes: Vec<NodeIndex<Ix>>, ends: Vec<usize>, places: Vec<Link<Ix>>) -> Self
        requires { AreStored Ix.greatest (map Ix.number nodes.items) ends.items places.items
            (cut 0 ends.items (map Ix.number nodes.items)) }
        ensures { result ≡ cut 0 ends.items (map Ix.number nodes.items) }
    {
        Components {
            nodes,
            ends,
            places,
        }
    }

    /// How many components there are.
    #[inline]
    pub fn count(&self) -> usize
        ensures { result ≡ length self.now }
    {
        self.ends.len()
    }

    /// The members of each component, in the order of the components' numbers.
    #[inline]
    pub fn iter(&self) -> Iter<'_, Ix>
        ensures rest { result ≡ self.now }
        ensures fits { length result < 2 ^ 64 }
    {
        Iter {
            components: self,
            next: 0,
            count: self.count(),
        }
    }

    /// The members of the component `k`, or none if there is no such component.
    ///
    /// # Examples
    ///
    /// ```
    /// let mut graph: DiGraph<&'static str, ()> = DiGraph::new(rt.alloc());
    /// let hen = graph.add_node("hen")?;
    /// let components = weakly_connected_components(rt.alloc(), &graph)?;
    /// assert!(rt; components.members(0) == [hen].as_slice());
    /// assert!(rt; components.members(1).is_empty());
    /// ```
    pub fn members(&self, k: usize) -> &[NodeIndex<Ix>]
        ensures { map Ix.number result.now ≡ component self.now k }
    {
        if k >= self.ends.len() {
            return &[];
        }
        let begin = if k == 0 { 0 } else { self.ends[k - 1] };
        between(&self.nodes, begin, self.ends[k])
    }

    /// The number of the component that a node belongs to, if the node exists.
    pub fn component_of(&self, n: NodeIndex<Ix>) -> Option<usize>
        ensures { (k : ℕ) → (result ≡ Some k) ↔ Contains (component self.now k) (Ix.number n) }
    {
        match self.places.get(n.index()) {
            Some(place) => {
                let at = place.index();
                if at < self.places.len() {
                    Some(self.places.len() - 1 - at)
                } else {
                    None
                }
            }
            None => None,
        }
    }
}

/// The members of each component, in the order of the components' numbers, as
/// [`iter`](Components::iter) returns them.
#[derive(Drop)]
pub struct Iter<'a, Ix: IndexType> {
    components: &'a Components<Ix>,
    next: usize,
    count: usize,
}

impl<'a, Ix: IndexType> Model for Iter<'a, Ix> {
    ghost use Rattle.std.specs.Prelude.{◌≡◌, ◌≤◌, ℕ, List, drop, length};

    ghost Value = { List (List ℕ) };

    ghost view = { λ it. drop it.next it.components.now };

    ghost invariant = { λ it.
        (it.next ≤ it.count) × (it.count ≡ length it.components.now) };
}

impl<'a, Ix: IndexType> Iterator for Iter<'a, Ix> {
    type Item = &'a [NodeIndex<Ix>];

    ghost next_gives = { YieldsFirstBy (λ s. map Ix.number s.now) (λ rest. rest) };

    ghost remaining = { item_count (λ rest. rest) };

    fn next(&mut self) -> Option<&'a [NodeIndex<Ix>]> {
        if self.next == self.count {
            return None;
        }
        let members = self.components.members(self.next);
        self.next += 1;
        Some(members)
    }

    #[inline]
    fn size_hint(&self) -> (usize, Option<usize>) {
        let left = self.len();
        (left, Some(left))
    }
}

impl<'a, Ix: IndexType> ExactSizeIterator for Iter<'a, Ix> {
    #[inline]
    fn len(&self) -> usize {
        self.count - self.next
    }
}

impl<'a, Ix: IndexType> FusedIterator for Iter<'a, Ix> {}

impl<'a, Ix: IndexType> Clone for Iter<'a, Ix> {
    ghost is_clone = { λ a b. a ≡ b };

    fn clone(&self) -> Result<Self, AllocError> {
        Ok(Iter {
            components: self.components,
            next: self.next,
            count: self.count,
        })
    }
}

impl<'a, Ix: IndexType> fmt::Debug for Iter<'a, Ix> {
    fn fmt<W: fmt::Write>(&self, f: &mut fmt::Formatter<W>) -> fmt::Result {
        f.debug_struct("Iter")
            .field("remaining", &self.len())
            .finish()
    }
}
