//! The two kinds of graph.

/// What a removal does with the index that it frees.
///
/// # Examples
///
/// ```
/// fn moves_last<D: GuardedDag<u32, u32, u32>>(_dag: &D) -> bool {
///     D::KIND == Kind::Compact
/// }
///
/// let dag: Dag<u32, u32> = Dag::new(rt.alloc());
/// assert!(rt; moves_last(&dag));
/// let dag: StableDag<u32, u32> = StableDag::new(rt.alloc());
/// assert!(rt; !moves_last(&dag));
/// ```
#[derive(Clone, Copy, Debug, PartialEq, Eq)]
pub enum Kind {
    /// The last node or edge is moved into the freed index.
    Compact,
    /// The slot stays vacant, and no other index changes.
    Stable,
}
