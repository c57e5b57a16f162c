//! The data of a node of a `Computed`.

/// The formula and the value of a node.
///
/// # Examples
///
/// ```
/// let mut sums: ComputedDag<u32, u32, ()> = ComputedDag::new(rt.alloc());
/// let hens = sums.add(3)?;
/// let same = |formula: &u32, _inputs: Inputs<'_, u32>| -> Result<u32, ()> { Ok(*formula) };
/// assert!(rt; sums.refresh(same).is_ok());
/// assert!(rt; sums.set(hens, 4) == 3);
/// let cell = sums.remove(hens);
/// assert!(rt; cell.formula == 4 && cell.value == Some(3) && cell.stale);
/// ```
#[derive(Debug, PartialEq, Drop)]
pub struct Cell<K, V> {
    /// What the node's value is computed from, in addition to the values of its parents.
    pub formula: K,
    /// The value that was computed last, or `None` if none has been computed yet.
    pub value: Option<V>,
    /// Whether the formula, the parents or the value of a parent has changed since the value was
    /// computed. If so, the next refresh computes it again.
    pub stale: bool,
}
