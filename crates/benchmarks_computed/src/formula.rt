//! What values are made of.

/// What a node's value is made of, beside the values of its parents.
#[derive(Clone, Copy)]
pub enum Formula {
    /// The sum of this number and of the parents' values.
    Sum(i64),
    /// The greatest of them.
    Greatest(i64),
    /// 1 if the sum of the parents' values is over this number, and otherwise 0.
    IsOver(i64),
}

impl Formula {
    /// What the value is made of before the first parent.
    #[inline]
    pub fn first(self) -> i64 {
        match self {
            Formula::Sum(number) | Formula::Greatest(number) => number,
            Formula::IsOver(_) => 0,
        }
    }

    /// The same with one more parent.
    #[inline]
    pub fn joined(self, so_far: i64, value: i64) -> i64 {
        match self {
            Formula::Sum(_) | Formula::IsOver(_) => so_far.wrapping_add(value),
            Formula::Greatest(_) => so_far.max(value),
        }
    }

    /// The value, after all parents.
    #[inline]
    pub fn last(self, so_far: i64) -> i64 {
        match self {
            Formula::Sum(_) | Formula::Greatest(_) => so_far,
            Formula::IsOver(number) => i64::from(so_far > number),
        }
    }

    /// The same formula with this number, if it has a number.
    pub fn with_number(self, number: i64) -> Formula {
        match self {
            Formula::Sum(_) => Formula::Sum(number),
            Formula::Greatest(_) => Formula::Greatest(number),
            Formula::IsOver(limit) => Formula::IsOver(limit),
        }
    }
}

/// The number of a node in a round, below 2 ^ 20.
#[inline]
pub fn number(n: usize, round: u32) -> i64 {
    let seed = (n as u64).wrapping_add(u64::from(round) << 32);
    (seed.wrapping_add(1).wrapping_mul(0x9e37_79b9_7f4a_7c15) >> 44).cast_signed()
}
