//! Mutable access to two items of a list at once.
ghost use Rattle.std.specs.Prelude.{◌≢◌, ◌<◌, length, slice_get, slice_set};
ghost use Rattle.daggy_base.specs.Calls.{TakesAtTwo, CalledAtTwo};

/// Calls `f` with mutable references to two items of a list, and returns its result.
///
/// # Complexity
///
/// O(1), plus the call.
#[inline]
pub fn at_two<C, R, F: FnOnce(&mut C, &mut C) -> R>(cells: &mut [C], a: usize, b: usize, f: F) -> R
    requires first { a < length cells.old }
    requires second { b < length cells.old }
    requires different { a ≢ b }
    requires callable { TakesAtTwo F.FnOnce f (slice_get cells.old a) (slice_get cells.old b) }
    ensures { CalledAtTwo F.FnOnce f (slice_get cells.old a) (slice_get cells.old b) result
        (λ x y. slice_set (slice_set cells.old a x) b y) cells.new }
{
    if a < b {
        let (front, back) = cells.split_at_mut(b);
        let x = &mut front[a];
        let y = &mut back[0];
        f(x, y)
    } else {
        let (front, back) = cells.split_at_mut(a);
        let x = &mut back[0];
        let y = &mut front[b];
        f(x, y)
    }
}
