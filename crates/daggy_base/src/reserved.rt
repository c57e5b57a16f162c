//! Memory that is reserved before it is written.
ghost use Rattle.std.specs.Prelude.{◌≡◌, ◌≤◌, vec_len, vec_capacity, IsOk, OnOk};

use std::alloc::AllocError;

// The least capacity that is reserved, as in `Vec`.
const LEAST: usize = 4;

/// Reserves capacity for `len` items in all. If the capacity has to grow, it at least doubles.
///
/// An empty list gets a new buffer instead of a grown one: `realloc` would copy the whole old
/// buffer, which holds nothing.
///
/// # Errors
///
/// Returns `AllocError` if an allocation fails; the list is unchanged.
pub fn reserve<T: Drop>(list: &mut Vec<T>, len: usize) -> Result<(), AllocError>
    ensures ok { OnOk result (len ≤ vec_capacity list.new) }
    ensures capacity { vec_capacity list.old ≤ vec_capacity list.new }
    ensures items { list.new.items ≡ list.old.items }
    ensures len { vec_len list.new ≡ vec_len list.old }
    ensures succeeds { len ≤ vec_capacity list.old → IsOk result }
{
    let capacity = list.capacity();
    if capacity < len {
        if list.is_empty() {
            let grown = capacity.saturating_mul(2).max(LEAST);
            *list = Vec::with_capacity(*list.allocator(), len.max(grown))?;
        } else {
            list.reserve(len - list.len())?;
        }
    }
    Ok(())
}
