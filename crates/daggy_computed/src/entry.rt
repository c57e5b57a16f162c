//! Values and marks, by the indices of the nodes.
ghost use Rattle.std.specs.Prelude.{◌≡◌, ◌<◌, ◌↔◌, IsTrue, slice_set, vec_len, option_copied};
ghost use Rattle.daggy_computed.specs.Cells.{IsStaleAt, blank, entry_at, value_of, marked_at};
ghost use Rattle.daggy_computed.specs.Settling.{is_new, settled_at};

// What is kept of a node beside its formula.
#[derive(Drop)]
pub(crate) struct Entry<V> {
    pub value: Option<V>,
    pub stale: bool,
}

// Whether there is an entry at an index, and it is stale.
pub(crate) fn is_stale<V>(entries: &[Entry<V>], i: usize) -> bool
    ensures { IsTrue result ↔ IsStaleAt entries.now i }
{
    match entries.get(i) {
        Some(entry) => entry.stale,
        None => false,
    }
}

// The value at an index, if there is one.
pub(crate) fn value_at<V>(entries: &[Entry<V>], i: usize) -> Option<&V>
    ensures { option_copied result ≡ value_of entries.now i }
{
    entries.get(i)?.value.as_ref()
}

// Makes an entry stale.
pub(crate) fn mark<V: Drop>(entries: &mut Vec<Entry<V>>, i: usize)
    requires { i < vec_len entries.old }
    ensures { entries.new.items ≡ marked_at entries.old.items i }
{
    entries[i].stale = true;
}

// Whether a value differs from the last one.
fn differs<V: PartialEq>(last: &Option<V>, value: &V) -> bool
    ensures { result ≡ is_new V.eq last.now value.now }
{
    match last {
        Some(last) => !(*last == *value),
        None => true,
    }
}

// Puts a value that was just computed into an entry, which is not stale any more. A value that equals
// the last one is dropped. Returns whether it was kept.
pub(crate) fn settle<V: PartialEq + Drop>(entries: &mut Vec<Entry<V>>, i: usize, value: V) -> bool
    requires { i < vec_len entries.old }
    ensures changed { result ≡ is_new V.eq (value_of entries.old.items i) value }
    ensures settled { entries.new.items ≡ settled_at V.eq entries.old.items i value }
{
    let entry = &mut entries[i];
    entry.stale = false;
    let changed = differs(&entry.value, &value);
    if changed {
        entry.value = Some(value);
    }
    changed
}

// Takes what is kept at an index, and keeps nothing there.
pub(crate) fn take_entry<V: Drop>(entries: &mut Vec<Entry<V>>, i: usize) -> Entry<V>
    requires { i < vec_len entries.old }
    ensures value { result ≡ entry_at entries.old.items i }
    ensures items { entries.new.items ≡ slice_set entries.old.items i blank }
{
    let blank = Entry {
        value: None,
        stale: false,
    };
    std::mem::replace(&mut entries[i], blank)
}
