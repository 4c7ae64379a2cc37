// An item of a list, read or changed.
#![tactic(auto)]

ghost use Rattle.std.specs.Prelude.{◌≡◌, get_or, set};
ghost use Rattle.std.proofs.lemmas.List.Edits.{sets};

// Item i; past the end `none`.
pub fn get_or<T: Copy + Drop>(items: &[T], i: usize, none: T) -> T
    ensures { result ≡ get_or items.now i none }
{
    items.get(i).copied().unwrap_or(none)
}

// Item i becomes another; past the end nothing changes.
// Kept: (d) a list and the place of one of its items, no buffer with a place to write on from; (c) `get_mut` in place of the test, since its
// contract says nothing of what a slice ends as.
pub fn set<T: Copy + Drop>(items: &mut [T], i: usize, item: T)
    ensures { items.new ≡ set items.old i item }
{
    if i < items.len() {
        items[i] = item;
    }
}

// Items from item i on become others; past the end nothing changes.
// Kept: (d) a list and the place of one of its items, as `set`, which changes each of them here and leaves out those past the end.
#[inline(always)]
pub fn store_all<T: Copy + Drop>(items: &mut [T], i: usize, values: &[T])
    ensures { items.new ≡ sets items.old i values.now }
{
    for (k, value) in values.iter().enumerate() {
        set(items, i.saturating_add(k), *value);
    }
}
