//! Values in slots.

ghost use Rattle.std.specs.Prelude.{◌≡◌, ◌≢◌, ◌<◌, ◌≤◌, ℕ, length, slice_index_or, vec_capacity};

/// Puts a value into a slot. Slots that were never used are made as the first of them is.
pub fn put_at<T: Copy>(items: &mut Vec<T>, slot: usize, item: &T)
    requires { slot < vec_capacity items.old }
    ensures there { (d : T) → slice_index_or items.new.items slot d ≡ item.now }
    ensures others { (k : ℕ) → (d : T) → k ≢ slot → k < length items.old.items →
        slice_index_or items.new.items k d ≡ slice_index_or items.old.items k d }
    ensures slot { slot < length items.new.items }
    ensures grows { length items.old.items ≤ length items.new.items }
    ensures capacity { vec_capacity items.new ≡ vec_capacity items.old }
{
    if slot < items.len() {
        items[slot] = *item;
        return;
    }
    while items.len() <= slot {
        items.push_reserved(*item);
    }
}
