//! A scan takes two keys and includes both, and a caller gives any range of Rust. An empty range has no such keys, so no scan is
//! made for it.

ghost use Rattle.std.specs.Prelude.{◌≡◌, ◌≤◌, ◌+◌, ◌^◌, IfSome, IsNone};
ghost use Rattle.std.specs.Range.Bound.{bound_map, start_index, end_index};

use std::ops::{Bound, RangeBounds};

/// The least and the greatest number of the range, both included, or `None` if it has no number.
pub fn ends_of<B: RangeBounds<u64>>(range: &B) -> Option<(u64, u64)>
    ensures least { B.has_bounds range.now → IfSome result (λ ends. ends.0 ≡ start_index (B.start_bound range.now)) }
    ensures greatest { B.has_bounds range.now → IfSome result (λ ends. ends.1 + 1 ≡ end_index (B.end_bound range.now) (2 ^ 64)) }
    ensures some { IfSome result (λ ends. ends.0 ≤ ends.1) }
    ensures none { B.has_bounds range.now → IsNone result → end_index (B.end_bound range.now) (2 ^ 64) ≤ start_index (B.start_bound range.now) }
{
    let least = least_from(range.start_bound());
    let greatest = greatest_to(range.end_bound());
    match (least, greatest) {
        (Some(least), Some(greatest)) if least <= greatest => Some((least, greatest)),
        _ => None,
    }
}

// The least number from this start on, if there is one.
fn least_from(start: Bound<&u64>) -> Option<u64>
    ensures some { IfSome result (λ least. least ≡ start_index (bound_map (λ x. x.now) start.entry)) }
    ensures none { IsNone result → 2 ^ 64 ≤ start_index (bound_map (λ x. x.now) start.entry) }
{
    match start {
        Bound::Included(least) => Some(*least),
        Bound::Excluded(before) => before.checked_add(1),
        Bound::Unbounded => Some(0),
    }
}

// The greatest number up to this end, if there is one.
fn greatest_to(up_to: Bound<&u64>) -> Option<u64>
    ensures some { IfSome result (λ greatest. greatest + 1 ≡ end_index (bound_map (λ x. x.now) up_to.entry) (2 ^ 64)) }
    ensures none { IsNone result → end_index (bound_map (λ x. x.now) up_to.entry) (2 ^ 64) ≤ 0 }
    ensures within { end_index (bound_map (λ x. x.now) up_to.entry) (2 ^ 64) ≤ 2 ^ 64 }
{
    match up_to {
        Bound::Included(greatest) => Some(*greatest),
        Bound::Excluded(after) => after.checked_sub(1),
        Bound::Unbounded => Some(u64::MAX),
    }
}
