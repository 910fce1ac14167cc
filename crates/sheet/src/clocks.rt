// Vector clocks as arrays of eight counts.
ghost use Rattle.std.specs.Prelude.{◌≡◌, max, EachIndex, slice_index};

use std::array;

// The larger count at each place.
pub(crate) fn merged(a: [u8; 8], b: [u8; 8]) -> [u8; 8]
    ensures { EachIndex result (λ k. slice_index result k ≡ max (slice_index a k) (slice_index b k)) }
{
    array::from_fn(|i| a[i].max(b[i]))
}
