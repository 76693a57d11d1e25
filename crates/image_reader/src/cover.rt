//! Where in an index a range of the image begins. Offsets are bytes from 0, and entries are numbered from 0.

ghost use Rattle.std.specs.Prelude.{◌<◌, ◌≤◌, ℕ};
ghost use Rattle.caibx_codec.specs.Listing.{count_of, end_of};

use caibx_codec::index::Index;

/// The first entry that ends past this offset, or the number of entries where none does. It is found by bisection.
pub fn first_past(index: &Index, at: u64) -> usize
    ensures inside { result ≤ count_of index.now }
    ensures before { (i : ℕ) → i < result → end_of index.now i ≤ at }
    ensures first { result < count_of index.now → at < end_of index.now result }
{
    index.rules();
    let mut low = 0;
    let mut high = index.count();
    while low < high {
        let middle = low + (high - low) / 2;
        if index.end(middle) <= at {
            low = middle + 1;
        } else {
            high = middle;
        }
    }
    low
}
